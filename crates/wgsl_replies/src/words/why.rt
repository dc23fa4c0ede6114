// Why a request can't be read, as a message.
use crate::words::prelude::*;
use std::str::FromStr;
use wgsl_requests::write::overloads::write_suggestion;
use wgsl_requests::write::word::write_word;
use wgsl_standard::meant::meant_type;
use wgsl_syntax::scalar::Scalar;

/// Why a request can't be read.
#[derive(Clone, Copy)]
pub enum Why {
    TooLong,
    NotUtf8,
    Word(Misread),
}

/// Writes why the request can't be read.
pub fn write_why(request: &[u8], why: Why, text: &mut String) -> Made<()> {
    let reason = match why {
        Why::TooLong => "more than 4096 bytes",
        Why::NotUtf8 => "not UTF-8",
        Why::Word(misread) => return write_misread(request, misread, text),
    };
    text.push_str(reason)
}

/// Writes the place and the fault of the word that can't be read.
fn write_misread(request: &[u8], misread: Misread, text: &mut String) -> Made<()> {
    let taken = words_up_to(request, misread.taken);
    let (number, wanted) = match misread.misfit {
        Misfit::Wrong(wanted) => (taken, Some(wanted)),
        Misfit::Missing(wanted) => (taken.saturating_add(1), Some(wanted)),
        Misfit::LeftOver => (taken.saturating_add(1), None),
        Misfit::NoStruct => (2, Some(Wanted::Struct)),
    };
    write_fault(request, number, wanted, text)
}

/// Writes the place of the word with this number, and that it is missing, is not what is expected, or is left over.
fn write_fault(
    request: &[u8],
    number: usize,
    wanted: Option<Wanted>,
    text: &mut String,
) -> Made<()> {
    match word_at(request, number) {
        Some((word, end)) => {
            write_place(end.saturating_sub(word.len()), number, text)?;
            write_word(word, text)?;
            write_verdict(word, wanted, text)
        }
        None => {
            write_place(request.len(), number, text)?;
            write_missing(wanted.unwrap_or(Wanted::Type), text)
        }
    }
}

/// Writes the column after that many bytes, and the number of the word there.
fn write_place(before: usize, number: usize, text: &mut String) -> Made<()> {
    let column = before.saturating_add(1);
    write!(text, "column {column}, word {number}: ")
}

fn write_missing(wanted: Wanted, text: &mut String) -> Made<()> {
    let article = wanted.article();
    let noun = wanted.noun();
    write!(text, "{article} {noun} is missing")
}

fn write_verdict(word: &str, wanted: Option<Wanted>, text: &mut String) -> Made<()> {
    let Some(wanted) = wanted else {
        return text.push_str(" is left over");
    };
    let noun = wanted.noun();
    let meant = match wanted {
        Wanted::Type => scalar_meant(word),
        _ => None,
    };
    write!(text, " is no {noun}")?;
    write_suggestion(text, meant)
}

/// The scalar that a word may have meant: the other types are several words.
fn scalar_meant(word: &str) -> Option<&str> {
    match meant_type(word) {
        Some(name) if Scalar::from_str(name).is_ok() => Some(name),
        _ => None,
    }
}

/// How many words end within the first bytes of a request.
fn words_up_to(request: &[u8], taken: usize) -> usize {
    let Some(mut words) = Words::of(request) else {
        return 0;
    };
    for count in 0..taken {
        if words.next(Wanted::Name).is_err() || words.taken() > taken {
            return count;
        }
    }
    taken
}

/// The word with this number, from 1 on, and how many bytes of the request end with it.
fn word_at(request: &[u8], number: usize) -> Option<(&str, usize)> {
    let mut words = Words::of(request)?;
    for _ in 1..number {
        if words.next(Wanted::Name).is_err() {
            return None;
        }
    }
    match words.next(Wanted::Name) {
        Ok(word) => Some((word, words.taken())),
        Err(_) => None,
    }
}
