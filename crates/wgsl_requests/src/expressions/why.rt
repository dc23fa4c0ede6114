// Why a line in WGSL can't be read, as a message.
use crate::expressions::prelude::*;
use crate::write::overloads::write_suggestion;
use crate::write::word::SHOWN;
use wgsl_spelling::meant::meant;
use wgsl_standard::callee::overloads;

/// Why a line can't be read.
#[derive(Clone, Copy)]
pub enum Why {
    TooLong,
    NotUtf8,
    /// The index of the byte from which a request is none, and what was expected there.
    Misread(usize, Wanted),
}

/// The kind of the reply to a line, unless memory ran out.
pub type Replied = Made<ReplyKind<Why>>;

/// Writes why a line can't be read.
pub fn write_why(request: &[u8], why: Why, text: &mut String) -> Made<()> {
    match why {
        Why::TooLong => text.push_str("more than 4096 bytes"),
        Why::NotUtf8 => text.push_str("not UTF-8"),
        Why::Misread(at, wanted) => write_misread(request, at, wanted, text),
    }
}

/// Writes what was expected at that byte, and what the name there may mean.
fn write_misread(request: &[u8], at: usize, wanted: Wanted, text: &mut String) -> Made<()> {
    let column = at.saturating_add(1);
    write!(text, "column {column}: ")?;
    match (wanted, token_at(request, at)) {
        (Wanted::Operand, Some(token)) => write_no_type(token, text),
        (Wanted::Type, Some(token)) if is_near_type(token) => write_no_type(token, text),
        (Wanted::Faultless(cause), Some(token)) => {
            text.push_str(cause.text())?;
            write_suggestion(text, meant(cause, token))
        }
        _ => text.push_str(wanted.text()),
    }
}

fn is_near_type(token: &str) -> bool {
    overloads(Callee::Constructor(token), false).is_some() || type_meant(token).is_some()
}

fn type_meant(token: &str) -> Option<&str> {
    meant(Cause::UnknownType, token)
}

/// Writes that a name or a number is no type, and which one it may mean.
fn write_no_type(token: &str, text: &mut String) -> Made<()> {
    write_name(token, text)?;
    if begins_number(token) {
        return text.push_str(" is no literal");
    }
    if overloads(Callee::Constructor(token), false).is_some() {
        return write!(text, " needs its component: `{token}f`");
    }
    match type_meant(token) {
        Some(name) => write!(text, " is no type; did you mean `{name}`?"),
        None => text.push_str(" is no type: write types for names, as `f32 + 1`"),
    }
}

/// The name or the number that begins at that byte, if one does.
fn token_at(request: &[u8], at: usize) -> Option<&str> {
    let rest = std::str::from_utf8(request.get(at..)?).ok()?;
    let is_number = begins_number(rest);
    let ends = |letter: char| !is_in_name(letter) && !(is_number && letter == '.');
    match rest.find(ends).unwrap_or(rest.len()) {
        0 => None,
        length => rest.get(..length),
    }
}

/// Whether a token begins as no name does.
fn begins_number(token: &str) -> bool {
    token.starts_with(|first: char| first.is_ascii() && !first.is_ascii_alphabetic())
}

/// Whether a name may have the letter in it: beyond ASCII each but the blanks.
fn is_in_name(letter: char) -> bool {
    match letter {
        '\u{85}' | '\u{200e}' | '\u{200f}' | '\u{2028}' | '\u{2029}' => false,
        _ => !letter.is_ascii() || letter.is_ascii_alphanumeric() || letter == '_',
    }
}

/// Writes a name or a number between backticks: its first letters, and `..` if there are more.
fn write_name(name: &str, text: &mut String) -> Made<()> {
    text.push('`')?;
    for letter in name.chars().take(SHOWN) {
        text.push(letter)?;
    }
    if name.chars().count() > SHOWN {
        text.push_str("..")?;
    }
    text.push('`')
}
