// Reports on checked modules: what is wrong, and the types of their expressions.

mod source;
mod write;

use crate::faults::source::Source;
use crate::faults::write::{write_json, write_short, write_types};
use crate::lines::Lines;
use crate::message::{EXPLAINED, Message, Note, Severity, is_explained, write_misread};
use crate::shown::{Style, write_each};
use crate::write::Visible;
use std::alloc::{AllocError, Global};
use std::str::from_utf8;
use wgsl_module::module::{Checked, check, unreadable};
use wgsl_reader::module::Misread;
use wgsl_source::fault::Cause;
use wgsl_source::text::Text;
use wgsl_typing::fault::{Fault, Note as FaultNote, Place, Rule};

/// How a report is written.
#[derive(Clone, Copy, PartialEq, Eq)]
pub enum Form {
    /// For people.
    Messages,
    /// One line per fault: its place, its code and its message.
    Short,
    Json,
}

/// What to report on a text, and how.
#[derive(Clone, Copy)]
pub struct CheckOptions<'a> {
    /// The name of the text's file.
    pub file: &'a str,
    pub form: Form,
    /// Whether the types of expressions are told too.
    pub has_types: bool,
    /// How messages for people look.
    pub style: Style,
}

/// The report on a text.
#[derive(Drop)]
pub struct CheckReport {
    pub text: String,
    /// Whether there is no fault.
    pub is_clean: bool,
}

/// The report on a text, given as bytes.
pub fn check_text(
    alloc: Global,
    bytes: &[u8],
    options: CheckOptions,
) -> Result<CheckReport, AllocError> {
    let lines = Lines::of(alloc, bytes)?;
    match from_utf8(bytes) {
        Ok(text) => {
            let mut checked = check(alloc, Vec::new(alloc), text)?;
            checked
                .parts
                .sort_unstable_by_key(|part| (part.place.from, part.place.to));
            report_checked(alloc, options, &lines, text, &checked)
        }
        Err(error) => {
            let fault = unreadable(alloc, error.valid_up_to(), 0, Cause::NotUtf8.text())?;
            report_checked(alloc, options, &lines, "", &fault)
        }
    }
}

fn report_checked<'a>(
    alloc: Global,
    options: CheckOptions<'a>,
    lines: &'a Lines<'a>,
    text: &'a str,
    checked: &'a Checked,
) -> Result<CheckReport, AllocError> {
    let source = Source {
        alloc,
        file: options.file,
        lines,
        text,
        tokens: &checked.tokens,
        counts: &checked.counts,
    };
    let messages = messages_of(source, &checked.faults, &checked.misread)?;
    let parts = if options.has_types {
        checked.parts.as_slice()
    } else {
        &[]
    };
    let mut output = String::new(alloc);
    match options.form {
        Form::Messages => {
            write_types(&mut output, source, parts)?;
            write_each(&mut output, options.file, lines, &messages, options.style)?;
        }
        Form::Short => {
            write_types(&mut output, source, parts)?;
            write_short(&mut output, source, &messages)?;
        }
        Form::Json => write_json(&mut output, source, &messages, parts)?,
    }
    Ok(CheckReport {
        text: output,
        is_clean: messages.is_empty(),
    })
}

/// The faults as messages.
fn messages_of(
    source: Source,
    faults: &[Fault],
    misread: &[Misread],
) -> Result<Vec<Message>, AllocError> {
    let alloc = source.alloc;
    let (mut messages, mut left) = (Vec::new(alloc), EXPLAINED);
    for fault in faults {
        let (at, end) = (source.start(fault.place), source.end(fault.place));
        let kind = code_of(alloc, fault.rule)?;
        let mut text = String::new(alloc);
        match explained(source.whole(), misread, fault.place, &mut left) {
            Some(found) => write_misread(&mut text, alloc, source.whole(), found, None)?,
            None => write!(text, "{}", Visible(fault.message.as_str()))?,
        }
        let notes = notes_of(source, &fault.notes)?;
        messages.push(Message {
            severity: Severity::Error,
            kind,
            at,
            end,
            text,
            notes,
        })?;
    }
    Ok(messages)
}

/// The notes of a fault, for its message.
fn notes_of(source: Source, notes: &[FaultNote]) -> Result<Vec<Note>, AllocError> {
    let mut told = Vec::new(source.alloc);
    for note in notes {
        let text = format!(in source.alloc; "{}", Visible(note.message.as_str()))?;
        let (at, end) = (source.start(note.place), source.end(note.place));
        told.push(Note { at, end, text })?;
    }
    Ok(told)
}

/// What the grammar doesn't read at the place of a fault, if a token of WGSL is there, and it is among the first that are explained.
pub fn explained(
    text: Text<'_>,
    misread: &[Misread],
    place: Place,
    left: &mut usize,
) -> Option<Misread> {
    let found = misread_at(misread, place.from)?;
    let is_strange = text.strange(text.token(found.at)).is_some();
    if !is_strange && is_explained(found, left) {
        Some(found)
    } else {
        None
    }
}

/// What the grammar doesn't read from a token on.
fn misread_at(misread: &[Misread], at: usize) -> Option<Misread> {
    let index = misread.partition_point(|found| found.at < at);
    match misread.get(index) {
        Some(found) if found.at == at => Some(*found),
        _ => None,
    }
}

/// The word that names a rule, with `-` for a blank.
fn code_of(alloc: Global, rule: Rule) -> Result<String, AllocError> {
    let mut code = String::new(alloc);
    for letter in rule.word().chars() {
        code.push(if letter == ' ' { '-' } else { letter })?;
    }
    Ok(code)
}
