// What is wrong with a text: its errors, and its findings.

use crate::keyword::meant_at;
use crate::prelude::*;
use std::fmt::Debug;
use wgsl_reader::expected::{expected, may_stand_behind};
use wgsl_source::meant::{Declared, meant};
use wgsl_spelling::fault::Cause as SpellingCause;

/// How severe a message is.
#[derive(Clone, Copy, PartialEq, Eq)]
pub enum Severity {
    /// A declaration can't be read.
    Error,
    /// A declaration that was read breaks a rule.
    Finding,
    /// It is about the message in front of it.
    Note,
}

impl Severity {
    /// The word in front of the message.
    pub fn name(self) -> &'static str {
        match self {
            Severity::Error => "error",
            Severity::Finding => "finding",
            Severity::Note => "note",
        }
    }
}

/// What is wrong at an index of the text.
#[derive(Drop)]
pub struct Message {
    pub severity: Severity,
    /// The name of what is wrong, for programs.
    pub kind: String,
    pub at: usize,
    /// The index behind the word that stands there.
    pub end: usize,
    pub text: String,
    pub notes: Vec<Note>,
}

/// What else there is to say of a message, there or at another index.
#[derive(Drop)]
pub struct Note {
    pub at: usize,
    pub end: usize,
    pub text: String,
}

/// The errors of a module's text, and then its findings: uses of what only naga has, and broken rules of address
/// spaces.
pub fn messages_of<'t>(
    alloc: Global,
    text: Text<'t>,
    misread: &[Misread],
    module: &Module<'t>,
    findings: &[Finding],
) -> Result<Vec<Message>, AllocError> {
    let mut messages = Vec::new(alloc);
    let mut left = EXPLAINED;
    for (index, fault) in module.faults.iter().enumerate() {
        let misread = explained(misread, fault.cause, &mut left);
        let declared = if index < GUESSED {
            Some(&module.declared)
        } else {
            None
        };
        messages.push(fault_message(alloc, text, misread, *fault, declared)?)?;
    }
    for fault in &module.naga_only {
        let mut message = fault_message(alloc, text, None, *fault, None)?;
        message.severity = Severity::Finding;
        messages.push(message)?;
    }
    for finding in findings {
        messages.push(finding_message(alloc, text, finding)?)?;
    }
    Ok(messages)
}

/// The error of a fault.
fn fault_message<'t>(
    alloc: Global,
    text: Text<'t>,
    misread: Option<Misread>,
    fault: Fault,
    declared: Option<&Declared<'t>>,
) -> Result<Message, AllocError> {
    let mut told = String::new(alloc);
    match misread {
        Some(misread) => write_misread(&mut told, alloc, text, misread, declared)?,
        None => {
            told.push_str(fault.cause.text())?;
            let word = write_found(&mut told, text, fault)?;
            write_meant(&mut told, word, fault.cause, declared)?;
        }
    }
    Ok(Message {
        severity: Severity::Error,
        kind: kind_of(alloc, &fault.cause)?,
        at: fault.at,
        end: text.end_of_token(fault.at),
        text: told,
        notes: Vec::new(alloc),
    })
}

/// What the grammar says of the declaration that has this fault, if it is explained.
fn explained(misread: &[Misread], cause: Cause, left: &mut usize) -> Option<Misread> {
    let found = match cause {
        Cause::Misread(index) => misread.get(index).copied()?,
        _ => return None,
    };
    is_explained(found, left).then_some(found)
}

/// Whether as many tokens are left to be explained as stand in front of this fault. Then they are fewer.
pub fn is_explained(misread: Misread, left: &mut usize) -> bool {
    let front = misread.at.saturating_sub(misread.from).saturating_add(1);
    match left.checked_sub(front) {
        Some(rest) => {
            *left = rest;
            true
        }
        None => false,
    }
}

/// Writes what may stand where a declaration can't be read, and what stands there.
pub fn write_misread<'t>(
    output: &mut String,
    alloc: Global,
    text: Text<'t>,
    misread: Misread,
    declared: Option<&Declared<'t>>,
) -> Written {
    let front = text.tokens.get(misread.from..misread.at).unwrap_or(&[]);
    let token = text.token(misread.at);
    let fault = Fault {
        at: token.at,
        cause: Cause::Misread(0),
    };
    if token.kind == Kind::Less
        && may_stand_behind(alloc, misread.rule, front, Kind::OpenTemplate)?
        && !may_stand_behind(alloc, misread.rule, front, Kind::Period)?
    {
        return output.push_str(SpellingCause::OpenList.text());
    }
    output.push_str(&expected(alloc, misread.rule, front)?)?;
    write_found(output, text, fault)?;
    if is_operator(token.kind)
        && may_stand_behind(alloc, misread.rule, front, Kind::Period)?
        && !may_stand_behind(alloc, misread.rule, front, Kind::Equal)?
    {
        output.push_str("; this operator needs parentheses")
    } else if declared.is_some() {
        write_keyword(output, alloc, text, misread)
    } else {
        Ok(())
    }
}

/// Writes the keyword that a word of a misread declaration may have meant.
fn write_keyword(output: &mut String, alloc: Global, text: Text, misread: Misread) -> Written {
    let Some((index, keyword)) = meant_at(alloc, misread, text.tokens, text.text)? else {
        return Ok(());
    };
    write!(output, "; did you mean `{keyword}")?;
    if index != misread.at {
        let word = Visible(text.word(text.token(index)));
        write!(output, "` for `{word}")?;
    }
    output.push_str("`?")
}

/// Whether a token is an operator with two operands.
fn is_operator(kind: Kind) -> bool {
    matches!(
        kind,
        Kind::And
            | Kind::AndAnd
            | Kind::EqualEqual
            | Kind::Greater
            | Kind::GreaterEqual
            | Kind::Less
            | Kind::LessEqual
            | Kind::Minus
            | Kind::NotEqual
            | Kind::Or
            | Kind::OrOr
            | Kind::Percent
            | Kind::Plus
            | Kind::ShiftLeft
            | Kind::ShiftRight
            | Kind::Slash
            | Kind::Star
            | Kind::Xor
    )
}

fn finding_message(alloc: Global, text: Text, finding: &Finding) -> Result<Message, AllocError> {
    let mut told = String::new(alloc);
    finding.write_to(&mut told)?;
    Ok(Message {
        severity: Severity::Finding,
        kind: kind_of(alloc, &finding.trouble)?,
        at: finding.subject.at,
        end: text.end_of_token(finding.subject.at),
        text: told,
        notes: Vec::new(alloc),
    })
}

/// The name of a variant.
fn kind_of(alloc: Global, of: &impl Debug) -> Result<String, AllocError> {
    let mut name = String::new(alloc);
    let written = format!(in alloc; "{of:?}")?;
    for letter in written
        .chars()
        .take_while(|letter| letter.is_ascii_alphabetic())
    {
        name.push(letter)?;
    }
    Ok(name)
}

/// How many characters of a word a message quotes.
const QUOTED: usize = 40;

/// How many tokens of misread declarations are read again, once for each kind of token, to tell what may stand there.
pub const EXPLAINED: usize = 20000;

/// How many errors of a text are told with a name that the word may have meant.
const GUESSED: usize = 50;

/// Writes the beginning of the word that stands where something is wrong. Returns the word.
fn write_found<'t>(
    output: &mut String,
    text: Text<'t>,
    fault: Fault,
) -> Result<&'t str, AllocError> {
    let (start, word, end) = match (fault.cause, word_at(text, fault.at)) {
        (Cause::NoComponent, Some(word)) => (": `", word, "f`"),
        (Cause::NotUtf8 | Cause::OpenComment | Cause::ByteOrderMark, _) => ("", "", ""),
        (Cause::Expected(_) | Cause::Misread(_), Some(word)) => (", found `", word, "`"),
        (Cause::Expected(_) | Cause::Misread(_), None) => (", found the end", "", ""),
        (_, Some(word)) => (": `", word, "`"),
        (_, None) => ("", "", ""),
    };
    let (quoted, dots) = beginning(word);
    let quoted = Visible(quoted);
    write!(output, "{start}{quoted}{dots}{end}")?;
    Ok(word)
}

/// Writes what a word may have meant, if the declared names are given.
fn write_meant<'t>(
    output: &mut String,
    word: &'t str,
    cause: Cause,
    declared: Option<&Declared<'t>>,
) -> Written {
    let name = match declared {
        Some(declared) => meant(cause, word, declared),
        None => None,
    };
    match name {
        Some(name) if name != word => write!(output, "; did you mean `{name}`?"),
        _ => Ok(()),
    }
}

/// The beginning of a word, and dots for what follows.
pub fn beginning(word: &str) -> (&str, &str) {
    let mut end: usize = 0;
    for letter in word.chars().take(QUOTED) {
        end = end.saturating_add(letter.len_utf8());
    }
    match word.get(..end) {
        Some(quoted) if end < word.len() => (quoted, ".."),
        _ => (word, ""),
    }
}

/// The word that stands at an index.
fn word_at<'t>(text: Text<'t>, at: usize) -> Option<&'t str> {
    let end = text.end_of_token(at);
    if end == at {
        None
    } else {
        text.text.get(at..end)
    }
}
