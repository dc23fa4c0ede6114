// Messages for people, with the line that each is about.

use crate::lines::Place;
use crate::prelude::*;

/// How messages for people look.
#[derive(Clone, Copy, PartialEq, Eq)]
pub enum Style {
    /// One line per message.
    Plain,
    /// Also the line of the text, with a caret under the place.
    Caret,
    /// As `Caret`, with colors.
    Color,
}

impl Style {
    /// The escape sequence that begins a color.
    fn color(self, code: &'static str) -> &'static str {
        match self {
            Style::Color => code,
            Style::Plain | Style::Caret => "",
        }
    }
}

const BOLD: &str = "\x1b[1m";

const RED: &str = "\x1b[1;31m";

const YELLOW: &str = "\x1b[1;33m";

const GREEN: &str = "\x1b[1;32m";

const RESET: &str = "\x1b[0m";

/// The longest line, in bytes, that is shown.
const LONGEST: usize = 200;

/// Writes the messages on a text, and which structs are left out.
pub fn write_messages(output: &mut String, source: Source, style: Style) -> Written {
    write_each(output, source.file, source.lines, source.messages, style)?;
    for (index, name) in once(source.alloc, &source.module.left_out)?
        .iter()
        .enumerate()
    {
        let start = if index == 0 { "left out: " } else { ", " };
        write!(output, "{start}{name}")?;
    }
    output.push_str(if source.module.left_out.is_empty() {
        ""
    } else {
        "\n"
    })
}

/// Names, each where it comes first.
pub fn once<'a>(alloc: Global, names: &[&'a str]) -> Result<Vec<&'a str>, AllocError> {
    let mut seen = BTreeMap::new(alloc);
    let mut found = Vec::new(alloc);
    for name in names {
        if seen.insert(*name, ())?.is_none() {
            found.push(*name)?;
        }
    }
    Ok(found)
}

/// Writes messages with their notes. A note has a line of the text only if that isn't the place of its message.
pub fn write_each(
    output: &mut String,
    file: &str,
    lines: &Lines,
    messages: &[Message],
    style: Style,
) -> Written {
    for message in messages {
        let place = lines.place(message.at);
        let (severity, text) = (message.severity, message.text.as_str());
        write_message(output, file, place, severity, text, style)?;
        if style != Style::Plain {
            write_line(output, lines, place, style)?;
        }
        for note in &message.notes {
            let (place, text) = (lines.place(note.at), note.text.as_str());
            write_message(output, file, place, Severity::Note, text, style)?;
            if style != Style::Plain && note.at != message.at {
                write_line(output, lines, place, style)?;
            }
        }
    }
    Ok(())
}

fn write_message(
    output: &mut String,
    file: &str,
    place: Place,
    severity: Severity,
    text: &str,
    style: Style,
) -> Written {
    let color = match severity {
        Severity::Error => RED,
        Severity::Finding => YELLOW,
        Severity::Note => GREEN,
    };
    let Place { line, column, .. } = place;
    let (bold, color, reset) = (style.color(BOLD), style.color(color), style.color(RESET));
    let severity = severity.name();
    write!(
        output,
        "{bold}{file}:{line}:{column}: {color}{severity}: {reset}{text}\n"
    )
}

/// The line of a place, and a caret under it.
fn write_line(output: &mut String, lines: &Lines, place: Place, style: Style) -> Written {
    let line = lines.line(place.line);
    let (Ok(line), true) = (from_utf8(line), line.len() <= LONGEST) else {
        return Ok(());
    };
    let Some(before) = line.get(..place.column.saturating_sub(1)) else {
        return Ok(());
    };
    output.push_str("    ")?;
    for letter in line.chars() {
        output.push(shown(letter))?;
    }
    output.push_str("\n    ")?;
    for letter in before.chars() {
        output.push(if letter == '\t' { letter } else { ' ' })?;
    }
    let (green, reset) = (style.color(GREEN), style.color(RESET));
    write!(output, "{green}^{reset}\n")
}

/// How a letter of a line is shown: no control character but the tab reaches a terminal.
fn shown(letter: char) -> char {
    if letter.is_control() && letter != '\t' {
        ' '
    } else {
        letter
    }
}
