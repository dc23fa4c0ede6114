// How a report is written.

use crate::faults::source::Source;
use crate::json::{separator, write_messages};
use crate::message::{Message, Severity, beginning};
use crate::write::{Escaped, Fields, Visible, Written};
use std::alloc::AllocError;
use wgsl_core::ty::show::ShownType;
use wgsl_syntax::rules::RuleSet;
use wgsl_typing::count::with_counts;
use wgsl_typing::expression::shown_type;
use wgsl_typing::fault::Place;
use wgsl_typing::known::{Part, Typed};
use wgsl_typing::stage::Stage;

/// Writes a line per expression that has a type: its place, how it begins, and the type.
pub fn write_types(output: &mut String, source: Source, parts: &[Part]) -> Written {
    for part in parts {
        if let Some(typed) = part.typed() {
            let (at, end) = (source.start(part.place), source.end(part.place));
            write_place(output, source, at)?;
            let (quoted, dots) = beginning(source.text.get(at..end).unwrap_or(""));
            let ty = type_text(source, typed)?;
            let (quoted, ty) = (Visible(quoted), Visible(ty.as_str()));
            write!(output, "`{quoted}{dots}` is {ty}")?;
            output.push_str(match typed.stage {
                Stage::Const => ", a const-expression\n",
                Stage::Override => ", an override-expression\n",
                Stage::Runtime => "\n",
            })?;
        }
    }
    Ok(())
}

/// Writes a line per message, with its code.
pub fn write_short(output: &mut String, source: Source, messages: &[Message]) -> Written {
    for message in messages {
        write_place(output, source, message.at)?;
        let (code, text) = (message.kind.as_str(), message.text.as_str());
        write!(output, "{code}: {text}\n")?;
    }
    Ok(())
}

/// Writes an object on one line.
pub fn write_json(
    output: &mut String,
    source: Source,
    messages: &[Message],
    parts: &[Part],
) -> Written {
    let file = Escaped(source.file);
    write!(output, r#"{{"file":"{file}","faults":["#)?;
    write_messages(output, source.lines, messages, Severity::Error)?;
    output.push_str(r#"],"types":["#)?;
    let mut count: usize = 0;
    for part in parts {
        if let Some(typed) = part.typed() {
            output.push_str(separator(count))?;
            write_type_json(output, source, part, typed)?;
            count = count.saturating_add(1);
        }
    }
    output.push_str("]}\n")
}

fn write_type_json(output: &mut String, source: Source, part: &Part, typed: &Typed) -> Written {
    let (start, end) = (source.start(part.place), source.end(part.place));
    let (start, end) = (
        Fields(source.lines.place(start)),
        Fields(source.lines.place(end)),
    );
    write!(output, r#"{{{start},"end":{{{end}}},"declared":"#)?;
    match part.declared {
        Some(count) => {
            let declared = source.lines.place(source.start(Place::last_of(count)));
            write!(output, "{{{}}}", Fields(declared))?;
        }
        None => output.push_str("null")?,
    }
    let ty = type_text(source, typed)?;
    let (ty, stage) = (Escaped(ty.as_str()), stage_name(typed.stage));
    write!(output, r#","type":"{ty}","stage":"{stage}"}}"#)
}

fn stage_name(stage: Stage) -> &'static str {
    match stage {
        Stage::Const => "const",
        Stage::Override => "override",
        Stage::Runtime => "runtime",
    }
}

fn write_place(output: &mut String, source: Source, at: usize) -> Written {
    let place = source.lines.place(at);
    let (file, line, column) = (source.file, place.line, place.column);
    write!(output, "{file}:{line}:{column}: ")
}

/// The spelling of a type by WGSL's own rules, with counts that overrides give as they are written.
fn type_text(source: Source, typed: &Typed) -> Result<String, AllocError> {
    let shown = ShownType {
        ty: shown_type(typed),
        rules: RuleSet::Standard,
    };
    let text = format!(in source.alloc; "{shown}")?;
    with_counts(source.alloc, text.as_str(), source.counts)
}
