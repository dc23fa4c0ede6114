// The layouts of a WGSL text, its structs as code, and its check, for C.
ghost use Rattle.std.specs.Prelude.{◌<◌, ◌≤◌, IfOk, MatchOption};
ghost use Rattle.wgsl_c.specs.HandOver.{IsAnswer, IsCode, IsText, IsTold, IsTranslated};

use crate::hand_over::hand_over;
use std::alloc::{AllocError, Global};
use wgsl_replies::request::{Reply, TextKind};
use wgsl_report::faults::{CheckOptions, CheckReport, Form, check_text};
use wgsl_report::report::{Format, Report, ReportOptions, report_on};
use wgsl_report::shown::Style;

/// Writes what `./wgsl layout --json` writes of a text, with an empty name of the file. The status is 0, 3 or 4.
#[unsafe(no_mangle)]
pub extern "C" fn wgsl_source_layout(
    alloc: Global,
    source: &[u8],
    buffer: &mut [u8],
    text_len: &mut usize,
) -> u8
    ensures { IsTold buffer.old buffer.new text_len.new result }
{
    hand_over(&layouts(alloc, source), buffer, text_len)
}

fn layouts(alloc: Global, source: &[u8]) -> Result<Reply, AllocError>
    ensures { IsText result }
{
    let options = ReportOptions {
        file: "",
        only: &[],
        format: Format::Json,
        style: Style::Plain,
    };
    let Report { text, .. } = report_on(alloc, source, options)?;
    Ok(Reply::Answer(TextKind::Answer, text))
}

/// Writes what `./wgsl check --json --types` writes of a text, with an empty name of the file. The status is 0, 3 or 4.
#[unsafe(no_mangle)]
pub extern "C" fn wgsl_module_check(
    alloc: Global,
    source: &[u8],
    buffer: &mut [u8],
    text_len: &mut usize,
) -> u8
    ensures { IsTold buffer.old buffer.new text_len.new result }
{
    hand_over(&checked(alloc, source), buffer, text_len)
}

fn checked(alloc: Global, source: &[u8]) -> Result<Reply, AllocError>
    ensures { IsText result }
{
    let options = CheckOptions {
        file: "",
        form: Form::Json,
        has_types: true,
        style: Style::Plain,
    };
    let CheckReport { text, .. } = check_text(alloc, source, options)?;
    Ok(Reply::Answer(TextKind::Answer, text))
}

/// Writes the structs of a WGSL text in a language, as `./wgsl layout` prints them: 0 is C, 1 Rust, 2 numpy, 3 TypeScript. The status
/// is 1 if the text has errors; those structs are written then that have none.
#[unsafe(no_mangle)]
pub extern "C" fn wgsl_source_code(
    alloc: Global,
    source: &[u8],
    buffer: &mut [u8],
    text_len: &mut usize,
    language: u8,
) -> u8
    ensures { IsTranslated language buffer.old buffer.new text_len.new result }
{
    hand_over(&code(alloc, source, language), buffer, text_len)
}

fn code(alloc: Global, source: &[u8], language: u8) -> Result<Reply, AllocError>
    ensures { IsCode language result }
{
    match format_of(language) {
        Some(format) => code_in(alloc, source, format),
        None => Ok(Reply::Unreadable),
    }
}

fn format_of(language: u8) -> Option<Format>
    ensures { MatchOption result (3 < language) (λ _. language ≤ 3) }
{
    match language {
        0 => Some(Format::C),
        1 => Some(Format::Rust),
        2 => Some(Format::Numpy),
        3 => Some(Format::TypeScript),
        _ => None,
    }
}

fn code_in(alloc: Global, source: &[u8], format: Format) -> Result<Reply, AllocError>
    ensures { IfOk result IsAnswer }
{
    let options = ReportOptions {
        file: "",
        only: &[],
        format,
        style: Style::Plain,
    };
    let Report {
        text,
        has_errors,
        ..
    } = report_on(alloc, source, options)?;
    let kind = if has_errors {
        TextKind::Refusal
    } else {
        TextKind::Answer
    };
    Ok(Reply::Answer(kind, text))
}
