// Reports on texts.

use crate::choice::{Choice, choose};
use crate::forms::numpy::write_numpy;
use crate::forms::structs::write_structs;
use crate::forms::typescript::write_typescript;
use crate::json::write_json;
use crate::prelude::*;
use crate::rules::findings_of;
use crate::table::write_tables;

/// How a report is written.
#[derive(Clone, Copy, PartialEq, Eq)]
pub enum Format {
    Tables,
    Json,
    C,
    Rust,
    Numpy,
    TypeScript,
}

impl Format {
    /// The format that an option of a program asks for.
    pub fn of_option(option: &str) -> Option<Format> {
        match option {
            "--json" => Some(Format::Json),
            "--c" => Some(Format::C),
            "--rust" => Some(Format::Rust),
            "--numpy" => Some(Format::Numpy),
            "--typescript" => Some(Format::TypeScript),
            _ => None,
        }
    }

    /// Whether it is code in another language, so that messages go elsewhere.
    pub fn is_code(self) -> bool {
        !matches!(self, Format::Tables | Format::Json)
    }
}

/// What to report on a text, and how.
#[derive(Clone, Copy)]
pub struct ReportOptions<'a> {
    /// The name of the text's file.
    pub file: &'a str,
    /// The names of the structs to report on; all structs if there is no name.
    pub only: &'a [&'a str],
    pub format: Format,
    /// How messages for people look.
    pub style: Style,
}

/// The report on a text.
#[derive(Drop)]
pub struct Report {
    pub text: String,
    /// The messages, if the text is code.
    pub notes: String,
    /// Whether there are no errors and no findings.
    pub is_clean: bool,
    pub has_errors: bool,
    /// For each name that is asked for, whether a struct has it.
    pub is_found: Vec<bool>,
}

/// The report on a text, given as bytes.
pub fn report_on(
    alloc: Global,
    bytes: &[u8],
    options: ReportOptions,
) -> Result<Report, AllocError> {
    let lines = Lines::of(alloc, bytes)?;
    match from_utf8(bytes) {
        Ok(text) => {
            let tokens = tokens(alloc, bytes)?;
            let text = Text {
                text,
                tokens: &tokens,
            };
            let grammar = wgsl_reader::module::read_module(alloc, &tokens)?;
            let module = read_module(alloc, text, &grammar)?;
            report_module(alloc, options, &lines, text, &grammar.misread, &module)
        }
        Err(error) => {
            let fault = Fault {
                at: error.valid_up_to(),
                cause: Cause::NotUtf8,
            };
            let module = Module::faulty(alloc, fault)?;
            let nothing = Text {
                text: "",
                tokens: &[],
            };
            report_module(alloc, options, &lines, nothing, &[], &module)
        }
    }
}

fn report_module<'t>(
    alloc: Global,
    options: ReportOptions,
    lines: &Lines,
    text: Text<'t>,
    misread: &[Misread],
    module: &Module<'t>,
) -> Result<Report, AllocError> {
    let findings = findings_of(alloc, &*module)?;
    let messages = messages_of(alloc, text, misread, module, &findings)?;
    let Choice {
        is_chosen,
        is_found,
    } = choose(alloc, module, options.only)?;
    let source = Source {
        alloc,
        file: options.file,
        lines,
        module,
        messages: &messages,
        has_all: options.only.is_empty(),
        is_chosen: &is_chosen,
    };
    let mut report = Report {
        text: String::new(alloc),
        notes: String::new(alloc),
        is_clean: messages.is_empty(),
        has_errors: !module.faults.is_empty(),
        is_found,
    };
    write_report(&mut report, source, options)?;
    Ok(report)
}

fn write_report(report: &mut Report, source: Source, options: ReportOptions) -> Written {
    let output = &mut report.text;
    match options.format {
        Format::Tables => write_tables(output, source, options.style),
        Format::Json => write_json(output, source),
        Format::C => write_structs(output, source, Language::C),
        Format::Rust => write_structs(output, source, Language::Rust),
        Format::Numpy => write_numpy(output, source),
        Format::TypeScript => write_typescript(output, source),
    }?;
    if options.format.is_code() {
        write_messages(&mut report.notes, source, options.style)?;
    }
    Ok(())
}
