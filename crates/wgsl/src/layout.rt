// The command `layout`: it prints the layouts of the structs of WGSL files, the bindings of their variables, and what is wrong.

use crate::arguments::{Arguments, Asked, read_arguments};
use crate::failure::Failure;
use crate::files::{read_file, style};
use crate::{CLEAN, FOUND, UNREAD, VERSION, print, refuse};
use std::io::{IsTerminal, Write};
use std::process::ExitCode;
use wgsl_report::report::{ReportOptions, report_on};
use wgsl_report::shown::Style;

const HELP: &str = "\
usage: wgsl layout [--json | --c | --rust | --numpy | --typescript] [--struct NAME]... [--] FILE...

Prints the layout of each struct of WGSL files, where their variables are bound, and what is wrong with them.
FILE - is standard input.

  --struct NAME  of this struct and those inside it alone; also --struct=NAME, and more than once
  --json         the same for programs: an object on a line for each file
  --c            the structs of one file as a C header that checks each offset
  --rust         as Rust
  --numpy        as numpy dtypes
  --typescript   its offsets, sizes and bindings as constants; of these four, what is wrong goes to standard error
  --help, --version

On a terminal each message has its line, with a caret under the place, and colors unless NO_COLOR is set.

Exit status: 0 if nothing is wrong, 1 if there is an error or a finding, 2 if the arguments or a file can't be read or
no struct has the name, 3 if memory ran out or a write failed.
";

/// Does what the words behind `layout` ask for.
pub fn run(rt: &HostRuntime, words: &[String]) -> Result<ExitCode, Failure> {
    match read_arguments(rt.alloc(), words)? {
        Asked::Help => print(rt, HELP),
        Asked::Version => print(rt, VERSION),
        Asked::Report(arguments) => Ok(ExitCode::from(report_all(rt, &arguments)?)),
        Asked::Nothing(misuse) => {
            let (reason, word) = misuse.text();
            Ok(refuse(rt, reason, word, "wgsl layout --help"))
        }
    }
}

/// Reports on each file. Returns the highest status.
fn report_all(rt: &HostRuntime, arguments: &Arguments) -> Result<u8, Failure> {
    let mut is_found = vec![in rt.alloc(); false; arguments.only.len()]?;
    let mut status = CLEAN;
    for file in &arguments.files {
        let one = match read_file(rt, file) {
            Ok(bytes) => report_one(rt, arguments, file, &bytes, &mut is_found)?,
            Err(error) => {
                let _ = eprintln!(rt; "wgsl: {file} can't be read: {error}");
                UNREAD
            }
        };
        status = status.max(one);
    }
    for (name, is_found) in arguments.only.iter().zip(&is_found) {
        if !is_found {
            let _ = eprintln!(rt; "wgsl: no struct is called `{name}`");
            status = UNREAD;
        }
    }
    Ok(status)
}

/// Prints the report on a file, and marks the names that its structs have.
fn report_one(
    rt: &HostRuntime,
    arguments: &Arguments,
    file: &str,
    bytes: &[u8],
    is_found: &mut [bool],
) -> Result<u8, Failure> {
    let options = ReportOptions {
        file,
        only: &arguments.only,
        format: arguments.format,
        style: style_of(rt, arguments),
    };
    let report = report_on(rt.alloc(), bytes, options)?;
    for (mark, is_here) in is_found.iter_mut().zip(&report.is_found) {
        *mark = *mark || *is_here;
    }
    print(rt, report.text.as_str())?;
    let _ = rt.stderr().write_all(report.notes.as_bytes());
    Ok(if report.is_clean { CLEAN } else { FOUND })
}

/// The style of messages for where they are printed.
fn style_of(rt: &HostRuntime, arguments: &Arguments) -> Style {
    let is_terminal = if arguments.format.is_code() {
        rt.stderr().is_terminal()
    } else {
        rt.stdout().is_terminal()
    };
    style(rt, is_terminal)
}
