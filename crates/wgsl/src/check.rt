// The command `check`: it prints what is wrong with WGSL files, and the types of their expressions.

use crate::failure::Failure;
use crate::files::{is_folder, list_folder, read_file, style};
use crate::{CLEAN, FOUND, UNREAD, VERSION, print, refuse};
use std::alloc::{AllocError, Global};
use std::io::IsTerminal;
use std::process::ExitCode;
use wgsl_report::faults::{CheckOptions, Form, check_text};

const HELP: &str = "\
usage: wgsl check [--json | --short] [--types] [--stdin-filename NAME] [--] FILE...

Checks WGSL files by WGSL's own rules on names, types, values and control flow, and prints each fault with its place and notes.
FILE - is standard input. Of a folder each file in it or below it is checked whose name ends in .wgsl; names that begin with a
dot are left out.

  --short                one line per fault, without notes, FILE:LINE:COLUMN: CODE: MESSAGE
  --json                 the same for programs: an object on a line for each file
  --types                also the place and the type of each expression
  --stdin-filename NAME  what standard input is called, which is then checked if there is no FILE; also --stdin-filename=NAME
  --help, --version

On a terminal each fault has its line, with a caret under the place, and colors unless NO_COLOR is set.

Exit status: 0 if nothing is wrong, 1 if there is a fault, 2 if the arguments, a file or a folder can't be read or a folder has
no such file, 3 if memory ran out or a write failed.
";

/// What the arguments ask for.
#[derive(Drop)]
struct Arguments<'a> {
    /// `-` is standard input.
    files: Vec<&'a str>,
    form: Form,
    has_types: bool,
    /// What standard input is called.
    input: Option<&'a str>,
}

/// What a word asks for in place of a check.
#[derive(Clone, Copy)]
enum Asked<'a> {
    Help,
    Version,
    /// Nothing: for this reason, about this word.
    Nothing(&'static str, &'a str),
}

/// Does what the words behind `check` ask for.
pub fn run(rt: &HostRuntime, words: &[String]) -> Result<ExitCode, Failure> {
    let mut arguments = Arguments {
        files: Vec::new(rt.alloc()),
        form: Form::Messages,
        has_types: false,
        input: None,
    };
    match arguments.read(words)? {
        None => Ok(ExitCode::from(check_all(rt, &arguments)?)),
        Some(Asked::Help) => print(rt, HELP),
        Some(Asked::Version) => print(rt, VERSION),
        Some(Asked::Nothing(reason, word)) => Ok(refuse(rt, reason, word, "wgsl check --help")),
    }
}

impl<'a> Arguments<'a> {
    /// Reads the words. Returns what they ask for in place of a check.
    fn read(&mut self, words: &'a [String]) -> Result<Option<Asked<'a>>, AllocError> {
        let (mut names_input, mut has_only_files) = (false, false);
        for word in words {
            let word = word.as_str();
            if names_input {
                names_input = false;
                self.input = Some(word);
            } else if has_only_files || word == "-" || !word.starts_with('-') {
                self.files.push(word)?;
            } else if let Some(name) = word.strip_prefix("--stdin-filename=") {
                self.input = Some(name);
            } else if word == "--" {
                has_only_files = true;
            } else if word == "--stdin-filename" {
                names_input = true;
            } else {
                let asked = self.read_option(word);
                if asked.is_some() {
                    return Ok(asked);
                }
            }
        }
        if names_input {
            return Ok(Some(Asked::Nothing("there is no name behind --stdin-filename", "")));
        }
        if self.files.is_empty() {
            if self.input.is_none() {
                return Ok(Some(Asked::Nothing("there is no file", "")));
            }
            self.files.push("-")?;
        }
        Ok(None)
    }

    fn read_option(&mut self, word: &'a str) -> Option<Asked<'a>> {
        let form = match word {
            "--help" | "-h" => return Some(Asked::Help),
            "--version" => return Some(Asked::Version),
            "--types" => {
                self.has_types = true;
                return None;
            }
            "--json" => Form::Json,
            "--short" => Form::Short,
            _ => return Some(Asked::Nothing("there is no option ", word)),
        };
        if self.form != Form::Messages && self.form != form {
            return Some(Asked::Nothing("another form is asked for beside ", word));
        }
        self.form = form;
        None
    }
}

/// Checks each file. Returns the highest status.
fn check_all(rt: &HostRuntime, arguments: &Arguments) -> Result<u8, Failure> {
    let mut status = CLEAN;
    for file in &arguments.files {
        let one = if *file != "-" && is_folder(rt, file) {
            check_folder(rt, arguments, file)?
        } else {
            check_file(rt, arguments, file)?
        };
        status = status.max(one);
    }
    Ok(status)
}

/// Checks the files of a folder, and of those inside it.
fn check_folder(rt: &HostRuntime, arguments: &Arguments, folder: &str) -> Result<u8, Failure> {
    let mut left = Vec::new(rt.alloc());
    left.push(String::from_str(rt.alloc(), folder)?)?;
    let (mut status, mut count) = (CLEAN, 0u64);
    for _ in 0..u64::MAX {
        let Some(folder) = left.pop() else {
            break;
        };
        match list_folder(rt, &folder, &mut left) {
            Ok(files) => {
                for file in &files {
                    status = status.max(check_file(rt, arguments, file.as_str())?);
                    count = count.saturating_add(1);
                }
            }
            Err(error) => {
                let _ = eprintln!(rt; "wgsl: {folder} can't be read: {error}");
                status = UNREAD;
            }
        }
    }
    if count == 0 {
        let _ = eprintln!(rt; "wgsl: no file in {folder} ends in .wgsl");
        return Ok(UNREAD);
    }
    Ok(status)
}

/// Prints what is wrong with a file.
fn check_file(rt: &HostRuntime, arguments: &Arguments, file: &str) -> Result<u8, Failure> {
    let bytes = match read_file(rt, file) {
        Ok(bytes) => bytes,
        Err(error) => {
            let _ = eprintln!(rt; "wgsl: {file} can't be read: {error}");
            return Ok(UNREAD);
        }
    };
    let options = CheckOptions {
        file: match arguments.input {
            Some(name) if file == "-" => name,
            _ => file,
        },
        form: arguments.form,
        has_types: arguments.has_types,
        style: style(rt, rt.stdout().is_terminal()),
    };
    let report = check_text(rt.alloc(), &bytes, options)?;
    print(rt, report.text.as_str())?;
    Ok(if report.is_clean { CLEAN } else { FOUND })
}
