// The program: its commands check WGSL files, print their layouts, and answer requests in WGSL.
#![tactic(auto)]

mod arguments;
mod ask;
mod check;
mod failure;
mod files;
mod layout;

use failure::Failure;
use std::env;
use std::io::{ErrorKind, Write};
use std::process::ExitCode;

const HELP: &str = "\
usage: wgsl check FILE...
       wgsl layout FILE...
       wgsl ask <REQUESTS
       wgsl COMMAND --help | --help | --version

By WGSL's own rules:

  check   prints what is wrong with WGSL files, and the types of their expressions
  layout  prints the layout of each struct of WGSL files, where their variables are bound, and what is wrong with them
  ask     answers requests, one per line: types of expressions, overloads, conversions, sizes

Exit status: 2 if there is no such command, else as the help of the command says.
";

const VERSION: &str = "wgsl 0.3.0\n";

/// The statuses: nothing is wrong, something is.
const CLEAN: u8 = 0;

const FOUND: u8 = 1;

/// There is no such command, or its arguments or a file can't be read.
const UNREAD: u8 = 2;

/// Memory ran out, or a write failed.
const FAILED: u8 = 3;

fn main(rt: HostRuntime) -> ExitCode {
    match run(&rt) {
        Ok(status) => status,
        Err(failure) => {
            note(&rt, &failure);
            ExitCode::from(FAILED)
        }
    }
}

fn run(rt: &HostRuntime) -> Result<ExitCode, Failure> {
    let words = match env::args(rt) {
        Ok(words) => words,
        Err(error) if error.kind() == ErrorKind::OutOfMemory => return Err(Failure::Memory),
        Err(_) => {
            return Ok(refuse(
                rt,
                "an argument is not UTF-8; a file can be given as standard input",
                "",
                "wgsl --help",
            ));
        }
    };
    let mut behind_name = Vec::new(rt.alloc());
    for word in words.skip(1) {
        behind_name.push(word)?;
    }
    let Some((command, words)) = behind_name.split_first() else {
        return Ok(refuse(rt, "there is no command", "", "wgsl --help"));
    };
    match command.as_str() {
        "check" => check::run(rt, words),
        "layout" => layout::run(rt, words),
        "ask" => Ok(ask::run(rt, words)),
        "--help" | "-h" => print(rt, HELP),
        "--version" => print(rt, VERSION),
        other => Ok(refuse(rt, "there is no command ", other, "wgsl --help")),
    }
}

fn print(rt: &HostRuntime, text: &str) -> Result<ExitCode, Failure> {
    match rt.stdout().write_all(text.as_bytes()) {
        Ok(()) => Ok(ExitCode::SUCCESS),
        Err(error) => Err(Failure::Output(format!(in rt.alloc(); "{error}")?)),
    }
}

/// Prints why the program ends before it is done.
fn note(rt: &HostRuntime, failure: &Failure) {
    let _ = eprintln!(rt; "wgsl: {failure}");
}

/// Prints why the arguments are wrong, and where help is.
fn refuse(rt: &HostRuntime, reason: &str, word: &str, help: &str) -> ExitCode {
    let _ = eprintln!(rt; "wgsl: {reason}{word}: see {help}");
    ExitCode::from(UNREAD)
}
