// A program that answers the requests on standard input.

use crate::run::{RunError, run, status};
use std::env;
use std::io::IsTerminal;
use std::process::ExitCode;
use wgsl_syntax::rules::RuleSet;

/// Answers each line of standard input by a set of rules. On standard error it tells what it waits for, if that is a
/// terminal, and what stopped it. With the argument `--strict` the status is 1 if all lines were readable and the rules
/// refused one of them.
pub fn answer_standard_input(rt: &HostRuntime, rules: RuleSet, program: &'static str) -> ExitCode {
    let mut input = rt.stdin();
    let mut output = rt.stdout();
    let mut notes = rt.stderr();
    if input.is_terminal() {
        let _ = eprintln!(rt;
            "{program}: it answers each line, as `binary + f32 i32`: see {program} --help"
        );
    }
    let mut has_refused = false;
    let outcome = run(
        rt.alloc(),
        rules,
        program,
        &mut input,
        &mut output,
        &mut notes,
        &mut has_refused,
    );
    if let Err(error) = &outcome {
        let _ = eprintln!(rt; "{program}: {}", reason(*error));
    }
    match status(&outcome) {
        0 if has_refused && is_strict(rt) => ExitCode::from(1),
        status => ExitCode::from(status),
    }
}

fn is_strict(rt: &HostRuntime) -> bool {
    match env::args(rt) {
        Ok(mut words) => words.any(|word| word.as_str() == "--strict"),
        Err(_) => false,
    }
}

fn reason(error: RunError) -> &'static str {
    match error {
        RunError::Read => "standard input can't be read",
        RunError::Write => "the answers can't be written",
        RunError::Memory => "out of memory",
    }
}
