// The program: it makes each call that takes an allocator and that no request makes, twice, on the same arguments, and
// prints what it answers. If one allocation fails, the call that made it reports out of memory. The same call, made the
// other time, answers as without fault, and so do all others.
#![tactic(auto)]

mod arguments;
mod lines;
mod templates;
mod types;

use arguments::{Arguments, make_arguments};
use lines::Lines;
use std::alloc::AllocError;
use std::io::Write;
use std::process::ExitCode;

/// The exit status if there is no memory for the arguments.
const NO_ARGUMENTS: u8 = 3;

fn main(rt: HostRuntime) -> ExitCode {
    let mut lines = Lines {
        alloc: rt.alloc(),
        output: rt.stdout(),
        is_whole: true,
    };
    let arguments = make_arguments(lines.alloc);
    let status = print_all(&mut lines, &arguments);
    drop(arguments);
    status
}

/// Prints each call twice if there are arguments.
fn print_all<W: Write>(
    lines: &mut Lines<W>,
    arguments: &Result<Arguments, AllocError>,
) -> ExitCode {
    let Ok(arguments) = arguments else {
        return ExitCode::from(NO_ARGUMENTS);
    };
    print_calls(lines, arguments);
    print_calls(lines, arguments);
    ExitCode::from(u8::from(!lines.is_whole))
}

fn print_calls<W: Write>(lines: &mut Lines<W>, arguments: &Arguments) {
    types::print_types(lines, arguments);
    templates::print_templates(lines, &arguments.templates);
}
