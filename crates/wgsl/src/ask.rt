// The command `ask`: it reads one request per line from standard input, prints the answers by WGSL's own rules, and notes on
// standard error why lines can't be read.

use crate::failure::Failure;
use crate::{VERSION, note, print};
use std::io::{BufRead, IsTerminal, Write};
use std::process::ExitCode;
use wgsl_lines::program::answer_standard_input;
use wgsl_replies::request::{ReplyKind, TextKind, write_reply, write_why};
use wgsl_syntax::rules::RuleSet;

const HELP: &str = "\
usage: wgsl ask [--strict] <REQUESTS

Reads requests in WGSL from standard input, one per line, and prints the answers by WGSL's own rules.
The requests, each with an example and its answer:

  type E  the type of an expression over types, or the column of its first part that has none, and why
      type mix(vec3f, vec3f, 1) * f32 => vec3<f32>
      type (ref<storage, array<vec4f>, read>)[u32].xyz => vec3<f32>
  resolve E  of its outermost operator, call or constructor: the overload's index, its parameters, its result
      resolve vec3f * 2 => 3 (vec3<f32>, f32) -> vec3<f32>
  why E  one line per overload that doesn't take the operands, the nearest first, with the reason; or none
      why -u32 => -(T) -> T, T: signed number: argument 1 is u32
  overloads NAME  the overloads of an operator, a function or a constructor; or none
      overloads dot => dot(vecN<T>, vecN<T>) -> T, T: number
  a declaration or a statement  the type of what is declared or written, `fits`, or why it is refused
      let x: f32 = vec3f.x => f32
      var<storage> x: array<f32> => ref<storage, array<f32>, read>
      ref<function, f32, read_write> += 1 => f32
      if 1 < 2 => fits
      switch u32 { case 1 { } default { } } => u32
  rank T, U  the rank of the conversion, or none
      rank AbstractInt, f32 => 6
  common T, U, ..  the common type to which each converts, or none
      common i32, AbstractInt => i32
  size T, offsets T  the size and the alignment of a type, the offsets of a struct's members; none for what isn't there
      size vec3f => 12 16
      offsets struct S { a: f32, b: vec3f } => 0 16
  layout T  one line per member with its offset, size, alignment, name and type, and one for the struct; or none
      layout struct S { a: vec3f } =>
               0         12         16 a vec3<f32>
              16          -         16 S
  load E  the type of an expression whose value is read
      load ref<function, f32, read_write> => f32

E is an expression whose operands are types, spelled as in WGSL, `const` and a type for a const-expression, or literals.
Structs and functions may be declared in front of a request:
      struct S { a: f32 } fn f(x: f32) -> S type f(1).a => f32

On a terminal there is a prompt, and later lines see the structs and functions that a line declares. All of these together
have at most 4096 bytes.

Exit status: 0 if every line was readable or the lines come from a terminal, 1 if a read or a write failed, 2 if a line wasn't
readable, 3 if memory ran out (built by cargo, the program is aborted then), 64 if there was another argument than --strict.
With --strict it is 1, in place of 0, if the rules refuse an expression.
";

/// The status if there is another argument than `--strict`.
const MISUSED: u8 = 64;

/// Does what the words behind `ask` ask for.
pub fn run(rt: &HostRuntime, words: &[String]) -> ExitCode {
    let done = match words {
        [] if rt.stdin().is_terminal() => converse(rt),
        [] => return answer_standard_input(rt, RuleSet::Standard, "wgsl"),
        [word] => match word.as_str() {
            "--strict" => return answer_standard_input(rt, RuleSet::Standard, "wgsl"),
            "--help" | "-h" => print(rt, HELP),
            "--version" => print(rt, VERSION),
            _ => return refuse(rt),
        },
        _ => return refuse(rt),
    };
    match done {
        Ok(status) => status,
        Err(failure) => {
            note(rt, &failure);
            ExitCode::from(if matches!(failure, Failure::Memory) {
                3
            } else {
                1
            })
        }
    }
}

/// Prints why the arguments are wrong.
fn refuse(rt: &HostRuntime) -> ExitCode {
    let _ = eprintln!(rt;
        "wgsl: it takes no argument but --strict, and reads requests from standard input: see wgsl ask --help"
    );
    ExitCode::from(MISUSED)
}

/// Answers the lines of a terminal, each behind the declarations of earlier ones.
fn converse(rt: &HostRuntime) -> Result<ExitCode, Failure> {
    let mut input = rt.reader();
    let mut text = Vec::new(rt.alloc());
    for _ in 0..u64::MAX {
        let declared = text.len();
        let _ = rt.stderr().write_all(b"wgsl> ");
        match input.read_until(b'\n', &mut text) {
            Ok(0) => break,
            Ok(_) => {}
            Err(_) => return Err(Failure::Input),
        }
        if text.ends_with(b"\n") {
            text.pop();
        }
        if is_declared(rt, &mut text)? {
            text.push(b'\n')?;
        } else {
            answer(rt, &text, declared)?;
            text.truncate(declared);
        }
    }
    let _ = rt.stderr().write_all(b"\n");
    Ok(ExitCode::SUCCESS)
}

/// Whether a request can stand behind the text: then it has nothing but declarations.
fn is_declared(rt: &HostRuntime, text: &mut Vec<u8>) -> Result<bool, Failure> {
    let end = text.len();
    text.extend_from_slice(b"\ntype 1")?;
    let mut answer = String::new(rt.alloc());
    let kind = write_reply(rt.alloc(), RuleSet::Standard, text, &mut answer)?;
    text.truncate(end);
    Ok(matches!(kind, ReplyKind::Answer(TextKind::Answer)))
}

/// Prints the answer to the line behind the declarations, which end at that byte.
fn answer(rt: &HostRuntime, text: &[u8], declared: usize) -> Result<(), Failure> {
    let mut answer = String::new(rt.alloc());
    match write_reply(rt.alloc(), RuleSet::Standard, text, &mut answer)? {
        ReplyKind::Nothing => return Ok(()),
        ReplyKind::Answer(_) => {}
        ReplyKind::Unreadable(why) => write_why(text, why, &mut answer)?,
    }
    let shown = match read_column(answer.as_str()) {
        Some((column, message)) => {
            let column = column.saturating_sub(declared);
            format!(in rt.alloc(); "column {column}: {message}\n")?
        }
        None => format!(in rt.alloc(); "{answer}\n")?,
    };
    print(rt, shown.as_str())?;
    Ok(())
}

/// The column that a message begins with, and the rest of it.
fn read_column(message: &str) -> Option<(usize, &str)> {
    let (column, rest) = message.strip_prefix("column ")?.split_once(": ")?;
    Some((column.parse::<usize>().ok()?, rest))
}
