// The program: it reads one request per line from standard input, prints the answers by the rules of wgsl-types, and notes
// on standard error why lines can't be read.
#![tactic(auto)]

ghost use Rattle.std.specs.Prelude.{ℕ, List, IfErr, IfOk, IfSome};
ghost use Rattle.std.specs.Io.KnownBytes.{Appends};
ghost use Rattle.wgsl_lines.specs.Output.{Prints, PrintsFirst, PrintsUntil};
ghost use Rattle.wgsl_syntax.specs.declared.rules.RuleSet.TheVariants.{Ported};

use std::alloc::Global;
use std::io::{Read, Write, sink};
use std::process::ExitCode;
use wgsl_lines::program::answer_standard_input;
use wgsl_lines::run::run as run_with_notes;
pub use wgsl_lines::run::{RunError, status};
use wgsl_syntax::rules::RuleSet;
pub use wgsl_types::typed::Typed;

/// Answers each line of the input by the rules of wgsl-types, and says whether every one was readable.
///
/// The answers to a block that was read are written before the next read.
pub fn run<R: Read, W: Write>(
    alloc: Global,
    input: &mut R,
    output: &mut W,
) -> Result<bool, RunError>
    ensures printed { IfOk result (λ readable. IfSome (R.remaining input.old) (λ bytes.
        (text : List ℕ) × Prints Ported bytes text readable
        × Appends (W.contents output.old) (W.contents output.new) text)) }
    ensures beginning { IfErr result (λ error. IfSome (R.remaining input.old) (λ bytes.
        (text : List ℕ) × PrintsUntil Ported error bytes text × PrintsFirst Ported bytes text
        × Appends (W.contents output.old) (W.contents output.new) text)) }
{
    run_with_notes(
        alloc,
        RuleSet::Ported,
        "wgsl_check",
        input,
        output,
        &mut sink(),
        &mut false,
    )
}

fn main(rt: HostRuntime) -> ExitCode {
    answer_standard_input(&rt, RuleSet::Ported, "wgsl_check")
}
