//! The library for C: for each set of rules a function that answers a request and one that explains why it can't be read;
//! one for the layouts of a WGSL text, one for its structs as code, and one for its check.
//!
//! A call writes its text at the start of the buffer, without a NUL after it, and sets the length. The status is 0 for an
//! answer, 1 for the message of a refusal, 2 for a request that can't be read, or of which there is nothing to explain, 3 if
//! memory runs out, and 4 if the text is longer than the buffer. The length is that of the text on 0, 1 and 4, and else 0.
//! The buffer is written on 0 and 1 alone.
#![tactic(auto)]

mod hand_over;
mod requests;
mod source;

ghost use Rattle.wgsl_c.specs.HandOver.{IsAnswered, IsExplained};

use requests::{answer_by, explain_by};
pub use source::{wgsl_module_check, wgsl_source_code, wgsl_source_layout};
use std::alloc::Global;
use wgsl_syntax::rules::RuleSet;

/// Answers one request, as the program wgsl_check answers a line: by the ported rules.
#[unsafe(no_mangle)]
pub extern "C" fn wgsl_answer(
    alloc: Global,
    request: &[u8],
    buffer: &mut [u8],
    text_len: &mut usize,
) -> u8
    ensures { IsAnswered RuleSet.Ported request.now buffer.old buffer.new text_len.new result }
{
    answer_by(alloc, RuleSet::Ported, request, buffer, text_len)
}

/// Explains why a request can't be read. The status is 2 if it has an answer.
#[unsafe(no_mangle)]
pub extern "C" fn wgsl_explain(
    alloc: Global,
    request: &[u8],
    buffer: &mut [u8],
    text_len: &mut usize,
) -> u8
    ensures { IsExplained RuleSet.Ported request.now buffer.old buffer.new text_len.new result }
{
    explain_by(alloc, RuleSet::Ported, request, buffer, text_len)
}

/// Answers one request, as the program wgsl_standard answers a line: by WGSL's own overloads.
#[unsafe(no_mangle)]
pub extern "C" fn wgsl_standard_answer(
    alloc: Global,
    request: &[u8],
    buffer: &mut [u8],
    text_len: &mut usize,
) -> u8
    ensures { IsAnswered RuleSet.Standard request.now buffer.old buffer.new text_len.new result }
{
    answer_by(alloc, RuleSet::Standard, request, buffer, text_len)
}

/// Explains why such a request can't be read. The status is 2 if it has an answer.
#[unsafe(no_mangle)]
pub extern "C" fn wgsl_standard_explain(
    alloc: Global,
    request: &[u8],
    buffer: &mut [u8],
    text_len: &mut usize,
) -> u8
    ensures { IsExplained RuleSet.Standard request.now buffer.old buffer.new text_len.new result }
{
    explain_by(alloc, RuleSet::Standard, request, buffer, text_len)
}
