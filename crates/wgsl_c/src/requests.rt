// Requests by a set of rules, for C.
ghost use Rattle.wgsl_c.specs.HandOver.{IsAnswered, IsExplained};

use crate::hand_over::hand_over;
use std::alloc::Global;
use wgsl_replies::request::{explain, reply_to};
use wgsl_syntax::rules::RuleSet;

/// Answers one request.
pub fn answer_by(
    alloc: Global,
    rules: RuleSet,
    request: &[u8],
    buffer: &mut [u8],
    text_len: &mut usize,
) -> u8
    ensures { IsAnswered rules request.now buffer.old buffer.new text_len.new result }
{
    hand_over(&reply_to(alloc, rules, request), buffer, text_len)
}

/// Explains why a request can't be read.
pub fn explain_by(
    alloc: Global,
    rules: RuleSet,
    request: &[u8],
    buffer: &mut [u8],
    text_len: &mut usize,
) -> u8
    ensures { IsExplained rules request.now buffer.old buffer.new text_len.new result }
{
    hand_over(&explain(alloc, rules, request), buffer, text_len)
}
