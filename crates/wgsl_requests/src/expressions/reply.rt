// One line in WGSL, from its bytes to its reply.
ghost use Rattle.std.specs.Prelude.{◌≡◌, ◌<◌, ◌≤◌, ◌++◌, [], IfOk, IsOkAnd, IsUtf8, Ok, Some, length, map, option_map, string_bytes};
ghost use Rattle.wgsl_requests.specs.expressions.Prelude.{struct_view, view, common, answer_view, request_view, written_view, text_kind};
ghost use Rattle.wgsl_requests.specs.Replies.{IsReplyOf, IsUnreadable, Replies};
ghost use Rattle.wgsl_requests.specs.expressions.Outcomes.{asked, asked_with, operand};
ghost use Rattle.wgsl_requests.specs.expressions.Typing.{AnswersItem, AnswersQuestion, IsBlank, IsReplyToText, IsStandardReply, outcome_kind, outcome_text};
ghost use Rattle.wgsl_requests.specs.expressions.Statements.{only_struct, other_request, rank_of, reason_or_none, request_of, request_on, signature_or_text, size_of, struct_of, told};
ghost use Rattle.wgsl_requests.specs.expressions.Stack.{a_question, an_asked};
ghost use Rattle.wgsl_requests.specs.expressions.Views.{asked_view, call_view, head_view, item_view, outcome_view, typed_view};

use crate::ask::answer;
use crate::expressions::ask::{operand_of, operands_by, referent_of};
use crate::expressions::called::asked_about;
use crate::expressions::expression::item_of_line;
use crate::expressions::item::Call;
use crate::expressions::outcome::shown_type;
use crate::expressions::prelude::*;
use crate::expressions::statement::form_of;
use crate::fast::write_type;
use crate::reply::{LONGEST, TextKind};
use crate::write::overloads::write_signature;
use crate::write::{write, write_answer_to, write_common as write_common_of};
use std::str::from_utf8;
use wgsl_core::ty::form::Form;
use wgsl_types::typed::typed_lines;

/// The kind of the reply to a line, by WGSL's own rules. An answer is written at the end of the text.
pub fn write_standard_reply(alloc: Global, request: &[u8], text: &mut String) -> Replied
    ensures too_long { LONGEST < length request.now
        → result ≡ Ok (ReplyKind.Unreadable Why.TooLong) }
    ensures no_text { ¬ IsUtf8 request.now → IsOkAnd result IsUnreadable }
    ensures blank { length request.now ≤ LONGEST → IsBlank request.now
        → IfOk result (λ kind. kind ≡ ReplyKind.Nothing) }
    ensures reply { Replies (IsStandardReply request.now) text.old text.new result }
{
    if request.len() > LONGEST {
        return Ok(ReplyKind::Unreadable(Why::TooLong));
    }
    match from_utf8(request) {
        Ok(line) => write_reply_to_text(alloc, line, text),
        Err(_) => Ok(ReplyKind::Unreadable(Why::NotUtf8)),
    }
}

/// Writes the reply to a line in WGSL.
fn write_reply_to_text(alloc: Global, line: &str, text: &mut String) -> Replied
    ensures blank { IsBlank line.now → IfOk result (λ kind. kind ≡ ReplyKind.Nothing) }
    ensures reply { Replies (IsReplyToText line.now) text.old text.new result }
{
    match item_of_line(alloc, line) {
        Ok(Some(item)) => write_item(alloc, line, item, text),
        Ok(None) => Ok(ReplyKind::Nothing),
        Err(Fail::Error(Misread { at, wanted })) => Ok(ReplyKind::Unreadable(Why::Misread(
            at, wanted,
        ))),
        Err(Fail::Memory(error)) => Err(error),
    }
}

/// Writes what is replied to what a line is, and returns of which kind that is.
fn write_item(alloc: Global, line: &str, item: Item, text: &mut String) -> Replied
    ensures { Replies (AnswersItem line.now (item_view item)) text.old text.new result }
{
    match item {
        Item::Operand(outcome) => Ok(ReplyKind::Answer(write_outcome(outcome, text)?)),
        Item::Asked(asked) => write_asked(alloc, asked, text),
        Item::Question(question, call) => write_question(alloc, question, call, text),
        Item::Overloads(token) => write_request(alloc, Request::Overloads(word(line, token)), text),
        other => {
            drop(other);
            Ok(unreadable(Wanted::Value))
        }
    }
}

fn unreadable(wanted: Wanted) -> ReplyKind<Why>
    ensures { IsUnreadable result }
{
    ReplyKind::Unreadable(Why::Misread(0, wanted))
}

/// Writes the answer to a request, or the first of its values that has no type.
fn write_asked(alloc: Global, asked: Asked, text: &mut String) -> Replied
    ensures { Replies (AnswersItem [] (an_asked (asked_view asked))) text.old text.new result }
{
    let parts = asked.parts;
    match parts {
        Ok(values) => {
            let written = write_statement(alloc, asked.statement, asked.types, &values, text);
            drop(values);
            written
        }
        Err(refused) => {
            drop(asked.types);
            Ok(ReplyKind::Answer(write_outcome(Err(refused), text)?))
        }
    }
}

/// Writes the answer to what is asked about a call, or the first of its operands that has no type.
fn write_question(alloc: Global, question: Question, call: Call, text: &mut String) -> Replied
    ensures { Replies (AnswersItem [] (a_question question (call_view call))) text.old text.new result }
{
    let Call { head, parts, .. } = call;
    match parts {
        Ok(values) => {
            let written = write_of_call(alloc, question, &head, &values, text);
            drop(values);
            drop(head);
            written
        }
        Err(refused) => {
            drop(head);
            Ok(ReplyKind::Answer(write_outcome(Err(refused), text)?))
        }
    }
}

fn write_of_call(
    alloc: Global,
    question: Question,
    head: &Head,
    values: &[Typed],
    text: &mut String,
) -> Replied
    ensures { Replies (AnswersQuestion question (head_view head.now) (asked (head_view head.now)
        (map typed_view values.now))) text.old text.new result }
{
    let operands = operands_by(alloc, head, values)?;
    let written = write_question_on(alloc, question, head, referent_of(values), &operands, text);
    drop(operands);
    written
}

/// Writes what is told of a call with these operands.
fn write_question_on<'x>(
    alloc: Global,
    question: Question,
    head: &'x Head,
    referent: Referent,
    operands: &'x [Operand<'x>],
    text: &mut String,
) -> Replied
    ensures { Replies (AnswersQuestion question (head_view head.now) (asked_with
        (head_view head.now) referent (map written_view operands.now))) text.old text.new result }
{
    let asked = asked_about(head, referent, operands);
    let answer = answer(alloc, asked.question(question))?;
    let written = tell(question, head, &answer, text);
    drop(answer);
    Ok(ReplyKind::Answer(written?))
}

/// Writes what is told of the answer to a question about a call.
fn tell(question: Question, head: &Head, answer: &Answer<'_>, text: &mut String) -> Made<TextKind>
    ensures { IfOk result (λ kind. (kind ≡ text_kind (answer_view answer.now)) × (string_bytes text.new
        ≡ string_bytes text.old ++ told question (head_view head.now) (answer_view answer.now))) }
{
    match question {
        Question::Type => write(answer, text),
        Question::Resolution => write_signature_or_text(head, answer, text),
        Question::Explanation => write_reason_or_none(answer, text),
    }
}

/// Writes the answer, or the signature of a declared function that takes the values.
fn write_signature_or_text(head: &Head, answer: &Answer<'_>, text: &mut String) -> Made<TextKind>
    ensures { IfOk result (λ kind. (kind ≡ text_kind (answer_view answer.now)) × (string_bytes text.new
        ≡ string_bytes text.old ++ signature_or_text (head_view head.now) (answer_view answer.now))) }
{
    match head {
        Head::Declared(_, parameters, of_result) => match answer {
            Answer::Fit(Ok(())) => {
                write_signature(text, 0, parameters, of_result)?;
                Ok(TextKind::Answer)
            }
            other => write(other, text),
        },
        _ => write(answer, text),
    }
}

/// Writes the answer, or `none` if nothing is refused.
fn write_reason_or_none(answer: &Answer<'_>, text: &mut String) -> Made<TextKind>
    ensures { IfOk result (λ kind. (kind ≡ text_kind (answer_view answer.now))
        × (string_bytes text.new ≡ string_bytes text.old ++ reason_or_none (answer_view answer.now))) }
{
    match answer {
        Answer::Fit(Ok(())) | Answer::FormType(Ok(_)) => {
            text.push_str("none")?;
            Ok(TextKind::Answer)
        }
        other => write(other, text),
    }
}

/// Writes what is answered to a statement with these types and values.
fn write_statement(
    alloc: Global,
    statement: Statement,
    types: Vec<Type>,
    values: &[Typed],
    text: &mut String,
) -> Replied
    ensures { Replies (IsReplyOf (request_of statement (map view types.items) (map operand (map typed_view values.now)))) text.old text.new result }
{
    match statement {
        Statement::Common => write_common(alloc, types, text),
        _ => {
            let written = write_other(alloc, statement, &types, values, text);
            drop(types);
            written
        }
    }
}

/// Writes the common type of types, or `none`.
fn write_common(alloc: Global, types: Vec<Type>, text: &mut String) -> Replied
    ensures { Replies (IsReplyOf (Some (common RuleSet.Standard (map view types.items)))) text.old text.new result }
{
    let values = typed_lines(alloc, types)?;
    let written = write_common_of(alloc, RuleSet::Standard, &values, text);
    drop(values);
    Ok(ReplyKind::Answer(written?))
}

/// Writes what is answered to another statement than one about a common type.
fn write_other(
    alloc: Global,
    statement: Statement,
    types: &[Type],
    values: &[Typed],
    text: &mut String,
) -> Replied
    ensures { Replies (IsReplyOf (other_request statement (map view types.now) (map operand (map typed_view values.now)))) text.old text.new result }
{
    let operands = operands_of(alloc, values)?;
    let written = write_answer(alloc, statement, types, &operands, text);
    drop(operands);
    written
}

fn operands_of<'p>(alloc: Global, values: &'p [Typed]) -> Made<Vec<Operand<'p>>>
    ensures { IfOk result (λ v. map written_view v.items ≡ map operand (map typed_view values.now)) }
{
    let mut operands = Vec::with_capacity(alloc, values.len())?;
    for value in values {
        operands.push(operand_of(value))?;
    }
    Ok(operands)
}

fn write_answer<'p>(
    alloc: Global,
    statement: Statement,
    types: &'p [Type],
    operands: &'p [Operand<'p>],
    text: &mut String,
) -> Replied
    ensures { Replies (IsReplyOf (other_request statement (map view types.now) (map written_view operands.now))) text.old text.new result }
{
    match statement {
        Statement::Condition => {
            write_request(alloc, Request::Fit(Taker::Condition, operands, types), text)
        }
        Statement::Return => {
            write_request(alloc, Request::Fit(Taker::Return, operands, types), text)
        }
        Statement::Rank | Statement::Size | Statement::Offsets | Statement::Layout => {
            match request_on(statement, types) {
                Some(request) => write_request(alloc, request, text),
                None => Ok(unreadable(Wanted::Struct)),
            }
        }
        _ => match form_of(statement, types.first(), operands) {
            Some(form) => write_request(alloc, Request::Form(&form), text),
            None => Ok(unreadable(Wanted::Value)),
        },
    }
}

/// The request about types that a question is. None if it is one about a struct, and there is none.
fn request_on<'r>(statement: Statement, types: &'r [Type]) -> Option<Request<'r>>
    ensures { option_map request_view result ≡ request_on statement (map view types.now) }
{
    match statement {
        Statement::Rank => rank_of(types),
        Statement::Size => size_of(types),
        Statement::Offsets => Some(Request::Offsets(RuleSet::Standard, only_struct(types)?)),
        Statement::Layout => Some(Request::Layout(RuleSet::Standard, only_struct(types)?)),
        _ => None,
    }
}

fn rank_of(types: &[Type]) -> Option<Request<'_>>
    ensures { option_map request_view result ≡ rank_of (map view types.now) }
{
    match types {
        [from, to] => Some(Request::Rank(from, to)),
        _ => None,
    }
}

fn size_of(types: &[Type]) -> Option<Request<'_>>
    ensures { option_map request_view result ≡ size_of (map view types.now) }
{
    match types {
        [ty] => Some(Request::Size(RuleSet::Standard, ty)),
        _ => None,
    }
}

fn only_struct(types: &[Type]) -> Option<&StructType>
    ensures { option_map (λ s. ((struct_view s.now).name, (struct_view s.now).members)) result ≡ only_struct (map view types.now) }
{
    match types {
        [ty] => struct_of(ty),
        _ => None,
    }
}

fn struct_of(ty: &Type) -> Option<&StructType>
    ensures { option_map (λ s. ((struct_view s.now).name, (struct_view s.now).members)) result ≡ struct_of (view ty.now) }
{
    match ty.form() {
        Form::Struct(structure) => Some(structure),
        _ => None,
    }
}

/// Writes the answer to a request.
fn write_request(alloc: Global, request: Request<'_>, text: &mut String) -> Replied
    ensures { Replies (IsReplyOf (Some (request_view request.entry))) text.old text.new result }
{
    Ok(ReplyKind::Answer(write_answer_to(alloc, request, text)?))
}

/// Writes the outcome of an expression, and returns of which kind the text is.
fn write_outcome(outcome: Outcome, text: &mut String) -> Made<TextKind>
    ensures { IfOk result (λ kind. (kind ≡ outcome_kind (outcome_view outcome))
        × (string_bytes text.new ≡ string_bytes text.old ++ outcome_text (outcome_view outcome))) }
{
    match outcome {
        Ok(typed) => {
            let written = write_type(text, RuleSet::Standard, shown_type(&typed));
            drop(typed);
            written?;
            Ok(TextKind::Answer)
        }
        Err(refused) => {
            let column = refused.at as u128 + 1;
            let message = refused.message.as_str();
            let written = write!(text, "column {column}: {message}");
            drop(refused);
            written?;
            Ok(TextKind::Refusal)
        }
    }
}
