// How answers are written.
ghost use Rattle.std.specs.Prelude.{◌≡◌, ◌++◌, IfOk, OnOk, codes, decimal, map, option_map, string_bytes};
ghost use Rattle.wgsl_requests.specs.Prelude.{message, spelling, spelling_by, wgsl_spelling, refusal_text, view, element_view, answer_view as form_answer, form_type_view};
ghost use Rattle.wgsl_core.specs.internal.Resolution.{resolved_view};
ghost use Rattle.wgsl_requests.specs.Answers.{a_type};
ghost use Rattle.wgsl_requests.specs.Replies.{Adds, IsAnswer};
ghost use Rattle.wgsl_requests.specs.Requests as requests;
ghost use Rattle.wgsl_requests.specs.Texts.{Writes, answer_text, or_message, or_none, text_kind};
ghost use Rattle.wgsl_requests.specs.Views.{IsRefusal, answer_view, first_type_of, operands_refusal, outcome, request_view, value_view};
ghost use Rattle.wgsl_calls.specs.Calls.{signature_of};
ghost use Rattle.wgsl_rules.specs.errors.Refusals.{signature};

mod layout;
mod lists;
pub mod overloads;
pub mod word;

use crate::ask::answer;
use crate::fast::{write_number, write_type};
use crate::prelude::*;
use layout::{write_layout, write_offsets};
use lists::write_types;
use overloads::{
    write_notes, write_resolution_of, write_signatures, write_template, write_type_of,
};
use wgsl_core::operators::resolve::Element;
use wgsl_types::typed::{Typed, convert_to_common};

/// Writes the answer to the request at the end of the text, and returns of which kind it is.
#[inline(always)]
pub fn write_answer_to(alloc: Global, request: Request<'_>, text: &mut String) -> Made<TextKind>
    ensures { IfOk result (λ kind. Adds (IsAnswer (request_view request.entry) kind)
        (string_bytes text.old) (string_bytes text.new)) }
{
    let answer = answer(alloc, request)?;
    let written = write(&answer, text);
    drop(answer);
    written
}

/// Writes an answer at the end of the text, and returns of which kind it is.
#[inline(always)]
pub fn write(answer: &Answer<'_>, text: &mut String) -> Made<TextKind>
    ensures { IfOk result (λ kind. (kind ≡ text_kind (answer_view answer.now))
        × (string_bytes text.new ≡ string_bytes text.old ++ answer_text (answer_view answer.now))) }
{
    write_text(answer, text)?;
    Ok(text_kind(answer))
}

#[inline(always)]
fn text_kind(answer: &Answer<'_>) -> TextKind
    ensures { result ≡ text_kind (answer_view answer.now) }
{
    match answer {
        Answer::Type(Err(_)) | Answer::Binary(Err(_)) => TextKind::Refusal,
        Answer::Value(_, Err(_)) | Answer::Value(_, Ok(Returned::Refused)) => TextKind::Refusal,
        Answer::TypeOf(_, None) | Answer::Resolution(_, None) => TextKind::Refusal,
        Answer::FormType(Err(_)) | Answer::Fit(Err(_)) => TextKind::Refusal,
        Answer::Type(Ok(_)) | Answer::Value(_, Ok(_)) | Answer::Binary(Ok(_)) => TextKind::Answer,
        Answer::TypeOf(_, Some(_)) | Answer::Resolution(_, Some(_)) => TextKind::Answer,
        Answer::Number(_) | Answer::Size(_, _) | Answer::Offsets(_) => TextKind::Answer,
        Answer::Layout(_, _) | Answer::Overloads(_) | Answer::Notes(_) => TextKind::Answer,
        Answer::FormType(Ok(_)) | Answer::Fit(Ok(_)) => TextKind::Answer,
    }
}

#[inline(always)]
fn write_text(answer: &Answer<'_>, text: &mut String) -> Made<()>
    ensures { Writes (answer_text (answer_view answer.now)) text.old text.new result }
{
    match answer {
        Answer::Number(number) => write_number_or_none(text, *number),
        Answer::Size(size, align) => {
            write_number_or_none(text, *size)?;
            text.push(' ')?;
            write_number_or_none(text, *align)
        }
        Answer::Type(made) => write_type_or_refusal(text, made),
        Answer::Value(call, returned) => write_value_or_refusal(text, *call, returned),
        Answer::Binary(Ok(ty)) => write_resolved(text, *ty),
        Answer::Binary(Err(operands)) => write_operands(text, *operands),
        Answer::Offsets(offsets) => write_offsets(text, offsets),
        Answer::Layout(structure, layout) => write_layout(text, structure, layout),
        Answer::TypeOf(call, found) => write_type_of(text, call, found),
        Answer::Resolution(call, found) => write_resolution_of(text, call, found),
        Answer::Overloads(signatures) => write_signatures(text, signatures),
        Answer::Notes(notes) => write_notes(text, notes),
        Answer::FormType(found) => write_form_type(text, found),
        Answer::Fit(found) => write_fit(text, found),
    }
}

/// Writes the type of a form, or why it has none.
#[inline(never)]
fn write_form_type(text: &mut String, found: &Result<FormType<'_>, Refusal<'_>>) -> Made<()>
    ensures { Writes (or_message wgsl_spelling refusal_text (form_answer form_type_view found.now)) text.old text.new result }
{
    match found {
        Ok(ty) => write!(text, "{ty}"),
        Err(refusal) => write!(text, "{refusal}"),
    }
}

/// Writes that the values fit, or why they don't.
#[inline(never)]
fn write_fit(text: &mut String, found: &Result<(), Refusal<'_>>) -> Made<()>
    ensures { Writes (or_message {A = Unit {0}} (λ u. codes "fits") refusal_text (form_answer (λ u. tt) found.now)) text.old text.new result }
{
    match found {
        Ok(()) => text.push_str("fits"),
        Err(refusal) => write!(text, "{refusal}"),
    }
}

/// Writes a number, or `none`.
#[inline(always)]
fn write_number_or_none(text: &mut String, number: Option<u32>) -> Made<()>
    ensures { Writes (or_none decimal number) text.old text.new result }
{
    match number {
        Some(number) => write_number(text, u64::from(number)),
        None => text.push_str("none"),
    }
}

pub(crate) fn write_type_or_none(text: &mut String, rules: RuleSet, ty: Option<&Type>) -> Made<()>
    ensures { Writes (or_none (spelling_by rules) (option_map (λ t. view t.now) ty.entry)) text.old text.new result }
{
    match ty {
        Some(ty) => write_type(text, rules, ty),
        None => text.push_str("none"),
    }
}

/// Writes a type that isn't built.
fn write_resolved(text: &mut String, ty: ResolvedType<'_>) -> Made<()>
    ensures { Writes (spelling (resolved_view ty.entry)) text.old text.new result }
{
    match ty.dimensions {
        Dimensions::Single => return write_element(text, ty.element),
        Dimensions::Vector(components) => {
            text.push_str("vec")?;
            write_number(text, u64::from(components))?;
        }
        Dimensions::Matrix(columns, rows) => {
            text.push_str("mat")?;
            write_number(text, u64::from(columns))?;
            text.push('x')?;
            write_number(text, u64::from(rows))?;
        }
    }
    text.push('<')?;
    write_element(text, ty.element)?;
    text.push('>')
}

fn write_element(text: &mut String, element: Element<'_>) -> Made<()>
    ensures { Writes (spelling (element_view element.entry)) text.old text.new result }
{
    match element {
        Element::Scalar(scalar) => text.push_str(scalar.name()),
        Element::Type(ty) => write_type(text, RuleSet::Ported, ty),
    }
}

/// Writes the message that an operator doesn't take operands.
fn write_operands(text: &mut String, operands: Operands<'_>) -> Made<()>
    ensures { Writes (message (operands_refusal operands.entry)) text.old text.new result }
{
    let Operands { operator, lhs, rhs } = operands;
    write!(
        text,
        "cannot use binary operator `{operator}` with operands `{lhs}` and `{rhs}`"
    )
}

/// Writes a type, or the message of a refusal.
#[inline(always)]
fn write_type_or_refusal(text: &mut String, made: &Result<Type, Fail<Error>>) -> Made<()>
    ensures { Writes (answer_text (outcome a_type view made.now)) text.old text.new result }
{
    match made {
        Ok(ty) => write_type(text, RuleSet::Ported, ty),
        Err(refused) => write_refusal(text, refused),
    }
}

/// Writes the type of a call, `no value`, or the message of a refusal.
#[inline(always)]
#[tactic(auto, unfolding(wgsl_rules::specs::types::ResultStructs::result_struct))]
fn write_value_or_refusal(
    text: &mut String,
    call: NamedCall<'_>,
    returned: &Result<Returned, Fail<Error>>,
) -> Made<()>
    ensures { Writes (answer_text (value_view (signature_of call.entry) returned.now)) text.old text.new result }
{
    match returned {
        Ok(Returned::Built(Some(ty))) => write_type(text, RuleSet::Ported, ty),
        Ok(Returned::Built(None)) => text.push_str("no value"),
        Ok(Returned::Split(of)) => text.push_str(of.name()),
        Ok(Returned::Refused) => write_refused(text, call),
        Err(refused) => write_refusal(text, refused),
    }
}

/// Writes the message that a call is refused.
#[inline(never)]
fn write_refused(text: &mut String, call: NamedCall<'_>) -> Made<()>
    ensures { Writes (message (signature (signature_of call.entry))) text.old text.new result }
{
    text.push_str("invalid function call signature: `")?;
    text.push_str(call.name)?;
    write_template(text, call.template)?;
    text.push_str("(")?;
    write_types(text, RuleSet::Ported, call.args)?;
    text.push_str(")`")
}

/// Writes the message of a refusal. Out of memory is none.
#[inline(never)]
fn write_refusal(text: &mut String, refused: &Fail<Error>) -> Made<()>
    ensures { OnOk result (IsRefusal
        (λ e. string_bytes text.new ≡ string_bytes text.old ++ message e) refused.now) }
{
    match refused {
        Fail::Error(e) => write!(text, "{e}"),
        Fail::Memory(e) => Err(*e),
    }
}

/// Writes the type that all values have once they are converted together, by the names of these rules; `none` if there is
/// none, or if one of them doesn't convert to it. Returns of which kind the text is.
pub fn write_common(
    alloc: Global,
    rules: RuleSet,
    values: &[Typed],
    text: &mut String,
) -> Made<TextKind>
    ensures { IfOk result (λ kind.
        Adds (IsAnswer (requests.common rules (map (λ x. view x.ty) values.now)) kind)
        (string_bytes text.old) (string_bytes text.new)) }
{
    let converted = convert_to_common(alloc, values)?;
    let written = write_type_or_none(text, rules, first_type(&converted));
    drop(converted);
    written?;
    Ok(TextKind::Answer)
}

fn first_type(values: &Option<Vec<Typed>>) -> Option<&Type>
    ensures { option_map (λ t. view t.now) result ≡ first_type_of (option_map (λ v. v.items) values.now) }
{
    let first = values.as_ref()?.first()?;
    Some(&first.ty)
}
