// Calls by WGSL's own overloads, and the overloads of a name.
ghost use Rattle.std.specs.Prelude.{◌≡◌, ◌++◌, Err, IfOk, MatchOption, Ok, flat_map, map, option_map};
ghost use Rattle.wgsl_requests.specs.Prelude.{parameter_view, view, resolved_view, result_view, line_of, note_text, overload_texts, texts_listed};
ghost use Rattle.wgsl_standard.specs.Answered.{IsRefused};
ghost use Rattle.wgsl_standard.specs.Lines.{binary_operators_named, lines_named, unary_operators_named};
ghost use Rattle.wgsl_requests.specs.Standard.{template_type, IsExplanationOf, IsResolutionOf, IsTypeOf};
ghost use Rattle.wgsl_requests.specs.Views.{call_view};

use crate::prelude::*;
use std::str::FromStr;
use wgsl_standard::answer::{NoOverload, type_of_call};
use wgsl_standard::explanation::explain;
use wgsl_standard::resolved::resolve_callee;
use wgsl_standard::signature::signatures;

/// The type that a template is; None if it is something else.
#[inline(always)]
fn template_type(template: Option<&[TpltParam]>) -> Option<Option<&Type>>
    ensures { option_map (option_map (λ t. view t.now)) result
        ≡ template_type (option_map (λ ps. map parameter_view ps.now) template.entry) }
{
    match template {
        None => Some(None),
        Some([TpltParam::Ty(ty)]) => Some(Some(ty)),
        Some(_) => None,
    }
}

/// The type of a call, if it has a value.
#[inline(always)]
pub(crate) fn type_of(alloc: Global, call: &Call<'_>) -> Made<Option<Option<ResultType>>>
    ensures { IfOk result (λ r. IsTypeOf (call_view call.now) (option_map (option_map result_view) r)) }
{
    let Some(template) = template_type(call.template) else {
        return Ok(None);
    };
    if_resolved(type_of_call(alloc, call.callee, template, call.operands))
}

/// What a call resolves to.
pub(crate) fn resolution_of(alloc: Global, call: &Call<'_>) -> Made<Option<ResolvedCall>>
    ensures { IfOk result (λ r. IsResolutionOf (call_view call.now) (option_map resolved_view r)) }
{
    let Some(template) = template_type(call.template) else {
        return Ok(None);
    };
    if_resolved(resolve_callee(alloc, call.callee, template, call.operands))
}

/// The result, or None if the call has no answer.
#[inline(always)]
fn if_resolved<T: Drop>(made: Result<T, Fail<NoOverload>>) -> Made<Option<T>>
    ensures { IfOk result (λ found. MatchOption found (IsRefused made) (λ x. made ≡ Ok x)) }
{
    match made {
        Ok(value) => Ok(Some(value)),
        Err(Fail::Error(_)) => Ok(None),
        Err(Fail::Memory(error)) => Err(error),
    }
}

/// A note for each overload that doesn't take the operands of a call. There is none if its template isn't one type.
pub(crate) fn notes_on<'r>(alloc: Global, call: &'r Call<'r>) -> Made<Vec<Note<'r>>>
    ensures { IfOk result (λ v. IsExplanationOf (call_view call.now) (map note_text v.items)) }
{
    let Some(template) = template_type(call.template) else {
        return Ok(Vec::new(alloc));
    };
    explain(alloc, call.callee, template, call.operands)
}

/// The signatures of all that has the name: the unary operator, the binary one, the built-in function, the constructor.
pub(crate) fn signatures_named<'r>(alloc: Global, name: &'r str) -> Made<Vec<Signature<'r>>>
    ensures { IfOk result (λ v. map line_of v.items ≡ lines_named name.now) }
{
    let mut all = Vec::new(alloc);
    push_of_unary(alloc, &mut all, name)?;
    push_of_binary(alloc, &mut all, name)?;
    push_of(alloc, &mut all, Callee::Function(name))?;
    push_of(alloc, &mut all, Callee::Constructor(name))?;
    Ok(all)
}

fn push_of_unary<'r>(alloc: Global, all: &mut Vec<Signature<'r>>, name: &str) -> Made<()>
    ensures { IfOk result (λ u. map line_of all.new.items
        ≡ map line_of all.old.items ++ flat_map texts_listed (unary_operators_named name.now)) }
{
    match UnaryOperator::from_str(name) {
        Ok(operator) => push_of(alloc, all, Callee::Unary(operator)),
        Err(_) => Ok(()),
    }
}

fn push_of_binary<'r>(alloc: Global, all: &mut Vec<Signature<'r>>, name: &str) -> Made<()>
    ensures { IfOk result (λ u. map line_of all.new.items
        ≡ map line_of all.old.items ++ flat_map texts_listed (binary_operators_named name.now)) }
{
    match BinaryOperator::from_str(name) {
        Ok(operator) => push_of(alloc, all, Callee::Binary(operator)),
        Err(_) => Ok(()),
    }
}

/// Adds the signatures of what is called.
fn push_of<'r>(alloc: Global, all: &mut Vec<Signature<'r>>, callee: Callee<'r>) -> Made<()>
    ensures { IfOk result (λ u. map line_of all.new.items
        ≡ map line_of all.old.items ++ overload_texts callee.entry) }
{
    let found = signatures(alloc, callee)?;
    all.extend_from_slice(&found)
}
