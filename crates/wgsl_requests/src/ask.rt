// Answers each request by the function that decides it.
ghost use Rattle.std.specs.Prelude.{◌≡◌, IfOk, None};
ghost use Rattle.wgsl_requests.specs.Answers.{Answers};
ghost use Rattle.wgsl_requests.specs.Prelude.{IsOperatorAnswer, IsAnswered, view};
ghost use Rattle.wgsl_requests.specs.Views.{answer_view, binary_view, request_view};

use crate::forms::type_of_form;
use crate::prelude::*;
use crate::standard::{notes_on, resolution_of, signatures_named, type_of};
use wgsl_calls::call::returned_by;
use wgsl_calls::constructor::type_ctor;
use wgsl_core::conversion::conversion_rank;
use wgsl_core::operators::resolve::resolve_operator;
use wgsl_core::operators::type_unary_op;
use wgsl_standard::forms::lists::fit;
use wgsl_standard::meant::unknown_name;

/// The answer to the request.
#[inline(always)]
pub fn answer<'r>(alloc: Global, request: Request<'r>) -> Made<Answer<'r>>
    ensures { IfOk result (λ a. Answers (request_view request.entry) (answer_view a)) }
{
    match request {
        Request::Rank(source, target) => Ok(Answer::Number(conversion_rank(source, target))),
        Request::Unary(operator, operand) => {
            let made = type_unary_op(alloc, operator, operand);
            Ok(Answer::Type(settled(made)?))
        }
        Request::Binary(operator, lhs, rhs) => {
            Ok(Answer::Binary(resolved_type(operator, lhs, rhs)))
        }
        Request::Size(rules, ty) => {
            let (size, align) = ty.size_and_align_by(rules);
            Ok(Answer::Size(size, align))
        }
        Request::Offsets(rules, structure) => {
            Ok(Answer::Offsets(structure.offsets_by(alloc, rules)?))
        }
        Request::Layout(rules, structure) => {
            Ok(Answer::Layout(structure, structure.layout_by(alloc, rules)?))
        }
        Request::Constructor(named) => {
            let made = type_ctor(alloc, named.name, named.template, named.args);
            Ok(Answer::Type(settled(made)?))
        }
        Request::Call(named) => {
            let made = returned_by(alloc, &named);
            Ok(Answer::Value(named, settled(made)?))
        }
        Request::Type(call) => Ok(Answer::TypeOf(call, type_of(alloc, call)?)),
        Request::Resolution(call) => Ok(Answer::Resolution(call, resolution_of(alloc, call)?)),
        Request::Overloads(name) => Ok(Answer::Overloads(signatures_named(alloc, name)?)),
        Request::Explanation(call) => match unknown_name(call.callee) {
            Some(_) => Ok(Answer::TypeOf(call, None)),
            None => Ok(Answer::Notes(notes_on(alloc, call)?)),
        },
        Request::Form(form) => Ok(Answer::FormType(type_of_form(form))),
        Request::Fit(taker, values, types) => Ok(Answer::Fit(fit(taker, values, types))),
    }
}

/// The type of a binary expression.
#[inline(always)]
fn resolved_type<'r>(
    operator: BinaryOperator,
    lhs: &'r Type,
    rhs: &'r Type,
) -> Result<ResolvedType<'r>, Operands<'r>>
    ensures { IsOperatorAnswer operator (view lhs.now) (view rhs.now) (binary_view result) }
{
    match resolve_operator(operator, lhs, rhs) {
        Some(found) => Ok(found.result),
        None => Err(Operands { operator, lhs, rhs }),
    }
}

/// The result of a call. If that is out of memory, this is the outer error.
#[inline(always)]
fn settled<T: Drop>(made: Result<T, Fail<Error>>) -> Made<Result<T, Fail<Error>>>
    ensures { IfOk result (λ same. (made ≡ same) × IsAnswered same) }
{
    match out_of_memory(&made) {
        Some(error) => {
            drop(made);
            Err(error)
        }
        None => Ok(made),
    }
}

#[inline(always)]
fn out_of_memory<T>(made: &Result<T, Fail<Error>>) -> Option<AllocError>
    ensures { result ≡ None → IsAnswered made.now }
{
    match made {
        Ok(_) | Err(Fail::Error(_)) => None,
        Err(Fail::Memory(error)) => Some(*error),
    }
}
