// What a call resolves to: an overload, the types to which its operands convert, and its result.
ghost use Rattle.std.specs.Prelude.{◌≡◌, ◌+◌, ◌<◌, ◌^◌, ◌&&◌, IfOk, cond, is_some, map, option_map};
ghost use Rattle.std.specs.List.{list_any};
ghost use Rattle.wgsl_core.specs.View.{view};
ghost use Rattle.wgsl_rules.specs.standard.Overloads.{in_order, patterns_of as patterns_there};
ghost use Rattle.wgsl_rules.specs.standard.Choice.{parameters_for, result_for as result_there};
ghost use Rattle.wgsl_rules.specs.standard.Signatures.{is_scalar_or_vector};
ghost use Rattle.wgsl_standard.specs.Answered.{Answers, IsRefusedAs, refusal_of};
ghost use Rattle.wgsl_standard.specs.Callees.{callee_view};
ghost use Rattle.wgsl_standard.specs.Operands.{operands_view};
ghost use Rattle.wgsl_standard.specs.Resolved.{resolved_view, IsNamedResolution, IsCallResolution, IndexNamesLine};

use crate::answer::{NoOverload, is_template, operands_with};
use crate::callee::{Callee, listed_overloads};
use crate::lines::lines_before;
use crate::operand::Operand;
use crate::overload::parameters_of;
use crate::resolve::resolve;
use crate::substitution::{built, parameter_for, result_type};
use crate::written::{parameter_count, patterns_of, takes_either};
use std::alloc::{AllocError, Global};
use wgsl_core::error::Fail;
use wgsl_core::ty::Type;
use wgsl_syntax::overload::{Overload, Parameters, Substitution};

/// An overload that is chosen, with the types that a compiler converts the operands to.
#[derive(Drop)]
pub struct ResolvedCall {
    /// The index of the overload's line among the signatures of all that has its name; of an overload that takes scalars or
    /// vectors, of the line for scalars or of that for vectors, as the parameters are.
    pub index: usize,
    pub parameters: Vec<Type>,
    /// None if the call has no value.
    pub result: Option<Type>,
}

/// What a call resolves to. With a template, its type stands first among the parameters. Operators take no template.
pub fn resolve_callee(
    alloc: Global,
    callee: Callee<'_>,
    template: Option<&Type>,
    operands: &[Operand<'_>],
) -> Result<ResolvedCall, Fail<NoOverload>>
    ensures answer { Answers resolved_view (IsCallResolution (callee_view callee.entry)
        (option_map (λ t. view t.now) template.entry) (operands_view operands.now)) result }
    ensures refusal { IsRefusedAs (refusal_of (callee_view callee.entry)) result }
{
    match template {
        Some(template) => {
            if !is_template(template) {
                return Err(Fail::Error(NoOverload::of(callee)));
            }
            let all = operands_with(alloc, template, operands)?;
            resolve_by(alloc, callee, true, &all)
        }
        None => resolve_by(alloc, callee, false, operands),
    }
}

/// The overload that is preferred for the operands, with its types.
fn resolve_by(
    alloc: Global,
    callee: Callee<'_>,
    has_template: bool,
    operands: &[Operand<'_>],
) -> Result<ResolvedCall, Fail<NoOverload>>
    ensures answer { Answers resolved_view (IsNamedResolution (callee_view callee.entry) has_template (operands_view operands.now)) result }
    ensures refusal { IsRefusedAs (refusal_of (callee_view callee.entry)) result }
{
    let overloads = listed_overloads(callee, has_template);
    match resolve(overloads, operands) {
        Some(choice) => {
            let line = lines_before(callee, has_template, &overloads[..choice.index]);
            let overload = &overloads[choice.index];
            let call = resolved(alloc, line, overload, &choice.substitution, operands)?;
            Ok(call)
        }
        None => Err(Fail::Error(NoOverload::of(callee))),
    }
}

fn resolved(
    alloc: Global,
    first_line: usize,
    overload: &Overload,
    substitution: &Substitution,
    operands: &[Operand<'_>],
) -> Result<ResolvedCall, AllocError>
    requires { first_line < 2 ^ 11 }
    ensures { IfOk result (λ r. resolved_view r
        ≡ (
          cond (list_any is_scalar_or_vector (patterns_there overload.now) && is_some substitution.now.width) (first_line + 1) first_line,
          parameters_for substitution.now (patterns_there overload.now) (operands_view operands.now),
          result_there substitution.now overload.now (operands_view operands.now),
        )) }
{
    let parameters = parameter_types(alloc, substitution, parameters_of(overload), operands)?;
    let found = result_type(alloc, substitution, overload, operands)?;
    let result = built(alloc, found)?;
    let of_vectors = takes_either(parameters_of(overload)) && substitution.width.is_some();
    Ok(ResolvedCall {
        index: if of_vectors {
            first_line + 1
        } else {
            first_line
        },
        parameters,
        result,
    })
}

/// The line at the index that a call resolves to is that of the overload that is chosen.
pub fn index_names_line()
    ensures { IndexNamesLine }
{}

fn parameter_types(
    alloc: Global,
    substitution: &Substitution,
    parameters: &Parameters,
    operands: &[Operand<'_>],
) -> Result<Vec<Type>, AllocError>
    ensures { IfOk result (λ v. map view v.items ≡ parameters_for substitution.now (in_order parameters.now) (operands_view operands.now)) }
{
    let mut types = Vec::with_capacity(alloc, operands.len())?;
    let patterns = patterns_of(parameters);
    for index in 0..operands.len().min(parameter_count(parameters)) {
        let pattern = *patterns[index.min(6)];
        types.push(parameter_for(alloc, substitution, pattern, &operands[index])?)?;
    }
    Ok(types)
}
