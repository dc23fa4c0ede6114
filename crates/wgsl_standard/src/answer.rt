// The types of operators and calls by WGSL's own overloads.
ghost use Rattle.std.specs.Prelude.{◌≡◌, ◌∷◌, false, option_map, true, IfOk, IfSome, IsTrue};
ghost use Rattle.wgsl_core.specs.View.{view};
ghost use Rattle.wgsl_rules.specs.standard.Choice.{result_for as result_there};
ghost use Rattle.wgsl_rules.specs.standard.Tables.{IsUnambiguous};
ghost use Rattle.wgsl_rules.specs.standard.Answers.{IsStandardAnswer, IsNamedAnswer, is_template as may_be_template, template_operand, IsTemplateAnswer, IsCallAnswer};
ghost use Rattle.wgsl_standard.specs.Answered.{Answers, IsRefusedAs, refusal_of};
ghost use Rattle.wgsl_standard.specs.Callees.{callee_view, overloads_of};
ghost use Rattle.wgsl_standard.specs.Operands.{operands_view};
ghost use Rattle.wgsl_standard.specs.Results.{result_view};
ghost use Rattle.wgsl_standard.specs.Texts.{types_given};

use crate::callee::{Callee, overloads};
use crate::meant::unknown_name;
use crate::operand::Operand;
use crate::resolve::resolve;
use crate::substitution::{ResultType, result_type};
use std::alloc::{AllocError, Global};
use wgsl_core::error::Fail;
use wgsl_core::ty::Type;
use wgsl_core::ty::form::Form;
use wgsl_syntax::overload::{Overload, Substitution};

/// Why a call has no answer.
#[derive(Clone, Copy)]
pub enum NoOverload {
    /// No built-in function, no constructor and no other predeclared type has the name.
    UnknownName,
    /// No candidate takes the operands, or the template is abstract or a reference.
    NoCandidate,
}

impl NoOverload {
    /// The reason for this call, if it has no answer.
    #[inline(never)]
    pub(crate) fn of(callee: Callee<'_>) -> NoOverload
        ensures { result ≡ refusal_of (callee_view callee.entry) }
    {
        match unknown_name(callee) {
            Some(_) => NoOverload::UnknownName,
            None => NoOverload::NoCandidate,
        }
    }
}

/// The type of a call, or None if it has no value. It is allocated only if it isn't a scalar, a vector or a matrix.
/// Operators take no template.
#[inline(always)]
pub fn type_of_call(
    alloc: Global,
    callee: Callee<'_>,
    template: Option<&Type>,
    operands: &[Operand<'_>],
) -> Result<Option<ResultType>, Fail<NoOverload>>
    ensures answer { Answers (option_map result_view) (IsCallAnswer (overloads_of callee.entry false) (overloads_of callee.entry true)
        (option_map (λ t. view t.now) template.entry) (operands_view operands.now)) result }
    ensures refusal { IsRefusedAs (refusal_of (callee_view callee.entry)) result }
{
    match template {
        Some(template) => type_with_template(alloc, callee, template, operands),
        None => type_by(alloc, callee, overloads(callee, false), operands),
    }
}

/// The type of a call with a template, which counts as the first operand.
#[inline(never)]
fn type_with_template(
    alloc: Global,
    callee: Callee<'_>,
    template: &Type,
    operands: &[Operand<'_>],
) -> Result<Option<ResultType>, Fail<NoOverload>>
    ensures answer { Answers (option_map result_view) (IsTemplateAnswer (overloads_of callee.entry true) (view template.now) (operands_view operands.now)) result }
    ensures refusal { IsRefusedAs (refusal_of (callee_view callee.entry)) result }
{
    if !is_template(template) {
        return Err(Fail::Error(NoOverload::of(callee)));
    }
    let all = operands_with(alloc, template, operands)?;
    type_by(alloc, callee, overloads(callee, true), &all)
}

/// Whether the type may be a template: it is concrete, and no reference.
pub(crate) fn is_template(ty: &Type) -> bool
    ensures { result ≡ may_be_template (view ty.now) }
{
    match ty.form() {
        Form::Reference(_, _, _) => false,
        _ => !ty.is_abstract(),
    }
}

/// The operands of a call, with its template in front.
pub(crate) fn operands_with<'a>(
    alloc: Global,
    template: &'a Type,
    operands: &[Operand<'a>],
) -> Result<Vec<Operand<'a>>, AllocError>
    requires { IsTrue (may_be_template (view template.now)) }
    ensures loaded { IfOk result (λ v. operands_view v.items
        ≡ template_operand (view template.now) ∷ operands_view operands.now) }
    ensures given { IfOk result (λ v. types_given v.items ≡ view template.now ∷ types_given operands.now) }
{
    let mut all = Vec::with_capacity(alloc, 1)?;
    all.push(Operand::of(template, true))?;
    all.extend_from_slice(operands)?;
    Ok(all)
}

/// The type of a call with these overloads, if there are any.
#[inline(always)]
fn type_by(
    alloc: Global,
    callee: Callee<'_>,
    overloads: Option<&[Overload]>,
    operands: &[Operand<'_>],
) -> Result<Option<ResultType>, Fail<NoOverload>>
    requires { IfSome overloads (λ o. IsUnambiguous o.now) }
    ensures answer { Answers (option_map result_view) (IsNamedAnswer (option_map (λ o. o.now) overloads.entry) (operands_view operands.now)) result }
    ensures refusal { IsRefusedAs (refusal_of (callee_view callee.entry)) result }
{
    let Some(overloads) = overloads else {
        return Err(Fail::Error(NoOverload::of(callee)));
    };
    match chosen(overloads, operands) {
        Some((overload, substitution)) => Ok(result_type(
            alloc,
            &substitution,
            overload,
            operands,
        )?),
        None => Err(Fail::Error(NoOverload::of(callee))),
    }
}

/// The overload that is chosen, and what its letters stand for.
#[inline(always)]
fn chosen<'a>(
    overloads: &'a [Overload],
    operands: &[Operand<'_>],
) -> Option<(&'a Overload, Substitution)>
    requires { IsUnambiguous overloads.now }
    ensures { IsStandardAnswer overloads.now (operands_view operands.now)
        (option_map (λ c. result_there c.1 c.0.now (operands_view operands.now)) result) }
{
    match resolve(overloads, operands) {
        Some(choice) => Some((&overloads[choice.index], choice.substitution)),
        None => None,
    }
}
