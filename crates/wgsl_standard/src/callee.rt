// What is called, and its overloads.
ghost use Rattle.wgsl_rules.specs.standard.Evaluation.{may_be_dropped as may_be_dropped_there, needs_subgroups as needs_subgroups_there, stages_of as stages_there};
ghost use Rattle.std.specs.Prelude.{◌≡◌, ◌<◌, ◌^◌, length, option_map, IfSome};
ghost use Rattle.wgsl_rules.specs.standard.Tables.{IsUnambiguous};
ghost use Rattle.wgsl_standard.specs.Callees.{callee_view, can_be_const_expression as can_be_there, is_name as is_name_there, overloads_of};
ghost use Rattle.wgsl_standard.specs.Explained.{or_none};

use crate::names::{constructors, evaluation, find, find_function, is_other_type, templates};
use crate::operators::{binary_overloads, unary_overloads};
use wgsl_syntax::operator::{BinaryOperator, UnaryOperator};
use wgsl_syntax::overload::{Evaluation, Overload, Stages};
use wgsl_syntax::tables::names::TEMPLATE_FUNCTIONS;

/// What is called: an operator, a built-in function or a constructor.
#[derive(Clone, Copy)]
pub enum Callee<'a> {
    Unary(UnaryOperator),
    Binary(BinaryOperator),
    Function(&'a str),
    Constructor(&'a str),
}

/// The overloads of what is called, without a template or with one. None if no such call is listed.
#[inline(always)]
pub fn overloads(callee: Callee<'_>, has_template: bool) -> Option<&'static [Overload]>
    ensures row { option_map (λ o. o.now) result ≡ overloads_of callee.entry has_template }
    ensures unambiguous { IfSome result (λ o. IsUnambiguous o.now) }
{
    table(callee, has_template)
}

#[inline(always)]
fn table(callee: Callee<'_>, has_template: bool) -> Option<&'static [Overload]>
    ensures { option_map (λ o. o.now) result ≡ overloads_of callee.entry has_template }
{
    match (callee, has_template) {
        (Callee::Unary(operator), false) => Some(unary_overloads(operator)),
        (Callee::Binary(operator), false) => Some(binary_overloads(operator)),
        (Callee::Unary(_) | Callee::Binary(_), true) => None,
        (Callee::Function(name), false) => find_function(name),
        (Callee::Function(name), true) => find(name, TEMPLATE_FUNCTIONS),
        (Callee::Constructor(name), false) => find(name, constructors()),
        (Callee::Constructor(name), true) => find(name, templates()),
    }
}

/// The overloads of what is called, without a template or with one; an empty list if no such call is listed.
pub fn listed_overloads(callee: Callee<'_>, has_template: bool) -> &'static [Overload]
    ensures list { result.now ≡ or_none (overloads_of callee.entry has_template) }
    ensures unambiguous { IsUnambiguous result.now }
    ensures few { length result.now < 2 ^ 8 }
{
    match overloads(callee, has_template) {
        Some(overloads) => overloads,
        None => &[],
    }
}

/// Whether a built-in function, a constructor or another predeclared type has the name.
pub(crate) fn is_name(name: &str) -> bool
    ensures { result ≡ is_name_there name.now }
{
    find_function(name).is_some()
        || find(name, TEMPLATE_FUNCTIONS).is_some()
        || find(name, constructors()).is_some()
        || find(name, templates()).is_some()
        || is_other_type(name)
}

/// Whether a call can be a const-expression. It is one if its operands are too.
pub fn can_be_const_expression(callee: Callee<'_>) -> bool
    ensures { result ≡ can_be_there (callee_view callee.entry) }
{
    match callee {
        Callee::Function(name) => matches!(evaluation(name), None | Some(Evaluation::Constant)),
        Callee::Unary(_) | Callee::Binary(_) | Callee::Constructor(_) => true,
    }
}

/// The shaders that may call a built-in function; all of any other name.
pub fn stages_of(name: &str) -> Stages
    ensures { result ≡ stages_there name.now }
{
    match evaluation(name) {
        Some(Evaluation::Fragment) => Stages::Fragment,
        Some(Evaluation::Compute) => Stages::Compute,
        Some(Evaluation::Atomic | Evaluation::Subgroup) => Stages::AllButVertex,
        Some(Evaluation::Constant | Evaluation::Runtime) | None => Stages::All,
    }
}

/// Whether the value of a call of a built-in function may be left unused (WGSL, "Function Call Statement").
pub fn may_be_dropped(name: &str) -> bool
    ensures { result ≡ may_be_dropped_there name.now }
{
    matches!(evaluation(name), Some(Evaluation::Atomic))
}

/// Whether a built-in function needs `enable subgroups;`.
pub fn needs_subgroups(name: &str) -> bool
    ensures { result ≡ needs_subgroups_there name.now }
{
    matches!(evaluation(name), Some(Evaluation::Subgroup))
}
