// Whether operands fit the parameters of an overload.
ghost use Rattle.std.specs.Prelude.{◌≡◌, ◌≤◌, length};
ghost use Rattle.wgsl_rules.specs.standard.Overloads.{in_order};
ghost use Rattle.wgsl_standard.specs.Operands.{operands_view};
ghost use Rattle.wgsl_standard.specs.internal.Binding.{bind_if, bind_all as all_bound, bind_same as same_bound, bind_first as first_bound};

use crate::binding::{Binding, bind};
use crate::operand::Operand;
use crate::written::{parameter_count, patterns_of};
use wgsl_syntax::overload::{Parameters, Pattern};

/// Whether there is one operand for each parameter, and it fits. If so, the binding then has what they require too.
#[inline(always)]
pub fn bind_all(
    concrete: bool,
    binding: &mut Binding,
    parameters: &Parameters,
    operands: &[Operand],
) -> bool
    ensures { bind_if result binding.new ≡ all_bound concrete binding.old (in_order parameters.now) (operands_view operands.now) }
{
    if parameter_count(parameters) != operands.len() {
        return false;
    }
    bind_each(concrete, binding, parameters, operands)
}

/// Whether there are no more operands than parameters, and each fits. If so, the binding then has what they require
/// too.
pub fn bind_first(
    concrete: bool,
    binding: &mut Binding,
    parameters: &Parameters,
    operands: &[Operand],
) -> bool
    ensures { bind_if result binding.new ≡ first_bound concrete binding.old (in_order parameters.now) (operands_view operands.now) }
{
    if operands.len() > parameter_count(parameters) {
        return false;
    }
    bind_each(concrete, binding, parameters, operands)
}

/// `bind_first` for at most as many operands as there are parameters.
#[inline(always)]
fn bind_each(
    concrete: bool,
    binding: &mut Binding,
    parameters: &Parameters,
    operands: &[Operand],
) -> bool
    requires { length operands.now ≤ length (in_order parameters.now) }
    ensures { bind_if result binding.new ≡ first_bound concrete binding.old (in_order parameters.now) (operands_view operands.now) }
{
    match (parameters, operands) {
        (Parameters::One(a), [x]) => bind(concrete, binding, a, x),
        (Parameters::Two(a, b), [x, y]) => {
            bind(concrete, binding, a, x) && bind(concrete, binding, b, y)
        }
        (Parameters::Three(a, b, c), [x, y, z]) => {
            bind(concrete, binding, a, x)
                && bind(concrete, binding, b, y)
                && bind(concrete, binding, c, z)
        }
        (Parameters::Times(_, a), _) => bind_same(concrete, binding, a, operands),
        (Parameters::AndTimes(a, _, b), [x, others @ ..]) => {
            bind(concrete, binding, a, x) && bind_same(concrete, binding, b, others)
        }
        _ => bind_listed(concrete, binding, parameters, operands),
    }
}

fn bind_same(concrete: bool, binding: &mut Binding, pattern: &Pattern, operands: &[Operand]) -> bool
    ensures { bind_if result binding.new ≡ same_bound concrete binding.old pattern.now (operands_view operands.now) }
{
    for operand in operands {
        if !bind(concrete, binding, pattern, operand) {
            return false;
        }
    }
    true
}

/// `bind_each` for any parameters, by a list of them.
#[inline(never)]
fn bind_listed(
    concrete: bool,
    binding: &mut Binding,
    parameters: &Parameters,
    operands: &[Operand],
) -> bool
    requires { length operands.now ≤ length (in_order parameters.now) }
    ensures { bind_if result binding.new ≡ first_bound concrete binding.old (in_order parameters.now) (operands_view operands.now) }
{
    let patterns = patterns_of(parameters);
    for index in 0..operands.len() {
        if !bind(concrete, binding, patterns[index.min(6)], &operands[index]) {
            return false;
        }
    }
    true
}
