// Which operand of a call is refused.
ghost use Rattle.std.specs.Prelude.{◌≡◌, ◌↔◌, IsTrue};
ghost use Rattle.wgsl_standard.specs.Mismatches.{IsMismatch, is_nearer};
ghost use Rattle.wgsl_rules.specs.standard.Refusal.{SomeTakesFirst, IsRefusedAt};
ghost use Rattle.wgsl_standard.specs.Operands.{operands_view};
ghost use Rattle.wgsl_standard.specs.internal.Binding.{takes_first as it_takes_first, some_takes_first as one_takes_first};

use crate::binding::FREE;
use crate::fitting::bind_first;
use crate::operand::Operand;
use crate::overload::parameters_of;
use crate::resolve::{must_be_concrete, settle};
use crate::written::parameter_count;
use wgsl_syntax::overload::Overload;

/// The index of the first operand that no overload takes after the operands before it; None if there is no such
/// operand.
#[tactic(auto, using(crate::proofs::FirstParameters::none_refused_seen))]
pub fn refused_at(overloads: &[Overload], operands: &[Operand]) -> Option<usize>
    ensures { IsRefusedAt overloads.now (operands_view operands.now) result }
{
    for n in 0..operands.len() {
        if !some_takes_first(overloads, &operands[..n + 1]) {
            return Some(n);
        }
    }
    None
}

#[tactic(auto, using(crate::proofs::FirstParameters::some_takes_first_is))]
fn some_takes_first(overloads: &[Overload], operands: &[Operand]) -> bool
    ensures { IsTrue result ↔ SomeTakesFirst overloads.now (operands_view operands.now) }
{
    any_takes_first(overloads, operands)
}

fn any_takes_first(overloads: &[Overload], operands: &[Operand]) -> bool
    ensures { result ≡ one_takes_first overloads.now (operands_view operands.now) }
{
    for overload in overloads {
        if takes_first(overload, operands) {
            return true;
        }
    }
    false
}

fn takes_first(overload: &Overload, operands: &[Operand]) -> bool
    ensures { result ≡ it_takes_first overload.now (operands_view operands.now) }
{
    let concrete = must_be_concrete(operands);
    let mut binding = FREE;
    bind_first(concrete, &mut binding, parameters_of(overload), operands)
        && settle(concrete, overload, &binding).is_some()
}

/// Why an overload doesn't take the operands.
#[derive(Clone, Copy)]
pub enum Mismatch {
    /// It has this number of parameters.
    Count(usize),
    /// The index of the first operand that it doesn't take after the operands before it.
    Argument(usize),
}

impl Mismatch {
    /// Whether its overload is nearer to taking this many operands than one with the other reason: fewer are too many or
    /// missing, or it takes more of them before one that it doesn't take.
    pub(crate) fn is_nearer(self, other: Mismatch, given: usize) -> bool
        ensures { result ≡ is_nearer given self other }
    {
        match (self, other) {
            (Mismatch::Count(m), Mismatch::Count(n)) => m.abs_diff(given) < n.abs_diff(given),
            (Mismatch::Count(_), Mismatch::Argument(_)) => false,
            (Mismatch::Argument(_), Mismatch::Count(_)) => true,
            (Mismatch::Argument(i), Mismatch::Argument(j)) => i > j,
        }
    }
}

/// Why the overload doesn't take the operands; None if it does.
pub fn refused_by(overload: &Overload, operands: &[Operand]) -> Option<Mismatch>
    ensures { IsMismatch overload.now (operands_view operands.now) result }
{
    let count = parameter_count(parameters_of(overload));
    if count != operands.len() {
        return Some(Mismatch::Count(count));
    }
    match refused_at(&[*overload], operands) {
        Some(index) => Some(Mismatch::Argument(index)),
        None => None,
    }
}
