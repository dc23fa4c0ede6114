// The choice of an overload for operands (WGSL, "Overload Resolution"). It does not allocate.
ghost use Rattle.std.specs.Prelude.{◌≡◌, option_map};
ghost use Rattle.wgsl_rules.specs.standard.Choice.{IsChosen, ChoiceIsUnique};
ghost use Rattle.wgsl_rules.specs.standard.Tables.{IsUnambiguous};
ghost use Rattle.wgsl_standard.specs.Operands.{operands_view};
ghost use Rattle.wgsl_standard.specs.internal.Binding.{must_be_concrete as must_all_be_concrete, substitution_at as substitution_there, settle as settled, substitution_of as least_substitution, first_of as first_chosen};
ghost use Rattle.wgsl_standard.specs.internal.Choices.{choice_view};

use crate::binding::{Binding, FREE};
use crate::fitting::bind_all;
use crate::letter::pick;
use crate::operand::Operand;
use crate::overload::{kinds_of, parameters_of};
use wgsl_syntax::overload::{Overload, Substitution};
use wgsl_syntax::scalar::Scalar;

/// An overload that is chosen, by its index, and what its letters stand for.
#[derive(Clone, Copy)]
pub struct Choice {
    pub index: usize,
    pub substitution: Substitution,
}

/// The overload of a table that is preferred for operands, if one takes them.
#[inline(always)]
#[tactic(auto, using(crate::proofs::Choices::found))]
pub fn resolve(overloads: &[Overload], operands: &[Operand]) -> Option<Choice>
    requires { IsUnambiguous overloads.now }
    ensures { IsChosen overloads.now (operands_view operands.now) (option_map choice_view result) }
{
    first_of(must_be_concrete(operands), overloads, operands)
}

#[inline(always)]
fn first_of(concrete: bool, overloads: &[Overload], operands: &[Operand]) -> Option<Choice>
    ensures { option_map choice_view result ≡ first_chosen concrete overloads.now (operands_view operands.now) }
{
    for index in 0..overloads.len() {
        if let Some(substitution) = substitution_of(concrete, &overloads[index], operands) {
            return Some(Choice {
                index,
                substitution,
            });
        }
    }
    None
}

/// Whether the parameters must be concrete: an operand isn't a const-expression.
pub fn must_be_concrete(operands: &[Operand]) -> bool
    ensures { result ≡ must_all_be_concrete (operands_view operands.now) }
{
    for operand in operands {
        if !operand.is_constant {
            return true;
        }
    }
    false
}

/// The least substitution of the overload that takes the operands.
#[inline(always)]
fn substitution_of(
    concrete: bool,
    overload: &Overload,
    operands: &[Operand],
) -> Option<Substitution>
    ensures { result ≡ least_substitution concrete overload.now (operands_view operands.now) }
{
    let mut binding = FREE;
    if bind_all(concrete, &mut binding, parameters_of(overload), operands) {
        settle(concrete, overload, &binding)
    } else {
        None
    }
}

/// The scalars that the letters finally stand for.
#[inline(always)]
pub fn settle(concrete: bool, overload: &Overload, binding: &Binding) -> Option<Substitution>
    ensures { result ≡ settled concrete overload.now binding.now }
{
    // Each kind is read by itself, so that the compiler knows the kind of a letter that the overload doesn't have.
    let t = pick(concrete, kinds_of(overload).0, binding.t)?;
    let u = pick(concrete, kinds_of(overload).1, binding.u)?;
    let v = pick(concrete, kinds_of(overload).2, binding.v)?;
    let w = pick(concrete, kinds_of(overload).3, binding.w)?;
    Some(substitution_at(binding, t, u, v, w))
}

#[inline(always)]
fn substitution_at(binding: &Binding, t: Scalar, u: Scalar, v: Scalar, w: Scalar) -> Substitution
    ensures { result ≡ substitution_there binding.now t u v w }
{
    Substitution {
        t,
        u,
        v,
        w,
        width: binding.width.unwrap_or(None),
        n: binding.n.unwrap_or(0),
        m: binding.m.unwrap_or(0),
        k: binding.k.unwrap_or(0),
    }
}

/// At most one candidate is preferred for operands.
pub fn choice_is_unique()
    ensures { ChoiceIsUnique }
{}
