// The type of `switch`.
ghost use Rattle.std.specs.Prelude.{◌≡◌, ◌∷◌, Ok, map};
ghost use Rattle.wgsl_standard.specs.forms.Prelude.{scalar as scalar_type, given_type};
ghost use Rattle.wgsl_standard.specs.forms.Load.{loaded};
ghost use Rattle.wgsl_standard.specs.forms.Switch.{agrees as agrees_there, all_agree as all_agree_there, are_constant as constant_there, are_integers as integers_there, concrete_integer as concrete_there, first_concrete as first_there, is_integer_value, other_integer as other_there, switch_type as switch_there, switched};
ghost use Rattle.wgsl_standard.specs.forms.Views.{answer_view, given, unbuilt_view};

use crate::forms::index::is_index;
use crate::forms::prelude::*;

/// The type of a `switch` with that selector and these cases, `i32` or `u32` (WGSL, "Switch Statement"). Refused, in this
/// order, by the load of the selector or a case, or `NotInteger`; by `NotConst` if a case is no const-expression; by
/// `Conversion` if both types are there.
pub fn switch_type<'a>(selector: &Operand<'a>, cases: &[Operand<'a>]) -> Result<Scalar, Refusal<'a>>
    ensures { answer_view (λ s. s) result
        ≡ switch_there (given selector.now) (map given cases.now) }
{
    is_integer(selector.ty)?;
    are_integers(cases)?;
    if !are_constant(cases) {
        return Err(Refusal::NotConst);
    }
    common_integer(selector, cases)
}

fn is_integer<'a>(value: OperandType<'a>) -> Result<(), Refusal<'a>>
    ensures { answer_view (λ u. tt) result ≡ is_integer_value (given_type value.entry) }
{
    let loaded = load_type(value)?;
    if is_index(loaded) {
        Ok(())
    } else {
        Err(Refusal::NotInteger(UnbuiltType::of(loaded)))
    }
}

fn are_integers<'a>(values: &[Operand<'a>]) -> Result<(), Refusal<'a>>
    ensures { answer_view (λ u. tt) result ≡ integers_there (map given values.now) }
{
    for value in values {
        is_integer(value.ty)?;
    }
    Ok(())
}

fn are_constant(values: &[Operand<'_>]) -> bool
    ensures { result ≡ constant_there (map given values.now) }
{
    for value in values {
        if !is_const_expression(value) {
            return false;
        }
    }
    true
}

/// The integer type on which all values agree: that of the first that isn't abstract, else `i32`.
fn common_integer<'a>(selector: &Operand<'a>, cases: &[Operand<'a>]) -> Result<Scalar, Refusal<'a>>
    ensures { answer_view (λ s. s) result
        ≡ switched (first_there (given selector.now ∷ map given cases.now))
        (given selector.now ∷ map given cases.now) }
{
    match first_of(selector, cases) {
        Some(integer) => {
            if agrees(integer, concrete_integer(selector)) && all_agree(integer, cases) {
                Ok(integer)
            } else {
                Err(Refusal::Conversion(unbuilt(other_integer(integer)), unbuilt(integer)))
            }
        }
        None => Ok(Scalar::I32),
    }
}

fn unbuilt<'a>(scalar: Scalar) -> UnbuiltType<'a>
    ensures { unbuilt_view result ≡ scalar_type scalar }
{
    UnbuiltType::single(Element::Value(Dimensions::Single, scalar))
}

fn first_of(selector: &Operand<'_>, cases: &[Operand<'_>]) -> Option<Scalar>
    ensures { result ≡ first_there (given selector.now ∷ map given cases.now) }
{
    match concrete_integer(selector) {
        Some(integer) => Some(integer),
        None => first_concrete(cases),
    }
}

fn first_concrete(values: &[Operand<'_>]) -> Option<Scalar>
    ensures { result ≡ first_there (map given values.now) }
{
    for value in values {
        if let Some(integer) = concrete_integer(value) {
            return Some(integer);
        }
    }
    None
}

fn all_agree(integer: Scalar, values: &[Operand<'_>]) -> bool
    ensures { result ≡ all_agree_there integer (map given values.now) }
{
    for value in values {
        if !agrees(integer, concrete_integer(value)) {
            return false;
        }
    }
    true
}

fn agrees(integer: Scalar, found: Option<Scalar>) -> bool
    ensures { result ≡ agrees_there integer found }
{
    !matches!(
        (integer, found),
        (Scalar::I32, Some(Scalar::U32)) | (Scalar::U32, Some(Scalar::I32))
    )
}

fn other_integer(integer: Scalar) -> Scalar
    ensures { result ≡ other_there integer }
{
    match integer {
        Scalar::I32 => Scalar::U32,
        _ => Scalar::I32,
    }
}

/// Which of `i32` and `u32` a value loads as, if it is one.
fn concrete_integer(value: &Operand<'_>) -> Option<Scalar>
    ensures { result ≡ concrete_there (loaded (given value.now).of_type) }
{
    match load_type(value.ty) {
        Ok(loaded) => integer_in(loaded),
        Err(_) => None,
    }
}

fn integer_in(ty: OperandType<'_>) -> Option<Scalar>
    ensures { result ≡ concrete_there (Ok (given_type ty.entry)) }
{
    match ty {
        OperandType::Value(Dimensions::Single, scalar) => integer_scalar(scalar),
        OperandType::Value(_, _) => None,
        OperandType::Any(ty) => match ty.scalar() {
            Some(scalar) => integer_scalar(scalar),
            None => None,
        },
    }
}

fn integer_scalar(scalar: Scalar) -> Option<Scalar>
    ensures { result ≡ concrete_there (Ok (scalar_type scalar)) }
{
    match scalar {
        Scalar::I32 => Some(Scalar::I32),
        Scalar::U32 => Some(Scalar::U32),
        _ => None,
    }
}
