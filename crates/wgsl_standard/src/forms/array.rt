// Constructors of arrays.
ghost use Rattle.std.specs.Prelude.{◌≡◌, ◌∷◌, map, option_map};
ghost use Rattle.wgsl_standard.specs.forms.Prelude.{array, IsCommon, IsLeftCommon, view, given_type, types_given};
ghost use Rattle.wgsl_standard.specs.forms.Array.{IsArrayOf, IsInferredArray, all_load as all_load_there, array_of as array_there, elements_fit as elements_fit_there, referred as referred_there, typed_array};
ghost use Rattle.wgsl_standard.specs.forms.Views.{answer_view, unbuilt_view};

use crate::forms::lists::{all_fit, count_is};
use crate::forms::prelude::*;

/// The type of an array of values, `array(v, ..)` (WGSL, "array"): its elements have the common type of the values, which may
/// be abstract. Refused, in this order, by the load of a value, by `Builtin` without a value or without a common type, by
/// `NotConstructible` of the common type.
pub fn construct_array<'a>(values: &[Operand<'a>]) -> Result<UnbuiltType<'a>, Refusal<'a>>
    ensures { IsInferredArray (types_given values.now) (answer_view unbuilt_view result) }
{
    match all_load(values) {
        Ok(()) => array_of_values(values),
        Err(refusal) => Err(refusal),
    }
}

fn all_load<'a>(values: &[Operand<'a>]) -> Result<(), Refusal<'a>>
    ensures { answer_view (λ u. tt) result ≡ all_load_there (types_given values.now) }
{
    for value in values {
        load_type(value.ty)?;
    }
    Ok(())
}

fn array_of_values<'a>(values: &[Operand<'a>]) -> Result<UnbuiltType<'a>, Refusal<'a>>
    ensures { IsArrayOf (types_given values.now) (answer_view unbuilt_view result) }
{
    match values.split_first() {
        Some((first, rest)) => array_of(values.len(), common_element(referred(first.ty), rest)),
        None => Err(Refusal::Builtin("array constructor expects at least 1 argument")),
    }
}

/// The type of an array with this many elements of a type.
fn array_of<'a>(
    count: usize,
    element: Option<OperandType<'a>>,
) -> Result<UnbuiltType<'a>, Refusal<'a>>
    ensures { answer_view unbuilt_view result
        ≡ array_there count (option_map given_type element.entry) }
{
    match element {
        Some(ty) => {
            if operand_is_constructible(ty) {
                Ok(array_type(count, ty))
            } else {
                Err(Refusal::NotConstructible(UnbuiltType::of(ty)))
            }
        }
        None => Err(Refusal::Builtin("array elements are incompatible")),
    }
}

fn array_type(count: usize, element: OperandType<'_>) -> UnbuiltType<'_>
    ensures { unbuilt_view result ≡ array (Some count) (given_type element.entry) }
{
    let layer = Layer::Array(Some(count));
    match element {
        OperandType::Value(dimensions, scalar) => {
            UnbuiltType::within(layer, Element::Value(dimensions, scalar))
        }
        OperandType::Any(ty) => UnbuiltType::within(layer, Element::Any(ty)),
    }
}

/// The common type of values once they are loaded; None if they have none. The first is loaded already.
fn common_element<'a>(first: OperandType<'a>, rest: &[Operand<'a>]) -> Option<OperandType<'a>>
    ensures { IsLeftCommon (given_type first.entry ∷ map referred_there (types_given rest.now))
        (option_map given_type result) }
{
    let mut common = first;
    for value in rest {
        match common_of(common, referred(value.ty)) {
            Some(found) => common = found,
            None => return None,
        }
    }
    Some(common)
}

/// The common type of two types of operands.
fn common_of<'a>(a: OperandType<'a>, b: OperandType<'a>) -> Option<OperandType<'a>>
    ensures { IsCommon (given_type a.entry) (given_type b.entry) (option_map given_type result) }
{
    if converts_to(a, b) {
        Some(b)
    } else if converts_to(b, a) {
        Some(a)
    } else {
        None
    }
}

/// The type to which a reference refers; any other type itself.
fn referred(ty: OperandType<'_>) -> OperandType<'_>
    ensures { given_type result ≡ referred_there (given_type ty.entry) }
{
    match ty {
        OperandType::Value(_, _) => ty,
        OperandType::Any(of) => match of.form() {
            Form::Reference(_, stored, _) => OperandType::Any(stored),
            _ => ty,
        },
    }
}

/// The type of an array with a declared element type, `array<T, N>(v, ..)` (WGSL, "array"). The first of these refuses:
/// `NotConstructible` of the array; `ParamCount`, unless there are no values; for the first value that doesn't fit its
/// load, or `ParamType`.
pub fn construct_array_of<'a>(
    element: &'a Type,
    count: Option<usize>,
    values: &[Operand<'a>],
) -> Result<UnbuiltType<'a>, Refusal<'a>>
    ensures { answer_view unbuilt_view result
        ≡ typed_array (view element.now) count (types_given values.now) }
{
    let ty = UnbuiltType::within(Layer::Array(count), Element::Any(element));
    match count {
        Some(n) => {
            if !is_const_type(element) {
                return Err(Refusal::NotConstructible(ty));
            }
            elements_fit(n, element, values)?;
            Ok(ty)
        }
        None => Err(Refusal::NotConstructible(ty)),
    }
}

fn elements_fit<'a>(
    count: usize,
    element: &'a Type,
    values: &[Operand<'a>],
) -> Result<(), Refusal<'a>>
    ensures { answer_view (λ u. tt) result
        ≡ elements_fit_there count (view element.now) (types_given values.now) }
{
    if values.is_empty() {
        return Ok(());
    }
    count_is("array", count, values.len())?;
    all_fit(element, values)
}
