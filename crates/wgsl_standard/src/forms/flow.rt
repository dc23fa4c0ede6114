// Conditions, and the values that functions return.
ghost use Rattle.std.specs.Prelude.{◌≡◌};
ghost use Rattle.wgsl_standard.specs.forms.Prelude.{view, given_type};
ghost use Rattle.wgsl_standard.specs.forms.Flow.{condition as condition_there, is_bool as is_bool_there, returned as returned_there};
ghost use Rattle.wgsl_standard.specs.forms.Views.{answer_view, unbuilt_view};

use crate::forms::prelude::*;

/// The type of the condition of `if`, `while`, `for`, `break if` or `const_assert`, `bool` (WGSL, "Control Flow"). Refused
/// by the load, or by `NotCondition` of any other type.
pub fn condition<'a>(value: &Operand<'a>) -> Result<UnbuiltType<'a>, Refusal<'a>>
    ensures { answer_view unbuilt_view result ≡ condition_there (given_type value.now.ty) }
{
    let value = load_type(value.ty)?;
    if is_bool(value) {
        Ok(UnbuiltType::of(value))
    } else {
        Err(Refusal::NotCondition(UnbuiltType::of(value)))
    }
}

fn is_bool(ty: OperandType<'_>) -> bool
    ensures { result ≡ is_bool_there (given_type ty.entry) }
{
    match ty {
        OperandType::Value(Dimensions::Single, scalar) => matches!(scalar, Scalar::Bool),
        OperandType::Value(_, _) => false,
        OperandType::Any(ty) => matches!(ty.scalar(), Some(Scalar::Bool)),
    }
}

/// The type that a function returns, if `return` gives this value (WGSL, "Return Statement"). Refused, in this order, by
/// `NotConstructible` of the type, by the load, by `NotReturned` of a value that doesn't convert to the type.
pub fn return_value<'a>(value: &Operand<'a>, ty: &'a Type) -> Result<UnbuiltType<'a>, Refusal<'a>>
    ensures { answer_view unbuilt_view result
        ≡ returned_there (view ty.now) (given_type value.now.ty) }
{
    if !is_const_type(ty) {
        return Err(Refusal::NotConstructible(UnbuiltType::of_type(ty)));
    }
    let value = load_type(value.ty)?;
    if converts(value, ty) {
        Ok(UnbuiltType::of_type(ty))
    } else {
        Err(Refusal::NotReturned(UnbuiltType::of_type(ty), UnbuiltType::of(value)))
    }
}
