// Declarations without memory, and the phony assignment.
ghost use Rattle.std.specs.Prelude.{◌≡◌, option_map};
ghost use Rattle.wgsl_standard.specs.forms.Prelude.{view, given_type, scalar as scalar_type, Let};
ghost use Rattle.wgsl_standard.specs.forms.Concrete.{concrete_of};
ghost use Rattle.wgsl_standard.specs.forms.Convert.{converted};
ghost use Rattle.wgsl_standard.specs.forms.Declare.{declared, is_const_type as may_be_const, is_let_type as may_be_named, is_override_type as may_be_override, may_be_let as may_be_let_there, named_by_const, named_by_let, named_by_override, overridden, taken};
ghost use Rattle.wgsl_standard.specs.forms.Views.{answer_view, given, unbuilt_view};

use crate::forms::prelude::*;

/// A declaration without memory.
#[derive(Clone, Copy)]
pub enum Declaration {
    /// `let x = v;`, `let x: T = v;`
    Let,
    /// `const x = v;`, `const x: T = v;`
    Const,
    /// `override x = v;`, `override x: T = v;`
    Override,
}

/// The type of what is declared with a value, and perhaps with a type (WGSL, "Value Declarations"). Refused, in this order:
/// `let` by `NotConstructible` of the type, by the load, by `NotConstructible` of the value, by `Conversion`; `const` by
/// `NotConst`, `NotConstructible`, `Conversion`; `override` by `NotConst`, `NotScalar`, `Conversion`.
pub fn declare<'a>(
    declaration: Declaration,
    value: &Operand<'a>,
    ty: Option<&'a Type>,
) -> Result<UnbuiltType<'a>, Refusal<'a>>
    ensures { answer_view unbuilt_view result
        ≡ declared declaration (given value.now) (option_map (λ t. view t.now) ty.entry) }
{
    match declaration {
        Declaration::Let => match ty {
            Some(ty) => let_of(value.ty, ty),
            None => discard(value),
        },
        _ if !is_const_expression(value) => Err(Refusal::NotConst),
        Declaration::Const => const_of(value.ty, ty),
        Declaration::Override => override_of(value.ty, ty),
    }
}

fn let_of<'a>(value: OperandType<'a>, ty: &'a Type) -> Result<UnbuiltType<'a>, Refusal<'a>>
    ensures { answer_view unbuilt_view result
        ≡ named_by_let (given_type value.entry) (view ty.now) }
{
    if !is_let_type(ty) {
        return Err(Refusal::NotConstructible(UnbuiltType::of_type(ty)));
    }
    let loaded = load_type(value)?;
    convert_to(loaded, ty)
}

/// The declared type, if the type of a value converts to it.
pub(crate) fn convert_to<'a>(
    value: OperandType<'a>,
    ty: &'a Type,
) -> Result<UnbuiltType<'a>, Refusal<'a>>
    ensures { answer_view unbuilt_view result ≡ converted (given_type value.entry) (view ty.now) }
{
    if converts(value, ty) {
        Ok(UnbuiltType::of_type(ty))
    } else {
        Err(Refusal::Conversion(UnbuiltType::of(value), UnbuiltType::of_type(ty)))
    }
}

/// The type of a value that is taken without a type, as by `let x = v;` and `_ = v;` (WGSL, "Phony Assignment"): loaded, and
/// made concrete. Refused by the load, or by `NotConstructible` if it is neither constructible nor a pointer nor a handle.
pub fn discard<'a>(value: &Operand<'a>) -> Result<UnbuiltType<'a>, Refusal<'a>>
    ensures { answer_view unbuilt_view result ≡ taken (given value.now).of_type }
{
    let value = load_type(value.ty)?;
    if operand_may_be_let(value) {
        Ok(concrete(value))
    } else {
        Err(Refusal::NotConstructible(UnbuiltType::of(value)))
    }
}

/// The type of an operand, made concrete.
pub(crate) fn concrete<'a>(ty: OperandType<'a>) -> UnbuiltType<'a>
    ensures { unbuilt_view result ≡ concrete_of (given_type ty.entry) }
{
    UnbuiltType::single(made_concrete(ty))
}

fn operand_may_be_let(ty: OperandType<'_>) -> bool
    ensures { result ≡ may_be_let_there (given_type ty.entry) }
{
    match ty {
        OperandType::Value(_, _) => true,
        OperandType::Any(ty) => may_be_let(ty),
    }
}

fn may_be_let(ty: &Type) -> bool
    ensures { result ≡ may_be_let_there (view ty.now) }
{
    match ty.form() {
        Form::Pointer(_, _, _) => true,
        _ => is_constructible(ty) || is_handle(ty),
    }
}

/// Whether a `let` or a parameter may be declared with the type: it is concrete, and constructible, a pointer or a handle.
pub fn is_let_type(ty: &Type) -> bool
    ensures { result ≡ may_be_named (view ty.now) }
{
    may_be_let(ty) && !has_abstract_type(ty)
}

/// Whether a `const` may be declared with the type: it is concrete and constructible.
pub fn is_const_type(ty: &Type) -> bool
    ensures { result ≡ may_be_const (view ty.now) }
{
    is_constructible(ty) && !has_abstract_type(ty)
}

fn const_of<'a>(
    value: OperandType<'a>,
    ty: Option<&'a Type>,
) -> Result<UnbuiltType<'a>, Refusal<'a>>
    ensures { answer_view unbuilt_view result
        ≡ named_by_const (given_type value.entry) (option_map (λ t. view t.now) ty.entry) }
{
    match ty {
        Some(ty) => {
            if is_const_type(ty) {
                convert_to(value, ty)
            } else {
                Err(Refusal::NotConstructible(UnbuiltType::of_type(ty)))
            }
        }
        None => {
            if operand_is_constructible(value) {
                Ok(UnbuiltType::of(value))
            } else {
                Err(Refusal::NotConstructible(UnbuiltType::of(value)))
            }
        }
    }
}

fn override_of<'a>(
    value: OperandType<'a>,
    ty: Option<&'a Type>,
) -> Result<UnbuiltType<'a>, Refusal<'a>>
    ensures { answer_view unbuilt_view result
        ≡ named_by_override (given_type value.entry) (option_map (λ t. view t.now) ty.entry) }
{
    match ty {
        Some(ty) => {
            override_without_value(ty)?;
            convert_to(value, ty)
        }
        None => {
            if is_override_value(value) {
                Ok(concrete(value))
            } else {
                Err(Refusal::NotScalar(concrete(value)))
            }
        }
    }
}

/// The type of an override without a value, `override x: T;`: `NotScalar` if it is none of `bool`, `i32`, `u32`, `f32` and
/// `f16`.
pub fn override_without_value(ty: &Type) -> Result<UnbuiltType<'_>, Refusal<'_>>
    ensures { answer_view unbuilt_view result ≡ overridden (view ty.now) }
{
    if is_override_type(ty) {
        Ok(UnbuiltType::of_type(ty))
    } else {
        Err(Refusal::NotScalar(UnbuiltType::of_type(ty)))
    }
}

fn is_override_type(ty: &Type) -> bool
    ensures { result ≡ may_be_override (view ty.now) }
{
    match ty.form() {
        Form::Scalar(scalar) => is_override_scalar(scalar),
        _ => false,
    }
}

fn is_override_scalar(scalar: Scalar) -> bool
    ensures { result ≡ may_be_override (scalar_type scalar) }
{
    matches!(
        scalar,
        Scalar::Bool | Scalar::I32 | Scalar::U32 | Scalar::F32 | Scalar::F16
    )
}

/// Whether the type of a value, made concrete, is that of an override.
#[tactic(auto, using(crate::proofs::Overrides::no_override))]
fn is_override_value(ty: OperandType<'_>) -> bool
    ensures { result ≡ may_be_override (concrete_of (given_type ty.entry)) }
{
    match ty {
        OperandType::Value(Dimensions::Single, scalar) => {
            is_override_scalar(concrete_scalar(scalar))
        }
        OperandType::Value(_, _) => false,
        OperandType::Any(ty) => match ty.scalar() {
            Some(scalar) => is_override_scalar(concrete_scalar(scalar)),
            None => false,
        },
    }
}
