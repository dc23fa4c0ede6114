// What the parts of an expression are.
ghost use Rattle.std.specs.Prelude.{◌≡◌, IfOk, map, option_map};
ghost use Rattle.wgsl_requests.specs.expressions.Prelude.{view, shown_type, behind};
ghost use Rattle.wgsl_requests.specs.expressions.Outcomes.{has_layer, is_deeper, is_outcome_too_deep, most_layers, with_part};
ghost use Rattle.wgsl_requests.specs.expressions.Steps.{given};
ghost use Rattle.wgsl_requests.specs.expressions.Views.{outcome_view, refused_view, shown, typed_view};

use crate::expressions::prelude::*;
use wgsl_core::ty::form::Form;

/// An expression, by its type.
#[derive(Drop)]
pub struct Typed {
    pub ty: Type,
    /// Whether it is a const-expression.
    pub is_constant: bool,
    /// What it refers to.
    pub referent: Referent,
}

/// A part of an expression that has no type: the index of its first byte, and why it has none.
#[derive(Drop)]
pub struct Refused {
    pub at: usize,
    pub message: String,
}

/// An expression, or its first part that has no type.
pub type Outcome = Result<Typed, Refused>;

/// The parts of an expression, or the first of them that has no type.
pub(crate) type Parts = Result<Vec<Typed>, Refused>;

/// What stands in front of operands: an operator, a name with a template, a type, or a function that the text declares.
#[derive(Drop)]
pub(crate) enum Head {
    Unary(UnaryOperator),
    Binary(BinaryOperator),
    Constructor(String, Option<Vec<TpltParam>>),
    Function(String, Option<Vec<TpltParam>>),
    /// The type of the elements, and their number, or None if it is not said.
    Array(Type, Option<usize>),
    Struct(Type),
    /// The name, the types of the parameters, and that of the result.
    Declared(String, Vec<Type>, Option<Type>),
}

/// An expression that is given by its type.
pub(crate) fn given(ty: Type, is_constant: bool) -> Typed
    ensures { typed_view result ≡ given is_constant (view ty) }
{
    Typed {
        ty,
        is_constant,
        referent: Referent::Whole,
    }
}

/// The type that is shown: of a swizzle that of its value.
pub fn shown_type(x: &Typed) -> &Type
    ensures { view result.now ≡ shown_type (typed_view x.now) }
{
    match x.referent {
        Referent::Swizzle => behind(&x.ty),
        _ => &x.ty,
    }
}

/// The type behind a reference or a pointer; any other type itself.
pub(crate) fn behind(ty: &Type) -> &Type
    ensures { view result.now ≡ behind (view ty.now) }
{
    match ty.form() {
        Form::Reference(_, stored, _) | Form::Pointer(_, stored, _) => stored,
        _ => ty,
    }
}

/// One more part.
#[inline(always)]
pub(crate) fn with_part(parts: Parts, part: Outcome) -> Made<Parts>
    ensures { IfOk result (λ all. shown (λ v. map typed_view v.items) refused_view all
        ≡ with_part (shown (λ v. map typed_view v.items) refused_view parts) (outcome_view part)) }
{
    match (parts, part) {
        (Ok(mut typed), Ok(part)) => {
            typed.push(part)?;
            Ok(Ok(typed))
        }
        (Ok(typed), Err(refused)) => {
            drop(typed);
            Ok(Err(refused))
        }
        (Err(refused), part) => {
            drop(part);
            Ok(Err(refused))
        }
    }
}

/// How many types may be inside a struct, and how many layers a type may have, one around another. Types are copied and dropped
/// by recursion.
pub(crate) const MOST_INSIDE: usize = 255;

/// Whether the type of an outcome has more layers than a type may have.
pub(crate) fn is_too_deep(x: &Outcome) -> bool
    ensures { result ≡ is_outcome_too_deep (outcome_view x.now) }
{
    match x {
        Ok(typed) => is_deep(&typed.ty),
        Err(_) => false,
    }
}

fn is_deep(ty: &Type) -> bool
    ensures { result ≡ is_deeper most_layers (view ty.now) }
{
    let mut inside = ty;
    let mut left = MOST_INSIDE;
    while has_layer(inside) {
        if left == 0 {
            return true;
        }
        left -= 1;
        inside = inside.inner();
    }
    false
}

/// Whether there is a type inside of a type.
fn has_layer(ty: &Type) -> bool
    ensures { result ≡ has_layer (view ty.now) }
{
    match ty.form() {
        Form::Array(_, _)
        | Form::Vector(_, _)
        | Form::Matrix(_, _, _)
        | Form::Atomic(_)
        | Form::Pointer(_, _, _)
        | Form::Reference(_, _, _)
        | Form::BindingArray(_, _) => true,
        _ => false,
    }
}
