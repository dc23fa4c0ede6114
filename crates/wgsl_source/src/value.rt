// What is known of a value when a module is read.
ghost use Rattle.std.specs.Prelude.{◌≡◌, IfOk, Some};
ghost use Rattle.wgsl_constants.specs.Values.{map_value};
ghost use Rattle.wgsl_source.specs.Values.{binary, constant_in, converted, element, float_in, in_type, known, member, one, unary, vector_in};
ghost use Rattle.wgsl_source.specs.WrittenTypes.{HasInitial, meaning_of};
ghost use Rattle.wgsl_source.specs.internal.Read.{IsConstantOf};

use crate::fault::{Cause, Stop};
use crate::measured::{MeasuredType, TypeKind};
use crate::scope::{Meaning, Scope};
use wgsl_constants::call::{Arguments, Function, integer};
use wgsl_constants::constant::Constant;
use wgsl_constants::integer::Integer;
use wgsl_constants::vector::{Component, Vector, alike, zero_of};
use wgsl_reader::kind::Kind;
use wgsl_reader::read::Event;
use wgsl_spelling::value::{beside, binary_value, binary_vectors, unary_value, unary_vector};
use wgsl_syntax::scalar::Scalar;

/// What is known of a value.
#[derive(Clone, Copy)]
pub enum Value {
    Known(Constant),
    /// A vector of integers.
    Vector(Vector),
    /// A value that is known when the pipeline is created.
    Later,
}

/// A value, and where its expression stands in the text.
#[derive(Clone, Copy)]
pub struct PlacedValue {
    pub value: Value,
    pub at: usize,
}

/// The value of a `-`, a `~` or a `!` in front of a value, or why there is none.
pub fn unary(sign: Kind, value: Value) -> Result<Value, Cause>
    ensures { IfOk result (λ v. unary sign value ≡ Some v) }
{
    match (sign, value) {
        (_, Value::Known(operand)) => Ok(Value::Known(unary_value(sign, operand)?)),
        (_, Value::Vector(operand)) => Ok(Value::Vector(unary_vector(sign, operand)?)),
        (Kind::Minus | Kind::Tilde | Kind::Bang, Value::Later) => Ok(Value::Later),
        _ => Err(Cause::NotInteger),
    }
}

/// The value of an operator between two values, or why there is none.
pub fn binary(sign: Kind, left: Value, right: Value) -> Result<Value, Cause>
    ensures { IfOk result (λ v. binary sign left right ≡ Some v) }
{
    match (left, right) {
        (Value::Later, _) | (_, Value::Later) => Ok(Value::Later),
        (Value::Known(a), Value::Known(b)) => Ok(Value::Known(binary_value(sign, a, b)?)),
        (Value::Vector(v), Value::Vector(w)) => Ok(Value::Vector(binary_vectors(sign, v, w)?)),
        (Value::Vector(v), Value::Known(b)) => {
            Ok(Value::Vector(binary_vectors(sign, v, beside(sign, b, v)?)?))
        }
        (Value::Known(a), Value::Vector(w)) => {
            Ok(Value::Vector(binary_vectors(sign, beside(sign, a, w)?, w)?))
        }
    }
}

/// The component of a value with this letter, or why there is none.
pub fn member(value: Value, letter: &str) -> Result<Value, Cause>
    ensures { IfOk result (λ v. member letter.now value ≡ Some v) }
{
    match (value, Component::named(letter)) {
        (Value::Later, _) => Err(Cause::KnownLater),
        (Value::Vector(vector), Some(which)) => one(vector.component(which)),
        _ => Err(Cause::NotInteger),
    }
}

/// The component of a value at an index, or why there is none.
pub fn element(value: Value, index: Value) -> Result<Value, Cause>
    ensures { IfOk result (λ v. element value index ≡ Some v) }
{
    match (value, index) {
        (Value::Vector(vector), Value::Known(index)) => {
            one(vector.element(integer(index)?.value()))
        }
        (Value::Later, _) | (_, Value::Later) => Err(Cause::KnownLater),
        _ => Err(Cause::NotInteger),
    }
}

/// The value of a component, if the vector has it.
fn one(component: Option<Integer>) -> Result<Value, Cause>
    ensures { IfOk result (λ v. map_value one component ≡ Some v) }
{
    match component {
        Some(integer) => Ok(Value::Known(Constant::Integer(integer))),
        None => Err(Cause::NoSuchComponent),
    }
}

/// A value in a type to which it converts, or why it doesn't. It is `NotInteger` of a type that isn't evaluated here.
fn converted(value: Value, ty: MeasuredType) -> Result<Value, Cause>
    ensures { IfOk result (λ v. converted ty.kind value ≡ Some v) }
{
    match (ty.kind, value) {
        (_, Value::Later) => Err(Cause::KnownLater),
        (TypeKind::Scalar(scalar), Value::Known(constant)) => {
            Ok(Value::Known(constant_in(constant, scalar)?))
        }
        (TypeKind::Vector(_, scalar), Value::Vector(vector)) => vector_in(scalar, vector),
        _ => Err(Cause::NotInteger),
    }
}

/// A vector in a type to which its components convert, or why they don't.
pub fn vector_in(scalar: Scalar, vector: Vector) -> Result<Value, Cause>
    ensures { IfOk result (λ v. vector_in scalar vector ≡ Some v) }
{
    match zero_of(scalar) {
        Some(zero) => Ok(Value::Vector(vector.like(zero)?)),
        None => Err(Cause::NotInteger),
    }
}

fn constant_in(constant: Constant, scalar: Scalar) -> Result<Constant, Cause>
    ensures { IfOk result (λ x. constant_in constant scalar ≡ Some x) }
{
    match constant {
        Constant::Integer(integer) => match zero_of(scalar) {
            Some(zero) => Ok(Constant::Integer(alike(integer, zero)?)),
            None => float_in(scalar, constant),
        },
        Constant::Bool(_) => match scalar {
            Scalar::Bool => Ok(constant),
            _ => Err(Cause::NotInteger),
        },
        Constant::Float(_) => float_in(scalar, constant),
    }
}

/// The whole part of a constant in a type of floats to which it converts, or why it doesn't.
fn float_in(scalar: Scalar, constant: Constant) -> Result<Constant, Cause>
    ensures { IfOk result (λ x. float_in scalar constant ≡ Some x) }
{
    let function = match (scalar, constant) {
        (Scalar::F32, Constant::Integer(Integer::Abstract(_)) | Constant::Float(_)) =>
            Function::F32,
        (Scalar::F16, Constant::Integer(Integer::Abstract(_)) | Constant::Float(_)) =>
            Function::F16,
        _ => return Err(Cause::NotInteger),
    };
    Ok(function.apply(Arguments::One(constant))?)
}

fn known(value: Value) -> Result<Value, Cause>
    ensures { IfOk result (λ v. known value ≡ Some v) }
{
    match value {
        Value::Known(_) | Value::Vector(_) => Ok(value),
        Value::Later => Err(Cause::KnownLater),
    }
}

/// The value of a constant, in its type if one is declared, or why it doesn't convert.
fn in_type(value: Value, ty: Option<MeasuredType>) -> Result<Value, Cause>
    ensures { IfOk result (λ v. in_type ty value ≡ Some v) }
{
    match ty {
        Some(ty) => converted(value, ty),
        None => known(value),
    }
}

impl<'t> Scope<'t> {
    /// What a constant with this value stands for, in its type if one is declared.
    pub fn constant(&self, value: &[Event], ty: Option<MeasuredType>) -> Result<Meaning, Stop>
        ensures { IfOk result (IsConstantOf self.now.text (meaning_of self.now) value.now ty) }
    {
        match self.constant_value(value, ty) {
            Ok(value) => Ok(Meaning::Value(value)),
            Err(Stop::Fault(fault)) if fault.cause.is_of_other_value() => {
                Ok(Meaning::NoValue(fault))
            }
            Err(stop) => Err(stop),
        }
    }

    fn constant_value(&self, value: &[Event], ty: Option<MeasuredType>) -> Result<Value, Stop>
        ensures { IfOk result (HasInitial self.now.text (meaning_of self.now) value.now ty) }
    {
        let found = self.value_noted(value)?;
        match in_type(found.value, ty) {
            Ok(value) => Ok(value),
            Err(cause) => Err(Stop::at(found.at, cause)),
        }
    }
}
