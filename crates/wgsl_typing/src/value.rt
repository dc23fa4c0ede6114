// Values that are known before the shader runs: scalars, vectors of integers, and of arrays and structs what they hold.

ghost use Rattle.std.specs.Prelude.{◌≡◌};
ghost use Rattle.wgsl_core.specs.View.{view};
ghost use Rattle.wgsl_typing.specs.Values.{computed, constant_in, in_type, integer_in_type, vector_in};

use wgsl_constants::constant::Constant;
use wgsl_constants::integer::{Integer, IntegerError};
use wgsl_constants::vector::{COMPONENTS, Vector, alike, zero_of};
use wgsl_core::ty::Type;
use wgsl_core::ty::form::Form;
use wgsl_syntax::scalar::Scalar;

/// A value that is known.
#[derive(Clone, Copy)]
pub enum Value {
    One(Constant),
    Several(Vector),
    /// An array or a struct, by the index of its elements' or members' values among those that are kept.
    Elements(usize),
}

impl Value {
    /// The integer, if it is one.
    pub fn integer(self) -> Option<Integer> {
        match self {
            Value::One(Constant::Integer(integer)) => Some(integer),
            _ => None,
        }
    }

    /// The value in a type to which its own converts: `Ok(None)` if it isn't computed there. Those of elements and members are
    /// converted where they are taken.
    pub fn converted(self, ty: &Type) -> Result<Option<Value>, OutOfRange>
        ensures { computed result ≡ in_type (view ty.now) self }
    {
        match (self, ty.form()) {
            (Value::Elements(_), _) => Ok(Some(self)),
            (Value::One(one), Form::Scalar(scalar)) => match converted(one, scalar)? {
                Some(one) => Ok(Some(Value::One(one))),
                None => Ok(None),
            },
            (Value::Several(several), Form::Vector(_, of)) => each_converted(several, of.scalar()),
            _ => Ok(None),
        }
    }

    /// The value in a type to which its own converts, if it is computed there.
    pub fn in_type(self, ty: &Type) -> Option<Value>
        ensures { result ≡ in_type (view ty.now) self }
    {
        match self.converted(ty) {
            Ok(value) => value,
            Err(_) => None,
        }
    }
}

/// A value that its type can't hold.
#[derive(Clone, Copy)]
pub struct OutOfRange;

/// A scalar in a type to which its own converts.
fn converted(one: Constant, to: Scalar) -> Result<Option<Constant>, OutOfRange>
    ensures { computed result ≡ constant_in to one }
{
    match (one, to) {
        (Constant::Integer(integer), _) => converted_integer(integer, to),
        (Constant::Bool(_), Scalar::Bool) | (Constant::Float(_), _) => Ok(Some(one)),
        (Constant::Bool(_), _) => Ok(None),
    }
}

/// An integer in a type to which its own converts.
fn converted_integer(integer: Integer, to: Scalar) -> Result<Option<Constant>, OutOfRange>
    ensures { computed result ≡ integer_in_type to integer }
{
    match (zero_of(to), integer) {
        (Some(zero), _) => match alike(integer, zero) {
            Ok(found) => Ok(Some(Constant::Integer(found))),
            Err(IntegerError::Overflow) => Err(OutOfRange),
            Err(_) => Ok(None),
        },
        (None, Integer::Abstract(value)) => match to {
            Scalar::F16 if value > 65519 || value < -65519 => Err(OutOfRange),
            Scalar::F32 | Scalar::F16 | Scalar::AbstractFloat => Ok(Some(Constant::Float(value))),
            _ => Ok(None),
        },
        _ => Ok(None),
    }
}

/// A vector of integers in a type to which its own converts. One of floats isn't computed, but may be out of range.
fn each_converted(several: Vector, to: Option<Scalar>) -> Result<Option<Value>, OutOfRange>
    ensures { computed result ≡ vector_in to several }
{
    let Some(to) = to else {
        return Ok(None);
    };
    if let Some(zero) = zero_of(to) {
        return match several.like(zero) {
            Ok(vector) => Ok(Some(Value::Several(vector))),
            Err(IntegerError::Overflow) => Err(OutOfRange),
            Err(_) => Ok(None),
        };
    }
    for which in &COMPONENTS {
        if let Some(integer) = several.component(*which) {
            converted_integer(integer, to)?;
        }
    }
    Ok(None)
}
