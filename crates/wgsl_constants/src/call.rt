// Calls of functions whose values are known at compile time (WGSL, "Value Constructor Built-in Functions", "bitcast", "Logical
// Built-in Functions", "Numeric Built-in Functions").
ghost use Rattle.std.specs.Prelude.{◌≡◌};
ghost use Rattle.wgsl_constants.specs.Calls.{bitcast, called, conversion, function_named, integer, integer_of, of_four, of_none, of_one, of_three, of_two, test, to_float, to_i32, to_u32, with_argument};

use crate::constant::Constant;
use crate::function::{
    BitFunction, absolute, bits_of, clamp, extract_bits, first_leading_bit, insert_bits, maximum,
    minimum, select, sign, signed_of,
};
use crate::integer::{Integer, IntegerError, IntegerOperator};
use crate::operator;
use wgsl_syntax::scalar::Scalar;

/// A function or an operator whose values are known at compile time.
#[derive(Clone, Copy)]
pub enum Function {
    Operator(IntegerOperator),
    ShiftLeft,
    ShiftRight,
    Negation,
    Complement,
    U32,
    I32,
    F32,
    F16,
    BitcastU32,
    BitcastI32,
    Abs,
    Sign,
    Min,
    Max,
    Clamp,
    Select,
    FirstLeadingBit,
    ExtractBits,
    InsertBits,
    All,
    Any,
    Bits(BitFunction),
}

/// The arguments of a call. No function takes more than four.
#[derive(Clone, Copy)]
pub enum Arguments {
    Zero,
    One(Constant),
    Two(Constant, Constant),
    Three(Constant, Constant, Constant),
    Four(Constant, Constant, Constant, Constant),
}

/// Why a call has no value.
#[derive(Clone, Copy)]
pub enum CallError {
    Integer(IntegerError),
    /// An argument of a type that the function doesn't take.
    NotInteger,
    WrongArgumentCount,
}

impl From<IntegerError> for CallError {
    ghost use Rattle.std.specs.Prelude.{◌≡◌};
    ghost use Rattle.wgsl_constants.specs.declared.call.CallError.TheVariants.{Integer};

    ghost from_gives = { λ e s. s ≡ Integer e };

    fn from(error: IntegerError) -> CallError {
        CallError::Integer(error)
    }
}

impl Arguments {
    /// The arguments with one behind them; None if there are four already.
    pub fn with(self, last: Constant) -> Option<Arguments>
        ensures { result ≡ with_argument last self }
    {
        match self {
            Arguments::Zero => Some(Arguments::One(last)),
            Arguments::One(a) => Some(Arguments::Two(a, last)),
            Arguments::Two(a, b) => Some(Arguments::Three(a, b, last)),
            Arguments::Three(a, b, c) => Some(Arguments::Four(a, b, c, last)),
            Arguments::Four(_, _, _, _) => None,
        }
    }
}

impl Function {
    /// The function with this name. `bitcast` is none: its type stands in a list behind its name. Nor is an operator.
    pub fn named(name: &str) -> Option<Function>
        ensures { result ≡ function_named name.now }
    {
        match name {
            "u32" => Some(Function::U32),
            "i32" => Some(Function::I32),
            "abs" => Some(Function::Abs),
            "sign" => Some(Function::Sign),
            "min" => Some(Function::Min),
            "max" => Some(Function::Max),
            "clamp" => Some(Function::Clamp),
            "select" => Some(Function::Select),
            "f32" => Some(Function::F32),
            "f16" => Some(Function::F16),
            "firstLeadingBit" => Some(Function::FirstLeadingBit),
            "extractBits" => Some(Function::ExtractBits),
            "insertBits" => Some(Function::InsertBits),
            "all" => Some(Function::All),
            "any" => Some(Function::Any),
            "countLeadingZeros" => Some(Function::Bits(BitFunction::CountLeadingZeros)),
            "countOneBits" => Some(Function::Bits(BitFunction::CountOneBits)),
            "countTrailingZeros" => Some(Function::Bits(BitFunction::CountTrailingZeros)),
            "firstTrailingBit" => Some(Function::Bits(BitFunction::FirstTrailingBit)),
            "reverseBits" => Some(Function::Bits(BitFunction::ReverseBits)),
            _ => None,
        }
    }

    /// The function that converts to a scalar type.
    pub fn conversion(scalar: Scalar) -> Option<Function>
        ensures { result ≡ conversion scalar }
    {
        match scalar {
            Scalar::U32 => Some(Function::U32),
            Scalar::I32 => Some(Function::I32),
            Scalar::F32 => Some(Function::F32),
            Scalar::F16 => Some(Function::F16),
            _ => None,
        }
    }

    /// The function that takes bits as those of a scalar type.
    pub fn bitcast(scalar: Scalar) -> Option<Function>
        ensures { result ≡ bitcast scalar }
    {
        match scalar {
            Scalar::U32 => Some(Function::BitcastU32),
            Scalar::I32 => Some(Function::BitcastI32),
            _ => None,
        }
    }

    /// The value for these arguments. It is `WrongArgumentCount` if the function takes more or fewer, else `NotInteger` if
    /// it doesn't take one of their types, or if a float can't hold it exactly, else the error of the function on integers.
    pub fn apply(self, arguments: Arguments) -> Result<Constant, CallError>
        ensures { result ≡ called self arguments }
    {
        match arguments {
            Arguments::Zero => self.of_none(),
            Arguments::One(a) => self.of_one(a),
            Arguments::Two(a, b) => Ok(Constant::Integer(self.of_two(a, b)?)),
            Arguments::Three(a, b, c) => Ok(Constant::Integer(self.of_three(a, b, c)?)),
            Arguments::Four(a, b, c, d) => Ok(Constant::Integer(self.of_four(a, b, c, d)?)),
        }
    }

    fn of_none(self) -> Result<Constant, CallError>
        ensures { result ≡ of_none self }
    {
        match self {
            Function::U32 => Ok(Constant::Integer(Integer::U32(0))),
            Function::I32 => Ok(Constant::Integer(Integer::I32(0))),
            Function::F32 | Function::F16 => Ok(Constant::Float(0)),
            _ => Err(CallError::WrongArgumentCount),
        }
    }

    fn of_one(self, a: Constant) -> Result<Constant, CallError>
        ensures { result ≡ of_one self a }
    {
        match self {
            Function::F32 => to_float(a, F32_EXACT),
            Function::F16 => to_float(a, F16_EXACT),
            Function::All | Function::Any => Ok(Constant::Bool(test(a)?)),
            _ => Ok(Constant::Integer(self.integer_of(a)?)),
        }
    }

    fn integer_of(self, a: Constant) -> Result<Integer, CallError>
        ensures { result ≡ integer_of self a }
    {
        match self {
            Function::U32 => Ok(Integer::U32(to_u32(a)?)),
            Function::I32 => Ok(Integer::I32(to_i32(a)?)),
            Function::BitcastU32 => Ok(Integer::U32(bits_of(integer(a)?)?)),
            Function::BitcastI32 => Ok(Integer::I32(signed_of(integer(a)?)?)),
            Function::Negation => Ok(operator::negative(integer(a)?)?),
            Function::Complement => Ok(operator::complement(integer(a)?)),
            Function::Abs => Ok(absolute(integer(a)?)?),
            Function::Sign => Ok(sign(integer(a)?)?),
            Function::FirstLeadingBit => Ok(first_leading_bit(integer(a)?)?),
            Function::Bits(function) => Ok(function.apply(integer(a)?)?),
            _ => Err(CallError::WrongArgumentCount),
        }
    }

    fn of_two(self, a: Constant, b: Constant) -> Result<Integer, CallError>
        ensures { result ≡ of_two self a b }
    {
        match self {
            Function::Operator(operator) => {
                Ok(operator::apply(operator, integer(a)?, integer(b)?)?)
            }
            Function::ShiftLeft => Ok(operator::shift_left(integer(a)?, integer(b)?)?),
            Function::ShiftRight => Ok(operator::shift_right(integer(a)?, integer(b)?)?),
            Function::Min => Ok(minimum(integer(a)?, integer(b)?)?),
            Function::Max => Ok(maximum(integer(a)?, integer(b)?)?),
            _ => Err(CallError::WrongArgumentCount),
        }
    }

    fn of_three(self, a: Constant, b: Constant, c: Constant) -> Result<Integer, CallError>
        ensures { result ≡ of_three self a b c }
    {
        match self {
            Function::Clamp => Ok(clamp(integer(a)?, integer(b)?, integer(c)?)?),
            Function::Select => Ok(select(integer(a)?, integer(b)?, test(c)?)?),
            Function::ExtractBits => Ok(extract_bits(integer(a)?, integer(b)?, integer(c)?)?),
            _ => Err(CallError::WrongArgumentCount),
        }
    }

    fn of_four(
        self,
        a: Constant,
        b: Constant,
        c: Constant,
        d: Constant,
    ) -> Result<Integer, CallError>
        ensures { result ≡ of_four self a b c d }
    {
        match self {
            Function::InsertBits => Ok(insert_bits(
                integer(a)?,
                integer(b)?,
                integer(c)?,
                integer(d)?,
            )?),
            _ => Err(CallError::WrongArgumentCount),
        }
    }
}

/// An `f32` holds each integer up to this one, and its negative.
const F32_EXACT: u64 = 16777216;

/// The same of an `f16`.
const F16_EXACT: u64 = 2048;

/// The conversion to a float that holds each integer up to a bound.
fn to_float(constant: Constant, exact: u64) -> Result<Constant, CallError>
    ensures { result ≡ to_float exact constant }
{
    let whole = match constant {
        Constant::Integer(integer) => integer.value(),
        Constant::Bool(test) => { if test { 1 } else { 0 } }
        Constant::Float(whole) => whole,
    };
    if whole.unsigned_abs() <= exact {
        Ok(Constant::Float(whole))
    } else {
        Err(CallError::NotInteger)
    }
}

/// The integer that a constant is; `NotInteger` of another.
pub fn integer(constant: Constant) -> Result<Integer, CallError>
    ensures { result ≡ integer constant }
{
    match constant {
        Constant::Integer(integer) => Ok(integer),
        Constant::Bool(_) | Constant::Float(_) => Err(CallError::NotInteger),
    }
}

fn test(constant: Constant) -> Result<bool, CallError>
    ensures { result ≡ test constant }
{
    match constant {
        Constant::Bool(test) => Ok(test),
        Constant::Integer(_) | Constant::Float(_) => Err(CallError::NotInteger),
    }
}

/// The conversion to `u32`, which keeps the bits of an `i32`. A float becomes the nearest `u32`.
fn to_u32(constant: Constant) -> Result<u32, CallError>
    ensures { result ≡ to_u32 constant }
{
    match constant {
        Constant::Integer(Integer::Abstract(value)) => Ok(operator::to_u32(value)?),
        Constant::Integer(Integer::I32(value)) => Ok(value.cast_unsigned()),
        Constant::Integer(Integer::U32(value)) => Ok(value),
        Constant::Bool(test) => Ok(if test { 1 } else { 0 }),
        Constant::Float(whole) => {
            let bound = if whole < 0 { 0 } else { u32::MAX };
            Ok(operator::to_u32(whole).unwrap_or(bound))
        }
    }
}

/// The conversion to `i32`, which keeps the bits of a `u32`. A float becomes the nearest `i32`.
fn to_i32(constant: Constant) -> Result<i32, CallError>
    ensures { result ≡ to_i32 constant }
{
    match constant {
        Constant::Integer(Integer::Abstract(value)) => Ok(operator::to_i32(value)?),
        Constant::Integer(Integer::I32(value)) => Ok(value),
        Constant::Integer(Integer::U32(value)) => Ok(value.cast_signed()),
        Constant::Bool(test) => Ok(if test { 1 } else { 0 }),
        Constant::Float(whole) => {
            let bound = if whole < 0 { i32::MIN } else { i32::MAX };
            Ok(operator::to_i32(whole).unwrap_or(bound))
        }
    }
}
