// Operators on integers (WGSL, "Arithmetic Expressions", "Bit Expressions").

ghost use Rattle.std.specs.Prelude.{◌≡◌, ◌<◌, ◌*◌, ◌*ℤ◌, ◌^◌, pos};
ghost use Rattle.std.specs.Int.{int_shr};
ghost use Rattle.wgsl_constants.specs.Conversions.{count_of, i32_of, pair, u32_of};
ghost use Rattle.wgsl_constants.specs.Functions.{comparison, of_pair};
ghost use Rattle.wgsl_constants.specs.Values.{abstract_shift, abstract_value, complement_of, i32_value, left_shift, near, negative, right_shift, u32_value, value};

use crate::integer::{Integer, IntegerError, IntegerOperator, IntegerPair};
use std::cmp::Ordering;

/// Both integers in the type to which they convert.
pub fn pair_of(left: Integer, right: Integer) -> Result<IntegerPair, IntegerError>
    ensures { result ≡ pair left right }
{
    match (left, right) {
        (Integer::Abstract(a), Integer::Abstract(b)) => Ok(IntegerPair::Abstract(a, b)),
        (Integer::Abstract(a), Integer::I32(b)) => Ok(IntegerPair::I32(to_i32(a)?, b)),
        (Integer::I32(a), Integer::Abstract(b)) => Ok(IntegerPair::I32(a, to_i32(b)?)),
        (Integer::I32(a), Integer::I32(b)) => Ok(IntegerPair::I32(a, b)),
        (Integer::Abstract(a), Integer::U32(b)) => Ok(IntegerPair::U32(to_u32(a)?, b)),
        (Integer::U32(a), Integer::Abstract(b)) => Ok(IntegerPair::U32(a, to_u32(b)?)),
        (Integer::U32(a), Integer::U32(b)) => Ok(IntegerPair::U32(a, b)),
        (Integer::I32(_), Integer::U32(_)) | (Integer::U32(_), Integer::I32(_)) => {
            Err(IntegerError::MixedTypes)
        }
    }
}

/// An AbstractInt as an `i32`.
pub fn to_i32(value: i64) -> Result<i32, IntegerError>
    ensures { result ≡ i32_of value }
{
    match i32::try_from(value) {
        Ok(value) => Ok(value),
        Err(_) => Err(IntegerError::Overflow),
    }
}

/// An AbstractInt as a `u32`.
pub fn to_u32(value: i64) -> Result<u32, IntegerError>
    ensures { result ≡ u32_of value }
{
    match u32::try_from(value) {
        Ok(value) => Ok(value),
        Err(_) => Err(IntegerError::Overflow),
    }
}

/// The value of an operator other than a shift, or why there is none.
pub fn apply(
    operator: IntegerOperator,
    left: Integer,
    right: Integer,
) -> Result<Integer, IntegerError>
    ensures { result ≡ value operator left right }
{
    match pair_of(left, right)? {
        IntegerPair::Abstract(a, b) => Ok(Integer::Abstract(apply_abstract(operator, a, b)?)),
        IntegerPair::I32(a, b) => Ok(Integer::I32(apply_i32(operator, a, b)?)),
        IntegerPair::U32(a, b) => Ok(Integer::U32(apply_u32(operator, a, b)?)),
    }
}

#[tactic(auto, using(crate::proofs::Values::fitted, crate::proofs::Values::no_quotient, crate::proofs::Values::quotient_64))]
fn apply_abstract(operator: IntegerOperator, a: i64, b: i64) -> Result<i64, IntegerError>
    ensures { result ≡ abstract_value operator a b }
{
    match operator {
        IntegerOperator::Addition => a.checked_add(b).ok_or(IntegerError::Overflow),
        IntegerOperator::Subtraction => a.checked_sub(b).ok_or(IntegerError::Overflow),
        IntegerOperator::Multiplication => a.checked_mul(b).ok_or(IntegerError::Overflow),
        IntegerOperator::Division | IntegerOperator::Remainder if b == 0 => {
            Err(IntegerError::DivisionByZero)
        }
        IntegerOperator::Division => a.checked_div(b).ok_or(IntegerError::Overflow),
        IntegerOperator::Remainder => a.checked_rem(b).ok_or(IntegerError::Overflow),
        IntegerOperator::BitwiseOr => Ok(a | b),
        IntegerOperator::BitwiseAnd => Ok(a & b),
        IntegerOperator::BitwiseXor => Ok(a ^ b),
    }
}

#[tactic(auto, using(std::proofs::lemmas::Int::wrapping_add_is, std::proofs::lemmas::Int::wrapping_sub_is, crate::proofs::Values::no_quotient, crate::proofs::Values::quotient_32))]
fn apply_i32(operator: IntegerOperator, a: i32, b: i32) -> Result<i32, IntegerError>
    ensures { result ≡ i32_value operator a b }
{
    match operator {
        IntegerOperator::Addition => Ok(a.wrapping_add(b)),
        IntegerOperator::Subtraction => Ok(a.wrapping_sub(b)),
        IntegerOperator::Multiplication => Ok(a.wrapping_mul(b)),
        IntegerOperator::Division | IntegerOperator::Remainder if b == 0 => {
            Err(IntegerError::DivisionByZero)
        }
        IntegerOperator::Division => a.checked_div(b).ok_or(IntegerError::Overflow),
        IntegerOperator::Remainder => a.checked_rem(b).ok_or(IntegerError::Overflow),
        IntegerOperator::BitwiseOr => Ok(a | b),
        IntegerOperator::BitwiseAnd => Ok(a & b),
        IntegerOperator::BitwiseXor => Ok(a ^ b),
    }
}

#[tactic(auto, using(crate::proofs::Values::quotient))]
fn apply_u32(operator: IntegerOperator, a: u32, b: u32) -> Result<u32, IntegerError>
    ensures { result ≡ u32_value operator a b }
{
    match operator {
        IntegerOperator::Addition => Ok(a.wrapping_add(b)),
        IntegerOperator::Subtraction => Ok(a.wrapping_sub(b)),
        IntegerOperator::Multiplication => Ok(a.wrapping_mul(b)),
        IntegerOperator::Division => a.checked_div(b).ok_or(IntegerError::DivisionByZero),
        IntegerOperator::Remainder => a.checked_rem(b).ok_or(IntegerError::DivisionByZero),
        IntegerOperator::BitwiseOr => Ok(a | b),
        IntegerOperator::BitwiseAnd => Ok(a & b),
        IntegerOperator::BitwiseXor => Ok(a ^ b),
    }
}

/// The number of bits that an integer says, which is a `u32`.
pub fn count_of(right: Integer) -> Result<u32, IntegerError>
    ensures { result ≡ count_of right }
{
    match right {
        Integer::Abstract(count) => to_u32(count),
        Integer::I32(_) => Err(IntegerError::MixedTypes),
        Integer::U32(count) => Ok(count),
    }
}

/// The value of `<<`, which is an error if it loses bits.
pub fn shift_left(left: Integer, right: Integer) -> Result<Integer, IntegerError>
    ensures { result ≡ left_shift left right }
{
    let count = count_of(right)?;
    match left {
        Integer::Abstract(value) => match shift_abstract(value, count) {
            Ok(value) => Ok(Integer::Abstract(value)),
            Err(error) => Err(error),
        },
        Integer::I32(value) => match shift_i32(value, count) {
            Ok(value) => Ok(Integer::I32(value)),
            Err(error) => Err(error),
        },
        Integer::U32(value) => match shift_u32(value, count) {
            Ok(value) => Ok(Integer::U32(value)),
            Err(error) => Err(error),
        },
    }
}

/// Two to the power of a number below 63.
fn power_of_two(exponent: u32) -> i64
    requires { exponent < 63 }
    ensures { result ≡ pos (2 ^ exponent) }
{
    1i64 << exponent
}

#[tactic(auto, using(crate::proofs::Values::fitted))]
fn shift_abstract(value: i64, count: u32) -> Result<i64, IntegerError>
    ensures { result ≡ abstract_shift value count }
{
    if value == 0 {
        Ok(0)
    } else if count < 63 {
        value
            .checked_mul(power_of_two(count))
            .ok_or(IntegerError::Overflow)
    } else if value == -1 && count == 63 {
        Ok(i64::MIN)
    } else {
        Err(IntegerError::Overflow)
    }
}

fn shift_i32(value: i32, count: u32) -> Result<i32, IntegerError>
    ensures { result ≡ near count (i32_of (value *ℤ pos (2 ^ count))) }
{
    if count < 32 {
        to_i32(i64::from(value) * power_of_two(count))
    } else {
        Err(IntegerError::ShiftTooFar)
    }
}

fn shift_u32(value: u32, count: u32) -> Result<u32, IntegerError>
    ensures { result ≡ near count (u32_of (pos (value * 2 ^ count))) }
{
    if count < 32 {
        to_u32(i64::from(value) * power_of_two(count))
    } else {
        Err(IntegerError::ShiftTooFar)
    }
}

/// The value of `>>`.
pub fn shift_right(left: Integer, right: Integer) -> Result<Integer, IntegerError>
    ensures { result ≡ right_shift left right }
{
    let count = count_of(right)?;
    match left {
        Integer::Abstract(value) => Ok(Integer::Abstract(shift_down(value, count))),
        Integer::I32(_) | Integer::U32(_) if count >= 32 => Err(IntegerError::ShiftTooFar),
        Integer::I32(value) => Ok(Integer::I32(value >> count)),
        Integer::U32(value) => Ok(Integer::U32(value >> count)),
    }
}

fn shift_down(value: i64, count: u32) -> i64
    ensures { result ≡ int_shr value count }
{
    if count < 64 {
        value >> count
    } else if value < 0 {
        -1
    } else {
        0
    }
}

/// The value of `-`. For the least AbstractInt or `i32` it is that number.
pub fn negative(integer: Integer) -> Result<Integer, IntegerError>
    ensures { result ≡ negative integer }
{
    match integer {
        Integer::Abstract(value) => Ok(Integer::Abstract(value.wrapping_neg())),
        Integer::I32(value) => Ok(Integer::I32(value.wrapping_neg())),
        Integer::U32(_) => Err(IntegerError::NegatedUnsigned),
    }
}

/// The value of `~`.
pub fn complement(integer: Integer) -> Integer
    ensures { result ≡ complement_of integer }
{
    match integer {
        Integer::Abstract(value) => Integer::Abstract(!value),
        Integer::I32(value) => Integer::I32(!value),
        Integer::U32(value) => Integer::U32(!value),
    }
}

/// How the first of two integers of one type compares with the second.
pub fn compare(left: Integer, right: Integer) -> Result<Ordering, IntegerError>
    ensures { result ≡ of_pair comparison left right }
{
    match pair_of(left, right)? {
        IntegerPair::Abstract(a, b) => Ok(a.cmp(&b)),
        IntegerPair::I32(a, b) => Ok(a.cmp(&b)),
        IntegerPair::U32(a, b) => Ok(a.cmp(&b)),
    }
}
