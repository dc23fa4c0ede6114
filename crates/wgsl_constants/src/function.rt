// Functions on integers (WGSL, "Numeric Built-in Functions", "Logical Built-in Functions", "bitcast").

ghost use Rattle.std.specs.Prelude.{◌≡◌, ◌+◌, ◌<◌, ◌≤◌, ◌^◌};
ghost use Rattle.wgsl_constants.specs.Functions.{absolute, bits_of, clamped, extracted, field, field_i32, first_bit, first_bit_of, greatest, inserted, leading_bit, least, of_bits, of_i32, of_pair, of_u32, replaced, replaced_i32, selected, sign, signed, signed_of};

use crate::integer::{Integer, IntegerError, IntegerPair};
use crate::operator::{compare, count_of, pair_of, to_i32, to_u32};
use std::cmp::Ordering;

/// `bitcast<u32>`. An AbstractInt is taken as an `i32` if it fits, or else as a `u32`.
pub fn bits_of(integer: Integer) -> Result<u32, IntegerError>
    ensures { result ≡ bits_of integer }
{
    match integer {
        Integer::Abstract(value) => match to_i32(value) {
            Ok(value) => Ok(value.cast_unsigned()),
            Err(_) => to_u32(value),
        },
        Integer::I32(value) => Ok(value.cast_unsigned()),
        Integer::U32(value) => Ok(value),
    }
}

/// `bitcast<i32>`. An AbstractInt is taken as an `i32`.
pub fn signed_of(integer: Integer) -> Result<i32, IntegerError>
    ensures { result ≡ signed_of integer }
{
    match integer {
        Integer::Abstract(value) => to_i32(value),
        Integer::I32(value) => Ok(value),
        Integer::U32(value) => Ok(value.cast_signed()),
    }
}

/// `abs`. For the least AbstractInt or `i32` it is that number.
pub fn absolute(integer: Integer) -> Result<Integer, IntegerError>
    ensures { result ≡ absolute integer }
{
    match integer {
        Integer::Abstract(value) => Ok(Integer::Abstract(value.wrapping_abs())),
        Integer::I32(value) => Ok(Integer::I32(value.wrapping_abs())),
        Integer::U32(value) => Ok(Integer::U32(value)),
    }
}

/// `sign`, which has no overload for `u32`.
pub fn sign(integer: Integer) -> Result<Integer, IntegerError>
    ensures { result ≡ sign integer }
{
    match integer {
        Integer::Abstract(value) => Ok(Integer::Abstract(value.signum())),
        Integer::I32(value) => Ok(Integer::I32(value.signum())),
        Integer::U32(_) => Err(IntegerError::NegatedUnsigned),
    }
}

/// `min`
pub fn minimum(left: Integer, right: Integer) -> Result<Integer, IntegerError>
    ensures { result ≡ of_pair least left right }
{
    match pair_of(left, right)? {
        IntegerPair::Abstract(a, b) => Ok(Integer::Abstract(a.min(b))),
        IntegerPair::I32(a, b) => Ok(Integer::I32(a.min(b))),
        IntegerPair::U32(a, b) => Ok(Integer::U32(a.min(b))),
    }
}

/// `max`
pub fn maximum(left: Integer, right: Integer) -> Result<Integer, IntegerError>
    ensures { result ≡ of_pair greatest left right }
{
    match pair_of(left, right)? {
        IntegerPair::Abstract(a, b) => Ok(Integer::Abstract(a.max(b))),
        IntegerPair::I32(a, b) => Ok(Integer::I32(a.max(b))),
        IntegerPair::U32(a, b) => Ok(Integer::U32(a.max(b))),
    }
}

/// `clamp` to `low` and `high`. It is an error if `low` is above `high`.
pub fn clamp(value: Integer, low: Integer, high: Integer) -> Result<Integer, IntegerError>
    ensures { result ≡ clamped value low high }
{
    match compare(low, high)? {
        Ordering::Greater => Err(IntegerError::EmptyRange),
        Ordering::Less | Ordering::Equal => minimum(maximum(value, low)?, high),
    }
}

/// `select`: `right` if the test holds, else `left`.
pub fn select(left: Integer, right: Integer, test: bool) -> Result<Integer, IntegerError>
    ensures { result ≡ of_pair (selected test) left right }
{
    match pair_of(left, right)? {
        IntegerPair::Abstract(a, b) => Ok(Integer::Abstract(if test { b } else { a })),
        IntegerPair::I32(a, b) => Ok(Integer::I32(if test { b } else { a })),
        IntegerPair::U32(a, b) => Ok(Integer::U32(if test { b } else { a })),
    }
}

/// A function of the bits of an integer (WGSL, "Numeric Built-in Functions").
#[derive(Clone, Copy)]
pub enum BitFunction {
    CountLeadingZeros,
    CountOneBits,
    CountTrailingZeros,
    FirstTrailingBit,
    ReverseBits,
}

impl BitFunction {
    /// The value for an integer, of its type. An AbstractInt is taken as an `i32`.
    pub fn apply(self, integer: Integer) -> Result<Integer, IntegerError>
        ensures { result ≡ of_bits self integer }
    {
        match integer {
            Integer::Abstract(value) => Ok(Integer::I32(self.of_i32(to_i32(value)?))),
            Integer::I32(value) => Ok(Integer::I32(self.of_i32(value))),
            Integer::U32(value) => Ok(Integer::U32(self.of_u32(value))),
        }
    }

    fn of_i32(self, value: i32) -> i32
        ensures { result ≡ of_i32 self value }
    {
        self.of_u32(value.cast_unsigned()).cast_signed()
    }

    fn of_u32(self, value: u32) -> u32
        ensures { result ≡ of_u32 self value }
    {
        match self {
            BitFunction::CountLeadingZeros => value.leading_zeros(),
            BitFunction::CountOneBits => value.count_ones(),
            BitFunction::CountTrailingZeros => value.trailing_zeros(),
            BitFunction::FirstTrailingBit if value == 0 => u32::MAX,
            BitFunction::FirstTrailingBit => value.trailing_zeros(),
            BitFunction::ReverseBits => value.reverse_bits(),
        }
    }
}

/// `firstLeadingBit`: the index of the first bit from the highest down that is 1, or that differs from the sign. If
/// there is none, all bits of the result are 1. An AbstractInt is taken as an `i32`.
pub fn first_leading_bit(integer: Integer) -> Result<Integer, IntegerError>
    ensures { result ≡ leading_bit integer }
{
    match integer {
        Integer::Abstract(value) => Ok(Integer::I32(first_bit_of(to_i32(value)?))),
        Integer::I32(value) => Ok(Integer::I32(first_bit_of(value))),
        Integer::U32(value) => Ok(Integer::U32(first_bit(value))),
    }
}

fn first_bit(value: u32) -> u32
    ensures { result ≡ first_bit value }
{
    if value == 0 {
        u32::MAX
    } else {
        31u32.saturating_sub(value.leading_zeros())
    }
}

fn first_bit_of(value: i32) -> i32
    ensures { result ≡ first_bit_of value }
{
    let bits = if value < 0 { !value } else { value };
    first_bit(bits.cast_unsigned()).cast_signed()
}

/// `extractBits`: the bits from an index on, as many as counted. For an `i32` the highest of them is the sign. An
/// AbstractInt is taken as an `i32`.
pub fn extract_bits(
    integer: Integer,
    offset: Integer,
    count: Integer,
) -> Result<Integer, IntegerError>
    ensures { result ≡ extracted integer offset count }
{
    let (offset, count) = (count_of(offset)?, count_of(count)?);
    if u64::from(offset) + u64::from(count) > 32 {
        return Err(IntegerError::BitsTooFar);
    }
    match integer {
        Integer::Abstract(value) => Ok(Integer::I32(field_i32(to_i32(value)?, offset, count))),
        Integer::I32(value) => Ok(Integer::I32(field_i32(value, offset, count))),
        Integer::U32(value) => Ok(Integer::U32(field(value, offset, count))),
    }
}

/// `insertBits`: the first integer, with the lowest bits of the second one from an index on, as many as counted. Two
/// AbstractInts are taken as `i32`.
pub fn insert_bits(
    integer: Integer,
    bits: Integer,
    offset: Integer,
    count: Integer,
) -> Result<Integer, IntegerError>
    ensures { result ≡ inserted integer bits offset count }
{
    let (offset, count) = (count_of(offset)?, count_of(count)?);
    if u64::from(offset) + u64::from(count) > 32 {
        return Err(IntegerError::BitsTooFar);
    }
    match pair_of(integer, bits)? {
        IntegerPair::Abstract(a, b) => {
            let (a, b) = (to_i32(a)?, to_i32(b)?);
            Ok(Integer::I32(replaced_i32(a, b, offset, count)))
        }
        IntegerPair::I32(a, b) => Ok(Integer::I32(replaced_i32(a, b, offset, count))),
        IntegerPair::U32(a, b) => Ok(Integer::U32(replaced(a, b, offset, count))),
    }
}

fn two_to(exponent: u32) -> u64
    requires { exponent ≤ 32 }
    ensures exact { result ≡ 2 ^ exponent }
    ensures few { result ≤ 2 ^ 32 }
{
    1u64 << exponent
}

/// The bits from an index on, as many as counted.
fn field(value: u32, offset: u32, count: u32) -> u32
    requires { offset + count ≤ 32 }
    ensures exact { result ≡ field offset count value }
    ensures few { result < 2 ^ count }
{
    let bits = (u64::from(value) >> offset) % two_to(count);
    bits as u32
}

fn field_i32(value: i32, offset: u32, count: u32) -> i32
    requires { offset + count ≤ 32 }
    ensures { result ≡ field_i32 offset count value }
{
    signed(field(value.cast_unsigned(), offset, count), count)
}

/// Bits, the highest of which is the sign.
fn signed(bits: u32, count: u32) -> i32
    requires count { count ≤ 32 }
    requires few { bits < 2 ^ count }
    ensures { result ≡ signed count bits }
{
    let (bits, above) = (i64::from(bits), two_to(count).cast_signed());
    let value = if 2 * bits < above { bits } else { bits - above };
    value as i32
}

/// The value with the lowest bits of another from an index on, as many as counted.
fn replaced(value: u32, bits: u32, offset: u32, count: u32) -> u32
    requires { offset + count ≤ 32 }
    ensures { result ≡ replaced offset count value bits }
{
    let old = u64::from(field(value, offset, count)) << offset;
    let new = u64::from(field(bits, 0, count)) << offset;
    (u64::from(value) - old + new) as u32
}

#[tactic(auto, unfolding(crate::specs::Functions::replaced_i32))]
fn replaced_i32(value: i32, bits: i32, offset: u32, count: u32) -> i32
    requires { offset + count ≤ 32 }
    ensures { result ≡ replaced_i32 offset count value bits }
{
    replaced(value.cast_unsigned(), bits.cast_unsigned(), offset, count).cast_signed()
}
