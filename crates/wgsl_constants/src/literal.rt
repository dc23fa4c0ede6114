// Literals of integers, and the types of all numbers (WGSL, "Numeric Literals").
ghost use Rattle.std.specs.Prelude.{◌≡◌, ◌<◌};
ghost use Rattle.std.specs.Char.{digit_value as value_of_digit};
ghost use Rattle.std.specs.List.{list_any};
ghost use Rattle.wgsl_constants.specs.Literals.{abstract_type, appended, as_abstract, as_i32, as_u32, ends_with, found, has_digits_alone, integer_of, is_binary_exponent, is_float_sign, is_hexadecimal, is_wrong, number, suffixed, type_by_suffix, type_of_number};

use crate::integer::Integer;
use wgsl_syntax::scalar::Scalar;

/// Why a literal is no integer.
#[derive(Clone, Copy)]
pub enum LiteralError {
    /// A float, or no literal.
    NotInteger,
    /// The type can't hold the value.
    Overflow,
}

/// The integer that a literal stands for.
pub fn integer_of(literal: &[u8]) -> Result<Integer, LiteralError>
    ensures { found result ≡ integer_of literal.now }
{
    match literal {
        [b'0', b'x' | b'X', rest @ ..] => suffixed(16, rest),
        _ => suffixed(10, literal),
    }
}

/// The integer that digits stand for with a suffix, or without one.
fn suffixed(base: u64, digits: &[u8]) -> Result<Integer, LiteralError>
    ensures { found result ≡ suffixed base digits.now }
{
    match digits {
        [rest @ .., b'i'] => as_i32(number(base, rest)?),
        [rest @ .., b'u'] => as_u32(number(base, rest)?),
        _ => as_abstract(number(base, digits)?),
    }
}

fn as_abstract(value: u64) -> Result<Integer, LiteralError>
    ensures { found result ≡ as_abstract value }
{
    if value < 0x8000_0000_0000_0000 {
        Ok(Integer::Abstract(value as i64))
    } else {
        Err(LiteralError::Overflow)
    }
}

fn as_i32(value: u64) -> Result<Integer, LiteralError>
    ensures { found result ≡ as_i32 value }
{
    if value < 0x8000_0000 {
        Ok(Integer::I32(value as i32))
    } else {
        Err(LiteralError::Overflow)
    }
}

fn as_u32(value: u64) -> Result<Integer, LiteralError>
    ensures { found result ≡ as_u32 value }
{
    if value < 0x1_0000_0000 {
        Ok(Integer::U32(value as u32))
    } else {
        Err(LiteralError::Overflow)
    }
}

/// The number that digits stand for, if it has at most 64 bits.
fn number(base: u64, digits: &[u8]) -> Result<u64, LiteralError>
    ensures exact { found result ≡ number base digits.now }
{
    if is_wrong(base, digits) {
        return Err(LiteralError::NotInteger);
    }
    let mut value = Some(0);
    for digit in digits {
        if digit_value(*digit) >= base {
            return Err(LiteralError::NotInteger);
        }
        value = appended(value, base, digit_value(*digit));
    }
    value.ok_or(LiteralError::Overflow)
}

/// Whether no digits are there, or a zero is in front of others in a decimal literal.
fn is_wrong(base: u64, digits: &[u8]) -> bool
    ensures { result ≡ is_wrong base digits.now }
{
    match digits {
        [] => true,
        [first, _, ..] => base == 10 && *first == b'0',
        _ => false,
    }
}

/// The number with one digit more, if it has at most 64 bits.
fn appended(value: Option<u64>, base: u64, digit: u64) -> Option<u64>
    ensures { result ≡ appended value base digit }
{
    value?.checked_mul(base)?.checked_add(digit)
}

/// The value of a digit or a letter; 36 of any other byte.
fn digit_value(byte: u8) -> u64
    ensures { result ≡ value_of_digit byte }
{
    let value = match byte {
        b'0'..=b'9' => byte - b'0',
        b'a'..=b'z' => byte - b'a' + 10,
        b'A'..=b'Z' => byte - b'A' + 10,
        _ => 36,
    };
    u64::from(value)
}

/// The type of a literal that is a number.
pub fn type_of_number(number: &[u8]) -> Scalar
    ensures { result ≡ type_of_number number.now }
{
    if ends_with(b'u', number) {
        Scalar::U32
    } else if ends_with(b'i', number) {
        Scalar::I32
    } else if has_digits_alone(number) {
        abstract_type(number.contains(&b'.'))
    } else {
        type_by_suffix(number)
    }
}

fn type_by_suffix(number: &[u8]) -> Scalar
    ensures { result ≡ type_by_suffix number.now }
{
    if ends_with(b'f', number) {
        Scalar::F32
    } else if ends_with(b'h', number) {
        Scalar::F16
    } else {
        abstract_type(has_float_sign(number))
    }
}

fn abstract_type(is_float: bool) -> Scalar
    ensures { result ≡ abstract_type is_float }
{
    if is_float {
        Scalar::AbstractFloat
    } else {
        Scalar::AbstractInt
    }
}

/// Whether the number is hexadecimal and has no exponent, so that it ends in a digit.
fn has_digits_alone(number: &[u8]) -> bool
    ensures { result ≡ has_digits_alone number.now }
{
    is_hexadecimal(number) && !has_binary_exponent(number)
}

fn is_hexadecimal(number: &[u8]) -> bool
    ensures { result ≡ is_hexadecimal number.now }
{
    matches!(number, [b'0', b'x' | b'X', ..])
}

fn has_binary_exponent(number: &[u8]) -> bool
    ensures { result ≡ list_any is_binary_exponent number.now }
{
    number.iter().any(|byte| *byte == b'p' || *byte == b'P')
}

fn has_float_sign(number: &[u8]) -> bool
    ensures { result ≡ list_any is_float_sign number.now }
{
    number.iter().any(|byte| is_float_sign(*byte))
}

fn is_float_sign(byte: u8) -> bool
    ensures { result ≡ is_float_sign byte }
{
    matches!(byte, b'.' | b'e' | b'E' | b'p' | b'P')
}

fn ends_with(last: u8, number: &[u8]) -> bool
    ensures { result ≡ ends_with last number.now }
{
    match number {
        [.., byte] => *byte == last,
        [] => false,
    }
}
