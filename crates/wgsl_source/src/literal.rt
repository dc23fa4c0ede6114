// Numbers, as they are written.
ghost use Rattle.std.specs.Prelude.{◌≡◌, IfOk, IfSome, Some};
ghost use Rattle.std.specs.Float.Ieee.{binary32, binary64};
ghost use Rattle.wgsl_source.specs.Values.{IsNumber, whole_of, whole_part};

use crate::fault::Cause;
use std::num::{saturating_f32_to_i64, saturating_f64_to_i64};
use std::str::from_utf8;
use wgsl_constants::constant::Constant;
use wgsl_constants::literal::{LiteralError, integer_of};

/// What a number stands for. One of half precision needs `enable f16;`.
pub fn value_of_literal(word: &str, has_half: bool) -> Result<Constant, Cause>
    ensures { IfOk result (IsNumber word.now) }
{
    match integer_of(word.as_bytes()) {
        Ok(integer) => Ok(Constant::Integer(integer)),
        Err(LiteralError::Overflow) => Err(Cause::Overflow),
        Err(LiteralError::NotInteger) if word.ends_with("h") && !has_half => Err(Cause::NoHalf),
        Err(LiteralError::NotInteger) => match whole_part(word.as_bytes()) {
            Some(whole) => Ok(Constant::Float(whole)),
            None => Err(Cause::NotInteger),
        },
    }
}

/// The whole part of the nearest float to a decimal literal, as the nearest `i64`; None of any other literal.
fn whole_part(literal: &[u8]) -> Option<i64>
    ensures { IfSome result (λ whole. whole_part literal.now ≡ Some whole) }
{
    match literal {
        [digits @ .., b'f'] => whole_of_single(digits),
        [digits @ .., b'h'] => whole_of_double(digits),
        digits => whole_of_double(digits),
    }
}

fn whole_of_single(digits: &[u8]) -> Option<i64>
    ensures { IfSome result (λ whole. whole_of binary32 digits.now ≡ Some whole) }
{
    let float = from_utf8(digits).ok()?.parse::<f32>().ok()?;
    Some(saturating_f32_to_i64(float))
}

fn whole_of_double(digits: &[u8]) -> Option<i64>
    ensures { IfSome result (λ whole. whole_of binary64 digits.now ≡ Some whole) }
{
    let float = from_utf8(digits).ok()?.parse::<f64>().ok()?;
    Some(saturating_f64_to_i64(float))
}
