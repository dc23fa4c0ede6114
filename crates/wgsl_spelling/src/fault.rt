// Why a text spells no type.
ghost use Rattle.std.specs.Prelude.{◌≡◌};
ghost use Rattle.wgsl_spelling.specs.declared.fault.Stop.TheVariants.{Fault as of_fault};

use std::alloc::{AllocError, AllocFailed};
use wgsl_constants::call::CallError;
use wgsl_constants::integer::IntegerError;

/// What was expected where something else stands.
#[derive(Clone, Copy, Debug, PartialEq, Eq)]
pub enum Expected {
    Type,
    Integer,
    AddressSpace,
    AccessMode,
    TexelFormat,
    SampledType,
    Flag,
}

/// What is wrong.
#[derive(Clone, Copy, Debug, PartialEq, Eq)]
pub enum Cause {
    /// A byte with which no token begins.
    Strange,
    /// A block comment without an end.
    OpenComment,
    /// A template list without an end.
    OpenList,
    /// A token that can't stand there by the grammar.
    Misread,
    Expected(Expected),
    /// A name of no type.
    UnknownType,
    /// A name without the template list that it needs.
    NoList,
    /// A name that has no template list.
    NeedlessList,
    /// A template list with more or fewer parameters than the type takes.
    WrongParameterCount,
    /// More than 255 layers.
    TooDeep,
    NegativeCount,
    /// An expression that isn't evaluated here, or isn't an integer.
    NotInteger,
    /// A name of no function that is evaluated here.
    UnknownFunction,
    /// A function with more or fewer arguments than it takes.
    WrongArgumentCount,
    /// A component that a vector doesn't have, or more than one.
    NoComponent,
    Overflow,
    DivisionByZero,
    /// An `i32` and a `u32`.
    MixedIntegers,
    NegatedUnsigned,
    ShiftTooFar,
    /// A `clamp` whose lower bound is above its upper bound.
    EmptyRange,
    /// An `extractBits` or `insertBits` of bits that an integer doesn't have.
    BitsTooFar,
}

impl From<IntegerError> for Cause {
    fn from(error: IntegerError) -> Cause {
        match error {
            IntegerError::Overflow => Cause::Overflow,
            IntegerError::DivisionByZero => Cause::DivisionByZero,
            IntegerError::MixedTypes => Cause::MixedIntegers,
            IntegerError::NegatedUnsigned => Cause::NegatedUnsigned,
            IntegerError::ShiftTooFar => Cause::ShiftTooFar,
            IntegerError::EmptyRange => Cause::EmptyRange,
            IntegerError::BitsTooFar => Cause::BitsTooFar,
        }
    }
}

impl From<CallError> for Cause {
    fn from(error: CallError) -> Cause {
        match error {
            CallError::Integer(error) => Cause::from(error),
            CallError::NotInteger => Cause::NotInteger,
            CallError::WrongArgumentCount => Cause::WrongArgumentCount,
        }
    }
}

impl Expected {
    /// The message.
    pub fn text(self) -> &'static str {
        match self {
            Expected::Type => "expected a type",
            Expected::Integer => "expected an integer expression",
            Expected::AddressSpace => "expected an address space",
            Expected::AccessMode => "expected an access mode",
            Expected::TexelFormat => "expected a texel format",
            Expected::SampledType => "expected `f32`, `i32` or `u32`",
            Expected::Flag => "expected `vertex_return`",
        }
    }
}

impl Cause {
    /// The message.
    pub fn text(self) -> &'static str {
        match self {
            Cause::Strange => "no token of WGSL begins here",
            Cause::OpenComment => "a comment has no end",
            Cause::OpenList => "this list has no `>`",
            Cause::Misread => "this can't stand here",
            Cause::Expected(expected) => expected.text(),
            Cause::UnknownType => "no type has this name",
            Cause::NoList => "this type needs its template list",
            Cause::NeedlessList => "this type has no template list",
            Cause::WrongParameterCount => "this type takes another number of parameters",
            Cause::TooDeep => "more than 255 levels",
            Cause::NegativeCount => "an array has no negative number of elements",
            Cause::NotInteger => "this has no integer value",
            Cause::UnknownFunction => "no function that is evaluated here has this name",
            Cause::WrongArgumentCount => "this function takes another number of arguments",
            Cause::NoComponent => "this vector has no such component",
            Cause::Overflow => "an integer overflows",
            Cause::DivisionByZero => "a division by 0",
            Cause::MixedIntegers => "an i32 and a u32 do not mix",
            Cause::NegatedUnsigned => "a u32 has no negative",
            Cause::ShiftTooFar => "a shift by 32 bits or more",
            Cause::EmptyRange => "the least value is above the greatest",
            Cause::BitsTooFar => "bits beyond the 32 of an integer",
        }
    }
}

/// What is wrong at an index of the text.
#[derive(Clone, Copy, PartialEq, Eq)]
pub struct Fault {
    pub at: usize,
    pub cause: Cause,
}

/// Why reading stopped.
#[derive(Clone, Copy)]
pub enum Stop {
    Memory(AllocError),
    Fault(Fault),
}

impl From<AllocError> for Stop {
    ghost use Rattle.std.specs.Prelude.{◌≡◌};
    ghost use Rattle.wgsl_spelling.specs.declared.fault.Stop.TheVariants.{Memory};

    ghost from_gives = { λ e s. s ≡ Memory e };

    fn from(e: AllocError) -> Stop {
        Stop::Memory(e)
    }
}

impl<T: Drop> From<AllocFailed<T>> for Stop {
    ghost use Rattle.std.specs.Prelude.{◌≡◌, alloc_error};
    ghost use Rattle.wgsl_spelling.specs.declared.fault.Stop.TheVariants.{Memory};

    ghost from_gives = { λ _ s. s ≡ Memory alloc_error };

    fn from(e: AllocFailed<T>) -> Stop {
        Stop::Memory(AllocError::from(e))
    }
}

/// A `Stop` at an index of the text, for this cause.
pub(crate) fn stop_at(at: usize, cause: Cause) -> Stop
    ensures { result ≡ of_fault (record { at = at; cause = cause }) }
{
    Stop::Fault(Fault { at, cause })
}
