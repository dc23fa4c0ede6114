// Integers that are known at compile time.
ghost use Rattle.std.specs.Prelude.{◌≡◌};
ghost use Rattle.wgsl_constants.specs.Conversions.{number};

/// An integer with its type (WGSL, "Integer Types").
#[derive(Clone, Copy)]
pub enum Integer {
    /// An AbstractInt.
    Abstract(i64),
    I32(i32),
    U32(u32),
}

/// Two integers of one type.
#[derive(Clone, Copy)]
pub enum IntegerPair {
    Abstract(i64, i64),
    I32(i32, i32),
    U32(u32, u32),
}

/// A binary operator on two integers of one type (WGSL, "Arithmetic Expressions", "Bit Expressions").
#[derive(Clone, Copy)]
pub enum IntegerOperator {
    Addition,
    Subtraction,
    Multiplication,
    Division,
    Remainder,
    BitwiseOr,
    BitwiseAnd,
    BitwiseXor,
}

/// Why an expression on integers has no value.
#[derive(Clone, Copy)]
pub enum IntegerError {
    /// The type can't hold the value.
    Overflow,
    DivisionByZero,
    /// An `i32` and a `u32`.
    MixedTypes,
    /// The negative of a `u32`.
    NegatedUnsigned,
    /// A shift by 32 bits or more.
    ShiftTooFar,
    /// A `clamp` whose lower bound is above its upper bound.
    EmptyRange,
    /// An `extractBits` or `insertBits` of bits that a 32-bit integer doesn't have.
    BitsTooFar,
}

impl Integer {
    /// The number, without its type.
    pub fn value(self) -> i64
        ensures { result ≡ number self }
    {
        match self {
            Integer::Abstract(value) => value,
            Integer::I32(value) => i64::from(value),
            Integer::U32(value) => i64::from(value),
        }
    }
}
