// The overloads of the operators.
use crate::overload::Overload;

/// The overloads of `+` and `-`.
pub const SUMS: &[Overload] = overloads! {
    (either<T>, either<T>) -> either<T> where T: Number;
    (T, vecN<T>) -> vecN<T> where T: Number;
    (vecN<T>, T) -> vecN<T> where T: Number;
    (matNxM<T>, matNxM<T>) -> matNxM<T> where T: Float;
};

/// The overloads of `*` of two operands.
pub const PRODUCTS: &[Overload] = overloads! {
    (either<T>, either<T>) -> either<T> where T: Number;
    (T, vecN<T>) -> vecN<T> where T: Number;
    (vecN<T>, T) -> vecN<T> where T: Number;
    (T, matNxM<T>) -> matNxM<T> where T: Float;
    (matNxM<T>, T) -> matNxM<T> where T: Float;
    (vecM<T>, matNxM<T>) -> vecN<T> where T: Float;
    (matNxM<T>, vecN<T>) -> vecM<T> where T: Float;
    (matKxM<T>, matNxK<T>) -> matNxM<T> where T: Float;
};

/// The overloads of `/` and `%`.
pub const QUOTIENTS: &[Overload] = overloads! {
    (either<T>, either<T>) -> either<T> where T: Number;
    (T, vecN<T>) -> vecN<T> where T: Number;
    (vecN<T>, T) -> vecN<T> where T: Number;
};

/// The overloads of `==` and `!=`.
pub const EQUALITIES: &[Overload] =
    overloads! { (either<T>, either<T>) -> either<bool> where T: AnyScalar; };

/// The overloads of `<`, `<=`, `>` and `>=`.
pub const COMPARISONS: &[Overload] =
    overloads! { (either<T>, either<T>) -> either<bool> where T: Number; };

/// The overloads of `||` and `&&`.
pub const SHORT_CIRCUITS: &[Overload] = overloads! { (bool, bool) -> bool; };

/// The overloads of `|` and `&` of two operands.
pub const BITS: &[Overload] = overloads! {
    (either<T>, either<T>) -> either<T> where T: Integer;
    (either<bool>, either<bool>) -> either<bool>;
};

/// The overloads of `^`.
pub const EXCLUSIVE_BITS: &[Overload] =
    overloads! { (either<T>, either<T>) -> either<T> where T: Integer; };

/// The overloads of `<<` and `>>`.
pub const SHIFTS: &[Overload] =
    overloads! { (either<T>, either<u32>) -> either<T> where T: Integer; };

/// The overloads of `!`.
pub const LOGICAL_NEGATIONS: &[Overload] = overloads! { (either<bool>) -> either<bool>; };

/// The overloads of `-` of one operand.
pub const NEGATIONS: &[Overload] = overloads! { (either<T>) -> either<T> where T: SignedNumber; };

/// The overloads of `~`.
pub const COMPLEMENTS: &[Overload] = overloads! { (either<T>) -> either<T> where T: Integer; };
