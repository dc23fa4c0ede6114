// Refusals, and out of memory.
mod clone;
mod eq;
mod fields;

use crate::error::fields::{Fields, Texts};
use crate::literal::LiteralInstance;
use crate::signature::CallSignature;
use crate::ty::Type;
use std::alloc::{AllocError, AllocFailed};
use std::fmt;
use std::fmt::Write;
use wgsl_syntax::operator::{BinaryOperator, UnaryOperator};

/// Why an expression has no type, or no value (WGSL, "Errors").
#[derive(Debug, Drop)]
#[non_exhaustive]
pub enum Error {
    /// What isn't implemented.
    Todo(String),
    /// A type that should be a scalar.
    NotScalar(Type),
    /// A type that isn't constructible.
    NotConstructible(Type),
    /// A sampled type that is none of `i32`, `u32` and `f32`.
    SampledType(Type),
    /// The name of an unknown type.
    UnknownType(String),
    /// The name of a type that has a template and takes none.
    UnexpectedTemplate(String),
    /// The name of a type that takes a template and has none.
    MissingTemplate(&'static str),
    /// The type written, and the type that the reference refers to.
    WriteRefType(Type, Type),
    /// A write through a reference that can't be written.
    NotWrite,
    /// A read through a reference that can't be read.
    NotRead,
    /// A read and a write through a reference that doesn't allow both.
    NotReadWrite,
    /// A pointer into the handle space.
    PtrHandle,
    /// A pointer to a component of a vector.
    PtrVecComp,
    /// A type, and the type to which it doesn't convert.
    Conversion(Type, Type),
    /// A literal, and a type that it doesn't fit.
    ConvOverflow(LiteralInstance, Type),
    /// A type, and the name of a component that it lacks.
    Component(Type, String),
    /// A type that can't be indexed.
    NotIndexable(Type),
    /// An index, the type that is indexed, and the number of its components.
    OutOfBounds(usize, Type, usize),
    /// An operator, and an operand that it doesn't take.
    Unary(UnaryOperator, Type),
    /// An operator, and two operands that it doesn't take.
    Binary(BinaryOperator, Type, Type),
    /// Two operands that have no component-wise operation.
    CompwiseBinary(Type, Type),
    /// A sum that doesn't fit.
    AddOverflow,
    /// A difference that doesn't fit.
    SubOverflow,
    /// A product that doesn't fit.
    MulOverflow,
    /// A division by zero.
    DivByZero,
    /// A remainder of a division by zero.
    RemZeroDiv,
    /// The number of bits to shift by, and the value shifted.
    ShlOverflow(u32, LiteralInstance),
    /// The number of bits to shift by, and the value shifted.
    ShrOverflow(u32, LiteralInstance),
    /// A call that no overload takes.
    Signature(CallSignature),
    /// What is wrong with a call or a template, in words.
    Builtin(&'static str),
    /// The name of a template that doesn't take its parameters.
    TemplateArgs(&'static str),
    /// The name called, the number of arguments that it takes, and the number given.
    ParamCount(String, usize, usize),
    /// The type expected, and the type of the argument.
    ParamType(Type, Type),
}

/// Why a call has no answer: an error, or out of memory.
#[derive(Debug, Drop)]
pub enum Fail<E = Error> {
    Error(E),
    Memory(AllocError),
}

impl<E> From<AllocError> for Fail<E> {
    ghost use Rattle.std.specs.Prelude.{◌≡◌};
    ghost use Rattle.wgsl_core.specs.declared.error.Fail.TheVariants.{Memory};

    ghost from_gives = { λ e f. f ≡ Memory e };

    fn from(e: AllocError) -> Fail<E> {
        Fail::Memory(e)
    }
}

impl<E, T: Drop> From<AllocFailed<T>> for Fail<E> {
    ghost use Rattle.std.specs.Prelude.{◌≡◌, alloc_error};
    ghost use Rattle.wgsl_core.specs.declared.error.Fail.TheVariants.{Memory};

    ghost from_gives = { λ _ f. f ≡ Memory alloc_error };

    fn from(e: AllocFailed<T>) -> Fail<E> {
        Fail::Memory(AllocError::from(e))
    }
}

impl From<Error> for Fail<Error> {
    ghost use Rattle.std.specs.Prelude.{◌≡◌};
    ghost use Rattle.wgsl_core.specs.declared.error.Fail.TheVariants.{Error};

    ghost from_gives = { λ e f. f ≡ Error e };

    fn from(e: Error) -> Fail<Error> {
        Fail::Error(e)
    }
}

impl fmt::Display for Error {
    ghost use Rattle.std.specs.Prelude.{Some};
    ghost use Rattle.wgsl_rules.specs.errors.Refusals.{message};
    ghost use Rattle.wgsl_core.specs.Answer.{refusal};

    ghost output = { λ e. Some (message (refusal e)) };

    fn fmt<W: Write>(&self, f: &mut fmt::Formatter<W>) -> fmt::Result {
        let Fields(_, x, y, z) = self.fields();
        match self.texts() {
            Texts::Whole(t) => f.write_str(t),
            Texts::One(t, u) => write!(f, "{t}{x}{u}"),
            Texts::Two(t, u, v) => write!(f, "{t}{x}{u}{y}{v}"),
            Texts::Three(t, u, v, w) => write!(f, "{t}{x}{u}{y}{v}{z}{w}"),
        }
    }
}

impl fmt::Display for Fail<Error> {
    ghost use Rattle.std.specs.Prelude.{Some};
    ghost use Rattle.wgsl_core.specs.Answer.{fail_text};

    ghost output = { λ e. Some (fail_text e) };

    fn fmt<W: Write>(&self, f: &mut fmt::Formatter<W>) -> fmt::Result {
        match self {
            Fail::Error(e) => write!(f, "{e}"),
            Fail::Memory(_) => f.write_str("out of memory"),
        }
    }
}
