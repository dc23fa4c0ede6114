// The fields of refusals, and the texts around them.
ghost use Rattle.std.specs.Prelude.{◌≡◌, ◌++◌};
ghost use Rattle.wgsl_rules.specs.errors.Refusals.{message};
ghost use Rattle.wgsl_core.specs.Answer.{refusal};
ghost use Rattle.wgsl_core.specs.Fields.{fields_of, fields_view, message_with};

use crate::error::Error;
use crate::error::fields::Field::{Absent, Number, Text};
use crate::error::fields::Texts::{One, Three, Two, Whole};
use crate::literal::LiteralInstance;
use crate::signature::CallSignature;
use crate::ty::Type;
use std::fmt;
use std::fmt::Write;
use wgsl_syntax::operator::{BinaryOperator, UnaryOperator};

/// A field of a refusal, or that there is none.
#[derive(Clone, Copy, PartialEq)]
pub(crate) enum Field<'e> {
    Absent,
    Text(&'e str),
    Type(&'e Type),
    Literal(LiteralInstance),
    Number(usize),
    Unary(UnaryOperator),
    Binary(BinaryOperator),
    Call(&'e CallSignature),
}

/// The fields of a refusal, behind a number that tells it from the others with such fields.
#[derive(Clone, Copy, PartialEq)]
pub(crate) struct Fields<'e>(pub u8, pub Field<'e>, pub Field<'e>, pub Field<'e>);

/// The texts of a refusal, in front of its fields, between them and behind them.
#[derive(Clone, Copy)]
pub(crate) enum Texts {
    Whole(&'static str),
    One(&'static str, &'static str),
    Two(&'static str, &'static str, &'static str),
    Three(&'static str, &'static str, &'static str, &'static str),
}

impl fmt::Display for Field<'_> {
    ghost use Rattle.std.specs.Prelude.{Some};
    ghost use Rattle.wgsl_core.specs.Fields.{field_text, field_view};

    ghost output = { λ x. Some (field_text (field_view x)) };

    fn fmt<W: Write>(&self, f: &mut fmt::Formatter<W>) -> fmt::Result {
        match self {
            Field::Absent => Ok(()),
            Field::Text(s) => f.write_str(s),
            Field::Type(t) => write!(f, "{t}"),
            Field::Literal(l) => write!(f, "{l}"),
            Field::Number(n) => write!(f, "{n}"),
            Field::Unary(o) => write!(f, "{o}"),
            Field::Binary(o) => write!(f, "{o}"),
            Field::Call(c) => write!(f, "{c}"),
        }
    }
}

impl Error {
    pub(crate) fn fields(&self) -> Fields<'_>
        ensures { fields_view result ≡ fields_of (refusal self.now) }
    {
        match self {
            Error::Todo(s) => Fields(0, Text(s.as_str()), Absent, Absent),
            Error::NotScalar(t) => Fields(0, Field::Type(t), Absent, Absent),
            Error::NotConstructible(t) => Fields(1, Field::Type(t), Absent, Absent),
            Error::SampledType(t) => Fields(2, Field::Type(t), Absent, Absent),
            Error::UnknownType(s) => Fields(1, Text(s.as_str()), Absent, Absent),
            Error::UnexpectedTemplate(s) => Fields(2, Text(s.as_str()), Absent, Absent),
            Error::MissingTemplate(s) => Fields(3, Text(*s), Absent, Absent),
            Error::WriteRefType(n, t) => Fields(0, Field::Type(n), Field::Type(t), Absent),
            Error::NotWrite => Fields(0, Absent, Absent, Absent),
            Error::NotRead => Fields(1, Absent, Absent, Absent),
            Error::NotReadWrite => Fields(2, Absent, Absent, Absent),
            Error::PtrHandle => Fields(3, Absent, Absent, Absent),
            Error::PtrVecComp => Fields(4, Absent, Absent, Absent),
            Error::Conversion(a, b) => Fields(1, Field::Type(a), Field::Type(b), Absent),
            Error::ConvOverflow(l, t) => Fields(0, Field::Literal(*l), Field::Type(t), Absent),
            Error::Component(t, s) => Fields(0, Field::Type(t), Text(s.as_str()), Absent),
            Error::NotIndexable(t) => Fields(3, Field::Type(t), Absent, Absent),
            Error::OutOfBounds(i, t, n) => Fields(0, Number(*i), Field::Type(t), Number(*n)),
            Error::Unary(o, t) => Fields(0, Field::Unary(*o), Field::Type(t), Absent),
            Error::Binary(o, a, b) => Fields(0, Field::Binary(*o), Field::Type(a), Field::Type(b)),
            Error::CompwiseBinary(a, b) => Fields(2, Field::Type(a), Field::Type(b), Absent),
            Error::AddOverflow => Fields(5, Absent, Absent, Absent),
            Error::SubOverflow => Fields(6, Absent, Absent, Absent),
            Error::MulOverflow => Fields(7, Absent, Absent, Absent),
            Error::DivByZero => Fields(8, Absent, Absent, Absent),
            Error::RemZeroDiv => Fields(9, Absent, Absent, Absent),
            Error::ShlOverflow(n, l) => Fields(0, Number(*n as usize), Field::Literal(*l), Absent),
            Error::ShrOverflow(n, l) => Fields(1, Number(*n as usize), Field::Literal(*l), Absent),
            Error::Signature(c) => Fields(0, Field::Call(c), Absent, Absent),
            Error::Builtin(s) => Fields(4, Text(*s), Absent, Absent),
            Error::TemplateArgs(s) => Fields(5, Text(*s), Absent, Absent),
            Error::ParamCount(s, e, n) => Fields(0, Text(s.as_str()), Number(*e), Number(*n)),
            Error::ParamType(e, t) => Fields(3, Field::Type(e), Field::Type(t), Absent),
        }
    }

    pub(crate) fn texts(&self) -> Texts
        ensures { message_with result (fields_of (refusal self.now)) ≡ message (refusal self.now) }
    {
        match self {
            Error::Todo(_) => One("not implemented: `", "`"),
            Error::NotScalar(_) => One("expected a scalar type, got `", "`"),
            Error::NotConstructible(_) => One("`", "` is not constructible"),
            Error::SampledType(_) => One(
                "invalid sampled type, expected `i32`, `u32` or `f32`, got `",
                "`",
            ),
            Error::UnknownType(_) => One("unknown type `", "`"),
            Error::UnexpectedTemplate(_) => One("type `", "` does not take any template arguments"),
            Error::MissingTemplate(_) => One("missing template arguments for type `", "`"),
            Error::WriteRefType(_, _) => Two("cannot write a `", "` to a reference to `", "`"),
            Error::NotWrite => Whole("attempt to write to a read-only reference"),
            Error::NotRead => Whole("attempt to read a write-only reference"),
            Error::NotReadWrite => Whole("reference is not read-write"),
            Error::PtrHandle => Whole("cannot create a pointer in `handle` address space"),
            Error::PtrVecComp => Whole("cannot create a pointer to a vector component"),
            Error::Conversion(_, _) => Two("cannot convert from `", "` to `", "`"),
            Error::ConvOverflow(_, _) => Two("overflow while converting `", "` to `", "`"),
            Error::Component(_, _) => Two("`", "` has no component `", "`"),
            Error::NotIndexable(_) => One("`", "` cannot be indexed"),
            Error::OutOfBounds(_, _, _) => Three(
                "index `",
                "` is out-of-bounds for `",
                "` of `",
                "` components",
            ),
            Error::Unary(_, _) => Two("cannot use unary operator `", "` on type `", "`"),
            Error::Binary(_, _, _) => Three(
                "cannot use binary operator `",
                "` with operands `",
                "` and `",
                "`",
            ),
            Error::CompwiseBinary(_, _) => Two(
                "cannot apply component-wise binary operation on operands `",
                "` and `",
                "`",
            ),
            Error::AddOverflow => Whole("attempt to add with overflow"),
            Error::SubOverflow => Whole("attempt to subtract with overflow"),
            Error::MulOverflow => Whole("attempt to multiply with overflow"),
            Error::DivByZero => Whole("attempt to divide by zero"),
            Error::RemZeroDiv => Whole("attempt to calculate the remainder with a divisor of zero"),
            Error::ShlOverflow(_, _) => Two(
                "attempt to shift left by `",
                "`, which would overflow `",
                "`",
            ),
            Error::ShrOverflow(_, _) => Two(
                "attempt to shift right by `",
                "`, which would overflow `",
                "`",
            ),
            Error::Signature(_) => One("invalid function call signature: `", "`"),
            Error::Builtin(_) => One("", ""),
            Error::TemplateArgs(_) => One("invalid template arguments to `", "`"),
            Error::ParamCount(_, _, _) => Three(
                "incorrect number of arguments to `",
                "`, expected `",
                "`, got `",
                "`",
            ),
            Error::ParamType(_, _) => Two("invalid parameter type, expected `", "`, got `", "`"),
        }
    }
}
