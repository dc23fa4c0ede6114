// Why a form has no type.
use crate::forms::prelude::*;

/// Why a form has no type. The types aren't built, and names are borrowed.
#[derive(Clone, Copy)]
pub enum Refusal<'a> {
    /// A type, and the name of a component that it lacks.
    Component(UnbuiltType<'a>, &'a str),
    /// A type that can't be indexed.
    NotIndexable(UnbuiltType<'a>),
    /// A type that should be `i32` or `u32`, or a literal of one.
    NotInteger(UnbuiltType<'a>),
    /// What should be a const-expression.
    NotConst,
    /// A read through a reference that can't be read.
    NotRead,
    /// A write through a reference that can't be written.
    NotWrite,
    /// A read and a write through a reference that doesn't allow both.
    NotReadWrite,
    /// A type that isn't constructible.
    NotConstructible(UnbuiltType<'a>),
    /// A type that should be a scalar.
    NotScalar(UnbuiltType<'a>),
    /// The type of what should be a reference.
    NotReference(UnbuiltType<'a>),
    /// An address space, and a type that a variable there can't hold.
    NotInSpace(AddressSpace, UnbuiltType<'a>),
    /// An address space whose variables have no initializer.
    Initialized(AddressSpace),
    /// An address space, and an access mode that its variables can't have.
    AccessMode(AddressSpace, AccessMode),
    /// The type of a condition, which should be `bool`.
    NotCondition(UnbuiltType<'a>),
    /// The type that a function returns, and the type of the value.
    NotReturned(UnbuiltType<'a>, UnbuiltType<'a>),
    /// A type, and the type to which it doesn't convert.
    Conversion(UnbuiltType<'a>, UnbuiltType<'a>),
    /// The type written, and the type that the reference refers to.
    WriteRefType(UnbuiltType<'a>, UnbuiltType<'a>),
    /// An operator, and an operand that it doesn't take.
    Unary(UnaryOperator, UnbuiltType<'a>),
    /// An operator, and two operands that it doesn't take.
    Binary(BinaryOperator, UnbuiltType<'a>, UnbuiltType<'a>),
    /// The name, the number of values that it takes, and the number given.
    ParamCount(&'a str, usize, usize),
    /// The type expected, and the type of the value.
    ParamType(UnbuiltType<'a>, UnbuiltType<'a>),
    /// What is wrong with an array constructor, in words.
    Builtin(&'static str),
    /// A pointer into the handle space.
    PtrHandle,
    /// A pointer to a component of a vector.
    PtrVecComp,
}

impl fmt::Display for Refusal<'_> {
    ghost use Rattle.std.specs.Prelude.{Some};
    ghost use Rattle.wgsl_standard.specs.forms.Refusals.{refusal_text};
    ghost use Rattle.wgsl_standard.specs.forms.Views.{refusal_view};

    ghost output = { λ e. Some (refusal_text (refusal_view e)) };

    fn fmt<W: Write>(&self, f: &mut fmt::Formatter<W>) -> fmt::Result {
        match self {
            Refusal::Component(t, name) => write!(f, "`{t}` has no component `{name}`"),
            Refusal::NotIndexable(t) => write!(f, "`{t}` cannot be indexed"),
            Refusal::NotInteger(t) => write!(f, "expected `i32` or `u32`, got `{t}`"),
            Refusal::NotConst => f.write_str("expected a const-expression"),
            Refusal::NotRead => f.write_str("attempt to read a write-only reference"),
            Refusal::NotWrite => f.write_str("attempt to write to a read-only reference"),
            Refusal::NotReadWrite => f.write_str("reference is not read-write"),
            Refusal::NotConstructible(t) => write!(f, "`{t}` is not constructible"),
            Refusal::NotScalar(t) => write!(f, "expected a scalar type, got `{t}`"),
            Refusal::NotReference(t) => write!(f, "`{t}` is not a reference"),
            Refusal::NotInSpace(space, t) => {
                let space = space.name_by(RuleSet::Standard);
                write!(
                    f,
                    "a variable in the address space `{space}` cannot hold a `{t}`"
                )
            }
            Refusal::Initialized(space) => {
                let space = space.name_by(RuleSet::Standard);
                write!(
                    f,
                    "a variable in the address space `{space}` has no initializer"
                )
            }
            Refusal::AccessMode(space, access) => {
                let space = space.name_by(RuleSet::Standard);
                write!(
                    f,
                    "access mode `{access}` is not valid in the address space `{space}`"
                )
            }
            Refusal::NotCondition(t) => write!(f, "the condition must be `bool`, not `{t}`"),
            Refusal::NotReturned(expected, t) => {
                write!(f, "the returned value must be `{expected}`, not `{t}`")
            }
            Refusal::Conversion(a, b) => write!(f, "cannot convert from `{a}` to `{b}`"),
            Refusal::WriteRefType(n, t) => {
                write!(f, "cannot write a `{n}` to a reference to `{t}`")
            }
            Refusal::Unary(o, t) => write!(f, "cannot use unary operator `{o}` on type `{t}`"),
            Refusal::Binary(o, a, b) => write!(
                f,
                "cannot use binary operator `{o}` with operands `{a}` and `{b}`"
            ),
            Refusal::ParamCount(name, expected, n) => {
                write!(
                    f,
                    "incorrect number of arguments to `{name}`, expected `{expected}`, got `{n}`"
                )
            }
            Refusal::ParamType(expected, t) => write!(
                f,
                "invalid parameter type, expected `{expected}`, got `{t}`"
            ),
            Refusal::Builtin(text) => f.write_str(text),
            Refusal::PtrHandle => f.write_str("cannot create a pointer in `handle` address space"),
            Refusal::PtrVecComp => f.write_str("cannot create a pointer to a vector component"),
        }
    }
}
