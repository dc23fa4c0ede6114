// Why a text was not read.

use std::alloc::{AllocError, AllocFailed};
use wgsl_constants::call::CallError;
use wgsl_constants::integer::IntegerError;

/// What was expected where something else stands.
#[derive(Clone, Copy, Debug, PartialEq, Eq)]
pub enum Expected {
    Type,
    AddressSpace,
    AccessMode,
    TexelFormat,
    SampledType,
    Flag,
    Severity,
}

/// What a name should stand for.
#[derive(Clone, Copy, Debug, PartialEq, Eq)]
pub enum Named {
    Type,
    Value,
    Function,
}

/// What names an extension.
#[derive(Clone, Copy, Debug, PartialEq, Eq)]
pub enum ExtensionKind {
    /// `enable`
    Enabled,
    /// `requires`
    Required,
}

/// What is wrong.
#[derive(Clone, Copy, Debug, PartialEq, Eq)]
pub enum Cause {
    /// A declaration that can't be read by the grammar: the index of what the grammar says of it.
    Misread(usize),
    /// A character with which no token begins.
    Strange,
    OpenComment,
    Expected(Expected),
    UnknownName(Named),
    DeclaredTwice,
    MemberTwice,
    AttributeTwice,
    UnknownAttribute,
    /// An attribute that this kind of declaration can't have.
    MisplacedAttribute,
    UnknownExtension(ExtensionKind),
    UnknownBuiltInValue,
    /// A directive after a declaration.
    LateDirective,
    /// A predeclared name that the module declares too, and so hides.
    Shadowed,
    /// A declaration that needs itself.
    ContainsItself,
    TooDeep,
    NotUtf8,
    ByteOrderMark,
    /// An expression that has no known integer value.
    NotInteger,
    /// A value that is known only when the pipeline is created.
    KnownLater,
    Overflow,
    DivisionByZero,
    /// An `i32` and a `u32`.
    MixedIntegers,
    NegatedUnsigned,
    ShiftTooFar,
    /// A `clamp` whose lower bound is above its upper bound.
    EmptyRange,
    /// An `extractBits` or `insertBits` of bits that an integer doesn't have.
    BitsTooFar,
    /// A component or an element that a vector doesn't have.
    NoSuchComponent,
    /// A function with more or fewer arguments than it takes.
    WrongArgumentCount,
    /// An attribute with more or fewer arguments than it takes.
    AttributeArguments,
    /// An array without elements.
    NoElements,
    /// A type of half precision without `enable f16;`.
    NoHalf,
    /// A vector or a matrix without a template list.
    NoComponent,
    /// Another type without the template list that it needs.
    NoList,
    /// A name that has no template list.
    NeedlessList,
    /// A template list with more or fewer parameters than it has.
    WrongParameterCount,
    VectorComponent,
    MatrixComponent,
    AtomicContent,
    /// An element or a member of a type that has no fixed footprint.
    RuntimeSized,
    /// An element or a member of a type that is not plain.
    NotPlain,
    TooLarge,
    NoMembers,
    /// An attribute `align` that is no power of two.
    AlignNotPower,
    /// An attribute `size` below the size of the member's type.
    SizeTooSmall,
    NegativeAttribute,
    /// A workgroup without invocations.
    EmptyWorkgroup,
    /// A declaration with neither a type nor a value.
    NoType,
    /// An initializer of a variable that can't have one.
    NoInitializer,
    /// An override of another type than a scalar.
    NotScalar,
    /// An access mode that a variable can't have.
    NoAccess,
    /// An attribute `size` of a runtime-sized array.
    SizedRuntimeArray,
    /// A type or an address space that naga has and WGSL doesn't.
    NagaOnly,
}

impl From<CallError> for Cause {
    fn from(error: CallError) -> Cause {
        match error {
            CallError::Integer(error) => Cause::from(error),
            CallError::NotInteger => Cause::NotInteger,
            CallError::WrongArgumentCount => Cause::WrongArgumentCount,
        }
    }
}

impl From<IntegerError> for Cause {
    fn from(error: IntegerError) -> Cause {
        match error {
            IntegerError::Overflow => Cause::Overflow,
            IntegerError::DivisionByZero => Cause::DivisionByZero,
            IntegerError::MixedTypes => Cause::MixedIntegers,
            IntegerError::NegatedUnsigned => Cause::NegatedUnsigned,
            IntegerError::ShiftTooFar => Cause::ShiftTooFar,
            IntegerError::EmptyRange => Cause::EmptyRange,
            IntegerError::BitsTooFar => Cause::BitsTooFar,
        }
    }
}

impl Expected {
    /// The message.
    pub fn text(self) -> &'static str {
        match self {
            Expected::Type => "expected a type",
            Expected::AddressSpace => "expected an address space",
            Expected::AccessMode => "expected an access mode",
            Expected::TexelFormat => "expected a texel format",
            Expected::SampledType => "expected `f32`, `i32` or `u32`",
            Expected::Flag => "expected `vertex_return`",
            Expected::Severity => "expected `error`, `warning`, `info` or `off`",
        }
    }
}

impl Cause {
    /// Whether the expression that can't be read may have a value other than an integer.
    pub fn is_of_other_value(self) -> bool {
        matches!(self, Cause::NotInteger)
    }

    /// The message.
    pub fn text(self) -> &'static str {
        match self {
            Cause::Misread(_) => "expected something else",
            Cause::Strange => "no token of WGSL begins here",
            Cause::OpenComment => "a comment has no end",
            Cause::Expected(expected) => expected.text(),
            Cause::UnknownName(_) => "no declaration has this name",
            Cause::DeclaredTwice => "another declaration has this name",
            Cause::MemberTwice => "another member has this name",
            Cause::AttributeTwice => "this attribute is there already",
            Cause::UnknownAttribute => "WGSL has no such attribute",
            Cause::MisplacedAttribute => "this attribute has no place here",
            Cause::UnknownExtension(_) => "no extension has this name",
            Cause::UnknownBuiltInValue => "WGSL has no such built-in value",
            Cause::LateDirective => "a directive stands in front of all declarations",
            Cause::Shadowed => "this name stands for a declaration of the module",
            Cause::ContainsItself => "this declaration contains itself",
            Cause::TooDeep => "more than 255 levels",
            Cause::ByteOrderMark => "a byte order mark, which WGSL does not have",
            Cause::NotUtf8 => "the text is not UTF-8 from here on",
            Cause::NotInteger => "this has no integer value",
            Cause::KnownLater => "an override has a value only when the pipeline is made",
            Cause::Overflow => "an integer overflows",
            Cause::DivisionByZero => "a division by 0",
            Cause::MixedIntegers => "an i32 and a u32 do not mix",
            Cause::NegatedUnsigned => "a u32 has no negative",
            Cause::ShiftTooFar => "a shift by 32 bits or more",
            Cause::EmptyRange => "the least value is above the greatest",
            Cause::BitsTooFar => "bits beyond the 32 of an integer",
            Cause::NoSuchComponent => "this has no such component",
            Cause::AttributeArguments => "this attribute takes another number of arguments",
            Cause::WrongArgumentCount => "this function takes another number of arguments",
            Cause::NoElements => "an array has at least one element",
            Cause::NoHalf => "this type needs `enable f16;`",
            Cause::NoComponent => "this type needs its component",
            Cause::NoList => "this type needs its template list",
            Cause::NeedlessList => "this has no template list",
            Cause::WrongParameterCount => "this takes another number of parameters",
            Cause::VectorComponent => "a vector's component is a scalar",
            Cause::MatrixComponent => "a matrix's component is f32 or f16",
            Cause::AtomicContent => "an atomic holds i32 or u32",
            Cause::RuntimeSized => {
                "a runtime-sized array may only be the last member of a struct, or a whole variable"
            }
            Cause::NotPlain => {
                "an element or a member is a scalar, vector, matrix, atomic, array or struct"
            }
            Cause::TooLarge => "more than 4294967295 bytes",
            Cause::NoMembers => "a struct has at least one member",
            Cause::AlignNotPower => "`@align` is not a power of two",
            Cause::SizeTooSmall => "`@size` is below the size of the type",
            Cause::NegativeAttribute => "an attribute is 0 to 4294967295",
            Cause::EmptyWorkgroup => "a workgroup has at least one invocation",
            Cause::NoType => "neither a type nor a value is there",
            Cause::NoInitializer => "only a variable of `private` has a value here",
            Cause::NotScalar => "an override is a scalar",
            Cause::NoAccess => "only `storage` has an access mode, `read` or `read_write`",
            Cause::SizedRuntimeArray => "a runtime-sized array has no `@size`",
            Cause::NagaOnly => "naga alone has this, and WGSL does not",
        }
    }
}

/// What is wrong at an index of the text.
#[derive(Clone, Copy, PartialEq, Eq)]
pub struct Fault {
    pub at: usize,
    pub cause: Cause,
}

/// Why reading stopped.
#[derive(Clone, Copy)]
pub enum Stop {
    Memory(AllocError),
    Fault(Fault),
    /// A declaration that is used at this index of the text has a fault, which is reported there.
    Elsewhere(usize),
}

impl Stop {
    /// A `Stop` at an index of the text, for this cause.
    pub fn at(at: usize, cause: Cause) -> Stop {
        Stop::Fault(Fault { at, cause })
    }
}

impl From<AllocError> for Stop {
    ghost use Rattle.std.specs.Prelude.{◌≡◌};
    ghost use Rattle.wgsl_source.specs.declared.fault.Stop.TheVariants.{Memory};

    ghost from_gives = { λ e s. s ≡ Memory e };

    fn from(e: AllocError) -> Stop {
        Stop::Memory(e)
    }
}

impl<T: Drop> From<AllocFailed<T>> for Stop {
    ghost use Rattle.std.specs.Prelude.{◌≡◌, alloc_error};
    ghost use Rattle.wgsl_source.specs.declared.fault.Stop.TheVariants.{Memory};

    ghost from_gives = { λ _ s. s ≡ Memory alloc_error };

    fn from(e: AllocFailed<T>) -> Stop {
        Stop::Memory(AllocError::from(e))
    }
}
