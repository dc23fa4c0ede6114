// Literals.
ghost use Rattle.std.specs.Prelude.{◌≡◌, ◌↔◌, IsTrue};
ghost use Rattle.wgsl_rules.specs.types.Types.{scalar};
ghost use Rattle.wgsl_rules.specs.types.Literals.{literal_scalar};
ghost use Rattle.wgsl_rules.specs.conversion.Conversion.{ConvertsTo};
ghost use Rattle.wgsl_core.specs.View.{view};
ghost use Rattle.wgsl_core.specs.Instances.{instance_view, literal_view};

use crate::ty::Type;
use std::fmt;
use std::fmt::Write;

/// A value: a literal.
#[derive(Clone, Copy, PartialEq, Debug)]
pub enum Instance {
    /// A literal.
    Literal(LiteralInstance),
}

/// A literal (WGSL, "Literals"), with naga's 64-bit integers.
#[derive(Clone, Copy, PartialEq, Debug)]
pub enum LiteralInstance {
    /// `true` or `false`
    Bool(bool),
    /// `3`
    AbstractInt(i64),
    /// `3i`
    I32(i32),
    /// `3u`
    U32(u32),
    /// `3li`
    I64(i64),
    /// `3lu`
    U64(u64),
}

impl LiteralInstance {
    /// The scalar type of the literal.
    pub fn scalar_type(&self) -> Type
        ensures { view result ≡ scalar (literal_scalar (literal_view self.now)) }
    {
        match self {
            LiteralInstance::Bool(_) => Type::Bool,
            LiteralInstance::AbstractInt(_) => Type::AbstractInt,
            LiteralInstance::I32(_) => Type::I32,
            LiteralInstance::U32(_) => Type::U32,
            LiteralInstance::I64(_) => Type::I64,
            LiteralInstance::U64(_) => Type::U64,
        }
    }
}

impl Instance {
    /// Whether the type of the value converts to `ty`.
    pub fn is_convertible_to(&self, ty: &Type) -> bool
        ensures { IsTrue result
            ↔ ConvertsTo (scalar (literal_scalar (instance_view self.now))) (view ty.now) }
    {
        match self {
            Instance::Literal(literal) => literal.scalar_type().is_convertible_to(ty),
        }
    }
}

impl fmt::Display for Instance {
    ghost use Rattle.std.specs.Prelude.{Some};
    ghost use Rattle.wgsl_rules.specs.types.Literals.{literal_text};
    ghost use Rattle.wgsl_core.specs.Instances.{instance_view};

    ghost output = { λ x. Some (literal_text (instance_view x)) };

    fn fmt<W: Write>(&self, f: &mut fmt::Formatter<W>) -> fmt::Result {
        match self {
            Instance::Literal(literal) => write!(f, "{literal}"),
        }
    }
}

impl fmt::Display for LiteralInstance {
    ghost use Rattle.std.specs.Prelude.{Some};
    ghost use Rattle.wgsl_rules.specs.types.Literals.{literal_text};
    ghost use Rattle.wgsl_core.specs.Instances.{literal_view};

    ghost output = { λ x. Some (literal_text (literal_view x)) };

    fn fmt<W: Write>(&self, f: &mut fmt::Formatter<W>) -> fmt::Result {
        match self {
            LiteralInstance::Bool(true) => f.write_str("true"),
            LiteralInstance::Bool(false) => f.write_str("false"),
            LiteralInstance::AbstractInt(n) => write!(f, "{n}"),
            LiteralInstance::I32(n) => write!(f, "{n}i"),
            LiteralInstance::U32(n) => write!(f, "{n}u"),
            LiteralInstance::I64(n) => write!(f, "{n}li"),
            LiteralInstance::U64(n) => write!(f, "{n}lu"),
        }
    }
}
