// Operands.
ghost use Rattle.std.specs.Prelude.{◌≡◌};
ghost use Rattle.wgsl_rules.specs.standard.Choice.{value_of};
ghost use Rattle.wgsl_core.specs.View.{view};
ghost use Rattle.wgsl_standard.specs.Operands.{given_type};
ghost use Rattle.wgsl_standard.specs.internal.Parts.{parts_of as parts_there};

use std::fmt;
use std::fmt::Write;
use wgsl_core::ty::Type;
use wgsl_core::ty::form::Form;
use wgsl_core::ty::show::write_type;
use wgsl_syntax::address::AccessMode;
use wgsl_syntax::overload::Dimensions;
use wgsl_syntax::rules::RuleSet;
use wgsl_syntax::scalar::Scalar;

/// An operand of an operator, or an argument of a function.
#[derive(Clone, Copy)]
pub struct Operand<'a> {
    /// A reference that can be read counts as the type that it loads as.
    pub ty: OperandType<'a>,
    /// Whether it is a const-expression.
    pub is_constant: bool,
}

/// The type of an operand.
#[derive(Clone, Copy)]
pub enum OperandType<'a> {
    /// A scalar, or a vector or a matrix of scalars, which isn't built.
    Value(Dimensions, Scalar),
    /// A type of any form.
    Any(&'a Type),
}

impl<'a> Operand<'a> {
    /// An operand of this type.
    #[inline(always)]
    pub fn of(ty: &'a Type, is_constant: bool) -> Operand<'a>
        ensures ty { given_type result.ty ≡ view ty.now }
        ensures is_constant { result.is_constant ≡ is_constant }
    {
        Operand {
            ty: OperandType::of(ty),
            is_constant,
        }
    }
}

impl<'a> OperandType<'a> {
    /// This type as the type of an operand.
    #[inline(always)]
    #[tactic(auto, using(crate::proofs::Parts::parts_given))]
    pub fn of(ty: &'a Type) -> OperandType<'a>
        ensures { given_type result ≡ view ty.now }
    {
        match parts_of(ty) {
            Some((dimensions, scalar)) => OperandType::Value(dimensions, scalar),
            None => OperandType::Any(ty),
        }
    }

    /// The type as it is loaded: a reference that can be read is the type that it refers to.
    pub fn loaded(self) -> OperandType<'a>
        ensures { given_type result ≡ value_of (given_type self.entry) }
    {
        match self {
            OperandType::Any(ty) => OperandType::Any(loaded(ty)),
            OperandType::Value(_, _) => self,
        }
    }
}

impl fmt::Display for OperandType<'_> {
    ghost use Rattle.std.specs.Prelude.{Some};
    ghost use Rattle.wgsl_rules.specs.types.Spelling.{wgsl_spelling};
    ghost use Rattle.wgsl_standard.specs.Operands.{given_type};

    ghost output = { λ t. Some (wgsl_spelling (given_type t)) };

    fn fmt<W: Write>(&self, f: &mut fmt::Formatter<W>) -> fmt::Result {
        match self {
            OperandType::Any(ty) => write_type(f, RuleSet::Standard, ty),
            OperandType::Value(Dimensions::Single, scalar) => write!(f, "{scalar}"),
            OperandType::Value(Dimensions::Vector(n), scalar) => write!(f, "vec{n}<{scalar}>"),
            OperandType::Value(Dimensions::Matrix(c, r), scalar) => {
                write!(f, "mat{c}x{r}<{scalar}>")
            }
        }
    }
}

/// The dimensions and the components of a scalar, or of a vector or a matrix of scalars.
#[inline(always)]
pub(crate) fn parts_of(ty: &Type) -> Option<(Dimensions, Scalar)>
    ensures { result ≡ parts_there (view ty.now) }
{
    match ty.form() {
        Form::Scalar(scalar) => Some((Dimensions::Single, scalar)),
        Form::Vector(n, element) => Some((Dimensions::Vector(n), element.scalar()?)),
        Form::Matrix(c, r, element) => Some((Dimensions::Matrix(c, r), element.scalar()?)),
        _ => None,
    }
}

/// The type of an operand, once it is loaded.
pub fn loaded(ty: &Type) -> &Type
    ensures { view result.now ≡ value_of (view ty.now) }
{
    match ty.form() {
        Form::Reference(_, inner, AccessMode::Read) => inner,
        Form::Reference(_, inner, AccessMode::ReadWrite) => inner,
        _ => ty,
    }
}
