// Abstract types, and the concrete type for each.
ghost use Rattle.std.specs.Prelude.{◌≡◌, IfOk};
ghost use Rattle.std.specs.Fmt.{WritesOnOk};
ghost use Rattle.wgsl_standard.specs.forms.Prelude.{wgsl_spelling, mat, scalar as scalar_type, type_with, view, struct_view, given_type};
ghost use Rattle.wgsl_core.specs.ResultStruct.{struct_type};
ghost use Rattle.wgsl_standard.specs.forms.Concrete.{abstract_result as abstract_there, has_abstract_type as abstract_type, concrete_of};
ghost use Rattle.wgsl_standard.specs.forms.Views.{element_view};
ghost use Rattle.wgsl_standard.specs.forms.internal.Results.{abstract_name, in_f32};

use crate::forms::prelude::*;
use wgsl_core::ty::result_type::result_struct;
use wgsl_syntax::result_struct::{ResultFunction, ResultPrecision, ResultShape, ResultStruct};

/// The function and the shape of the result struct of an abstract float.
#[tactic(auto, using(crate::proofs::AbstractResults::recognised))]
fn abstract_result(s: &StructType) -> Option<(ResultFunction, ResultShape)>
    ensures { result ≡ abstract_there (struct_type (struct_view s.now)) }
{
    match s.result_struct() {
        Some(found) => abstract_name(found),
        None => None,
    }
}

/// The function and the shape, if the precision is that of an abstract float.
fn abstract_name(of: ResultStruct) -> Option<(ResultFunction, ResultShape)>
    ensures { result ≡ abstract_name of }
{
    match of.precision {
        ResultPrecision::Abstract => Some((of.function, of.shape)),
        ResultPrecision::F32 | ResultPrecision::F16 => None,
    }
}

/// Whether the type is abstract: an abstract number, the result struct of `frexp` or `modf` for an abstract float, or an
/// array, a vector or a matrix of an abstract type.
pub fn has_abstract_type(ty: &Type) -> bool
    ensures { result ≡ abstract_type (view ty.now) }
{
    match ty.form() {
        Form::Scalar(scalar) => is_abstract_scalar(scalar),
        Form::Array(_, t) | Form::Vector(_, t) | Form::Matrix(_, _, t) => has_abstract_type(t),
        Form::Struct(s) => abstract_result(s).is_some(),
        _ => false,
    }
}

/// The concrete scalar for a scalar.
pub fn concrete_scalar(scalar: Scalar) -> Scalar
    ensures { scalar_type result ≡ concrete_of (scalar_type scalar) }
{
    match scalar {
        Scalar::AbstractInt => Scalar::I32,
        Scalar::AbstractFloat => Scalar::F32,
        other => other,
    }
}

pub(crate) fn is_abstract_scalar(scalar: Scalar) -> bool
    ensures { result ≡ abstract_type (scalar_type scalar) }
{
    matches!(scalar, Scalar::AbstractInt | Scalar::AbstractFloat)
}

/// The concrete type for the type of an operand.
pub fn made_concrete(ty: OperandType<'_>) -> Element<'_>
    ensures { element_view result ≡ concrete_of (given_type ty.entry) }
{
    match ty {
        OperandType::Value(dimensions, scalar) => {
            Element::Value(dimensions, concrete_component(dimensions, scalar))
        }
        OperandType::Any(ty) => Element::Concrete(ty),
    }
}

pub(crate) fn concrete_component(dimensions: Dimensions, scalar: Scalar) -> Scalar
    ensures { type_with dimensions result ≡ concrete_of (type_with dimensions scalar) }
{
    match dimensions {
        Dimensions::Matrix(_, _) => {
            if is_abstract_scalar(scalar) {
                Scalar::F32
            } else {
                scalar
            }
        }
        Dimensions::Single | Dimensions::Vector(_) => concrete_scalar(scalar),
    }
}

/// The concrete type for a type, which isn't built.
#[derive(Clone, Copy)]
pub struct ConcreteType<'a> {
    pub of: &'a Type,
}

impl ConcreteType<'_> {
    /// Builds the type in memory.
    pub fn build(self, alloc: Global) -> Result<Type, AllocError>
        ensures { IfOk result (λ t. view t ≡ concrete_of (view self.entry.of.now)) }
    {
        let ty = concrete(alloc, self.of)?;
        Ok(ty)
    }
}

fn concrete(alloc: Global, ty: &Type) -> Result<Type, AllocError>
    ensures { IfOk result (λ t. view t ≡ concrete_of (view ty.now)) }
{
    match ty.form() {
        Form::Scalar(scalar) => Ok(Type::from(concrete_scalar(scalar))),
        Form::Array(n, t) => {
            let element = concrete(alloc, t)?;
            Type::array(alloc, n, element)
        }
        Form::Vector(n, t) => {
            let element = concrete(alloc, t)?;
            Type::vector(alloc, n, element)
        }
        Form::Matrix(c, r, t) => concrete_matrix(alloc, c, r, t),
        Form::Struct(s) => concrete_struct(alloc, ty, s),
        _ => ty.clone(alloc),
    }
}

fn concrete_matrix(alloc: Global, c: u8, r: u8, t: &Type) -> Result<Type, AllocError>
    ensures { IfOk result (λ m. view m ≡ concrete_of (mat c r (view t.now))) }
{
    if has_abstract_type(t) {
        Type::matrix(alloc, c, r, Type::F32)
    } else {
        let component = t.clone(alloc)?;
        Type::matrix(alloc, c, r, component)
    }
}

fn concrete_struct(alloc: Global, ty: &Type, s: &StructType) -> Result<Type, AllocError>
    requires { view ty.now ≡ struct_type (struct_view s.now) }
    ensures { IfOk result (λ t. view t ≡ concrete_of (view ty.now)) }
{
    match abstract_result(s) {
        Some(of) => result_struct(alloc, in_f32(of)),
        None => ty.clone(alloc),
    }
}

/// The result struct of that function and shape for `f32`.
fn in_f32(of: (ResultFunction, ResultShape)) -> ResultStruct
    ensures { result ≡ in_f32 of }
{
    ResultStruct {
        function: of.0,
        shape: of.1,
        precision: ResultPrecision::F32,
    }
}

impl fmt::Display for ConcreteType<'_> {
    ghost use Rattle.std.specs.Prelude.{Some};
    ghost use Rattle.wgsl_rules.specs.types.Spelling.{wgsl_spelling};
    ghost use Rattle.wgsl_core.specs.View.{view};
    ghost use Rattle.wgsl_standard.specs.forms.Concrete.{concrete_of};

    ghost output = { λ t. Some (wgsl_spelling (concrete_of (view t.of.now))) };

    fn fmt<W: Write>(&self, f: &mut fmt::Formatter<W>) -> fmt::Result {
        write_concrete(f, self.of)
    }
}

/// Writes the concrete type for a type.
fn write_concrete<W: Write>(f: &mut fmt::Formatter<W>, ty: &Type) -> fmt::Result
    ensures { WritesOnOk W.write_str_gives f.old result
        (wgsl_spelling (concrete_of (view ty.now))) f.new }
{
    match ty.form() {
        Form::Scalar(scalar) => write!(f, "{}", concrete_scalar(scalar)),
        Form::Array(n, t) => {
            f.write_str("array<")?;
            write_concrete(f, t)?;
            write_count(f, n)
        }
        Form::Vector(n, t) => {
            write!(f, "vec{n}<")?;
            write_concrete(f, t)?;
            f.write_str(">")
        }
        Form::Matrix(c, r, t) => write_concrete_matrix(f, c, r, t),
        Form::Struct(s) => write_concrete_struct(f, s),
        _ => write_type(f, RuleSet::Standard, ty),
    }
}

fn write_concrete_matrix<W: Write>(f: &mut fmt::Formatter<W>, c: u8, r: u8, t: &Type) -> fmt::Result
    ensures { WritesOnOk W.write_str_gives f.old result
        (wgsl_spelling (concrete_of (mat c r (view t.now)))) f.new }
{
    if has_abstract_type(t) {
        write!(f, "mat{c}x{r}<f32>")
    } else {
        write!(f, "mat{c}x{r}<")?;
        write_type(f, RuleSet::Standard, t)?;
        f.write_str(">")
    }
}

fn write_concrete_struct<W: Write>(f: &mut fmt::Formatter<W>, s: &StructType) -> fmt::Result
    ensures { WritesOnOk W.write_str_gives f.old result
        (wgsl_spelling (concrete_of (struct_type (struct_view s.now)))) f.new }
{
    match abstract_result(s) {
        Some(of) => f.write_str(in_f32(of).name()),
        None => write!(f, "{}", s.name),
    }
}
