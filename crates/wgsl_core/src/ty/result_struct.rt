// The structs that `frexp` and `modf` return, recognised field by field.
ghost use Rattle.std.specs.Prelude.{◌≡◌, ◌↔◌, IsTrue, Option, Some};
ghost use Rattle.wgsl_syntax.specs.declared.result_struct.ResultStruct.{ResultStruct as ResultName};
ghost use Rattle.wgsl_rules.specs.types.Types.{scalar, vec};
ghost use Rattle.wgsl_rules.specs.types.ResultStructs.{shaped, float_of, exponent_of};
ghost use Rattle.wgsl_core.specs.View.{view, struct_view, member_view};
ghost use Rattle.wgsl_core.specs.ResultStruct.{plain, struct_type, result_type};
ghost use Rattle.wgsl_core.specs.internal.ResultStruct.{IsResult, precision_at, shape_at, shape_in, function_at, second_member};

use crate::ty::form::Form;
use crate::ty::{StructMemberType, StructType, Type};
use wgsl_syntax::result_struct::{ResultFunction, ResultPrecision, ResultShape, ResultStruct};
use wgsl_syntax::scalar::Scalar;

impl StructType {
    /// The result struct of `frexp` or `modf` that it is, by its name, members and attributes, or None.
    pub fn result_struct(&self) -> Option<ResultStruct>
        ensures { (r : ResultName) → (result ≡ Some r)
            ↔ (struct_type (struct_view self.now) ≡ result_type r) }
    {
        let [first, second] = self.members.as_slice() else {
            return None;
        };
        let (shape, precision) = shaped_float(&first.ty)?;
        let function = function_named(second.name.as_str())?;
        let found = ResultStruct {
            function,
            shape,
            precision,
        };
        if is_result(self.name.as_str(), first, second, found) {
            Some(found)
        } else {
            None
        }
    }
}

/// The shape and the precision of a type, if `frexp` and `modf` take it.
#[inline(always)]
pub fn shaped_float(ty: &Type) -> Option<(ResultShape, ResultPrecision)>
    ensures { result ≡ shape_in (view ty.now) }
{
    match ty.form() {
        Form::Scalar(scalar) => Some((ResultShape::Scalar, precision_of(scalar)?)),
        Form::Vector(n, element) => Some((shape_of(n)?, precision_of(element.scalar()?)?)),
        _ => None,
    }
}

fn shape_of(components: u8) -> Option<ResultShape>
    ensures { result ≡ shape_at components }
{
    match components {
        2 => Some(ResultShape::Vec2),
        3 => Some(ResultShape::Vec3),
        4 => Some(ResultShape::Vec4),
        _ => None,
    }
}

fn precision_of(scalar: Scalar) -> Option<ResultPrecision>
    ensures { result ≡ precision_at scalar }
{
    match scalar {
        Scalar::AbstractFloat => Some(ResultPrecision::Abstract),
        Scalar::F32 => Some(ResultPrecision::F32),
        Scalar::F16 => Some(ResultPrecision::F16),
        Scalar::Bool
        | Scalar::AbstractInt
        | Scalar::I32
        | Scalar::U32
        | Scalar::I64
        | Scalar::U64
        | Scalar::F64 => None,
    }
}

fn function_named(second: &str) -> Option<ResultFunction>
    ensures { result ≡ function_at second.now }
{
    match second {
        "exp" => Some(ResultFunction::Frexp),
        "whole" => Some(ResultFunction::Modf),
        _ => None,
    }
}

fn is_result(
    name: &str,
    first: &StructMemberType,
    second: &StructMemberType,
    result_struct: ResultStruct,
) -> bool
    ensures { IsTrue result
        ↔ IsResult name.now (member_view first.now) (member_view second.now) result_struct }
{
    name == result_struct.name()
        && is_plain(
            first,
            "fract",
            result_struct.shape,
            float_in(result_struct.precision),
        )
        && is_second(second, result_struct)
}

fn is_second(member: &StructMemberType, result_struct: ResultStruct) -> bool
    ensures { IsTrue result
        ↔ (member_view member.now
        ≡ second_member result_struct.function result_struct.shape result_struct.precision) }
{
    match result_struct.function {
        ResultFunction::Frexp => is_plain(
            member,
            "exp",
            result_struct.shape,
            exponent_in(result_struct.precision),
        ),
        ResultFunction::Modf => is_plain(
            member,
            "whole",
            result_struct.shape,
            float_in(result_struct.precision),
        ),
    }
}

/// The scalar with the precision.
pub fn float_in(precision: ResultPrecision) -> Scalar
    ensures { result ≡ float_of precision }
{
    match precision {
        ResultPrecision::Abstract => Scalar::AbstractFloat,
        ResultPrecision::F32 => Scalar::F32,
        ResultPrecision::F16 => Scalar::F16,
    }
}

/// The scalar inside the exponent that `frexp` returns.
pub fn exponent_in(precision: ResultPrecision) -> Scalar
    ensures { result ≡ exponent_of precision }
{
    match precision {
        ResultPrecision::Abstract => Scalar::AbstractInt,
        ResultPrecision::F32 | ResultPrecision::F16 => Scalar::I32,
    }
}

/// Whether a member has this name, this shape and this scalar, and no attributes.
fn is_plain(member: &StructMemberType, name: &str, shape: ResultShape, of: Scalar) -> bool
    ensures { IsTrue result ↔ (member_view member.now ≡ plain name.now (shaped shape (scalar of))) }
{
    member.name.as_str() == name
        && member.size.is_none()
        && member.align.is_none()
        && has_shape(&member.ty, shape, of)
}

fn has_shape(ty: &Type, shape: ResultShape, of: Scalar) -> bool
    ensures { IsTrue result ↔ (view ty.now ≡ shaped shape (scalar of)) }
{
    match shape {
        ResultShape::Scalar => is_scalar_of(ty, of),
        ResultShape::Vec2 => is_vector_of(ty, 2, of),
        ResultShape::Vec3 => is_vector_of(ty, 3, of),
        ResultShape::Vec4 => is_vector_of(ty, 4, of),
    }
}

/// Whether the type is the vector with that many components of type `of`.
pub fn is_vector_of(ty: &Type, components: u8, of: Scalar) -> bool
    ensures { IsTrue result ↔ (view ty.now ≡ vec components (scalar of)) }
{
    match ty.form() {
        Form::Vector(n, element) => n == components && is_scalar_of(element, of),
        _ => false,
    }
}

#[tactic(auto, using(crate::proofs::Scalars::scalar_is))]
fn is_scalar_of(ty: &Type, of: Scalar) -> bool
    ensures { IsTrue result ↔ (view ty.now ≡ scalar of) }
{
    ty.scalar() == Some(of)
}
