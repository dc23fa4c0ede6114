// The structs that built-in functions return.
ghost use Rattle.std.specs.Prelude.{◌≡◌, [], ◌∷◌, ◌++◌, IfOk, codes, map};
ghost use Rattle.wgsl_syntax.specs.declared.scalar.Scalar.TheVariants.{F32};
ghost use Rattle.wgsl_rules.specs.types.Types.{scalar, within, struct, no_members};
ghost use Rattle.wgsl_rules.specs.types.ResultStructs.{shaped, plain_member};
ghost use Rattle.wgsl_rules.specs.calls.ResultTypes.{exchange_struct, ray_intersection_struct, hit_positions_type};
ghost use Rattle.wgsl_core.specs.View.{view, member_view, members_of};
ghost use Rattle.wgsl_core.specs.ResultStruct.{plain, result_type as result_struct_of};

use crate::ty::build::within;
use crate::ty::result_struct::{exponent_in, float_in};
use crate::ty::{StructMemberType, StructType, Type};
use std::alloc::{AllocError, Global};
use wgsl_syntax::layer::Layer;
use wgsl_syntax::result_struct::{ResultFunction, ResultShape, ResultStruct};
use wgsl_syntax::scalar::Scalar;

/// The struct that `frexp` or `modf` returns (WGSL, "frexp" and "modf").
pub fn result_struct(alloc: Global, of: ResultStruct) -> Result<Type, AllocError>
    ensures { IfOk result (λ t. view t ≡ result_struct_of of) }
{
    let fraction = shaped_type(alloc, of.shape, float_in(of.precision))?;
    match of.function {
        ResultFunction::Frexp => {
            let exponent = shaped_type(alloc, of.shape, exponent_in(of.precision))?;
            pair(alloc, of.name(), "fract", fraction, "exp", exponent)
        }
        ResultFunction::Modf => {
            let whole = shaped_type(alloc, of.shape, float_in(of.precision))?;
            pair(alloc, of.name(), "fract", fraction, "whole", whole)
        }
    }
}

/// The struct that `atomicCompareExchangeWeak` returns (WGSL, "atomicCompareExchangeWeak").
pub fn exchange_result(alloc: Global, ty: &Type) -> Result<Type, AllocError>
    ensures { IfOk result (λ t. view t ≡ exchange_struct (view ty.now)) }
{
    let old_value = ty.clone(alloc)?;
    pair(
        alloc,
        "__atomic_compare_exchange_result",
        "old_value",
        old_value,
        "exchanged",
        Type::Bool,
    )
}

/// The struct in which a ray query returns an intersection.
pub fn ray_intersection(alloc: Global) -> Result<Type, AllocError>
    ensures { IfOk result (λ t. view t ≡ ray_intersection_struct) }
{
    let mut members = Vec::new(alloc);
    push_intersection(&mut members, alloc)?;
    struct_of(alloc, "RayIntersection", members)
}

fn push_intersection(members: &mut Vec<StructMemberType>, alloc: Global) -> Result<(), AllocError>
    requires { map member_view members.now.items ≡ [] }
    ensures { IfOk result (λ u.
        struct (codes "RayIntersection") (members_of (map member_view members.new.items))
        ≡ ray_intersection_struct) }
{
    push(members, alloc, "kind", Type::U32)?;
    push(members, alloc, "t", Type::F32)?;
    push(members, alloc, "instance_custom_data", Type::U32)?;
    push(members, alloc, "instance_index", Type::U32)?;
    push(members, alloc, "sbt_record_offset", Type::U32)?;
    push(members, alloc, "geometry_index", Type::U32)?;
    push(members, alloc, "primitive_index", Type::U32)?;
    push(
        members,
        alloc,
        "barycentrics",
        floats(alloc, Layer::Vec(2))?,
    )?;
    push(members, alloc, "front_face", Type::Bool)?;
    push(
        members,
        alloc,
        "object_to_world",
        floats(alloc, Layer::Mat(4, 3))?,
    )?;
    push(
        members,
        alloc,
        "world_to_object",
        floats(alloc, Layer::Mat(4, 3))?,
    )?;
    Ok(())
}

/// The corners of the triangle that a ray hit: an array of three vectors.
pub fn hit_positions(alloc: Global) -> Result<Type, AllocError>
    ensures { IfOk result (λ t. view t ≡ hit_positions_type) }
{
    within(alloc, Layer::Array(Some(3)), floats(alloc, Layer::Vec(3))?)
}

/// A vector or a matrix of `f32`.
fn floats(alloc: Global, layer: Layer) -> Result<Type, AllocError>
    ensures { IfOk result (λ t. view t ≡ within layer (scalar F32)) }
{
    within(alloc, layer, Type::F32)
}

/// The scalar itself, or a vector of it, by the shape.
#[inline(always)]
fn shaped_type(alloc: Global, shape: ResultShape, of: Scalar) -> Result<Type, AllocError>
    ensures { IfOk result (λ t. view t ≡ shaped shape (scalar of)) }
{
    match shape {
        ResultShape::Scalar => Ok(Type::from(of)),
        ResultShape::Vec2 => within(alloc, Layer::Vec(2), Type::from(of)),
        ResultShape::Vec3 => within(alloc, Layer::Vec(3), Type::from(of)),
        ResultShape::Vec4 => within(alloc, Layer::Vec(4), Type::from(of)),
    }
}

/// A struct of two members without attributes.
#[inline(always)]
fn pair(
    alloc: Global,
    name: &str,
    first_name: &str,
    first: Type,
    second_name: &str,
    second: Type,
) -> Result<Type, AllocError>
    ensures { IfOk result (λ t. view t
        ≡ struct name.now
        (plain_member first_name.now (view first)
        (plain_member second_name.now (view second) no_members))) }
{
    let mut members = Vec::new(alloc);
    push(&mut members, alloc, first_name, first)?;
    push(&mut members, alloc, second_name, second)?;
    struct_of(alloc, name, members)
}

/// Adds a member without attributes.
#[inline(always)]
fn push(
    members: &mut Vec<StructMemberType>,
    alloc: Global,
    name: &str,
    ty: Type,
) -> Result<(), AllocError>
    ensures { IfOk result (λ u. map member_view members.new.items
        ≡ map member_view members.old.items ++ plain name.now (view ty) ∷ []) }
{
    let name = String::from_str(alloc, name)?;
    members.push(StructMemberType::new(name, ty))?;
    Ok(())
}

#[inline(always)]
fn struct_of(alloc: Global, name: &str, members: Vec<StructMemberType>) -> Result<Type, AllocError>
    ensures { IfOk result (λ t. view t
        ≡ struct name.now (members_of (map member_view members.items))) }
{
    let name = String::from_str(alloc, name)?;
    Type::from_struct(alloc, StructType { name, members })
}
