// The kinds of types that loads and declarations distinguish.
ghost use Rattle.std.specs.Prelude.{◌≡◌};
ghost use Rattle.wgsl_standard.specs.forms.Prelude.{view, members_view, given_type};
ghost use Rattle.wgsl_standard.specs.forms.Kinds.{has_fixed_footprint as fixed_there, have_fixed_footprint as all_fixed_there, is_constructible as constructible, is_handle as handle, is_host_shareable as host_shareable, are_host_shareable as all_host_shareable, has_no_array as no_array_there, have_no_array as no_arrays_there};

use crate::forms::prelude::*;

/// Whether values of the type have one size: a scalar, a vector, a matrix, an array with a count or a struct, of such types,
/// and perhaps atomics (WGSL, "Fixed-Footprint Types").
#[cycle(footprint)]
pub fn has_fixed_footprint(atomics: bool, ty: &Type) -> bool
    ensures { result ≡ fixed_there atomics (view ty.now) }
{
    match ty {
        Type::Bool
        | Type::AbstractInt
        | Type::AbstractFloat
        | Type::I32
        | Type::U32
        | Type::F32
        | Type::F16
        | Type::I64
        | Type::U64
        | Type::F64 => true,
        Type::Array(t, n) => n.is_some() && has_fixed_footprint(atomics, t),
        Type::Vec(_, t) => has_fixed_footprint(atomics, t),
        Type::Mat(_, _, t) => has_fixed_footprint(atomics, t),
        Type::Struct(s) => have_fixed_footprint(atomics, &s.members),
        Type::Atomic(_) => atomics,
        Type::Ptr(_, _, _)
        | Type::Ref(_, _, _)
        | Type::Texture(_)
        | Type::Sampler(_)
        | Type::BindingArray(_, _)
        | Type::RayQuery(_)
        | Type::AccelerationStructure(_) => false,
    }
}

#[cycle(footprint)]
pub(crate) fn have_fixed_footprint(atomics: bool, members: &[StructMemberType]) -> bool
    ensures { result ≡ all_fixed_there atomics (members_view members.now) }
{
    for member in members {
        if !has_fixed_footprint(atomics, &member.ty) {
            return false;
        }
    }
    true
}

/// Whether values of the type can be made (WGSL, "Constructible Types"). It may be abstract.
pub fn is_constructible(ty: &Type) -> bool
    ensures { result ≡ constructible (view ty.now) }
{
    has_fixed_footprint(false, ty)
}

/// Whether the type is a texture or a sampler.
pub fn is_handle(ty: &Type) -> bool
    ensures { result ≡ handle (view ty.now) }
{
    matches!(ty.form(), Form::Texture(_) | Form::Sampler(_))
}

/// Whether the type of an operand is constructible.
#[inline(always)]
pub fn operand_is_constructible(ty: OperandType<'_>) -> bool
    ensures { result ≡ constructible (given_type ty.entry) }
{
    match ty {
        OperandType::Value(_, _) => true,
        OperandType::Any(ty) => is_constructible(ty),
    }
}

/// Whether the host can share memory with that type (WGSL, "Host-shareable Types").
#[cycle(host_shareable)]
pub fn is_host_shareable(ty: &Type) -> bool
    ensures { result ≡ host_shareable (view ty.now) }
{
    match ty {
        Type::I32 | Type::U32 | Type::F32 | Type::F16 | Type::I64 | Type::U64 | Type::F64 => true,
        Type::Array(t, _) => is_host_shareable(t),
        Type::Vec(_, t) => is_host_shareable(t),
        Type::Mat(_, _, t) => is_host_shareable(t),
        Type::Atomic(t) => is_host_shareable(t),
        Type::Struct(s) => are_host_shareable(&s.members),
        Type::Bool
        | Type::AbstractInt
        | Type::AbstractFloat
        | Type::Ptr(_, _, _)
        | Type::Ref(_, _, _)
        | Type::Texture(_)
        | Type::Sampler(_)
        | Type::BindingArray(_, _)
        | Type::RayQuery(_)
        | Type::AccelerationStructure(_) => false,
    }
}

#[cycle(host_shareable)]
fn are_host_shareable(members: &Vec<StructMemberType>) -> bool
    ensures { result ≡ all_host_shareable (members_view members.now.items) }
{
    for member in members {
        if !is_host_shareable(&member.ty) {
            return false;
        }
    }
    true
}

/// Whether the type is no array, and no struct with one inside.
#[cycle(no_array)]
pub fn has_no_array(ty: &Type) -> bool
    ensures { result ≡ no_array_there (view ty.now) }
{
    match ty {
        Type::Array(_, _) => false,
        Type::Struct(s) => have_no_array(&s.members),
        Type::Bool
        | Type::AbstractInt
        | Type::AbstractFloat
        | Type::I32
        | Type::U32
        | Type::F32
        | Type::F16
        | Type::I64
        | Type::U64
        | Type::F64
        | Type::Vec(_, _)
        | Type::Mat(_, _, _)
        | Type::Atomic(_)
        | Type::Ptr(_, _, _)
        | Type::Ref(_, _, _)
        | Type::Texture(_)
        | Type::Sampler(_)
        | Type::BindingArray(_, _)
        | Type::RayQuery(_)
        | Type::AccelerationStructure(_) => true,
    }
}

#[cycle(no_array)]
fn have_no_array(members: &[StructMemberType]) -> bool
    ensures { result ≡ no_arrays_there (members_view members.now) }
{
    for member in members {
        if !has_no_array(&member.ty) {
            return false;
        }
    }
    true
}
