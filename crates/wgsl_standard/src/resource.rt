// The textures and the pointers that parameters take, and what they say of the letter T.
ghost use Rattle.std.specs.Prelude.{◌≡◌, ◌↔◌, IsTrue, cond, Some, None};
ghost use Rattle.wgsl_syntax.specs.Texel.{channel_type};
ghost use Rattle.wgsl_syntax.specs.TextureKind.{sampled_scalar};
ghost use Rattle.wgsl_rules.specs.types.Types.{atomic, texture as texture_type, sampler as sampler_type};
ghost use Rattle.wgsl_syntax.specs.declared.address.AccessMode.TheVariants.{Read, ReadWrite};
ghost use Rattle.wgsl_rules.specs.standard.Resources.{suits as suits_there, texture_letter as texture_says, is_constructible as constructible, atomic_letter as atomic_says, constructible_letter as constructible_says, array_letter as array_says, pointer_letter as pointer_says, letter_of as letter_there, are_constructible as all_constructible};
ghost use Rattle.wgsl_core.specs.View.{view, member_view};
ghost use Rattle.wgsl_core.specs.internal.View.{members_view};
ghost use Rattle.wgsl_core.specs.Equality.{type_eq};

use wgsl_core::ty::form::Form;
use wgsl_core::ty::{StructMemberType, Type};
use wgsl_syntax::address::{AccessMode, AddressSpace};
use wgsl_syntax::overload::{Resource, Usage};
use wgsl_syntax::scalar::Scalar;
use wgsl_syntax::texel::TexelFormat;
use wgsl_syntax::texture::{SampledType, SamplerType, TextureType};

/// Whether the type is this texture.
#[tactic(auto, using(wgsl_core::specs::Equality::type_eq_decides))]
pub fn is_texture(ty: &Type, texture: TextureType) -> bool
    ensures { result ≡ type_eq (view ty.now) (texture_type texture) }
{
    is_texture_type(ty, texture)
}

fn is_texture_type(ty: &Type, texture: TextureType) -> bool
    ensures { IsTrue result ↔ (view ty.now ≡ texture_type texture) }
{
    match ty.form() {
        Form::Texture(found) => same_texture(found, texture),
        _ => false,
    }
}

#[tactic(auto, using(wgsl_syntax::proofs::Same::texture_same))]
fn same_texture(a: TextureType, b: TextureType) -> bool
    ensures { IsTrue result ↔ (a ≡ b) }
{
    a == b
}

/// Whether the type is this sampler.
#[tactic(auto, using(wgsl_core::specs::Equality::type_eq_decides))]
pub fn is_sampler(ty: &Type, sampler: SamplerType) -> bool
    ensures { result ≡ type_eq (view ty.now) (sampler_type sampler) }
{
    is_sampler_type(ty, sampler)
}

fn is_sampler_type(ty: &Type, sampler: SamplerType) -> bool
    ensures { IsTrue result ↔ (view ty.now ≡ sampler_type sampler) }
{
    match ty.form() {
        Form::Sampler(found) => found == sampler,
        _ => false,
    }
}

/// What a type says of T, if it is of the set: nothing, or which scalar T stands for.
pub fn letter_of(resource: Resource, ty: &Type) -> Option<Option<Scalar>>
    ensures { result ≡ letter_there resource (view ty.now) }
{
    match ty.form() {
        Form::Texture(texture) => texture_letter(resource, texture),
        Form::Pointer(space, inner, access) => pointer_letter(resource, space, inner, access),
        _ => None,
    }
}

fn texture_letter(resource: Resource, texture: TextureType) -> Option<Option<Scalar>>
    ensures { result ≡ texture_says resource texture }
{
    match resource {
        Resource::Texture1D => match texture {
            TextureType::Sampled1D(sampled) => sampled_letter(sampled),
            _ => None,
        },
        Resource::Texture2D => match texture {
            TextureType::Sampled2D(sampled) => sampled_letter(sampled),
            _ => None,
        },
        Resource::Texture2DArray => match texture {
            TextureType::Sampled2DArray(sampled) => sampled_letter(sampled),
            _ => None,
        },
        Resource::Texture3D => match texture {
            TextureType::Sampled3D(sampled) => sampled_letter(sampled),
            _ => None,
        },
        Resource::TextureCube => match texture {
            TextureType::SampledCube(sampled) => sampled_letter(sampled),
            _ => None,
        },
        Resource::TextureCubeArray => match texture {
            TextureType::SampledCubeArray(sampled) => sampled_letter(sampled),
            _ => None,
        },
        Resource::TextureMultisampled2D => match texture {
            TextureType::Multisampled2D(sampled) => sampled_letter(sampled),
            _ => None,
        },
        Resource::TextureStorage1D(usage) => match texture {
            TextureType::Storage1D(format, access) => channel_letter(suits(usage, access), format),
            _ => None,
        },
        Resource::TextureStorage2D(usage) => match texture {
            TextureType::Storage2D(format, access) => channel_letter(suits(usage, access), format),
            _ => None,
        },
        Resource::TextureStorage2DArray(usage) => match texture {
            TextureType::Storage2DArray(format, access) => channel_letter(
                suits(usage, access),
                format,
            ),
            _ => None,
        },
        Resource::TextureStorage3D(usage) => match texture {
            TextureType::Storage3D(format, access) => channel_letter(suits(usage, access), format),
            _ => None,
        },
        Resource::AtomicPointer
        | Resource::WorkgroupAtomicPointer
        | Resource::WorkgroupPointer
        | Resource::ArrayPointer => None,
    }
}

fn sampled_letter(sampled: SampledType) -> Option<Option<Scalar>>
    ensures { result ≡ Some (Some (sampled_scalar sampled)) }
{
    Some(Some(Scalar::from(sampled)))
}

fn channel_letter(suited: bool, format: TexelFormat) -> Option<Option<Scalar>>
    ensures { result ≡ cond suited (Some (Some (sampled_scalar (channel_type format)))) None }
{
    if suited {
        sampled_letter(format.channel_type())
    } else {
        None
    }
}

fn suits(usage: Usage, access: AccessMode) -> bool
    ensures { result ≡ suits_there usage access }
{
    match usage {
        Usage::Reads => matches!(access, AccessMode::Read | AccessMode::ReadWrite),
        Usage::Writes => matches!(access, AccessMode::Write | AccessMode::ReadWrite),
        Usage::Asks => !matches!(access, AccessMode::Atomic),
    }
}

fn pointer_letter(
    resource: Resource,
    space: AddressSpace,
    inner: &Type,
    access: AccessMode,
) -> Option<Option<Scalar>>
    ensures { result ≡ pointer_says resource space (view inner.now) access }
{
    match resource {
        Resource::AtomicPointer => match space {
            AddressSpace::Workgroup | AddressSpace::Storage => atomic_letter(inner, access),
            _ => None,
        },
        Resource::WorkgroupAtomicPointer => match space {
            AddressSpace::Workgroup => atomic_letter(inner, access),
            _ => None,
        },
        Resource::WorkgroupPointer => match space {
            AddressSpace::Workgroup => constructible_letter(inner, access),
            _ => None,
        },
        Resource::ArrayPointer => match space {
            AddressSpace::Storage => array_letter(inner, access),
            _ => None,
        },
        _ => None,
    }
}

fn atomic_letter(inner: &Type, access: AccessMode) -> Option<Option<Scalar>>
    ensures { result ≡ atomic_says (view inner.now) access }
{
    match access {
        AccessMode::ReadWrite => match inner.form() {
            Form::Atomic(held) => concrete_letter(held),
            _ => None,
        },
        _ => None,
    }
}

fn concrete_letter(held: &Type) -> Option<Option<Scalar>>
    ensures { result ≡ atomic_says (atomic (view held.now)) ReadWrite }
{
    match held.scalar()? {
        Scalar::AbstractInt | Scalar::AbstractFloat => None,
        scalar => Some(Some(scalar)),
    }
}

fn constructible_letter(inner: &Type, access: AccessMode) -> Option<Option<Scalar>>
    ensures { result ≡ constructible_says (view inner.now) access }
{
    match access {
        AccessMode::ReadWrite => nothing_said(is_constructible(inner)),
        _ => None,
    }
}

fn nothing_said(fits: bool) -> Option<Option<Scalar>>
    ensures { result ≡ cond fits (Some None) None }
{
    if fits { Some(None) } else { None }
}

fn array_letter(inner: &Type, access: AccessMode) -> Option<Option<Scalar>>
    ensures { result ≡ array_says (view inner.now) access }
{
    match access {
        AccessMode::Read | AccessMode::ReadWrite => runtime_array(inner),
        _ => None,
    }
}

fn runtime_array(inner: &Type) -> Option<Option<Scalar>>
    ensures { result ≡ array_says (view inner.now) Read }
{
    match inner.form() {
        Form::Array(size, _) => nothing_said(size.is_none()),
        _ => None,
    }
}

/// Whether the type is concrete and its values can be made (WGSL, "Constructible Types").
#[cycle(constructible)]
pub fn is_constructible(ty: &Type) -> bool
    ensures { result ≡ constructible (view ty.now) }
{
    match ty {
        Type::AbstractInt | Type::AbstractFloat => false,
        Type::Bool
        | Type::I32
        | Type::U32
        | Type::F32
        | Type::F16
        | Type::I64
        | Type::U64
        | Type::F64 => true,
        Type::Array(t, n) => n.is_some() && is_constructible(t),
        Type::Vec(_, t) => is_constructible(t),
        Type::Mat(_, _, t) => is_constructible(t),
        Type::Struct(s) => are_constructible(&s.members),
        Type::Atomic(_)
        | Type::Ptr(_, _, _)
        | Type::Ref(_, _, _)
        | Type::Texture(_)
        | Type::Sampler(_)
        | Type::BindingArray(_, _)
        | Type::RayQuery(_)
        | Type::AccelerationStructure(_) => false,
    }
}

#[cycle(constructible)]
fn are_constructible(members: &Vec<StructMemberType>) -> bool
    ensures { result ≡ all_constructible (members_view members.now.items) }
{
    for member in members {
        if !member_is_constructible(member) {
            return false;
        }
    }
    true
}

#[cycle(constructible)]
fn member_is_constructible(member: &StructMemberType) -> bool
    ensures { result ≡ constructible (member_view member.now).ty }
{
    is_constructible(&member.ty)
}
