// Types.
ghost use Rattle.std.specs.Prelude.{◌≡◌, IfOk, ok_or, string_bytes};
ghost use Rattle.wgsl_rules.specs.types.Types.{atomic, vec};
ghost use Rattle.wgsl_rules.specs.types.Kinds.{IsAtomic, IsLeaf, IsStruct, IsVector};
ghost use Rattle.wgsl_rules.specs.types.Inner.{sampled_of};
ghost use Rattle.wgsl_rules.specs.errors.Refusals.{sampled_type};
ghost use Rattle.wgsl_core.specs.View.{view, struct_view, member_view};
ghost use Rattle.wgsl_core.specs.ResultStruct.{plain, struct_type};
ghost use Rattle.wgsl_core.specs.Answer.{Gives, IsAnswered};

pub(crate) mod build;
pub mod clone;
mod eq;
pub mod form;
mod kinds;
pub mod result_struct;
pub mod result_type;
pub mod show;

use crate::error::{Error, Fail};
use crate::ty::form::Form;
use std::alloc::{AllocError, Global};
use wgsl_syntax::address::{AccessMode, AddressSpace};
use wgsl_syntax::attribute::AccelerationStructureFlags;
use wgsl_syntax::scalar::Scalar;
use wgsl_syntax::texture::{SampledType, SamplerType, TextureType};

/// A type (WGSL, "Types"), including the abstract numbers and naga's additions.
#[cycle(types)]
#[derive(Debug, Drop)]
pub enum Type {
    /// `bool`
    Bool,
    /// The type of an integer literal without a suffix.
    AbstractInt,
    /// The type of a float literal without a suffix.
    AbstractFloat,
    /// `i32`
    I32,
    /// `u32`
    U32,
    /// `f32`
    F32,
    /// `f16`
    F16,
    /// A struct.
    Struct(Box<StructType>),
    /// The element, and the number of elements, or None if runtime-sized.
    Array(Box<Type>, Option<usize>),
    /// The number of components, and their type.
    Vec(u8, Box<Type>),
    /// The number of columns, the number of rows, and the type of the components.
    Mat(u8, u8, Box<Type>),
    /// An atomic, of that type.
    Atomic(Box<Type>),
    /// A pointer.
    Ptr(AddressSpace, Box<Type>, AccessMode),
    /// A reference.
    Ref(AddressSpace, Box<Type>, AccessMode),
    /// A texture.
    Texture(TextureType),
    /// A sampler.
    Sampler(SamplerType),
    /// `i64`
    I64,
    /// `u64`
    U64,
    /// `f64`
    F64,
    /// The element, and the number of elements, or None if runtime-sized.
    BindingArray(Box<Type>, Option<usize>),
    /// naga's ray query.
    RayQuery(Option<AccelerationStructureFlags>),
    /// naga's acceleration structure.
    AccelerationStructure(Option<AccelerationStructureFlags>),
}

/// A struct (WGSL, "Structure Types"): its name, and its members in order.
#[cycle(types)]
#[derive(Debug, Drop)]
pub struct StructType {
    /// The name.
    pub name: String,
    /// The members, in order.
    pub members: Vec<StructMemberType>,
}

/// A member of a struct, with its attributes `size` and `align` in bytes, if it has them.
#[cycle(types)]
#[derive(Debug, Drop)]
pub struct StructMemberType {
    /// The name.
    pub name: String,
    /// The type.
    pub ty: Type,
    /// The attribute `size`.
    pub size: Option<u32>,
    /// The attribute `align`.
    pub align: Option<u32>,
}

impl StructMemberType {
    /// A member without attributes.
    pub fn new(name: String, ty: Type) -> StructMemberType
        ensures { member_view result ≡ plain (string_bytes name) (view ty) }
    {
        StructMemberType {
            name,
            ty,
            size: None,
            align: None,
        }
    }
}

impl Type {
    /// The type inside an atomic (WGSL, "Atomic Types").
    pub fn unwrap_atomic(self) -> Box<Type>
        requires { IsAtomic (view self) }
        ensures { view self ≡ atomic (view result.value) }
    {
        match self {
            Type::Atomic(ty) => ty,
            _ => unreachable!(),
        }
    }

    /// The struct of a struct type.
    pub fn unwrap_struct(self) -> Box<StructType>
        requires { IsStruct (view self) }
        ensures { view self ≡ struct_type (struct_view result.value) }
    {
        match self {
            Type::Struct(s) => s,
            _ => unreachable!(),
        }
    }

    /// The number of components of a vector, and their type.
    pub fn unwrap_vec(self) -> (u8, Box<Type>)
        requires { IsVector (view self) }
        ensures { view self ≡ vec result.0 (view result.1.value) }
    {
        match self {
            Type::Vec(n, ty) => (n, ty),
            _ => unreachable!(),
        }
    }

    /// The type of a struct.
    pub fn from_struct(alloc: Global, s: StructType) -> Result<Type, AllocError>
        ensures { IfOk result (λ t. view t ≡ struct_type (struct_view s)) }
    {
        Ok(Type::Struct(Box::new(alloc, s)?))
    }
}

impl From<Scalar> for Type {
    ghost use Rattle.std.specs.Prelude.{◌≡◌};
    ghost use Rattle.wgsl_rules.specs.types.Types.{scalar};
    ghost use Rattle.wgsl_core.specs.View.{view};

    ghost from_gives = { λ s t. view t ≡ scalar s };

    fn from(of: Scalar) -> Type {
        match of {
            Scalar::Bool => Type::Bool,
            Scalar::AbstractInt => Type::AbstractInt,
            Scalar::AbstractFloat => Type::AbstractFloat,
            Scalar::I32 => Type::I32,
            Scalar::U32 => Type::U32,
            Scalar::F32 => Type::F32,
            Scalar::F16 => Type::F16,
            Scalar::I64 => Type::I64,
            Scalar::U64 => Type::U64,
            Scalar::F64 => Type::F64,
        }
    }
}

impl From<SampledType> for Type {
    ghost use Rattle.std.specs.Prelude.{◌≡◌};
    ghost use Rattle.wgsl_syntax.specs.TextureKind.{sampled_scalar};
    ghost use Rattle.wgsl_rules.specs.types.Types.{scalar};
    ghost use Rattle.wgsl_core.specs.View.{view};

    ghost from_gives = { λ s t. view t ≡ scalar (sampled_scalar s) };

    fn from(sampled: SampledType) -> Type {
        Type::from(Scalar::from(sampled))
    }
}

/// The sampled type that the type names (WGSL, "Sampled Texture Types"), or the error `SampledType` with the type.
pub fn try_from_type(alloc: Global, ty: &Type) -> Result<SampledType, Fail<Error>>
    ensures row { Gives (ok_or (sampled_of (view ty.now)) (sampled_type (view ty.now))) result }
    ensures never_out_of_memory { IsLeaf (view ty.now) → IsAnswered result }
{
    match sampled(ty) {
        Some(sampled) => Ok(sampled),
        None => Err(Fail::Error(Error::SampledType(ty.clone(alloc)?))),
    }
}

fn sampled(ty: &Type) -> Option<SampledType>
    ensures { result ≡ sampled_of (view ty.now) }
{
    match ty.form() {
        Form::Scalar(Scalar::I32) => Some(SampledType::I32),
        Form::Scalar(Scalar::U32) => Some(SampledType::U32),
        Form::Scalar(Scalar::F32) => Some(SampledType::F32),
        _ => None,
    }
}
