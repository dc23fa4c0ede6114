// The forms of types.
ghost use Rattle.std.specs.Prelude.{◌≡◌, option_map};
ghost use Rattle.wgsl_rules.specs.types.Inner.{inner_of};
ghost use Rattle.wgsl_core.specs.View.{view};
ghost use Rattle.wgsl_core.specs.Forms.{form_view, scalar_of, layer_of};

use crate::ty::{StructType, Type};
use wgsl_syntax::address::{AccessMode, AddressSpace};
use wgsl_syntax::attribute::AccelerationStructureFlags;
use wgsl_syntax::layer::Layer;
use wgsl_syntax::scalar::Scalar;
use wgsl_syntax::texture::{SamplerType, TextureType};

/// The form of a type, with the types inside borrowed.
#[derive(Clone, Copy)]
pub enum Form<'a> {
    Scalar(Scalar),
    /// The number of elements, or None if runtime-sized, and their type.
    Array(Option<usize>, &'a Type),
    /// The number of components, and their type.
    Vector(u8, &'a Type),
    /// The number of columns, the number of rows, and the type of the components.
    Matrix(u8, u8, &'a Type),
    Struct(&'a StructType),
    Atomic(&'a Type),
    Pointer(AddressSpace, &'a Type, AccessMode),
    Reference(AddressSpace, &'a Type, AccessMode),
    Texture(TextureType),
    Sampler(SamplerType),
    BindingArray(Option<usize>, &'a Type),
    RayQuery(Option<AccelerationStructureFlags>),
    AccelerationStructure(Option<AccelerationStructureFlags>),
}

impl Type {
    /// The form of the type.
    #[inline(always)]
    pub fn form(&self) -> Form<'_>
        ensures { view self.now ≡ form_view result }
    {
        match self {
            Type::Bool => Form::Scalar(Scalar::Bool),
            Type::AbstractInt => Form::Scalar(Scalar::AbstractInt),
            Type::AbstractFloat => Form::Scalar(Scalar::AbstractFloat),
            Type::I32 => Form::Scalar(Scalar::I32),
            Type::U32 => Form::Scalar(Scalar::U32),
            Type::F32 => Form::Scalar(Scalar::F32),
            Type::F16 => Form::Scalar(Scalar::F16),
            Type::I64 => Form::Scalar(Scalar::I64),
            Type::U64 => Form::Scalar(Scalar::U64),
            Type::F64 => Form::Scalar(Scalar::F64),
            Type::Array(t, n) => Form::Array(*n, t),
            Type::Vec(n, t) => Form::Vector(*n, t),
            Type::Mat(c, r, t) => Form::Matrix(*c, *r, t),
            Type::Struct(s) => Form::Struct(s),
            Type::Atomic(t) => Form::Atomic(t),
            Type::Ptr(space, t, access) => Form::Pointer(*space, t, *access),
            Type::Ref(space, t, access) => Form::Reference(*space, t, *access),
            Type::Texture(texture) => Form::Texture(*texture),
            Type::Sampler(sampler) => Form::Sampler(*sampler),
            Type::BindingArray(t, n) => Form::BindingArray(*n, t),
            Type::RayQuery(flags) => Form::RayQuery(*flags),
            Type::AccelerationStructure(flags) => Form::AccelerationStructure(*flags),
        }
    }

    /// The scalar, if the type is one.
    #[inline(always)]
    pub fn scalar(&self) -> Option<Scalar>
        ensures { result ≡ scalar_of (view self.now) }
    {
        match self.form() {
            Form::Scalar(scalar) => Some(scalar),
            _ => None,
        }
    }

    /// The layer of an array, a vector or a matrix, and its element.
    #[inline(always)]
    pub fn layer(&self) -> Option<(Layer, &Type)>
        ensures { option_map (λ p. (p.0, view p.1.now)) result ≡ layer_of (view self.now) }
    {
        match self.form() {
            Form::Array(n, t) => Some((Layer::Array(n), t)),
            Form::Vector(n, t) => Some((Layer::Vec(n), t)),
            Form::Matrix(c, r, t) => Some((Layer::Mat(c, r), t)),
            _ => None,
        }
    }

    /// The type inside an array, a vector, a matrix, an atomic, a pointer, a reference or a binding array; any other
    /// type itself.
    pub fn inner(&self) -> &Type
        ensures { view result.now ≡ inner_of (view self.now) }
    {
        match self.form() {
            Form::Array(_, t)
            | Form::Vector(_, t)
            | Form::Matrix(_, _, t)
            | Form::Atomic(t)
            | Form::Pointer(_, t, _)
            | Form::Reference(_, t, _)
            | Form::BindingArray(_, t) => t,
            _ => self,
        }
    }
}
