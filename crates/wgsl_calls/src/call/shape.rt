// Whether an argument has the shape that a built-in function requires.
ghost use Rattle.std.specs.Prelude.{◌≡◌, ◌↔◌, IsTrue};
ghost use Rattle.wgsl_rules.specs.conversion.Conversion.{ConvertsTo};
ghost use Rattle.wgsl_rules.specs.types.Types.{scalar};
ghost use Rattle.wgsl_rules.specs.types.Kinds.{IsScalarOrVector, IsStruct, IsAtomic};
ghost use Rattle.wgsl_rules.specs.calls.Shapes.{IsOfKind, IsTextureOf, IsScalarOf, IsVectorOf, IsScalarOrVectorOf, IsSquareMatrix, IsFraction, IsTextureTypeOf, IsPointerToAtomic, IsPointerInWorkgroup, IsQuery, IsAccelerationStructure, Is};
ghost use Rattle.wgsl_core.specs.View.{view};

use wgsl_core::ty::Type;
use wgsl_core::ty::form::Form;
use wgsl_core::ty::result_struct::shaped_float;
use wgsl_syntax::address::{AccessMode, AddressSpace};
use wgsl_syntax::call::{ScalarKind, Shape, TextureKind};
use wgsl_syntax::scalar::Scalar;
use wgsl_syntax::texture::TextureType;

/// Whether the type has the shape.
pub fn is(shape: &Shape, ty: &Type) -> bool
    ensures { IsTrue result ↔ Is shape.now (view ty.now) }
{
    match *shape {
        Shape::Any => true,
        Shape::ScalarOf(kind) => is_scalar_of(kind, ty),
        Shape::VectorOf(kind) => is_vector_of(kind, ty),
        Shape::ScalarOrVectorOf(kind) => is_scalar_or_vector_of(kind, ty),
        Shape::Vector => ty.is_vec(),
        Shape::ScalarOrVector => is_scalar_or_vector(ty),
        Shape::Matrix => ty.is_mat(),
        Shape::SquareMatrix => is_square_matrix(ty),
        Shape::Fraction => is_fraction(ty),
        Shape::To(of) => converts_to(ty, of),
        Shape::ToVector(n, of) => ty.is_convertible_to_vector(n, of),
        Shape::TextureOf(kind) => is_texture_type_of(kind, ty),
        Shape::PointerToAtomic => is_pointer_to_atomic(ty),
        Shape::PointerInWorkgroup => is_pointer_in_workgroup(ty),
        Shape::Query => is_query(ty),
        Shape::Acceleration => is_acceleration_structure(ty),
        Shape::Structure => is_struct(ty),
    }
}

/// Whether the type converts to the scalar.
#[inline(never)]
fn converts_to(ty: &Type, of: Scalar) -> bool
    ensures { IsTrue result ↔ ConvertsTo (view ty.now) (scalar of) }
{
    ty.is_convertible_to(&Type::from(of))
}

fn is_of_kind(kind: ScalarKind, scalar: Scalar) -> bool
    ensures { IsTrue result ↔ IsOfKind kind scalar }
{
    match kind {
        ScalarKind::Boolean => matches!(scalar, Scalar::Bool),
        ScalarKind::Number => scalar.is_numeric(),
        ScalarKind::NumberButU32 => scalar.is_numeric() && scalar != Scalar::U32,
        ScalarKind::Integer => scalar.is_integer(),
        ScalarKind::Float => scalar.is_float(),
        ScalarKind::F32OrAbstract => matches!(scalar, Scalar::AbstractFloat | Scalar::F32),
        ScalarKind::I32OrAbstract => matches!(scalar, Scalar::AbstractInt | Scalar::I32),
    }
}

fn is_scalar_of(kind: ScalarKind, ty: &Type) -> bool
    ensures { IsTrue result ↔ IsScalarOf kind (view ty.now) }
{
    match ty.form() {
        Form::Scalar(scalar) => is_of_kind(kind, scalar),
        _ => false,
    }
}

fn is_vector_of(kind: ScalarKind, ty: &Type) -> bool
    ensures { IsTrue result ↔ IsVectorOf kind (view ty.now) }
{
    match ty.form() {
        Form::Vector(_, component) => is_scalar_of(kind, component),
        _ => false,
    }
}

fn is_scalar_or_vector_of(kind: ScalarKind, ty: &Type) -> bool
    ensures { IsTrue result ↔ IsScalarOrVectorOf kind (view ty.now) }
{
    match ty.form() {
        Form::Scalar(scalar) => is_of_kind(kind, scalar),
        Form::Vector(_, component) => is_scalar_of(kind, component),
        _ => false,
    }
}

/// Whether the type is a scalar, or a vector of any type.
pub fn is_scalar_or_vector(ty: &Type) -> bool
    ensures { IsTrue result ↔ IsScalarOrVector (view ty.now) }
{
    matches!(ty.form(), Form::Scalar(_) | Form::Vector(_, _))
}

fn is_square_matrix(ty: &Type) -> bool
    ensures { IsTrue result ↔ IsSquareMatrix (view ty.now) }
{
    match ty.form() {
        Form::Matrix(columns, rows, _) => columns == rows,
        _ => false,
    }
}

#[tactic(auto, using(crate::proofs::Fractions::some_fraction))]
fn is_fraction(ty: &Type) -> bool
    ensures { IsTrue result ↔ IsFraction (view ty.now) }
{
    shaped_float(ty).is_some()
}

fn is_texture_of(kind: TextureKind, texture: TextureType) -> bool
    ensures { IsTrue result ↔ IsTextureOf kind texture }
{
    match kind {
        TextureKind::AnyTexture => true,
        TextureKind::Sampled => texture.is_sampled(),
        TextureKind::Depth => texture.is_depth(),
        TextureKind::Arrayed => texture.is_arrayed(),
        TextureKind::Multisampled => texture.is_multisampled(),
        TextureKind::Storage => texture.is_storage(),
        TextureKind::SampledOrDepth => texture.is_sampled() || texture.is_depth(),
        TextureKind::DepthOrMultisampledDepth => matches!(
            texture,
            TextureType::DepthMultisampled2D
                | TextureType::Depth2D
                | TextureType::Depth2DArray
                | TextureType::DepthCube
                | TextureType::DepthCubeArray
        ),
        TextureKind::Sampled2dOrExternal => matches!(
            texture,
            TextureType::Sampled2D(_) | TextureType::External
        ),
    }
}

fn is_texture_type_of(kind: TextureKind, ty: &Type) -> bool
    ensures { IsTrue result ↔ IsTextureTypeOf kind (view ty.now) }
{
    match ty.form() {
        Form::Texture(texture) => is_texture_of(kind, texture),
        _ => false,
    }
}

fn is_pointer_to_atomic(ty: &Type) -> bool
    ensures { IsTrue result ↔ IsPointerToAtomic (view ty.now) }
{
    match ty.form() {
        Form::Pointer(_, target, _) => is_atomic(target),
        _ => false,
    }
}

fn is_pointer_in_workgroup(ty: &Type) -> bool
    ensures { IsTrue result ↔ IsPointerInWorkgroup (view ty.now) }
{
    match ty.form() {
        Form::Pointer(space, _, _) => space == AddressSpace::Workgroup,
        _ => false,
    }
}

fn is_query(ty: &Type) -> bool
    ensures { IsTrue result ↔ IsQuery (view ty.now) }
{
    match ty.form() {
        Form::Pointer(space, _, access) => {
            space == AddressSpace::Function && access == AccessMode::ReadWrite
        }
        _ => false,
    }
}

fn is_atomic(ty: &Type) -> bool
    ensures { IsTrue result ↔ IsAtomic (view ty.now) }
{
    matches!(ty.form(), Form::Atomic(_))
}

fn is_struct(ty: &Type) -> bool
    ensures { IsTrue result ↔ IsStruct (view ty.now) }
{
    matches!(ty.form(), Form::Struct(_))
}

fn is_acceleration_structure(ty: &Type) -> bool
    ensures { IsTrue result ↔ IsAccelerationStructure (view ty.now) }
{
    matches!(ty.form(), Form::AccelerationStructure(_))
}
