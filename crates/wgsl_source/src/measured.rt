// Types of a module, each with its size and alignment.
ghost use Rattle.std.specs.Prelude.{◌≡◌, ◌↔◌, IfSome, IsTrue, Some};
ghost use Rattle.wgsl_syntax.specs.declared.rules.RuleSet.TheVariants.{Standard};
ghost use Rattle.wgsl_rules.specs.types.Types.{atomic, mat, scalar as scalar_type, vec};
ghost use Rattle.wgsl_rules.specs.layout.Layout.{HasAlignmentBy, IsArraySize, IsAtomicSize, IsExactly, IsScalarSize, IsTimes};
ghost use Rattle.wgsl_core.specs.Placing.{IsValue};
ghost use Rattle.wgsl_source.specs.Measures.{IsMeasure, IsMeasureOf, IsStrideOf, known_count};
ghost use Rattle.wgsl_source.specs.Members.{IsRuntimeSizedArray};
ghost use Rattle.wgsl_source.specs.WrittenTypes.{IsResource};

use wgsl_syntax::address::{AccessMode, AddressSpace};
use wgsl_syntax::attribute::AccelerationStructureFlags;
use wgsl_syntax::scalar::Scalar;
use wgsl_syntax::texture::{SamplerType, TextureType};

/// A type of a module, with its size and its alignment in bytes.
#[derive(Clone, Copy)]
pub struct MeasuredType {
    pub kind: TypeKind,
    /// None for a type that is no data, for a runtime-sized array or a struct that ends in one, and for an array whose
    /// count is an override.
    pub size: Option<u32>,
    /// None for a type that is no data.
    pub align: Option<u32>,
    /// The nesting depth of arrays, binding arrays and pointers.
    pub levels: u32,
}

/// What a type is. Other types in it are the module's elements and structs, by their indices.
#[derive(Clone, Copy)]
pub enum TypeKind {
    Scalar(Scalar),
    /// The number of components.
    Vector(u8, Scalar),
    /// The number of columns, and the number of rows.
    Matrix(u8, u8, Scalar),
    Atomic(Scalar),
    Array(usize, Count),
    BindingArray(usize, Count),
    Pointer(AddressSpace, usize, AccessMode),
    Struct(usize),
    Sampler(SamplerType),
    Texture(TextureType),
    RayQuery(Option<AccelerationStructureFlags>),
    AccelerationStructure(Option<AccelerationStructureFlags>),
}

/// How many elements an array has.
#[derive(Clone, Copy)]
pub enum Count {
    Known(u32),
    Runtime,
    /// The value of an override, which is known when the pipeline is created.
    Override,
}

impl Count {
    /// The number, if it is known.
    pub fn known(self) -> Option<u32>
        ensures { result ≡ known_count self }
    {
        match self {
            Count::Known(count) => Some(count),
            Count::Runtime | Count::Override => None,
        }
    }
}

impl MeasuredType {
    /// A type that holds no other, with its size and its alignment.
    pub fn leaf(kind: TypeKind, size: Option<u32>, align: Option<u32>) -> MeasuredType
        ensures kind { result.kind ≡ kind }
        ensures size { result.size ≡ size }
        ensures align { result.align ≡ align }
    {
        MeasuredType {
            kind,
            size,
            align,
            levels: 0,
        }
    }

    /// A type that is no data: a texture, a sampler, a ray query or an acceleration structure.
    pub fn resource(kind: TypeKind) -> MeasuredType
        ensures { IsResource kind result }
    {
        MeasuredType::leaf(kind, None, None)
    }

    /// A scalar.
    pub fn scalar(scalar: Scalar) -> MeasuredType
        ensures kind { result.kind ≡ TypeKind.Scalar scalar }
        ensures measure { IsMeasureOf (scalar_type scalar) result }
    {
        let size = scalar_size(scalar);
        MeasuredType::leaf(TypeKind::Scalar(scalar), size, size)
    }

    /// A vector of this many scalars.
    pub fn vector(count: u8, scalar: Scalar) -> MeasuredType
        ensures kind { result.kind ≡ TypeKind.Vector count scalar }
        ensures measure { IsMeasureOf (vec count (scalar_type scalar)) result }
    {
        let size = times(u32::from(count), scalar_size(scalar));
        MeasuredType::leaf(
            TypeKind::Vector(count, scalar),
            size,
            vector_align(count, scalar),
        )
    }

    /// A matrix with these numbers of columns and rows.
    pub fn matrix(columns: u8, rows: u8, scalar: Scalar) -> MeasuredType
        ensures kind { result.kind ≡ TypeKind.Matrix columns rows scalar }
        ensures measure { IsMeasureOf (mat columns rows (scalar_type scalar)) result }
    {
        let align = vector_align(rows, scalar);
        let size = times(u32::from(columns), align);
        MeasuredType::leaf(TypeKind::Matrix(columns, rows, scalar), size, align)
    }

    /// An atomic of this scalar.
    pub fn atomic(scalar: Scalar) -> MeasuredType
        ensures kind { result.kind ≡ TypeKind.Atomic scalar }
        ensures measure { IsMeasureOf (atomic (scalar_type scalar)) result }
    {
        let size = atomic_size(scalar);
        MeasuredType::leaf(TypeKind::Atomic(scalar), size, size)
    }

    /// An array whose elements have this type, which is at this index of the module's element types.
    pub fn array(&self, index: usize, count: Count) -> MeasuredType
        ensures kind { result.kind ≡ TypeKind.Array index count }
        ensures measure { IsMeasure (IsArraySize (known_count count) (IsStrideOf self.now)) (IsValue self.now.align) result }
    {
        let size = array_size(count.known(), self.stride());
        self.around(TypeKind::Array(index, count), size, self.align)
    }

    /// A type around this one.
    pub fn around(&self, kind: TypeKind, size: Option<u32>, align: Option<u32>) -> MeasuredType
        ensures kind { result.kind ≡ kind }
        ensures size { result.size ≡ size }
        ensures align { result.align ≡ align }
    {
        MeasuredType {
            kind,
            size,
            align,
            levels: self.levels.saturating_add(1),
        }
    }

    /// The stride of an array whose elements have this type.
    pub fn stride(&self) -> Option<u32>
        ensures { IsExactly result (IsStrideOf self.now) }
    {
        self.size?.checked_next_multiple_of(self.align?)
    }

    /// Whether it is an array without a count.
    pub fn is_runtime_sized_array(&self) -> bool
        ensures { IsTrue result ↔ IsRuntimeSizedArray self.now.kind }
    {
        matches!(self.kind, TypeKind::Array(_, Count::Runtime))
    }

    /// The scalar, if the type is one.
    pub fn as_scalar(&self) -> Option<Scalar>
        ensures { IfSome result (λ scalar. self.now.kind ≡ TypeKind.Scalar scalar) }
    {
        match self.kind {
            TypeKind::Scalar(scalar) => Some(scalar),
            _ => None,
        }
    }
}

/// The size of a scalar, which is its alignment too.
fn scalar_size(scalar: Scalar) -> Option<u32>
    ensures { IsExactly result (IsScalarSize scalar) }
{
    match scalar {
        Scalar::Bool | Scalar::I32 | Scalar::U32 | Scalar::F32 => Some(4),
        Scalar::F16 => Some(2),
        Scalar::I64 | Scalar::U64 | Scalar::F64 => Some(8),
        Scalar::AbstractInt | Scalar::AbstractFloat => None,
    }
}

/// The size of an atomic, which is its alignment too.
fn atomic_size(scalar: Scalar) -> Option<u32>
    ensures { IsExactly result (IsAtomicSize (scalar_type scalar)) }
{
    match scalar {
        Scalar::I64 | Scalar::U64 => Some(8),
        _ => Some(4),
    }
}

/// The alignment of a vector: that of three components is that of four.
fn vector_align(count: u8, scalar: Scalar) -> Option<u32>
    ensures { IsExactly result (HasAlignmentBy Standard (vec count (scalar_type scalar))) }
{
    let size = scalar_size(scalar);
    if count == 3 {
        times(4, size)
    } else {
        times(u32::from(count), size)
    }
}

fn array_size(count: Option<u32>, stride: Option<u32>) -> Option<u32>
    ensures { IsExactly result (IsArraySize count (IsValue stride)) }
{
    match count {
        Some(count) => known_array_size(count, stride),
        None => None,
    }
}

fn known_array_size(count: u32, stride: Option<u32>) -> Option<u32>
    ensures { IsExactly result (IsArraySize (Some count) (IsValue stride)) }
{
    times(count, stride)
}

fn times(count: u32, size: Option<u32>) -> Option<u32>
    ensures { IsExactly result (IsTimes count (IsValue size)) }
{
    count.checked_mul(size?)
}
