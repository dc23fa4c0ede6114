// What the rules of address spaces see of a type: its extent, the type inside its arrays, and what that is.
ghost use Rattle.std.specs.Prelude.{◌≡◌, ◌↔◌, IsTrue, Some};
ghost use Rattle.wgsl_rules.specs.layout.Layout.{IsExactly};
ghost use Rattle.wgsl_report.specs.Extent.{IsInnermost, IsOutermostTooClose, IsRuntimeSized, IsTooClose, content_of, extent_of, position_of, shape_of};

use crate::prelude::*;

/// The shape, the size and the alignment of a type. A missing size is 0.
pub fn extent_of(ty: &MeasuredType) -> Extent
    ensures { result ≡ extent_of ty.now }
{
    Extent {
        shape: shape_of(ty.kind),
        size: ty.size.unwrap_or(0),
        align: ty.align.unwrap_or(1),
    }
}

/// Whether a type is an array or a struct.
pub fn shape_of(kind: TypeKind) -> Shape
    ensures { result ≡ shape_of kind }
{
    match kind {
        TypeKind::Array(_, _) => Shape::Array,
        TypeKind::Struct(_) => Shape::Struct,
        _ => Shape::Other,
    }
}

/// A member of a struct, with the offset of the next one.
pub fn position_of(member: &Member, next: Option<u32>) -> Position
    ensures { result ≡ position_of member.now next }
{
    Position {
        extent: extent_of(&member.ty),
        size: member.size_attribute,
        align: member.align_attribute,
        offset: member.offset,
        next,
    }
}

/// What the rules see of a type that is no array.
pub fn content_of(kind: TypeKind) -> Content
    ensures { result ≡ content_of kind }
{
    match kind {
        TypeKind::Scalar(Scalar::Bool) | TypeKind::Vector(_, Scalar::Bool) => Content::Bool,
        TypeKind::Atomic(_) => Content::Atomic,
        _ => Content::Other,
    }
}

/// Whether a type is a runtime-sized array, or a struct that ends in one.
pub fn is_runtime_sized(ty: &MeasuredType) -> bool
    ensures { IsTrue result ↔ IsRuntimeSized ty.now.kind ty.now.size }
{
    match ty.kind {
        TypeKind::Array(_, Count::Runtime) => true,
        TypeKind::Struct(_) => ty.size.is_none(),
        _ => false,
    }
}

/// The type inside all arrays. `elements` are the element types of a module, each after those inside it; None if one of
/// them is missing.
pub fn innermost(elements: &[MeasuredType], ty: &MeasuredType) -> Option<MeasuredType>
    ensures { (inner : MeasuredType) → (result ≡ Some inner) ↔ IsInnermost elements.now ty.now inner }
{
    match ty.kind {
        TypeKind::Array(index, _) => {
            let element = elements.get(index)?;
            innermost(&elements[..index], element)
        }
        _ => Some(*ty),
    }
}

/// The stride of the outermost array in a type whose elements lie too close for an address space.
pub fn stride_too_close(
    space: AddressSpace,
    elements: &[MeasuredType],
    ty: &MeasuredType,
) -> Option<u32>
    ensures { IsExactly result (IsOutermostTooClose space elements.now ty.now) }
{
    let TypeKind::Array(index, _) = ty.kind else {
        return None;
    };
    let element = elements.get(index)?;
    match too_close(space, element) {
        Some(stride) => Some(stride),
        None => stride_too_close(space, &elements[..index], element),
    }
}

/// The stride of an array whose elements have this type, if they lie too close for an address space.
fn too_close(space: AddressSpace, element: &MeasuredType) -> Option<u32>
    ensures { IsExactly result (IsTooClose space element.now) }
{
    let stride = element.stride()?;
    if may_lie_apart(space, extent_of(element), stride) {
        None
    } else {
        Some(stride)
    }
}
