// Where types may stand.

use crate::fault::Cause;
use crate::measured::{Count, MeasuredType, TypeKind};

/// Why a type has no fixed size, and so can't be the type of an element, if it has none.
pub fn element_fault(ty: &MeasuredType) -> Option<Cause> {
    match (ty.kind, ty.size, ty.align) {
        (_, Some(_), Some(_)) => None,
        (TypeKind::Array(_, Count::Override), _, _) => Some(Cause::KnownLater),
        (TypeKind::Array(_, _) | TypeKind::Struct(_), _, _) => Some(Cause::RuntimeSized),
        _ => Some(Cause::NotPlain),
    }
}

/// What is wrong with the type of a member, which may have an attribute `size`.
pub fn member_fault(ty: &MeasuredType, size: Option<u32>) -> Option<Cause> {
    match (size, ty.size) {
        (Some(_), _) if ty.is_runtime_sized_array() => Some(Cause::SizedRuntimeArray),
        (None, _) if ty.is_runtime_sized_array() => None,
        (Some(size), Some(least)) if size < least => Some(Cause::SizeTooSmall),
        _ => element_fault(ty),
    }
}
