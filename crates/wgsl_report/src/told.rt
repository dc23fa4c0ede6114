// The numbers that reports have for members and variables.

use crate::prelude::*;

/// The stride of an array's elements or of a matrix's columns.
pub fn stride_of(module: &Module, ty: MeasuredType) -> Option<u32> {
    match ty.kind {
        TypeKind::Array(index, _) => module.elements.get(index)?.stride(),
        TypeKind::Matrix(_, _, _) => ty.align,
        _ => None,
    }
}

/// The size of a data type. A runtime-sized array counts as one element.
pub fn data_size(module: &Module, ty: MeasuredType) -> Option<u32> {
    match ty.kind {
        TypeKind::Array(_, Count::Runtime) => stride_of(module, ty),
        TypeKind::Struct(index) => Some(module.structs.get(index)?.size),
        _ => ty.size,
    }
}

/// The offset of the next member, or the end of the struct.
pub fn end_of(structure: &Struct, index: usize) -> u32 {
    match structure.members.get(index.saturating_add(1)) {
        Some(next) => next.offset,
        None => structure.size,
    }
}

/// The bytes between a member and an offset after it, if there are any.
pub fn padding(member: &Member, next: u32) -> Option<u32> {
    let end = member.offset.checked_add(member.size)?;
    match next.checked_sub(end) {
        Some(0) | None => None,
        some => some,
    }
}

/// The minimum binding size of a variable. A runtime-sized array counts as one element.
pub fn min_binding_size(module: &Module, variable: &Variable) -> Option<u32> {
    match variable.space {
        AddressSpace::Uniform | AddressSpace::Storage => data_size(module, variable.ty),
        _ => None,
    }
}
