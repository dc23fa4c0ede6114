// What types may contain in an address space.
ghost use Rattle.std.specs.Prelude.{◌↔◌, IsTrue};
ghost use Rattle.wgsl_report.specs.spaces.Spaces.{IsShared, MayBeInnermost, MayHold, TakesAtomics};

use crate::prelude::*;

/// What the rules see of the type that is innermost in arrays, vectors and structs.
#[derive(Clone, Copy)]
pub enum Content {
    Bool,
    Atomic,
    Other,
}

/// Whether memory of an address space is shared with the host.
fn is_shared(space: AddressSpace) -> bool
    ensures { IsTrue result ↔ IsShared space }
{
    matches!(
        space,
        AddressSpace::Uniform | AddressSpace::Storage | AddressSpace::PushConstant
    )
}

/// Whether an address space allows atomics with this access mode.
fn takes_atomics(space: AddressSpace, access: AccessMode) -> bool
    ensures { IsTrue result ↔ TakesAtomics space access }
{
    match space {
        AddressSpace::Workgroup => true,
        AddressSpace::Storage => access == AccessMode::ReadWrite,
        _ => false,
    }
}

/// Whether a variable of an address space, or a member of a struct there, may have a type of this shape.
pub fn may_hold(space: AddressSpace, shape: Shape) -> bool
    ensures { IsTrue result ↔ MayHold space shape }
{
    match (space, shape) {
        (AddressSpace::PushConstant, Shape::Array) => false,
        _ => true,
    }
}

/// Whether an address space with this access mode allows a type inside all arrays, vectors and structs.
pub fn may_be_innermost(space: AddressSpace, access: AccessMode, content: Content) -> bool
    ensures { IsTrue result ↔ MayBeInnermost space access content }
{
    match content {
        Content::Bool => !is_shared(space),
        Content::Atomic => takes_atomics(space, access),
        Content::Other => true,
    }
}
