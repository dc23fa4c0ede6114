// What stands around one other type.

use crate::address::{AccessMode, AddressSpace};

/// What stands around one other type.
#[derive(Clone, Copy)]
pub enum Around {
    /// The number of elements; None if the array is runtime-sized.
    Array(Option<usize>),
    /// The number of components.
    Vec(u8),
    /// The number of columns, and the number of rows.
    Mat(u8, u8),
    /// The number of elements; None if the binding array is runtime-sized.
    BindingArray(Option<usize>),
    Atomic,
    Ptr(AddressSpace, AccessMode),
    Ref(AddressSpace, AccessMode),
}
