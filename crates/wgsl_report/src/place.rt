// Address spaces, as the rules for variables tell them apart.

use crate::prelude::*;

/// The address space of a variable. `storage` counts as two: read-only and writable.
#[derive(Clone, Copy, PartialEq, Eq)]
pub enum Place {
    Uniform,
    /// `storage` that can't be written.
    ReadStorage,
    Storage,
    Workgroup,
    Private,
    Immediate,
    /// Samplers and textures.
    Handle,
}

impl Place {
    /// All of them.
    pub const ALL: [Place; 7] = [
        Place::Uniform,
        Place::ReadStorage,
        Place::Storage,
        Place::Workgroup,
        Place::Private,
        Place::Immediate,
        Place::Handle,
    ];

    /// The place of a variable.
    pub fn of(variable: &Variable) -> Place {
        match variable.space {
            AddressSpace::Uniform => Place::Uniform,
            AddressSpace::Storage if variable.access == AccessMode::Read => Place::ReadStorage,
            AddressSpace::Storage => Place::Storage,
            AddressSpace::Workgroup => Place::Workgroup,
            AddressSpace::Private | AddressSpace::Function => Place::Private,
            AddressSpace::PushConstant => Place::Immediate,
            AddressSpace::Handle => Place::Handle,
        }
    }

    /// How the address space is written.
    pub fn text(self) -> &'static str {
        match self {
            Place::Uniform => "uniform",
            Place::ReadStorage => "storage, read",
            Place::Storage => "storage, read_write",
            Place::Workgroup => "workgroup",
            Place::Private => "private",
            Place::Immediate => "immediate",
            Place::Handle => "handle",
        }
    }

    /// Its address space.
    pub fn space(self) -> AddressSpace {
        match self {
            Place::Uniform => AddressSpace::Uniform,
            Place::ReadStorage | Place::Storage => AddressSpace::Storage,
            Place::Workgroup => AddressSpace::Workgroup,
            Place::Private => AddressSpace::Private,
            Place::Immediate => AddressSpace::PushConstant,
            Place::Handle => AddressSpace::Handle,
        }
    }

    /// The access mode of its variables.
    pub fn access(self) -> AccessMode {
        match self {
            Place::Uniform | Place::ReadStorage | Place::Immediate | Place::Handle => {
                AccessMode::Read
            }
            Place::Storage | Place::Workgroup | Place::Private => AccessMode::ReadWrite,
        }
    }

    /// Whether its variables may have a runtime-sized array.
    pub fn takes_runtime_sized(self) -> bool {
        matches!(self, Place::Storage | Place::ReadStorage)
    }

    /// Whether its variables have a group and a binding.
    pub fn is_bound(self) -> bool {
        !matches!(self, Place::Workgroup | Place::Private | Place::Immediate)
    }
}
