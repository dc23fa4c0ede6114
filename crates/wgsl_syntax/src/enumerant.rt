// The predeclared enumerants.
ghost use Rattle.wgsl_syntax.specs.Enumerant.{enumerant_text};
ghost use Rattle.wgsl_syntax.specs.Names.{ReadsBut};

use crate::address::{AccessMode, AddressSpace};
use crate::attribute::AccelerationStructureFlags;
use crate::texel::TexelFormat;
use std::str::FromStr;

/// A predeclared enumerant (WGSL, "Predeclared Enumerants").
#[derive(Clone, Copy, PartialEq, Eq, Hash, Debug)]
pub enum Enumerant {
    /// An access mode.
    AccessMode(AccessMode),
    /// An address space.
    AddressSpace(AddressSpace),
    /// A texel format.
    TexelFormat(TexelFormat),
    /// A flag of naga's acceleration structures.
    AccelerationStructureFlags(AccelerationStructureFlags),
}

impl FromStr for Enumerant {
    ghost use Rattle.wgsl_syntax.specs.declared.address.AddressSpace.TheVariants.{Handle};
    ghost use Rattle.wgsl_syntax.specs.declared.enumerant.Enumerant.TheVariants.{AddressSpace};

    type Err = ();

    ghost from_str_gives = { ReadsBut (AddressSpace Handle) enumerant_text };

    fn from_str(s: &str) -> Result<Enumerant, ()> {
        if let Ok(access) = AccessMode::from_str(s) {
            return Ok(Enumerant::AccessMode(access));
        }
        if let Ok(space) = AddressSpace::from_str(s) {
            return Ok(Enumerant::AddressSpace(space));
        }
        if let Ok(format) = TexelFormat::from_str(s) {
            return Ok(Enumerant::TexelFormat(format));
        }
        let flag = AccelerationStructureFlags::from_str(s)?;
        Ok(Enumerant::AccelerationStructureFlags(flag))
    }
}
