// Laws of forms: each function returns nothing, and its contract is the law.
ghost use Rattle.wgsl_core.specs.View.{view};
ghost use Rattle.wgsl_standard.specs.forms.Laws.{AddressesInvert, MakesConcrete, PointersCompose, SwizzlesLoad};
ghost use Rattle.wgsl_standard.specs.forms.Views.{given};

use crate::forms::prelude::*;

/// A pointer and the reference to the same memory have the same members and elements (WGSL, "Memory View Expressions").
#[tactic(auto, using(crate::proofs::Composition::compose))]
pub fn pointers_compose(
    space: AddressSpace,
    store: &Type,
    access: AccessMode,
    name: &str,
    index: &Operand<'_>,
)
    ensures { PointersCompose space (view store.now) access name.now (given index.now) }
{}

/// The address of a reference leads back to it.
#[tactic(auto, using(crate::proofs::Composition::invert))]
pub fn addresses_invert(ty: &Type)
    ensures { AddressesInvert (view ty.now) }
{}

/// A swizzle of a reference loads as the type that is shown of it.
pub fn swizzles_load(x: &Operand<'_>, name: &str)
    ensures { SwizzlesLoad (given x.now) name.now }
{}

/// A type that is made concrete has no abstract type in it, and a type without one stays as it is (WGSL, "Abstract
/// Numeric Types").
pub fn makes_concrete(ty: &Type)
    ensures { MakesConcrete (view ty.now) }
{}
