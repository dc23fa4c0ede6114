// Values that convert to a type.
ghost use Rattle.std.specs.Prelude.{◌≡◌, IfOk, IsOk, Option, Some, None, option_map, if◌then◌else◌};
ghost use Rattle.wgsl_rules.specs.types.Types.{WgslType, within};
ghost use Rattle.wgsl_rules.specs.types.Kinds.{IsLeaf};
ghost use Rattle.wgsl_core.specs.View.{view};
ghost use Rattle.wgsl_core.specs.Converted.{converted, NeedsNoMemory};

use crate::conversion::typed::Ty;
use crate::ty::Type;
use crate::ty::build::within;
use std::alloc::{AllocError, Global};
use wgsl_syntax::layer::Layer;

/// A value that can be converted to a type (WGSL, "Conversion Rank").
pub trait Convert: Sized + Ty {
    /// A value as contracts see it, without memory.
    ghost Shown: { Type 0 };

    ghost shown: { Self → Shown };

    ghost to: { Self → WgslType → Option Shown };

    ghost inner_to: { Self → WgslType → Option Shown };

    ghost concrete: { Self → Option Shown };

    /// The value converted to a type; None if it doesn't convert.
    fn convert_to(&self, alloc: Global, ty: &Type) -> Result<Option<Self>, AllocError>
        ensures value { IfOk result (λ y. option_map shown y ≡ to self.now (view ty.now)) };

    /// The value with the elements of an array, a vector or a matrix converted to a type; None if they don't convert.
    /// Any other value is converted as a whole, as by `convert_to`.
    fn convert_inner_to(&self, alloc: Global, ty: &Type) -> Result<Option<Self>, AllocError>
        ensures value { IfOk result (λ y. option_map shown y ≡ inner_to self.now (view ty.now)) };

    /// The value converted to the concrete type for its type; None if it doesn't convert.
    fn concretize(&self, alloc: Global) -> Result<Option<Self>, AllocError>
        ensures value { IfOk result (λ y. option_map shown y ≡ concrete self.now) };

    /// A value that is converted to a type has that type.
    ghost to_has_type: { (x : Self) (t : WgslType) (y : Self) → to x t ≡ Some (shown y)
        → Self.Ty.type_of y ≡ t };
}

impl Convert for Type {
    ghost use Rattle.std.specs.Prelude.{Some};
    ghost use Rattle.wgsl_rules.specs.types.Types.{WgslType};
    ghost use Rattle.wgsl_rules.specs.conversion.Concrete.{concretized};
    ghost use Rattle.wgsl_core.specs.View.{view};
    ghost use Rattle.wgsl_core.specs.Converted.{converted, inner_converted, converted_has_type};

    ghost Shown = { WgslType };

    ghost shown = { view };

    ghost to = { λ t u. converted (view t) u };

    ghost inner_to = { λ t u. inner_converted (view t) u };

    ghost concrete = { λ t. Some (concretized (view t)) };

    ghost to_has_type = { converted_has_type };

    #[tactic(auto, using(crate::proofs::Converted::converted_some, crate::proofs::Converted::converted_none))]
    fn convert_to(&self, alloc: Global, ty: &Type) -> Result<Option<Type>, AllocError>
        ensures value { IfOk result (λ y. option_map view y
            ≡ converted (view self.now) (view ty.now)) }
        ensures never_out_of_memory { NeedsNoMemory (converted (view self.now) (view ty.now))
            → IsOk result }
    {
        copy_if(alloc, self.is_convertible_to(ty), ty)
    }

    fn convert_inner_to(&self, alloc: Global, ty: &Type) -> Result<Option<Type>, AllocError>
        ensures value { IfOk result (λ y. option_map view y
            ≡ inner_converted (view self.now) (view ty.now)) }
        ensures never_out_of_memory { NeedsNoMemory (inner_converted (view self.now) (view ty.now))
            → IsOk result }
    {
        match self.layer() {
            Some((layer, element)) => around_converted(alloc, layer, element, ty),
            None => self.convert_to(alloc, ty),
        }
    }

    fn concretize(&self, alloc: Global) -> Result<Option<Type>, AllocError>
        ensures value { IfOk result (λ y. option_map view y ≡ Some (concretized (view self.now))) }
        ensures never_out_of_memory { IsLeaf (view self.now) → IsOk result }
    {
        Ok(Some(Type::concretize(self, alloc)?))
    }
}

fn copy_if(alloc: Global, holds: bool, ty: &Type) -> Result<Option<Type>, AllocError>
    ensures value { IfOk result (λ y. option_map view y
        ≡ (if holds then Some (view ty.now) else None)) }
    ensures never_out_of_memory { NeedsNoMemory (if holds then Some (view ty.now) else None)
        → IsOk result }
{
    if holds {
        Ok(Some(ty.clone(alloc)?))
    } else {
        Ok(None)
    }
}

fn around_converted(
    alloc: Global,
    layer: Layer,
    element: &Type,
    ty: &Type,
) -> Result<Option<Type>, AllocError>
    ensures value { IfOk result (λ y. option_map view y
        ≡ option_map (λ t. within layer t) (converted (view element.now) (view ty.now))) }
    ensures never_out_of_memory { NeedsNoMemory
        (option_map (λ t. within layer t) (converted (view element.now) (view ty.now)))
        → IsOk result }
{
    match element.convert_to(alloc, ty)? {
        Some(converted) => Ok(Some(within(alloc, layer, converted)?)),
        None => Ok(None),
    }
}
