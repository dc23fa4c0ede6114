// The common type of a list of types.
ghost use Rattle.std.specs.Prelude.{◌≡◌, List, [], ◌⊎◌, IsSome, map, option_map};
ghost use Rattle.std.specs.Borrow.{Bor};
ghost use Rattle.std.specs.Iterator.{DrainsIf, IsFiniteIterable};
ghost use Rattle.wgsl_rules.specs.conversion.Common.{IsLeftCommon};
ghost use Rattle.wgsl_rules.specs.conversion.Lists.{IsCommonOfGiven};
ghost use Rattle.wgsl_core.specs.View.{view};
ghost use Rattle.wgsl_core.specs.declared.ty.Type.{«Type»};

use crate::conversion::convert_ty;
use crate::ty::Type;

/// The common type of the iterator's types, from left to right (WGSL, "Overload Resolution"). None if there are no
/// types, or as soon as there is no common type; the rest isn't read then.
pub fn convert_all_ty<'a, I: IntoIterator<Item = &'a Type>>(types: I) -> Option<&'a Type>
where
    I: Drop,
    I::IntoIter: Drop,
    requires { IsFiniteIterable I.into_iter_gives I.IntoIter.can_next I.IntoIter.remaining types }
    ensures { (it : I.IntoIter) × (given : List (Bor «Type»)) × I.into_iter_gives types it
        × DrainsIf I.IntoIter.next_gives (IsSome result ⊎ (given ≡ [])) it given
        × IsCommonOfGiven (map (λ t. view t.now) given) (option_map (λ t. view t.now) result) }
{
    let mut rest = types.into_iter();
    let mut common = rest.next()?;
    for t in rest {
        common = convert_ty(common, t)?;
    }
    Some(common)
}

/// The common type of the types in a slice.
pub fn common_of(types: &[Type]) -> Option<&Type>
    ensures { IsLeftCommon (map view types.now) (option_map (λ t. view t.now) result) }
{
    convert_all_ty(types)
}
