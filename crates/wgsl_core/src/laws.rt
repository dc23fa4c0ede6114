// Laws of the rules: each function returns nothing, and its contract is the law.
ghost use Rattle.std.specs.Prelude.{◌≡◌, ◌↔◌, ◌<◌, ℕ, All, IsPermutation, map};
ghost use Rattle.wgsl_syntax.specs.declared.rules.RuleSet.{RuleSet};
ghost use Rattle.wgsl_syntax.specs.declared.scalar.Scalar.{Scalar};
ghost use Rattle.wgsl_rules.specs.types.Types.{scalar, array, vec, mat};
ghost use Rattle.wgsl_rules.specs.conversion.Conversion.{IsValueType};
ghost use Rattle.wgsl_rules.specs.Laws.{ConversionOrder, RanksAdd, TargetsComparable, RankNamesTarget, CommonAnyOrder};
ghost use Rattle.wgsl_rules.specs.layout.Layout.{HasSizeBy};
ghost use Rattle.wgsl_core.specs.View.{view};

use crate::ty::Type;

/// For value types, conversion is a partial order (WGSL, "Conversion Rank").
#[tactic(auto, using(wgsl_rules::proofs::Laws::order))]
pub fn conversion_order(a: &Type, b: &Type, c: &Type)
    ensures { IsValueType (view a.now) → IsValueType (view b.now) → IsValueType (view c.now)
        → ConversionOrder (view a.now) (view b.now) (view c.now) }
{}

/// For value types, ranks add, and only equal types have rank 0.
pub fn rank_adds(a: &Type, b: &Type, c: &Type)
    ensures { IsValueType (view a.now) → IsValueType (view b.now)
        → RanksAdd (view a.now) (view b.now) (view c.now) }
{}

/// Two value types that convert to the same type are comparable.
pub fn targets_comparable(a: &Type, b: &Type, c: &Type)
    ensures { IsValueType (view a.now) → IsValueType (view b.now)
        → TargetsComparable (view a.now) (view b.now) (view c.now) }
{}

/// A value type converts to at most one type with a given rank, and no rank is above 9.
#[tactic(auto, using(wgsl_rules::proofs::Laws::names_target))]
pub fn rank_names_target(a: &Type, b: &Type, c: &Type)
    ensures { IsValueType (view a.now) → RankNamesTarget (view a.now) (view b.now) (view c.now) }
{}

/// A list of value types has the same common type in every order.
#[tactic(auto, using(wgsl_rules::proofs::Laws::any_order))]
pub fn common_any_order(ts: &[Type], us: &[Type])
    ensures { IsPermutation (map view ts.now) (map view us.now) → All IsValueType (map view ts.now)
        → CommonAnyOrder (map view ts.now) (map view us.now) }
{}

/// A matrix of scalars with at least one row has the size of an array of its columns, or both have none (WGSL,
/// "Alignment and Size"), by either set of rules.
pub fn matrix_columns(element: &Type, columns: u8, rows: u8)
    ensures { (rules : RuleSet) (s : Scalar) → view element.now ≡ scalar s → 0 < rows → (n : ℕ)
        → HasSizeBy rules (mat columns rows (view element.now)) n
        ↔ HasSizeBy rules (array (Some columns) (vec rows (view element.now))) n }
{}
