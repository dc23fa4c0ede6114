// Laws of spellings: each function returns nothing, and its contract is the law.
ghost use Rattle.std.specs.Prelude.{◌≡◌, ◌≤◌, List, Option, Some, ℕ};
ghost use Rattle.wgsl_syntax.specs.declared.rules.RuleSet.{RuleSet};
ghost use Rattle.wgsl_rules.specs.types.Spelling.{spelling_by};
ghost use Rattle.wgsl_rules.specs.types.Types.{WgslType};
ghost use Rattle.wgsl_spelling.specs.Spelled.{Spells};
ghost use Rattle.wgsl_spelling.specs.Written.{IsWritable, layers};

/// The text that a type without a struct prints spells that type, by WGSL's names and by naga's. Vectors and matrices have sides
/// of two to four, counts have 63 bits, and there are at most 255 layers: no other type is spelled.
#[tactic(auto, using(crate::proofs::Printed::printed_spells))]
pub fn spelled_as_printed()
    ensures { (rules : RuleSet) (t : WgslType) → IsWritable t → layers t ≤ 255 → Spells (spelling_by rules t) (Some t) }
{}

/// A text spells one type, or none.
#[tactic(auto, using(crate::proofs::OneSpelled::one_spelled))]
pub fn one_spelled()
    ensures { (text : List ℕ) (t u : Option WgslType) → Spells text t → Spells text u → t ≡ u }
{}
