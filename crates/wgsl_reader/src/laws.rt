// Laws of the grammar.
ghost use Rattle.std.specs.Prelude.{◌≡◌, ℕ, IsTrue, List, is_some};
ghost use Rattle.wgsl_reader.specs.Grammar.{lines_of};
ghost use Rattle.wgsl_reader.specs.Reading.{Outcome, ReadAt};
ghost use Rattle.wgsl_reader.specs.declared.kind.Kind.{Kind};
ghost use Rattle.wgsl_reader.specs.declared.grammar.Symbol.{Symbol};
ghost use Rattle.wgsl_reader.specs.declared.rule.Rule.{Rule as AnyRule};

/// By each rule tokens have exactly one outcome.
#[tactic(auto, using(crate::proofs::OneOutcome::one_outcome, crate::proofs::SomeOutcome::some_outcome))]
pub fn one_outcome()
    ensures some { (symbols : List Symbol) (at : ℕ) (kinds : List Kind) → (r : Outcome) × ReadAt symbols at kinds r }
    ensures one { (symbols : List Symbol) (at : ℕ) (kinds : List Kind) (r s : Outcome) → ReadAt symbols at kinds r → ReadAt symbols at kinds s → r ≡ s }
{}

/// Each rule has lines.
#[tactic(auto, using(crate::proofs::HasLines::has_lines))]
pub fn rules_have_lines()
    ensures { (rule : AnyRule) → IsTrue (is_some (lines_of rule)) }
{}
