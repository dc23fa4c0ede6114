// Expressions without a type, of a text of which nothing is told.
ghost use Rattle.std.specs.Prelude.{◌≡◌, [], IfOk, map, true};
ghost use Rattle.wgsl_module.specs.Checked.{AreTyped, are_known, first_faulty, or_untyped};
ghost use Rattle.wgsl_module.specs.Told.{AreTold, broken};

use std::alloc::{AllocError, Global};
use wgsl_typing::fault::{Fault, Place, Rule};
use wgsl_typing::known::{Known, Outcome, Part};

/// If nothing is told, and it is known what each given name stands for, tells the first expression that is faulty: one of an array
/// whose count is a constant that isn't computed. With this, a text without faults has none, whatever the rest of the check does.
#[tactic(auto, using(crate::proofs::Faulty::none_faulty))]
pub fn tell_untyped(
    alloc: Global,
    is_known: bool,
    parts: &[Part],
    faults: &mut Vec<Fault>,
) -> Result<(), AllocError>
    ensures told { IfOk result (λ u. map broken faults.new.items ≡ or_untyped is_known parts.now (map broken faults.old.items)) }
    ensures typed { IfOk result (λ u. is_known ≡ true → faults.new.items ≡ [] → AreTyped parts.now) }
    ensures kept { IfOk result (λ u. AreTold (map broken faults.old.items) faults.new.items) }
{
    if !is_known || !faults.is_empty() {
        return Ok(());
    }
    if let Some(place) = first_faulty(parts) {
        faults.push(Fault {
            rule: Rule::Type,
            place,
            message: String::from_str(alloc, "this expression has no type")?,
            notes: Vec::new(alloc),
        })?;
    }
    Ok(())
}

/// Whether it is known what each of these names stands for.
pub fn are_known(given: &[(&str, Known)]) -> bool
    ensures { result ≡ are_known given.now }
{
    for (_, known) in given {
        if matches!(known, Known::Faulty) {
            return false;
        }
    }
    true
}

/// The place of the first expression that is faulty.
fn first_faulty(parts: &[Part]) -> Option<Place>
    ensures { result ≡ first_faulty parts.now }
{
    for part in parts {
        if matches!(part.outcome, Outcome::Faulty) {
            return Some(part.place);
        }
    }
    None
}
