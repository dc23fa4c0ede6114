// What is told of a module: each fault once, in the order of the text.
ghost use Rattle.std.specs.Prelude.{◌≡◌, ◌++◌, Contains, IfOk, IsTrue, map};
ghost use Rattle.wgsl_module.specs.Told.{AreTold, broken};

use std::alloc::{AllocError, Global};
use wgsl_typing::fault::{Fault, Rule};

/// The faults of both lists in the order of the text, without those that are told again, as of a struct that two entry points use.
pub fn in_order(
    alloc: Global,
    faults: Vec<Fault>,
    more: Vec<Fault>,
) -> Result<Vec<Fault>, AllocError>
    ensures { IfOk result (λ all. AreTold (map broken (faults.items ++ more.items)) all.items) }
{
    let mut all = joined(faults, more)?;
    all.sort_unstable_by_key(|fault| fault.place.from);
    distinct(alloc, all)
}

/// The faults of both lists, one behind the other.
pub fn joined(mut faults: Vec<Fault>, more: Vec<Fault>) -> Result<Vec<Fault>, AllocError>
    ensures { IfOk result (λ all. all.items ≡ faults.items ++ more.items) }
{
    for fault in more {
        faults.push(fault)?;
    }
    Ok(faults)
}

/// The faults without those that are told again.
fn distinct(alloc: Global, faults: Vec<Fault>) -> Result<Vec<Fault>, AllocError>
    ensures { IfOk result (λ all. AreTold (map broken faults.items) all.items) }
{
    let mut kept: Vec<Fault> = Vec::with_capacity(alloc, faults.len())?;
    for fault in faults {
        if !is_told(&kept, &fault) {
            kept.push(fault)?;
        }
    }
    Ok(kept)
}

/// Whether one of the last faults, which begin where this one does, says as much.
fn is_told(kept: &[Fault], fault: &Fault) -> bool
    ensures { IsTrue result → Contains (map broken kept.now) (broken fault.now) }
{
    for told in kept.iter().rev() {
        if told.place.from != fault.place.from {
            return false;
        }
        if is_again(told, fault) {
            return true;
        }
    }
    false
}

/// Whether a fault says no more than another one: what can't be used in a stage is told of one entry point.
fn is_again(told: &Fault, fault: &Fault) -> bool
    ensures { IsTrue result → broken told.now ≡ broken fault.now }
{
    told.rule == fault.rule
        && told.place.from == fault.place.from
        && told.place.to == fault.place.to
        && (fault.rule == Rule::Stage || told.message.as_str() == fault.message.as_str())
}
