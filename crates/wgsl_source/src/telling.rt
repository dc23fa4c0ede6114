// How faults are recorded.
ghost use Rattle.std.specs.Prelude.{◌≢◌, [], OnOk};
ghost use Rattle.wgsl_source.specs.internal.Others.{Tells};

use crate::fault::{Cause, Fault, Stop};
use std::alloc::AllocError;

/// Records the fault at which reading stopped.
pub fn tell(faults: &mut Vec<Fault>, read: Result<(), Stop>) -> Result<(), AllocError>
    ensures { OnOk result (Tells read faults.old.items faults.new.items) }
{
    match read {
        Ok(()) => Ok(()),
        Err(Stop::Memory(e)) => Err(e),
        Err(Stop::Fault(fault)) => Ok(faults.push(fault)?),
        Err(Stop::Elsewhere(at)) => tell_elsewhere(faults, at),
    }
}

/// A declaration that is used at an index of the text isn't read: it has a fault that is recorded, or contains the one that
/// uses it.
fn tell_elsewhere(faults: &mut Vec<Fault>, at: usize) -> Result<(), AllocError>
    ensures { OnOk result (faults.new.items ≢ []) }
{
    if !faults.is_empty() {
        return Ok(());
    }
    let cause = Cause::ContainsItself;
    Ok(faults.push(Fault { at, cause })?)
}

/// Sorts faults, each of which stays once.
pub fn sort(faults: &mut Vec<Fault>)
    ensures { faults.old.items ≢ [] → faults.new.items ≢ [] }
{
    faults.sort_unstable_by_key(|fault| fault.at);
    faults.dedup();
}
