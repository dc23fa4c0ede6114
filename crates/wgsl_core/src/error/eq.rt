// Equality of refusals.
ghost use Rattle.std.specs.Prelude.{◌≡◌, ◌↔◌, IsTrue};
ghost use Rattle.wgsl_core.specs.Answer.{refusal};

use crate::error::Error;

impl PartialEq for Error {
    ghost use Rattle.std.specs.Ordering.{on};
    ghost use Rattle.wgsl_core.specs.Answer.{refusal};
    ghost use Rattle.wgsl_core.specs.RefusalEquality.{refusal_eq, refusal_partial_equivalence};

    ghost eq = { on refusal refusal_eq };

    ghost laws = { refusal_partial_equivalence };

    #[tactic(auto, using(crate::specs::RefusalEquality::refusal_eq_decides))]
    fn eq(&self, other: &Error) -> bool
        ensures value { result ≡ on refusal refusal_eq self.now other.now }
        ensures same { IsTrue result ↔ (refusal self.now ≡ refusal other.now) }
    {
        same_error(self, other)
    }
}

fn same_error(error: &Error, other: &Error) -> bool
    ensures { IsTrue result ↔ (refusal error.now ≡ refusal other.now) }
{
    error.fields() == other.fields()
}
