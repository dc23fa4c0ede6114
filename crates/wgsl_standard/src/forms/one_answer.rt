// Each form has exactly one answer: each function returns nothing, and its contract is the law.
ghost use Rattle.wgsl_standard.specs.forms.OneAnswer.{ArraysHaveOneAnswer, AssignmentsHaveOneAnswer};

/// An assignment writes exactly one type, or has exactly one refusal.
#[tactic(auto, using(crate::proofs::OnlyAnswers::assignments))]
pub fn assignments_have_one_answer()
    ensures { AssignmentsHaveOneAnswer }
{}

/// An array constructor makes exactly one type, or has exactly one refusal.
#[tactic(auto, using(crate::proofs::OnlyAnswers::arrays))]
pub fn arrays_have_one_answer()
    ensures { ArraysHaveOneAnswer }
{}
