// Every request has exactly one answer: each function returns nothing, and its contract is the law.
ghost use Rattle.std.specs.Prelude.{◌≡◌, ℕ, Bool, List, Option};
ghost use Rattle.wgsl_requests.specs.Answers.{Answers, WgslAnswer};
ghost use Rattle.wgsl_requests.specs.Requests.{WgslRequest};
ghost use Rattle.wgsl_lines.specs.Output.{Prints};
ghost use Rattle.wgsl_requests.specs.Replies.{ReplyText};
ghost use Rattle.wgsl_requests.specs.expressions.Outcomes.{Outcome};
ghost use Rattle.wgsl_requests.specs.expressions.Source.{Scope};
ghost use Rattle.wgsl_requests.specs.expressions.Typing.{IsTyped};
ghost use Rattle.wgsl_replies.specs.Replies.{IsReplyTo};
ghost use Rattle.wgsl_syntax.specs.declared.rules.RuleSet.{RuleSet};

/// Every request has an answer, whatever types it names.
#[tactic(auto, using(crate::proofs::Answered::some_answer))]
pub fn every_request_has_an_answer()
    ensures { (request : WgslRequest) → (a : WgslAnswer) × Answers request a }
{}

/// A request has at most one answer.
pub fn no_request_has_two_answers()
    ensures { (request : WgslRequest) (a b : WgslAnswer)
        → Answers request a → Answers request b → a ≡ b }
{}

/// With the names of a scope, a text has exactly one outcome: it is no expression, or one that has a type or a first part
/// without one.
#[tactic(auto, using(crate::proofs::Answered::only_outcome))]
pub fn every_text_has_one_outcome()
    ensures { (scope : Scope) (text : List ℕ) → (r : Option Outcome) × IsTyped scope text r
        × ((other : Option Outcome) → IsTyped scope text other → other ≡ r) }
{}

/// The bytes of a request have exactly one reply, by either set of rules.
#[tactic(auto, using(crate::proofs::Answered::only_reply))]
pub fn every_text_has_one_reply()
    ensures { (rules : RuleSet) (bytes : List ℕ) → (reply : ReplyText) × IsReplyTo rules bytes reply
        × ((other : ReplyText) → IsReplyTo rules bytes other → other ≡ reply) }
{}

/// An input prints exactly one text, with one answer to whether every line is readable.
#[tactic(auto, using(crate::proofs::Answered::only_text))]
pub fn every_input_prints_one_text()
    ensures { (rules : RuleSet) (input : List ℕ) → (text : List ℕ) × (readable : Bool)
        × Prints rules input text readable
        × ((other : List ℕ) (all : Bool) → Prints rules input other all
        → (other ≡ text) × (all ≡ readable)) }
{}
