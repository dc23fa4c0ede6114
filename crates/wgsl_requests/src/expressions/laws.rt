// Laws of what is read: each function returns nothing, and its contract is the law.
ghost use Rattle.std.specs.Prelude.{◌≡◌, ℕ, List, Option};
ghost use Rattle.wgsl_requests.specs.Replies.{ReplyText};
ghost use Rattle.wgsl_requests.specs.expressions.Outcomes.{Outcome};
ghost use Rattle.wgsl_requests.specs.expressions.Typing.{IsStandardReply, IsTyped};
ghost use Rattle.wgsl_requests.specs.expressions.Source.{Scope};

/// With the names of a scope, a text is at most one expression, with a type or a first part that has none.
pub fn one_outcome()
    ensures { (scope : Scope) (text : List ℕ) (r s : Option Outcome) → IsTyped scope text r → IsTyped scope text s → r ≡ s }
{}

/// By WGSL's own rules, a line has at most one reply.
pub fn one_reply()
    ensures { (line : List ℕ) (a b : ReplyText) → IsStandardReply line a → IsStandardReply line b → a ≡ b }
{}
