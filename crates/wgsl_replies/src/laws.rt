// Laws of replies: each function returns nothing, and its contract is the law.
ghost use Rattle.std.specs.Prelude.{◌≡◌, ℕ, List};
ghost use Rattle.wgsl_requests.specs.Replies.{ReplyText};
ghost use Rattle.wgsl_replies.specs.Replies.{IsReplyTo};
ghost use Rattle.wgsl_syntax.specs.declared.rules.RuleSet.{RuleSet};

/// By a set of rules, the bytes of a request have at most one reply.
#[tactic(auto, using(crate::proofs::OneReply::one_reply))]
pub fn one_reply()
    ensures { (rules : RuleSet) (bytes : List ℕ) (a b : ReplyText)
        → IsReplyTo rules bytes a → IsReplyTo rules bytes b → a ≡ b }
{}
