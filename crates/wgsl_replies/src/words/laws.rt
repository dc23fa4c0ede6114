// Laws of the words: each function returns nothing, and its contract is the law.
ghost use Rattle.std.specs.Prelude.{◌≡◌, ℕ, List, Some};
ghost use Rattle.wgsl_replies.specs.words.Prelude.{ReplyText, WgslRequest, WgslType};
ghost use Rattle.wgsl_replies.specs.words.Requests.{IsReplyToLine, request_of};
ghost use Rattle.wgsl_replies.specs.words.Types.{type_at};

/// Words spell at most one request.
pub fn one_request()
    ensures { (words : List (List ℕ)) (a b : WgslRequest)
        → request_of words ≡ Some a → request_of words ≡ Some b → a ≡ b }
{}

/// Words begin with at most one type.
pub fn one_type()
    ensures { (words rest others : List (List ℕ)) (t u : WgslType) → type_at words ≡ Some (t, rest)
        → type_at words ≡ Some (u, others) → (t ≡ u) × (rest ≡ others) }
{}

/// A line has at most one reply.
#[tactic(auto, using(crate::proofs::OneReplyToWords::one_line_reply))]
pub fn one_reply()
    ensures { (bytes : List ℕ) (a b : ReplyText)
        → IsReplyToLine bytes a → IsReplyToLine bytes b → a ≡ b }
{}
