// Laws of the requests: each function returns nothing, and its contract is the law.
ghost use Rattle.std.specs.Prelude.{◌≡◌, ℕ, List};
ghost use Rattle.wgsl_requests.specs.Requests.{WgslRequest};
ghost use Rattle.wgsl_requests.specs.Replies.{IsAnswer};
ghost use Rattle.wgsl_requests.specs.declared.reply.TextKind.{TextKind};

/// At most one text, of one kind, answers a request.
pub fn one_text()
    ensures { (request : WgslRequest) (k l : TextKind) (a b : List ℕ)
        → IsAnswer request k a → IsAnswer request l b → (k ≡ l) × (a ≡ b) }
{}
