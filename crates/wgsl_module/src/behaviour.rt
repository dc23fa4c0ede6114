// Where control goes on from a statement.
ghost use Rattle.std.specs.Prelude.{◌≡◌};
ghost use Rattle.wgsl_module.specs.Behaviours.{continued_by, either, followed_by, looped, never_ends, switched};

/// Where control goes on from a statement (WGSL, "Behaviors").
#[derive(Clone, Copy, PartialEq, Eq)]
pub struct Behaviour {
    /// To the next statement.
    pub next: bool,
    pub breaks: bool,
    pub continues: bool,
    pub returns: bool,
}

impl Behaviour {
    /// Of `x = 1;` and `{ }`.
    pub const NEXT: Behaviour = Behaviour {
        next: true,
        ..Behaviour::NOWHERE
    };
    /// Of a `switch` without clauses.
    pub const NOWHERE: Behaviour = Behaviour {
        next: false,
        breaks: false,
        continues: false,
        returns: false,
    };

    pub const BREAK: Behaviour = Behaviour {
        breaks: true,
        ..Behaviour::NOWHERE
    };

    pub const CONTINUE: Behaviour = Behaviour {
        continues: true,
        ..Behaviour::NOWHERE
    };

    pub const RETURN: Behaviour = Behaviour {
        returns: true,
        ..Behaviour::NOWHERE
    };
    /// Of `break if c;`.
    pub const MAY_BREAK: Behaviour = Behaviour {
        next: true,
        breaks: true,
        ..Behaviour::NOWHERE
    };

    /// Of `if c { } else { }`.
    pub fn or(self, other: Behaviour) -> Behaviour
        ensures { result ≡ either self other }
    {
        Behaviour {
            next: self.next || other.next,
            breaks: self.breaks || other.breaks,
            continues: self.continues || other.continues,
            returns: self.returns || other.returns,
        }
    }

    /// Of one statement behind another. What can't be reached changes nothing.
    pub fn followed_by(self, other: Behaviour) -> Behaviour
        ensures { result ≡ followed_by self other }
    {
        if self.next {
            Behaviour {
                next: false,
                ..self
            }
            .or(other)
        } else {
            self
        }
    }

    /// Of the body of a loop with its `continuing`.
    pub fn continued_by(self, last: Behaviour) -> Behaviour
        ensures { result ≡ continued_by self last }
    {
        if self.next || self.continues {
            self.or(last)
        } else {
            self
        }
    }

    /// Of a loop with this body, which may end by its condition or not.
    pub fn looped(self, has_condition: bool) -> Behaviour
        ensures { result ≡ looped has_condition self }
    {
        Behaviour {
            next: has_condition || self.breaks,
            returns: self.returns,
            ..Behaviour::NOWHERE
        }
    }

    /// Of a `switch` whose clauses do this.
    pub fn switched(self) -> Behaviour
        ensures { result ≡ switched self }
    {
        Behaviour {
            next: self.next || self.breaks,
            breaks: false,
            ..self
        }
    }

    /// Whether no way leads on.
    pub fn never_ends(self) -> bool
        ensures { result ≡ never_ends self }
    {
        !self.next && !self.returns
    }
}
