// Statements that are open, and what is around them.
ghost use Rattle.std.specs.Prelude.{◌≡◌};
ghost use Rattle.wgsl_module.specs.Statements.{broken_off, continued};

use crate::behaviour::Behaviour;

/// What is around a statement.
#[derive(Clone, Copy)]
pub struct Around {
    pub may_break: bool,
    pub may_continue: bool,
    pub in_continuing: bool,
}

/// What is read of statements and isn't yet part of another.
#[derive(Clone, Copy)]
pub enum Frame {
    /// A statement with blocks, by the number of tokens up to its word; what is around it; whether it has a condition.
    Begun(usize, Around, bool),
    /// A block that is open, by what the statements in it do so far.
    Block(Behaviour),
    /// A block that is closed.
    Body(Behaviour),
    /// An `if` with its `else`.
    Choice(Behaviour),
    /// The clauses of a `switch` so far, and whether one of them is its `default`.
    Clauses(Behaviour, bool),
    /// The value behind `return` is read.
    Returned,
}

impl Around {
    /// Around the statements of a function.
    pub const FUNCTION: Around = Around {
        may_break: false,
        may_continue: false,
        in_continuing: false,
    };

    /// What `break;` does here. A wrong one does what `break if` does in a `continuing`, and nothing elsewhere.
    pub fn on_break(self) -> Behaviour
        ensures { result ≡ broken_off self }
    {
        if self.may_break {
            Behaviour::BREAK
        } else if self.in_continuing {
            Behaviour::MAY_BREAK
        } else {
            Behaviour::NEXT
        }
    }

    /// What `continue;` does here. A wrong one does nothing.
    pub fn on_continue(self) -> Behaviour
        ensures { result ≡ continued self }
    {
        if self.may_continue {
            Behaviour::CONTINUE
        } else {
            Behaviour::NEXT
        }
    }
}
