// Where control goes on from the statements that are open (WGSL, "Behaviors").
ghost use Rattle.std.specs.Prelude.{◌≡◌, [], ◌∷◌, IfOk};
ghost use Rattle.wgsl_module.specs.Flow.{are_none, begun_on, below, block_on, body_on, clauses_on, ended, first, if_on, is_block, is_returned, opened, statements, with_body, with_condition, with_continuing, with_else, without_returned};
ghost use Rattle.wgsl_module.specs.Statements.{switch_opened, with_clause, with_default};

use crate::behaviour::Behaviour;
use crate::frame::{Around, Frame};
use std::alloc::{AllocError, Global};
use wgsl_reader::kind::Kind;

/// Statements that are open, the innermost last.
#[derive(Drop)]
pub struct Flow {
    frames: Vec<Frame>,
}

impl Flow {
    /// No statement is open.
    pub fn none(alloc: Global) -> Flow
        ensures { statements result ≡ [] }
    {
        Flow {
            frames: Vec::new(alloc),
        }
    }

    pub fn is_empty(&self) -> bool
        ensures { result ≡ are_none (statements self.now) }
    {
        self.frames.is_empty()
    }

    pub fn clear(&mut self)
        ensures { statements self.new ≡ [] }
    {
        self.frames.clear();
    }

    pub fn push(&mut self, frame: Frame) -> Result<(), AllocError>
        ensures { IfOk result (λ u. statements self.new ≡ frame ∷ statements self.old) }
    {
        self.frames.push(frame)?;
        Ok(())
    }

    /// Takes the innermost.
    pub fn pop(&mut self) -> Option<Frame>
        ensures frame { result ≡ first (statements self.old) }
        ensures rest { statements self.new ≡ below (statements self.old) }
    {
        self.frames.pop()
    }

    /// A statement is read: what it does, the block around it does too. In front of a `for`'s body it does nothing.
    pub fn end(&mut self, behaviour: Behaviour) -> Result<(), AllocError>
        ensures { IfOk result (λ u. statements self.new ≡ ended behaviour (statements self.old)) }
    {
        match self.frames.pop() {
            Some(Frame::Block(before)) => self.push(Frame::Block(before.followed_by(behaviour))),
            Some(Frame::Body(body)) => {
                self.push(Frame::Body(body))?;
                self.push(Frame::Body(behaviour))
            }
            Some(other) => self.push(other),
            None => Ok(()),
        }
    }

    /// Takes the body on top.
    pub fn take_body(&mut self) -> Behaviour
        ensures behaviour { result ≡ body_on (statements self.old) }
        ensures rest { statements self.new ≡ below (statements self.old) }
    {
        match self.frames.pop() {
            Some(Frame::Body(behaviour)) => behaviour,
            _ => Behaviour::NEXT,
        }
    }

    /// `else { }`, `else if`: both ways.
    pub fn close_else(&mut self) -> Result<(), AllocError>
        ensures { IfOk result (λ u. statements self.new ≡ with_else (statements self.old)) }
    {
        let second = self.take_body();
        let first = self.take_body();
        self.push(Frame::Choice(first.or(second)))
    }

    /// The value behind `switch` is read: it has no clause yet.
    pub fn open_switch(&mut self) -> Result<(), AllocError>
        ensures { IfOk result (λ u. statements self.new ≡ switch_opened (statements self.old)) }
    {
        self.push(Frame::Clauses(Behaviour::NOWHERE, false))
    }

    /// Takes the clauses of a `switch`, and whether one of them is its `default`.
    pub fn take_clauses(&mut self) -> (Behaviour, bool)
        ensures clauses { result ≡ clauses_on (statements self.old) }
        ensures rest { statements self.new ≡ below (statements self.old) }
    {
        match self.frames.pop() {
            Some(Frame::Clauses(behaviour, has_default)) => (behaviour, has_default),
            _ => (Behaviour::NOWHERE, false),
        }
    }

    /// `case 1 { }`, `default { }`: what any of the clauses does.
    pub fn close_clause(&mut self) -> Result<(), AllocError>
        ensures { IfOk result (λ u. statements self.new ≡ with_clause (statements self.old)) }
    {
        let body = self.take_body();
        let (behaviour, has_default) = self.take_clauses();
        self.push(Frame::Clauses(behaviour.or(body), has_default))
    }

    /// `default` of a `switch`. Returns whether it has one already.
    pub fn put_default(&mut self) -> Result<bool, AllocError>
        ensures { IfOk result (λ has. (has ≡ (clauses_on (statements self.old)).1) × (statements self.new ≡ with_default (statements self.old))) }
    {
        match self.frames.pop() {
            Some(Frame::Clauses(behaviour, has_default)) => {
                self.push(Frame::Clauses(behaviour, true))?;
                Ok(has_default)
            }
            Some(other) => {
                self.push(other)?;
                Ok(false)
            }
            None => Ok(false),
        }
    }

    /// What an `if` does; without `else` it may go on.
    pub fn take_if(&mut self) -> Behaviour
        ensures behaviour { result ≡ if_on (statements self.old) }
        ensures rest { statements self.new ≡ below (statements self.old) }
    {
        match self.frames.pop() {
            Some(Frame::Choice(behaviour)) => behaviour,
            Some(Frame::Body(behaviour)) => behaviour.or(Behaviour::NEXT),
            _ => Behaviour::NEXT,
        }
    }

    /// Whether the innermost is a block.
    pub fn is_in_block(&self) -> bool
        ensures { result ≡ is_block (statements self.now) }
    {
        matches!(self.frames.last(), Some(Frame::Block(_)))
    }

    /// The `{` of a block, and not the `(` of a call.
    pub fn open_block(&mut self, bracket: Kind) -> Result<(), AllocError>
        ensures { IfOk result (λ u. statements self.new ≡ opened bracket (statements self.old)) }
    {
        match bracket {
            Kind::OpenCurly => self.push(Frame::Block(Behaviour::NEXT)),
            _ => Ok(()),
        }
    }

    /// Takes the block that is closed: what the statements in it do.
    pub fn take_block(&mut self) -> Option<Behaviour>
        ensures behaviour { result ≡ block_on (statements self.old) }
        ensures rest { statements self.new ≡ below (statements self.old) }
    {
        match self.frames.pop() {
            Some(Frame::Block(behaviour)) => Some(behaviour),
            _ => None,
        }
    }

    /// A block that is closed is a statement of the block around it, or the body of what is open.
    pub fn put_body(&mut self, behaviour: Behaviour) -> Result<(), AllocError>
        ensures { IfOk result (λ u. statements self.new ≡ with_body behaviour (statements self.old)) }
    {
        if self.is_in_block() {
            self.end(behaviour)
        } else {
            self.push(Frame::Body(behaviour))
        }
    }

    /// Takes the statement on top: where its word is, what is around it, and whether it has a condition.
    pub fn leave(&mut self) -> Option<(usize, Around, bool)>
        ensures begun { result ≡ begun_on (statements self.old) }
        ensures rest { statements self.new ≡ below (statements self.old) }
    {
        match self.frames.pop() {
            Some(Frame::Begun(word, outside, has_condition)) => {
                Some((word, outside, has_condition))
            }
            _ => None,
        }
    }

    /// The statement on top has a condition: `while c`, `for (; c;)`.
    pub fn put_condition(&mut self) -> Result<(), AllocError>
        ensures { IfOk result (λ u. statements self.new ≡ with_condition (statements self.old)) }
    {
        match self.frames.pop() {
            Some(Frame::Begun(word, outside, _)) => self.push(Frame::Begun(word, outside, true)),
            Some(other) => self.push(other),
            None => Ok(()),
        }
    }

    /// `continuing { }`: the block of the loop does this too.
    pub fn continue_with(&mut self, last: Behaviour) -> Result<(), AllocError>
        ensures { IfOk result (λ u. statements self.new ≡ with_continuing last (statements self.old)) }
    {
        match self.frames.pop() {
            Some(Frame::Block(body)) => self.push(Frame::Block(body.continued_by(last))),
            Some(other) => self.push(other),
            None => Ok(()),
        }
    }

    /// Whether a value stands behind `return`. It is taken.
    pub fn take_returned(&mut self) -> Result<bool, AllocError>
        ensures { IfOk result (λ is. (is ≡ is_returned (statements self.old)) × (statements self.new ≡ without_returned (statements self.old))) }
    {
        match self.frames.pop() {
            Some(Frame::Returned) => Ok(true),
            Some(other) => {
                self.push(other)?;
                Ok(false)
            }
            None => Ok(false),
        }
    }
}
