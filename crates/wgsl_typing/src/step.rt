// What is done where a part of an expression is noted.
ghost use Rattle.std.specs.Prelude.{◌≡◌, IfOk};
ghost use Rattle.wgsl_typing.specs.Stacks.{stack};
ghost use Rattle.wgsl_typing.specs.Steps.{StepIf, is_of_expressions, is_round};

use crate::expressions::Expressions;
use crate::item::Item;
use std::alloc::AllocError;
use wgsl_reader::kind::Kind;
use wgsl_reader::mark::Mark;
use wgsl_reader::read::Event;

impl<'t> Expressions<'t> {
    /// Does what an event says whose last token is of this kind. Returns whether it is one of expressions and types.
    pub fn step(&mut self, word: Kind, event: Event) -> Result<bool, AllocError>
        ensures answer { IfOk result (λ is. is ≡ is_of_expressions word event.mark) }
        ensures step { IfOk result (λ is. StepIf is event.mark event.at (stack self.old) (stack self.new)) }
    {
        let count = event.at;
        match event.mark {
            Mark::Name => self.push(Item::Name(count))?,
            Mark::OpenTemplate => self.push(Item::OpenList)?,
            Mark::Template => self.close_list(count)?,
            Mark::Operator => self.put_operator(count)?,
            Mark::OpenElement => self.push(Item::Sign(count))?,
            Mark::Literal => self.put_literal(count)?,
            Mark::Brackets => self.put_brackets(count)?,
            Mark::Unary => self.put_unary()?,
            Mark::Binary => self.put_binary()?,
            Mark::MemberOf => self.put_member(count)?,
            Mark::Element => self.put_element(count)?,
            Mark::Open => {
                if !is_round(word) {
                    return Ok(false);
                }
                self.open_call()?;
            }
            Mark::Argument => self.put_argument()?,
            Mark::Call => self.put_call(count)?,
            Mark::Typed => self.put_declared_type()?,
            Mark::Initialized => self.put_initializer()?,
            _ => return Ok(false),
        }
        Ok(true)
    }
}

/// Whether it is the `(` of a call, and no `{` of a block.
pub fn is_round(word: Kind) -> bool
    ensures { result ≡ is_round word }
{
    matches!(word, Kind::OpenRound)
}
