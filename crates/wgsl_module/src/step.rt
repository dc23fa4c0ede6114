// What is done where something is noted.
ghost use Rattle.std.specs.Prelude.{◌≡◌, IfOk};
ghost use Rattle.wgsl_module.specs.Blocks.{OfLoop};
ghost use Rattle.wgsl_module.specs.Noted.{Comes, Does, Statement};
ghost use Rattle.wgsl_module.specs.States.{source, state};

use crate::checker::Checker;
use std::alloc::AllocError;
use wgsl_reader::kind::Kind;
use wgsl_reader::mark::Mark;
use wgsl_reader::read::Event;
use wgsl_reader::token::Token;
use wgsl_standard::forms::declare::Declaration;
use wgsl_typing::expressions::kind_before;

impl<'t> Checker<'t> {
    /// Does what events say, one by one.
    pub fn steps(&mut self, tokens: &[Token], events: &[Event]) -> Result<(), AllocError>
        ensures events { IfOk result (λ u. Comes tokens.now events.now (state self.old) (state self.new)) }
        ensures source { IfOk result (λ u. source (state self.new) ≡ source (state self.old)) }
    {
        for event in events {
            self.step(kind_before(tokens, event.at), *event)?;
        }
        Ok(())
    }

    /// Does what an event says whose last token is of this kind.
    fn step(&mut self, word: Kind, event: Event) -> Result<(), AllocError>
        ensures event { IfOk result (λ u. Does word event.mark event.at (state self.old) (state self.new)) }
        ensures source { IfOk result (λ u. source (state self.new) ≡ source (state self.old)) }
    {
        if self.expressions.step(word, event)? {
            return Ok(());
        }
        self.step_of_statement(word, event)
    }

    fn step_of_statement(&mut self, word: Kind, event: Event) -> Result<(), AllocError>
        ensures statement { IfOk result (λ u. Statement word event.mark event.at (state self.old) (state self.new)) }
        ensures source { IfOk result (λ u. source (state self.new) ≡ source (state self.old)) }
    {
        let count = event.at;
        match event.mark {
            Mark::AttributeName => self.open_attribute(count),
            Mark::Attribute => self.close_attribute(count),
            Mark::Severity => self.put_severity(count),
            Mark::Member | Mark::Parameter => self.put_field(),
            Mark::Result => self.put_result(),
            Mark::Let => self.declare_value(Declaration::Let),
            Mark::Const => self.declare_value(Declaration::Const),
            Mark::Variable => self.declare_variable(),
            Mark::ConstAssert => self.assert(),
            Mark::Assign => self.assign(false),
            Mark::AssignBy => self.assign(true),
            Mark::Increment | Mark::Decrement => self.step_or_discard(true),
            Mark::Phony => self.step_or_discard(false),
            Mark::CallStatement => self.call_statement(),
            Mark::Discard => self.discard(count),
            Mark::Returned => self.put_returned(),
            Mark::Condition | Mark::BreakIf => self.put_condition(),
            Mark::Selector => self.open_switch(),
            Mark::CaseSelector => self.put_case_value(),
            Mark::Switch => self.close_switch(),
            Mark::Begin => self.begin(word),
            Mark::Open => self.open_block(),
            Mark::Block => self.close_block(),
            mark => self.step_of_loop(mark),
        }
    }

    fn step_of_loop(&mut self, mark: Mark) -> Result<(), AllocError>
        ensures statement { IfOk result (λ u. OfLoop mark (state self.old) (state self.new)) }
        ensures source { IfOk result (λ u. source (state self.new) ≡ source (state self.old)) }
    {
        match mark {
            Mark::Continue => self.skip_names(),
            Mark::Continuing => {
                self.leave_continuing();
                Ok(())
            }
            Mark::While | Mark::Loop => {
                self.end_loop();
                Ok(())
            }
            Mark::For => {
                self.end_loop();
                self.close_block()
            }
            _ => Ok(()),
        }
    }
}
