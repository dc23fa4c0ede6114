// Where control goes on in the functions of a module (WGSL, "Control Flow", "Behaviors").
ghost use Rattle.std.specs.Prelude.{◌≡◌, ◌-◌, ◌&&◌, [], true, false, IfOk, map, not, option_map};
ghost use Rattle.wgsl_module.specs.Control.{around_by, behind_all, has_result_by, frames_by, outside, state, told_by, told_if, told_of};
ghost use Rattle.wgsl_module.specs.Flow.{begun_on, below, clauses_on, ended, is_returned, statements};
ghost use Rattle.wgsl_module.specs.Statements.{began, block_closed, continuing_ended, goes_nowhere, if_ended, in_function, inside, loop_ended, loop_on, may_fall_off, outside_of, return_ended, switch_ended, with_clause, with_default, word_of};
ghost use Rattle.wgsl_module.specs.Told.{broken};
ghost use Rattle.wgsl_typing.specs.Faults.{last_of};

use crate::behaviour::Behaviour;
use crate::flow::Flow;
use crate::frame::{Around, Frame};
use std::alloc::{AllocError, Global};
use wgsl_reader::kind::Kind;
use wgsl_reader::mark::Mark;
use wgsl_reader::read::Event;
use wgsl_reader::token::Token;
use wgsl_typing::expressions::kind_before;
use wgsl_typing::fault::{Fault, Place, Rule};

/// What is wrong in a module by where control goes on: it depends on no type.
pub fn faults_of_control(
    alloc: Global,
    tokens: &[Token],
    events: &[Event],
) -> Result<Vec<Fault>, AllocError>
    ensures { IfOk result (λ faults. map broken faults.items ≡ told_of tokens.now events.now) }
{
    let mut control = Control::none(alloc);
    control.steps(tokens, events)?;
    let Control { faults, .. } = control;
    Ok(faults)
}

/// The statements of a function that are read.
#[derive(Drop)]
pub struct Control {
    alloc: Global,
    flow: Flow,
    around: Around,
    /// Whether the function has a result.
    has_result: bool,
    faults: Vec<Fault>,
}

impl Control {
    /// Nothing is read yet.
    fn none(alloc: Global) -> Control
        ensures { state result ≡ outside }
    {
        Control {
            alloc,
            flow: Flow::none(alloc),
            around: Around::FUNCTION,
            has_result: false,
            faults: Vec::new(alloc),
        }
    }

    /// Does what events say, one by one.
    fn steps(&mut self, tokens: &[Token], events: &[Event]) -> Result<(), AllocError>
        ensures { IfOk result (λ u. state self.new ≡ behind_all tokens.now events.now (state self.old)) }
    {
        for event in events {
            self.step(kind_before(tokens, event.at), *event)?;
        }
        Ok(())
    }

    /// Does what an event says whose last token is of this kind.
    fn step(&mut self, word: Kind, event: Event) -> Result<(), AllocError>
        ensures frames { IfOk result (λ u. statements self.new.flow ≡ frames_by word event.mark event.at self.old.around (statements self.old.flow)) }
        ensures around { IfOk result (λ u. self.new.around ≡ around_by word event.mark (statements self.old.flow) self.old.around) }
        ensures has_result { IfOk result (λ u. self.new.has_result ≡ has_result_by event.mark self.old.has_result) }
        ensures told { IfOk result (λ u. map broken self.new.faults.items ≡ told_by event.mark event.at (state self.old)) }
    {
        match event.mark {
            Mark::Result => self.put_result(),
            Mark::Let
            | Mark::Const
            | Mark::Variable
            | Mark::ConstAssert
            | Mark::Assign
            | Mark::AssignBy
            | Mark::Increment
            | Mark::Decrement
            | Mark::Phony
            | Mark::CallStatement
            | Mark::Discard => self.flow.end(Behaviour::NEXT),
            Mark::Break => self.jump(self.around.may_break, self.around.on_break(), event.at),
            Mark::Continue => {
                self.jump(
                    self.around.may_continue,
                    self.around.on_continue(),
                    event.at,
                )
            }
            Mark::Returned => self.flow.push(Frame::Returned),
            Mark::Return => self.close_return(event.at),
            Mark::Begin => self.begin(word, event.at),
            Mark::Open => self.flow.open_block(word),
            Mark::Block => self.close_block(event.at),
            Mark::Condition => self.flow.put_condition(),
            Mark::BreakIf => self.flow.end(Behaviour::MAY_BREAK),
            Mark::Else => self.flow.close_else(),
            Mark::If => self.close_if(),
            Mark::While | Mark::For | Mark::Loop => self.close_loop(),
            Mark::Continuing => self.close_continuing(),
            Mark::Selector => self.flow.open_switch(),
            Mark::Case => self.flow.close_clause(),
            Mark::DefaultSelector => self.put_default(event.at),
            Mark::Switch => self.close_switch(),
            Mark::Function => self.close_function(),
            _ => Ok(()),
        }
    }

    fn tell(&mut self, rule: Rule, place: Place, message: &str) -> Result<(), AllocError>
        ensures told { IfOk result (λ u. map broken self.new.faults.items ≡ told_if true rule place (map broken self.old.faults.items)) }
        ensures flow { self.new.flow ≡ self.old.flow }
        ensures around { self.new.around ≡ self.old.around }
        ensures has_result { self.new.has_result ≡ self.old.has_result }
    {
        self.faults.push(Fault {
            rule,
            place,
            message: String::from_str(self.alloc, message)?,
            notes: Vec::new(self.alloc),
        })?;
        Ok(())
    }

    fn tell_if(
        &mut self,
        is_wrong: bool,
        rule: Rule,
        place: Place,
        message: &str,
    ) -> Result<(), AllocError>
        ensures told { IfOk result (λ u. map broken self.new.faults.items ≡ told_if is_wrong rule place (map broken self.old.faults.items)) }
        ensures flow { self.new.flow ≡ self.old.flow }
        ensures around { self.new.around ≡ self.old.around }
        ensures has_result { self.new.has_result ≡ self.old.has_result }
    {
        if is_wrong {
            self.tell(rule, place, message)?;
        }
        Ok(())
    }

    /// `-> T`
    fn put_result(&mut self) -> Result<(), AllocError>
        ensures has_result { self.new.has_result ≡ true }
        ensures flow { self.new.flow ≡ self.old.flow }
        ensures around { self.new.around ≡ self.old.around }
        ensures faults { self.new.faults ≡ self.old.faults }
    {
        self.has_result = true;
        Ok(())
    }

    /// The word of a statement that has blocks, or what stands in front of the body of a function.
    fn begin(&mut self, word: Kind, count: usize) -> Result<(), AllocError>
        ensures frames { IfOk result (λ u. statements self.new.flow ≡ began word count self.old.around (statements self.old.flow)) }
        ensures around { IfOk result (λ u. self.new.around ≡ inside word self.old.around) }
        ensures has_result { self.new.has_result ≡ self.old.has_result }
        ensures faults { self.new.faults ≡ self.old.faults }
    {
        let outside = self.around;
        let inside = match word {
            Kind::For | Kind::While | Kind::Loop => Around {
                may_break: true,
                may_continue: true,
                ..outside
            },
            Kind::Switch => Around {
                may_break: true,
                ..outside
            },
            Kind::Continuing => Around {
                may_break: false,
                may_continue: false,
                in_continuing: true,
            },
            Kind::If => outside,
            _ => return Ok(()),
        };
        self.around = inside;
        self.flow.push(Frame::Begun(count, outside, false))
    }

    /// The statement on top is read. Returns where its word is, and whether it has a condition.
    fn leave(&mut self) -> Option<(usize, bool)>
        ensures begun { result ≡ option_map (λ b. (b.0, b.2)) (begun_on (statements self.old.flow)) }
        ensures frames { statements self.new.flow ≡ below (statements self.old.flow) }
        ensures around { self.new.around ≡ outside_of (begun_on (statements self.old.flow)) self.old.around }
        ensures has_result { self.new.has_result ≡ self.old.has_result }
        ensures faults { self.new.faults ≡ self.old.faults }
    {
        let (word, outside, has_condition) = self.flow.leave()?;
        self.around = outside;
        Some((word, has_condition))
    }

    /// `break;`, `continue;`
    fn jump(
        &mut self,
        is_allowed: bool,
        behaviour: Behaviour,
        count: usize,
    ) -> Result<(), AllocError>
        ensures frames { IfOk result (λ u. statements self.new.flow ≡ ended behaviour (statements self.old.flow)) }
        ensures told { IfOk result (λ u. map broken self.new.faults.items
            ≡ told_if (not is_allowed) Rule.Behaviour (last_of (count - 1)) (map broken self.old.faults.items)) }
        ensures around { self.new.around ≡ self.old.around }
        ensures has_result { self.new.has_result ≡ self.old.has_result }
    {
        let message = match self.around.in_continuing {
            true => "a `continuing` can't break or continue, but may end with `break if`",
            false => "no loop around is ended or continued here",
        };
        let word = Place::last_of(count.saturating_sub(1));
        self.tell_if(!is_allowed, Rule::Behaviour, word, message)?;
        self.flow.end(behaviour)
    }

    /// `return;`, `return x;`: a `continuing` can't return, and a function with a result returns a value.
    fn close_return(&mut self, count: usize) -> Result<(), AllocError>
        ensures frames { IfOk result (λ u. statements self.new.flow ≡ return_ended (statements self.old.flow)) }
        ensures told { IfOk result (λ u. map broken self.new.faults.items
            ≡ told_if (not (is_returned (statements self.old.flow)) && self.old.has_result) Rule.Type (last_of (count - 1))
            (told_if self.old.around.in_continuing Rule.Behaviour (last_of (count - 1)) (map broken self.old.faults.items))) }
        ensures around { self.new.around ≡ self.old.around }
        ensures has_result { self.new.has_result ≡ self.old.has_result }
    {
        let has_value = self.flow.take_returned()?;
        let word = Place::last_of(count.saturating_sub(1));
        let in_continuing = self.around.in_continuing;
        self.tell_if(
            in_continuing,
            Rule::Behaviour,
            word,
            "a `continuing` can't return",
        )?;
        let lacks_value = !has_value && self.has_result;
        self.tell_if(
            lacks_value,
            Rule::Type,
            word,
            "this function returns a value",
        )?;
        self.flow.end(Behaviour::RETURN)
    }

    /// The end of a block, and that of a function's body: each path of a function with a result returns.
    fn close_block(&mut self, count: usize) -> Result<(), AllocError>
        ensures frames { IfOk result (λ u. statements self.new.flow ≡ block_closed (statements self.old.flow)) }
        ensures told { IfOk result (λ u. map broken self.new.faults.items
            ≡ told_if (may_fall_off (statements self.old.flow) && self.old.has_result) Rule.Behaviour (last_of count) (map broken self.old.faults.items)) }
        ensures around { self.new.around ≡ self.old.around }
        ensures has_result { self.new.has_result ≡ self.old.has_result }
    {
        let Some(behaviour) = self.flow.take_block() else {
            return Ok(());
        };
        if self.flow.is_empty() {
            let message = "this function may end without a `return`";
            let falls_off = behaviour.next && self.has_result;
            return self.tell_if(falls_off, Rule::Behaviour, Place::last_of(count), message);
        }
        self.flow.put_body(behaviour)
    }

    fn close_if(&mut self) -> Result<(), AllocError>
        ensures frames { IfOk result (λ u. statements self.new.flow ≡ if_ended (statements self.old.flow)) }
        ensures around { IfOk result (λ u. self.new.around ≡ outside_of (begun_on (below (statements self.old.flow))) self.old.around) }
        ensures has_result { self.new.has_result ≡ self.old.has_result }
        ensures faults { self.new.faults ≡ self.old.faults }
    {
        let behaviour = self.flow.take_if();
        self.leave();
        self.flow.end(behaviour)
    }

    /// `while`, `for`, `loop`: one that no way leads out of is wrong.
    fn close_loop(&mut self) -> Result<(), AllocError>
        ensures frames { IfOk result (λ u. statements self.new.flow ≡ loop_ended (statements self.old.flow)) }
        ensures around { IfOk result (λ u. self.new.around ≡ outside_of (begun_on (below (statements self.old.flow))) self.old.around) }
        ensures told { IfOk result (λ u. map broken self.new.faults.items
            ≡ told_if (goes_nowhere (loop_on (statements self.old.flow))) Rule.Behaviour (last_of (word_of (begun_on (below (statements self.old.flow)))))
            (map broken self.old.faults.items)) }
        ensures has_result { self.new.has_result ≡ self.old.has_result }
    {
        let body = self.flow.take_body();
        let Some((word, has_condition)) = self.leave() else {
            return Ok(());
        };
        let behaviour = body.looped(has_condition);
        let place = Place::last_of(word);
        self.tell_if(
            behaviour.never_ends(),
            Rule::Behaviour,
            place,
            "this loop never ends",
        )?;
        self.flow.end(behaviour)
    }

    /// `continuing { }`
    fn close_continuing(&mut self) -> Result<(), AllocError>
        ensures frames { IfOk result (λ u. statements self.new.flow ≡ continuing_ended (statements self.old.flow)) }
        ensures around { IfOk result (λ u. self.new.around ≡ outside_of (begun_on (below (statements self.old.flow))) self.old.around) }
        ensures has_result { self.new.has_result ≡ self.old.has_result }
        ensures faults { self.new.faults ≡ self.old.faults }
    {
        let last = self.flow.take_body();
        self.leave();
        self.flow.continue_with(last)
    }

    /// `default`, of which a `switch` has one.
    fn put_default(&mut self, count: usize) -> Result<(), AllocError>
        ensures frames { IfOk result (λ u. statements self.new.flow ≡ with_default (statements self.old.flow)) }
        ensures told { IfOk result (λ u. map broken self.new.faults.items
            ≡ told_if (clauses_on (statements self.old.flow)).1 Rule.Switch (last_of count) (map broken self.old.faults.items)) }
        ensures around { self.new.around ≡ self.old.around }
        ensures has_result { self.new.has_result ≡ self.old.has_result }
    {
        let has_default = self.flow.put_default()?;
        self.tell_if(
            has_default,
            Rule::Switch,
            Place::last_of(count),
            "a second `default`",
        )
    }

    /// A `switch` without a `default` is wrong.
    fn close_switch(&mut self) -> Result<(), AllocError>
        ensures frames { IfOk result (λ u. statements self.new.flow ≡ switch_ended (statements self.old.flow)) }
        ensures around { IfOk result (λ u. self.new.around ≡ outside_of (begun_on (below (statements self.old.flow))) self.old.around) }
        ensures told { IfOk result (λ u. map broken self.new.faults.items
            ≡ told_if (not (clauses_on (statements self.old.flow)).1) Rule.Switch (last_of (word_of (begun_on (below (statements self.old.flow)))))
            (map broken self.old.faults.items)) }
        ensures has_result { self.new.has_result ≡ self.old.has_result }
    {
        let (clauses, has_default) = self.flow.take_clauses();
        let word = match self.leave() {
            Some((word, _)) => word,
            None => 0,
        };
        let place = Place::last_of(word);
        self.tell_if(
            !has_default,
            Rule::Switch,
            place,
            "a switch needs a `default`",
        )?;
        self.flow.end(clauses.switched())
    }

    fn close_function(&mut self) -> Result<(), AllocError>
        ensures frames { statements self.new.flow ≡ [] }
        ensures around { self.new.around ≡ in_function }
        ensures has_result { self.new.has_result ≡ false }
        ensures faults { self.new.faults ≡ self.old.faults }
    {
        self.flow.clear();
        self.around = Around::FUNCTION;
        self.has_result = false;
        Ok(())
    }
}
