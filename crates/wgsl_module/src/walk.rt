// Declarations that lead to one another: the order in which they are read, and which functions call which.
ghost use Rattle.std.specs.Prelude.{◌≡◌, ◌∷◌, [], ◌≤◌, IfOk, MatchOption, Some, drop, length, slice_get};
ghost use Rattle.wgsl_module.specs.Called.{called_at, called_in, is_opening, opens_call};
ghost use Rattle.wgsl_module.specs.Declarations.{written};
ghost use Rattle.wgsl_module.specs.Named.{are_words, is_colon, is_own, named_at, named_from, used};
ghost use Rattle.wgsl_module.specs.Order.{Begins, GoesOn, HasEach, IsBehind, IsClosed, IsInTurn, cycling, leads_from, leads_of, naming_of};
ghost use Rattle.wgsl_typing.specs.Words.{kind_of_any, word_at};

use crate::attribute::attribute_named;
use crate::attributes::takes_names;
use crate::checker::Checker;
use crate::declaration::Declaration;
use std::alloc::AllocError;
use wgsl_reader::kind::Kind;
use wgsl_reader::mark::Mark;
use wgsl_reader::read::Event;
use wgsl_typing::fault::Place;
use wgsl_typing::step::is_round;

/// How a declaration leads to another one.
#[derive(Clone, Copy)]
pub enum Link {
    /// It names the other one.
    Name,
    /// Its body calls the other one.
    Call,
}

/// Whether a declaration was followed.
#[derive(Clone, Copy, PartialEq, Eq)]
enum State {
    Unseen,
    /// Those that it leads to are being followed.
    Open,
    Done,
}

/// How far declarations are followed.
#[derive(Drop)]
struct Order {
    states: Vec<State>,
    /// Those that are followed now, each led to by the one in front of it, and from where on.
    stack: Vec<(usize, usize)>,
    /// Those that are done.
    indices: Vec<usize>,
    cycles: Vec<(usize, Place)>,
}

/// What is found where declarations are followed.
#[derive(Drop)]
pub struct Walk {
    /// The indices of the declarations, each behind those that it leads to, but where it leads to itself.
    pub order: Vec<usize>,
    /// Which lead to themselves, perhaps through others, and where.
    pub cycles: Vec<(usize, Place)>,
}

impl<'t> Checker<'t> {
    /// Follows the declarations from one index up to another.
    pub fn walk(&self, from: usize, to: usize, link: Link) -> Result<Walk, AllocError>
        ensures each { IfOk result (λ w. to ≤ length self.now.declarations.items → HasEach from to w.order.items) }
        ensures in_turn { IfOk result (λ w. to ≤ length self.now.declarations.items → IsInTurn (leads_of self.now link) from to w.order.items) }
        ensures behind { IfOk result (λ w. IsBehind (leads_of self.now link) (cycling w.cycles.items) w.order.items) }
    {
        let alloc = self.expressions.alloc;
        let mut order = Order {
            states: vec![in alloc; State::Unseen; self.declarations.len()]?,
            stack: Vec::new(alloc),
            indices: Vec::new(alloc),
            cycles: Vec::new(alloc),
        };
        for root in from..to {
            order.begin(root)?;
            while let Some((index, at)) = order.stack.pop() {
                let next = self.next(link, index, at);
                order.go_on(index, next)?;
            }
        }
        let Order {
            indices,
            cycles,
            ..
        } = order;
        Ok(Walk {
            order: indices,
            cycles,
        })
    }

    /// What a declaration leads to next, from one of its events or of those of its body on; where, and the index behind that.
    fn next(&self, link: Link, index: usize, at: usize) -> Option<(usize, Place, usize)>
        ensures { MatchOption result (leads_from self.now link index at ≡ []) (λ r. leads_from self.now link index at ≡ r.0 ∷ leads_from self.now link index r.2) }
    {
        match link {
            Link::Name => self.next_named(index, at),
            Link::Call => self.next_called(index, at),
        }
    }

    /// The next declaration that one names, from an event on.
    fn next_named(&self, index: usize, at: usize) -> Option<(usize, Place, usize)>
        ensures { MatchOption result (leads_from self.now Link.Name index at ≡ []) (λ r. leads_from self.now Link.Name index at ≡ r.0 ∷ leads_from self.now Link.Name index r.2) }
    {
        self.first_named(self.declaration(index)?, at)
    }

    /// The first declaration that a declaration names from an event on.
    #[tactic(auto, using(crate::proofs::Named::no_words))]
    fn first_named(&self, declaration: Declaration<'t>, at: usize) -> Option<(usize, Place, usize)>
        ensures { MatchOption result (named_from (naming_of self.now) (Some (written declaration.entry)) at ≡ []) (λ r. named_from (naming_of self.now) (Some (written declaration.entry)) at
            ≡ r.0 ∷ named_from (naming_of self.now) (Some (written declaration.entry)) r.2) }
    {
        let mut are_words = false;
        for k in at..declaration.events.len() {
            let event = declaration.events[k];
            if let Some(named) = self.named_at(event, declaration.named, are_words) {
                return Some((named, Place::last_of(event.at), k + 1));
            }
            are_words = self.are_words(event, are_words);
        }
        None
    }

    /// Whether names behind an event are words of an attribute, as in `@builtin(position)`.
    fn are_words(&self, event: Event, before: bool) -> bool
        ensures { result ≡ are_words event.mark (word_at self.now.expressions.text.now self.now.expressions.tokens.now event.at) before }
    {
        match event.mark {
            Mark::AttributeName => takes_names(attribute_named(self.word(event.at))),
            Mark::Attribute => false,
            _ => before,
        }
    }

    /// The declaration that an event names, but for the own name of the declaration that it is in.
    fn named_at(&self, event: Event, own: Option<usize>, are_words: bool) -> Option<usize>
        ensures { result ≡ named_at (naming_of self.now) event.mark own are_words event.at }
    {
        match event.mark {
            Mark::Name if !are_words && !is_own(own, event.at) => self.used(event.at),
            _ => None,
        }
    }

    /// The next declaration that the body of one calls, from an event on.
    fn next_called(&self, index: usize, at: usize) -> Option<(usize, Place, usize)>
        ensures { MatchOption result (leads_from self.now Link.Call index at ≡ []) (λ r. leads_from self.now Link.Call index at ≡ r.0 ∷ leads_from self.now Link.Call index r.2) }
    {
        self.first_called(self.declaration(index)?.body, at)
    }

    /// The first declaration that events call, from one of them on.
    #[tactic(auto, using(crate::proofs::Called::by_event))]
    fn first_called(&self, events: &[Event], at: usize) -> Option<(usize, Place, usize)>
        ensures { MatchOption result (called_in (naming_of self.now) (drop at events.now) ≡ []) (λ r. called_in (naming_of self.now) (drop at events.now)
            ≡ r.0 ∷ called_in (naming_of self.now) (drop r.2 events.now)) }
    {
        for k in at..events.len() {
            let event = events[k];
            if let Some(called) = self.called_at(event, events.get(k + 1).copied()) {
                return Some((called, Place::last_of(event.at), k + 1));
            }
        }
        None
    }

    /// The declaration that an event calls, by what comes next.
    fn called_at(&self, event: Event, next: Option<Event>) -> Option<usize>
        ensures { result ≡ called_at (naming_of self.now) event.mark event.at next }
    {
        match event.mark {
            Mark::Name if self.opens_call(next) => self.declared(event.at),
            _ => None,
        }
    }

    /// Whether an event is the `(` of a call.
    fn opens_call(&self, event: Option<Event>) -> bool
        ensures { result ≡ opens_call self.now.expressions.tokens.now event }
    {
        match event {
            Some(event) => is_opening(event.mark, self.expressions.token_before(event.at).kind),
            None => false,
        }
    }

    /// The declaration that is named, if it isn't the name of a member or a parameter.
    fn used(&self, count: usize) -> Option<usize>
        ensures { result ≡ used (naming_of self.now) (is_colon (kind_of_any (slice_get self.now.expressions.tokens.now count))) count }
    {
        if is_colon(self.expressions.token(count).kind) {
            return None;
        }
        self.declared(count)
    }

    /// The declaration that the name stands for that is the last of that many tokens.
    fn declared(&self, count: usize) -> Option<usize>
        ensures { result ≡ (naming_of self.now).declared (word_at self.now.expressions.text.now self.now.expressions.tokens.now count) }
    {
        self.expressions.names.get(&self.word(count)).copied()
    }
}

/// Whether an event whose last token is of this kind is the `(` of a call.
fn is_opening(mark: Mark, word: Kind) -> bool
    ensures { result ≡ is_opening mark word }
{
    match mark {
        Mark::Open => is_round(word),
        _ => false,
    }
}

pub fn is_colon(kind: Kind) -> bool
    ensures { result ≡ is_colon kind }
{
    matches!(kind, Kind::Colon)
}

fn is_own(own: Option<usize>, count: usize) -> bool
    ensures { result ≡ is_own own count }
{
    match own {
        Some(own) => own == count,
        None => false,
    }
}

impl Order {
    fn state(&self, index: usize) -> Option<State>
        ensures { result ≡ slice_get self.now.states.items index }
    {
        self.states.get(index).copied()
    }

    /// Opens a declaration that isn't seen yet.
    fn begin(&mut self, root: usize) -> Result<(), AllocError>
        ensures { IfOk result (λ u. Begins (slice_get self.old.states.items root) root self.old self.new) }
    {
        if let Some(State::Unseen) = self.state(root) {
            self.states[root] = State::Open;
            self.stack.push((root, 0))?;
        }
        Ok(())
    }

    /// Goes on behind what a declaration leads to next, or puts it behind those that are done.
    fn go_on(&mut self, index: usize, next: Option<(usize, Place, usize)>) -> Result<(), AllocError>
        ensures { IfOk result (λ u. GoesOn index next self.old self.new) }
    {
        let Some((next, place, behind)) = next else {
            return self.close(index);
        };
        self.stack.push((index, behind))?;
        match self.state(next) {
            Some(State::Open) => self.cycles.push((next, place))?,
            _ => self.begin(next)?,
        }
        Ok(())
    }

    /// Puts a declaration behind those that are done, unless it is one of them.
    fn close(&mut self, index: usize) -> Result<(), AllocError>
        ensures { IfOk result (λ u. IsClosed (slice_get self.old.states.items index) index self.old self.new) }
    {
        match self.state(index) {
            None | Some(State::Done) => {}
            _ => {
                self.states[index] = State::Done;
                self.indices.push(index)?;
            }
        }
        Ok(())
    }
}
