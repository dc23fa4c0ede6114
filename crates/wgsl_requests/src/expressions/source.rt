// A text, its tokens, and what is noted of them.
ghost use Rattle.std.specs.Prelude.{◌≡◌, ◌-◌, IfOk, option_map, slice_get, slice_range};
ghost use Rattle.wgsl_core.specs.View.{view};
ghost use Rattle.wgsl_spelling.specs.Seen.{chain_of};
ghost use Rattle.wgsl_requests.specs.expressions.Source.{byte_at, declared_in, first_count, kind_at, noted, number_noted, text_at, type_in, type_noted};
ghost use Rattle.wgsl_requests.specs.expressions.Views.{IsMisread, found as shown_in, scope_view, source_view, type_found};

use crate::expressions::misread::expecting;
use crate::expressions::prelude::*;
use wgsl_spelling::chain::Chain;
use wgsl_spelling::fault::Stop;
use wgsl_spelling::spelled::{chain_of_events, count_of_events};

/// A type with the number of types inside it, or why there is none.
pub type Noted = Result<(Type, usize), Fault>;

/// A text, its tokens with their template lists, and what is noted of them.
#[derive(Clone, Copy)]
pub struct Source<'t> {
    pub alloc: Global,
    pub text: &'t str,
    pub tokens: &'t [Token],
    pub events: &'t [Event],
}

impl<'t> Source<'t> {
    /// The last of that many tokens.
    pub fn last(&self, count: usize) -> Option<Token>
        ensures { result ≡ slice_get self.now.tokens.now (count - 1) }
    {
        self.tokens.get(count.saturating_sub(1)).copied()
    }

    /// The kind of the last of that many tokens.
    pub fn kind_at(&self, count: usize) -> Kind
        ensures { result ≡ kind_at (source_view self.now) count }
    {
        match self.last(count) {
            Some(token) => token.kind,
            None => Kind::End,
        }
    }

    /// The index of the first byte of the last of that many tokens.
    pub fn byte_at(&self, count: usize) -> usize
        ensures { result ≡ byte_at (source_view self.now) count }
    {
        match self.last(count) {
            Some(token) => token.at,
            None => 0,
        }
    }

    /// The text of the last of that many tokens.
    pub fn text_at(&self, count: usize) -> &'t str
        ensures { result.now ≡ text_at (source_view self.now) count }
    {
        match self.last(count) {
            Some(token) => word(self.text, token),
            None => "",
        }
    }

    /// What is noted from one index on, up to another.
    pub fn noted(&self, from: usize, to: usize) -> &'t [Event]
        ensures { result.now ≡ noted (source_view self.now) from to }
    {
        between(self.events, from, to)
    }

    /// The type that is noted with the number of types inside it, or why none is.
    #[inline(always)]
    pub fn type_noted(&self, scope: &Scope, events: &[Event]) -> Made<Noted>
        ensures { IfOk result (λ found. type_found found ≡ type_noted (source_view self.now) (scope_view scope.now) events.now) }
    {
        match chain_of_events(self.alloc, self.text, self.tokens, events) {
            Ok(chain) => {
                let found = type_in(self.alloc, self.text, scope, &chain);
                drop(chain);
                found
            }
            Err(Stop::Fault(fault)) => Ok(Err(fault)),
            Err(Stop::Memory(error)) => Err(error),
        }
    }

    /// The number that is noted, or why none is.
    pub fn number_noted(&self, events: &[Event]) -> Made<Result<u32, Fault>>
        ensures { IfOk result (λ found. shown_in (λ n. n) found ≡ number_noted (source_view self.now) events.now) }
    {
        match count_of_events(self.alloc, self.text, self.tokens, events) {
            Ok(count) => Ok(u32::try_from(count).map_err(|_| fault(
                self.byte_at(first_count(events)),
                Cause::Overflow,
            ))),
            Err(Stop::Fault(fault)) => Ok(Err(fault)),
            Err(Stop::Memory(error)) => Err(error),
        }
    }

    /// The error that something else was expected of the last of that many tokens.
    pub fn misread(&self, count: usize, wanted: Wanted) -> Fail<Misread>
        ensures { IsMisread result }
    {
        expecting(self.byte_at(count), wanted)
    }
}

/// The type in parts, whose leaf may be a name of the scope.
fn type_in(alloc: Global, text: &str, scope: &Scope, chain: &Chain) -> Made<Noted>
    ensures { IfOk result (λ found. type_found found ≡ type_in text.now (scope_view scope.now) (chain_of chain.now)) }
{
    match chain.name() {
        Some(token) => named_in(alloc, scope.type_named(word(text, token)), token.at, chain),
        None => match chain.ty(alloc)? {
            Some(ty) => Ok(Ok((ty, chain.depth()))),
            None => Ok(Err(fault(0, Cause::UnknownType))),
        },
    }
}

/// A declared type in the layers of a chain, or the fault at its name.
fn named_in(alloc: Global, found: Option<(&Type, usize)>, at: usize, chain: &Chain) -> Made<Noted>
    ensures { IfOk result (λ r. type_found r ≡ declared_in (option_map (λ t. (view t.0.now, t.1)) found.entry) (chain_of chain.now)) }
{
    let layers = chain.depth();
    match found {
        Some((ty, inside)) if inside <= MOST_INSIDE.saturating_sub(layers) => {
            let ty = chain.wrap(alloc, ty.clone(alloc)?)?;
            Ok(Ok((ty, layers + inside)))
        }
        Some(_) => Ok(Err(fault(at, Cause::TooDeep))),
        None => Ok(Err(fault(at, Cause::UnknownType))),
    }
}

fn fault(at: usize, cause: Cause) -> Fault {
    Fault { at, cause }
}

/// Events from one index on, up to another.
pub fn between(events: &[Event], from: usize, to: usize) -> &[Event]
    ensures { result.now ≡ slice_range events.now from to }
{
    let to = if to < events.len() { to } else { events.len() };
    if from < to { &events[from..to] } else { &[] }
}

/// The number of tokens up to the name that is noted first.
pub fn first_count(events: &[Event]) -> usize
    ensures { result ≡ first_count events.now }
{
    match events {
        [first, ..] => first.at,
        [] => 0,
    }
}
