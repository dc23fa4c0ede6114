// Reads tokens by the grammar.
ghost use Rattle.std.specs.Prelude.{◌≡◌, ◌↔◌, ◌+◌, ◌++◌, ◌<◌, ◌∷◌, [], IfOk, ◌≤◌, IsFalse, IsTrue, MatchOption, drop, length, map};
ghost use Rattle.wgsl_reader.specs.Frames.{below};
ghost use Rattle.wgsl_reader.specs.Reading.{IsOther, ReadAt, kind_of, next_kind, outcome_of};
ghost use Rattle.wgsl_reader.specs.declared.grammar.Symbol.TheVariants.{Rule as rule};

use crate::grammar::{Symbol, production};
use crate::kind::Kind;
use crate::mark::Mark;
use crate::rule::Rule;
use crate::token::Token;
use std::alloc::{AllocError, Global};

/// What is noted, and where.
#[derive(Clone, Copy)]
pub struct Event {
    /// What it is.
    pub mark: Mark,
    /// How many tokens stand in front.
    pub at: usize,
}

/// The token at an index.
fn token_at(tokens: &[Token], at: usize) -> Option<Token>
    requires { at ≤ length tokens.now }
    ensures { MatchOption result (map kind_of (drop at tokens.now) ≡ [])
        (λ token. (map kind_of (drop at tokens.now) ≡ token.kind ∷ map kind_of (drop (at + 1) tokens.now)) × (at < length tokens.now)) }
{
    if at == tokens.len() {
        return None;
    }
    Some(tokens[at])
}

/// The kind of the token at an index, or the end.
pub(crate) fn next_kind(tokens: &[Token], at: usize) -> Kind
    ensures { result ≡ next_kind (map kind_of (drop at tokens.now)) }
{
    match tokens.get(at) {
        Some(token) => token.kind,
        None => Kind::End,
    }
}

/// Whether the token at an index is of this kind.
#[tactic(auto, using(crate::proofs::Steps::kind_taken, crate::proofs::Steps::kind_other))]
fn is_next(kind: Kind, tokens: &[Token], at: usize) -> bool
    requires { at ≤ length tokens.now }
    ensures within { IsTrue result → at < length tokens.now }
    ensures taken { IsTrue result → map kind_of (drop at tokens.now) ≡ kind ∷ map kind_of (drop (at + 1) tokens.now) }
    ensures other { IsFalse result → IsOther kind (map kind_of (drop at tokens.now)) }
{
    match token_at(tokens, at) {
        Some(token) => is(token.kind, kind),
        None => false,
    }
}

/// Whether two kinds are the same.
fn is(kind: Kind, other: Kind) -> bool
    ensures { IsTrue result ↔ (kind ≡ other) }
{
    kind == other
}

/// The first of some symbols, and those behind it.
#[tactic(auto, using(crate::proofs::Frames::empty))]
fn first_symbol<'s>(symbols: &'s [Symbol]) -> Option<(Symbol, &'s [Symbol])>
    ensures { MatchOption result (symbols.now ≡ []) (λ found. symbols.now ≡ found.0 ∷ found.1.now) }
{
    match symbols {
        [first, rest @ ..] => Some((*first, rest)),
        [] => None,
    }
}

/// Puts the symbols of a rule in front of those behind it: what is to be read first. The rest goes to the frames.
#[tactic(auto, using(crate::proofs::Frames::empty, crate::proofs::Frames::below_pushed))]
fn in_front<'s>(
    of_rule: &'s [Symbol],
    rest: &'s [Symbol],
    frames: &mut Vec<&'s [Symbol]>,
) -> Result<&'s [Symbol], AllocError>
    ensures all { IfOk result (λ first. first.now ++ below frames.new.items [] ≡ of_rule.now ++ (rest.now ++ below frames.old.items [])) }
    ensures few { IfOk result (λ first. length frames.new.items ≤ length frames.old.items + 1) }
{
    if of_rule.is_empty() {
        return Ok(rest);
    }
    if rest.is_empty() {
        return Ok(of_rule);
    }
    frames.push(rest)?;
    Ok(of_rule)
}

/// Reads all of the tokens from an index on by a rule: what is noted, or the index of the first token that can't stand
/// there.
pub fn read(
    alloc: Global,
    start: Rule,
    tokens: &[Token],
    from: usize,
) -> Result<Result<Vec<Event>, usize>, AllocError>
    requires { from ≤ length tokens.now }
    ensures { IfOk result (λ found. ReadAt (rule start ∷ []) from (map kind_of (drop from tokens.now)) (outcome_of (λ v. v.items) found)) }
{
    let first = [Symbol::Rule(start)];
    let mut events = Vec::with_capacity(alloc, tokens.len() - from + 8)?;
    let mut frames = Vec::with_capacity(alloc, 16)?;
    let mut symbols: &[Symbol] = &first;
    let mut at = from;
    loop {
        let next = next_kind(tokens, at);
        let kind = loop {
            match first_symbol(symbols) {
                None => match frames.pop() {
                    Some(frame) => symbols = frame,
                    None if at == tokens.len() => return Ok(Ok(events)),
                    None => return Ok(Err(at)),
                },
                Some((symbol, rest)) => match symbol {
                    Symbol::Token(kind) => {
                        symbols = rest;
                        break kind;
                    }
                    Symbol::Mark(mark) => {
                        events.push(Event { mark, at })?;
                        symbols = rest;
                    }
                    Symbol::Rule(rule) => {
                        let Some(of_rule) = production(rule, next) else {
                            return Ok(Err(at));
                        };
                        symbols = in_front(of_rule, rest, &mut frames)?;
                    }
                },
            }
        };
        if !is_next(kind, tokens, at) {
            return Ok(Err(at));
        }
        at += 1;
    }
}
