// The type that a text spells.
ghost use Rattle.std.specs.Prelude.{◌≡◌, IfOk, Some};
ghost use Rattle.wgsl_core.specs.View.{view};
ghost use Rattle.wgsl_spelling.specs.Seen.{Becomes, Gives, IsFault, Takes, chain_of, state_of, type_found};
ghost use Rattle.wgsl_spelling.specs.Spelled.{Spells, TokensSpell, behind, chain_of_events, closed, count_of_events, end, no_token, nothing, only, step, token_before, type_of_events, with_argument, with_binary, with_brackets, with_call, with_item, with_listed, with_member, with_open, with_unary};
ghost use Rattle.wgsl_constants.specs.Literals.{then};
ghost use Rattle.wgsl_spelling.specs.Chains.{with_type};
ghost use Rattle.wgsl_spelling.specs.Items.{item};
ghost use Rattle.wgsl_spelling.specs.declared.item.Value.TheVariants.{Name};
ghost use Rattle.wgsl_spelling.specs.Values.{count};
ghost use Rattle.wgsl_spelling.specs.Words.{word};

use crate::call::{argued, called, member, opened};
use crate::chain::Chain;
use crate::fault::{Cause, Expected, Fault, Stop, stop_at};
use crate::item::{Item, Value};
use crate::list::{Listed, bitcast, meaning_of, pop_list};
use crate::value::{binary, count, in_brackets, literal, unary};
use crate::word::word;
use std::alloc::{AllocError, Global};
use wgsl_core::ty::Type;
use wgsl_reader::kind::Kind;
use wgsl_reader::lists::tokens_of;
use wgsl_reader::mark::Mark;
use wgsl_reader::read::{Event, read};
use wgsl_reader::rule::Rule;
use wgsl_reader::token::Token;

/// The type that a text spells, or why it spells none.
pub fn type_of_text(alloc: Global, text: &str) -> Result<Result<Type, Fault>, AllocError>
    ensures { IfOk result (λ found. Spells text.now (type_found found)) }
{
    match tokens_of(alloc, text.as_bytes())? {
        Ok(tokens) => type_of_tokens(alloc, text, &tokens),
        Err(at) => Ok(Err(Fault {
            at,
            cause: untokenized(text.as_bytes(), at),
        })),
    }
}

/// The type that tokens of a text spell, or why they spell none.
pub fn type_of_tokens(
    alloc: Global,
    text: &str,
    tokens: &[Token],
) -> Result<Result<Type, Fault>, AllocError>
    ensures { IfOk result (λ found. TokensSpell text.now tokens.now (type_found found)) }
{
    match read(alloc, Rule::Type, tokens, 0)? {
        Ok(events) => match type_of_events(alloc, text, tokens, &events) {
            Ok(ty) => Ok(Ok(ty)),
            Err(Stop::Fault(fault)) => Ok(Err(fault)),
            Err(Stop::Memory(error)) => Err(error),
        },
        Err(index) => Ok(Err(misread(text, tokens, index))),
    }
}

/// The type that events of a text say, or why they say none. Those behind a name's list belong to it.
pub fn type_of_events(
    alloc: Global,
    text: &str,
    tokens: &[Token],
    events: &[Event],
) -> Result<Type, Stop>
    ensures { Gives view (type_of_events text.now tokens.now events.now) result }
{
    let chain = chain_of_events(alloc, text, tokens, events)?;
    let found = chain.ty(alloc);
    let fault = unnamed(chain.name());
    drop(chain);
    match found? {
        Some(ty) => Ok(ty),
        None => Err(fault),
    }
}

/// The fault of a chain that is no type.
fn unnamed(name: Option<Token>) -> Stop
    ensures { IsFault result }
{
    match name {
        Some(token) => stop_at(token.at, Cause::UnknownType),
        None => stop_at(0, Cause::Expected(Expected::Type)),
    }
}

/// The type in parts that events of a text say, or why they say none. Its leaf may be a name that isn't predeclared.
pub fn chain_of_events(
    alloc: Global,
    text: &str,
    tokens: &[Token],
    events: &[Event],
) -> Result<Chain, Stop>
    ensures { Gives chain_of (chain_of_events text.now tokens.now events.now) result }
{
    match events {
        [
            Event {
                mark: Mark::Name,
                at,
            },
        ] => chain_of_name(alloc, text, token_before(tokens, *at)),
        _ => read_events(alloc, text, tokens, events)?.end(text),
    }
}

/// The type in parts that a name without a list stands for.
fn chain_of_name(alloc: Global, text: &str, token: Token) -> Result<Chain, Stop>
    ensures { Gives chain_of (with_type text.now (item token Name) nothing.chain) result }
{
    let mut chain = Chain::none(alloc);
    let value = Value::Name;
    chain.read(text, Item { token, value })?;
    Ok(chain)
}

/// The number, at least 0, that events of a text say, or why they say none.
pub fn count_of_events(
    alloc: Global,
    text: &str,
    tokens: &[Token],
    events: &[Event],
) -> Result<usize, Stop>
    ensures { Gives (λ n. n) (count_of_events text.now tokens.now events.now) result }
{
    read_events(alloc, text, tokens, events)?.count()
}

/// What is read of events.
fn read_events(
    alloc: Global,
    text: &str,
    tokens: &[Token],
    events: &[Event],
) -> Result<Reading, Stop>
    ensures { Gives state_of (behind text.now tokens.now nothing events.now) result }
{
    let mut reading = Reading {
        items: Vec::with_capacity(alloc, events.len().saturating_sub(1))?,
        chain: Chain::none(alloc),
    };
    for event in events {
        reading.step(text, tokens, *event)?;
    }
    Ok(reading)
}

/// What is read so far.
#[derive(Drop)]
struct Reading {
    items: Vec<Item>,
    chain: Chain,
}

impl Reading {
    /// Reads what an event says.
    fn step(&mut self, text: &str, tokens: &[Token], event: Event) -> Result<(), Stop>
        ensures { Becomes (step text.now tokens.now (state_of self.old) event) (state_of self.new) result }
    {
        let token = token_before(tokens, event.at);
        match event.mark {
            Mark::Name => self.push(token, Value::Name),
            Mark::OpenTemplate | Mark::Operator => self.push(token, Value::Sign(token.kind)),
            Mark::Literal => self.push(token, Value::Constant(literal(text, token)?)),
            Mark::Template => self.close(text, token),
            Mark::Unary => self.unary(token),
            Mark::Binary => self.binary(token),
            Mark::Brackets => self.brackets(token),
            Mark::Value => Ok(()),
            Mark::Open => self.open(text, token),
            Mark::Argument => self.argument(token),
            Mark::Call => self.call(token),
            Mark::MemberOf => self.member(text, token),
            _ => Err(stop_at(token.at, Cause::NotInteger)),
        }
    }

    fn push(&mut self, token: Token, value: Value) -> Result<(), Stop>
        ensures { Becomes (Some (with_item (item token value) (state_of self.old))) (state_of self.new) result }
    {
        self.items.push(Item { token, value })?;
        Ok(())
    }

    /// Takes the last item.
    fn pop(&mut self, token: Token) -> Result<Item, Stop>
        ensures taken { Takes (state_of self.old).items (state_of self.new).items result }
        ensures chain { (state_of self.new).chain ≡ (state_of self.old).chain }
    {
        match self.items.pop() {
            Some(item) => Ok(item),
            None => Err(stop_at(token.at, Cause::Expected(Expected::Integer))),
        }
    }

    /// Ends a template list.
    fn close(&mut self, text: &str, token: Token) -> Result<(), Stop>
        ensures { Becomes (closed text.now (state_of self.old)) (state_of self.new) result }
    {
        let Some(list) = pop_list(&mut self.items) else {
            return Err(stop_at(token.at, Cause::WrongParameterCount));
        };
        let name = list.name;
        if word(text, name) == "bitcast" {
            let function = bitcast(text, list)?;
            return self.push(name, Value::Function(function));
        }
        add(&mut self.chain, text, meaning_of(text, list)?, name)?;
        self.push(name, Value::Type)
    }

    /// Ends an operator in front of its operand.
    fn unary(&mut self, token: Token) -> Result<(), Stop>
        ensures { Becomes (with_unary (state_of self.old).chain (state_of self.old).items) (state_of self.new) result }
    {
        let operand = self.pop(token)?;
        let operator = self.pop(token)?;
        let found = unary(operator, operand)?;
        self.push(found.token, found.value)
    }

    /// Ends an operator between its operands.
    fn binary(&mut self, token: Token) -> Result<(), Stop>
        ensures { Becomes (with_binary (state_of self.old).chain (state_of self.old).items) (state_of self.new) result }
    {
        let right = self.pop(token)?;
        let operator = self.pop(token)?;
        let left = self.pop(token)?;
        let found = binary(left, operator, right)?;
        self.push(found.token, found.value)
    }

    /// Leaves what stands in brackets, which has a value.
    fn brackets(&mut self, token: Token) -> Result<(), Stop>
        ensures { Becomes (with_brackets (state_of self.old).chain (state_of self.old).items) (state_of self.new) result }
    {
        let inside = self.pop(token)?;
        let found = in_brackets(inside)?;
        self.push(found.token, found.value)
    }

    /// Begins a call.
    fn open(&mut self, text: &str, token: Token) -> Result<(), Stop>
        ensures { Becomes (with_open text.now (state_of self.old).chain (state_of self.old).items) (state_of self.new) result }
    {
        let callee = self.pop(token)?;
        let found = opened(text, callee)?;
        self.push(found.token, found.value)
    }

    /// Adds an argument to a call.
    fn argument(&mut self, token: Token) -> Result<(), Stop>
        ensures { Becomes (with_argument (state_of self.old).chain (state_of self.old).items) (state_of self.new) result }
    {
        let last = self.pop(token)?;
        let call = self.pop(token)?;
        let found = argued(call, last)?;
        self.push(found.token, found.value)
    }

    /// Ends a call.
    fn call(&mut self, token: Token) -> Result<(), Stop>
        ensures { Becomes (with_call (state_of self.old).chain (state_of self.old).items) (state_of self.new) result }
    {
        let call = self.pop(token)?;
        let found = called(call)?;
        self.push(found.token, found.value)
    }

    /// Takes the component that is named by the token.
    fn member(&mut self, text: &str, token: Token) -> Result<(), Stop>
        ensures { Becomes (with_member (word text.now token) (state_of self.old).chain (state_of self.old).items) (state_of self.new) result }
    {
        let vector = self.pop(token)?;
        let found = member(word(text, token), vector)?;
        self.push(found.token, found.value)
    }

    /// Takes the only item.
    fn pop_only(&mut self) -> Result<Item, Stop>
        ensures only { Gives (λ i. i) (only (state_of self.old).items) result }
        ensures chain { (state_of self.new).chain ≡ (state_of self.old).chain }
    {
        let item = self.pop(no_token())?;
        match self.items.pop() {
            Some(_) => Err(stop_at(item.token.at, Cause::Misread)),
            None => Ok(item),
        }
    }

    /// The type in parts of the only item.
    fn end(self, text: &str) -> Result<Chain, Stop>
        ensures { Gives chain_of (end text.now (state_of self)) result }
    {
        let mut reading = self;
        let item = reading.pop_only()?;
        reading.chain.read(text, item)?;
        Ok(reading.chain)
    }

    /// The number that the only item is.
    fn count(self) -> Result<usize, Stop>
        ensures { Gives (λ n. n) (then (only (state_of self).items) count) result }
    {
        let mut reading = self;
        count(reading.pop_only()?)
    }
}

/// Adds what a template list stands for.
fn add(chain: &mut Chain, text: &str, listed: Listed, name: Token) -> Result<(), Stop>
    ensures { Becomes (with_listed text.now listed (chain_of chain.old)) (chain_of chain.new) result }
{
    match listed {
        Listed::Leaf(leaf) => chain.begin(leaf, name),
        Listed::Around(layer, item) => {
            chain.read(text, item)?;
            chain.push(layer, name)
        }
    }
}

/// The token in front of an event.
fn token_before(tokens: &[Token], at: usize) -> Token
    ensures { result ≡ token_before tokens.now at }
{
    match tokens.get(at.saturating_sub(1)) {
        Some(token) => *token,
        None => no_token(),
    }
}

fn no_token() -> Token
    ensures { result ≡ no_token }
{
    Token {
        kind: Kind::End,
        at: 0,
        len: 0,
    }
}

/// What is wrong with a token that can't stand there, or with the end of the text.
fn misread(text: &str, tokens: &[Token], index: usize) -> Fault {
    match tokens.get(index) {
        Some(token) if token.kind == Kind::Less => Fault {
            at: token.at,
            cause: Cause::OpenList,
        },
        Some(token) => Fault {
            at: token.at,
            cause: Cause::Misread,
        },
        None => Fault {
            at: text.len(),
            cause: Cause::Misread,
        },
    }
}

/// Why no token begins at an index.
fn untokenized(text: &[u8], at: usize) -> Cause {
    match text.get(at..) {
        Some([b'/', b'*', ..]) => Cause::OpenComment,
        _ => Cause::Strange,
    }
}
