// What was read of a request and isn't yet part of anything else.
ghost use Rattle.std.specs.Prelude.{◌≡◌, ◌∷◌, Some, map};
ghost use Rattle.wgsl_requests.specs.expressions.Stack.{asked_on, call_on, heading_on, operand_on, place_on, with_operand};
ghost use Rattle.wgsl_requests.specs.expressions.Views.{IsMisread, Does, Takes, asked_view, call_view, heading_view, item_view, items_view, outcome_view};

use crate::expressions::heading::Heading;
use crate::expressions::outcome::is_too_deep;
use crate::expressions::prelude::*;

/// A call with its arguments so far.
#[derive(Drop)]
pub struct Call {
    /// The index of its first byte.
    pub at: usize,
    pub head: Head,
    pub parts: Parts,
}

/// A declaration, a statement or another request, with its types and its parts so far.
#[derive(Drop)]
pub struct Asked {
    pub statement: Statement,
    pub types: Vec<Type>,
    pub parts: Parts,
}

/// What was read and isn't yet part of anything else.
#[derive(Drop)]
pub enum Item {
    Operand(Outcome),
    /// A name, by the index at which it is noted; an operator, by the number of tokens up to it; the `[` behind an operand, by
    /// the index of its byte.
    Place(usize),
    Call(Call),
    Heading(Heading),
    Asked(Asked),
    /// What is asked about a call.
    Question(Question, Call),
    /// `overloads f`, by the token of the name.
    Overloads(Token),
}

/// What was read, the last on top.
pub type Items = Vec<Item>;

/// Puts an item on top.
pub fn push(item: Item, items: &mut Items) -> Read<()>
    ensures { Does (λ r. r ≡ Some (item_view item ∷ items_view items.old.items)) items.new.items result }
{
    items.push(item)?;
    Ok(())
}

/// Puts an operand that ends behind that many tokens, if its type isn't too deep.
pub fn put(source: &Source<'_>, x: Outcome, items: &mut Items) -> Read<()>
    ensures { Does (λ r. r ≡ with_operand (outcome_view x) (items_view items.old.items)) items.new.items result }
{
    if is_too_deep(&x) {
        drop(x);
        return Err(source.misread(1, Wanted::Shallower));
    }
    push(Item::Operand(x), items)
}

/// Takes the operand on top.
pub fn take_operand(source: &Source<'_>, items: &mut Items) -> Read<Outcome>
    ensures { Takes outcome_view (operand_on (items_view items.old.items)) items.new.items result }
{
    match items.pop() {
        Some(Item::Operand(x)) => Ok(x),
        other => Err(without(source, other)),
    }
}

/// Takes the name, the operator or the bracket on top, by the number of its place.
pub fn take_place(source: &Source<'_>, items: &mut Items) -> Read<usize>
    ensures { Takes (λ n. n) (place_on (items_view items.old.items)) items.new.items result }
{
    match items.pop() {
        Some(Item::Place(place)) => Ok(place),
        other => Err(without(source, other)),
    }
}

/// Takes the call on top. The error is that something else was expected of the last of that many tokens.
pub fn take_call(source: &Source<'_>, count: usize, wanted: Wanted, items: &mut Items) -> Read<Call>
    ensures { Takes call_view (call_on (items_view items.old.items)) items.new.items result }
{
    match items.pop() {
        Some(Item::Call(call)) => Ok(call),
        other => {
            drop(other);
            Err(source.misread(count, wanted))
        }
    }
}

/// Takes the struct or the function on top.
pub fn take_heading(source: &Source<'_>, items: &mut Items) -> Read<Heading>
    ensures { Takes heading_view (heading_on (items_view items.old.items)) items.new.items result }
{
    match items.pop() {
        Some(Item::Heading(heading)) => Ok(heading),
        other => Err(without(source, other)),
    }
}

/// Takes the request on top.
pub fn take_asked(source: &Source<'_>, items: &mut Items) -> Read<Asked>
    ensures { Takes asked_view (asked_on (items_view items.old.items)) items.new.items result }
{
    match items.pop() {
        Some(Item::Asked(asked)) => Ok(asked),
        other => Err(without(source, other)),
    }
}

/// The error that something else is on top.
fn without(source: &Source<'_>, top: Option<Item>) -> Fail<Misread>
    ensures { IsMisread result }
{
    drop(top);
    source.misread(1, Wanted::Operand)
}
