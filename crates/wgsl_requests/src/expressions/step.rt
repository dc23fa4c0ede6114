// What is done with what was read, by what is noted.
ghost use Rattle.std.specs.Prelude.{◌≡◌, ◌∷◌, IfOk, None, Some, length, map};
ghost use Rattle.wgsl_core.specs.View.{view};
ghost use Rattle.wgsl_requests.specs.expressions.Outcomes.{IsCalled, no_parts, overloaded, with_part};
ghost use Rattle.wgsl_requests.specs.expressions.Prelude.{a_binary, a_unary};
ghost use Rattle.wgsl_requests.specs.expressions.Source.{noted};
ghost use Rattle.wgsl_requests.specs.expressions.Stack.{a_call};
ghost use Rattle.wgsl_requests.specs.expressions.Steps.{Argument, Binary, Calls, Element, Ends, Given, Literal, Member, Opens, Unary, asks_behind, asks_call, call_with, given};
ghost use Rattle.wgsl_requests.specs.expressions.Typing.{Steps};
ghost use Rattle.wgsl_requests.specs.expressions.Views.{Does, call_view, head_view, items_view, outcome_view, refused_view, scope_view, shown, source_view, typed_view};

use crate::expressions::ask::{binary, call, element, member};
use crate::expressions::heading::{
    begin_heading, put_attribute, put_member as put_declared, put_result,
};
use crate::expressions::item::{Call, push, put, take_call, take_operand, take_place};
use crate::expressions::name::head_noted;
use crate::expressions::outcome::{given, with_part};
use crate::expressions::prelude::*;
use crate::expressions::source::first_count;
use crate::expressions::statement_step::{
    annotate, assign, assign_by, begin, increment, put_access, put_asked, put_overloads, put_space,
    put_struct_type, put_value,
};
use wgsl_spelling::operator::{binary_of, unary_of};
use wgsl_spelling::value::type_of_literal;
use wgsl_standard::forms::concrete::has_abstract_type;

/// Does with the items what is noted at an index, with the names of a scope: the last item is on top.
#[inline(always)]
pub fn step(
    source: &Source<'_>,
    scope: &Scope,
    index: usize,
    event: Event,
    items: &mut Items,
) -> Read<()>
    ensures { Does (Steps (source_view source.now) (scope_view scope.now) index event.mark event.at (items_view items.old.items)) items.new.items result }
{
    match event.mark {
        Mark::Literal => put_literal(source, event.at, items),
        Mark::Name | Mark::AttributeName => push(Item::Place(index), items),
        Mark::Value => put_given(source, scope, index, false, items),
        Mark::Constant => put_given(source, scope, index, true, items),
        Mark::Open => open(source, scope, index, items),
        Mark::OpenElement => push(Item::Place(source.byte_at(event.at)), items),
        Mark::Argument => put_argument(source, items),
        Mark::Call => put_call(source, index, items),
        Mark::MemberOf => put_member(source, event.at, items),
        Mark::Element => put_element(source, items),
        Mark::Operator => push(Item::Place(event.at), items),
        Mark::Unary => put_unary(source, index, items),
        Mark::Binary => put_binary(source, index, items),
        Mark::Keyword => begin(source, scope, event.at, items),
        Mark::AddressSpace => put_space(source, event.at, items),
        Mark::AccessMode => put_access(source, event.at, items),
        Mark::Typed => annotate(source, scope, index, items),
        Mark::Initialized | Mark::Condition => put_value(source, items),
        Mark::Selector | Mark::CaseSelector | Mark::Returned => put_value(source, items),
        Mark::Assign => assign(source, items),
        Mark::AssignBy => assign_by(source, items),
        Mark::Increment | Mark::Decrement => increment(source, items),
        Mark::CallStatement => put_asked(source, Question::Type, event.at, items),
        Mark::Resolve => put_asked(source, Question::Resolution, event.at, items),
        Mark::Why => put_asked(source, Question::Explanation, event.at, items),
        Mark::Overloads => put_overloads(source, event.at, items),
        Mark::StructType => put_struct_type(source, items),
        Mark::Heading => begin_heading(source, event.at, items),
        Mark::Attribute => put_attribute(source, index, items),
        Mark::Member | Mark::Parameter => put_declared(source, scope, index, items),
        Mark::Result => put_result(source, scope, index, items),
        _ => Ok(()),
    }
}

/// `1.5`, `true`
fn put_literal(source: &Source<'_>, count: usize, items: &mut Items) -> Read<()>
    ensures { Does (Literal (source_view source.now) count (items_view items.old.items)) items.new.items result }
{
    match source.last(count) {
        Some(token) => {
            let scalar = type_of_literal(token.kind, word(source.text, token).as_bytes());
            push(Item::Operand(Ok(given(Type::from(scalar), true))), items)
        }
        None => Err(source.misread(count, Wanted::Operand)),
    }
}

/// `f32`, `const f32`
#[inline(always)]
fn put_given(
    source: &Source<'_>,
    scope: &Scope,
    index: usize,
    is_const: bool,
    items: &mut Items,
) -> Read<()>
    ensures { Does (Given is_const (source_view source.now) (scope_view scope.now) index (items_view items.old.items)) items.new.items result }
{
    let from = take_place(source, items)?;
    let noted = source.noted(from, index);
    match source.type_noted(scope, noted)? {
        Ok((ty, _)) => {
            let is_constant = is_const || has_abstract_type(&ty);
            put(source, Ok(given(ty, is_constant)), items)
        }
        Err(fault) if is_const => Err(untyped(fault, Wanted::Type)),
        Err(fault) => Err(untyped(fault, Wanted::Operand)),
    }
}

/// The `(` behind what is called by the name that is noted with its list.
fn open(source: &Source<'_>, scope: &Scope, index: usize, items: &mut Items) -> Read<()>
    ensures { Does (Opens (source_view source.now) (scope_view scope.now) index (items_view items.old.items)) items.new.items result }
{
    let from = take_place(source, items)?;
    let noted = source.noted(from, index);
    let count = first_count(noted);
    match head_noted(source, scope, noted)? {
        Ok(head) => push_call(source.alloc, source.byte_at(count), head, items),
        Err(fault) => Err(untyped(fault, Wanted::Type)),
    }
}

/// Begins a call, whose first byte is at that index.
fn push_call(alloc: Global, at: usize, head: Head, items: &mut Items) -> Read<()>
    ensures { Does (λ r. r ≡ Some (a_call (call_with at (head_view head) no_parts) ∷ items_view items.old.items)) items.new.items result }
{
    let parts = Ok(Vec::with_capacity(alloc, 4)?);
    push(Item::Call(Call { at, head, parts }), items)
}

/// One more argument.
fn put_argument(source: &Source<'_>, items: &mut Items) -> Read<()>
    ensures { Does (Argument (items_view items.old.items)) items.new.items result }
{
    let x = take_operand(source, items)?;
    let Call { at, head, parts } = take_call(source, 1, Wanted::Operand, items)?;
    let parts = with_part(parts, x)?;
    push(Item::Call(Call { at, head, parts }), items)
}

/// `f(a, b)`
fn put_call(source: &Source<'_>, index: usize, items: &mut Items) -> Read<()>
    ensures { Does (Calls (source_view source.now) index (items_view items.old.items)) items.new.items result }
{
    let call = take_call(source, 1, Wanted::Operand, items)?;
    end_call(source, index, call, items)
}

/// Puts a call with all of its operands, or its type if nothing is asked about the call itself.
fn end_call(source: &Source<'_>, index: usize, call: Call, items: &mut Items) -> Read<()>
    ensures { Does (Ends (source_view source.now) index (call_view call) (items_view items.old.items)) items.new.items result }
{
    if is_asked(source, index) {
        return push(Item::Call(call), items);
    }
    let outcome = called(source.alloc, call)?;
    put(source, outcome, items)
}

/// Whether something is asked about the call that ends with the event at an index.
#[inline(never)]
fn is_asked(source: &Source<'_>, index: usize) -> bool
    ensures { result ≡ asks_behind (noted (source_view source.now) index (length source.now.events.now)) }
{
    asks_behind(source.noted(index, source.events.len()))
}

/// Whether what is noted behind the first event asks about it.
fn asks_behind(events: &[Event]) -> bool
    ensures { result ≡ asks_behind events.now }
{
    match events {
        [_, rest @ ..] => asks_call(rest),
        [] => false,
    }
}

/// Whether the next event, but for brackets, asks about what is in front of it.
fn asks_call(events: &[Event]) -> bool
    ensures { result ≡ asks_call events.now }
{
    for event in events {
        match event.mark {
            Mark::Brackets => {}
            Mark::Resolve | Mark::Why | Mark::CallStatement => return true,
            _ => return false,
        }
    }
    false
}

/// The outcome of a call.
fn called(alloc: Global, ended: Call) -> Made<Outcome>
    ensures { IfOk result (λ r. IsCalled ended.at (head_view ended.head) (shown (λ v. map typed_view v.items) refused_view ended.parts) (outcome_view r)) }
{
    let Call { at, head, parts } = ended;
    let outcome = call(alloc, at, &head, parts);
    drop(head);
    outcome
}

/// `a.x`
fn put_member(source: &Source<'_>, count: usize, items: &mut Items) -> Read<()>
    ensures { Does (Member (source_view source.now) count (items_view items.old.items)) items.new.items result }
{
    let x = take_operand(source, items)?;
    let outcome = member(
        source.alloc,
        source.byte_at(count),
        source.text_at(count),
        x,
    )?;
    put(source, outcome, items)
}

/// `a[i]`
fn put_element(source: &Source<'_>, items: &mut Items) -> Read<()>
    ensures { Does (Element (items_view items.old.items)) items.new.items result }
{
    let index = take_operand(source, items)?;
    let at = take_place(source, items)?;
    let x = take_operand(source, items)?;
    let outcome = element(source.alloc, at, x, index)?;
    put(source, outcome, items)
}

/// `-a`
fn put_unary(source: &Source<'_>, index: usize, items: &mut Items) -> Read<()>
    ensures { Does (Unary (source_view source.now) index (items_view items.old.items)) items.new.items result }
{
    let x = take_operand(source, items)?;
    let count = take_place(source, items)?;
    match unary_of(source.kind_at(count)) {
        Some(operator) => end_unary(source, index, source.byte_at(count), operator, x, items),
        None => {
            drop(x);
            Err(source.misread(count, Wanted::Operand))
        }
    }
}

/// Puts a unary expression whose operator is at that byte, or its type if nothing is asked about it.
fn end_unary(
    source: &Source<'_>,
    index: usize,
    at: usize,
    operator: UnaryOperator,
    x: Outcome,
    items: &mut Items,
) -> Read<()>
    ensures { Does (Ends (source_view source.now) index (call_with at (overloaded (a_unary operator) None) (with_part no_parts (outcome_view x)))
        (items_view items.old.items)) items.new.items result }
{
    let head = Head::Unary(operator);
    let parts = with_part(Ok(Vec::with_capacity(source.alloc, 1)?), x)?;
    end_call(source, index, Call { at, head, parts }, items)
}

/// `a + b`
fn put_binary(source: &Source<'_>, index: usize, items: &mut Items) -> Read<()>
    ensures { Does (Binary (source_view source.now) index (items_view items.old.items)) items.new.items result }
{
    let y = take_operand(source, items)?;
    let count = take_place(source, items)?;
    let x = take_operand(source, items)?;
    match binary_of(source.kind_at(count)) {
        Some(operator) => {
            end_binary(source, index, source.byte_at(count), operator, x, y, items)
        }
        None => {
            drop(x);
            drop(y);
            Err(source.misread(count, Wanted::Operand))
        }
    }
}

/// Puts a binary expression whose operator is at that byte, or its type if nothing is asked about it.
#[inline(always)]
fn end_binary(
    source: &Source<'_>,
    index: usize,
    at: usize,
    operator: BinaryOperator,
    x: Outcome,
    y: Outcome,
    items: &mut Items,
) -> Read<()>
    ensures { Does (Ends (source_view source.now) index (call_with at (overloaded (a_binary operator) None) (with_part (with_part no_parts (outcome_view x)) (outcome_view y)))
        (items_view items.old.items)) items.new.items result }
{
    if is_asked(source, index) {
        return push_binary(source.alloc, at, operator, x, y, items);
    }
    let outcome = binary(source.alloc, at, operator, x, y)?;
    put(source, outcome, items)
}

/// Puts a binary expression about which something is asked.
fn push_binary(
    alloc: Global,
    at: usize,
    operator: BinaryOperator,
    x: Outcome,
    y: Outcome,
    items: &mut Items,
) -> Read<()>
    ensures { Does (λ r. r ≡ Some (a_call (call_with at (overloaded (a_binary operator) None) (with_part (with_part no_parts (outcome_view x)) (outcome_view y)))
        ∷ items_view items.old.items)) items.new.items result }
{
    let head = Head::Binary(operator);
    let parts = both(alloc, x, y)?;
    push(Item::Call(Call { at, head, parts }), items)
}

/// Two operands as parts.
fn both(alloc: Global, x: Outcome, y: Outcome) -> Made<Parts>
    ensures { IfOk result (λ all. shown (λ v. map typed_view v.items) refused_view all ≡ with_part (with_part no_parts (outcome_view x)) (outcome_view y)) }
{
    let parts = with_part(Ok(Vec::with_capacity(alloc, 2)?), x)?;
    with_part(parts, y)
}
