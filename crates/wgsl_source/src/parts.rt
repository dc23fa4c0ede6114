// The parts of a declaration: slices of its events.
ghost use Rattle.std.specs.Prelude.{◌≡◌, ◌≢◌, ◌+◌, [], ◌∷◌, ◌<◌, ◌≤◌, ◌^◌, IfSome, MatchOption, drop, length, slice_get, take};
ghost use Rattle.wgsl_source.specs.Declarations.{BehindAttributes, argument_len, attribute_len, calls_behind, diagnostic_len, end_of, inner, is_argument, is_diagnostic, is_diagnostic_mark, is_end, len_to, list_len, unclosed_behind, unclosed_len, without_last};

use wgsl_reader::mark::Mark;
use wgsl_reader::read::Event;

/// What stands in front, and what stands behind it.
#[derive(Clone, Copy)]
pub struct Split<'e> {
    pub front: &'e [Event],
    pub rest: &'e [Event],
}

/// The events up to an index, and those behind it.
fn split_at<'e>(events: &'e [Event], index: usize) -> Split<'e>
    ensures front { result.front.now ≡ take index events.now }
    ensures rest { result.rest.now ≡ drop index events.now }
{
    let (front, rest) = events.split_at(index.min(events.len()));
    Split { front, rest }
}

/// What ends a part: its last event.
#[derive(Clone, Copy, PartialEq, Eq)]
pub enum End {
    Attribute,
    Typed,
    Member,
    Alias,
    Struct,
    Constant,
    Override,
    Variable,
    Function,
    Assertion,
    Directive,
}

/// The part that ends with such an event.
fn end_of(mark: Mark) -> Option<End>
    ensures { result ≡ end_of mark }
{
    match mark {
        Mark::Attribute => Some(End::Attribute),
        Mark::Typed => Some(End::Typed),
        Mark::Member => Some(End::Member),
        Mark::Alias => Some(End::Alias),
        Mark::Struct => Some(End::Struct),
        Mark::Const => Some(End::Constant),
        Mark::Override => Some(End::Override),
        Mark::Variable => Some(End::Variable),
        Mark::Function => Some(End::Function),
        Mark::ConstAssert => Some(End::Assertion),
        Mark::Enable | Mark::Requires | Mark::DiagnosticDirective => Some(End::Directive),
        _ => None,
    }
}

fn is_end(end: End, found: Option<End>) -> bool
    ensures { result ≡ is_end end found }
{
    match found {
        Some(other) => end == other,
        None => false,
    }
}

/// How many events there are up to the first one that ends such a part, and with it; none if there is no such event.
fn len_to(events: &[Event], end: End) -> usize
    ensures exact { result ≡ len_to end events.now }
    ensures bound { result ≤ length events.now }
{
    let mut at = 0;
    while at < events.len() {
        at += 1;
        if is_end(end, end_of(events[at - 1].mark)) {
            return at;
        }
    }
    0
}

/// How many events the attribute has that stands in front, if one does: `@size(16)`, `@const`, `@diagnostic(off, a)`.
fn attribute_len(events: &[Event]) -> usize
    ensures { result ≡ attribute_len events.now }
{
    match events {
        [first, ..] => match first.mark {
            Mark::AttributeName => len_to(events, End::Attribute),
            Mark::Severity => diagnostic_len(events),
            Mark::Attribute => 1,
            _ => 0,
        },
        [] => 0,
    }
}

/// How many events `@diagnostic(off, a)` has, with which these begin; none if they are a directive.
fn diagnostic_len(events: &[Event]) -> usize
    ensures { result ≡ diagnostic_len events.now }
{
    if is_diagnostic(events, 2) {
        3
    } else if is_diagnostic(events, 3) {
        4
    } else {
        0
    }
}

/// Whether an attribute `@diagnostic(..)` ends with the event at an index.
fn is_diagnostic(events: &[Event], index: usize) -> bool
    ensures { result ≡ is_diagnostic (slice_get events.now index) }
{
    match events.get(index) {
        Some(event) => is_diagnostic_mark(event.mark),
        None => false,
    }
}

fn is_diagnostic_mark(mark: Mark) -> bool
    ensures { result ≡ is_diagnostic_mark mark }
{
    matches!(mark, Mark::DiagnosticAttribute)
}

/// The attribute in front, if there is one.
pub fn split_attribute<'e>(events: &'e [Event]) -> Option<Split<'e>>
    ensures exact { MatchOption result (attribute_len events.now ≡ 0)
        (λ split. (attribute_len events.now ≢ 0) × (split.front.now ≡ take (attribute_len events.now) events.now)
        × (split.rest.now ≡ drop (attribute_len events.now) events.now)) }
    ensures less { IfSome result (λ split. length split.rest.now < length events.now) }
{
    match attribute_len(events) {
        0 => None,
        len => Some(split_at(events, len)),
    }
}

/// The events behind the attributes in front.
pub fn behind_attributes<'e>(events: &'e [Event]) -> &'e [Event]
    ensures { BehindAttributes events.now result.now }
{
    let mut rest = events;
    while let Some(split) = split_attribute(rest) {
        rest = split.rest;
    }
    rest
}

/// The argument in front, with its `Argument`, if there is one.
pub fn split_argument<'e>(events: &'e [Event]) -> Option<Split<'e>>
    ensures exact { MatchOption result (argument_len 0 events.now ≡ 0)
        (λ split. (argument_len 0 events.now ≢ 0) × (split.front.now ≡ take (argument_len 0 events.now) events.now)
        × (split.rest.now ≡ drop (argument_len 0 events.now) events.now)) }
    ensures less { IfSome result (λ split. length split.rest.now < length events.now) }
{
    match argument_len(events) {
        0 => None,
        len => Some(split_at(events, len)),
    }
}

/// How many events the argument in front has, with its `Argument`; none if there is none.
fn argument_len(events: &[Event]) -> usize
    ensures exact { result ≡ argument_len 0 events.now }
    ensures bound { result ≤ length events.now }
{
    let mut calls = 0;
    let mut at = 0;
    while at < events.len() {
        let mark = events[at].mark;
        at += 1;
        if calls == 0 && is_argument(mark) {
            return at;
        }
        calls = calls_behind(calls, mark);
    }
    0
}

fn is_argument(mark: Mark) -> bool
    ensures { result ≡ is_argument mark }
{
    matches!(mark, Mark::Argument)
}

/// How many calls are open behind an event.
fn calls_behind(calls: usize, mark: Mark) -> usize
    requires { calls + 1 < 2 ^ 64 }
    ensures exact { result ≡ calls_behind calls mark }
    ensures bound { result ≤ calls + 1 }
{
    match mark {
        Mark::Open => calls + 1,
        Mark::Call => calls.saturating_sub(1),
        _ => calls,
    }
}

/// The template list in front, if there is one.
pub fn split_list<'e>(events: &'e [Event]) -> Split<'e>
    ensures front { result.front.now ≡ take (list_len events.now) events.now }
    ensures rest { result.rest.now ≡ drop (list_len events.now) events.now }
{
    split_at(events, list_len(events))
}

/// How many events the template list has that stands in front, if one does.
fn list_len(events: &[Event]) -> usize
    ensures { result ≡ list_len events.now }
{
    match events {
        [first, rest @ ..] => match first.mark {
            Mark::OpenTemplate => 1 + unclosed_len(rest),
            _ => 0,
        },
        [] => 0,
    }
}

/// How many events there are up to the one that closes a list.
fn unclosed_len(events: &[Event]) -> usize
    ensures exact { result ≡ unclosed_len 1 events.now }
    ensures bound { result ≤ length events.now }
{
    let mut lists = 1;
    let mut at = 0;
    while at < events.len() {
        lists = unclosed_behind(lists, events[at].mark);
        at += 1;
        if lists == 0 {
            return at;
        }
    }
    at
}

/// How many lists are unclosed behind an event.
fn unclosed_behind(lists: usize, mark: Mark) -> usize
    requires { lists + 1 < 2 ^ 64 }
    ensures exact { result ≡ unclosed_behind lists mark }
    ensures bound { result ≤ lists + 1 }
{
    match mark {
        Mark::OpenTemplate => lists + 1,
        Mark::Template => lists.saturating_sub(1),
        _ => lists,
    }
}

/// The declared type behind a name, with its `Typed`; nothing if none is declared.
pub fn split_typed<'e>(events: &'e [Event]) -> Split<'e>
    ensures front { result.front.now ≡ take (len_to End.Typed events.now) events.now }
    ensures rest { result.rest.now ≡ drop (len_to End.Typed events.now) events.now }
{
    split_at(events, len_to(events, End::Typed))
}

/// The part in front that ends so, with its end, if there is one.
pub fn split_to<'e>(events: &'e [Event], end: End) -> Option<Split<'e>>
    ensures exact { MatchOption result (len_to end events.now ≡ 0)
        (λ split. (len_to end events.now ≢ 0) × (split.front.now ≡ take (len_to end events.now) events.now)
        × (split.rest.now ≡ drop (len_to end events.now) events.now)) }
    ensures less { IfSome result (λ split. length split.rest.now < length events.now) }
{
    match len_to(events, end) {
        0 => None,
        len => Some(split_at(events, len)),
    }
}

/// The events without the first and the last one.
pub fn inner<'e>(events: &'e [Event]) -> &'e [Event]
    ensures { result.now ≡ inner events.now }
{
    match events {
        [_, inside @ .., _] => inside,
        _ => &[],
    }
}

/// The first event, and those behind it.
pub fn split_first<'e>(events: &'e [Event]) -> Option<(Event, &'e [Event])>
    ensures { MatchOption result (events.now ≡ []) (λ found. events.now ≡ found.0 ∷ found.1.now) }
{
    match events {
        [first, rest @ ..] => Some((*first, rest)),
        [] => None,
    }
}

/// The events without the last one.
pub fn without_last<'e>(events: &'e [Event]) -> &'e [Event]
    ensures { result.now ≡ without_last events.now }
{
    match events {
        [rest @ .., _] => rest,
        [] => events,
    }
}
