// Which events of a module are a declaration.

ghost use Rattle.std.specs.Prelude.{◌≡◌, ◌<◌, ◌≤◌, ◌-◌, ◌^◌, IfOk, false, length, map, slice_range};
ghost use Rattle.wgsl_module.specs.Declarations.{begun, body_up_to, deeper, ended, is_name, kind_of, name_of, written, written_in};

use std::alloc::{AllocError, Global};
use wgsl_reader::mark::Mark;
use wgsl_reader::read::Event;

/// What a declaration is, by its last event.
#[derive(Clone, Copy, PartialEq, Eq)]
pub enum DeclarationKind {
    Alias,
    Struct,
    Const,
    Override,
    Variable,
    Function,
    Assertion,
    Enable,
    /// Another directive.
    Directive,
    /// What the grammar doesn't read.
    Misread,
}

/// A declaration, with its events.
#[derive(Clone, Copy)]
pub struct Declaration<'t> {
    pub kind: DeclarationKind,
    /// How many tokens there are up to its name, if it has one.
    pub named: Option<usize>,
    /// Its events but the last one: of a function those in front of its body.
    pub events: &'t [Event],
    /// The body of a function.
    pub body: &'t [Event],
}

/// The kind of declaration that ends with such an event, if one does.
fn kind_of(mark: Mark) -> Option<DeclarationKind>
    ensures { result ≡ kind_of mark }
{
    match mark {
        Mark::Alias => Some(DeclarationKind::Alias),
        Mark::Struct => Some(DeclarationKind::Struct),
        Mark::Const => Some(DeclarationKind::Const),
        Mark::Override => Some(DeclarationKind::Override),
        Mark::Variable => Some(DeclarationKind::Variable),
        Mark::Function => Some(DeclarationKind::Function),
        Mark::ConstAssert => Some(DeclarationKind::Assertion),
        Mark::Enable => Some(DeclarationKind::Enable),
        Mark::Requires | Mark::DiagnosticDirective => Some(DeclarationKind::Directive),
        _ => None,
    }
}

/// The kind of declaration that ends with such an event: in the body of a function none does, but for the function.
fn ended(mark: Mark, is_in_body: bool) -> Option<DeclarationKind>
    ensures { result ≡ ended mark is_in_body }
{
    match mark {
        Mark::Function => Some(DeclarationKind::Function),
        _ if is_in_body => None,
        mark => kind_of(mark),
    }
}

/// Where the body begins that is read behind the event at an index.
fn begun(mark: Mark, index: usize, body: Option<usize>) -> Option<usize>
    ensures { result ≡ begun mark index body }
{
    match (mark, body) {
        (Mark::Begin, None) => Some(index),
        (_, body) => body,
    }
}

/// The events from an index up to another one; none if they aren't there.
fn between<'t>(events: &'t [Event], from: usize, to: usize) -> &'t [Event]
    ensures { to ≤ length events.now → result.now ≡ slice_range events.now from to }
{
    events.get(from..to).unwrap_or(&[])
}

/// The events from where a body began up to an index; none where none began.
fn body_up_to<'t>(events: &'t [Event], body: Option<usize>, index: usize) -> &'t [Event]
    ensures { index ≤ length events.now → result.now ≡ body_up_to events.now body index }
{
    match body {
        Some(from) => between(events, from, index),
        None => &[],
    }
}

/// The declarations of a module's events, in order.
pub fn declarations<'t>(
    alloc: Global,
    events: &'t [Event],
) -> Result<Vec<Declaration<'t>>, AllocError>
    ensures { IfOk result (λ found. map written found.items ≡ written_in false events.now) }
{
    let mut found = Vec::new(alloc);
    let mut from = 0;
    let mut body = None;
    for (index, event) in events.iter().enumerate() {
        let Some(kind) = ended(event.mark, body.is_some()) else {
            body = begun(event.mark, index, body);
            continue;
        };
        let own = between(events, from, body.unwrap_or(index));
        found.push(Declaration {
            kind,
            named: name_of(kind, own),
            events: own,
            body: body_up_to(events, body, index),
        })?;
        from = index + 1;
        body = None;
    }
    Ok(found)
}

/// How many attributes and template lists are open behind an event.
fn deeper(mark: Mark, depth: usize) -> usize
    ensures { depth < 2 ^ 64 - 1 → result ≡ deeper mark depth }
{
    match mark {
        Mark::AttributeName | Mark::OpenTemplate => depth.saturating_add(1),
        Mark::Attribute | Mark::Template => depth.saturating_sub(1),
        _ => depth,
    }
}

fn is_name(mark: Mark) -> bool
    ensures { result ≡ is_name mark }
{
    matches!(mark, Mark::Name)
}

/// The number of tokens up to the name of a declaration: the first name outside of attributes and template lists.
fn name_of(kind: DeclarationKind, events: &[Event]) -> Option<usize>
    ensures { result ≡ name_of kind events.now }
{
    if kind == DeclarationKind::Assertion {
        return None;
    }
    let mut depth: usize = 0;
    for event in events {
        if is_name(event.mark) && depth == 0 {
            return Some(event.at);
        }
        depth = deeper(event.mark, depth);
    }
    None
}
