// What a text is: an expression, a declaration or a statement.
ghost use Rattle.std.specs.Prelude.{◌≡◌, ◌+◌, ◌<◌, ◌≤◌, ◌^◌, [], Ok, map};
ghost use Rattle.wgsl_requests.specs.expressions.Prelude.{listed, tokens_of};
ghost use Rattle.wgsl_requests.specs.expressions.RequestTokens.{asked_behind, operand_token};
ghost use Rattle.wgsl_requests.specs.expressions.Typing.{MovesBy, MovesIn, NotedBy, TextIs, TokensAre, closed_by, declaration_of, opened_by, whole};
ghost use Rattle.wgsl_requests.specs.expressions.Views.{AsksIn, Finds, IsAskedLine, IsTypedText, Moves, items_view, scope_view, source_view};

use crate::expressions::heading::{declare_function, declare_struct};
use crate::expressions::misread::expecting;
use crate::expressions::prelude::*;
use crate::expressions::request_token::{as_asked, as_operand};
use crate::expressions::step::step;
use wgsl_reader::expected::may_stand_behind;
use wgsl_reader::lists::tokens_of;
use wgsl_reader::read::read;
use wgsl_reader::rule::Rule;
use wgsl_spelling::operator::binary_of;

/// What is expected where a token of such a kind may stand.
static WANTED: &[(Kind, Wanted)] = &[
    (Kind::Number, Wanted::Operand),
    (Kind::Struct, Wanted::Type),
    (Kind::Name, Wanted::Name),
    (Kind::CloseRound, Wanted::Parenthesis),
    (Kind::CloseSquare, Wanted::Bracket),
    (Kind::CloseTemplate, Wanted::ListEnd),
    (Kind::PlusPlus, Wanted::Assignment),
    (Kind::Equal, Wanted::Equal),
    (Kind::Case, Wanted::Clause),
    (Kind::Semicolon, Wanted::End),
    (Kind::Comma, Wanted::Comma),
    (Kind::OpenCurly, Wanted::Brace),
    (Kind::CloseCurly, Wanted::CloseBrace),
];

/// The type of the expression that a text spells (WGSL, "Expressions"), with the names of a scope, or its first part without a type
/// and why. The error says from where on the text is no expression.
pub fn type_of_expression(alloc: Global, scope: &mut Scope, text: &str) -> Read<Outcome>
    ensures { IsTypedText (scope_view scope.old) text.now result }
{
    match item_of_text(alloc, scope, text)? {
        Item::Operand(x) => Ok(x),
        other => {
            drop(other);
            Err(expecting(0, Wanted::Operand))
        }
    }
}

/// What the tokens of a text are as an expression.
fn item_of_text(alloc: Global, scope: &mut Scope, text: &str) -> Read<Item>
    ensures { Finds (TextIs (scope_view scope.old) text.now (listed (tokens_of text.now))) result }
{
    match tokens_of(alloc, text.as_bytes())? {
        Ok(tokens) => {
            let mut tokens = tokens;
            all_as_operands(&mut tokens);
            let item = item_of_tokens(alloc, scope, Rule::Expression, text, &tokens);
            drop(tokens);
            item
        }
        Err(at) => Err(expecting(at, Wanted::Token)),
    }
}

/// What a line asks; None if it has no tokens. The error says from where on it is no request.
pub(crate) fn item_of_line(alloc: Global, line: &str) -> Read<Option<Item>>
    ensures { IsAskedLine line.now result }
{
    match tokens_of(alloc, line.as_bytes())? {
        Ok(tokens) => item_of_asked(alloc, line, tokens),
        Err(at) => Err(expecting(at, Wanted::Token)),
    }
}

/// What the tokens of a line ask; None if there are none.
fn item_of_asked(alloc: Global, line: &str, tokens: Vec<Token>) -> Read<Option<Item>>
    ensures { AsksIn line.now tokens.items result }
{
    if tokens.is_empty() {
        drop(tokens);
        return Ok(None);
    }
    Ok(Some(item_of_some(alloc, line, tokens)?))
}

/// What the tokens of a line ask, which has some.
fn item_of_some(alloc: Global, line: &str, tokens: Vec<Token>) -> Read<Item>
    ensures { Finds (TokensAre [] Rule.Request line.now (asked_behind line.now Kind.End tokens.items)) result }
{
    let mut tokens = tokens;
    as_asked(line, &mut tokens);
    let mut scope = Scope::empty(alloc);
    let item = item_of_tokens(alloc, &mut scope, Rule::Request, line, &tokens);
    drop(scope);
    drop(tokens);
    item
}

/// Takes each `const` for one in front of an operand's type.
fn all_as_operands(tokens: &mut [Token])
    ensures { tokens.new ≡ map operand_token tokens.old }
{
    let mut at = 0;
    while at < tokens.len() {
        tokens[at].kind = as_operand(tokens[at].kind);
        at += 1;
    }
}

/// What all tokens are.
fn item_of_tokens(
    alloc: Global,
    scope: &mut Scope,
    rule: Rule,
    text: &str,
    tokens: &[Token],
) -> Read<Item>
    ensures { Finds (TokensAre (scope_view scope.old) rule text.now tokens.now) result }
{
    match read(alloc, rule, tokens, 0)? {
        Ok(events) => {
            let item = item_of_events(alloc, scope, text, tokens, &events);
            drop(events);
            item
        }
        Err(at) => Err(Fail::Error(misread_at(alloc, rule, text, tokens, at)?)),
    }
}

/// What comes of what is noted, with the names of a scope, to which those are added that are declared.
fn item_of_events(
    alloc: Global,
    scope: &mut Scope,
    text: &str,
    tokens: &[Token],
    events: &[Event],
) -> Read<Item>
    ensures { Finds (NotedBy (scope_view scope.old) text.now tokens.now (Ok events.now)) result }
{
    let source = Source {
        alloc,
        text,
        tokens,
        events,
    };
    let mut items = Vec::with_capacity(alloc, 8)?;
    let mut opened: usize = 0;
    let mut index = 0;
    while index < events.len() {
        let event = events[index];
        opened = closed_by(opened, event.mark);
        step_in(&source, scope, opened, index, event, &mut items)?;
        opened = opened_by(opened, event.mark);
        index += 1;
    }
    whole(&source, items)
}

/// Does with the names and the items what is noted at an index, where this many lists are open. In a list nothing is done: a name has
/// its list.
fn step_in(
    source: &Source<'_>,
    scope: &mut Scope,
    opened: usize,
    index: usize,
    event: Event,
    items: &mut Items,
) -> Read<()>
    ensures { Moves (MovesIn opened (source_view source.now) index event (scope_view scope.old, items_view items.old.items)) scope.new items.new.items result }
{
    if opened == 0 {
        declare_or_step(source, scope, index, event, items)
    } else {
        Ok(())
    }
}

fn declare_or_step(
    source: &Source<'_>,
    scope: &mut Scope,
    index: usize,
    event: Event,
    items: &mut Items,
) -> Read<()>
    ensures { Moves (MovesBy (declaration_of event.mark) (source_view source.now) index event (scope_view scope.old, items_view items.old.items)) scope.new items.new.items result }
{
    match event.mark {
        Mark::Struct => declare_struct(source, scope, items),
        Mark::Function => declare_function(source, scope, items),
        _ => step(source, scope, index, event, items),
    }
}

/// How many lists are open behind the end of a template list or of an attribute.
#[tactic(auto, using(crate::proofs::Steps::none_closed))]
fn closed_by(opened: usize, mark: Mark) -> usize
    ensures exact { result ≡ closed_by opened mark }
    ensures few { result ≤ opened }
{
    if opened == 0 {
        return 0;
    }
    match mark {
        Mark::Template | Mark::Attribute => opened.saturating_sub(1),
        _ => opened,
    }
}

/// How many lists are open behind the beginning of one.
fn opened_by(opened: usize, mark: Mark) -> usize
    requires { opened + 1 < 2 ^ 64 }
    ensures exact { result ≡ opened_by opened mark }
    ensures few { result ≤ opened + 1 }
{
    match mark {
        Mark::OpenTemplate | Mark::AttributeName => opened + 1,
        _ => opened,
    }
}

/// The one item that is left.
fn whole(source: &Source<'_>, items: Vec<Item>) -> Read<Item>
    ensures { Finds (λ r. r ≡ whole (items_view items.items)) result }
{
    let mut items = items;
    let item = items.pop();
    let is_alone = items.is_empty();
    drop(items);
    match item {
        Some(item) if is_alone => Ok(item),
        other => {
            drop(other);
            Err(source.misread(1, Wanted::Operand))
        }
    }
}

/// Where the first token is that can't stand there, and what may stand in its place; in front of it, a number that it is part
/// of: `1.5u`.
fn misread_at(
    alloc: Global,
    rule: Rule,
    text: &str,
    tokens: &[Token],
    count: usize,
) -> Made<Misread> {
    match (tokens.get(count.saturating_sub(1)), tokens.get(count)) {
        (Some(number), Some(token)) if is_in_number(*number, *token) => Ok(Misread {
            at: number.at,
            wanted: Wanted::Operand,
        }),
        (_, next) => Ok(Misread {
            at: next.map_or(text.len(), |token| token.at),
            wanted: wanted_at(alloc, rule, tokens, count)?,
        }),
    }
}

/// Whether a token begins where a number ends.
fn is_in_number(number: Token, token: Token) -> bool {
    number.kind == Kind::Number
        && token.at.saturating_sub(number.at) == number.len
        && matches!(token.kind, Kind::Name | Kind::Number)
}

/// What may stand behind that many tokens, in place of the next one.
fn wanted_at(alloc: Global, rule: Rule, tokens: &[Token], count: usize) -> Made<Wanted> {
    let front = tokens.get(..count).unwrap_or(tokens);
    match (first_wanted(alloc, rule, front)?, tokens.get(count)) {
        (Wanted::End, Some(token)) if binary_of(token.kind).is_some() => Ok(Wanted::Grouping),
        (wanted, _) => Ok(wanted),
    }
}

/// What may stand behind these tokens.
fn first_wanted(alloc: Global, rule: Rule, tokens: &[Token]) -> Made<Wanted> {
    for (kind, wanted) in WANTED {
        if may_stand_behind(alloc, rule, tokens, *kind)? {
            return Ok(*wanted);
        }
    }
    Ok(Wanted::End)
}
