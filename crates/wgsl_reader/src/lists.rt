// The tokens of a text with its template lists.
ghost use Rattle.std.specs.Prelude.{◌≡◌, ◌≢◌, ◌<◌, ◌≤◌, ◌+◌, IfOk, IsTrue, drop, length, reverse};
ghost use Rattle.wgsl_reader.specs.Lists.{begun, doubled, ended, ends_assignment, follows, greater, inside, is_named_by, joined, joined_by, listed, of_kind, opened_behind, outside, passed, step_at, with_lists};
ghost use Rattle.wgsl_reader.specs.Tokens.{tokens_in, tokens_of};
ghost use Rattle.wgsl_reader.specs.Seen.{search_of};
ghost use Rattle.wgsl_reader.specs.declared.kind.Kind.TheVariants.{Greater};

use crate::bytes::from;
use crate::kind::Kind;
use crate::token::{Token, tokens};
use std::alloc::{AllocError, Global};

/// What is open in front of a token.
#[derive(Clone, Copy)]
enum Opened {
    /// `(` or `[`
    Bracket,
    /// A `<` that may begin a list, by the index of its token.
    Less(usize),
}

/// What is known in front of a token.
#[derive(Drop)]
struct Search {
    tokens: Vec<Token>,
    /// Whether the last token is a name or `var`.
    is_named: bool,
    /// Brackets, and each `<` that may begin a list, the innermost last.
    opened: Vec<Opened>,
}

/// Whether a token of this kind begins where the first one ends.
fn follows(kind: Kind, tokens: &[Token]) -> bool
    ensures exact { result ≡ follows kind tokens.now }
    ensures two { IsTrue result → 2 ≤ length tokens.now }
{
    match tokens {
        [first, second, ..] => {
            second.kind == kind && first.at <= second.at && second.at - first.at == first.len
        }
        _ => false,
    }
}

/// Whether an assignment may end in front of these tokens.
fn ends_assignment(tokens: &[Token]) -> bool
    ensures { result ≡ ends_assignment tokens.now }
{
    match tokens {
        [first, ..] => first.kind == Kind::Semicolon || first.kind == Kind::CloseRound,
        [] => true,
    }
}

fn greater(tokens: &[Token]) -> (Kind, usize)
    ensures exact { result ≡ greater tokens.now }
    ensures few { result.1 ≤ 2 }
{
    if follows(Kind::Greater, tokens) {
        if follows(Kind::Equal, &tokens[1..]) {
            (Kind::OperatorEqual, 2)
        } else {
            (Kind::ShiftRight, 1)
        }
    } else if follows(Kind::Equal, tokens) {
        (Kind::GreaterEqual, 1)
    } else {
        (Kind::Greater, 0)
    }
}

/// `i++`, `i--`
fn doubled(kind: Kind, twice: Kind, tokens: &[Token]) -> (Kind, usize)
    ensures exact { result ≡ doubled kind twice tokens.now }
    ensures few { result.1 ≤ 2 }
{
    if follows(kind, tokens) && ends_assignment(&tokens[2..]) {
        (twice, 1)
    } else {
        (kind, 0)
    }
}

/// What the first token is with those that belong to it, and how many these are.
fn joined(tokens: &[Token]) -> (Kind, usize)
    ensures exact { result ≡ joined tokens.now }
    ensures few { result.1 ≤ 2 }
{
    match tokens {
        [first, ..] => match first.kind {
            Kind::Greater => greater(tokens),
            Kind::Plus => doubled(Kind::Plus, Kind::PlusPlus, tokens),
            Kind::Minus => doubled(Kind::Minus, Kind::MinusMinus, tokens),
            other => (other, 0),
        },
        [] => (Kind::End, 0),
    }
}

/// Leaves the innermost bracket.
fn leave_bracket(opened: &mut Vec<Opened>)
    ensures { reverse opened.new.items ≡ outside (reverse opened.old.items) }
{
    while let Some(last) = opened.pop() {
        if matches!(last, Opened::Bracket) {
            return;
        }
    }
}

/// Ends the search for lists up to the innermost bracket.
fn leave_lists(opened: &mut Vec<Opened>)
    ensures { reverse opened.new.items ≡ inside (reverse opened.old.items) }
{
    while matches!(opened.last(), Some(Opened::Less(_))) {
        opened.pop();
    }
}

/// Opens and closes what a token of this kind does. The index is the token's.
fn open_behind(
    kind: Kind,
    is_named: bool,
    index: usize,
    opened: &mut Vec<Opened>,
) -> Result<(), AllocError>
    ensures { IfOk result (λ done. reverse opened.new.items ≡ opened_behind kind is_named index (reverse opened.old.items)) }
{
    match kind {
        Kind::Less => {
            if is_named {
                opened.push(Opened::Less(index))?;
            }
        }
        Kind::OpenRound | Kind::OpenSquare => opened.push(Opened::Bracket)?,
        Kind::CloseRound | Kind::CloseSquare => leave_bracket(opened),
        Kind::AndAnd | Kind::OrOr => leave_lists(opened),
        Kind::Semicolon | Kind::OpenCurly | Kind::Colon | Kind::Equal | Kind::OperatorEqual =>
            opened.clear(),
        _ => {}
    }
    Ok(())
}

impl Search {
    /// Passes a token, which is of this kind with those that belong to it.
    fn pass(&mut self, token: Token, found: (Kind, usize)) -> Result<(), AllocError>
        requires { found.1 ≤ 2 }
        ensures { IfOk result (λ done. search_of self.new ≡ passed (search_of self.old) token found) }
    {
        open_behind(
            token.kind,
            self.is_named,
            self.tokens.len(),
            &mut self.opened,
        )?;
        self.tokens.push(of_kind(found, token))?;
        self.is_named = is_named_by(token.kind);
        Ok(())
    }

    /// Ends the list whose `<` has this index.
    fn end(&mut self, token: Token, index: usize) -> Result<(), AllocError>
        ensures { IfOk result (λ done. search_of self.new ≡ ended (search_of self.old) token index (search_of self.old).opened) }
    {
        begin(index, &mut self.tokens);
        self.tokens.push(of_kind((Kind::CloseTemplate, 0), token))?;
        self.is_named = false;
        Ok(())
    }

    /// Passes a token or ends a list, and tells how many tokens behind it belong to it.
    fn step(&mut self, token: Token, found: (Kind, usize)) -> Result<usize, AllocError>
        requires { found.1 ≤ 2 }
        ensures exact { IfOk result (λ more. (search_of self.new, more) ≡ step_at (search_of self.old) token found (search_of self.old).opened) }
        ensures few { IfOk result (λ more. more ≤ 2) }
    {
        if token.kind == Kind::Greater {
            if let Some(Opened::Less(index)) = self.opened.last() {
                let index = *index;
                self.opened.pop();
                self.end(token, index)?;
                return Ok(0);
            }
        }
        self.pass(token, found)?;
        Ok(found.1)
    }
}

/// Makes the `<` with this index begin a list.
#[tactic(auto, using(crate::proofs::Found::begun_there, crate::proofs::Found::begun_nowhere))]
fn begin(index: usize, tokens: &mut Vec<Token>)
    ensures { tokens.new.items ≡ begun index tokens.old.items }
{
    if index < tokens.len() {
        tokens[index].kind = Kind::OpenTemplate;
    }
}

/// A token of another kind, with others that belong to it.
fn of_kind(found: (Kind, usize), token: Token) -> Token
    requires { found.1 ≤ 2 }
    ensures { result ≡ of_kind found token }
{
    let len = if found.1 == 0 { token.len } else { found.1 + 1 };
    Token {
        kind: found.0,
        at: token.at,
        len,
    }
}

/// Whether a template list may begin behind a token of this kind.
fn is_named_by(kind: Kind) -> bool
    ensures { result ≡ is_named_by kind }
{
    matches!(kind, Kind::Name | Kind::Var)
}

/// The tokens of a text with its template lists, or the index of the byte where no token begins or of a block comment that
/// isn't closed. A byte order mark in front is skipped.
pub fn tokens_of(alloc: Global, text: &[u8]) -> Result<Result<Vec<Token>, usize>, AllocError>
    ensures { IfOk result (λ found. tokens_in (λ v. v.items) found ≡ listed (tokens_of text.now)) }
{
    match tokens(alloc, text)? {
        Ok(tokens) if are_alone(&tokens) => Ok(Ok(tokens)),
        Ok(tokens) => Ok(Ok(with_lists(alloc, &tokens)?)),
        Err(at) => Ok(Err(at)),
    }
}

/// Whether a token of this kind, with those behind it, ends no list and is joined with none of them.
fn is_alone(kind: Kind, tokens: &[Token]) -> bool
    ensures joined { IsTrue result → joined_by kind tokens.now ≡ (kind, 0) }
    ensures other { IsTrue result → kind ≢ Greater }
{
    match kind {
        Kind::Greater => false,
        Kind::Plus | Kind::Minus => !follows(kind, tokens),
        _ => true,
    }
}

/// Whether the tokens have no list in them and none is joined: they are what is found.
fn are_alone(tokens: &[Token]) -> bool
    ensures { IsTrue result → with_lists tokens.now ≡ tokens.now }
{
    let mut at = 0;
    while at < tokens.len() {
        if !is_alone(tokens[at].kind, from(at, tokens)) {
            return false;
        }
        at += 1;
    }
    true
}

/// The tokens with their template lists (WGSL, "Template Lists").
pub fn with_lists(alloc: Global, tokens: &[Token]) -> Result<Vec<Token>, AllocError>
    ensures { IfOk result (λ found. found.items ≡ with_lists tokens.now) }
{
    if !are_alone(tokens) {
        return search_lists(alloc, tokens);
    }
    let mut same = Vec::with_capacity(alloc, tokens.len())?;
    same.extend_from_slice(tokens)?;
    Ok(same)
}

/// Searches the tokens for lists, one by one.
fn search_lists(alloc: Global, tokens: &[Token]) -> Result<Vec<Token>, AllocError>
    ensures { IfOk result (λ found. found.items ≡ with_lists tokens.now) }
{
    let mut search = Search {
        tokens: Vec::with_capacity(alloc, tokens.len())?,
        is_named: false,
        opened: Vec::with_capacity(alloc, 8)?,
    };
    let mut at = 0;
    while at < tokens.len() {
        let more = search.step(tokens[at], joined(from(at, tokens)))?;
        at += 1 + more;
    }
    Ok(search.tokens)
}
