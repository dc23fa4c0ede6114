// The tokens of a request, whose first word and `const` have kinds of their own.
ghost use Rattle.std.specs.Prelude.{◌≡◌, ◌+◌, ◌<◌, drop, length};
ghost use Rattle.wgsl_requests.specs.expressions.Prelude.{word, named};
ghost use Rattle.wgsl_requests.specs.expressions.RequestTokens.{as_operand, asked_behind, asked_kind, is_colon, is_overloads, may_begin_behind, next_kind, question_of, questions};

use crate::expressions::prelude::*;

/// Gives each token the kind that it has in a request: the first word of what is asked one of its own, `const` that of one in front of
/// an operand's type, and what stands behind `overloads` that of a name.
pub fn as_asked(text: &str, tokens: &mut [Token])
    ensures { tokens.new ≡ asked_behind text.now Kind.End tokens.old }
{
    let mut before = Kind::End;
    let mut at = 0;
    while at < tokens.len() {
        let kind = asked_kind(text, before, tokens[at], next_kind(tokens, at));
        tokens[at].kind = kind;
        before = kind;
        at += 1;
    }
}

/// The kind of the token behind an index.
fn next_kind(tokens: &[Token], at: usize) -> Kind
    requires { at < length tokens.now }
    ensures { result ≡ next_kind (drop (at + 1) tokens.now) }
{
    match tokens.get(at + 1) {
        Some(token) => token.kind,
        None => Kind::End,
    }
}

/// The kind of a token in a request, with the kinds of the tokens beside it. Behind a declaration, and in front of everything, begins
/// what is asked: nowhere else in WGSL does a word stand behind a `}`, a `)`, a list or a name, but for members behind an attribute.
fn asked_kind(text: &str, before: Kind, token: Token, next: Kind) -> Kind
    ensures { result ≡ asked_kind before token.kind (word text.now token) next }
{
    if is_overloads(before) {
        Kind::Name
    } else if may_begin_behind(before) && !is_colon(next) {
        question_of(text, token).unwrap_or(as_operand(token.kind))
    } else {
        as_operand(token.kind)
    }
}

fn is_overloads(kind: Kind) -> bool
    ensures { result ≡ is_overloads kind }
{
    matches!(kind, Kind::Overloads)
}

fn is_colon(kind: Kind) -> bool
    ensures { result ≡ is_colon kind }
{
    matches!(kind, Kind::Colon)
}

fn may_begin_behind(kind: Kind) -> bool
    ensures { result ≡ may_begin_behind kind }
{
    matches!(
        kind,
        Kind::End | Kind::Name | Kind::CloseCurly | Kind::CloseRound | Kind::CloseTemplate
    )
}

/// The kind of a `const` in a request; of any other token its own.
pub fn as_operand(kind: Kind) -> Kind
    ensures { result ≡ as_operand kind }
{
    match kind {
        Kind::Const => Kind::ConstOperand,
        other => other,
    }
}

/// What begins with a token, if that is a word.
fn question_of(text: &str, token: Token) -> Option<Kind>
    ensures { result ≡ question_of token.kind (word text.now token) }
{
    match token.kind {
        Kind::Name | Kind::Reserved => question_named(word(text, token)),
        _ => None,
    }
}

fn question_named(word: &str) -> Option<Kind>
    ensures { result ≡ named questions word.now }
{
    match word {
        "type" => Some(Kind::TypeOf),
        "load" => Some(Kind::Load),
        "resolve" => Some(Kind::Resolve),
        "why" => Some(Kind::Why),
        "overloads" => Some(Kind::Overloads),
        "rank" => Some(Kind::Rank),
        "common" => Some(Kind::Common),
        "size" => Some(Kind::Size),
        "offsets" => Some(Kind::Offsets),
        "layout" => Some(Kind::Layout),
        _ => None,
    }
}
