// The grammar of WGSL: each rule with its lines, of which the first is taken that begins with the next token.
//
// It differs from WGSL's own in four places. An attribute is a name with any arguments. A template list is found by tokens, so
// that a `<` behind `true` begins none. Directives and declarations are read one by one (module.rt), so that `@const` stands in
// front of `fn` alone. A reserved word is a token of its own.
ghost use Rattle.std.specs.Prelude.{◌≡◌, map, option_map};
ghost use Rattle.wgsl_reader.specs.Grammar.{chosen, is_chosen, line_of, lines_of, production, rows_of, tables};

use crate::grammar::expressions::EXPRESSIONS;
use crate::grammar::modules::MODULES;
use crate::grammar::requests::REQUESTS;
use crate::grammar::statements::STATEMENTS;
use crate::kind::Kind;
use crate::mark::Mark;
use crate::rule::Rule;

/// What stands in a line.
#[derive(Clone, Copy)]
pub enum Symbol {
    /// A token of this kind.
    Token(Kind),
    /// What a rule reads.
    Rule(Rule),
    /// What is noted here.
    Mark(Mark),
}

/// The kind of the next token for which a line is taken, or None for any, and what its rule stands for then.
pub type Line = (Option<Kind>, &'static [Symbol]);

/// A token by its kind, `(Rule)`, or `{Mark}`.
macro_rules! symbol {
    (($rule:ident)) => {
        Symbol::Rule(Rule::$rule)
    };
    ({$mark:ident}) => {
        Symbol::Mark(Mark::$mark)
    };
    ($kind:ident) => {
        Symbol::Token(Kind::$kind)
    };
}

/// The symbols of a line. In place of `(Expression)` stand those of its only line: one rule less for each expression.
macro_rules! symbols {
    ([$($symbol:tt)*]) => {
        symbols!(@ [] $($symbol)*)
    };
    (@ [$($done:expr),*]) => {
        &[$($done),*]
    };
    (@ [$($done:expr),*] (Expression) $($rest:tt)*) => {
        symbols!(@ [$($done),*] (Unary) (Operators) $($rest)*)
    };
    (@ [$($done:expr),*] $next:tt $($rest:tt)*) => {
        symbols!(@ [$($done,)* symbol!($next)] $($rest)*)
    };
}

/// A kind, or `_` for any other.
macro_rules! next {
    (_) => {
        None
    };
    ($kind:ident) => {
        Some(Kind::$kind)
    };
}

/// Each rule with its lines: `A | B => [..]` for each kind of the next token, `_` for any other.
macro_rules! grammar {
    ($($rule:ident { $($($next:tt)|+ => $symbols:tt)* })*) => {
        &[$((Rule::$rule, &[$($((next!($next), symbols!($symbols))),+),*])),*]
    };
}

mod expressions;
mod modules;
mod requests;
mod statements;

/// The tables, which have the rules in the order of their enumeration.
#[tactic(auto, unfolding(crate::specs::Grammar::tables))]
fn tables() -> [&'static [(Rule, &'static [Line])]; 4]
    ensures { map rows_of result ≡ tables }
{
    [EXPRESSIONS, STATEMENTS, REQUESTS, MODULES]
}

/// The lines of a rule.
#[tactic(auto, using(crate::proofs::Rows::line_there, crate::proofs::Rows::no_line))]
fn lines(rule: Rule) -> Option<&'static [Line]>
    ensures { option_map (λ lines. map line_of lines.now) result ≡ lines_of rule }
{
    let tables = tables();
    let mut index = rule as usize;
    for rows in &tables {
        if index < rows.len() {
            return Some(rows[index].1);
        }
        index -= rows.len();
    }
    None
}

/// What the first line stands for that is taken for the next token.
fn chosen(next: Kind, lines: &'static [Line]) -> Option<&'static [Symbol]>
    ensures { option_map (λ symbols. symbols.now) result ≡ chosen next (map line_of lines.now) }
{
    for (kind, symbols) in lines {
        if is_chosen(next, *kind) {
            return Some(*symbols);
        }
    }
    None
}

/// Whether a line is taken for the next token.
fn is_chosen(next: Kind, kind: Option<Kind>) -> bool
    ensures { result ≡ is_chosen next kind }
{
    match kind {
        Some(kind) => next == kind,
        None => true,
    }
}

/// What a rule stands for if this token is next; None if it can't begin with it.
pub fn production(rule: Rule, next: Kind) -> Option<&'static [Symbol]>
    ensures { option_map (λ symbols. symbols.now) result ≡ production rule next }
{
    match lines(rule) {
        Some(lines) => chosen(next, lines),
        None => None,
    }
}
