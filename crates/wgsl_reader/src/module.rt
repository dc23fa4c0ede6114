// Reads a module declaration by declaration.
ghost use Rattle.std.specs.Prelude.{◌≡◌, ◌++◌, ◌&&◌, [], ◌+◌, ◌<◌, ◌≤◌, ◌^◌, IfOk, length, map};
ghost use Rattle.wgsl_reader.specs.Modules.{ReadsModule, begins_declaration, begins_either, begins_next, braces_behind, declaration_len, ends_attributes, ends_with, is_const_attribute, is_directive, rule_of, with_misread, with_read};
ghost use Rattle.wgsl_reader.specs.Reading.{kind_of, outcome_of};

use crate::bytes::from;
use crate::kind::Kind;
use crate::read::{Event, next_kind, read};
use crate::rule::Rule;
use crate::token::Token;
use std::alloc::{AllocError, Global};

/// A declaration that can't be read.
#[derive(Clone, Copy)]
pub struct Misread {
    /// The rule by which it was to be read.
    pub rule: Rule,
    /// The index of its first token.
    pub from: usize,
    /// The index of the first token that can't stand there, or of the one behind the declaration.
    pub at: usize,
}

/// What is read of a module.
#[derive(Drop)]
pub struct Module {
    /// The events of the declarations that can be read.
    pub events: Vec<Event>,
    pub misread: Vec<Misread>,
}

impl Module {
    /// Adds the events of a declaration, or that it is misread.
    fn add(
        &mut self,
        rule: Rule,
        from: usize,
        outcome: Result<Vec<Event>, usize>,
    ) -> Result<(), AllocError>
        ensures events { IfOk result (λ done. self.new.events.items ≡ self.old.events.items ++ with_read (outcome_of (λ v. v.items) outcome) []) }
        ensures misread { IfOk result (λ done. self.new.misread.items ≡ self.old.misread.items ++ with_misread rule from (outcome_of (λ v. v.items) outcome) []) }
    {
        match outcome {
            Ok(events) => self.events.extend_from_slice(&events)?,
            Err(at) => self.misread.push(Misread { rule, from, at })?,
        }
        Ok(())
    }
}

/// `fn f`, with which nothing but a declaration begins.
fn begins_declaration(kind: Kind, next: Kind) -> bool
    ensures { result ≡ begins_declaration kind next }
{
    (kind == Kind::Alias || kind == Kind::Fn || kind == Kind::Override || kind == Kind::Struct)
        && next == Kind::Name
}

/// `var x`, with which a declaration or a statement begins.
fn begins_either(kind: Kind, next: Kind) -> bool
    ensures { result ≡ begins_either kind next }
{
    kind == Kind::ConstAssert
        || (kind == Kind::Const && next == Kind::Name)
        || (kind == Kind::Var && (next == Kind::Name || next == Kind::OpenTemplate))
}

fn ends_attributes(kind: Kind) -> bool
    ensures { result ≡ ends_attributes kind }
{
    kind == Kind::Fn || kind == Kind::Override || kind == Kind::Var
}

/// `@const`
fn is_const_attribute(behind: Kind, kind: Kind) -> bool
    ensures { result ≡ is_const_attribute behind kind }
{
    behind == Kind::At && kind == Kind::Const
}

fn begins_next(braces: usize, in_attributes: bool, kind: Kind, next: Kind) -> bool
    ensures { result ≡ begins_next braces in_attributes kind next }
{
    !in_attributes && (begins_declaration(kind, next) || (braces == 0 && begins_either(kind, next)))
}

fn ends_with(braces: usize, kind: Kind) -> bool
    ensures { result ≡ ends_with braces kind }
{
    (braces == 0 && kind == Kind::Semicolon) || (braces <= 1 && kind == Kind::CloseCurly)
}

fn braces_behind(braces: usize, kind: Kind) -> usize
    requires { braces + 1 < 2 ^ 64 }
    ensures exact { result ≡ braces_behind braces kind }
    ensures few { result ≤ braces + 1 }
{
    if kind == Kind::OpenCurly {
        braces + 1
    } else if kind == Kind::CloseCurly {
        braces.saturating_sub(1)
    } else {
        braces
    }
}

/// How many tokens belong to the declaration that begins with the first one.
fn declaration_len(tokens: &[Token]) -> usize
    requires { 1 ≤ length tokens.now }
    ensures exact { result ≡ declaration_len (map kind_of tokens.now) }
    ensures some { 1 ≤ result }
    ensures within { result ≤ length tokens.now }
{
    let first = tokens[0].kind;
    if ends_with(0, first) {
        return 1;
    }
    let mut braces = braces_behind(0, first);
    let mut in_attributes = first == Kind::At;
    let mut behind = first;
    let mut at = 1;
    while at < tokens.len() {
        let kind = tokens[at].kind;
        let is_attribute = in_attributes || is_const_attribute(behind, kind);
        if begins_next(braces, is_attribute, kind, next_kind(tokens, at + 1)) {
            return at;
        }
        at += 1;
        if ends_with(braces, kind) {
            return at;
        }
        braces = braces_behind(braces, kind);
        in_attributes = in_attributes && !ends_attributes(kind);
        behind = kind;
    }
    at
}

/// Whether directives may stand behind a token of this kind, with which the text or one of them begins.
fn behind_directive(leading: bool, kind: Kind) -> bool
    ensures { result ≡ leading && is_directive kind }
{
    leading && (kind == Kind::Enable || kind == Kind::Requires || kind == Kind::Diagnostic)
}

/// The rule of a declaration in front of which there are only directives, or others too.
fn rule_of(leading: bool) -> Rule
    ensures { result ≡ rule_of leading }
{
    if leading {
        Rule::DirectiveOrDeclaration
    } else {
        Rule::Declaration
    }
}

/// Reads a module. Behind a declaration that is misread it goes on with the next one.
pub fn read_module(alloc: Global, tokens: &[Token]) -> Result<Module, AllocError>
    ensures { IfOk result (λ found. ReadsModule (map kind_of tokens.now) found.events.items found.misread.items) }
{
    let mut module = Module {
        events: Vec::new(alloc),
        misread: Vec::new(alloc),
    };
    let mut leading = true;
    let mut at = 0;
    while at < tokens.len() {
        let to = at + declaration_len(from(at, tokens));
        let rule = rule_of(leading);
        let outcome = read(alloc, rule, &tokens[..to], at)?;
        module.add(rule, at, outcome)?;
        leading = behind_directive(leading, tokens[at].kind);
        at = to;
    }
    Ok(module)
}
