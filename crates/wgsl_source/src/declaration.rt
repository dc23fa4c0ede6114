// What a module declares, and where.
ghost use Rattle.std.specs.Prelude.{◌≡◌, ◌-◌, ◌∷◌, [], ◌<◌, IfOk, IfSome, List, MatchOption, OnOk, length};
ghost use Rattle.wgsl_reader.specs.declared.read.Event.{Event as of_event};
ghost use Rattle.wgsl_source.specs.Declarations.{end_by};
ghost use Rattle.wgsl_source.specs.TextDeclarations.{declared_by};
ghost use Rattle.wgsl_source.specs.internal.Read.{Adds, AreAll, IsMisread, IsNext, IsNone};

use crate::directive::read_directive;
use crate::extension::enabled;
use crate::fault::{Cause, Fault};
use crate::parts::{End, behind_attributes, inner, split_first, split_list, split_to};
use crate::scope::Extensions;
use crate::text::Text;
use std::alloc::{AllocError, Global};
use wgsl_reader::kind::Kind;
use wgsl_reader::mark::Mark;
use wgsl_reader::module::{Misread, Module as Grammar};
use wgsl_reader::read::Event;

/// What a declaration declares.
#[derive(Clone, Copy)]
pub enum DeclarationKind {
    Alias,
    Struct,
    Constant,
    Override,
    Variable,
    Function,
}

/// A declaration, with its events. It has none if it can't be read.
#[derive(Clone, Copy)]
pub struct Declaration<'t> {
    pub kind: DeclarationKind,
    pub name: &'t str,
    /// Where its name stands in the text.
    pub place: usize,
    /// How many tokens stand up to its name, with it.
    pub named: usize,
    /// The events from its attributes on.
    pub attributes: &'t [Event],
    /// The template list of a variable.
    pub list: &'t [Event],
    /// What stands behind the name, without the last event, which says what is declared.
    pub rest: &'t [Event],
    /// Whether it can't be read.
    pub is_faulty: bool,
}

/// The declarations of a module in order, and what its directives say.
#[derive(Drop)]
pub struct Declarations<'t> {
    pub declarations: Vec<Declaration<'t>>,
    pub faults: Vec<Fault>,
    pub extensions: Extensions,
}

/// The declarations of a module.
pub fn read_declarations<'t>(
    alloc: Global,
    text: Text<'t>,
    grammar: &'t Grammar,
) -> Result<Declarations<'t>, AllocError>
    ensures { IfOk result (λ found. AreAll text.entry grammar.now.events.items found.declarations.items) }
{
    let mut found = Declarations {
        declarations: Vec::new(alloc),
        faults: Vec::new(alloc),
        extensions: Extensions::none(),
    };
    let mut misread: usize = 0;
    let mut rest: &'t [Event] = &grammar.events;
    while let Some(read) = next_declaration(text, rest) {
        misread = found.read_misread(text, grammar, misread, read.named)?;
        found.read_one(text, read)?;
        rest = read.behind;
    }
    found.read_misread(text, grammar, misread, text.tokens.len())?;
    Ok(found)
}

/// A declaration, a directive or an assertion, and the events behind it.
#[derive(Clone, Copy)]
struct Read<'t> {
    /// What is declared; None for a directive or an assertion.
    kind: Option<DeclarationKind>,
    /// The events from its attributes on.
    attributes: &'t [Event],
    list: &'t [Event],
    /// How many tokens stand up to its first event behind these, with its own.
    named: usize,
    /// Its events from that one on.
    events: &'t [Event],
    behind: &'t [Event],
}

/// What the first events declare, if they declare anything.
fn next_declaration<'t>(text: Text<'t>, events: &'t [Event]) -> Option<Read<'t>>
    ensures exact { MatchOption result (IsNone text.entry events.now) (IsNext text.entry events.now) }
    ensures less { IfSome result (λ read. length read.behind.now < length events.now) }
{
    let behind = behind_attributes(events);
    let list = split_list(behind);
    let (first, _) = split_first(list.rest)?;
    let word = text.token_before(first.at.saturating_sub(1));
    let end = end_by(first.mark, word.kind);
    let split = split_to(list.rest, end)?;
    Some(Read {
        kind: declared_by(end),
        attributes: events,
        list: list.front,
        named: first.at,
        events: split.front,
        behind: split.rest,
    })
}

/// What ends a declaration, a directive or an assertion, by the mark of its first event and the kind of the token in front.
fn end_by(mark: Mark, word: Kind) -> End
    ensures { result ≡ end_by mark word }
{
    match mark {
        Mark::Extension | Mark::Severity => End::Directive,
        Mark::Name => match word {
            Kind::Alias => End::Alias,
            Kind::Struct => End::Struct,
            Kind::Const => End::Constant,
            Kind::Override => End::Override,
            Kind::Var | Kind::CloseTemplate => End::Variable,
            Kind::Fn => End::Function,
            _ => End::Assertion,
        },
        _ => End::Assertion,
    }
}

/// What is declared by what ends so.
fn declared_by(end: End) -> Option<DeclarationKind>
    ensures { result ≡ declared_by end }
{
    match end {
        End::Alias => Some(DeclarationKind::Alias),
        End::Struct => Some(DeclarationKind::Struct),
        End::Constant => Some(DeclarationKind::Constant),
        End::Override => Some(DeclarationKind::Override),
        End::Variable => Some(DeclarationKind::Variable),
        End::Function => Some(DeclarationKind::Function),
        _ => None,
    }
}

impl<'t> Declarations<'t> {
    /// Reads a declaration that the grammar reads.
    fn read_one(&mut self, text: Text<'t>, read: Read<'t>) -> Result<(), AllocError>
        ensures { (events : List of_event) → (next : IsNext text.entry events read.entry)
            → OnOk result (Adds text.entry (next.site ∷ []) self.old.declarations.items self.new.declarations.items) }
    {
        match read.kind {
            Some(kind) => {
                let name = text.token_before(read.named);
                self.declarations.push(Declaration {
                    kind,
                    name: text.word(name),
                    place: name.at,
                    named: read.named,
                    attributes: read.attributes,
                    list: read.list,
                    rest: inner(read.events),
                    is_faulty: false,
                })?;
            }
            None => {
                if let Some(fault) = read_directive(text, &mut self.extensions, read.events) {
                    self.faults.push(fault)?;
                }
            }
        }
        Ok(())
    }

    /// Notes the misread declarations from an index on that begin in front of a token. Returns the index behind them.
    fn read_misread(
        &mut self,
        text: Text<'t>,
        grammar: &Grammar,
        from: usize,
        before: usize,
    ) -> Result<usize, AllocError>
        ensures { IfOk result (λ index. Adds text.entry [] self.old.declarations.items self.new.declarations.items) }
    {
        let mut index = from;
        while let Some(misread) = grammar.misread.get(index) {
            if misread.from >= before {
                break;
            }
            let to = match grammar.misread.get(index.saturating_add(1)) {
                Some(next) => next.from.min(before),
                None => before,
            };
            let fault = match strange_in(text, misread.from, to) {
                Some(fault) => fault,
                None => fault_of(text, index, *misread),
            };
            self.faults.push(fault)?;
            note_enabled(text, *misread, &mut self.extensions);
            if let Some(declaration) = misread_declaration(text, *misread) {
                self.declarations.push(declaration)?;
            }
            index = index.saturating_add(1);
        }
        Ok(index)
    }
}

/// The first place from one token on, up to another, where no token begins.
fn strange_in(text: Text, from: usize, to: usize) -> Option<Fault> {
    for token in text.tokens.get(from..to)? {
        if let Some(cause) = text.strange(*token) {
            return Some(Fault {
                at: token.at,
                cause,
            });
        }
    }
    None
}

/// What is wrong with a misread declaration, which has this index.
fn fault_of(text: Text, index: usize, misread: Misread) -> Fault {
    let token = text.token(misread.at);
    let cause = match token.kind {
        Kind::Enable | Kind::Requires | Kind::Diagnostic if misread.at == misread.from => {
            Cause::LateDirective
        }
        _ => Cause::Misread(index),
    };
    Fault {
        at: token.at,
        cause,
    }
}

/// Notes the extensions that a misread directive enables, so that their types are known.
fn note_enabled(text: Text, misread: Misread, extensions: &mut Extensions) {
    if text.token(misread.from).kind == Kind::Enable {
        for index in misread.from..misread.at {
            enabled(extensions, text.word(text.token(index)));
        }
    }
}

/// What a misread declaration would declare, if its first word and a name behind it say so.
fn misread_declaration<'t>(text: Text<'t>, misread: Misread) -> Option<Declaration<'t>>
    ensures { IfSome result (IsMisread text.entry) }
{
    let first = first_word(text, misread);
    let kind = match text.token(first).kind {
        Kind::Alias => DeclarationKind::Alias,
        Kind::Struct => DeclarationKind::Struct,
        Kind::Const => DeclarationKind::Constant,
        Kind::Override => DeclarationKind::Override,
        Kind::Var => DeclarationKind::Variable,
        Kind::Fn => DeclarationKind::Function,
        _ => return None,
    };
    let named = behind_list(text, first.saturating_add(1), misread.at).saturating_add(1);
    let name = text.token_before(named);
    if name.kind != Kind::Name {
        return None;
    }
    Some(Declaration {
        kind,
        name: text.word(name),
        place: name.at,
        named,
        attributes: &[],
        list: &[],
        rest: &[],
        is_faulty: true,
    })
}

/// The index of the first word behind the attributes of a misread declaration.
fn first_word(text: Text, misread: Misread) -> usize {
    if text.token(misread.from).kind != Kind::At {
        return misread.from;
    }
    for index in misread.from..misread.at {
        if matches!(
            text.token(index).kind,
            Kind::Override | Kind::Var | Kind::Fn
        ) {
            return index;
        }
    }
    misread.at
}

/// The index behind the template list of a misread variable that begins at an index, if one does.
fn behind_list(text: Text, from: usize, to: usize) -> usize {
    if text.token(from).kind != Kind::OpenTemplate {
        return from;
    }
    for index in from..to {
        if text.token(index).kind == Kind::CloseTemplate {
            return index.saturating_add(1);
        }
    }
    to
}
