// What is read of expressions, and what the names in them stand for.
ghost use Rattle.std.specs.Prelude.{◌≡◌, [], ◌∷◌, IfOk, None, false, is_some, length, not, option_map, slice_get};
ghost use Rattle.wgsl_core.specs.View.{view};
ghost use Rattle.wgsl_standard.specs.forms.Views.{answer_view, form_type_view};
ghost use Rattle.wgsl_typing.specs.Faults.{IsTold, IsToldIf};
ghost use Rattle.wgsl_typing.specs.Declarations.{answer_of};
ghost use Rattle.wgsl_typing.specs.Extensions.{none_enabled};
ghost use Rattle.wgsl_typing.specs.Scopes.{scope_view};
ghost use Rattle.wgsl_typing.specs.Stacks.{below, stack, with_item, with_items, with_parts};
ghost use Rattle.wgsl_typing.specs.Words.{kind_at, kind_of_any, word_at};

use crate::extension::Extensions;
use crate::fault::{Fault, Note, Place, Rule};
use crate::item::Item;
use crate::known::{Known, Outcome, Part};
use crate::meant::GUESSED;
use crate::scope::Locals;
use crate::structs::Structs;
use crate::value::Value;
use std::alloc::{AllocError, Global};
use std::collections::BTreeMap;
use wgsl_core::ty::Type;
use wgsl_reader::kind::Kind;
use wgsl_reader::token::Token;
use wgsl_spelling::word::word;
use wgsl_standard::forms::form::FormType;
use wgsl_standard::forms::refusal::Refusal;
use wgsl_syntax::overload::Stages;

/// What a function does that depends on the stage in which it runs.
#[derive(Drop)]
pub struct Doings {
    /// The variables and overrides of the module that it names, and where.
    pub variables: Vec<(usize, Place)>,
    /// What only some stages do, and where.
    pub staged: Vec<(Stages, Place)>,
}

impl Doings {
    /// It does nothing of the kind.
    pub fn none(alloc: Global) -> Doings {
        Doings {
            variables: Vec::new(alloc),
            staged: Vec::new(alloc),
        }
    }
}

/// A declaration of the module.
#[derive(Drop)]
pub struct Named {
    /// How many tokens there are up to its name, if it has one.
    pub named: Option<usize>,
    /// What it stands for; None until it is read.
    pub known: Option<Known>,
}

/// What is read of expressions, and what names in them stand for.
#[derive(Drop)]
pub struct Expressions<'t> {
    pub alloc: Global,
    pub text: &'t str,
    pub tokens: &'t [Token],
    /// The index of the declaration with a name.
    pub names: BTreeMap<&'t str, usize>,
    pub declared: Vec<Named>,
    pub structs: Structs<'t>,
    pub extensions: Extensions,
    /// The names of overrides and the other expressions that count elements when the pipeline is made, as they are written.
    pub override_counts: Vec<String>,
    pub locals: Locals<'t>,
    /// The names that a `continue` may skip, by the index of the first and of the one behind the last.
    pub skipped: (usize, usize),
    pub items: Vec<Item>,
    /// Of each array and struct that is a constant, the values of its elements or members; None if one isn't computed.
    pub elements: Vec<Vec<Option<Value>>>,
    /// The `&&` or `||` whose right operand is read and isn't evaluated, by the number of tokens up to it.
    pub unevaluated: Option<usize>,
    /// How many faults may yet be told with what a word may have meant.
    pub guesses: usize,
    /// What the function does whose body is read.
    pub doing: Option<Doings>,
    pub parts: Vec<Part>,
    pub faults: Vec<Fault>,
}

/// The kind of the last of that many tokens.
pub fn kind_before(tokens: &[Token], count: usize) -> Kind
    ensures { result ≡ kind_at tokens.now count }
{
    match tokens.get(count.saturating_sub(1)) {
        Some(token) => token.kind,
        None => Kind::End,
    }
}

impl<'t> Expressions<'t> {
    /// Nothing is read yet.
    pub fn none(alloc: Global, text: &'t str, tokens: &'t [Token]) -> Expressions<'t>
        ensures items { (stack result).items ≡ [] }
        ensures parts { (stack result).parts ≡ [] }
        ensures text { (stack result).context.text ≡ text.now }
        ensures tokens { (stack result).context.tokens ≡ tokens.now }
        ensures scope { scope_view (stack result).context.locals ≡ [] ∷ [] }
        ensures extensions { (stack result).context.extensions ≡ none_enabled }
    {
        Expressions {
            alloc,
            text,
            tokens,
            names: BTreeMap::new(alloc),
            declared: Vec::new(alloc),
            structs: Structs::none(alloc),
            extensions: Extensions::NONE,
            override_counts: Vec::new(alloc),
            locals: Locals::none(alloc),
            skipped: (0, 0),
            items: Vec::new(alloc),
            elements: Vec::new(alloc),
            unevaluated: None,
            guesses: GUESSED,
            doing: None,
            parts: Vec::new(alloc),
            faults: Vec::new(alloc),
        }
    }

    /// The last of that many tokens.
    pub fn token_before(&self, count: usize) -> Token
        ensures { result.kind ≡ kind_at self.now.tokens.now count }
    {
        self.token(count.saturating_sub(1))
    }

    /// The token at an index, or the end of the text.
    pub fn token(&self, index: usize) -> Token
        ensures { result.kind ≡ kind_of_any (slice_get self.now.tokens.now index) }
    {
        match self.tokens.get(index) {
            Some(token) => *token,
            None => Token {
                kind: Kind::End,
                at: self.text.len(),
                len: 0,
            },
        }
    }

    /// The text of the last of that many tokens.
    pub fn word(&self, count: usize) -> &'t str
        ensures { result.now ≡ word_at self.now.text.now self.now.tokens.now count }
    {
        match self.tokens.get(count.saturating_sub(1)) {
            Some(token) => word(self.text, *token),
            None => "",
        }
    }

    /// The text from the first of some tokens to the last.
    pub fn text_of(&self, place: Place) -> &'t str {
        let last = self.token_before(place.to);
        let end = last.at.saturating_add(last.len);
        self.text.get(self.token(place.from).at..end).unwrap_or("")
    }

    /// Puts an item on top of the others.
    pub fn push(&mut self, item: Item) -> Result<(), AllocError>
        ensures { IfOk result (λ u. stack self.new ≡ with_item item (stack self.old)) }
    {
        self.items.push(item)?;
        Ok(())
    }

    /// Lets go of the item on top.
    pub fn drop_top(&mut self)
        ensures { stack self.new ≡ with_items (below (stack self.old).items) (stack self.old) }
    {
        self.items.pop();
    }

    /// Notes an expression that is used.
    pub fn note(&mut self, part: Part) -> Result<(), AllocError>
        ensures { IfOk result (λ u. stack self.new ≡ with_parts (part ∷ []) (stack self.old)) }
    {
        self.parts.push(part)?;
        Ok(())
    }

    /// Notes two expressions that are used.
    pub fn note_both(&mut self, first: Part, second: Part) -> Result<(), AllocError>
        ensures { IfOk result (λ u. stack self.new ≡ with_parts (first ∷ second ∷ []) (stack self.old)) }
    {
        match self.note(first) {
            Ok(()) => self.note(second),
            Err(error) => {
                drop(second);
                Err(error)
            }
        }
    }

    /// Says what is wrong.
    pub fn fault(&mut self, rule: Rule, place: Place, message: String) -> Result<(), AllocError>
        ensures answer { IfOk result (λ u. IsTold rule place self.old.faults.items self.new.faults.items) }
        ensures stack { stack self.new ≡ stack self.old }
    {
        let message = self.as_written(message)?;
        self.faults.push(Fault {
            rule,
            place,
            message,
            notes: Vec::new(self.alloc),
        })?;
        Ok(())
    }

    /// Adds a note to the last fault.
    pub fn add_note(&mut self, place: Place, message: String) -> Result<(), AllocError>
        ensures stack { stack self.new ≡ stack self.old }
        ensures faults { length self.new.faults.items ≡ length self.old.faults.items }
    {
        let message = self.as_written(message)?;
        if let Some(fault) = self.faults.last_mut() {
            fault.notes.push(Note { place, message })?;
        }
        Ok(())
    }

    /// Adds to the last fault where a name is declared.
    pub fn refer(&mut self, named: usize) -> Result<(), AllocError>
        ensures stack { stack self.new ≡ stack self.old }
        ensures faults { length self.new.faults.items ≡ length self.old.faults.items }
    {
        let name = self.word(named);
        let message = format!(in self.alloc; "`{name}` is declared here")?;
        self.add_note(Place::last_of(named), message)
    }

    /// Says what is wrong in words that don't depend on the text.
    pub fn tell(&mut self, rule: Rule, place: Place, message: &str) -> Result<(), AllocError>
        ensures answer { IfOk result (λ u. IsTold rule place self.old.faults.items self.new.faults.items) }
        ensures stack { stack self.new ≡ stack self.old }
    {
        let message = String::from_str(self.alloc, message)?;
        self.fault(rule, place, message)
    }

    /// Says what is wrong with a name.
    pub fn tell_name(&mut self, rule: Rule, count: usize, message: &str) -> Result<(), AllocError>
        ensures stack { stack self.new ≡ stack self.old }
    {
        let name = self.word(count);
        let message = format!(in self.alloc; "`{name}` {message}")?;
        self.fault(rule, Place::last_of(count), message)
    }

    /// Nothing, as this is wrong with a name.
    pub fn nothing<T>(
        &mut self,
        rule: Rule,
        count: usize,
        message: &str,
    ) -> Result<Option<T>, AllocError>
        ensures answer { IfOk result (λ found. found ≡ None) }
        ensures stack { stack self.new ≡ stack self.old }
    {
        self.tell_name(rule, count, message)?;
        Ok(None)
    }

    /// Faulty, as this is wrong with a name.
    pub fn faulty(&mut self, rule: Rule, count: usize, message: &str) -> Result<Outcome, AllocError>
        ensures answer { IfOk result (λ o. o ≡ Outcome.Faulty) }
        ensures stack { stack self.new ≡ stack self.old }
    {
        self.tell_name(rule, count, message)?;
        Ok(Outcome::Faulty)
    }

    /// No, as this is wrong with a name.
    pub fn no(&mut self, rule: Rule, count: usize, message: &str) -> Result<bool, AllocError>
        ensures answer { IfOk result (λ answer. answer ≡ false) }
        ensures stack { stack self.new ≡ stack self.old }
    {
        self.tell_name(rule, count, message)?;
        Ok(false)
    }

    /// Whether a form isn't refused. If it is, that is told.
    pub fn allows(&mut self, place: Place, refusal: Option<Refusal<'_>>) -> Result<bool, AllocError>
        ensures allowed { IfOk result (λ is. is ≡ not (is_some refusal.entry)) }
        ensures told { IfOk result (λ is. IsToldIf (is_some refusal.entry) Rule.Type place self.old.faults.items self.new.faults.items) }
        ensures stack { stack self.new ≡ stack self.old }
    {
        let Some(refusal) = refusal else {
            return Ok(true);
        };
        let message = format!(in self.alloc; "{refusal}")?;
        self.fault(Rule::Type, place, message)?;
        Ok(false)
    }

    /// The type of a form; None if it is refused, which is told.
    pub fn built(
        &mut self,
        place: Place,
        form: Result<FormType<'_>, Refusal<'_>>,
    ) -> Result<Option<Type>, AllocError>
        ensures answer { IfOk result (λ t. option_map view t ≡ answer_of (answer_view form_type_view form.entry)) }
        ensures stack { stack self.new ≡ stack self.old }
    {
        match form {
            Ok(ty) => Ok(Some(ty.build(self.alloc)?)),
            Err(refusal) => {
                self.allows(place, Some(refusal))?;
                Ok(None)
            }
        }
    }
}
