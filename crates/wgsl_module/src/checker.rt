// The state of a check.
ghost use Rattle.std.specs.Prelude.{◌≡◌, [], ◌∷◌};
ghost use Rattle.wgsl_module.specs.States.{Keeps, cleared, state};
ghost use Rattle.wgsl_typing.specs.Extensions.{none_enabled};
ghost use Rattle.wgsl_typing.specs.Scopes.{scope_view};
ghost use Rattle.wgsl_typing.specs.Words.{word_at};

use crate::attribute::{Attribute, Attributes, Owner};
use crate::block::Loop;
use crate::declaration::Declaration;
use crate::field::Field;
use crate::switch::Switch;
use std::alloc::{AllocError, Global};
use std::collections::{BTreeMap, BTreeSet};
use wgsl_core::ty::Type;
use wgsl_reader::token::Token;
use wgsl_source::fault::Cause;
use wgsl_source::meant::{Declared, meant};
use wgsl_typing::expressions::{Doings, Expressions};
use wgsl_typing::fault::{Place, Rule};

/// What is known of a declaration beside its name's meaning: a struct's members, or the parameters, the result and the attributes
/// of a function.
#[derive(Drop)]
pub struct Interface {
    pub fields: Vec<Field>,
    pub result: Option<Field>,
    pub attributes: Attributes,
}

/// The state of a check.
#[derive(Drop)]
pub struct Checker<'t> {
    pub expressions: Expressions<'t>,
    pub declarations: Vec<Declaration<'t>>,
    pub interfaces: Vec<Option<Interface>>,
    pub doings: Vec<Option<Doings>>,
    /// The numbers of overrides.
    pub ids: BTreeSet<i64>,
    /// The group and the binding of each variable.
    pub bindings: BTreeMap<usize, (i64, i64)>,
    /// The attributes of all, and which of them belong to nothing yet.
    pub attributes: Vec<Attribute>,
    pub pending: Attributes,
    /// What the attributes belong to that are read now.
    pub owner: Owner,
    /// The rules that directives or attributes of one thing filter, each with the number of tokens up to its severity.
    pub filters: BTreeMap<String, usize>,
    /// What is read of a declaration beside its name's meaning.
    pub interface: Option<Interface>,
    /// How many names were in scope when each open block of the function began.
    pub blocks: Vec<usize>,
    pub loops: Vec<Loop>,
    pub switches: Vec<Switch>,
    /// The result of the function whose body is read.
    pub result: Option<Type>,
    /// Whether it has one whose type has a fault.
    pub has_faulty_result: bool,
}

impl<'t> Checker<'t> {
    /// Nothing is read yet.
    pub fn none(alloc: Global, text: &'t str, tokens: &'t [Token]) -> Checker<'t>
        ensures parts { (state result).stack.parts ≡ [] }
        ensures text { (state result).stack.context.text ≡ text.now }
        ensures tokens { (state result).stack.context.tokens ≡ tokens.now }
        ensures scope { scope_view (state result).stack.context.locals ≡ [] ∷ [] }
        ensures extensions { (state result).stack.context.extensions ≡ none_enabled }
    {
        Checker {
            expressions: Expressions::none(alloc, text, tokens),
            declarations: Vec::new(alloc),
            interfaces: Vec::new(alloc),
            doings: Vec::new(alloc),
            ids: BTreeSet::new(alloc),
            bindings: BTreeMap::new(alloc),
            attributes: Vec::new(alloc),
            pending: Attributes::none(0),
            owner: Owner::Plain,
            filters: BTreeMap::new(alloc),
            interface: None,
            blocks: Vec::new(alloc),
            loops: Vec::new(alloc),
            switches: Vec::new(alloc),
            result: None,
            has_faulty_result: false,
        }
    }

    /// Nothing stands on the stack any more.
    pub fn clear(&mut self)
        ensures { state self.new ≡ cleared (state self.old) }
    {
        self.expressions.items.clear();
        self.switches.clear();
    }

    /// Takes what is known of a declaration beside its name's meaning; `keep` gives it back.
    pub fn take_interface(&mut self, index: usize) -> Option<Interface>
        ensures { Keeps (state self.old) (state self.new) }
    {
        self.interfaces.get_mut(index)?.take()
    }

    pub fn keep(&mut self, index: usize, interface: Interface)
        ensures { Keeps (state self.old) (state self.new) }
    {
        if let Some(place) = self.interfaces.get_mut(index) {
            *place = Some(interface);
        }
    }

    /// The text of the last of that many tokens.
    pub fn word(&self, count: usize) -> &'t str
        ensures { result.now ≡ word_at self.now.expressions.text.now self.now.expressions.tokens.now count }
    {
        self.expressions.word(count)
    }

    /// Says what is wrong in words that don't depend on the text.
    pub fn tell(&mut self, rule: Rule, place: Place, message: &str) -> Result<(), AllocError>
        ensures { Keeps (state self.old) (state self.new) }
    {
        self.expressions.tell(rule, place, message)
    }

    /// Says what is wrong with the last of that many tokens, or with what ends there.
    pub fn tell_last(&mut self, rule: Rule, count: usize, message: &str) -> Result<(), AllocError>
        ensures { Keeps (state self.old) (state self.new) }
    {
        self.tell(rule, Place::last_of(count), message)
    }

    /// Adds to the last fault the name of WGSL that a word may have meant which has this fault.
    pub fn suggest(&mut self, count: usize, cause: Cause) -> Result<(), AllocError>
        ensures { Keeps (state self.old) (state self.new) }
    {
        let none = Declared::none(self.expressions.alloc);
        let name = meant(cause, self.word(count), &none);
        self.expressions.suggest(name)
    }

    /// Says what is wrong with a name.
    pub fn tell_name(&mut self, rule: Rule, count: usize, message: &str) -> Result<(), AllocError>
        ensures { Keeps (state self.old) (state self.new) }
    {
        self.expressions.tell_name(rule, count, message)
    }
}
