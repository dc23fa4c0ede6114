// The check of a module.
ghost use Rattle.std.specs.Prelude.{◌≡◌, ◌≢◌, ℕ, [], IfOk, List, false, length, map, option_map, slice_get, true};
ghost use Rattle.wgsl_module.specs.Checked.{AreTyped, IsRead, TellsReading, are_known, told_of_reading};
ghost use Rattle.wgsl_module.specs.Declarations.{written, written_in};
ghost use Rattle.wgsl_module.specs.Named.{named_by};
ghost use Rattle.wgsl_module.specs.Order.{HasEach, IsBehind, IsInTurn, cycling, name_at};
ghost use Rattle.wgsl_module.specs.Recursion.{HasCallOrder, HasNoRecursion};
ghost use Rattle.wgsl_module.specs.Runs.{AreDeclarations, AreNamed, AreUnread, HasParts, HasRuns, IsModule, ReadsFrom};
ghost use Rattle.wgsl_module.specs.States.{Keeps, KeepsButNames, State, source, state};
ghost use Rattle.wgsl_module.specs.Told.{AreTold, broken};
ghost use Rattle.wgsl_reader.specs.declared.token.Token.{Token};

use crate::checker::Checker;
use crate::control::faults_of_control;
use crate::declaration::{Declaration, declarations};
use crate::misread::faults_of_misread;
use crate::told::{in_order, joined};
use crate::untyped::{are_known, tell_untyped};
use crate::walk::Link;
use std::alloc::{AllocError, Global};
use std::mem::replace;
use wgsl_reader::kind::Kind;
use wgsl_reader::module::{Misread, Module, read_module};
use wgsl_reader::token::Token;
use wgsl_source::text::{Text, tokens};
use wgsl_typing::expressions::Named;
use wgsl_typing::fault::{Fault, Place, Rule};
use wgsl_typing::known::{Known, Part};
use wgsl_typing::scope::Bound;

/// What is found of a module: its expressions, and what is wrong.
#[derive(Drop)]
pub struct Checked {
    pub parts: Vec<Part>,
    pub faults: Vec<Fault>,
    pub tokens: Vec<Token>,
    /// What the grammar doesn't read, for messages.
    pub misread: Vec<Misread>,
    /// What counts elements when the pipeline is made, as it is written: an array's count from 0x80000000 on is an index here.
    pub counts: Vec<String>,
    /// The declarations of the module, and the names that it was given.
    pub declared: Vec<Named>,
    /// Those of functions.
    pub locals: Vec<Bound>,
}

/// Which declarations lead to themselves, perhaps through others, and where.
#[derive(Drop)]
struct Cycles {
    /// Those that name themselves.
    named: Vec<(usize, Place)>,
    /// The functions that call themselves.
    called: Vec<(usize, Place)>,
}

/// Checks a module, which may use and shadow these names. The faults are in the order of the text.
pub fn check<'t>(
    alloc: Global,
    given: Vec<(&'t str, Known)>,
    text: &'t str,
) -> Result<Checked, AllocError>
    ensures reading { IfOk result (λ c. TellsReading c.tokens.items c.faults.items) }
    ensures read { IfOk result (λ c. c.faults.items ≡ [] → IsRead c.tokens.items) }
    ensures typed { IfOk result (λ c. are_known given.entry.items ≡ true → c.faults.items ≡ [] → AreTyped c.parts.items) }
    ensures parts { IfOk result (λ c. HasParts text.now c.tokens.items c.faults.items c.parts.items) }
    ensures calls { IfOk result (λ c. c.faults.items ≡ [] → HasNoRecursion text.now c.tokens.items) }
{
    let tokens = tokens(alloc, text.as_bytes())?;
    let grammar = read_module(alloc, &tokens)?;
    let is_known = are_known(&given);
    let mut checked = read_all(alloc, given, text, &tokens, &grammar)?;
    tell_untyped(alloc, is_known, &checked.parts, &mut checked.faults)?;
    let Module { misread, .. } = grammar;
    checked.tokens = tokens;
    checked.misread = misread;
    Ok(checked)
}

/// What is found of a module, by what the grammar says of it, without its tokens and what is misread.
fn read_all<'t>(
    alloc: Global,
    given: Vec<(&'t str, Known)>,
    text: &'t str,
    tokens: &'t [Token],
    grammar: &'t Module,
) -> Result<Checked, AllocError>
    ensures told { IfOk result (λ c. AreTold (told_of_reading tokens.now grammar.now.events.items grammar.now.misread.items) c.faults.items) }
    ensures parts { IfOk result (λ c. (cycles : List ℕ) × HasRuns text.now tokens.now grammar.now.events.items cycles c.parts.items
        × (c.faults.items ≡ [] → cycles ≡ [])) }
    ensures calls { IfOk result (λ c. grammar.now.misread.items ≡ [] → c.faults.items ≡ []
        → HasCallOrder [] text.now tokens.now (written_in false grammar.now.events.items)) }
{
    let mut checker = Checker::none(alloc, text, tokens);
    let checked = checker.checked(text, tokens, grammar, given);
    drop(checker);
    checked
}

/// What is told of a module by what the grammar reads of it alone.
fn faults_of_reading(
    alloc: Global,
    text: &str,
    tokens: &[Token],
    grammar: &Module,
) -> Result<Vec<Fault>, AllocError>
    ensures { IfOk result (λ faults. map broken faults.items
        ≡ told_of_reading tokens.now grammar.now.events.items grammar.now.misread.items) }
{
    let misread = faults_of_misread(alloc, Text { text, tokens }, &grammar.misread)?;
    let control = faults_of_control(alloc, tokens, &grammar.events)?;
    joined(misread, control)
}

/// A text that has a fault as a whole, at some bytes.
pub fn unreadable(
    alloc: Global,
    at: usize,
    len: usize,
    message: &str,
) -> Result<Checked, AllocError> {
    let token = Token {
        kind: Kind::Reserved,
        at,
        len,
    };
    let mut faults = Vec::new(alloc);
    faults.push(Fault {
        rule: Rule::Syntax,
        place: Place::last_of(1),
        message: String::from_str(alloc, message)?,
        notes: Vec::new(alloc),
    })?;
    Ok(Checked {
        parts: Vec::new(alloc),
        faults,
        tokens: vec![in alloc; token; 1]?,
        misread: Vec::new(alloc),
        counts: Vec::new(alloc),
        declared: Vec::new(alloc),
        locals: Vec::new(alloc),
    })
}

impl<'t> Checker<'t> {
    /// Checks a module, of which nothing is read yet. What is found is taken.
    fn checked(
        &mut self,
        text: &str,
        tokens: &[Token],
        grammar: &'t Module,
        given: Vec<(&'t str, Known)>,
    ) -> Result<Checked, AllocError>
        ensures told { IfOk result (λ c. AreTold (told_of_reading tokens.now grammar.now.events.items grammar.now.misread.items) c.faults.items) }
        ensures parts { IfOk result (λ c. ReadsFrom tokens.now grammar.now.events.items c.faults.items (state self.old) c.parts.items) }
        ensures calls { IfOk result (λ c. grammar.now.misread.items ≡ [] → c.faults.items ≡ []
            → HasCallOrder [] self.old.expressions.text.now self.old.expressions.tokens.now (written_in false grammar.now.events.items)) }
    {
        self.read(tokens, grammar, given)?;
        let found = self.found(text, tokens, grammar)?;
        Ok(found)
    }

    /// Reads the module, and checks it.
    fn read(
        &mut self,
        tokens: &[Token],
        grammar: &'t Module,
        given: Vec<(&'t str, Known)>,
    ) -> Result<(), AllocError>
        ensures parts { IfOk result (λ u. ReadsFrom tokens.now grammar.now.events.items self.new.expressions.faults.items (state self.old) (state self.new).stack.parts) }
        ensures calls { IfOk result (λ u. grammar.now.misread.items ≡ [] → self.new.expressions.faults.items ≡ []
            → HasCallOrder [] self.old.expressions.text.now self.old.expressions.tokens.now (written_in false grammar.now.events.items)) }
    {
        match self.declare_written(grammar) {
            Ok(()) => {}
            Err(error) => {
                drop(given);
                return Err(error);
            }
        }
        self.check_all(tokens, given)?;
        Ok(())
    }

    /// Finds the declarations of a module, and the names of what the grammar doesn't read.
    fn declare_written(&mut self, grammar: &'t Module) -> Result<(), AllocError>
        ensures module { IfOk result (λ u. (cycles : List ℕ) (tokens : List Token) (s r : State)
            → IsModule cycles tokens (map written self.new.declarations.items) s r → IsModule cycles tokens (written_in false grammar.now.events.items) s r) }
        ensures all { IfOk result (λ u. grammar.now.misread.items ≡ [] → map written self.new.declarations.items ≡ written_in false grammar.now.events.items) }
        ensures stack { (state self.new).stack ≡ (state self.old).stack }
    {
        self.declarations = declarations(self.expressions.alloc, &grammar.events)?;
        self.declare_misread(&grammar.misread)?;
        Ok(())
    }

    /// What is found, without tokens and what is misread; it is taken.
    fn found(
        &mut self,
        text: &str,
        tokens: &[Token],
        grammar: &Module,
    ) -> Result<Checked, AllocError>
        ensures told { IfOk result (λ c. AreTold (told_of_reading tokens.now grammar.now.events.items grammar.now.misread.items) c.faults.items) }
        ensures parts { IfOk result (λ c. c.parts.items ≡ self.old.expressions.parts.items) }
        ensures faults { IfOk result (λ c. c.faults.items ≡ [] → self.old.expressions.faults.items ≡ []) }
    {
        let alloc = self.expressions.alloc;
        let own = faults_of_reading(alloc, text, tokens, grammar)?;
        let told = replace(&mut self.expressions.faults, Vec::new(alloc));
        let faults = in_order(alloc, told, own)?;
        let locals = &mut self.expressions.locals;
        let closed = replace(&mut locals.closed, Vec::new(alloc));
        Ok(Checked {
            parts: replace(&mut self.expressions.parts, Vec::new(alloc)),
            faults,
            tokens: Vec::new(alloc),
            misread: Vec::new(alloc),
            counts: replace(&mut self.expressions.override_counts, Vec::new(alloc)),
            declared: replace(&mut self.expressions.declared, Vec::new(alloc)),
            locals: closed,
        })
    }

    fn check_all(
        &mut self,
        tokens: &[Token],
        given: Vec<(&'t str, Known)>,
    ) -> Result<(), AllocError>
        ensures module { IfOk result (λ u. (before : State) × (cycles : List ℕ) × KeepsButNames (state self.old) before
            × IsModule cycles tokens.now (map written self.old.declarations.items) before (state self.new)
            × (self.new.expressions.faults.items ≡ [] → cycles ≡ [])) }
        ensures calls { IfOk result (λ u. self.new.expressions.faults.items ≡ []
            → HasCallOrder [] self.old.expressions.text.now self.old.expressions.tokens.now (map written self.old.declarations.items)) }
    {
        let cycles = self.declare_all(tokens, given)?;
        self.read_bodies(tokens)?;
        self.check_entry_points()?;
        self.tell_calls(&cycles.called)?;
        self.tell_cycle(&cycles.named)?;
        Ok(())
    }

    /// Says that a declaration needs itself, if nothing else is told.
    fn tell_cycle(&mut self, cycles: &[(usize, Place)]) -> Result<(), AllocError>
        ensures reading { Keeps (state self.old) (state self.new) }
        ensures told { IfOk result (λ u. self.new.expressions.faults.items ≡ [] → cycling cycles.now ≡ []) }
        ensures kept { IfOk result (λ u. self.new.expressions.faults.items ≡ [] → self.old.expressions.faults.items ≡ []) }
    {
        match cycles.first() {
            Some((_, place)) if self.expressions.faults.is_empty() => self
                .expressions
                .tell(Rule::Cycle, *place, "this declaration needs itself"),
            _ => Ok(()),
        }
    }

    /// Reads the declarations, each behind those that it needs. Returns which need or call themselves, and where.
    fn declare_all(
        &mut self,
        tokens: &[Token],
        given: Vec<(&'t str, Known)>,
    ) -> Result<Cycles, AllocError>
        ensures declarations { IfOk result (λ cycles. (before : State) × (order : List ℕ) × KeepsButNames (state self.old) before
            × AreNamed before (map written self.old.declarations.items)
            × HasEach 0 (length (map written self.old.declarations.items)) order
            × IsBehind (named_by before.stack.context (map written self.old.declarations.items)) (cycling cycles.named.items) order
            × IsInTurn (named_by before.stack.context (map written self.old.declarations.items)) 0 (length (map written self.old.declarations.items)) order
            × AreDeclarations tokens.now (map written self.old.declarations.items) order before (state self.new)
            × AreUnread before (map written self.old.declarations.items)) }
        ensures calls { IfOk result (λ cycles. HasCallOrder (cycling cycles.called.items) self.old.expressions.text.now self.old.expressions.tokens.now
            (map written self.old.declarations.items)) }
        ensures source { IfOk result (λ u. source (state self.new) ≡ source (state self.old)) }
    {
        self.name_all()?;
        let count = self.declarations.len();
        let named = self.walk(0, count, Link::Name)?;
        let called = self.walk(0, count, Link::Call)?;
        self.give_all(given)?;
        self.declare_in(tokens, &named.order)?;
        Ok(Cycles {
            named: named.cycles,
            called: called.cycles,
        })
    }

    /// Says which functions call themselves.
    fn tell_calls(&mut self, cycles: &[(usize, Place)]) -> Result<(), AllocError>
        ensures reading { Keeps (state self.old) (state self.new) }
        ensures told { IfOk result (λ u. self.new.expressions.faults.items ≡ [] → cycling cycles.now ≡ []) }
    {
        for (callee, place) in cycles {
            self.tell_call(*callee, *place)?;
        }
        Ok(())
    }

    /// Says that a function calls itself.
    fn tell_call(&mut self, callee: usize, place: Place) -> Result<(), AllocError>
        ensures reading { Keeps (state self.old) (state self.new) }
        ensures told { IfOk result (λ u. self.new.expressions.faults.items ≢ []) }
    {
        self.expressions
            .tell(Rule::Cycle, place, "this function calls itself")?;
        self.refer(callee)
    }

    pub fn declaration(&self, index: usize) -> Option<Declaration<'t>>
        ensures { result ≡ slice_get self.now.declarations.items index }
    {
        self.declarations.get(index).copied()
    }

    /// How many tokens there are up to the name of a declaration, if it has one.
    pub fn named(&self, index: usize) -> Option<usize>
        ensures { result ≡ name_at self.now.declarations.items index }
    {
        self.declaration(index)?.named
    }

    /// Adds to the last fault where a declaration is.
    pub fn refer(&mut self, index: usize) -> Result<(), AllocError>
        ensures state { state self.new ≡ state self.old }
        ensures faults { length self.new.expressions.faults.items ≡ length self.old.expressions.faults.items }
    {
        match self.named(index) {
            Some(named) => self.expressions.refer(named),
            None => Ok(()),
        }
    }
}
