// The names of a function, block by block (WGSL, "Declaration and Scope").
ghost use Rattle.std.specs.Prelude.{ℕ, Option, ◌≡◌, [], ◌∷◌, ◌++◌, IfOk, OnErr, OnOk, ◌<◌, ◌-◌, drop, reverse, take, vec_len};
ghost use Rattle.std.specs.Slice.{IsItemAt};
ghost use Rattle.wgsl_typing.specs.Indices.{Gives, IsIndexed, start};

use crate::known::Typed;
use std::alloc::{AllocError, Global};
use std::collections::BTreeMap;

/// A declaration of a function.
#[derive(Drop)]
pub struct Bound {
    /// How many tokens there are up to the name.
    pub named: usize,
    /// What it stands for; None if its declaration has a fault.
    pub typed: Option<Typed>,
}

/// A name that a function declares.
#[derive(Drop)]
pub struct Local<'t> {
    pub name: &'t str,
    pub bound: Bound,
    /// The index of the one that it shadows.
    shadowed: Option<usize>,
}

/// The names in scope, the innermost last.
#[derive(Drop)]
pub struct Locals<'t> {
    locals: Vec<Local<'t>>,
    /// The index of the innermost one with a name.
    innermost: BTreeMap<&'t str, usize>,
    /// How many there were when each open block began.
    blocks: Vec<usize>,
    /// What was declared in the blocks that are closed.
    pub closed: Vec<Bound>,
    ghost indexed: { ∥ IsIndexed innermost (reverse locals.items) (reverse blocks.items) ∥₁ },
}

impl<'t> Locals<'t> {
    ghost use Rattle.wgsl_typing.specs.Scopes.{locals_of, starts_of, scope_view, named, is_here, with_name, opened, closed};

    /// No name is in scope.
    pub fn none(alloc: Global) -> Locals<'t>
        ensures empty { scope_view result ≡ [] ∷ [] }
    {
        Locals {
            locals: Vec::new(alloc),
            innermost: BTreeMap::new(alloc),
            blocks: Vec::new(alloc),
            closed: Vec::new(alloc),
        }
    }

    /// How many names are in scope.
    pub fn len(&self) -> usize
        ensures { result ≡ vec_len self.now.locals }
    {
        self.locals.len()
    }

    /// The index of what a name stands for.
    #[tactic(auto, using(crate::proofs::Scopes::named_view))]
    pub fn index_of(&self, name: &'t str) -> Option<usize>
        ensures { result ≡ named name.now (scope_view self.now) }
    {
        self.innermost.get(&name).copied()
    }

    /// The name with an index, if there is one.
    pub fn get(&self, index: usize) -> Option<&Local<'t>>
        ensures { IsItemAt self.now.locals.items index result }
    {
        self.locals.get(index)
    }

    /// Whether the innermost block declares the name.
    #[tactic(auto, using(crate::proofs::Scopes::here_cut))]
    pub fn is_here(&self, name: &'t str) -> bool
        ensures { result ≡ is_here name.now (scope_view self.now) }
    {
        match self.index_of(name) {
            Some(index) => index >= self.first(),
            None => false,
        }
    }

    /// How many tokens there are up to the name where the innermost block declares it, if it does.
    pub fn declared_here(&self, name: &'t str) -> Option<usize> {
        if !self.is_here(name) {
            return None;
        }
        let index = self.index_of(name)?;
        Some(self.get(index)?.bound.named)
    }

    /// The index of the first name of the innermost block.
    fn first(&self) -> usize
        ensures { result ≡ start (starts_of self.now) }
    {
        self.blocks.last().copied().unwrap_or(0)
    }

    /// Begins a block.
    pub fn open(&mut self) -> Result<(), AllocError>
        ensures opened { IfOk result (λ _. scope_view self.new ≡ opened (scope_view self.old)) }
        ensures kept { self.new.locals ≡ self.old.locals }
    {
        self.blocks.reserve(1)?;
        self.blocks.push_reserved(self.locals.len());
        Ok(())
    }

    /// Gives what is declared its name in the innermost block.
    pub fn declare(
        &mut self,
        name: &'t str,
        named: usize,
        typed: Option<Typed>,
    ) -> Result<(), AllocError>
        ensures named { IfOk result (λ _.
            scope_view self.new ≡ with_name name.now (vec_len self.old.locals) (scope_view self.old)) }
        ensures added { IfOk result (λ _. (shadowed : Option ℕ) × (self.new.locals.items ≡ self.old.locals.items
            ++ record { name = name.entry; bound = record { named = named; typed = typed }; shadowed = shadowed } ∷ [])) }
    {
        self.locals.reserve(1)?;
        let shadowed = self.innermost.insert(name, self.locals.len())?;
        self.locals.push_reserved(Local {
            name,
            bound: Bound { named, typed },
            shadowed,
        });
        Ok(())
    }

    /// Closes the innermost block, and forgets its names; what they stood for goes to `closed`.
    pub fn close(&mut self) -> Result<(), AllocError>
        ensures closed { IfOk result (λ _. scope_view self.new ≡ closed (scope_view self.old)) }
        ensures kept { IfOk result (λ _. self.new.locals.items ≡ take (vec_len self.new.locals) self.old.locals.items) }
    {
        while self.locals.len() > self.first() {
            self.forget()?;
        }
        self.blocks.pop();
        Ok(())
    }

    /// Forgets the last name of the innermost block, and finds the one that it shadows.
    fn forget(&mut self) -> Result<(), AllocError>
        requires { start (starts_of self.old) < vec_len self.old.locals }
        ensures blocks { self.new.blocks ≡ self.old.blocks }
        ensures forgotten { IfOk result (λ _. locals_of self.new ≡ drop 1 (locals_of self.old)) }
        ensures kept { IfOk result (λ _. self.new.locals.items ≡ take (vec_len self.old.locals - 1) self.old.locals.items) }
    {
        let Some(local) = self.locals.last() else {
            return Ok(());
        };
        let (name, shadowed) = (local.name, local.shadowed);
        self.closed.reserve(1)?;
        give(&mut self.innermost, name, shadowed)?;
        if let Some(local) = self.locals.pop() {
            let Local { bound, .. } = local;
            self.closed.push_reserved(bound);
        }
        Ok(())
    }
}

/// Gives a name this index, or none.
fn give<'t>(
    index: &mut BTreeMap<&'t str, usize>,
    name: &'t str,
    given: Option<usize>,
) -> Result<(), AllocError>
    ensures given { OnOk result (Gives name.entry given index.old index.new) }
    ensures unchanged { OnErr result (index.new.entries ≡ index.old.entries) }
{
    match given {
        Some(given) => {
            index.insert(name, given)?;
        }
        None => {
            index.remove(&name);
        }
    }
    Ok(())
}
