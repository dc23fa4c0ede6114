// The names of a module: those of its declarations, and those that it is given.
ghost use Rattle.std.specs.Prelude.{◌≡◌, IfOk, map};
ghost use Rattle.wgsl_module.specs.Declarations.{written};
ghost use Rattle.wgsl_module.specs.Order.{Continues, HaveNames, IsNamed, KeepNames, name_at};
ghost use Rattle.wgsl_module.specs.Runs.{as_unread};
ghost use Rattle.wgsl_module.specs.States.{KeepsButNames, state};

use crate::checker::Checker;
use std::alloc::AllocError;
use wgsl_typing::expressions::Named;
use wgsl_typing::fault::Rule;
use wgsl_typing::known::Known;

impl<'t> Checker<'t> {
    /// Gives the declarations their names.
    pub fn name_all(&mut self) -> Result<(), AllocError>
        ensures state { KeepsButNames (state self.old) (state self.new) }
        ensures names { IfOk result (λ u. HaveNames self.new (map written self.new.declarations.items)) }
        ensures declared { IfOk result (λ u. self.new.expressions.declared.items ≡ map as_unread (map written self.new.declarations.items)) }
    {
        self.expressions.names.clear();
        self.expressions.declared.clear();
        for index in 0..self.declarations.len() {
            let named = self.named(index);
            self.expressions
                .declared
                .push(Named { named, known: None })?;
            self.interfaces.push(None)?;
            self.doings.push(None)?;
            self.name(index)?;
        }
        Ok(())
    }

    /// Gives a declaration its name. If another one has it, that one keeps it.
    fn name(&mut self, index: usize) -> Result<(), AllocError>
        ensures state { KeepsButNames (state self.old) (state self.new) }
        ensures names { IfOk result (λ u. IsNamed self.old (name_at self.old.declarations.items index) index self.new) }
        ensures declared { self.new.expressions.declared.items ≡ self.old.expressions.declared.items }
    {
        let Some(named) = self.named(index) else {
            return Ok(());
        };
        let name = self.word(named);
        match self.expressions.names.get(&name).copied() {
            Some(first) => {
                self.expressions
                    .tell_name(Rule::Duplicate, named, "is declared twice")?;
                self.refer(first)
            }
            None => {
                self.expressions.names.insert(name, index)?;
                Ok(())
            }
        }
    }

    /// Gives these names their meanings, unless they have others.
    pub fn give_all(&mut self, given: Vec<(&'t str, Known)>) -> Result<(), AllocError>
        ensures state { KeepsButNames (state self.old) (state self.new) }
        ensures names { KeepNames self.old self.new }
        ensures declared { IfOk result (λ u. Continues self.old self.new) }
    {
        for (name, known) in given {
            self.give(name, known)?;
        }
        Ok(())
    }

    /// Gives a name this meaning, unless it has another one.
    fn give(&mut self, name: &'t str, known: Known) -> Result<(), AllocError>
        ensures state { KeepsButNames (state self.old) (state self.new) }
        ensures names { KeepNames self.old self.new }
        ensures declared { IfOk result (λ u. Continues self.old self.new) }
    {
        let index = self.expressions.declared.len();
        self.expressions.declared.push(Named {
            named: None,
            known: Some(known),
        })?;
        if !self.expressions.names.contains_key(&name) {
            self.expressions.names.insert(name, index)?;
        }
        Ok(())
    }
}
