// Values, and variables of functions (WGSL, "Value Declarations", "Variable Declarations").
ghost use Rattle.std.specs.Prelude.{◌≡◌, IfOk, None, cond, option_map};
ghost use Rattle.wgsl_module.specs.Blocks.{Binds};
ghost use Rattle.wgsl_module.specs.Noted.{BindsValue, BindsVariable, DeclaresValue, DeclaresVariable, IsVariableOn};
ghost use Rattle.wgsl_module.specs.States.{Keeps, source, standing, state};
ghost use Rattle.wgsl_typing.specs.Declarations.{IsVariable};
ghost use Rattle.wgsl_typing.specs.Stacks.{below_declared, below_initializer, below_space, name_on};

use crate::checker::Checker;
use std::alloc::AllocError;
use wgsl_standard::forms::declare::Declaration;
use wgsl_syntax::address::AddressSpace;
use wgsl_typing::declared::Declared;
use wgsl_typing::fault::Rule;
use wgsl_typing::known::{Part, Typed};

impl<'t> Checker<'t> {
    /// Gives a value its name in the innermost block.
    fn bind(&mut self, named: usize, typed: Option<Typed>) -> Result<(), AllocError>
        ensures name { IfOk result (λ u. Binds named typed (state self.old) (state self.new)) }
        ensures source { IfOk result (λ u. source (state self.new) ≡ source (state self.old)) }
    {
        let name = self.word(named);
        if self.expressions.locals.is_here(name) {
            self.tell_name(Rule::Duplicate, named, "is declared twice in this block")?;
            if let Some(first) = self.expressions.locals.declared_here(name) {
                self.expressions.refer(first)?;
            }
        } else {
            self.expressions.locals.declare(name, named, typed)?;
        }
        Ok(())
    }

    /// `let x = y;`, `const x: T = y;`
    pub fn declare_value(&mut self, declaration: Declaration) -> Result<(), AllocError>
        ensures value { IfOk result (λ u. BindsValue declaration (state self.old) (state self.new)) }
        ensures source { IfOk result (λ u. source (state self.new) ≡ source (state self.old)) }
    {
        let (named, typed) = self.read_value(declaration)?;
        self.bind(named, typed)
    }

    /// The name of a value, and what it is if it has no fault.
    pub fn read_value(
        &mut self,
        declaration: Declaration,
    ) -> Result<(usize, Option<Typed>), AllocError>
        ensures { IfOk result (λ x. DeclaresValue declaration x.0 x.1 (state self.old) (state self.new)) }
    {
        let part = self.expressions.take_part()?;
        let declared = self.expressions.take_declared()?;
        let named = self.expressions.take_name();
        let typed = self.expressions.typed_value(declaration, &part, &declared)?;
        self.expressions.note(part)?;
        Ok((named, typed))
    }

    /// `var x: T = y;`
    pub fn declare_variable(&mut self) -> Result<(), AllocError>
        ensures variable { IfOk result (λ u. BindsVariable (state self.old) (state self.new)) }
        ensures source { IfOk result (λ u. source (state self.new) ≡ source (state self.old)) }
    {
        let (named, typed) = self.read_variable()?;
        self.bind(named, typed)
    }

    /// The name of a variable, and what it is if it has no fault.
    fn read_variable(&mut self) -> Result<(usize, Option<Typed>), AllocError>
        ensures name { IfOk result (λ x. x.0 ≡ name_on (below_declared (below_initializer (state self.old).stack.items))) }
        ensures variable { IfOk result (λ x. IsVariableOn (state self.old).stack.items x.1) }
        ensures rest { IfOk result (λ x. DeclaresVariable (state self.old) (state self.new)) }
    {
        let part = self.expressions.take_initializer()?;
        let declared = self.expressions.take_declared()?;
        let named = self.expressions.take_name();
        let is_allowed = self.is_in_function(named)?;
        let typed = self.typed_variable(named, part.as_ref(), &declared, is_allowed)?;
        if let Some(part) = part {
            self.expressions.note(part)?;
        }
        Ok((named, typed))
    }

    /// What a variable is, if it has no fault.
    fn typed_variable(
        &mut self,
        named: usize,
        part: Option<&Part>,
        declared: &Declared,
        is_allowed: bool,
    ) -> Result<Option<Typed>, AllocError>
        ensures variable { IfOk result (IsVariable AddressSpace.Function None (option_map (λ p. p.now.outcome) part.entry) declared.now) }
        ensures state { Keeps (state self.old) (state self.new) }
    {
        let typed = self
            .expressions
            .variable(AddressSpace::Function, None, named, part, declared)?;
        let is_held = match &typed {
            Some(typed) if is_allowed => self.expressions.may_be_held(named, &typed.ty)?,
            _ => false,
        };
        Ok(if_held(is_held, typed))
    }

    /// A variable of a function lies in `function`.
    fn is_in_function(&mut self, named: usize) -> Result<bool, AllocError>
        ensures { IfOk result (λ is. state self.new ≡ standing (below_space (state self.old).stack.items) (state self.old)) }
    {
        match self.expressions.take_space() {
            None | Some(Some((AddressSpace::Function, None))) => Ok(true),
            Some(None) => Ok(false),
            Some(Some(_)) => {
                let message = "is in a function, and so in `function`";
                self.expressions.no(Rule::Type, named, message)
            }
        }
    }
}

pub fn if_held(is_held: bool, typed: Option<Typed>) -> Option<Typed>
    ensures { result ≡ cond is_held typed None }
{
    if is_held { typed } else { None }
}
