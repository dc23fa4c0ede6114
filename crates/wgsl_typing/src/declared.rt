// What is declared with a type or a value (WGSL, "Value Declarations", "Variable Declarations").
ghost use Rattle.std.specs.Prelude.{◌≡◌, IfOk, option_map};
ghost use Rattle.wgsl_core.specs.View.{view};
ghost use Rattle.wgsl_typing.specs.Declarations.{IsDeclared, IsHeld, IsInitialized, IsVariable, declared_on, initializing, is_condition, stage_of_declaration, type_behind, value_of_declaration, value_of_variable};
ghost use Rattle.wgsl_standard.specs.forms.Views.{given};
ghost use Rattle.wgsl_typing.specs.Operators.{Initializer};
ghost use Rattle.wgsl_typing.specs.Stacks.{below, below_declared, below_initializer, below_space, initializer_on, name_on, space_on, stack, with_items};
ghost use Rattle.wgsl_typing.specs.Types.{DeclaredType};

use crate::count::has_override_count;
use crate::expression::shown;
use crate::expressions::Expressions;
use crate::fault::{Place, Rule};
use crate::item::Item;
use crate::known::{Part, Typed};
use crate::stage::Stage;
use crate::structs::behind;
use std::alloc::AllocError;
use wgsl_core::ty::Type;
use wgsl_standard::forms::declare::{Declaration, declare};
use wgsl_standard::forms::flow::condition;
use wgsl_standard::forms::refusal::Refusal;
use wgsl_standard::forms::variable::{initialized_variable, variable};
use wgsl_standard::operand::Operand;
use wgsl_syntax::address::{AccessMode, AddressSpace};

/// What is wrong with a value that must be known before the shader runs.
const NOT_EARLY: &str = "expected an override-expression";

/// What a declaration says behind its name: the type, if there is one, or that it has a fault.
#[derive(Drop)]
pub enum Declared {
    No,
    Type(Type),
    Faulty,
}

impl Declared {
    /// The type, if there is one without a fault.
    pub fn ty(&self) -> Option<&Type>
        ensures { option_map (λ t. view t.now) result ≡ type_behind self.now }
    {
        match self {
            Declared::Type(ty) => Some(ty),
            Declared::No | Declared::Faulty => None,
        }
    }
}

impl<'t> Expressions<'t> {
    /// `: T`
    pub fn put_declared_type(&mut self) -> Result<(), AllocError>
        ensures { IfOk result (λ u. DeclaredType (stack self.old) (stack self.new)) }
    {
        let (_, ty) = self.take_type()?;
        self.push(Item::DeclaredType(ty))
    }

    /// `= x` of a `var` or an `override`
    pub fn put_initializer(&mut self) -> Result<(), AllocError>
        ensures { IfOk result (λ u. Initializer (stack self.old) (stack self.new)) }
    {
        let part = self.take_part()?;
        self.push(Item::Part(part))
    }

    /// The type behind the name, if there is one.
    pub fn take_declared(&mut self) -> Result<Declared, AllocError>
        ensures declared { IfOk result (λ d. d ≡ declared_on (stack self.old).items) }
        ensures rest { IfOk result (λ d. stack self.new ≡ with_items (below_declared (stack self.old).items) (stack self.old)) }
    {
        match self.items.pop() {
            Some(Item::DeclaredType(Some(ty))) => Ok(Declared::Type(ty)),
            Some(Item::DeclaredType(None)) => Ok(Declared::Faulty),
            Some(other) => {
                self.items.push(other)?;
                Ok(Declared::No)
            }
            None => Ok(Declared::No),
        }
    }

    /// The name of a declaration, by the number of tokens up to it.
    pub fn take_name(&mut self) -> usize
        ensures name { result ≡ name_on (stack self.old).items }
        ensures rest { stack self.new ≡ with_items (below (stack self.old).items) (stack self.old) }
    {
        let count = match self.items.last() {
            Some(Item::Name(count)) => *count,
            _ => 0,
        };
        self.drop_top();
        count
    }

    /// The value of a variable, if it has one.
    pub fn take_initializer(&mut self) -> Result<Option<Part>, AllocError>
        ensures part { IfOk result (λ x. x ≡ initializer_on (stack self.old).items) }
        ensures rest { IfOk result (λ x. stack self.new ≡ with_items (below_initializer (stack self.old).items) (stack self.old)) }
    {
        match self.items.last() {
            Some(Item::Part(_)) => Ok(Some(self.take_part()?)),
            _ => Ok(None),
        }
    }

    /// The template list of a variable, if it has one; `Some(None)` if that has a fault.
    pub fn take_space(&mut self) -> Option<Option<(AddressSpace, Option<AccessMode>)>>
        ensures space { result ≡ space_on (stack self.old).items }
        ensures rest { stack self.new ≡ with_items (below_space (stack self.old).items) (stack self.old) }
    {
        let Some(Item::Space(space)) = self.items.last() else {
            return None;
        };
        let space = *space;
        self.drop_top();
        Some(space)
    }

    /// What a declaration with a value declares; None where that is told.
    pub fn typed_value(
        &mut self,
        declaration: Declaration,
        part: &Part,
        declared: &Declared,
    ) -> Result<Option<Typed>, AllocError>
        ensures answer { IfOk result (IsDeclared declaration declared.now part.now.outcome) }
        ensures stack { stack self.new ≡ stack self.old }
    {
        let Some(value) = self.initializing(part, declared)? else {
            return Ok(None);
        };
        let operand = value_of(declaration, value);
        match declare(declaration, &operand, declared.ty()) {
            Ok(ty) => {
                let ty = ty.build(self.alloc)?;
                match self.may_be_loaded(part.place, &ty)? {
                    true => self.holding(part, stage_of(declaration), ty),
                    false => Ok(None),
                }
            }
            Err(Refusal::NotConst) if matches!(declaration, Declaration::Override) => {
                self.tell(Rule::Type, part.place, NOT_EARLY)?;
                Ok(None)
            }
            Err(refusal) => {
                self.allows(part.place, Some(refusal))?;
                Ok(None)
            }
        }
    }

    /// The value of a declaration, if neither it nor the declared type has a fault.
    fn initializing<'p>(
        &mut self,
        part: &'p Part,
        declared: &Declared,
    ) -> Result<Option<&'p Typed>, AllocError>
        ensures answer { IfOk result (λ v. option_map (λ v. v.now) v ≡ initializing declared.now part.now.outcome) }
        ensures stack { stack self.new ≡ stack self.old }
    {
        if !self.has_value(part)? || matches!(declared, Declared::Faulty) {
            return Ok(None);
        }
        Ok(part.typed())
    }

    /// What is declared with that type, which holds the value.
    fn holding(&mut self, part: &Part, stage: Stage, ty: Type) -> Result<Option<Typed>, AllocError>
        ensures answer { IfOk result (IsHeld stage (Ok (view ty))) }
        ensures stack { stack self.new ≡ stack self.old }
    {
        let Some(value) = self.argument_value(part, Some(behind(&ty)))? else {
            return Ok(None);
        };
        let mut typed = Typed::of(ty, stage);
        typed.value = if stage.is_const() { value } else { None };
        Ok(Some(typed))
    }

    /// An array that an override counts can't be constructed, so it isn't loaded.
    pub fn may_be_loaded(&mut self, place: Place, ty: &Type) -> Result<bool, AllocError>
        ensures stack { stack self.new ≡ stack self.old }
    {
        if !has_override_count(ty) {
            return Ok(true);
        }
        let message = format!(in self.alloc; "`{ty}` is not constructible")?;
        self.fault(Rule::Type, place, message)?;
        Ok(false)
    }

    /// What a variable outside of buffers may hold.
    pub fn may_be_held(&mut self, named: usize, reference: &Type) -> Result<bool, AllocError>
        ensures stack { stack self.new ≡ stack self.old }
    {
        let held = behind(reference);
        if has_override_count(held) {
            return self.no(
                Rule::Type,
                named,
                "has a count that only `workgroup` may have",
            );
        }
        self.is_short(named, held)
    }

    /// Arrays outside of buffers have at most 65,535 elements (WGSL, "Limits").
    pub fn is_short(&mut self, named: usize, held: &Type) -> Result<bool, AllocError>
        ensures stack { stack self.new ≡ stack self.old }
    {
        if self.structs.has_long_array(held) && !has_override_count(held) {
            return self.no(
                Rule::Limit,
                named,
                "has an array of more than 65535 elements",
            );
        }
        Ok(true)
    }

    /// The reference that a variable is; None where a fault is told.
    pub fn variable(
        &mut self,
        space: AddressSpace,
        access: Option<AccessMode>,
        named: usize,
        part: Option<&Part>,
        declared: &Declared,
    ) -> Result<Option<Typed>, AllocError>
        ensures answer { IfOk result (IsVariable space access (option_map (λ p. p.now.outcome) part.entry) declared.now) }
        ensures stack { stack self.new ≡ stack self.old }
    {
        match (part, declared) {
            (Some(part), _) => self.initialized(space, access, part, declared),
            (None, Declared::Type(ty)) => {
                match self.built(Place::last_of(named), variable(space, access, ty))? {
                    Some(reference) => Ok(Some(Typed::of(reference, Stage::Runtime))),
                    None => Ok(None),
                }
            }
            (None, Declared::Faulty) => Ok(None),
            (None, Declared::No) => self.nothing(Rule::Type, named, "needs a type or a value"),
        }
    }

    fn initialized(
        &mut self,
        space: AddressSpace,
        access: Option<AccessMode>,
        part: &Part,
        declared: &Declared,
    ) -> Result<Option<Typed>, AllocError>
        ensures answer { IfOk result (IsInitialized space access declared.now part.now.outcome) }
        ensures stack { stack self.new ≡ stack self.old }
    {
        let Some(value) = self.initializing(part, declared)? else {
            return Ok(None);
        };
        let operand = value_in(space, value);
        let form = initialized_variable(space, access, &operand, declared.ty());
        if matches!(form, Err(Refusal::NotConst)) && space == AddressSpace::Private {
            self.tell(Rule::Type, part.place, NOT_EARLY)?;
            return Ok(None);
        }
        match self.built(part.place, form)? {
            Some(reference) => self.holding(part, Stage::Runtime, reference),
            None => Ok(None),
        }
    }

    /// Whether a condition is a `bool`. If it isn't, that is told.
    pub fn is_condition(&mut self, part: &Part) -> Result<bool, AllocError>
        ensures answer { IfOk result (λ is. is ≡ is_condition part.now.outcome) }
        ensures stack { stack self.new ≡ stack self.old }
    {
        if !self.has_value(part)? {
            return Ok(false);
        }
        match part.typed() {
            Some(typed) => self.allows(part.place, condition(&shown(typed)).err()),
            None => Ok(false),
        }
    }
}

/// When the value of what is declared is known.
fn stage_of(declaration: Declaration) -> Stage
    ensures { result ≡ stage_of_declaration declaration }
{
    match declaration {
        Declaration::Let => Stage::Runtime,
        Declaration::Const => Stage::Const,
        Declaration::Override => Stage::Override,
    }
}

/// The value of a declaration: of `override` it is known before the shader runs.
fn value_of(declaration: Declaration, value: &Typed) -> Operand<'_>
    ensures { given result ≡ value_of_declaration declaration value.now }
{
    match declaration {
        Declaration::Override => value.early_operand(),
        Declaration::Let | Declaration::Const => shown(value),
    }
}

/// The value of a variable: in `private` it is known before the shader runs.
fn value_in(space: AddressSpace, value: &Typed) -> Operand<'_>
    ensures { given result ≡ value_of_variable space value.now }
{
    match space {
        AddressSpace::Private => value.early_operand(),
        _ => shown(value),
    }
}
