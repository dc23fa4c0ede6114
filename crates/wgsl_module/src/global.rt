// Overrides and variables of a module (WGSL, "Value Declarations", "Variable Declarations"), and the numbers that tell them apart.
ghost use Rattle.std.specs.Prelude.{◌≡◌, ◌≢◌, IfOk, None, Some, option_map};
ghost use Rattle.wgsl_module.specs.Meanings.{IsGlobal, IsGlobalOn, IsOverride, IsOverrideOn, IsUnset, space_of};
ghost use Rattle.wgsl_module.specs.Noted.{DeclaresOverride, DeclaresVariable};
ghost use Rattle.wgsl_module.specs.States.{Keeps, state};
ghost use Rattle.wgsl_typing.specs.Declarations.{IsVariable};

use crate::attribute::{Attributes, Name};
use crate::checker::Checker;
use crate::local::if_held;
use std::alloc::AllocError;
use wgsl_standard::forms::declare::{Declaration as Form, override_without_value};
use wgsl_standard::forms::variable::holds;
use wgsl_syntax::address::{AccessMode, AddressSpace};
use wgsl_typing::count::has_override_count;
use wgsl_typing::declared::Declared;
use wgsl_typing::fault::{Place, Rule};
use wgsl_typing::known::{Part, Typed};
use wgsl_typing::stage::Stage;
use wgsl_typing::structs::behind;

/// What stands between `var<` and `>`, with an access mode if that is said; None if it has a fault.
type Space = Option<(AddressSpace, Option<AccessMode>)>;

impl<'t> Checker<'t> {
    /// `override x: T = y;`
    pub fn read_override(
        &mut self,
        named: usize,
        attributes: Attributes,
    ) -> Result<Option<Typed>, AllocError>
        ensures value { IfOk result (IsOverrideOn (state self.old).stack.items) }
        ensures rest { IfOk result (λ typed. DeclaresOverride (state self.old) (state self.new)) }
    {
        let part = self.expressions.take_initializer()?;
        let declared = self.expressions.take_declared()?;
        self.expressions.take_name();
        self.check_id(named, attributes)?;
        let typed = self.typed_override(named, part.as_ref(), &declared)?;
        if let Some(part) = part {
            self.expressions.note(part)?;
        }
        Ok(if_held(attributes.are_fine, typed))
    }

    /// What an override is, if it has no fault.
    fn typed_override(
        &mut self,
        named: usize,
        part: Option<&Part>,
        declared: &Declared,
    ) -> Result<Option<Typed>, AllocError>
        ensures value { IfOk result (IsOverride (option_map (λ p. p.now.outcome) part.entry) declared.now) }
        ensures state { Keeps (state self.old) (state self.new) }
    {
        match part {
            Some(part) => self.expressions.typed_value(Form::Override, part, declared),
            None => self.override_without_value(named, declared),
        }
    }

    /// `var<private> x: T = y;` of a module.
    pub fn read_global(
        &mut self,
        named: usize,
        attributes: Attributes,
    ) -> Result<Option<Typed>, AllocError>
        ensures variable { IfOk result (IsGlobalOn (state self.old).stack.items) }
        ensures rest { IfOk result (λ typed. DeclaresVariable (state self.old) (state self.new)) }
    {
        let part = self.expressions.take_initializer()?;
        let declared = self.expressions.take_declared()?;
        self.expressions.take_name();
        let space = self.expressions.take_space();
        let typed = self.variable_in(space, named, part.as_ref(), &declared, attributes)?;
        if let Some(part) = part {
            self.expressions.note(part)?;
        }
        Ok(typed)
    }

    /// The number of an override stands once, and is at most 65,535.
    fn check_id(&mut self, named: usize, attributes: Attributes) -> Result<(), AllocError>
        ensures { Keeps (state self.old) (state self.new) }
    {
        let Some(id) = self.integer(attributes, Name::Id) else {
            return Ok(());
        };
        if id > 65535 {
            return self.tell_name(Rule::Attribute, named, "has an @id above 65535");
        }
        if !self.ids.insert(id)? {
            self.tell_name(Rule::Attribute, named, "has the @id of another override")?;
        }
        Ok(())
    }

    fn override_without_value(
        &mut self,
        named: usize,
        declared: &Declared,
    ) -> Result<Option<Typed>, AllocError>
        ensures value { IfOk result (IsUnset declared.now) }
        ensures state { Keeps (state self.old) (state self.new) }
    {
        match declared {
            Declared::Type(ty) => match override_without_value(ty) {
                Ok(ty) => {
                    let ty = ty.build(self.expressions.alloc)?;
                    Ok(Some(Typed::of(ty, Stage::Override)))
                }
                Err(refusal) => {
                    self.expressions
                        .allows(Place::last_of(named), Some(refusal))?;
                    Ok(None)
                }
            },
            Declared::No => {
                self.expressions
                    .nothing(Rule::Type, named, "needs a type or a value")
            }
            Declared::Faulty => Ok(None),
        }
    }

    /// The variable in this address space, or in what stands in its place; None if that is told or has a fault.
    #[tactic(auto, using(crate::proofs::Variables::no_global, crate::proofs::Variables::in_module))]
    fn variable_in(
        &mut self,
        space: Option<Space>,
        named: usize,
        part: Option<&Part>,
        declared: &Declared,
        attributes: Attributes,
    ) -> Result<Option<Typed>, AllocError>
        ensures variable { IfOk result (IsGlobal (space_of space) (option_map (λ p. p.now.outcome) part.entry) declared.now) }
        ensures state { Keeps (state self.old) (state self.new) }
    {
        let (space, access) = match space {
            Some(Some(space)) => space,
            Some(None) => return Ok(None),
            None if self.may_be_handle(named, part, declared)? => (AddressSpace::Handle, None),
            None => return Ok(None),
        };
        match wrong_space(space, access) {
            Some(message) => self.expressions.nothing(Rule::Type, named, message),
            None => self.global(space, access, named, part, declared, attributes),
        }
    }

    /// The variable in an address space of the module; None if that is told or has a fault.
    fn global(
        &mut self,
        space: AddressSpace,
        access: Option<AccessMode>,
        named: usize,
        part: Option<&Part>,
        declared: &Declared,
        attributes: Attributes,
    ) -> Result<Option<Typed>, AllocError>
        ensures variable { IfOk result (IsVariable space access (option_map (λ p. p.now.outcome) part.entry) declared.now) }
        ensures state { Keeps (state self.old) (state self.new) }
    {
        let typed = self
            .expressions
            .variable(space, access, named, part, declared)?;
        let is_placed = match &typed {
            Some(typed) => self.is_placed(space, named, typed, attributes)?,
            None => false,
        };
        Ok(if_held(is_placed, typed))
    }

    /// Whether a variable may lie in its address space, and has the attributes of one there.
    fn is_placed(
        &mut self,
        space: AddressSpace,
        named: usize,
        variable: &Typed,
        attributes: Attributes,
    ) -> Result<bool, AllocError>
        ensures { Keeps (state self.old) (state self.new) }
    {
        if !self.may_lie_in(space, named, variable)? || !attributes.are_fine {
            return Ok(false);
        }
        self.is_bound(named, space, attributes)
    }

    /// Whether a variable without an address space may be a handle. If it can't, that is told.
    fn may_be_handle(
        &mut self,
        named: usize,
        part: Option<&Part>,
        declared: &Declared,
    ) -> Result<bool, AllocError>
        ensures { Keeps (state self.old) (state self.new) }
    {
        let may_be_handle = match declared {
            Declared::Type(ty) => holds(AddressSpace::Handle, AccessMode::Read, ty),
            Declared::No => part.is_none(),
            Declared::Faulty => true,
        };
        if !may_be_handle {
            let message = "needs an address space, as in `var<private>`";
            self.tell_name(Rule::Type, named, message)?;
        }
        Ok(may_be_handle)
    }

    fn may_lie_in(
        &mut self,
        space: AddressSpace,
        named: usize,
        variable: &Typed,
    ) -> Result<bool, AllocError>
        ensures { Keeps (state self.old) (state self.new) }
    {
        let held = behind(&variable.ty);
        match space {
            AddressSpace::Workgroup => self.expressions.is_short(named, held),
            _ if space == AddressSpace::Private || has_override_count(held) => {
                self.expressions.may_be_held(named, &variable.ty)
            }
            _ => Ok(true),
        }
    }

    /// Whether resources have `@group` and `@binding`, and nothing else has (WGSL, "Resource Interface").
    fn is_bound(
        &mut self,
        named: usize,
        space: AddressSpace,
        attributes: Attributes,
    ) -> Result<bool, AllocError>
        ensures { Keeps (state self.old) (state self.new) }
    {
        let group = self.integer(attributes, Name::Group);
        let binding = self.integer(attributes, Name::Binding);
        if let (Some(group), Some(binding)) = (group, binding) {
            self.bindings.insert(named, (group, binding))?;
        }
        let is_resource = matches!(
            space,
            AddressSpace::Uniform | AddressSpace::Storage | AddressSpace::Handle
        );
        let (has_group, has_binding) = (
            self.has(attributes, Name::Group),
            self.has(attributes, Name::Binding),
        );
        let message = match (is_resource, has_group, has_binding) {
            (true, true, true) | (false, false, false) => return Ok(true),
            (true, _, _) => "needs @group and @binding",
            (false, _, _) => "is no resource, and has no @group or @binding",
        };
        self.expressions.no(Rule::Binding, named, message)
    }
}

/// What is wrong with the address space of a variable of a module, and with its access mode.
fn wrong_space(space: AddressSpace, access: Option<AccessMode>) -> Option<&'static str>
    ensures { result ≡ None → space ≢ AddressSpace.Function }
{
    if space == AddressSpace::Function {
        Some("is in the module, and so not in `function`")
    } else if access.is_some() && space != AddressSpace::Storage {
        Some("says an access mode, which only `storage` does")
    } else {
        None
    }
}
