// Variables of a module.
ghost use Rattle.std.specs.Prelude.{◌∷◌, IfOk};
ghost use Rattle.wgsl_source.specs.Members.{Grows};
ghost use Rattle.wgsl_source.specs.Qualifiers.{AreSaid, IsQualified};
ghost use Rattle.wgsl_source.specs.TextDeclarations.{of_variables};
ghost use Rattle.wgsl_source.specs.WrittenTypes.{HasType, environment, meaning_of};
ghost use Rattle.wgsl_source.specs.declared.types.Types.{Types as of_types};
ghost use Rattle.wgsl_source.specs.internal.Items.{item_names};
ghost use Rattle.wgsl_source.specs.internal.Others.{IsReadOf};

use crate::attribute::Owner;
use crate::declaration::Declaration;
use crate::fault::{Cause, Expected, Stop};
use crate::initialized::Initialized;
use crate::item::Item;
use crate::measured::{Count, MeasuredType, TypeKind};
use crate::parts::inner;
use crate::scope::Scope;
use crate::types::Types;
use wgsl_reader::read::Event;
use wgsl_syntax::address::{AccessMode, AddressSpace};

/// A variable with a type.
#[derive(Clone, Copy)]
pub struct Variable<'t> {
    pub name: &'t str,
    /// Where its name stands in the text.
    pub place: usize,
    pub group: Option<u32>,
    pub binding: Option<u32>,
    pub space: AddressSpace,
    pub access: AccessMode,
    pub ty: MeasuredType,
}

impl<'t> Scope<'t> {
    /// The variable that a declaration declares. None if its type follows from its initializer.
    pub fn read_variable(
        &self,
        types: &mut Types,
        declaration: &Declaration<'t>,
    ) -> Result<Option<Variable<'t>>, Stop>
        ensures grows { Grows types.old types.new }
        ensures read { (later : of_types) → Grows types.new later
            → IfOk result (IsReadOf (of_variables self.now.text (environment self.now later)) declaration.now) }
    {
        let (attributes, _) = self.read_attributes(declaration.attributes, Owner::Variable)?;
        let (space, access) = self.read_qualifiers(types, declaration)?;
        let initialized = self.initialized(declaration);
        match initialized.ty {
            [] => {
                check(declaration.place, space, initialized)?;
                Ok(None)
            }
            noted => {
                let ty = self.read_stored_type(types, noted, space)?;
                check(declaration.place, space, initialized)?;
                Ok(Some(Variable {
                    name: declaration.name,
                    place: declaration.place,
                    group: attributes.group,
                    binding: attributes.binding,
                    space,
                    access,
                    ty,
                }))
            }
        }
    }

    /// The type of a variable in an address space. Only in `workgroup` may its count be an override.
    fn read_stored_type(
        &self,
        types: &mut Types,
        noted: &[Event],
        space: AddressSpace,
    ) -> Result<MeasuredType, Stop>
        ensures grows { Grows types.old types.new }
        ensures written { IfOk result (HasType self.now.text (environment self.now types.new) noted.now) }
    {
        let ty = self.type_noted(types, noted)?;
        match ty.kind {
            TypeKind::Array(_, Count::Override) if space != AddressSpace::Workgroup => {
                Err(Stop::at(self.first_token(noted).at, Cause::KnownLater))
            }
            _ => Ok(ty),
        }
    }

    /// Reads the address space and the access mode of a variable. Without a template list they are those of resources.
    fn read_qualifiers(
        &self,
        types: &mut Types,
        declaration: &Declaration<'t>,
    ) -> Result<(AddressSpace, AccessMode), Stop>
        ensures grows { Grows types.old types.new }
        ensures qualified { IfOk result (λ q. IsQualified self.now.text (meaning_of self.now) declaration.now.list.now q.0 q.1) }
    {
        let mut items = Vec::new(self.alloc);
        self.read_all(types, &mut items, inner(declaration.list))?;
        self.qualifiers(types, &items)
    }

    /// The address space and the access mode that items say.
    fn qualifiers(
        &self,
        types: &mut Types,
        items: &[Item],
    ) -> Result<(AddressSpace, AccessMode), Stop>
        ensures grows { Grows types.old types.new }
        ensures said { IfOk result (λ q. AreSaid self.now.text (meaning_of self.now) (item_names items.now) q.0 q.1) }
    {
        match items {
            [] => Ok((AddressSpace::Handle, AccessMode::Read)),
            [first, rest @ ..] => self.qualifiers_from(types, *first, rest),
        }
    }

    fn qualifiers_from(
        &self,
        types: &mut Types,
        first: Item,
        rest: &[Item],
    ) -> Result<(AddressSpace, AccessMode), Stop>
        ensures grows { Grows types.old types.new }
        ensures said { IfOk result (λ q. AreSaid self.now.text (meaning_of self.now) (item_names (first ∷ rest.now)) q.0 q.1) }
    {
        let space = self.space(types, first)?;
        if space == AddressSpace::Function {
            return Err(first.stop(Cause::Expected(Expected::AddressSpace)));
        }
        let access = self.memory_access(space, rest, first)?;
        Ok((space, access))
    }
}

/// Whether a variable, whose name stands at an index of the text, has a type or a value, and has none that it can't have.
fn check(place: usize, space: AddressSpace, initialized: Initialized) -> Result<(), Stop> {
    match (initialized.ty, initialized.value) {
        ([], []) => Err(Stop::at(place, Cause::NoType)),
        (_, [_, ..]) if space != AddressSpace::Private => {
            Err(Stop::at(initialized.at, Cause::NoInitializer))
        }
        _ => Ok(()),
    }
}
