// The variables, overrides, entry points and aliases of a module in the order of the text.
ghost use Rattle.std.specs.Prelude.{◌≡◌, [], IfOk, IfSome, OnErr, OnOk, Some, false, slice_get};
ghost use Rattle.wgsl_source.specs.Members.{Grows};
ghost use Rattle.wgsl_source.specs.TextDeclarations.{of_aliases};
ghost use Rattle.wgsl_source.specs.WrittenTypes.{environment};
ghost use Rattle.wgsl_source.specs.declared.types.Types.{Types as of_types};
ghost use Rattle.wgsl_source.specs.internal.Others.{AddsOthers, IsAdded, IsReadOf, if_read};
ghost use Rattle.wgsl_source.specs.internal.Read.{IsMeantAt};

use crate::declaration::{Declaration, DeclarationKind};
use crate::entry::{EntryPoint, Override};
use crate::fault::Stop;
use crate::measured::MeasuredType;
use crate::scope::{Meaning, Scope};
use crate::types::Types;
use crate::variable::Variable;
use std::alloc::Global;

/// An alias, with the type that it stands for.
#[derive(Clone, Copy)]
pub struct Alias<'t> {
    pub name: &'t str,
    pub ty: MeasuredType,
}

/// The variables, overrides, entry points and aliases of a module in the order of the text.
#[derive(Drop)]
pub struct Others<'t> {
    pub variables: Vec<Variable<'t>>,
    pub overrides: Vec<Override<'t>>,
    pub entry_points: Vec<EntryPoint<'t>>,
    pub aliases: Vec<Alias<'t>>,
}

impl<'t> Others<'t> {
    /// None of them.
    pub fn none(alloc: Global) -> Others<'t>
        ensures variables { result.variables.items ≡ [] }
        ensures overrides { result.overrides.items ≡ [] }
        ensures entry_points { result.entry_points.items ≡ [] }
        ensures aliases { result.aliases.items ≡ [] }
    {
        Others {
            variables: Vec::new(alloc),
            overrides: Vec::new(alloc),
            entry_points: Vec::new(alloc),
            aliases: Vec::new(alloc),
        }
    }

    /// Reads what a declaration declares, which has this index, if it is a variable, an override, a function or an alias.
    pub fn read(
        &mut self,
        scope: &Scope<'t>,
        types: &mut Types,
        index: usize,
        declaration: &Declaration<'t>,
    ) -> Result<(), Stop>
        ensures grows { Grows types.old types.new }
        ensures read { declaration.now.is_faulty ≡ false → (later : of_types) → Grows types.new later
            → IsMeantAt scope.now later index declaration.now → AddsOthers scope.now later ⊥ (if_read result declaration.now) self.old self.new }
    {
        match declaration.kind {
            DeclarationKind::Variable => {
                keep(&mut self.variables, scope.read_variable(types, declaration))
            }
            DeclarationKind::Override => {
                keep(&mut self.overrides, scope.read_override(types, declaration))
            }
            DeclarationKind::Function => {
                keep(&mut self.entry_points, scope.read_function(declaration))
            }
            DeclarationKind::Alias => keep(&mut self.aliases, scope.alias(index, declaration)),
            _ => Ok(()),
        }
    }
}

impl<'t> Scope<'t> {
    /// The alias that a declaration declares, which has this index.
    fn alias(&self, index: usize, declaration: &Declaration<'t>) -> Result<Option<Alias<'t>>, Stop>
        ensures { declaration.now.kind ≡ DeclarationKind.Alias → (types : of_types) → IsMeantAt self.now types index declaration.now
            → IfOk result (IsReadOf (of_aliases self.now.text (environment self.now types)) declaration.now) }
    {
        match self.type_at(index) {
            Some(ty) => Ok(Some(Alias {
                name: declaration.name,
                ty,
            })),
            None => Err(Stop::Elsewhere(declaration.place)),
        }
    }

    /// The type that the declaration with this index stands for.
    fn type_at(&self, index: usize) -> Option<MeasuredType>
        ensures { IfSome result (λ ty. slice_get self.now.meanings.items index ≡ Some (Meaning.Type ty)) }
    {
        match self.meanings.get(index) {
            Some(Meaning::Type(ty)) => Some(*ty),
            _ => None,
        }
    }
}

/// Adds what is read of a declaration, if anything is.
fn keep<T: Drop>(list: &mut Vec<T>, read: Result<Option<T>, Stop>) -> Result<(), Stop>
    ensures added { OnOk result (IsAdded read list.old.items list.new.items) }
    ensures same { OnErr result (list.new.items ≡ list.old.items) }
{
    match read {
        Ok(Some(one)) => Ok(list.push(one)?),
        Ok(None) => Ok(()),
        Err(stop) => Err(stop),
    }
}
