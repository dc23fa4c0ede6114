// Reads what the declarations of a module declare.
ghost use Rattle.std.specs.Prelude.{◌≡◌, ◌≢◌, ◌∷◌, [], IfOk, IsTrue, List, OnOk, Some, slice_get};
ghost use Rattle.wgsl_source.specs.Members.{Grows};
ghost use Rattle.wgsl_source.specs.WrittenTypes.{environment};
ghost use Rattle.wgsl_source.specs.internal.Others.{AddsOthers};
ghost use Rattle.wgsl_source.specs.internal.Read.{AreAllMeant, AreListed, AreNamed, AreNothing, IsMeant, IsMeantAt, IsNothing, IsOfSort, Known, KnownAll, KnownAt, KnownStruct, Means, Nothing, Stays, names_of};
ghost use Rattle.wgsl_source.specs.Structs.{IsKept, Keeps, KeepsNamed, SameStructs};
ghost use Rattle.wgsl_source.specs.declared.declaration.Declaration.{Declaration as of_declaration};
ghost use Rattle.wgsl_source.specs.declared.types.Types.{Types as of_types};

use crate::declaration::{Declaration, DeclarationKind};
use crate::fault::{Cause, Fault, Stop};
use crate::initialized::Initialized;
use crate::listed::Listed;
use crate::meant::Declared;
use crate::module::Module;
use crate::order::{Circular, Order, order_of};
use crate::others::Others;
use crate::scope::{Meaning, Scope};
use crate::structure::Struct;
use crate::telling::{sort, tell};
use crate::text::has_byte_order_mark;
use crate::types::Types;
use crate::value::Value;
use std::alloc::AllocError;

/// What is read of a module so far.
#[derive(Drop)]
pub struct Reader<'t> {
    pub scope: Scope<'t>,
    pub types: Types,
    pub structs: Vec<Struct<'t>>,
    pub faults: Vec<Fault>,
    pub declared: Declared<'t>,
}

impl<'t> Reader<'t> {
    /// Reads the declarations.
    pub fn read(
        &mut self,
        declarations: &[Declaration<'t>],
        others: &mut Others<'t>,
    ) -> Result<Listed<'t>, AllocError>
        ensures keeps { OnOk result (KeepsNamed (KnownAll declarations.now) self.old self.new) }
        ensures others { OnOk result (AddsOthers self.new.scope self.new.types (self.new.faults.items ≢ []) declarations.now others.old others.new) }
        ensures named { AreNamed declarations.now self.old.scope → OnOk result (AreNamed declarations.now self.new.scope) }
        ensures meant { OnOk result (AreAllMeant declarations.now self.new) }
        ensures listed { IfOk result (λ l. AreListed self.new.scope.text (environment self.new.scope self.new.types) self.new.structs.items declarations.now l.in_text.items (names_of l)) }
    {
        if has_byte_order_mark(self.scope.text.text.as_bytes()) {
            self.faults.push(Fault {
                at: 0,
                cause: Cause::ByteOrderMark,
            })?;
        }
        self.name_all(declarations)?;
        self.read_ordered(declarations)?;
        self.read_others(declarations, others)?;
        sort(&mut self.faults);
        self.types.naga_only.sort_unstable_by_key(|fault| fault.at);
        self.list_structs(declarations)
    }

    /// The module that is read.
    pub fn finished(self, listed: Listed<'t>, others: Others<'t>) -> Module<'t>
        ensures variables { result.variables ≡ others.entry.variables }
        ensures overrides { result.overrides ≡ others.entry.overrides }
        ensures entry_points { result.entry_points ≡ others.entry.entry_points }
        ensures aliases { result.aliases ≡ others.entry.aliases }
        ensures faults { result.faults ≡ self.entry.faults }
        ensures elements { result.elements ≡ self.entry.types.elements }
        ensures structs { result.structs ≡ self.entry.structs }
        ensures in_text { result.in_text ≡ listed.entry.in_text }
        ensures left_out { result.left_out ≡ listed.entry.left_out }
    {
        let Reader {
            scope,
            types,
            structs,
            faults,
            declared,
            ..
        } = self;
        let Others {
            variables,
            overrides,
            entry_points,
            aliases,
        } = others;
        let Listed { in_text, left_out } = listed;
        let Types {
            elements,
            naga_only,
        } = types;
        Module {
            elements,
            structs,
            in_text,
            variables,
            overrides,
            entry_points,
            faults,
            naga_only,
            has_standard_uniform: scope.extensions.standard_uniform,
            declared,
            aliases,
            left_out,
        }
    }

    /// Gives the declarations their names. If two have one name, the first keeps it.
    fn name_all(&mut self, declarations: &[Declaration<'t>]) -> Result<(), AllocError>
        ensures named { AreNamed declarations.now self.old.scope → OnOk result (AreNamed declarations.now self.new.scope) }
        ensures same { OnOk result (SameStructs self.old self.new) }
        ensures meant { OnOk result (AreAllMeant declarations.now self.new) }
    {
        let unread = vec![in self.scope.alloc; Meaning::Unread; declarations.len()]?;
        self.scope.meanings = unread;
        for (index, declaration) in declarations.iter().enumerate() {
            self.name(index, declaration)?;
        }
        Ok(())
    }

    fn name(&mut self, index: usize, declaration: &Declaration<'t>) -> Result<(), AllocError>
        ensures named { (ds : List of_declaration) → slice_get ds index ≡ Some declaration.now → AreNamed ds self.old.scope
            → OnOk result (AreNamed ds self.new.scope) }
        ensures same { SameStructs self.old self.new }
        ensures none { (ds : List of_declaration) → AreNothing ds self.old → AreNothing ds self.new }
    {
        self.declared.add(declaration.kind, declaration.name)?;
        if !self.scope.names.contains_key(&declaration.name) {
            self.scope.names.insert(declaration.name, index)?;
            return Ok(());
        }
        self.mean(index, Meaning::Faulty);
        Ok(
            self.faults.push(Fault {
                at: declaration.place,
                cause: Cause::DeclaredTwice,
            })?,
        )
    }

    fn mean(&mut self, index: usize, meaning: Meaning)
        ensures kept { self.new.scope.names ≡ self.old.scope.names }
        ensures same { SameStructs self.old self.new }
        ensures names { slice_get self.old.scope.meanings.items index ≡ Some Meaning.Unread → Stays self.old.scope self.new.scope }
        ensures means { slice_get self.old.scope.meanings.items index ≡ Some Meaning.Unread → (ds : List of_declaration)
            → ((d : of_declaration) → slice_get ds index ≡ Some d → IsMeant self.old.scope.text (environment self.old.scope self.old.types) self.old.structs.items d meaning)
            → Means ds self.old self.new }
        ensures none { (ds : List of_declaration) → ((d : of_declaration) → IsNothing d meaning) → AreNothing ds self.old → AreNothing ds self.new }
    {
        if index < self.scope.meanings.len() {
            self.scope.meanings[index] = meaning;
        }
    }

    fn is_unread(&self, index: usize) -> bool
        ensures { IsTrue result → slice_get self.now.scope.meanings.items index ≡ Some Meaning.Unread }
    {
        matches!(self.scope.meanings.get(index), Some(Meaning::Unread))
    }

    /// Reads aliases, structs and constants, each after those that it names.
    fn read_ordered(&mut self, declarations: &[Declaration<'t>]) -> Result<(), AllocError>
        ensures keeps { OnOk result (Keeps (KnownAll declarations.now) self.old self.new) }
        ensures means { OnOk result (Means declarations.now self.old self.new) }
    {
        let alloc = self.scope.alloc;
        let order = order_of(alloc, self.scope.text, &self.scope.names, &*declarations)?;
        let read = self.read_in_order(&order, declarations);
        drop(order);
        read
    }

    fn read_in_order(
        &mut self,
        order: &Order,
        declarations: &[Declaration<'t>],
    ) -> Result<(), AllocError>
        ensures keeps { OnOk result (Keeps (KnownAll declarations.now) self.old self.new) }
        ensures means { OnOk result (Means declarations.now self.old self.new) }
    {
        for circular in &order.circular {
            self.refuse(*circular)?;
        }
        for index in &order.sorted {
            if let Some(declaration) = declarations.get(*index) {
                self.read_unread(*index, declaration)?;
            }
        }
        Ok(())
    }

    /// Refuses a declaration that contains itself.
    fn refuse(&mut self, circular: Circular) -> Result<(), AllocError>
        ensures same { SameStructs self.old self.new }
        ensures names { Stays self.old.scope self.new.scope }
        ensures means { (ds : List of_declaration) → Means ds self.old self.new }
    {
        if !self.is_unread(circular.index) {
            return Ok(());
        }
        self.mean(circular.index, Meaning::Faulty);
        Ok(self.faults.push(circular.fault)?)
    }

    /// Lists the structs, and those that are left out, in the order of the text.
    fn list_structs(&self, declarations: &[Declaration<'t>]) -> Result<Listed<'t>, AllocError>
        ensures { AreAllMeant declarations.now self.now → IfOk result
            (λ l. AreListed self.now.scope.text (environment self.now.scope self.now.types) self.now.structs.items declarations.now l.in_text.items (names_of l)) }
    {
        let mut listed = Listed::none(self.scope.alloc);
        for (declaration, meaning) in declarations.iter().zip(&self.scope.meanings) {
            listed.list(declaration, *meaning)?;
        }
        Ok(listed)
    }

    /// Reads variables, overrides, functions and aliases in the order of the text.
    fn read_others(
        &mut self,
        declarations: &[Declaration<'t>],
        others: &mut Others<'t>,
    ) -> Result<(), AllocError>
        ensures keeps { OnOk result (Keeps (KnownAll declarations.now) self.old self.new) }
        ensures scope { OnOk result (self.new.scope ≡ self.old.scope) }
        ensures others { AreAllMeant declarations.now self.old → (later : of_types) → Grows self.new.types later
            → OnOk result (AddsOthers self.old.scope later (self.new.faults.items ≢ []) declarations.now others.old others.new) }
    {
        for index in 0..declarations.len() {
            self.read_other(index, &declarations[index], others)?;
        }
        Ok(())
    }

    fn read_other(
        &mut self,
        index: usize,
        declaration: &Declaration<'t>,
        others: &mut Others<'t>,
    ) -> Result<(), AllocError>
        ensures keeps { OnOk result (Keeps Nothing self.old self.new) }
        ensures scope { OnOk result (self.new.scope ≡ self.old.scope) }
        ensures others { (later : of_types) → Grows self.new.types later → IsMeantAt self.old.scope later index declaration.now
            → OnOk result (AddsOthers self.old.scope later (self.new.faults.items ≢ []) (declaration.now ∷ []) others.old others.new) }
        ensures still { OnOk result (self.old.faults.items ≢ [] → self.new.faults.items ≢ []) }
    {
        if declaration.is_faulty {
            return Ok(());
        }
        let read = others.read(&self.scope, &mut self.types, index, declaration);
        tell(&mut self.faults, read)
    }

    fn read_unread(&mut self, index: usize, declaration: &Declaration<'t>) -> Result<(), AllocError>
        ensures keeps { OnOk result (Keeps (Known declaration.now) self.old self.new) }
        ensures means { (ds : List of_declaration) → slice_get ds index ≡ Some declaration.now
            → OnOk result (Means ds self.old self.new) }
    {
        if !self.is_unread(index) {
            return Ok(());
        }
        if declaration.is_faulty {
            self.mean(index, Meaning::Faulty);
            return Ok(());
        }
        match self.read_meaning(declaration) {
            Ok(meaning) => {
                self.mean(index, meaning);
                Ok(())
            }
            Err(stop) => {
                self.mean(index, Meaning::Faulty);
                tell(&mut self.faults, Err(stop))
            }
        }
    }

    fn read_meaning(&mut self, declaration: &Declaration<'t>) -> Result<Meaning, Stop>
        ensures keeps { Keeps (KnownStruct declaration.now) self.old self.new }
        ensures scope { self.new.scope ≡ self.old.scope }
        ensures sort { IfOk result (IsOfSort self.old.scope.text (environment self.old.scope self.new.types) declaration.now) }
        ensures kept { declaration.now.kind ≡ DeclarationKind.Struct
            → IfOk result (IsKept self.old.scope.text (environment self.old.scope self.new.types) declaration.now self.old.structs.items self.new.structs.items) }
    {
        match declaration.kind {
            DeclarationKind::Override => Ok(Meaning::Value(Value::Later)),
            DeclarationKind::Variable | DeclarationKind::Function => Ok(Meaning::Other),
            DeclarationKind::Alias => self.read_alias(declaration),
            DeclarationKind::Struct => self.read_struct(declaration),
            DeclarationKind::Constant => self.read_constant(declaration),
        }
    }

    fn read_alias(&mut self, declaration: &Declaration<'t>) -> Result<Meaning, Stop>
        ensures sort { declaration.now.kind ≡ DeclarationKind.Alias
            → IfOk result (IsOfSort self.old.scope.text (environment self.old.scope self.new.types) declaration.now) }
        ensures keeps { Keeps (KnownStruct declaration.now) self.old self.new }
        ensures scope { self.new.scope ≡ self.old.scope }
    {
        let ty = self.scope.type_noted(&mut self.types, declaration.rest)?;
        Ok(Meaning::Type(ty))
    }

    fn read_struct(&mut self, declaration: &Declaration<'t>) -> Result<Meaning, Stop>
        ensures sort { declaration.now.kind ≡ DeclarationKind.Struct
            → IfOk result (IsOfSort self.old.scope.text (environment self.old.scope self.new.types) declaration.now) }
        ensures keeps { Keeps (KnownAt declaration.now) self.old self.new }
        ensures scope { self.new.scope ≡ self.old.scope }
        ensures kept { IfOk result (IsKept self.old.scope.text (environment self.old.scope self.new.types) declaration.now self.old.structs.items self.new.structs.items) }
    {
        let structure = self.scope.read_struct(&mut self.types, declaration)?;
        let ty = structure.measured(self.structs.len());
        self.structs.push(structure)?;
        Ok(Meaning::Type(ty))
    }

    #[tactic(auto, using(crate::proofs::Structs::keeps_grown))]
    fn read_constant(&mut self, declaration: &Declaration<'t>) -> Result<Meaning, Stop>
        ensures sort { declaration.now.kind ≡ DeclarationKind.Constant
            → IfOk result (IsOfSort self.old.scope.text (environment self.old.scope self.new.types) declaration.now) }
        ensures keeps { Keeps (KnownStruct declaration.now) self.old self.new }
        ensures scope { self.new.scope ≡ self.old.scope }
    {
        let Initialized { ty, value, .. } = self.scope.typed(declaration);
        let ty = self.scope.declared_type(&mut self.types, ty)?;
        self.scope.constant(value, ty)
    }
}
