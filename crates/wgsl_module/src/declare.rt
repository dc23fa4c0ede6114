// Declarations, each behind those that it needs.
ghost use Rattle.std.specs.Prelude.{◌≡◌, ◌∷◌, [], IfOk, map, option_map, slice_get};
ghost use Rattle.wgsl_module.specs.Declarations.{written};
ghost use Rattle.wgsl_module.specs.Directives.{Directs};
ghost use Rattle.wgsl_module.specs.Meanings.{Ends, EndsAlias, EndsConst, EndsFunction, EndsOverride, EndsStruct, EndsVariable, as_type, as_value};
ghost use Rattle.wgsl_module.specs.Noted.{Comes};
ghost use Rattle.wgsl_module.specs.Runs.{AreDeclarations, Declares, DeclaresIf, IsDeclaration};
ghost use Rattle.wgsl_module.specs.States.{Keeps, source, state};

use crate::attribute::{Attributes, Owner};
use crate::checker::{Checker, Interface};
use crate::declaration::{Declaration, DeclarationKind};
use std::alloc::AllocError;
use wgsl_core::ty::Type;
use wgsl_reader::mark::Mark;
use wgsl_reader::read::Event;
use wgsl_reader::token::Token;
use wgsl_source::fault::{Cause, ExtensionKind};
use wgsl_standard::forms::declare::Declaration as Form;
use wgsl_typing::extension::is_required;
use wgsl_typing::fault::Rule;
use wgsl_typing::known::{Known, Typed};

impl<'t> Checker<'t> {
    /// Reads the declarations with these indices.
    pub fn declare_in(&mut self, tokens: &[Token], order: &[usize]) -> Result<(), AllocError>
        ensures declarations { IfOk result (λ u. AreDeclarations tokens.now (map written self.old.declarations.items) order.now (state self.old) (state self.new)) }
        ensures source { IfOk result (λ u. source (state self.new) ≡ source (state self.old)) }
    {
        for index in order {
            self.declare(tokens, *index)?;
        }
        Ok(())
    }

    /// Reads a declaration behind those that it needs.
    fn declare(&mut self, tokens: &[Token], index: usize) -> Result<(), AllocError>
        ensures declaration { IfOk result (λ u. IsDeclaration tokens.now index (option_map written (slice_get self.old.declarations.items index)) (state self.old) (state self.new)) }
        ensures source { IfOk result (λ u. source (state self.new) ≡ source (state self.old)) }
    {
        self.clear();
        let known = self.read_at(tokens, index)?;
        self.expressions.put_known(index, Some(known));
        Ok(())
    }

    /// Reads the declaration with an index, if there is one. Returns what its name stands for.
    fn read_at(&mut self, tokens: &[Token], index: usize) -> Result<Known, AllocError>
        ensures declaration { IfOk result (λ known. DeclaresIf tokens.now (option_map written (slice_get self.old.declarations.items index)) known (state self.old) (state self.new)) }
        ensures source { IfOk result (λ known. source (state self.new) ≡ source (state self.old)) }
    {
        let Some(declaration) = self.declaration(index) else {
            return Ok(Known::Faulty);
        };
        self.read_declaration(tokens, index, declaration)
    }

    /// Directives enable extensions, and filter diagnostics together: the attributes of others filter on their own.
    fn begin_declaration(&mut self, declaration: Declaration<'t>) -> Result<(), AllocError>
        ensures directive { IfOk result (λ u. Directs declaration.entry.kind declaration.entry.events.now (state self.old) (state self.new)) }
        ensures source { IfOk result (λ u. source (state self.new) ≡ source (state self.old)) }
    {
        match declaration.kind {
            DeclarationKind::Enable | DeclarationKind::Directive => self.tell_extensions(
                declaration,
            ),
            _ => {
                self.filters.clear();
                Ok(())
            }
        }
    }

    /// Enables extensions, and says which names are none.
    fn tell_extensions(&mut self, declaration: Declaration<'t>) -> Result<(), AllocError>
        ensures { IfOk result (λ u. Directs declaration.entry.kind declaration.entry.events.now (state self.old) (state self.new)) }
    {
        for event in declaration.events {
            if !self.enable(declaration.kind, *event) {
                let kind = match declaration.kind {
                    DeclarationKind::Enable => ExtensionKind::Enabled,
                    _ => ExtensionKind::Required,
                };
                self.tell_name(Rule::Extension, event.at, "is no extension")?;
                self.suggest(event.at, Cause::UnknownExtension(kind))?;
            }
        }
        Ok(())
    }

    /// Enables the extension that an event of an `enable` names. Returns false if the name of an event is that of none.
    fn enable(&mut self, kind: DeclarationKind, event: Event) -> bool
        ensures { Directs kind (event ∷ []) (state self.old) (state self.new) }
    {
        let name = self.word(event.at);
        match event.mark {
            Mark::Extension => match kind {
                DeclarationKind::Enable => self.expressions.extensions.enable(name),
                _ => is_required(name),
            },
            _ => true,
        }
    }

    /// Reads a declaration. Returns what its name stands for.
    fn read_declaration(
        &mut self,
        tokens: &[Token],
        index: usize,
        declaration: Declaration<'t>,
    ) -> Result<Known, AllocError>
        ensures declaration { IfOk result (λ known. Declares tokens.now declaration.entry.kind declaration.entry.events.now known (state self.old) (state self.new)) }
        ensures source { IfOk result (λ known. source (state self.new) ≡ source (state self.old)) }
    {
        self.begin_declaration(declaration)?;
        let attributes = self.read_events(tokens, declaration)?;
        self.end_declaration(index, declaration, attributes)
    }

    /// Reads the events of a declaration. Returns its attributes.
    fn read_events(
        &mut self,
        tokens: &[Token],
        declaration: Declaration<'t>,
    ) -> Result<Attributes, AllocError>
        ensures events { IfOk result (λ a. Comes tokens.now declaration.entry.events.now (state self.old) (state self.new)) }
        ensures source { IfOk result (λ a. source (state self.new) ≡ source (state self.old)) }
    {
        let named = declaration.named.unwrap_or(0);
        let split = declaration.events.partition_point(|event| event.at < named);
        let (front, rest) = declaration.events.split_at(split);
        self.owner = match declaration.kind {
            DeclarationKind::Variable => Owner::Variable,
            DeclarationKind::Override => Owner::Override,
            _ => Owner::Function,
        };
        self.steps(tokens, front)?;
        let attributes = self.take_attributes();
        self.owner = match declaration.kind {
            DeclarationKind::Struct => Owner::Member,
            _ if attributes.have_stage => Owner::InOut,
            _ => Owner::Plain,
        };
        self.interface = Some(Interface {
            fields: Vec::new(self.expressions.alloc),
            result: None,
            attributes,
        });
        self.steps(tokens, rest)?;
        Ok(attributes)
    }

    /// Takes what the events of a declaration have left. Returns what its name stands for.
    fn end_declaration(
        &mut self,
        index: usize,
        declaration: Declaration<'t>,
        attributes: Attributes,
    ) -> Result<Known, AllocError>
        ensures taken { IfOk result (λ known. Ends declaration.entry.kind known (state self.old) (state self.new)) }
        ensures source { IfOk result (λ known. source (state self.new) ≡ source (state self.old)) }
    {
        let named = declaration.named.unwrap_or(0);
        match declaration.kind {
            DeclarationKind::Const => self.end_const(),
            DeclarationKind::Override => self.end_override(named, attributes),
            DeclarationKind::Variable => self.end_variable(named, attributes),
            DeclarationKind::Alias => self.end_alias(),
            DeclarationKind::Assertion => {
                self.assert()?;
                Ok(Known::Faulty)
            }
            DeclarationKind::Struct => self.read_struct(index, named),
            DeclarationKind::Function => self.read_function(index, named),
            DeclarationKind::Enable | DeclarationKind::Directive | DeclarationKind::Misread => {
                Ok(Known::Faulty)
            }
        }
    }

    /// `const x: T = y;`
    fn end_const(&mut self) -> Result<Known, AllocError>
        ensures taken { IfOk result (λ known. EndsConst known (state self.old) (state self.new)) }
        ensures source { IfOk result (λ known. source (state self.new) ≡ source (state self.old)) }
    {
        let (_, typed) = self.read_value(Form::Const)?;
        Ok(known_value(typed))
    }

    /// `override x: T = y;`
    fn end_override(&mut self, named: usize, attributes: Attributes) -> Result<Known, AllocError>
        ensures taken { IfOk result (λ known. EndsOverride known (state self.old) (state self.new)) }
        ensures source { IfOk result (λ known. source (state self.new) ≡ source (state self.old)) }
    {
        let typed = self.read_override(named, attributes)?;
        Ok(known_value(typed))
    }

    /// `var<private> x: T = y;`
    fn end_variable(&mut self, named: usize, attributes: Attributes) -> Result<Known, AllocError>
        ensures taken { IfOk result (λ known. EndsVariable known (state self.old) (state self.new)) }
        ensures source { IfOk result (λ known. source (state self.new) ≡ source (state self.old)) }
    {
        let typed = self.read_global(named, attributes)?;
        Ok(known_value(typed))
    }

    /// `alias A = T;`
    fn end_alias(&mut self) -> Result<Known, AllocError>
        ensures taken { IfOk result (λ known. EndsAlias known (state self.old) (state self.new)) }
        ensures source { IfOk result (λ known. source (state self.new) ≡ source (state self.old)) }
    {
        let (_, ty) = self.expressions.take_type()?;
        Ok(known_type(ty))
    }

    /// What a struct with the members that are read stands for.
    fn read_struct(&mut self, index: usize, named: usize) -> Result<Known, AllocError>
        ensures taken { IfOk result (λ known. EndsStruct known (state self.old) (state self.new)) }
        ensures source { IfOk result (λ known. source (state self.new) ≡ source (state self.old)) }
    {
        let Some(interface) = self.interface.take() else {
            return Ok(Known::Faulty);
        };
        let known = self.structure(named, &interface.fields)?;
        self.keep(index, interface);
        Ok(known)
    }

    /// What a function with the parameters and the result that are read stands for.
    fn read_function(&mut self, index: usize, named: usize) -> Result<Known, AllocError>
        ensures taken { IfOk result (λ known. EndsFunction known (state self.old) (state self.new)) }
        ensures source { IfOk result (λ known. source (state self.new) ≡ source (state self.old)) }
    {
        let Some(interface) = self.interface.take() else {
            return Ok(Known::Faulty);
        };
        let known = self.signature(named, &interface)?;
        self.keep(index, interface);
        Ok(known)
    }
}

/// A value; faulty if it has a fault.
fn known_value(typed: Option<Typed>) -> Known
    ensures { result ≡ as_value typed }
{
    match typed {
        Some(typed) => Known::Value(typed),
        None => Known::Faulty,
    }
}

/// A type; faulty if it has a fault.
fn known_type(ty: Option<Type>) -> Known
    ensures { result ≡ as_type ty }
{
    match ty {
        Some(ty) => Known::Type(ty),
        None => Known::Faulty,
    }
}
