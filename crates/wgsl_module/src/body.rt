// Bodies of functions (WGSL, "Function Declarations").
ghost use Rattle.std.specs.Prelude.{◌≡◌, IfOk, map, option_map, slice_get};
ghost use Rattle.wgsl_module.specs.Blocks.{Binds};
ghost use Rattle.wgsl_module.specs.Declarations.{written};
ghost use Rattle.wgsl_module.specs.Runs.{AreBodies, AreParameters, BeginsBody, EndsBody, Enters, IsBodyOf, IsParameterIf, IsRun, is_parameter};
ghost use Rattle.wgsl_module.specs.States.{Keeps, source, state};

use crate::attribute::Owner;
use crate::checker::{Checker, Interface};
use crate::declaration::{Declaration, DeclarationKind};
use crate::field::Field;
use crate::walk::is_colon;
use std::alloc::{AllocError, Global};
use wgsl_core::ty::Type;
use wgsl_reader::mark::Mark;
use wgsl_reader::read::Event;
use wgsl_reader::token::Token;
use wgsl_standard::forms::declare::{is_const_type, is_let_type};
use wgsl_typing::expressions::Doings;
use wgsl_typing::known::Typed;
use wgsl_typing::stage::Stage;

impl<'t> Checker<'t> {
    /// Reads the bodies of the functions.
    pub fn read_bodies(&mut self, tokens: &[Token]) -> Result<(), AllocError>
        ensures { IfOk result (λ u. AreBodies tokens.now (map written self.old.declarations.items) (state self.old) (state self.new)) }
    {
        for index in 0..self.declarations.len() {
            self.read_body(tokens, index)?;
        }
        Ok(())
    }

    /// Reads the body of the declaration with an index, if that is a function.
    fn read_body(&mut self, tokens: &[Token], index: usize) -> Result<(), AllocError>
        ensures body { IfOk result (λ u. IsBodyOf tokens.now (option_map written (slice_get self.old.declarations.items index)) (state self.old) (state self.new)) }
        ensures source { IfOk result (λ u. source (state self.new) ≡ source (state self.old)) }
    {
        let Some(declaration) = self.declaration(index) else {
            return Ok(());
        };
        match declaration.kind {
            DeclarationKind::Function => self.read_body_of(tokens, index, declaration),
            _ => Ok(()),
        }
    }

    fn read_body_of(
        &mut self,
        tokens: &[Token],
        index: usize,
        declaration: Declaration<'t>,
    ) -> Result<(), AllocError>
        ensures run { IfOk result (λ u. IsRun tokens.now declaration.entry.events.now declaration.entry.body.now (state self.old) (state self.new)) }
        ensures source { IfOk result (λ u. source (state self.new) ≡ source (state self.old)) }
    {
        self.begin_body(index, declaration.events)?;
        self.steps(tokens, declaration.body)?;
        self.end_body()?;
        self.keep_doing(index)?;
        Ok(())
    }

    /// Nothing is read of the body of a function yet, and its parameters are declared.
    fn begin_body(&mut self, index: usize, events: &[Event]) -> Result<(), AllocError>
        ensures body { IfOk result (λ u. BeginsBody events.now (state self.old) (state self.new)) }
        ensures source { IfOk result (λ u. source (state self.new) ≡ source (state self.old)) }
    {
        self.enter_body()?;
        let interface = self.take_interface(index);
        self.begin_with(events, interface.as_ref())?;
        self.give_back(index, interface);
        Ok(())
    }

    /// Declares the parameters of a function, and says what it returns.
    fn begin_with(
        &mut self,
        events: &[Event],
        interface: Option<&Interface>,
    ) -> Result<(), AllocError>
        ensures parameters { IfOk result (λ u. AreParameters events.now (state self.old) (state self.new)) }
        ensures source { IfOk result (λ u. source (state self.new) ≡ source (state self.old)) }
    {
        self.expect_result(interface)?;
        let fields = match interface {
            Some(interface) => interface.fields.as_slice(),
            None => &[],
        };
        self.declare_parameters(events, fields)
    }

    /// What the function returns whose body is read.
    fn expect_result(&mut self, interface: Option<&Interface>) -> Result<(), AllocError>
        ensures { Keeps (state self.old) (state self.new) }
    {
        let alloc = self.expressions.alloc;
        let field = match interface {
            Some(interface) => interface.result.as_ref(),
            None => None,
        };
        self.result = match field {
            Some(field) => returned(alloc, field)?,
            None => None,
        };
        self.has_faulty_result = field.is_some() && self.result.is_none();
        self.owner = Owner::Statement;
        self.expressions.doing = Some(Doings::none(alloc));
        Ok(())
    }

    fn give_back(&mut self, index: usize, interface: Option<Interface>)
        ensures { Keeps (state self.old) (state self.new) }
    {
        if let Some(interface) = interface {
            self.keep(index, interface);
        }
    }

    /// Opens the block of a function, of which nothing else is open.
    fn enter_body(&mut self) -> Result<(), AllocError>
        ensures body { IfOk result (λ u. Enters (state self.old) (state self.new)) }
    {
        self.clear();
        self.blocks.clear();
        self.loops.clear();
        self.expressions.skipped = (0, 0);
        self.expressions.locals.open()
    }

    fn end_body(&mut self) -> Result<(), AllocError>
        ensures { IfOk result (λ u. EndsBody (state self.old) (state self.new)) }
    {
        self.expressions.locals.close()
    }

    /// Declares the parameters among these events, each with the type of its field.
    fn declare_parameters(&mut self, events: &[Event], fields: &[Field]) -> Result<(), AllocError>
        ensures parameters { IfOk result (λ u. AreParameters events.now (state self.old) (state self.new)) }
        ensures source { IfOk result (λ u. source (state self.new) ≡ source (state self.old)) }
    {
        let mut count = 0usize;
        for event in events {
            if self.declare_parameter(*event, fields.get(count))? {
                count = count.saturating_add(1);
            }
        }
        Ok(())
    }

    /// Declares what an event names, if that is a parameter. Returns whether it is one.
    fn declare_parameter(&mut self, event: Event, field: Option<&Field>) -> Result<bool, AllocError>
        ensures parameter { IfOk result (λ is. IsParameterIf (is_parameter (state self.old).stack.context.tokens event.mark event.at) event.at (state self.old) (state self.new)) }
        ensures source { IfOk result (λ is. source (state self.new) ≡ source (state self.old)) }
    {
        if !self.is_parameter(event) {
            return Ok(false);
        }
        let typed = typed_parameter(self.expressions.alloc, field)?;
        self.declare_first(event.at, typed)?;
        Ok(true)
    }

    fn is_parameter(&self, event: Event) -> bool
        ensures { result ≡ is_parameter self.now.expressions.tokens.now event.mark event.at }
    {
        match event.mark {
            Mark::Name => is_colon(self.expressions.token(event.at).kind),
            _ => false,
        }
    }

    /// Gives a parameter its name, unless an earlier one has it.
    fn declare_first(&mut self, named: usize, typed: Option<Typed>) -> Result<(), AllocError>
        ensures name { IfOk result (λ u. Binds named typed (state self.old) (state self.new)) }
        ensures source { IfOk result (λ u. source (state self.new) ≡ source (state self.old)) }
    {
        let name = self.word(named);
        if !self.expressions.locals.is_here(name) {
            self.expressions.locals.declare(name, named, typed)?;
        }
        Ok(())
    }

    fn keep_doing(&mut self, index: usize) -> Result<(), AllocError>
        ensures { Keeps (state self.old) (state self.new) }
    {
        let doing = self.expressions.doing.take();
        if let Some(place) = self.doings.get_mut(index) {
            *place = doing;
        }
        Ok(())
    }
}

/// The type of a result, if a function may return it.
fn returned(alloc: Global, field: &Field) -> Result<Option<Type>, AllocError> {
    match &field.ty {
        Some(ty) if is_const_type(ty) => Ok(Some(ty.clone(alloc)?)),
        _ => Ok(None),
    }
}

/// What a parameter stands for. One whose type has a fault is faulty.
fn typed_parameter(alloc: Global, field: Option<&Field>) -> Result<Option<Typed>, AllocError> {
    let Some(field) = field else {
        return Ok(None);
    };
    match &field.ty {
        Some(ty) if is_let_type(ty) => Ok(Some(Typed::of(ty.clone(alloc)?, Stage::Runtime))),
        _ => Ok(None),
    }
}
