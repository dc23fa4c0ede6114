// Calls of functions and of constructors (WGSL, "Function Calls", "Value Constructor Built-in Functions").
ghost use Rattle.std.specs.Prelude.{◌≡◌, IfOk, None, Some, option_map, true};
ghost use Rattle.wgsl_core.specs.View.{view};
ghost use Rattle.wgsl_standard.specs.Callees.{a_constructor, a_function, callee_view};
ghost use Rattle.wgsl_typing.specs.Outcomes.{IsCall, IsOfFunction, OrFaulty, stage_of};
ghost use Rattle.wgsl_typing.specs.Calls.{Argument, ArgumentIf, Calls, EndsCall, IsCallIf, IsCallOf, IsCallOfKnown, IsCallOfPredeclared, IsPartOfCall, Opens, are_typed, head, is_call_on, is_in_call};
ghost use Rattle.wgsl_typing.specs.Names.{context, known_of, word_in};
ghost use Rattle.wgsl_typing.specs.Stacks.{stack, with_parts};
ghost use Rattle.wgsl_typing.specs.Predeclared.{type_called};
ghost use Rattle.wgsl_typing.specs.Words.{word_at};

use crate::argument::bits_in;
use crate::ask::{misfit, resolved};
use crate::constant::call_value;
use crate::expression::of_call;
use crate::expressions::Expressions;
use crate::fault::{Place, Rule};
use crate::item::{Callee as Called, Item, Listed};
use crate::known::{Known, Outcome, Part, Signature};
use crate::meant::Wanted;
use crate::name::{Meaning, predeclared_type, typed};
use crate::stage::Stage;
use std::alloc::{AllocError, Global};
use wgsl_core::ty::Type;
use wgsl_spelling::predeclared::{LayerName, PredeclaredType};
use wgsl_standard::callee::{
    Callee, can_be_const_expression, may_be_dropped, needs_subgroups, stages_of,
};
use wgsl_standard::meant::unknown_name;

/// A call that is read: its name or its type, and its arguments.
#[derive(Clone, Copy)]
pub struct Call<'c> {
    /// The tokens of what is called.
    pub head: Place,
    pub arguments: &'c [Part],
}

/// The tokens of what is called.
fn head_of(callee: &Called) -> Place
    ensures { result ≡ head callee.now }
{
    match callee {
        Called::Name(named) => Place::last_of(*named),
        Called::Listed(place, _) => *place,
    }
}

impl<'t> Expressions<'t> {
    /// The `(` of a call.
    pub fn open_call(&mut self) -> Result<(), AllocError>
        ensures { IfOk result (λ u. Opens (stack self.old) (stack self.new)) }
    {
        let callee = match self.items.pop() {
            Some(Item::Name(count)) => Called::Name(count),
            Some(Item::Listed(place, listed)) => Called::Listed(place, listed),
            Some(other) => {
                self.items.push(other)?;
                return Ok(());
            }
            None => return Ok(()),
        };
        let arguments = Vec::new(self.alloc);
        self.items.push(Item::Call(callee, arguments))?;
        Ok(())
    }

    /// Whether a call is on top.
    fn is_call_on_top(&self) -> bool
        ensures { result ≡ is_call_on (stack self.now).items }
    {
        matches!(self.items.last(), Some(Item::Call(_, _)))
    }

    /// Whether the operand on top is an argument of a call.
    fn is_in_call(&self) -> bool
        ensures { result ≡ is_in_call (stack self.now).items }
    {
        match self.items.split_last() {
            Some((_, below)) => matches!(below.last(), Some(Item::Call(_, _))),
            None => false,
        }
    }

    /// An argument of a call. One of an attribute stays where it is.
    pub fn put_argument(&mut self) -> Result<(), AllocError>
        ensures { IfOk result (λ u. Argument (stack self.old) (stack self.new)) }
    {
        match self.is_in_call() {
            true => self.put_argument_of_call(),
            false => Ok(()),
        }
    }

    fn put_argument_of_call(&mut self) -> Result<(), AllocError>
        ensures { IfOk result (λ u. ArgumentIf true (stack self.old) (stack self.new)) }
    {
        let part = self.take_part()?;
        self.has_value(&part)?;
        match self.items.pop() {
            Some(Item::Call(callee, mut arguments)) => {
                arguments.push(part)?;
                self.items.push(Item::Call(callee, arguments))?;
            }
            Some(other) => {
                self.items.push(other)?;
                self.parts.push(part)?;
            }
            None => self.parts.push(part)?,
        }
        Ok(())
    }

    /// Notes arguments that are used.
    fn note_all(&mut self, arguments: Vec<Part>) -> Result<(), AllocError>
        ensures { IfOk result (λ u. stack self.new ≡ with_parts arguments.items (stack self.old)) }
    {
        for argument in arguments {
            self.note(argument)?;
        }
        Ok(())
    }

    /// The `)` of a call.
    pub fn put_call(&mut self, count: usize) -> Result<(), AllocError>
        ensures { IfOk result (λ u. Calls count (stack self.old) (stack self.new)) }
    {
        if !self.is_call_on_top() {
            self.drop_top();
            return Ok(());
        }
        match self.items.pop() {
            Some(Item::Call(callee, arguments)) => self.end_call(count, callee, arguments),
            _ => Ok(()),
        }
    }

    /// A call with its arguments.
    fn end_call(
        &mut self,
        count: usize,
        callee: Called,
        arguments: Vec<Part>,
    ) -> Result<(), AllocError>
        ensures { IfOk result (λ u. EndsCall callee arguments.items (stack self.old).items count (stack self.old) (stack self.new)) }
    {
        let part = self.part_of_call(count, &callee, &arguments)?;
        self.push(Item::Part(part))?;
        self.note_all(arguments)
    }

    /// What a call is as an expression.
    fn part_of_call(
        &mut self,
        count: usize,
        callee: &Called,
        arguments: &[Part],
    ) -> Result<Part, AllocError>
        ensures part { IfOk result (IsPartOfCall callee.now arguments.now (context self.old) count) }
        ensures stack { stack self.new ≡ stack self.old }
    {
        let head = head_of(callee);
        let outcome = self.outcome_of_call(callee, &Call { head, arguments })?;
        let mut part = Part::of(head.up_to(Place::last_of(count)), outcome);
        part.may_be_dropped = self.may_be_dropped(callee);
        Ok(part)
    }

    fn outcome_of_call(&mut self, callee: &Called, call: &Call<'_>) -> Result<Outcome, AllocError>
        ensures outcome { IfOk result (IsCallIf (are_typed call.now.arguments.now) (context self.old) callee.now call.now.arguments.now) }
        ensures stack { stack self.new ≡ stack self.old }
    {
        match are_typed(call.arguments) {
            true => self.called(callee, call),
            false => self.check_head(callee),
        }
    }

    /// Whether the value of a call may be left unused.
    fn may_be_dropped(&self, callee: &Called) -> bool {
        let count = match callee {
            Called::Name(count) | Called::Listed(_, Listed::Function(count, _)) => *count,
            Called::Listed(_, Listed::Type(_)) => return false,
        };
        match self.meaning(count) {
            Meaning::Declared(index) => match self.known_at(index) {
                Some(Known::Function(signature)) => !signature.must_use,
                _ => false,
            },
            Meaning::Undeclared => may_be_dropped(self.word(count)),
            Meaning::Local(_) | Meaning::Unread(_) => false,
        }
    }

    /// A call with faulty arguments: says what is wrong with its name.
    fn check_head(&mut self, callee: &Called) -> Result<Outcome, AllocError>
        ensures outcome { IfOk result (λ o. o ≡ Outcome.Faulty) }
        ensures stack { stack self.new ≡ stack self.old }
    {
        if let Called::Name(count) = callee {
            if matches!(self.meaning(*count), Meaning::Undeclared) {
                self.is_called(*count)?;
            }
        }
        Ok(Outcome::Faulty)
    }

    /// Whether WGSL has a function or a type with a name that nothing declares. If it has none, that is told.
    fn is_called(&mut self, count: usize) -> Result<bool, AllocError>
        ensures stack { stack self.new ≡ stack self.old }
    {
        let name = self.word(count);
        let is_called = predeclared_type(name).is_some()
            || unknown_name(Callee::Function(name)).is_none();
        if !is_called {
            self.tell_unknown(Wanted::Function, count)?;
        }
        Ok(is_called)
    }

    fn called(&mut self, callee: &Called, call: &Call<'_>) -> Result<Outcome, AllocError>
        ensures outcome { IfOk result (IsCallOf (context self.old) callee.now call.now.arguments.now) }
        ensures stack { stack self.new ≡ stack self.old }
    {
        match callee {
            Called::Name(count) => match self.meaning(*count) {
                Meaning::Local(_) => {
                    self.faulty(Rule::Name, *count, "is a value, and can't be called")
                }
                Meaning::Unread(_) => self.cyclic(*count),
                Meaning::Declared(index) => self.call_declared(*count, index, call),
                Meaning::Undeclared => self.call_predeclared(*count, call),
            },
            Called::Listed(_, Listed::Type(Some(ty))) => self.construct(ty, call),
            Called::Listed(_, Listed::Function(count, Some(ty))) => {
                self.call_built_in(*count, Some(ty), call)
            }
            Called::Listed(_, Listed::Type(None) | Listed::Function(_, None)) => {
                Ok(Outcome::Faulty)
            }
        }
    }

    /// A call of a function of the module, or a constructor of a type that has a name.
    fn call_declared(
        &mut self,
        count: usize,
        index: usize,
        call: &Call<'_>,
    ) -> Result<Outcome, AllocError>
        ensures outcome { IfOk result (IsCallOfKnown (word_in (context self.old) count) (known_of self.old.declared.items index) call.now.arguments.now) }
        ensures stack { stack self.new ≡ stack self.old }
    {
        let known = self.take_known(index);
        let outcome = self.call_known(count, &known, call);
        self.put_known(index, known);
        outcome
    }

    fn call_known(
        &mut self,
        count: usize,
        known: &Option<Known>,
        call: &Call<'_>,
    ) -> Result<Outcome, AllocError>
        ensures outcome { IfOk result (IsCallOfKnown (word_in (context self.old) count) known.now call.now.arguments.now) }
        ensures stack { stack self.new ≡ stack self.old }
    {
        match known {
            Some(Known::Type(ty)) => self.construct(ty, call),
            Some(Known::Function(signature)) => self.call_function(count, signature, call),
            Some(Known::Value(_)) => self.faulty(Rule::Name, count, "can't be called"),
            Some(Known::Faulty) | None => Ok(Outcome::Faulty),
        }
    }

    fn call_function(
        &mut self,
        count: usize,
        signature: &Signature,
        call: &Call<'_>,
    ) -> Result<Outcome, AllocError>
        ensures answer { IfOk result (IsOfFunction (word_at self.old.text.now self.old.tokens.now count) signature.now call.now.arguments.now) }
        ensures stack { stack self.new ≡ stack self.old }
    {
        let name = self.word(count);
        if let Some(message) = misfit(self.alloc, name, call.arguments, &signature.parameters)? {
            let place = misplaced(self.alloc, name, call, &signature.parameters)?;
            self.fault(Rule::Type, place, message)?;
            return Ok(Outcome::Faulty);
        }
        if !self.values_fit(call.arguments, &signature.parameters)? {
            return Ok(Outcome::Faulty);
        }
        if signature.is_entry_point {
            return self.faulty(
                Rule::EntryPoint,
                count,
                "is an entry point, and can't be called",
            );
        }
        match &signature.result {
            Some(ty) => Ok(typed(ty.clone(self.alloc)?, Stage::Runtime)),
            None => Ok(Outcome::NoValue),
        }
    }

    /// When a call of these arguments is known.
    pub fn stage_of(&self, arguments: &[Part]) -> Stage
        ensures { result ≡ stage_of arguments.now }
    {
        let mut stage = Stage::Const;
        for argument in arguments {
            if let Some(typed) = argument.typed() {
                stage = stage.later(typed.stage);
            }
        }
        stage
    }

    fn call_predeclared(&mut self, count: usize, call: &Call<'_>) -> Result<Outcome, AllocError>
        ensures outcome { IfOk result (IsCallOfPredeclared self.old.extensions.f16 (word_in (context self.old) count) (type_called (word_in (context self.old) count)) call.now.arguments.now) }
        ensures stack { stack self.new ≡ stack self.old }
    {
        match predeclared_type(self.word(count)) {
            Some(PredeclaredType::Layer(LayerName::Array)) => self.infer_array(call),
            Some(PredeclaredType::Layer(LayerName::Vec(_))) => self.call_generator(count, call),
            Some(PredeclaredType::Layer(LayerName::Mat(_, _))) => self.call_generator(count, call),
            Some(_) => match self.type_predeclared(count)? {
                Some(ty) => self.construct(&ty, call),
                None => Ok(Outcome::Faulty),
            },
            None => match self.is_called(count)? {
                true => self.call_built_in(count, None, call),
                false => Ok(Outcome::Faulty),
            },
        }
    }

    /// `vec3(x)`
    fn call_generator(&mut self, count: usize, call: &Call<'_>) -> Result<Outcome, AllocError>
        ensures outcome { IfOk result (IsCall (a_constructor (word_in (context self.old) count)) None call.now.arguments.now) }
        ensures stack { stack self.new ≡ stack self.old }
    {
        let name = self.word(count);
        self.resolve(Callee::Constructor(name), name, None, call)
    }

    /// A call of overloads, with the values of its arguments.
    pub fn resolve(
        &mut self,
        callee: Callee<'_>,
        name: &str,
        template: Option<&Type>,
        call: &Call<'_>,
    ) -> Result<Outcome, AllocError>
        ensures answer { IfOk result (IsCall (callee_view callee.entry) (option_map (λ t. view t.now) template.entry) call.now.arguments.now) }
        ensures stack { stack self.new ≡ stack self.old }
    {
        let stage = match can_be_const_expression(callee) {
            true => self.stage_of(call.arguments),
            false => Stage::Runtime,
        };
        let found = resolved(self.alloc, callee, template, call.arguments)?;
        let Some(found) = self.taken(found, call.head)? else {
            return Ok(Outcome::Faulty);
        };
        let skipped = if template.is_some() { 1 } else { 0 };
        let types = found.parameters.get(skipped..).unwrap_or(&[]);
        let bits = bits_in(name, template);
        let Some(values) = self.values_in(call.arguments, types, bits)? else {
            return Ok(Outcome::Faulty);
        };
        let value = self.computed(call.head, call_value(name, template, &values))?;
        Ok(of_call(found, stage, value))
    }

    fn call_built_in(
        &mut self,
        count: usize,
        template: Option<&Type>,
        call: &Call<'_>,
    ) -> Result<Outcome, AllocError>
        ensures answer { IfOk result (OrFaulty (IsCall (a_function (word_at self.old.text.now self.old.tokens.now count))
            (option_map (λ t. view t.now) template.entry) call.now.arguments.now)) }
        ensures stack { stack self.new ≡ stack self.old }
    {
        let name = self.word(count);
        if needs_subgroups(name) && !self.extensions.subgroups {
            return self.faulty(Rule::Extension, count, "needs `enable subgroups;`");
        }
        let outcome = self.resolve(Callee::Function(name), name, template, call)?;
        if !matches!(outcome, Outcome::Faulty) {
            self.only_in(stages_of(name), call.head)?;
            self.check_constant(name, call.arguments)?;
            self.check_ranges(name, call.arguments)?;
        }
        Ok(outcome)
    }
}

/// Whether each argument has a type.
fn are_typed(arguments: &[Part]) -> bool
    ensures { result ≡ are_typed arguments.now }
{
    for argument in arguments {
        if argument.typed().is_none() {
            return false;
        }
    }
    true
}

/// The place of the first argument that its parameter doesn't take, or of what is called if their numbers differ.
fn misplaced(
    alloc: Global,
    name: &str,
    call: &Call<'_>,
    types: &[Type],
) -> Result<Place, AllocError> {
    if call.arguments.len() == types.len() {
        for (argument, ty) in call.arguments.chunks(1).zip(types.chunks(1)) {
            if let ([part], Some(_)) = (argument, misfit(alloc, name, argument, ty)?) {
                return Ok(part.place);
            }
        }
    }
    Ok(call.head)
}
