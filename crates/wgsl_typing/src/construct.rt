// Constructors (WGSL, "Value Constructor Built-in Functions").
ghost use Rattle.std.specs.Prelude.{◌≡◌, IfOk, true};
ghost use Rattle.wgsl_core.specs.View.{view};
ghost use Rattle.wgsl_standard.specs.forms.Array.{typed_array};
ghost use Rattle.wgsl_standard.specs.declared.forms.form.Referent.TheVariants.{Whole};
ghost use Rattle.wgsl_typing.specs.Elements.{HasTaken, IsKept, is_typed};
ghost use Rattle.wgsl_typing.specs.Outcomes.{HasType, IsConstructed, IsFound, IsInferred, IsMade, OrFaulty, stage_of, types_of, vector_name};
ghost use Rattle.wgsl_typing.specs.Stacks.{stack};

use crate::ask::{array_of, inferred_of, members_of};
use crate::call::Call;
use crate::count::has_override_count;
use crate::expression::with_value;
use crate::expressions::Expressions;
use crate::fault::{Place, Rule};
use crate::known::{Outcome, Part};
use crate::stage::Stage;
use crate::value::Value;
use std::alloc::AllocError;
use wgsl_core::ty::Type;
use wgsl_core::ty::form::Form;
use wgsl_standard::callee::Callee;

impl<'t> Expressions<'t> {
    /// `array(x, y)`
    pub fn infer_array(&mut self, call: &Call<'_>) -> Result<Outcome, AllocError>
        ensures answer { IfOk result (IsInferred call.now.arguments.now) }
        ensures kept { IfOk result (IsKept call.now.arguments.now self.new.elements.items) }
        ensures stack { stack self.new ≡ stack self.old }
    {
        let found = inferred_of(self.alloc, call.arguments)?;
        if let Ok(ty) = &found {
            self.are_elements(ty, call.arguments)?;
        }
        let stage = self.stage_of(call.arguments);
        let value = self.keep(stage, call.arguments)?;
        self.made(call.head, found, stage, value)
    }

    /// Tells of the values that are out of the range of an array's elements.
    fn are_elements(&mut self, ty: &Type, values: &[Part]) -> Result<(), AllocError>
        ensures stack { stack self.new ≡ stack self.old }
    {
        if let Form::Array(_, of) = ty.form() {
            for value in values {
                self.argument_value(value, Some(of))?;
            }
        }
        Ok(())
    }

    /// What a constructor makes; faulty if it makes nothing, for that reason.
    fn made(
        &mut self,
        place: Place,
        found: Result<Type, String>,
        stage: Stage,
        value: Option<Value>,
    ) -> Result<Outcome, AllocError>
        ensures answer { IfOk result (IsFound stage found) }
        ensures value { IfOk result (HasTaken (λ t. value)) }
        ensures elements { IfOk result (λ o. is_typed o ≡ true → self.new.elements ≡ self.old.elements) }
        ensures stack { stack self.new ≡ stack self.old }
    {
        match found {
            Ok(ty) => Ok(with_value(ty, stage, value)),
            Err(message) => {
                self.fault(Rule::Type, place, message)?;
                Ok(Outcome::Faulty)
            }
        }
    }

    /// `vec3<f32>(x)`, `S(x, y)`
    pub fn construct(&mut self, ty: &Type, call: &Call<'_>) -> Result<Outcome, AllocError>
        ensures answer { IfOk result (IsConstructed (view ty.now) call.now.arguments.now) }
        ensures stack { stack self.new ≡ stack self.old }
    {
        match ty.form() {
            Form::Scalar(scalar) => {
                let name = scalar.name();
                self.resolve(Callee::Constructor(name), name, None, call)
            }
            Form::Vector(n, of) => {
                let name = vector_name(n);
                self.resolve(Callee::Constructor(name), name, Some(of), call)
            }
            Form::Matrix(columns, rows, of) => {
                let name = format!(in self.alloc; "mat{columns}x{rows}")?;
                self.resolve(
                    Callee::Constructor(name.as_str()),
                    name.as_str(),
                    Some(of),
                    call,
                )
            }
            Form::Array(count, of) if !has_override_count(ty) => {
                self.construct_array(of, count, call)
            }
            Form::Struct(_) => self.construct_struct(ty, call),
            _ => {
                let message = format!(in self.alloc; "a value of `{ty}` can't be constructed")?;
                self.fault(Rule::Type, call.head, message)?;
                Ok(Outcome::Faulty)
            }
        }
    }

    fn construct_array(
        &mut self,
        of: &Type,
        count: Option<usize>,
        call: &Call<'_>,
    ) -> Result<Outcome, AllocError>
        ensures answer { IfOk result (IsMade (stage_of call.now.arguments.now) (typed_array (view of.now) count (types_of call.now.arguments.now))) }
        ensures kept { IfOk result (IsKept call.now.arguments.now self.new.elements.items) }
        ensures stack { stack self.new ≡ stack self.old }
    {
        for argument in call.arguments {
            self.argument_value(argument, Some(of))?;
        }
        let found = array_of(self.alloc, of, count, call.arguments)?;
        let stage = self.stage_of(call.arguments);
        let value = self.keep(stage, call.arguments)?;
        self.made(call.head, found, stage, value)
    }

    fn construct_struct(&mut self, ty: &Type, call: &Call<'_>) -> Result<Outcome, AllocError>
        ensures answer { IfOk result (OrFaulty (HasType (view ty.now) (stage_of call.now.arguments.now) Whole)) }
        ensures kept { IfOk result (IsKept call.now.arguments.now self.new.elements.items) }
        ensures stack { stack self.new ≡ stack self.old }
    {
        let found = match self.structs.declared(ty) {
            Some(declared) if !call.arguments.is_empty() => {
                members_of(self.alloc, &declared.whole, call.arguments)?
            }
            _ => members_of(self.alloc, ty, call.arguments)?,
        };
        let outcome = match found {
            Ok(members) => {
                self.values_fit(call.arguments, &members)?;
                let stage = self.stage_of(call.arguments);
                let value = self.keep(stage, call.arguments)?;
                Ok(with_value(ty.clone(self.alloc)?, stage, value))
            }
            Err(message) => Err(message),
        };
        self.or_told(call.head, outcome)
    }
}

fn vector_name(n: u8) -> &'static str
    ensures { result.now ≡ vector_name n }
{
    if n == 2 {
        "vec2"
    } else if n == 3 {
        "vec3"
    } else {
        "vec4"
    }
}
