// What names stand for, and what is known of an expression.
ghost use Rattle.std.specs.Prelude.{◌≡◌, IfOk, None, false, option_map};
ghost use Rattle.wgsl_core.specs.View.{view};
ghost use Rattle.wgsl_standard.specs.forms.Views.{given};
ghost use Rattle.wgsl_typing.specs.Elements.{value_in};
ghost use Rattle.wgsl_typing.specs.Known.{operand, operand_where, typed_in};
ghost use Rattle.wgsl_typing.specs.Stages.{is_early};

use crate::fault::Place;
use crate::stage::Stage;
use crate::value::Value;
use std::alloc::{AllocError, Global};
use wgsl_core::ty::Type;
use wgsl_standard::forms::form::Referent;
use wgsl_standard::operand::Operand;

/// An expression that has a type.
#[derive(Drop)]
pub struct Typed {
    pub ty: Type,
    pub stage: Stage,
    /// Which part of a vector it refers to, if it is a reference.
    pub referent: Referent,
    /// Its value, if it is computed.
    pub value: Option<Value>,
}

/// What an expression is.
#[derive(Drop)]
pub enum Outcome {
    Typed(Typed),
    /// A call of what returns nothing.
    NoValue,
    /// It has a fault, or a part of it has one.
    Faulty,
}

/// An expression with its tokens.
#[derive(Drop)]
pub struct Part {
    pub place: Place,
    pub outcome: Outcome,
    /// Whether it is a call whose value may be left unused.
    pub may_be_dropped: bool,
    /// How many tokens there are up to the name that declares it, if it is a name.
    pub declared: Option<usize>,
}

/// The types of a function of the module.
#[derive(Drop)]
pub struct Signature {
    pub parameters: Vec<Type>,
    pub result: Option<Type>,
    /// Whether its value must be used.
    pub must_use: bool,
    pub is_entry_point: bool,
}

/// What a name of the module stands for.
#[derive(Drop)]
pub enum Known {
    /// `const`, `override`, `var`
    Value(Typed),
    /// `struct`, `alias`
    Type(Type),
    Function(Signature),
    /// Its declaration has a fault, or needs one that has: who names it has no fault of its own.
    Faulty,
}

impl Typed {
    /// An expression whose value isn't computed.
    pub fn of(ty: Type, stage: Stage) -> Typed
        ensures { result ≡ record { ty = ty; stage = stage; referent = Referent.Whole; value = None } }
    {
        Typed {
            ty,
            stage,
            referent: Referent::Whole,
            value: None,
        }
    }

    /// A copy; refused if memory runs out.
    pub fn clone(&self, alloc: Global) -> Result<Typed, AllocError>
        ensures { IfOk result (λ x. (view x.ty ≡ view self.now.ty) × (x.stage ≡ self.now.stage) × (x.referent ≡ self.now.referent)
            × (x.value ≡ self.now.value)) }
    {
        Ok(Typed {
            ty: self.ty.clone(alloc)?,
            stage: self.stage,
            referent: self.referent,
            value: self.value,
        })
    }

    /// As the forms and the overloads see it.
    pub fn operand(&self) -> Operand<'_>
        ensures { given result ≡ operand self.now }
    {
        Operand::of(&self.ty, self.stage.is_const())
    }

    /// As a declaration sees it whose value is known before the shader runs.
    pub fn early_operand(&self) -> Operand<'_>
        ensures { given result ≡ operand_where (λ x. is_early x.stage) self.now }
    {
        Operand::of(&self.ty, self.stage.is_early())
    }
}

impl Part {
    /// An expression at a place that is no name.
    pub fn of(place: Place, outcome: Outcome) -> Part
        ensures { result ≡ record { place = place; outcome = outcome; may_be_dropped = false; declared = None } }
    {
        Part {
            place,
            outcome,
            may_be_dropped: false,
            declared: None,
        }
    }

    /// The expression, if it has a type.
    pub fn typed(&self) -> Option<&Typed>
        ensures { option_map (λ x. x.now) result ≡ typed_in self.now.outcome }
    {
        match &self.outcome {
            Outcome::Typed(typed) => Some(typed),
            Outcome::NoValue | Outcome::Faulty => None,
        }
    }

    /// Its value, if it is computed.
    pub fn value(&self) -> Option<Value>
        ensures { result ≡ value_in self.now }
    {
        self.typed()?.value
    }

    /// Its value, if it is an integer that is computed.
    pub fn integer(&self) -> Option<i64> {
        Some(self.value()?.integer()?.value())
    }
}
