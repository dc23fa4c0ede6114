// Literals (WGSL, "Literals").
ghost use Rattle.std.specs.Prelude.{◌≡◌, IfOk, Some};
ghost use Rattle.wgsl_constants.specs.Values.{map_value};
ghost use Rattle.wgsl_core.specs.View.{view};
ghost use Rattle.wgsl_standard.specs.declared.forms.form.Referent.TheVariants.{Whole};
ghost use Rattle.wgsl_typing.specs.declared.stage.Stage.TheVariants.{Const};
ghost use Rattle.wgsl_typing.specs.declared.value.Value.TheVariants.{One};
ghost use Rattle.wgsl_rules.specs.types.Types.{scalar};
ghost use Rattle.wgsl_typing.specs.Literals.{IsLiteral, Literal, a_float, float_type, integer_type, literal, number};
ghost use Rattle.wgsl_typing.specs.Names.{HasValue, context, word_in};
ghost use Rattle.wgsl_typing.specs.Outcomes.{HasType};
ghost use Rattle.wgsl_typing.specs.Stacks.{stack};
ghost use Rattle.wgsl_typing.specs.Words.{kind_at};

use crate::expression::with_value;
use crate::expressions::Expressions;
use crate::fault::{Place, Rule};
use crate::known::Outcome;
use crate::stage::Stage;
use crate::value::Value;
use std::alloc::AllocError;
use wgsl_constants::constant::Constant;
use wgsl_constants::integer::Integer;
use wgsl_constants::literal::{LiteralError, integer_of, type_of_number};
use wgsl_core::ty::Type;
use wgsl_spelling::value::bool_of;
use wgsl_syntax::scalar::Scalar;

impl<'t> Expressions<'t> {
    /// `1.5`, `true`
    pub fn put_literal(&mut self, count: usize) -> Result<(), AllocError>
        ensures { IfOk result (λ u. Literal count (stack self.old) (stack self.new)) }
    {
        let outcome = self.outcome_of_literal(count)?;
        self.put(Place::last_of(count), outcome)
    }

    fn outcome_of_literal(&mut self, count: usize) -> Result<Outcome, AllocError>
        ensures outcome { IfOk result (IsLiteral (literal self.old.extensions.f16 (kind_at self.old.tokens.now count) (word_in (context self.old) count))) }
        ensures stack { stack self.new ≡ stack self.old }
    {
        match bool_of(self.token_before(count).kind) {
            Some(value) => Ok(one(Type::Bool, Constant::Bool(value))),
            None => self.number(count),
        }
    }

    fn number(&mut self, count: usize) -> Result<Outcome, AllocError>
        ensures outcome { IfOk result (IsLiteral (number self.old.extensions.f16 (word_in (context self.old) count))) }
        ensures stack { stack self.new ≡ stack self.old }
    {
        let word = self.word(count);
        match integer_of(word.as_bytes()) {
            Ok(integer) => Ok(one(type_of_integer(integer), Constant::Integer(integer))),
            Err(error) => self.float(count, type_of_number(word.as_bytes()), error),
        }
    }

    /// A number of this type that is no integer, for this reason.
    fn float(
        &mut self,
        count: usize,
        scalar: Scalar,
        error: LiteralError,
    ) -> Result<Outcome, AllocError>
        ensures outcome { IfOk result (IsLiteral (map_value a_float (float_type self.old.extensions.f16 scalar))) }
        ensures stack { stack self.new ≡ stack self.old }
    {
        match float_type(self.extensions.f16, scalar) {
            Some(scalar) => Ok(with_value(Type::from(scalar), Stage::Const, None)),
            None => match (scalar, error) {
                (Scalar::F16, _) => self.faulty(Rule::Extension, count, "needs `enable f16;`"),
                (_, LiteralError::Overflow) => {
                    self.faulty(Rule::Value, count, "is too large for its type")
                }
                (_, LiteralError::NotInteger) => self.faulty(Rule::Value, count, "is no number"),
            },
        }
    }
}

/// A const-expression with this value.
fn one(ty: Type, value: Constant) -> Outcome
    ensures ty { HasType (view ty) Const Whole result }
    ensures value { HasValue (Some (One value)) result }
{
    with_value(ty, Stage::Const, Some(Value::One(value)))
}

fn type_of_integer(integer: Integer) -> Type
    ensures { view result ≡ scalar (integer_type integer) }
{
    match integer {
        Integer::Abstract(_) => Type::AbstractInt,
        Integer::I32(_) => Type::I32,
        Integer::U32(_) => Type::U32,
    }
}

/// The type of a float; None of any other type, and of `f16` if it isn't enabled.
fn float_type(f16: bool, scalar: Scalar) -> Option<Scalar>
    ensures { result ≡ float_type f16 scalar }
{
    match scalar {
        Scalar::F16 if !f16 => None,
        Scalar::AbstractFloat | Scalar::F32 | Scalar::F16 => Some(scalar),
        _ => None,
    }
}
