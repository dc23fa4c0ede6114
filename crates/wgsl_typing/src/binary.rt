// Binary operators (WGSL, "Expressions").
ghost use Rattle.std.specs.Prelude.{◌≡◌, [], ◌∷◌, IfOk, None};
ghost use Rattle.wgsl_typing.specs.Known.{typed_in};
ghost use Rattle.wgsl_typing.specs.Stages.{later};
ghost use Rattle.wgsl_spelling.specs.Operators.{binary_of};
ghost use Rattle.wgsl_standard.specs.Callees.{a_binary};
ghost use Rattle.wgsl_typing.specs.Outcomes.{IsOverloaded, loaded};
ghost use Rattle.wgsl_typing.specs.Operators.{Binary, IsBinaryOf};
ghost use Rattle.wgsl_typing.specs.Stacks.{part_of, stack, with_item, with_parts};
ghost use Rattle.wgsl_typing.specs.Words.{kind_at};

use crate::ask::resolved_binary;
use crate::constant::{binary_value, decided, wrong_right};
use crate::expression::of_call;
use crate::expressions::Expressions;
use crate::fault::{Place, Rule};
use crate::item::Item;
use crate::known::{Outcome, Part, Typed};
use crate::stage::Stage;
use crate::value::Value;
use std::alloc::AllocError;
use wgsl_core::ty::Type;
use wgsl_spelling::operator::binary_of;
use wgsl_syntax::operator::BinaryOperator;

impl<'t> Expressions<'t> {
    /// Checks the right operand of an assignment by an operator. Says so if no overload takes the operands.
    pub fn check_right(
        &mut self,
        operator: BinaryOperator,
        count: usize,
        left: &Typed,
        right: (&Part, &Typed),
    ) -> Result<(), AllocError>
        ensures stack { stack self.new ≡ stack self.old }
    {
        let place = Place::last_of(count);
        let found = resolved_binary(self.alloc, operator, left, right.1)?;
        let Some(call) = self.taken(found, place)? else {
            return Ok(());
        };
        let value = self.argument_value(right.0, call.parameters.get(1))?;
        let first = call.parameters.first();
        let message = wrong_right(operator, first, value.unwrap_or(None), Stage::Runtime);
        match message {
            Some(message) => self.tell(Rule::Value, place, message),
            None => Ok(()),
        }
    }

    /// `x + y`
    pub fn put_binary(&mut self) -> Result<(), AllocError>
        ensures { IfOk result (λ u. Binary (stack self.old) (stack self.new)) }
    {
        let right = self.take_part()?;
        let count = self.take_sign();
        self.evaluate_behind(count);
        let left = self.take_part()?;
        let outcome = self.outcome_of_binary(count, &left, &right)?;
        let place = left.place.up_to(right.place);
        self.put_of(place, outcome, left, right)
    }

    /// Puts what is made of two expressions, which are used.
    pub fn put_of(
        &mut self,
        place: Place,
        outcome: Outcome,
        first: Part,
        second: Part,
    ) -> Result<(), AllocError>
        ensures { IfOk result (λ u. stack self.new
            ≡ with_item (Item.Part (part_of place outcome)) (with_parts (first ∷ second ∷ []) (stack self.old))) }
    {
        self.put(place, outcome)?;
        self.note_both(first, second)
    }

    /// What stands behind the right operand of an operator is evaluated again.
    fn evaluate_behind(&mut self, count: usize)
        ensures stack { stack self.new ≡ stack self.old }
    {
        if self.unevaluated == Some(count) {
            self.unevaluated = None;
        }
    }

    /// Says so if an operand is a call without a value: of the second one only if the first has one.
    pub fn check_values(&mut self, first: &Part, second: &Part) -> Result<(), AllocError>
        ensures stack { stack self.new ≡ stack self.old }
    {
        if self.has_value(first)? {
            self.has_value(second)?;
        }
        Ok(())
    }

    /// What the operator that is the last of that many tokens makes of its operands.
    fn outcome_of_binary(
        &mut self,
        count: usize,
        left: &Part,
        right: &Part,
    ) -> Result<Outcome, AllocError>
        ensures outcome { IfOk result (IsBinaryOf (binary_of (kind_at self.old.tokens.now count)) (typed_in left.now.outcome) (typed_in right.now.outcome)) }
        ensures stack { stack self.new ≡ stack self.old }
    {
        let operator = binary_of(self.token_before(count).kind);
        self.check_values(left, right)?;
        let Some(x) = left.typed() else {
            return Ok(Outcome::Faulty);
        };
        let Some(y) = right.typed() else {
            return Ok(Outcome::Faulty);
        };
        let Some(operator) = operator else {
            return Ok(Outcome::Faulty);
        };
        self.binary(operator, count, (left, x), (right, y))
    }

    fn binary(
        &mut self,
        operator: BinaryOperator,
        count: usize,
        left: (&Part, &Typed),
        right: (&Part, &Typed),
    ) -> Result<Outcome, AllocError>
        ensures answer { IfOk result (IsOverloaded (a_binary operator) None (loaded left.entry.1.now ∷ loaded right.entry.1.now ∷ [])
            (later left.entry.1.now.stage right.entry.1.now.stage)) }
        ensures stack { stack self.new ≡ stack self.old }
    {
        let stage = left.1.stage.later(right.1.stage);
        let place = Place::last_of(count);
        let found = resolved_binary(self.alloc, operator, left.1, right.1)?;
        let Some(call) = self.taken(found, place)? else {
            return Ok(Outcome::Faulty);
        };
        let operands = (left.0, right.0);
        match self.value_of_binary(operator, count, operands, &call.parameters, stage)? {
            Some(value) => Ok(of_call(call, stage, value)),
            None => Ok(Outcome::Faulty),
        }
    }

    /// The value of a binary expression whose operands are converted to these types, if it is known: None where that is a fault.
    fn value_of_binary(
        &mut self,
        operator: BinaryOperator,
        count: usize,
        operands: (&Part, &Part),
        parameters: &[Type],
        stage: Stage,
    ) -> Result<Option<Option<Value>>, AllocError>
        ensures stack { stack self.new ≡ stack self.old }
    {
        let first = parameters.first();
        let a = self.argument_value(operands.0, first)?;
        let b = self.argument_value(operands.1, parameters.get(1))?;
        let (Some(a), Some(b)) = (a, b) else {
            return Ok(None);
        };
        let place = Place::last_of(count);
        if let Some(message) = self.wrong_right(operator, first, b, stage) {
            self.tell(Rule::Value, place, message)?;
            return Ok(None);
        }
        let value = match (a, b) {
            (Some(a), Some(b)) => {
                let sign = self.token_before(count).kind;
                self.computed(place, binary_value(sign, a, b))?
            }
            (Some(a), None) => decided(operator, a),
            _ => None,
        };
        Ok(Some(value))
    }

    /// What is wrong with a right operand that is evaluated.
    fn wrong_right(
        &self,
        operator: BinaryOperator,
        left: Option<&Type>,
        right: Option<Value>,
        stage: Stage,
    ) -> Option<&'static str> {
        match self.is_evaluated() {
            true => wrong_right(operator, left, right, stage),
            false => None,
        }
    }
}
