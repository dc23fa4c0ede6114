// Expressions without calls (WGSL, "Expressions").
ghost use Rattle.std.specs.Prelude.{◌≡◌, [], ◌∷◌, IfOk, None, is_some, option_map, true};
ghost use Rattle.wgsl_core.specs.View.{view};
ghost use Rattle.wgsl_standard.specs.forms.Views.{answer_view, form_view, given};
ghost use Rattle.wgsl_typing.specs.Elements.{HasTaken, is_typed};
ghost use Rattle.wgsl_typing.specs.Known.{typed_in};
ghost use Rattle.wgsl_spelling.specs.Operators.{unary_of};
ghost use Rattle.wgsl_standard.specs.Callees.{a_unary};
ghost use Rattle.wgsl_standard.specs.Resolved.{resolved_view};
ghost use Rattle.wgsl_typing.specs.Names.{HasValue};
ghost use Rattle.wgsl_typing.specs.Outcomes.{HasResult, HasType, IsFormed, IsOverloaded, IsUnary, loaded, or_faulty, resolved, shown, shown_type};
ghost use Rattle.wgsl_typing.specs.Operators.{AnOperator, Brackets, IsUnaryOf, Unary, is_short_circuit};
ghost use Rattle.wgsl_typing.specs.Stacks.{below, part_of, sign_on, stack, with_item, with_items};
ghost use Rattle.wgsl_typing.specs.Words.{kind_at};

use crate::ask::{Resolved, Unresolved, resolved_unary};
use crate::constant::{Computed, decided, unary_value};
use crate::expressions::Expressions;
use crate::fault::{Place, Rule};
use crate::item::Item;
use crate::known::{Outcome, Part, Typed};
use crate::stage::Stage;
use crate::structs::behind;
use crate::value::Value;
use std::alloc::AllocError;
use wgsl_core::ty::Type;
use wgsl_reader::kind::Kind;
use wgsl_spelling::operator::{binary_of, unary_of};
use wgsl_standard::answer::NoOverload;
use wgsl_standard::forms::address::{address_of, indirection};
use wgsl_standard::forms::form::{Form as FormOf, Referent};
use wgsl_standard::forms::refusal::Refusal;
use wgsl_standard::operand::Operand;
use wgsl_standard::resolved::ResolvedCall;
use wgsl_syntax::operator::UnaryOperator;

impl<'t> Expressions<'t> {
    /// Puts an expression on top of the items.
    pub fn put(&mut self, place: Place, outcome: Outcome) -> Result<(), AllocError>
        ensures { IfOk result (λ u. stack self.new ≡ with_item (Item.Part (part_of place outcome)) (stack self.old)) }
    {
        self.push(Item::Part(Part::of(place, outcome)))
    }

    /// An operator. What stands behind `false &&` and `true ||` isn't evaluated.
    pub fn put_operator(&mut self, count: usize) -> Result<(), AllocError>
        ensures { IfOk result (λ u. AnOperator (is_short_circuit (kind_at self.old.tokens.now count)) count (stack self.old) (stack self.new)) }
    {
        let kind = self.token_before(count).kind;
        if is_short_circuit(kind) {
            return self.put_short_circuit(kind, count);
        }
        self.push(Item::Sign(count))
    }

    /// `&&` or `||`, of this kind: its left operand is taken first.
    fn put_short_circuit(&mut self, kind: Kind, count: usize) -> Result<(), AllocError>
        ensures { IfOk result (λ u. AnOperator true count (stack self.old) (stack self.new)) }
    {
        let left = self.take_part()?;
        self.leave_out_behind(kind, count, &left);
        self.push(Item::Part(left))?;
        self.push(Item::Sign(count))
    }

    /// What stands behind an operator isn't evaluated if its left operand decides.
    fn leave_out_behind(&mut self, kind: Kind, count: usize, left: &Part)
        ensures stack { stack self.new ≡ stack self.old }
    {
        if self.is_evaluated() && may_decide(kind, left) {
            self.unevaluated = Some(count);
        }
    }

    /// Whether what is read is evaluated, if its value is known.
    pub fn is_evaluated(&self) -> bool {
        self.unevaluated.is_none()
    }

    /// Takes the operator or the `[` on top, by the number of tokens up to it.
    pub fn take_sign(&mut self) -> usize
        ensures sign { result ≡ sign_on (stack self.old).items }
        ensures rest { stack self.new ≡ with_items (below (stack self.old).items) (stack self.old) }
    {
        let count = match self.items.last() {
            Some(Item::Sign(count)) => *count,
            _ => 0,
        };
        self.drop_top();
        count
    }

    /// `(x)`
    pub fn put_brackets(&mut self, count: usize) -> Result<(), AllocError>
        ensures { IfOk result (λ u. Brackets count (stack self.old) (stack self.new)) }
    {
        let mut part = self.take_part()?;
        part.place = Place {
            from: part.place.from.saturating_sub(1),
            to: count,
        };
        self.push(Item::Part(part))
    }

    /// Whether the operand has a type. Says so if it is a call without a value.
    pub fn has_value(&mut self, part: &Part) -> Result<bool, AllocError>
        ensures answer { IfOk result (λ has. has ≡ is_some (typed_in part.now.outcome)) }
        ensures stack { stack self.new ≡ stack self.old }
    {
        match part.outcome {
            Outcome::Typed(_) => Ok(true),
            Outcome::Faulty => Ok(false),
            Outcome::NoValue => {
                self.tell(Rule::Value, part.place, "this call has no value")?;
                Ok(false)
            }
        }
    }

    /// `-x`
    pub fn put_unary(&mut self) -> Result<(), AllocError>
        ensures { IfOk result (λ u. Unary (stack self.old) (stack self.new)) }
    {
        let part = self.take_part()?;
        let count = self.take_sign();
        let outcome = self.outcome_of_unary(count, &part)?;
        let place = Place::last_of(count).up_to(part.place);
        self.note(part)?;
        self.put(place, outcome)
    }

    /// What the operator that is the last of that many tokens makes of its operand.
    fn outcome_of_unary(&mut self, count: usize, part: &Part) -> Result<Outcome, AllocError>
        ensures outcome { IfOk result (IsUnaryOf (unary_of (kind_at self.old.tokens.now count)) (typed_in part.now.outcome)) }
        ensures stack { stack self.new ≡ stack self.old }
    {
        let operator = unary_of(self.token_before(count).kind);
        self.has_value(part)?;
        let Some(x) = part.typed() else {
            return Ok(Outcome::Faulty);
        };
        let Some(operator) = operator else {
            return Ok(Outcome::Faulty);
        };
        self.unary(operator, count, x)
    }

    fn unary(
        &mut self,
        operator: UnaryOperator,
        count: usize,
        x: &Typed,
    ) -> Result<Outcome, AllocError>
        ensures answer { IfOk result (IsUnary operator x.now) }
        ensures stack { stack self.new ≡ stack self.old }
    {
        match operator {
            UnaryOperator::AddressOf => {
                let form = address_of(&x.operand(), x.referent);
                self.of_form(Place::last_of(count), form, Stage::Runtime)
            }
            UnaryOperator::Indirection => {
                let form = indirection(&x.operand());
                self.of_form(Place::last_of(count), form, Stage::Runtime)
            }
            UnaryOperator::LogicalNegation => self.unary_overloaded(operator, count, x),
            UnaryOperator::Negation => self.unary_overloaded(operator, count, x),
            UnaryOperator::BitwiseComplement => self.unary_overloaded(operator, count, x),
        }
    }

    /// What a form makes; faulty if it is refused, which is told.
    pub fn of_form(
        &mut self,
        place: Place,
        form: Result<FormOf<'_>, Refusal<'_>>,
        stage: Stage,
    ) -> Result<Outcome, AllocError>
        ensures answer { IfOk result (IsFormed stage (answer_view form_view form.entry)) }
        ensures value { IfOk result (HasTaken (λ t. None)) }
        ensures stack { stack self.new ≡ stack self.old }
    {
        match form {
            Ok(form) => {
                let mut made = Typed::of(form.ty.build(self.alloc)?, stage);
                made.referent = form.ty.referent();
                Ok(Outcome::Typed(made))
            }
            Err(refusal) => {
                self.allows(place, Some(refusal))?;
                Ok(Outcome::Faulty)
            }
        }
    }

    /// The outcome, or that it is faulty, for that reason.
    pub fn or_told(
        &mut self,
        place: Place,
        outcome: Result<Outcome, String>,
    ) -> Result<Outcome, AllocError>
        ensures answer { IfOk result (λ o. o ≡ or_faulty outcome) }
        ensures elements { IfOk result (λ o. is_typed o ≡ true → self.new.elements ≡ self.old.elements) }
        ensures stack { stack self.new ≡ stack self.old }
    {
        match outcome {
            Ok(outcome) => Ok(outcome),
            Err(message) => {
                self.fault(Rule::Type, place, message)?;
                Ok(Outcome::Faulty)
            }
        }
    }

    fn unary_overloaded(
        &mut self,
        operator: UnaryOperator,
        count: usize,
        x: &Typed,
    ) -> Result<Outcome, AllocError>
        ensures answer { IfOk result (IsOverloaded (a_unary operator) None (loaded x.now ∷ []) x.now.stage) }
        ensures stack { stack self.new ≡ stack self.old }
    {
        let place = Place::last_of(count);
        let found = resolved_unary(self.alloc, operator, x)?;
        let Some(call) = self.taken(found, place)? else {
            return Ok(Outcome::Faulty);
        };
        let value = match x.value {
            Some(value) => {
                let sign = self.token_before(count).kind;
                self.computed(place, unary_value(sign, value))?
            }
            None => None,
        };
        Ok(of_call(call, x.stage, value))
    }

    /// The value that was computed. Says so if it is evaluated and out of range.
    pub fn computed(&mut self, place: Place, found: Computed) -> Result<Option<Value>, AllocError>
        ensures stack { stack self.new ≡ stack self.old }
    {
        match found {
            Ok(value) => Ok(value),
            Err(message) => {
                if self.is_evaluated() {
                    self.tell(Rule::Value, place, message)?;
                }
                Ok(None)
            }
        }
    }

    /// What a call resolves to; None where it is told that it resolves to nothing.
    pub fn taken(
        &mut self,
        found: Resolved,
        place: Place,
    ) -> Result<Option<ResolvedCall>, AllocError>
        ensures answer { IfOk result (λ call. option_map resolved_view call ≡ resolved found) }
        ensures stack { stack self.new ≡ stack self.old }
    {
        let Unresolved {
            reason,
            message,
            notes,
        } = match found {
            Ok(call) => return Ok(Some(call)),
            Err(unresolved) => unresolved,
        };
        let rule = match reason {
            NoOverload::UnknownName => Rule::Name,
            NoOverload::NoCandidate => Rule::Overload,
        };
        self.fault(rule, place, message)?;
        for note in notes {
            self.add_note(place, note)?;
        }
        Ok(None)
    }

    /// The value of an argument in the type of its parameter: `None` where that is told, `Some(None)` if it isn't computed, or out of
    /// range and not evaluated.
    pub fn argument_value(
        &mut self,
        part: &Part,
        parameter: Option<&Type>,
    ) -> Result<Option<Option<Value>>, AllocError>
        ensures stack { stack self.new ≡ stack self.old }
    {
        let (Some(value), Some(parameter)) = (part.value(), parameter) else {
            return Ok(Some(None));
        };
        match self.converted(value, parameter) {
            Ok(value) => Ok(Some(value)),
            Err(_) if !self.is_evaluated() => Ok(Some(None)),
            Err(_) => {
                let message = format!(in self.alloc;
                    "the value is out of the range of `{parameter}`"
                )?;
                self.fault(Rule::Value, part.place, message)?;
                Ok(None)
            }
        }
    }
}

/// Whether an operator evaluates its right operand only if the left one doesn't decide.
fn is_short_circuit(operator: Kind) -> bool
    ensures { result ≡ is_short_circuit operator }
{
    matches!(operator, Kind::AndAnd | Kind::OrOr)
}

/// Whether the left operand of an operator may decide when the module is made: so may a value that isn't computed.
fn may_decide(operator: Kind, left: &Part) -> bool {
    match (left.typed(), binary_of(operator)) {
        (Some(typed), Some(operator)) if typed.stage.is_const() => match typed.value {
            Some(value) => decided(operator, value).is_some(),
            None => true,
        },
        _ => false,
    }
}

/// An operand as operators and functions take it: a swizzle of a reference counts as its value.
pub fn shown(x: &Typed) -> Operand<'_>
    ensures { given result ≡ shown x.now }
{
    Operand::of(shown_type(x), x.stage.is_const())
}

/// The type that is shown: of a swizzle of a reference that of its value.
pub fn shown_type(x: &Typed) -> &Type
    ensures { view result.now ≡ shown_type x.now.referent (view x.now.ty) }
{
    match x.referent {
        Referent::Swizzle => behind(&x.ty),
        _ => &x.ty,
    }
}

/// What a call makes that resolves to this.
pub fn of_call(call: ResolvedCall, stage: Stage, value: Option<Value>) -> Outcome
    ensures { HasResult stage (option_map view call.result) result }
{
    let ResolvedCall { result: made, .. } = call;
    match made {
        Some(ty) => with_value(ty, stage, value),
        None => Outcome::NoValue,
    }
}

/// A value of that type, known at a stage.
pub fn with_value(ty: Type, stage: Stage, value: Option<Value>) -> Outcome
    ensures ty { HasType (view ty) stage Referent.Whole result }
    ensures value { HasValue value result }
{
    Outcome::Typed(Typed {
        ty,
        stage,
        referent: Referent::Whole,
        value,
    })
}
