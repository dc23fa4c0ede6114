// Statements without blocks (WGSL, "Statements").
ghost use Rattle.std.specs.Prelude.{◌∷◌, [], IfOk};
ghost use Rattle.wgsl_module.specs.Noted.{AssignsIf, Uses};
ghost use Rattle.wgsl_module.specs.States.{Keeps, noted, state};

use crate::checker::Checker;
use std::alloc::AllocError;
use wgsl_constants::constant::Constant;
use wgsl_reader::kind::Kind;
use wgsl_standard::forms::assign::{assign_by, binary_operator, increment};
use wgsl_standard::forms::declare::discard;
use wgsl_standard::forms::flow::return_value;
use wgsl_standard::forms::refusal::Refusal;
use wgsl_syntax::operator::{AssignmentOperator, assignment_named};
use wgsl_syntax::overload::Stages;
use wgsl_typing::expression::shown;
use wgsl_typing::fault::{Place, Rule};
use wgsl_typing::known::{Outcome, Part, Typed};
use wgsl_typing::stage::Stage;
use wgsl_typing::structs::behind;
use wgsl_typing::value::Value;

impl<'t> Checker<'t> {
    /// `const_assert x;`
    pub fn assert(&mut self) -> Result<(), AllocError>
        ensures { IfOk result (λ u. Uses (state self.old) (state self.new)) }
    {
        let part = self.expressions.take_part()?;
        if self.expressions.is_condition(&part)? {
            if let Some(typed) = part.typed() {
                self.check_assertion(part.place, typed)?;
            }
        }
        self.expressions.note(part)
    }

    fn check_assertion(&mut self, place: Place, typed: &Typed) -> Result<(), AllocError>
        ensures { Keeps (state self.old) (state self.new) }
    {
        match (typed.stage, typed.value) {
            (Stage::Const, Some(Value::One(Constant::Bool(false)))) => {
                self.tell(Rule::Value, place, "this assertion doesn't hold")
            }
            (Stage::Const, _) => Ok(()),
            _ => self.tell(Rule::Type, place, "expected a const-expression"),
        }
    }

    /// `x = y;`, `x += y;`
    pub fn assign(&mut self, is_compound: bool) -> Result<(), AllocError>
        ensures { IfOk result (λ u. AssignsIf is_compound (state self.old) (state self.new)) }
    {
        let right = self.expressions.take_part()?;
        let sign = match is_compound {
            true => Some(self.expressions.take_sign()),
            false => None,
        };
        let left = match self.expressions.take_part() {
            Ok(left) => left,
            Err(error) => {
                drop(right);
                return Err(error);
            }
        };
        self.assign_to(sign, left, right)?;
        Ok(())
    }

    /// An assignment of which both sides are read. They are used.
    fn assign_to(&mut self, sign: Option<usize>, left: Part, right: Part) -> Result<(), AllocError>
        ensures { IfOk result (λ u. Keeps (noted (left ∷ right ∷ []) (state self.old)) (state self.new)) }
    {
        let checked = self.check_sides(sign, &left, &right);
        self.expressions.note_both(left, right)?;
        checked?;
        Ok(())
    }

    fn check_sides(
        &mut self,
        sign: Option<usize>,
        left: &Part,
        right: &Part,
    ) -> Result<(), AllocError>
        ensures { Keeps (state self.old) (state self.new) }
    {
        if self.expressions.has_value(left)? && self.expressions.has_value(right)? {
            self.check_assignment(sign, left, right)?;
        }
        Ok(())
    }

    fn check_assignment(
        &mut self,
        sign: Option<usize>,
        left: &Part,
        right: &Part,
    ) -> Result<(), AllocError>
        ensures { Keeps (state self.old) (state self.new) }
    {
        let (Some(x), Some(y)) = (left.typed(), right.typed()) else {
            return Ok(());
        };
        let operator = match sign {
            Some(count) => assignment_named(self.word(count)).unwrap_or(AssignmentOperator::Equal),
            None => AssignmentOperator::Equal,
        };
        match (assign_by(operator, &x.operand(), &shown(y)), sign) {
            (Ok(_), _) => {}
            (Err(Refusal::Binary(binary, _, _)), Some(count)) => {
                return self.expressions.check_right(binary, count, x, (right, y));
            }
            (Err(refusal), _) => return self.refuse_writing(left.place, refusal),
        }
        let ty = behind(&x.ty);
        if !self.expressions.may_be_loaded(right.place, ty)? {
            return Ok(());
        }
        match (binary_operator(operator), sign) {
            (Some(binary), Some(count)) => {
                self.expressions.check_right(binary, count, x, (right, y))
            }
            _ => {
                self.expressions.argument_value(right, Some(ty))?;
                Ok(())
            }
        }
    }

    /// Says why nothing can be written to what has this place.
    fn refuse_writing(&mut self, place: Place, refusal: Refusal<'_>) -> Result<(), AllocError>
        ensures { Keeps (state self.old) (state self.new) }
    {
        let name = self.first_name(place);
        match (&refusal, self.expressions.constant_named(name)) {
            (Refusal::NotReference(_), Some(message)) => self.tell_name(Rule::Type, name, message),
            _ => {
                self.expressions.allows(place, Some(refusal))?;
                Ok(())
            }
        }
    }

    /// The word with which an expression begins behind its brackets, by the number of tokens up to it.
    fn first_name(&self, place: Place) -> usize {
        for index in place.from..place.to {
            if self.expressions.token(index).kind != Kind::OpenRound {
                return index.saturating_add(1);
            }
        }
        place.to
    }

    /// `x++;`, `x--;`, or `_ = x;`
    pub fn step_or_discard(&mut self, is_step: bool) -> Result<(), AllocError>
        ensures { IfOk result (λ u. Uses (state self.old) (state self.new)) }
    {
        let part = self.expressions.take_part()?;
        self.expressions.has_value(&part)?;
        match part.typed() {
            Some(typed) if is_step => self.check_step(part.place, typed)?,
            Some(typed) => self.check_discarded(part.place, typed)?,
            None => {}
        }
        self.expressions.note(part)
    }

    fn check_step(&mut self, place: Place, typed: &Typed) -> Result<(), AllocError>
        ensures { Keeps (state self.old) (state self.new) }
    {
        match increment(&typed.operand()) {
            Ok(_) => Ok(()),
            Err(refusal) => self.refuse_writing(place, refusal),
        }
    }

    fn check_discarded(&mut self, place: Place, typed: &Typed) -> Result<(), AllocError>
        ensures { Keeps (state self.old) (state self.new) }
    {
        match discard(&shown(typed)) {
            Ok(ty) => {
                let ty = ty.build(self.expressions.alloc)?;
                self.expressions.may_be_loaded(place, &ty)?;
                Ok(())
            }
            Err(refusal) => self.refuse_writing(place, refusal),
        }
    }

    /// `f(x);`
    pub fn call_statement(&mut self) -> Result<(), AllocError>
        ensures { IfOk result (λ u. Uses (state self.old) (state self.new)) }
    {
        let part = self.expressions.take_part()?;
        if matches!(part.outcome, Outcome::Typed(_)) && !part.may_be_dropped {
            self.tell(Rule::MustUse, part.place, "this value must be used")?;
        }
        self.expressions.note(part)
    }

    /// `discard;`
    pub fn discard(&mut self, count: usize) -> Result<(), AllocError>
        ensures { Keeps (state self.old) (state self.new) }
    {
        let place = Place::last_of(count.saturating_sub(1));
        self.expressions.only_in(Stages::Fragment, place)
    }

    /// The value behind `return`.
    pub fn put_returned(&mut self) -> Result<(), AllocError>
        ensures { IfOk result (λ u. Uses (state self.old) (state self.new)) }
    {
        let part = self.expressions.take_part()?;
        self.expressions.has_value(&part)?;
        if let Some(typed) = part.typed() {
            self.check_returned(&part, typed)?;
        }
        self.expressions.note(part)
    }

    fn check_returned(&mut self, part: &Part, typed: &Typed) -> Result<(), AllocError>
        ensures { Keeps (state self.old) (state self.new) }
    {
        let Some(ty) = self.result.take() else {
            if self.has_faulty_result {
                return Ok(());
            }
            return self.tell(Rule::Type, part.place, "this function returns no value");
        };
        let refusal = return_value(&shown(typed), &ty).err();
        if self.expressions.allows(part.place, refusal)? {
            self.expressions.argument_value(part, Some(&ty))?;
        }
        self.result = Some(ty);
        Ok(())
    }
}
