// `switch`, and the clauses of one (WGSL, "Switch Statement").
ghost use Rattle.std.specs.Prelude.{◌≡◌, IfOk};
ghost use Rattle.wgsl_module.specs.Noted.{HasCase, Selects, Switched};
ghost use Rattle.wgsl_module.specs.States.{Keeps, noted, state};

use crate::checker::Checker;
use std::alloc::AllocError;
use std::collections::BTreeSet;
use wgsl_core::ty::Type;
use wgsl_standard::forms::switch::switch_type;
use wgsl_standard::operand::Operand;
use wgsl_typing::expression::shown;
use wgsl_typing::fault::{Place, Rule};
use wgsl_typing::known::Part;

/// A `switch` so far.
#[derive(Drop)]
pub struct Switch {
    selector: Part,
    values: Vec<Part>,
}

impl<'t> Checker<'t> {
    /// The value behind `switch`.
    pub fn open_switch(&mut self) -> Result<(), AllocError>
        ensures { IfOk result (λ u. Selects (state self.old) (state self.new)) }
    {
        let selector = self.expressions.take_part()?;
        self.expressions.has_value(&selector)?;
        let values = Vec::new(self.expressions.alloc);
        self.switches.push(Switch { selector, values })?;
        Ok(())
    }

    /// A value behind `case`.
    pub fn put_case_value(&mut self) -> Result<(), AllocError>
        ensures { IfOk result (λ u. HasCase (state self.old) (state self.new)) }
    {
        let part = self.expressions.take_part()?;
        self.expressions.has_value(&part)?;
        if let Some(mut switch) = self.switches.pop() {
            switch.values.push(part)?;
            self.switches.push(switch)?;
        }
        Ok(())
    }

    /// What is read of a `switch` is used, and its clauses are those of one.
    pub fn close_switch(&mut self) -> Result<(), AllocError>
        ensures { IfOk result (λ u. Switched (state self.old).switches (state self.old) (state self.new)) }
    {
        let Some(switch) = self.switches.pop() else {
            return Ok(());
        };
        self.check_clauses(&switch)?;
        self.expressions.note(switch.selector)?;
        self.note_values(switch.values)
    }

    /// Notes values that are used.
    pub fn note_values(&mut self, values: Vec<Part>) -> Result<(), AllocError>
        ensures { IfOk result (λ u. state self.new ≡ noted values.items (state self.old)) }
    {
        for value in values {
            self.expressions.note(value)?;
        }
        Ok(())
    }

    /// The values of the cases are of the selector's type, and differ.
    fn check_clauses(&mut self, switch: &Switch) -> Result<(), AllocError>
        ensures { Keeps (state self.old) (state self.new) }
    {
        if let Some(ty) = self.type_of_switch(switch)? {
            self.expressions
                .argument_value(&switch.selector, Some(&ty))?;
            self.check_values(switch, &ty)?;
        }
        Ok(())
    }

    /// The type of the selector and the values; None if one of them has a fault.
    fn type_of_switch(&mut self, switch: &Switch) -> Result<Option<Type>, AllocError>
        ensures { Keeps (state self.old) (state self.new) }
    {
        let Some(selector) = switch.selector.typed() else {
            return Ok(None);
        };
        let mut operands = Vec::new(self.expressions.alloc);
        let mut places = Vec::new(self.expressions.alloc);
        operands.push(shown(selector))?;
        places.push(switch.selector.place)?;
        for value in &switch.values {
            match value.typed() {
                Some(typed) => operands.push(shown(typed))?,
                None => return Ok(None),
            }
            places.push(value.place)?;
        }
        self.agreed(&operands, &places)
    }

    /// The integer type of values; None where it is told that they have none, at the first that doesn't agree with those before it.
    pub fn agreed(
        &mut self,
        operands: &[Operand<'_>],
        places: &[Place],
    ) -> Result<Option<Type>, AllocError>
        ensures { Keeps (state self.old) (state self.new) }
    {
        let Some((first, rest)) = operands.split_first() else {
            return Ok(None);
        };
        if let Ok(scalar) = switch_type(first, rest) {
            return Ok(Some(Type::from(scalar)));
        }
        let count = first_wrong(first, rest);
        let refusal = switch_type(first, rest.get(..count).unwrap_or(rest)).err();
        if let Some(place) = places.get(count) {
            self.expressions.allows(*place, refusal)?;
        }
        Ok(None)
    }

    fn check_values(&mut self, switch: &Switch, ty: &Type) -> Result<(), AllocError>
        ensures { Keeps (state self.old) (state self.new) }
    {
        let mut seen = BTreeSet::new(self.expressions.alloc);
        for value in &switch.values {
            let found = match self.expressions.argument_value(value, Some(ty))? {
                Some(Some(found)) => found.integer(),
                _ => None,
            };
            if let Some(integer) = found {
                if !seen.insert(integer.value())? {
                    return self.tell(Rule::Switch, value.place, "a second case for this value");
                }
            }
        }
        Ok(())
    }
}

/// The index of the first value that doesn't agree with those before it, if one doesn't.
fn first_wrong<'o>(first: &Operand<'o>, rest: &[Operand<'o>]) -> usize {
    let (mut low, mut high) = (0usize, rest.len());
    for _ in 0..64 {
        let middle = low.saturating_add(high.saturating_sub(low) / 2);
        match switch_type(first, rest.get(..middle).unwrap_or(rest)) {
            Ok(_) => low = middle.saturating_add(1),
            Err(_) => high = middle,
        }
    }
    high
}
