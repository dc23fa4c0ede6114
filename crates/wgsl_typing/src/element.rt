// Members and elements (WGSL, "Composite Value Decomposition Expressions").
ghost use Rattle.std.specs.Prelude.{◌≡◌, IfOk, option_map, unwrap_or};
ghost use Rattle.wgsl_constants.specs.Literals.{then};
ghost use Rattle.wgsl_core.specs.View.{view};
ghost use Rattle.wgsl_core.specs.internal.View.{members_view};
ghost use Rattle.wgsl_standard.specs.forms.Index.{index_answer};
ghost use Rattle.wgsl_standard.specs.forms.Member.{member_answer};
ghost use Rattle.wgsl_typing.specs.Elements.{HasTaken, indexed, member_in};
ghost use Rattle.wgsl_typing.specs.Known.{operand, typed_in};
ghost use Rattle.wgsl_typing.specs.Values.{in_type};
ghost use Rattle.wgsl_typing.specs.Stages.{is_const, later};
ghost use Rattle.wgsl_typing.specs.Outcomes.{IsAnswer, IsFormed, IsFormedOrFaulty, IsMember};
ghost use Rattle.wgsl_typing.specs.Members.{IsMemberOf, Member, only_member, type_with_member, with_struct};
ghost use Rattle.wgsl_typing.specs.Names.{context, word_in};
ghost use Rattle.wgsl_typing.specs.Operators.{Element, IsElementOf};
ghost use Rattle.wgsl_typing.specs.Stacks.{stack};

use crate::ask::member_of;
use crate::expressions::Expressions;
use crate::fault::{Place, Rule};
use crate::known::{Outcome, Part, Typed};
use crate::structs::behind;
use crate::value::Value;
use std::alloc::{AllocError, Global};
use wgsl_constants::constant::Constant;
use wgsl_constants::integer::Integer;
use wgsl_core::ty::form::Form;
use wgsl_core::ty::{StructMemberType, StructType, Type};
use wgsl_standard::forms::index::type_of_index;

impl<'t> Expressions<'t> {
    /// `x.name`
    pub fn put_member(&mut self, count: usize) -> Result<(), AllocError>
        ensures { IfOk result (λ u. Member count (stack self.old) (stack self.new)) }
    {
        let part = self.take_part()?;
        let outcome = self.outcome_of_member(count, &part)?;
        let place = part.place.up_to(Place::last_of(count));
        self.note(part)?;
        self.put(place, outcome)
    }

    /// What the member is that the last of that many tokens names.
    fn outcome_of_member(&mut self, count: usize, part: &Part) -> Result<Outcome, AllocError>
        ensures outcome { IfOk result (IsMemberOf self.old.structs (word_in (context self.old) count) (typed_in part.now.outcome)) }
        ensures stack { stack self.new ≡ stack self.old }
    {
        self.has_value(part)?;
        let Some(x) = part.typed() else {
            return Ok(Outcome::Faulty);
        };
        let outcome = self.member(count, x)?;
        if matches!(outcome, Outcome::Faulty) {
            let meant = self.meant_member(&x.ty, self.word(count));
            self.suggest(meant)?;
        }
        Ok(outcome)
    }

    fn member(&mut self, count: usize, x: &Typed) -> Result<Outcome, AllocError>
        ensures answer { IfOk result (IsFormed x.now.stage (member_answer
            (record { of_type = type_with_member self.old.structs (word_in (context self.old) count) (view x.now.ty); is_constant = is_const x.now.stage })
            (word_in (context self.old) count))) }
        ensures value { IfOk result (HasTaken (λ t.
            then (member_in self.new.structs self.new.elements.items (word_in (context self.old) count) x.now) (in_type t))) }
        ensures stack { stack self.new ≡ stack self.old }
    {
        let name = self.word(count);
        match self.found_member(x, name)? {
            Ok(mut made) => {
                made.value = self.value_of_member(x, name, &made.ty);
                Ok(Outcome::Typed(made))
            }
            Err(message) => {
                self.fault(Rule::Type, Place::last_of(count), message)?;
                Ok(Outcome::Faulty)
            }
        }
    }

    /// The member with that name, or why there is none.
    fn found_member(&self, x: &Typed, name: &str) -> Result<Result<Typed, String>, AllocError>
        ensures { IfOk result (IsAnswer (IsMember x.now.stage) (member_answer
            (record { of_type = type_with_member self.now.structs name.now (view x.now.ty); is_constant = is_const x.now.stage }) name.now)) }
    {
        match self.with_member(&x.ty, name)? {
            Some(ty) => member_of(self.alloc, &ty, x, name),
            None => member_of(self.alloc, &x.ty, x, name),
        }
    }

    /// The type with no other member than the one with that name, if a declared struct is in it.
    fn with_member(&self, ty: &Type, name: &str) -> Result<Option<Type>, AllocError>
        ensures { IfOk result (λ found. unwrap_or (option_map view found) (view ty.now) ≡ type_with_member self.now.structs name.now (view ty.now)) }
    {
        let Some(declared) = self.structs.declared(ty) else {
            return Ok(None);
        };
        let Form::Struct(whole) = declared.whole.form() else {
            return Ok(None);
        };
        let index = declared.members.get(name).copied();
        let members = only_member(self.alloc, &whole.members, index)?;
        let name = String::from_str(self.alloc, whole.name.as_str())?;
        let of = Type::from_struct(self.alloc, StructType { name, members })?;
        Ok(Some(with_struct(self.alloc, ty, of)?))
    }

    /// `x[i]`
    pub fn put_element(&mut self, count: usize) -> Result<(), AllocError>
        ensures { IfOk result (λ u. Element count (stack self.old) (stack self.new)) }
    {
        let index = self.take_part()?;
        let bracket = self.take_sign();
        let part = self.take_part()?;
        let outcome = self.outcome_of_element(bracket, &part, &index)?;
        let place = part.place.up_to(Place::last_of(count));
        self.put_of(place, outcome, part, index)
    }

    /// What an element is whose `[` is the last of that many tokens.
    fn outcome_of_element(
        &mut self,
        bracket: usize,
        part: &Part,
        index: &Part,
    ) -> Result<Outcome, AllocError>
        ensures outcome { IfOk result (IsElementOf (typed_in part.now.outcome) (typed_in index.now.outcome)) }
        ensures stack { stack self.new ≡ stack self.old }
    {
        self.check_values(part, index)?;
        let Some(x) = part.typed() else {
            return Ok(Outcome::Faulty);
        };
        let Some(i) = index.typed() else {
            return Ok(Outcome::Faulty);
        };
        self.element(bracket, x, i, index.place)
    }

    fn element(
        &mut self,
        bracket: usize,
        x: &Typed,
        i: &Typed,
        at: Place,
    ) -> Result<Outcome, AllocError>
        ensures answer { IfOk result (IsFormedOrFaulty (later x.now.stage i.now.stage) (index_answer (operand x.now) (operand i.now))) }
        ensures value { IfOk result (HasTaken (indexed self.new.elements.items x.now.value i.now.value)) }
        ensures stack { stack self.new ≡ stack self.old }
    {
        let stage = x.stage.later(i.stage);
        let form = type_of_index(&x.operand(), &i.operand());
        let outcome = self.of_form(Place::last_of(bracket), form, stage)?;
        match (outcome, i.value) {
            (Outcome::Typed(mut made), Some(Value::One(Constant::Integer(integer)))) => {
                if self.is_evaluated() && !is_in_bounds(&x.ty, integer) {
                    self.tell(Rule::Value, at, "this index is out of bounds")?;
                    return Ok(Outcome::Faulty);
                }
                made.value = self.value_of_element(x.value, integer.value(), &made.ty);
                Ok(Outcome::Typed(made))
            }
            (outcome, _) => Ok(outcome),
        }
    }
}

/// The member with an index, alone.
#[tactic(auto, using(crate::proofs::OnlyMember::none_only, crate::proofs::OnlyMember::one_only))]
fn only_member(
    alloc: Global,
    members: &[StructMemberType],
    index: Option<usize>,
) -> Result<Vec<StructMemberType>, AllocError>
    ensures { IfOk result (λ ms. members_view ms.items ≡ only_member (members_view members.now) index) }
{
    let mut only = Vec::new(alloc);
    let Some(index) = index else {
        return Ok(only);
    };
    let Some(member) = members.get(index) else {
        return Ok(only);
    };
    only.push(member.clone(alloc)?)?;
    Ok(only)
}

/// The type, or a reference or a pointer to it where the first type is one.
fn with_struct(alloc: Global, ty: &Type, of: Type) -> Result<Type, AllocError>
    ensures { IfOk result (λ made. view made ≡ with_struct (view ty.now) (view of)) }
{
    Ok(match ty.form() {
        Form::Reference(space, _, access) => Type::Ref(space, Box::new(alloc, of)?, access),
        Form::Pointer(space, _, access) => Type::Ptr(space, Box::new(alloc, of)?, access),
        _ => of,
    })
}

/// Whether an element with this index may be there. An AbstractInt is an index as an `i32`.
fn is_in_bounds(ty: &Type, index: Integer) -> bool {
    let most = match index {
        Integer::U32(_) => i64::from(u32::MAX),
        _ => i64::from(i32::MAX),
    };
    let index = index.value();
    let count = match behind(ty).form() {
        Form::Vector(count, _) => i64::from(count),
        Form::Matrix(columns, _, _) => i64::from(columns),
        Form::Array(Some(count), _) => match i64::try_from(count) {
            Ok(count) => count,
            Err(_) => i64::MAX,
        },
        _ => i64::MAX,
    };
    0 <= index && index < count && index <= most
}
