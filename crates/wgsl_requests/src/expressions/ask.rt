// Requests about the parts of an expression.
ghost use Rattle.std.specs.Prelude.{◌≡◌, ◌∷◌, [], IfOk, None, map, option_map, string_bytes};
ghost use Rattle.wgsl_requests.specs.expressions.Prelude.{a_binary, list_all, shown_type, view, formed_from, is_memory, form_of, request_view, written_view};
ghost use Rattle.wgsl_requests.specs.Requests.{index_of, member_of};
ghost use Rattle.wgsl_requests.specs.expressions.Outcomes.{IsCalled, IsElement, IsMember, asked, asked_with, is_const_call, is_constant, makes_constant, member_in, no_parts, operand, operand_by, overloaded, part_in, referent_of, result_of_call, swizzle_in, with_part};
ghost use Rattle.wgsl_requests.specs.expressions.Steps.{given};
ghost use Rattle.wgsl_requests.specs.expressions.Views.{IsFound, found_outcome, head_view, outcome_view, refused_view, shown, typed_view};

use crate::ask::answer;
use crate::expressions::called::asked_about;
use crate::expressions::outcome::{Refused, behind, given, shown_type};
use crate::expressions::prelude::*;
use crate::requests::{Call, Form};
use crate::write::write;
use wgsl_core::ty::form::Form as TypeForm;
use wgsl_standard::callee::can_be_const_expression;
use wgsl_standard::forms::expression::is_const_expression;
use wgsl_standard::forms::member::is_swizzle;
use wgsl_standard::substitution::built;

/// The type that is answered, or the text of the answer.
type Found = Result<Type, String>;

/// The type that is answered to a request, or the text of the answer. What is returned is the result of a function, if the
/// request is whether it takes the values.
fn type_or_text(alloc: Global, of_result: Option<&Type>, request: Request<'_>) -> Made<Found>
    ensures { IfOk result (λ found. IsFound (option_map (λ t. view t.now) of_result.entry) (request_view request.entry) (shown view string_bytes found)) }
{
    match answer(alloc, request) {
        Ok(Answer::TypeOf(_, Some(found))) => match built(alloc, found)? {
            Some(ty) => Ok(Ok(ty)),
            None => Ok(Err(String::from_str(alloc, "no value")?)),
        },
        Ok(Answer::FormType(Ok(ty))) => Ok(Ok(ty.build(alloc)?)),
        Ok(Answer::Fit(Ok(()))) => match of_result {
            Some(ty) => Ok(Ok(ty.clone(alloc)?)),
            None => Ok(Err(String::from_str(alloc, "no value")?)),
        },
        Ok(other) => {
            let mut text = String::new(alloc);
            let written = write(&other, &mut text);
            drop(other);
            written?;
            Ok(Err(text))
        }
        Err(error) => Err(error),
    }
}

/// An expression as an operand of a request.
#[inline(always)]
pub fn operand_of(x: &Typed) -> Operand<'_>
    ensures { written_view result ≡ operand (typed_view x.now) }
{
    Operand::of(&x.ty, x.is_constant)
}

/// Whether the expression is a const-expression.
#[inline(always)]
fn is_constant(x: &Typed) -> bool
    ensures { result ≡ is_constant (typed_view x.now) }
{
    is_const_expression(&operand_of(x))
}

/// `x.name`, whose name begins at that byte.
pub fn member(alloc: Global, at: usize, name: &str, x: Outcome) -> Made<Outcome>
    ensures { IfOk result (λ y. IsMember at name.now (outcome_view x) (outcome_view y)) }
{
    let x = match x {
        Ok(x) => x,
        Err(refused) => return Ok(Err(refused)),
    };
    let found = ask_member(alloc, &x, name)?;
    let outcome = member_of(alloc, at, name, &x, found);
    drop(x);
    outcome
}

/// The member of an expression of which this was answered.
fn member_of(alloc: Global, at: usize, name: &str, x: &Typed, found: Found) -> Made<Outcome>
    ensures { IfOk result (λ y. outcome_view y ≡ found_outcome at (member_in (typed_view x.now) name.now) (shown view string_bytes found)) }
{
    if is_swizzle(&operand_of(x), name) {
        swizzle_of(alloc, at, x, found)
    } else {
        Ok(part_of(at, x, is_constant(x), found))
    }
}

/// The swizzle of an expression of which this was answered.
fn swizzle_of(alloc: Global, at: usize, x: &Typed, found: Found) -> Made<Outcome>
    ensures { IfOk result (λ y. outcome_view y ≡ found_outcome at (swizzle_in (typed_view x.now)) (shown view string_bytes found)) }
{
    match found {
        Ok(ty) => Ok(Ok(Typed {
            ty: formed_from(alloc, &x.ty, ty)?,
            is_constant: is_constant(x),
            referent: Referent::Swizzle,
        })),
        Err(message) => Ok(Err(Refused { at, message })),
    }
}

/// What is formed from a type, with the type of a part: in memory a reference to the part.
fn formed_from(alloc: Global, ty: &Type, part: Type) -> Made<Type>
    ensures { IfOk result (λ t. view t ≡ formed_from (view ty.now) (view part)) }
{
    match ty.form() {
        TypeForm::Reference(space, _, access) | TypeForm::Pointer(space, _, access) => {
            Ok(Type::Ref(space, Box::new(alloc, part)?, access))
        }
        _ => Ok(part),
    }
}

fn ask_member<'p>(alloc: Global, x: &'p Typed, name: &'p str) -> Made<Found>
    ensures { IfOk result (λ found. IsFound None (form_of (member_of (operand (typed_view x.now)) name.now)) (shown view string_bytes found)) }
{
    let form = Form::Member(operand_of(x), name);
    type_or_text(alloc, None, Request::Form(&form))
}

fn ask_element<'p>(alloc: Global, x: &'p Typed, index: &'p Typed) -> Made<Found>
    ensures { IfOk result (λ found. IsFound None (form_of (index_of (operand (typed_view x.now)) (operand (typed_view index.now)))) (shown view string_bytes found)) }
{
    let form = Form::Index(operand_of(x), operand_of(index));
    type_or_text(alloc, None, Request::Form(&form))
}

/// `x[i]`, whose `[` is that byte.
pub fn element(alloc: Global, at: usize, x: Outcome, index: Outcome) -> Made<Outcome>
    ensures { IfOk result (λ y. IsElement at (outcome_view x) (outcome_view index) (outcome_view y)) }
{
    let x = match x {
        Ok(x) => x,
        Err(refused) => {
            drop(index);
            return Ok(Err(refused));
        }
    };
    let index = match index {
        Ok(index) => index,
        Err(refused) => {
            drop(x);
            return Ok(Err(refused));
        }
    };
    let found = ask_element(alloc, &x, &index)?;
    let outcome = part_of(at, &x, is_constant(&x) && is_constant(&index), found);
    drop(x);
    drop(index);
    Ok(outcome)
}

/// The part of an expression of which this was answered.
fn part_of(at: usize, x: &Typed, is_constant: bool, found: Found) -> Outcome
    ensures { outcome_view result ≡ found_outcome at (part_in (typed_view x.now) is_constant) (shown view string_bytes found) }
{
    match found {
        Ok(ty) => {
            let referent = if is_memory(&ty) && behind(&x.ty).is_vec() {
                Referent::Component
            } else {
                Referent::Whole
            };
            Ok(Typed {
                ty,
                is_constant,
                referent,
            })
        }
        Err(message) => Err(Refused { at, message }),
    }
}

fn is_memory(ty: &Type) -> bool
    ensures { result ≡ is_memory (view ty.now) }
{
    matches!(
        ty.form(),
        TypeForm::Reference(_, _, _) | TypeForm::Pointer(_, _, _)
    )
}

/// The outcome of a call or a constructor with its operands, whose first token is at that byte.
pub fn call(alloc: Global, at: usize, head: &Head, parts: Parts) -> Made<Outcome>
    ensures { IfOk result (λ r. IsCalled at (head_view head.now) (shown (λ v. map typed_view v.items) refused_view parts) (outcome_view r)) }
{
    let parts = match parts {
        Ok(parts) => parts,
        Err(refused) => return Ok(Err(refused)),
    };
    let found = ask_of(alloc, head, &parts)?;
    let is_constant = is_const_call(head, &parts);
    drop(parts);
    Ok(outcome_of(at, is_constant, found))
}

/// The outcome of a binary expression, whose operator is at that byte.
pub fn binary(
    alloc: Global,
    at: usize,
    operator: BinaryOperator,
    x: Outcome,
    y: Outcome,
) -> Made<Outcome>
    ensures { IfOk result (λ r. IsCalled at (overloaded (a_binary operator) None) (with_part (with_part no_parts (outcome_view x)) (outcome_view y)) (outcome_view r)) }
{
    let x = match x {
        Ok(x) => x,
        Err(refused) => {
            drop(y);
            return Ok(Err(refused));
        }
    };
    let y = match y {
        Ok(y) => y,
        Err(refused) => {
            drop(x);
            return Ok(Err(refused));
        }
    };
    let found = ask_binary(alloc, operator, &x, &y)?;
    let is_constant = is_constant(&x) && is_constant(&y);
    drop(x);
    drop(y);
    Ok(outcome_of(at, is_constant, found))
}

/// Asks about a binary expression.
fn ask_binary<'p>(
    alloc: Global,
    operator: BinaryOperator,
    x: &'p Typed,
    y: &'p Typed,
) -> Made<Found>
    ensures { IfOk result (λ found. IsFound None (asked (overloaded (a_binary operator) None) (typed_view x.now ∷ typed_view y.now ∷ [])) (shown view string_bytes found)) }
{
    let operands = [value_of(x), value_of(y)];
    let call = Call {
        callee: Callee::Binary(operator),
        template: None,
        operands: &operands,
    };
    type_or_text(alloc, None, Request::Type(&call))
}

/// The value of a call of which this was answered.
fn outcome_of(at: usize, is_constant: bool, found: Found) -> Outcome
    ensures { outcome_view result ≡ found_outcome at (given is_constant) (shown view string_bytes found) }
{
    match found {
        Ok(ty) => Ok(given(ty, is_constant)),
        Err(message) => Err(Refused { at, message }),
    }
}

/// Asks about what stands in front of operands with them.
fn ask_of(alloc: Global, head: &Head, parts: &[Typed]) -> Made<Found>
    ensures { IfOk result (λ found. IsFound (result_of_call (head_view head.now)) (asked (head_view head.now) (map typed_view parts.now)) (shown view string_bytes found)) }
{
    let referent = referent_of(parts);
    match parts {
        [x] => ask_with(alloc, head, referent, &[operand_by(head, x)]),
        [x, y] => {
            let operands = [operand_by(head, x), operand_by(head, y)];
            ask_with(alloc, head, referent, &operands)
        }
        _ => {
            let operands = operands_by(alloc, head, parts)?;
            let found = ask_with(alloc, head, referent, &operands);
            drop(operands);
            found
        }
    }
}

fn ask_with<'x>(
    alloc: Global,
    head: &'x Head,
    referent: Referent,
    operands: &'x [Operand<'x>],
) -> Made<Found>
    ensures { IfOk result (λ found. IsFound (result_of_call (head_view head.now)) (asked_with (head_view head.now) referent (map written_view operands.now))
        (shown view string_bytes found)) }
{
    let asked = asked_about(head, referent, operands);
    type_or_text(alloc, result_of_call(head), asked.request())
}

/// The result of a function that the text declares.
fn result_of_call(head: &Head) -> Option<&Type>
    ensures { option_map (λ t. view t.now) result ≡ result_of_call (head_view head.now) }
{
    match head {
        Head::Declared(_, _, result) => result.as_ref(),
        _ => None,
    }
}

/// What the only operand refers to.
pub fn referent_of(parts: &[Typed]) -> Referent
    ensures { result ≡ referent_of (map typed_view parts.now) }
{
    match parts {
        [x] => x.referent,
        _ => Referent::Whole,
    }
}

/// Whether a call of these operands is a const-expression.
fn is_const_call(head: &Head, parts: &[Typed]) -> bool
    ensures { result ≡ is_const_call (head_view head.now) (map typed_view parts.now) }
{
    are_constant(parts) && makes_constant(head)
}

/// Whether all are const-expressions.
fn are_constant(parts: &[Typed]) -> bool
    ensures { result ≡ list_all is_constant (map typed_view parts.now) }
{
    for part in parts {
        if !is_constant(part) {
            return false;
        }
    }
    true
}

/// Whether it makes a const-expression of const-expressions.
fn makes_constant(head: &Head) -> bool
    ensures { result ≡ makes_constant (head_view head.now) }
{
    match head {
        Head::Function(name, _) => can_be_const_expression(Callee::Function(name.as_str())),
        Head::Declared(_, _, _) => false,
        Head::Unary(_) | Head::Binary(_) | Head::Constructor(_, _) => true,
        Head::Array(_, _) | Head::Struct(_) => true,
    }
}

/// The operands of what stands in front of them.
pub fn operands_by<'p>(alloc: Global, head: &Head, parts: &'p [Typed]) -> Made<Vec<Operand<'p>>>
    ensures { IfOk result (λ v. map written_view v.items
        ≡ map (operand_by (head_view head.now)) (map typed_view parts.now)) }
{
    let mut operands = Vec::with_capacity(alloc, parts.len())?;
    for part in parts {
        operands.push(operand_by(head, part))?;
    }
    Ok(operands)
}

/// An operand of what stands in front of it.
#[inline(always)]
fn operand_by<'p>(head: &Head, x: &'p Typed) -> Operand<'p>
    ensures { written_view result ≡ operand_by (head_view head.now) (typed_view x.now) }
{
    match head {
        Head::Unary(UnaryOperator::AddressOf) => operand_of(x),
        Head::Unary(_)
        | Head::Binary(_)
        | Head::Constructor(_, _)
        | Head::Function(_, _)
        | Head::Array(_, _)
        | Head::Struct(_)
        | Head::Declared(_, _, _) => value_of(x),
    }
}

/// The operand that an expression is of most: a swizzle counts as its value.
#[inline(always)]
fn value_of(x: &Typed) -> Operand<'_>
    ensures { written_view result ≡ record { of_type = shown_type (typed_view x.now); is_constant = x.now.is_constant } }
{
    Operand::of(shown_type(x), x.is_constant)
}
