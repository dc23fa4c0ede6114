// Forms that have no overloads.
ghost use Rattle.std.specs.Prelude.{◌≡◌};
ghost use Rattle.wgsl_requests.specs.Prelude.{view, given_type, answer_view, form_type_view, form_view as expression_view, unbuilt_view};
ghost use Rattle.wgsl_requests.specs.Requests.{IsFormType, of_scalar, type_alone};
ghost use Rattle.wgsl_requests.specs.Views.{form_view};

use crate::prelude::*;
use crate::requests::Form;
use wgsl_standard::forms::address::{address_of, indirection};
use wgsl_standard::forms::array::{construct_array, construct_array_of};
use wgsl_standard::forms::assign::{assign_by, increment};
use wgsl_standard::forms::declare::{declare, discard, override_without_value};
use wgsl_standard::forms::form::{Element, Form as Expression, UnbuiltType};
use wgsl_standard::forms::index::type_of_index;
use wgsl_standard::forms::lists::construct_struct;
use wgsl_standard::forms::load::load_type;
use wgsl_standard::forms::member::type_of_member;
use wgsl_standard::forms::switch::switch_type;
use wgsl_standard::forms::variable::{initialized_variable, variable};
use wgsl_syntax::scalar::Scalar;

/// The type of a form, or why it has none.
pub fn type_of_form<'r>(form: &Form<'r>) -> Result<FormType<'r>, Refusal<'r>>
    ensures { IsFormType (form_view form.now) (answer_view form_type_view result) }
{
    match form {
        Form::Member(x, name) => type_alone(type_of_member(x, name)),
        Form::Index(x, index) => type_alone(type_of_index(x, index)),
        Form::Load(x) => unlayered(load_type(x.ty)),
        Form::Declaration(declaration, x, ty) => unreferred(declare(*declaration, x, *ty)),
        Form::Override(ty) => unreferred(override_without_value(ty)),
        Form::Assignment(operator, x, y) => existing(assign_by(*operator, x, y)),
        Form::Increment(x) => existing(increment(x)),
        Form::Discard(x) => unreferred(discard(x)),
        Form::Construct(ty, values) => existing(construct_struct(ty, values)),
        Form::Switch(x, cases) => of_scalar(switch_type(x, cases)),
        Form::Address(x, referent) => type_alone(address_of(x, *referent)),
        Form::Indirection(x) => type_alone(indirection(x)),
        Form::Array(values) => unreferred(construct_array(values)),
        Form::ArrayOf(ty, count, values) => unreferred(construct_array_of(ty, *count, values)),
        Form::Variable(space, access, ty) => variable(*space, *access, ty),
        Form::Initialized(space, access, x, ty) => initialized_variable(*space, *access, x, *ty),
    }
}

fn type_alone<'r>(found: Result<Expression<'r>, Refusal<'r>>) -> Result<FormType<'r>, Refusal<'r>>
    ensures { answer_view form_type_view result
        ≡ type_alone (answer_view expression_view found.entry) }
{
    Ok(found?.ty.shown())
}

fn unlayered<'r>(found: Result<OperandType<'r>, Refusal<'r>>) -> Result<FormType<'r>, Refusal<'r>>
    ensures { answer_view form_type_view result ≡ answer_view given_type found.entry }
{
    Ok(FormType::of(UnbuiltType::of(found?)))
}

fn unreferred<'r>(found: Result<UnbuiltType<'r>, Refusal<'r>>) -> Result<FormType<'r>, Refusal<'r>>
    ensures { answer_view form_type_view result ≡ answer_view unbuilt_view found.entry }
{
    Ok(FormType::of(found?))
}

fn existing<'r>(found: Result<&'r Type, Refusal<'r>>) -> Result<FormType<'r>, Refusal<'r>>
    ensures { answer_view form_type_view result ≡ answer_view (λ t. view t.now) found.entry }
{
    Ok(FormType::of(UnbuiltType::of_type(found?)))
}

fn of_scalar<'r>(found: Result<Scalar, Refusal<'r>>) -> Result<FormType<'r>, Refusal<'r>>
    ensures { answer_view form_type_view result ≡ of_scalar (answer_view (λ s. s) found.entry) }
{
    let element = Element::Value(Dimensions::Single, found?);
    Ok(FormType::of(UnbuiltType::single(element)))
}
