// Requests about calls, by what stands in front of the operands.
ghost use Rattle.std.specs.Prelude.{◌≡◌, map};
ghost use Rattle.wgsl_requests.specs.expressions.Prelude.{view, type_asked, call_view, form_view, request_view, written_view, form_of};
ghost use Rattle.wgsl_requests.specs.expressions.Outcomes.{asked_with, marked};
ghost use Rattle.wgsl_requests.specs.expressions.Statements.{question_on};
ghost use Rattle.wgsl_requests.specs.expressions.Views.{called_view, head_view};

use crate::call_forms::form_of_call;
use crate::expressions::prelude::*;
use crate::requests::{Call, Form};

/// What is asked about a call.
#[derive(Clone, Copy)]
pub enum Called<'r> {
    /// What has overloads.
    Overloaded(Call<'r>),
    Form(Form<'r>),
    /// A function that the text declares: its name, the values, and the types of the parameters.
    Declared(&'r str, &'r [Operand<'r>], &'r [Type]),
}

impl<'r> Called<'r> {
    /// The request.
    pub fn request(&'r self) -> Request<'r>
        ensures { request_view result ≡ called_view self.entry.now }
    {
        match self {
            Called::Overloaded(call) => Request::Type(call),
            Called::Form(form) => Request::Form(form),
            Called::Declared(name, values, types) => {
                Request::Fit(Taker::Function(name), values, types)
            }
        }
    }

    /// The request of a question; what has no overloads is asked for its type.
    pub fn question(&'r self, question: Question) -> Request<'r>
        ensures { request_view result ≡ question_on (called_view self.entry.now) question }
    {
        match self {
            Called::Overloaded(call) => match question {
                Question::Type => Request::Type(call),
                Question::Resolution => Request::Resolution(call),
                Question::Explanation => Request::Explanation(call),
            },
            Called::Form(_) | Called::Declared(_, _, _) => self.request(),
        }
    }
}

/// What is asked about a call for its type.
#[inline(always)]
pub fn asked_about<'r>(head: &'r Head, referent: Referent, values: &'r [Operand<'r>]) -> Called<'r>
    ensures { called_view result ≡ asked_with (head_view head.now) referent (map written_view values.now) }
{
    let (callee, template) = match head {
        Head::Unary(operator) => (Callee::Unary(*operator), None),
        Head::Binary(operator) => (Callee::Binary(*operator), None),
        Head::Constructor(name, template) => (
            Callee::Constructor(name.as_str()),
            template.as_deref(),
        ),
        Head::Function(name, template) => (Callee::Function(name.as_str()), template.as_deref()),
        Head::Array(ty, count) => return Called::Form(Form::ArrayOf(ty, *count, values)),
        Head::Struct(ty) => return Called::Form(Form::Construct(ty, values)),
        Head::Declared(name, parameters, _) => {
            return Called::Declared(name.as_str(), values, parameters);
        }
    };
    let call = Call {
        callee,
        template,
        operands: values,
    };
    overloaded(call, referent)
}

fn overloaded(call: Call<'_>, referent: Referent) -> Called<'_>
    ensures { called_view result ≡ marked referent (type_asked (call_view call.entry)) }
{
    match form_of_call(&call) {
        Some(form) => Called::Form(marked(form, referent)),
        None => Called::Overloaded(call),
    }
}

/// The form, which says of the operand of `&` what it refers to.
fn marked(form: Form<'_>, referent: Referent) -> Form<'_>
    ensures { form_of (form_view result) ≡ marked referent (form_of (form_view form.entry)) }
{
    match form {
        Form::Address(x, _) => Form::Address(x, referent),
        other => other,
    }
}
