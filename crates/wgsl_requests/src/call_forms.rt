// Calls that are forms: `&x`, `*x` and `array(x, y)`, which have no overloads.
ghost use Rattle.std.specs.Prelude.{◌≡◌, map, option_map};
ghost use Rattle.wgsl_requests.specs.Prelude.{parameter_view, view};
ghost use Rattle.wgsl_requests.specs.Requests.{array_form as array_there, array_parameters as parameters_there, form_of_call, unary_form as unary_there};
ghost use Rattle.wgsl_requests.specs.Views.{call_view, form_view, written_view};

use crate::prelude::*;
use crate::requests::Form;
use wgsl_calls::template::array::element_count;

/// The form that a call is: `&x`, `*x` or an array constructor. None if it has overloads, or if the template of an `array`
/// isn't a type, or a type and a number above 0.
#[inline(always)]
pub fn form_of_call<'r>(call: &Call<'r>) -> Option<Form<'r>>
    ensures { option_map form_view result ≡ form_of_call (call_view call.now) }
{
    match call.callee {
        Callee::Unary(operator) => unary_form(operator, call.operands),
        Callee::Constructor(name) if name == "array" => array_form(call.template, call.operands),
        _ => None,
    }
}

fn unary_form<'r>(operator: UnaryOperator, operands: &[Operand<'r>]) -> Option<Form<'r>>
    ensures { option_map form_view result ≡ unary_there (map written_view operands.now) operator }
{
    match (operands, operator) {
        ([x], UnaryOperator::AddressOf) => Some(Form::Address(*x, Referent::Whole)),
        ([x], UnaryOperator::Indirection) => Some(Form::Indirection(*x)),
        _ => None,
    }
}

fn array_form<'r>(template: Option<&'r [TpltParam]>, values: &'r [Operand<'r>]) -> Option<Form<'r>>
    ensures { option_map form_view result ≡ array_there
        (option_map (λ ps. map parameter_view ps.now) template.entry) (map written_view values.now) }
{
    match template {
        None => Some(Form::Array(values)),
        Some(parameters) => {
            let (element, count) = array_parameters(parameters)?;
            Some(Form::ArrayOf(element, count, values))
        }
    }
}

/// The element type and the number of elements.
fn array_parameters(parameters: &[TpltParam]) -> Option<(&Type, Option<usize>)>
    ensures { option_map (λ p. (view p.0.now, p.1)) result
        ≡ parameters_there (map parameter_view parameters.now) }
{
    match parameters {
        [TpltParam::Ty(ty)] => Some((ty, None)),
        [TpltParam::Ty(ty), TpltParam::Instance(count)] => Some((ty, Some(element_count(count)?))),
        _ => None,
    }
}
