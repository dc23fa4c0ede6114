// The operators `&` and `*`.
ghost use Rattle.std.specs.Prelude.{◌≡◌, Some, false};
ghost use Rattle.wgsl_standard.specs.forms.Prelude.{unary, view, given_type};
ghost use Rattle.wgsl_standard.specs.forms.Address.{address_answer, has_address, indirection_answer};
ghost use Rattle.wgsl_standard.specs.forms.Refusals.{error};
ghost use Rattle.wgsl_standard.specs.forms.Views.{answer_view, form_view, referent_of, refusal_view, viewed};

use crate::forms::form::Form;
use crate::forms::prelude::*;
use wgsl_core::ty::form::Form as TypeForm;

/// What `&x` is (WGSL, "Address-Of Expression"), where `x` refers to `referent`. `Unary` if `x` is no reference, `PtrHandle` in
/// the handle space, `PtrVecComp` of components of a vector.
pub fn address_of<'a>(x: &Operand<'a>, referent: Referent) -> Result<Form<'a>, Refusal<'a>>
    ensures { answer_view form_view result ≡ address_answer referent (given_type x.now.ty) }
{
    match x.ty {
        OperandType::Value(_, _) => Err(no_operand(UnaryOperator::AddressOf, x.ty)),
        OperandType::Any(ty) => match ty.form() {
            TypeForm::Reference(AddressSpace::Handle, _, _) => Err(Refusal::PtrHandle),
            TypeForm::Reference(space, stored, access) => {
                if has_address(referent) {
                    Ok(at_run_time(MemoryView::Pointer(space, access), stored))
                } else {
                    Err(Refusal::PtrVecComp)
                }
            }
            _ => Err(no_operand(UnaryOperator::AddressOf, x.ty)),
        },
    }
}

/// What `*x` is (WGSL, "Indirection Expression"). `Unary` if `x` is no pointer.
pub fn indirection<'a>(x: &Operand<'a>) -> Result<Form<'a>, Refusal<'a>>
    ensures { answer_view form_view result ≡ indirection_answer (given_type x.now.ty) }
{
    match x.ty {
        OperandType::Value(_, _) => Err(no_operand(UnaryOperator::Indirection, x.ty)),
        OperandType::Any(ty) => match ty.form() {
            TypeForm::Pointer(space, stored, access) => {
                let memory = MemoryView::Reference(Referent::Whole, space, access);
                Ok(at_run_time(memory, stored))
            }
            _ => Err(no_operand(UnaryOperator::Indirection, x.ty)),
        },
    }
}

/// Whether pointers can point to it.
fn has_address(referent: Referent) -> bool
    ensures { result ≡ has_address referent }
{
    matches!(referent, Referent::Whole)
}

fn no_operand(operator: UnaryOperator, ty: OperandType<'_>) -> Refusal<'_>
    ensures { refusal_view result ≡ error (unary operator (given_type ty.entry)) }
{
    Refusal::Unary(operator, UnbuiltType::of(ty))
}

/// A reference or a pointer to a type, which is no const-expression.
fn at_run_time<'a>(memory: MemoryView, stored: &'a Type) -> Form<'a>
    ensures { form_view result ≡ record {
      of_type = viewed (Some memory) (view stored.now);
      is_constant = false;
      referent = referent_of (Some memory);
    } }
{
    Form {
        ty: FormType {
            memory: Some(memory),
            of: UnbuiltType::of_type(stored),
        },
        is_constant: false,
    }
}
