// Which operands are const-expressions.
ghost use Rattle.std.specs.Prelude.{◌≡◌};
ghost use Rattle.wgsl_standard.specs.Operands.{given_type};
ghost use Rattle.wgsl_standard.specs.forms.Concrete.{has_abstract_type as abstract_type};
ghost use Rattle.wgsl_standard.specs.forms.Expressions.{is_const_expression as const_expression};
ghost use Rattle.wgsl_standard.specs.forms.Views.{given};

use crate::forms::prelude::*;

/// Whether the operand is a const-expression: it is marked as one, or its type is abstract. A reference or a pointer
/// never is one.
#[inline(always)]
pub fn is_const_expression(x: &Operand<'_>) -> bool
    ensures { result ≡ const_expression (given x.now) }
{
    (x.is_constant || has_abstract_operand_type(x.ty)) && behind(x.ty).memory.is_none()
}

/// Whether the type of an operand is abstract.
#[inline(always)]
pub(crate) fn has_abstract_operand_type(ty: OperandType<'_>) -> bool
    ensures { result ≡ abstract_type (given_type ty.entry) }
{
    match ty {
        OperandType::Value(_, scalar) => is_abstract_scalar(scalar),
        OperandType::Any(ty) => has_abstract_type(ty),
    }
}
