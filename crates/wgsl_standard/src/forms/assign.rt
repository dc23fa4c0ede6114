// Assignments, increments and decrements.
ghost use Rattle.std.specs.Prelude.{◌≡◌, ◌↔◌, [], ◌∷◌, IsTrue, Some, option_map};
ghost use Rattle.wgsl_standard.specs.forms.Prelude.{result_unwrap_or, ReadWrite, IsStandardAnswer, binary_overloads as binary_there};
ghost use Rattle.wgsl_standard.specs.forms.Prelude.{type_with, type_eq, view, given_type, operand_view};
ghost use Rattle.wgsl_standard.specs.forms.Assign.{IsAssigned, IsAssignedBy, IsCompound, assigned, assigned_to, compound as compound_there, incremented, incremented_in, operator_of};
ghost use Rattle.wgsl_standard.specs.forms.Load.{loaded};
ghost use Rattle.wgsl_standard.specs.forms.Views.{answer_view, given};
ghost use Rattle.wgsl_standard.specs.forms.internal.Values.{result_value as value_there};

use crate::forms::prelude::*;
use crate::operators::binary_overloads;
use crate::overload::result_of;
use crate::resolve::resolve;

/// The type to which `x = y` writes: that of what `x` refers to (WGSL, "Simple Assignment"). Refused, in this order, by
/// `NotReference`, `NotWrite`, `NotConstructible`, the load of `y`, `WriteRefType`.
#[inline(always)]
pub fn assign<'a>(x: &Operand<'a>, y: &Operand<'a>) -> Result<&'a Type, Refusal<'a>>
    ensures { answer_view (λ t. view t.now) result
        ≡ assigned (given_type x.now.ty) (given_type y.now.ty) }
{
    match x.ty {
        OperandType::Value(_, _) => Err(Refusal::NotReference(UnbuiltType::of(x.ty))),
        OperandType::Any(ty) => match ty.form() {
            Form::Reference(_, stored, access) => assign_to(stored, access, y.ty),
            _ => Err(Refusal::NotReference(UnbuiltType::of_type(ty))),
        },
    }
}

#[inline(always)]
fn assign_to<'a>(
    stored: &'a Type,
    access: AccessMode,
    y: OperandType<'a>,
) -> Result<&'a Type, Refusal<'a>>
    ensures { answer_view (λ t. view t.now) result
        ≡ assigned_to (view stored.now) access (given_type y.entry) }
{
    if !access.is_write() {
        return Err(Refusal::NotWrite);
    }
    if !operand_is_constructible(OperandType::of(stored)) {
        return Err(Refusal::NotConstructible(UnbuiltType::of_type(stored)));
    }
    let value = load_type(y)?;
    if converts(value, stored) {
        Ok(stored)
    } else {
        Err(Refusal::WriteRefType(UnbuiltType::of(value), UnbuiltType::of_type(stored)))
    }
}

/// The type of what `x++` and `x--` count (WGSL, "Increment and Decrement Statements"). Refused, in this order, by
/// `NotReference`, `NotReadWrite`, `NotInteger`.
pub fn increment<'a>(x: &Operand<'a>) -> Result<&'a Type, Refusal<'a>>
    ensures { answer_view (λ t. view t.now) result ≡ incremented (given_type x.now.ty) }
{
    match x.ty {
        OperandType::Value(_, _) => Err(Refusal::NotReference(UnbuiltType::of(x.ty))),
        OperandType::Any(ty) => match ty.form() {
            Form::Reference(_, stored, AccessMode::ReadWrite) => count(stored),
            Form::Reference(_, _, _) => Err(Refusal::NotReadWrite),
            _ => Err(Refusal::NotReference(UnbuiltType::of_type(ty))),
        },
    }
}

fn count<'a>(stored: &'a Type) -> Result<&'a Type, Refusal<'a>>
    ensures { answer_view (λ t. view t.now) result ≡ incremented_in (view stored.now) ReadWrite }
{
    match stored.form() {
        Form::Scalar(Scalar::I32 | Scalar::U32) => Ok(stored),
        _ => Err(Refusal::NotInteger(UnbuiltType::of_type(stored))),
    }
}

/// The type to which `x OP= y` writes (WGSL, "Compound Assignment"); by `=` that of `assign`. Refused, in this order, by
/// `NotReference`, `NotReadWrite`, `Binary` if no overload of the operator takes what `x` refers to and `y`, `WriteRefType` if
/// the result has another type.
pub fn assign_by<'a>(
    operator: AssignmentOperator,
    x: &Operand<'a>,
    y: &Operand<'a>,
) -> Result<&'a Type, Refusal<'a>>
    ensures { IsAssigned (operator_of operator) (given_type x.now.ty) (given y.now)
        (answer_view (λ t. view t.now) result) }
{
    match binary_operator(operator) {
        Some(operator) => assign_with(operator, x.ty, y),
        None => assign(x, y),
    }
}

/// The operator of a compound assignment.
pub fn binary_operator(operator: AssignmentOperator) -> Option<BinaryOperator>
    ensures { result ≡ operator_of operator }
{
    match operator {
        AssignmentOperator::Equal => None,
        AssignmentOperator::PlusEqual => Some(BinaryOperator::Addition),
        AssignmentOperator::MinusEqual => Some(BinaryOperator::Subtraction),
        AssignmentOperator::TimesEqual => Some(BinaryOperator::Multiplication),
        AssignmentOperator::DivisionEqual => Some(BinaryOperator::Division),
        AssignmentOperator::ModuloEqual => Some(BinaryOperator::Remainder),
        AssignmentOperator::AndEqual => Some(BinaryOperator::BitwiseAnd),
        AssignmentOperator::OrEqual => Some(BinaryOperator::BitwiseOr),
        AssignmentOperator::XorEqual => Some(BinaryOperator::BitwiseXor),
        AssignmentOperator::ShiftRightAssign => Some(BinaryOperator::ShiftRight),
        AssignmentOperator::ShiftLeftAssign => Some(BinaryOperator::ShiftLeft),
    }
}

fn assign_with<'a>(
    operator: BinaryOperator,
    x: OperandType<'a>,
    y: &Operand<'a>,
) -> Result<&'a Type, Refusal<'a>>
    ensures { IsAssignedBy operator (given_type x.entry) (given y.now)
        (answer_view (λ t. view t.now) result) }
{
    match x {
        OperandType::Value(_, _) => Err(Refusal::NotReference(UnbuiltType::of(x))),
        OperandType::Any(ty) => match ty.form() {
            Form::Reference(_, stored, AccessMode::ReadWrite) => assign_result(operator, stored, y),
            Form::Reference(_, _, _) => Err(Refusal::NotReadWrite),
            _ => Err(Refusal::NotReference(UnbuiltType::of_type(ty))),
        },
    }
}

fn assign_result<'a>(
    operator: BinaryOperator,
    stored: &'a Type,
    y: &Operand<'a>,
) -> Result<&'a Type, Refusal<'a>>
    ensures { IsCompound operator (view stored.now) (given y.now)
        (answer_view (λ t. view t.now) result) }
{
    let value = Operand::of(stored, has_abstract_type(stored));
    compound(operator, stored, y.ty, result_by(operator, value, *y))
}

/// The result of an operator, which is a scalar, a vector or a matrix; None if no overload takes the operands.
#[tactic(auto, using(crate::proofs::NamedTables::binary_unambiguous))]
fn result_by(
    operator: BinaryOperator,
    lhs: Operand<'_>,
    rhs: Operand<'_>,
) -> Option<(Dimensions, Scalar)>
    ensures { IsStandardAnswer (binary_there operator)
        (operand_view lhs.entry ∷ operand_view rhs.entry ∷ [])
        (option_map (λ v. Some (type_with v.0 v.1)) result) }
{
    let overloads = binary_overloads(operator);
    match resolve(overloads, &[lhs, rhs]) {
        Some(choice) => result_value(&choice.substitution, &overloads[choice.index]),
        None => None,
    }
}

/// The dimensions and the components of the result, if it is a scalar, a vector or a matrix.
fn result_value(substitution: &Substitution, overload: &Overload) -> Option<(Dimensions, Scalar)>
    ensures { result ≡ value_there substitution.now overload.now }
{
    match result_of(overload) {
        Returns::Gives(Pattern::Value(shape, component)) => {
            let dimensions = dimensions_in(substitution, *shape);
            Some((dimensions, component_in(substitution, *component)))
        }
        _ => None,
    }
}

/// The type of what is written, if the result of the operator has it.
fn compound<'a>(
    operator: BinaryOperator,
    stored: &'a Type,
    y: OperandType<'a>,
    found: Option<(Dimensions, Scalar)>,
) -> Result<&'a Type, Refusal<'a>>
    ensures { answer_view (λ t. view t.now) result
        ≡ compound_there operator (view stored.now) (given_type y.entry)
        (option_map (λ v. Some (type_with v.0 v.1)) found) }
{
    match found {
        Some((dimensions, scalar)) => {
            let value = OperandType::Value(dimensions, scalar);
            if is_type(dimensions, scalar, stored) {
                Ok(stored)
            } else {
                Err(Refusal::WriteRefType(UnbuiltType::of(value), UnbuiltType::of_type(stored)))
            }
        }
        None => Err(Refusal::Binary(
            operator,
            UnbuiltType::of_type(stored),
            UnbuiltType::of(loaded_or_given(y)),
        )),
    }
}

/// The type of an operand once it is loaded, or its own type if it can't be loaded.
fn loaded_or_given(ty: OperandType<'_>) -> OperandType<'_>
    ensures { given_type result
        ≡ result_unwrap_or (loaded (given_type ty.entry)) (given_type ty.entry) }
{
    match load_type(ty) {
        Ok(loaded) => loaded,
        Err(_) => ty,
    }
}

/// Whether a type is the scalar, the vector or the matrix.
#[tactic(auto, using(wgsl_core::specs::Equality::type_eq_decides))]
fn is_type(dimensions: Dimensions, scalar: Scalar, ty: &Type) -> bool
    ensures { result ≡ type_eq (type_with dimensions scalar) (view ty.now) }
{
    has_parts(dimensions, scalar, ty)
}

fn has_parts(dimensions: Dimensions, scalar: Scalar, ty: &Type) -> bool
    ensures { IsTrue result ↔ (type_with dimensions scalar ≡ view ty.now) }
{
    match dimensions {
        Dimensions::Single => has_scalar(scalar, ty),
        Dimensions::Vector(n) => has_layer(Layer::Vec(n), scalar, ty),
        Dimensions::Matrix(c, r) => has_layer(Layer::Mat(c, r), scalar, ty),
    }
}
