// The result types of operators, and the candidates chosen for them.
ghost use Rattle.std.specs.Prelude.{◌≡◌, ◌↔◌, ◌⊎◌, [], ◌∷◌, Ok, Err, IsTrue, IsFalse, IfOk, IsOk};
ghost use Rattle.wgsl_syntax.specs.declared.scalar.Scalar.TheVariants.{Bool};
ghost use Rattle.wgsl_syntax.specs.declared.operator.UnaryOperator.TheVariants.{LogicalNegation, Negation, BitwiseComplement, AddressOf, Indirection};
ghost use Rattle.wgsl_syntax.specs.declared.operator.BinaryOperator.TheVariants.{ShortCircuitOr, ShortCircuitAnd, Addition, Subtraction, Multiplication, Division, Remainder, Equality, Inequality, LessThan, LessThanEqual, GreaterThan, GreaterThanEqual, BitwiseOr, BitwiseAnd, BitwiseXor, ShiftLeft, ShiftRight};
ghost use Rattle.wgsl_rules.specs.types.Types.{WgslType, scalar};
ghost use Rattle.wgsl_rules.specs.types.Kinds.{IsScalar, IsVector, IsLeaf, IsInHandleSpace};
ghost use Rattle.wgsl_rules.specs.errors.Refusals.{binary, unary};
ghost use Rattle.wgsl_rules.specs.conversion.Conversion.{IsValueType};
ghost use Rattle.wgsl_rules.specs.operators.Candidates.{operator as of_operator};
ghost use Rattle.wgsl_rules.specs.Laws.{OneChoice};
ghost use Rattle.wgsl_rules.specs.operators.UnaryRows.{IsUnaryRow};
ghost use Rattle.wgsl_rules.specs.operators.Answers.{IsCandidateAnswer, IsChosenCandidate, IsUnaryAnswer};
ghost use Rattle.wgsl_core.specs.View.{view};
ghost use Rattle.wgsl_core.specs.Resolution.{candidate_view};
ghost use Rattle.wgsl_core.specs.internal.Resolution.{resolution_view, IsLeafCandidate};
ghost use Rattle.wgsl_core.specs.Answer.{AnswersAs, AnswersBy, IsAnswered, IsTypeOfBinary, refusal};

pub mod resolve;

use crate::error::{Error, Fail};
use crate::operators::resolve::{Resolution, resolve_operator};
use crate::ty::Type;
use crate::ty::clone::boxed_copy;
use crate::ty::form::Form;
use std::alloc::{AllocError, Global};
use wgsl_syntax::address::AddressSpace;
use wgsl_syntax::operator::{BinaryOperator, UnaryOperator};

/// The candidate of a binary operator that is chosen for two operands (WGSL, "Overload Resolution"): the types to which
/// they convert, and the type of the result.
#[derive(Debug, Drop)]
pub struct Candidate {
    /// The type to which the left operand converts.
    pub lhs: Type,
    /// The type to which the right operand converts.
    pub rhs: Type,
    /// The type of the result.
    pub result: Type,
}

impl Type {
    /// The type of `!self` (WGSL, "Logical Expressions"): `self` if it is `bool` or a vector, else `Unary` with it.
    pub fn op_not(&self, alloc: Global) -> Result<Type, Fail<Error>>
        ensures row { AnswersBy (IsUnaryAnswer LogicalNegation (view self.now)) result }
        ensures never_out_of_memory_on_scalars { IsScalar (view self.now) → IsAnswered result }
    {
        type_unary_op(alloc, UnaryOperator::LogicalNegation, self)
    }

    /// The type of `self || rhs` (WGSL, "Logical Expressions"), or `Binary` with both operands.
    pub fn op_or(&self, alloc: Global, rhs: &Type) -> Result<Type, Fail<Error>>
        ensures { IsTypeOfBinary ShortCircuitOr (view self.now) (view rhs.now) result }
    {
        type_binary_op(alloc, BinaryOperator::ShortCircuitOr, self, rhs)
    }

    /// The type of `self && rhs` (WGSL, "Logical Expressions"), or `Binary` with both operands.
    pub fn op_and(&self, alloc: Global, rhs: &Type) -> Result<Type, Fail<Error>>
        ensures { IsTypeOfBinary ShortCircuitAnd (view self.now) (view rhs.now) result }
    {
        type_binary_op(alloc, BinaryOperator::ShortCircuitAnd, self, rhs)
    }

    /// The type of `-self` (WGSL, "Arithmetic Expressions"): `self` if it is a scalar, else `Unary` with it.
    pub fn op_neg(&self, alloc: Global) -> Result<Type, Fail<Error>>
        ensures row { AnswersBy (IsUnaryAnswer Negation (view self.now)) result }
        ensures never_out_of_memory_on_scalars { IsScalar (view self.now) → IsAnswered result }
    {
        type_unary_op(alloc, UnaryOperator::Negation, self)
    }

    /// The type of `self + rhs` (WGSL, "Arithmetic Expressions"), or `Binary` with both operands.
    pub fn op_add(&self, alloc: Global, rhs: &Type) -> Result<Type, Fail<Error>>
        ensures { IsTypeOfBinary Addition (view self.now) (view rhs.now) result }
    {
        type_binary_op(alloc, BinaryOperator::Addition, self, rhs)
    }

    /// The type of `self - rhs` (WGSL, "Arithmetic Expressions"), or `Binary` with both operands.
    pub fn op_sub(&self, alloc: Global, rhs: &Type) -> Result<Type, Fail<Error>>
        ensures { IsTypeOfBinary Subtraction (view self.now) (view rhs.now) result }
    {
        type_binary_op(alloc, BinaryOperator::Subtraction, self, rhs)
    }

    /// The type of `self * rhs` (WGSL, "Arithmetic Expressions"), or `Binary` with both operands.
    pub fn op_mul(&self, alloc: Global, rhs: &Type) -> Result<Type, Fail<Error>>
        ensures { IsTypeOfBinary Multiplication (view self.now) (view rhs.now) result }
    {
        type_binary_op(alloc, BinaryOperator::Multiplication, self, rhs)
    }

    /// The type of `self / rhs` (WGSL, "Arithmetic Expressions"), or `Binary` with both operands.
    pub fn op_div(&self, alloc: Global, rhs: &Type) -> Result<Type, Fail<Error>>
        ensures { IsTypeOfBinary Division (view self.now) (view rhs.now) result }
    {
        type_binary_op(alloc, BinaryOperator::Division, self, rhs)
    }

    /// The type of `self % rhs` (WGSL, "Arithmetic Expressions"), or `Binary` with both operands.
    pub fn op_rem(&self, alloc: Global, rhs: &Type) -> Result<Type, Fail<Error>>
        ensures { IsTypeOfBinary Remainder (view self.now) (view rhs.now) result }
    {
        type_binary_op(alloc, BinaryOperator::Remainder, self, rhs)
    }

    /// The type of `self == rhs` (WGSL, "Comparison Expressions"), or `Binary` with both operands.
    pub fn op_eq(&self, alloc: Global, rhs: &Type) -> Result<Type, Fail<Error>>
        ensures { IsTypeOfBinary Equality (view self.now) (view rhs.now) result }
    {
        type_binary_op(alloc, BinaryOperator::Equality, self, rhs)
    }

    /// The type of `self != rhs` (WGSL, "Comparison Expressions"), or `Binary` with both operands.
    pub fn op_ne(&self, alloc: Global, rhs: &Type) -> Result<Type, Fail<Error>>
        ensures { IsTypeOfBinary Inequality (view self.now) (view rhs.now) result }
    {
        type_binary_op(alloc, BinaryOperator::Inequality, self, rhs)
    }

    /// The type of `self < rhs` (WGSL, "Comparison Expressions"), or `Binary` with both operands.
    pub fn op_lt(&self, alloc: Global, rhs: &Type) -> Result<Type, Fail<Error>>
        ensures { IsTypeOfBinary LessThan (view self.now) (view rhs.now) result }
    {
        type_binary_op(alloc, BinaryOperator::LessThan, self, rhs)
    }

    /// The type of `self <= rhs` (WGSL, "Comparison Expressions"), or `Binary` with both operands.
    pub fn op_le(&self, alloc: Global, rhs: &Type) -> Result<Type, Fail<Error>>
        ensures { IsTypeOfBinary LessThanEqual (view self.now) (view rhs.now) result }
    {
        type_binary_op(alloc, BinaryOperator::LessThanEqual, self, rhs)
    }

    /// The type of `self > rhs` (WGSL, "Comparison Expressions"), or `Binary` with both operands.
    pub fn op_gt(&self, alloc: Global, rhs: &Type) -> Result<Type, Fail<Error>>
        ensures { IsTypeOfBinary GreaterThan (view self.now) (view rhs.now) result }
    {
        type_binary_op(alloc, BinaryOperator::GreaterThan, self, rhs)
    }

    /// The type of `self >= rhs` (WGSL, "Comparison Expressions"), or `Binary` with both operands.
    pub fn op_ge(&self, alloc: Global, rhs: &Type) -> Result<Type, Fail<Error>>
        ensures { IsTypeOfBinary GreaterThanEqual (view self.now) (view rhs.now) result }
    {
        type_binary_op(alloc, BinaryOperator::GreaterThanEqual, self, rhs)
    }

    /// The type of `~self` (WGSL, "Bit Expressions"): `self` if it is an integer or a vector of integers, else `Unary`
    /// with it.
    pub fn op_bitnot(&self, alloc: Global) -> Result<Type, Fail<Error>>
        ensures row { AnswersBy (IsUnaryAnswer BitwiseComplement (view self.now)) result }
        ensures never_out_of_memory_on_scalars { IsScalar (view self.now) → IsAnswered result }
    {
        type_unary_op(alloc, UnaryOperator::BitwiseComplement, self)
    }

    /// The type of `self | rhs` (WGSL, "Bit Expressions"), or `Binary` with both operands.
    pub fn op_bitor(&self, alloc: Global, rhs: &Type) -> Result<Type, Fail<Error>>
        ensures { IsTypeOfBinary BitwiseOr (view self.now) (view rhs.now) result }
    {
        type_binary_op(alloc, BinaryOperator::BitwiseOr, self, rhs)
    }

    /// The type of `self & rhs` (WGSL, "Bit Expressions"), or `Binary` with both operands.
    pub fn op_bitand(&self, alloc: Global, rhs: &Type) -> Result<Type, Fail<Error>>
        ensures { IsTypeOfBinary BitwiseAnd (view self.now) (view rhs.now) result }
    {
        type_binary_op(alloc, BinaryOperator::BitwiseAnd, self, rhs)
    }

    /// The type of `self ^ rhs` (WGSL, "Bit Expressions"), or `Binary` with both operands.
    pub fn op_bitxor(&self, alloc: Global, rhs: &Type) -> Result<Type, Fail<Error>>
        ensures { IsTypeOfBinary BitwiseXor (view self.now) (view rhs.now) result }
    {
        type_binary_op(alloc, BinaryOperator::BitwiseXor, self, rhs)
    }

    /// The type of `self << rhs` (WGSL, "Bit Expressions"), or `Binary` with both operands.
    pub fn op_shl(&self, alloc: Global, rhs: &Type) -> Result<Type, Fail<Error>>
        ensures { IsTypeOfBinary ShiftLeft (view self.now) (view rhs.now) result }
    {
        type_binary_op(alloc, BinaryOperator::ShiftLeft, self, rhs)
    }

    /// The type of `self >> rhs` (WGSL, "Bit Expressions"), or `Binary` with both operands.
    pub fn op_shr(&self, alloc: Global, rhs: &Type) -> Result<Type, Fail<Error>>
        ensures { IsTypeOfBinary ShiftRight (view self.now) (view rhs.now) result }
    {
        type_binary_op(alloc, BinaryOperator::ShiftRight, self, rhs)
    }

    /// The type of `&self` (WGSL, "Address-Of Expression"): the pointer for a reference. `PtrHandle` for a reference in
    /// the handle space, `Unary` with the type for any other type.
    pub fn op_ref(&self, alloc: Global) -> Result<Type, Fail<Error>>
        ensures row { AnswersBy (IsUnaryAnswer AddressOf (view self.now)) result }
        ensures deref_gives_back { IfOk result (λ p. (t : WgslType)
            → IsUnaryRow Indirection (view p) t ↔ (t ≡ view self.now)) }
        ensures never_out_of_memory_on_scalars { IsScalar (view self.now) → IsAnswered result }
        ensures never_out_of_memory_on_handles { IsInHandleSpace (view self.now)
            → IsAnswered result }
    {
        type_unary_op(alloc, UnaryOperator::AddressOf, self)
    }

    /// The type of `*self` (WGSL, "Indirection Expression"): the reference for a pointer, else `Unary` with the type.
    pub fn op_deref(&self, alloc: Global) -> Result<Type, Fail<Error>>
        ensures row { AnswersBy (IsUnaryAnswer Indirection (view self.now)) result }
        ensures never_out_of_memory_on_scalars { IsScalar (view self.now) → IsAnswered result }
    {
        type_unary_op(alloc, UnaryOperator::Indirection, self)
    }
}

/// The candidate chosen for two operands (WGSL, "Overload Resolution"), or `Binary` with the operator and both
/// operands.
#[tactic(auto, using(wgsl_rules::proofs::Laws::one_choice_of_two))]
pub fn binary_candidate(
    alloc: Global,
    operator: BinaryOperator,
    lhs: &Type,
    rhs: &Type,
) -> Result<Candidate, Fail<Error>>
    ensures row { AnswersAs candidate_view
        (IsCandidateAnswer operator (view lhs.now) (view rhs.now)) result }
    ensures least { AnswersAs candidate_view
        (IsChosenCandidate operator (view lhs.now) (view rhs.now)) result }
    ensures one_choice { IsValueType (view lhs.now) → IsValueType (view rhs.now)
        → OneChoice (of_operator operator) (view lhs.now ∷ view rhs.now ∷ []) }
    ensures never_out_of_memory_on_scalars { IsScalar (view lhs.now) → IsScalar (view rhs.now)
        → IsAnswered result }
{
    match resolve_operator(operator, lhs, rhs) {
        Some(found) => Ok(build_candidate(alloc, found)?),
        None => Err(Fail::Error(refuse_binary(alloc, operator, lhs, rhs)?)),
    }
}

fn build_candidate(alloc: Global, found: Resolution) -> Result<Candidate, AllocError>
    ensures same { IfOk result (λ c. candidate_view c ≡ resolution_view found.entry) }
    ensures never_out_of_memory { IsLeafCandidate (resolution_view found.entry) → IsOk result }
{
    Ok(Candidate {
        lhs: found.lhs.build(alloc)?,
        rhs: found.rhs.build(alloc)?,
        result: found.result.build(alloc)?,
    })
}

/// The type of a binary expression (WGSL, "Expressions"), or `Binary` with the operator and both operands.
#[tactic(auto, using(wgsl_rules::proofs::Laws::one_choice_of_two))]
pub fn type_binary_op(
    alloc: Global,
    operator: BinaryOperator,
    lhs: &Type,
    rhs: &Type,
) -> Result<Type, Fail<Error>>
    ensures answer { IsTypeOfBinary operator (view lhs.now) (view rhs.now) result }
    ensures one_choice { IsValueType (view lhs.now) → IsValueType (view rhs.now)
        → OneChoice (of_operator operator) (view lhs.now ∷ view rhs.now ∷ []) }
{
    match resolve_operator(operator, lhs, rhs) {
        Some(found) => Ok(found.result.build(alloc)?),
        None => Err(Fail::Error(refuse_binary(alloc, operator, lhs, rhs)?)),
    }
}

#[inline(always)]
fn refuse_binary(
    alloc: Global,
    operator: BinaryOperator,
    lhs: &Type,
    rhs: &Type,
) -> Result<Error, AllocError>
    ensures names { IfOk result (λ e. refusal e ≡ binary operator (view lhs.now) (view rhs.now)) }
    ensures never_out_of_memory { IsLeaf (view lhs.now) → IsLeaf (view rhs.now) → IsOk result }
{
    let lhs = lhs.clone(alloc)?;
    let rhs = rhs.clone(alloc)?;
    Ok(Error::Binary(operator, lhs, rhs))
}

/// The type of a unary expression (WGSL, "Expressions"). `PtrHandle` for `&` of a reference in the handle space,
/// `Unary` with the operator and the operand for any other operand that the operator doesn't take.
pub fn type_unary_op(
    alloc: Global,
    operator: UnaryOperator,
    operand: &Type,
) -> Result<Type, Fail<Error>>
    ensures row { AnswersBy (IsUnaryAnswer operator (view operand.now)) result }
    ensures never_out_of_memory_on_scalars { IsScalar (view operand.now) → IsAnswered result }
    ensures never_out_of_memory_on_handles { operator ≡ AddressOf
        → IsInHandleSpace (view operand.now) → IsAnswered result }
{
    match operator {
        UnaryOperator::LogicalNegation => logical_negation(alloc, operand),
        UnaryOperator::Negation => negation(alloc, operand),
        UnaryOperator::BitwiseComplement => complement(alloc, operand),
        UnaryOperator::AddressOf => address_of(alloc, operand),
        UnaryOperator::Indirection => indirection(alloc, operand),
    }
}

/// `!`: the operand's own type if it is `bool` or a vector.
fn logical_negation(alloc: Global, operand: &Type) -> Result<Type, Fail<Error>>
    ensures row { AnswersBy (IsUnaryAnswer LogicalNegation (view operand.now)) result }
    ensures never_out_of_memory { IsLeaf (view operand.now) → IsAnswered result }
{
    own_if(
        alloc,
        UnaryOperator::LogicalNegation,
        operand,
        is_bool_or_vector(operand),
    )
}

/// `-`: the operand's own type if it is a scalar.
fn negation(alloc: Global, operand: &Type) -> Result<Type, Fail<Error>>
    ensures row { AnswersBy (IsUnaryAnswer Negation (view operand.now)) result }
    ensures never_out_of_memory { IsLeaf (view operand.now) → IsAnswered result }
{
    own_if(alloc, UnaryOperator::Negation, operand, operand.is_scalar())
}

/// `~`: the operand's own type if it is an integer or a vector of integers.
fn complement(alloc: Global, operand: &Type) -> Result<Type, Fail<Error>>
    ensures row { AnswersBy (IsUnaryAnswer BitwiseComplement (view operand.now)) result }
    ensures never_out_of_memory { IsLeaf (view operand.now) → IsAnswered result }
{
    own_if(
        alloc,
        UnaryOperator::BitwiseComplement,
        operand,
        operand.is_integer_or_vector(),
    )
}

/// `&`: the pointer for a reference that isn't in the handle space.
fn address_of(alloc: Global, operand: &Type) -> Result<Type, Fail<Error>>
    ensures row { AnswersBy (IsUnaryAnswer AddressOf (view operand.now)) result }
    ensures never_out_of_memory { IsLeaf (view operand.now) → IsAnswered result }
    ensures never_out_of_memory_on_handles { IsInHandleSpace (view operand.now)
        → IsAnswered result }
{
    match operand.form() {
        Form::Reference(space, ty, access) => match space {
            AddressSpace::Handle => Err(Fail::Error(Error::PtrHandle)),
            _ => Ok(Type::Ptr(space, boxed_copy(alloc, ty)?, access)),
        },
        _ => Err(Fail::Error(refuse_unary(alloc, UnaryOperator::AddressOf, operand)?)),
    }
}

/// `*`: the reference for a pointer.
fn indirection(alloc: Global, operand: &Type) -> Result<Type, Fail<Error>>
    ensures row { AnswersBy (IsUnaryAnswer Indirection (view operand.now)) result }
    ensures never_out_of_memory { IsLeaf (view operand.now) → IsAnswered result }
{
    match operand.form() {
        Form::Pointer(space, ty, access) => Ok(Type::Ref(space, boxed_copy(alloc, ty)?, access)),
        _ => Err(Fail::Error(refuse_unary(alloc, UnaryOperator::Indirection, operand)?)),
    }
}

fn is_bool_or_vector(ty: &Type) -> bool
    ensures { IsTrue result ↔ (view ty.now ≡ scalar Bool) ⊎ IsVector (view ty.now) }
{
    ty.is_bool() || ty.is_vec()
}

/// The type itself if `holds`, else the refusal of the operator.
fn own_if(
    alloc: Global,
    operator: UnaryOperator,
    ty: &Type,
    holds: bool,
) -> Result<Type, Fail<Error>>
    ensures own { IsTrue holds → AnswersBy (λ r. r ≡ Ok (view ty.now)) result }
    ensures refused { IsFalse holds
        → AnswersBy (λ r. r ≡ Err (unary operator (view ty.now))) result }
    ensures never_out_of_memory { IsLeaf (view ty.now) → IsAnswered result }
{
    if holds {
        Ok(ty.clone(alloc)?)
    } else {
        Err(Fail::Error(refuse_unary(alloc, operator, ty)?))
    }
}

fn refuse_unary(alloc: Global, operator: UnaryOperator, ty: &Type) -> Result<Error, AllocError>
    ensures names { IfOk result (λ e. refusal e ≡ unary operator (view ty.now)) }
    ensures never_out_of_memory { IsLeaf (view ty.now) → IsOk result }
{
    Ok(Error::Unary(operator, ty.clone(alloc)?))
}
