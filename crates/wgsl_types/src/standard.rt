//! WGSL's own rules, beside those of wgsl-types. First its overloads: what operators, calls of built-in functions and
//! constructors return by WGSL's overload resolution, what they resolve to, which overloads there are, and why none takes the
//! operands (WGSL, "Overload Resolution"). Then the forms without overloads: members, indexes, loads, `&` and `*`,
//! constructors of arrays and structs, declarations, assignments, lists of values, conditions, returned values. Ray
//! queries have neither.
ghost use Rattle.std.specs.Prelude.{[], ◌∷◌, None, false, option_map, true};
ghost use Rattle.wgsl_core.specs.View.{view};
ghost use Rattle.wgsl_rules.specs.standard.Answers.{IsCallAnswer, IsStandardAnswer};
ghost use Rattle.wgsl_rules.specs.standard.Operators.{binary_overloads, unary_overloads};
ghost use Rattle.wgsl_rules.specs.standard.Names.{function_table, template_function_table, overloads_named};
ghost use Rattle.wgsl_rules.specs.standard.ConstructorNames.{constructor_table, template_constructor_table};
ghost use Rattle.wgsl_standard.specs.Answered.{Answers, AnswersType, IsRefusedAs, refusal_of};
ghost use Rattle.wgsl_standard.specs.Callees.{a_binary, a_constructor, a_function, a_unary, callee_view, overloads_of};
ghost use Rattle.wgsl_standard.specs.Operands.{operand_view, operands_view};
ghost use Rattle.wgsl_standard.specs.Resolved.{resolved_view, IsCallResolution};

use std::alloc::Global;
use wgsl_core::error::Fail;
use wgsl_core::ty::Type;
pub use wgsl_standard::answer::NoOverload;
use wgsl_standard::answer::type_of_call;
pub use wgsl_standard::callee::{Callee, can_be_const_expression, overloads};
pub use wgsl_standard::explanation::{Note, explain};
pub use wgsl_standard::forms::address::{address_of, indirection};
pub use wgsl_standard::forms::array::{construct_array, construct_array_of};
pub use wgsl_standard::forms::assign::{assign, assign_by, binary_operator, increment};
pub use wgsl_standard::forms::concrete::{
    ConcreteType, concrete_scalar, has_abstract_type, made_concrete,
};
pub use wgsl_standard::forms::convert::converts;
pub use wgsl_standard::forms::declare::{
    Declaration, declare, discard, is_const_type, is_let_type, override_without_value,
};
pub use wgsl_standard::forms::expression::is_const_expression;
pub use wgsl_standard::forms::flow::{condition, return_value};
pub use wgsl_standard::forms::form::{Element, Form, FormType, MemoryView, UnbuiltType};
pub use wgsl_standard::forms::index::type_of_index;
pub use wgsl_standard::forms::kinds::{
    has_fixed_footprint, is_constructible, is_handle, is_host_shareable, operand_is_constructible,
};
pub use wgsl_standard::forms::layout::min_layout;
pub use wgsl_standard::forms::lists::{construct_struct, fit};
pub use wgsl_standard::forms::load::{load, load_type};
pub use wgsl_standard::forms::member::type_of_member;
pub use wgsl_standard::forms::refusal::Refusal;
pub use wgsl_standard::forms::switch::switch_type;
pub use wgsl_standard::forms::variable::{holds, initialized_variable, variable};
pub use wgsl_standard::meant::{meant, unknown_name};
pub use wgsl_standard::operand::{Operand, OperandType};
pub use wgsl_standard::refusal::{Mismatch, refused_by};
pub use wgsl_standard::resolved::ResolvedCall;
use wgsl_standard::resolved::resolve_callee;
pub use wgsl_standard::signature::{Signature, signatures};
use wgsl_standard::substitution::built;
use wgsl_syntax::operator::{BinaryOperator, UnaryOperator};
pub use wgsl_syntax::overload::{Dimensions, Overload};

/// The type of a binary expression (WGSL, "Logical Expressions" to "Bit Expressions").
pub fn type_binary_op(
    alloc: Global,
    operator: BinaryOperator,
    lhs: Operand<'_>,
    rhs: Operand<'_>,
) -> Result<Option<Type>, Fail<NoOverload>>
    ensures answer { AnswersType (IsStandardAnswer (binary_overloads operator)
        (operand_view lhs.entry ∷ operand_view rhs.entry ∷ [])) result }
    ensures refusal { IsRefusedAs (refusal_of (a_binary operator)) result }
{
    type_of(alloc, Callee::Binary(operator), None, &[lhs, rhs])
}

/// The type of a unary expression. `&` and `*` have no candidates.
pub fn type_unary_op(
    alloc: Global,
    operator: UnaryOperator,
    operand: Operand<'_>,
) -> Result<Option<Type>, Fail<NoOverload>>
    ensures answer { AnswersType (IsStandardAnswer (unary_overloads operator) (operand_view operand.entry ∷ [])) result }
    ensures refusal { IsRefusedAs (refusal_of (a_unary operator)) result }
{
    type_of(alloc, Callee::Unary(operator), None, &[operand])
}

/// The type of a call of a built-in function, or None if it has no value (WGSL, "Built-in Functions").
pub fn type_builtin_fn(
    alloc: Global,
    name: &str,
    template: Option<&Type>,
    arguments: &[Operand<'_>],
) -> Result<Option<Type>, Fail<NoOverload>>
    ensures answer { AnswersType (IsCallAnswer (overloads_named name.now function_table) (overloads_named name.now template_function_table)
        (option_map (λ t. view t.now) template.entry) (operands_view arguments.now)) result }
    ensures refusal { IsRefusedAs (refusal_of (a_function name.now)) result }
{
    type_of(alloc, Callee::Function(name), template, arguments)
}

/// The type that a constructor makes (WGSL, "Constructor Built-in Functions"). Those of arrays and structs have no
/// overloads.
pub fn type_ctor(
    alloc: Global,
    name: &str,
    template: Option<&Type>,
    arguments: &[Operand<'_>],
) -> Result<Option<Type>, Fail<NoOverload>>
    ensures answer { AnswersType (IsCallAnswer (overloads_named name.now constructor_table) (overloads_named name.now template_constructor_table)
        (option_map (λ t. view t.now) template.entry) (operands_view arguments.now)) result }
    ensures refusal { IsRefusedAs (refusal_of (a_constructor name.now)) result }
{
    type_of(alloc, Callee::Constructor(name), template, arguments)
}

#[inline(always)]
fn type_of(
    alloc: Global,
    callee: Callee<'_>,
    template: Option<&Type>,
    operands: &[Operand<'_>],
) -> Result<Option<Type>, Fail<NoOverload>>
    ensures answer { AnswersType (IsCallAnswer (overloads_of callee.entry false) (overloads_of callee.entry true)
        (option_map (λ t. view t.now) template.entry) (operands_view operands.now)) result }
    ensures refusal { IsRefusedAs (refusal_of (callee_view callee.entry)) result }
{
    let found = type_of_call(alloc, callee, template, operands)?;
    Ok(built(alloc, found)?)
}

/// What a binary expression resolves to.
pub fn resolve_binary_op(
    alloc: Global,
    operator: BinaryOperator,
    lhs: Operand<'_>,
    rhs: Operand<'_>,
) -> Result<ResolvedCall, Fail<NoOverload>>
    ensures answer { Answers resolved_view (IsCallResolution (a_binary operator) None
        (operand_view lhs.entry ∷ operand_view rhs.entry ∷ [])) result }
    ensures refusal { IsRefusedAs (refusal_of (a_binary operator)) result }
{
    resolve_callee(alloc, Callee::Binary(operator), None, &[lhs, rhs])
}

/// What a unary expression resolves to.
pub fn resolve_unary_op(
    alloc: Global,
    operator: UnaryOperator,
    operand: Operand<'_>,
) -> Result<ResolvedCall, Fail<NoOverload>>
    ensures answer { Answers resolved_view (IsCallResolution (a_unary operator) None (operand_view operand.entry ∷ [])) result }
    ensures refusal { IsRefusedAs (refusal_of (a_unary operator)) result }
{
    resolve_callee(alloc, Callee::Unary(operator), None, &[operand])
}

/// What a call of a built-in function resolves to. With a template, its type stands first among the parameters.
pub fn resolve_builtin_fn(
    alloc: Global,
    name: &str,
    template: Option<&Type>,
    arguments: &[Operand<'_>],
) -> Result<ResolvedCall, Fail<NoOverload>>
    ensures answer { Answers resolved_view (IsCallResolution (a_function name.now)
        (option_map (λ t. view t.now) template.entry) (operands_view arguments.now)) result }
    ensures refusal { IsRefusedAs (refusal_of (a_function name.now)) result }
{
    resolve_callee(alloc, Callee::Function(name), template, arguments)
}

/// What a constructor's call resolves to. With a template, its type stands first among the parameters.
pub fn resolve_ctor(
    alloc: Global,
    name: &str,
    template: Option<&Type>,
    arguments: &[Operand<'_>],
) -> Result<ResolvedCall, Fail<NoOverload>>
    ensures answer { Answers resolved_view (IsCallResolution (a_constructor name.now)
        (option_map (λ t. view t.now) template.entry) (operands_view arguments.now)) result }
    ensures refusal { IsRefusedAs (refusal_of (a_constructor name.now)) result }
{
    resolve_callee(alloc, Callee::Constructor(name), template, arguments)
}
