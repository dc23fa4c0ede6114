// The types of parameters and results, for what the letters stand for.
ghost use Rattle.std.specs.Prelude.{◌≡◌, IfOk, option_map};
ghost use Rattle.wgsl_core.specs.View.{view};
ghost use Rattle.wgsl_rules.specs.standard.Resources.{precision_of as precision_there};
ghost use Rattle.wgsl_rules.specs.standard.Overloads.{type_with, type_in as type_there, pointee_of, in_order, count_in as count_there, dimensions_in as dimensions_there, component_in as component_there};
ghost use Rattle.wgsl_rules.specs.standard.Choice.{value_of, parameter_for as parameter_there, parameters_for, result_for as result_there};
ghost use Rattle.wgsl_standard.specs.Operands.{given_type, operand_view, operands_view};
ghost use Rattle.wgsl_standard.specs.internal.Binding.{first_pattern as first_there};
ghost use Rattle.wgsl_standard.specs.Results.{result_view};

use crate::operand::{Operand, OperandType, loaded};
use crate::overload::{parameters_of, result_of};
use crate::written::pattern_at;
use std::alloc::{AllocError, Global};
use wgsl_core::operators::resolve::ResolvedType;
use wgsl_core::ty::Type;
use wgsl_core::ty::result_type::{exchange_result, result_struct};
use wgsl_syntax::overload::{
    Component, Count, Dimensions, Overload, Parameters, Pattern, Returns, Shape, Substitution,
};
use wgsl_syntax::result_struct::{ResultPrecision, ResultStruct};
use wgsl_syntax::scalar::Scalar;

/// The type of a parameter or a result.
#[derive(Drop)]
pub enum ResultType {
    /// A scalar, or a vector or a matrix of scalars, which isn't built.
    Value(Dimensions, Scalar),
    Built(Type),
}

/// Builds a result.
#[inline(always)]
pub fn built(alloc: Global, found: Option<ResultType>) -> Result<Option<Type>, AllocError>
    ensures { IfOk result (λ t. option_map view t ≡ option_map result_view found) }
{
    match found {
        Some(ty) => Ok(Some(build(alloc, ty)?)),
        None => Ok(None),
    }
}

#[inline(always)]
fn build(alloc: Global, ty: ResultType) -> Result<Type, AllocError>
    ensures { IfOk result (λ t. view t ≡ result_view ty) }
{
    match ty {
        ResultType::Value(dimensions, scalar) => value_type(alloc, dimensions, scalar),
        ResultType::Built(ty) => Ok(ty),
    }
}

/// Builds a scalar, or a vector or a matrix of scalars.
#[inline(always)]
pub fn value_type(alloc: Global, dimensions: Dimensions, scalar: Scalar) -> Result<Type, AllocError>
    ensures { IfOk result (λ t. view t ≡ type_with dimensions scalar) }
{
    match dimensions {
        Dimensions::Single => Ok(Type::from(scalar)),
        _ => type_around(alloc, dimensions, scalar),
    }
}

/// `value_type` for any dimensions.
#[inline(never)]
fn type_around(alloc: Global, dimensions: Dimensions, scalar: Scalar) -> Result<Type, AllocError>
    ensures { IfOk result (λ t. view t ≡ type_with dimensions scalar) }
{
    ResolvedType::of_scalar(dimensions, scalar).build(alloc)
}

/// The result of a call that an overload takes, for what the letters stand for; None if there is no value.
#[inline(always)]
pub fn result_type(
    alloc: Global,
    substitution: &Substitution,
    overload: &Overload,
    operands: &[Operand<'_>],
) -> Result<Option<ResultType>, AllocError>
    ensures { IfOk result (λ r. option_map result_view r ≡ result_there substitution.now overload.now (operands_view operands.now)) }
{
    match result_of(overload) {
        Returns::Gives(Pattern::Value(shape, component)) => {
            Ok(Some(value_in(substitution, *shape, *component)))
        }
        _ => other_result(alloc, substitution, overload, operands),
    }
}

/// `result_type` for a result of any form.
#[inline(never)]
fn other_result(
    alloc: Global,
    substitution: &Substitution,
    overload: &Overload,
    operands: &[Operand<'_>],
) -> Result<Option<ResultType>, AllocError>
    ensures { IfOk result (λ r. option_map result_view r ≡ result_there substitution.now overload.now (operands_view operands.now)) }
{
    match result_of(overload) {
        Returns::NoValue => Ok(None),
        Returns::Gives(pattern) => Ok(type_in(substitution, *pattern)),
        Returns::GivesStruct(function, shape) => {
            let precision = precision_of(substitution.t);
            let of = ResultStruct {
                function: *function,
                shape: *shape,
                precision,
            };
            Ok(Some(ResultType::Built(result_struct(alloc, of)?)))
        }
        Returns::GivesExchange => {
            let exchanged = exchange_result(alloc, &Type::from(substitution.t))?;
            Ok(Some(ResultType::Built(exchanged)))
        }
        Returns::GivesPointee => pointee(alloc, substitution, parameters_of(overload), operands),
    }
}

fn precision_of(scalar: Scalar) -> ResultPrecision
    ensures { result ≡ precision_there scalar }
{
    match scalar {
        Scalar::F32 => ResultPrecision::F32,
        Scalar::F16 => ResultPrecision::F16,
        _ => ResultPrecision::Abstract,
    }
}

/// The type to which the first parameter points.
fn pointee(
    alloc: Global,
    substitution: &Substitution,
    parameters: &Parameters,
    operands: &[Operand<'_>],
) -> Result<Option<ResultType>, AllocError>
    ensures { IfOk result (λ r. option_map result_view r
        ≡ pointee_of (parameters_for substitution.now (in_order parameters.now) (operands_view operands.now))) }
{
    match first_pattern(parameters) {
        Some(pattern) => match operands.first() {
            Some(operand) => {
                let parameter = parameter_for(alloc, substitution, pattern, operand)?;
                let inner = parameter.inner().clone(alloc)?;
                Ok(Some(ResultType::Built(inner)))
            }
            None => Ok(None),
        },
        None => Ok(None),
    }
}

#[tactic(auto, using(crate::proofs::Listed::first_at))]
fn first_pattern(parameters: &Parameters) -> Option<Pattern>
    ensures { result ≡ first_there (in_order parameters.now) }
{
    pattern_at(parameters, 0)
}

/// The type of a parameter for its operand.
pub fn parameter_for(
    alloc: Global,
    substitution: &Substitution,
    pattern: Pattern,
    operand: &Operand<'_>,
) -> Result<Type, AllocError>
    ensures { IfOk result (λ t. view t ≡ parameter_there substitution.now pattern (operand_view operand.now).of_type) }
{
    match pattern {
        Pattern::Value(shape, component) => build(alloc, value_in(substitution, shape, component)),
        Pattern::Sampler(sampler) => Ok(Type::Sampler(sampler)),
        Pattern::Texture(texture) => Ok(Type::Texture(texture)),
        Pattern::Resource(_) => loaded_type(alloc, operand.ty),
    }
}

/// The type of an operand, once it is loaded.
fn loaded_type(alloc: Global, ty: OperandType<'_>) -> Result<Type, AllocError>
    ensures { IfOk result (λ t. view t ≡ value_of (given_type ty.entry)) }
{
    match ty {
        OperandType::Value(dimensions, scalar) => value_type(alloc, dimensions, scalar),
        OperandType::Any(ty) => loaded(ty).clone(alloc),
    }
}

/// The type of a result, if the letters say what it is.
fn type_in(substitution: &Substitution, pattern: Pattern) -> Option<ResultType>
    ensures { option_map result_view result ≡ type_there substitution.now pattern }
{
    match pattern {
        Pattern::Value(shape, component) => Some(value_in(substitution, shape, component)),
        Pattern::Sampler(sampler) => Some(ResultType::Built(Type::Sampler(sampler))),
        Pattern::Texture(texture) => Some(ResultType::Built(Type::Texture(texture))),
        Pattern::Resource(_) => None,
    }
}

#[inline(always)]
fn value_in(substitution: &Substitution, shape: Shape, component: Component) -> ResultType
    ensures { result_view result
        ≡ type_with (dimensions_there substitution.now shape) (component_there substitution.now component) }
{
    ResultType::Value(
        dimensions_in(substitution, shape),
        component_in(substitution, component),
    )
}

/// The dimensions of a shape, for what the letters stand for.
#[inline(always)]
pub fn dimensions_in(substitution: &Substitution, shape: Shape) -> Dimensions
    ensures { result ≡ dimensions_there substitution.now shape }
{
    match shape {
        Shape::One => Dimensions::Single,
        Shape::Vector(n) => Dimensions::Vector(count_in(substitution, n)),
        Shape::Matrix(c, r) => Dimensions::Matrix(
            count_in(substitution, c),
            count_in(substitution, r),
        ),
        Shape::OneOrVector => match substitution.width {
            None => Dimensions::Single,
            Some(n) => Dimensions::Vector(n),
        },
    }
}

#[inline(always)]
fn count_in(substitution: &Substitution, count: Count) -> u8
    ensures { result ≡ count_there substitution.now count }
{
    match count {
        Count::N => substitution.n,
        Count::M => substitution.m,
        Count::K => substitution.k,
        Count::Exactly(n) => n,
    }
}

/// The scalar that a component is, for what the letters stand for.
#[inline(always)]
pub fn component_in(substitution: &Substitution, component: Component) -> Scalar
    ensures { result ≡ component_there substitution.now component }
{
    match component {
        Component::T => substitution.t,
        Component::U => substitution.u,
        Component::V => substitution.v,
        Component::W => substitution.w,
        Component::The(scalar) => scalar,
    }
}
