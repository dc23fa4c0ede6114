// Whether types of operands convert to others.
ghost use Rattle.std.specs.Prelude.{◌≡◌, ◌↔◌, IsTrue, None};
ghost use Rattle.wgsl_standard.specs.forms.Prelude.{scalar as scalar_type, within, ConvertsTo, type_with, view, given_type};
ghost use Rattle.wgsl_core.specs.Forms.{layer_of};
ghost use Rattle.wgsl_standard.specs.forms.Convert.{converts as converts_there};

use crate::forms::prelude::*;
use wgsl_core::conversion::scalar_rank;

/// Whether the type of an operand converts to a type (WGSL, "Conversion Rank").
#[inline(always)]
#[tactic(auto, using(crate::specs::forms::Convert::converts_decides))]
pub fn converts(from: OperandType<'_>, to: &Type) -> bool
    ensures { result ≡ converts_there (given_type from.entry) (view to.now) }
{
    is_convertible(from, to)
}

#[inline(always)]
fn is_convertible(from: OperandType<'_>, to: &Type) -> bool
    ensures { IsTrue result ↔ ConvertsTo (given_type from.entry) (view to.now) }
{
    match from {
        OperandType::Value(dimensions, scalar) => value_converts(dimensions, scalar, to),
        OperandType::Any(ty) => ty.is_convertible_to(to),
    }
}

#[inline(always)]
fn value_converts(dimensions: Dimensions, scalar: Scalar, to: &Type) -> bool
    ensures { IsTrue result ↔ ConvertsTo (type_with dimensions scalar) (view to.now) }
{
    match dimensions {
        Dimensions::Single => scalar_converts(scalar, to),
        Dimensions::Vector(n) => layer_converts(Layer::Vec(n), scalar, to),
        Dimensions::Matrix(c, r) => layer_converts(Layer::Mat(c, r), scalar, to),
    }
}

#[tactic(auto, using(crate::proofs::Layers::to_scalar))]
fn scalar_converts(scalar: Scalar, to: &Type) -> bool
    ensures { IsTrue result ↔ ConvertsTo (scalar_type scalar) (view to.now) }
{
    match to.scalar() {
        Some(target) => scalars_convert(scalar, target),
        None => false,
    }
}

fn scalars_convert(source: Scalar, target: Scalar) -> bool
    ensures { IsTrue result ↔ ConvertsTo (scalar_type source) (scalar_type target) }
{
    scalar_rank(source, target).is_some()
}

fn layer_converts(layer: Layer, scalar: Scalar, to: &Type) -> bool
    ensures { IsTrue result ↔ ConvertsTo (within layer (scalar_type scalar)) (view to.now) }
{
    match to.layer() {
        Some((found, element)) => found.is(layer) && scalar_converts(scalar, element),
        None => false,
    }
}

/// Whether the type of an operand converts to that of another.
pub(crate) fn converts_to(from: OperandType<'_>, to: OperandType<'_>) -> bool
    ensures { IsTrue result ↔ ConvertsTo (given_type from.entry) (given_type to.entry) }
{
    match to {
        OperandType::Value(dimensions, scalar) => converts_to_value(from, dimensions, scalar),
        OperandType::Any(ty) => is_convertible(from, ty),
    }
}

fn converts_to_value(from: OperandType<'_>, dimensions: Dimensions, scalar: Scalar) -> bool
    ensures { IsTrue result ↔ ConvertsTo (given_type from.entry) (type_with dimensions scalar) }
{
    match dimensions {
        Dimensions::Single => converts_to_scalar(from, scalar),
        Dimensions::Vector(n) => converts_to_layer(from, Layer::Vec(n), scalar),
        Dimensions::Matrix(c, r) => converts_to_layer(from, Layer::Mat(c, r), scalar),
    }
}

fn converts_to_scalar(from: OperandType<'_>, scalar: Scalar) -> bool
    ensures { IsTrue result ↔ ConvertsTo (given_type from.entry) (scalar_type scalar) }
{
    is_convertible(from, &Type::from(scalar))
}

fn converts_to_layer(from: OperandType<'_>, layer: Layer, scalar: Scalar) -> bool
    ensures { IsTrue result
        ↔ ConvertsTo (given_type from.entry) (within layer (scalar_type scalar)) }
{
    match from {
        OperandType::Value(dimensions, source) => {
            value_converts_to_layer(dimensions, source, layer, scalar)
        }
        OperandType::Any(ty) => type_converts_to_layer(ty, layer, scalar),
    }
}

fn value_converts_to_layer(
    dimensions: Dimensions,
    source: Scalar,
    layer: Layer,
    target: Scalar,
) -> bool
    ensures { IsTrue result
        ↔ ConvertsTo (type_with dimensions source) (within layer (scalar_type target)) }
{
    match dimensions {
        Dimensions::Single => false,
        Dimensions::Vector(n) => layers_convert(Layer::Vec(n), source, layer, target),
        Dimensions::Matrix(c, r) => layers_convert(Layer::Mat(c, r), source, layer, target),
    }
}

fn layers_convert(from: Layer, source: Scalar, to: Layer, target: Scalar) -> bool
    ensures { IsTrue result
        ↔ ConvertsTo (within from (scalar_type source)) (within to (scalar_type target)) }
{
    to.is(from) && scalars_convert(source, target)
}

fn type_converts_to_layer(ty: &Type, layer: Layer, scalar: Scalar) -> bool
    ensures { IsTrue result ↔ ConvertsTo (view ty.now) (within layer (scalar_type scalar)) }
{
    match ty.layer() {
        Some((found, element)) => {
            found.is(layer) && converts_to_scalar(OperandType::Any(element), scalar)
        }
        None => loads_layer(ty, layer, scalar),
    }
}

fn loads_layer(ty: &Type, layer: Layer, scalar: Scalar) -> bool
    requires { layer_of (view ty.now) ≡ None }
    ensures { IsTrue result ↔ ConvertsTo (view ty.now) (within layer (scalar_type scalar)) }
{
    match ty.form() {
        Form::Reference(_, target, access) => access.is_read() && has_layer(layer, scalar, target),
        _ => false,
    }
}

/// Whether a type is the vector or the matrix of that scalar.
pub(crate) fn has_layer(layer: Layer, scalar: Scalar, ty: &Type) -> bool
    ensures { IsTrue result ↔ (within layer (scalar_type scalar) ≡ view ty.now) }
{
    match ty.layer() {
        Some((found, element)) => found.is(layer) && has_scalar(scalar, element),
        None => false,
    }
}

/// Whether a type is the scalar.
pub(crate) fn has_scalar(scalar: Scalar, ty: &Type) -> bool
    ensures { IsTrue result ↔ (scalar_type scalar ≡ view ty.now) }
{
    match ty.form() {
        Form::Scalar(found) => found == scalar,
        _ => false,
    }
}
