// Indexes into vectors, matrices and arrays.
ghost use Rattle.std.specs.Prelude.{◌≡◌, ◌||◌, cond, not, option_map};
ghost use Rattle.wgsl_standard.specs.forms.Prelude.{mat, scalar as scalar_type, type_with, view, given_type};
ghost use Rattle.wgsl_standard.specs.forms.Concrete.{concrete_of, has_abstract_type as abstract_type};
ghost use Rattle.wgsl_standard.specs.forms.Index.{element_in, element_of as element_there, element_referent, index_answer, indexed_by, is_index as index_type, is_vector as vector_type};
ghost use Rattle.wgsl_standard.specs.forms.Expressions.{is_const_expression as const_expression};
ghost use Rattle.wgsl_standard.specs.forms.Load.{loaded};
ghost use Rattle.wgsl_standard.specs.forms.Views.{answer_view, element_view, form_view, given, unbuilt_view};

use crate::forms::form::Form;
use crate::forms::prelude::*;
use wgsl_core::ty::form::Form as TypeForm;

/// What `x[index]` is (WGSL, "Vector Access", "Matrix Access" and "Array Access"): a component, a column or an element; a
/// reference to it in memory. An abstract value is made concrete first, unless the index is a const-expression.
/// `NotIndexable` of another type, then what the index's load refuses, and `NotInteger`.
#[inline(always)]
#[tactic(auto, using(crate::proofs::Elements::stays_abstract))]
pub fn type_of_index<'a>(x: &Operand<'a>, index: &Operand<'a>) -> Result<Form<'a>, Refusal<'a>>
    ensures { answer_view form_view result ≡ index_answer (given x.now) (given index.now) }
{
    let is_abstract = has_abstract_operand_type(x.ty);
    let whole = behind(x.ty);
    match element_of(whole.ty, is_indexed_as_given(is_abstract, index)) {
        Some(element) => indexed_by(x, index, is_abstract, element),
        None => Err(Refusal::NotIndexable(UnbuiltType::of(whole.ty))),
    }
}

/// Whether the type that is indexed stays: it isn't abstract, or the index is a const-expression.
#[inline(always)]
fn is_indexed_as_given(is_abstract: bool, index: &Operand<'_>) -> bool
    ensures { result ≡ (not is_abstract || const_expression (given index.now)) }
{
    !is_abstract || is_const_expression(index)
}

/// The element of that type, if the index is an integer.
#[inline(always)]
fn indexed_by<'a>(
    x: &Operand<'a>,
    index: &Operand<'a>,
    is_abstract: bool,
    element: UnbuiltType<'a>,
) -> Result<Form<'a>, Refusal<'a>>
    requires { is_abstract ≡ abstract_type (given_type x.now.ty) }
    ensures { answer_view form_view result
        ≡ indexed_by (given x.now) (given index.now) (unbuilt_view element.entry) (loaded (given_type index.now.ty)) }
{
    match load_type(index.ty) {
        Ok(found) => {
            if is_index(found) {
                Ok(element_in(x, index, is_abstract, element))
            } else {
                Err(Refusal::NotInteger(UnbuiltType::of(found)))
            }
        }
        Err(refusal) => Err(refusal),
    }
}

#[inline(always)]
#[tactic(auto, using(crate::proofs::References::refers, crate::proofs::References::refers_to))]
fn element_in<'a>(
    x: &Operand<'a>,
    index: &Operand<'a>,
    is_abstract: bool,
    element: UnbuiltType<'a>,
) -> Form<'a>
    requires { is_abstract ≡ abstract_type (given_type x.now.ty) }
    ensures { form_view result
        ≡ element_in (given x.now) (given index.now) (unbuilt_view element.entry) }
{
    let whole = behind(x.ty);
    Form {
        ty: FormType {
            memory: reference_to(whole.memory, element_referent(whole.ty)),
            of: element,
        },
        is_constant: (x.is_constant || is_abstract)
            && whole.memory.is_none()
            && is_const_expression(index),
    }
}

/// What a reference to an element refers to.
fn element_referent(ty: OperandType<'_>) -> Referent
    ensures { result ≡ element_referent (given_type ty.entry) }
{
    if is_vector(ty) {
        Referent::Component
    } else {
        Referent::Whole
    }
}

/// The type of the elements, made concrete unless `stays`.
#[inline(always)]
fn element_of(ty: OperandType<'_>, stays: bool) -> Option<UnbuiltType<'_>>
    ensures { option_map unbuilt_view result
        ≡ element_there (cond stays (given_type ty.entry) (concrete_of (given_type ty.entry))) }
{
    match ty {
        OperandType::Value(dimensions, scalar) => {
            if stays {
                element_of_value(dimensions, scalar)
            } else {
                element_of_value(dimensions, concrete_component(dimensions, scalar))
            }
        }
        OperandType::Any(of) => element_of_type(of, stays),
    }
}

/// The elements of a vector or a matrix of scalars.
fn element_of_value<'a>(dimensions: Dimensions, scalar: Scalar) -> Option<UnbuiltType<'a>>
    ensures { option_map unbuilt_view result ≡ element_there (type_with dimensions scalar) }
{
    match dimensions {
        Dimensions::Single => None,
        Dimensions::Vector(_) => {
            Some(UnbuiltType::single(Element::Value(Dimensions::Single, scalar)))
        }
        Dimensions::Matrix(_, rows) => {
            Some(UnbuiltType::single(Element::Value(Dimensions::Vector(rows), scalar)))
        }
    }
}

#[inline(always)]
#[tactic(auto, using(crate::proofs::Elements::none_stays))]
fn element_of_type(ty: &Type, stays: bool) -> Option<UnbuiltType<'_>>
    ensures { option_map unbuilt_view result
        ≡ element_there (cond stays (view ty.now) (concrete_of (view ty.now))) }
{
    match ty.form() {
        TypeForm::Vector(_, of) | TypeForm::Array(_, of) => {
            Some(UnbuiltType::single(as_it_stays(of, stays)))
        }
        TypeForm::Matrix(c, rows, of) => Some(column(c, rows, of, stays)),
        TypeForm::BindingArray(_, of) => Some(UnbuiltType::of_type(of)),
        TypeForm::Scalar(_) => None,
        TypeForm::Struct(_) => None,
        TypeForm::Atomic(_) => None,
        TypeForm::Pointer(_, _, _) => None,
        TypeForm::Reference(_, _, _) => None,
        TypeForm::Texture(_) => None,
        TypeForm::Sampler(_) => None,
        TypeForm::RayQuery(_) => None,
        TypeForm::AccelerationStructure(_) => None,
    }
}

/// The type, made concrete unless `stays`.
fn as_it_stays(ty: &Type, stays: bool) -> Element<'_>
    ensures { element_view result ≡ cond stays (view ty.now) (concrete_of (view ty.now)) }
{
    if stays {
        Element::Any(ty)
    } else {
        Element::Concrete(ty)
    }
}

/// A column of a matrix.
fn column(columns: u8, rows: u8, of: &Type, stays: bool) -> UnbuiltType<'_>
    ensures { Some (unbuilt_view result)
        ≡ element_there (cond stays (mat columns rows (view of.now)) (concrete_of (mat columns rows (view of.now)))) }
{
    let element = if !stays && has_abstract_type(of) {
        Element::Value(Dimensions::Single, Scalar::F32)
    } else {
        Element::Any(of)
    };
    UnbuiltType::within(Layer::Vec(rows), element)
}

fn is_vector(ty: OperandType<'_>) -> bool
    ensures { result ≡ vector_type (given_type ty.entry) }
{
    match ty {
        OperandType::Value(Dimensions::Vector(_), _) => true,
        OperandType::Value(_, _) => false,
        OperandType::Any(ty) => ty.is_vec(),
    }
}

/// Whether it is `i32`, `u32` or the abstract integer.
pub(crate) fn is_index(ty: OperandType<'_>) -> bool
    ensures { result ≡ index_type (given_type ty.entry) }
{
    match ty {
        OperandType::Value(Dimensions::Single, scalar) => is_index_scalar(scalar),
        OperandType::Value(_, _) => false,
        OperandType::Any(ty) => match ty.scalar() {
            Some(scalar) => is_index_scalar(scalar),
            None => false,
        },
    }
}

fn is_index_scalar(scalar: Scalar) -> bool
    ensures { result ≡ index_type (scalar_type scalar) }
{
    matches!(scalar, Scalar::AbstractInt | Scalar::I32 | Scalar::U32)
}
