// Constructors of matrices.
ghost use Rattle.std.specs.Prelude.{◌≡◌, ◌↔◌, Err, IfOk, IsTrue, None, Ok, Some, map, option_map};
ghost use Rattle.wgsl_syntax.specs.declared.scalar.Scalar.{Scalar};
ghost use Rattle.wgsl_rules.specs.types.Types.{WgslType, mat};
ghost use Rattle.wgsl_rules.specs.conversion.Converted.{IsConvertedInside};
ghost use Rattle.wgsl_rules.specs.constructors.Vectors.{components};
ghost use Rattle.wgsl_rules.specs.constructors.Matrices.{no_columns, IsMatrixOf, IsTypedMatrixOf, IsTypedMatrixOfOne, IsTypedMatrix, IsUntypedMatrixOf, IsUntypedMatrixOfOne, IsUntypedMatrix, IsMatrixCall};
ghost use Rattle.wgsl_core.specs.View.{view};
ghost use Rattle.wgsl_core.specs.Instances.{parameter_view};
ghost use Rattle.wgsl_core.specs.Answer.{AnswersBy, refusal};

use crate::constructor::{refuse_conversion, refuse_conversion_to, refuse_count};
use crate::template::MatTemplate;
use std::alloc::{AllocError, Global};
use wgsl_core::conversion::lists::common_of;
use wgsl_core::error::{Error, Fail};
use wgsl_core::signature::TpltParam;
use wgsl_core::ty::Type;
use wgsl_core::ty::clone::boxed_copy;
use wgsl_core::ty::form::Form;
use wgsl_syntax::scalar::Scalar;

pub fn matrix_type(
    alloc: Global,
    c: u8,
    r: u8,
    name: &str,
    tplt: Option<&[TpltParam]>,
    args: &[Type],
) -> Result<Type, Fail<Error>>
    ensures { AnswersBy (IsMatrixCall name.now c r
        (option_map (λ ps. map parameter_view ps.now) tplt.entry) (map view args.now)) result }
{
    match tplt {
        Some(tplt) => {
            let template = MatTemplate::parse(alloc, tplt)?;
            let made = typed_matrix(alloc, c, r, name, args, template.inner_ty());
            drop(template);
            made
        }
        None => untyped_matrix(alloc, c, r, name, args),
    }
}

fn typed_matrix(
    alloc: Global,
    c: u8,
    r: u8,
    name: &str,
    args: &[Type],
    ty: &Type,
) -> Result<Type, Fail<Error>>
    ensures { AnswersBy (IsTypedMatrix name.now c r (map view args.now) (view ty.now)) result }
{
    match args {
        [] => Ok(matrix_of(alloc, c, r, ty)?),
        [arg] => typed_matrix_of_one(alloc, c, r, name, arg, ty),
        _ => match common_of(args) {
            Some(common) => typed_matrix_of_common(alloc, c, r, name, args.len(), ty, common),
            None => Err(Fail::Error(Error::Builtin("matrix components are incompatible"))),
        },
    }
}

fn typed_matrix_of_one(
    alloc: Global,
    c: u8,
    r: u8,
    name: &str,
    arg: &Type,
    ty: &Type,
) -> Result<Type, Fail<Error>>
    ensures { AnswersBy (IsTypedMatrixOfOne name.now c r (view arg.now) (view ty.now)) result }
{
    match arg.form() {
        Form::Matrix(d, s, _) => {
            if d == c && s == r {
                Ok(matrix_of(alloc, c, r, ty)?)
            } else {
                Err(Fail::Error(refuse_conversion_to(alloc, arg, matrix_of(alloc, c, r, ty)?)?))
            }
        }
        _ => typed_matrix_of_common(alloc, c, r, name, 1, ty, arg),
    }
}

fn typed_matrix_of_common(
    alloc: Global,
    c: u8,
    r: u8,
    name: &str,
    number: usize,
    ty: &Type,
    common: &Type,
) -> Result<Type, Fail<Error>>
    ensures { AnswersBy (IsTypedMatrixOf name.now c r number (view ty.now) (view common.now))
        result }
{
    if !converts_inside(common, ty) {
        return Err(Fail::Error(refuse_conversion(alloc, common.inner(), ty)?));
    }
    match common.layer() {
        Some(_) => matrix_out_of(alloc, c, r, name, number, ty, common),
        None => matrix_out_of(alloc, c, r, name, number, ty, ty),
    }
}

fn converts_inside(from: &Type, to: &Type) -> bool
    ensures { IsTrue result
        ↔ (t : WgslType) × IsConvertedInside (view from.now) (view to.now) (Some t) }
{
    match from.layer() {
        Some((_, element)) => element.is_convertible_to(to),
        None => from.is_convertible_to(to),
    }
}

fn untyped_matrix(
    alloc: Global,
    c: u8,
    r: u8,
    name: &str,
    args: &[Type],
) -> Result<Type, Fail<Error>>
    ensures { AnswersBy (IsUntypedMatrix name.now c r (map view args.now)) result }
{
    match args {
        [] => Err(Fail::Error(Error::Builtin("matrix components are incompatible"))),
        [arg] => untyped_matrix_of_one(alloc, c, r, name, arg),
        _ => match common_of(args) {
            Some(common) => untyped_matrix_of_common(alloc, c, r, name, args.len(), common),
            None => Err(Fail::Error(Error::Builtin("matrix components are incompatible"))),
        },
    }
}

fn untyped_matrix_of_one(
    alloc: Global,
    c: u8,
    r: u8,
    name: &str,
    arg: &Type,
) -> Result<Type, Fail<Error>>
    ensures { AnswersBy (IsUntypedMatrixOfOne name.now c r (view arg.now)) result }
{
    match arg.form() {
        Form::Matrix(d, s, component) => {
            if d == c && s == r {
                Ok(matrix_of(alloc, c, r, component)?)
            } else {
                Err(Fail::Error(refuse_conversion_to(
                    alloc,
                    arg,
                    matrix_of(alloc, c, r, component)?,
                )?))
            }
        }
        _ => untyped_matrix_of_common(alloc, c, r, name, 1, arg),
    }
}

fn untyped_matrix_of_common(
    alloc: Global,
    c: u8,
    r: u8,
    name: &str,
    number: usize,
    common: &Type,
) -> Result<Type, Fail<Error>>
    ensures { AnswersBy (IsUntypedMatrixOf name.now c r number (view common.now)) result }
{
    let inner = common.inner();
    if inner.is_abstract_int() {
        return matrix_out_of(alloc, c, r, name, number, &Type::F32, common);
    }
    if !inner.is_float() {
        return Err(Fail::Error(refuse_columns()));
    }
    matrix_out_of(alloc, c, r, name, number, inner, common)
}

/// The matrix of a component type, from arguments that are all columns, or all components.
fn matrix_out_of(
    alloc: Global,
    c: u8,
    r: u8,
    name: &str,
    number: usize,
    ty: &Type,
    part: &Type,
) -> Result<Type, Fail<Error>>
    ensures { AnswersBy (IsMatrixOf name.now c r number (view ty.now) (view part.now)) result }
{
    let wanted = match part.form() {
        Form::Vector(_, _) => c as usize,
        Form::Scalar(_) => c as usize * r as usize,
        _ => return Err(Fail::Error(refuse_columns())),
    };
    if wanted == number {
        Ok(matrix_of(alloc, c, r, ty)?)
    } else {
        Err(Fail::Error(refuse_count(alloc, name, wanted, number)?))
    }
}

fn matrix_of(alloc: Global, c: u8, r: u8, component: &Type) -> Result<Type, AllocError>
    ensures { IfOk result (λ t. view t ≡ mat c r (view component.now)) }
{
    Ok(Type::Mat(c, r, boxed_copy(alloc, component)?))
}

fn refuse_columns() -> Error
    ensures { refusal result ≡ no_columns }
{
    Error::Builtin("matrix constructor expects float or vector of float arguments")
}
