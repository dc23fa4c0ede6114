// Constructors of vectors.
ghost use Rattle.std.specs.Prelude.{◌≡◌, ◌↔◌, All, Err, IfOk, IsTrue, None, Ok, map, option_map};
ghost use Rattle.wgsl_syntax.specs.declared.scalar.Scalar.{Scalar};
ghost use Rattle.wgsl_syntax.specs.declared.scalar.Scalar.TheVariants.{AbstractInt};
ghost use Rattle.wgsl_rules.specs.types.Types.{scalar, vec};
ghost use Rattle.wgsl_rules.specs.types.Kinds.{IsScalarOrVector};
ghost use Rattle.wgsl_rules.specs.conversion.Common.{IsLeftCommon};
ghost use Rattle.wgsl_rules.specs.types.Inner.{inner_of};
ghost use Rattle.wgsl_rules.specs.constructors.Vectors.{BringsComponents, components, all_components, no_components, IsTypedVectorOfOne, IsTypedVector, IsUntypedVectorOfOne, IsUntypedVector, IsVectorCall};
ghost use Rattle.wgsl_core.specs.View.{view};
ghost use Rattle.wgsl_core.specs.Instances.{parameter_view};
ghost use Rattle.wgsl_core.specs.Answer.{AnswersBy, refusal};

use crate::call::shape::is_scalar_or_vector;
use crate::constructor::{refuse_conversion, refuse_conversion_to, refuse_count};
use crate::template::VecTemplate;
use std::alloc::{AllocError, Global};
use wgsl_core::conversion::convert_ty;
use wgsl_core::error::{Error, Fail};
use wgsl_core::signature::TpltParam;
use wgsl_core::ty::Type;
use wgsl_core::ty::clone::boxed_copy;
use wgsl_core::ty::form::Form;
use wgsl_syntax::scalar::Scalar;

pub fn vector_type(
    alloc: Global,
    n: u8,
    name: &str,
    tplt: Option<&[TpltParam]>,
    args: &[Type],
) -> Result<Type, Fail<Error>>
    ensures { AnswersBy (IsVectorCall name.now n
        (option_map (λ ps. map parameter_view ps.now) tplt.entry) (map view args.now)) result }
{
    match tplt {
        Some(tplt) => {
            let template = VecTemplate::parse(alloc, tplt)?;
            let made = typed_vector(alloc, n, name, args, template.inner_ty());
            drop(template);
            made
        }
        None => untyped_vector(alloc, n, name, args),
    }
}

fn typed_vector(
    alloc: Global,
    n: u8,
    name: &str,
    args: &[Type],
    ty: &Type,
) -> Result<Type, Fail<Error>>
    ensures { AnswersBy (IsTypedVector name.now n (map view args.now) (view ty.now)) result }
{
    match args {
        [] => Ok(vector_of(alloc, n, ty)?),
        [arg] => typed_vector_of_one(alloc, n, arg, ty),
        _ => {
            if !all_bring_components(args, ty) {
                return Err(Fail::Error(refuse_components()));
            }
            if !component_count_is(args, n) {
                return Err(Fail::Error(refuse_count(alloc, name, n as usize, args.len())?));
            }
            Ok(vector_of(alloc, n, ty)?)
        }
    }
}

fn typed_vector_of_one(alloc: Global, n: u8, arg: &Type, ty: &Type) -> Result<Type, Fail<Error>>
    ensures { AnswersBy (IsTypedVectorOfOne n (view arg.now) (view ty.now)) result }
{
    match arg.form() {
        Form::Scalar(_) => {
            if arg.is_convertible_to(ty) {
                Ok(vector_of(alloc, n, ty)?)
            } else {
                Err(Fail::Error(refuse_conversion(alloc, arg, ty)?))
            }
        }
        Form::Vector(m, _) => {
            if m == n {
                Ok(vector_of(alloc, n, ty)?)
            } else {
                Err(Fail::Error(refuse_conversion_to(alloc, arg, vector_of(alloc, n, ty)?)?))
            }
        }
        _ => Err(Fail::Error(refuse_conversion(alloc, arg, ty)?)),
    }
}

fn untyped_vector(alloc: Global, n: u8, name: &str, args: &[Type]) -> Result<Type, Fail<Error>>
    ensures { AnswersBy (IsUntypedVector name.now n (map view args.now)) result }
{
    match args {
        [] => Ok(abstract_vector(alloc, n)?),
        [arg] => untyped_vector_of_one(alloc, n, arg),
        _ => {
            if !all_scalars_or_vectors(args) {
                return Err(Fail::Error(refuse_components()));
            }
            if !component_count_is(args, n) {
                return Err(Fail::Error(refuse_count(alloc, name, n as usize, args.len())?));
            }
            match common_component(args) {
                Some(common) => Ok(vector_of(alloc, n, common)?),
                None => Err(Fail::Error(Error::Builtin("vector components are incompatible"))),
            }
        }
    }
}

fn untyped_vector_of_one(alloc: Global, n: u8, arg: &Type) -> Result<Type, Fail<Error>>
    ensures { AnswersBy (IsUntypedVectorOfOne n (view arg.now)) result }
{
    match arg.form() {
        Form::Scalar(_) => Ok(vector_of(alloc, n, arg)?),
        Form::Vector(m, component) => {
            if m == n {
                Ok(vector_of(alloc, n, component)?)
            } else {
                Err(Fail::Error(refuse_conversion_to(alloc, arg, vector_of(alloc, n, component)?)?))
            }
        }
        _ => Err(Fail::Error(refuse_components())),
    }
}

fn all_bring_components(args: &[Type], ty: &Type) -> bool
    ensures { IsTrue result ↔ All (BringsComponents (view ty.now)) (map view args.now) }
{
    for arg in args {
        if !brings_components(arg, ty) {
            return false;
        }
    }
    true
}

fn brings_components(arg: &Type, ty: &Type) -> bool
    ensures { IsTrue result ↔ BringsComponents (view ty.now) (view arg.now) }
{
    match arg.form() {
        Form::Scalar(_) => arg.is_convertible_to(ty),
        Form::Vector(_, component) => component.is_convertible_to(ty),
        _ => false,
    }
}

fn all_scalars_or_vectors(args: &[Type]) -> bool
    ensures { IsTrue result ↔ All IsScalarOrVector (map view args.now) }
{
    for arg in args {
        if !is_scalar_or_vector(arg) {
            return false;
        }
    }
    true
}

/// Whether the arguments have that many components in total.
fn component_count_is(args: &[Type], n: u8) -> bool
    ensures { IsTrue result ↔ (all_components (map view args.now) ≡ n) }
{
    let mut wanted = n;
    for arg in args {
        match wanted.checked_sub(components_of(arg)) {
            Some(left) => wanted = left,
            None => return false,
        }
    }
    wanted == 0
}

fn components_of(arg: &Type) -> u8
    ensures { result ≡ components (view arg.now) }
{
    match arg.form() {
        Form::Scalar(_) => 1,
        Form::Vector(n, _) => n,
        _ => 0,
    }
}

/// The common type of the types inside the arguments.
fn common_component(args: &[Type]) -> Option<&Type>
    ensures { IsLeftCommon (map inner_of (map view args.now))
        (option_map (λ t. view t.now) result) }
{
    let (first, rest) = args.split_first()?;
    let mut common = first.inner();
    for arg in rest {
        common = convert_ty(common, arg.inner())?;
    }
    Some(common)
}

fn vector_of(alloc: Global, n: u8, component: &Type) -> Result<Type, AllocError>
    ensures { IfOk result (λ t. view t ≡ vec n (view component.now)) }
{
    Ok(Type::Vec(n, boxed_copy(alloc, component)?))
}

fn abstract_vector(alloc: Global, n: u8) -> Result<Type, AllocError>
    ensures { IfOk result (λ t. view t ≡ vec n (scalar AbstractInt)) }
{
    Ok(Type::Vec(n, Box::new(alloc, Type::AbstractInt)?))
}

fn refuse_components() -> Error
    ensures { refusal result ≡ no_components }
{
    Error::Builtin("vector constructor expects scalar or vector arguments")
}
