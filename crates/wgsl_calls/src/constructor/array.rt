// Constructors of arrays.
ghost use Rattle.std.specs.Prelude.{Err, None, Ok, map, option_map};
ghost use Rattle.wgsl_rules.specs.templates.Templates.{array_template};
ghost use Rattle.wgsl_rules.specs.constructors.Steps.{Then};
ghost use Rattle.wgsl_rules.specs.constructors.Constructors.{IsTypedArray, IsArrayCall};
ghost use Rattle.wgsl_core.specs.View.{view};
ghost use Rattle.wgsl_core.specs.Instances.{parameter_view};
ghost use Rattle.wgsl_core.specs.Answer.{AnswersAs, AnswersBy};
ghost use Rattle.wgsl_calls.specs.internal.Constructors.{AllConverted};
ghost use Rattle.wgsl_calls.specs.Templates.{array_view};

use crate::constructor::{first_stuck, refuse_conversion};
use crate::template::ArrayTemplate;
use std::alloc::Global;
use wgsl_core::conversion::lists::common_of;
use wgsl_core::error::{Error, Fail};
use wgsl_core::signature::TpltParam;
use wgsl_core::ty::Type;
use wgsl_core::ty::clone::boxed_copy;

pub fn array_type(
    alloc: Global,
    tplt: Option<&[TpltParam]>,
    args: &[Type],
) -> Result<Type, Fail<Error>>
    ensures { AnswersBy (IsArrayCall (option_map (λ ps. map parameter_view ps.now) tplt.entry)
        (map view args.now)) result }
{
    match tplt {
        Some(tplt) => typed_array(alloc, tplt, args),
        None => untyped_array(alloc, args),
    }
}

fn typed_array(alloc: Global, tplt: &[TpltParam], args: &[Type]) -> Result<Type, Fail<Error>>
    ensures { AnswersBy (Then (array_template (map parameter_view tplt.now))
        (IsTypedArray (map view args.now))) result }
{
    let template = ArrayTemplate::parse(alloc, tplt)?;
    let made = array_of(alloc, &template, args);
    drop(template);
    made
}

fn array_of(alloc: Global, template: &ArrayTemplate, args: &[Type]) -> Result<Type, Fail<Error>>
    ensures { AnswersBy (IsTypedArray (map view args.now) (array_view template.now)) result }
{
    check_elements(alloc, template, args)?;
    Ok(template.ty(alloc)?)
}

fn check_elements(alloc: Global, template: &ArrayTemplate, args: &[Type]) -> Result<(), Fail<Error>>
    ensures { AnswersAs (λ u. array_view template.now)
        (IsTypedArray (map view args.now) (array_view template.now)) result }
{
    match args {
        [] => Ok(()),
        _ => match template.n() {
            Some(_) => {
                let element = template.inner_ty(alloc)?;
                check_conversions(alloc, args, &element)
            }
            None => Err(Fail::Error(Error::TemplateArgs("array"))),
        },
    }
}

fn check_conversions(alloc: Global, args: &[Type], ty: &Type) -> Result<(), Fail<Error>>
    ensures { AnswersAs (λ u. u) (AllConverted (view ty.now) (map view args.now)) result }
{
    match first_stuck(args, ty) {
        Some(stuck) => Err(Fail::Error(refuse_conversion(alloc, stuck, ty)?)),
        None => Ok(()),
    }
}

fn untyped_array(alloc: Global, args: &[Type]) -> Result<Type, Fail<Error>>
    ensures { AnswersBy (IsArrayCall None (map view args.now)) result }
{
    match common_of(args) {
        Some(common) => Ok(Type::Array(boxed_copy(alloc, common)?, Some(args.len()))),
        None => Err(Fail::Error(Error::Builtin("array elements are incompatible"))),
    }
}
