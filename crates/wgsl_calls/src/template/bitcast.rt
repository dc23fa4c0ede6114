// The template of `bitcast`.
ghost use Rattle.std.specs.Prelude.{◌≡◌, ◌↔◌, IfOk, IsTrue, map};
ghost use Rattle.wgsl_rules.specs.types.Kinds.{IsNumericOrVector};
ghost use Rattle.wgsl_rules.specs.types.Inner.{inner_of};
ghost use Rattle.wgsl_rules.specs.templates.Templates.{IsBitcastTemplate};
ghost use Rattle.wgsl_core.specs.View.{view};
ghost use Rattle.wgsl_core.specs.Instances.{parameter_view};
ghost use Rattle.wgsl_core.specs.Answer.{AnswersAs};
ghost use Rattle.wgsl_calls.specs.Templates.{bitcast_view};

use std::alloc::{AllocError, Global};
use wgsl_core::conversion::typed::Ty;
use wgsl_core::error::{Error, Fail};
use wgsl_core::signature::TpltParam;
use wgsl_core::ty::Type;
use wgsl_core::ty::form::Form;

/// The template of `bitcast` (WGSL, "Bit Reinterpretation Built-in Functions"): the type of the result.
#[derive(Drop)]
pub struct BitcastTemplate {
    ty: Type,
}

impl BitcastTemplate {
    /// Reads one type, else `TemplateArgs`. `Builtin` if it is neither a number nor a vector of numbers.
    pub fn parse(alloc: Global, tplt: &[TpltParam]) -> Result<BitcastTemplate, Fail<Error>>
        ensures { AnswersAs bitcast_view (IsBitcastTemplate (map parameter_view tplt.now)) result }
    {
        match tplt {
            [TpltParam::Ty(ty)] => {
                if is_numeric_or_vector(ty) {
                    Ok(BitcastTemplate {
                        ty: ty.clone(alloc)?,
                    })
                } else {
                    Err(Fail::Error(Error::Builtin(
                        "bitcast template type must be a numeric scalar or numeric vector",
                    )))
                }
            }
            _ => Err(Fail::Error(Error::TemplateArgs("bitcast"))),
        }
    }

    /// The type of the result.
    pub fn ty(&self) -> &Type
        ensures { view result.now ≡ bitcast_view self.now }
    {
        &self.ty
    }

    /// The type of the vector's components, or the number itself.
    pub fn inner_ty(&self, alloc: Global) -> Result<Type, AllocError>
        ensures { IfOk result (λ t. view t ≡ inner_of (bitcast_view self.now)) }
    {
        self.ty.inner_ty(alloc)
    }
}

fn is_numeric_or_vector(ty: &Type) -> bool
    ensures { IsTrue result ↔ IsNumericOrVector (view ty.now) }
{
    match ty.form() {
        Form::Scalar(_) => ty.is_numeric(),
        Form::Vector(_, component) => component.is_numeric(),
        _ => false,
    }
}
