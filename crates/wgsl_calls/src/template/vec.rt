// The template of a vector.
ghost use Rattle.std.specs.Prelude.{◌≡◌, IfOk, map};
ghost use Rattle.wgsl_rules.specs.types.Types.{vec};
ghost use Rattle.wgsl_rules.specs.templates.Templates.{IsVecTemplate};
ghost use Rattle.wgsl_core.specs.View.{view};
ghost use Rattle.wgsl_core.specs.Instances.{parameter_view};
ghost use Rattle.wgsl_core.specs.Answer.{AnswersAs};
ghost use Rattle.wgsl_calls.specs.Templates.{vec_view};

use std::alloc::{AllocError, Global};
use wgsl_core::conversion::typed::Ty;
use wgsl_core::error::{Error, Fail};
use wgsl_core::signature::TpltParam;
use wgsl_core::ty::Type;
use wgsl_core::ty::clone::boxed_copy;

/// The template of a vector (WGSL, "Vector Types"): the type of its components.
#[derive(Drop)]
pub struct VecTemplate {
    ty: Type,
}

impl VecTemplate {
    /// Reads one type, else `TemplateArgs`. `Builtin` if it isn't a concrete scalar.
    pub fn parse(alloc: Global, tplt: &[TpltParam]) -> Result<VecTemplate, Fail<Error>>
        ensures { AnswersAs vec_view (IsVecTemplate (map parameter_view tplt.now)) result }
    {
        match tplt {
            [TpltParam::Ty(ty)] => {
                if ty.is_scalar() && ty.is_concrete() {
                    Ok(VecTemplate {
                        ty: ty.clone(alloc)?,
                    })
                } else {
                    Err(Fail::Error(Error::Builtin("vector template type must be a scalar")))
                }
            }
            _ => Err(Fail::Error(Error::TemplateArgs("vector"))),
        }
    }

    /// The vector with `n` components.
    pub fn ty(&self, alloc: Global, n: u8) -> Result<Type, AllocError>
        ensures { IfOk result (λ t. view t ≡ vec n (vec_view self.now)) }
    {
        Ok(Type::Vec(n, boxed_copy(alloc, &self.ty)?))
    }

    /// The type of the components.
    pub fn inner_ty(&self) -> &Type
        ensures { view result.now ≡ vec_view self.now }
    {
        &self.ty
    }
}
