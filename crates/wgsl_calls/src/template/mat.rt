// The template of a matrix.
ghost use Rattle.std.specs.Prelude.{◌≡◌, IfOk, map};
ghost use Rattle.wgsl_rules.specs.types.Types.{mat};
ghost use Rattle.wgsl_rules.specs.templates.Templates.{IsMatTemplate};
ghost use Rattle.wgsl_core.specs.View.{view};
ghost use Rattle.wgsl_core.specs.Instances.{parameter_view};
ghost use Rattle.wgsl_core.specs.Answer.{AnswersAs};
ghost use Rattle.wgsl_calls.specs.Templates.{mat_view};

use std::alloc::{AllocError, Global};
use wgsl_core::conversion::typed::Ty;
use wgsl_core::error::{Error, Fail};
use wgsl_core::signature::TpltParam;
use wgsl_core::ty::Type;
use wgsl_core::ty::clone::boxed_copy;

/// The template of a matrix (WGSL, "Matrix Types"): the type of its components.
#[derive(Drop)]
pub struct MatTemplate {
    ty: Type,
}

impl MatTemplate {
    /// Reads one type, else `TemplateArgs`. `Builtin` if it isn't a float.
    pub fn parse(alloc: Global, tplt: &[TpltParam]) -> Result<MatTemplate, Fail<Error>>
        ensures { AnswersAs mat_view (IsMatTemplate (map parameter_view tplt.now)) result }
    {
        match tplt {
            [TpltParam::Ty(ty)] => {
                if ty.is_float() {
                    Ok(MatTemplate {
                        ty: ty.clone(alloc)?,
                    })
                } else {
                    Err(Fail::Error(Error::Builtin("matrix template type must be f32 or f16")))
                }
            }
            _ => Err(Fail::Error(Error::TemplateArgs("matrix"))),
        }
    }

    /// The matrix with `c` columns and `r` rows.
    pub fn ty(&self, alloc: Global, c: u8, r: u8) -> Result<Type, AllocError>
        ensures { IfOk result (λ t. view t ≡ mat c r (mat_view self.now)) }
    {
        Ok(Type::Mat(c, r, boxed_copy(alloc, &self.ty)?))
    }

    /// The type of the components.
    pub fn inner_ty(&self) -> &Type
        ensures { view result.now ≡ mat_view self.now }
    {
        &self.ty
    }
}
