// The template of an atomic type.
ghost use Rattle.std.specs.Prelude.{◌≡◌, ◌↔◌, IfOk, IsTrue, map};
ghost use Rattle.wgsl_rules.specs.types.Types.{atomic};
ghost use Rattle.wgsl_rules.specs.templates.Templates.{IsAtomicScalar, IsAtomicTemplate};
ghost use Rattle.wgsl_core.specs.View.{view};
ghost use Rattle.wgsl_core.specs.Instances.{parameter_view};
ghost use Rattle.wgsl_core.specs.Answer.{AnswersAs};
ghost use Rattle.wgsl_calls.specs.Templates.{atomic_view};

use std::alloc::{AllocError, Global};
use wgsl_core::conversion::typed::Ty;
use wgsl_core::error::{Error, Fail};
use wgsl_core::signature::TpltParam;
use wgsl_core::ty::Type;
use wgsl_core::ty::clone::boxed_copy;

/// The template of an atomic (WGSL, "Atomic Types"): the type inside.
#[derive(Drop)]
pub struct AtomicTemplate {
    /// The type inside.
    pub ty: Type,
}

impl AtomicTemplate {
    /// Reads one type, else `TemplateArgs`. `Builtin` if it is neither `f32` nor a concrete integer.
    pub fn parse(alloc: Global, tplt: &[TpltParam]) -> Result<AtomicTemplate, Fail<Error>>
        ensures { AnswersAs atomic_view (IsAtomicTemplate (map parameter_view tplt.now)) result }
    {
        match tplt {
            [TpltParam::Ty(ty)] => {
                if is_atomic_scalar(ty) {
                    Ok(AtomicTemplate {
                        ty: ty.clone(alloc)?,
                    })
                } else {
                    Err(Fail::Error(Error::Builtin("atomic template type must be an integer")))
                }
            }
            _ => Err(Fail::Error(Error::TemplateArgs("atomic"))),
        }
    }

    /// The atomic.
    pub fn ty(&self, alloc: Global) -> Result<Type, AllocError>
        ensures { IfOk result (λ t. view t ≡ atomic (atomic_view self.now)) }
    {
        Ok(Type::Atomic(boxed_copy(alloc, &self.ty)?))
    }

    /// A copy of the type inside.
    pub fn inner_ty(&self, alloc: Global) -> Result<Type, AllocError>
        ensures { IfOk result (λ t. view t ≡ atomic_view self.now) }
    {
        self.ty.clone(alloc)
    }
}

fn is_atomic_scalar(ty: &Type) -> bool
    ensures { IsTrue result ↔ IsAtomicScalar (view ty.now) }
{
    ty.is_f32() || ty.is_i64() || ty.is_u64() || ty.is_i32() || ty.is_u32()
}
