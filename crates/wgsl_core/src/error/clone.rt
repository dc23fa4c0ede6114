// Copies of refusals.
ghost use Rattle.std.specs.Prelude.{◌≡◌, IfOk, IsOk};
ghost use Rattle.wgsl_rules.specs.types.Kinds.{IsLeaf};
ghost use Rattle.wgsl_rules.specs.errors.Refusals.{IsLeafRefusal};
ghost use Rattle.wgsl_core.specs.Answer.{refusal};
ghost use Rattle.wgsl_core.specs.View.{view};

use crate::error::Error;
use crate::ty::Type;
use std::alloc::{AllocError, Global};

impl Error {
    /// Copies the refusal; fails only if out of memory.
    pub fn clone(&self, alloc: Global) -> Result<Error, AllocError>
        ensures same { IfOk result (λ e. refusal e ≡ refusal self.now) }
        ensures never_out_of_memory { IsLeafRefusal (refusal self.now) → IsOk result }
    {
        match self {
            Error::Todo(v) => Ok(Error::Todo(String::from_str(alloc, v.as_str())?)),
            Error::NotScalar(t) => Ok(Error::NotScalar(t.clone(alloc)?)),
            Error::NotConstructible(t) => Ok(Error::NotConstructible(t.clone(alloc)?)),
            Error::SampledType(t) => Ok(Error::SampledType(t.clone(alloc)?)),
            Error::UnknownType(s) => Ok(Error::UnknownType(String::from_str(alloc, s.as_str())?)),
            Error::UnexpectedTemplate(s) => Ok(Error::UnexpectedTemplate(String::from_str(
                alloc,
                s.as_str(),
            )?)),
            Error::MissingTemplate(s) => Ok(Error::MissingTemplate(*s)),
            Error::WriteRefType(n, t) => {
                let (n, t) = copy_pair(alloc, n, t)?;
                Ok(Error::WriteRefType(n, t))
            }
            Error::NotWrite => Ok(Error::NotWrite),
            Error::NotRead => Ok(Error::NotRead),
            Error::NotReadWrite => Ok(Error::NotReadWrite),
            Error::PtrHandle => Ok(Error::PtrHandle),
            Error::PtrVecComp => Ok(Error::PtrVecComp),
            Error::Conversion(a, b) => {
                let (a, b) = copy_pair(alloc, a, b)?;
                Ok(Error::Conversion(a, b))
            }
            Error::ConvOverflow(l, t) => Ok(Error::ConvOverflow(*l, t.clone(alloc)?)),
            Error::Component(t, s) => Ok(Error::Component(
                t.clone(alloc)?,
                String::from_str(alloc, s.as_str())?,
            )),
            Error::NotIndexable(t) => Ok(Error::NotIndexable(t.clone(alloc)?)),
            Error::OutOfBounds(i, t, n) => Ok(Error::OutOfBounds(*i, t.clone(alloc)?, *n)),
            Error::Unary(o, t) => Ok(Error::Unary(*o, t.clone(alloc)?)),
            Error::Binary(o, a, b) => {
                let (a, b) = copy_pair(alloc, a, b)?;
                Ok(Error::Binary(*o, a, b))
            }
            Error::CompwiseBinary(a, b) => {
                let (a, b) = copy_pair(alloc, a, b)?;
                Ok(Error::CompwiseBinary(a, b))
            }
            Error::AddOverflow => Ok(Error::AddOverflow),
            Error::SubOverflow => Ok(Error::SubOverflow),
            Error::MulOverflow => Ok(Error::MulOverflow),
            Error::DivByZero => Ok(Error::DivByZero),
            Error::RemZeroDiv => Ok(Error::RemZeroDiv),
            Error::ShlOverflow(n, l) => Ok(Error::ShlOverflow(*n, *l)),
            Error::ShrOverflow(n, l) => Ok(Error::ShrOverflow(*n, *l)),
            Error::Signature(c) => Ok(Error::Signature(c.clone(alloc)?)),
            Error::Builtin(s) => Ok(Error::Builtin(*s)),
            Error::TemplateArgs(s) => Ok(Error::TemplateArgs(*s)),
            Error::ParamCount(s, e, n) => Ok(Error::ParamCount(
                String::from_str(alloc, s.as_str())?,
                *e,
                *n,
            )),
            Error::ParamType(e, t) => {
                let (e, t) = copy_pair(alloc, e, t)?;
                Ok(Error::ParamType(e, t))
            }
        }
    }
}

fn copy_pair(alloc: Global, a: &Type, b: &Type) -> Result<(Type, Type), AllocError>
    ensures same { IfOk result (λ p. (view p.0 ≡ view a.now) × (view p.1 ≡ view b.now)) }
    ensures never_out_of_memory { IsLeaf (view a.now) → IsLeaf (view b.now) → IsOk result }
{
    Ok((a.clone(alloc)?, b.clone(alloc)?))
}
