// The template of a pointer.
ghost use Rattle.std.specs.Prelude.{◌≡◌, IfOk, Some, map};
ghost use Rattle.wgsl_rules.specs.types.Types.{pointer};
ghost use Rattle.wgsl_rules.specs.templates.Templates.{access_of, pointer_access, IsPointerOf, IsPtrTemplate};
ghost use Rattle.wgsl_core.specs.View.{view};
ghost use Rattle.wgsl_core.specs.Instances.{parameter_view};
ghost use Rattle.wgsl_core.specs.Answer.{AnswersAs, Gives};
ghost use Rattle.wgsl_calls.specs.Templates.{ptr_view};

use std::alloc::{AllocError, Global};
use wgsl_core::conversion::typed::Ty;
use wgsl_core::error::{Error, Fail};
use wgsl_core::signature::TpltParam;
use wgsl_core::ty::Type;
use wgsl_core::ty::clone::boxed_copy;
use wgsl_syntax::address::{AccessMode, AddressSpace};
use wgsl_syntax::enumerant::Enumerant;

/// The template of a pointer (WGSL, "Memory Views"): the address space, the type, and the access mode.
#[derive(Drop)]
pub struct PtrTemplate {
    /// The address space.
    pub space: AddressSpace,
    /// The type that is pointed to.
    pub ty: Type,
    /// The access mode.
    pub access: AccessMode,
}

impl PtrTemplate {
    /// Reads an address space, a type and at most one more parameter, else `TemplateArgs`; a third parameter that isn't
    /// an access mode is ignored. `Builtin` if the type isn't storable, or the uniform space has an access mode other
    /// than `read`; `PtrHandle` for the handle space; `Todo` for push constants.
    pub fn parse(alloc: Global, tplt: &[TpltParam]) -> Result<PtrTemplate, Fail<Error>>
        ensures { AnswersAs ptr_view (IsPtrTemplate (map parameter_view tplt.now)) result }
    {
        match tplt {
            [
                TpltParam::Enumerant(Enumerant::AddressSpace(space)),
                TpltParam::Ty(ty),
            ] => { pointer_to(alloc, *space, ty, None) }
            [
                TpltParam::Enumerant(Enumerant::AddressSpace(space)),
                TpltParam::Ty(ty),
                third,
            ] => { pointer_to(alloc, *space, ty, access_mode(third)) }
            _ => Err(Fail::Error(Error::TemplateArgs("pointer"))),
        }
    }

    /// The pointer.
    pub fn ty(&self, alloc: Global) -> Result<Type, AllocError>
        ensures { IfOk result (λ t. view t ≡ ptr_view self.now) }
    {
        Ok(Type::Ptr(self.space, boxed_copy(alloc, &self.ty)?, self.access))
    }
}

fn pointer_to(
    alloc: Global,
    space: AddressSpace,
    ty: &Type,
    access: Option<AccessMode>,
) -> Result<PtrTemplate, Fail<Error>>
    ensures { AnswersAs ptr_view
        (IsPointerOf (Some (record { space = space; ty = view ty.now; access = access }))) result }
{
    if !ty.is_storable() {
        return Err(Fail::Error(Error::Builtin("pointer type must be storable")));
    }
    let access = access_in(alloc, space, access)?;
    Ok(PtrTemplate {
        space,
        ty: ty.clone(alloc)?,
        access,
    })
}

pub fn access_mode(parameter: &TpltParam) -> Option<AccessMode>
    ensures { result ≡ access_of (parameter_view parameter.now) }
{
    match parameter {
        TpltParam::Enumerant(Enumerant::AccessMode(access)) => Some(*access),
        _ => None,
    }
}

fn access_in(
    alloc: Global,
    space: AddressSpace,
    access: Option<AccessMode>,
) -> Result<AccessMode, Fail<Error>>
    ensures { Gives (pointer_access space access) result }
{
    match space {
        AddressSpace::Function | AddressSpace::Private | AddressSpace::Workgroup => {
            Ok(access.unwrap_or(AccessMode::ReadWrite))
        }
        AddressSpace::Storage => Ok(access.unwrap_or(AccessMode::Read)),
        AddressSpace::Uniform => match access {
            None | Some(AccessMode::Read) => Ok(AccessMode::Read),
            Some(_) => Err(Fail::Error(Error::Builtin(
                "pointer in uniform address space must have a `read` access mode",
            ))),
        },
        AddressSpace::Handle => Err(Fail::Error(Error::PtrHandle)),
        AddressSpace::PushConstant => Err(Fail::Error(Error::Todo(String::from_str(
            alloc,
            "push_constant",
        )?))),
    }
}
