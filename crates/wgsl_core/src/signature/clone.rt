// Copies of template parameters and signatures.
ghost use Rattle.std.specs.Prelude.{◌≡◌, IfOk, IsOk, map, option_map};
ghost use Rattle.wgsl_rules.specs.types.Signatures.{IsLeafParameter};
ghost use Rattle.wgsl_core.specs.View.{view};
ghost use Rattle.wgsl_core.specs.Instances.{parameter_view, signature_view, call_view};

use crate::signature::{CallSignature, TpltParam};
use crate::ty::Type;
use std::alloc::{AllocError, Global};

impl TpltParam {
    /// A copy; fails only if out of memory.
    pub fn clone(&self, alloc: Global) -> Result<TpltParam, AllocError>
        ensures same { IfOk result (λ p. parameter_view p ≡ parameter_view self.now) }
        ensures never_out_of_memory { IsLeafParameter (parameter_view self.now) → IsOk result }
    {
        match self {
            TpltParam::Ty(ty) => Ok(TpltParam::Ty(ty.clone(alloc)?)),
            TpltParam::Instance(instance) => Ok(TpltParam::Instance(*instance)),
            TpltParam::Enumerant(enumerant) => Ok(TpltParam::Enumerant(*enumerant)),
        }
    }
}

impl CallSignature {
    /// The signature of a call: its name, its template parameters if it has a template, and the types of its arguments.
    pub fn of_call(
        alloc: Global,
        name: &str,
        tplt: Option<&[TpltParam]>,
        args: &[Type],
    ) -> Result<CallSignature, AllocError>
        ensures { IfOk result (λ c. signature_view c ≡ call_view name.now tplt.entry args.now) }
    {
        Ok(CallSignature {
            name: String::from_str(alloc, name)?,
            tplt: copy_template(alloc, tplt)?,
            args: copy_types(alloc, args)?,
        })
    }

    /// A copy; fails only if out of memory.
    pub fn clone(&self, alloc: Global) -> Result<CallSignature, AllocError>
        ensures { IfOk result (λ c. signature_view c ≡ signature_view self.now) }
    {
        let tplt = match &self.tplt {
            Some(parameters) => Some(parameters.as_slice()),
            None => None,
        };
        CallSignature::of_call(alloc, self.name.as_str(), tplt, self.args.as_slice())
    }
}

fn copy_template(
    alloc: Global,
    template: Option<&[TpltParam]>,
) -> Result<Option<Vec<TpltParam>>, AllocError>
    ensures { IfOk result (λ t. option_map (λ ps. map parameter_view ps.items) t
        ≡ option_map (λ ps. map parameter_view ps.now) template.entry) }
{
    match template {
        Some(parameters) => Ok(Some(copy_parameters(alloc, parameters)?)),
        None => Ok(None),
    }
}

fn copy_parameters(alloc: Global, parameters: &[TpltParam]) -> Result<Vec<TpltParam>, AllocError>
    ensures { IfOk result (λ v. map parameter_view v.items ≡ map parameter_view parameters.now) }
{
    let mut copies = Vec::with_capacity(alloc, parameters.len())?;
    for parameter in parameters {
        copies.push(parameter.clone(alloc)?)?;
    }
    Ok(copies)
}

fn copy_types(alloc: Global, types: &[Type]) -> Result<Vec<Type>, AllocError>
    ensures { IfOk result (λ v. map view v.items ≡ map view types.now) }
{
    let mut copies = Vec::with_capacity(alloc, types.len())?;
    for ty in types {
        copies.push(ty.clone(alloc)?)?;
    }
    Ok(copies)
}
