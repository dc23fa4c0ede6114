// Loaded types and concrete types.
ghost use Rattle.std.specs.Prelude.{◌≡◌, ◌≢◌, ◌↔◌, IfOk, IsOk};
ghost use Rattle.wgsl_rules.specs.types.Kinds.{IsLeaf};
ghost use Rattle.wgsl_rules.specs.conversion.Conversion.{IsValueType};
ghost use Rattle.wgsl_rules.specs.conversion.Loading.{IsReference, loaded_of};
ghost use Rattle.wgsl_rules.specs.conversion.Concrete.{IsAbstract, HasFloatMatrices, concretized};
ghost use Rattle.wgsl_rules.specs.Headline.{IsLeastConcrete};
ghost use Rattle.wgsl_core.specs.View.{view};

use crate::ty::Type;
use crate::ty::clone::boxed_copy;
use std::alloc::{AllocError, Global};

impl Type {
    /// The type that is left once all references around it are loaded (WGSL, "Load Rule").
    #[tactic(auto, using(wgsl_rules::proofs::conversion::Loading::loaded_is_no_reference, wgsl_rules::proofs::conversion::Loading::loaded_once))]
    pub fn loaded(self) -> Type
        ensures row { view result ≡ loaded_of (view self) }
        ensures no_reference { ¬ IsReference (view result) }
        ensures idempotent { loaded_of (view result) ≡ view result }
    {
        behind_references(self)
    }

    /// The concrete type for the type (WGSL, "Abstract Numeric Types"): `i32` and `f32` for the abstract numbers, also
    /// within arrays and vectors. A matrix of an abstract type becomes one of `f32`.
    #[tactic(auto, using(wgsl_rules::proofs::conversion::Concretes::concrete_is_concrete, wgsl_rules::proofs::conversion::Concretes::concrete_changes, wgsl_rules::proofs::conversion::Concretes::concrete_once, wgsl_rules::proofs::conversion::Concretes::concrete_least))]
    pub fn concretize(&self, alloc: Global) -> Result<Type, AllocError>
        ensures row { IfOk result (λ t. view t ≡ concretized (view self.now)) }
        ensures concrete { IfOk result (λ t. ¬ IsAbstract (view t)) }
        ensures changes_the_abstract { IfOk result (λ t. (view t ≢ view self.now)
            ↔ IsAbstract (view self.now)) }
        ensures idempotent { IfOk result (λ t. concretized (view t) ≡ view t) }
        ensures least { IfOk result (λ t. IsValueType (view self.now)
            → HasFloatMatrices (view self.now) → IsLeastConcrete (view self.now) (view t)) }
        ensures never_out_of_memory { IsLeaf (view self.now) → IsOk result }
    {
        let concrete = concrete(alloc, self)?;
        Ok(concrete)
    }
}

fn behind_references(ty: Type) -> Type
    ensures { view result ≡ loaded_of (view ty) }
{
    match ty {
        Type::Ref(_, t, _) => behind_references(Box::into_inner(t)),
        other => other,
    }
}

fn concrete(alloc: Global, ty: &Type) -> Result<Type, AllocError>
    ensures row { IfOk result (λ t. view t ≡ concretized (view ty.now)) }
    ensures never_out_of_memory { IsLeaf (view ty.now) → IsOk result }
{
    match ty {
        Type::AbstractInt => Ok(Type::I32),
        Type::AbstractFloat => Ok(Type::F32),
        Type::Array(t, n) => Ok(Type::Array(Box::new(alloc, concrete(alloc, t)?)?, *n)),
        Type::Vec(n, t) => Ok(Type::Vec(*n, Box::new(alloc, concrete(alloc, t)?)?)),
        Type::Mat(c, r, t) => {
            if t.is_abstract() {
                Ok(Type::Mat(*c, *r, Box::new(alloc, Type::F32)?))
            } else {
                Ok(Type::Mat(*c, *r, boxed_copy(alloc, t)?))
            }
        }
        Type::Bool
        | Type::I32
        | Type::U32
        | Type::F32
        | Type::F16
        | Type::I64
        | Type::U64
        | Type::F64
        | Type::Struct(_)
        | Type::Atomic(_)
        | Type::Ptr(_, _, _)
        | Type::Ref(_, _, _)
        | Type::Texture(_)
        | Type::Sampler(_)
        | Type::BindingArray(_, _)
        | Type::RayQuery(_)
        | Type::AccelerationStructure(_) => ty.clone(alloc),
    }
}
