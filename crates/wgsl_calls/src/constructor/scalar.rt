// Constructors of scalars.
ghost use Rattle.std.specs.Prelude.{◌≡◌, Err, None, Ok, map, option_map, if◌then◌else◌};
ghost use Rattle.wgsl_syntax.specs.declared.scalar.Scalar.{Scalar};
ghost use Rattle.wgsl_rules.specs.types.Types.{WgslType, scalar};
ghost use Rattle.wgsl_rules.specs.errors.Refusals.{Refusal, signature};
ghost use Rattle.wgsl_rules.specs.constructors.Constructors.{scalar_call};
ghost use Rattle.wgsl_core.specs.View.{view};
ghost use Rattle.wgsl_core.specs.Instances.{parameter_view, call_view};
ghost use Rattle.wgsl_core.specs.Answer.{AnswersBy, IsAnswered};

use crate::constructor::refuse_call;
use std::alloc::Global;
use wgsl_core::error::{Error, Fail};
use wgsl_core::signature::TpltParam;
use wgsl_core::ty::Type;
use wgsl_syntax::scalar::Scalar;

pub fn scalar_type(
    alloc: Global,
    of: Scalar,
    name: &str,
    tplt: Option<&[TpltParam]>,
    args: &[Type],
) -> Result<Type, Fail<Error>>
    ensures row { AnswersBy (λ r. r
        ≡ scalar_call of (option_map (λ ps. map parameter_view ps.now) tplt.entry)
        (map view args.now) (signature (call_view name.now tplt.entry args.now))) result }
    ensures never_out_of_memory { (t : WgslType) → Ok t
        ≡ scalar_call of (option_map (λ ps. map parameter_view ps.now) tplt.entry)
        (map view args.now) (signature (call_view name.now tplt.entry args.now))
        → IsAnswered result }
{
    if tplt.is_none() && are_none_or_scalar(args) {
        Ok(Type::from(of))
    } else {
        Err(Fail::Error(refuse_call(alloc, name, tplt, args)?))
    }
}

fn are_none_or_scalar(args: &[Type]) -> bool
    ensures { (s : Scalar) → (refused : Refusal) →
        scalar_call s None (map view args.now) refused
        ≡ (if result then Ok (scalar s) else Err refused) }
{
    match args {
        [] => true,
        [arg] => arg.is_scalar(),
        _ => false,
    }
}
