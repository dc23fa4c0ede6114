// Value constructors (WGSL, "Value Constructor Built-in Functions").
ghost use Rattle.std.specs.Prelude.{◌≡◌, ◌↔◌, Err, IfOk, IsSome, IsTrue, None, Ok, map, option_map};
ghost use Rattle.wgsl_syntax.specs.declared.scalar.Scalar.{Scalar};
ghost use Rattle.wgsl_rules.specs.types.Types.{scalar};
ghost use Rattle.wgsl_rules.specs.errors.Refusals.{conversion, signature, param_count, param_type};
ghost use Rattle.wgsl_rules.specs.constructors.Steps.{Then};
ghost use Rattle.wgsl_rules.specs.constructors.Vectors.{components};
ghost use Rattle.wgsl_rules.specs.constructors.Constructors.{constructor_of, IsConstructorAnswer};
ghost use Rattle.wgsl_core.specs.View.{view};
ghost use Rattle.wgsl_core.specs.Instances.{call_view};
ghost use Rattle.wgsl_core.specs.Answer.{AnswersBy, IsAnswered, refusal};
ghost use Rattle.wgsl_calls.specs.Constructors.{IsLeastConstructorAnswer, IsScalarMade};
ghost use Rattle.wgsl_calls.specs.internal.Constructors.{constructor_view, IsStuckAt};

mod array;
mod matrix;
mod scalar;
mod structure;
mod vector;

use crate::constructor::array::array_type;
use crate::constructor::matrix::matrix_type;
use crate::constructor::scalar::scalar_type;
use crate::constructor::vector::vector_type;
use std::alloc::{AllocError, Global};
pub use structure::typecheck_struct_ctor;
use wgsl_core::error::{Error, Fail};
use wgsl_core::signature::{CallSignature, TpltParam};
use wgsl_core::ty::Type;
use wgsl_syntax::scalar::Scalar;

/// A constructor, by what it makes.
#[derive(Clone, Copy)]
enum Constructor {
    Array,
    Scalar(Scalar),
    /// The number of components.
    Vec(u8),
    /// The number of columns, and the number of rows.
    Mat(u8, u8),
}

fn constructor_named(name: &str) -> Option<Constructor>
    ensures { option_map constructor_view result ≡ constructor_of name.now }
{
    match name {
        "array" => Some(Constructor::Array),
        "bool" => Some(Constructor::Scalar(Scalar::Bool)),
        "i32" => Some(Constructor::Scalar(Scalar::I32)),
        "u32" => Some(Constructor::Scalar(Scalar::U32)),
        "f32" => Some(Constructor::Scalar(Scalar::F32)),
        "f16" => Some(Constructor::Scalar(Scalar::F16)),
        "i64" => Some(Constructor::Scalar(Scalar::I64)),
        "u64" => Some(Constructor::Scalar(Scalar::U64)),
        "f64" => Some(Constructor::Scalar(Scalar::F64)),
        "vec2" => Some(Constructor::Vec(2)),
        "vec3" => Some(Constructor::Vec(3)),
        "vec4" => Some(Constructor::Vec(4)),
        "mat2x2" => Some(Constructor::Mat(2, 2)),
        "mat2x3" => Some(Constructor::Mat(2, 3)),
        "mat2x4" => Some(Constructor::Mat(2, 4)),
        "mat3x2" => Some(Constructor::Mat(3, 2)),
        "mat3x3" => Some(Constructor::Mat(3, 3)),
        "mat3x4" => Some(Constructor::Mat(3, 4)),
        "mat4x2" => Some(Constructor::Mat(4, 2)),
        "mat4x3" => Some(Constructor::Mat(4, 3)),
        "mat4x4" => Some(Constructor::Mat(4, 4)),
        _ => None,
    }
}

/// Whether the name is a constructor's (WGSL, "Value Constructor Built-in Functions"): `array`, a concrete scalar, or a
/// vector or a matrix without its component type.
pub fn is_ctor(name: &str) -> bool
    ensures { IsTrue result ↔ IsSome (constructor_of name.now) }
{
    constructor_named(name).is_some()
}

/// The type that a constructor returns for its arguments (WGSL, "Value Constructor Built-in Functions").
///
/// `Signature` refuses a name that is no constructor's. For a scalar, it refuses a template, several arguments, and an
/// argument that is no scalar. Arrays, vectors and matrices read their template first, if they have one, and refuse
/// it as its `parse` does. Then they refuse with:
/// - `TemplateArgs`: there are arguments, but the template of an array has no count;
/// - `Conversion`: an argument doesn't convert to the type beside it. For a matrix with a template, whose argument is
///   not a single matrix, the error has the type inside the arguments' common type, and the template's type;
/// - `ParamCount`: the constructor's name, the number that it takes (for vectors: of components), and the number of
///   arguments;
/// - `Builtin`: the arguments are wrong in another way, which the message says; there may be one argument or none.
pub fn type_ctor(
    alloc: Global,
    name: &str,
    tplt: Option<&[TpltParam]>,
    args: &[Type],
) -> Result<Type, Fail<Error>>
    ensures row { AnswersBy (IsConstructorAnswer (call_view name.now tplt.entry args.now)) result }
    ensures least { AnswersBy
        (IsLeastConstructorAnswer (call_view name.now tplt.entry args.now)) result }
    ensures of_a_constructor { IfOk result (λ t. IsSome (constructor_of name.now)) }
    ensures never_out_of_memory { IsScalarMade (call_view name.now tplt.entry args.now)
        → IsAnswered result }
{
    match constructor_named(name) {
        Some(Constructor::Array) => array_type(alloc, tplt, args),
        Some(Constructor::Scalar(scalar)) => scalar_type(alloc, scalar, name, tplt, args),
        Some(Constructor::Vec(n)) => vector_type(alloc, n, name, tplt, args),
        Some(Constructor::Mat(c, r)) => matrix_type(alloc, c, r, name, tplt, args),
        None => Err(Fail::Error(refuse_call(alloc, name, tplt, args)?)),
    }
}

/// The first argument that doesn't convert to the type.
pub fn first_stuck<'a>(args: &'a [Type], ty: &Type) -> Option<&'a Type>
    ensures { IsStuckAt (view ty.now) (map view args.now) (option_map (λ a. view a.now) result) }
{
    for arg in args {
        if !arg.is_convertible_to(ty) {
            return Some(arg);
        }
    }
    None
}

/// That a type doesn't convert to another.
pub fn refuse_conversion(alloc: Global, from: &Type, to: &Type) -> Result<Error, AllocError>
    ensures { IfOk result (λ e. refusal e ≡ conversion (view from.now) (view to.now)) }
{
    refuse_conversion_to(alloc, from, to.clone(alloc)?)
}

/// The same, of a type that it takes.
pub fn refuse_conversion_to(alloc: Global, from: &Type, to: Type) -> Result<Error, AllocError>
    ensures { IfOk result (λ e. refusal e ≡ conversion (view from.now) (view to)) }
{
    Ok(Error::Conversion(from.clone(alloc)?, to))
}

/// That a constructor has another number of arguments than it takes.
pub fn refuse_count(
    alloc: Global,
    name: &str,
    wanted: usize,
    number: usize,
) -> Result<Error, AllocError>
    ensures { IfOk result (λ e. refusal e ≡ param_count name.now wanted number) }
{
    Ok(Error::ParamCount(String::from_str(alloc, name)?, wanted, number))
}

/// That an argument has another type than the parameter.
pub fn refuse_parameter(alloc: Global, expected: &Type, given: &Type) -> Result<Error, AllocError>
    ensures { IfOk result (λ e. refusal e ≡ param_type (view expected.now) (view given.now)) }
{
    Ok(Error::ParamType(expected.clone(alloc)?, given.clone(alloc)?))
}

/// That no constructor takes the call.
pub fn refuse_call(
    alloc: Global,
    name: &str,
    tplt: Option<&[TpltParam]>,
    args: &[Type],
) -> Result<Error, AllocError>
    ensures { IfOk result (λ e. refusal e ≡ signature (call_view name.now tplt.entry args.now)) }
{
    Ok(Error::Signature(CallSignature::of_call(alloc, name, tplt, args)?))
}
