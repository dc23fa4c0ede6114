// The types of calls of built-in functions (WGSL, "Built-in Functions").
ghost use Rattle.std.specs.Prelude.{◌≡◌, Err, option_map, map, All};
ghost use Rattle.wgsl_rules.specs.conversion.Concrete.{concretized};
ghost use Rattle.wgsl_rules.specs.errors.Refusals.{signature};
ghost use Rattle.wgsl_rules.specs.calls.ResultTypes.{exchange_struct};
ghost use Rattle.wgsl_rules.specs.calls.Rows.{IsResultFor, IsFromTemplate, IsReturnType, given, return_type_of as return_type_of_row};
ghost use Rattle.wgsl_rules.specs.types.Signatures.{Signature};
ghost use Rattle.wgsl_rules.specs.templates.Templates.{IsBitcastTemplate};
ghost use Rattle.wgsl_rules.specs.calls.Table.{call_table, rows_named};
ghost use Rattle.wgsl_rules.specs.calls.Answers.{IsCallAnswer, IsLeastCallAnswer, IsLeafCall};
ghost use Rattle.wgsl_core.specs.View.{view};
ghost use Rattle.wgsl_core.specs.Instances.{parameter_view, call_view};
ghost use Rattle.wgsl_core.specs.internal.Resolution.{element_view, resolved_view};
ghost use Rattle.wgsl_core.specs.ResultStruct.{result_type};
ghost use Rattle.wgsl_core.specs.Answer.{AnswersBy, AnswersAs, IsAnswered};
ghost use Rattle.wgsl_calls.specs.internal.Rows.{rows_view};
ghost use Rattle.wgsl_calls.specs.Calls.{signature_of};
ghost use Rattle.wgsl_calls.specs.Returned.{Returns, returned_view};
ghost use Rattle.wgsl_calls.specs.internal.Answers.{template_of, Chooses, IsBuilt, IsMet, Answered};
ghost use Rattle.wgsl_rules.specs.conversion.Conversion.{IsValueType};
ghost use Rattle.wgsl_rules.specs.operators.Candidates.{Name};
ghost use Rattle.wgsl_rules.specs.Laws.{OneChoice};

mod find;
mod fit;
mod rows;
pub(crate) mod shape;
mod source;
mod table;

use crate::call::find::rows_of;
use crate::call::fit::fits;
use crate::call::rows::Rows;
use crate::call::source::{
    argument, as_long, in_vector, inner, texture_size, transposed, type_of_source,
};
use crate::template::BitcastTemplate;
pub use find::{find_call, names_match_table, names_sorted};
pub use fit::NamedCall;
use std::alloc::{AllocError, Global};
use wgsl_core::error::{Error, Fail};
use wgsl_core::operators::resolve::{Element, ResolvedType};
use wgsl_core::signature::{CallSignature, TpltParam};
use wgsl_core::ty::Type;
use wgsl_core::ty::result_struct::shaped_float;
use wgsl_core::ty::result_type::{exchange_result, hit_positions, ray_intersection, result_struct};
use wgsl_syntax::call::{ReturnType, Row};
use wgsl_syntax::result_struct::{ResultFunction, ResultStruct};

/// What a call of a built-in function returns. A struct of `frexp` or `modf`, and the refusal of the call, aren't built.
#[derive(Drop)]
pub enum Returned {
    /// A type, or no value.
    Built(Option<Type>),
    Split(ResultStruct),
    Refused,
}

/// The type of a call of a built-in function (WGSL, "Built-in Functions"), by its name, its template if it has
/// one, and the types of its arguments; None if it returns no value. `Signature` with all three refuses a call that
/// no row of the table takes, and one whose arguments lack the common type that its row returns. `bitcast` refuses
/// its template as `BitcastTemplate::parse` does.
#[tactic(auto, using(crate::proofs::Named::row_answered, crate::proofs::Named::least_answered, wgsl_rules::proofs::Laws::one_choice))]
pub fn type_builtin_fn(
    alloc: Global,
    name: &str,
    template: Option<&[TpltParam]>,
    args: &[Type],
) -> Result<Option<Type>, Fail<Error>>
    ensures row { AnswersAs (option_map view)
        (IsCallAnswer (call_view name.now template.entry args.now)) result }
    ensures least { AnswersAs (option_map view)
        (IsLeastCallAnswer (call_view name.now template.entry args.now)) result }
    ensures one_choice { (n : Name) → All IsValueType (map view args.now)
        → OneChoice n (map view args.now) }
    ensures never_out_of_memory { IsLeafCall (call_view name.now template.entry args.now)
        → IsAnswered result }
{
    answer(
        alloc,
        &NamedCall {
            name,
            template,
            args,
        },
    )
}

/// The answer of a call: of the first row of its name that takes it, or the refusal if none does.
fn answer(alloc: Global, call: &NamedCall<'_>) -> Result<Option<Type>, Fail<Error>>
    ensures { Answered (IsCallAnswer (signature_of call.now)) (template_of call.now) result }
{
    match chosen(call) {
        Some(return_type) => by_return_type(alloc, return_type, call),
        None => refuse(alloc, call),
    }
}

/// What a call returns, as `type_builtin_fn` does.
pub fn returned_by(alloc: Global, call: &NamedCall<'_>) -> Result<Returned, Fail<Error>>
    ensures { Returns (IsCallAnswer (signature_of call.now)) (signature_of call.now) result }
{
    match chosen(call) {
        Some(ReturnType::ResultOf(function)) => {
            Ok(unbuilt(split_result(function, argument(call.args, 0))))
        }
        Some(return_type) => Ok(Returned::Built(by_return_type(alloc, return_type, call)?)),
        None => Ok(Returned::Refused),
    }
}

/// The struct that `frexp` or `modf` returns, or the refusal of the call if there is none.
#[inline(always)]
fn unbuilt(found: Option<ResultStruct>) -> Returned
    ensures { (c : Signature) → returned_view c result ≡ given c (option_map result_type found) }
{
    match found {
        Some(of) => Returned::Split(of),
        None => Returned::Refused,
    }
}

/// What the first row of the call's name that takes the call returns.
#[inline(always)]
fn chosen(call: &NamedCall<'_>) -> Option<ReturnType>
    ensures { Chooses (rows_named (signature_of call.now).name call_table)
        (signature_of call.now) result }
{
    match rows_of(call.name) {
        Some(rows) => chosen_of(rows, call),
        None => None,
    }
}

/// What the first of the rows that takes the call returns.
#[inline(always)]
fn chosen_of(rows: &Rows, call: &NamedCall<'_>) -> Option<ReturnType>
    ensures { Chooses (rows_view rows.now) (signature_of call.now) result }
{
    match rows {
        Rows::Only(row) => {
            if fits(row, call) {
                Some(return_type(row))
            } else {
                None
            }
        }
        Rows::Either(row, other) => {
            if fits(row, call) {
                Some(return_type(row))
            } else if fits(other, call) {
                Some(return_type(other))
            } else {
                None
            }
        }
    }
}

fn return_type(row: &Row) -> ReturnType
    ensures { result ≡ return_type_of_row row.now }
{
    match row {
        Row::Takes(_, return_type) => *return_type,
        Row::TakesAtLeast(_, return_type) => *return_type,
        Row::TakesWhere(_, _, return_type) => *return_type,
        Row::TakesWithTemplate(_, return_type) => *return_type,
    }
}

#[inline(never)]
fn refuse(alloc: Global, call: &NamedCall<'_>) -> Result<Option<Type>, Fail<Error>>
    ensures { IsMet (Err (signature (signature_of call.now))) result }
{
    let refused = CallSignature::of_call(alloc, call.name, call.template, call.args)?;
    Err(Fail::Error(Error::Signature(refused)))
}

fn by_return_type(
    alloc: Global,
    return_type: ReturnType,
    call: &NamedCall<'_>,
) -> Result<Option<Type>, Fail<Error>>
    ensures { Answered (IsReturnType return_type (signature_of call.now))
        (template_of call.now) result }
{
    let args = call.args;
    let built = match return_type {
        ReturnType::Of(of) => return copied(alloc, type_of_source(of, args), call),
        ReturnType::Concrete(of) => concrete(alloc, type_of_source(of, args)),
        ReturnType::AsLong(of) => {
            built(alloc, as_long(argument(args, 0), type_of_source(of, args)))
        }
        ReturnType::InVector(n, of) => built(alloc, in_vector(n, type_of_source(of, args))),
        ReturnType::Transposed => built(alloc, transposed(argument(args, 0))),
        ReturnType::TextureSize => built(alloc, texture_size(argument(args, 0))),
        ReturnType::ResultOf(function) => split(alloc, split_result(function, argument(args, 0))),
        ReturnType::ExchangeResult => exchanged(alloc, inner(inner(argument(args, 0)))),
        ReturnType::RayIntersection => Some(ray_intersection(alloc)),
        ReturnType::HitPositions => Some(hit_positions(alloc)),
        ReturnType::NoValue => return Ok(None),
        ReturnType::ByTemplate => return by_template(alloc, call),
    };
    match built {
        Some(built) => Ok(Some(built?)),
        None => refuse(alloc, call),
    }
}

/// A copy of the type, or the refusal if there is none.
#[inline(always)]
fn copied(
    alloc: Global,
    found: Option<Element<'_>>,
    call: &NamedCall<'_>,
) -> Result<Option<Type>, Fail<Error>>
    ensures { IsMet (given (signature_of call.now) (option_map element_view found.entry)) result }
{
    match found {
        Some(Element::Scalar(scalar)) => Ok(Some(Type::from(scalar))),
        Some(Element::Type(ty)) => Ok(Some(ty.clone(alloc)?)),
        None => refuse(alloc, call),
    }
}

#[inline(always)]
fn built(alloc: Global, found: Option<ResolvedType<'_>>) -> Option<Result<Type, AllocError>>
    ensures { IsBuilt (option_map resolved_view found.entry) result }
{
    Some(found?.build(alloc))
}

#[inline(always)]
#[tactic(auto, using(crate::proofs::OutOfMemory::leaf_before))]
fn concrete(alloc: Global, found: Option<Element<'_>>) -> Option<Result<Type, AllocError>>
    ensures { IsBuilt (option_map concretized (option_map element_view found.entry)) result }
{
    Some(match found? {
        Element::Scalar(scalar) => Type::from(scalar).concretize(alloc),
        Element::Type(ty) => ty.concretize(alloc),
    })
}

/// The struct that `frexp` or `modf` returns for a type that it takes.
fn split_result(function: ResultFunction, ty: Option<&Type>) -> Option<ResultStruct>
    ensures { IsResultFor function (option_map (λ t. view t.now) ty.entry)
        (option_map result_type result) }
{
    let (shape, precision) = shaped_float(ty?)?;
    Some(ResultStruct {
        function,
        shape,
        precision,
    })
}

/// The type that `frexp` or `modf` returns.
#[inline(always)]
#[tactic(auto, using(crate::proofs::OutOfMemory::no_leaf_result))]
fn split(alloc: Global, of: Option<ResultStruct>) -> Option<Result<Type, AllocError>>
    ensures { IsBuilt (option_map result_type of) result }
{
    Some(result_struct(alloc, of?))
}

/// The type that an atomic exchange returns.
#[inline(always)]
#[tactic(auto, using(crate::proofs::OutOfMemory::no_leaf_exchange))]
fn exchanged(alloc: Global, ty: Option<&Type>) -> Option<Result<Type, AllocError>>
    ensures { IsBuilt (option_map exchange_struct (option_map (λ t. view t.now) ty.entry)) result }
{
    Some(exchange_result(alloc, ty?))
}

/// The type that `bitcast` returns: that of its template.
fn by_template(alloc: Global, call: &NamedCall<'_>) -> Result<Option<Type>, Fail<Error>>
    ensures { Answered (IsFromTemplate (signature_of call.now) (template_of call.now))
        (template_of call.now) result }
{
    match call.template {
        Some(parameters) => Ok(Some(bitcast(alloc, parameters)?)),
        None => refuse(alloc, call),
    }
}

fn bitcast(alloc: Global, parameters: &[TpltParam]) -> Result<Type, Fail<Error>>
    ensures { AnswersBy (IsBitcastTemplate (map parameter_view parameters.now)) result }
{
    let template = BitcastTemplate::parse(alloc, parameters)?;
    let ty = template.ty().clone(alloc);
    drop(template);
    Ok(ty?)
}
