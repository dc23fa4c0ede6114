// What is called by a name.
ghost use Rattle.std.specs.Prelude.{◌≡◌, IfOk, None, Some, map, option_map, string_bytes};
ghost use Rattle.wgsl_requests.specs.expressions.Prelude.{parameter_view, view, wgsl_spelling};
ghost use Rattle.wgsl_requests.specs.expressions.Source.{constructor_of, function_with, head_noted, is_constructor, other_head, plain_head, with_type};
ghost use Rattle.wgsl_requests.specs.expressions.Outcomes.{declared};
ghost use Rattle.wgsl_requests.specs.expressions.Views.{found as shown_in, head_view, meaning_view, scope_view, source_view};

use crate::expressions::prelude::*;
use crate::expressions::source::{between, first_count};
use wgsl_core::ty::form::Form;
use wgsl_core::ty::show::ShownType;
use wgsl_standard::callee::overloads;

/// What is called by the name and the list that are noted, or why they are no type.
pub fn head_noted(source: &Source<'_>, scope: &Scope, events: &[Event]) -> Made<Result<Head, Fault>>
    ensures { IfOk result (λ found. shown_in head_view found ≡ head_noted (source_view source.now) (scope_view scope.now) events.now) }
{
    match source.type_noted(scope, events)? {
        Ok((ty, _)) => {
            let head = constructor_of(source.alloc, &ty);
            drop(ty);
            Ok(Ok(head?))
        }
        Err(fault) => match other_head(source, scope, events)? {
            Some(head) => Ok(Ok(head)),
            None => Ok(Err(fault)),
        },
    }
}

/// The constructor of a type.
fn constructor_of(alloc: Global, ty: &Type) -> Made<Head>
    ensures { IfOk result (λ head. head_view head ≡ constructor_of (view ty.now)) }
{
    match ty.form() {
        Form::Vector(n, of) => {
            let name = format!(in alloc; "vec{n}")?;
            Ok(Head::Constructor(name, Some(with_type(alloc, of)?)))
        }
        Form::Matrix(columns, rows, of) => {
            let name = format!(in alloc; "mat{columns}x{rows}")?;
            Ok(Head::Constructor(name, Some(with_type(alloc, of)?)))
        }
        Form::Array(count, of) => Ok(Head::Array(of.clone(alloc)?, count)),
        Form::Struct(_) => Ok(Head::Struct(ty.clone(alloc)?)),
        _ => Ok(Head::Constructor(spelling_of(alloc, ty)?, None)),
    }
}

/// The type as WGSL spells it.
fn spelling_of(alloc: Global, ty: &Type) -> Made<String>
    ensures { IfOk result (λ text. string_bytes text ≡ wgsl_spelling (view ty.now)) }
{
    let rules = RuleSet::Standard;
    format!(in alloc; "{}", ShownType { ty, rules })
}

/// The template that is a type.
fn with_type(alloc: Global, ty: &Type) -> Made<Vec<TpltParam>>
    ensures { IfOk result (λ ps. Some (map parameter_view ps.items) ≡ with_type (view ty.now)) }
{
    let mut parameters = Vec::with_capacity(alloc, 1)?;
    parameters.push(TpltParam::Ty(ty.clone(alloc)?))?;
    Ok(parameters)
}

/// A constructor or a function that has the name which is noted, and perhaps a type in its list.
fn other_head(source: &Source<'_>, scope: &Scope, events: &[Event]) -> Made<Option<Head>>
    ensures { IfOk result (λ found. option_map head_view found ≡ other_head (source_view source.now) (scope_view scope.now) events.now) }
{
    let name = source.text_at(first_count(events));
    if events.len() == 1 {
        return Ok(Some(plain_head(source.alloc, name, scope.find(name))?));
    }
    let list = between(events, 2, events.len().saturating_sub(1));
    match source.type_noted(scope, list)? {
        Ok((ty, _)) => {
            let head = function_with(source.alloc, name, &ty);
            drop(ty);
            Ok(Some(head?))
        }
        Err(_) => Ok(None),
    }
}

/// What is called by a name without a list, which may be declared.
fn plain_head(alloc: Global, name: &str, declared: Option<&Meaning>) -> Made<Head>
    ensures { IfOk result (λ head. head_view head ≡ plain_head name.now (option_map (λ m. meaning_view m.now) declared.entry)) }
{
    let owned = String::from_str(alloc, name)?;
    match declared {
        Some(Meaning::Function(parameters, result)) => {
            declared_head(alloc, owned, parameters, result.as_ref())
        }
        _ if is_constructor(name) => Ok(Head::Constructor(owned, None)),
        _ => Ok(Head::Function(owned, None)),
    }
}

fn declared_head(
    alloc: Global,
    name: String,
    parameters: &[Type],
    of_result: Option<&Type>,
) -> Made<Head>
    ensures { IfOk result (λ head. head_view head ≡ declared (string_bytes name) (map view parameters.now) (option_map (λ t. view t.now) of_result.entry)) }
{
    let mut types = Vec::with_capacity(alloc, parameters.len())?;
    for ty in parameters {
        types.push(ty.clone(alloc)?)?;
    }
    let copied = match of_result {
        Some(ty) => Some(ty.clone(alloc)?),
        None => None,
    };
    Ok(Head::Declared(name, types, copied))
}

fn function_with(alloc: Global, name: &str, ty: &Type) -> Made<Head>
    ensures { IfOk result (λ head. head_view head ≡ function_with name.now (view ty.now)) }
{
    let parameters = with_type(alloc, ty)?;
    Ok(Head::Function(String::from_str(alloc, name)?, Some(parameters)))
}

/// Whether the name is that of a constructor whose type follows from its operands.
fn is_constructor(name: &str) -> bool
    ensures { result ≡ is_constructor name.now }
{
    name == "array" || overloads(Callee::Constructor(name), false).is_some()
}
