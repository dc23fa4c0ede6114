// Questions to the forms and the overloads, whose answers are owned.
ghost use Rattle.std.specs.Prelude.{◌≡◌, [], ◌∷◌, IfOk, None, Ok, map, option_map};
ghost use Rattle.wgsl_core.specs.View.{view};
ghost use Rattle.wgsl_standard.specs.forms.Array.{typed_array};
ghost use Rattle.wgsl_standard.specs.forms.Lists.{constructed, function, list_fits};
ghost use Rattle.wgsl_standard.specs.forms.Member.{member_answer};
ghost use Rattle.wgsl_standard.specs.forms.Views.{given};
ghost use Rattle.wgsl_typing.specs.Stages.{is_const};
ghost use Rattle.wgsl_standard.specs.Callees.{a_binary, a_unary, callee_view};
ghost use Rattle.wgsl_standard.specs.Operands.{operands_view};
ghost use Rattle.wgsl_standard.specs.Resolved.{IsCallResolution};
ghost use Rattle.wgsl_typing.specs.Counts.{unless_counted};
ghost use Rattle.wgsl_typing.specs.Outcomes.{IsAnswer, IsInferredAs, IsMember, IsMessage, IsType, loaded, operands_of, resolved, shown, typed_parts, types_of};

use crate::count::has_override_count;
use crate::expression::shown;
use crate::known::{Part, Typed};
use crate::structs::behind;
use std::alloc::{AllocError, Global};
use wgsl_core::error::Fail;
use wgsl_core::ty::Type;
use wgsl_core::ty::form::Form;
use wgsl_standard::answer::NoOverload;
use wgsl_standard::callee::Callee;
use wgsl_standard::explanation::explain;
use wgsl_standard::forms::array::{construct_array, construct_array_of};
use wgsl_standard::forms::lists::{Taker, construct_struct, fit};
use wgsl_standard::forms::member::type_of_member;
use wgsl_standard::operand::Operand;
use wgsl_standard::resolved::{ResolvedCall, resolve_callee};
use wgsl_syntax::operator::{BinaryOperator, UnaryOperator};

/// How many overloads are told that don't take the operands.
const NOTES: usize = 8;

/// Why a call resolves to nothing.
#[derive(Drop)]
pub struct Unresolved {
    pub reason: NoOverload,
    /// That no overload takes the operands.
    pub message: String,
    /// Why overloads don't take the operands, the nearest first.
    pub notes: Vec<String>,
}

/// What a call resolves to, or why to nothing.
pub type Resolved = Result<ResolvedCall, Unresolved>;

/// Expressions as operands. Those without a type are left out.
pub fn operands_of(alloc: Global, parts: &[Part]) -> Result<Vec<Operand<'_>>, AllocError>
    ensures { IfOk result (λ xs. map given xs.items ≡ map shown (typed_parts parts.now)) }
{
    let mut operands = Vec::with_capacity(alloc, parts.len())?;
    for part in parts {
        if let Some(typed) = part.typed() {
            operands.push(shown(typed))?;
        }
    }
    Ok(operands)
}

/// Why a function with this name and parameters of these types doesn't take the arguments, if it doesn't.
pub fn misfit<'p>(
    alloc: Global,
    name: &'p str,
    arguments: &'p [Part],
    types: &'p [Type],
) -> Result<Option<String>, AllocError>
    ensures { IfOk result (IsMessage (list_fits (function name.now) (map view types.now) (types_of arguments.now))) }
{
    let operands = operands_of(alloc, arguments)?;
    match fit(Taker::Function(name), &operands, types) {
        Ok(()) => Ok(None),
        Err(refusal) => Ok(Some(format!(in alloc; "{refusal}")?)),
    }
}

/// The array that a constructor makes, or why it makes none.
pub fn array_of<'p>(
    alloc: Global,
    of: &'p Type,
    count: Option<usize>,
    arguments: &'p [Part],
) -> Result<Result<Type, String>, AllocError>
    ensures { IfOk result (IsAnswer IsType (typed_array (view of.now) count (types_of arguments.now))) }
{
    let operands = operands_of(alloc, arguments)?;
    match construct_array_of(of, count, &operands) {
        Ok(ty) => Ok(Ok(ty.build(alloc)?)),
        Err(refusal) => Ok(Err(format!(in alloc; "{refusal}")?)),
    }
}

/// The array that a constructor infers, or why it makes none.
pub fn inferred_of(alloc: Global, arguments: &[Part]) -> Result<Result<Type, String>, AllocError>
    ensures { IfOk result (IsInferredAs arguments.now) }
{
    let operands = operands_of(alloc, arguments)?;
    match construct_array(&operands) {
        Ok(ty) => unless_counted(alloc, ty.build(alloc)?),
        Err(refusal) => Ok(Err(format!(in alloc; "{refusal}")?)),
    }
}

/// The array, or why it isn't constructible: an override counts what its elements have.
fn unless_counted(alloc: Global, ty: Type) -> Result<Result<Type, String>, AllocError>
    ensures { IfOk result (IsAnswer IsType (unless_counted (Ok (view ty)))) }
{
    match ty.form() {
        Form::Array(_, of) if has_override_count(of) => {
            Ok(Err(format!(in alloc; "`{of}` is not constructible")?))
        }
        _ => Ok(Ok(ty)),
    }
}

/// Why the constructor of a struct doesn't take the arguments, if it doesn't.
fn unfit<'p>(
    alloc: Global,
    whole: &'p Type,
    arguments: &'p [Part],
) -> Result<Option<String>, AllocError>
    ensures { IfOk result (IsMessage (constructed (view whole.now) (types_of arguments.now))) }
{
    let operands = operands_of(alloc, arguments)?;
    match construct_struct(whole, &operands) {
        Ok(_) => Ok(None),
        Err(refusal) => Ok(Some(format!(in alloc; "{refusal}")?)),
    }
}

/// The types of a struct's members, or why its constructor doesn't take the arguments.
pub fn members_of<'p>(
    alloc: Global,
    whole: &'p Type,
    arguments: &'p [Part],
) -> Result<Result<Vec<Type>, String>, AllocError> {
    if let Some(message) = unfit(alloc, whole, arguments)? {
        return Ok(Err(message));
    }
    let mut types = Vec::new(alloc);
    if let Form::Struct(whole) = whole.form() {
        for member in &whole.members {
            types.push(member.ty.clone(alloc)?)?;
        }
    }
    Ok(Ok(types))
}

/// What a call resolves to.
pub fn resolved<'p>(
    alloc: Global,
    callee: Callee<'p>,
    template: Option<&'p Type>,
    arguments: &'p [Part],
) -> Result<Resolved, AllocError>
    ensures { IfOk result (λ r. IsCallResolution (callee_view callee.entry) (option_map (λ t. view t.now) template.entry)
        (operands_of arguments.now) (resolved r)) }
{
    let operands = operands_of(alloc, arguments)?;
    answered(alloc, callee, template, &operands)
}

/// What a unary expression resolves to.
pub fn resolved_unary<'p>(
    alloc: Global,
    operator: UnaryOperator,
    x: &'p Typed,
) -> Result<Resolved, AllocError>
    ensures { IfOk result (λ r. IsCallResolution (a_unary operator) None (loaded x.now ∷ []) (resolved r)) }
{
    answered(alloc, Callee::Unary(operator), None, &[shown(x)])
}

/// What a binary expression resolves to.
pub fn resolved_binary<'p>(
    alloc: Global,
    operator: BinaryOperator,
    x: &'p Typed,
    y: &'p Typed,
) -> Result<Resolved, AllocError>
    ensures { IfOk result (λ r. IsCallResolution (a_binary operator) None (loaded x.now ∷ loaded y.now ∷ []) (resolved r)) }
{
    answered(alloc, Callee::Binary(operator), None, &[shown(x), shown(y)])
}

fn answered<'p>(
    alloc: Global,
    callee: Callee<'p>,
    template: Option<&'p Type>,
    operands: &[Operand<'p>],
) -> Result<Resolved, AllocError>
    ensures { IfOk result (λ r. IsCallResolution (callee_view callee.entry) (option_map (λ t. view t.now) template.entry)
        (operands_view operands.now) (resolved r)) }
{
    match resolve_callee(alloc, callee, template, operands) {
        Ok(call) => Ok(Ok(call)),
        Err(Fail::Error(reason)) => {
            let message = no_overload(alloc, callee, template, operands)?;
            let notes = notes_on(alloc, callee, template, operands)?;
            Ok(Err(Unresolved {
                reason,
                message,
                notes,
            }))
        }
        Err(Fail::Memory(error)) => Err(error),
    }
}

/// That no overload takes the operands: `+` none that are i32 and f32.
fn no_overload<'p>(
    alloc: Global,
    callee: Callee<'p>,
    template: Option<&'p Type>,
    operands: &[Operand<'p>],
) -> Result<String, AllocError> {
    let mut message = String::from_str(alloc, "no overload of `")?;
    match callee {
        Callee::Unary(operator) => write!(message, "{operator}")?,
        Callee::Binary(operator) => write!(message, "{operator}")?,
        Callee::Function(name) | Callee::Constructor(name) => message.push_str(name)?,
    }
    if let Some(ty) = template {
        write!(message, "<{ty}>")?;
    }
    message.push_str("` takes (")?;
    for (index, operand) in operands.iter().enumerate() {
        let ty = operand.ty.loaded();
        let comma = if index == 0 { "" } else { ", " };
        write!(message, "{comma}{ty}")?;
    }
    message.push(')')?;
    Ok(message)
}

/// Why the nearest overloads don't take the operands.
fn notes_on<'p>(
    alloc: Global,
    callee: Callee<'p>,
    template: Option<&'p Type>,
    operands: &[Operand<'p>],
) -> Result<Vec<String>, AllocError> {
    let mut texts = Vec::new(alloc);
    for note in explain(alloc, callee, template, operands)?
        .iter()
        .take(NOTES)
    {
        texts.push(format!(in alloc; "{note}")?)?;
    }
    Ok(texts)
}

/// The member of an expression, which has this type in place of its own; or why there is none.
pub fn member_of<'p>(
    alloc: Global,
    ty: &'p Type,
    x: &'p Typed,
    name: &'p str,
) -> Result<Result<Typed, String>, AllocError>
    ensures { IfOk result (IsAnswer (IsMember x.now.stage) (member_answer (record { of_type = view ty.now; is_constant = is_const x.now.stage }) name.now)) }
{
    let operand = Operand::of(ty, x.stage.is_const());
    match type_of_member(&operand, name) {
        Ok(form) => {
            let mut made = Typed::of(form.ty.build(alloc)?, x.stage);
            made.referent = form.ty.referent();
            Ok(Ok(made))
        }
        Err(refusal) => Ok(Err(match behind(ty).form() {
            Form::Struct(_) => {
                let of = behind(ty);
                format!(in alloc; "`{of}` has no member `{name}`")?
            }
            _ => format!(in alloc; "{refusal}")?,
        })),
    }
}
