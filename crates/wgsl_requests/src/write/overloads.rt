// Writes the answers about WGSL's own overloads.
ghost use Rattle.std.specs.Prelude.{map, option_map};
ghost use Rattle.wgsl_requests.specs.Prelude.{listed, template_text, value_of, wgsl_spelling, parameter_view, view, given_type, resolved_view, result_view};
ghost use Rattle.wgsl_requests.specs.Prelude.{callee_text, line_of, note_text};
ghost use Rattle.wgsl_requests.specs.Views.{call_view};
ghost use Rattle.wgsl_requests.specs.Texts.{Writes, lines_text, no_candidate_text, no_overload_text, or_no_overload, resolution_text, result_text, suggestion, unknown_text, value_text};

use crate::fast::write_type;
use crate::prelude::*;
use crate::write::lists::{write_lines, write_parameters, write_types};
use crate::write::write_resolved;
use wgsl_standard::meant::{meant, unknown_name};

/// Writes the type of a call, `no value`, or that no overload takes its operands.
#[inline(always)]
pub(crate) fn write_type_of(
    text: &mut String,
    call: &Call<'_>,
    found: &Option<Option<ResultType>>,
) -> Made<()>
    ensures { Writes (or_no_overload value_text (call_view call.now) (option_map (option_map result_view) found.now)) text.old text.new result }
{
    match found {
        Some(Some(ResultType::Value(dimensions, scalar))) => {
            write_resolved(text, ResolvedType::of_scalar(*dimensions, *scalar))
        }
        Some(Some(ResultType::Built(ty))) => write_type(text, RuleSet::Ported, ty),
        Some(None) => text.push_str("no value"),
        None => write_no_overload(text, call),
    }
}

/// Writes what a call resolves to, or that no overload takes its operands.
pub(crate) fn write_resolution_of(
    text: &mut String,
    call: &Call<'_>,
    found: &Option<ResolvedCall>,
) -> Made<()>
    ensures { Writes (or_no_overload resolution_text (call_view call.now) (option_map resolved_view found.now)) text.old text.new result }
{
    match found {
        Some(resolved) => {
            write_signature(text, resolved.index, &resolved.parameters, &resolved.result)
        }
        None => write_no_overload(text, call),
    }
}

/// Writes the index of a line, the types of its parameters, and that of its result: `3 (vec3<f32>, f32) -> vec3<f32>`.
pub fn write_signature(
    text: &mut String,
    index: usize,
    parameters: &[Type],
    of_result: &Option<Type>,
) -> Made<()>
    ensures { Writes (resolution_text (index, map view parameters.now, option_map view of_result.now)) text.old text.new result }
{
    write!(text, "{index} (")?;
    write_types(text, RuleSet::Standard, parameters)?;
    text.push_str(")")?;
    write_result(text, of_result)
}

fn write_result(text: &mut String, ty: &Option<Type>) -> Made<()>
    ensures { Writes (result_text (option_map view ty.now)) text.old text.new result }
{
    match ty {
        Some(ty) => {
            text.push_str(" -> ")?;
            write_type(text, RuleSet::Standard, ty)
        }
        None => Ok(()),
    }
}

/// Writes why a call has no answer.
#[inline(never)]
fn write_no_overload(text: &mut String, call: &Call<'_>) -> Made<()>
    ensures { Writes (no_overload_text (call_view call.now)) text.old text.new result }
{
    match unknown_name(call.callee) {
        Some(name) => write_unknown(text, name),
        None => write_no_candidate(text, call),
    }
}

/// Writes that nothing has the name, and which one may be meant.
fn write_unknown(text: &mut String, name: &str) -> Made<()>
    ensures { Writes (unknown_text name.now) text.old text.new result }
{
    write!(text, "nothing has the name `{name}`")?;
    write_suggestion(text, meant(name))
}

/// Writes which name may be meant, if one may.
pub fn write_suggestion(text: &mut String, name: Option<&str>) -> Made<()>
    ensures { Writes (suggestion (option_map (λ name. name.now) name.entry)) text.old text.new result }
{
    match name {
        Some(name) => write!(text, "; did you mean `{name}`?"),
        None => Ok(()),
    }
}

/// Writes that no overload takes the operands of a call.
fn write_no_candidate(text: &mut String, call: &Call<'_>) -> Made<()>
    ensures { Writes (no_candidate_text (call_view call.now)) text.old text.new result }
{
    text.push_str("no overload of `")?;
    write_callee(text, call.callee)?;
    write_template(text, call.template)?;
    text.push_str("` takes (")?;
    write_operand_types(text, call.operands)?;
    text.push(')')
}

/// Writes the types of operands, once they are loaded, with a comma between.
#[inline(always)]
fn write_operand_types(text: &mut String, operands: &[Operand<'_>]) -> Made<()>
    ensures { Writes (listed (λ x. wgsl_spelling (value_of (given_type x.ty))) operands.now) text.old text.new result }
{
    let Some((first, rest)) = operands.split_first() else {
        return Ok(());
    };
    write_operand_type(text, first.ty.loaded())?;
    for operand in rest {
        text.push_str(", ")?;
        write_operand_type(text, operand.ty.loaded())?;
    }
    Ok(())
}

/// Writes the type of an operand, a scalar without a formatter.
#[inline(always)]
fn write_operand_type(text: &mut String, ty: OperandType<'_>) -> Made<()>
    ensures { Writes (wgsl_spelling (given_type ty.entry)) text.old text.new result }
{
    match ty {
        OperandType::Value(Dimensions::Single, scalar) => text.push_str(scalar.name()),
        _ => write!(text, "{ty}"),
    }
}

fn write_callee(text: &mut String, callee: Callee<'_>) -> Made<()>
    ensures { Writes (callee_text callee.entry) text.old text.new result }
{
    match callee {
        Callee::Unary(operator) => write!(text, "{operator}"),
        Callee::Binary(operator) => write!(text, "{operator}"),
        Callee::Function(name) => text.push_str(name),
        Callee::Constructor(name) => text.push_str(name),
    }
}

pub(crate) fn write_template(text: &mut String, template: Option<&[TpltParam]>) -> Made<()>
    ensures { Writes (template_text (option_map (λ ps. map parameter_view ps.now) template.entry)) text.old text.new result }
{
    match template {
        Some(parameters) => {
            text.push_str("<")?;
            write_parameters(text, parameters)?;
            text.push_str(">")
        }
        None => Ok(()),
    }
}

/// Writes a line for each signature, or `none`.
pub(crate) fn write_signatures(text: &mut String, signatures: &[Signature<'_>]) -> Made<()>
    ensures { Writes (lines_text (map line_of signatures.now)) text.old text.new result }
{
    write_lines(text, signatures)
}

/// Writes a line for each note, or `none`.
pub(crate) fn write_notes(text: &mut String, notes: &[Note<'_>]) -> Made<()>
    ensures { Writes (lines_text (map note_text notes.now)) text.old text.new result }
{
    write_lines(text, notes)
}
