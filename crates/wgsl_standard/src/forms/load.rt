// The load of a reference.
ghost use Rattle.std.specs.Prelude.{◌≡◌};
ghost use Rattle.wgsl_standard.specs.forms.Prelude.{given_type};
ghost use Rattle.wgsl_standard.specs.forms.Load.{is_loadable as loadable, load_answer, loaded, stored_loaded};
ghost use Rattle.wgsl_standard.specs.forms.Views.{answer_view, given};
ghost use Rattle.wgsl_standard.specs.forms.internal.References.{loaded_in};

use crate::forms::prelude::*;

/// An operand, loaded (WGSL, "Load Rule"): what is no reference stays. `NotRead` if the reference can't be read,
/// `NotConstructible` if it holds something else than a constructible type or a handle.
pub fn load<'a>(x: &Operand<'a>) -> Result<Operand<'a>, Refusal<'a>>
    ensures { answer_view given result ≡ load_answer (given x.now) }
{
    let ty = load_type(x.ty)?;
    Ok(Operand {
        ty,
        is_constant: is_const_expression(x),
    })
}

/// The type of an operand, loaded.
#[inline(always)]
pub fn load_type<'a>(ty: OperandType<'a>) -> Result<OperandType<'a>, Refusal<'a>>
    ensures { answer_view given_type result ≡ loaded (given_type ty.entry) }
{
    match ty {
        OperandType::Value(_, _) => Ok(ty),
        OperandType::Any(of) => match of.form() {
            Form::Reference(_, stored, access) => load_stored(OperandType::of(stored), access),
            _ => Ok(ty),
        },
    }
}

/// The type that is loaded from memory, or without memory the loaded type of an operand.
pub(crate) fn load_in<'a>(
    memory: Option<(AddressSpace, AccessMode)>,
    ty: OperandType<'a>,
) -> Result<OperandType<'a>, Refusal<'a>>
    ensures { answer_view given_type result ≡ loaded_in memory (given_type ty.entry) }
{
    match memory {
        Some((_, access)) => load_stored(ty, access),
        None => load_type(ty),
    }
}

fn load_stored<'a>(
    stored: OperandType<'a>,
    access: AccessMode,
) -> Result<OperandType<'a>, Refusal<'a>>
    ensures { answer_view given_type result ≡ stored_loaded access (given_type stored.entry) }
{
    if !access.is_read() {
        return Err(Refusal::NotRead);
    }
    if is_loadable(stored) {
        Ok(stored)
    } else {
        Err(Refusal::NotConstructible(UnbuiltType::of(stored)))
    }
}

fn is_loadable(ty: OperandType<'_>) -> bool
    ensures { result ≡ loadable (given_type ty.entry) }
{
    match ty {
        OperandType::Value(_, _) => true,
        OperandType::Any(ty) => is_constructible(ty) || is_handle(ty),
    }
}
