// The types to which references and pointers refer.
ghost use Rattle.std.specs.Prelude.{◌≡◌};
ghost use Rattle.wgsl_standard.specs.forms.Prelude.{given_type};
ghost use Rattle.wgsl_standard.specs.forms.Memory.{behind as lies_behind, memory_of};
ghost use Rattle.wgsl_standard.specs.forms.internal.References.{reference_to as reference_there};

use crate::forms::prelude::*;

/// The type to which a reference or a pointer refers; any other type itself.
#[derive(Clone, Copy)]
pub(crate) struct Whole<'a> {
    /// If it is behind a reference or a pointer, where it lies.
    pub memory: Option<(AddressSpace, AccessMode)>,
    pub ty: OperandType<'a>,
}

/// The type to which the type of an operand refers.
#[inline(always)]
pub(crate) fn behind(ty: OperandType<'_>) -> Whole<'_>
    ensures memory { result.memory ≡ memory_of (given_type ty.entry) }
    ensures ty { given_type result.ty ≡ lies_behind (given_type ty.entry) }
{
    match ty {
        OperandType::Value(_, _) => Whole { memory: None, ty },
        OperandType::Any(of) => match of.form() {
            Form::Reference(space, stored, access) | Form::Pointer(space, stored, access) => Whole {
                memory: Some((space, access)),
                ty: OperandType::Any(stored),
            },
            _ => Whole { memory: None, ty },
        },
    }
}

/// The reference to a part of what lies there.
#[inline(always)]
pub(crate) fn reference_to(
    memory: Option<(AddressSpace, AccessMode)>,
    referent: Referent,
) -> Option<MemoryView>
    ensures { result ≡ reference_there memory referent }
{
    match memory {
        Some((space, access)) => Some(MemoryView::Reference(referent, space, access)),
        None => None,
    }
}
