// Types as WGSL spells them.

use crate::prelude::*;
use wgsl_syntax::attribute::AccelerationStructureFlags;

/// The spelling of a type.
pub fn type_text(alloc: Global, module: &Module, ty: MeasuredType) -> Result<String, AllocError> {
    let mut text = String::new(alloc);
    let mut around = Vec::new(alloc);
    let mut inner = ty;
    for _ in 0..ty.levels {
        if let Some(next) = inside(module, inner) {
            around.push(inner)?;
            write_start(&mut text, inner.kind)?;
            inner = next;
        }
    }
    write_leaf(&mut text, module, inner.kind)?;
    for outer in around.iter().rev() {
        write_end(&mut text, outer.kind)?;
    }
    Ok(text)
}

/// Writes the spelling of a type around another, up to the inner type.
fn write_start(text: &mut String, kind: TypeKind) -> Written {
    match kind {
        TypeKind::BindingArray(_, _) => text.push_str("binding_array<"),
        TypeKind::Pointer(space, _, _) => {
            let space = space.name_by(RuleSet::Standard);
            write!(text, "ptr<{space}, ")
        }
        _ => text.push_str("array<"),
    }
}

/// Writes the spelling of a type around another, after the inner type.
fn write_end(text: &mut String, kind: TypeKind) -> Written {
    match kind {
        TypeKind::Array(_, Count::Known(count)) | TypeKind::BindingArray(_, Count::Known(count)) =>
            { write!(text, ", {count}>") }
        TypeKind::Array(_, Count::Override) | TypeKind::BindingArray(_, Count::Override) => {
            text.push_str(", override>")
        }
        TypeKind::Pointer(_, _, access) => write!(text, ", {access}>"),
        _ => text.push_str(">"),
    }
}

/// Writes a type that contains no array and no pointer.
fn write_leaf(text: &mut String, module: &Module, kind: TypeKind) -> Written {
    match kind {
        TypeKind::Scalar(scalar) => text.push_str(scalar.name()),
        TypeKind::Vector(count, scalar) => write!(text, "vec{count}<{scalar}>"),
        TypeKind::Matrix(columns, rows, scalar) => { write!(text, "mat{columns}x{rows}<{scalar}>") }
        TypeKind::Atomic(scalar) => write!(text, "atomic<{scalar}>"),
        TypeKind::Struct(index) => match module.structs.get(index) {
            Some(structure) => text.push_str(structure.name),
            None => Ok(()),
        },
        TypeKind::Sampler(sampler) => write!(text, "{sampler}"),
        TypeKind::Texture(texture) => {
            let shown = ShownTexture {
                texture,
                rules: RuleSet::Standard,
            };
            write!(text, "{shown}")
        }
        TypeKind::RayQuery(flag) => write_flagged(text, "ray_query", flag),
        TypeKind::AccelerationStructure(flag) => {
            write_flagged(text, "acceleration_structure", flag)
        }
        TypeKind::Array(_, _) | TypeKind::BindingArray(_, _) | TypeKind::Pointer(_, _, _) => Ok(()),
    }
}

fn write_flagged(
    text: &mut String,
    name: &str,
    flag: Option<AccelerationStructureFlags>,
) -> Written {
    text.push_str(name)?;
    match flag {
        Some(flag) => write!(text, "<{flag}>"),
        None => Ok(()),
    }
}
