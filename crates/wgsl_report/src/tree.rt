// Types as trees of JSON.

use crate::prelude::*;

/// Writes a type as an object of JSON, with the types inside it as objects in that.
pub fn write_tree(output: &mut String, module: &Module, ty: MeasuredType) -> Written {
    let mut inner = ty;
    let mut opened = 0usize;
    for _ in 0..ty.levels {
        let Some(next) = inside(module, inner) else {
            break;
        };
        write_layer(output, module, inner)?;
        opened = opened.saturating_add(1);
        inner = next;
    }
    write_leaf(output, module, inner)?;
    for _ in 0..opened {
        output.push_str("}")?;
    }
    Ok(())
}

/// Writes the object of a type around another, up to the inner type.
fn write_layer(output: &mut String, module: &Module, ty: MeasuredType) -> Written {
    let (kind, count, key) = match ty.kind {
        TypeKind::Array(_, count) => ("array", count.known(), "element"),
        TypeKind::BindingArray(_, count) => ("bindingArray", count.known(), "element"),
        _ => ("pointer", None, "target"),
    };
    let (count, stride) = (OrNull(count), OrNull(stride_of(module, ty)));
    write!(
        output,
        r#"{{"kind":"{kind}","count":{count},"stride":{stride},"{key}":"#
    )
}

/// Writes a type that contains no array.
fn write_leaf(output: &mut String, module: &Module, ty: MeasuredType) -> Written {
    match ty.kind {
        TypeKind::Scalar(scalar) => write_scalar(output, scalar),
        TypeKind::Vector(count, scalar) => {
            write!(output, r#"{{"kind":"vector","count":{count}"#)?;
            write_component(output, scalar)
        }
        TypeKind::Matrix(columns, rows, scalar) => {
            let stride = OrNull(stride_of(module, ty));
            write!(output, r#"{{"kind":"matrix","columns":{columns}"#)?;
            write!(output, r#","rows":{rows},"stride":{stride}"#)?;
            write_component(output, scalar)
        }
        TypeKind::Atomic(scalar) => {
            output.push_str(r#"{"kind":"atomic""#)?;
            write_component(output, scalar)
        }
        TypeKind::Struct(index) => write_name(output, module, index),
        TypeKind::Sampler(sampler) => write_sampler(output, sampler),
        TypeKind::Texture(texture) => write_texture(output, texture),
        TypeKind::RayQuery(_) => output.push_str(r#"{"kind":"rayQuery"}"#),
        _ => output.push_str(r#"{"kind":"accelerationStructure"}"#),
    }
}

/// Writes the rest of a type that contains scalars.
fn write_component(output: &mut String, scalar: Scalar) -> Written {
    output.push_str(r#","component":"#)?;
    write_scalar(output, scalar)?;
    output.push_str("}")
}

fn write_scalar(output: &mut String, scalar: Scalar) -> Written {
    let name = scalar.name();
    write!(output, r#"{{"kind":"scalar","name":"{name}"}}"#)
}

fn write_name(output: &mut String, module: &Module, index: usize) -> Written {
    let name = match module.structs.get(index) {
        Some(structure) => structure.name,
        None => "",
    };
    let name = Escaped(name);
    write!(output, r#"{{"kind":"struct","name":"{name}"}}"#)
}
