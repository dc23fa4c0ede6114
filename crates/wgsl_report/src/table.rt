// Layouts and bindings as tables, for people.

use crate::prelude::*;

/// Writes the chosen structs; the variables, unless structs are asked about by name; and what is wrong.
pub fn write_tables(output: &mut String, source: Source, style: Style) -> Written {
    for index in &source.module.in_text {
        if let Some(structure) = source.chosen(*index) {
            write_struct(output, source, structure)?;
        }
    }
    if source.has_all {
        for variable in &source.module.variables {
            write_variable(output, source, variable)?;
        }
    }
    write_messages(output, source, style)
}

/// Writes a struct, with a line for each member and for each gap after one.
fn write_struct(output: &mut String, source: Source, structure: &Struct) -> Written {
    write_head(output, structure)?;
    for (index, member) in structure.members.iter().enumerate() {
        write_member(output, source, member)?;
        write_gap(output, member, end_of(structure, index))?;
    }
    output.push_str("}\n")
}

fn write_head(output: &mut String, structure: &Struct) -> Written {
    let (name, size, align) = (structure.name, structure.size, structure.align);
    let ending = if structure.is_runtime_sized {
        ", with one element at the end"
    } else {
        ""
    };
    write!(
        output,
        "struct {name} {{ // {size} bytes, alignment {align}{ending}\n"
    )?;
    output.push_str("  offset    size   align  stride\n")
}

fn write_member(output: &mut String, source: Source, member: &Member) -> Written {
    let (offset, size, align) = (member.offset, member.size, member.align);
    write!(output, "{offset:>8}{size:>8}{align:>8}")?;
    match stride_of(source.module, member.ty) {
        Some(stride) => write!(output, "{stride:>8}  ")?,
        None => output.push_str("       -  ")?,
    }
    write_typed(output, source, member.name, member.ty)?;
    output.push_str("\n")
}

/// A name and its type.
fn write_typed(output: &mut String, source: Source, name: &str, ty: MeasuredType) -> Written {
    let spelling = type_text(source.alloc, source.module, ty)?;
    write!(output, "{name}: {spelling}")
}

/// Writes the gap after a member.
fn write_gap(output: &mut String, member: &Member, next: u32) -> Written {
    let Some(gap) = padding(member, next) else {
        return Ok(());
    };
    let start = next.saturating_sub(gap);
    write!(output, "{start:>8}{gap:>8}                  ")?;
    write!(output, "// -- implicit, {gap} bytes\n")
}

/// Writes a variable, with its minimum binding size.
fn write_variable(output: &mut String, source: Source, variable: &Variable) -> Written {
    let group = IfKnown("@group(", variable.group, ") ");
    let binding = IfKnown("@binding(", variable.binding, ") ");
    match Place::of(variable) {
        Place::Handle => write!(output, "{group}{binding}var ")?,
        place => {
            let space = place.text();
            write!(output, "{group}{binding}var<{space}> ")?
        }
    }
    write_typed(output, source, variable.name, variable.ty)?;
    let smallest = min_binding_size(source.module, variable);
    let smallest = IfKnown(" // smallest binding: ", smallest, " bytes");
    write!(output, ";{smallest}\n")
}
