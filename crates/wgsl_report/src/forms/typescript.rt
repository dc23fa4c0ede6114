// Structs and bindings as constants of TypeScript.

use crate::prelude::*;

/// Writes the chosen structs; and the variables that are bound, unless structs are asked about by name.
pub fn write_typescript(output: &mut String, source: Source) -> Written {
    output.push_str("export const structs = {\n")?;
    for index in &source.module.in_text {
        if let Some(structure) = source.chosen(*index) {
            write_struct(output, source, structure)?;
        }
    }
    output.push_str("} as const;\n")?;
    let mut head = "\nexport const bindings = {\n";
    for variable in &source.module.variables {
        if source.has_all && variable.binding.is_some() {
            output.push_str(head)?;
            head = "";
            write_binding(output, source, variable)?;
        }
    }
    output.push_str(if head.is_empty() { "} as const;\n" } else { "" })
}

fn write_struct(output: &mut String, source: Source, structure: &Struct) -> Written {
    write_key(output, "  ", structure.name)?;
    let (size, align) = (structure.size, structure.align);
    write!(output, "{{\n    size: {size}, align: {align},")?;
    if structure.is_runtime_sized {
        output.push_str(" // with one element at the end")?;
    }
    output.push_str("\n    members: {\n")?;
    for member in &structure.members {
        write_member(output, source, member)?;
    }
    output.push_str("    },\n  },\n")
}

fn write_member(output: &mut String, source: Source, member: &Member) -> Written {
    write_key(output, "      ", member.name)?;
    let (offset, size) = (member.offset, member.size);
    let stride = IfKnown(", stride: ", stride_of(source.module, member.ty), "");
    write!(output, "{{ offset: {offset}, size: {size}{stride}")?;
    write_type(output, source, member.ty)?;
    output.push_str(" },\n")
}

fn write_binding(output: &mut String, source: Source, variable: &Variable) -> Written {
    write_key(output, "  ", variable.name)?;
    let (group, binding) = (OrNull(variable.group), OrNull(variable.binding));
    let (space, access) = (variable.space.name_by(RuleSet::Standard), variable.access);
    write!(output, "{{ group: {group}, binding: {binding}, ")?;
    write!(output, r#"space: "{space}", access: "{access}""#)?;
    write_type(output, source, variable.ty)?;
    let smallest = min_binding_size(source.module, variable);
    let smallest = IfKnown(", minBindingSize: ", smallest, "");
    write!(output, "{smallest} }},\n")
}

/// Writes the name of a property, and the colon. One that isn't ASCII is quoted.
fn write_key(output: &mut String, indent: &str, name: &str) -> Written {
    let quote = if name.is_ascii() { "" } else { "\"" };
    let name = Escaped(name);
    write!(output, "{indent}{quote}{name}{quote}: ")
}

fn write_type(output: &mut String, source: Source, ty: MeasuredType) -> Written {
    let spelling = type_text(source.alloc, source.module, ty)?;
    let spelling = Escaped(spelling.as_str());
    write!(output, r#", type: "{spelling}""#)
}
