// Layouts and bindings as an object of JSON.

use crate::prelude::*;
use crate::tree::write_tree;
use wgsl_source::entry::{EntryPoint, Override, WorkgroupExtent};

/// Writes the chosen structs and all else of a module, on one line.
pub fn write_json(output: &mut String, source: Source) -> Written {
    let file = Escaped(source.file);
    write!(output, r#"{{"file":"{file}","structs":["#)?;
    write_structs(output, source)?;
    output.push_str(r#"],"leftOut":["#)?;
    for (index, name) in once(source.alloc, &source.module.left_out)?
        .iter()
        .enumerate()
    {
        let (comma, name) = (separator(index), Escaped(*name));
        write!(output, r#"{comma}"{name}""#)?;
    }
    output.push_str(r#"],"variables":["#)?;
    for (index, variable) in source.module.variables.iter().enumerate() {
        write_variable(output, source, index, variable)?;
    }
    output.push_str(r#"],"overrides":["#)?;
    for (index, constant) in source.module.overrides.iter().enumerate() {
        write_override(output, source, index, constant)?;
    }
    output.push_str(r#"],"entryPoints":["#)?;
    for (index, entry_point) in source.module.entry_points.iter().enumerate() {
        write_entry_point(output, source, index, entry_point)?;
    }
    output.push_str(r#"],"errors":["#)?;
    write_messages(output, source.lines, source.messages, Severity::Error)?;
    output.push_str(r#"],"findings":["#)?;
    write_messages(output, source.lines, source.messages, Severity::Finding)?;
    output.push_str("]}\n")
}

/// The separator in front of an element of a list.
pub fn separator(index: usize) -> &'static str {
    if index == 0 { "" } else { "," }
}

/// Writes the name and the place of a declaration, which is at this index of a list.
fn write_named(
    output: &mut String,
    source: Source,
    index: usize,
    name: &str,
    at: usize,
) -> Written {
    let (comma, name) = (separator(index), Escaped(name));
    let place = Fields(source.lines.place(at));
    write!(output, r#"{comma}{{"name":"{name}",{place}"#)
}

fn write_structs(output: &mut String, source: Source) -> Written {
    let mut written = 0usize;
    for index in &source.module.in_text {
        if let Some(structure) = source.chosen(*index) {
            write_named(output, source, written, structure.name, structure.place)?;
            write_struct(output, source, structure)?;
            written = 1;
        }
    }
    Ok(())
}

/// Writes the rest of a struct after its place, with its members.
fn write_struct(output: &mut String, source: Source, structure: &Struct) -> Written {
    let (size, align) = (structure.size, structure.align);
    let is_runtime_sized = structure.is_runtime_sized;
    write!(output, r#","size":{size},"align":{align}"#)?;
    write!(output, r#","runtimeSized":{is_runtime_sized},"members":["#)?;
    for (index, member) in structure.members.iter().enumerate() {
        write_named(output, source, index, member.name, member.place)?;
        write_member(output, source, member, end_of(structure, index))?;
    }
    output.push_str("]}")
}

/// Writes the rest of a member after its place, with the padding up to an offset.
fn write_member(output: &mut String, source: Source, member: &Member, end: u32) -> Written {
    write_type(output, source, member.ty)?;
    let (offset, size, align) = (member.offset, member.size, member.align);
    let stride = OrNull(stride_of(source.module, member.ty));
    let gap = padding(member, end).unwrap_or(0);
    write!(
        output,
        r#","offset":{offset},"size":{size},"align":{align}"#
    )?;
    write!(output, r#","stride":{stride},"padding":{gap}}}"#)
}

/// The fields for a type: its spelling, and its tree.
fn write_type(output: &mut String, source: Source, ty: MeasuredType) -> Written {
    let spelling = type_text(source.alloc, source.module, ty)?;
    let spelling = Escaped(spelling.as_str());
    write!(output, r#","type":"{spelling}","typeTree":"#)?;
    write_tree(output, source.module, ty)
}

/// Writes a variable, with its resource and its minimum binding size.
fn write_variable(
    output: &mut String,
    source: Source,
    index: usize,
    variable: &Variable,
) -> Written {
    write_named(output, source, index, variable.name, variable.place)?;
    write_type(output, source, variable.ty)?;
    let (group, binding) = (OrNull(variable.group), OrNull(variable.binding));
    let (space, access) = (variable.space.name_by(RuleSet::Standard), variable.access);
    write!(output, r#","group":{group},"binding":{binding}"#)?;
    write!(
        output,
        r#","space":"{space}","access":"{access}","resource":"#
    )?;
    write_resource(output, source, variable)?;
    let size = OrNull(variable.ty.size);
    let smallest = OrNull(min_binding_size(source.module, variable));
    write!(output, r#","size":{size},"minBindingSize":{smallest}}}"#)
}

/// Writes the resource of a variable: a buffer, or the kind that its type has.
fn write_resource(output: &mut String, source: Source, variable: &Variable) -> Written {
    match variable.space {
        AddressSpace::Handle => write_tree(output, source.module, variable.ty),
        space => write_buffer(output, space, variable.access),
    }
}

fn write_override(
    output: &mut String,
    source: Source,
    index: usize,
    constant: &Override,
) -> Written {
    write_named(output, source, index, constant.name, constant.place)?;
    let (id, has_default) = (OrNull(constant.id), constant.has_default);
    match constant.ty {
        Some(scalar) => write!(output, r#","id":{id},"type":"{scalar}""#)?,
        None => write!(output, r#","id":{id},"type":null"#)?,
    }
    write!(output, r#","hasDefault":{has_default}}}"#)
}

/// Writes an entry point. Its workgroup is `null` if it has none, and an extent of it is `null` if an override gives
/// it.
fn write_entry_point(
    output: &mut String,
    source: Source,
    index: usize,
    entry_point: &EntryPoint,
) -> Written {
    write_named(output, source, index, entry_point.name, entry_point.place)?;
    let stage = entry_point.stage.name();
    write!(output, r#","stage":"{stage}","workgroupSize":"#)?;
    match entry_point.workgroup_size {
        Some(extents) => write_extents(output, extents)?,
        None => output.push_str("null")?,
    }
    output.push_str("}")
}

fn write_extents(output: &mut String, extents: [WorkgroupExtent; 3]) -> Written {
    for (index, extent) in extents.iter().enumerate() {
        output.push_str(if index == 0 { "[" } else { "," })?;
        match extent {
            WorkgroupExtent::Known(count) => write!(output, "{count}")?,
            WorkgroupExtent::Override => output.push_str("null")?,
        }
    }
    output.push_str("]")
}

/// Writes the messages of a severity as objects with commas between.
pub fn write_messages(
    output: &mut String,
    lines: &Lines,
    messages: &[Message],
    severity: Severity,
) -> Written {
    let mut written = 0usize;
    for message in messages {
        if message.severity == severity {
            write_message(output, lines, written, message)?;
            written = 1;
        }
    }
    Ok(())
}

fn write_message(output: &mut String, lines: &Lines, index: usize, message: &Message) -> Written {
    let (comma, kind, text) = (
        separator(index),
        message.kind.as_str(),
        message.text.as_str(),
    );
    write!(output, r#"{comma}{{"kind":"{kind}","#)?;
    write_placed(output, lines, message.at, message.end, text)?;
    for (index, note) in message.notes.iter().enumerate() {
        output.push_str(if index == 0 { r#","notes":[{"# } else { "},{" })?;
        write_placed(output, lines, note.at, note.end, note.text.as_str())?;
    }
    output.push_str(if message.notes.is_empty() { "}" } else { "}]}" })
}

/// Writes the fields for a place and a message.
fn write_placed(output: &mut String, lines: &Lines, at: usize, end: usize, text: &str) -> Written {
    let (start, end) = (Fields(lines.place(at)), Fields(lines.place(end)));
    let text = Escaped(text);
    write!(output, r#"{start},"end":{{{end}}},"message":"{text}""#)
}
