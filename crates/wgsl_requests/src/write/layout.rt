// Writes the offsets of a struct's members, and its layout as a table.
ghost use Rattle.std.specs.Prelude.{option_map};
ghost use Rattle.wgsl_core.specs.View.{struct_view};
ghost use Rattle.wgsl_requests.specs.Views.{layout_view, placed_line, placed_lines};
ghost use Rattle.wgsl_requests.specs.Texts.{layout_text, spaced, struct_line, Writes, or_none};

use crate::fast::write_number;
use crate::reply::Made;
use wgsl_core::layout::{PlacedMember, StructLayout};
use wgsl_core::ty::{StructMemberType, StructType};

/// Writes a line for each member and one for the struct, or `none` if it has no layout.
///
/// A line begins with three columns in bytes, a member's with its offset, its size and its alignment, the last with the
/// size of the whole, a dash and its alignment.
pub fn write_layout(text: &mut String, ty: &StructType, layout: &Option<StructLayout>) -> Made<()>
    ensures { let struct = struct_view ty.now in Writes (or_none
        (layout_text struct.name struct.members) (option_map layout_view layout.now)) text.old text.new result }
{
    match layout {
        Some(layout) => write_lines(text, ty, layout),
        None => text.push_str("none"),
    }
}

fn write_lines(text: &mut String, structure: &StructType, layout: &StructLayout) -> Made<()>
    ensures { let struct = struct_view structure.now in
        Writes (layout_text struct.name struct.members (layout_view layout.now)) text.old text.new result }
{
    write_members(&structure.members, &layout.members, text)?;
    write_last(&structure.name, layout, text)
}

fn write_members(
    members: &[StructMemberType],
    placed: &[PlacedMember],
    text: &mut String,
) -> Made<()>
    ensures { Writes (placed_lines members.now placed.now) text.old text.new result }
{
    for (member, placed) in members.iter().zip(placed) {
        write_member(member, placed, text)?;
    }
    Ok(())
}

/// The struct's line: its size, a dash, its alignment and its name.
fn write_last(name: &str, layout: &StructLayout, text: &mut String) -> Made<()>
    ensures { Writes (struct_line name.now layout.now.size layout.now.align) text.old text.new result }
{
    let StructLayout { size, align, .. } = layout;
    write!(text, "{size:>10} {:>10} {align:>10} {name}", "-")
}

/// A member's line: its offset, size and alignment, its name and its type.
fn write_member(member: &StructMemberType, placed: &PlacedMember, text: &mut String) -> Made<()>
    ensures { Writes (placed_line member.now placed.now) text.old text.new result }
{
    let PlacedMember {
        offset,
        size,
        align,
    } = placed;
    let name = &member.name;
    let ty = &member.ty;
    write!(text, "{offset:>10} {size:>10} {align:>10} {name} {ty}\n")
}

/// Writes the offsets with one space between, or `none`.
pub fn write_offsets(text: &mut String, offsets: &Option<Vec<u32>>) -> Made<()>
    ensures { Writes (or_none spaced (option_map (λ v. v.items) offsets.now)) text.old text.new result }
{
    match offsets {
        Some(offsets) => write_spaced(text, offsets),
        None => text.push_str("none"),
    }
}

/// Writes the numbers with one space between.
fn write_spaced(text: &mut String, numbers: &[u32]) -> Made<()>
    ensures { Writes (spaced numbers.now) text.old text.new result }
{
    let Some((first, rest)) = numbers.split_first() else {
        return Ok(());
    };
    write_number(text, u64::from(*first))?;
    for number in rest {
        text.push_str(" ")?;
        write_number(text, u64::from(*number))?;
    }
    Ok(())
}
