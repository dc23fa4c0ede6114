// What an address space requires of the layout of its variables (WGSL, "Address Space Layout Constraints").
ghost use Rattle.std.specs.Prelude.{◌≡◌, ◌↔◌, IsTrue, MatchOption};
ghost use Rattle.std.specs.Int.{◌∣◌};
ghost use Rattle.wgsl_report.specs.spaces.Spaces.{AreApart, Breaks, IsAlignAttribute, IsAligned, IsBehind, IsLifted, IsSizeAttribute, LieApart, MayLie, required_align, up_to_16};

use crate::prelude::*;

/// What the rules see of a type: its size and its alignment in bytes, and whether it is an array or a struct.
#[derive(Clone, Copy)]
pub struct Extent {
    pub shape: Shape,
    pub size: u32,
    pub align: u32,
}

/// The kinds of types that have rules of their own.
#[derive(Clone, Copy)]
pub enum Shape {
    Array,
    Struct,
    Other,
}

/// A member of a struct: what the rules see of its type, its attributes, its offset, and that of the next member.
#[derive(Clone, Copy)]
pub struct Position {
    pub extent: Extent,
    pub size: Option<u32>,
    pub align: Option<u32>,
    pub offset: u32,
    pub next: Option<u32>,
}

/// A rule for the members of a struct.
#[derive(Clone, Copy, PartialEq, Eq)]
pub enum Rule {
    /// The offset is a multiple of the alignment that the type must have.
    Offset,
    /// The member after a struct begins no earlier than the struct's size rounded up to a multiple of 16.
    Behind,
    /// The attribute `align` is a power of two, and a multiple of the alignment that the type must have.
    Align,
    /// The attribute `size` is no less than the type's size.
    Size,
}

/// A number rounded up to a multiple of 16.
pub fn up_to_16(number: u32) -> u64
    ensures { result ≡ up_to_16 number }
{
    u64::from(number).next_multiple_of(16)
}

/// The alignment that a type must have in an address space.
pub fn required_align(space: AddressSpace, extent: Extent) -> u64
    ensures { result ≡ required_align space extent.shape extent.align }
{
    match (space, extent.shape) {
        (AddressSpace::Uniform, Shape::Array | Shape::Struct) => up_to_16(extent.align),
        _ => u64::from(extent.align),
    }
}

fn divides(divisor: u64, number: u32) -> bool
    ensures { IsTrue result ↔ (divisor ∣ number) }
{
    if divisor == 0 {
        number == 0
    } else {
        u64::from(number) % divisor == 0
    }
}

/// Whether a number is a multiple of the alignment that a type must have.
pub fn is_aligned(space: AddressSpace, extent: Extent, number: u32) -> bool
    ensures { IsTrue result ↔ IsAligned space extent number }
{
    divides(required_align(space, extent), number)
}

/// Whether an array of these elements may have this stride in an address space.
pub fn may_lie_apart(space: AddressSpace, extent: Extent, stride: u32) -> bool
    ensures { IsTrue result ↔ LieApart space extent stride }
{
    is_aligned(space, extent, stride) && are_apart(space, stride)
}

fn are_apart(space: AddressSpace, stride: u32) -> bool
    ensures { IsTrue result ↔ AreApart space stride }
{
    match space {
        AddressSpace::Uniform => divides(16, stride),
        _ => true,
    }
}

/// Whether a member may have this attribute `align`.
pub fn is_align_attribute(space: AddressSpace, extent: Extent, align: Option<u32>) -> bool
    ensures { IsTrue result ↔ IsAlignAttribute space extent align }
{
    match align {
        Some(align) => align.is_power_of_two() && is_aligned(space, extent, align),
        None => true,
    }
}

/// Whether a member may have this attribute `size`.
fn is_size_attribute(extent: Extent, size: Option<u32>) -> bool
    ensures { IsTrue result ↔ IsSizeAttribute extent size }
{
    match size {
        Some(size) => extent.size <= size,
        None => true,
    }
}

/// Whether the next member begins far enough after a member at this offset.
fn is_behind(space: AddressSpace, extent: Extent, offset: u32, next: Option<u32>) -> bool
    ensures { IsTrue result ↔ IsBehind space extent.shape extent.size offset next }
{
    match (space, extent.shape, next) {
        (AddressSpace::Uniform, Shape::Struct, Some(next)) => {
            u64::from(offset) + up_to_16(extent.size) <= u64::from(next)
        }
        _ => true,
    }
}

/// Whether a member keeps a rule of an address space.
fn keeps(space: AddressSpace, rule: Rule, member: Position) -> bool
    ensures { IsTrue result ↔ ¬ Breaks rule space member }
{
    match rule {
        Rule::Offset => is_aligned(space, member.extent, member.offset),
        Rule::Behind => is_behind(space, member.extent, member.offset, member.next),
        Rule::Align => is_align_attribute(space, member.extent, member.align),
        Rule::Size => is_size_attribute(member.extent, member.size),
    }
}

/// The first rule of an address space that a member breaks.
pub fn broken_rule(space: AddressSpace, member: Position) -> Option<Rule>
    ensures { MatchOption result (MayLie space member) (λ rule. Breaks rule space member) }
{
    if !is_aligned(space, member.extent, member.offset) {
        Some(Rule::Offset)
    } else if !is_behind(space, member.extent, member.offset, member.next) {
        Some(Rule::Behind)
    } else if !is_align_attribute(space, member.extent, member.align) {
        Some(Rule::Align)
    } else if !is_size_attribute(member.extent, member.size) {
        Some(Rule::Size)
    } else {
        None
    }
}

/// Whether `requires uniform_buffer_standard_layout;` lifts a rule of `uniform` that a member breaks: whether the
/// member keeps the rule as it is for `storage`.
pub fn is_lifted(rule: Rule, member: Position) -> bool
    ensures { IsTrue result ↔ IsLifted rule member }
{
    keeps(AddressSpace::Storage, rule, member)
}
