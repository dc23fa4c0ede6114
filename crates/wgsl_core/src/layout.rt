// Sizes, alignments and offsets in memory.
ghost use Rattle.std.specs.Prelude.{◌≡◌, ◌↔◌, IfOk, IfSome};
ghost use Rattle.wgsl_rules.specs.types.Types.{scalar, struct, array, vec, mat};
ghost use Rattle.wgsl_rules.specs.layout.Layout.{IsAtomicSize, IsTimes, IsArraySize, IsAlignOfThreeBy, IsVectorAlignBy, IsGiven, HasSize, HasSizeBy, HasAlignment, HasAlignmentBy, HasLeastSize, IsStructAlign, HaveAlignments, IsExactly, HasNoSize, HasNoSizeBy, LacksSize, AreOffsets, AreOffsetsBy};
ghost use Rattle.wgsl_rules.specs.Headline.{IsLeastPlacedSize};
ghost use Rattle.wgsl_core.specs.View.{view, struct_view, member_view};
ghost use Rattle.wgsl_core.specs.Forms.{scalar_of};
ghost use Rattle.wgsl_core.specs.Layout.{IsLayoutOf, IsLayoutOfBy, offsets_of};
ghost use Rattle.wgsl_core.specs.Placing.{IsValue};
ghost use Rattle.wgsl_core.specs.internal.Layout.{IsMeasure, HasSomeSize, ArePlaced};

pub mod placing;

use crate::layout::placing::{Placing, rounded_up};
use crate::ty::form::Form;
use crate::ty::{StructMemberType, StructType, Type};
use std::alloc::{AllocError, Global};
use wgsl_syntax::rules::RuleSet;
use wgsl_syntax::scalar::Scalar;

/// The layout of a struct (WGSL, "Structure Member Layout"), in bytes.
#[derive(Debug, PartialEq, Drop)]
pub struct StructLayout {
    /// One per member, in order.
    pub members: Vec<PlacedMember>,
    /// The size of the struct.
    pub size: u32,
    /// The alignment of the struct.
    pub align: u32,
}

/// The layout of a member in its struct, in bytes.
#[derive(Clone, Copy, Debug, PartialEq, Eq)]
pub struct PlacedMember {
    /// Where the member begins.
    pub offset: u32,
    /// The size of the member.
    pub size: u32,
    /// The alignment of the member.
    pub align: u32,
}

/// The size and the alignment of a type, if it has them, computed in one walk over the type.
#[derive(Clone, Copy)]
struct Measure {
    size: Option<u32>,
    align: Option<u32>,
}

impl Type {
    /// The size in bytes (WGSL, "Alignment and Size"). An atomic has one, whatever type is inside.
    ///
    /// None for an abstract number, a pointer, a reference, a texture, a sampler, a binding array, a ray query and an
    /// acceleration structure; for a vector of a type without a size; for a matrix without an alignment; for an array
    /// that is runtime-sized or has more than 4294967295 elements, or whose element has no size, no alignment or the
    /// alignment 0; for a struct without members, or with a member whose size or alignment comes neither from an
    /// attribute nor from its type, or whose alignment is 0; and if the size, or an array's stride, is above
    /// 4294967295.
    pub fn size_of(&self) -> Option<u32>
        ensures exact { IsExactly result (HasSize (view self.now)) }
        ensures none { (result ≡ None) ↔ LacksSize (view self.now) }
    {
        self.measure(RuleSet::Ported).size
    }

    /// The least size in bytes: the stride of a runtime-sized array, and the size of any other type (WGSL, "Alignment
    /// and Size").
    ///
    /// None if there is no such stride or size.
    pub fn min_size_of(&self) -> Option<u32>
        ensures { IsExactly result (HasLeastSize (view self.now)) }
    {
        match self.form() {
            Form::Array(count, element) => least_array_size(element, count),
            _ => self.size_of(),
        }
    }

    /// The alignment in bytes, `Some(0)` for a struct without members (WGSL, "Alignment and Size"). An atomic has one,
    /// whatever type is inside.
    ///
    /// None for an abstract number, a pointer, a reference, a texture, a sampler, a binding array, a ray query and an
    /// acceleration structure; for a vector of three, or a matrix of three rows, whose components are not `i32`, `u32`,
    /// `f32` or `f16`; for any other vector or matrix whose components have no size; for an array of a type without an
    /// alignment; for a struct with a member whose alignment comes neither from an attribute nor from its type; and
    /// if it is above 4294967295.
    pub fn align_of(&self) -> Option<u32>
        ensures { IsExactly result (HasAlignment (view self.now)) }
    {
        self.measure(RuleSet::Ported).align
    }

    /// What `size_of` and `align_of` return, in one walk over the type.
    pub fn size_and_align_of(&self) -> (Option<u32>, Option<u32>)
        ensures size { IsExactly result.0 (HasSize (view self.now)) }
        ensures align { IsExactly result.1 (HasAlignment (view self.now)) }
    {
        self.size_and_align_by(RuleSet::Ported)
    }

    /// The size and the alignment in bytes by either set of rules, in one walk over the type. They differ for vectors of
    /// three and matrices of three rows: by WGSL's own rules one of any scalar has the alignment of that of four.
    pub fn size_and_align_by(&self, rules: RuleSet) -> (Option<u32>, Option<u32>)
        ensures size { IsExactly result.0 (HasSizeBy rules (view self.now)) }
        ensures align { IsExactly result.1 (HasAlignmentBy rules (view self.now)) }
    {
        let measure = self.measure(rules);
        (measure.size, measure.align)
    }

    /// It is inlined, so that measuring a scalar takes no call, and measuring a vector one.
    #[cycle(measure)]
    #[inline(always)]
    fn measure(&self, rules: RuleSet) -> Measure
        ensures { IsMeasure rules (view self.now) result }
    {
        match self.scalar() {
            Some(scalar) => measure_of_scalar(scalar),
            None => match self {
                Type::Vec(n, ty) => vector_measure(rules, *n, ty),
                _ => self.measure_of_others(rules),
            },
        }
    }

    #[cycle(measure)]
    #[inline(never)]
    fn measure_of_others(&self, rules: RuleSet) -> Measure
        requires { scalar_of (view self.now) ≡ None }
        ensures { IsMeasure rules (view self.now) result }
    {
        match self {
            Type::Vec(n, ty) => vector_measure(rules, *n, ty),
            Type::Mat(c, r, ty) => matrix_measure(rules, *c, *r, ty),
            Type::Array(ty, count) => array_measure(rules, ty, *count),
            Type::Atomic(ty) => measure_of_size(atomic_size(ty)),
            Type::Struct(s) => s.measure(rules),
            Type::Ptr(_, _, _)
            | Type::Ref(_, _, _)
            | Type::Texture(_)
            | Type::Sampler(_)
            | Type::BindingArray(_, _)
            | Type::RayQuery(_)
            | Type::AccelerationStructure(_) => Measure {
                size: None,
                align: None,
            },
            Type::Bool
            | Type::AbstractInt
            | Type::AbstractFloat
            | Type::I32
            | Type::U32
            | Type::F32
            | Type::F16
            | Type::I64
            | Type::U64
            | Type::F64 => unreachable!(),
        }
    }
}

#[inline(always)]
fn measure_of_scalar(of: Scalar) -> Measure
    ensures { (rules : RuleSet) → IsMeasure rules (scalar of) result }
{
    match of {
        Scalar::Bool | Scalar::I32 | Scalar::U32 | Scalar::F32 => measure_of_size(4),
        Scalar::F16 => measure_of_size(2),
        Scalar::I64 | Scalar::U64 | Scalar::F64 => measure_of_size(8),
        Scalar::AbstractInt | Scalar::AbstractFloat => Measure {
            size: None,
            align: None,
        },
    }
}

fn measure_of_size(size: u32) -> Measure
    ensures { result ≡ record { size = Some size; align = Some size } }
{
    Measure {
        size: Some(size),
        align: Some(size),
    }
}

fn atomic_size(ty: &Type) -> u32
    ensures { IsAtomicSize (view ty.now) result }
{
    match ty {
        Type::I64 | Type::U64 => 8,
        _ => 4,
    }
}

/// It calls nothing for a vector of scalars, so that it needs no stack for these.
#[cycle(measure)]
fn vector_measure(rules: RuleSet, n: u8, ty: &Type) -> Measure
    ensures { IsMeasure rules (vec n (view ty.now)) result }
{
    match ty.scalar() {
        Some(scalar) => vector_of(rules, n, ty, measure_of_scalar(scalar)),
        None => vector_of_others(rules, n, ty),
    }
}

#[cycle(measure)]
#[inline(never)]
fn vector_of_others(rules: RuleSet, n: u8, ty: &Type) -> Measure
    requires { scalar_of (view ty.now) ≡ None }
    ensures { IsMeasure rules (vec n (view ty.now)) result }
{
    vector_of(rules, n, ty, ty.measure_of_others(rules))
}

/// The measure of a vector, by that of its components.
#[inline(always)]
fn vector_of(rules: RuleSet, n: u8, ty: &Type, component: Measure) -> Measure
    requires { IsMeasure rules (view ty.now) component }
    ensures { IsMeasure rules (vec n (view ty.now)) result }
{
    Measure {
        size: times(u32::from(n), component.size),
        align: vector_align(rules, n, ty, component.size),
    }
}

#[cycle(measure)]
fn matrix_measure(rules: RuleSet, columns: u8, rows: u8, ty: &Type) -> Measure
    ensures { IsMeasure rules (mat columns rows (view ty.now)) result }
{
    let component = ty.measure(rules);
    let align = vector_align(rules, rows, ty, component.size);
    Measure {
        size: times(u32::from(columns), align),
        align,
    }
}

#[cycle(measure)]
fn array_measure(rules: RuleSet, ty: &Type, count: Option<usize>) -> Measure
    ensures { IsMeasure rules (array count (view ty.now)) result }
{
    let element = ty.measure(rules);
    Measure {
        size: array_size(count, rounded_up(element.size, element.align)),
        align: element.align,
    }
}

fn least_array_size(ty: &Type, count: Option<usize>) -> Option<u32>
    ensures { IsExactly result (HasLeastSize (array count (view ty.now))) }
{
    let element = ty.measure(RuleSet::Ported);
    let stride = rounded_up(element.size, element.align);
    match count {
        None => stride,
        Some(_) => array_size(count, stride),
    }
}

fn array_size(count: Option<usize>, stride: Option<u32>) -> Option<u32>
    ensures { IsExactly result (IsArraySize count (IsValue stride)) }
{
    let count = u32::try_from(count?).ok()?;
    times(count, stride)
}

fn vector_align(rules: RuleSet, n: u8, ty: &Type, size: Option<u32>) -> Option<u32>
    ensures { IsExactly result (IsVectorAlignBy rules n (view ty.now) (IsValue size)) }
{
    if n == 3 {
        align_of_three(rules, ty, size)
    } else {
        times(u32::from(n), size)
    }
}

fn align_of_three(rules: RuleSet, ty: &Type, size: Option<u32>) -> Option<u32>
    ensures { IsExactly result (IsAlignOfThreeBy rules (view ty.now) (IsValue size)) }
{
    match rules {
        RuleSet::Ported => match ty {
            Type::I32 | Type::U32 | Type::F32 => Some(16),
            Type::F16 => Some(8),
            _ => None,
        },
        RuleSet::Standard => times(4, size),
    }
}

fn times(count: u32, size: Option<u32>) -> Option<u32>
    ensures { IsExactly result (IsTimes count (IsValue size)) }
{
    count.checked_mul(size?)
}

impl StructType {
    /// The size in bytes (WGSL, "Structure Member Layout"): the smallest of any placement of the members.
    ///
    /// None if `layout` is None.
    pub fn size_of(&self) -> Option<u32>
        ensures { IsLeastPlacedSize (struct_view self.now).members result }
    {
        let measure = self.measure(RuleSet::Ported);
        measure.size
    }

    /// The alignment in bytes (WGSL, "Structure Member Layout"): the greatest of the members, 0 without members.
    ///
    /// None if a member's alignment comes neither from an attribute nor from its type.
    pub fn align_of(&self) -> Option<u32>
        ensures { let ms = (struct_view self.now).members in
            IsExactly result (IsStructAlign (HaveAlignments ms)) }
    {
        let measure = self.measure(RuleSet::Ported);
        measure.align
    }

    /// The layout of the struct: each member at the smallest offset of any placement, and the smallest size (WGSL,
    /// "Structure Member Layout").
    ///
    /// None exactly if the struct has no size: if it has no members; if a member's size or alignment comes neither
    /// from an attribute nor from its type, or its alignment is 0; and if the size is above 4294967295.
    pub fn layout(&self, alloc: Global) -> Result<Option<StructLayout>, AllocError>
        ensures none { HasNoSize (struct_view self.now).members ↔ (result ≡ Ok None) }
        ensures layout { IfOk result (λ answer.
            IfSome answer (IsLayoutOf (struct_view self.now).members)) }
    {
        self.layout_by(alloc, RuleSet::Ported)
    }

    /// The layout of the struct by either set of rules. None for the same causes.
    pub fn layout_by(
        &self,
        alloc: Global,
        rules: RuleSet,
    ) -> Result<Option<StructLayout>, AllocError>
        ensures none { HasNoSizeBy rules (struct_view self.now).members ↔ (result ≡ Ok None) }
        ensures layout { IfOk result (λ answer.
            IfSome answer (IsLayoutOfBy rules (struct_view self.now).members)) }
    {
        let whole = self.measure(rules);
        let Some(size) = whole.size else {
            return Ok(None);
        };
        let align = whole.align.unwrap();
        let members = self.placed_members(alloc, rules)?;
        Ok(Some(StructLayout {
            members,
            size,
            align,
        }))
    }

    /// The offset of each member in bytes: no placement has a smaller one (WGSL, "Structure Member Layout").
    ///
    /// None if `layout` is None.
    pub fn offsets(&self, alloc: Global) -> Result<Option<Vec<u32>>, AllocError>
        ensures none { HasNoSize (struct_view self.now).members ↔ (result ≡ Ok None) }
        ensures offsets { IfOk result (λ answer. IfSome answer (λ offsets.
            AreOffsets (struct_view self.now).members offsets.items)) }
    {
        self.offsets_by(alloc, RuleSet::Ported)
    }

    /// The offset of each member in bytes by either set of rules. None if `layout_by` is None.
    pub fn offsets_by(&self, alloc: Global, rules: RuleSet) -> Result<Option<Vec<u32>>, AllocError>
        ensures none { HasNoSizeBy rules (struct_view self.now).members ↔ (result ≡ Ok None) }
        ensures offsets { IfOk result (λ answer. IfSome answer (λ offsets.
            AreOffsetsBy rules (struct_view self.now).members offsets.items)) }
    {
        let Some(layout) = self.layout_by(alloc, rules)? else {
            return Ok(None);
        };
        Ok(Some(member_offsets(alloc, &layout.members)?))
    }

    /// Each member at its smallest offset.
    fn placed_members(&self, alloc: Global, rules: RuleSet) -> Result<Vec<PlacedMember>, AllocError>
        requires { HasSomeSize rules (struct_view self.now).members }
        ensures { IfOk result (λ members.
            ArePlaced rules (struct_view self.now).members members.items) }
    {
        let mut members = Vec::with_capacity(alloc, self.members.len())?;
        let mut placing = Placing::start();
        for member in &self.members {
            let measure = member.measure(rules);
            let size = measure.size.unwrap();
            let align = measure.align.unwrap();
            let offset = placing.place(Some(size), align).unwrap();
            members.push(PlacedMember {
                offset,
                size,
                align,
            })?;
        }
        Ok(members)
    }

    #[cycle(measure)]
    fn measure(&self, rules: RuleSet) -> Measure
        ensures { let s = struct_view self.now in IsMeasure rules (struct s.name s.members) result }
    {
        let mut placing = Placing::start();
        for member in &self.members {
            let measure = member.measure(rules);
            let Some(align) = measure.align else {
                return Measure {
                    size: None,
                    align: None,
                };
            };
            placing.place(measure.size, align);
        }
        Measure {
            size: placing.size(),
            align: Some(placing.greatest),
        }
    }
}

fn member_offsets(alloc: Global, members: &[PlacedMember]) -> Result<Vec<u32>, AllocError>
    ensures { IfOk result (λ offsets. offsets.items ≡ offsets_of members.now) }
{
    let mut offsets = Vec::with_capacity(alloc, members.len())?;
    for member in members {
        offsets.push(member.offset)?;
    }
    Ok(offsets)
}

impl StructMemberType {
    #[cycle(measure)]
    #[inline(always)]
    fn measure(&self, rules: RuleSet) -> Measure
        ensures size { let m = member_view self.now in
            IsExactly result.size (IsGiven m.size (HasSizeBy rules m.ty)) }
        ensures align { let m = member_view self.now in
            IsExactly result.align (IsGiven m.align (HasAlignmentBy rules m.ty)) }
    {
        let ty = self.ty.measure(rules);
        Measure {
            size: self.size.or(ty.size),
            align: self.align.or(ty.align),
        }
    }
}
