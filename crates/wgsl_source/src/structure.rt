// Structs, read and laid out.
ghost use Rattle.std.specs.Prelude.{◌≡◌, ◌++◌, ◌↔◌, IfOk, IsSome, IsTrue, None, OnOk, [], ◌∷◌};
ghost use Rattle.wgsl_source.specs.TextStructs.{AreMembers, IsMember};
ghost use Rattle.wgsl_source.specs.WrittenTypes.{environment};
ghost use Rattle.wgsl_source.specs.Faults.{OnFault};
ghost use Rattle.wgsl_source.specs.internal.Read.{IsFrom};
ghost use Rattle.wgsl_source.specs.Layout.{HasNoLayout, IsLaidOut};
ghost use Rattle.wgsl_source.specs.Members.{AreMeasured, AreSameMembers, EndsRuntimeSized, Grows, IsDraft, IsMeasuredMember, IsRuntimeSizedArray, IsTypeOf, members_of};

use crate::attribute::Owner;
use crate::check::member_fault;
use crate::declaration::Declaration;
use crate::fault::{Cause, Stop};
use crate::measured::{MeasuredType, TypeKind};
use crate::parts::{End, inner, split_to};
use crate::scope::Scope;
use crate::types::Types;
use std::alloc::Global;
use std::collections::BTreeMap;
use wgsl_core::layout::placing::Placing;
use wgsl_reader::read::Event;

/// A struct with its layout in bytes.
#[derive(Drop)]
pub struct Struct<'t> {
    pub name: &'t str,
    /// Where its name stands in the text.
    pub place: usize,
    pub members: Vec<Member<'t>>,
    /// The size. A runtime-sized array at the end counts with one element.
    pub size: u32,
    pub align: u32,
    /// Whether the last member is a runtime-sized array.
    pub is_runtime_sized: bool,
}

/// A member of a struct with its layout in bytes.
#[derive(Clone, Copy)]
pub struct Member<'t> {
    pub name: &'t str,
    /// Where its name stands in the text.
    pub place: usize,
    pub ty: MeasuredType,
    /// The attribute `size`.
    pub size_attribute: Option<u32>,
    /// The attribute `align`.
    pub align_attribute: Option<u32>,
    pub offset: u32,
    /// The size. For a runtime-sized array it is that of one element.
    pub size: u32,
    pub align: u32,
}

impl<'t> Struct<'t> {
    /// The type of the struct, which has this index.
    pub fn measured(&self, index: usize) -> MeasuredType
        ensures { IsTypeOf self.now index result }
    {
        let size = if self.is_runtime_sized {
            None
        } else {
            Some(self.size)
        };
        MeasuredType::leaf(TypeKind::Struct(index), size, Some(self.align))
    }
}

/// A member whose offset isn't known yet.
#[derive(Clone, Copy)]
struct Written<'t> {
    member: Member<'t>,
    /// Where the type stands in the text.
    at: usize,
}

/// The members of a struct at their offsets, with its size and its alignment.
#[derive(Drop)]
struct Layout<'t> {
    members: Vec<Member<'t>>,
    size: u32,
    align: u32,
}

/// The layout of a struct with these members, whose name stands at an index of the text: each lies at the smallest offset.
fn laid_out<'t>(alloc: Global, place: usize, written: &[Written<'t>]) -> Result<Layout<'t>, Stop>
    ensures layout { IfOk result (λ l. IsLaidOut l.members.items l.size l.align) }
    ensures same_members { IfOk result (λ l. AreSameMembers l.members.items (members_of written.now)) }
    ensures refused { OnFault result (HasNoLayout (members_of written.now)) }
{
    let mut placing = Placing::start();
    let mut members = Vec::with_capacity(alloc, written.len())?;
    for next in written {
        let Some(offset) = placing.place(Some(next.member.size), next.member.align) else {
            return Err(Stop::at(next.at, Cause::TooLarge));
        };
        let mut member = next.member;
        member.offset = offset;
        members.push(member)?;
    }
    match placing.size() {
        Some(size) => Ok(Layout {
            members,
            size,
            align: placing.greatest,
        }),
        None => Err(Stop::at(place, size_fault(written))),
    }
}

/// Why members that have offsets make no struct.
fn size_fault(written: &[Written]) -> Cause {
    if written.is_empty() {
        Cause::NoMembers
    } else {
        Cause::TooLarge
    }
}

/// The members of a struct that are read so far.
#[derive(Drop)]
struct Draft<'t> {
    members: Vec<Written<'t>>,
    /// The names of the members, with their indices.
    names: BTreeMap<&'t str, usize>,
    /// Where the type of a runtime-sized member stands.
    runtime_sized: Option<usize>,
}

impl<'t> Draft<'t> {
    fn new(alloc: Global) -> Draft<'t>
        ensures members { result.members.items ≡ [] }
        ensures runtime_sized { result.runtime_sized ≡ None }
    {
        Draft {
            members: Vec::new(alloc),
            names: BTreeMap::new(alloc),
            runtime_sized: None,
        }
    }

    /// Adds a member, whose name no other has.
    fn add(&mut self, written: Written<'t>) -> Result<(), Stop>
        ensures added { OnOk result (self.new.members.items ≡ self.old.members.items ++ written.entry ∷ []) }
        ensures runtime_sized { OnOk result (self.old.runtime_sized ≡ None
            → (IsSome self.new.runtime_sized ↔ IsRuntimeSizedArray written.entry.member.ty.kind)) }
    {
        if self.names.contains_key(&written.member.name) {
            return Err(Stop::at(written.member.place, Cause::MemberTwice));
        }
        if written.member.ty.is_runtime_sized_array() {
            self.runtime_sized = Some(written.at);
        }
        self.names.insert(written.member.name, self.members.len())?;
        self.members.push(written)?;
        Ok(())
    }
}

impl<'t> Scope<'t> {
    /// The struct that a declaration declares.
    pub fn read_struct(
        &self,
        types: &mut Types,
        declaration: &Declaration<'t>,
    ) -> Result<Struct<'t>, Stop>
        ensures grows { Grows types.old types.new }
        ensures layout { IfOk result (λ s. IsLaidOut s.members.items s.size s.align) }
        ensures measured { IfOk result (λ s. AreMeasured types.new.elements.items s.members.items) }
        ensures runtime_sized { IfOk result (λ s. IsTrue s.is_runtime_sized ↔ EndsRuntimeSized s.members.items) }
        ensures declared { IfOk result (IsFrom self.now.text (environment self.now types.new) declaration.now) }
    {
        let mut draft = Draft::new(self.alloc);
        let layout = match self.read_members(types, declaration.rest, &mut draft) {
            Ok(()) => laid_out(self.alloc, declaration.place, &draft.members),
            Err(stop) => Err(stop),
        };
        let is_runtime_sized = draft.runtime_sized.is_some();
        drop(draft);
        let Layout {
            members,
            size,
            align,
        } = layout?;
        Ok(Struct {
            name: declaration.name,
            place: declaration.place,
            members,
            size,
            align,
            is_runtime_sized,
        })
    }

    fn read_members(
        &self,
        types: &mut Types,
        events: &'t [Event],
        draft: &mut Draft<'t>,
    ) -> Result<(), Stop>
        ensures grows { Grows types.old types.new }
        ensures draft { IsDraft types.old.elements.items draft.old
            → OnOk result (IsDraft types.new.elements.items draft.new) }
        ensures declared { draft.old.members.items ≡ []
            → OnOk result (AreMembers self.now.text (environment self.now types.new) events.now (members_of draft.new.members.items)) }
    {
        let mut rest = events;
        while let Some(split) = split_to(rest, End::Member) {
            if let Some(at) = draft.runtime_sized {
                return Err(Stop::at(at, Cause::RuntimeSized));
            }
            draft.add(self.read_member(types, split.front)?)?;
            rest = split.rest;
        }
        Ok(())
    }

    /// Reads a member, which is these events.
    fn read_member(&self, types: &mut Types, events: &[Event]) -> Result<Written<'t>, Stop>
        ensures grows { Grows types.old types.new }
        ensures measured { IfOk result (λ w. IsMeasuredMember types.new.elements.items w.member) }
        ensures declared { IfOk result (λ w. IsMember self.now.text (environment self.now types.new) events.now w.member) }
    {
        let (attributes, rest) = self.read_attributes(events, Owner::Member)?;
        let name = self.first_token(rest);
        let noted = inner(rest);
        let at = self.first_token(noted).at;
        let ty = self.type_noted(types, noted)?;
        if let Some(cause) = member_fault(&ty, attributes.size) {
            return Err(Stop::at(at, cause));
        }
        let size = attributes.size.or(types.least_size(&ty));
        let align = attributes.align.or(ty.align);
        let (Some(size), Some(align)) = (size, align) else {
            return Err(Stop::at(at, Cause::NotPlain));
        };
        let member = Member {
            name: self.text.word(name),
            place: name.at,
            ty,
            size_attribute: attributes.size,
            align_attribute: attributes.align,
            offset: 0,
            size,
            align,
        };
        Ok(Written { member, at })
    }
}
