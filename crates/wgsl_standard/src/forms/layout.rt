// The smallest layout of a struct.
ghost use Rattle.std.specs.Prelude.{◌≡◌, IfOk, MatchOption, map};
ghost use Rattle.wgsl_rules.specs.layout.Layout.{HasNoSize, HasNoSizeBy};
ghost use Rattle.wgsl_core.specs.Layout.{IsLayoutOf, IsLayoutOfBy};
ghost use Rattle.wgsl_standard.specs.forms.Prelude.{view, struct_view, member_view, members_view};
ghost use Rattle.wgsl_standard.specs.forms.Layout.{smallest_members, with_one_element};

use crate::forms::prelude::*;
use wgsl_core::layout::StructLayout;

/// The smallest layout of a struct, whose last member may be a runtime-sized array, which then counts as one element
/// (WGSL, "Minimum Binding Size"). None if the struct with one element there has no layout.
pub fn min_layout(alloc: Global, s: &StructType) -> Result<Option<StructLayout>, AllocError>
    ensures { let ms = smallest_members (struct_view s.now).members in
        IfOk result (λ answer. MatchOption answer (HasNoSize ms) (λ layout. IsLayoutOf ms layout)) }
{
    min_layout_by(alloc, RuleSet::Ported, s)
}

/// The smallest layout of a struct by either set of rules. None for the same cause.
pub fn min_layout_by(
    alloc: Global,
    rules: RuleSet,
    s: &StructType,
) -> Result<Option<StructLayout>, AllocError>
    ensures { let ms = smallest_members (struct_view s.now).members in
        IfOk result (λ answer.
        MatchOption answer (HasNoSizeBy rules ms) (λ layout. IsLayoutOfBy rules ms layout)) }
{
    let smallest = smallest_struct(alloc, s)?;
    smallest.layout_by(alloc, rules)
}

fn smallest_struct(alloc: Global, s: &StructType) -> Result<StructType, AllocError>
    ensures { IfOk result (λ r. (struct_view r).members
        ≡ smallest_members (struct_view s.now).members) }
{
    let name = String::from_str(alloc, s.name.as_str())?;
    let members = smallest_copies(alloc, &s.members)?;
    Ok(StructType { name, members })
}

fn smallest_copies(
    alloc: Global,
    members: &Vec<StructMemberType>,
) -> Result<Vec<StructMemberType>, AllocError>
    ensures { IfOk result (λ v. members_view v.items
        ≡ smallest_members (members_view members.now.items)) }
{
    match members.split_last() {
        Some((last, rest)) => {
            let last = smallest_member(alloc, last)?;
            let mut copies = copies(alloc, rest)?;
            copies.push(last)?;
            Ok(copies)
        }
        None => Ok(Vec::new(alloc)),
    }
}

fn copies(alloc: Global, members: &[StructMemberType]) -> Result<Vec<StructMemberType>, AllocError>
    ensures { IfOk result (λ v. map member_view v.items ≡ map member_view members.now) }
{
    let mut copies = Vec::with_capacity(alloc, members.len())?;
    for member in members {
        copies.push(member.clone(alloc)?)?;
    }
    Ok(copies)
}

fn smallest_member(alloc: Global, member: &StructMemberType) -> Result<StructMemberType, AllocError>
    ensures { IfOk result (λ m. member_view m
        ≡ record (member_view member.now) { ty = with_one_element (member_view member.now).ty }) }
{
    let name = String::from_str(alloc, member.name.as_str())?;
    let ty = one_element(alloc, &member.ty)?;
    Ok(StructMemberType {
        name,
        ty,
        size: member.size,
        align: member.align,
    })
}

fn one_element(alloc: Global, ty: &Type) -> Result<Type, AllocError>
    ensures { IfOk result (λ t. view t ≡ with_one_element (view ty.now)) }
{
    match ty.form() {
        Form::Array(None, of) => {
            let element = of.clone(alloc)?;
            Type::array(alloc, Some(1), element)
        }
        _ => ty.clone(alloc),
    }
}
