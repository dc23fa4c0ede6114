// Structs by name: in a type, a declared struct stands with few members that have the facts of all.
ghost use Rattle.std.specs.Prelude.{ℕ, List, ◌≡◌, IfOk, None, option_map};
ghost use Rattle.wgsl_core.specs.View.{view};
ghost use Rattle.wgsl_standard.specs.forms.Memory.{behind};
ghost use Rattle.wgsl_typing.specs.StructNames.{AreNamed, IsDeclaredAs, struct_named, struct_of};

use std::alloc::{AllocError, Global};
use std::collections::BTreeMap;
use wgsl_core::layout::placing::Placing;
use wgsl_core::ty::form::Form;
use wgsl_core::ty::{StructMemberType, StructType, Type};
use wgsl_standard::forms::kinds::{has_fixed_footprint, is_host_shareable};
use wgsl_syntax::rules::RuleSet;

/// A struct as it is declared. The structs in the types of its members are short.
#[derive(Drop)]
pub struct Declared<'t> {
    pub whole: Type,
    /// The index of the member with a name.
    pub members: BTreeMap<&'t str, usize>,
    /// Whether an array inside has more than 65,535 elements.
    pub has_long_array: bool,
    /// How many types stand inside one another.
    pub depth: usize,
}

/// The structs of a module.
#[derive(Drop)]
pub struct Structs<'t> {
    pub declared: Vec<Declared<'t>>,
    /// The index of the struct with a name.
    names: BTreeMap<&'t str, usize>,
}

impl<'t> Structs<'t> {
    /// No struct is declared.
    pub fn none(alloc: Global) -> Structs<'t>
        ensures named { AreNamed result }
        ensures none { (name : List ℕ) → struct_named name result ≡ None }
    {
        Structs {
            declared: Vec::new(alloc),
            names: BTreeMap::new(alloc),
        }
    }

    /// Gives a struct its name.
    pub fn declare(&mut self, name: &'t str, declared: Declared<'t>) -> Result<(), AllocError>
        ensures declared { AreNamed self.old → IfOk result (λ u. IsDeclaredAs name.now declared.entry self.old self.new) }
        ensures named { AreNamed self.old → IfOk result (λ u. AreNamed self.new) }
    {
        self.names.insert(name, self.declared.len())?;
        self.declared.push(declared)?;
        Ok(())
    }

    /// The declaration of the struct that a type is, or refers or points to.
    pub fn declared(&self, ty: &Type) -> Option<&Declared<'t>>
        ensures { option_map (λ d. d.now) result ≡ struct_of (behind (view ty.now)) self.now }
    {
        match behind(ty).form() {
            Form::Struct(short) => self.named(short.name.as_str()),
            _ => None,
        }
    }

    /// The struct that was declared with a name.
    fn named(&self, name: &str) -> Option<&Declared<'t>>
        ensures { option_map (λ d. d.now) result ≡ struct_named name.now self.now }
    {
        let index = self.names.get(name)?;
        self.declared.get(*index)
    }

    /// How many types stand inside one another, structs with those of their members; 256 of more.
    pub fn depth(&self, ty: &Type) -> usize {
        let mut depth: usize = 0;
        let mut inner = ty;
        for _ in 0..256 {
            depth = depth.saturating_add(1);
            match inner.form() {
                Form::Array(_, of)
                | Form::Vector(_, of)
                | Form::Matrix(_, _, of)
                | Form::Atomic(of)
                | Form::Pointer(_, of, _)
                | Form::Reference(_, of, _) => inner = of,
                Form::Struct(_) => {
                    let of_members = match self.declared(inner) {
                        Some(declared) => declared.depth,
                        None => 0,
                    };
                    return depth.saturating_add(of_members);
                }
                _ => return depth,
            }
        }
        depth
    }

    /// Whether an array inside has more than 65,535 elements.
    pub fn has_long_array(&self, ty: &Type) -> bool {
        match ty {
            Type::Array(of, count) => is_long(*count) || self.has_long_array(of),
            Type::Struct(_) => match self.declared(ty) {
                Some(declared) => declared.has_long_array,
                None => false,
            },
            _ => false,
        }
    }
}

fn is_long(count: Option<usize>) -> bool {
    match count {
        Some(count) => count > 65535,
        None => false,
    }
}

/// The type behind a reference or a pointer; any other type itself.
pub fn behind(ty: &Type) -> &Type
    ensures { view result.now ≡ behind (view ty.now) }
{
    match ty.form() {
        Form::Reference(_, of, _) | Form::Pointer(_, of, _) => of,
        _ => ty,
    }
}

/// The struct that stands for a whole one in types: it has its name, and members of the same facts.
pub fn short(alloc: Global, whole: &StructType) -> Result<StructType, AllocError> {
    let mut members = Vec::new(alloc);
    add_members(alloc, facts_of(whole), &mut members)?;
    Ok(StructType {
        name: String::from_str(alloc, whole.name.as_str())?,
        members,
    })
}

/// Adds members that have these facts.
fn add_members(alloc: Global, facts: Facts, members: &mut Members) -> Result<(), AllocError> {
    match (facts.is_fixed, facts.ends_with_atomics, facts.ends) {
        (true, true, true) => add(alloc, members, facts.leaf(), facts.size, facts.align),
        (true, true, false) => {
            add(alloc, members, facts.leaf(), Some(0), facts.align)?;
            add(alloc, members, atomic(alloc)?, facts.size, facts.align)
        }
        (false, true, true) => {
            add(
                alloc,
                members,
                Type::array(alloc, None, facts.leaf())?,
                None,
                None,
            )
        }
        (false, true, false) => {
            add(alloc, members, facts.leaf(), None, None)?;
            add(
                alloc,
                members,
                Type::array(alloc, None, atomic(alloc)?)?,
                None,
                None,
            )
        }
        (_, false, _) => {
            let inside = Type::array(alloc, None, facts.leaf())?;
            add(
                alloc,
                members,
                Type::array(alloc, Some(1), inside)?,
                None,
                None,
            )
        }
    }
}

fn add(
    alloc: Global,
    members: &mut Members,
    ty: Type,
    size: Option<u32>,
    align: Option<u32>,
) -> Result<(), AllocError> {
    members.push(StructMemberType {
        name: String::new(alloc),
        ty,
        size,
        align,
    })?;
    Ok(())
}

fn atomic(alloc: Global) -> Result<Type, AllocError> {
    Ok(Type::Atomic(Box::new(alloc, Type::U32)?))
}

type Members = Vec<StructMemberType>;

/// What the rules ask of a struct as a whole.
#[derive(Clone, Copy)]
struct Facts {
    is_fixed: bool,
    ends_with_atomics: bool,
    ends: bool,
    is_shareable: bool,
    size: Option<u32>,
    align: Option<u32>,
}

impl Facts {
    /// A type without parts that has the fact of being host-shareable or not.
    fn leaf(&self) -> Type {
        match self.is_shareable {
            true => Type::U32,
            false => Type::Bool,
        }
    }
}

fn facts_of(whole: &StructType) -> Facts {
    let mut facts = Facts {
        is_fixed: true,
        ends_with_atomics: true,
        ends: true,
        is_shareable: true,
        size: None,
        align: None,
    };
    for (index, member) in whole.members.iter().enumerate() {
        let is_last = index.saturating_add(1) == whole.members.len();
        facts.is_fixed = facts.is_fixed && has_fixed_footprint(true, &member.ty);
        facts.ends_with_atomics = facts.ends_with_atomics && may_stand(true, is_last, &member.ty);
        facts.ends = facts.ends && may_stand(false, is_last, &member.ty);
        facts.is_shareable = facts.is_shareable && is_host_shareable(&member.ty);
    }
    let (size, align) = whole_size(whole);
    Facts {
        size,
        align,
        ..facts
    }
}

/// Whether a member of the type may stand there, so that the struct ends in a runtime-sized array or in none.
fn may_stand(atomics: bool, is_last: bool, ty: &Type) -> bool {
    match ty.form() {
        Form::Array(None, of) if is_last => has_fixed_footprint(atomics, of),
        _ => has_fixed_footprint(atomics, ty),
    }
}

fn whole_size(whole: &StructType) -> (Option<u32>, Option<u32>) {
    let mut placing = Placing::start();
    for member in &whole.members {
        let (size, align) = size_and_align(&member.ty);
        placing.place(member.size.or(size), member.align.or(align).unwrap_or(1));
    }
    (placing.size(), Some(placing.greatest))
}

/// The size and the alignment of a type, in which a `bool` is laid out like a `u32`.
pub fn size_and_align(ty: &Type) -> (Option<u32>, Option<u32>) {
    match ty {
        Type::Bool => (Some(4), Some(4)),
        Type::Vec(count, of) if of.is_bool() => size_of_bools(*count),
        Type::Array(of, count) => array_size(*count, size_and_align(of)),
        _ => ty.size_and_align_by(RuleSet::Standard),
    }
}

fn size_of_bools(count: u8) -> (Option<u32>, Option<u32>) {
    match count {
        2 => (Some(8), Some(8)),
        3 => (Some(12), Some(16)),
        _ => (Some(16), Some(16)),
    }
}

/// The size and the alignment of an array, by those of its element.
fn array_size(
    count: Option<usize>,
    element: (Option<u32>, Option<u32>),
) -> (Option<u32>, Option<u32>) {
    match (count, element) {
        (Some(count), (Some(size), Some(align))) => (array_bytes(count, size, align), Some(align)),
        (_, (_, align)) => (None, align),
    }
}

fn array_bytes(count: usize, size: u32, align: u32) -> Option<u32> {
    let steps = size.checked_add(align.checked_sub(1)?)?.checked_div(align)?;
    let stride = steps.checked_mul(align)?;
    let count = u32::try_from(count).ok()?;
    stride.checked_mul(count)
}
