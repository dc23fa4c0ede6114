// What is declared in front of a request: structs and functions.
ghost use Rattle.std.specs.Prelude.{◌≡◌, ◌+◌, ◌<◌, IfOk, map, string_bytes};
ghost use Rattle.wgsl_requests.specs.expressions.Prelude.{member_view, view, named};
ghost use Rattle.wgsl_requests.specs.expressions.Stack.{Attributed, Changed, Headed, MemberIn, Membered, Numbered, Resulted, attributes, declared_by, function_declared, struct_declared, struct_of, struct_on, with_attribute, with_member, with_result};
ghost use Rattle.wgsl_requests.specs.expressions.Views.{Does, Moves, Takes, declared_view, heading_view, items_view, scope_view, source_view};

use crate::expressions::item::{push, take_heading, take_place};
use crate::expressions::prelude::*;
use crate::expressions::source::{between, first_count};
use wgsl_core::ty::StructMemberType;

/// A struct with its members so far, or a function with its parameters so far.
#[derive(Drop)]
pub struct Heading {
    pub name: String,
    pub members: Vec<StructMemberType>,
    /// How many types are inside: one per member, and those inside the members' types.
    pub inside: usize,
    /// The attributes of the next member.
    pub size: Option<u32>,
    pub align: Option<u32>,
    /// The type of a function's result.
    pub result: Option<Type>,
}

/// `struct S`, `fn f`
pub fn begin_heading(source: &Source<'_>, count: usize, items: &mut Items) -> Read<()>
    ensures { Does (Headed (source_view source.now) count (items_view items.old.items)) items.new.items result }
{
    let heading = Heading {
        name: String::from_str(source.alloc, source.text_at(count))?,
        members: Vec::new(source.alloc),
        inside: 0,
        size: None,
        align: None,
        result: None,
    };
    push(Item::Heading(heading), items)
}

/// An attribute that counts in layouts.
#[derive(Clone, Copy)]
pub enum Attribute {
    Size,
    Align,
}

/// `@size(16)`, noted from its name on. Other attributes say nothing of a type.
pub fn put_attribute(source: &Source<'_>, index: usize, items: &mut Items) -> Read<()>
    ensures { Does (Attributed (source_view source.now) index (items_view items.old.items)) items.new.items result }
{
    let from = take_place(source, items)?;
    let noted = source.noted(from, index);
    match attribute_named(source.text_at(first_count(noted))) {
        Some(attribute) => put_number(source, attribute, noted, items),
        None => Ok(()),
    }
}

fn attribute_named(name: &str) -> Option<Attribute>
    ensures { result ≡ named attributes name.now }
{
    match name {
        "size" => Some(Attribute::Size),
        "align" => Some(Attribute::Align),
        _ => None,
    }
}

/// The number of an attribute, which is noted between its name and the end of its only argument.
fn put_number(source: &Source<'_>, which: Attribute, noted: &[Event], items: &mut Items) -> Read<()>
    ensures { Does (Numbered (source_view source.now) noted.now which (items_view items.old.items)) items.new.items result }
{
    let value = between(noted, 1, noted.len().saturating_sub(1));
    match source.number_noted(value)? {
        Ok(number) => set_attribute(source, which, number, items),
        Err(fault) => Err(untyped(fault, Wanted::Number)),
    }
}

fn set_attribute(source: &Source<'_>, which: Attribute, number: u32, items: &mut Items) -> Read<()>
    ensures { Does (Changed (with_attribute which number) (items_view items.old.items)) items.new.items result }
{
    let mut heading = take_heading(source, items)?;
    match which {
        Attribute::Size => heading.size = Some(number),
        Attribute::Align => heading.align = Some(number),
    }
    push(Item::Heading(heading), items)
}

/// `a: T` of a struct or a function
pub fn put_member(source: &Source<'_>, scope: &Scope, index: usize, items: &mut Items) -> Read<()>
    ensures { Does (Membered (source_view source.now) (scope_view scope.now) index (items_view items.old.items)) items.new.items result }
{
    let from = take_place(source, items)?;
    let named = take_place(source, items)?;
    let name = source.text_at(first_count(source.noted(named, from)));
    match source.type_noted(scope, source.noted(from, index))? {
        Ok((ty, inside)) => put_type(source, name, ty, inside, items),
        Err(fault) => Err(untyped(fault, Wanted::Type)),
    }
}

fn put_type(source: &Source<'_>, name: &str, ty: Type, inside: usize, items: &mut Items) -> Read<()>
    ensures { Does (MemberIn name.now (view ty, inside) (items_view items.old.items)) items.new.items result }
{
    let heading = take_heading(source, items)?;
    if inside >= MOST_INSIDE.saturating_sub(heading.inside) {
        drop(heading);
        drop(ty);
        return Err(source.misread(1, Wanted::Shallower));
    }
    let heading = heading.with_member(source.alloc, name, ty, inside)?;
    push(Item::Heading(heading), items)
}

impl Heading {
    /// One more member, with the attributes in front of it.
    fn with_member(self, alloc: Global, name: &str, ty: Type, inside: usize) -> Made<Heading>
        requires { self.inside + inside < 255 }
        ensures { IfOk result (λ h. heading_view h ≡ with_member name.now (view ty) inside (heading_view self)) }
    {
        let mut heading = self;
        let member = StructMemberType {
            name: String::from_str(alloc, name)?,
            ty,
            size: heading.size,
            align: heading.align,
        };
        heading.members.push(member)?;
        heading.inside += 1 + inside;
        heading.size = None;
        heading.align = None;
        Ok(heading)
    }

    /// The struct.
    fn structure(self, alloc: Global) -> Made<Type>
        ensures { IfOk result (λ t. view t ≡ struct_of (heading_view self)) }
    {
        let (name, members) = (self.name, self.members);
        drop(self.result);
        Type::from_struct(alloc, StructType { name, members })
    }

    /// The function.
    fn function(self, alloc: Global) -> Made<(String, Meaning)>
        ensures { IfOk result (λ d. declared_view (record { name = d.0; meaning = d.1 }) ≡ function_declared (heading_view self)) }
    {
        let parameters = types_of(alloc, self.members)?;
        Ok((self.name, Meaning::Function(parameters, self.result)))
    }
}

/// The types of members.
fn types_of(alloc: Global, members: Vec<StructMemberType>) -> Made<Vec<Type>>
    ensures { IfOk result (λ types. map view types.items ≡ map (λ m. m.ty) (map member_view members.items)) }
{
    let mut types = Vec::with_capacity(alloc, members.len())?;
    for member in members {
        let StructMemberType { name, ty, .. } = member;
        drop(name);
        types.push(ty)?;
    }
    Ok(types)
}

/// `-> T`
pub fn put_result(source: &Source<'_>, scope: &Scope, index: usize, items: &mut Items) -> Read<()>
    ensures { Does (Resulted (source_view source.now) (scope_view scope.now) index (items_view items.old.items)) items.new.items result }
{
    let from = take_place(source, items)?;
    match source.type_noted(scope, source.noted(from, index))? {
        Ok((ty, _)) => put_result_type(source, ty, items),
        Err(fault) => Err(untyped(fault, Wanted::Type)),
    }
}

fn put_result_type(source: &Source<'_>, ty: Type, items: &mut Items) -> Read<()>
    ensures { Does (Changed (with_result (view ty)) (items_view items.old.items)) items.new.items result }
{
    let mut heading = take_heading(source, items)?;
    heading.result = Some(ty);
    push(Item::Heading(heading), items)
}

/// Takes the struct on top, with the number of types inside it.
pub fn take_struct(source: &Source<'_>, items: &mut Items) -> Read<(Type, usize)>
    ensures { Takes (λ t. (view t.0, t.1)) (struct_on (items_view items.old.items)) items.new.items result }
{
    let heading = take_heading(source, items)?;
    let inside = heading.inside;
    Ok((heading.structure(source.alloc)?, inside))
}

/// Declares the struct on top.
pub fn declare_struct(source: &Source<'_>, scope: &mut Scope, items: &mut Items) -> Read<()>
    ensures { Moves (λ r. r ≡ declared_by struct_declared (scope_view scope.old) (items_view items.old.items)) scope.new items.new.items result }
{
    let heading = take_heading(source, items)?;
    let inside = heading.inside;
    let name = String::from_str(source.alloc, heading.name.as_str())?;
    let ty = heading.structure(source.alloc)?;
    Ok(scope.declare(name, Meaning::Type(ty, inside))?)
}

/// Declares the function on top.
pub fn declare_function(source: &Source<'_>, scope: &mut Scope, items: &mut Items) -> Read<()>
    ensures { Moves (λ r. r ≡ declared_by function_declared (scope_view scope.old) (items_view items.old.items)) scope.new items.new.items result }
{
    let heading = take_heading(source, items)?;
    let (name, meaning) = heading.function(source.alloc)?;
    Ok(scope.declare(name, meaning)?)
}
