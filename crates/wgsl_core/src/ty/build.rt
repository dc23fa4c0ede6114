// Types built in one call.
ghost use Rattle.std.specs.Prelude.{◌≡◌, map, IfOk};
ghost use Rattle.wgsl_rules.specs.types.Types.{array, vec, mat, within};
ghost use Rattle.wgsl_rules.specs.types.Around.{around};
ghost use Rattle.wgsl_core.specs.View.{view, struct_view, member_view, members_of};
ghost use Rattle.wgsl_core.specs.ResultStruct.{plain};

use crate::ty::{StructMemberType, StructType, Type};
use std::alloc::{AllocError, Global};
use wgsl_syntax::around::Around;
use wgsl_syntax::layer::Layer;

impl Type {
    /// The type with that around another type.
    #[inline(always)]
    pub fn around(outer: Around, inner: Box<Type>) -> Type
        ensures { view result ≡ around outer (view inner.value) }
    {
        match outer {
            Around::Array(count) => Type::Array(inner, count),
            Around::Vec(components) => Type::Vec(components, inner),
            Around::Mat(columns, rows) => Type::Mat(columns, rows, inner),
            Around::BindingArray(count) => Type::BindingArray(inner, count),
            Around::Atomic => Type::Atomic(inner),
            Around::Ptr(space, access) => Type::Ptr(space, inner, access),
            Around::Ref(space, access) => Type::Ref(space, inner, access),
        }
    }

    /// A vector with that many components (WGSL, "Vector Types").
    pub fn vector(alloc: Global, components: u8, of: Type) -> Result<Type, AllocError>
        ensures { IfOk result (λ t. view t ≡ vec components (view of)) }
    {
        within(alloc, Layer::Vec(components), of)
    }

    /// A matrix with that many columns and rows (WGSL, "Matrix Types").
    pub fn matrix(alloc: Global, columns: u8, rows: u8, of: Type) -> Result<Type, AllocError>
        ensures { IfOk result (λ t. view t ≡ mat columns rows (view of)) }
    {
        within(alloc, Layer::Mat(columns, rows), of)
    }

    /// An array (WGSL, "Array Types"); without a count it is runtime-sized.
    pub fn array(alloc: Global, count: Option<usize>, of: Type) -> Result<Type, AllocError>
        ensures { IfOk result (λ t. view t ≡ array count (view of)) }
    {
        within(alloc, Layer::Array(count), of)
    }
}

/// The type with that layer around an element.
pub(crate) fn within(alloc: Global, layer: Layer, element: Type) -> Result<Type, AllocError>
    ensures { IfOk result (λ t. view t ≡ within layer (view element)) }
{
    let element = Box::new(alloc, element)?;
    Ok(match layer {
        Layer::Array(count) => Type::Array(element, count),
        Layer::Vec(components) => Type::Vec(components, element),
        Layer::Mat(columns, rows) => Type::Mat(columns, rows, element),
    })
}

impl StructType {
    /// A struct (WGSL, "Structure Types") from the names and types of its members, which have no attributes.
    pub fn new(
        alloc: Global,
        name: &str,
        members: Vec<(&str, Type)>,
    ) -> Result<StructType, AllocError>
        ensures name { IfOk result (λ s. (struct_view s).name ≡ name.now) }
        ensures members { IfOk result (λ s. (struct_view s).members
            ≡ members_of (map (λ m. plain m.0.now (view m.1)) (members.entry).items)) }
    {
        let name = String::from_str(alloc, name)?;
        let members = named_members(alloc, members)?;
        Ok(StructType { name, members })
    }
}

fn named_members(
    alloc: Global,
    pairs: Vec<(&str, Type)>,
) -> Result<Vec<StructMemberType>, AllocError>
    ensures { IfOk result (λ v. map member_view v.items
        ≡ map (λ m. plain m.0.now (view m.1)) (pairs.entry).items) }
{
    let mut members = Vec::with_capacity(alloc, pairs.len())?;
    for (name, ty) in pairs {
        members.push(named_member(alloc, name, ty)?)?;
    }
    Ok(members)
}

fn named_member(alloc: Global, name: &str, ty: Type) -> Result<StructMemberType, AllocError>
    ensures { IfOk result (λ m. member_view m ≡ plain name.now (view ty)) }
{
    Ok(StructMemberType::new(String::from_str(alloc, name)?, ty))
}
