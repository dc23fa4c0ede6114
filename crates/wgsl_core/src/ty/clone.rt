// Copies of types.
ghost use Rattle.std.specs.Prelude.{◌≡◌, IfOk, IsOk};
ghost use Rattle.wgsl_rules.specs.types.Kinds.{IsLeaf};
ghost use Rattle.wgsl_core.specs.View.{view, struct_view, member_view};
ghost use Rattle.wgsl_core.specs.internal.View.{members_view};

use crate::ty::{StructMemberType, StructType, Type};
use std::alloc::{AllocError, Global};

impl Type {
    /// A copy; fails only if out of memory.
    #[cycle(copy)]
    pub fn clone(&self, alloc: Global) -> Result<Type, AllocError>
        ensures same { IfOk result (λ t. view t ≡ view self.now) }
        ensures never_out_of_memory { IsLeaf (view self.now) → IsOk result }
    {
        match self {
            Type::Bool => Ok(Type::Bool),
            Type::AbstractInt => Ok(Type::AbstractInt),
            Type::AbstractFloat => Ok(Type::AbstractFloat),
            Type::I32 => Ok(Type::I32),
            Type::U32 => Ok(Type::U32),
            Type::F32 => Ok(Type::F32),
            Type::F16 => Ok(Type::F16),
            Type::Struct(s) => Ok(Type::Struct(boxed_struct_copy(alloc, s)?)),
            Type::Array(t, n) => Ok(Type::Array(boxed_copy(alloc, t)?, *n)),
            Type::Vec(n, t) => Ok(Type::Vec(*n, boxed_copy(alloc, t)?)),
            Type::Mat(c, r, t) => Ok(Type::Mat(*c, *r, boxed_copy(alloc, t)?)),
            Type::Atomic(t) => Ok(Type::Atomic(boxed_copy(alloc, t)?)),
            Type::Ptr(s, t, m) => Ok(Type::Ptr(*s, boxed_copy(alloc, t)?, *m)),
            Type::Ref(s, t, m) => Ok(Type::Ref(*s, boxed_copy(alloc, t)?, *m)),
            Type::Texture(t) => Ok(Type::Texture(*t)),
            Type::Sampler(s) => Ok(Type::Sampler(*s)),
            Type::I64 => Ok(Type::I64),
            Type::U64 => Ok(Type::U64),
            Type::F64 => Ok(Type::F64),
            Type::BindingArray(t, n) => Ok(Type::BindingArray(boxed_copy(alloc, t)?, *n)),
            Type::RayQuery(f) => Ok(Type::RayQuery(*f)),
            Type::AccelerationStructure(f) => Ok(Type::AccelerationStructure(*f)),
        }
    }
}

/// A copy in a new box.
///
/// It is not inlined, or each arm of `Type::clone` has room for it on the stack, and copies of deep types take three times as
/// much.
#[cycle(copy)]
#[inline(never)]
pub fn boxed_copy(alloc: Global, ty: &Type) -> Result<Box<Type>, AllocError>
    ensures { IfOk result (λ t. view t.value ≡ view ty.now) }
{
    Ok(Box::new(alloc, ty.clone(alloc)?)?)
}

/// A copy in a new box, not inlined either.
#[cycle(copy)]
#[inline(never)]
fn boxed_struct_copy(alloc: Global, ty: &StructType) -> Result<Box<StructType>, AllocError>
    ensures { IfOk result (λ t. struct_view t.value ≡ struct_view ty.now) }
{
    Ok(Box::new(alloc, ty.clone(alloc)?)?)
}

impl StructType {
    /// A copy; fails only if out of memory.
    #[cycle(copy)]
    pub fn clone(&self, alloc: Global) -> Result<StructType, AllocError>
        ensures { IfOk result (λ s. struct_view s ≡ struct_view self.now) }
    {
        let name = String::from_str(alloc, self.name.as_str())?;
        let members = copy_members(alloc, &self.members)?;
        Ok(StructType { name, members })
    }
}

impl StructMemberType {
    /// A copy; fails only if out of memory.
    #[cycle(copy)]
    pub fn clone(&self, alloc: Global) -> Result<StructMemberType, AllocError>
        ensures { IfOk result (λ m. member_view m ≡ member_view self.now) }
    {
        let name = String::from_str(alloc, self.name.as_str())?;
        let ty = self.ty.clone(alloc)?;
        Ok(StructMemberType {
            name,
            ty,
            size: self.size,
            align: self.align,
        })
    }
}

#[cycle(copy)]
fn copy_members(
    alloc: Global,
    members: &Vec<StructMemberType>,
) -> Result<Vec<StructMemberType>, AllocError>
    ensures { IfOk result (λ v. members_view v.items ≡ members_view members.now.items) }
{
    let mut copies = Vec::with_capacity(alloc, members.len())?;
    for member in members {
        copies.push(member.clone(alloc)?)?;
    }
    Ok(copies)
}
