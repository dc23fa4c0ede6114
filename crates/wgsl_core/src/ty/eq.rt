// Equality of types.
ghost use Rattle.std.specs.Prelude.{◌≡◌, ◌↔◌, IsTrue};
ghost use Rattle.wgsl_core.specs.View.{view, struct_view, member_view};
ghost use Rattle.wgsl_core.specs.internal.View.{members_view};

use crate::ty::{StructMemberType, StructType, Type};
use wgsl_syntax::texture::TextureType;

impl PartialEq for Type {
    ghost use Rattle.std.specs.Ordering.{on};
    ghost use Rattle.wgsl_core.specs.View.{view};
    ghost use Rattle.wgsl_core.specs.Equality.{type_eq, type_partial_equivalence};

    ghost eq = { on view type_eq };

    ghost laws = { type_partial_equivalence };

    #[tactic(auto, using(crate::specs::Equality::type_eq_decides))]
    fn eq(&self, other: &Type) -> bool
        ensures value { result ≡ on view type_eq self.now other.now }
        ensures same { IsTrue result ↔ (view self.now ≡ view other.now) }
    {
        same(self, other)
    }
}

impl Eq for Type {
    ghost use Rattle.wgsl_core.specs.Equality.{type_equivalence};

    ghost laws = { type_equivalence };
}

impl PartialEq for StructType {
    ghost use Rattle.std.specs.Ordering.{on};
    ghost use Rattle.wgsl_core.specs.View.{struct_view};
    ghost use Rattle.wgsl_core.specs.Equality.{struct_eq, struct_partial_equivalence};

    ghost eq = { on struct_view struct_eq };

    ghost laws = { struct_partial_equivalence };

    #[tactic(auto, using(crate::specs::Equality::struct_eq_decides))]
    fn eq(&self, other: &StructType) -> bool
        ensures value { result ≡ on struct_view struct_eq self.now other.now }
        ensures same { IsTrue result ↔ (struct_view self.now ≡ struct_view other.now) }
    {
        same_struct(self, other)
    }
}

impl Eq for StructType {
    ghost use Rattle.wgsl_core.specs.Equality.{struct_equivalence};

    ghost laws = { struct_equivalence };
}

impl PartialEq for StructMemberType {
    ghost use Rattle.std.specs.Ordering.{on};
    ghost use Rattle.wgsl_core.specs.View.{member_view};
    ghost use Rattle.wgsl_core.specs.Equality.{member_eq, member_partial_equivalence};

    ghost eq = { on member_view member_eq };

    ghost laws = { member_partial_equivalence };

    #[tactic(auto, using(crate::specs::Equality::member_eq_decides))]
    fn eq(&self, other: &StructMemberType) -> bool
        ensures value { result ≡ on member_view member_eq self.now other.now }
        ensures same { IsTrue result ↔ (member_view self.now ≡ member_view other.now) }
    {
        same_member(self, other)
    }
}

impl Eq for StructMemberType {
    ghost use Rattle.wgsl_core.specs.Equality.{member_equivalence};

    ghost laws = { member_equivalence };
}

#[cycle(same)]
fn same(a: &Type, b: &Type) -> bool
    ensures { IsTrue result ↔ (view a.now ≡ view b.now) }
{
    match a {
        Type::Bool => matches!(b, Type::Bool),
        Type::AbstractInt => matches!(b, Type::AbstractInt),
        Type::AbstractFloat => matches!(b, Type::AbstractFloat),
        Type::I32 => matches!(b, Type::I32),
        Type::U32 => matches!(b, Type::U32),
        Type::F32 => matches!(b, Type::F32),
        Type::F16 => matches!(b, Type::F16),
        Type::I64 => matches!(b, Type::I64),
        Type::U64 => matches!(b, Type::U64),
        Type::F64 => matches!(b, Type::F64),
        Type::Struct(s) => match b {
            Type::Struct(t) => s.name == t.name && same_members(&s.members, &t.members),
            _ => false,
        },
        Type::Array(t, m) => match b {
            Type::Array(u, n) => m == n && same(t, u),
            _ => false,
        },
        Type::Vec(m, t) => match b {
            Type::Vec(n, u) => m == n && same(t, u),
            _ => false,
        },
        Type::Mat(c, r, t) => match b {
            Type::Mat(d, s, u) => c == d && r == s && same(t, u),
            _ => false,
        },
        Type::Atomic(t) => match b {
            Type::Atomic(u) => same(t, u),
            _ => false,
        },
        Type::Ptr(p, t, m) => match b {
            Type::Ptr(q, u, n) => p == q && m == n && same(t, u),
            _ => false,
        },
        Type::Ref(p, t, m) => match b {
            Type::Ref(q, u, n) => p == q && m == n && same(t, u),
            _ => false,
        },
        Type::Texture(t) => match b {
            Type::Texture(u) => same_texture(t, u),
            _ => false,
        },
        Type::Sampler(s) => match b {
            Type::Sampler(t) => s == t,
            _ => false,
        },
        Type::BindingArray(t, m) => match b {
            Type::BindingArray(u, n) => m == n && same(t, u),
            _ => false,
        },
        Type::RayQuery(f) => match b {
            Type::RayQuery(g) => f == g,
            _ => false,
        },
        Type::AccelerationStructure(f) => match b {
            Type::AccelerationStructure(g) => f == g,
            _ => false,
        },
    }
}

fn same_struct(a: &StructType, b: &StructType) -> bool
    ensures { IsTrue result ↔ (struct_view a.now ≡ struct_view b.now) }
{
    a.name == b.name && same_members(&a.members, &b.members)
}

#[tactic(auto, using(wgsl_syntax::proofs::Same::texture_same))]
fn same_texture(a: &TextureType, b: &TextureType) -> bool
    ensures { IsTrue result ↔ (a.now ≡ b.now) }
{
    a == b
}

#[cycle(same)]
fn same_members(a: &Vec<StructMemberType>, b: &Vec<StructMemberType>) -> bool
    ensures { IsTrue result ↔ (members_view a.now.items ≡ members_view b.now.items) }
{
    if a.len() != b.len() {
        return false;
    }
    for i in 0..a.len() {
        if !same_member(&a[i], &b[i]) {
            return false;
        }
    }
    true
}

#[cycle(same)]
fn same_member(m: &StructMemberType, n: &StructMemberType) -> bool
    ensures { IsTrue result ↔ (member_view m.now ≡ member_view n.now) }
{
    m.name == n.name && m.size == n.size && m.align == n.align && same(&m.ty, &n.ty)
}
