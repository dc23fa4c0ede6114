// Conversion of types.
ghost use Rattle.std.specs.Prelude.{◌≡◌, ◌≤◌, ◌↔◌, ℕ, IsTrue, IfSome, IfNone, Some, None, option_map};
ghost use Rattle.wgsl_syntax.specs.declared.result_struct.ResultStruct.{ResultStruct as ResultName};
ghost use Rattle.wgsl_rules.specs.types.Types.{WgslType, scalar, vec};
ghost use Rattle.wgsl_rules.specs.conversion.Conversion.{Converts, ConvertsIn, ConvertsTo, Load};
ghost use Rattle.wgsl_rules.specs.conversion.Common.{IsCommon};
ghost use Rattle.wgsl_rules.specs.Laws.{CommonSymmetric};
ghost use Rattle.wgsl_rules.specs.internal.Nodes.{Node as RuleNode, type_at, parent_of, rank_from_root};
ghost use Rattle.wgsl_core.specs.View.{view};
ghost use Rattle.wgsl_core.specs.Forms.{layer_of};
ghost use Rattle.wgsl_core.specs.internal.Forms.{HaveElements};
ghost use Rattle.wgsl_core.specs.internal.Nodes.{node_view};

mod concrete;
pub mod lists;
pub mod typed;
pub mod value;

use crate::ty::Type;
use crate::ty::form::Form;
use crate::ty::result_struct::is_vector_of;
use wgsl_syntax::layer::Layer;
use wgsl_syntax::result_struct::{ResultPrecision, ResultStruct};
use wgsl_syntax::scalar::Scalar;

/// The rank of the conversion from `a` to `b` (WGSL, "Conversion Rank"), or None if `a` doesn't convert to `b`.
pub fn conversion_rank(a: &Type, b: &Type) -> Option<u32>
    ensures { (w : ℕ) → (result ≡ Some w) ↔ Converts (view a.now) (view b.now) w }
{
    let (from, to) = without_equal_layers(a, b);
    match scalars(from, to) {
        Some((source, target)) => scalar_rank(source, target),
        None => rank_below_layers(from, to).0,
    }
}

/// Both scalars, if both types are scalars.
#[inline(always)]
#[tactic(auto, using(crate::proofs::Scalars::scalar_is))]
fn scalars(a: &Type, b: &Type) -> Option<(Scalar, Scalar)>
    ensures { IfSome result (λ p. (view a.now ≡ scalar p.0) × (view b.now ≡ scalar p.1)) }
{
    match a.scalar() {
        Some(source) => match b.scalar() {
            Some(target) => Some((source, target)),
            None => None,
        },
        None => None,
    }
}

/// The rank of the conversion from one scalar to another, or None if it doesn't convert.
pub fn scalar_rank(source: Scalar, target: Scalar) -> Option<u32>
    ensures { (w : ℕ) → (result ≡ Some w) ↔ Converts (scalar source) (scalar target) w }
{
    walk(Node::Scalar(source), Node::Scalar(target)).0
}

/// The common type of two types (WGSL, "Overload Resolution"): `b` if `a` converts to it, else `a` if `b` converts
/// to it, else None.
#[tactic(auto, using(wgsl_rules::proofs::Laws::symmetric))]
pub fn convert_ty<'a>(a: &'a Type, b: &'a Type) -> Option<&'a Type>
    ensures common { IsCommon (view a.now) (view b.now) (option_map (λ t. view t.now) result) }
    ensures symmetric { CommonSymmetric (view a.now) (view b.now) }
{
    if a.is_convertible_to(b) {
        Some(b)
    } else if b.is_convertible_to(a) {
        Some(a)
    } else {
        None
    }
}

impl Type {
    /// Whether the type converts to `ty`.
    #[inline(always)]
    pub fn is_convertible_to(&self, ty: &Type) -> bool
        ensures { IsTrue result ↔ ConvertsTo (view self.now) (view ty.now) }
    {
        conversion_rank(self, ty).is_some()
    }

    /// Whether the type converts to the vector with that many components of type `of`.
    pub fn is_convertible_to_vector(&self, components: u8, of: Scalar) -> bool
        ensures { IsTrue result ↔ ConvertsTo (view self.now) (vec components (scalar of)) }
    {
        match self.layer() {
            Some((layer, element)) => {
                layer.is(Layer::Vec(components)) && element.is_convertible_to(&Type::from(of))
            }
            None => loads_vector(self, components, of),
        }
    }
}

/// The rank of the conversion from `a` to `b`, or None, and the number of its single conversions. Without a rank the
/// number has no meaning.
pub fn rank_steps(a: &Type, b: &Type) -> (Option<u32>, u32)
    ensures rank { (w : ℕ) → (result.0 ≡ Some w) ↔ Converts (view a.now) (view b.now) w }
    ensures few { result.1 ≤ 2 }
    ensures steps { IfSome result.0 (λ w. ConvertsIn (view a.now) (view b.now) w result.1) }
{
    let (from, to) = without_equal_layers(a, b);
    match scalars(from, to) {
        Some((source, target)) => walk(Node::Scalar(source), Node::Scalar(target)),
        None => rank_below_layers(from, to),
    }
}

/// The types inside the layers that both types have.
#[inline(always)]
fn without_equal_layers<'a>(a: &'a Type, b: &'a Type) -> (&'a Type, &'a Type)
    ensures bare { (e f : WgslType)
        → ¬ HaveElements (view result.0.now) (view result.1.now) e f }
    ensures rank { (w : ℕ) → Converts (view a.now) (view b.now) w
        ↔ Converts (view result.0.now) (view result.1.now) w }
    ensures steps { (w n : ℕ) → ConvertsIn (view a.now) (view b.now) w n
        ↔ ConvertsIn (view result.0.now) (view result.1.now) w n }
{
    let mut from = a;
    let mut to = b;
    while let Some((element, target)) = elements(from, to) {
        from = element;
        to = target;
    }
    (from, to)
}

/// The elements of both types, if both have the same layer.
#[inline(always)]
fn elements<'a>(a: &'a Type, b: &'a Type) -> Option<(&'a Type, &'a Type)>
    ensures some { IfSome result (λ p.
        HaveElements (view a.now) (view b.now) (view p.0.now) (view p.1.now)) }
    ensures none { IfNone result ((e f : WgslType)
        → ¬ HaveElements (view a.now) (view b.now) e f) }
{
    match a.form() {
        Form::Array(n, t) => match b.form() {
            Form::Array(m, u) if n == m => Some((t, u)),
            _ => None,
        },
        Form::Vector(n, t) => match b.form() {
            Form::Vector(m, u) if n == m => Some((t, u)),
            _ => None,
        },
        Form::Matrix(c, r, t) => match b.form() {
            Form::Matrix(d, s, u) if c == d && r == s => Some((t, u)),
            _ => None,
        },
        _ => None,
    }
}

#[inline(never)]
fn rank_below_layers(a: &Type, b: &Type) -> (Option<u32>, u32)
    requires { (e f : WgslType) → ¬ HaveElements (view a.now) (view b.now) e f }
    ensures rank { (w : ℕ) → (result.0 ≡ Some w) ↔ Converts (view a.now) (view b.now) w }
    ensures few { result.1 ≤ 2 }
    ensures steps { IfSome result.0 (λ w. ConvertsIn (view a.now) (view b.now) w result.1) }
{
    if a == b || loads(a, b) {
        return (Some(0), 0);
    }
    match node_of(a) {
        Some(source) => match node_of(b) {
            Some(target) => walk(source, target),
            None => (None, 0),
        },
        None => (None, 0),
    }
}

#[tactic(auto, using(crate::specs::Equality::type_eq_decides))]
fn loads(a: &Type, b: &Type) -> bool
    requires { (e f : WgslType) → ¬ HaveElements (view a.now) (view b.now) e f }
    ensures { IsTrue result ↔ Load (view a.now) (view b.now) }
{
    match a.form() {
        Form::Reference(_, target, access) => access.is_read() && *target == *b,
        _ => false,
    }
}

fn loads_vector(ty: &Type, components: u8, of: Scalar) -> bool
    requires { layer_of (view ty.now) ≡ None }
    ensures { IsTrue result ↔ ConvertsTo (view ty.now) (vec components (scalar of)) }
{
    match ty.form() {
        Form::Reference(_, target, access) => access.is_read()
            && is_vector_of(target, components, of),
        _ => false,
    }
}

/// A node of the tree of single conversions.
#[derive(Clone, Copy, PartialEq, Eq)]
enum Node {
    Scalar(Scalar),
    Result(ResultStruct),
}

fn node_of(ty: &Type) -> Option<Node>
    ensures { (p : RuleNode) → (option_map node_view result ≡ Some p) ↔ (view ty.now ≡ type_at p) }
{
    match ty.form() {
        Form::Scalar(scalar) => Some(Node::Scalar(scalar)),
        Form::Struct(s) => Some(Node::Result(s.result_struct()?)),
        _ => None,
    }
}

/// The node from which a single conversion leads here.
fn parent(node: Node) -> Option<Node>
    ensures { option_map node_view result ≡ parent_of (node_view node) }
{
    match node {
        Node::Scalar(scalar) => match scalar {
            Scalar::I32 | Scalar::U32 | Scalar::AbstractFloat | Scalar::I64 | Scalar::U64 => {
                Some(Node::Scalar(Scalar::AbstractInt))
            }
            Scalar::F32 | Scalar::F16 => Some(Node::Scalar(Scalar::AbstractFloat)),
            Scalar::Bool | Scalar::AbstractInt | Scalar::F64 => None,
        },
        Node::Result(result_struct) => match result_struct.precision {
            ResultPrecision::Abstract => None,
            ResultPrecision::F32 | ResultPrecision::F16 => Some(Node::Result(ResultStruct {
                function: result_struct.function,
                shape: result_struct.shape,
                precision: ResultPrecision::Abstract,
            })),
        },
    }
}

/// The weight of the path from the root to the node.
fn rank_from_root(node: Node) -> u32
    ensures { result ≡ rank_from_root (node_view node) }
{
    match node {
        Node::Scalar(scalar) => match scalar {
            Scalar::I32 => 3,
            Scalar::U32 => 4,
            Scalar::AbstractFloat => 5,
            Scalar::F32 => 6,
            Scalar::F16 => 7,
            Scalar::I64 => 8,
            Scalar::U64 => 9,
            Scalar::Bool | Scalar::AbstractInt | Scalar::F64 => 0,
        },
        Node::Result(result_struct) => match result_struct.precision {
            ResultPrecision::Abstract => 0,
            ResultPrecision::F32 => 1,
            ResultPrecision::F16 => 2,
        },
    }
}

fn is_same(a: Node, b: Node) -> bool
    ensures { IsTrue result ↔ (node_view a ≡ node_view b) }
{
    a == b
}

/// Walks from the target to its parents until it meets the source.
#[inline(always)]
fn walk(source: Node, target: Node) -> (Option<u32>, u32)
    ensures rank { (w : ℕ) → (result.0 ≡ Some w)
        ↔ Converts (type_at (node_view source)) (type_at (node_view target)) w }
    ensures few { result.1 ≤ 2 }
    ensures steps { IfSome result.0 (λ w.
        ConvertsIn (type_at (node_view source)) (type_at (node_view target)) w result.1) }
{
    let mut met = target;
    let mut steps = 0;
    while !is_same(met, source) {
        match parent(met) {
            Some(above) => {
                met = above;
                steps += 1;
            }
            None => return (None, steps),
        }
    }
    (Some(rank_from_root(target) - rank_from_root(source)), steps)
}
