// What an operand requires of the letters of an overload: the type variables, such as T.
ghost use Rattle.std.specs.Prelude.{◌≡◌, option_map};
ghost use Rattle.std.specs.Option.{is_some, option_or};
ghost use Rattle.wgsl_core.specs.View.{view};
ghost use Rattle.wgsl_standard.specs.Operands.{operand_view};
ghost use Rattle.wgsl_standard.specs.internal.Binding.{bind_component as component_bound, same_count as counted, bind_count as count_bound, same_width as width_bound, with_width, bind_letter as letter_bound, bind_if, bind_shape as shape_bound, bind_value as value_bound, bind_pattern as pattern_bound, bind as bound};

use crate::letter::{converts, join_to, may_be};
use crate::operand::{Operand, OperandType, loaded, parts_of};
use crate::resource::{is_sampler, is_texture, letter_of};
use wgsl_core::ty::Type;
use wgsl_syntax::overload::{Component, Count, Dimensions, Pattern, Shape};
use wgsl_syntax::scalar::Scalar;

/// What the operands so far require of the letters.
#[derive(Clone, Copy)]
pub struct Binding {
    /// The letter stands for a scalar to which this one converts.
    pub t: Option<Scalar>,
    pub u: Option<Scalar>,
    pub v: Option<Scalar>,
    pub w: Option<Scalar>,
    /// It stands for exactly this.
    pub width: Option<Option<u8>>,
    pub n: Option<u8>,
    pub m: Option<u8>,
    pub k: Option<u8>,
}

/// Nothing is required.
pub const FREE: Binding = Binding {
    t: None,
    u: None,
    v: None,
    w: None,
    width: None,
    n: None,
    m: None,
    k: None,
};

/// Whether the operand fits the parameter. If so, the binding then has what it requires too.
#[tactic(auto, using(crate::proofs::Bound::value_bound))]
#[inline(always)]
pub fn bind(concrete: bool, binding: &mut Binding, pattern: &Pattern, operand: &Operand) -> bool
    ensures { bind_if result binding.new ≡ bound concrete binding.old pattern.now (operand_view operand.now) }
{
    match operand.ty {
        OperandType::Value(dimensions, scalar) => {
            bind_value(concrete, binding, pattern, dimensions, scalar)
        }
        OperandType::Any(ty) => bind_type(concrete, binding, pattern, loaded(ty)),
    }
}

/// `bind` for an operand that is a scalar, a vector or a matrix.
fn bind_value(
    concrete: bool,
    binding: &mut Binding,
    pattern: &Pattern,
    dimensions: Dimensions,
    scalar: Scalar,
) -> bool
    ensures { bind_if result binding.new ≡ value_bound concrete binding.old pattern.now (dimensions, scalar) }
{
    match pattern {
        Pattern::Value(shape, component) => {
            bind_shape(binding, *shape, dimensions)
                && bind_component(concrete, binding, *component, scalar)
        }
        _ => false,
    }
}

/// `bind` for an operand of any type.
#[inline(never)]
fn bind_type(concrete: bool, binding: &mut Binding, pattern: &Pattern, ty: &Type) -> bool
    ensures { bind_if result binding.new ≡ pattern_bound concrete binding.old pattern.now (view ty.now) }
{
    match pattern {
        Pattern::Value(_, _) => match parts_of(ty) {
            Some((dimensions, scalar)) => {
                bind_value(concrete, binding, pattern, dimensions, scalar)
            }
            None => false,
        },
        Pattern::Sampler(sampler) => is_sampler(ty, *sampler),
        Pattern::Texture(texture) => is_texture(ty, *texture),
        Pattern::Resource(resource) => bind_letter(concrete, binding, letter_of(*resource, ty)),
    }
}

fn bind_letter(concrete: bool, binding: &mut Binding, letter: Option<Option<Scalar>>) -> bool
    ensures { bind_if result binding.new ≡ letter_bound concrete binding.old letter }
{
    match letter {
        None => false,
        Some(None) => true,
        Some(Some(scalar)) => bind_component(concrete, binding, Component::T, scalar),
    }
}

#[inline(always)]
fn bind_component(
    concrete: bool,
    binding: &mut Binding,
    component: Component,
    scalar: Scalar,
) -> bool
    ensures { bind_if result binding.new ≡ component_bound concrete binding.old component scalar }
{
    match component {
        Component::T => put(join_to(binding.t, scalar), &mut binding.t),
        Component::U => put(join_to(binding.u, scalar), &mut binding.u),
        Component::V => put(join_to(binding.v, scalar), &mut binding.v),
        Component::W => put(join_to(binding.w, scalar), &mut binding.w),
        Component::The(given) => converts(scalar, given) && may_be(concrete, given),
    }
}

/// Stores the value, if there is one.
fn put<T: Copy>(value: Option<T>, place: &mut Option<T>) -> bool
    ensures there_is { result ≡ is_some value }
    ensures value { place.new ≡ option_or value place.old }
{
    match value {
        Some(value) => {
            *place = Some(value);
            true
        }
        None => false,
    }
}

#[inline(always)]
fn bind_shape(binding: &mut Binding, shape: Shape, dimensions: Dimensions) -> bool
    ensures { bind_if result binding.new ≡ shape_bound binding.old shape dimensions }
{
    match shape {
        Shape::One => matches!(dimensions, Dimensions::Single),
        Shape::Vector(count) => match dimensions {
            Dimensions::Vector(n) => bind_count(binding, count, n),
            _ => false,
        },
        Shape::Matrix(columns, rows) => match dimensions {
            Dimensions::Matrix(c, r) => {
                bind_count(binding, columns, c) && bind_count(binding, rows, r)
            }
            _ => false,
        },
        Shape::OneOrVector => match dimensions {
            Dimensions::Single => bind_width(binding, None),
            Dimensions::Vector(n) => bind_width(binding, Some(n)),
            Dimensions::Matrix(_, _) => false,
        },
    }
}

fn bind_width(binding: &mut Binding, width: Option<u8>) -> bool
    ensures { bind_if result binding.new ≡ option_map (with_width binding.old) (width_bound binding.old.width width) }
{
    put(same_width(binding.width, width), &mut binding.width)
}

fn same_width(before: Option<Option<u8>>, width: Option<u8>) -> Option<Option<u8>>
    ensures { result ≡ width_bound before width }
{
    match before {
        None => Some(width),
        Some(None) => match width {
            None => Some(None),
            Some(_) => None,
        },
        Some(Some(m)) => match width {
            None => None,
            Some(n) => { if m == n { Some(Some(m)) } else { None } }
        },
    }
}

fn bind_count(binding: &mut Binding, count: Count, number: u8) -> bool
    ensures { bind_if result binding.new ≡ count_bound binding.old count number }
{
    match count {
        Count::N => put(same_count(binding.n, number), &mut binding.n),
        Count::M => put(same_count(binding.m, number), &mut binding.m),
        Count::K => put(same_count(binding.k, number), &mut binding.k),
        Count::Exactly(given) => given == number,
    }
}

fn same_count(before: Option<u8>, number: u8) -> Option<u8>
    ensures { result ≡ counted before number }
{
    match before {
        None => Some(number),
        Some(given) => { if given == number { Some(given) } else { None } }
    }
}
