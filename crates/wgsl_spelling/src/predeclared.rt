// The predeclared names of types.
ghost use Rattle.std.specs.Prelude.{◌≡◌};
ghost use Rattle.wgsl_syntax.specs.Names.{named};
ghost use Rattle.wgsl_spelling.specs.Predeclared.{count, is_half, is_naga_only, matrix_type, other_names, other_type, predeclared, short_float, short_scalar, vector_type};

use wgsl_syntax::scalar::{Scalar, scalar_named};
use wgsl_syntax::texture::SamplerType;
use wgsl_syntax::texture_name::{TextureName, texture_named};

/// What a predeclared name of a type stands for.
#[derive(Clone, Copy)]
pub enum PredeclaredType {
    Scalar(Scalar),
    /// `vec3f`
    Vec(u8, Scalar),
    /// `mat4x4h`
    Mat(u8, u8, Scalar),
    Sampler(SamplerType),
    Texture(TextureName),
    RayQuery,
    AccelerationStructure,
    /// A name whose template list has a type.
    Layer(LayerName),
}

impl PredeclaredType {
    /// Whether the type is one of half precision.
    pub fn is_half(self) -> bool
        ensures { result ≡ is_half self }
    {
        matches!(
            self,
            PredeclaredType::Scalar(Scalar::F16)
                | PredeclaredType::Vec(_, Scalar::F16)
                | PredeclaredType::Mat(_, _, Scalar::F16)
        )
    }

    /// Whether naga alone has the type.
    pub fn is_naga_only(self) -> bool
        ensures { result ≡ is_naga_only self }
    {
        matches!(
            self,
            PredeclaredType::Scalar(Scalar::I64 | Scalar::U64 | Scalar::F64)
                | PredeclaredType::RayQuery
                | PredeclaredType::AccelerationStructure
                | PredeclaredType::Layer(LayerName::BindingArray)
        )
    }
}

/// The name of what stands around a type.
#[derive(Clone, Copy, PartialEq, Eq)]
pub enum LayerName {
    Vec(u8),
    Mat(u8, u8),
    Array,
    BindingArray,
    Atomic,
    Pointer,
    Reference,
}

/// What this name stands for, if it is predeclared for a type.
pub fn predeclared(name: &str) -> Option<PredeclaredType>
    ensures { result ≡ predeclared name.now }
{
    if let Some(scalar) = scalar_named(name) {
        return Some(PredeclaredType::Scalar(scalar));
    }
    match texture_named(name) {
        Some(texture) => Some(PredeclaredType::Texture(texture)),
        None => other_type(name),
    }
}

/// The meaning of a vector's or a matrix's name, or of a name without a number.
fn other_type(name: &str) -> Option<PredeclaredType>
    ensures { result ≡ other_type name.now }
{
    match name.as_bytes() {
        [b'v', b'e', b'c', rest @ ..] => vector_type(rest),
        [b'm', b'a', b't', rest @ ..] => matrix_type(rest),
        _ => named_type(name),
    }
}

fn named_type(name: &str) -> Option<PredeclaredType>
    ensures { result ≡ named other_names name.now }
{
    match name {
        "array" => Some(PredeclaredType::Layer(LayerName::Array)),
        "atomic" => Some(PredeclaredType::Layer(LayerName::Atomic)),
        "ptr" => Some(PredeclaredType::Layer(LayerName::Pointer)),
        "ref" => Some(PredeclaredType::Layer(LayerName::Reference)),
        "binding_array" => Some(PredeclaredType::Layer(LayerName::BindingArray)),
        "sampler" => Some(PredeclaredType::Sampler(SamplerType::Sampler)),
        "sampler_comparison" => Some(PredeclaredType::Sampler(SamplerType::SamplerComparison)),
        "ray_query" => Some(PredeclaredType::RayQuery),
        "acceleration_structure" => Some(PredeclaredType::AccelerationStructure),
        _ => None,
    }
}

/// `3` or `3f`, behind `vec`
fn vector_type(rest: &[u8]) -> Option<PredeclaredType>
    ensures { result ≡ vector_type rest.now }
{
    match rest {
        [n] => Some(PredeclaredType::Layer(LayerName::Vec(count(*n)?))),
        [n, letter] => Some(PredeclaredType::Vec(count(*n)?, short_scalar(*letter)?)),
        _ => None,
    }
}

/// `4x3` or `4x3f`, behind `mat`
fn matrix_type(rest: &[u8]) -> Option<PredeclaredType>
    ensures { result ≡ matrix_type rest.now }
{
    match rest {
        [c, b'x', r] => Some(PredeclaredType::Layer(LayerName::Mat(count(*c)?, count(*r)?))),
        [c, b'x', r, letter] => Some(PredeclaredType::Mat(
            count(*c)?,
            count(*r)?,
            short_float(*letter)?,
        )),
        _ => None,
    }
}

fn count(digit: u8) -> Option<u8>
    ensures { result ≡ count digit }
{
    match digit {
        b'2'..=b'4' => Some(digit - b'0'),
        _ => None,
    }
}

fn short_float(letter: u8) -> Option<Scalar>
    ensures { result ≡ short_float letter }
{
    match letter {
        b'f' => Some(Scalar::F32),
        b'h' => Some(Scalar::F16),
        _ => None,
    }
}

/// The scalar of the letter at the end of a predeclared alias, such as `f32` of the `f` in `vec3f`.
fn short_scalar(letter: u8) -> Option<Scalar>
    ensures { result ≡ short_scalar letter }
{
    match letter {
        b'i' => Some(Scalar::I32),
        b'u' => Some(Scalar::U32),
        _ => short_float(letter),
    }
}
