// Scalar types: their names, and which of them are integers, floats and numbers.
ghost use Rattle.std.specs.Prelude.{◌≡◌, ◌↔◌, IsTrue};
ghost use Rattle.wgsl_syntax.specs.Names.{named, table, Reads};
ghost use Rattle.wgsl_syntax.specs.Scalar.{scalar_text, scalars, IsInteger, IsFloat, IsNumeric};

use crate::texture::SampledType;
use std::fmt;
use std::fmt::Write;
use std::str::FromStr;

/// A scalar type (WGSL, "Scalar Types"), including the abstract numbers and naga's 64-bit scalars.
#[derive(Clone, Copy, PartialEq, Eq, Hash, Debug)]
pub enum Scalar {
    /// `bool`
    Bool,
    /// `AbstractInt`
    AbstractInt,
    /// `AbstractFloat`
    AbstractFloat,
    /// `i32`
    I32,
    /// `u32`
    U32,
    /// `f32`
    F32,
    /// `f16`
    F16,
    /// `i64`
    I64,
    /// `u64`
    U64,
    /// `f64`
    F64,
}

impl fmt::Display for Scalar {
    ghost use Rattle.std.specs.Prelude.{Some};
    ghost use Rattle.std.specs.Fmt.{padded};

    ghost output = { λ x. Some (scalar_text x) };

    ghost styled_output = { λ x spec. Some (padded spec (scalar_text x)) };

    fn fmt<W: Write>(&self, f: &mut fmt::Formatter<W>) -> fmt::Result {
        f.pad(self.name())
    }
}

/// The scalar of this name.
pub fn scalar_named(s: &str) -> Option<Scalar>
    ensures { result ≡ named (table scalar_text scalars) s.now }
{
    match s {
        "bool" => Some(Scalar::Bool),
        "AbstractInt" => Some(Scalar::AbstractInt),
        "AbstractFloat" => Some(Scalar::AbstractFloat),
        "i32" => Some(Scalar::I32),
        "u32" => Some(Scalar::U32),
        "f32" => Some(Scalar::F32),
        "f16" => Some(Scalar::F16),
        "i64" => Some(Scalar::I64),
        "u64" => Some(Scalar::U64),
        "f64" => Some(Scalar::F64),
        _ => None,
    }
}

impl FromStr for Scalar {
    type Err = ();

    ghost from_str_gives = { Reads scalar_text };

    fn from_str(s: &str) -> Result<Scalar, ()> {
        scalar_named(s).ok_or(())
    }
}

impl From<SampledType> for Scalar {
    ghost use Rattle.std.specs.Prelude.{◌≡◌};
    ghost use Rattle.wgsl_syntax.specs.TextureKind.{sampled_scalar};

    ghost from_gives = { λ sampled scalar. scalar ≡ sampled_scalar sampled };

    fn from(sampled: SampledType) -> Scalar {
        match sampled {
            SampledType::I32 => Scalar::I32,
            SampledType::U32 => Scalar::U32,
            SampledType::F32 => Scalar::F32,
        }
    }
}

impl Scalar {
    /// The name, for example `f32`.
    pub fn name(self) -> &'static str
        ensures { result.now ≡ scalar_text self }
    {
        match self {
            Scalar::Bool => "bool",
            Scalar::AbstractInt => "AbstractInt",
            Scalar::AbstractFloat => "AbstractFloat",
            Scalar::I32 => "i32",
            Scalar::U32 => "u32",
            Scalar::F32 => "f32",
            Scalar::F16 => "f16",
            Scalar::I64 => "i64",
            Scalar::U64 => "u64",
            Scalar::F64 => "f64",
        }
    }

    /// Whether it is an integer (WGSL, "Integer Types"), concrete or abstract.
    pub fn is_integer(self) -> bool
        ensures { IsTrue result ↔ IsInteger self }
    {
        matches!(
            self,
            Scalar::AbstractInt | Scalar::I32 | Scalar::U32 | Scalar::I64 | Scalar::U64
        )
    }

    /// Whether it is a float (WGSL, "Floating Point Types"), concrete or abstract.
    pub fn is_float(self) -> bool
        ensures { IsTrue result ↔ IsFloat self }
    {
        matches!(
            self,
            Scalar::AbstractFloat | Scalar::F32 | Scalar::F16 | Scalar::F64
        )
    }

    /// Whether it is a number: an integer or a float.
    pub fn is_numeric(self) -> bool
        ensures { IsTrue result ↔ IsNumeric self }
    {
        !matches!(self, Scalar::Bool)
    }
}
