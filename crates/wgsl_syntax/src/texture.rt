// Textures and samplers.
ghost use Rattle.std.specs.Prelude.{◌≡◌, ◌↔◌, IsTrue};
ghost use Rattle.wgsl_syntax.specs.TextureKind.{dimensions, sampled_type, texture_channel, IsArrayed, IsDepth, IsMultisampled, IsSampled, IsStorage};
ghost use Rattle.wgsl_syntax.specs.Names.{named, table, Reads};
ghost use Rattle.wgsl_syntax.specs.Texture.{sampled_text, sampled_types, sampler_text, samplers, texture_text, texture_text_by};
ghost use Rattle.wgsl_syntax.specs.TextureName.{name_of, parameters_of};

use crate::address::AccessMode;
use crate::rules::RuleSet;
use crate::texel::TexelFormat;
use crate::texture_name::{TextureName, TextureParameters};
use std::fmt;
use std::fmt::Write;
use std::str::FromStr;

/// The sampled type of a texture (WGSL, "Sampled Texture Types").
#[derive(Clone, Copy, PartialEq, Eq, Hash, Debug)]
pub enum SampledType {
    /// `i32`
    I32,
    /// `u32`
    U32,
    /// `f32`
    F32,
}

impl SampledType {
    /// The name.
    fn text(self) -> &'static str
        ensures { result.now ≡ sampled_text self }
    {
        match self {
            SampledType::I32 => "i32",
            SampledType::U32 => "u32",
            SampledType::F32 => "f32",
        }
    }
}

impl fmt::Display for SampledType {
    ghost use Rattle.std.specs.Prelude.{Some};
    ghost use Rattle.std.specs.Fmt.{padded};

    ghost output = { λ x. Some (sampled_text x) };

    ghost styled_output = { λ x spec. Some (padded spec (sampled_text x)) };

    fn fmt<W: Write>(&self, f: &mut fmt::Formatter<W>) -> fmt::Result {
        f.pad(self.text())
    }
}

/// The sampled type of this name.
pub fn sampled_named(s: &str) -> Option<SampledType>
    ensures { result ≡ named (table sampled_text sampled_types) s.now }
{
    match s {
        "i32" => Some(SampledType::I32),
        "u32" => Some(SampledType::U32),
        "f32" => Some(SampledType::F32),
        _ => None,
    }
}

impl FromStr for SampledType {
    type Err = ();

    ghost from_str_gives = { Reads sampled_text };

    fn from_str(s: &str) -> Result<SampledType, ()> {
        sampled_named(s).ok_or(())
    }
}

/// A sampler (WGSL, "Sampler Types").
#[derive(Clone, Copy, PartialEq, Eq, Hash, Debug)]
pub enum SamplerType {
    /// `sampler`
    Sampler,
    /// `sampler_comparison`
    SamplerComparison,
}

impl SamplerType {
    /// The name.
    fn text(self) -> &'static str
        ensures { result.now ≡ sampler_text self }
    {
        match self {
            SamplerType::Sampler => "sampler",
            SamplerType::SamplerComparison => "sampler_comparison",
        }
    }
}

impl fmt::Display for SamplerType {
    ghost use Rattle.std.specs.Prelude.{Some};
    ghost use Rattle.std.specs.Fmt.{padded};

    ghost output = { λ x. Some (sampler_text x) };

    ghost styled_output = { λ x spec. Some (padded spec (sampler_text x)) };

    fn fmt<W: Write>(&self, f: &mut fmt::Formatter<W>) -> fmt::Result {
        f.pad(self.text())
    }
}

/// The sampler type of this name.
pub fn sampler_named(s: &str) -> Option<SamplerType>
    ensures { result ≡ named (table sampler_text samplers) s.now }
{
    match s {
        "sampler" => Some(SamplerType::Sampler),
        "sampler_comparison" => Some(SamplerType::SamplerComparison),
        _ => None,
    }
}

impl FromStr for SamplerType {
    type Err = ();

    ghost from_str_gives = { Reads sampler_text };

    fn from_str(s: &str) -> Result<SamplerType, ()> {
        sampler_named(s).ok_or(())
    }
}

/// A texture (WGSL, "Texture Types"), including naga's one-dimensional and multisampled arrays.
#[derive(Clone, Copy, PartialEq, Eq, Hash, Debug)]
pub enum TextureType {
    /// `texture_1d`
    Sampled1D(SampledType),
    /// `texture_2d`
    Sampled2D(SampledType),
    /// `texture_2d_array`
    Sampled2DArray(SampledType),
    /// `texture_3d`
    Sampled3D(SampledType),
    /// `texture_cube`
    SampledCube(SampledType),
    /// `texture_cube_array`
    SampledCubeArray(SampledType),
    /// `texture_1d_array`
    Sampled1DArray(SampledType),
    /// `texture_multisampled_2d`
    Multisampled2D(SampledType),
    /// `texture_multisampled_2d_array`
    Multisampled2DArray(SampledType),
    /// `texture_depth_multisampled_2d`
    DepthMultisampled2D,
    /// `texture_storage_1d`
    Storage1D(TexelFormat, AccessMode),
    /// `texture_storage_1d_array`
    Storage1DArray(TexelFormat, AccessMode),
    /// `texture_storage_2d`
    Storage2D(TexelFormat, AccessMode),
    /// `texture_storage_2d_array`
    Storage2DArray(TexelFormat, AccessMode),
    /// `texture_storage_3d`
    Storage3D(TexelFormat, AccessMode),
    /// `texture_external`
    External,
    /// `texture_depth_2d`
    Depth2D,
    /// `texture_depth_2d_array`
    Depth2DArray,
    /// `texture_depth_cube`
    DepthCube,
    /// `texture_depth_cube_array`
    DepthCubeArray,
}

impl TextureType {
    /// The name, without the parameters.
    pub fn name(self) -> TextureName
        ensures { result ≡ name_of self }
    {
        match self {
            TextureType::Sampled1D(_) => TextureName::Sampled1D,
            TextureType::Sampled2D(_) => TextureName::Sampled2D,
            TextureType::Sampled2DArray(_) => TextureName::Sampled2DArray,
            TextureType::Sampled3D(_) => TextureName::Sampled3D,
            TextureType::SampledCube(_) => TextureName::SampledCube,
            TextureType::SampledCubeArray(_) => TextureName::SampledCubeArray,
            TextureType::Sampled1DArray(_) => TextureName::Sampled1DArray,
            TextureType::Multisampled2D(_) => TextureName::Multisampled2D,
            TextureType::Multisampled2DArray(_) => TextureName::Multisampled2DArray,
            TextureType::DepthMultisampled2D => TextureName::DepthMultisampled2D,
            TextureType::Storage1D(_, _) => TextureName::Storage1D,
            TextureType::Storage1DArray(_, _) => TextureName::Storage1DArray,
            TextureType::Storage2D(_, _) => TextureName::Storage2D,
            TextureType::Storage2DArray(_, _) => TextureName::Storage2DArray,
            TextureType::Storage3D(_, _) => TextureName::Storage3D,
            TextureType::External => TextureName::External,
            TextureType::Depth2D => TextureName::Depth2D,
            TextureType::Depth2DArray => TextureName::Depth2DArray,
            TextureType::DepthCube => TextureName::DepthCube,
            TextureType::DepthCubeArray => TextureName::DepthCubeArray,
        }
    }

    /// The parameters of the template.
    pub fn parameters(self) -> TextureParameters
        ensures { result ≡ parameters_of self }
    {
        match self {
            TextureType::Sampled1D(sampled)
            | TextureType::Sampled2D(sampled)
            | TextureType::Sampled2DArray(sampled)
            | TextureType::Sampled3D(sampled)
            | TextureType::SampledCube(sampled)
            | TextureType::SampledCubeArray(sampled)
            | TextureType::Sampled1DArray(sampled)
            | TextureType::Multisampled2D(sampled)
            | TextureType::Multisampled2DArray(sampled) => TextureParameters::Sampled(sampled),
            TextureType::Storage1D(format, access)
            | TextureType::Storage1DArray(format, access)
            | TextureType::Storage2D(format, access)
            | TextureType::Storage2DArray(format, access)
            | TextureType::Storage3D(format, access) => TextureParameters::Storage(format, access),
            _ => TextureParameters::None,
        }
    }

    /// The number of dimensions; a cube counts as two-dimensional.
    pub fn dimensions(self) -> TextureDimensions
        ensures { result ≡ dimensions self }
    {
        match self {
            TextureType::Sampled1D(_)
            | TextureType::Sampled1DArray(_)
            | TextureType::Storage1D(_, _)
            | TextureType::Storage1DArray(_, _) => TextureDimensions::D1,
            TextureType::Sampled3D(_) | TextureType::Storage3D(_, _) => TextureDimensions::D3,
            _ => TextureDimensions::D2,
        }
    }

    /// The sampled type of a sampled texture or a multisampled array (WGSL, "Sampled Texture Types"). None for any
    /// other texture, also for `texture_multisampled_2d`.
    pub fn sampled_type(self) -> Option<SampledType>
        ensures { result ≡ sampled_type self }
    {
        match self {
            TextureType::Multisampled2D(_) => None,
            _ => match self.parameters() {
                TextureParameters::Sampled(sampled) => Some(sampled),
                _ => None,
            },
        }
    }

    /// The type that the texture's channels are read as: `f32` for depth and external textures.
    pub fn channel_type(self) -> SampledType
        ensures { result ≡ texture_channel self }
    {
        match self.parameters() {
            TextureParameters::Sampled(sampled) => sampled,
            TextureParameters::Storage(format, _) => format.channel_type(),
            TextureParameters::None => SampledType::F32,
        }
    }

    /// Whether it is a depth texture and not multisampled (WGSL, "Depth Texture Types").
    pub fn is_depth(self) -> bool
        ensures { IsTrue result ↔ IsDepth self }
    {
        matches!(
            self,
            TextureType::Depth2D
                | TextureType::Depth2DArray
                | TextureType::DepthCube
                | TextureType::DepthCubeArray
        )
    }

    /// Whether it is a storage texture (WGSL, "Storage Texture Types").
    pub fn is_storage(self) -> bool
        ensures { IsTrue result ↔ IsStorage self }
    {
        matches!(self.parameters(), TextureParameters::Storage(_, _))
    }

    /// Whether it is a sampled texture (WGSL, "Sampled Texture Types").
    pub fn is_sampled(self) -> bool
        ensures { IsTrue result ↔ IsSampled self }
    {
        matches!(self.parameters(), TextureParameters::Sampled(_)) && !self.is_multisampled()
    }

    /// Whether it is an arrayed texture (WGSL, "Texture Types").
    pub fn is_arrayed(self) -> bool
        ensures { IsTrue result ↔ IsArrayed self }
    {
        matches!(
            self,
            TextureType::Sampled2DArray(_)
                | TextureType::SampledCubeArray(_)
                | TextureType::Sampled1DArray(_)
                | TextureType::Multisampled2DArray(_)
                | TextureType::Storage1DArray(_, _)
                | TextureType::Storage2DArray(_, _)
                | TextureType::Depth2DArray
                | TextureType::DepthCubeArray
        )
    }

    /// Whether it has several samples per texel (WGSL, "Multisampled Texture Types").
    pub fn is_multisampled(self) -> bool
        ensures { IsTrue result ↔ IsMultisampled self }
    {
        matches!(
            self,
            TextureType::Multisampled2D(_)
                | TextureType::Multisampled2DArray(_)
                | TextureType::DepthMultisampled2D
        )
    }
}

impl fmt::Display for TextureType {
    ghost use Rattle.std.specs.Prelude.{Some};

    ghost output = { λ x. Some (texture_text x) };

    fn fmt<W: Write>(&self, f: &mut fmt::Formatter<W>) -> fmt::Result {
        let shown = ShownTexture {
            texture: *self,
            rules: RuleSet::Ported,
        };
        write!(f, "{shown}")
    }
}

/// A texture as it is printed by these rules.
#[derive(Clone, Copy)]
pub struct ShownTexture {
    pub texture: TextureType,
    pub rules: RuleSet,
}

impl fmt::Display for ShownTexture {
    ghost use Rattle.std.specs.Prelude.{Some};

    ghost output = { λ x. Some (texture_text_by x.rules x.texture) };

    fn fmt<W: Write>(&self, f: &mut fmt::Formatter<W>) -> fmt::Result {
        let name = self.texture.name();
        match self.texture.parameters() {
            TextureParameters::None => write!(f, "{name}"),
            TextureParameters::Sampled(sampled) => write!(f, "{name}<{sampled}>"),
            TextureParameters::Storage(format, access) => {
                let format = format.name_by(self.rules);
                write!(f, "{name}<{format}, {access}>")
            }
        }
    }
}

/// How many dimensions a texture has.
#[derive(Clone, Copy, PartialEq, Eq, Hash, Debug)]
pub enum TextureDimensions {
    /// One-dimensional.
    D1,
    /// Two-dimensional, also a cube.
    D2,
    /// Three-dimensional.
    D3,
}
