// The names of textures, and the parameters of their templates.
ghost use Rattle.std.specs.Prelude.{◌≡◌};
ghost use Rattle.wgsl_syntax.specs.Names.{named, table, Reads};
ghost use Rattle.wgsl_syntax.specs.TextureName.{parameter_kind, texture_name_text, texture_names, texture_with};

use crate::address::AccessMode;
use crate::named::value_named;
use crate::texel::TexelFormat;
use crate::texture::{SampledType, TextureType};
use std::fmt;
use std::fmt::Write;
use std::str::FromStr;

/// The name of a texture's type, without its parameters (WGSL, "Texture and Sampler Types").
#[derive(Clone, Copy)]
pub enum TextureName {
    /// `texture_1d`
    Sampled1D,
    /// `texture_2d`
    Sampled2D,
    /// `texture_2d_array`
    Sampled2DArray,
    /// `texture_3d`
    Sampled3D,
    /// `texture_cube`
    SampledCube,
    /// `texture_cube_array`
    SampledCubeArray,
    /// `texture_1d_array`
    Sampled1DArray,
    /// `texture_multisampled_2d`
    Multisampled2D,
    /// `texture_multisampled_2d_array`
    Multisampled2DArray,
    /// `texture_depth_multisampled_2d`
    DepthMultisampled2D,
    /// `texture_storage_1d`
    Storage1D,
    /// `texture_storage_1d_array`
    Storage1DArray,
    /// `texture_storage_2d`
    Storage2D,
    /// `texture_storage_2d_array`
    Storage2DArray,
    /// `texture_storage_3d`
    Storage3D,
    /// `texture_external`
    External,
    /// `texture_depth_2d`
    Depth2D,
    /// `texture_depth_2d_array`
    Depth2DArray,
    /// `texture_depth_cube`
    DepthCube,
    /// `texture_depth_cube_array`
    DepthCubeArray,
}

/// Which parameters the template of a texture has.
#[derive(Clone, Copy)]
pub enum TextureParameterKind {
    /// There is no template.
    None,
    Sampled,
    Storage,
}

/// The parameters in the template of a texture.
#[derive(Clone, Copy)]
pub enum TextureParameters {
    /// There is no template.
    None,
    Sampled(SampledType),
    Storage(TexelFormat, AccessMode),
}

static TEXTURES: &[(TextureName, &str)] = names! {
    TextureName Sampled1D "texture_1d" Sampled2D "texture_2d" Sampled2DArray "texture_2d_array"
    Sampled3D "texture_3d" SampledCube "texture_cube" SampledCubeArray "texture_cube_array"
    Sampled1DArray "texture_1d_array" Multisampled2D "texture_multisampled_2d"
    Multisampled2DArray "texture_multisampled_2d_array"
    DepthMultisampled2D "texture_depth_multisampled_2d" Storage1D "texture_storage_1d"
    Storage1DArray "texture_storage_1d_array" Storage2D "texture_storage_2d"
    Storage2DArray "texture_storage_2d_array" Storage3D "texture_storage_3d"
    External "texture_external" Depth2D "texture_depth_2d" Depth2DArray "texture_depth_2d_array"
    DepthCube "texture_depth_cube" DepthCubeArray "texture_depth_cube_array"
};

impl TextureName {
    /// Which parameters textures of this name have.
    pub fn parameter_kind(self) -> TextureParameterKind
        ensures { result ≡ parameter_kind self }
    {
        match self {
            TextureName::Sampled1D
            | TextureName::Sampled2D
            | TextureName::Sampled2DArray
            | TextureName::Sampled3D
            | TextureName::SampledCube
            | TextureName::SampledCubeArray
            | TextureName::Sampled1DArray
            | TextureName::Multisampled2D
            | TextureName::Multisampled2DArray => TextureParameterKind::Sampled,
            TextureName::Storage1D
            | TextureName::Storage1DArray
            | TextureName::Storage2D
            | TextureName::Storage2DArray
            | TextureName::Storage3D => TextureParameterKind::Storage,
            _ => TextureParameterKind::None,
        }
    }

    /// The texture with this name and these parameters; None if textures of this name have others.
    pub fn with(self, parameters: TextureParameters) -> Option<TextureType>
        ensures { result ≡ texture_with self parameters }
    {
        match parameters {
            TextureParameters::None => match self {
                TextureName::DepthMultisampled2D => Some(TextureType::DepthMultisampled2D),
                TextureName::External => Some(TextureType::External),
                TextureName::Depth2D => Some(TextureType::Depth2D),
                TextureName::Depth2DArray => Some(TextureType::Depth2DArray),
                TextureName::DepthCube => Some(TextureType::DepthCube),
                TextureName::DepthCubeArray => Some(TextureType::DepthCubeArray),
                _ => None,
            },
            TextureParameters::Sampled(sampled) => match self {
                TextureName::Sampled1D => Some(TextureType::Sampled1D(sampled)),
                TextureName::Sampled2D => Some(TextureType::Sampled2D(sampled)),
                TextureName::Sampled2DArray => Some(TextureType::Sampled2DArray(sampled)),
                TextureName::Sampled3D => Some(TextureType::Sampled3D(sampled)),
                TextureName::SampledCube => Some(TextureType::SampledCube(sampled)),
                TextureName::SampledCubeArray => Some(TextureType::SampledCubeArray(sampled)),
                TextureName::Sampled1DArray => Some(TextureType::Sampled1DArray(sampled)),
                TextureName::Multisampled2D => Some(TextureType::Multisampled2D(sampled)),
                TextureName::Multisampled2DArray => Some(TextureType::Multisampled2DArray(sampled)),
                _ => None,
            },
            TextureParameters::Storage(format, access) => match self {
                TextureName::Storage1D => Some(TextureType::Storage1D(format, access)),
                TextureName::Storage1DArray => Some(TextureType::Storage1DArray(format, access)),
                TextureName::Storage2D => Some(TextureType::Storage2D(format, access)),
                TextureName::Storage2DArray => Some(TextureType::Storage2DArray(format, access)),
                TextureName::Storage3D => Some(TextureType::Storage3D(format, access)),
                _ => None,
            },
        }
    }

    /// The name.
    fn text(self) -> &'static str
        ensures { result.now ≡ texture_name_text self }
    {
        TEXTURES[self as usize].1
    }
}

impl fmt::Display for TextureName {
    ghost use Rattle.std.specs.Prelude.{Some};
    ghost use Rattle.std.specs.Fmt.{padded};

    ghost output = { λ x. Some (texture_name_text x) };

    ghost styled_output = { λ x spec. Some (padded spec (texture_name_text x)) };

    fn fmt<W: Write>(&self, f: &mut fmt::Formatter<W>) -> fmt::Result {
        f.pad(self.text())
    }
}

/// The name with that text.
pub fn texture_named(s: &str) -> Option<TextureName>
    ensures { result ≡ named (table texture_name_text texture_names) s.now }
{
    value_named(TEXTURES, s)
}

impl FromStr for TextureName {
    type Err = ();

    ghost from_str_gives = { Reads texture_name_text };

    fn from_str(s: &str) -> Result<TextureName, ()> {
        texture_named(s).ok_or(())
    }
}
