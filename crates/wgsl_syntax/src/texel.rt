// Texel formats.
ghost use Rattle.std.specs.Prelude.{◌≡◌, MatchOption};
ghost use Rattle.wgsl_syntax.specs.Names.{named, table, Reads};
ghost use Rattle.wgsl_syntax.specs.Texel.{IsTexel, channel_count, channel_type, texel_formats, texel_text, texel_text_by};

use crate::named::value_named;
use crate::rules::RuleSet;
use crate::texture::SampledType;
use std::fmt;
use std::fmt::Write;
use std::str::FromStr;

/// A texel format (WGSL, "Texel Formats"), including naga's.
#[derive(Clone, Copy, PartialEq, Eq, Hash, Debug)]
pub enum TexelFormat {
    /// `rgba8unorm`
    Rgba8Unorm,
    /// `rgba8snorm`
    Rgba8Snorm,
    /// `rgba8uint`
    Rgba8Uint,
    /// `rgba8sint`
    Rgba8Sint,
    /// `r8unorm`
    R8Unorm,
    /// `r8snorm`
    R8Snorm,
    /// `r8uint`
    R8Uint,
    /// `r8sint`
    R8Sint,
    /// `rg8unorm`
    Rg8Unorm,
    /// `rg8snorm`
    Rg8Snorm,
    /// `rg8uint`
    Rg8Uint,
    /// `rg8sint`
    Rg8Sint,
    /// `rgba16unorm`
    Rgba16Unorm,
    /// `rgba16snorm`
    Rgba16Snorm,
    /// `rgba16uint`
    Rgba16Uint,
    /// `rgba16sint`
    Rgba16Sint,
    /// `rgba16float`
    Rgba16Float,
    /// `r16unorm`
    R16Unorm,
    /// `r16snorm`
    R16Snorm,
    /// `r16uint`
    R16Uint,
    /// `r16sint`
    R16Sint,
    /// `r16float`
    R16Float,
    /// `rg16unorm`
    Rg16Unorm,
    /// `rg16snorm`
    Rg16Snorm,
    /// `rg16uint`
    Rg16Uint,
    /// `rg16sint`
    Rg16Sint,
    /// `rg16float`
    Rg16Float,
    /// `r32uint`
    R32Uint,
    /// `r32sint`
    R32Sint,
    /// `r32float`
    R32Float,
    /// `rg32uint`
    Rg32Uint,
    /// `rg32sint`
    Rg32Sint,
    /// `rg32float`
    Rg32Float,
    /// `rgba32uint`
    Rgba32Uint,
    /// `rgba32sint`
    Rgba32Sint,
    /// `rgba32float`
    Rgba32Float,
    /// `bgra8unorm`
    Bgra8Unorm,
    /// `rgb10a2uint`
    Rgb10a2Uint,
    /// `rgb10a2unorm`
    Rgb10a2Unorm,
    /// `rg11b10float`
    Rg11b10Float,
    /// `r64uint`
    R64Uint,
}

static TEXELS: &[(TexelFormat, &str)] = names! {
    TexelFormat Rgba8Unorm "rgba8unorm" Rgba8Snorm "rgba8snorm" Rgba8Uint "rgba8uint"
    Rgba8Sint "rgba8sint" R8Unorm "r8unorm" R8Snorm "r8snorm" R8Uint "r8uint" R8Sint "r8sint"
    Rg8Unorm "rg8unorm" Rg8Snorm "rg8snorm" Rg8Uint "rg8uint" Rg8Sint "rg8sint"
    Rgba16Unorm "rgba16unorm" Rgba16Snorm "rgba16snorm" Rgba16Uint "rgba16uint"
    Rgba16Sint "rgba16sint" Rgba16Float "rgba16float" R16Unorm "r16unorm" R16Snorm "r16snorm"
    R16Uint "r16uint" R16Sint "r16sint" R16Float "r16float" Rg16Unorm "rg16unorm"
    Rg16Snorm "rg16snorm" Rg16Uint "rg16uint" Rg16Sint "rg16sint" Rg16Float "rg16float"
    R32Uint "r32uint" R32Sint "r32sint" R32Float "r32float" Rg32Uint "rg32uint"
    Rg32Sint "rg32sint" Rg32Float "rg32float" Rgba32Uint "rgba32uint" Rgba32Sint "rgba32sint"
    Rgba32Float "rgba32float" Bgra8Unorm "bgra8unorm" Rgb10a2Uint "rgb10a2uint"
    Rgb10a2Unorm "rgb10a2unorm" Rg11b10Float "rg11b10float" R64Uint "r64uint"
};

impl TexelFormat {
    /// The type that the channels of a texel are read as (WGSL, "Texel Formats").
    pub fn channel_type(self) -> SampledType
        ensures { result ≡ channel_type self }
    {
        match self {
            TexelFormat::Rgba8Unorm
            | TexelFormat::Rgba8Snorm
            | TexelFormat::R8Unorm
            | TexelFormat::R8Snorm
            | TexelFormat::Rg8Unorm
            | TexelFormat::Rg8Snorm
            | TexelFormat::Rgba16Unorm
            | TexelFormat::Rgba16Snorm
            | TexelFormat::Rgba16Float
            | TexelFormat::R16Unorm
            | TexelFormat::R16Snorm
            | TexelFormat::R16Float
            | TexelFormat::Rg16Unorm
            | TexelFormat::Rg16Snorm
            | TexelFormat::Rg16Float
            | TexelFormat::R32Float
            | TexelFormat::Rg32Float
            | TexelFormat::Rgba32Float
            | TexelFormat::Bgra8Unorm
            | TexelFormat::Rgb10a2Unorm
            | TexelFormat::Rg11b10Float => SampledType::F32,
            TexelFormat::Rgba8Uint
            | TexelFormat::R8Uint
            | TexelFormat::Rg8Uint
            | TexelFormat::Rgba16Uint
            | TexelFormat::R16Uint
            | TexelFormat::Rg16Uint
            | TexelFormat::R32Uint
            | TexelFormat::Rg32Uint
            | TexelFormat::Rgba32Uint
            | TexelFormat::Rgb10a2Uint
            | TexelFormat::R64Uint => SampledType::U32,
            TexelFormat::Rgba8Sint
            | TexelFormat::R8Sint
            | TexelFormat::Rg8Sint
            | TexelFormat::Rgba16Sint
            | TexelFormat::R16Sint
            | TexelFormat::Rg16Sint
            | TexelFormat::R32Sint
            | TexelFormat::Rg32Sint
            | TexelFormat::Rgba32Sint => SampledType::I32,
        }
    }

    /// How many channels a texel has (WGSL, "Texel Formats").
    pub fn num_channels(self) -> u32
        ensures { result ≡ channel_count self }
    {
        match self {
            TexelFormat::Rgba8Unorm
            | TexelFormat::Rgba8Snorm
            | TexelFormat::Rgba8Uint
            | TexelFormat::Rgba8Sint
            | TexelFormat::Rgba16Unorm
            | TexelFormat::Rgba16Snorm
            | TexelFormat::Rgba16Uint
            | TexelFormat::Rgba16Sint
            | TexelFormat::Rgba16Float
            | TexelFormat::Rgba32Uint
            | TexelFormat::Rgba32Sint
            | TexelFormat::Rgba32Float
            | TexelFormat::Bgra8Unorm
            | TexelFormat::Rgb10a2Uint
            | TexelFormat::Rgb10a2Unorm => 4,
            TexelFormat::R8Unorm
            | TexelFormat::R8Snorm
            | TexelFormat::R8Uint
            | TexelFormat::R8Sint
            | TexelFormat::R16Unorm
            | TexelFormat::R16Snorm
            | TexelFormat::R16Uint
            | TexelFormat::R16Sint
            | TexelFormat::R16Float
            | TexelFormat::R32Uint
            | TexelFormat::R32Sint
            | TexelFormat::R32Float
            | TexelFormat::R64Uint => 1,
            TexelFormat::Rg8Unorm
            | TexelFormat::Rg8Snorm
            | TexelFormat::Rg8Uint
            | TexelFormat::Rg8Sint
            | TexelFormat::Rg16Unorm
            | TexelFormat::Rg16Snorm
            | TexelFormat::Rg16Uint
            | TexelFormat::Rg16Sint
            | TexelFormat::Rg16Float
            | TexelFormat::Rg32Uint
            | TexelFormat::Rg32Sint
            | TexelFormat::Rg32Float => 2,
            TexelFormat::Rg11b10Float => 3,
        }
    }

    /// The name by these rules.
    pub fn name_by(self, rules: RuleSet) -> &'static str
        ensures { result.now ≡ texel_text_by rules self }
    {
        match (rules, self) {
            (RuleSet::Standard, TexelFormat::Rg11b10Float) => "rg11b10ufloat",
            _ => self.text(),
        }
    }

    /// The format that has this name by these rules, or that naga calls so.
    pub fn named_by(rules: RuleSet, word: &str) -> Option<TexelFormat>
        ensures { MatchOption result ((format : TexelFormat) → ¬ IsTexel rules word.now format)
            (λ format. IsTexel rules word.now format) }
    {
        match word {
            "rg11b10ufloat" => match rules {
                RuleSet::Standard => Some(TexelFormat::Rg11b10Float),
                RuleSet::Ported => None,
            },
            _ => texel_named(word),
        }
    }

    /// The name.
    fn text(self) -> &'static str
        ensures { result.now ≡ texel_text self }
    {
        TEXELS[self as usize].1
    }
}

impl fmt::Display for TexelFormat {
    ghost use Rattle.std.specs.Prelude.{Some};
    ghost use Rattle.std.specs.Fmt.{padded};

    ghost output = { λ x. Some (texel_text x) };

    ghost styled_output = { λ x spec. Some (padded spec (texel_text x)) };

    fn fmt<W: Write>(&self, f: &mut fmt::Formatter<W>) -> fmt::Result {
        f.pad(self.text())
    }
}

/// The texel format that naga calls so.
pub fn texel_named(s: &str) -> Option<TexelFormat>
    ensures { result ≡ named (table texel_text texel_formats) s.now }
{
    value_named(TEXELS, s)
}

impl FromStr for TexelFormat {
    type Err = ();

    ghost from_str_gives = { Reads texel_text };

    fn from_str(s: &str) -> Result<TexelFormat, ()> {
        texel_named(s).ok_or(())
    }
}
