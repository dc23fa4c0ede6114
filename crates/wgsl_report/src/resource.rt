// What is bound to a variable, in the words of a WebGPU bind group layout.

use crate::prelude::*;
use wgsl_syntax::texture_name::TextureParameters;

/// Writes what is bound to a variable of this address space whose type is no texture, sampler or the like.
pub fn write_buffer(output: &mut String, space: AddressSpace, access: AccessMode) -> Written {
    let kind = match (space, access) {
        (AddressSpace::Uniform, _) => "uniform",
        (AddressSpace::Storage, AccessMode::Read) => "read-only-storage",
        (AddressSpace::Storage, _) => "storage",
        _ => return output.push_str("null"),
    };
    write!(output, r#"{{"kind":"buffer","type":"{kind}"}}"#)
}

pub fn write_sampler(output: &mut String, sampler: SamplerType) -> Written {
    output.push_str(match sampler {
        SamplerType::Sampler => r#"{"kind":"sampler","type":"filtering"}"#,
        SamplerType::SamplerComparison => r#"{"kind":"sampler","type":"comparison"}"#,
    })
}

pub fn write_texture(output: &mut String, texture: TextureType) -> Written {
    match (texture, texture.parameters()) {
        (TextureType::External, _) => output.push_str(r#"{"kind":"externalTexture"}"#),
        (_, TextureParameters::Storage(format, access)) => {
            let (format, access) = (format.name_by(RuleSet::Standard), access_name(access));
            let dimension = view_dimension(texture);
            write!(output, r#"{{"kind":"storageTexture","format":"{format}""#)?;
            write!(
                output,
                r#","access":"{access}","viewDimension":"{dimension}"}}"#
            )
        }
        (_, TextureParameters::Sampled(sampled)) => {
            write_sampled(output, texture, sample_type(sampled))
        }
        (_, TextureParameters::None) => write_sampled(output, texture, "depth"),
    }
}

fn write_sampled(output: &mut String, texture: TextureType, sample_type: &str) -> Written {
    let (dimension, multisampled) = (view_dimension(texture), texture.is_multisampled());
    write!(output, r#"{{"kind":"texture","sampleType":"{sample_type}""#)?;
    write!(
        output,
        r#","viewDimension":"{dimension}","multisampled":{multisampled}}}"#
    )
}

fn view_dimension(texture: TextureType) -> &'static str {
    match texture {
        TextureType::SampledCube(_) | TextureType::DepthCube => "cube",
        TextureType::SampledCubeArray(_) | TextureType::DepthCubeArray => "cube-array",
        _ => match (texture.dimensions(), texture.is_arrayed()) {
            (TextureDimensions::D1, false) => "1d",
            (TextureDimensions::D1, true) => "1d-array",
            (TextureDimensions::D2, false) => "2d",
            (TextureDimensions::D2, true) => "2d-array",
            (TextureDimensions::D3, _) => "3d",
        },
    }
}

fn sample_type(sampled: SampledType) -> &'static str {
    match sampled {
        SampledType::F32 => "float",
        SampledType::I32 => "sint",
        SampledType::U32 => "uint",
    }
}

fn access_name(access: AccessMode) -> &'static str {
    match access {
        AccessMode::Read => "read-only",
        AccessMode::Write => "write-only",
        AccessMode::ReadWrite => "read-write",
        AccessMode::Atomic => "atomic",
    }
}
