// What a misspelled word in a type may have meant.

use crate::fault::{Cause, Expected};
use wgsl_syntax::nearest::{Nearest, word_of_wgsl};

/// The names of the types that a sampled texture may have.
pub const SCALARS: &str = "f32 i32 u32";

/// The names of WGSL's types.
pub const TYPES: &str = "\
bool f32 i32 u32 f16 array atomic ptr sampler sampler_comparison vec2f vec3f vec4f vec2i vec3i vec4i vec2u vec3u vec4u \
vec2h vec3h vec4h vec2 vec3 vec4 mat2x2f mat2x3f mat2x4f mat3x2f mat3x3f mat3x4f mat4x2f mat4x3f mat4x4f \
mat2x2h mat2x3h mat2x4h mat3x2h mat3x3h mat3x4h mat4x2h mat4x3h mat4x4h mat2x2 mat2x3 mat2x4 mat3x2 mat3x3 mat3x4 \
mat4x2 mat4x3 mat4x4 texture_1d texture_2d texture_2d_array texture_3d texture_cube texture_cube_array \
texture_multisampled_2d texture_depth_2d texture_depth_2d_array texture_depth_cube texture_depth_cube_array \
texture_depth_multisampled_2d texture_storage_1d texture_storage_2d texture_storage_2d_array texture_storage_3d \
texture_external";

/// The names of address spaces.
pub const SPACES: &str = "function private workgroup uniform storage immediate";

/// The names of access modes.
pub const ACCESS_MODES: &str = "read write read_write";

/// The names of texel formats.
pub const TEXEL_FORMATS: &str = "\
r8unorm r8snorm r8uint r8sint r16unorm r16snorm r16uint r16sint r16float rg8unorm rg8snorm rg8uint rg8sint r32uint r32sint \
r32float rg16unorm rg16snorm rg16uint rg16sint rg16float rgba8unorm rgba8snorm rgba8uint rgba8sint bgra8unorm rgb10a2uint \
rgb10a2unorm rg11b10ufloat rg32uint rg32sint rg32float rgba16unorm rgba16snorm rgba16uint rgba16sint rgba16float \
rgba32uint rgba32sint rgba32float";

/// What a word may have meant where it has this fault.
pub fn meant(cause: Cause, word: &str) -> Option<&str> {
    match cause {
        Cause::UnknownType | Cause::Expected(Expected::Type) => {
            word_of_wgsl(word).or(nearest_of(word, TYPES))
        }
        Cause::Expected(Expected::SampledType) => word_of_wgsl(word).or(nearest_of(word, SCALARS)),
        Cause::Expected(expected) => nearest_of(word, names_for(expected)),
        _ => None,
    }
}

/// The names of values that may stand where this is expected.
fn names_for(expected: Expected) -> &'static str {
    match expected {
        Expected::AddressSpace => SPACES,
        Expected::AccessMode => ACCESS_MODES,
        Expected::TexelFormat => TEXEL_FORMATS,
        Expected::Flag => "vertex_return",
        _ => "",
    }
}

/// The name of a list that a word may have meant; None if none is near.
pub fn nearest_of<'t>(word: &'t str, names: &'static str) -> Option<&'t str> {
    let mut nearest = Nearest::to(word);
    for name in names.split_whitespace() {
        nearest.offer(name);
    }
    nearest.name
}
