// The extensions that directives name (WGSL, "Enable Directive", "Requires Directive").

use crate::meant::has_word;
use crate::scope::Extensions;

/// The extensions of `enable`.
pub const ENABLED: &str = "\
f16 clip_distances dual_source_blending primitive_index subgroups subgroup_size_control atomic_vec2u_min_max";

/// The extensions of `requires`.
pub const REQUIRED: &str = "\
buffer_view fragment_depth immediate_address_space linear_indexing packed_4x8_integer_dot_product \
pointer_composite_access readonly_and_readwrite_storage_textures subgroup_id subgroup_uniformity swizzle_assignment \
texture_and_sampler_let texture_formats_tier1 texture_formats_tier2 uniform_buffer_standard_layout \
unrestricted_pointer_parameters";

/// Notes an extension of `enable`. Returns whether it is known.
pub fn enabled(extensions: &mut Extensions, name: &str) -> bool {
    let is_naga = name.starts_with("wgpu_");
    let is_foreign = is_naga || name.starts_with("chromium_");
    extensions.half = extensions.half || name == "f16";
    extensions.naga = extensions.naga || is_naga;
    extensions.foreign = extensions.foreign || is_foreign;
    is_foreign || has_word(ENABLED, name)
}

/// Notes an extension of `requires`. Returns whether it is known.
pub fn required(extensions: &mut Extensions, name: &str) -> bool {
    if name == "uniform_buffer_standard_layout" {
        extensions.standard_uniform = true;
    }
    name.starts_with("chromium_") || has_word(REQUIRED, name)
}
