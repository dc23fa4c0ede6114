// The extensions that a module enables (WGSL, "Enable Directive").
ghost use Rattle.std.specs.Prelude.{◌≡◌};
ghost use Rattle.wgsl_typing.specs.Extensions.{is_extension, is_foreign, with_enabled};

/// The extensions that a module enables.
#[derive(Clone, Copy)]
pub struct Extensions {
    pub f16: bool,
    pub subgroups: bool,
    pub clip_distances: bool,
    pub dual_source_blending: bool,
    pub primitive_index: bool,
}

impl Extensions {
    /// None, as before the first directive.
    pub const NONE: Extensions = Extensions {
        f16: false,
        subgroups: false,
        clip_distances: false,
        dual_source_blending: false,
        primitive_index: false,
    };

    /// Notes an extension of `enable`. Returns whether it is known.
    pub fn enable(&mut self, name: &str) -> bool
        ensures enabled { self.new ≡ with_enabled name.now self.old }
        ensures known { result ≡ is_extension name.now }
    {
        match name {
            "f16" => self.f16 = true,
            "subgroups" => self.subgroups = true,
            "clip_distances" => self.clip_distances = true,
            "dual_source_blending" => self.dual_source_blending = true,
            "primitive_index" => self.primitive_index = true,
            "subgroup_size_control" | "atomic_vec2u_min_max" => {}
            _ => return is_foreign(name),
        }
        true
    }
}

/// Whether a name is that of an extension which implementations have beside WGSL's.
fn is_foreign(name: &str) -> bool
    ensures { result ≡ is_foreign name.now }
{
    name.starts_with("wgpu_") || name.starts_with("chromium_")
}

/// Whether an extension of `requires` is known.
pub fn is_required(name: &str) -> bool {
    name.starts_with("chromium_") || is_among(name, REQUIRED)
}

/// Whether a name is one of those in a text.
pub fn is_among(name: &str, names: &str) -> bool {
    for known in names.split(' ') {
        if known == name {
            return true;
        }
    }
    false
}

/// The extensions of `requires`.
const REQUIRED: &str = "\
buffer_view fragment_depth immediate_address_space linear_indexing packed_4x8_integer_dot_product \
pointer_composite_access readonly_and_readwrite_storage_textures subgroup_id subgroup_uniformity swizzle_assignment \
texture_and_sampler_let texture_formats_tier1 texture_formats_tier2 uniform_buffer_standard_layout \
unrestricted_pointer_parameters";
