//! The texts of each enumeration are distinct.
ghost use Rattle.wgsl_syntax.specs.Address.{access_modes, access_text, space_text, spaces};
ghost use Rattle.wgsl_syntax.specs.Attribute.{builtin_text, builtin_values, depth_text, depths, flag_text, flags, interpolation_text, interpolations, sampling_text, samplings, severities, severity_text};
ghost use Rattle.wgsl_syntax.specs.Enumerant.{enumerant_text, enumerants};
ghost use Rattle.wgsl_syntax.specs.Names.{table, IsNaming};
ghost use Rattle.wgsl_syntax.specs.Operator.{assignment_operators, assignment_text, binary_operators, binary_text, unary_operators, unary_text};
ghost use Rattle.wgsl_syntax.specs.Scalar.{scalar_text, scalars};
ghost use Rattle.wgsl_syntax.specs.Texel.{texel_formats, texel_text};
ghost use Rattle.wgsl_syntax.specs.Texture.{sampled_text, sampled_types, sampler_text, samplers};
ghost use Rattle.wgsl_syntax.specs.TextureName.{texture_name_text, texture_names};

/// In each enumeration, every value has one text and no two values share a text.
#[tactic(auto, using(crate::proofs::Naming::namings))]
pub fn texts_name_values()
    ensures address_spaces { IsNaming space_text (table space_text spaces) }
    ensures access_modes { IsNaming access_text (table access_text access_modes) }
    ensures built_in_values { IsNaming builtin_text (table builtin_text builtin_values) }
    ensures severities { IsNaming severity_text (table severity_text severities) }
    ensures interpolations { IsNaming interpolation_text (table interpolation_text interpolations) }
    ensures samplings { IsNaming sampling_text (table sampling_text samplings) }
    ensures depths { IsNaming depth_text (table depth_text depths) }
    ensures flags { IsNaming flag_text (table flag_text flags) }
    ensures enumerants { IsNaming enumerant_text (table enumerant_text enumerants) }
    ensures unary_operators { IsNaming unary_text (table unary_text unary_operators) }
    ensures binary_operators { IsNaming binary_text (table binary_text binary_operators) }
    ensures assignment_operators { IsNaming assignment_text
        (table assignment_text assignment_operators) }
    ensures scalars { IsNaming scalar_text (table scalar_text scalars) }
    ensures texel_formats { IsNaming texel_text (table texel_text texel_formats) }
    ensures sampled_types { IsNaming sampled_text (table sampled_text sampled_types) }
    ensures samplers { IsNaming sampler_text (table sampler_text samplers) }
    ensures textures { IsNaming texture_name_text (table texture_name_text texture_names) }
{}
