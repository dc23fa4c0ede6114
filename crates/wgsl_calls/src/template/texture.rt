// The templates of textures.
ghost use Rattle.std.specs.Prelude.{◌≡◌, Some, map};
ghost use Rattle.wgsl_syntax.specs.TextureName.{parameter_kind};
ghost use Rattle.wgsl_rules.specs.templates.Templates.{format_of, not_templated, sampled_parameter, storage_parameters, texture_parameters, texture_template};
ghost use Rattle.wgsl_core.specs.Instances.{parameter_view};
ghost use Rattle.wgsl_core.specs.Answer.{AnswersAs, Gives, refusal};
ghost use Rattle.wgsl_calls.specs.Templates.{texture_view};

use crate::template::ptr::access_mode;
use std::alloc::Global;
use wgsl_core::error::{Error, Fail};
use wgsl_core::signature::TpltParam;
use wgsl_core::ty::try_from_type;
use wgsl_syntax::address::AccessMode;
use wgsl_syntax::enumerant::Enumerant;
use wgsl_syntax::texel::TexelFormat;
use wgsl_syntax::texture::{SampledType, TextureType};
use wgsl_syntax::texture_name::{
    TextureName, TextureParameterKind, TextureParameters, texture_named,
};

/// The template of a texture (WGSL, "Texture and Sampler Types").
#[derive(Drop)]
pub struct TextureTemplate {
    ty: TextureType,
}

impl TextureTemplate {
    /// Reads the parameters of the texture with this name. Sampled and multisampled textures take `i32`, `u32` or
    /// `f32`; `SampledType` for another type, `Builtin` for anything else. Storage textures take a texel format and an
    /// access mode; `Builtin` for anything else, and for any other name.
    pub fn parse(
        alloc: Global,
        name: &str,
        tplt: &[TpltParam],
    ) -> Result<TextureTemplate, Fail<Error>>
        ensures { AnswersAs texture_view (λ r. r
            ≡ texture_template name.now (map parameter_view tplt.now)) result }
    {
        Ok(TextureTemplate {
            ty: texture(alloc, name, tplt)?,
        })
    }

    /// The texture.
    pub fn ty(&self) -> TextureType
        ensures { result ≡ texture_view self.now }
    {
        self.ty
    }
}

fn texture(alloc: Global, name: &str, tplt: &[TpltParam]) -> Result<TextureType, Fail<Error>>
    ensures { Gives (texture_template name.now (map parameter_view tplt.now)) result }
{
    let Some(name) = texture_named(name) else {
        return Err(Fail::Error(not_templated()));
    };
    let parameters = texture_parameters(alloc, name, tplt)?;
    match name.with(parameters) {
        Some(texture) => Ok(texture),
        None => Err(Fail::Error(not_templated())),
    }
}

/// The parameters of a texture of that name.
fn texture_parameters(
    alloc: Global,
    name: TextureName,
    tplt: &[TpltParam],
) -> Result<TextureParameters, Fail<Error>>
    ensures { Gives (texture_parameters (parameter_kind name) (map parameter_view tplt.now)) result }
{
    match name.parameter_kind() {
        TextureParameterKind::Sampled => {
            Ok(TextureParameters::Sampled(sampled_type(alloc, tplt)?))
        }
        TextureParameterKind::Storage => {
            let (format, access) = storage(tplt)?;
            Ok(TextureParameters::Storage(format, access))
        }
        TextureParameterKind::None => Err(Fail::Error(not_templated())),
    }
}

fn not_templated() -> Error
    ensures { refusal result ≡ not_templated }
{
    Error::Builtin("not a templated texture type")
}

fn sampled_type(alloc: Global, tplt: &[TpltParam]) -> Result<SampledType, Fail<Error>>
    ensures { Gives (sampled_parameter (map parameter_view tplt.now)) result }
{
    match tplt {
        [TpltParam::Ty(ty)] => try_from_type(alloc, ty),
        [_] => Err(Fail::Error(Error::Builtin(
            "texture sampled type must be `i32`, `u32` or `f32`",
        ))),
        _ => Err(Fail::Error(Error::Builtin(
            "sampled texture types take a single template parameter",
        ))),
    }
}

fn storage(tplt: &[TpltParam]) -> Result<(TexelFormat, AccessMode), Fail<Error>>
    ensures { Gives (storage_parameters (map parameter_view tplt.now)) result }
{
    if let [format, access] = tplt {
        if let (Some(format), Some(access)) = (texel_format(format), access_mode(access)) {
            return Ok((format, access));
        }
    }
    Err(Fail::Error(Error::Builtin("storage texture types take two template parameters")))
}

fn texel_format(parameter: &TpltParam) -> Option<TexelFormat>
    ensures { result ≡ format_of (parameter_view parameter.now) }
{
    match parameter {
        TpltParam::Enumerant(Enumerant::TexelFormat(format)) => Some(*format),
        _ => None,
    }
}
