// Textures with their lists (WGSL, "Texture and Sampler Types").
ghost use Rattle.std.specs.Prelude.{◌≡◌, IfOk, IfSome, option_map, reverse};
ghost use Rattle.wgsl_core.specs.View.{view};
ghost use Rattle.wgsl_typing.specs.Names.{context};
ghost use Rattle.wgsl_typing.specs.Parameters.{format_called, format_of, of_first};
ghost use Rattle.wgsl_typing.specs.Stacks.{KeepsItems, below, stack};
ghost use Rattle.wgsl_typing.specs.Taken.{TakesFrom, expressions_in};
ghost use Rattle.wgsl_typing.specs.Templates.{parameters_listed, sampled_listed, sampled_of, stored_listed, texture_listed};

use crate::expressions::Expressions;
use crate::fault::Rule;
use crate::item::Item;
use crate::name::texture_type;
use std::alloc::AllocError;
use wgsl_core::ty::Type;
use wgsl_core::ty::form::Form;
use wgsl_spelling::meant::TEXEL_FORMATS;
use wgsl_spelling::name::format_named;
use wgsl_syntax::scalar::Scalar;
use wgsl_syntax::texel::TexelFormat;
use wgsl_syntax::texture::SampledType;
use wgsl_syntax::texture_name::{TextureName, TextureParameterKind, TextureParameters};

impl<'t> Expressions<'t> {
    /// The texture that a name with its list stands for; None if it has a fault, which is told.
    pub fn texture(
        &mut self,
        named: usize,
        texture: TextureName,
        list: &mut Vec<Item>,
    ) -> Result<Option<Type>, AllocError>
        ensures answer { IfOk result (λ ty. option_map view ty ≡ texture_listed (context self.old) texture (reverse list.old.items)) }
        ensures stack { IfOk result (λ ty. KeepsItems (stack self.old) (stack self.new)) }
        ensures taken { IfOk result (λ ty. TakesFrom (reverse list.old.items) (reverse list.new.items) self.old.parts.items self.new.parts.items) }
    {
        match self.texture_parameters(named, texture.parameter_kind(), list)? {
            Some(parameters) => Ok(texture_type(texture, parameters)),
            None => Ok(None),
        }
    }

    fn texture_parameters(
        &mut self,
        named: usize,
        kind: TextureParameterKind,
        list: &mut Vec<Item>,
    ) -> Result<Option<TextureParameters>, AllocError>
        ensures answer { IfOk result (λ p. p ≡ parameters_listed (context self.old) kind (reverse list.old.items)) }
        ensures stack { IfOk result (λ p. KeepsItems (stack self.old) (stack self.new)) }
        ensures taken { IfOk result (λ p. TakesFrom (reverse list.old.items) (reverse list.new.items) self.old.parts.items self.new.parts.items) }
    {
        match kind {
            TextureParameterKind::None => self.nothing(Rule::Name, named, "takes no template list"),
            TextureParameterKind::Sampled => self.sampled(named, list),
            TextureParameterKind::Storage => self.stored(named, list),
        }
    }

    fn sampled(
        &mut self,
        named: usize,
        list: &mut Vec<Item>,
    ) -> Result<Option<TextureParameters>, AllocError>
        ensures answer { IfOk result (λ p. p ≡ sampled_listed (context self.old) (reverse list.old.items)) }
        ensures stack { IfOk result (λ p. KeepsItems (stack self.old) (stack self.new)) }
        ensures taken { IfOk result (λ p. TakesFrom (reverse list.old.items) (reverse list.new.items) self.old.parts.items self.new.parts.items) }
    {
        let Some(ty) = self.only_type(named, list)? else {
            return Ok(None);
        };
        match sampled_of(&ty) {
            Some(sampled) => Ok(Some(TextureParameters::Sampled(sampled))),
            None => self.nothing(Rule::Template, named, "takes `i32`, `u32` or `f32`"),
        }
    }

    fn stored(
        &mut self,
        named: usize,
        list: &mut Vec<Item>,
    ) -> Result<Option<TextureParameters>, AllocError>
        ensures answer { IfOk result (λ p. p ≡ stored_listed (context self.old) (reverse list.old.items)) }
        ensures stack { stack self.new ≡ stack self.old }
        ensures kept { IfOk result (λ p. expressions_in (reverse list.new.items) ≡ expressions_in (reverse list.old.items)) }
    {
        if !self.has_length(named, list, 2, 2)? {
            return Ok(None);
        }
        let Some(format) = self.next_format(list)? else {
            return Ok(None);
        };
        match self.next_access(list)? {
            Some(access) => Ok(Some(TextureParameters::Storage(format, access))),
            None => Ok(None),
        }
    }

    fn next_format(&mut self, list: &mut Vec<Item>) -> Result<Option<TexelFormat>, AllocError>
        ensures answer { IfOk result (λ format. format ≡ of_first (format_of (context self.old)) (reverse list.old.items)) }
        ensures list { IfOk result (λ format. IfSome format (λ f. reverse list.new.items ≡ below (reverse list.old.items))) }
        ensures stack { stack self.new ≡ stack self.old }
        ensures kept { IfOk result (λ format. expressions_in (reverse list.new.items) ≡ expressions_in (reverse list.old.items)) }
    {
        let Some(count) = self.next_enumerant(list)? else {
            return Ok(None);
        };
        let format = format_called(self.word(count));
        if format.is_none() {
            self.tell_among(Rule::Template, count, "is no texel format", TEXEL_FORMATS)?;
        }
        Ok(format)
    }
}

/// The texel format with that name.
fn format_called(name: &str) -> Option<TexelFormat>
    ensures { result ≡ format_called name.now }
{
    match format_named(name)? {
        TexelFormat::R64Uint => None,
        format => Some(format),
    }
}

/// What a texture is sampled as whose parameter is that type.
fn sampled_of(ty: &Type) -> Option<SampledType>
    ensures { result ≡ sampled_of (view ty.now) }
{
    match ty.form() {
        Form::Scalar(Scalar::I32) => Some(SampledType::I32),
        Form::Scalar(Scalar::U32) => Some(SampledType::U32),
        Form::Scalar(Scalar::F32) => Some(SampledType::F32),
        _ => None,
    }
}
