// The names in template lists, and the types that contain no other type.
ghost use Rattle.std.specs.Prelude.{◌≡◌, ◌⊎◌, ◌∷◌, IfOk, IfSome, Some, true};
ghost use Rattle.wgsl_syntax.specs.Address.{IsSpace, default_access, may_say};
ghost use Rattle.wgsl_syntax.specs.declared.rules.RuleSet.TheVariants.{Standard};
ghost use Rattle.wgsl_source.specs.TemplateLists.{AreParameters, IsFlag, IsSampled, IsTexture, scalar_of};
ghost use Rattle.wgsl_source.specs.WrittenTypes.{meaning_of};
ghost use Rattle.wgsl_source.specs.internal.Items.{HasAccess, NamesAccess, NamesFlag, NamesFormat};

use crate::fault::{Cause, Expected, Stop};
use crate::item::{Content, Item};
use crate::scope::{Meaning, Scope};
use std::str::FromStr;
use wgsl_syntax::address::{AccessMode, AddressSpace};
use wgsl_syntax::attribute::AccelerationStructureFlags;
use wgsl_syntax::rules::RuleSet;
use wgsl_syntax::scalar::Scalar;
use wgsl_syntax::texel::TexelFormat;
use wgsl_syntax::texture::{SampledType, TextureType};
use wgsl_syntax::texture_name::{TextureName, TextureParameterKind, TextureParameters};

impl<'t> Scope<'t> {
    /// The texture of a name and its parameters.
    pub fn texture(
        &self,
        name: Item,
        texture: TextureName,
        parameters: &[Item],
    ) -> Result<TextureType, Stop>
        ensures { IfOk result (IsTexture self.now.text (meaning_of self.now) texture parameters.now) }
    {
        let parameters = self.texture_parameters(name, texture.parameter_kind(), parameters)?;
        match texture.with(parameters) {
            Some(texture) => Ok(texture),
            None => Err(name.stop(Cause::WrongParameterCount)),
        }
    }

    fn texture_parameters(
        &self,
        name: Item,
        kind: TextureParameterKind,
        parameters: &[Item],
    ) -> Result<TextureParameters, Stop>
        ensures { IfOk result (AreParameters self.now.text (meaning_of self.now) parameters.now) }
    {
        match (kind, parameters) {
            (TextureParameterKind::None, _) => Err(name.stop(Cause::NeedlessList)),
            (TextureParameterKind::Sampled, [sampled]) => {
                Ok(TextureParameters::Sampled(self.sampled(*sampled)?))
            }
            (TextureParameterKind::Storage, [format, access]) => {
                Ok(TextureParameters::Storage(self.format(*format)?, self.access(*access)?))
            }
            _ => Err(name.stop(Cause::WrongParameterCount)),
        }
    }

    /// The type of a sampled texture.
    fn sampled(&self, item: Item) -> Result<SampledType, Stop>
        ensures { IfOk result (IsSampled self.now.text (meaning_of self.now) item) }
    {
        let word = self.text.word(item.token);
        let sampled = match item.content {
            Content::Name => match self.meaning(word) {
                None => SampledType::from_str(word).ok(),
                Some(Meaning::Type(ty)) => sampled_by(ty.as_scalar()),
                Some(Meaning::Faulty | Meaning::Unread) => return Err(item.elsewhere()),
                Some(_) => None,
            },
            _ => None,
        };
        match sampled {
            Some(sampled) => Ok(sampled),
            None => Err(item.stop(Cause::Expected(Expected::SampledType))),
        }
    }

    fn format(&self, item: Item) -> Result<TexelFormat, Stop>
        ensures { IfOk result (NamesFormat self.now.text (meaning_of self.now) item) }
    {
        let word = self.enumerant(item, Expected::TexelFormat)?;
        match TexelFormat::named_by(RuleSet::Standard, word) {
            Some(format) => Ok(format),
            None => Err(item.stop(Cause::Expected(Expected::TexelFormat))),
        }
    }

    /// The access mode behind the address space of a variable, or behind the type of a pointer. If none is said, it is that of
    /// the address space.
    pub fn memory_access(
        &self,
        space: AddressSpace,
        rest: &[Item],
        name: Item,
    ) -> Result<AccessMode, Stop>
        ensures said { IfOk result (HasAccess self.now.text (meaning_of self.now) space rest.now) }
        ensures may_be_said { IfOk result (λ access. (access ≡ default_access space)
            ⊎ (may_say space access ≡ true)) }
    {
        match rest {
            [] => Ok(space.default_access_mode()),
            [item, more @ ..] => self.only_access(space, *item, more, name),
        }
    }

    /// The access mode that an item says, if no other one is behind it.
    fn only_access(
        &self,
        space: AddressSpace,
        item: Item,
        more: &[Item],
        name: Item,
    ) -> Result<AccessMode, Stop>
        ensures said { IfOk result (HasAccess self.now.text (meaning_of self.now) space (item ∷ more.now)) }
        ensures may_be_said { IfOk result (λ access. (access ≡ default_access space)
            ⊎ (may_say space access ≡ true)) }
    {
        match more {
            [] => self.said_access(space, item),
            _ => Err(name.stop(Cause::WrongParameterCount)),
        }
    }

    fn said_access(&self, space: AddressSpace, item: Item) -> Result<AccessMode, Stop>
        ensures named { IfOk result (NamesAccess self.now.text (meaning_of self.now) item) }
        ensures may_be_said { IfOk result (λ access. may_say space access ≡ true) }
    {
        let access = self.access(item)?;
        if space.may_say(access) {
            Ok(access)
        } else {
            Err(item.stop(Cause::NoAccess))
        }
    }

    fn access(&self, item: Item) -> Result<AccessMode, Stop>
        ensures { IfOk result (NamesAccess self.now.text (meaning_of self.now) item) }
    {
        let name = self.enumerant(item, Expected::AccessMode)?;
        match AccessMode::from_str(name) {
            Ok(access) => Ok(access),
            Err(_) => Err(item.stop(Cause::Expected(Expected::AccessMode))),
        }
    }

    /// The flag of a ray query or an acceleration structure.
    pub fn flag(&self, name: Item, parameters: &[Item]) -> Result<AccelerationStructureFlags, Stop>
        ensures { IfOk result (IsFlag self.now.text (meaning_of self.now) parameters.now) }
    {
        match parameters {
            [item] => self.only_flag(*item),
            _ => Err(name.stop(Cause::WrongParameterCount)),
        }
    }

    fn only_flag(&self, item: Item) -> Result<AccelerationStructureFlags, Stop>
        ensures { IfOk result (NamesFlag self.now.text (meaning_of self.now) item) }
    {
        let name = self.enumerant(item, Expected::Flag)?;
        match AccelerationStructureFlags::from_str(name) {
            Ok(flag) => Ok(flag),
            Err(_) => Err(item.stop(Cause::Expected(Expected::Flag))),
        }
    }
}

/// The sampled type that is this scalar.
fn sampled_by(scalar: Option<Scalar>) -> Option<SampledType>
    ensures { IfSome result (λ sampled. scalar ≡ Some (scalar_of sampled)) }
{
    match scalar? {
        Scalar::F32 => Some(SampledType::F32),
        Scalar::I32 => Some(SampledType::I32),
        Scalar::U32 => Some(SampledType::U32),
        _ => None,
    }
}

/// The address space with this name, or with naga's. A module has no name for that of textures and samplers.
pub fn space_named(name: &str) -> Option<AddressSpace>
    ensures { IfSome result (IsSpace Standard name.now) }
{
    match AddressSpace::named_by(RuleSet::Standard, name) {
        Some(AddressSpace::Handle) | None => None,
        Some(space) => Some(space),
    }
}
