// The layers around a type, and the leaf types that words stand for, except scalars.
ghost use Rattle.std.specs.Prelude.{◌≡◌, ◌≤◌, OnOk, length};
ghost use Rattle.wgsl_core.specs.View.{view};
ghost use Rattle.wgsl_replies.specs.words.Names as names;
ghost use Rattle.wgsl_replies.specs.words.Reader.{Reads, one, optional};
ghost use Rattle.wgsl_replies.specs.words.Types.{layer_named, leaf_from, memory_at, parameters_at, texture_from};

use crate::words::prelude::*;
use wgsl_syntax::address::AccessMode;
use wgsl_syntax::attribute::AccelerationStructureFlags;
use wgsl_syntax::texture::{TextureType, sampled_named, sampler_named};
use wgsl_syntax::texture_name::{TextureParameterKind, TextureParameters, texture_named};

/// The layer that begins with this word; `None` if none does. It is not inlined, so that words are compared as numbers.
#[inline(never)]
#[tactic(auto, unfolding(crate::specs::words::Types::layer_named))]
pub fn read_layer(word: &str, words: &mut Words) -> Read<Option<Around>>
    ensures shorter { OnOk result (length words.new ≤ length words.old) }
    ensures read { Reads (λ layer. layer) (optional (layer_named word.now) words.old) result words.new }
{
    match word {
        "vec" => {
            let components = words.next_small(Wanted::Components)?;
            Ok(Some(Around::Vec(components)))
        }
        "mat" => {
            let columns = words.next_small(Wanted::Columns)?;
            let rows = words.next_small(Wanted::Rows)?;
            Ok(Some(Around::Mat(columns, rows)))
        }
        "array" => Ok(Some(Around::Array(words.next_count()?))),
        "binding_array" => Ok(Some(Around::BindingArray(words.next_count()?))),
        "atomic" => Ok(Some(Around::Atomic)),
        "ptr" => {
            let (space, access) = read_memory(words)?;
            Ok(Some(Around::Ptr(space, access)))
        }
        "ref" => {
            let (space, access) = read_memory(words)?;
            Ok(Some(Around::Ref(space, access)))
        }
        _ => Ok(None),
    }
}

/// An address space, which may be `handle`, and an access mode.
#[tactic(auto, unfolding(crate::specs::words::Types::memory_at, crate::specs::words::Names::space_named, crate::specs::words::Names::access_named))]
fn read_memory(words: &mut Words) -> Read<(AddressSpace, AccessMode)>
    ensures shorter { OnOk result (length words.new ≤ length words.old) }
    ensures read { Reads (λ memory. memory) (memory_at words.old) result words.new }
{
    let space = space_named(words.next(Wanted::AddressSpace)?);
    let space = wanted(space, Wanted::AddressSpace)?;
    let access = access_named(words.next(Wanted::AccessMode)?);
    Ok((space, wanted(access, Wanted::AccessMode)?))
}

/// A leaf type in words that is no scalar: one of naga's types for rays, a sampler or a texture.
#[inline(never)]
#[tactic(auto, unfolding(crate::specs::words::Types::leaf_from, crate::specs::words::Types::rays_named, crate::specs::words::Names::sampler_named))]
pub fn read_leaf(word: &str, words: &mut Words) -> Read<Type>
    ensures shorter { OnOk result (length words.new ≤ length words.old) }
    ensures read { Reads view (leaf_from word.now words.old) result words.new }
{
    match word {
        "ray_query" => Ok(Type::RayQuery(read_flag(words)?)),
        "acceleration_structure" => Ok(Type::AccelerationStructure(read_flag(words)?)),
        _ => match sampler_named(word) {
            Some(sampler) => Ok(Type::Sampler(sampler)),
            None => Ok(Type::Texture(read_texture(word, words)?)),
        },
    }
}

/// A flag, or `-` for none.
fn read_flag(words: &mut Words) -> Read<Option<AccelerationStructureFlags>>
    ensures shorter { OnOk result (length words.new ≤ length words.old) }
    ensures read { Reads (λ flag. flag) (one names.flag_named words.old) result words.new }
{
    wanted(flag(words.next(Wanted::Flag)?), Wanted::Flag)
}

/// The flag of this name, or none for `-`.
#[tactic(auto, unfolding(crate::specs::words::Names::flag_named, crate::specs::words::Names::some_flag_named))]
fn flag(word: &str) -> Option<Option<AccelerationStructureFlags>>
    ensures { result ≡ names.flag_named word.now }
{
    if word == "-" {
        return Some(None);
    }
    Some(Some(flag_named(word)?))
}

/// A texture: its name, and its sampled type, or its texel format and access mode.
#[tactic(auto, unfolding(crate::specs::words::Types::texture_from, crate::specs::words::Names::texture_named))]
fn read_texture(name: &str, words: &mut Words) -> Read<TextureType>
    ensures shorter { OnOk result (length words.new ≤ length words.old) }
    ensures read { Reads (λ texture. texture) (texture_from name.now words.old) result words.new }
{
    let name = wanted(texture_named(name), Wanted::Type)?;
    let parameters = read_parameters(name.parameter_kind(), words)?;
    wanted(name.with(parameters), Wanted::Type)
}

/// The parameters of a texture, of which the kind is known.
#[tactic(auto, unfolding(crate::specs::words::Types::parameters_at, crate::specs::words::Names::sampled_named, crate::specs::words::Names::texel_named, crate::specs::words::Names::access_named))]
fn read_parameters(kind: TextureParameterKind, words: &mut Words) -> Read<TextureParameters>
    ensures shorter { OnOk result (length words.new ≤ length words.old) }
    ensures read { Reads (λ parameters. parameters) (parameters_at kind words.old) result words.new }
{
    match kind {
        TextureParameterKind::None => Ok(TextureParameters::None),
        TextureParameterKind::Sampled => {
            let sampled = sampled_named(words.next(Wanted::SampledType)?);
            Ok(TextureParameters::Sampled(wanted(sampled, Wanted::SampledType)?))
        }
        TextureParameterKind::Storage => {
            let format = texel_named(words.next(Wanted::TexelFormat)?);
            let format = wanted(format, Wanted::TexelFormat)?;
            let access = access_named(words.next(Wanted::AccessMode)?);
            let access = wanted(access, Wanted::AccessMode)?;
            Ok(TextureParameters::Storage(format, access))
        }
    }
}
