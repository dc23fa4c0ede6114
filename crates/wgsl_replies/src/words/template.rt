// The template parameters that words stand for.
ghost use Rattle.std.specs.Prelude.{◌≡◌, ◌<◌, ◌≤◌, OnOk, length, map, option_map};
ghost use Rattle.wgsl_core.specs.Instances.{literal_view, parameter_view};
ghost use Rattle.wgsl_replies.specs.words.Reader.{Reads, one};
ghost use Rattle.wgsl_replies.specs.words.Templates.{enumerant_named, literal, parameter_from, parameters_at, template_at};

use crate::words::number::literal;
use crate::words::prelude::*;
use crate::words::read::read_type;
use wgsl_core::literal::{Instance, LiteralInstance};
use wgsl_syntax::enumerant::Enumerant;

/// The template of a call: `-` for none, or `<`, parameters and `>`.
#[inline(always)]
#[tactic(auto, unfolding(crate::specs::words::Templates::template_at))]
pub fn read_template(alloc: Global, words: &mut Words) -> Read<Option<Vec<TpltParam>>>
    ensures { Reads (option_map (λ ps. map parameter_view ps.items)) (template_at words.old) result words.new }
{
    match words.next(Wanted::Template)? {
        "-" => Ok(None),
        "<" => Ok(Some(read_parameters(alloc, words)?)),
        _ => Err(Fail::Error(Misfit::Wrong(Wanted::Template))),
    }
}

/// Parameters up to `>`. It is not inlined, since most calls have no template.
#[inline(never)]
fn read_parameters(alloc: Global, words: &mut Words) -> Read<Vec<TpltParam>>
    ensures { Reads (λ ps. map parameter_view ps.items) (parameters_at words.old) result words.new }
{
    let mut parameters = Vec::new(alloc);
    while let Ok(word) = words.next(Wanted::Parameter) {
        if word == ">" {
            return Ok(parameters);
        }
        parameters.push(read_parameter(alloc, word, words)?)?;
    }
    Err(Fail::Error(Misfit::Missing(Wanted::Parameter)))
}

/// A parameter: `t` and a type, `n` and a literal, or `e` and an enumerant.
#[tactic(auto, unfolding(crate::specs::words::Templates::parameter_from))]
fn read_parameter(alloc: Global, kind: &str, words: &mut Words) -> Read<TpltParam>
    ensures shorter { OnOk result (length words.new ≤ length words.old) }
    ensures read { Reads parameter_view (parameter_from kind.now words.old) result words.new }
{
    match kind {
        "t" => Ok(TpltParam::Ty(read_type(alloc, words)?)),
        "n" => Ok(TpltParam::Instance(Instance::Literal(read_literal(words)?))),
        "e" => Ok(TpltParam::Enumerant(read_enumerant(words)?)),
        _ => Err(Fail::Error(Misfit::Wrong(Wanted::Parameter))),
    }
}

fn read_literal(words: &mut Words) -> Read<LiteralInstance>
    ensures shorter { OnOk result (length words.new ≤ length words.old) }
    ensures read { Reads literal_view (one literal words.old) result words.new }
{
    wanted(literal(words.next(Wanted::Literal)?), Wanted::Literal)
}

fn read_enumerant(words: &mut Words) -> Read<Enumerant>
    ensures shorter { OnOk result (length words.new ≤ length words.old) }
    ensures read { Reads (λ enumerant. enumerant) (one enumerant_named words.old) result words.new }
{
    wanted(enumerant(words.next(Wanted::Enumerant)?), Wanted::Enumerant)
}

/// The enumerant of this name, but for the address space `handle`.
#[tactic(auto, unfolding(crate::specs::words::Templates::enumerant_named, crate::specs::words::Names::access_named, crate::specs::words::Names::space_named, crate::specs::words::Names::texel_named, crate::specs::words::Names::some_flag_named))]
fn enumerant(word: &str) -> Option<Enumerant>
    ensures { result ≡ enumerant_named word.now }
{
    if let Some(access) = access_named(word) {
        return Some(Enumerant::AccessMode(access));
    }
    match space_named(word) {
        None | Some(AddressSpace::Handle) => {}
        Some(space) => return Some(Enumerant::AddressSpace(space)),
    }
    if let Some(format) = texel_named(word) {
        return Some(Enumerant::TexelFormat(format));
    }
    Some(Enumerant::AccelerationStructureFlags(flag_named(word)?))
}
