// Template lists: what a name with one stands for.
ghost use Rattle.std.specs.Prelude.{◌≡◌, MatchOption, None, Some, reverse};
ghost use Rattle.wgsl_spelling.specs.Names.{access_named, format_named, sampled_named, space_named};
ghost use Rattle.wgsl_spelling.specs.Seen.{Gives};
ghost use Rattle.wgsl_spelling.specs.Templates.{bitcast, bitcast_named, flag, is_open, last_list, layered, listed_in, memory, name, texture};

use crate::chain::Leaf;
use crate::fault::{Cause, Expected, Stop, stop_at};
use crate::item::{Item, Value};
use crate::name::{format_named, space_named};
use crate::predeclared::{LayerName, PredeclaredType, predeclared};
use crate::value::count;
use crate::word::word;
use wgsl_constants::call::Function;
use wgsl_reader::kind::Kind;
use wgsl_reader::token::Token;
use wgsl_syntax::address::{AccessMode, AddressSpace, access_named};
use wgsl_syntax::around::Around;
use wgsl_syntax::attribute::{AccelerationStructureFlags, flag_named};
use wgsl_syntax::texel::TexelFormat;
use wgsl_syntax::texture::{SampledType, TextureType, sampled_named};
use wgsl_syntax::texture_name::{TextureName, TextureParameters};

/// A name and the parameters in its template list.
#[derive(Clone, Copy)]
pub struct TemplateList {
    pub name: Token,
    pub parameters: Parameters,
}

/// The parameters in a template list. No type takes more than three.
#[derive(Clone, Copy)]
pub enum Parameters {
    One(Item),
    Two(Item, Item),
    Three(Item, Item, Item),
}

/// What a name with a template list stands for.
#[derive(Clone, Copy)]
pub enum Listed {
    Leaf(Leaf),
    /// What stands around the type that the item stands for.
    Around(Around, Item),
}

/// Takes the innermost list from the items; None if it has more than three parameters, or none.
pub fn pop_list(items: &mut Vec<Item>) -> Option<TemplateList>
    ensures { MatchOption result (last_list (reverse items.old.items) ≡ None)
        (λ list. last_list (reverse items.old.items) ≡ Some (list, reverse items.new.items)) }
{
    let last = items.pop()?;
    let second = items.pop()?;
    if is_open(second) {
        return Some(TemplateList {
            name: items.pop()?.token,
            parameters: Parameters::One(last),
        });
    }
    let third = items.pop()?;
    if is_open(third) {
        return Some(TemplateList {
            name: items.pop()?.token,
            parameters: Parameters::Two(second, last),
        });
    }
    if !is_open(items.pop()?) {
        return None;
    }
    Some(TemplateList {
        name: items.pop()?.token,
        parameters: Parameters::Three(third, second, last),
    })
}

fn is_open(item: Item) -> bool
    ensures { result ≡ is_open item }
{
    match item.value {
        Value::Sign(kind) => kind == Kind::OpenTemplate,
        _ => false,
    }
}

/// What a list stands for.
pub fn meaning_of(text: &str, list: TemplateList) -> Result<Listed, Stop>
    ensures { Gives (λ l. l) (listed_in text.now list) result }
{
    let token = list.name;
    match predeclared(word(text, token)) {
        Some(PredeclaredType::Layer(layer)) => layered(text, layer, list),
        Some(PredeclaredType::Texture(name)) => {
            Ok(Listed::Leaf(Leaf::Texture(texture(text, name, list)?)))
        }
        Some(PredeclaredType::RayQuery) => {
            Ok(Listed::Leaf(Leaf::RayQuery(Some(flag(text, list)?))))
        }
        Some(PredeclaredType::AccelerationStructure) => Ok(Listed::Leaf(Leaf::AccelerationStructure(
            Some(flag(text, list)?),
        ))),
        Some(_) => Err(stop_at(token.at, Cause::NeedlessList)),
        None => Err(stop_at(token.at, Cause::UnknownType)),
    }
}

/// What stands around a type, and the type's item.
fn layered(text: &str, layer: LayerName, list: TemplateList) -> Result<Listed, Stop>
    ensures { Gives (λ l. l) (layered text.now layer list.parameters) result }
{
    match (layer, list.parameters) {
        (LayerName::Vec(n), Parameters::One(of)) => Ok(Listed::Around(Around::Vec(n), of)),
        (LayerName::Mat(c, r), Parameters::One(of)) => Ok(Listed::Around(Around::Mat(c, r), of)),
        (LayerName::Atomic, Parameters::One(of)) => Ok(Listed::Around(Around::Atomic, of)),
        (LayerName::Array, Parameters::One(of)) => Ok(Listed::Around(Around::Array(None), of)),
        (LayerName::Array, Parameters::Two(of, n)) => {
            Ok(Listed::Around(Around::Array(Some(count(n)?)), of))
        }
        (LayerName::BindingArray, Parameters::One(of)) => {
            Ok(Listed::Around(Around::BindingArray(None), of))
        }
        (LayerName::BindingArray, Parameters::Two(of, n)) => {
            Ok(Listed::Around(Around::BindingArray(Some(count(n)?)), of))
        }
        (LayerName::Pointer, _) => {
            let (space, of, access) = memory(text, list)?;
            Ok(Listed::Around(Around::Ptr(space, access), of))
        }
        (LayerName::Reference, _) => {
            let (space, of, access) = memory(text, list)?;
            Ok(Listed::Around(Around::Ref(space, access), of))
        }
        _ => Err(stop_at(list.name.at, Cause::WrongParameterCount)),
    }
}

/// The address space, the type's item and the access mode of a pointer or a reference. If no access mode is said, it is that of
/// the address space.
fn memory(text: &str, list: TemplateList) -> Result<(AddressSpace, Item, AccessMode), Stop>
    ensures { Gives (λ found. found) (memory text.now list.parameters) result }
{
    match list.parameters {
        Parameters::Two(space, of) => {
            let space = space_of(text, space)?;
            Ok((space, of, space.default_access_mode()))
        }
        Parameters::Three(space, of, access) => {
            let space = space_of(text, space)?;
            Ok((space, of, access_of(text, access)?))
        }
        Parameters::One(_) => Err(stop_at(list.name.at, Cause::WrongParameterCount)),
    }
}

/// The texture of a name and its parameters.
fn texture(text: &str, name: TextureName, list: TemplateList) -> Result<TextureType, Stop>
    ensures { Gives (λ found. found) (texture text.now name list.parameters) result }
{
    let parameters = match list.parameters {
        Parameters::One(sampled) => TextureParameters::Sampled(sampled_of(text, sampled)?),
        Parameters::Two(format, access) => {
            TextureParameters::Storage(format_of(text, format)?, access_of(text, access)?)
        }
        Parameters::Three(_, _, _) => {
            return Err(stop_at(list.name.at, Cause::WrongParameterCount));
        }
    };
    match name.with(parameters) {
        Some(texture) => Ok(texture),
        None => Err(stop_at(list.name.at, Cause::WrongParameterCount)),
    }
}

/// The function of `bitcast` with a list.
pub fn bitcast(text: &str, list: TemplateList) -> Result<Function, Stop>
    ensures { Gives (λ f. f) (bitcast text.now list.parameters) result }
{
    let Parameters::One(to) = list.parameters else {
        return Err(stop_at(list.name.at, Cause::WrongParameterCount));
    };
    match bitcast_named(name(text, to)) {
        Some(function) => Ok(function),
        None if predeclared(name(text, to)).is_some() => {
            Err(stop_at(list.name.at, Cause::NotInteger))
        }
        None => Err(stop_at(to.token.at, Cause::UnknownType)),
    }
}

fn bitcast_named(name: &str) -> Option<Function>
    ensures { result ≡ bitcast_named name.now }
{
    match name {
        "u32" => Some(Function::BitcastU32),
        "i32" => Some(Function::BitcastI32),
        _ => None,
    }
}

fn flag(text: &str, list: TemplateList) -> Result<AccelerationStructureFlags, Stop>
    ensures { Gives (λ found. found) (flag text.now list.parameters) result }
{
    let Parameters::One(flag) = list.parameters else {
        return Err(stop_at(list.name.at, Cause::WrongParameterCount));
    };
    match flag_named(name(text, flag)) {
        Some(found) => Ok(found),
        None => Err(stop_at(flag.token.at, Cause::Expected(Expected::Flag))),
    }
}

fn space_of(text: &str, item: Item) -> Result<AddressSpace, Stop>
    ensures { Gives (λ found. found) (space_named (name text.now item)) result }
{
    match space_named(name(text, item)) {
        Some(space) => Ok(space),
        None => Err(stop_at(item.token.at, Cause::Expected(Expected::AddressSpace))),
    }
}

fn access_of(text: &str, item: Item) -> Result<AccessMode, Stop>
    ensures { Gives (λ found. found) (access_named (name text.now item)) result }
{
    match access_named(name(text, item)) {
        Some(access) => Ok(access),
        None => Err(stop_at(item.token.at, Cause::Expected(Expected::AccessMode))),
    }
}

fn format_of(text: &str, item: Item) -> Result<TexelFormat, Stop>
    ensures { Gives (λ found. found) (format_named (name text.now item)) result }
{
    match format_named(name(text, item)) {
        Some(format) => Ok(format),
        None => Err(stop_at(item.token.at, Cause::Expected(Expected::TexelFormat))),
    }
}

fn sampled_of(text: &str, item: Item) -> Result<SampledType, Stop>
    ensures { Gives (λ found. found) (sampled_named (name text.now item)) result }
{
    match sampled_named(name(text, item)) {
        Some(sampled) => Ok(sampled),
        None => Err(stop_at(item.token.at, Cause::Expected(Expected::SampledType))),
    }
}

/// The name that an item is, or nothing.
fn name(text: &str, item: Item) -> &str
    ensures { result.now ≡ name text.now item }
{
    match item.value {
        Value::Name => word(text, item.token),
        _ => "",
    }
}
