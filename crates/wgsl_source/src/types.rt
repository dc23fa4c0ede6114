// Types, as a module writes them.
ghost use Rattle.std.specs.Prelude.{◌≡◌, IfOk, Some, codes, slice_get};
ghost use Rattle.wgsl_rules.specs.layout.Layout.{IsExactly};
ghost use Rattle.wgsl_source.specs.Members.{Grows, IsLeastSize};
ghost use Rattle.wgsl_source.specs.WrittenTypes.{IsLeaf, IsListed, IsListedBy, IsTypeSaid, environment, meaning_of};
ghost use Rattle.wgsl_source.specs.TemplateLists.{IsListedAs};
ghost use Rattle.wgsl_source.specs.internal.Items.{NamesSpace};
ghost use Rattle.wgsl_spelling.specs.Predeclared.{predeclared as predeclared_by};
ghost use Rattle.wgsl_spelling.specs.Words.{word};

use crate::fault::{Cause, Expected, Fault, Named, Stop};
use crate::item::{Content, Item};
use crate::leaf::space_named;
use crate::measured::{Count, MeasuredType, TypeKind};
use crate::scope::{Meaning, Scope};
use std::alloc::Global;
use wgsl_spelling::predeclared::{LayerName, PredeclaredType, predeclared};
use wgsl_syntax::address::AddressSpace;
use wgsl_syntax::scalar::Scalar;
use wgsl_syntax::texture_name::TextureParameters;

/// The greatest nesting depth of types.
const LEVELS: u32 = 255;

/// What is kept of the types that are read.
#[derive(Drop)]
pub struct Types {
    /// The types that stand in arrays, binding arrays and pointers.
    pub elements: Vec<MeasuredType>,
    /// The uses of types and address spaces that only naga has.
    pub naga_only: Vec<Fault>,
}

impl Types {
    /// No types.
    pub fn none(alloc: Global) -> Types {
        Types {
            elements: Vec::new(alloc),
            naga_only: Vec::new(alloc),
        }
    }

    /// The size of a type, or of one element if it is a runtime-sized array.
    pub fn least_size(&self, ty: &MeasuredType) -> Option<u32>
        ensures { IsExactly result (IsLeastSize self.now.elements.items ty.now) }
    {
        match ty.kind {
            TypeKind::Array(index, Count::Runtime) => self.elements.get(index)?.stride(),
            _ => ty.size,
        }
    }

    /// Notes that something that only naga has is used at this index of the text.
    pub fn note(&mut self, at: usize) -> Result<(), Stop>
        ensures { Grows self.old self.new }
    {
        let cause = Cause::NagaOnly;
        Ok(self.naga_only.push(Fault { at, cause })?)
    }

    /// Keeps a type that stands in another one. Returns its index.
    pub fn keep(&mut self, element: MeasuredType) -> Result<usize, Stop>
        ensures grows { Grows self.old self.new }
        ensures kept { IfOk result (λ index. slice_get self.new.elements.items index ≡ Some element) }
    {
        let index = self.elements.len();
        self.elements.push(element)?;
        Ok(index)
    }
}

impl<'t> Scope<'t> {
    /// The type that an item stands for.
    pub fn type_of(&self, types: &mut Types, item: Item) -> Result<MeasuredType, Stop>
        ensures grows { Grows types.old types.new }
        ensures said { IfOk result (IsTypeSaid self.now.text (meaning_of self.now) item.token item.content) }
    {
        match item.content {
            Content::Type(ty) => Ok(ty),
            Content::Name => match self.meaning(self.text.word(item.token)) {
                Some(meaning) => declared_type(meaning, item),
                None => {
                    let named = self.predeclared_type(types, item)?;
                    leaf(item, named)
                }
            },
            Content::Bitcast(_) | Content::Function => {
                Err(item.stop(Cause::UnknownName(Named::Type)))
            }
            Content::Value(_) | Content::Sign(_) => {
                Err(item.stop(Cause::Expected(Expected::Type)))
            }
        }
    }

    /// What a predeclared name of a type stands for. A module has no name for some types that spellings have.
    fn predeclared_type(&self, types: &mut Types, name: Item) -> Result<PredeclaredType, Stop>
        ensures grows { Grows types.old types.new }
        ensures named { IfOk result (λ named. predeclared_by (word self.now.text.text.now name.token) ≡ Some named) }
    {
        match predeclared(self.text.word(name.token)) {
            None
            | Some(
                PredeclaredType::Scalar(Scalar::AbstractInt | Scalar::AbstractFloat)
                | PredeclaredType::Layer(LayerName::Reference),
            ) => Err(name.stop(Cause::UnknownName(Named::Type))),
            Some(named) => {
                if named.is_half() && !self.extensions.half {
                    return Err(name.stop(Cause::NoHalf));
                }
                if named.is_naga_only() && !self.extensions.naga {
                    types.note(name.token.at)?;
                }
                Ok(named)
            }
        }
    }

    /// What a name with a template list stands for.
    pub fn listed(
        &self,
        types: &mut Types,
        name: Item,
        parameters: &[Item],
    ) -> Result<Content, Stop>
        ensures grows { Grows types.old types.new }
        ensures listed { IfOk result (IsListedBy self.now.text (environment self.now types.new) name parameters.now) }
    {
        match self.meaning(self.text.word(name.token)) {
            Some(Meaning::Faulty | Meaning::Unread) => Err(name.elsewhere()),
            Some(_) => Err(name.stop(Cause::NeedlessList)),
            None => self.predeclared_listed(types, name, parameters),
        }
    }

    /// What a name that the module doesn't declare stands for with a template list.
    fn predeclared_listed(
        &self,
        types: &mut Types,
        name: Item,
        parameters: &[Item],
    ) -> Result<Content, Stop>
        ensures grows { Grows types.old types.new }
        ensures listed { IfOk result (IsListedAs self.now.text (environment self.now types.new) (word self.now.text.text.now name.token) parameters.now) }
    {
        let word = self.text.word(name.token);
        if word == "bitcast" {
            return self.bitcast(types, parameters);
        }
        if predeclared(word).is_none() {
            return Ok(Content::Function);
        }
        let named = self.predeclared_type(types, name)?;
        let ty = self.type_listed(types, name, named, parameters)?;
        if ty.levels > LEVELS {
            Err(name.stop(Cause::TooDeep))
        } else {
            Ok(Content::Type(ty))
        }
    }

    fn bitcast(&self, types: &mut Types, parameters: &[Item]) -> Result<Content, Stop>
        ensures grows { Grows types.old types.new }
        ensures listed { IfOk result (IsListedAs self.now.text (environment self.now types.new) (codes "bitcast") parameters.now) }
    {
        match parameters {
            [of] => {
                let ty = self.type_of(types, *of)?;
                Ok(Content::Bitcast(ty.as_scalar()))
            }
            _ => Ok(Content::Function),
        }
    }

    /// The type of a predeclared name and the parameters in its template list.
    fn type_listed(
        &self,
        types: &mut Types,
        name: Item,
        named: PredeclaredType,
        parameters: &[Item],
    ) -> Result<MeasuredType, Stop>
        ensures grows { Grows types.old types.new }
        ensures listed { IfOk result (IsListed self.now.text (environment self.now types.new) named parameters.now) }
    {
        let kind = match named {
            PredeclaredType::Layer(layer) => {
                return self.layered(types, name, layer, parameters);
            }
            PredeclaredType::Texture(texture) => {
                TypeKind::Texture(self.texture(name, texture, parameters)?)
            }
            PredeclaredType::RayQuery => TypeKind::RayQuery(Some(self.flag(name, parameters)?)),
            PredeclaredType::AccelerationStructure => {
                TypeKind::AccelerationStructure(Some(self.flag(name, parameters)?))
            }
            _ => return Err(name.stop(Cause::NeedlessList)),
        };
        Ok(MeasuredType::resource(kind))
    }

    /// An address space.
    pub fn space(&self, types: &mut Types, item: Item) -> Result<AddressSpace, Stop>
        ensures grows { Grows types.old types.new }
        ensures named { IfOk result (NamesSpace self.now.text (meaning_of self.now) item) }
    {
        let name = self.enumerant(item, Expected::AddressSpace)?;
        if name == "push_constant" && !self.extensions.naga {
            types.note(item.token.at)?;
        }
        match space_named(name) {
            Some(space) => Ok(space),
            None => Err(item.stop(Cause::Expected(Expected::AddressSpace))),
        }
    }
}

/// The type that a declaration stands for, named by an item.
fn declared_type(meaning: Meaning, name: Item) -> Result<MeasuredType, Stop>
    ensures { IfOk result (λ ty. meaning ≡ Meaning.Type ty) }
{
    match meaning {
        Meaning::Type(ty) => Ok(ty),
        Meaning::Faulty | Meaning::Unread => Err(name.elsewhere()),
        Meaning::Value(_) | Meaning::NoValue(_) | Meaning::Other => Err(name.stop(Cause::Expected(
            Expected::Type,
        ))),
    }
}

/// A type whose name has no template list.
fn leaf(name: Item, named: PredeclaredType) -> Result<MeasuredType, Stop>
    ensures { IfOk result (IsLeaf named) }
{
    let kind = match named {
        PredeclaredType::Scalar(scalar) => return Ok(MeasuredType::scalar(scalar)),
        PredeclaredType::Vec(n, scalar) => return Ok(MeasuredType::vector(n, scalar)),
        PredeclaredType::Mat(c, r, scalar) => return Ok(MeasuredType::matrix(c, r, scalar)),
        PredeclaredType::Sampler(sampler) => TypeKind::Sampler(sampler),
        PredeclaredType::Texture(texture) => match texture.with(TextureParameters::None) {
            Some(texture) => TypeKind::Texture(texture),
            None => return Err(name.stop(Cause::NoList)),
        },
        PredeclaredType::RayQuery => TypeKind::RayQuery(None),
        PredeclaredType::AccelerationStructure => TypeKind::AccelerationStructure(None),
        PredeclaredType::Layer(LayerName::Vec(_) | LayerName::Mat(_, _)) => {
            return Err(name.stop(Cause::NoComponent));
        }
        PredeclaredType::Layer(_) => return Err(name.stop(Cause::NoList)),
    };
    Ok(MeasuredType::resource(kind))
}
