// A type in parts: a leaf, and what stands around it.
ghost use Rattle.std.specs.Prelude.{◌≡◌, IfOk, length, option_map};
ghost use Rattle.wgsl_core.specs.View.{view};
ghost use Rattle.wgsl_rules.specs.types.Around.{around};
ghost use Rattle.wgsl_constants.specs.Literals.{then};
ghost use Rattle.wgsl_spelling.specs.Chains.{begin, leaf_type, name_of, plain, push, push_if_any, type_of, with_name, with_type, wrapped};
ghost use Rattle.wgsl_spelling.specs.Seen.{Becomes, chain_of};
ghost use Rattle.wgsl_spelling.specs.Spelled.{nothing};

use crate::fault::{Cause, Expected, Stop, stop_at};
use crate::item::{Item, Value};
use crate::predeclared::{PredeclaredType, predeclared};
use crate::stack::Stack;
use crate::word::word;
use std::alloc::{AllocError, Global};
use wgsl_core::ty::Type;
use wgsl_reader::token::Token;
use wgsl_syntax::around::Around;
use wgsl_syntax::attribute::AccelerationStructureFlags;
use wgsl_syntax::scalar::Scalar;
use wgsl_syntax::texture::{SamplerType, TextureType};
use wgsl_syntax::texture_name::TextureParameters;

/// A type that contains no other.
#[derive(Clone, Copy)]
pub enum Leaf {
    Scalar(Scalar),
    Sampler(SamplerType),
    Texture(TextureType),
    RayQuery(Option<AccelerationStructureFlags>),
    AccelerationStructure(Option<AccelerationStructureFlags>),
    /// A name that WGSL doesn't predeclare.
    Named(Token),
}

/// The type that is read so far: a leaf, or None if no type is read; and what stands around it, the innermost first.
#[derive(Drop)]
pub struct Chain {
    pub leaf: Option<Leaf>,
    pub layers: Stack<Around>,
}

/// The most layers of a type.
const LAYERS: usize = 255;

impl Chain {
    /// No type.
    pub fn none(alloc: Global) -> Chain
        ensures { chain_of result ≡ nothing.chain }
    {
        Chain {
            leaf: None,
            layers: Stack {
                below: Vec::new(alloc),
                last: None,
            },
        }
    }

    /// Begins with a leaf. There is at most one: no type contains two others.
    pub fn begin(&mut self, leaf: Leaf, token: Token) -> Result<(), Stop>
        ensures { Becomes (begin leaf (chain_of self.old)) (chain_of self.new) result }
    {
        if self.leaf.is_some() {
            return Err(stop_at(token.at, Cause::Expected(Expected::Integer)));
        }
        self.leaf = Some(leaf);
        Ok(())
    }

    /// Puts a layer around the type.
    pub fn push(&mut self, layer: Around, token: Token) -> Result<(), Stop>
        ensures { Becomes (push layer (chain_of self.old)) (chain_of self.new) result }
    {
        if self.depth() >= LAYERS {
            return Err(stop_at(token.at, Cause::TooDeep));
        }
        self.layers.push(layer)?;
        Ok(())
    }

    /// How many layers stand around the leaf.
    pub fn depth(&self) -> usize
        ensures { result ≡ length (chain_of self.now).layers }
    {
        let below = self.layers.below.len();
        match self.layers.last {
            Some(_) => below + 1,
            None => below,
        }
    }

    /// Reads the type that an item stands for.
    #[inline(always)]
    pub fn read(&mut self, text: &str, item: Item) -> Result<(), Stop>
        ensures { Becomes (with_type text.now item (chain_of self.old)) (chain_of self.new) result }
    {
        match item.value {
            Value::Type => Ok(()),
            Value::Name => match predeclared(word(text, item.token)) {
                Some(named) => self.read_name(named, item.token),
                None => self.begin(Leaf::Named(item.token), item.token),
            },
            _ => Err(stop_at(item.token.at, Cause::Expected(Expected::Type))),
        }
    }

    /// Reads the type of a predeclared name without a template list.
    fn read_name(&mut self, named: PredeclaredType, token: Token) -> Result<(), Stop>
        ensures { Becomes (with_name (chain_of self.old) named) (chain_of self.new) result }
    {
        let Some((leaf, layer)) = plain(named) else {
            return Err(stop_at(token.at, Cause::NoList));
        };
        self.begin(leaf, token)?;
        self.push_if_any(layer, token)
    }

    fn push_if_any(&mut self, layer: Option<Around>, token: Token) -> Result<(), Stop>
        ensures { Becomes (push_if_any layer (chain_of self.old)) (chain_of self.new) result }
    {
        match layer {
            Some(layer) => self.push(layer, token),
            None => Ok(()),
        }
    }

    /// The name at its leaf, if WGSL doesn't predeclare it.
    pub fn name(&self) -> Option<Token>
        ensures { result ≡ name_of (chain_of self.now) }
    {
        match self.leaf {
            Some(Leaf::Named(token)) => Some(token),
            _ => None,
        }
    }

    /// The type.
    pub fn ty(&self, alloc: Global) -> Result<Option<Type>, AllocError>
        ensures { IfOk result (λ found. option_map view found ≡ type_of (chain_of self.now)) }
    {
        match leaf_of(self.leaf) {
            Some(innermost) => Ok(Some(self.wrap(alloc, innermost)?)),
            None => Ok(None),
        }
    }

    /// Puts the layers around a type.
    pub fn wrap(&self, alloc: Global, innermost: Type) -> Result<Type, AllocError>
        ensures { IfOk result (λ ty. view ty ≡ wrapped (view innermost) (chain_of self.now).layers) }
    {
        let mut ty = innermost;
        for layer in &self.layers.below {
            ty = around(alloc, *layer, ty)?;
        }
        match self.layers.last {
            Some(layer) => around(alloc, layer, ty),
            None => Ok(ty),
        }
    }
}

/// A type inside a layer.
fn around(alloc: Global, layer: Around, ty: Type) -> Result<Type, AllocError>
    ensures { IfOk result (λ found. view found ≡ around layer (view ty)) }
{
    Ok(Type::around(layer, Box::new(alloc, ty)?))
}

/// The leaf that a name without a template list stands for, and what stands around it.
fn plain(named: PredeclaredType) -> Option<(Leaf, Option<Around>)>
    ensures { result ≡ plain named }
{
    match named {
        PredeclaredType::Scalar(scalar) => Some((Leaf::Scalar(scalar), None)),
        PredeclaredType::Vec(n, scalar) => Some((Leaf::Scalar(scalar), Some(Around::Vec(n)))),
        PredeclaredType::Mat(c, r, scalar) => {
            Some((Leaf::Scalar(scalar), Some(Around::Mat(c, r))))
        }
        PredeclaredType::Sampler(sampler) => Some((Leaf::Sampler(sampler), None)),
        PredeclaredType::Texture(name) => Some((
            Leaf::Texture(name.with(TextureParameters::None)?),
            None,
        )),
        PredeclaredType::RayQuery => Some((Leaf::RayQuery(None), None)),
        PredeclaredType::AccelerationStructure => {
            Some((Leaf::AccelerationStructure(None), None))
        }
        PredeclaredType::Layer(_) => None,
    }
}

/// The type that a leaf is, if its name is predeclared.
fn leaf_of(leaf: Option<Leaf>) -> Option<Type>
    ensures { option_map view result ≡ then leaf leaf_type }
{
    match leaf? {
        Leaf::Scalar(scalar) => Some(Type::from(scalar)),
        Leaf::Sampler(sampler) => Some(Type::Sampler(sampler)),
        Leaf::Texture(texture) => Some(Type::Texture(texture)),
        Leaf::RayQuery(flag) => Some(Type::RayQuery(flag)),
        Leaf::AccelerationStructure(flag) => Some(Type::AccelerationStructure(flag)),
        Leaf::Named(_) => None,
    }
}
