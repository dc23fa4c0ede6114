// The types that words stand for.
ghost use Rattle.std.specs.Prelude.{◌≡◌, ◌<◌, ◌≤◌, IfOk, OnOk, OnSome, length, map};
ghost use Rattle.wgsl_core.specs.View.{member_view, view};
ghost use Rattle.wgsl_replies.specs.words.Types.{ReadsNext, wrapped, in_layer, member_at, other_from, struct_at, type_at, type_from};
ghost use Rattle.wgsl_replies.specs.words.Reader.{Gives, Reads, all, last, pair};

use crate::words::layer::{read_layer, read_leaf};
use crate::words::prelude::*;
use wgsl_core::ty::StructMemberType;
use wgsl_syntax::scalar::{Scalar, scalar_named};

/// The type that the next words stand for.
///
/// Layers are read in a loop, and the functions for structs and layers are not inlined, so that deep types take little
/// stack.
#[cycle(reading)]
#[inline(always)]
pub fn read_type(alloc: Global, words: &mut Words) -> Read<Type>
    ensures shorter { OnOk result (length words.new < length words.old) }
    ensures read { Reads view (type_at words.old) result words.new }
{
    let word = words.next(Wanted::Type)?;
    read_type_at(alloc, word, words)
}

/// The type that begins with this word.
#[cycle(reading)]
#[inline(always)]
#[tactic(auto, unfolding(crate::specs::words::Types::type_from, crate::specs::words::Names::scalar_named))]
pub fn read_type_at(alloc: Global, word: &str, words: &mut Words) -> Read<Type>
    ensures shorter { OnOk result (length words.new ≤ length words.old) }
    ensures read { Reads view (type_from type_at word.now words.old) result words.new }
{
    match scalar_named(word) {
        Some(scalar) => Ok(Type::from(scalar)),
        None => match word {
            "struct" => read_struct(alloc, words),
            _ => read_other(alloc, word, words),
        },
    }
}

/// The type that begins with this word, which is neither a scalar nor a struct.
#[cycle(reading)]
#[inline(never)]
#[tactic(auto, unfolding(crate::specs::words::Types::other_from))]
fn read_other(alloc: Global, word: &str, words: &mut Words) -> Read<Type>
    ensures shorter { OnOk result (length words.new ≤ length words.old) }
    ensures read { Reads view (other_from type_at word.now words.old) result words.new }
{
    match read_layer(word, words)? {
        Some(layer) => read_inside(alloc, layer, words),
        None => read_leaf(word, words),
    }
}

/// The type with this layer around what the next words stand for.
#[cycle(reading)]
#[inline(always)]
fn read_inside(alloc: Global, outer: Around, words: &mut Words) -> Read<Type>
    ensures shorter { OnOk result (length words.new ≤ length words.old) }
    ensures read { Reads view (in_layer outer type_at words.old) result words.new }
{
    let word = words.next(Wanted::Type)?;
    match scalar_named(word) {
        Some(scalar) => {
            let inner = Box::new(alloc, Type::from(scalar))?;
            Ok(Type::around(outer, inner))
        }
        None => read_layers(alloc, outer, word, words),
    }
}

/// The type with this layer, and those that begin with this word, around what comes after them.
///
/// While they are read, the layers are in an array. A layer for which it has no room is read with the type inside.
#[cycle(reading)]
#[inline(always)]
fn read_layers(alloc: Global, outermost: Around, first: &str, words: &mut Words) -> Read<Type>
    ensures shorter { OnOk result (length words.new ≤ length words.old) }
    ensures read { Reads view (in_layer outermost (type_from type_at first.now) words.old) result words.new }
{
    let mut layers = [outermost; 4];
    let mut count = 1;
    let mut word = first;
    let mut scalar = None;
    while let Some(layer) = read_next(count, scalar, word, words)? {
        layers[count] = layer;
        count += 1;
        word = words.next(Wanted::Type)?;
        scalar = scalar_named(word);
    }
    if let Some(scalar) = scalar {
        return Ok(wrap(alloc, &layers[..count], Type::from(scalar))?);
    }
    let innermost = read_type_at(alloc, word, words)?;
    Ok(wrap(alloc, &layers[..count], innermost)?)
}

/// The layer that begins with this word; `None` if the word is a scalar or begins none, or if there are 4 already.
#[inline(always)]
fn read_next(
    count: usize,
    scalar: Option<Scalar>,
    word: &str,
    words: &mut Words,
) -> Read<Option<Around>>
    ensures shorter { OnOk result (length words.new ≤ length words.old) }
    ensures room { IfOk result (λ layer. OnSome layer (count < 4)) }
    ensures read { ReadsNext word.now words.old words.new result }
{
    if count < 4 && scalar.is_none() {
        read_layer(word, words)
    } else {
        Ok(None)
    }
}

/// Wraps the type in these layers, the last innermost.
#[inline(always)]
fn wrap(alloc: Global, layers: &[Around], innermost: Type) -> Made<Type>
    ensures { IfOk result (λ ty. view ty ≡ wrapped layers.now (view innermost)) }
{
    let mut ty = innermost;
    let mut left = layers.len();
    while left > 0 {
        left -= 1;
        let inner = Box::new(alloc, ty)?;
        ty = Type::around(layers[left], inner);
    }
    Ok(ty)
}

/// A struct: its name, the number of its members, and the members.
#[cycle(reading)]
#[inline(never)]
#[tactic(auto, unfolding(crate::specs::words::Types::struct_at))]
fn read_struct(alloc: Global, words: &mut Words) -> Read<Type>
    ensures shorter { OnOk result (length words.new ≤ length words.old) }
    ensures read { Reads view (struct_at type_at words.old) result words.new }
{
    let name = String::from_str(alloc, words.next(Wanted::Name)?)?;
    let count = words.next_number()?;
    let mut members = Vec::new(alloc);
    for _ in 0..count {
        members.push(read_member(alloc, words)?)?;
    }
    Ok(Type::from_struct(alloc, StructType { name, members })?)
}

/// A member: its name, its attributes size and align, and its type.
#[cycle(reading)]
#[tactic(auto, unfolding(crate::specs::words::Types::member_at))]
fn read_member(alloc: Global, words: &mut Words) -> Read<StructMemberType>
    ensures shorter { OnOk result (length words.new < length words.old) }
    ensures read { Reads member_view (member_at type_at words.old) result words.new }
{
    let name = String::from_str(alloc, words.next(Wanted::Name)?)?;
    let size = words.next_attribute(Wanted::SizeAttribute)?;
    let align = words.next_attribute(Wanted::AlignAttribute)?;
    let ty = read_type(alloc, words)?;
    Ok(StructMemberType {
        name,
        ty,
        size,
        align,
    })
}

/// The type in the remaining words.
#[inline(always)]
pub fn read_last_type(alloc: Global, words: &mut Words) -> Read<Type>
    ensures { Gives view (last type_at words.old) result }
{
    let ty = read_type(alloc, words)?;
    if words.is_empty() {
        Ok(ty)
    } else {
        drop(ty);
        Err(Fail::Error(Misfit::LeftOver))
    }
}

/// The types in all remaining words.
#[inline(always)]
pub fn read_types(alloc: Global, words: &mut Words) -> Read<Vec<Type>>
    ensures { Gives (λ types. map view types.items) (all type_at words.old) result }
{
    let mut types = Vec::with_capacity(alloc, 4)?;
    while let Ok(word) = words.next(Wanted::Type) {
        types.push(read_type_at(alloc, word, words)?)?;
    }
    Ok(types)
}

/// The two types in the remaining words.
#[inline(always)]
pub fn read_pair(alloc: Global, words: &mut Words) -> Read<(Type, Type)>
    ensures { Gives (λ p. (view p.0, view p.1)) (last (pair type_at) words.old) result }
{
    let first = read_type(alloc, words)?;
    Ok((first, read_last_type(alloc, words)?))
}
