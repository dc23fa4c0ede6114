//! The names of WGSL: its enumerations, operators, texel formats, textures and samplers, and the tables of its overloads.
#![tactic(auto)]

/// A table of an enumeration's names: `names! { Enumeration Variant "name" .. }`, in the order of its variants.
macro_rules! names {
    ($of:ident $($variant:ident $name:literal)+) => {
        &[$(($of::$variant, $name)),+]
    };
}

pub mod address;
pub mod around;
pub mod attribute;
pub mod builtin_value;
pub mod call;
pub mod enumerant;
pub mod hash;
pub mod layer;
mod named;
pub mod names;
pub mod nearest;
pub mod operator;
pub mod overload;
pub mod result_struct;
pub mod rules;
pub mod scalar;
pub mod tables;
pub mod texel;
pub mod texture;
pub mod texture_name;
