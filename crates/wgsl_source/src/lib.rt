//! The declarations of a WGSL module, read from its text: structs with their layouts, variables, overrides, entry points
//! and aliases, and what is wrong.
#![tactic(auto)]

mod argument;
pub mod attribute;
mod call;
mod check;
mod declaration;
mod directive;
pub mod entry;
mod extension;
pub mod fault;
mod initialized;
mod item;
pub mod laws;
mod layers;
mod leaf;
mod listed;
mod literal;
pub mod meant;
pub mod measured;
pub mod module;
mod noted;
mod order;
pub mod others;
mod parts;
mod reader;
mod scope;
pub mod structure;
mod telling;
pub mod text;
mod types;
mod value;
pub mod variable;
