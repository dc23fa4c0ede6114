//! Reads WGSL: the tokens of a text, with its template lists; and what they are by WGSL's grammar, as a list of events.
#![tactic(auto)]

mod bytes;
pub mod expected;
mod gap;
pub mod grammar;
pub mod kind;
pub mod laws;
pub mod lists;
pub mod mark;
pub mod module;
mod number;
mod piece;
pub mod read;
pub mod rule;
mod sign;
pub mod token;
pub mod word;
