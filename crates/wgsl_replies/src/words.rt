// Requests in words, and their replies, by the ported rules: what the program `wgsl_check` and the library for C have in
// common.

mod command;
pub mod laws;
mod layer;
mod number;
mod prelude;
pub mod read;
pub mod reply;
pub mod template;
pub mod wanted;
pub mod why;
pub mod words;
