//! Requests and their answers as values, the function that answers a request, and the text of an answer; and requests that are
//! written in WGSL (`expressions.rt`).
#![tactic(auto)]

pub mod answers;
pub mod ask;
pub mod call_forms;
pub mod expressions;
pub mod fast;
mod forms;
pub mod laws;
mod prelude;
pub mod reply;
pub mod requests;
pub mod standard;
pub mod write;
