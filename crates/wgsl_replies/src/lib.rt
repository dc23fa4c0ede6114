//! Requests as bytes, and their replies: in words by the ported rules, and in WGSL by WGSL's own. It is what the programs and
//! the library for C have in common.
#![tactic(auto)]

pub mod laws;
pub mod request;
pub mod words;
