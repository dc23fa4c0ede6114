//! Requests, one per line: what the programs that answer them have in common.
#![tactic(auto)]

pub mod laws;
mod line;
pub mod program;
pub mod run;
