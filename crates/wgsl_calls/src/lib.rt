//! The types of calls: constructors, built-in functions, and their templates.
#![tactic(auto)]

pub mod call;
pub mod constructor;
pub mod template;
