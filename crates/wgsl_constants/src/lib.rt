//! Integers that are known at compile time: literals, operators and functions on them (WGSL, "Const-Expressions").
#![tactic(auto)]

pub mod call;
pub mod constant;
pub mod function;
pub mod integer;
pub mod literal;
pub mod operator;
pub mod vector;
