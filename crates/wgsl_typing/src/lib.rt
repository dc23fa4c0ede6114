//! What the names and the expressions of a module are, and their types: what is done where the grammar notes a part of an
//! expression, over a stack of items.
//!
//! What has a fault is faulty, and what uses something faulty is faulty without another fault. Types, and why there are none, are
//! what the forms and the overloads say (`ask.rt`).
#![tactic(auto)]

pub mod argument;
mod ask;
mod binary;
pub mod call;
pub mod constant;
mod construct;
pub mod count;
pub mod declared;
mod element;
mod elements;
pub mod expression;
pub mod expressions;
pub mod extension;
pub mod fault;
pub mod item;
pub mod known;
pub mod laws;
pub mod list;
pub mod meant;
pub mod name;
mod number;
mod parameter;
pub mod scope;
pub mod stage;
pub mod step;
pub mod structs;
mod texture;
pub mod value;
