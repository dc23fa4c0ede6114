//! The check of a WGSL module: the type of each expression, and what is wrong.
//!
//! The grammar's events are taken one by one (`step.rt`): expressions by `wgsl_typing`, statements and declarations here. What is
//! misread or faulty is left out, and the rest is checked. Where control goes on depends on no type, and is checked alone
//! (`control.rt`).
#![tactic(auto)]

mod attribute;
mod attributes;
mod behaviour;
mod block;
mod body;
mod checker;
mod control;
mod declaration;
mod declare;
mod entry;
mod field;
mod flow;
mod frame;
mod global;
mod interface;
mod local;
mod misread;
pub mod module;
mod names;
mod statement;
mod step;
mod switch;
mod told;
mod untyped;
mod walk;
