//! The report on a WGSL text: the layouts of its structs, the bindings of its variables, and what is wrong; and the report on a
//! checked module (`faults.rt`).
#![tactic(auto)]

pub mod choice;
pub mod extent;
pub mod faults;
pub mod finding;
mod forms;
pub mod json;
pub mod keyword;
pub mod layers;
pub mod lines;
pub mod message;
mod place;
mod prelude;
pub mod report;
mod resource;
pub mod rules;
pub mod shown;
mod source;
pub mod spaces;
mod table;
pub mod told;
mod tree;
pub mod type_text;
pub mod write;
