//! Instances: literals, with their types and their texts.
pub use wgsl_core::literal::{Instance, LiteralInstance};
