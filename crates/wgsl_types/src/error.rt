//! Refusals, and out of memory.
pub use wgsl_core::error::{Error, Fail};
