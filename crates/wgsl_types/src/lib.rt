//! WGSL's types and the rules on them: every public item, in the module of its topic.
#![tactic(auto)]

pub mod builtin;
pub mod conv;
pub mod error;
pub mod inst;
pub mod laws;
pub mod standard;
pub mod syntax;
pub mod tplt;
pub mod ty;
pub mod typed;

pub use wgsl_core::error::{Error, Fail};
pub use wgsl_core::layout as mem;
pub use wgsl_core::literal::Instance;
pub use wgsl_core::signature::{CallSignature, ShaderStage};
pub use wgsl_core::ty::Type;
