//! Templates and their parameters (WGSL, "Template Lists").
pub use wgsl_calls::template::{
    ArrayTemplate, AtomicTemplate, BindingArrayTemplate, BitcastTemplate, MatTemplate, PtrTemplate,
    TextureTemplate, VecTemplate,
};
pub use wgsl_core::signature::TpltParam;
