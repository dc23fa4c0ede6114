// The templates of types and of `bitcast` (WGSL, "Template Lists").
pub mod array;
mod atomic;
mod bitcast;
mod mat;
mod ptr;
mod texture;
mod vec;

pub use array::{ArrayTemplate, BindingArrayTemplate};
pub use atomic::AtomicTemplate;
pub use bitcast::BitcastTemplate;
pub use mat::MatTemplate;
pub use ptr::PtrTemplate;
pub use texture::TextureTemplate;
pub use vec::VecTemplate;
