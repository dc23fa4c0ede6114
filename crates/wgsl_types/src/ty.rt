//! Types, and values that have a type.
pub use wgsl_core::conversion::typed::Ty;
pub use wgsl_core::ty::form::Form;
pub use wgsl_core::ty::{StructMemberType, StructType, Type, try_from_type};
pub use wgsl_syntax::texture::{SamplerType, TextureDimensions, TextureType};
pub use wgsl_syntax::texture_name::{TextureName, TextureParameterKind, TextureParameters};
