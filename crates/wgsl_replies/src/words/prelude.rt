// Names that several files of this crate use.
pub(crate) use crate::words::wanted::{Misfit, Misread, Read, Wanted};
pub(crate) use crate::words::words::{Words, wanted};
pub(crate) use std::alloc::Global;
pub(crate) use wgsl_core::error::Fail;
pub(crate) use wgsl_core::signature::TpltParam;
pub(crate) use wgsl_core::ty::{StructType, Type};
pub(crate) use wgsl_requests::reply::Made;
pub(crate) use wgsl_syntax::address::{AddressSpace, access_named, space_named};
pub(crate) use wgsl_syntax::around::Around;
pub(crate) use wgsl_syntax::attribute::flag_named;
pub(crate) use wgsl_syntax::texel::texel_named;
