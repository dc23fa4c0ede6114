// Names that several files of this crate use.
pub(crate) use crate::finding::{Finding, Subject, Trouble};
pub(crate) use crate::forms::fields::{Field, fields_of, struct_names};
pub(crate) use crate::forms::names::{Language, Names, Role};
pub(crate) use crate::layers::{Base, inner_struct, inside, shape_of};
pub(crate) use crate::lines::Lines;
pub(crate) use crate::message::{Message, Severity, messages_of};
pub(crate) use crate::place::Place;
pub(crate) use crate::resource::{write_buffer, write_sampler, write_texture};
pub(crate) use crate::shown::{Style, once, write_messages};
pub(crate) use crate::source::Source;
pub(crate) use crate::spaces::content::{Content, may_be_innermost, may_hold};
pub(crate) use crate::spaces::layout::{
    Extent, Position, Rule, Shape, broken_rule, is_align_attribute, is_lifted, may_lie_apart,
    required_align, up_to_16,
};
pub(crate) use crate::told::{data_size, end_of, min_binding_size, padding, stride_of};
pub(crate) use crate::type_text::type_text;
pub(crate) use crate::write::{Escaped, Fields, IfKnown, OrNull, Visible, Written};
pub(crate) use std::alloc::{AllocError, Global};
pub(crate) use std::collections::{BTreeMap, BTreeSet};
pub(crate) use std::str::from_utf8;
pub(crate) use wgsl_reader::kind::Kind;
pub(crate) use wgsl_reader::module::Misread;
pub(crate) use wgsl_source::fault::{Cause, Fault};
pub(crate) use wgsl_source::measured::{Count, MeasuredType, TypeKind};
pub(crate) use wgsl_source::module::{Module, read_module};
pub(crate) use wgsl_source::structure::{Member, Struct};
pub(crate) use wgsl_source::text::{Text, tokens};
pub(crate) use wgsl_source::variable::Variable;
pub(crate) use wgsl_syntax::address::{AccessMode, AddressSpace};
pub(crate) use wgsl_syntax::rules::RuleSet;
pub(crate) use wgsl_syntax::scalar::Scalar;
pub(crate) use wgsl_syntax::texture::{
    SampledType, SamplerType, ShownTexture, TextureDimensions, TextureType,
};
