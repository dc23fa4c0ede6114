// Names that several files of this crate use.
pub(crate) use crate::forms::concrete::{
    ConcreteType, concrete_component, concrete_scalar, has_abstract_type, is_abstract_scalar,
    made_concrete,
};
pub(crate) use crate::forms::convert::{converts, converts_to, has_layer, has_scalar};
pub(crate) use crate::forms::declare::{concrete, convert_to, is_const_type, is_let_type};
pub(crate) use crate::forms::expression::{has_abstract_operand_type, is_const_expression};
pub(crate) use crate::forms::form::{Element, FormType, MemoryView, Referent, UnbuiltType};
pub(crate) use crate::forms::kinds::{
    has_fixed_footprint, has_no_array, have_fixed_footprint, is_constructible, is_handle,
    is_host_shareable, operand_is_constructible,
};
pub(crate) use crate::forms::load::{load_in, load_type};
pub(crate) use crate::forms::memory::{behind, reference_to};
pub(crate) use crate::forms::refusal::Refusal;
pub(crate) use crate::operand::{Operand, OperandType};
pub(crate) use crate::substitution::{component_in, dimensions_in, value_type};
pub(crate) use std::alloc::{AllocError, Global};
pub(crate) use std::fmt;
pub(crate) use std::fmt::Write;
pub(crate) use wgsl_core::ty::form::Form;
pub(crate) use wgsl_core::ty::show::{write_count, write_type};
pub(crate) use wgsl_core::ty::{StructMemberType, StructType, Type};
pub(crate) use wgsl_syntax::address::{AccessMode, AddressSpace};
pub(crate) use wgsl_syntax::layer::Layer;
pub(crate) use wgsl_syntax::operator::{AssignmentOperator, BinaryOperator, UnaryOperator};
pub(crate) use wgsl_syntax::overload::{Dimensions, Overload, Pattern, Returns, Substitution};
pub(crate) use wgsl_syntax::rules::RuleSet;
pub(crate) use wgsl_syntax::scalar::Scalar;
