// Names that several files of this crate use.
pub(crate) use crate::answers::Answer;
pub(crate) use crate::expressions::item::{Asked, Item, Items};
pub(crate) use crate::expressions::misread::{Misread, Read, Wanted, untyped};
pub(crate) use crate::expressions::outcome::{Head, MOST_INSIDE, Outcome, Parts, Typed};
pub(crate) use crate::expressions::scope::{Meaning, Scope};
pub(crate) use crate::expressions::source::Source;
pub(crate) use crate::expressions::statement::{Question, Statement};
pub(crate) use crate::expressions::why::{Replied, Why};
pub(crate) use crate::reply::{Made, ReplyKind};
pub(crate) use crate::requests::Request;
pub(crate) use std::alloc::Global;
pub(crate) use wgsl_core::error::Fail;
pub(crate) use wgsl_core::signature::TpltParam;
pub(crate) use wgsl_core::ty::{StructType, Type};
pub(crate) use wgsl_reader::kind::Kind;
pub(crate) use wgsl_reader::mark::Mark;
pub(crate) use wgsl_reader::read::Event;
pub(crate) use wgsl_reader::token::Token;
pub(crate) use wgsl_spelling::fault::{Cause, Fault};
pub(crate) use wgsl_spelling::word::word;
pub(crate) use wgsl_standard::callee::Callee;
pub(crate) use wgsl_standard::forms::declare::Declaration;
pub(crate) use wgsl_standard::forms::form::Referent;
pub(crate) use wgsl_standard::forms::lists::Taker;
pub(crate) use wgsl_standard::operand::Operand;
pub(crate) use wgsl_syntax::address::{AccessMode, AddressSpace};
pub(crate) use wgsl_syntax::operator::{
    AssignmentOperator, BinaryOperator, UnaryOperator, assignment_named,
};
pub(crate) use wgsl_syntax::rules::RuleSet;
