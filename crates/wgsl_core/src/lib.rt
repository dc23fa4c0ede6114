//! The types of WGSL: conversion, layout, operators and errors.
#![tactic(auto)]

pub mod conversion;
pub mod error;
pub mod laws;
pub mod layout;
pub mod literal;
pub mod operators;
pub mod signature;
pub mod ty;
