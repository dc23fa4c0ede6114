// What is read of an expression and isn't yet part of another.

use crate::fault::Place;
use crate::known::Part;
use wgsl_core::ty::Type;
use wgsl_syntax::address::{AccessMode, AddressSpace};

/// What a name with a template list stands for.
#[derive(Drop)]
pub enum Listed {
    /// A type; None if it has a fault.
    Type(Option<Type>),
    /// A function with a type: `bitcast<f32>`. None if the type has a fault.
    Function(usize, Option<Type>),
}

/// What is called.
#[derive(Drop)]
pub enum Callee {
    /// A name, by the number of tokens up to it.
    Name(usize),
    Listed(Place, Listed),
}

/// What is read and isn't yet part of anything else. A name, an operator and a sign are there by the number of tokens up to it.
#[derive(Drop)]
pub enum Item {
    Name(usize),
    OpenList,
    Listed(Place, Listed),
    /// The template list of a variable; None if it has a fault.
    Space(Option<(AddressSpace, Option<AccessMode>)>),
    Part(Part),
    Sign(usize),
    Call(Callee, Vec<Part>),
    /// The type behind a declared name; None if it has a fault.
    DeclaredType(Option<Type>),
}
