// What is read of a type and isn't yet part of a larger one.

use wgsl_constants::call::{Arguments, Function};
use wgsl_constants::constant::Constant;
use wgsl_constants::vector::{Size, Vector};
use wgsl_reader::kind::Kind;
use wgsl_reader::token::Token;

/// What is read, with its first token.
#[derive(Clone, Copy)]
pub struct Item {
    pub token: Token,
    pub value: Value,
}

/// What an item stands for.
#[derive(Clone, Copy)]
pub enum Value {
    /// A type, or a value of an enumeration such as an access mode.
    Name,
    /// The type that is read so far.
    Type,
    Constant(Constant),
    Vector(Vector),
    /// A call, with the arguments that are read so far.
    Call(Callee, Arguments),
    /// `bitcast` with its list.
    Function(Function),
    /// An operator, or the `<` of a template list.
    Sign(Kind),
}

/// What is called.
#[derive(Clone, Copy)]
pub enum Callee {
    /// The constructor of a vector.
    Vector(Size),
    Function(Function),
}
