// Values that are known at compile time.

use crate::integer::Integer;

/// A scalar that is known at compile time.
#[derive(Clone, Copy)]
pub enum Constant {
    Integer(Integer),
    Bool(bool),
    /// The whole part of a float.
    Float(i64),
}
