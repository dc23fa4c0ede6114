// The forms of WGSL that aren't operators, constructors or calls: members, indexes, loads, `&` and `*`, declarations,
// assignments, lists of values, conditions and returned values.

pub mod address;
pub mod array;
pub mod assign;
pub mod concrete;
pub mod convert;
pub mod declare;
pub mod expression;
pub mod flow;
pub mod form;
pub mod index;
pub mod kinds;
pub mod laws;
pub mod layout;
pub mod lists;
pub mod load;
pub mod member;
mod memory;
pub mod one_answer;
mod prelude;
pub mod refusal;
pub mod switch;
pub mod variable;
