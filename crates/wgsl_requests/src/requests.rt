// What is asked.
use crate::prelude::*;
pub use wgsl_calls::call::NamedCall;
use wgsl_standard::forms::declare::Declaration;
use wgsl_standard::forms::lists::Taker;
use wgsl_syntax::address::{AccessMode, AddressSpace};
use wgsl_syntax::operator::AssignmentOperator;

/// A request about the rules.
#[derive(Clone, Copy)]
pub enum Request<'r> {
    /// The rank of the conversion from one type to another.
    Rank(&'r Type, &'r Type),
    /// The type of a unary expression.
    Unary(UnaryOperator, &'r Type),
    /// The type of a binary expression.
    Binary(BinaryOperator, &'r Type, &'r Type),
    /// The size and the alignment of a type, by these rules.
    Size(RuleSet, &'r Type),
    /// The offsets of a struct's members, by these rules.
    Offsets(RuleSet, &'r StructType),
    /// The layout of a struct, by these rules.
    Layout(RuleSet, &'r StructType),
    /// The type that a constructor makes.
    Constructor(NamedCall<'r>),
    /// What a built-in function returns.
    Call(NamedCall<'r>),
    /// The type of a call by WGSL's own overloads.
    Type(&'r Call<'r>),
    /// The overload of a call, the types of its parameters, and its result.
    Resolution(&'r Call<'r>),
    /// The overloads of a name, which may be an operator.
    Overloads(&'r str),
    /// Why overloads don't take the operands of a call; of a name that nothing has, the answer is that of its type.
    Explanation(&'r Call<'r>),
    /// The type of a form that has no overloads.
    Form(&'r Form<'r>),
    /// Whether what takes these types takes the values: `f(x, y)`, `return x;`, `if x {}`.
    Fit(Taker<'r>, &'r [Operand<'r>], &'r [Type]),
}

/// The call of what has overloads of WGSL's own.
#[derive(Clone, Copy)]
pub struct Call<'r> {
    pub callee: Callee<'r>,
    pub template: Option<&'r [TpltParam]>,
    pub operands: &'r [Operand<'r>],
}

/// A form of an expression or a statement that has no overloads.
#[derive(Clone, Copy)]
pub enum Form<'r> {
    /// `x.name`
    Member(Operand<'r>, &'r str),
    /// `x[i]`
    Index(Operand<'r>, Operand<'r>),
    /// `x`, where a value is read.
    Load(Operand<'r>),
    /// `let x = v;`, `const x: T = v;`, `override x = v;`
    Declaration(Declaration, Operand<'r>, Option<&'r Type>),
    /// `override x: T;`
    Override(&'r Type),
    /// `x = y;`, `x += y;`
    Assignment(AssignmentOperator, Operand<'r>, Operand<'r>),
    /// `x++;`, `x--;`
    Increment(Operand<'r>),
    /// `_ = x;`
    Discard(Operand<'r>),
    /// `S(x, y)`, where `S` is a struct.
    Construct(&'r Type, &'r [Operand<'r>]),
    /// `switch x { case y {} case z {} }`
    Switch(Operand<'r>, &'r [Operand<'r>]),
    /// `&x`, and what `x` is said to refer to.
    Address(Operand<'r>, Referent),
    /// `*x`
    Indirection(Operand<'r>),
    /// `array(x, y)`
    Array(&'r [Operand<'r>]),
    /// `array<T, N>(x, y)`, `array<T>(x, y)`
    ArrayOf(&'r Type, Option<usize>, &'r [Operand<'r>]),
    /// `var<storage> x: T;`
    Variable(AddressSpace, Option<AccessMode>, &'r Type),
    /// `var<private> x = v;`, `var x: T = v;`
    Initialized(AddressSpace, Option<AccessMode>, Operand<'r>, Option<&'r Type>),
}
