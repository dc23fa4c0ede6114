// What is answered.
use crate::prelude::*;

/// The answer to a request.
#[derive(Drop)]
pub enum Answer<'r> {
    Number(Option<u32>),
    Size(Option<u32>, Option<u32>),
    /// The type of an expression, or why it has none. Out of memory is no answer.
    Type(Result<Type, Fail<Error>>),
    /// A call, and what it returns, or why its template is refused. Out of memory is no answer.
    Value(NamedCall<'r>, Result<Returned, Fail<Error>>),
    /// The type of a binary expression, or the operands that the operator doesn't take.
    Binary(Result<ResolvedType<'r>, Operands<'r>>),
    Offsets(Option<Vec<u32>>),
    Layout(&'r StructType, Option<StructLayout>),
    /// The call, and its type, if it has a value; None if no overload takes the operands.
    TypeOf(&'r Call<'r>, Option<Option<ResultType>>),
    /// The call, and what it resolves to; None if no overload takes the operands.
    Resolution(&'r Call<'r>, Option<ResolvedCall>),
    Overloads(Vec<Signature<'r>>),
    Notes(Vec<Note<'r>>),
    /// The type of a form, or why it has none.
    FormType(Result<FormType<'r>, Refusal<'r>>),
    /// The values fit, or why they don't.
    Fit(Result<(), Refusal<'r>>),
}

/// Operands of a binary operator.
#[derive(Clone, Copy)]
pub struct Operands<'r> {
    pub operator: BinaryOperator,
    pub lhs: &'r Type,
    pub rhs: &'r Type,
}
