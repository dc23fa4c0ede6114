// The values of literals and operators in counts.
ghost use Rattle.std.specs.Prelude.{◌≡◌, None, Some, cond};
ghost use Rattle.wgsl_constants.specs.Literals.{found};
ghost use Rattle.wgsl_constants.specs.Values.{negative};
ghost use Rattle.wgsl_spelling.specs.Items.{constant, integer, is_value};
ghost use Rattle.wgsl_spelling.specs.Seen.{Gives, IsFault};
ghost use Rattle.wgsl_spelling.specs.Values.{beside, binary, binary_value, binary_vectors, bool_of, compared, comparison_of, count, count_of, first_of, holds, literal, of_bools, operator_of, sign_in, sign_value, type_of_literal, unary, unary_value, unary_vector, valued};

use crate::fault::{Cause, Expected, Stop, stop_at};
use crate::item::{Item, Value};
use crate::word::word;
use std::cmp::Ordering;
use wgsl_constants::call::{CallError, Function, integer as integer_in};
use wgsl_constants::constant::Constant;
use wgsl_constants::integer::{Integer, IntegerOperator};
use wgsl_constants::literal::{LiteralError, integer_of, type_of_number};
use wgsl_constants::operator::{compare, complement, negative};
use wgsl_constants::vector::{Vector, made_of_two};
use wgsl_reader::kind::Kind;
use wgsl_reader::token::Token;
use wgsl_syntax::scalar::Scalar;

/// How two integers are compared.
#[derive(Clone, Copy)]
enum Comparison {
    Equal,
    NotEqual,
    Less,
    LessEqual,
    Greater,
    GreaterEqual,
}

/// The integer that an item is.
pub fn integer(item: Item) -> Result<Integer, Stop>
    ensures { Gives (λ n. n) (integer item) result }
{
    match item.value {
        Value::Constant(Constant::Integer(integer)) => Ok(integer),
        _ => Err(no_integer(item)),
    }
}

/// The constant that an item is.
pub fn constant(item: Item) -> Result<Constant, Stop>
    ensures { Gives (λ x. x) (constant item) result }
{
    match item.value {
        Value::Constant(constant) => Ok(constant),
        _ => Err(no_integer(item)),
    }
}

/// The item itself, which stands in brackets, if it has a value.
pub fn in_brackets(item: Item) -> Result<Item, Stop>
    ensures { Gives (λ i. i) (cond (is_value item.value) (Some item) None) result }
{
    match item.value {
        Value::Constant(_) | Value::Vector(_) => Ok(item),
        _ => Err(no_integer(item)),
    }
}

/// What is wrong with an item where an integer should stand.
fn no_integer(item: Item) -> Stop
    ensures { IsFault result }
{
    let cause = match item.value {
        Value::Constant(_) | Value::Vector(_) => Cause::NotInteger,
        _ => Cause::Expected(Expected::Integer),
    };
    stop_at(item.token.at, cause)
}

/// What a literal stands for: `4u`, `true`.
pub fn literal(text: &str, token: Token) -> Result<Constant, Stop>
    ensures { Gives (λ x. x) (literal text.now token) result }
{
    if let Some(test) = bool_of(token.kind) {
        return Ok(Constant::Bool(test));
    }
    match integer_of(word(text, token).as_bytes()) {
        Ok(integer) => Ok(Constant::Integer(integer)),
        Err(LiteralError::NotInteger) => Err(stop_at(token.at, Cause::NotInteger)),
        Err(LiteralError::Overflow) => Err(stop_at(token.at, Cause::Overflow)),
    }
}

/// The type of a literal, by the kind of its token and its text (WGSL, "Literals").
pub fn type_of_literal(kind: Kind, text: &[u8]) -> Scalar
    ensures { result ≡ type_of_literal kind text.now }
{
    match bool_of(kind) {
        Some(_) => Scalar::Bool,
        None => type_of_number(text),
    }
}

/// What a literal of a kind stands for, if it is `true` or `false`.
pub fn bool_of(kind: Kind) -> Option<bool>
    ensures { result ≡ bool_of kind }
{
    match kind {
        Kind::True => Some(true),
        Kind::False => Some(false),
        _ => None,
    }
}

/// The number of elements that an item says.
pub fn count(item: Item) -> Result<usize, Stop>
    ensures { Gives (λ n. n) (count item) result }
{
    match count_of(integer(item)?) {
        Some(count) => Ok(count),
        None => Err(stop_at(item.token.at, Cause::NegativeCount)),
    }
}

fn count_of(integer: Integer) -> Option<usize>
    ensures { result ≡ count_of integer }
{
    match integer {
        Integer::Abstract(value) => usize::try_from(value).ok(),
        Integer::I32(value) => usize::try_from(value).ok(),
        Integer::U32(value) => Some(value as usize),
    }
}

/// The operator that an item is; the end if it is none.
fn sign_in(value: Value) -> Kind
    ensures { result ≡ sign_in value }
{
    match value {
        Value::Sign(kind) => kind,
        _ => Kind::End,
    }
}

/// `-4`, `~4`, `!true`
pub fn unary(operator: Item, operand: Item) -> Result<Item, Stop>
    ensures { Gives (λ i. i) (unary operator operand) result }
{
    match unary_value(sign_in(operator.value), constant(operand)?) {
        Ok(constant) => Ok(valued(operator, constant)),
        Err(error) => Err(stop_at(operator.token.at, Cause::from(error))),
    }
}

/// The value of `-`, `~` or `!` in front of a constant. It is `NotInteger` of another sign, and of a constant that it doesn't take.
pub fn unary_value(sign: Kind, operand: Constant) -> Result<Constant, CallError>
    ensures { found result ≡ unary_value sign operand }
{
    match (sign, operand) {
        (Kind::Minus, Constant::Integer(a)) => Ok(Constant::Integer(negated(a)?)),
        (Kind::Minus, Constant::Float(whole)) => Ok(Constant::Float(0i64.saturating_sub(whole))),
        (Kind::Tilde, Constant::Integer(a)) => Ok(Constant::Integer(complement(a))),
        (Kind::Bang, Constant::Bool(test)) => Ok(Constant::Bool(!test)),
        _ => Err(CallError::NotInteger),
    }
}

fn negated(a: Integer) -> Result<Integer, CallError>
    ensures { found result ≡ found (negative a) }
{
    Ok(negative(a)?)
}

/// `2 + 2`, `true && false`
pub fn binary(left: Item, operator: Item, right: Item) -> Result<Item, Stop>
    ensures { Gives (λ i. i) (binary left operator right) result }
{
    match binary_value(sign_in(operator.value), constant(left)?, constant(right)?) {
        Ok(constant) => Ok(valued(first_of(left, operator, constant), constant)),
        Err(error) => Err(stop_at(operator.token.at, Cause::from(error))),
    }
}

/// Where a value with an operator is told: a test at the operator, which makes no integer.
fn first_of(left: Item, operator: Item, constant: Constant) -> Item
    ensures { result ≡ first_of left operator constant }
{
    match constant {
        Constant::Bool(_) => operator,
        Constant::Integer(_) | Constant::Float(_) => left,
    }
}

/// The value of an operator between two constants. It is `NotInteger` of another sign, and of constants that it doesn't take.
pub fn binary_value(sign: Kind, a: Constant, b: Constant) -> Result<Constant, CallError>
    ensures { found result ≡ binary_value sign a b }
{
    match (a, b) {
        (Constant::Integer(a), Constant::Integer(b)) => match comparison_of(sign) {
            Some(comparison) => compared(comparison, a, b),
            None => Ok(Constant::Integer(sign_value(sign, a, b)?)),
        },
        (Constant::Bool(a), Constant::Bool(b)) => match of_bools(sign, a, b) {
            Some(test) => Ok(Constant::Bool(test)),
            None => Err(CallError::NotInteger),
        },
        _ => Err(CallError::NotInteger),
    }
}

fn comparison_of(kind: Kind) -> Option<Comparison>
    ensures { result ≡ comparison_of kind }
{
    match kind {
        Kind::EqualEqual => Some(Comparison::Equal),
        Kind::NotEqual => Some(Comparison::NotEqual),
        Kind::Less => Some(Comparison::Less),
        Kind::LessEqual => Some(Comparison::LessEqual),
        Kind::Greater => Some(Comparison::Greater),
        Kind::GreaterEqual => Some(Comparison::GreaterEqual),
        _ => None,
    }
}

fn compared(comparison: Comparison, a: Integer, b: Integer) -> Result<Constant, CallError>
    ensures { found result ≡ compared comparison a b }
{
    Ok(Constant::Bool(holds(comparison, compare(a, b)?)))
}

fn holds(comparison: Comparison, ordering: Ordering) -> bool
    ensures { result ≡ holds comparison ordering }
{
    match comparison {
        Comparison::Equal => ordering.is_eq(),
        Comparison::NotEqual => ordering.is_ne(),
        Comparison::Less => ordering.is_lt(),
        Comparison::LessEqual => ordering.is_le(),
        Comparison::Greater => ordering.is_gt(),
        Comparison::GreaterEqual => ordering.is_ge(),
    }
}

fn of_bools(kind: Kind, a: bool, b: bool) -> Option<bool>
    ensures { result ≡ of_bools kind a b }
{
    match kind {
        Kind::AndAnd | Kind::And => Some(a && b),
        Kind::OrOr | Kind::Or => Some(a || b),
        Kind::EqualEqual => Some(if a { b } else { !b }),
        Kind::NotEqual => Some(if a { !b } else { b }),
        _ => None,
    }
}

fn sign_value(kind: Kind, a: Integer, b: Integer) -> Result<Integer, CallError>
    ensures { found result ≡ sign_value kind a b }
{
    made_of_two(operator_of(kind)?, a, b)
}

/// The vector of a `-` or a `~` in front of a vector, component by component. It is `NotInteger` of another sign.
pub fn unary_vector(sign: Kind, v: Vector) -> Result<Vector, CallError>
    ensures { found result ≡ unary_vector sign v }
{
    match sign {
        Kind::Minus => v.each(Function::Negation),
        Kind::Tilde => v.each(Function::Complement),
        _ => Err(CallError::NotInteger),
    }
}

/// The vector of an operator between two vectors, component by component. It is `NotInteger` of vectors of other lengths, and of an
/// operator that makes no integers.
pub fn binary_vectors(sign: Kind, v: Vector, w: Vector) -> Result<Vector, CallError>
    ensures { found result ≡ binary_vectors sign v w }
{
    v.each_of_two(operator_of(sign)?, w)
}

/// An integer beside a vector, as a vector as long. It is `NotInteger` of another constant, and of an operator that isn't arithmetic.
pub fn beside(sign: Kind, constant: Constant, v: Vector) -> Result<Vector, CallError>
    ensures { found result ≡ beside sign constant v }
{
    match sign {
        Kind::Plus | Kind::Minus | Kind::Star | Kind::Slash | Kind::Percent => {
            Ok(v.filled(integer_in(constant)?))
        }
        _ => Err(CallError::NotInteger),
    }
}

/// The item of a value that begins with the first item.
pub fn valued(first: Item, constant: Constant) -> Item
    ensures { result ≡ valued first constant }
{
    Item {
        token: first.token,
        value: Value::Constant(constant),
    }
}

/// The operator that makes an integer of two; `NotInteger` of another sign.
fn operator_of(kind: Kind) -> Result<Function, CallError>
    ensures { found result ≡ operator_of kind }
{
    match kind {
        Kind::Plus => Ok(Function::Operator(IntegerOperator::Addition)),
        Kind::Minus => Ok(Function::Operator(IntegerOperator::Subtraction)),
        Kind::Star => Ok(Function::Operator(IntegerOperator::Multiplication)),
        Kind::Slash => Ok(Function::Operator(IntegerOperator::Division)),
        Kind::Percent => Ok(Function::Operator(IntegerOperator::Remainder)),
        Kind::Or => Ok(Function::Operator(IntegerOperator::BitwiseOr)),
        Kind::And => Ok(Function::Operator(IntegerOperator::BitwiseAnd)),
        Kind::Xor => Ok(Function::Operator(IntegerOperator::BitwiseXor)),
        Kind::ShiftLeft => Ok(Function::ShiftLeft),
        Kind::ShiftRight => Ok(Function::ShiftRight),
        _ => Err(CallError::NotInteger),
    }
}
