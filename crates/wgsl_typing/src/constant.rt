// Values of operators and calls, where they are integers, vectors of them or `bool` (WGSL, "Early Evaluation Expressions").

ghost use Rattle.std.specs.Prelude.{◌≡◌, option_map};
ghost use Rattle.wgsl_constants.specs.Calls.{conversion};
ghost use Rattle.wgsl_constants.specs.Literals.{found, then};
ghost use Rattle.wgsl_constants.specs.declared.call.Arguments.TheVariants.{Zero};
ghost use Rattle.wgsl_core.specs.Forms.{scalar_of};
ghost use Rattle.wgsl_core.specs.View.{view};
ghost use Rattle.wgsl_typing.specs.Computed.{applied, binary, call, constructed, function_of, product, unary, vector_at, with_value, with_values};
ghost use Rattle.wgsl_typing.specs.Values.{computed};

use crate::stage::Stage;
use crate::value::Value;
use wgsl_constants::call::{Arguments, CallError, Function};
use wgsl_constants::constant::Constant;
use wgsl_constants::integer::{Integer, IntegerError};
use wgsl_constants::vector::{COMPONENTS, Size, Vector};
use wgsl_core::ty::Type;
use wgsl_core::ty::form::Form;
use wgsl_reader::kind::Kind;
use wgsl_spelling::value;
use wgsl_spelling::value::{beside, binary_vectors};
use wgsl_syntax::operator::BinaryOperator;

/// A value, if it is computed, or what is wrong with it.
pub type Computed = Result<Option<Value>, &'static str>;

/// What is wrong with integers.
fn said(error: IntegerError) -> &'static str {
    match error {
        IntegerError::Overflow => "the value is out of the range of its type",
        IntegerError::DivisionByZero => "a division by 0",
        IntegerError::MixedTypes => "an i32 and a u32 do not mix",
        IntegerError::NegatedUnsigned => "a u32 has no negative",
        IntegerError::ShiftTooFar => "a shift by 32 bits or more",
        IntegerError::EmptyRange => "the least value is above the greatest",
        IntegerError::BitsTooFar => "bits beyond the 32 of an integer",
    }
}

/// The value of operators and functions on constants, or what is wrong with it. Of other constants it isn't computed.
fn told(value: Result<Value, CallError>) -> Computed
    ensures { computed result ≡ found value }
{
    match value {
        Ok(value) => Ok(Some(value)),
        Err(CallError::Integer(error)) => Err(said(error)),
        Err(CallError::NotInteger | CallError::WrongArgumentCount) => Ok(None),
    }
}

/// The value of `-x`, `~x`, `!x`: of vectors component by component.
pub fn unary_value(sign: Kind, value: Value) -> Computed
    ensures { computed result ≡ unary sign value }
{
    told(unary(sign, value))
}

fn unary(sign: Kind, value: Value) -> Result<Value, CallError>
    ensures { found result ≡ unary sign value }
{
    match value {
        Value::One(x) => Ok(Value::One(value::unary_value(sign, x)?)),
        Value::Several(x) => Ok(Value::Several(value::unary_vector(sign, x)?)),
        Value::Elements(_) => Err(CallError::NotInteger),
    }
}

/// The value of a binary operator: of vectors component by component.
pub fn binary_value(sign: Kind, x: Value, y: Value) -> Computed
    ensures { computed result ≡ binary sign x y }
{
    told(binary(sign, x, y))
}

fn binary(sign: Kind, x: Value, y: Value) -> Result<Value, CallError>
    ensures { found result ≡ binary sign x y }
{
    match (x, y) {
        (Value::One(x), Value::One(y)) => Ok(Value::One(value::binary_value(sign, x, y)?)),
        (Value::Several(x), Value::Several(y)) => {
            Ok(Value::Several(binary_vectors(sign, x, y)?))
        }
        (Value::Several(x), Value::One(y)) => {
            Ok(Value::Several(binary_vectors(sign, x, beside(sign, y, x)?)?))
        }
        (Value::One(x), Value::Several(y)) => {
            Ok(Value::Several(binary_vectors(sign, beside(sign, x, y)?, y)?))
        }
        (Value::Elements(_), _) | (_, Value::Elements(_)) => Err(CallError::NotInteger),
    }
}

/// The value of `false && x` and `true || x`, whatever `x` is.
pub fn decided(operator: BinaryOperator, left: Value) -> Option<Value> {
    match (operator, left) {
        (BinaryOperator::ShortCircuitAnd, Value::One(Constant::Bool(false)))
        | (BinaryOperator::ShortCircuitOr, Value::One(Constant::Bool(true))) => Some(left),
        _ => None,
    }
}

/// What is wrong with a right operand, whatever the left one is: a shift that is too far, or a zero that divides.
pub fn wrong_right(
    operator: BinaryOperator,
    left: Option<&Type>,
    right: Option<Value>,
    stage: Stage,
) -> Option<&'static str> {
    match right? {
        Value::One(Constant::Integer(by)) => wrong_by(operator, left?, by, stage),
        Value::One(_) | Value::Elements(_) => None,
        Value::Several(vector) => {
            for which in &COMPONENTS {
                if let Some(by) = vector.component(*which) {
                    if let Some(message) = wrong_by(operator, left?, by, stage) {
                        return Some(message);
                    }
                }
            }
            None
        }
    }
}

/// What is wrong with this integer, or component, on the right.
fn wrong_by(
    operator: BinaryOperator,
    left: &Type,
    by: Integer,
    stage: Stage,
) -> Option<&'static str> {
    let by = by.value();
    let left = match left.form() {
        Form::Vector(_, of) => of,
        _ => left,
    };
    let is_concrete = matches!(left, Type::I32 | Type::U32);
    match operator {
        BinaryOperator::ShiftLeft | BinaryOperator::ShiftRight if is_concrete && by > 31 => {
            Some("a shift by 32 bits or more")
        }
        BinaryOperator::Division | BinaryOperator::Remainder
            if by == 0 && (is_concrete || stage.is_const()) => { Some("a division by 0") }
        _ => None,
    }
}

/// The value of a call of a built-in function or of a constructor with these arguments, which have the types of its parameters.
pub fn call_value(name: &str, template: Option<&Type>, values: &[Option<Value>]) -> Computed
    ensures { computed result ≡ call name.now (option_map (λ t. view t.now) template.entry) values.now }
{
    told(call(name, template, values))
}

fn call(name: &str, template: Option<&Type>, values: &[Option<Value>]) -> Result<Value, CallError>
    ensures { found result ≡ call name.now (option_map (λ t. view t.now) template.entry) values.now }
{
    if name == "dot" {
        return product(values);
    }
    match Size::named(name) {
        Some(size) => Ok(Value::Several(constructed(size, template, values)?)),
        None => match function_of(name, template) {
            Some(function) => applied(function, values),
            None => Err(CallError::NotInteger),
        },
    }
}

/// The `dot` of two vectors.
fn product(values: &[Option<Value>]) -> Result<Value, CallError>
    ensures { found result ≡ product values.now }
{
    let product = vector_at(values, 0)?.dot(vector_at(values, 1)?)?;
    Ok(Value::One(Constant::Integer(product)))
}

/// The vector that a constructor makes, whose components a template converts.
fn constructed(
    size: Size,
    template: Option<&Type>,
    values: &[Option<Value>],
) -> Result<Vector, CallError>
    ensures { found result ≡ constructed size (option_map (λ t. view t.now) template.entry) values.now }
{
    let vector = Vector::of(size, arguments_of(values)?)?;
    match template {
        Some(ty) => match conversion(ty) {
            Some(function) => vector.each(function),
            None => Err(CallError::NotInteger),
        },
        None => Ok(vector),
    }
}

/// The value of a function: of vectors component by component.
fn applied(function: Function, values: &[Option<Value>]) -> Result<Value, CallError>
    ensures { found result ≡ applied function values.now }
{
    match (vector_at(values, 0), vector_at(values, 1)) {
        (Ok(x), Ok(y)) => Ok(Value::Several(x.each_of_two(function, y)?)),
        (Ok(x), Err(_)) => Ok(Value::Several(x.each(function)?)),
        (Err(_), _) => Ok(Value::One(function.apply(arguments_of(values)?)?)),
    }
}

/// The argument at an index, if it is a vector; else `NotInteger`.
fn vector_at(values: &[Option<Value>], index: usize) -> Result<Vector, CallError>
    ensures { found result ≡ vector_at values.now index }
{
    match values.get(index) {
        Some(Some(Value::Several(vector))) => Ok(*vector),
        _ => Err(CallError::NotInteger),
    }
}

/// The arguments, in which a vector counts as its components. It is `WrongArgumentCount` of more than four.
fn arguments_of(values: &[Option<Value>]) -> Result<Arguments, CallError>
    ensures { found result ≡ with_values values.now Zero }
{
    let mut given = Arguments::Zero;
    for value in values {
        given = with_value(*value, given)?;
    }
    Ok(given)
}

fn with_value(value: Option<Value>, given: Arguments) -> Result<Arguments, CallError>
    ensures { found result ≡ with_value value given }
{
    match value {
        Some(Value::One(constant)) => given.with(constant).ok_or(CallError::WrongArgumentCount),
        Some(Value::Several(vector)) => vector.behind(given).ok_or(CallError::WrongArgumentCount),
        Some(Value::Elements(_)) | None => Err(CallError::NotInteger),
    }
}

/// The function with a name, and with this template; None of one whose values aren't computed.
fn function_of(name: &str, template: Option<&Type>) -> Option<Function>
    ensures { result ≡ function_of name.now (option_map (λ t. view t.now) template.entry) }
{
    if name == "bitcast" {
        return Function::bitcast(template?.scalar()?);
    }
    Function::named(name)
}

/// The function that converts to a type of integers or floats.
fn conversion(ty: &Type) -> Option<Function>
    ensures { result ≡ then (scalar_of (view ty.now)) conversion }
{
    Function::conversion(ty.scalar()?)
}
