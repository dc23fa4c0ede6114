// The values of calls in counts.
ghost use Rattle.std.specs.Prelude.{◌≡◌};
ghost use Rattle.wgsl_constants.specs.Literals.{found};
ghost use Rattle.wgsl_spelling.specs.Calls.{argued, called_item, called_value, callee_in, callee_named, member, opened};
ghost use Rattle.wgsl_spelling.specs.Seen.{Gives};

use crate::fault::{Cause, Stop, stop_at};
use crate::item::{Callee, Item, Value};
use crate::value::{constant, valued};
use crate::word::word;
use wgsl_constants::call::{Arguments, CallError, Function};
use wgsl_constants::constant::Constant;
use wgsl_constants::vector::{Size, Vector};

/// The beginning of a call of what an item names.
pub fn opened(text: &str, item: Item) -> Result<Item, Stop>
    ensures { Gives (λ i. i) (opened text.now item) result }
{
    let callee = callee_in(text, item)?;
    Ok(Item {
        token: item.token,
        value: Value::Call(callee, Arguments::Zero),
    })
}

/// What an item names. It is `UnknownFunction` of another name, and `NotInteger` of another item.
fn callee_in(text: &str, item: Item) -> Result<Callee, Stop>
    ensures { Gives (λ callee. callee) (callee_in text.now item.token item.value) result }
{
    match item.value {
        Value::Name => match callee_named(word(text, item.token)) {
            Some(callee) => Ok(callee),
            None => Err(stop_at(item.token.at, Cause::UnknownFunction)),
        },
        Value::Function(function) => Ok(Callee::Function(function)),
        _ => Err(stop_at(item.token.at, Cause::NotInteger)),
    }
}

fn callee_named(name: &str) -> Option<Callee>
    ensures { result ≡ callee_named name.now }
{
    match Size::named(name) {
        Some(size) => Some(Callee::Vector(size)),
        None => Some(Callee::Function(Function::named(name)?)),
    }
}

/// The call with one argument more.
pub fn argued(call: Item, argument: Item) -> Result<Item, Stop>
    ensures { Gives (λ i. i) (argued call argument) result }
{
    let Value::Call(callee, given) = call.value else {
        return Err(stop_at(call.token.at, Cause::NotInteger));
    };
    match given.with(constant(argument)?) {
        Some(all) => Ok(Item {
            token: call.token,
            value: Value::Call(callee, all),
        }),
        None => Err(stop_at(call.token.at, Cause::WrongArgumentCount)),
    }
}

/// The value of a call. An error is at the name of what is called.
pub fn called(call: Item) -> Result<Item, Stop>
    ensures { Gives (λ i. i) (called_item call) result }
{
    let Value::Call(callee, given) = call.value else {
        return Err(stop_at(call.token.at, Cause::NotInteger));
    };
    match called_value(callee, given) {
        Ok(value) => Ok(Item {
            token: call.token,
            value,
        }),
        Err(error) => Err(stop_at(call.token.at, Cause::from(error))),
    }
}

fn called_value(callee: Callee, given: Arguments) -> Result<Value, CallError>
    ensures { found result ≡ called_value callee given }
{
    match callee {
        Callee::Vector(size) => Ok(Value::Vector(Vector::of(size, given)?)),
        Callee::Function(function) => Ok(Value::Constant(function.apply(given)?)),
    }
}

/// The component of a vector with this letter.
pub fn member(letter: &str, item: Item) -> Result<Item, Stop>
    ensures { Gives (λ i. i) (member letter.now item) result }
{
    let Value::Vector(vector) = item.value else {
        return Err(stop_at(item.token.at, Cause::NotInteger));
    };
    match vector.member(letter) {
        Some(integer) => Ok(valued(item, Constant::Integer(integer))),
        None => Err(stop_at(item.token.at, Cause::NoComponent)),
    }
}
