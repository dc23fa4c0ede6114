// Calls whose values are known when a module is read.
ghost use Rattle.std.specs.Prelude.{◌≡◌, IfOk, IfSome, Some};
ghost use Rattle.wgsl_constants.specs.Calls.{bitcast, with_argument};
ghost use Rattle.wgsl_constants.specs.Literals.{then};
ghost use Rattle.wgsl_constants.specs.Values.{map_value};
ghost use Rattle.wgsl_constants.specs.Vectors.{with_components};
ghost use Rattle.wgsl_source.specs.Calls.{IsCalled, IsCallOf, argument_in, callee_by, callee_of, called_with, constructor, dot_value, predeclared_callee, vector, with_content, with_vector};
ghost use Rattle.wgsl_source.specs.WrittenTypes.{meaning_of};
ghost use Rattle.wgsl_spelling.specs.Words.{word};

use crate::fault::{Cause, Named, Stop};
use crate::item::{Content, Item};
use crate::meant::is_function;
use crate::measured::{MeasuredType, TypeKind};
use crate::scope::{Meaning, Scope};
use crate::value::{Value, vector_in};
use wgsl_constants::call::{Arguments, Function};
use wgsl_constants::constant::Constant;
use wgsl_constants::vector::{Size, Vector};
use wgsl_spelling::predeclared::{PredeclaredType, predeclared};
use wgsl_syntax::scalar::Scalar;

/// What is called.
#[derive(Clone, Copy)]
enum Callee {
    /// The constructor of a vector, with the type of its components if its name says it.
    Vector(Size, Option<Scalar>),
    Function(Function),
    Dot,
}

impl<'t> Scope<'t> {
    /// The value of a call, or why there is none.
    pub fn called(&self, name: Item, arguments: &[Item]) -> Result<Value, Stop>
        ensures { IfOk result (IsCalled self.now.text (meaning_of self.now) name arguments.now) }
    {
        let callee = match self.callee_of(name)? {
            Some(callee) => callee,
            None => return Err(name.stop(Cause::NotInteger)),
        };
        match value_of(callee, arguments) {
            Ok(value) => Ok(value),
            Err(cause) => Err(name.stop(cause)),
        }
    }

    /// What is called, if it is evaluated here.
    fn callee_of(&self, name: Item) -> Result<Option<Callee>, Stop>
        ensures { IfOk result (λ found. IfSome found (λ callee. callee_of self.now.text (meaning_of self.now) name.token name.content ≡ Some callee)) }
    {
        match name.content {
            Content::Type(ty) => Ok(constructor(ty)),
            Content::Name => match self.meaning(self.text.word(name.token)) {
                Some(Meaning::Type(ty)) => Ok(constructor(ty)),
                Some(Meaning::Faulty | Meaning::Unread) => Err(name.elsewhere()),
                Some(_) => Ok(None),
                None => self.predeclared_callee(name),
            },
            Content::Bitcast(scalar) => Ok(bitcast(scalar)),
            Content::Function => self.predeclared_callee(name),
            _ => Ok(None),
        }
    }

    /// What is called by a predeclared name; None if it isn't evaluated here.
    fn predeclared_callee(&self, name: Item) -> Result<Option<Callee>, Stop>
        ensures { IfOk result (λ found. IfSome found (λ callee. predeclared_callee (word self.now.text.text.now name.token) ≡ Some callee)) }
    {
        let word = self.text.word(name.token);
        match callee_by(word, Function::named(word), predeclared(word)) {
            Some(Callee::Function(Function::F16)) if !self.extensions.half => {
                Err(name.stop(Cause::NoHalf))
            }
            Some(callee) => Ok(Some(callee)),
            None => {
                self.check_function(name)?;
                Ok(None)
            }
        }
    }

    /// Whether WGSL, or an extension of others, has a function with this name.
    pub fn check_function(&self, name: Item) -> Result<(), Stop> {
        let word = self.text.word(name.token);
        if self.extensions.foreign || is_function(word) || predeclared(word).is_some() {
            Ok(())
        } else {
            Err(name.stop(Cause::UnknownName(Named::Function)))
        }
    }
}

/// What is called by a name that the module doesn't declare, if it is that of a function or a type; None if it isn't evaluated here.
fn callee_by(name: &str, function: Option<Function>, ty: Option<PredeclaredType>) -> Option<Callee>
    ensures { result ≡ callee_by name.now function ty }
{
    match function {
        Some(function) => Some(Callee::Function(function)),
        None => constructor_by(name, ty),
    }
}

fn constructor_by(name: &str, ty: Option<PredeclaredType>) -> Option<Callee>
    ensures { result ≡ callee_by name.now None ty }
{
    match ty {
        Some(PredeclaredType::Vec(n, scalar)) => vector(n, scalar),
        Some(
            PredeclaredType::Scalar(_)
            | PredeclaredType::Mat(_, _, _)
            | PredeclaredType::Sampler(_)
            | PredeclaredType::Texture(_)
            | PredeclaredType::RayQuery
            | PredeclaredType::AccelerationStructure
            | PredeclaredType::Layer(_),
        ) => Some(Callee::Vector(Size::named(name)?, None)),
        None if name == "dot" => Some(Callee::Dot),
        None => None,
    }
}

/// The constructor of a type, if it is evaluated here.
fn constructor(ty: MeasuredType) -> Option<Callee>
    ensures { IfSome result (λ callee. constructor ty.kind ≡ Some callee) }
{
    match ty.kind {
        TypeKind::Scalar(scalar) => Some(Callee::Function(Function::conversion(scalar)?)),
        TypeKind::Vector(n, scalar) => vector(n, scalar),
        _ => None,
    }
}

fn vector(count: u8, scalar: Scalar) -> Option<Callee>
    ensures { result ≡ vector count scalar }
{
    match count {
        2 => Some(Callee::Vector(Size::Two, Some(scalar))),
        3 => Some(Callee::Vector(Size::Three, Some(scalar))),
        4 => Some(Callee::Vector(Size::Four, Some(scalar))),
        _ => None,
    }
}

/// The value of `dot` of these arguments, which are known, or why there is none.
fn dot(arguments: &[Item]) -> Result<Value, Cause>
    ensures { IfOk result (λ value. dot_value arguments.now ≡ Some value) }
{
    let [a, b] = arguments else {
        return Err(Cause::WrongArgumentCount);
    };
    match (a.content, b.content) {
        (Content::Value(Value::Vector(a)), Content::Value(Value::Vector(b))) => {
            Ok(Value::Known(Constant::Integer(a.dot(b)?)))
        }
        _ => Err(Cause::NotInteger),
    }
}

/// The value of a call with these arguments, or why there is none.
fn value_of(callee: Callee, arguments: &[Item]) -> Result<Value, Cause>
    ensures { IfOk result (IsCallOf callee arguments.now) }
{
    let is_only = arguments.len() == 1;
    let mut given = Arguments::Zero;
    for item in arguments {
        match item.content {
            Content::Value(Value::Later) => return Ok(Value::Later),
            content => given = with_content(callee, is_only, content, given)?,
        }
    }
    called_with(callee, arguments, given)
}

/// The value of a call with these arguments, which are known, or why there is none.
fn called_with(callee: Callee, items: &[Item], arguments: Arguments) -> Result<Value, Cause>
    ensures { IfOk result (λ value. called_with callee items.now arguments ≡ Some value) }
{
    match callee {
        Callee::Dot => dot(items),
        Callee::Function(function) => Ok(Value::Known(function.apply(arguments)?)),
        Callee::Vector(size, None) => Ok(Value::Vector(Vector::of(size, arguments)?)),
        Callee::Vector(size, Some(scalar)) => vector_in(scalar, Vector::of(size, arguments)?),
    }
}

/// The arguments with one more, which is the only one or isn't.
fn with_content(
    callee: Callee,
    is_only: bool,
    content: Content,
    given: Arguments,
) -> Result<Arguments, Cause>
    ensures { IfOk result (λ all. with_content callee is_only content given ≡ Some all) }
{
    match content {
        Content::Value(Value::Known(constant)) => with(given, constant),
        Content::Value(Value::Vector(vector)) => with_vector(callee, is_only, vector, given),
        _ => Err(Cause::NotInteger),
    }
}

/// The arguments with the components of a vector behind them.
fn with_vector(
    callee: Callee,
    is_only: bool,
    vector: Vector,
    given: Arguments,
) -> Result<Arguments, Cause>
    ensures { IfOk result (λ all. with_vector callee is_only vector given ≡ Some all) }
{
    match callee {
        Callee::Vector(_, scalar) => with_components(argument_in(is_only, scalar, vector)?, given),
        Callee::Dot => Ok(given),
        Callee::Function(_) => Err(Cause::NotInteger),
    }
}

/// A vector that is an argument of a constructor: the only one is converted to the type of its components, if that is given.
fn argument_in(is_only: bool, scalar: Option<Scalar>, vector: Vector) -> Result<Vector, Cause>
    ensures { IfOk result (λ v. argument_in is_only scalar vector ≡ Some v) }
{
    match scalar {
        Some(scalar) if is_only => match Function::conversion(scalar) {
            Some(function) => Ok(vector.each(function)?),
            None => Err(Cause::NotInteger),
        },
        Some(_) => Ok(vector),
        None => Ok(vector),
    }
}

fn with(given: Arguments, constant: Constant) -> Result<Arguments, Cause>
    ensures { IfOk result (λ all. with_argument constant given ≡ Some all) }
{
    given.with(constant).ok_or(Cause::WrongArgumentCount)
}

fn with_components(vector: Vector, given: Arguments) -> Result<Arguments, Cause>
    ensures { IfOk result (λ all. with_components vector given ≡ Some all) }
{
    vector.behind(given).ok_or(Cause::WrongArgumentCount)
}

/// The function that takes bits as those of a scalar type.
fn bitcast(scalar: Option<Scalar>) -> Option<Callee>
    ensures { IfSome result (λ callee. then scalar (λ s. map_value Callee.Function (bitcast s)) ≡ Some callee) }
{
    Some(Callee::Function(Function::bitcast(scalar?)?))
}
