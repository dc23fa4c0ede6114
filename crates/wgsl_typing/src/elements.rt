// Values of the elements of arrays, of the members of structs and of the components of vectors (WGSL, "Composite Value
// Decomposition Expressions").
ghost use Rattle.std.specs.Prelude.{◌≡◌, IfOk, map, true};
ghost use Rattle.wgsl_constants.specs.Literals.{then};
ghost use Rattle.wgsl_core.specs.View.{view};
ghost use Rattle.wgsl_typing.specs.Elements.{KeptIf, components, element_at, element_of, kept_at, member_in, one, value_in};
ghost use Rattle.wgsl_typing.specs.Values.{in_type};
ghost use Rattle.wgsl_typing.specs.Stacks.{stack};
ghost use Rattle.wgsl_typing.specs.Stages.{is_const};

use crate::expressions::Expressions;
use crate::known::{Part, Typed};
use crate::stage::Stage;
use crate::value::{OutOfRange, Value};
use std::alloc::{AllocError, Global};
use wgsl_constants::constant::Constant;
use wgsl_constants::integer::Integer;
use wgsl_constants::vector::Vector;
use wgsl_core::ty::Type;
use wgsl_core::ty::form::Form;

impl<'t> Expressions<'t> {
    /// The value of an array or a struct of these elements or members; None if they are known later.
    pub fn keep(&mut self, stage: Stage, parts: &[Part]) -> Result<Option<Value>, AllocError>
        ensures kept { IfOk result (KeptIf (is_const stage) parts.now self.old.elements.items self.new.elements.items) }
        ensures stack { stack self.new ≡ stack self.old }
    {
        match stage.is_const() {
            true => self.keep_all(parts),
            false => Ok(None),
        }
    }

    /// The value of an array or a struct of these elements or members, which are constants.
    fn keep_all(&mut self, parts: &[Part]) -> Result<Option<Value>, AllocError>
        ensures kept { IfOk result (KeptIf true parts.now self.old.elements.items self.new.elements.items) }
        ensures stack { stack self.new ≡ stack self.old }
    {
        let values = values_of(self.alloc, parts)?;
        let which = self.elements.len();
        self.elements.push(values)?;
        Ok(Some(Value::Elements(which)))
    }

    /// A value that is kept, if it is computed.
    fn kept(&self, which: usize, index: usize) -> Option<Value>
        ensures { result ≡ kept_at self.now.elements.items which index }
    {
        *self.elements.get(which)?.get(index)?
    }

    /// The value of an element, in this type.
    pub fn value_of_element(&self, value: Option<Value>, index: i64, ty: &Type) -> Option<Value>
        ensures { result ≡ then (element_at self.now.elements.items value index) (in_type (view ty.now)) }
    {
        self.element_of(value?, index)?.in_type(ty)
    }

    fn element_of(&self, value: Value, index: i64) -> Option<Value>
        ensures { result ≡ element_of self.now.elements.items value index }
    {
        match value {
            Value::One(_) => None,
            Value::Several(vector) => Some(one(vector.element(index)?)),
            Value::Elements(which) => self.kept(which, usize::try_from(index).ok()?),
        }
    }

    /// The value of the member with this name, in this type.
    pub fn value_of_member(&self, x: &Typed, name: &str, ty: &Type) -> Option<Value>
        ensures { result ≡ then (member_in self.now.structs self.now.elements.items name.now x.now) (in_type (view ty.now)) }
    {
        let found = match x.value? {
            Value::One(_) => None,
            Value::Several(vector) => components(name, vector),
            Value::Elements(which) => {
                let index = self.structs.declared(&x.ty)?.members.get(name)?;
                self.kept(which, *index)
            }
        };
        found?.in_type(ty)
    }

    /// The value in a type to which its own converts: `Ok(None)` if it isn't computed there. An array converts with its elements.
    pub fn converted(&self, value: Value, ty: &Type) -> Result<Option<Value>, OutOfRange> {
        match is_held(&self.elements, value, ty) {
            true => value.converted(ty),
            false => Err(OutOfRange),
        }
    }
}

/// Whether a type holds a value; an array with all its elements that are computed.
fn is_held(elements: &[Vec<Option<Value>>], value: Value, ty: &Type) -> bool {
    let Value::Elements(which) = value else {
        return value.converted(ty).is_ok();
    };
    let (Some(values), Form::Array(_, of)) = (elements.get(which), ty.form()) else {
        return true;
    };
    for value in values {
        if let Some(value) = value {
            if !is_held(elements, *value, of) {
                return false;
            }
        }
    }
    true
}

/// The value of each expression; None if it isn't computed.
fn values_of(alloc: Global, parts: &[Part]) -> Result<Vec<Option<Value>>, AllocError>
    ensures { IfOk result (λ values. values.items ≡ map value_in parts.now) }
{
    let mut values = Vec::with_capacity(alloc, parts.len())?;
    for part in parts {
        values.push(part.value())?;
    }
    Ok(values)
}

fn one(integer: Integer) -> Value
    ensures { result ≡ one integer }
{
    Value::One(Constant::Integer(integer))
}

/// The components of a vector with these letters.
fn components(letters: &str, vector: Vector) -> Option<Value>
    ensures { result ≡ components letters.now vector }
{
    match vector.member(letters) {
        Some(integer) => Some(one(integer)),
        None => Some(Value::Several(vector.swizzle(letters)?)),
    }
}
