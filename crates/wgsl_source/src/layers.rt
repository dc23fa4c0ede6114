// Types around others: vectors, matrices, atomics, arrays and pointers.
ghost use Rattle.std.specs.Prelude.{◌≡◌, ℕ, IfOk, Some, slice_get};
ghost use Rattle.wgsl_source.specs.Measures.{IsArrayAmong};
ghost use Rattle.wgsl_source.specs.Members.{Grows};
ghost use Rattle.wgsl_source.specs.TemplateLists.{AreElements, HasScalar, IsAround, IsCount, IsCountOf, IsLayered, IsPointer};
ghost use Rattle.wgsl_source.specs.WrittenTypes.{IsResource, environment, meaning_of};

use crate::check::element_fault;
use crate::fault::{Cause, Stop};
use crate::item::Item;
use crate::measured::{Count, MeasuredType, TypeKind};
use crate::scope::Scope;
use crate::types::Types;
use crate::value::Value;
use wgsl_constants::call::integer;
use wgsl_spelling::predeclared::LayerName;

impl<'t> Scope<'t> {
    /// A type around another.
    pub fn layered(
        &self,
        types: &mut Types,
        name: Item,
        layer: LayerName,
        parameters: &[Item],
    ) -> Result<MeasuredType, Stop>
        ensures grows { Grows types.old types.new }
        ensures layered { IfOk result (IsLayered self.now.text (environment self.now types.new) layer parameters.now) }
    {
        match self.formed(types, name, layer, parameters)? {
            Ok(ty) => Ok(ty),
            Err(cause) => Err(name.stop(cause)),
        }
    }

    /// A type around another, or why there is none.
    fn formed(
        &self,
        types: &mut Types,
        name: Item,
        layer: LayerName,
        parameters: &[Item],
    ) -> Result<Result<MeasuredType, Cause>, Stop>
        ensures grows { Grows types.old types.new }
        ensures formed { IfOk result (λ r. IfOk r (IsLayered self.now.text (environment self.now types.new) layer parameters.now)) }
    {
        match layer {
            LayerName::Array => {
                let (element, count) = self.elements(types, name, parameters)?;
                array(types, element, count)
            }
            LayerName::BindingArray => {
                let (element, count) = self.elements(types, name, parameters)?;
                binding_array(types, element, count)
            }
            LayerName::Pointer => self.pointer(types, name, parameters),
            _ => self.around(types, layer, parameters),
        }
    }

    /// The type of the elements of an array, and how many there are.
    fn elements(
        &self,
        types: &mut Types,
        name: Item,
        parameters: &[Item],
    ) -> Result<(MeasuredType, Count), Stop>
        ensures grows { Grows types.old types.new }
        ensures said { IfOk result (λ r. AreElements self.now.text (meaning_of self.now) parameters.now r.0 r.1) }
    {
        match parameters {
            [of, rest @ ..] => {
                let element = self.type_of(types, *of)?;
                Ok((element, self.count(name, rest)?))
            }
            [] => Err(name.stop(Cause::WrongParameterCount)),
        }
    }

    /// A vector, a matrix or an atomic, or why there is none.
    fn around(
        &self,
        types: &mut Types,
        layer: LayerName,
        parameters: &[Item],
    ) -> Result<Result<MeasuredType, Cause>, Stop>
        ensures grows { Grows types.old types.new }
        ensures around { IfOk result (λ r. IfOk r (IsAround self.now.text (meaning_of self.now) layer parameters.now)) }
    {
        match parameters {
            [of] => {
                let inside = self.type_of(types, *of)?;
                Ok(scalars(layer, &inside))
            }
            _ => Ok(Err(Cause::WrongParameterCount)),
        }
    }

    /// A pointer. Its access mode may follow the type to which it points.
    fn pointer(
        &self,
        types: &mut Types,
        name: Item,
        parameters: &[Item],
    ) -> Result<Result<MeasuredType, Cause>, Stop>
        ensures grows { Grows types.old types.new }
        ensures pointer { IfOk result (λ r. IfOk r (IsPointer self.now.text (environment self.now types.new) parameters.now)) }
    {
        match parameters {
            [space, of, rest @ ..] => {
                let space = self.space(types, *space)?;
                let inside = self.type_of(types, *of)?;
                let access = self.memory_access(space, rest, name)?;
                let index = types.keep(inside)?;
                Ok(Ok(inside.around(TypeKind::Pointer(space, index, access), None, None)))
            }
            _ => Ok(Err(Cause::WrongParameterCount)),
        }
    }

    /// The number of elements behind their type, if there is one.
    fn count(&self, name: Item, rest: &[Item]) -> Result<Count, Stop>
        ensures { IfOk result (IsCount self.now.text (meaning_of self.now) rest.now) }
    {
        match rest {
            [] => Ok(Count::Runtime),
            [item] => match count_of(self.value_of(*item)?) {
                Ok(count) => Ok(count),
                Err(cause) => Err(item.stop(cause)),
            },
            _ => Err(name.stop(Cause::WrongParameterCount)),
        }
    }
}

/// An array of elements of this type, or why there is none.
fn array(
    types: &mut Types,
    element: MeasuredType,
    count: Count,
) -> Result<Result<MeasuredType, Cause>, Stop>
    ensures grows { Grows types.old types.new }
    ensures array { IfOk result (λ r. IfOk r (IsArrayAmong types.new.elements.items element count)) }
{
    if let Some(cause) = element_fault(&element) {
        return Ok(Err(cause));
    }
    let index = types.keep(element)?;
    let array = element.array(index, count);
    match (count, array.size) {
        (Count::Known(_), None) => Ok(Err(Cause::TooLarge)),
        _ => Ok(Ok(array)),
    }
}

fn binding_array(
    types: &mut Types,
    element: MeasuredType,
    count: Count,
) -> Result<Result<MeasuredType, Cause>, Stop>
    ensures grows { Grows types.old types.new }
    ensures array { IfOk result (λ r. IfOk r (λ ty. (index : ℕ) × IsResource (TypeKind.BindingArray index count) ty
        × (slice_get types.new.elements.items index ≡ Some element))) }
{
    let index = types.keep(element)?;
    Ok(Ok(element.around(TypeKind::BindingArray(index, count), None, None)))
}

/// A vector, a matrix or an atomic of a type, or why there is none.
fn scalars(layer: LayerName, inside: &MeasuredType) -> Result<MeasuredType, Cause>
    ensures { IfOk result (HasScalar layer inside.now) }
{
    match (layer, inside.as_scalar()) {
        (LayerName::Vec(n), Some(scalar)) => Ok(MeasuredType::vector(n, scalar)),
        (LayerName::Vec(_), None) => Err(Cause::VectorComponent),
        (LayerName::Mat(c, r), Some(scalar)) if scalar.is_float() => {
            Ok(MeasuredType::matrix(c, r, scalar))
        }
        (LayerName::Mat(_, _), _) => Err(Cause::MatrixComponent),
        (LayerName::Atomic, Some(scalar)) if scalar.is_integer() => {
            Ok(MeasuredType::atomic(scalar))
        }
        _ => Err(Cause::AtomicContent),
    }
}

/// The number of elements that a value gives, or why it gives none.
fn count_of(value: Value) -> Result<Count, Cause>
    ensures { IfOk result (IsCountOf value) }
{
    let number = match value {
        Value::Known(constant) => integer(constant)?.value(),
        Value::Vector(_) => return Err(Cause::NotInteger),
        Value::Later => return Ok(Count::Override),
    };
    match u32::try_from(number) {
        Ok(0) => Err(Cause::NoElements),
        Ok(number) => Ok(Count::Known(number)),
        Err(_) if number < 0 => Err(Cause::NoElements),
        Err(_) => Err(Cause::TooLarge),
    }
}
