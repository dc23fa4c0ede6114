// Arrays, and how many elements they have (WGSL, "Array Types").
ghost use Rattle.std.specs.Prelude.{[], ◌≡◌, ◌∷◌, ◌++◌, ◌≤◌, IfOk, None, Some, option_map, reverse, true};
ghost use Rattle.wgsl_constants.specs.Conversions.{number};
ghost use Rattle.wgsl_core.specs.View.{view};
ghost use Rattle.wgsl_standard.specs.forms.Index.{is_index};
ghost use Rattle.wgsl_typing.specs.Known.{typed_in};
ghost use Rattle.wgsl_rules.specs.types.Types.{array};
ghost use Rattle.wgsl_typing.specs.Counts.{IsCountOf, const_count, count_of, integer_in, is_counted_by_override};
ghost use Rattle.wgsl_typing.specs.Names.{context};
ghost use Rattle.wgsl_typing.specs.Parameters.{IsCount};
ghost use Rattle.wgsl_typing.specs.Stacks.{IsOperand, KeepsItems, stack};
ghost use Rattle.wgsl_typing.specs.Taken.{TakesIf};
ghost use Rattle.wgsl_typing.specs.Templates.{IsArrayListed, IsLimited, is_element, may_be_counted};

use crate::expressions::Expressions;
use crate::fault::{Place, Rule};
use crate::item::Item;
use crate::known::{Part, Typed};
use crate::list::OVERRIDE_COUNT;
use crate::parameter::name_of;
use crate::stage::Stage;
use crate::structs::size_and_align;
use crate::value::Value;
use std::alloc::{AllocError, Global};
use wgsl_constants::constant::Constant;
use wgsl_constants::integer::Integer;
use wgsl_core::ty::Type;
use wgsl_core::ty::form::Form;
use wgsl_standard::forms::variable::variable;
use wgsl_syntax::address::AddressSpace;
use wgsl_syntax::scalar::Scalar;

/// What is wrong with an array whose size is no `u32`.
const TOO_LARGE: &str = "has more than 4294967295 bytes";

impl<'t> Expressions<'t> {
    /// The array that a name with its list stands for; None if it has a fault, which is told.
    pub fn array(&mut self, named: usize, list: &mut Vec<Item>) -> Result<Option<Type>, AllocError>
        ensures answer { IfOk result (λ ty. IsArrayListed (context self.old) (reverse list.old.items) (option_map view ty)) }
        ensures stack { IfOk result (λ ty. KeepsItems (stack self.old) (stack self.new)) }
        ensures taken { IfOk result (λ ty. TakesIf true (context self.old) (reverse list.old.items) (reverse list.new.items)
            self.old.parts.items self.new.parts.items) }
    {
        if !self.has_length(named, list, 1, 2)? {
            return Ok(None);
        }
        let Some(of) = self.next_type(list)? else {
            return Ok(None);
        };
        if !is_element(&of) {
            let message = format!(in self.alloc; "`{of}` can't be the element of an array")?;
            self.fault(Rule::Template, Place::last_of(named), message)?;
            return Ok(None);
        }
        let Some(item) = list.pop() else {
            return self.array_of(named, None, of);
        };
        match self.count_in(named, item)? {
            Some(count) => self.array_of(named, Some(count), of),
            None => Ok(None),
        }
    }

    /// The array, if it isn't too large or too deep, which is told.
    fn array_of(
        &mut self,
        named: usize,
        count: Option<usize>,
        of: Type,
    ) -> Result<Option<Type>, AllocError>
        ensures answer { IfOk result (λ found. IsLimited (Some (array count (view of))) (option_map view found)) }
        ensures stack { stack self.new ≡ stack self.old }
    {
        let ty = Type::array(self.alloc, count, of)?;
        if is_too_large(&ty) {
            return self.nothing(Rule::Template, named, TOO_LARGE);
        }
        self.limited(named, ty)
    }

    /// The count that an item says: a const-expression, or an override.
    fn count_in(&mut self, named: usize, item: Item) -> Result<Option<usize>, AllocError>
        ensures answer { IfOk result (IsCount (context self.old) item) }
        ensures stack { IfOk result (λ count. KeepsItems (stack self.old) (stack self.new)) }
        ensures noted { IfOk result (λ count. (x : Part) × IsOperand (context self.old) (item ∷ []) x × (self.new.parts.items ≡ self.old.parts.items ++ x ∷ [])) }
    {
        let name = name_of(&item);
        let part = self.part_of_item(item)?;
        let count = self.count_of(named, name, &part)?;
        self.note(part)?;
        Ok(count)
    }

    fn count_of(
        &mut self,
        named: usize,
        name: Option<usize>,
        part: &Part,
    ) -> Result<Option<usize>, AllocError>
        ensures answer { IfOk result (IsCountOf (typed_in part.now.outcome)) }
        ensures stack { stack self.new ≡ stack self.old }
    {
        let Some(typed) = part.typed() else {
            self.has_value(part)?;
            return Ok(None);
        };
        if !is_count(&typed.ty) {
            return self.no_count(part.place);
        }
        match typed.stage {
            Stage::Const => self.const_count(named, part.place, typed),
            Stage::Override => Ok(Some(self.count_by_override(name, part.place)?)),
            Stage::Runtime => self.no_count(part.place),
        }
    }

    fn no_count(&mut self, place: Place) -> Result<Option<usize>, AllocError>
        ensures answer { IfOk result (λ count. count ≡ None) }
        ensures stack { stack self.new ≡ stack self.old }
    {
        let message = "a count is an integer that is known before the shader runs";
        self.tell(Rule::Template, place, message)?;
        Ok(None)
    }

    /// The count that a constant is, if an array may have that number of elements.
    fn const_count(
        &mut self,
        named: usize,
        place: Place,
        typed: &Typed,
    ) -> Result<Option<usize>, AllocError>
        ensures answer { IfOk result (λ count. count ≡ const_count (integer_in typed.now.value)) }
        ensures stack { stack self.new ≡ stack self.old }
    {
        let Some(integer) = integer_in(typed.value) else {
            return Ok(None);
        };
        let count = count_of(integer.value());
        if count.is_none() {
            if integer.value() > 0 {
                return self.nothing(Rule::Template, named, TOO_LARGE);
            }
            self.tell(Rule::Template, place, "a count must be positive")?;
        }
        Ok(count)
    }

    /// A message in which counts that overrides give are as they are written.
    pub fn as_written(&self, message: String) -> Result<String, AllocError> {
        if self.override_counts.is_empty() {
            return Ok(message);
        }
        with_counts(self.alloc, message.as_str(), &self.override_counts)
    }

    /// The count that stands for an override expression. Two names of one override are the same count.
    fn count_by_override(&mut self, name: Option<usize>, place: Place) -> Result<usize, AllocError>
        ensures answer { IfOk result (λ count. OVERRIDE_COUNT ≤ count) }
        ensures stack { stack self.new ≡ stack self.old }
    {
        let text = self.text_of(place);
        for (index, other) in self.override_counts.iter().enumerate() {
            if name.is_some() && is_same(text, other.as_str()) {
                return Ok(OVERRIDE_COUNT.saturating_add(index));
            }
        }
        let count = OVERRIDE_COUNT.saturating_add(self.override_counts.len());
        self.override_counts
            .push(String::from_str(self.alloc, text)?)?;
        Ok(count)
    }
}

/// The integer that a value is.
fn integer_in(value: Option<Value>) -> Option<Integer>
    ensures { result ≡ integer_in value }
{
    match value {
        Some(Value::One(Constant::Integer(integer))) => Some(integer),
        _ => None,
    }
}

/// The integer as a count: it is positive, and less than those that stand for overrides.
fn count_of(value: i64) -> Option<usize>
    ensures { result ≡ count_of value }
{
    match usize::try_from(value) {
        Ok(count) if 0 < count && count < OVERRIDE_COUNT => Some(count),
        _ => None,
    }
}

/// Whether a count may have the type.
fn is_count(ty: &Type) -> bool
    ensures { result ≡ is_index (view ty.now) }
{
    match ty.form() {
        Form::Scalar(scalar) => matches!(scalar, Scalar::AbstractInt | Scalar::I32 | Scalar::U32),
        _ => false,
    }
}

fn is_same(a: &str, b: &str) -> bool {
    a == b
}

/// A text with types, in which counts that overrides give are as they are written.
pub fn with_counts(alloc: Global, shown: &str, counts: &[String]) -> Result<String, AllocError> {
    let mut written = String::new(alloc);
    for (index, piece) in shown.split('>').enumerate() {
        if index > 0 {
            written.push('>')?;
        }
        match written_count(piece, counts) {
            Some((front, count)) => write!(written, "{front} {count}")?,
            None => written.push_str(piece)?,
        }
    }
    Ok(written)
}

/// What stands in front of a count that an override gives, and that count as it is written.
fn written_count<'w>(piece: &'w str, counts: &'w [String]) -> Option<(&'w str, &'w str)> {
    let (front, count) = piece.rsplit_once(' ')?;
    let index = count.parse::<usize>().ok()?.checked_sub(OVERRIDE_COUNT)?;
    Some((front, counts.get(index)?.as_str()))
}

/// Whether the type can be the type of an element or of a member that isn't the last: what a variable of `workgroup` holds.
pub fn is_element(ty: &Type) -> bool
    ensures { result ≡ is_element (view ty.now) }
{
    variable(AddressSpace::Workgroup, None, ty).is_ok() && !has_override_count(ty)
}

/// Whether a pointer to the address space may point to the type, by what overrides count in it.
pub fn may_be_counted(space: AddressSpace, ty: &Type) -> bool
    ensures { result ≡ may_be_counted space (view ty.now) }
{
    match space {
        AddressSpace::Workgroup => true,
        _ => !has_override_count(ty),
    }
}

/// Whether an array with a known count has more bytes than a type may have.
pub fn is_too_large(ty: &Type) -> bool {
    match ty.form() {
        Form::Array(Some(count), of) => {
            count < OVERRIDE_COUNT
                && size_and_align(of).0.is_some()
                && size_and_align(ty).0.is_none()
        }
        _ => false,
    }
}

/// Whether an override counts the elements of this array.
pub fn has_override_count(ty: &Type) -> bool
    ensures { result ≡ is_counted_by_override (view ty.now) }
{
    match ty.form() {
        Form::Array(Some(count), _) => count >= OVERRIDE_COUNT,
        _ => false,
    }
}
