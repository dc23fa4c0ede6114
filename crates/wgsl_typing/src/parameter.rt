// The parameters of template lists, from the front of a list, whose first item stands last (WGSL, "Template Lists").
ghost use Rattle.std.specs.Prelude.{◌≡◌, [], ◌∷◌, ◌++◌, ◌&&◌, IfOk, IfSome, None, length, nat_le, option_map, reverse};
ghost use Rattle.wgsl_core.specs.View.{view};
ghost use Rattle.wgsl_typing.specs.Names.{context, word_in};
ghost use Rattle.wgsl_typing.specs.Parameters.{access_called, access_listed, access_of, enumerant, of_first, space_called, space_of};
ghost use Rattle.wgsl_typing.specs.Stacks.{IsOperand, KeepsItems, below, stack, with_parts};
ghost use Rattle.wgsl_typing.specs.Taken.{TakesFrom, expressions_in};
ghost use Rattle.wgsl_typing.specs.Templates.{only_type};
ghost use Rattle.wgsl_typing.specs.Types.{no_type_on, type_of_item};

use crate::expressions::Expressions;
use crate::fault::{Place, Rule};
use crate::item::Item;
use crate::known::{Outcome, Part};
use crate::name::Meaning;
use std::alloc::AllocError;
use wgsl_core::ty::Type;
use wgsl_spelling::meant::{ACCESS_MODES, SPACES};
use wgsl_spelling::name::space_named;
use wgsl_syntax::address::{AccessMode, AddressSpace, access_named};

impl<'t> Expressions<'t> {
    /// The operand that an item is.
    pub fn part_of_item(&mut self, item: Item) -> Result<Part, AllocError>
        ensures operand { IfOk result (IsOperand (context self.old) (item ∷ [])) }
        ensures stack { stack self.new ≡ stack self.old }
    {
        match item {
            Item::Part(part) => Ok(part),
            Item::Name(count) => self.value_named(count),
            Item::Listed(place, listed) => self.no_value(place, listed),
            _ => Ok(Part::of(Place::last_of(0), Outcome::Faulty)),
        }
    }

    /// The type that an item is; None if it has a fault.
    pub fn type_of_item(&mut self, item: Item) -> Result<Option<Type>, AllocError>
        ensures answer { IfOk result (λ ty. option_map view ty ≡ type_of_item (context self.old) item) }
        ensures stack { IfOk result (λ ty. stack self.new ≡ with_parts (no_type_on (item ∷ [])) (stack self.old)) }
    {
        match item {
            Item::Name(count) => self.type_named(count),
            Item::Listed(place, listed) => self.type_listed(place, listed),
            Item::Part(part) => self.no_type(part),
            _ => Ok(None),
        }
    }

    /// An expression in place of a type.
    pub fn no_type(&mut self, part: Part) -> Result<Option<Type>, AllocError>
        ensures answer { IfOk result (λ ty. ty ≡ None) }
        ensures stack { IfOk result (λ ty. stack self.new ≡ with_parts (part ∷ []) (stack self.old)) }
    {
        if !matches!(part.outcome, Outcome::Faulty) {
            self.tell(Rule::Name, part.place, "this is no type")?;
        }
        self.note(part)?;
        Ok(None)
    }

    /// Whether the list has a number of parameters that the name takes.
    pub fn has_length(
        &mut self,
        named: usize,
        list: &[Item],
        least: usize,
        most: usize,
    ) -> Result<bool, AllocError>
        ensures answer { IfOk result (λ is. is ≡ (nat_le least (length list.now) && nat_le (length list.now) most)) }
        ensures stack { stack self.new ≡ stack self.old }
    {
        let count = list.len();
        if least <= count && count <= most {
            return Ok(true);
        }
        self.no(
            Rule::Template,
            named,
            "takes another number of template parameters",
        )
    }

    /// The type that is the only parameter of a list; None if it has a fault, or the list has another number of parameters.
    pub fn only_type(
        &mut self,
        named: usize,
        list: &mut Vec<Item>,
    ) -> Result<Option<Type>, AllocError>
        ensures answer { IfOk result (λ ty. option_map view ty ≡ only_type (context self.old) (reverse list.old.items)) }
        ensures stack { IfOk result (λ ty. KeepsItems (stack self.old) (stack self.new)) }
        ensures taken { IfOk result (λ ty. TakesFrom (reverse list.old.items) (reverse list.new.items) self.old.parts.items self.new.parts.items) }
    {
        match self.has_length(named, list, 1, 1)? {
            true => self.next_type(list),
            false => Ok(None),
        }
    }

    /// The type that the next item of a list is.
    pub fn next_type(&mut self, list: &mut Vec<Item>) -> Result<Option<Type>, AllocError>
        ensures answer { IfOk result (λ ty. option_map view ty ≡ of_first (type_of_item (context self.old)) (reverse list.old.items)) }
        ensures list { reverse list.new.items ≡ below (reverse list.old.items) }
        ensures stack { IfOk result (λ ty. KeepsItems (stack self.old) (stack self.new)) }
        ensures parts { IfOk result (λ ty. self.new.parts.items ≡ self.old.parts.items ++ no_type_on (reverse list.old.items)) }
        ensures taken { IfOk result (λ ty. TakesFrom (reverse list.old.items) (reverse list.new.items) self.old.parts.items self.new.parts.items) }
    {
        match list.pop() {
            Some(item) => self.type_of_item(item),
            None => Ok(None),
        }
    }

    /// The name of an enumerant. What the module or the function declares is none, and stays in the list.
    pub fn next_enumerant(&mut self, list: &mut Vec<Item>) -> Result<Option<usize>, AllocError>
        ensures answer { IfOk result (λ found. option_map (word_in (context self.old)) found ≡ of_first (enumerant (context self.old)) (reverse list.old.items)) }
        ensures list { IfOk result (λ found. IfSome found (λ count. reverse list.new.items ≡ below (reverse list.old.items))) }
        ensures stack { stack self.new ≡ stack self.old }
        ensures kept { IfOk result (λ found. expressions_in (reverse list.new.items) ≡ expressions_in (reverse list.old.items)) }
    {
        let Some(item) = list.last() else {
            return Ok(None);
        };
        if let Item::Name(count) = item {
            let count = *count;
            if matches!(self.meaning(count), Meaning::Undeclared) {
                drop_last(list);
                return Ok(Some(count));
            }
        }
        self.tell(Rule::Template, place_of(item), "expected an enumerant")?;
        Ok(None)
    }

    /// Takes the address space at the front of a list; None if none is there, which is told.
    pub fn next_space(&mut self, list: &mut Vec<Item>) -> Result<Option<AddressSpace>, AllocError>
        ensures answer { IfOk result (λ space. space ≡ of_first (space_of (context self.old)) (reverse list.old.items)) }
        ensures list { IfOk result (λ space. IfSome space (λ s. reverse list.new.items ≡ below (reverse list.old.items))) }
        ensures stack { stack self.new ≡ stack self.old }
        ensures kept { IfOk result (λ space. expressions_in (reverse list.new.items) ≡ expressions_in (reverse list.old.items)) }
    {
        let Some(count) = self.next_enumerant(list)? else {
            return Ok(None);
        };
        let space = space_called(self.word(count));
        if space.is_none() {
            self.tell_among(Rule::Template, count, "is no address space", SPACES)?;
        }
        Ok(space)
    }

    /// Takes the access mode at the front of a list; None if none is there, which is told.
    pub fn next_access(&mut self, list: &mut Vec<Item>) -> Result<Option<AccessMode>, AllocError>
        ensures answer { IfOk result (λ access. access ≡ of_first (access_of (context self.old)) (reverse list.old.items)) }
        ensures stack { stack self.new ≡ stack self.old }
        ensures kept { IfOk result (λ access. expressions_in (reverse list.new.items) ≡ expressions_in (reverse list.old.items)) }
    {
        let Some(count) = self.next_enumerant(list)? else {
            return Ok(None);
        };
        let access = access_called(self.word(count));
        if access.is_none() {
            self.tell_among(Rule::Template, count, "is no access mode", ACCESS_MODES)?;
        }
        Ok(access)
    }

    /// Takes the access mode at the end of a list, if there is one; None if something else is there, which is told.
    pub fn last_access(
        &mut self,
        count: usize,
        list: &mut Vec<Item>,
    ) -> Result<Option<Option<AccessMode>>, AllocError>
        ensures answer { IfOk result (λ access. access ≡ access_listed (context self.old) (reverse list.old.items)) }
        ensures stack { stack self.new ≡ stack self.old }
        ensures kept { IfOk result (λ access. expressions_in (reverse list.new.items) ≡ expressions_in (reverse list.old.items)) }
    {
        match list.len() {
            0 => Ok(Some(None)),
            1 => match self.next_access(list)? {
                Some(access) => Ok(Some(Some(access))),
                None => Ok(None),
            },
            _ => {
                let message = "a variable has a space and an access mode";
                self.tell(Rule::Template, Place::last_of(count), message)?;
                Ok(None)
            }
        }
    }
}

/// The address space with that name.
fn space_called(name: &str) -> Option<AddressSpace>
    ensures { result ≡ space_called name.now }
{
    match space_named(name)? {
        AddressSpace::Handle => None,
        space => Some(space),
    }
}

/// The access mode with that name.
fn access_called(name: &str) -> Option<AccessMode>
    ensures { result ≡ access_called name.now }
{
    match access_named(name)? {
        AccessMode::Atomic => None,
        access => Some(access),
    }
}

/// The name that an item is, by the number of tokens up to it.
pub fn name_of(item: &Item) -> Option<usize> {
    match item {
        Item::Name(count) => Some(*count),
        _ => None,
    }
}

/// The tokens of an item of a list.
fn place_of(item: &Item) -> Place {
    match item {
        Item::Part(part) => part.place,
        Item::Listed(place, _) => *place,
        Item::Name(count) => Place::last_of(*count),
        _ => Place::last_of(0),
    }
}

/// Lets go of the next item of a list.
fn drop_last(list: &mut Vec<Item>)
    ensures { reverse list.new.items ≡ below (reverse list.old.items) }
{
    list.pop();
}
