// Names with template lists (WGSL, "Template Lists", "Types").
ghost use Rattle.std.specs.Prelude.{◌≡◌, ◌∷◌, IfOk, Some, option_map, reverse};
ghost use Rattle.wgsl_constants.specs.Literals.{then};
ghost use Rattle.wgsl_core.specs.View.{view};
ghost use Rattle.wgsl_typing.specs.Names.{context, meaning_at, word_in};
ghost use Rattle.wgsl_typing.specs.Parameters.{space_listed};
ghost use Rattle.wgsl_typing.specs.Predeclared.{type_called};
ghost use Rattle.wgsl_typing.specs.Stacks.{KeepsItems, stack, with_items, with_parts};
ghost use Rattle.wgsl_typing.specs.Taken.{TakesFrom, TakesIf, below_list, called_by, called_on, expressions_in, in_list, is_array, is_open};
ghost use Rattle.wgsl_typing.specs.Templates.{IsAround, IsClosed, IsLimited, IsListed, IsPredeclaredListed, IsTypeListed, Template, atomic_of, is_component, is_float, is_integer, matrix_of, only_type, pointer_listed, pointer_of, template_of, vector_of};

use crate::count::may_be_counted;
use crate::expressions::Expressions;
use crate::fault::{Place, Rule};
use crate::item::{Item, Listed};
use crate::meant::Wanted;
use crate::name::{Meaning, predeclared_type};
use std::alloc::AllocError;
use wgsl_core::ty::Type;
use wgsl_core::ty::form::Form;
use wgsl_spelling::predeclared::{LayerName, PredeclaredType};
use wgsl_standard::callee::{Callee, overloads};
use wgsl_standard::forms::variable::variable;
use wgsl_syntax::address::{AccessMode, AddressSpace};
use wgsl_syntax::scalar::Scalar;

/// From this count on, a count stands for an override expression: no array in memory has that many elements.
pub const OVERRIDE_COUNT: usize = 0x8000_0000;

/// How many types may stand inside one another (WGSL, "Limits").
pub const DEPTH: usize = 255;

impl<'t> Expressions<'t> {
    /// `>` of a template list: the name in front of it stands for something with it, or it is the list of a variable.
    pub fn close_list(&mut self, count: usize) -> Result<(), AllocError>
        ensures { IfOk result (λ u. Template count (stack self.old) (stack self.new)) }
    {
        let mut list = self.take_list()?;
        let item = self.closed(count, &mut list)?;
        self.note_left(list)?;
        self.push(item)
    }

    /// Takes the items of the innermost list, the last first.
    pub fn take_list(&mut self) -> Result<Vec<Item>, AllocError>
        ensures list { IfOk result (λ list. list.items ≡ in_list (stack self.old).items) }
        ensures rest { IfOk result (λ list. stack self.new ≡ with_items (below_list (stack self.old).items) (stack self.old)) }
    {
        let mut list = Vec::new(self.alloc);
        for _ in 0..self.items.len() {
            match self.items.pop() {
                Some(item) => {
                    if is_open(&item) {
                        return Ok(list);
                    }
                    list.push(item)?;
                }
                None => return Ok(list),
            }
        }
        Ok(list)
    }

    /// What the name in front of a list stands for with it, whose first item stands last, or the list of a variable.
    fn closed(&mut self, count: usize, list: &mut Vec<Item>) -> Result<Item, AllocError>
        ensures item { IfOk result (λ item. IsClosed count (context self.old) (reverse list.old.items) (stack self.old).items (item ∷ (stack self.new).items)) }
        ensures context { IfOk result (λ item. context self.new ≡ context self.old) }
        ensures taken { IfOk result (λ item. TakesIf (is_array (called_on (context self.old) (stack self.old).items)) (context self.old) (reverse list.old.items)
            (reverse list.new.items) self.old.parts.items self.new.parts.items) }
    {
        let Some(Item::Name(named)) = self.items.last() else {
            return Ok(Item::Space(self.space_listed(count, list)?));
        };
        let named = *named;
        self.drop_top();
        let listed = self.listed(named, list)?;
        Ok(Item::Listed(Place::last_of(named).up_to(Place::last_of(count)), listed))
    }

    /// Notes the expressions that are left of a list, whose first item stands last.
    fn note_left(&mut self, list: Vec<Item>) -> Result<(), AllocError>
        ensures { IfOk result (λ u. stack self.new ≡ with_parts (expressions_in (reverse list.items)) (stack self.old)) }
    {
        let mut list = list;
        while let Some(item) = list.pop() {
            if let Item::Part(part) = item {
                self.note(part)?;
            }
        }
        Ok(())
    }

    /// What a name stands for with a list, whose first item stands last.
    fn listed(&mut self, named: usize, list: &mut Vec<Item>) -> Result<Listed, AllocError>
        ensures answer { IfOk result (IsListed (context self.old) named (reverse list.old.items)) }
        ensures stack { IfOk result (λ l. KeepsItems (stack self.old) (stack self.new)) }
        ensures taken { IfOk result (λ l. TakesIf (is_array (called_by (context self.old) named (meaning_at (context self.old) named))) (context self.old) (reverse list.old.items)
            (reverse list.new.items) self.old.parts.items self.new.parts.items) }
    {
        match self.meaning(named) {
            Meaning::Undeclared => self.predeclared_listed(named, list),
            Meaning::Unread(_) => {
                self.cyclic(named)?;
                Ok(Listed::Type(None))
            }
            Meaning::Local(_) | Meaning::Declared(_) => {
                self.tell_name(Rule::Name, named, "takes no template list")?;
                Ok(Listed::Type(None))
            }
        }
    }

    fn predeclared_listed(
        &mut self,
        named: usize,
        list: &mut Vec<Item>,
    ) -> Result<Listed, AllocError>
        ensures answer { IfOk result (IsPredeclaredListed (context self.old) named
            (type_called (word_in (context self.old) named)) (reverse list.old.items)) }
        ensures stack { IfOk result (λ l. KeepsItems (stack self.old) (stack self.new)) }
        ensures taken { IfOk result (λ l. TakesIf (is_array (type_called (word_in (context self.old) named))) (context self.old) (reverse list.old.items)
            (reverse list.new.items) self.old.parts.items self.new.parts.items) }
    {
        match predeclared_type(self.word(named)) {
            Some(predeclared) => Ok(Listed::Type(self.with_list(named, predeclared, list)?)),
            None => Ok(Listed::Function(named, self.template(named, list)?)),
        }
    }

    fn with_list(
        &mut self,
        named: usize,
        predeclared: PredeclaredType,
        list: &mut Vec<Item>,
    ) -> Result<Option<Type>, AllocError>
        ensures answer { IfOk result (λ ty. IsTypeListed (context self.old) predeclared (reverse list.old.items) (option_map view ty)) }
        ensures stack { IfOk result (λ l. KeepsItems (stack self.old) (stack self.new)) }
        ensures taken { IfOk result (λ ty. TakesIf (is_array (Some predeclared)) (context self.old) (reverse list.old.items)
            (reverse list.new.items) self.old.parts.items self.new.parts.items) }
    {
        match predeclared {
            PredeclaredType::Layer(layer) => self.around_type(named, layer, list),
            PredeclaredType::Texture(texture) => self.texture(named, texture, list),
            _ => self.nothing(Rule::Name, named, "takes no template list"),
        }
    }

    /// The type in the list of a function: `bitcast<f32>`
    fn template(&mut self, named: usize, list: &mut Vec<Item>) -> Result<Option<Type>, AllocError>
        ensures answer { IfOk result (λ ty. option_map view ty
            ≡ template_of (context self.old) (word_in (context self.old) named) (reverse list.old.items)) }
        ensures stack { IfOk result (λ l. KeepsItems (stack self.old) (stack self.new)) }
        ensures taken { IfOk result (λ ty. TakesFrom (reverse list.old.items) (reverse list.new.items) self.old.parts.items self.new.parts.items) }
    {
        let name = self.word(named);
        if overloads(Callee::Function(name), true).is_some() {
            return self.only_type(named, list);
        }
        if overloads(Callee::Function(name), false).is_some() {
            self.tell_name(Rule::Name, named, "takes no template list")?;
        } else {
            self.tell_unknown(Wanted::Listed, named)?;
        }
        Ok(None)
    }

    /// `<storage, read_write>` of a variable, whose list ends behind that many tokens
    fn space_listed(
        &mut self,
        count: usize,
        list: &mut Vec<Item>,
    ) -> Result<Option<(AddressSpace, Option<AccessMode>)>, AllocError>
        ensures answer { IfOk result (λ space. space ≡ space_listed (context self.old) (reverse list.old.items)) }
        ensures stack { stack self.new ≡ stack self.old }
        ensures kept { IfOk result (λ space. expressions_in (reverse list.new.items) ≡ expressions_in (reverse list.old.items)) }
    {
        let Some(space) = self.next_space(list)? else {
            return Ok(None);
        };
        match self.last_access(count, list)? {
            Some(access) => Ok(Some((space, access))),
            None => Ok(None),
        }
    }

    /// The type, if it isn't too deep, which is told.
    pub fn limited(&mut self, named: usize, ty: Type) -> Result<Option<Type>, AllocError>
        ensures answer { IfOk result (λ found. IsLimited (Some (view ty)) (option_map view found)) }
        ensures stack { stack self.new ≡ stack self.old }
    {
        if self.structs.depth(&ty) > DEPTH {
            return self.nothing(
                Rule::Limit,
                named,
                "has more than 255 types inside one another",
            );
        }
        Ok(Some(ty))
    }

    fn around_type(
        &mut self,
        named: usize,
        layer: LayerName,
        list: &mut Vec<Item>,
    ) -> Result<Option<Type>, AllocError>
        ensures answer { IfOk result (λ ty. IsAround (context self.old) layer (reverse list.old.items) (option_map view ty)) }
        ensures stack { IfOk result (λ ty. KeepsItems (stack self.old) (stack self.new)) }
        ensures taken { IfOk result (λ ty. TakesIf (is_array (Some (PredeclaredType.Layer layer))) (context self.old) (reverse list.old.items)
            (reverse list.new.items) self.old.parts.items self.new.parts.items) }
    {
        match layer {
            LayerName::Vec(n) => self.vector(named, n, list),
            LayerName::Mat(c, r) => self.matrix(named, c, r, list),
            LayerName::Atomic => self.atomic(named, list),
            LayerName::Array => self.array(named, list),
            LayerName::Pointer => self.pointer(named, list),
            LayerName::BindingArray | LayerName::Reference => Ok(None),
        }
    }

    fn vector(
        &mut self,
        named: usize,
        n: u8,
        list: &mut Vec<Item>,
    ) -> Result<Option<Type>, AllocError>
        ensures answer { IfOk result (λ ty. option_map view ty ≡ then (only_type (context self.old) (reverse list.old.items)) (vector_of n)) }
        ensures stack { IfOk result (λ ty. KeepsItems (stack self.old) (stack self.new)) }
        ensures taken { IfOk result (λ ty. TakesFrom (reverse list.old.items) (reverse list.new.items) self.old.parts.items self.new.parts.items) }
    {
        let Some(of) = self.only_type(named, list)? else {
            return Ok(None);
        };
        if !is_component(&of) {
            return self.nothing(Rule::Overload, named, "takes a concrete scalar");
        }
        Ok(Some(Type::vector(self.alloc, n, of)?))
    }

    fn matrix(
        &mut self,
        named: usize,
        c: u8,
        r: u8,
        list: &mut Vec<Item>,
    ) -> Result<Option<Type>, AllocError>
        ensures answer { IfOk result (λ ty. option_map view ty ≡ then (only_type (context self.old) (reverse list.old.items)) (matrix_of c r)) }
        ensures stack { IfOk result (λ ty. KeepsItems (stack self.old) (stack self.new)) }
        ensures taken { IfOk result (λ ty. TakesFrom (reverse list.old.items) (reverse list.new.items) self.old.parts.items self.new.parts.items) }
    {
        let Some(of) = self.only_type(named, list)? else {
            return Ok(None);
        };
        if !is_float(&of) {
            return self.nothing(Rule::Overload, named, "takes `f32` or `f16`");
        }
        Ok(Some(Type::matrix(self.alloc, c, r, of)?))
    }

    fn atomic(&mut self, named: usize, list: &mut Vec<Item>) -> Result<Option<Type>, AllocError>
        ensures answer { IfOk result (λ ty. option_map view ty ≡ then (only_type (context self.old) (reverse list.old.items)) atomic_of) }
        ensures stack { IfOk result (λ ty. KeepsItems (stack self.old) (stack self.new)) }
        ensures taken { IfOk result (λ ty. TakesFrom (reverse list.old.items) (reverse list.new.items) self.old.parts.items self.new.parts.items) }
    {
        let Some(of) = self.only_type(named, list)? else {
            return Ok(None);
        };
        if !is_integer(&of) {
            return self.nothing(Rule::Template, named, "takes `i32` or `u32`");
        }
        Ok(Some(Type::Atomic(Box::new(self.alloc, of)?)))
    }

    fn pointer(&mut self, named: usize, list: &mut Vec<Item>) -> Result<Option<Type>, AllocError>
        ensures answer { IfOk result (λ ty. IsLimited (pointer_listed (context self.old) (reverse list.old.items)) (option_map view ty)) }
        ensures stack { IfOk result (λ ty. KeepsItems (stack self.old) (stack self.new)) }
        ensures taken { IfOk result (λ ty. TakesFrom (reverse list.old.items) (reverse list.new.items) self.old.parts.items self.new.parts.items) }
    {
        if !self.has_length(named, list, 2, 3)? {
            return Ok(None);
        }
        let Some(space) = self.next_space(list)? else {
            return Ok(None);
        };
        let of = self.next_type(list)?;
        let Some(access) = self.last_access(named, list)? else {
            return Ok(None);
        };
        match of {
            Some(of) => self.pointer_to(named, space, access, of),
            None => Ok(None),
        }
    }

    fn pointer_to(
        &mut self,
        named: usize,
        space: AddressSpace,
        access: Option<AccessMode>,
        of: Type,
    ) -> Result<Option<Type>, AllocError>
        ensures answer { IfOk result (λ ty. IsLimited (pointer_of space access (view of)) (option_map view ty)) }
        ensures stack { stack self.new ≡ stack self.old }
    {
        if access.is_some() && space != AddressSpace::Storage {
            return self.nothing(
                Rule::Template,
                named,
                "takes an access mode only in `storage`",
            );
        }
        // There is a pointer if there is a variable.
        if !self.allows(Place::last_of(named), variable(space, access, &of).err())? {
            return Ok(None);
        }
        if !may_be_counted(space, &of) {
            let message = "points to an array with a count that only `workgroup` may have";
            return self.nothing(Rule::Template, named, message);
        }
        let access = access.unwrap_or(space.default_access_mode());
        let ty = Type::Ptr(space, Box::new(self.alloc, of)?, access);
        self.limited(named, ty)
    }
}

/// Whether a template list begins with it.
fn is_open(item: &Item) -> bool
    ensures { result ≡ is_open item.now }
{
    matches!(item, Item::OpenList)
}

/// Whether a vector may have components of the type.
fn is_component(ty: &Type) -> bool
    ensures { result ≡ is_component (view ty.now) }
{
    match ty.form() {
        Form::Scalar(scalar) => matches!(
            scalar,
            Scalar::Bool | Scalar::I32 | Scalar::U32 | Scalar::F32 | Scalar::F16
        ),
        _ => false,
    }
}

/// Whether a matrix may have components of the type.
fn is_float(ty: &Type) -> bool
    ensures { result ≡ is_float (view ty.now) }
{
    match ty.form() {
        Form::Scalar(scalar) => matches!(scalar, Scalar::F32 | Scalar::F16),
        _ => false,
    }
}

/// Whether an atomic may hold the type.
fn is_integer(ty: &Type) -> bool
    ensures { result ≡ is_integer (view ty.now) }
{
    match ty.form() {
        Form::Scalar(scalar) => matches!(scalar, Scalar::I32 | Scalar::U32),
        _ => false,
    }
}
