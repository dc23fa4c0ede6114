// Members of structs, parameters and results of functions.
ghost use Rattle.std.specs.Prelude.{◌≡◌, IfOk, true};
ghost use Rattle.wgsl_module.specs.Meanings.{is_function_or_faulty, is_type_or_faulty};
ghost use Rattle.wgsl_module.specs.Noted.{DeclaresField, DeclaresResult};
ghost use Rattle.wgsl_module.specs.States.{Keeps, KeepsButStructs, state};

use crate::attribute::{Attributes, Name};
use crate::checker::{Checker, Interface};
use std::alloc::AllocError;
use std::collections::BTreeMap;
use wgsl_core::ty::form::Form;
use wgsl_core::ty::{StructMemberType, StructType, Type};
use wgsl_standard::forms::declare::is_const_type;
use wgsl_standard::forms::lists::are_parameters;
use wgsl_standard::forms::refusal::Refusal;
use wgsl_typing::count::{has_override_count, is_element};
use wgsl_typing::fault::{Place, Rule};
use wgsl_typing::known::{Known, Signature};
use wgsl_typing::list::DEPTH;
use wgsl_typing::structs::{Declared, short, size_and_align};

/// A member of a struct, a parameter or the result of a function.
#[derive(Drop)]
pub struct Field {
    /// How many tokens there are up to its name; of a result up to its type.
    pub named: usize,
    pub place: Place,
    /// Its type; None if that has a fault.
    pub ty: Option<Type>,
    pub attributes: Attributes,
}

impl<'t> Checker<'t> {
    /// `a: T` of a struct or of a function
    pub fn put_field(&mut self) -> Result<(), AllocError>
        ensures { IfOk result (λ u. DeclaresField (state self.old) (state self.new)) }
    {
        let (place, ty) = self.expressions.take_type()?;
        let named = self.expressions.take_name();
        let attributes = self.take_attributes();
        if let Some(interface) = &mut self.interface {
            interface.fields.push(Field {
                named,
                place,
                ty,
                attributes,
            })?;
        }
        Ok(())
    }

    /// `-> T`
    pub fn put_result(&mut self) -> Result<(), AllocError>
        ensures { IfOk result (λ u. DeclaresResult (state self.old) (state self.new)) }
    {
        let (place, ty) = self.expressions.take_type()?;
        let attributes = self.take_attributes();
        if let Some(interface) = &mut self.interface {
            interface.result = Some(Field {
                named: place.to,
                place,
                ty,
                attributes,
            });
        }
        Ok(())
    }

    /// The index of the field with a name; None if two have one name.
    fn names_of(&mut self, fields: &[Field]) -> Result<Option<BTreeMap<&'t str, usize>>, AllocError>
        ensures { Keeps (state self.old) (state self.new) }
    {
        let mut names = BTreeMap::new(self.expressions.alloc);
        let mut are_distinct = true;
        for (index, field) in fields.iter().enumerate() {
            if let Some(first) = names.insert(self.word(field.named), index)? {
                self.tell_name(Rule::Duplicate, field.named, "is declared twice")?;
                if let Some(first) = fields.get(first) {
                    self.expressions.refer(first.named)?;
                }
                are_distinct = false;
            }
        }
        Ok(if are_distinct { Some(names) } else { None })
    }

    /// What a struct with these members stands for.
    pub fn structure(&mut self, named: usize, fields: &[Field]) -> Result<Known, AllocError>
        ensures known { IfOk result (λ known. is_type_or_faulty known ≡ true) }
        ensures state { KeepsButStructs (state self.old) (state self.new) }
    {
        let names = self.names_of(fields)?;
        let mut members = Vec::new(self.expressions.alloc);
        for (index, field) in fields.iter().enumerate() {
            let is_last = index.saturating_add(1) == fields.len();
            if let Some(member) = self.member_of_struct(field, is_last)? {
                members.push(member)?;
            }
        }
        let are_fine = self.check_locations(fields)?
            && members.len() == fields.len()
            && self.check_sources(fields)?;
        match names {
            Some(names) if are_fine => {
                let name = String::from_str(self.expressions.alloc, self.word(named))?;
                self.declared_struct(named, StructType { name, members }, names)
            }
            _ => Ok(Known::Faulty),
        }
    }

    /// Whether no member has a `@blend_src`, or two of one type have one and no other member has a `@location`. Otherwise
    /// that is told.
    fn check_sources(&mut self, fields: &[Field]) -> Result<bool, AllocError>
        ensures { Keeps (state self.old) (state self.new) }
    {
        let Some((place, message)) = self.wrong_source(fields) else {
            return Ok(true);
        };
        self.tell(Rule::EntryPoint, place, message)?;
        Ok(false)
    }

    /// The member that can't stand beside one with a `@blend_src`, and why.
    fn wrong_source(&self, fields: &[Field]) -> Option<(Place, &'static str)> {
        let first = self.first_source(fields)?;
        let mut count: usize = 0;
        for field in fields {
            if self.has(field.attributes, Name::Location) {
                if let Some(message) = self.unlike(first, field) {
                    return Some((field.place, message));
                }
                count = count.saturating_add(1);
            }
        }
        match count {
            2 => None,
            _ => Some((
                first.place,
                "@blend_src(0) and @blend_src(1) stand in one struct",
            )),
        }
    }

    /// The first member with a `@blend_src`.
    fn first_source<'f>(&self, fields: &'f [Field]) -> Option<&'f Field> {
        for field in fields {
            if self.has(field.attributes, Name::BlendSrc) {
                return Some(field);
            }
        }
        None
    }

    /// Why a member with a `@location` can't stand beside the first one with a `@blend_src`.
    fn unlike(&self, first: &Field, field: &Field) -> Option<&'static str> {
        if !self.has(field.attributes, Name::BlendSrc) {
            return Some("this @location stands beside a @blend_src");
        }
        match (&first.ty, &field.ty) {
            (Some(a), Some(b)) if a != b => Some("members with @blend_src have one type"),
            _ => None,
        }
    }

    fn declared_struct(
        &mut self,
        named: usize,
        whole: StructType,
        members: BTreeMap<&'t str, usize>,
    ) -> Result<Known, AllocError>
        ensures known { IfOk result (λ known. is_type_or_faulty known ≡ true) }
        ensures state { KeepsButStructs (state self.old) (state self.new) }
    {
        let made = short(self.expressions.alloc, &whole)?;
        let (mut has_long_array, mut is_sized, mut depth) = (false, true, 0);
        for member in &whole.members {
            depth = self.expressions.structs.depth(&member.ty).max(depth);
            has_long_array = has_long_array || self.expressions.structs.has_long_array(&member.ty);
            is_sized = is_sized
                && (member.size.is_some() || size_and_align(&member.ty).0.is_some());
        }
        let has_size = match made.members.last() {
            Some(member) => member.size.is_some() || matches!(member.ty, Type::Array(_, _)),
            None => true,
        };
        let fault = if is_sized && !has_size {
            Some((Rule::Struct, "has more than 4294967295 bytes"))
        } else if depth >= DEPTH {
            Some((Rule::Limit, "has more than 255 types inside one another"))
        } else {
            None
        };
        if let Some((rule, message)) = fault {
            self.tell_name(rule, named, message)?;
            return Ok(Known::Faulty);
        }
        let declared = Declared {
            whole: Type::from_struct(self.expressions.alloc, whole)?,
            members,
            has_long_array,
            depth,
        };
        let name = self.word(named);
        self.expressions.structs.declare(name, declared)?;
        Ok(Known::Type(Type::from_struct(self.expressions.alloc, made)?))
    }

    /// A member; None where that is told.
    fn member_of_struct(
        &mut self,
        field: &Field,
        is_last: bool,
    ) -> Result<Option<StructMemberType>, AllocError>
        ensures { Keeps (state self.old) (state self.new) }
    {
        let Some(ty) = &field.ty else {
            return Ok(None);
        };
        let of = match ty.form() {
            Form::Array(None, of) if is_last => of,
            _ => ty,
        };
        if !is_element(of) {
            return self.no_field(Rule::Struct, field.place, ty, "can't be a member");
        }
        let size = self.bytes(field.attributes, Name::Size);
        let align = self.bytes(field.attributes, Name::Align);
        if !field.attributes.are_fine
            || !self.check_io(field, ty)?
            || !self.check_size(field.named, ty, size, align)?
        {
            return Ok(None);
        }
        Ok(Some(StructMemberType {
            name: String::from_str(self.expressions.alloc, self.word(field.named))?,
            ty: ty.clone(self.expressions.alloc)?,
            size,
            align,
        }))
    }

    /// Nothing, as a field can't have that type.
    fn no_field<T>(
        &mut self,
        rule: Rule,
        place: Place,
        ty: &Type,
        message: &str,
    ) -> Result<Option<T>, AllocError>
        ensures { Keeps (state self.old) (state self.new) }
    {
        let message = format!(in self.expressions.alloc; "`{ty}` {message}")?;
        self.expressions.fault(rule, place, message)?;
        Ok(None)
    }

    fn not_constructible<T>(&mut self, place: Place, ty: &Type) -> Result<Option<T>, AllocError>
        ensures { Keeps (state self.old) (state self.new) }
    {
        self.no_field(Rule::Type, place, ty, "is not constructible")
    }

    /// The number of `@size` or `@align`.
    fn bytes(&self, of: Attributes, name: Name) -> Option<u32> {
        u32::try_from(self.integer(of, name)?).ok()
    }

    /// `@size` and `@align` of a member.
    fn check_size(
        &mut self,
        named: usize,
        ty: &Type,
        size: Option<u32>,
        align: Option<u32>,
    ) -> Result<bool, AllocError>
        ensures { Keeps (state self.old) (state self.new) }
    {
        let (least, needed) = size_and_align(ty);
        let needed = needed.unwrap_or(1).max(1);
        let is_aligned = match align {
            Some(align) => align.is_power_of_two() && align.is_multiple_of(needed),
            None => true,
        };
        let is_large = match size {
            Some(size) => matches!(least, Some(least) if size >= least),
            None => true,
        };
        if is_aligned && is_large {
            return Ok(true);
        }
        let message = if is_aligned {
            "has a size below that of its type"
        } else {
            "has an alignment that is no power of two, or none of the type"
        };
        self.expressions.no(Rule::Attribute, named, message)
    }

    /// What a function with these parameters and this result stands for.
    pub fn signature(&mut self, named: usize, interface: &Interface) -> Result<Known, AllocError>
        ensures known { IfOk result (λ known. is_function_or_faulty known ≡ true) }
        ensures state { Keeps (state self.old) (state self.new) }
    {
        let attributes = interface.attributes;
        let result = match &interface.result {
            Some(field) => self.returned(field)?,
            None => None,
        };
        let mut signature = Signature {
            parameters: Vec::new(self.expressions.alloc),
            result,
            must_use: self.has(attributes, Name::MustUse),
            is_entry_point: self.has(attributes, Name::Vertex)
                || self.has(attributes, Name::Fragment)
                || self.has(attributes, Name::Compute),
        };
        match self.take_parameters(named, interface, &mut signature) {
            Ok(true) => Ok(Known::Function(signature)),
            Ok(false) => {
                drop(signature);
                Ok(Known::Faulty)
            }
            Err(error) => {
                drop(signature);
                Err(error)
            }
        }
    }

    /// Takes the parameters of a function. Returns whether neither they nor its result have a fault.
    fn take_parameters(
        &mut self,
        named: usize,
        interface: &Interface,
        signature: &mut Signature,
    ) -> Result<bool, AllocError>
        ensures { Keeps (state self.old) (state self.new) }
    {
        let has_names = self.names_of(&interface.fields)?.is_some();
        for field in &interface.fields {
            if let Some(ty) = self.parameter(field)? {
                signature.parameters.push(ty)?;
            }
        }
        let has_result = signature.result.is_some();
        if !has_result && interface.result.is_some() {
            return Ok(false);
        }
        if signature.must_use && !has_result {
            let message = "has no value that can be used";
            return self.expressions.no(Rule::Attribute, named, message);
        }
        let are_fine = has_names && interface.attributes.are_fine;
        Ok(are_fine && signature.parameters.len() == interface.fields.len())
    }

    fn parameter(&mut self, field: &Field) -> Result<Option<Type>, AllocError>
        ensures { Keeps (state self.old) (state self.new) }
    {
        let Some(ty) = &field.ty else {
            return Ok(None);
        };
        if has_override_count(ty) {
            return self.not_constructible(field.place, ty);
        }
        let types = [ty.clone(self.expressions.alloc)?];
        let refusal = match are_parameters(&types) {
            Err(refusal) => Some(refusal),
            Ok(()) => None,
        };
        if !self.expressions.allows(field.place, refusal)?
            || !self.expressions.is_short(field.named, ty)?
            || !field.attributes.are_fine
        {
            return Ok(None);
        }
        Ok(Some(ty.clone(self.expressions.alloc)?))
    }

    fn returned(&mut self, field: &Field) -> Result<Option<Type>, AllocError>
        ensures { Keeps (state self.old) (state self.new) }
    {
        match &field.ty {
            Some(ty) if !is_const_type(ty) || has_override_count(ty) => {
                self.not_constructible(field.place, ty)
            }
            Some(ty) if field.attributes.are_fine => Ok(Some(ty.clone(self.expressions.alloc)?)),
            _ => Ok(None),
        }
    }
}
