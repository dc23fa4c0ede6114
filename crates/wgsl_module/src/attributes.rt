// Attributes where they stand, and what their arguments say (WGSL, "Attributes"). Only tested.
ghost use Rattle.std.specs.Prelude.{[], ◌≡◌, IfOk, reverse};
ghost use Rattle.wgsl_module.specs.Arguments.{AreArguments, IsArgument, is_const, takes_names, word_of};
ghost use Rattle.wgsl_module.specs.Noted.{AttributeIf, HasArguments, OpensAttribute};
ghost use Rattle.wgsl_module.specs.States.{Keeps, source, state};
ghost use Rattle.wgsl_typing.specs.Words.{kind_at};

use crate::attribute::{Attribute, Attributes, Name, Owner, attribute_named};
use crate::checker::Checker;
use std::alloc::AllocError;
use wgsl_core::ty::Type;
use wgsl_reader::kind::Kind;
use wgsl_source::fault::{Cause, Expected};
use wgsl_source::meant::is_severity;
use wgsl_typing::fault::Rule;
use wgsl_typing::item::Item;
use wgsl_typing::known::Part;
use wgsl_typing::meant::nearest_of;

/// The names that `@interpolate` takes: first how, then where a value is sampled.
static INTERPOLATIONS: [&str; 2] = [
    "perspective linear flat",
    "center centroid sample first either",
];

/// What stands in the brackets of an attribute.
#[derive(Drop)]
struct Arguments {
    parts: Vec<Part>,
    /// Names that stand for no value, by the number of tokens up to each.
    names: Vec<usize>,
    is_empty_list: bool,
}

impl<'t> Checker<'t> {
    /// The attribute of a name among those of something.
    pub fn attribute(&self, of: Attributes, name: Name) -> Option<Attribute> {
        for attribute in self.attributes.get(of.from..of.to).unwrap_or(&[]) {
            if attribute.name == name {
                return Some(*attribute);
            }
        }
        None
    }

    pub fn has(&self, of: Attributes, name: Name) -> bool {
        self.attribute(of, name).is_some()
    }

    /// The integer in the brackets of an attribute, if its value is computed.
    pub fn integer(&self, of: Attributes, name: Name) -> Option<i64> {
        self.attribute(of, name)?.integer
    }

    /// The name in the brackets of an attribute, by the number of tokens up to it.
    pub fn name_in(&self, of: Attributes, name: Name) -> Option<usize> {
        self.attribute(of, name)?.word
    }

    /// Whether this name stands in the brackets of an attribute.
    pub fn says(&self, of: Attributes, name: Name, word: &str) -> bool {
        match self.name_in(of, name) {
            Some(count) => self.word(count) == word,
            None => false,
        }
    }

    /// The attributes that were read since the last ones were taken.
    pub fn take_attributes(&mut self) -> Attributes
        ensures { state self.new ≡ state self.old }
    {
        let taken = self.pending;
        self.pending = Attributes::none(taken.to);
        taken
    }

    /// `@name`: its arguments are a list.
    pub fn open_attribute(&mut self, count: usize) -> Result<(), AllocError>
        ensures { IfOk result (λ u. OpensAttribute count (state self.old) (state self.new)) }
    {
        self.expressions.push(Item::Name(count))?;
        self.expressions.push(Item::OpenList)
    }

    /// The severity of `diagnostic(off, a)`, which is an attribute behind `@`.
    pub fn put_severity(&mut self, count: usize) -> Result<(), AllocError>
        ensures { Keeps (state self.old) (state self.new) }
    {
        let named = count.saturating_sub(2);
        let is_attribute = self.expressions.token_before(named.saturating_sub(1)).kind == Kind::At;
        if is_attribute && !matches!(self.owner, Owner::Function | Owner::Statement) {
            self.refuse_attribute(named, "can't stand here")?;
        }
        if !is_severity(self.word(count)) {
            self.tell_name(Rule::Syntax, count, "is no severity")?;
            self.suggest(count, Cause::Expected(Expected::Severity))?;
        }
        if is_attribute && self.owner == Owner::Statement && !self.is_behind_filter(named) {
            self.filters.clear();
        }
        self.put_filter(is_attribute, count)
    }

    /// Whether the attribute whose name is the last of that many tokens stands right behind one that filters a rule.
    fn is_behind_filter(&self, named: usize) -> bool {
        for (_, severity) in &self.filters {
            let mut end = severity.saturating_add(3);
            if self.expressions.token_before(end).kind == Kind::Period {
                end = end.saturating_add(2);
            }
            if self.expressions.token_before(end).kind == Kind::Comma {
                end = end.saturating_add(1);
            }
            if named == end.saturating_add(2) {
                return true;
            }
        }
        false
    }

    /// `diagnostic(off, a)`: each rule is filtered with one severity, and by one attribute (WGSL, "Diagnostic Filtering").
    fn put_filter(&mut self, is_attribute: bool, count: usize) -> Result<(), AllocError>
        ensures { Keeps (state self.old) (state self.new) }
    {
        let (alloc, rule) = (self.expressions.alloc, count.saturating_add(2));
        let name = match self.expressions.token_before(rule.saturating_add(1)).kind {
            Kind::Period => {
                format!(in alloc; "{}.{}", self.word(rule), self.word(rule.saturating_add(2)))?
            }
            _ => String::from_str(alloc, self.word(rule))?,
        };
        match self.filters.get(name.as_str()).copied() {
            Some(first) if self.word(first) != self.word(count) => {
                self.tell_name(Rule::Duplicate, rule, "has another severity above")
            }
            Some(_) if is_attribute => {
                self.tell_name(Rule::Duplicate, rule, "is filtered twice")
            }
            Some(_) => Ok(()),
            None => {
                self.filters.insert(name, count)?;
                Ok(())
            }
        }
    }

    /// An attribute that WGSL doesn't have, as `@stage(vertex)` of old.
    fn refuse_unknown(&mut self, named: usize, arguments: &Arguments) -> Result<(), AllocError>
        ensures { Keeps (state self.old) (state self.new) }
    {
        self.refuse_attribute(named, "is no attribute")?;
        let is_stage = self.word(named) == "stage";
        match arguments.names.as_slice() {
            [stage] if is_stage => {
                let meant = self.word(*stage);
                self.expressions.suggest(Some(meant))
            }
            _ => self.suggest(named, Cause::UnknownAttribute),
        }
    }

    /// Names that are no interpolation, or that don't stand together.
    fn refuse_interpolation(
        &mut self,
        named: usize,
        arguments: &Arguments,
    ) -> Result<(), AllocError>
        ensures { Keeps (state self.old) (state self.new) }
    {
        let meant = self.interpolation_meant(arguments);
        self.refuse_attribute(named, "has no such interpolation")?;
        self.expressions.suggest(meant)
    }

    /// What the first argument that is no interpolation may have meant.
    fn interpolation_meant(&self, arguments: &Arguments) -> Option<&'t str> {
        for (count, names) in arguments.names.iter().zip(&INTERPOLATIONS) {
            let word = self.word(*count);
            match nearest_of(word, names) {
                Some(meant) if meant != word => return Some(meant),
                _ => {}
            }
        }
        None
    }

    fn refuse_attribute(&mut self, named: usize, message: &str) -> Result<(), AllocError>
        ensures { Keeps (state self.old) (state self.new) }
    {
        self.pending.are_fine = false;
        self.tell_name(Rule::Attribute, named, message)
    }

    /// `@name(x)` is read. A name in brackets that take names stands for no value.
    pub fn close_attribute(&mut self, count: usize) -> Result<(), AllocError>
        ensures arguments { IfOk result (λ u. AttributeIf (is_const (kind_at (state self.old).stack.context.tokens count)) (state self.old) (state self.new)) }
        ensures source { IfOk result (λ u. source (state self.new) ≡ source (state self.old)) }
    {
        match is_const(self.expressions.token_before(count).kind) {
            true => self.tell_last(Rule::Attribute, count, "@const can't be written"),
            false => self.put_arguments(count),
        }
    }

    fn put_arguments(&mut self, count: usize) -> Result<(), AllocError>
        ensures arguments { IfOk result (λ u. HasArguments (state self.old) (state self.new)) }
        ensures source { IfOk result (λ u. source (state self.new) ≡ source (state self.old)) }
    {
        let list = self.expressions.take_list()?;
        let named = self.expressions.take_name();
        let name = attribute_named(self.expressions.word(named));
        self.pending.have_stage = self.pending.have_stage || is_stage(name);
        let has_list = count > named;
        let arguments = self.arguments(takes_names(name), has_list, list)?;
        self.put_attribute(name, named, &arguments)?;
        self.note_values(arguments.parts)
    }

    /// What stands in this list, the one of an attribute.
    fn arguments(
        &mut self,
        takes_names: bool,
        has_list: bool,
        list: Vec<Item>,
    ) -> Result<Arguments, AllocError>
        ensures arguments { IfOk result (λ x. AreArguments takes_names (state self.old).stack.context (reverse list.items) [] x.parts.items) }
        ensures state { state self.new ≡ state self.old }
    {
        let mut list = list;
        let mut arguments = Arguments {
            parts: Vec::new(self.expressions.alloc),
            names: Vec::new(self.expressions.alloc),
            is_empty_list: has_list && list.is_empty(),
        };
        while let Some(item) = list.pop() {
            self.put_argument(takes_names, item, &mut arguments)?;
        }
        Ok(arguments)
    }

    /// The next item in the brackets of an attribute.
    fn put_argument(
        &mut self,
        takes_names: bool,
        item: Item,
        arguments: &mut Arguments,
    ) -> Result<(), AllocError>
        ensures argument { IfOk result (λ u. IsArgument (word_of takes_names item) (state self.old).stack.context item arguments.old.parts.items arguments.new.parts.items) }
        ensures state { state self.new ≡ state self.old }
    {
        match word_of(takes_names, &item) {
            Some(count) => {
                drop(item);
                arguments.names.push(count)?;
            }
            None => {
                let part = self.expressions.part_of_item(item)?;
                let checked = self.expressions.has_value(&part);
                arguments.parts.push(part)?;
                checked?;
            }
        }
        Ok(())
    }

    /// Keeps an attribute that has no fault.
    fn put_attribute(
        &mut self,
        name: Option<Name>,
        named: usize,
        arguments: &Arguments,
    ) -> Result<(), AllocError>
        ensures { Keeps (state self.old) (state self.new) }
    {
        let name = match self.allowed(name, arguments) {
            Ok(name) => name,
            Err(_) if name.is_none() => return self.refuse_unknown(named, arguments),
            Err(message) => return self.refuse_attribute(named, message),
        };
        if name == Name::Interpolate && !self.is_interpolation(arguments) {
            return self.refuse_interpolation(named, arguments);
        }
        let integer = match arguments.parts.first() {
            Some(_) if name == Name::WorkgroupSize => self.workgroup_size(&arguments.parts)?,
            Some(part) => self.integer_of(name, part)?,
            None => Some(None),
        };
        let Some(integer) = integer else {
            self.pending.are_fine = false;
            return Ok(());
        };
        self.attributes.push(Attribute {
            name,
            named,
            integer,
            word: arguments.names.first().copied(),
        })?;
        self.pending.to = self.attributes.len();
        Ok(())
    }

    /// The attribute, if it may stand here with its arguments, whatever their values. Otherwise what is wrong with it.
    fn allowed(&self, name: Option<Name>, arguments: &Arguments) -> Result<Name, &'static str> {
        if self.owner == Owner::Statement {
            return Err("can't stand in front of a statement");
        }
        let Some(name) = name else {
            return Err("can't stand here");
        };
        let count = arguments.parts.len().saturating_add(arguments.names.len());
        if !name.may_stand(self.owner) {
            Err("can't stand here")
        } else if self.has(self.pending, name) {
            Err("stands here twice")
        } else if !name.takes(count) || arguments.is_empty_list {
            Err("takes another number of arguments")
        } else if name == Name::Builtin && arguments.names.is_empty() {
            Err("takes a name")
        } else {
            Ok(name)
        }
    }

    fn is_interpolation(&self, arguments: &Arguments) -> bool {
        let is_known = match arguments.names.as_slice() {
            [kind] => matches!(self.word(*kind), "perspective" | "linear" | "flat"),
            [kind, sampling] => match self.word(*kind) {
                "perspective" | "linear" => {
                    matches!(self.word(*sampling), "center" | "centroid" | "sample")
                }
                "flat" => matches!(self.word(*sampling), "first" | "either"),
                _ => false,
            },
            _ => false,
        };
        is_known && arguments.parts.is_empty()
    }

    /// The integer that is the argument of an attribute, `@size` and `@align` from 1 on: None where a fault is told, `Some(None)` if
    /// it isn't computed.
    fn integer_of(&mut self, name: Name, part: &Part) -> Result<Option<Option<i64>>, AllocError>
        ensures { Keeps (state self.old) (state self.new) }
    {
        let Some(typed) = part.typed() else {
            return Ok(None);
        };
        let is_integer = matches!(typed.ty, Type::AbstractInt | Type::I32 | Type::U32);
        let is_positive = matches!(name, Name::Align | Name::Size);
        let most = match name {
            Name::BlendSrc => 1,
            _ => most_of(&typed.ty),
        };
        let message = match part.integer() {
            _ if !is_integer || !typed.stage.is_const() => {
                "expected an integer that is a const-expression"
            }
            Some(value) if value < 0 || value > most || value == 0 && is_positive => {
                "this integer is too small or too large"
            }
            integer => return Ok(Some(integer)),
        };
        self.tell(Rule::Attribute, part.place, message)?;
        Ok(None)
    }

    /// One to three integers of one type, from 1 on: None where a fault is told.
    fn workgroup_size(&mut self, parts: &[Part]) -> Result<Option<Option<i64>>, AllocError>
        ensures { Keeps (state self.old) (state self.new) }
    {
        let mut operands = Vec::new(self.expressions.alloc);
        let mut places = Vec::new(self.expressions.alloc);
        for part in parts {
            match part.typed() {
                Some(typed) => operands.push(typed.early_operand())?,
                None => return Ok(None),
            }
            places.push(part.place)?;
        }
        let Some(ty) = self.agreed(&operands, &places)? else {
            return Ok(None);
        };
        for part in parts {
            let is_early = matches!(part.typed(), Some(typed) if typed.stage.is_early());
            let size = part.integer().unwrap_or(1);
            if !is_early || size < 1 || size > most_of(&ty) {
                let message =
                    "a workgroup's size is a positive 32-bit integer, known before the shader runs";
                self.tell(Rule::EntryPoint, part.place, message)?;
                return Ok(None);
            }
        }
        Ok(Some(None))
    }
}

/// The greatest integer of a type; an AbstractInt stands for an `i32`.
fn most_of(ty: &Type) -> i64 {
    match ty {
        Type::U32 => 0xFFFF_FFFF,
        _ => 0x7FFF_FFFF,
    }
}

/// The name that an argument is which is no expression, by the number of tokens up to it.
fn word_of(takes_names: bool, item: &Item) -> Option<usize>
    ensures { result ≡ word_of takes_names item.now }
{
    match item {
        Item::Name(count) if takes_names => Some(*count),
        _ => None,
    }
}

/// Whether an attribute is that of a stage, or one that WGSL doesn't have.
fn is_stage(name: Option<Name>) -> bool {
    matches!(
        name,
        None | Some(Name::Vertex | Name::Fragment | Name::Compute)
    )
}

/// Whether names are no expressions in the brackets of the attribute, or of one that WGSL doesn't have.
pub fn takes_names(name: Option<Name>) -> bool
    ensures { result ≡ takes_names name }
{
    matches!(name, None | Some(Name::Builtin | Name::Interpolate))
}

fn is_const(kind: Kind) -> bool
    ensures { result ≡ is_const kind }
{
    matches!(kind, Kind::Const)
}
