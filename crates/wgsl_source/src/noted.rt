// What the events of a type or a value say.
ghost use Rattle.std.specs.Prelude.{◌≡◌, suc, ◌++◌, [], ◌∷◌, IfOk, IsErr, OnOk, Some, drop, slice_get};
ghost use Rattle.wgsl_spelling.specs.Words.{word};
ghost use Rattle.wgsl_source.specs.Declarations.{first_count, token_before};
ghost use Rattle.wgsl_source.specs.Members.{Grows};
ghost use Rattle.wgsl_source.specs.Values.{IsLiteral};
ghost use Rattle.wgsl_source.specs.WrittenTypes.{BecomesValue, Closes, HasType, HasTypeIf, HasValue, IsBinary, IsElementOf, IsListedBy, IsMemberOf, IsSettled, IsUnary, IsValueCalled, IsValueSaid, Step, Steps, environment, item, meaning_of, sign_in};
ghost use Rattle.wgsl_source.specs.internal.Items.{IsPut};
ghost use Rattle.wgsl_source.specs.declared.item.Content.TheVariants.{Name};

use crate::fault::{Cause, Expected, Named, Stop};
use crate::item::{Content, Item, behind_sign};
use crate::literal::value_of_literal;
use crate::measured::MeasuredType;
use crate::scope::{Meaning, Scope};
use crate::types::Types;
use crate::value::{PlacedValue, Value, binary, element, member, unary};
use wgsl_constants::constant::Constant;
use wgsl_reader::kind::Kind;
use wgsl_reader::mark::Mark;
use wgsl_reader::read::Event;
use wgsl_reader::token::Token;
use wgsl_spelling::value::bool_of;

impl<'t> Scope<'t> {
    /// The type that events say.
    pub fn type_noted(&self, types: &mut Types, events: &[Event]) -> Result<MeasuredType, Stop>
        ensures grows { Grows types.old types.new }
        ensures written { IfOk result (HasType self.now.text (environment self.now types.new) events.now) }
    {
        let mut items = Vec::new(self.alloc);
        self.read_all(types, &mut items, events)?;
        let item = self.only(&items)?;
        self.type_of(types, item)
    }

    /// The type that events say, if there are any.
    pub fn declared_type(
        &self,
        types: &mut Types,
        events: &[Event],
    ) -> Result<Option<MeasuredType>, Stop>
        ensures grows { Grows types.old types.new }
        ensures written { IfOk result (HasTypeIf self.now.text (environment self.now types.new) events.now) }
    {
        match events {
            [] => Ok(None),
            _ => Ok(Some(self.type_noted(types, events)?)),
        }
    }

    /// The value that events say.
    pub fn value_noted(&self, events: &[Event]) -> Result<PlacedValue, Stop>
        ensures { IfOk result (λ placed. HasValue self.now.text (meaning_of self.now) events.now placed.value) }
    {
        let mut types = Types::none(self.alloc);
        let mut items = Vec::new(self.alloc);
        self.read_all(&mut types, &mut items, events)?;
        let item = self.only(&items)?;
        Ok(PlacedValue {
            value: self.value_of(item)?,
            at: item.token.at,
        })
    }

    /// Reads what events say, one by one.
    pub fn read_all(
        &self,
        types: &mut Types,
        items: &mut Vec<Item>,
        events: &[Event],
    ) -> Result<(), Stop>
        ensures grows { Grows types.old types.new }
        ensures steps { OnOk result (Steps self.now.text (environment self.now types.new) events.now items.old.items items.new.items) }
    {
        for event in events {
            self.step(types, items, *event)?;
        }
        Ok(())
    }

    fn step(&self, types: &mut Types, items: &mut Vec<Item>, event: Event) -> Result<(), Stop>
        ensures grows { Grows types.old types.new }
        ensures step { OnOk result (Step self.now.text (environment self.now types.new) event.mark (token_before self.now.text event.at) items.old.items items.new.items) }
    {
        let token = self.text.token_before(event.at);
        match event.mark {
            Mark::Name => push(items, token, Content::Name),
            Mark::Value => Ok(()),
            mark => self.step_further(types, items, mark, token),
        }
    }

    /// Reads an event of another kind than a name or the end of one that is a value.
    fn step_further(
        &self,
        types: &mut Types,
        items: &mut Vec<Item>,
        mark: Mark,
        token: Token,
    ) -> Result<(), Stop>
        ensures grows { Grows types.old types.new }
        ensures step { OnOk result (Step self.now.text (environment self.now types.new) mark token items.old.items items.new.items) }
    {
        match mark {
            Mark::OpenTemplate | Mark::Operator | Mark::Open | Mark::OpenElement => {
                push(items, token, Content::Sign(token.kind))
            }
            Mark::Literal => {
                let value = self.literal(token)?;
                push(items, token, Content::Value(value))
            }
            Mark::Template => self.close_list(types, items, token),
            Mark::Argument | Mark::Brackets => self.settle(items),
            Mark::Call => self.close_call(items, token),
            Mark::Unary => self.close_unary(items),
            Mark::Binary => self.close_binary(items),
            Mark::MemberOf => self.close_member(items, token),
            Mark::Element => self.close_element(items),
            _ => self.close_part(items),
        }
    }

    /// The only item.
    fn only(&self, items: &[Item]) -> Result<Item, Stop>
        ensures { IfOk result (λ item. items.now ≡ item ∷ []) }
    {
        match items {
            [item] => Ok(*item),
            _ => Err(Stop::at(self.text.text.len(), Cause::NotInteger)),
        }
    }

    /// Takes the last item.
    fn pop(&self, items: &mut Vec<Item>) -> Result<Item, Stop>
        ensures { IfOk result (λ item. items.old.items ≡ items.new.items ++ item ∷ []) }
    {
        match items.pop() {
            Some(item) => Ok(item),
            None => Err(Stop::at(self.text.text.len(), Cause::NotInteger)),
        }
    }

    /// Ends a template list.
    fn close_list(&self, types: &mut Types, items: &mut Vec<Item>, token: Token) -> Result<(), Stop>
        ensures grows { Grows types.old types.new }
        ensures closed { OnOk result (Closes Kind.OpenTemplate (IsListedBy self.now.text (environment self.now types.new)) items.old.items items.new.items) }
    {
        let all = items.as_slice();
        let first = behind_sign(all, Kind::OpenTemplate);
        let (at, name) = callee(all, first, token)?;
        let content = self.listed(types, name, behind(all, first))?;
        items.truncate(at);
        push(items, name.token, content)
    }

    /// Ends a call.
    fn close_call(&self, items: &mut Vec<Item>, token: Token) -> Result<(), Stop>
        ensures { OnOk result (Closes Kind.OpenRound (IsValueCalled self.now.text (meaning_of self.now)) items.old.items items.new.items) }
    {
        let all = items.as_slice();
        let first = behind_sign(all, Kind::OpenRound);
        let (at, name) = callee(all, first, token)?;
        let value = self.called(name, behind(all, first))?;
        items.truncate(at);
        push(items, name.token, Content::Value(value))
    }

    /// Replaces the last item by its value.
    fn settle(&self, items: &mut Vec<Item>) -> Result<(), Stop>
        ensures { OnOk result (BecomesValue (IsSettled self.now.text (meaning_of self.now)) items.old.items items.new.items) }
    {
        let item = self.pop(items)?;
        let value = self.value_of(item)?;
        push(items, item.token, Content::Value(value))
    }

    fn close_unary(&self, items: &mut Vec<Item>) -> Result<(), Stop>
        ensures { OnOk result (BecomesValue (IsUnary self.now.text (meaning_of self.now)) items.old.items items.new.items) }
    {
        let operand = self.pop(items)?;
        let operator = self.pop(items)?;
        let value = self.value_of(operand)?;
        put(items, operator, unary(sign_of(operator), value), operator)
    }

    fn close_binary(&self, items: &mut Vec<Item>) -> Result<(), Stop>
        ensures { OnOk result (BecomesValue (IsBinary self.now.text (meaning_of self.now)) items.old.items items.new.items) }
    {
        let right = self.pop(items)?;
        let operator = self.pop(items)?;
        let left = self.pop(items)?;
        let (a, b) = (self.value_of(left)?, self.value_of(right)?);
        let value = binary(sign_of(operator), a, b);
        let first = match value {
            Ok(Value::Known(Constant::Bool(_))) => operator,
            _ => left,
        };
        put(items, first, value, operator)
    }

    /// Ends a component, whose letter is a token.
    fn close_member(&self, items: &mut Vec<Item>, letter: Token) -> Result<(), Stop>
        ensures { OnOk result (BecomesValue (IsMemberOf self.now.text (meaning_of self.now) letter) items.old.items items.new.items) }
    {
        let item = self.pop(items)?;
        let value = self.value_of(item)?;
        put(items, item, member(value, self.text.word(letter)), item)
    }

    /// Ends an element.
    fn close_element(&self, items: &mut Vec<Item>) -> Result<(), Stop>
        ensures { OnOk result (BecomesValue (IsElementOf self.now.text (meaning_of self.now)) items.old.items items.new.items) }
    {
        let at = self.pop(items)?;
        self.pop(items)?;
        let item = self.pop(items)?;
        let index = self.value_of(at)?;
        put(items, item, element(self.value_of(item)?, index), item)
    }

    /// Ends what isn't evaluated here.
    fn close_part(&self, items: &mut Vec<Item>) -> Result<(), Stop>
        ensures { IsErr result }
    {
        let item = self.pop(items)?;
        match self.value_of(item)? {
            Value::Later => Err(item.stop(Cause::KnownLater)),
            _ => Err(item.stop(Cause::NotInteger)),
        }
    }

    /// The value of a literal.
    pub fn literal(&self, token: Token) -> Result<Value, Stop>
        ensures { IfOk result (IsLiteral self.now.text token) }
    {
        let value = match bool_of(token.kind) {
            Some(test) => Ok(Constant::Bool(test)),
            None => value_of_literal(self.text.word(token), self.extensions.half),
        };
        match value {
            Ok(constant) => Ok(Value::Known(constant)),
            Err(cause) => Err(Stop::at(token.at, cause)),
        }
    }

    /// The value that an item stands for.
    pub fn value_of(&self, item: Item) -> Result<Value, Stop>
        ensures { IfOk result (IsValueSaid self.now.text (meaning_of self.now) item.token item.content) }
    {
        match item.content {
            Content::Value(value) => Ok(value),
            Content::Name => match self.meaning(self.text.word(item.token)) {
                Some(Meaning::Value(value)) => Ok(value),
                Some(Meaning::Faulty | Meaning::Unread) => Err(item.elsewhere()),
                Some(Meaning::NoValue(fault)) => Err(Stop::Fault(fault)),
                Some(Meaning::Type(_) | Meaning::Other) => Err(item.stop(Cause::NotInteger)),
                None => Err(item.stop(Cause::UnknownName(Named::Value))),
            },
            Content::Function => {
                self.check_function(item)?;
                Err(item.stop(Cause::NotInteger))
            }
            _ => Err(item.stop(Cause::NotInteger)),
        }
    }

    /// The first token of what events say.
    pub fn first_token(&self, events: &[Event]) -> Token
        ensures { result ≡ token_before self.now.text (first_count events.now) }
    {
        self.text.token_before(first_count(events))
    }

    /// Takes the name of an enumerant. It is none if the module declares that name.
    pub fn enumerant(&self, item: Item, expected: Expected) -> Result<&'t str, Stop>
        ensures name { IfOk result (λ text. item.content ≡ Name) }
        ensures undeclared { IfOk result (λ text. meaning_of self.now (word self.now.text.text.now item.token) ≡ None) }
        ensures text { IfOk result (λ text. text.now ≡ word self.now.text.text.now item.token) }
    {
        let word = self.text.word(item.token);
        match item.content {
            Content::Name => match self.meaning(word) {
                Some(_) => Err(item.stop(Cause::Shadowed)),
                None => Ok(word),
            },
            _ => Err(item.stop(Cause::Expected(expected))),
        }
    }
}

/// How many tokens stand up to the first event, with its own.
pub fn first_count(events: &[Event]) -> usize
    ensures { result ≡ first_count events.now }
{
    match events {
        [first, ..] => first.at,
        [] => 0,
    }
}

fn push(items: &mut Vec<Item>, token: Token, content: Content) -> Result<(), Stop>
    ensures { OnOk result (items.new.items ≡ items.old.items ++ item token content ∷ []) }
{
    items.push(Item { token, content })?;
    Ok(())
}

/// Adds a value that begins with the first item. An error is at the other one.
fn put(
    items: &mut Vec<Item>,
    first: Item,
    value: Result<Value, Cause>,
    at: Item,
) -> Result<(), Stop>
    ensures { OnOk result (IsPut value first items.old.items items.new.items) }
{
    match value {
        Ok(value) => push(items, first.token, Content::Value(value)),
        Err(cause) => Err(at.stop(cause)),
    }
}

/// The operator that an item is.
fn sign_of(item: Item) -> Kind
    ensures { result ≡ sign_in item.content }
{
    match item.content {
        Content::Sign(kind) => kind,
        _ => Kind::End,
    }
}

/// The name in front of the sign behind which the items from an index on stand, with its index.
fn callee(items: &[Item], first: usize, token: Token) -> Result<(usize, Item), Stop>
    ensures { IfOk result (λ found. (first ≡ suc (suc found.0)) × (slice_get items.now found.0 ≡ Some found.1)) }
{
    match first.checked_sub(2) {
        Some(index) => match items.get(index) {
            Some(item) => Ok((index, *item)),
            None => Err(Stop::at(token.at, Cause::NotInteger)),
        },
        None => Err(Stop::at(token.at, Cause::NotInteger)),
    }
}

fn behind(items: &[Item], first: usize) -> &[Item]
    ensures { result.now ≡ drop first items.now }
{
    match items.get(first..) {
        Some(rest) => rest,
        None => &[],
    }
}
