// What a name stands for at a place, as a value and as a type (WGSL, "Declaration and Scope").
ghost use Rattle.std.specs.Prelude.{◌≡◌, IfOk, None, option_map};
ghost use Rattle.std.specs.Option.{option_and_then};
ghost use Rattle.wgsl_core.specs.View.{view};
ghost use Rattle.wgsl_standard.specs.declared.forms.form.Referent.TheVariants.{Whole};
ghost use Rattle.wgsl_syntax.specs.TextureName.{texture_with};
ghost use Rattle.wgsl_rules.specs.types.Types.{texture as a_texture};
ghost use Rattle.wgsl_typing.specs.Names.{IsNamed, IsValue, context, declaration_of, is_skipped, known_of, local_of, meaning_at, type_named, value_of, value_of_known, value_of_local, with_known, word_in};
ghost use Rattle.wgsl_typing.specs.Outcomes.{HasType};
ghost use Rattle.wgsl_typing.specs.Predeclared.{is_unnamed, type_called, type_predeclared, type_without_list};
ghost use Rattle.wgsl_typing.specs.Stacks.{IsOnTop, below_operand, stack, with_declared, with_items};
ghost use Rattle.wgsl_typing.specs.Types.{IsTypeOnTop, below_type, type_listed};

use crate::expressions::Expressions;
use crate::fault::{Place, Rule};
use crate::item::{Item, Listed};
use crate::known::{Known, Outcome, Part, Typed};
use crate::meant::Wanted;
use crate::stage::Stage;
use std::alloc::AllocError;
use wgsl_core::ty::Type;
use wgsl_reader::kind::Kind;
use wgsl_spelling::predeclared::{LayerName, PredeclaredType, predeclared};
use wgsl_syntax::overload::Stages;
use wgsl_syntax::scalar::Scalar;
use wgsl_syntax::texture_name::{TextureName, TextureParameters};

/// What a name stands for.
#[derive(Clone, Copy)]
pub enum Meaning {
    /// A name of the function, by its index.
    Local(usize),
    /// A declaration of the module that is read, by its index.
    Declared(usize),
    /// A declaration of the module that isn't read yet, by its index: it needs itself.
    Unread(usize),
    /// Nothing declares it; WGSL may predeclare it.
    Undeclared,
}

impl<'t> Expressions<'t> {
    /// What the last of that many tokens stands for.
    pub fn meaning(&self, count: usize) -> Meaning
        ensures { result ≡ meaning_at (context self.now) count }
    {
        let name = self.word(count);
        if let Some(index) = self.locals.index_of(name) {
            return Meaning::Local(index);
        }
        match self.names.get(&name) {
            Some(index) if self.known_at(*index).is_some() => Meaning::Declared(*index),
            Some(index) => Meaning::Unread(*index),
            None => Meaning::Undeclared,
        }
    }

    /// What the declaration with an index stands for, if it is read.
    pub fn known_at(&self, index: usize) -> Option<&Known>
        ensures { option_map (λ k. k.now) result ≡ known_of self.now.declared.items index }
    {
        self.declared.get(index)?.known.as_ref()
    }

    /// Takes what a declaration stands for, which `put_known` gives back.
    pub fn take_known(&mut self, index: usize) -> Option<Known>
        ensures taken { result ≡ known_of self.old.declared.items index }
        ensures stack { stack self.new ≡ with_declared (with_known index None (context self.old).declared) (stack self.old) }
    {
        if index >= self.declared.len() {
            return None;
        }
        self.declared[index].known.take()
    }

    /// Gives back what a declaration stands for.
    pub fn put_known(&mut self, index: usize, known: Option<Known>)
        ensures stack { stack self.new ≡ with_declared (with_known index known (context self.old).declared) (stack self.old) }
    {
        if index < self.declared.len() {
            self.declared[index].known = known;
        }
    }

    /// Takes the operand on top.
    pub fn take_part(&mut self) -> Result<Part, AllocError>
        ensures operand { IfOk result (IsOnTop (stack self.old)) }
        ensures rest { IfOk result (λ x. stack self.new ≡ with_items (below_operand (stack self.old).items) (stack self.old)) }
    {
        match self.items.pop() {
            Some(Item::Part(part)) => Ok(part),
            Some(Item::Name(count)) => self.value_named(count),
            Some(Item::Listed(place, listed)) => self.no_value(place, listed),
            Some(other) => {
                self.items.push(other)?;
                Ok(Part::of(Place::last_of(0), Outcome::Faulty))
            }
            None => Ok(Part::of(Place::last_of(0), Outcome::Faulty)),
        }
    }

    /// A type in place of a value.
    pub fn no_value(&mut self, place: Place, listed: Listed) -> Result<Part, AllocError>
        ensures place { IfOk result (λ x. x.place ≡ place) }
        ensures outcome { IfOk result (λ x. x.outcome ≡ Outcome.Faulty) }
        ensures stack { stack self.new ≡ stack self.old }
    {
        if !matches!(listed, Listed::Type(None) | Listed::Function(_, None)) {
            self.tell(Rule::Name, place, "this is a type, and no value")?;
        }
        Ok(Part::of(place, Outcome::Faulty))
    }

    /// The value that a name stands for.
    pub fn value_named(&mut self, count: usize) -> Result<Part, AllocError>
        ensures value { IfOk result (IsNamed (context self.old) count) }
        ensures stack { stack self.new ≡ stack self.old }
    {
        let outcome = self.outcome_named(count)?;
        let declared = self.place_of_declaration(count);
        Ok(Part {
            place: Place::last_of(count),
            outcome,
            may_be_dropped: false,
            declared,
        })
    }

    fn outcome_named(&mut self, count: usize) -> Result<Outcome, AllocError>
        ensures answer { IfOk result (IsValue (value_of (context self.old) (meaning_at (context self.old) count))) }
        ensures stack { stack self.new ≡ stack self.old }
    {
        match self.meaning(count) {
            Meaning::Local(index) => self.value_of_local(index, count),
            Meaning::Declared(index) => self.value_declared(index, count),
            Meaning::Unread(_) => self.cyclic(count),
            Meaning::Undeclared => {
                self.tell_unknown(Wanted::Value, count)?;
                Ok(Outcome::Faulty)
            }
        }
    }

    /// Faulty, as what a name stands for needs itself.
    pub fn cyclic(&mut self, count: usize) -> Result<Outcome, AllocError>
        ensures answer { IfOk result (λ o. o ≡ Outcome.Faulty) }
        ensures stack { stack self.new ≡ stack self.old }
    {
        let outcome = self.faulty(Rule::Cycle, count, "needs itself")?;
        if let Some(named) = self.place_of_declaration(count) {
            self.refer(named)?;
        }
        Ok(outcome)
    }

    /// The number of tokens up to the name that declares what a name stands for.
    fn place_of_declaration(&self, count: usize) -> Option<usize>
        ensures { result ≡ declaration_of (context self.now) (meaning_at (context self.now) count) }
    {
        match self.meaning(count) {
            Meaning::Local(index) => Some(self.locals.get(index)?.bound.named),
            Meaning::Declared(index) | Meaning::Unread(index) => self.declared.get(index)?.named,
            Meaning::Undeclared => None,
        }
    }

    /// Why nothing can be written to a name that is no variable.
    pub fn constant_named(&self, count: usize) -> Option<&'static str> {
        let named = self.place_of_declaration(count)?;
        match self.token_before(named.saturating_sub(1)).kind {
            Kind::Let => Some("is a `let`, and can't be assigned"),
            Kind::Const => Some("is a `const`, and can't be assigned"),
            Kind::Override => Some("is an `override`, and can't be assigned"),
            Kind::Var | Kind::CloseTemplate | Kind::Fn | Kind::Struct | Kind::Alias => None,
            _ => Some("is a parameter, and can't be assigned"),
        }
    }

    fn value_of_local(&mut self, index: usize, count: usize) -> Result<Outcome, AllocError>
        ensures answer { IfOk result (IsValue (value_of_local (context self.old) index)) }
        ensures stack { stack self.new ≡ stack self.old }
    {
        if self.is_skipped(index) {
            return self.faulty(Rule::Behaviour, count, "is declared behind a `continue`");
        }
        match self.local_at(index) {
            Some(typed) => Ok(Outcome::Typed(typed.clone(self.alloc)?)),
            None => Ok(Outcome::Faulty),
        }
    }

    /// Whether a `continue` may skip the declaration of the function with an index.
    fn is_skipped(&self, index: usize) -> bool
        ensures { result ≡ is_skipped self.now.skipped index }
    {
        self.skipped.0 <= index && index < self.skipped.1
    }

    /// What the declaration of the function with an index stands for, if it has no fault.
    fn local_at(&self, index: usize) -> Option<&Typed>
        ensures { option_map (λ x. x.now) result ≡ option_and_then (λ l. l.bound.typed) (local_of (context self.now) index) }
    {
        self.locals.get(index)?.bound.typed.as_ref()
    }

    fn value_declared(&mut self, index: usize, count: usize) -> Result<Outcome, AllocError>
        ensures answer { IfOk result (IsValue (value_of_known (known_of self.old.declared.items index))) }
        ensures stack { stack self.new ≡ stack self.old }
    {
        match self.known_at(index) {
            Some(Known::Value(typed)) => {
                let typed = typed.clone(self.alloc)?;
                let is_of_module = self.place_of_declaration(count).is_some();
                if let Some(doing) = &mut self.doing {
                    if is_of_module {
                        doing.variables.push((index, Place::last_of(count)))?;
                    }
                }
                Ok(Outcome::Typed(typed))
            }
            Some(Known::Faulty) | None => Ok(Outcome::Faulty),
            Some(Known::Type(_) | Known::Function(_)) => self.faulty(
                Rule::Name,
                count,
                "is no value",
            ),
        }
    }

    /// Takes the type on top, with its tokens; None if it has a fault.
    pub fn take_type(&mut self) -> Result<(Place, Option<Type>), AllocError>
        ensures ty { IfOk result (λ found. IsTypeOnTop (stack self.old) found.1) }
        ensures rest { IfOk result (λ found. stack self.new ≡ below_type (stack self.old)) }
    {
        match self.items.pop() {
            Some(Item::Name(count)) => {
                let ty = self.type_named(count)?;
                Ok((Place::last_of(count), ty))
            }
            Some(Item::Listed(place, listed)) => Ok((place, self.type_listed(place, listed)?)),
            Some(Item::Part(part)) => {
                let place = part.place;
                Ok((place, self.no_type(part)?))
            }
            Some(other) => {
                self.items.push(other)?;
                Ok((Place::last_of(0), None))
            }
            None => Ok((Place::last_of(0), None)),
        }
    }

    /// The type that a name with a list stands for; None where it is a function, which is told.
    pub fn type_listed(&mut self, place: Place, listed: Listed) -> Result<Option<Type>, AllocError>
        ensures answer { IfOk result (λ ty. option_map view ty ≡ type_listed listed) }
        ensures stack { stack self.new ≡ stack self.old }
    {
        match listed {
            Listed::Type(ty) => Ok(ty),
            Listed::Function(_, ty) => {
                if ty.is_some() {
                    self.tell(Rule::Name, place, "this is no type")?;
                }
                Ok(None)
            }
        }
    }

    /// The type that a name without a list stands for.
    pub fn type_named(&mut self, count: usize) -> Result<Option<Type>, AllocError>
        ensures answer { IfOk result (λ ty. option_map view ty ≡ type_named (context self.old) count) }
        ensures stack { stack self.new ≡ stack self.old }
    {
        match self.meaning(count) {
            Meaning::Local(_) => self.nothing(Rule::Name, count, "is a value, and no type"),
            Meaning::Unread(_) => {
                self.cyclic(count)?;
                Ok(None)
            }
            Meaning::Declared(index) => match self.known_at(index) {
                Some(Known::Type(ty)) => Ok(Some(ty.clone(self.alloc)?)),
                Some(Known::Faulty) | None => Ok(None),
                Some(Known::Value(_) | Known::Function(_)) => self.nothing(
                    Rule::Name,
                    count,
                    "is no type",
                ),
            },
            Meaning::Undeclared => self.type_predeclared(count),
        }
    }

    /// The type that WGSL predeclares by a name without a template list; None where it has a fault, which is told.
    pub fn type_predeclared(&mut self, count: usize) -> Result<Option<Type>, AllocError>
        ensures answer { IfOk result (λ ty. option_map view ty ≡ type_predeclared self.old.extensions.f16 (word_in (context self.old) count)) }
        ensures stack { stack self.new ≡ stack self.old }
    {
        let Some(named) = predeclared_type(self.word(count)) else {
            self.tell_unknown(Wanted::Type, count)?;
            return Ok(None);
        };
        if named.is_half() && !self.extensions.f16 {
            return self.nothing(Rule::Extension, count, "needs `enable f16;`");
        }
        match self.leaf(named)? {
            Some(ty) => Ok(Some(ty)),
            None => self.nothing(Rule::Name, count, "needs a template list"),
        }
    }

    /// The type that a predeclared name stands for without a list.
    fn leaf(&self, named: PredeclaredType) -> Result<Option<Type>, AllocError>
        ensures { IfOk result (λ ty. option_map view ty ≡ type_without_list named) }
    {
        Ok(match named {
            PredeclaredType::Scalar(scalar) => Some(Type::from(scalar)),
            PredeclaredType::Vec(n, scalar) => {
                Some(Type::vector(self.alloc, n, Type::from(scalar))?)
            }
            PredeclaredType::Mat(c, r, scalar) => {
                Some(Type::matrix(self.alloc, c, r, Type::from(scalar))?)
            }
            PredeclaredType::Sampler(sampler) => Some(Type::Sampler(sampler)),
            PredeclaredType::Texture(texture) => texture_type(texture, TextureParameters::None),
            PredeclaredType::RayQuery => Some(Type::RayQuery(None)),
            PredeclaredType::AccelerationStructure => Some(Type::AccelerationStructure(None)),
            PredeclaredType::Layer(_) => None,
        })
    }

    /// Notes what only some stages do.
    pub fn only_in(&mut self, stages: Stages, place: Place) -> Result<(), AllocError>
        ensures stack { stack self.new ≡ stack self.old }
    {
        if let Some(doing) = &mut self.doing {
            if stages != Stages::All {
                doing.staged.push((stages, place))?;
            }
        }
        Ok(())
    }
}

/// What a predeclared name of a type stands for, if WGSL has the type, and a text can name it.
pub fn predeclared_type(name: &str) -> Option<PredeclaredType>
    ensures { result ≡ type_called name.now }
{
    let named = predeclared(name)?;
    if is_unnamed(named) || named.is_naga_only() {
        return None;
    }
    Some(named)
}

/// Whether no text can name it, or WGSL doesn't have it.
fn is_unnamed(named: PredeclaredType) -> bool
    ensures { result ≡ is_unnamed named }
{
    matches!(
        named,
        PredeclaredType::Scalar(Scalar::AbstractInt | Scalar::AbstractFloat)
            | PredeclaredType::Layer(LayerName::Reference)
            | PredeclaredType::Texture(
                TextureName::Sampled1DArray
                    | TextureName::Multisampled2DArray
                    | TextureName::Storage1DArray
            )
    )
}

/// The texture type with a name and parameters, if the name takes these.
pub fn texture_type(texture: TextureName, parameters: TextureParameters) -> Option<Type>
    ensures { option_map view result ≡ option_map a_texture (texture_with texture parameters) }
{
    Some(Type::Texture(texture.with(parameters)?))
}

/// A value of that type, known at a stage.
pub fn typed(ty: Type, stage: Stage) -> Outcome
    ensures { HasType (view ty) stage Whole result }
{
    Outcome::Typed(Typed::of(ty, stage))
}
