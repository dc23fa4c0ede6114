// What a word may have meant that stands for nothing.
ghost use Rattle.std.specs.Prelude.{◌≡◌};
ghost use Rattle.wgsl_typing.specs.Stacks.{stack};

use crate::expressions::Expressions;
use crate::fault::Rule;
use std::alloc::AllocError;
use wgsl_core::ty::Type;
use wgsl_reader::kind::Kind;
use wgsl_spelling::meant::TYPES;
pub use wgsl_spelling::meant::nearest_of;
use wgsl_standard::meant::meant;
use wgsl_syntax::nearest::{Nearest, word_of_wgsl};

/// How many faults of a text are told with a name that the word may have meant.
pub const GUESSED: usize = 50;

/// What a word should stand for.
#[derive(Clone, Copy, PartialEq, Eq)]
pub enum Wanted {
    Value,
    Type,
    /// A type or a function with a template list.
    Listed,
    /// A function, or a type that is constructed.
    Function,
}

impl<'t> Expressions<'t> {
    /// Says that a name stands for nothing of the kind, and which one it may have meant.
    pub fn tell_unknown(&mut self, wanted: Wanted, count: usize) -> Result<(), AllocError>
        ensures stack { stack self.new ≡ stack self.old }
    {
        let message = match wanted {
            Wanted::Value => "stands for no value",
            Wanted::Type => "stands for no type",
            Wanted::Listed => "stands for nothing with a template list",
            Wanted::Function => "stands for no function",
        };
        self.tell_name(Rule::Name, count, message)?;
        let nearest = self.nearest(wanted, self.word(count));
        self.suggest(nearest)
    }

    /// Says what is wrong with a name, and which name of a list it may have meant.
    pub fn tell_among(
        &mut self,
        rule: Rule,
        count: usize,
        message: &str,
        names: &'static str,
    ) -> Result<(), AllocError>
        ensures stack { stack self.new ≡ stack self.old }
    {
        self.tell_name(rule, count, message)?;
        self.suggest(nearest_of(self.word(count), names))
    }

    /// Adds to the last fault what its word may have meant, of the first ones of a text.
    pub fn suggest(&mut self, name: Option<&str>) -> Result<(), AllocError>
        ensures stack { stack self.new ≡ stack self.old }
    {
        let Some(left) = self.guesses.checked_sub(1) else {
            return Ok(());
        };
        self.guesses = left;
        match (name, self.faults.last_mut()) {
            (Some(name), Some(fault)) => write!(fault.message, "; did you mean `{name}`?"),
            _ => Ok(()),
        }
    }

    /// The nearest of the names that stand for what is wanted.
    fn nearest(&self, wanted: Wanted, word: &'t str) -> Option<&'t str> {
        if self.guesses == 0 {
            return None;
        }
        let mut nearest = Nearest::to(word);
        for declaration in &self.declared {
            if let Some(named) = declaration.named {
                if self.declares(wanted, named) {
                    nearest.offer(self.word(named));
                }
            }
        }
        match wanted {
            Wanted::Value => {
                for index in 0..self.locals.len() {
                    if let Some(local) = self.locals.get(index) {
                        nearest.offer(local.name);
                    }
                }
                offer_all(&mut nearest, "true false");
            }
            Wanted::Type | Wanted::Listed => offer_all(&mut nearest, TYPES),
            Wanted::Function => {
                offer_vectors_and_matrices(&mut nearest, TYPES);
                if let Some(name) = meant(word) {
                    nearest.offer(name);
                }
            }
        }
        match (wanted, word_of_wgsl(word)) {
            (Wanted::Type | Wanted::Function, Some(name)) => Some(name),
            _ => nearest.name,
        }
    }

    /// Whether the declaration of a module with that name is of the kind, by the word in front of the name.
    fn declares(&self, wanted: Wanted, named: usize) -> bool {
        match self.token_before(named.saturating_sub(1)).kind {
            Kind::Fn => wanted == Wanted::Function,
            Kind::Struct | Kind::Alias => matches!(wanted, Wanted::Type | Wanted::Function),
            _ => wanted == Wanted::Value,
        }
    }

    /// The member of a declared struct that a word may have meant.
    pub fn meant_member(&self, ty: &Type, word: &'t str) -> Option<&'t str> {
        if self.guesses == 0 {
            return None;
        }
        let declared = self.structs.declared(ty)?;
        let mut nearest = Nearest::to(word);
        for name in declared.members.keys() {
            nearest.offer(*name);
        }
        nearest.name
    }
}

/// Offers those names of types that stand for vectors and matrices.
fn offer_vectors_and_matrices<'a>(nearest: &mut Nearest<'a>, names: &'static str) {
    for name in names.split_whitespace() {
        if name.starts_with("vec") || name.starts_with("mat") {
            nearest.offer(name);
        }
    }
}

fn offer_all<'a>(nearest: &mut Nearest<'a>, names: &'static str) {
    for name in names.split_whitespace() {
        nearest.offer(name);
    }
}
