// What stands behind the name of a variable, an override or a constant.
ghost use Rattle.std.specs.Prelude.{◌≡◌};
ghost use Rattle.wgsl_source.specs.Declarations.{declared_type, initializer};
ghost use Rattle.wgsl_source.specs.TextDeclarations.{default};

use crate::declaration::Declaration;
use crate::parts::{split_typed, without_last};
use crate::scope::Scope;
use wgsl_reader::read::Event;

/// The type and the value of a declaration, as events; each is empty if it isn't there.
#[derive(Clone, Copy)]
pub struct Initialized<'t> {
    pub ty: &'t [Event],
    pub value: &'t [Event],
    /// Where the `=` or the `;` stands behind the name and the type.
    pub at: usize,
}

impl<'t> Scope<'t> {
    /// The type and the value of a variable or an override.
    pub fn initialized(&self, declaration: &Declaration<'t>) -> Initialized<'t>
        ensures ty { result.ty.now ≡ declared_type declaration.now.rest.now }
        ensures value { result.value.now ≡ default declaration.now.rest.now }
    {
        let typed = self.typed(declaration);
        Initialized {
            ty: typed.ty,
            value: without_last(typed.value),
            at: typed.at,
        }
    }

    /// The type and the value of a constant.
    pub fn typed(&self, declaration: &Declaration<'t>) -> Initialized<'t>
        ensures ty { result.ty.now ≡ declared_type declaration.now.rest.now }
        ensures value { result.value.now ≡ initializer declaration.now.rest.now }
    {
        let split = split_typed(declaration.rest);
        Initialized {
            ty: without_last(split.front),
            value: split.rest,
            at: self.behind(declaration.named, split.front),
        }
    }

    /// Where the token stands behind these events, or behind that many tokens if there are none.
    fn behind(&self, count: usize, events: &[Event]) -> usize {
        match events.last() {
            Some(event) => self.text.token(event.at).at,
            None => self.text.token(count).at,
        }
    }
}
