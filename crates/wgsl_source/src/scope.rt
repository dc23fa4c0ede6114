// What the names of a module stand for.
ghost use Rattle.std.specs.Prelude.{◌≡◌, ℕ, List, None};
ghost use Rattle.wgsl_source.specs.WrittenTypes.{index_of, meaning_of};

use crate::fault::Fault;
use crate::measured::MeasuredType;
use crate::text::Text;
use crate::value::Value;
use std::alloc::Global;
use std::collections::BTreeMap;

/// What a declaration stands for, or that it isn't read yet.
#[derive(Clone, Copy)]
pub enum Meaning {
    Unread,
    /// It has a fault, or needs a declaration that has one.
    Faulty,
    Value(Value),
    /// An alias or a struct.
    Type(MeasuredType),
    /// A constant whose value isn't evaluated here, and what of it isn't.
    NoValue(Fault),
    /// Neither a type nor a value.
    Other,
}

/// The extensions that a module asks for.
#[derive(Clone, Copy)]
pub struct Extensions {
    /// `f16`
    pub half: bool,
    /// `uniform_buffer_standard_layout`: the variables of `uniform` are laid out as those of other address spaces.
    pub standard_uniform: bool,
    /// One of naga's.
    pub naga: bool,
    /// One of naga's or of a browser's, which may have attributes of its own.
    pub foreign: bool,
}

impl Extensions {
    /// No extension, as before the first directive.
    pub fn none() -> Extensions {
        Extensions {
            half: false,
            standard_uniform: false,
            naga: false,
            foreign: false,
        }
    }
}

/// What names stand for while declarations are read.
#[derive(Drop)]
pub struct Scope<'t> {
    pub alloc: Global,
    pub text: Text<'t>,
    /// The index of the declaration with a name.
    pub names: BTreeMap<&'t str, usize>,
    pub meanings: Vec<Meaning>,
    pub extensions: Extensions,
}

impl<'t> Scope<'t> {
    /// A scope without declarations.
    pub fn new(alloc: Global, text: Text<'t>, extensions: Extensions) -> Scope<'t>
        ensures text { result.text ≡ text.entry }
        ensures none { (name : List ℕ) → index_of result name ≡ None }
    {
        Scope {
            alloc,
            text,
            names: BTreeMap::new(alloc),
            meanings: Vec::new(alloc),
            extensions,
        }
    }

    /// What the module's declaration with this name stands for.
    pub fn meaning(&self, name: &'t str) -> Option<Meaning>
        ensures { result ≡ meaning_of self.now name.now }
    {
        let index = self.names.get(&name)?;
        self.meanings.get(*index).copied()
    }
}
