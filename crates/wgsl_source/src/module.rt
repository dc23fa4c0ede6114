// Modules: what they declare, and what is wrong with them.
ghost use Rattle.std.specs.Prelude.{IfOk};
ghost use Rattle.wgsl_source.specs.TextStructs.{AreDeclared};
ghost use Rattle.wgsl_source.specs.Structs.{AreStructsOf};

use crate::declaration::{Declarations, read_declarations};
use crate::entry::{EntryPoint, Override};
use crate::fault::Fault;
use crate::meant::Declared;
use crate::measured::MeasuredType;
use crate::others::{Alias, Others};
use crate::reader::Reader;
use crate::scope::Scope;
use crate::structure::Struct;
use crate::text::Text;
use crate::types::Types;
use crate::variable::Variable;
use std::alloc::{AllocError, Global};
use wgsl_reader::module::Module as Grammar;

/// A module that is read.
#[derive(Drop)]
pub struct Module<'t> {
    /// The types that stand in arrays, binding arrays and pointers.
    pub elements: Vec<MeasuredType>,
    /// Each after the structs that it contains.
    pub structs: Vec<Struct<'t>>,
    /// The indices of the structs in the order of the text.
    pub in_text: Vec<usize>,
    pub variables: Vec<Variable<'t>>,
    pub overrides: Vec<Override<'t>>,
    pub entry_points: Vec<EntryPoint<'t>>,
    pub faults: Vec<Fault>,
    /// The uses of types and address spaces that only naga has, without a directive that enables them.
    pub naga_only: Vec<Fault>,
    /// Whether `requires uniform_buffer_standard_layout;` is there.
    pub has_standard_uniform: bool,
    pub declared: Declared<'t>,
    /// The aliases, in the order of the text.
    pub aliases: Vec<Alias<'t>>,
    /// The structs that have a fault, or need a declaration that has one, in the order of the text.
    pub left_out: Vec<&'t str>,
}

impl<'t> Module<'t> {
    fn empty(alloc: Global) -> Module<'t> {
        Module {
            elements: Vec::new(alloc),
            structs: Vec::new(alloc),
            in_text: Vec::new(alloc),
            variables: Vec::new(alloc),
            overrides: Vec::new(alloc),
            entry_points: Vec::new(alloc),
            faults: Vec::new(alloc),
            naga_only: Vec::new(alloc),
            has_standard_uniform: false,
            declared: Declared::none(alloc),
            aliases: Vec::new(alloc),
            left_out: Vec::new(alloc),
        }
    }

    /// A module of which only this fault is known.
    pub fn faulty(alloc: Global, fault: Fault) -> Result<Module<'t>, AllocError> {
        let mut module = Module::empty(alloc);
        module.faults.push(fault)?;
        Ok(module)
    }
}

/// The module of a text, by what the grammar says of its tokens.
pub fn read_module<'t>(
    alloc: Global,
    text: Text<'t>,
    grammar: &'t Grammar,
) -> Result<Module<'t>, AllocError>
    ensures structs { IfOk result (λ m. AreStructsOf m.elements.items m.structs.items) }
    ensures declared { IfOk result (AreDeclared text.entry grammar.now.events.items) }
{
    let Declarations {
        declarations,
        faults,
        extensions,
    } = read_declarations(alloc, text, grammar)?;
    let mut reader = Reader {
        scope: Scope::new(alloc, text, extensions),
        types: Types::none(alloc),
        structs: Vec::new(alloc),
        faults,
        declared: Declared::none(alloc),
    };
    let mut others = Others::none(alloc);
    match reader.read(&declarations, &mut others) {
        Ok(listed) => Ok(reader.finished(listed, others)),
        Err(e) => {
            drop(reader);
            Err(e)
        }
    }
}
