// What entry points reach: stages, bindings (WGSL, "Entry Points", "Function Calls"). Only tested.
ghost use Rattle.wgsl_module.specs.States.{Keeps, state};

use crate::attribute::Name;
use crate::checker::{Checker, Interface};
use crate::interface::ShaderStage;
use crate::walk::Link;
use std::alloc::AllocError;
use std::collections::BTreeMap;
use wgsl_core::ty::Type;
use wgsl_core::ty::form::Form;
use wgsl_syntax::address::{AccessMode, AddressSpace};
use wgsl_syntax::overload::Stages;
use wgsl_syntax::texture_name::TextureParameters;
use wgsl_typing::fault::{Place, Rule};
use wgsl_typing::known::Known;

impl<'t> Checker<'t> {
    pub fn check_entry_points(&mut self) -> Result<(), AllocError>
        ensures { Keeps (state self.old) (state self.new) }
    {
        for index in 0..self.declarations.len() {
            if !matches!(self.expressions.known_at(index), Some(Known::Function(_))) {
                continue;
            }
            if let Some(interface) = self.take_interface(index) {
                self.check_entry_point(index, &interface)?;
            }
        }
        Ok(())
    }

    fn check_entry_point(&mut self, index: usize, interface: &Interface) -> Result<(), AllocError>
        ensures { Keeps (state self.old) (state self.new) }
    {
        let named = self.named(index).unwrap_or(0);
        let attributes = interface.attributes;
        let has_size = self.has(attributes, Name::WorkgroupSize);
        let stage = match (
            self.has(attributes, Name::Vertex),
            self.has(attributes, Name::Fragment),
            self.has(attributes, Name::Compute),
        ) {
            (true, false, false) => ShaderStage::Vertex,
            (false, true, false) => ShaderStage::Fragment,
            (false, false, true) => ShaderStage::Compute,
            (false, false, false) if !has_size => return Ok(()),
            (false, false, false) => {
                return self.tell_name(Rule::EntryPoint, named, "is no compute shader");
            }
            _ => return self.tell_name(Rule::EntryPoint, named, "has more than one stage"),
        };
        if (stage == ShaderStage::Compute) != has_size {
            let message = "must have @workgroup_size if it is a compute shader, and only then";
            self.tell_name(Rule::EntryPoint, named, message)?;
        }
        if self.check_side(stage, true, named, &interface.fields)? {
            self.check_side(stage, false, named, interface.result.as_slice())?;
        }
        self.check_reached(stage, index)
    }

    /// What an entry point and the functions that it calls do is for its stage, and no two of its variables have one binding.
    fn check_reached(&mut self, stage: ShaderStage, root: usize) -> Result<(), AllocError>
        ensures { Keeps (state self.old) (state self.new) }
    {
        let mut variables = BTreeMap::new(self.expressions.alloc);
        let mut wrong = Vec::new(self.expressions.alloc);
        let walk = self.walk(root, root.saturating_add(1), Link::Call)?;
        for index in &walk.order {
            let Some(Some(doing)) = self.doings.get(*index) else {
                continue;
            };
            for (variable, place) in &doing.variables {
                if !variables.contains_key(variable) {
                    variables.insert(*variable, *place)?;
                }
            }
            for (stages, place) in &doing.staged {
                if !include(*stages, stage) {
                    wrong.push(*place)?;
                    break;
                }
            }
        }
        let message = self.unusable(stage, root)?;
        for place in &wrong {
            let name = place.from.saturating_add(1);
            self.tell_name(Rule::Stage, name, message.as_str())?;
        }
        self.check_variables(stage, root, &variables)
    }

    /// What is wrong with what an entry point can't use.
    fn unusable(&self, stage: ShaderStage, root: usize) -> Result<String, AllocError> {
        let (stage, name) = (stage.name(), self.word(self.named(root).unwrap_or(0)));
        format!(in self.expressions.alloc; "can't be used by the {stage} shader `{name}`")
    }

    fn check_variables(
        &mut self,
        stage: ShaderStage,
        root: usize,
        variables: &BTreeMap<usize, Place>,
    ) -> Result<(), AllocError>
        ensures { Keeps (state self.old) (state self.new) }
    {
        let mut places = BTreeMap::new(self.expressions.alloc);
        for (index, used) in variables {
            let named = self.named(*index).unwrap_or(0);
            if !include(self.stages_of(*index), stage) {
                let message = self.unusable(stage, root)?;
                self.tell_name(Rule::Stage, used.to, message.as_str())?;
            }
            if let Some(place) = self.bindings.get(&named).copied() {
                if let Some(first) = places.insert(place, named)? {
                    let name = self.word(first);
                    let message = format!(in self.expressions.alloc;
                        "has the binding of `{name}`"
                    )?;
                    self.tell_name(Rule::Binding, named, message.as_str())?;
                    self.expressions.refer(first)?;
                }
            }
        }
        Ok(())
    }

    /// The stages in which a variable can be used.
    fn stages_of(&self, index: usize) -> Stages {
        let Some(Known::Value(typed)) = self.expressions.known_at(index) else {
            return Stages::All;
        };
        match typed.ty.form() {
            Form::Reference(AddressSpace::Workgroup, _, _) => Stages::Compute,
            Form::Reference(AddressSpace::Storage, _, AccessMode::ReadWrite) =>
                Stages::AllButVertex,
            Form::Reference(AddressSpace::Handle, of, _) if is_written(of) => Stages::AllButVertex,
            _ => Stages::All,
        }
    }
}

fn is_written(ty: &Type) -> bool {
    match ty.form() {
        Form::Texture(texture) => match texture.parameters() {
            TextureParameters::Storage(_, access) => access.is_write(),
            _ => false,
        },
        _ => false,
    }
}

/// Whether something may be done in a stage.
fn include(stages: Stages, stage: ShaderStage) -> bool {
    match stages {
        Stages::All => true,
        Stages::Fragment => stage == ShaderStage::Fragment,
        Stages::Compute => stage == ShaderStage::Compute,
        Stages::AllButVertex => stage != ShaderStage::Vertex,
    }
}
