// What entry points take and return (WGSL, "Entry Points", "Built-in Values", "Input-output Locations"). Only tested.
ghost use Rattle.wgsl_module.specs.States.{Keeps, state};

use crate::attribute::{Attributes, Name};
use crate::checker::Checker;
use crate::field::Field;
use std::alloc::AllocError;
use std::collections::BTreeSet;
use wgsl_core::ty::Type;
use wgsl_core::ty::form::Form;
use wgsl_source::fault::Cause;
use wgsl_typing::extension::is_among;
use wgsl_typing::fault::Rule;

/// The stage of an entry point.
#[derive(Clone, Copy, PartialEq, Eq)]
pub enum ShaderStage {
    Vertex,
    Fragment,
    Compute,
}

impl ShaderStage {
    pub fn name(self) -> &'static str {
        match self {
            ShaderStage::Vertex => "vertex",
            ShaderStage::Fragment => "fragment",
            ShaderStage::Compute => "compute",
        }
    }
}

/// A built-in value: its name, its type (of an array N is one to eight), the stages that take it, and those that return it.
type BuiltIn = (&'static str, &'static str, &'static str, &'static str);

const BUILT_INS: [BuiltIn; 20] = [
    ("clip_distances", "array<f32, N>", "", "vertex"),
    ("frag_depth", "f32", "", "fragment"),
    ("front_facing", "bool", "fragment", ""),
    ("global_invocation_id", "vec3<u32>", "compute", ""),
    ("global_invocation_index", "u32", "compute", ""),
    ("instance_index", "u32", "vertex", ""),
    ("local_invocation_id", "vec3<u32>", "compute", ""),
    ("local_invocation_index", "u32", "compute", ""),
    ("num_subgroups", "u32", "compute", ""),
    ("num_workgroups", "vec3<u32>", "compute", ""),
    ("position", "vec4<f32>", "fragment", "vertex"),
    ("primitive_index", "u32", "fragment", ""),
    ("sample_index", "u32", "fragment", ""),
    ("sample_mask", "u32", "fragment", "fragment"),
    ("subgroup_id", "u32", "compute", ""),
    ("subgroup_invocation_id", "u32", "fragment compute", ""),
    ("subgroup_size", "u32", "fragment compute", ""),
    ("vertex_index", "u32", "vertex", ""),
    ("workgroup_id", "vec3<u32>", "compute", ""),
    ("workgroup_index", "u32", "compute", ""),
];

fn built_in(name: &str) -> Option<BuiltIn> {
    for row in &BUILT_INS {
        if row.0 == name {
            return Some(*row);
        }
    }
    None
}

/// One side of an entry point: what it takes, or what it returns, so far.
#[derive(Drop)]
struct Side<'t> {
    stage: ShaderStage,
    is_input: bool,
    locations: BTreeSet<(i64, i64)>,
    built_ins: BTreeSet<&'t str>,
}

/// What is wrong with a member, a parameter or a result. Names stand in its attributes, by the number of tokens up to them.
#[derive(Clone, Copy)]
enum Trouble {
    /// This, with its type.
    Type(&'static str),
    /// This, with a name.
    Name(usize, &'static str),
    /// A name that is no built-in value.
    NoBuiltIn(usize),
    /// A built-in value, and its type.
    OtherType(usize, &'static str),
    /// A name, and the extension that it needs.
    Disabled(usize, &'static str),
}

impl<'t> Checker<'t> {
    /// Checks what an entry point takes, or what it returns. Returns whether that is right.
    pub fn check_side(
        &mut self,
        stage: ShaderStage,
        is_input: bool,
        named: usize,
        fields: &[Field],
    ) -> Result<bool, AllocError>
        ensures { Keeps (state self.old) (state self.new) }
    {
        let mut side = Side {
            stage,
            is_input,
            locations: BTreeSet::new(self.expressions.alloc),
            built_ins: BTreeSet::new(self.expressions.alloc),
        };
        for field in fields {
            if !self.carry(&mut side, field)? {
                return Ok(false);
            }
        }
        if is_input || stage != ShaderStage::Vertex || side.built_ins.contains("position") {
            return Ok(true);
        }
        self.expressions
            .no(Rule::EntryPoint, named, "must return @builtin(position)")
    }

    /// Whether nothing is wrong with a member, a parameter or a result. Otherwise that is told.
    fn is_right(&mut self, field: &Field, trouble: Option<Trouble>) -> Result<bool, AllocError>
        ensures { Keeps (state self.old) (state self.new) }
    {
        match trouble {
            None => return Ok(true),
            Some(Trouble::Type(message)) => self.tell(Rule::EntryPoint, field.place, message)?,
            Some(Trouble::Name(count, message)) => {
                self.tell_name(Rule::EntryPoint, count, message)?
            }
            Some(Trouble::NoBuiltIn(count)) => {
                self.tell_name(Rule::EntryPoint, count, "is no built-in value")?;
                self.suggest(count, Cause::UnknownBuiltInValue)?;
            }
            Some(Trouble::OtherType(count, spelled)) => {
                self.tell_other_type(field, count, spelled)?
            }
            Some(Trouble::Disabled(count, extension)) => {
                let message = format!(in self.expressions.alloc; "needs `enable {extension};`")?;
                self.tell_name(Rule::Extension, count, message.as_str())?
            }
        }
        Ok(false)
    }

    /// Says that a built-in value has another type.
    fn tell_other_type(
        &mut self,
        field: &Field,
        count: usize,
        spelled: &str,
    ) -> Result<(), AllocError>
        ensures { Keeps (state self.old) (state self.new) }
    {
        let Some(ty) = &field.ty else {
            return Ok(());
        };
        let name = self.word(count);
        let message = format!(in self.expressions.alloc;
            "`{name}` must be `{spelled}`, not `{ty}`"
        )?;
        self.expressions
            .fault(Rule::EntryPoint, field.place, message)
    }

    /// What attributes ask of the type of a member, a parameter or a result, whoever uses it.
    pub fn check_io(&mut self, field: &Field, ty: &Type) -> Result<bool, AllocError>
        ensures { Keeps (state self.old) (state self.new) }
    {
        let trouble = self.trouble_of(field.attributes, ty);
        self.is_right(field, trouble)
    }

    fn trouble_of(&self, of: Attributes, ty: &Type) -> Option<Trouble> {
        if let Some(count) = self.name_in(of, Name::Builtin) {
            match built_in(self.word(count)) {
                None => return Some(Trouble::NoBuiltIn(count)),
                Some((_, spelled, _, _)) if !is_of(spelled, ty) => {
                    return Some(Trouble::OtherType(count, spelled));
                }
                Some((name, _, _, _)) => {
                    if let Some(extension) = self.missing(name) {
                        return Some(Trouble::Disabled(count, extension));
                    }
                }
            }
        }
        let has_location = self.has(of, Name::Location);
        if has_location && !is_carried(ty) {
            return Some(Trouble::Type("this type can't have a @location"));
        }
        if let Some(interpolate) = self.attribute(of, Name::Interpolate) {
            if !has_location {
                return Some(Trouble::Name(interpolate.named, "stands with @location"));
            }
            if is_integer(ty) && !self.says(of, Name::Interpolate, "flat") {
                return Some(Trouble::Name(interpolate.named, "of an integer is `flat`"));
            }
        }
        if let Some(source) = self.attribute(of, Name::BlendSrc) {
            if self.missing("blend_src").is_some() {
                return Some(Trouble::Disabled(source.named, "dual_source_blending"));
            }
            if !has_location || self.integer(of, Name::Location).unwrap_or(0) != 0 {
                return Some(Trouble::Name(source.named, "stands with @location(0)"));
            }
        }
        if let Some(invariant) = self.attribute(of, Name::Invariant) {
            if !self.says(of, Name::Builtin, "position") {
                return Some(Trouble::Name(invariant.named, "stands with @builtin(position)"));
            }
        }
        None
    }

    /// The extension that an attribute or a built-in value needs, if it isn't enabled.
    fn missing(&self, name: &str) -> Option<&'static str> {
        let extensions = self.expressions.extensions;
        let (is_enabled, extension) = match name {
            "blend_src" => (extensions.dual_source_blending, "dual_source_blending"),
            "clip_distances" => (extensions.clip_distances, "clip_distances"),
            "primitive_index" => (extensions.primitive_index, "primitive_index"),
            "subgroup_id" | "num_subgroups" | "subgroup_invocation_id" | "subgroup_size" => {
                (extensions.subgroups, "subgroups")
            }
            _ => return None,
        };
        if is_enabled { None } else { Some(extension) }
    }

    /// No two members of a struct have one `@location`.
    pub fn check_locations(&mut self, fields: &[Field]) -> Result<bool, AllocError>
        ensures { Keeps (state self.old) (state self.new) }
    {
        let mut seen = BTreeSet::new(self.expressions.alloc);
        for field in fields {
            if !self.is_free(&mut seen, field.attributes)? {
                return self.is_right(
                    field,
                    Some(Trouble::Type("a second member with this @location")),
                );
            }
        }
        Ok(true)
    }

    /// Whether the `@location`, with its `@blend_src`, isn't one of those before.
    fn is_free(&self, seen: &mut BTreeSet<(i64, i64)>, of: Attributes) -> Result<bool, AllocError> {
        let Some(location) = self.integer(of, Name::Location) else {
            return Ok(true);
        };
        let source = self.integer(of, Name::BlendSrc).unwrap_or(-1);
        Ok(seen.insert((location, source))?)
    }

    /// A parameter or a result: a value, or a struct of values.
    fn carry(&mut self, side: &mut Side<'t>, field: &Field) -> Result<bool, AllocError>
        ensures { Keeps (state self.old) (state self.new) }
    {
        let Some(ty) = &field.ty else {
            return Ok(true);
        };
        if side.stage == ShaderStage::Compute && !side.is_input {
            return self.is_right(
                field,
                Some(Trouble::Type("a compute shader returns nothing")),
            );
        }
        let is_value = self.has(field.attributes, Name::Location)
            || self.has(field.attributes, Name::Builtin);
        let index = match ty.form() {
            Form::Struct(of) if !is_value => self.expressions.names.get(of.name.as_str()).copied(),
            _ if !side.is_input && self.has(field.attributes, Name::BlendSrc) => {
                let message = "@blend_src is for members of a struct";
                return self.is_right(field, Some(Trouble::Type(message)));
            }
            _ => return self.carry_value(side, field, ty),
        };
        let Some(index) = index else {
            return Ok(false);
        };
        if !self.check_io(field, ty)? {
            return Ok(false);
        }
        let Some(interface) = self.take_interface(index) else {
            return Ok(true);
        };
        let mut is_fine = true;
        for member in &interface.fields {
            if let Some(ty) = &member.ty {
                is_fine = is_fine && self.carry_value(side, member, ty)?;
            }
        }
        self.keep(index, interface);
        Ok(is_fine)
    }

    fn carry_value(
        &mut self,
        side: &mut Side<'t>,
        field: &Field,
        ty: &Type,
    ) -> Result<bool, AllocError>
        ensures { Keeps (state self.old) (state self.new) }
    {
        let of = field.attributes;
        let trouble = match (
            self.name_in(of, Name::Builtin),
            self.has(of, Name::Location),
        ) {
            _ if matches!(ty.form(), Form::Struct(_)) => Some(Trouble::Type(
                "a struct can't stand here",
            )),
            (Some(_), true) => Some(Trouble::Type("@builtin and @location exclude each other")),
            (None, false) => Some(Trouble::Type("this needs @builtin or @location")),
            (built_in, _) => match (self.trouble_of(of, ty), built_in) {
                (None, Some(count)) => self.carry_built_in(side, count)?,
                (None, None) => self.carry_location(side, of, ty)?,
                (trouble, _) => trouble,
            },
        };
        self.is_right(field, trouble)
    }

    fn carry_built_in(
        &self,
        side: &mut Side<'t>,
        count: usize,
    ) -> Result<Option<Trouble>, AllocError> {
        let name = self.word(count);
        let stages = match built_in(name) {
            Some((_, _, inputs, _)) if side.is_input => inputs,
            Some((_, _, _, outputs)) => outputs,
            None => "",
        };
        Ok(if !is_among(side.stage.name(), stages) {
            Some(Trouble::Name(count, "can't stand here in this stage"))
        } else if !side.built_ins.insert(name)? {
            Some(Trouble::Name(count, "stands here twice"))
        } else {
            None
        })
    }

    fn carry_location(
        &self,
        side: &mut Side<'t>,
        of: Attributes,
        ty: &Type,
    ) -> Result<Option<Trouble>, AllocError> {
        let is_between = (side.stage == ShaderStage::Vertex) != side.is_input;
        let is_flat = self.says(of, Name::Interpolate, "flat");
        let is_output = side.stage == ShaderStage::Fragment && !side.is_input;
        Ok(if side.stage == ShaderStage::Compute {
            Some(Trouble::Type("a compute shader has no @location"))
        } else if !is_output && self.has(of, Name::BlendSrc) {
            Some(Trouble::Type("@blend_src is for what a fragment shader returns"))
        } else if is_between && is_integer(ty) && !is_flat {
            Some(Trouble::Type("an integer between stages needs @interpolate(flat)"))
        } else if !self.is_free(&mut side.locations, of)? {
            Some(Trouble::Type("this @location stands here twice"))
        } else {
            None
        })
    }
}

/// The type of the components of a vector; any other type itself.
pub fn component_of(ty: &Type) -> &Type {
    match ty.form() {
        Form::Vector(_, of) => of,
        _ => ty,
    }
}

/// Whether a type is that of an integer, or of a vector of integers.
fn is_integer(ty: &Type) -> bool {
    matches!(component_of(ty), Type::I32 | Type::U32)
}

/// Whether a value of the type is carried between stages: a number, or a vector of numbers.
fn is_carried(ty: &Type) -> bool {
    matches!(
        component_of(ty),
        Type::I32 | Type::U32 | Type::F32 | Type::F16
    )
}

/// Whether a type is that of a built-in value.
fn is_of(spelled: &str, ty: &Type) -> bool {
    match (spelled, ty.form()) {
        ("bool", _) => ty.is_bool(),
        ("u32", _) => ty.is_u32(),
        ("f32", _) => ty.is_f32(),
        ("vec3<u32>", Form::Vector(3, of)) => of.is_u32(),
        ("vec4<f32>", Form::Vector(4, of)) => of.is_f32(),
        ("array<f32, N>", Form::Array(Some(count), of)) => 1 <= count && count <= 8 && of.is_f32(),
        _ => false,
    }
}
