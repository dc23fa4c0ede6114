// Entry points and overrides: what a pipeline is created from.
ghost use Rattle.std.specs.Prelude.{◌≡◌, IfOk, IfSome};
ghost use Rattle.wgsl_source.specs.Members.{Grows};
ghost use Rattle.wgsl_source.specs.TextDeclarations.{HasScalar, IsDeclaredScalar, IsOfValue, of_entry_points, of_overrides, type_of_value};
ghost use Rattle.wgsl_source.specs.WrittenTypes.{environment, meaning_of};
ghost use Rattle.wgsl_source.specs.declared.types.Types.{Types as of_types};
ghost use Rattle.wgsl_source.specs.internal.Others.{IsReadOf};

use crate::attribute::Owner;
use crate::declaration::Declaration;
use crate::fault::{Cause, Stop};
use crate::initialized::Initialized;
use crate::scope::Scope;
use crate::types::Types;
use crate::value::Value;
use wgsl_constants::constant::Constant;
use wgsl_constants::integer::Integer;
use wgsl_constants::operator::to_i32;
use wgsl_reader::read::Event;
use wgsl_syntax::scalar::Scalar;

/// The stage of a pipeline for which a function is an entry point.
#[derive(Clone, Copy)]
pub enum Stage {
    /// `@vertex`
    Vertex,
    /// `@fragment`
    Fragment,
    /// `@compute`
    Compute,
}

impl Stage {
    /// The name of the stage, which is that of its attribute.
    pub fn name(self) -> &'static str {
        match self {
            Stage::Vertex => "vertex",
            Stage::Fragment => "fragment",
            Stage::Compute => "compute",
        }
    }
}

/// How many invocations a workgroup has in a dimension.
#[derive(Clone, Copy)]
pub enum WorkgroupExtent {
    Known(u32),
    /// The value of an override, which is known when the pipeline is created.
    Override,
}

/// An entry point: the function with which a pipeline stage starts.
#[derive(Clone, Copy)]
pub struct EntryPoint<'t> {
    pub name: &'t str,
    /// Where its name stands in the text.
    pub place: usize,
    pub stage: Stage,
    pub workgroup_size: Option<[WorkgroupExtent; 3]>,
}

/// An `override`: a value that is set when a pipeline is created.
#[derive(Clone, Copy)]
pub struct Override<'t> {
    pub name: &'t str,
    /// Where its name stands in the text.
    pub place: usize,
    /// The attribute `id`.
    pub id: Option<u32>,
    /// None if the type follows from the initializer, and that isn't read here.
    pub ty: Option<Scalar>,
    pub has_default: bool,
}

impl<'t> Scope<'t> {
    /// The function that a declaration declares, if it is an entry point.
    pub fn read_function(
        &self,
        declaration: &Declaration<'t>,
    ) -> Result<Option<EntryPoint<'t>>, Stop>
        ensures { IfOk result (IsReadOf (of_entry_points self.now.text (meaning_of self.now)) declaration.now) }
    {
        let (attributes, _) = self.read_attributes(declaration.attributes, Owner::Function)?;
        match attributes.stage {
            Some(stage) => Ok(Some(EntryPoint {
                name: declaration.name,
                place: declaration.place,
                stage,
                workgroup_size: attributes.workgroup_size,
            })),
            None => Ok(None),
        }
    }

    /// The override that a declaration declares.
    pub fn read_override(
        &self,
        types: &mut Types,
        declaration: &Declaration<'t>,
    ) -> Result<Option<Override<'t>>, Stop>
        ensures grows { Grows types.old types.new }
        ensures read { (later : of_types) → Grows types.new later
            → IfOk result (IsReadOf (of_overrides self.now.text (environment self.now later)) declaration.now) }
    {
        let (attributes, _) = self.read_attributes(declaration.attributes, Owner::Override)?;
        let initialized = self.initialized(declaration);
        Ok(Some(Override {
            name: declaration.name,
            place: declaration.place,
            id: attributes.id,
            ty: self.scalar_type(types, declaration.place, initialized)?,
            has_default: !initialized.value.is_empty(),
        }))
    }

    /// The type of an override whose name stands at this byte; None if it follows from its value, and that isn't computed here.
    fn scalar_type(
        &self,
        types: &mut Types,
        place: usize,
        initialized: Initialized,
    ) -> Result<Option<Scalar>, Stop>
        ensures grows { Grows types.old types.new }
        ensures read { IfOk result (HasScalar self.now.text (environment self.now types.new) initialized.entry.ty.now initialized.entry.value.now) }
    {
        match initialized.ty {
            [] if initialized.value.is_empty() => Err(Stop::at(place, Cause::NoType)),
            [] => self.default_type(initialized.value),
            ty => Ok(Some(self.read_scalar(types, ty)?)),
        }
    }

    fn read_scalar(&self, types: &mut Types, noted: &[Event]) -> Result<Scalar, Stop>
        ensures grows { Grows types.old types.new }
        ensures written { IfOk result (IsDeclaredScalar self.now.text (environment self.now types.new) noted.now) }
    {
        match self.type_noted(types, noted)?.as_scalar() {
            Some(scalar) => Ok(scalar),
            None => Err(Stop::at(self.first_token(noted).at, Cause::NotScalar)),
        }
    }

    /// The type of an override that follows from its value; None if that isn't read here.
    fn default_type(&self, value: &[Event]) -> Result<Option<Scalar>, Stop>
        ensures { IfOk result (λ ty. IfSome ty (IsOfValue self.now.text (meaning_of self.now) value.now)) }
    {
        match self.value_noted(value) {
            Ok(found) => match type_of_value(found.value) {
                Ok(ty) => Ok(ty),
                Err(cause) => Err(Stop::at(found.at, cause)),
            },
            Err(Stop::Fault(fault)) if fault.cause.is_of_other_value() => Ok(None),
            Err(stop) => Err(stop),
        }
    }
}

/// The type that an override has by its value. An AbstractInt becomes an `i32`, which may overflow.
fn type_of_value(value: Value) -> Result<Option<Scalar>, Cause>
    ensures { IfOk result (λ ty. ty ≡ type_of_value value) }
{
    let Value::Known(constant) = value else {
        return Ok(None);
    };
    Ok(Some(match constant {
        Constant::Integer(Integer::Abstract(number)) => {
            to_i32(number)?;
            Scalar::I32
        }
        Constant::Integer(Integer::I32(_)) => Scalar::I32,
        Constant::Integer(Integer::U32(_)) => Scalar::U32,
        Constant::Bool(_) => Scalar::Bool,
        Constant::Float(_) => Scalar::F32,
    }))
}
