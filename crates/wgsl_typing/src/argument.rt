// Arguments that must be const-expressions, and ranges of arguments (WGSL, "Built-in Functions").
ghost use Rattle.std.specs.Prelude.{◌≡◌};
ghost use Rattle.wgsl_typing.specs.Stacks.{stack};

use crate::expressions::Expressions;
use crate::fault::Rule;
use crate::known::Part;
use crate::structs::behind;
use crate::value::Value;
use std::alloc::AllocError;
use wgsl_constants::vector::Vector;
use wgsl_core::ty::Type;
use wgsl_core::ty::form::Form;

impl<'t> Expressions<'t> {
    /// Whether the values of arguments are in the ranges of these types.
    pub fn values_fit(&mut self, arguments: &[Part], types: &[Type]) -> Result<bool, AllocError>
        ensures stack { stack self.new ≡ stack self.old }
    {
        let mut all_fit = true;
        for (argument, ty) in arguments.iter().zip(types) {
            all_fit = self.argument_value(argument, Some(ty))?.is_some() && all_fit;
        }
        Ok(all_fit)
    }

    /// The values of arguments in these types, or else in the type of bits; None where one that is out of range is told.
    pub fn values_in(
        &mut self,
        arguments: &[Part],
        types: &[Type],
        bits: Option<&Type>,
    ) -> Result<Option<Vec<Option<Value>>>, AllocError>
        ensures stack { stack self.new ≡ stack self.old }
    {
        let mut values = Vec::new(self.alloc);
        for (argument, ty) in arguments.iter().zip(types) {
            let ty = match bits {
                Some(bits) if !is_held(argument, ty) => bits,
                _ => ty,
            };
            match self.argument_value(argument, Some(ty))? {
                Some(value) => values.push(value)?,
                None => return Ok(None),
            }
        }
        Ok(Some(values))
    }

    /// Arguments that must be const-expressions, or lie in a range if they are: offsets and components of textures, invocations
    /// of a subgroup or a quad.
    pub fn check_constant(&mut self, name: &str, arguments: &[Part]) -> Result<(), AllocError>
        ensures stack { stack self.new ≡ stack self.old }
    {
        match name {
            "subgroupBroadcast" | "quadBroadcast" => {
                self.is_const_argument(arguments.get(1))?;
                self.check_invocation(name, arguments.get(1))
            }
            _ if name.starts_with("subgroupShuffle") => {
                self.check_invocation(name, arguments.get(1))
            }
            "textureGather" => {
                self.check_component(arguments.first())?;
                self.check_offset(arguments)
            }
            "textureGatherCompare" => self.check_offset(arguments),
            _ if name.starts_with("textureSample") => self.check_offset(arguments),
            _ => Ok(()),
        }
    }

    fn is_const_argument(&mut self, argument: Option<&Part>) -> Result<(), AllocError>
        ensures stack { stack self.new ≡ stack self.old }
    {
        if let Some(argument) = argument {
            if let Some(typed) = argument.typed() {
                if !typed.stage.is_const() {
                    return self.tell(Rule::Type, argument.place, "expected a const-expression");
                }
            }
        }
        Ok(())
    }

    /// An index of an invocation, or a difference or a mask of such indices: a quad has 4, a subgroup at most 128.
    fn check_invocation(&mut self, name: &str, argument: Option<&Part>) -> Result<(), AllocError>
        ensures stack { stack self.new ≡ stack self.old }
    {
        let (last, message) = if name == "quadBroadcast" {
            (3, "an index in a quad lies from 0 to 3")
        } else {
            (127, "an index in a subgroup lies from 0 to 127")
        };
        if let Some(argument) = argument {
            let index = argument.integer().unwrap_or(0);
            if index < 0 || index > last {
                return self.tell(Rule::Value, argument.place, message);
            }
        }
        Ok(())
    }

    fn check_component(&mut self, argument: Option<&Part>) -> Result<(), AllocError>
        ensures stack { stack self.new ≡ stack self.old }
    {
        let is_component = match argument {
            Some(argument) => match argument.typed() {
                Some(typed) => matches!(
                    behind(&typed.ty),
                    Type::I32 | Type::U32 | Type::AbstractInt
                ),
                None => false,
            },
            None => false,
        };
        if !is_component {
            return Ok(());
        }
        self.is_const_argument(argument)?;
        if let Some(argument) = argument {
            if !matches!(argument.integer(), None | Some(0..=3)) {
                self.tell(
                    Rule::Value,
                    argument.place,
                    "a texture has the components 0 to 3",
                )?;
            }
        }
        Ok(())
    }

    /// The offset of a texture function is the last argument, if that is a vector of integers and no coordinate.
    fn check_offset(&mut self, arguments: &[Part]) -> Result<(), AllocError>
        ensures stack { stack self.new ≡ stack self.old }
    {
        let Some(last) = arguments.last() else {
            return Ok(());
        };
        let is_offset = match last.typed() {
            Some(typed) => match behind(&typed.ty).form() {
                Form::Vector(_, of) => matches!(of, Type::I32 | Type::AbstractInt),
                _ => false,
            },
            None => false,
        };
        if arguments.len() < 3 || !is_offset {
            return Ok(());
        }
        self.is_const_argument(Some(last))?;
        if let Some(Value::Several(vector)) = last.value() {
            if !is_offset_value(vector) {
                self.tell(Rule::Value, last.place, "an offset lies from -8 to 7")?;
            }
        }
        Ok(())
    }

    /// Ranges that must not be empty, or lie outside of 32 bits. Where all integers are known the value's fault says it.
    pub fn check_ranges(&mut self, name: &str, arguments: &[Part]) -> Result<(), AllocError>
        ensures stack { stack self.new ≡ stack self.old }
    {
        let first = match name {
            _ if !self.is_evaluated() || are_integers(arguments) => return Ok(()),
            "extractBits" => 1,
            "insertBits" => 2,
            "clamp" => return self.check_clamp(arguments),
            _ => return Ok(()),
        };
        let sum = bits(arguments.get(first)).saturating_add(bits(arguments.get(first + 1)));
        if sum > 32 {
            if let Some(argument) = arguments.first() {
                self.tell(Rule::Value, argument.place, "these bits are out of range")?;
            }
        }
        Ok(())
    }

    fn check_clamp(&mut self, arguments: &[Part]) -> Result<(), AllocError>
        ensures stack { stack self.new ≡ stack self.old }
    {
        if let [x, low, high] = arguments {
            if x.value().is_none() && bits(Some(low)) > bits(Some(high)) && high.value().is_some() {
                self.tell(
                    Rule::Value,
                    x.place,
                    "the least value is above the greatest",
                )?;
            }
        }
        Ok(())
    }
}

/// The type in which `bitcast` to this type takes an AbstractInt that no `i32` holds: `u32`, if it makes that.
pub fn bits_in<'c>(name: &str, template: Option<&'c Type>) -> Option<&'c Type> {
    let ty = template?;
    let of = match ty.form() {
        Form::Vector(_, of) => of,
        _ => ty,
    };
    match of {
        Type::U32 if name == "bitcast" => Some(ty),
        _ => None,
    }
}

/// Whether a type holds the value of an argument, if this is known.
fn is_held(argument: &Part, ty: &Type) -> bool {
    match argument.value() {
        Some(value) => value.converted(ty).is_ok(),
        None => true,
    }
}

/// Whether each argument is an integer that is known.
fn are_integers(arguments: &[Part]) -> bool {
    for argument in arguments {
        if argument.integer().is_none() {
            return false;
        }
    }
    true
}

fn bits(argument: Option<&Part>) -> i64 {
    match argument {
        Some(argument) => argument.integer().unwrap_or(0),
        None => 0,
    }
}

fn is_offset_value(vector: Vector) -> bool {
    use wgsl_constants::vector::Component;
    for which in [
        Component::First,
        Component::Second,
        Component::Third,
        Component::Fourth,
    ] {
        if let Some(integer) = vector.component(which) {
            if integer.value() < -8 || integer.value() > 7 {
                return false;
            }
        }
    }
    true
}
