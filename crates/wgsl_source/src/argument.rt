// The arguments of attributes.
ghost use Rattle.std.specs.Prelude.{◌≡◌, IfOk, drop};
ghost use Rattle.wgsl_source.specs.Attributes.{GiveExtents, GivesExtent, GivesNumber, IsExtent};
ghost use Rattle.wgsl_source.specs.Declarations.{argument_len};
ghost use Rattle.wgsl_source.specs.WrittenTypes.{meaning_of};

use crate::entry::WorkgroupExtent;
use crate::fault::{Cause, Stop};
use crate::meant::is_built_in_value;
use crate::parts::{split_argument, split_first, without_last};
use crate::scope::Scope;
use crate::value::Value;
use wgsl_constants::call::integer;
use wgsl_constants::constant::Constant;
use wgsl_constants::integer::Integer;
use wgsl_reader::read::Event;

impl<'t> Scope<'t> {
    /// The number that an argument gives, which ends with its `Argument`.
    #[tactic(auto, using(crate::proofs::Attributes::number_said))]
    pub fn read_number(&self, argument: &[Event]) -> Result<u32, Stop>
        ensures { IfOk result (GivesNumber self.now.text (meaning_of self.now) argument.now) }
    {
        let value = self.value_noted(without_last(argument))?;
        match integer_of(value.value) {
            Ok(integer) => match u32::try_from(integer.value()) {
                Ok(number) => Ok(number),
                Err(_) => Err(Stop::at(value.at, Cause::NegativeAttribute)),
            },
            Err(cause) => Err(Stop::at(value.at, cause)),
        }
    }

    /// The number that an argument gives, if it is a power of two.
    pub fn read_align(&self, argument: &[Event]) -> Result<u32, Stop>
        ensures { IfOk result (GivesNumber self.now.text (meaning_of self.now) argument.now) }
    {
        let align = self.read_number(argument)?;
        if align.is_power_of_two() {
            Ok(align)
        } else {
            let at = self.value_noted(without_last(argument))?.at;
            Err(Stop::at(at, Cause::AlignNotPower))
        }
    }

    /// Reads the name of a built-in value.
    pub fn read_built_in(&self, arguments: &[Event]) -> Result<(), Stop> {
        let Some((first, _)) = split_first(arguments) else {
            return Ok(());
        };
        let token = self.text.token_before(first.at);
        if self.extensions.foreign || is_built_in_value(self.text.word(token)) {
            Ok(())
        } else {
            Err(Stop::at(token.at, Cause::UnknownBuiltInValue))
        }
    }

    /// Reads the one to three extents of a workgroup; a missing one is 1.
    pub fn read_workgroup_size(&self, arguments: &[Event]) -> Result<[WorkgroupExtent; 3], Stop>
        ensures { IfOk result (GiveExtents self.now.text (meaning_of self.now) arguments.now) }
    {
        let (x, behind) = self.next_extent(arguments)?;
        let (y, behind) = self.next_extent(behind)?;
        let (z, _) = self.next_extent(behind)?;
        Ok([x, y, z])
    }

    /// The extent that the argument in front gives, and the arguments behind it.
    fn next_extent<'e>(
        &self,
        arguments: &'e [Event],
    ) -> Result<(WorkgroupExtent, &'e [Event]), Stop>
        ensures extent { IfOk result (λ r. GivesExtent self.now.text (meaning_of self.now) arguments.now (argument_len 0 arguments.now) r.0) }
        ensures behind { IfOk result (λ r. r.1.now ≡ drop (argument_len 0 arguments.now) arguments.now) }
    {
        match split_argument(arguments) {
            Some(split) => Ok((self.read_extent(split.front)?, split.rest)),
            None => Ok((WorkgroupExtent::Known(1), arguments)),
        }
    }

    #[tactic(auto, using(crate::proofs::Attributes::number_said))]
    fn read_extent(&self, argument: &[Event]) -> Result<WorkgroupExtent, Stop>
        ensures { IfOk result (IsExtent self.now.text (meaning_of self.now) argument.now) }
    {
        let value = self.value_noted(without_last(argument))?;
        if let Value::Later = value.value {
            return Ok(WorkgroupExtent::Override);
        }
        match integer_of(value.value) {
            Ok(integer) => match u32::try_from(integer.value()) {
                Ok(number) if number > 0 => Ok(WorkgroupExtent::Known(number)),
                _ => Err(Stop::at(value.at, Cause::EmptyWorkgroup)),
            },
            Err(cause) => Err(Stop::at(value.at, cause)),
        }
    }
}

fn integer_of(value: Value) -> Result<Integer, Cause>
    ensures { IfOk result (λ i. value ≡ Value.Known (Constant.Integer i)) }
{
    match value {
        Value::Known(constant) => Ok(integer(constant)?),
        Value::Vector(_) => Err(Cause::NotInteger),
        Value::Later => Err(Cause::KnownLater),
    }
}
