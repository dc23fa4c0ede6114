// Constructors of structs.
ghost use Rattle.std.specs.Prelude.{◌≡◌, Err, None, Ok, length, map, option_map};
ghost use Rattle.wgsl_rules.specs.constructors.Constructors.{IsFilled, IsStructCall};
ghost use Rattle.wgsl_core.specs.View.{view, struct_view};
ghost use Rattle.wgsl_core.specs.internal.View.{members_view};
ghost use Rattle.wgsl_core.specs.Answer.{AnswersAs, IsAnswered};
ghost use Rattle.wgsl_calls.specs.internal.Constructors.{IsMisfitAt};

use crate::constructor::{refuse_count, refuse_parameter};
use std::alloc::Global;
use wgsl_core::error::{Error, Fail};
use wgsl_core::ty::{StructMemberType, StructType, Type};

/// Checks the arguments of a struct's constructor (WGSL, "Structures"): none, or one per member, which converts to its
/// type. Else `ParamCount` has the struct's name, the number of members and the number of arguments; `ParamType` has
/// the type of the first member to which its argument doesn't convert, and that argument.
pub fn typecheck_struct_ctor(
    alloc: Global,
    s: &StructType,
    args: &[Type],
) -> Result<(), Fail<Error>>
    ensures row { AnswersAs (λ u. u)
        (IsStructCall (struct_view s.now).name (struct_view s.now).members (map view args.now))
        result }
    ensures never_out_of_memory { IsStructCall (struct_view s.now).name (struct_view s.now).members
        (map view args.now) (Ok tt) → IsAnswered result }
{
    match args {
        [] => Ok(()),
        _ => check_members(alloc, s, args),
    }
}

fn check_members(alloc: Global, s: &StructType, args: &[Type]) -> Result<(), Fail<Error>>
    ensures row { AnswersAs (λ u. u)
        (IsFilled (struct_view s.now).name (struct_view s.now).members (map view args.now)) result }
    ensures never_out_of_memory { IsFilled (struct_view s.now).name (struct_view s.now).members
        (map view args.now) (Ok tt) → IsAnswered result }
{
    let members = s.members.as_slice();
    if members.len() != args.len() {
        return Err(Fail::Error(refuse_count(alloc, s.name.as_str(), members.len(), args.len())?));
    }
    match first_misfit(members, args) {
        Some((member, arg)) => Err(Fail::Error(refuse_parameter(alloc, &member.ty, arg)?)),
        None => Ok(()),
    }
}

fn first_misfit<'a>(
    members: &'a [StructMemberType],
    args: &'a [Type],
) -> Option<(&'a StructMemberType, &'a Type)>
    ensures { length members.now ≡ length args.now →
        IsMisfitAt (members_view members.now) (map view args.now)
        (option_map (λ p. (view p.0.now.ty, view p.1.now)) result) }
{
    for (member, arg) in members.iter().zip(args) {
        if !arg.is_convertible_to(&member.ty) {
            return Some((member, arg));
        }
    }
    None
}
