// Values of a list: arguments of functions and of constructors, conditions and returned values.
ghost use Rattle.std.specs.Prelude.{◌≡◌, length, map};
ghost use Rattle.wgsl_standard.specs.forms.Prelude.{view, members_view, given_type, types_given};
ghost use Rattle.wgsl_standard.specs.forms.Lists.{all_fit as all_fit_there, are_parameters as parameters_there, constructed, counted, each_fits as each_fits_there, fits as fits_there, list_fits, member_types, members_fit as members_fit_there, taker_name, words_of as words_there};
ghost use Rattle.wgsl_standard.specs.forms.Views.{answer_view, refusal_view, taker_view};

use crate::forms::prelude::*;

/// What takes values.
#[derive(Clone, Copy)]
pub enum Taker<'a> {
    /// A function, by its name.
    Function(&'a str),
    /// `if`, `while`, `const_assert`
    Condition,
    /// `return`
    Return,
}

impl<'a> Taker<'a> {
    fn name(self) -> &'a str
        ensures { result.now ≡ taker_name (taker_view self.entry) }
    {
        match self {
            Taker::Function(name) => name,
            Taker::Condition => "if",
            Taker::Return => "return",
        }
    }

    /// A refusal in the words of what takes the values.
    fn words_of(self, refusal: Refusal<'a>) -> Refusal<'a>
        ensures { refusal_view result ≡ words_there (taker_view self.entry) (refusal_view refusal.entry) }
    {
        match (self, refusal) {
            (Taker::Condition, Refusal::ParamType(_, found)) => Refusal::NotCondition(found),
            (Taker::Return, Refusal::ParamType(ty, found)) => Refusal::NotReturned(ty, found),
            (_, refusal) => refusal,
        }
    }
}

/// Whether parameters of these types take the values (WGSL, "Function Calls"), a condition its value, or `return` what the
/// function returns. Refused, in this order, by `NotConstructible` of a parameter that is abstract or neither constructible nor
/// a pointer nor a handle, by `ParamCount`, and for the first value that doesn't fit by its load or `ParamType`, of which a
/// condition makes `NotCondition`, and `return` `NotReturned`.
pub fn fit<'a>(
    taker: Taker<'a>,
    values: &[Operand<'a>],
    types: &'a [Type],
) -> Result<(), Refusal<'a>>
    ensures { answer_view (λ u. tt) result
        ≡ list_fits (taker_view taker.entry) (map view types.now) (types_given values.now) }
{
    are_parameters(types)?;
    count_is(taker.name(), types.len(), values.len())?;
    match each_fits(types, values) {
        Ok(()) => Ok(()),
        Err(refusal) => Err(taker.words_of(refusal)),
    }
}

/// Whether parameters may have these types. Refused by `NotConstructible` of the first that is abstract, or neither
/// constructible nor a pointer nor a handle.
pub fn are_parameters<'a>(types: &'a [Type]) -> Result<(), Refusal<'a>>
    ensures { answer_view (λ u. tt) result ≡ parameters_there (map view types.now) }
{
    for ty in types {
        if !is_let_type(ty) {
            return Err(Refusal::NotConstructible(UnbuiltType::of_type(ty)));
        }
    }
    Ok(())
}

/// Whether what has the name takes that many values.
pub(crate) fn count_is<'a>(name: &'a str, expected: usize, found: usize) -> Result<(), Refusal<'a>>
    ensures { answer_view (λ u. tt) result ≡ counted name.now expected found }
{
    if expected == found {
        Ok(())
    } else {
        Err(Refusal::ParamCount(name, expected, found))
    }
}

fn each_fits<'a>(types: &'a [Type], values: &[Operand<'a>]) -> Result<(), Refusal<'a>>
    requires { length types.now ≡ length values.now }
    ensures { answer_view (λ u. tt) result
        ≡ each_fits_there (map view types.now) (types_given values.now) }
{
    for i in 0..types.len() {
        fits(&types[i], values[i].ty)?;
    }
    Ok(())
}

/// Whether a parameter of the type takes a value.
pub(crate) fn fits<'a>(ty: &'a Type, value: OperandType<'a>) -> Result<(), Refusal<'a>>
    ensures { answer_view (λ u. tt) result ≡ fits_there (view ty.now) (given_type value.entry) }
{
    let value = load_type(value)?;
    if converts(value, ty) {
        Ok(())
    } else {
        Err(Refusal::ParamType(UnbuiltType::of_type(ty), UnbuiltType::of(value)))
    }
}

/// The type that a struct's constructor makes: the struct (WGSL, "Structure Value Constructors"). Refused, in this order, by
/// `NotConstructible`, also of what is no struct, by `ParamCount` unless there are no values, and for the first value that
/// doesn't fit its member by its load or `ParamType`.
pub fn construct_struct<'a>(ty: &'a Type, values: &[Operand<'a>]) -> Result<&'a Type, Refusal<'a>>
    ensures { answer_view (λ t. view t.now) result
        ≡ constructed (view ty.now) (types_given values.now) }
{
    match ty.form() {
        Form::Struct(s) => {
            if !is_constructible(ty) {
                return Err(Refusal::NotConstructible(UnbuiltType::of_type(ty)));
            }
            members_fit(s.name.as_str(), &s.members, values)?;
            Ok(ty)
        }
        _ => Err(Refusal::NotConstructible(UnbuiltType::of_type(ty))),
    }
}

#[tactic(auto, using(crate::proofs::MemberTypes::as_many))]
fn members_fit<'a>(
    name: &'a str,
    members: &'a [StructMemberType],
    values: &[Operand<'a>],
) -> Result<(), Refusal<'a>>
    ensures { answer_view (λ u. tt) result
        ≡ members_fit_there name.now (member_types (members_view members.now))
        (types_given values.now) }
{
    if values.is_empty() {
        return Ok(());
    }
    count_is(name, number_of(members), values.len())?;
    each_member_fits(members, values)
}

#[tactic(auto, using(crate::proofs::MemberTypes::as_many))]
fn number_of(members: &[StructMemberType]) -> usize
    ensures { result ≡ length (member_types (members_view members.now)) }
{
    members.len()
}

fn each_member_fits<'a>(
    members: &'a [StructMemberType],
    values: &[Operand<'a>],
) -> Result<(), Refusal<'a>>
    requires { length members.now ≡ length values.now }
    ensures { answer_view (λ u. tt) result
        ≡ each_fits_there (member_types (members_view members.now)) (types_given values.now) }
{
    for i in 0..members.len() {
        fits(&members[i].ty, values[i].ty)?;
    }
    Ok(())
}

/// Whether a parameter of the type takes each of the values.
pub(crate) fn all_fit<'a>(ty: &'a Type, values: &[Operand<'a>]) -> Result<(), Refusal<'a>>
    ensures { answer_view (λ u. tt) result ≡ all_fit_there (view ty.now) (types_given values.now) }
{
    for value in values {
        fits(ty, value.ty)?;
    }
    Ok(())
}
