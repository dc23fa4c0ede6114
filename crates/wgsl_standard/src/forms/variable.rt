// Variables, and which types those of an address space can hold.
ghost use Rattle.std.specs.Prelude.{◌≡◌, None, Some, option_map};
ghost use Rattle.wgsl_standard.specs.forms.Prelude.{reference, view, member_view, members_view, given_type};
ghost use Rattle.wgsl_standard.specs.forms.Variable.{access_of as access_there, ends_in_array as ends_there, has_initializer as initializer_there, holds as holds_there, initialized_variable as initialized_there, is_handle_or_array as handle_there, may_end as may_end_there, may_end_members as members_end_there, may_initialize as may_initialize_there, not_held as not_held_there, stored, variable as variable_there};
ghost use Rattle.wgsl_standard.specs.forms.Views.{answer_view, form_type_view, given, refusal_view, unbuilt_view};

use crate::forms::prelude::*;

/// Whether the type has a fixed footprint, or ends in a runtime-sized array.
fn ends_in_array(atomics: bool, ty: &Type) -> bool
    ensures { result ≡ ends_there atomics (view ty.now) }
{
    match ty.form() {
        Form::Struct(s) => members_end_in_array(atomics, &s.members),
        _ => may_end(atomics, ty),
    }
}

fn members_end_in_array(atomics: bool, members: &[StructMemberType]) -> bool
    ensures { result ≡ members_end_there atomics (members_view members.now) }
{
    match members.split_last() {
        Some((last, rest)) => have_fixed_footprint(atomics, rest) && member_may_end(atomics, last),
        None => true,
    }
}

fn member_may_end(atomics: bool, member: &StructMemberType) -> bool
    ensures { result ≡ may_end_there atomics (member_view member.now).ty }
{
    may_end(atomics, &member.ty)
}

fn may_end(atomics: bool, ty: &Type) -> bool
    ensures { result ≡ may_end_there atomics (view ty.now) }
{
    match ty.form() {
        Form::Array(None, element) => has_fixed_footprint(atomics, element),
        _ => has_fixed_footprint(atomics, ty),
    }
}

/// Whether a variable of the address space, with that access mode, holds the type (WGSL, "Address Spaces").
pub fn holds(space: AddressSpace, access: AccessMode, ty: &Type) -> bool
    ensures { result ≡ holds_there space access (view ty.now) }
{
    match space {
        AddressSpace::Function | AddressSpace::Private => is_const_type(ty),
        AddressSpace::Workgroup => has_fixed_footprint(true, ty) && !has_abstract_type(ty),
        AddressSpace::Uniform => is_host_shareable(ty) && is_constructible(ty),
        AddressSpace::PushConstant => {
            is_host_shareable(ty) && is_constructible(ty) && has_no_array(ty)
        }
        AddressSpace::Storage => {
            is_host_shareable(ty) && ends_in_array(access == AccessMode::ReadWrite, ty)
        }
        AddressSpace::Handle => is_handle_or_array(ty),
    }
}

fn is_handle_or_array(ty: &Type) -> bool
    ensures { result ≡ handle_there (view ty.now) }
{
    match ty.form() {
        Form::BindingArray(_, _) => true,
        _ => is_handle(ty),
    }
}

/// The reference that a variable without a value is (WGSL, "Variable Declarations"): in `function`, `private` and `workgroup`
/// to memory that is read and written, elsewhere to memory that is read, if the access mode isn't said. Refused, in this
/// order, by `AccessMode`, by `NotConstructible` in `function` and `private`, by `NotInSpace` elsewhere.
pub fn variable<'a>(
    space: AddressSpace,
    access: Option<AccessMode>,
    ty: &'a Type,
) -> Result<FormType<'a>, Refusal<'a>>
    ensures { answer_view form_type_view result ≡ variable_there space access (view ty.now) }
{
    let access = access_of(space, access)?;
    if !holds(space, access, ty) {
        return Err(not_held(space, UnbuiltType::of_type(ty)));
    }
    Ok(reference(space, access, UnbuiltType::of_type(ty)))
}

/// The access mode of a variable: the one that it says, if it may, or the default of the address space.
fn access_of<'a>(space: AddressSpace, access: Option<AccessMode>) -> Result<AccessMode, Refusal<'a>>
    ensures { answer_view (λ access. access) result ≡ access_there space access }
{
    match access {
        Some(access) => {
            if space.may_say(access) {
                Ok(access)
            } else {
                Err(Refusal::AccessMode(space, access))
            }
        }
        None => Ok(space.default_access_mode()),
    }
}

fn not_held<'a>(space: AddressSpace, ty: UnbuiltType<'a>) -> Refusal<'a>
    ensures { refusal_view result ≡ not_held_there space (unbuilt_view ty.entry) }
{
    match space {
        AddressSpace::Function | AddressSpace::Private => Refusal::NotConstructible(ty),
        _ => Refusal::NotInSpace(space, ty),
    }
}

fn reference<'a>(space: AddressSpace, access: AccessMode, of: UnbuiltType<'a>) -> FormType<'a>
    ensures { form_type_view result ≡ reference space (unbuilt_view of.entry) access }
{
    FormType {
        memory: Some(MemoryView::Reference(Referent::Whole, space, access)),
        of,
    }
}

/// The reference that a variable with a value is, and perhaps with a type. Refused, in this order, by `AccessMode`, by
/// `Initialized` outside of `function` and `private`, by `NotConst` in `private`, by `NotConstructible` of the type, by the
/// load, by `NotConstructible` of the value, by `Conversion`.
pub fn initialized_variable<'a>(
    space: AddressSpace,
    access: Option<AccessMode>,
    value: &Operand<'a>,
    ty: Option<&'a Type>,
) -> Result<FormType<'a>, Refusal<'a>>
    ensures { answer_view form_type_view result
        ≡ initialized_there space access (given value.now) (option_map (λ t. view t.now) ty.entry) }
{
    let access = access_of(space, access)?;
    if !has_initializer(space) {
        return Err(Refusal::Initialized(space));
    }
    if !may_initialize(space, value) {
        return Err(Refusal::NotConst);
    }
    let of = stored(value.ty, ty)?;
    Ok(reference(space, access, of))
}

fn has_initializer(space: AddressSpace) -> bool
    ensures { result ≡ initializer_there space }
{
    matches!(space, AddressSpace::Function | AddressSpace::Private)
}

fn may_initialize(space: AddressSpace, value: &Operand<'_>) -> bool
    ensures { result ≡ may_initialize_there space (given value.now) }
{
    match space {
        AddressSpace::Private => is_const_expression(value),
        _ => true,
    }
}

/// The store type of a variable with a value.
fn stored<'a>(value: OperandType<'a>, ty: Option<&'a Type>) -> Result<UnbuiltType<'a>, Refusal<'a>>
    ensures { answer_view unbuilt_view result
        ≡ stored (given_type value.entry) (option_map (λ t. view t.now) ty.entry) }
{
    match ty {
        Some(ty) => stored_as(value, ty),
        None => stored_value(value),
    }
}

fn stored_as<'a>(value: OperandType<'a>, ty: &'a Type) -> Result<UnbuiltType<'a>, Refusal<'a>>
    ensures { answer_view unbuilt_view result
        ≡ stored (given_type value.entry) (Some (view ty.now)) }
{
    if !is_const_type(ty) {
        return Err(Refusal::NotConstructible(UnbuiltType::of_type(ty)));
    }
    let loaded = load_type(value)?;
    convert_to(loaded, ty)
}

fn stored_value<'a>(value: OperandType<'a>) -> Result<UnbuiltType<'a>, Refusal<'a>>
    ensures { answer_view unbuilt_view result ≡ stored (given_type value.entry) None }
{
    let loaded = load_type(value)?;
    let ty = concrete(loaded);
    if operand_is_constructible(loaded) {
        Ok(ty)
    } else {
        Err(Refusal::NotConstructible(ty))
    }
}
