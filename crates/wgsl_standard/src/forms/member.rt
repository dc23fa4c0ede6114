// Members of structs and components of vectors.
ghost use Rattle.std.specs.Prelude.{◌≡◌, nat_eq, take, option_map};
ghost use Rattle.wgsl_standard.specs.forms.Prelude.{list_any, struct, vec, view, members_view, given_type};
ghost use Rattle.wgsl_standard.specs.forms.Member.{are_among as all_among, are_components as all_components, are_distinct as all_distinct, are_several, is_swizzle as swizzle, member_answer, member_named as named_there, part_named as part_there, part_of_letters as letters_name};
ghost use Rattle.wgsl_standard.specs.forms.Views.{answer_view, element_view, form_view, given};
ghost use Rattle.wgsl_standard.specs.forms.internal.Letters.{letters_of};
ghost use Rattle.wgsl_standard.specs.forms.internal.Parts.{part_view};

use crate::forms::form::Form;
use crate::forms::prelude::*;
use wgsl_core::ty::form::Form as TypeForm;

/// What a name stands for in a type.
#[derive(Clone, Copy)]
enum Part<'a> {
    /// The type of a member.
    Member(&'a Type),
    /// The type of a component.
    Component(Element<'a>),
    /// The number of components, and their type.
    Components(u8, Element<'a>),
}

/// The letters of the components, in order.
#[derive(Clone, Copy)]
struct Letters {
    first: u8,
    second: u8,
    third: u8,
    fourth: u8,
}

const XYZW: Letters = Letters {
    first: b'x',
    second: b'y',
    third: b'z',
    fourth: b'w',
};

const RGBA: Letters = Letters {
    first: b'r',
    second: b'g',
    third: b'b',
    fourth: b'a',
};

/// What `x.name` is (WGSL, "Structure Access" and "Vector Access"): a member, a component, or several components. In memory it
/// is a reference, unless a letter of several components stands twice. `Component` if there is no such part, and of several
/// components what a load refuses.
#[inline(always)]
#[tactic(auto, using(crate::proofs::References::refers, crate::proofs::References::loads, crate::proofs::References::refers_to))]
pub fn type_of_member<'a>(x: &Operand<'a>, name: &'a str) -> Result<Form<'a>, Refusal<'a>>
    ensures { answer_view form_view result ≡ member_answer (given x.now) name.now }
{
    let whole = behind(x.ty);
    let is_constant = is_const_expression(x);
    match part_named(whole.ty, name) {
        Some(Part::Member(ty)) => Ok(Form {
            ty: FormType {
                memory: reference_to(whole.memory, Referent::Whole),
                of: UnbuiltType::of_type(ty),
            },
            is_constant,
        }),
        Some(Part::Component(element)) => Ok(Form {
            ty: FormType {
                memory: reference_to(whole.memory, Referent::Component),
                of: UnbuiltType::single(element),
            },
            is_constant,
        }),
        Some(Part::Components(count, element)) => {
            load_in(whole.memory, whole.ty)?;
            let memory = if are_distinct(name.as_bytes()) {
                reference_to(whole.memory, Referent::Swizzle)
            } else {
                None
            };
            Ok(Form {
                ty: FormType {
                    memory,
                    of: UnbuiltType::within(Layer::Vec(count), element),
                },
                is_constant,
            })
        }
        None => Err(Refusal::Component(UnbuiltType::of(whole.ty), name)),
    }
}

/// Whether `x.name` is a swizzle of a reference, if it has a type: several components in memory, each once.
pub fn is_swizzle(x: &Operand<'_>, name: &str) -> bool
    ensures { result ≡ swizzle (given x.now) name.now }
{
    let whole = behind(x.ty);
    whole.memory.is_some()
        && is_several(part_named(whole.ty, name))
        && are_distinct(name.as_bytes())
}

fn is_several(part: Option<Part<'_>>) -> bool
    ensures { result ≡ are_several (option_map part_view part.entry) }
{
    matches!(part, Some(Part::Components(_, _)))
}

/// Whether no letter stands twice.
fn are_distinct(letters: &[u8]) -> bool
    ensures { result ≡ all_distinct letters.now }
{
    match letters {
        [first, rest @ ..] => !contains(rest, *first) && are_distinct(rest),
        [] => true,
    }
}

fn contains(letters: &[u8], letter: u8) -> bool
    ensures { result ≡ list_any (λ l. nat_eq l letter) letters.now }
{
    letters.iter().any(|other| *other == letter)
}

/// What the name stands for in the type.
#[inline(always)]
fn part_named<'a>(ty: OperandType<'a>, name: &str) -> Option<Part<'a>>
    ensures { option_map part_view result ≡ part_there (given_type ty.entry) name.now }
{
    match ty {
        OperandType::Value(Dimensions::Vector(n), scalar) => {
            component_named(n, Element::Value(Dimensions::Single, scalar), name)
        }
        OperandType::Value(_, _) => None,
        OperandType::Any(of) => match of.form() {
            TypeForm::Struct(s) => {
                let ty = member_named(&s.members, name)?;
                Some(Part::Member(ty))
            }
            TypeForm::Vector(n, element) => component_named(n, Element::Any(element), name),
            _ => None,
        },
    }
}

/// The type of the first member with the name.
fn member_named<'a>(members: &'a Vec<StructMemberType>, name: &str) -> Option<&'a Type>
    ensures { option_map (λ t. view t.now) result
        ≡ named_there (members_view members.now.items) name.now }
{
    for member in members {
        if member.name.as_str() == name {
            return Some(&member.ty);
        }
    }
    None
}

/// What the name stands for in a vector.
#[inline(always)]
fn component_named<'a>(n: u8, element: Element<'a>, name: &str) -> Option<Part<'a>>
    ensures { option_map part_view result
        ≡ part_there (vec n (element_view element.entry)) name.now }
{
    if are_components(n, name.as_bytes()) {
        part_of_letters(name.as_bytes(), element)
    } else {
        None
    }
}

fn part_of_letters<'a>(letters: &[u8], element: Element<'a>) -> Option<Part<'a>>
    ensures { option_map part_view result ≡ letters_name letters.now (element_view element.entry) }
{
    match letters {
        [_] => Some(Part::Component(element)),
        [_, _] => Some(Part::Components(2, element)),
        [_, _, _] => Some(Part::Components(3, element)),
        [_, _, _, _] => Some(Part::Components(4, element)),
        _ => None,
    }
}

/// Whether all letters are among the first n of `xyzw`, or all among the first n of `rgba`.
#[inline(always)]
fn are_components(n: u8, name: &[u8]) -> bool
    ensures { result ≡ all_components n name.now }
{
    are_among(n, XYZW, name) || are_among(n, RGBA, name)
}

fn are_among(n: u8, letters: Letters, name: &[u8]) -> bool
    ensures { result ≡ all_among (take n (letters_of letters)) name.now }
{
    name.iter().all(|letter| is_among(n, letters, *letter))
}

fn is_among(n: u8, letters: Letters, letter: u8) -> bool
    ensures { result ≡ list_any (λ l. nat_eq l letter) (take n (letters_of letters)) }
{
    if letters.first == letter {
        0 < n
    } else if letters.second == letter {
        1 < n
    } else if letters.third == letter {
        2 < n
    } else {
        letters.fourth == letter && 3 < n
    }
}
