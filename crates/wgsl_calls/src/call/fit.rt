// Whether a row takes a call.
ghost use Rattle.std.specs.Prelude.{◌≡◌, ◌↔◌, IsTrue, IsSome, None, length, map};
ghost use Rattle.wgsl_rules.specs.calls.Rows.{shapes_of, AllAre, BeginAs, HaveSameAbstractness, HaveEqualLengths, Holds, Fits};
ghost use Rattle.wgsl_core.specs.View.{view};
ghost use Rattle.wgsl_calls.specs.Calls.{signature_of};
ghost use Rattle.wgsl_calls.specs.internal.Answers.{template_of};

use crate::call::shape::is;
use wgsl_core::signature::TpltParam;
use wgsl_core::ty::Type;
use wgsl_core::ty::form::Form;
use wgsl_syntax::call::{Arguments, Condition, Row};

/// A call by name: its template parameters if it has a template, and the types of its arguments.
#[derive(Clone, Copy)]
pub struct NamedCall<'a> {
    pub name: &'a str,
    pub template: Option<&'a [TpltParam]>,
    pub args: &'a [Type],
}

/// Whether the row takes the call.
#[inline(always)]
pub fn fits(row: &Row, call: &NamedCall<'_>) -> bool
    ensures { IsTrue result ↔ Fits row.now (signature_of call.now) }
{
    match row {
        Row::Takes(arguments, _) => !has_template(call) && are(arguments, call.args),
        Row::TakesAtLeast(arguments, _) => !has_template(call) && begin_as(arguments, call.args),
        Row::TakesWhere(arguments, condition, _) => {
            !has_template(call) && are(arguments, call.args) && holds(*condition, call.args)
        }
        Row::TakesWithTemplate(arguments, _) => has_template(call) && are(arguments, call.args),
    }
}

#[tactic(auto, using(crate::proofs::Fitting::none_or_some))]
fn has_template(call: &NamedCall<'_>) -> bool
    ensures some { IsTrue result ↔ IsSome (template_of call.now) }
    ensures none { ¬ IsTrue result ↔ (template_of call.now ≡ None) }
{
    call.template.is_some()
}

/// Whether there are as many arguments as required, and each has its shape.
#[tactic(auto, using(crate::proofs::Fitting::as_many))]
#[inline(always)]
fn are(arguments: &Arguments, args: &[Type]) -> bool
    ensures { IsTrue result ↔ AllAre (shapes_of arguments.now) (map view args.now) }
{
    args.len() == count(arguments) && begin_as(arguments, args)
}

fn count(arguments: &Arguments) -> usize
    ensures { result ≡ length (shapes_of arguments.now) }
{
    match arguments {
        Arguments::Nothing => 0,
        Arguments::One(_) => 1,
        Arguments::Two(_, _) => 2,
        Arguments::Three(_, _, _) => 3,
        Arguments::Four(_, _, _, _) => 4,
    }
}

/// Whether the first arguments have the required shapes.
#[inline(always)]
fn begin_as(arguments: &Arguments, args: &[Type]) -> bool
    ensures { IsTrue result ↔ BeginAs (shapes_of arguments.now) (map view args.now) }
{
    match arguments {
        Arguments::Nothing => true,
        Arguments::One(first) => match args {
            [a, ..] => is(first, a),
            _ => false,
        },
        Arguments::Two(first, second) => match args {
            [a, b, ..] => is(first, a) && is(second, b),
            _ => false,
        },
        Arguments::Three(first, second, third) => match args {
            [a, b, c, ..] => is(first, a) && is(second, b) && is(third, c),
            _ => false,
        },
        Arguments::Four(first, second, third, fourth) => match args {
            [a, b, c, d, ..] => { is(first, a) && is(second, b) && is(third, c) && is(fourth, d) }
            _ => false,
        },
    }
}

fn holds(condition: Condition, args: &[Type]) -> bool
    ensures { IsTrue result ↔ Holds condition (map view args.now) }
{
    if args.len() < 2 {
        return false;
    }
    match condition {
        Condition::EqualLengths => have_equal_lengths(&args[0], &args[1]),
        Condition::SameAbstractness => have_same_abstractness(&args[0], &args[1]),
    }
}

fn have_equal_lengths(first: &Type, second: &Type) -> bool
    ensures { IsTrue result ↔ HaveEqualLengths (view first.now) (view second.now) }
{
    match (first.form(), second.form()) {
        (Form::Vector(n, _), Form::Vector(m, _)) => n == m,
        _ => false,
    }
}

fn have_same_abstractness(first: &Type, second: &Type) -> bool
    ensures { IsTrue result ↔ HaveSameAbstractness (view first.now) (view second.now) }
{
    first.is_abstract() == second.is_abstract()
}
