// Which line is an overload's, among those that are printed for its name.
ghost use Rattle.std.specs.Prelude.{◌≡◌, ◌<◌, ◌≤◌, ◌*◌, ◌^◌, ℕ, Bool, List, length, map};
ghost use Rattle.std.specs.List.{flat_map};
ghost use Rattle.std.specs.Option.{option_to_list};
ghost use Rattle.wgsl_syntax.specs.Operator.{binary_text};
ghost use Rattle.wgsl_rules.specs.standard.Signatures.{overload_lines, signature_lines};
ghost use Rattle.wgsl_standard.specs.Callees.{a_unary, callee_view};
ghost use Rattle.wgsl_standard.specs.Lines.{callees_before, lines_before as lines_there, unary_operators_named};
ghost use Rattle.wgsl_standard.specs.Texts.{texts_listed};

use crate::callee::{Callee, listed_overloads};
use crate::overload::parameters_of;
use crate::written::takes_either;
use wgsl_syntax::operator::{BinaryOperator, UnaryOperator};
use wgsl_syntax::overload::Overload;

/// The number of lines before those of an overload, which stands behind these others, without a template or with one.
pub(crate) fn lines_before(callee: Callee<'_>, has_template: bool, others: &[Overload]) -> usize
    requires { length others.now < 2 ^ 8 }
    ensures lines { result ≡ length (lines_there (callee_view callee.entry) has_template others.now) }
    ensures few { result < 2 ^ 11 }
{
    let before = lines_of_unary(callee) + line_count(others);
    if has_template {
        before + line_count(listed_overloads(callee, false))
    } else {
        before
    }
}

/// The number of lines of the unary operator that is written as a binary one is.
fn lines_of_unary(callee: Callee<'_>) -> usize
    ensures lines { result ≡ length (flat_map texts_listed (callees_before (callee_view callee.entry))) }
    ensures few { result < 2 ^ 9 }
{
    match callee {
        Callee::Binary(operator) => match written_alike(operator) {
            Some(unary) => line_count(listed_overloads(Callee::Unary(unary), false)),
            None => 0,
        },
        Callee::Unary(_) | Callee::Function(_) | Callee::Constructor(_) => 0,
    }
}

fn written_alike(operator: BinaryOperator) -> Option<UnaryOperator>
    ensures { map a_unary (option_to_list result) ≡ unary_operators_named (binary_text operator) }
{
    match operator {
        BinaryOperator::Subtraction => Some(UnaryOperator::Negation),
        BinaryOperator::Multiplication => Some(UnaryOperator::Indirection),
        BinaryOperator::BitwiseAnd => Some(UnaryOperator::AddressOf),
        _ => None,
    }
}

/// The number of lines of overloads.
fn line_count(overloads: &[Overload]) -> usize
    requires { length overloads.now < 2 ^ 8 }
    ensures lines { (name : List ℕ) (t : Bool) → length (signature_lines name t overloads.now) ≡ result }
    ensures few { result ≤ 2 * length overloads.now }
{
    let mut count = 0;
    for overload in overloads {
        count += lines_of(overload);
    }
    count
}

/// One, or two if the overload takes scalars or vectors.
pub(crate) fn lines_of(overload: &Overload) -> usize
    ensures lines { (name : List ℕ) (t : Bool) → length (overload_lines name t overload.now) ≡ result }
    ensures few { result ≤ 2 }
{
    if takes_either(parameters_of(overload)) {
        2
    } else {
        1
    }
}
