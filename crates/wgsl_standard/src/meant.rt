// Which name a call may have meant, if nothing has its name.
ghost use Rattle.std.specs.Prelude.{◌≡◌, map, option_map};
ghost use Rattle.std.specs.List.{fold};
ghost use Rattle.wgsl_rules.specs.standard.Names.{names_of};
ghost use Rattle.wgsl_syntax.specs.Nearest.{nearest_of, nearest_view, offered};
ghost use Rattle.wgsl_standard.specs.Callees.{callee_view, unknown_name as unknown_there};
ghost use Rattle.wgsl_standard.specs.Meant.{meant as meant_there, meant_type as meant_type_there, names_called};
ghost use Rattle.wgsl_standard.specs.internal.Rows.{function_of, row_of};

use crate::callee::{Callee, is_name};
use crate::names::{constructors, functions};
use wgsl_syntax::nearest::{Nearest, word_of_wgsl};
use wgsl_syntax::overload::{Evaluation, Overload};
use wgsl_syntax::tables::names::TEMPLATE_FUNCTIONS;

/// The name of what is called, if no built-in function, no constructor and no other predeclared type has it. An operator
/// always has one.
pub fn unknown_name(callee: Callee<'_>) -> Option<&str>
    ensures { option_map (λ name. name.now) result ≡ unknown_there (callee_view callee.entry) }
{
    match callee {
        Callee::Unary(_) | Callee::Binary(_) => None,
        Callee::Function(name) | Callee::Constructor(name) => {
            if is_name(name) { None } else { Some(name) }
        }
    }
}

/// The name that a call with this one may have meant: WGSL's word for a type of another language, or the nearest name of a
/// function or a constructor.
pub fn meant(name: &str) -> Option<&str>
    ensures { option_map (λ name. name.now) result ≡ meant_there name.now }
{
    match word_of_wgsl(name) {
        Some(word) => Some(word),
        None => nearest_called(name),
    }
}

/// The type of a scalar, a vector or a matrix that a name may have meant: WGSL's word for a type of another language, or the
/// nearest name of a constructor.
pub fn meant_type(name: &str) -> Option<&str>
    ensures { option_map (λ name. name.now) result ≡ meant_type_there name.now }
{
    match word_of_wgsl(name) {
        Some(word) => Some(word),
        None => among(Nearest::to(name), constructors()).name,
    }
}

fn nearest_called(name: &str) -> Option<&str>
    ensures { option_map (λ name. name.now) result ≡ nearest_of name.now names_called }
{
    let among_functions = among_functions(Nearest::to(name), functions());
    let with_templates = among(among_functions, TEMPLATE_FUNCTIONS);
    among(with_templates, constructors()).name
}

/// The nearest of these names too.
fn among_functions<'a>(
    mut nearest: Nearest<'a>,
    rows: &'static [(&'static str, Evaluation, &'static [Overload])],
) -> Nearest<'a>
    ensures word { result.word.now ≡ nearest.entry.word.now }
    ensures nearest { nearest_view result
        ≡ fold (offered nearest.entry.word.now) (nearest_view nearest.entry) (names_of (map function_of rows.now)) }
{
    for (name, _, _) in rows {
        nearest.offer(*name);
    }
    nearest
}

fn among<'a>(
    mut nearest: Nearest<'a>,
    rows: &'static [(&'static str, &'static [Overload])],
) -> Nearest<'a>
    ensures word { result.word.now ≡ nearest.entry.word.now }
    ensures nearest { nearest_view result
        ≡ fold (offered nearest.entry.word.now) (nearest_view nearest.entry) (names_of (map row_of rows.now)) }
{
    for (name, _) in rows {
        nearest.offer(*name);
    }
    nearest
}
