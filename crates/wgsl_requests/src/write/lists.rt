// Writes lists.
ghost use Rattle.std.specs.Prelude.{◌≡◌, ◌++◌, ℕ, List, OnOk, Some, map, string_bytes};
ghost use Rattle.wgsl_requests.specs.Prelude.{listed, parameter_text, spelling_by, parameter_view, view};
ghost use Rattle.wgsl_requests.specs.Texts.{Writes, lines_text};

use crate::fast::write_type;
use crate::prelude::*;
use std::fmt;

/// Writes types, with a comma between, by the names of these rules.
pub fn write_types(text: &mut String, rules: RuleSet, types: &[Type]) -> Made<()>
    ensures { Writes (listed (λ t. spelling_by rules (view t)) types.now) text.old text.new result }
{
    let Some((first, rest)) = types.split_first() else {
        return Ok(());
    };
    write_type(text, rules, first)?;
    for ty in rest {
        text.push_str(", ")?;
        write_type(text, rules, ty)?;
    }
    Ok(())
}

/// Writes template parameters, with a comma between.
pub fn write_parameters(text: &mut String, parameters: &[TpltParam]) -> Made<()>
    ensures { Writes (listed (λ p. parameter_text (parameter_view p)) parameters.now) text.old text.new result }
{
    let Some((first, rest)) = parameters.split_first() else {
        return Ok(());
    };
    write!(text, "{first}")?;
    for parameter in rest {
        write!(text, ", {parameter}")?;
    }
    Ok(())
}

/// Writes values, one per line; `none` if there is none.
pub fn write_lines<T: fmt::Display>(text: &mut String, values: &[T]) -> Made<()>
    ensures { (shown : T → List ℕ) → ((x : T) → T.Display.output x ≡ Some (shown x))
        → OnOk result (string_bytes text.new ≡ string_bytes text.old ++ lines_text (map shown values.now)) }
{
    let [first, rest @ ..] = values else {
        return text.push_str("none");
    };
    write!(text, "{first}")?;
    for value in rest {
        write!(text, "\n{value}")?;
    }
    Ok(())
}
