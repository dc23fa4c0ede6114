// The index of a built-in function by its name, and its rows.
ghost use Rattle.std.specs.Prelude.{◌≡◌, ◌↔◌, ◌≤◌, ◌<◌, ℕ, IfSome, Some, length, option_map};
ghost use Rattle.wgsl_rules.specs.calls.Names.{IsNameAt, IsRising, call_names};
ghost use Rattle.wgsl_rules.specs.calls.Table.{call_table, rows_named};
ghost use Rattle.wgsl_rules.specs.calls.Answers.{NamesMatchTable};
ghost use Rattle.wgsl_calls.specs.internal.Rows.{found_rows};

use crate::call::rows::Rows;
use crate::call::table::{built_ins, places};

/// The names of the built-in functions are sorted by their bytes, and distinct.
#[tactic(auto, using(wgsl_rules::proofs::calls::SortedNames::names_sorted))]
pub fn names_sorted()
    ensures { IsRising call_names }
{}

/// Each name is in exactly one part of the table, and the table has no other names.
#[tactic(auto, using(wgsl_rules::proofs::calls::NamedRows::names_match))]
pub fn names_match_table()
    ensures { NamesMatchTable }
{}

/// The index of a built-in function (WGSL, "Built-in Functions") in the sorted list of names, and the number of names
/// that were compared with it.
pub fn find_call(name: &str) -> (Option<usize>, u32)
    ensures index { (i : ℕ) → (result.0 ≡ Some i) ↔ IsNameAt call_names i name.now }
    ensures few { result.1 ≤ 1 }
{
    (index_named(name), 1)
}

/// The rows of a name.
pub fn rows_of(name: &str) -> Option<&'static Rows>
    ensures { found_rows (option_map (λ r. r.now) result) ≡ rows_named name.now call_table }
{
    match find_call(name).0 {
        Some(index) => Some(&built_ins()[index].1),
        None => None,
    }
}

/// The index of a name. Its hash gives one index, and the name there is compared with it.
fn index_named(name: &str) -> Option<usize>
    ensures index { (i : ℕ) → (result ≡ Some i) ↔ IsNameAt call_names i name.now }
    ensures inside { IfSome result (λ i. i < length call_names) }
{
    let built_ins = built_ins();
    let index = places().index_of(name);
    if index < built_ins.len() && built_ins[index].0 == name {
        Some(index)
    } else {
        None
    }
}
