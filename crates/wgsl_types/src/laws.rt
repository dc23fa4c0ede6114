//! Laws that follow from the rules, for callers to cite in proofs.
pub use wgsl_calls::call::{names_match_table, names_sorted};
pub use wgsl_core::laws::{
    common_any_order, conversion_order, matrix_columns, rank_adds, rank_names_target,
    targets_comparable,
};
pub use wgsl_standard::forms::laws::{addresses_invert, makes_concrete, pointers_compose};
pub use wgsl_standard::forms::one_answer::{arrays_have_one_answer, assignments_have_one_answer};
pub use wgsl_standard::resolved::index_names_line;
pub use wgsl_syntax::names::texts_name_values;
