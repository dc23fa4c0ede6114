//! The types of operators (WGSL, "Expressions") and of calls (WGSL, "Built-in Functions"). The operators are also
//! methods of `Type`.
pub use wgsl_calls::call::{find_call, type_builtin_fn};
pub use wgsl_calls::constructor::{is_ctor, type_ctor, typecheck_struct_ctor};
pub use wgsl_core::operators::{Candidate, binary_candidate, type_binary_op, type_unary_op};
