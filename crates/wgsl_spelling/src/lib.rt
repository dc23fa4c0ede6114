//! Types as WGSL spells them: `array<vec3<f32>, 4>`, `vec3f`. They are read by WGSL's grammar.
//!
//! What is read beyond WGSL:
//!
//! - `ref<..>`, with an address space and an access mode like `ptr<..>`;
//! - an access mode in any `ptr<..>`: `ptr<function, f32, read_write>`; the address space `handle`;
//! - the abstract types `AbstractInt` and `AbstractFloat`;
//! - a count of 0: `array<f32, 0>`;
//! - naga's types: `i64`, `u64`, `f64`, `binding_array<..>`, `ray_query`, `acceleration_structure`, its textures and texel
//!   formats, and its names `push_constant` and `rg11b10float`;
//! - any type inside a vector, a matrix, an array and so on: `vec3<sampler>`. Requests ask about such types.
//!
//! What of WGSL isn't read: names that a module declares, but for one at the leaf of a type, which is left to the caller
//! (`spelled::chain_of_events`); and in counts literals of floats, and calls other than those of `u32`, `i32`, `f32`, `f16`,
//! `bitcast`, `abs`, `sign`, `min`, `max`, `clamp`, `select`, `all`, `any`, `countLeadingZeros`, `countOneBits`,
//! `countTrailingZeros`, `firstLeadingBit`, `firstTrailingBit`, `reverseBits`, `extractBits`, `insertBits`, and of `vec2`, `vec3` and `vec4` for a component of integers.
#![tactic(auto)]

mod call;
pub mod chain;
pub mod fault;
mod item;
pub mod laws;
mod list;
pub mod meant;
pub mod name;
pub mod operator;
pub mod predeclared;
pub mod spelled;
pub mod stack;
pub mod value;
pub mod word;
