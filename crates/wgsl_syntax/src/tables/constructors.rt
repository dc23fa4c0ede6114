// The overloads of constructors without a template.
use crate::overload::Overload;

/// The overloads of the constructor `bool`.
pub const BOOL_CONVERSION: &[Overload] = overloads! {
    (T) -> bool where T: AnyScalar;
    () -> bool;
};

/// The overloads of the constructor `i32`.
pub const I32_CONVERSION: &[Overload] = overloads! {
    (T) -> i32 where T: AnyScalar;
    () -> i32;
};

/// The overloads of the constructor `u32`.
pub const U32_CONVERSION: &[Overload] = overloads! {
    (T) -> u32 where T: AnyScalar;
    () -> u32;
};

/// The overloads of the constructor `f32`.
pub const F32_CONVERSION: &[Overload] = overloads! {
    (T) -> f32 where T: AnyScalar;
    () -> f32;
};

/// The overloads of the constructor `f16`.
pub const F16_CONVERSION: &[Overload] = overloads! {
    (T) -> f16 where T: AnyScalar;
    () -> f16;
};

/// The overloads of the constructor `i64`.
pub const I64_CONVERSION: &[Overload] = overloads! {
    (T) -> i64 where T: AnyScalar;
    () -> i64;
};

/// The overloads of the constructor `u64`.
pub const U64_CONVERSION: &[Overload] = overloads! {
    (T) -> u64 where T: AnyScalar;
    () -> u64;
};

/// The overloads of the constructor `f64`.
pub const F64_CONVERSION: &[Overload] = overloads! {
    (T) -> f64 where T: AnyScalar;
    () -> f64;
};

/// The overloads of the constructor `vec2`.
pub const VEC_2_CONSTRUCTOR: &[Overload] = overloads! {
    (T) -> vec2<T> where T: AnyScalar;
    (vec2<T>) -> vec2<T> where T: AnyScalar;
    (T, T) -> vec2<T> where T: AnyScalar;
    () -> vec2<AbstractInt>;
};

/// The overloads of the constructor `vec3`.
pub const VEC_3_CONSTRUCTOR: &[Overload] = overloads! {
    (T) -> vec3<T> where T: AnyScalar;
    (vec3<T>) -> vec3<T> where T: AnyScalar;
    (T, T, T) -> vec3<T> where T: AnyScalar;
    (vec2<T>, T) -> vec3<T> where T: AnyScalar;
    (T, vec2<T>) -> vec3<T> where T: AnyScalar;
    () -> vec3<AbstractInt>;
};

/// The overloads of the constructor `vec4`.
pub const VEC_4_CONSTRUCTOR: &[Overload] = overloads! {
    (T) -> vec4<T> where T: AnyScalar;
    (vec4<T>) -> vec4<T> where T: AnyScalar;
    (T, T, T, T) -> vec4<T> where T: AnyScalar;
    (T, T, vec2<T>) -> vec4<T> where T: AnyScalar;
    (T, vec2<T>, T) -> vec4<T> where T: AnyScalar;
    (vec2<T>, T, T) -> vec4<T> where T: AnyScalar;
    (vec2<T>, vec2<T>) -> vec4<T> where T: AnyScalar;
    (vec3<T>, T) -> vec4<T> where T: AnyScalar;
    (T, vec3<T>) -> vec4<T> where T: AnyScalar;
    () -> vec4<AbstractInt>;
};

/// The overloads of the constructor `mat2x2`.
pub const MAT_2X2_CONSTRUCTOR: &[Overload] = overloads! {
    (mat2x2<T>) -> mat2x2<T> where T: Float;
    (vec2<T> * 2) -> mat2x2<T> where T: Float;
    (T * 4) -> mat2x2<T> where T: Float;
};

/// The overloads of the constructor `mat2x3`.
pub const MAT_2X3_CONSTRUCTOR: &[Overload] = overloads! {
    (mat2x3<T>) -> mat2x3<T> where T: Float;
    (vec3<T> * 2) -> mat2x3<T> where T: Float;
    (T * 6) -> mat2x3<T> where T: Float;
};

/// The overloads of the constructor `mat2x4`.
pub const MAT_2X4_CONSTRUCTOR: &[Overload] = overloads! {
    (mat2x4<T>) -> mat2x4<T> where T: Float;
    (vec4<T> * 2) -> mat2x4<T> where T: Float;
    (T * 8) -> mat2x4<T> where T: Float;
};

/// The overloads of the constructor `mat3x2`.
pub const MAT_3X2_CONSTRUCTOR: &[Overload] = overloads! {
    (mat3x2<T>) -> mat3x2<T> where T: Float;
    (vec2<T> * 3) -> mat3x2<T> where T: Float;
    (T * 6) -> mat3x2<T> where T: Float;
};

/// The overloads of the constructor `mat3x3`.
pub const MAT_3X3_CONSTRUCTOR: &[Overload] = overloads! {
    (mat3x3<T>) -> mat3x3<T> where T: Float;
    (vec3<T> * 3) -> mat3x3<T> where T: Float;
    (T * 9) -> mat3x3<T> where T: Float;
};

/// The overloads of the constructor `mat3x4`.
pub const MAT_3X4_CONSTRUCTOR: &[Overload] = overloads! {
    (mat3x4<T>) -> mat3x4<T> where T: Float;
    (vec4<T> * 3) -> mat3x4<T> where T: Float;
    (T * 12) -> mat3x4<T> where T: Float;
};

/// The overloads of the constructor `mat4x2`.
pub const MAT_4X2_CONSTRUCTOR: &[Overload] = overloads! {
    (mat4x2<T>) -> mat4x2<T> where T: Float;
    (vec2<T> * 4) -> mat4x2<T> where T: Float;
    (T * 8) -> mat4x2<T> where T: Float;
};

/// The overloads of the constructor `mat4x3`.
pub const MAT_4X3_CONSTRUCTOR: &[Overload] = overloads! {
    (mat4x3<T>) -> mat4x3<T> where T: Float;
    (vec3<T> * 4) -> mat4x3<T> where T: Float;
    (T * 12) -> mat4x3<T> where T: Float;
};

/// The overloads of the constructor `mat4x4`.
pub const MAT_4X4_CONSTRUCTOR: &[Overload] = overloads! {
    (mat4x4<T>) -> mat4x4<T> where T: Float;
    (vec4<T> * 4) -> mat4x4<T> where T: Float;
    (T * 16) -> mat4x4<T> where T: Float;
};
