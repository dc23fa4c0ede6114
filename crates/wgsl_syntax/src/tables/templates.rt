// The overloads of `bitcast` and of constructors with a template, which is the first parameter.
use crate::overload::Overload;

/// The overloads of `bitcast<..>`.
pub const BITCAST: &[Overload] = overloads! {
    (T, U) -> T where T: Number32, U: Number32;
    (vec2<T>, vec2<U>) -> vec2<T> where T: Number32, U: Number32;
    (vec3<T>, vec3<U>) -> vec3<T> where T: Number32, U: Number32;
    (vec4<T>, vec4<U>) -> vec4<T> where T: Number32, U: Number32;
    (T, vec2<f16>) -> T where T: Number32;
    (vec2<T>, vec4<f16>) -> vec2<T> where T: Number32;
    (vec2<f16>, T) -> vec2<f16> where T: Number32;
    (vec4<f16>, vec2<T>) -> vec4<f16> where T: Number32;
    (either<f16>, either<f16>) -> either<f16>;
};

/// The overloads of the constructor `vec2<..>`.
pub const VEC_2_OF: &[Overload] = overloads! {
    (T, T) -> vec2<T> where T: ConcreteScalar;
    (T, vec2<U>) -> vec2<T> where T: ConcreteScalar, U: AnyScalar;
    (T, T, T) -> vec2<T> where T: ConcreteScalar;
    (T) -> vec2<T> where T: ConcreteScalar;
};

/// The overloads of the constructor `vec3<..>`.
pub const VEC_3_OF: &[Overload] = overloads! {
    (T, T) -> vec3<T> where T: ConcreteScalar;
    (T, vec3<U>) -> vec3<T> where T: ConcreteScalar, U: AnyScalar;
    (T, T, T, T) -> vec3<T> where T: ConcreteScalar;
    (T, vec2<T>, T) -> vec3<T> where T: ConcreteScalar;
    (T, T, vec2<T>) -> vec3<T> where T: ConcreteScalar;
    (T) -> vec3<T> where T: ConcreteScalar;
};

/// The overloads of the constructor `vec4<..>`.
pub const VEC_4_OF: &[Overload] = overloads! {
    (T, T) -> vec4<T> where T: ConcreteScalar;
    (T, vec4<U>) -> vec4<T> where T: ConcreteScalar, U: AnyScalar;
    (T, T, T, T, T) -> vec4<T> where T: ConcreteScalar;
    (T, T, T, vec2<T>) -> vec4<T> where T: ConcreteScalar;
    (T, T, vec2<T>, T) -> vec4<T> where T: ConcreteScalar;
    (T, vec2<T>, T, T) -> vec4<T> where T: ConcreteScalar;
    (T, vec2<T>, vec2<T>) -> vec4<T> where T: ConcreteScalar;
    (T, vec3<T>, T) -> vec4<T> where T: ConcreteScalar;
    (T, T, vec3<T>) -> vec4<T> where T: ConcreteScalar;
    (T) -> vec4<T> where T: ConcreteScalar;
};

/// The overloads of the constructor `mat2x2<..>`.
pub const MAT_2X2_OF: &[Overload] = overloads! {
    (T, mat2x2<U>) -> mat2x2<T> where T: ConcreteFloat, U: Float;
    (T, vec2<T> * 2) -> mat2x2<T> where T: ConcreteFloat;
    (T, T * 4) -> mat2x2<T> where T: ConcreteFloat;
    (T) -> mat2x2<T> where T: ConcreteFloat;
};

/// The overloads of the constructor `mat2x3<..>`.
pub const MAT_2X3_OF: &[Overload] = overloads! {
    (T, mat2x3<U>) -> mat2x3<T> where T: ConcreteFloat, U: Float;
    (T, vec3<T> * 2) -> mat2x3<T> where T: ConcreteFloat;
    (T, T * 6) -> mat2x3<T> where T: ConcreteFloat;
    (T) -> mat2x3<T> where T: ConcreteFloat;
};

/// The overloads of the constructor `mat2x4<..>`.
pub const MAT_2X4_OF: &[Overload] = overloads! {
    (T, mat2x4<U>) -> mat2x4<T> where T: ConcreteFloat, U: Float;
    (T, vec4<T> * 2) -> mat2x4<T> where T: ConcreteFloat;
    (T, T * 8) -> mat2x4<T> where T: ConcreteFloat;
    (T) -> mat2x4<T> where T: ConcreteFloat;
};

/// The overloads of the constructor `mat3x2<..>`.
pub const MAT_3X2_OF: &[Overload] = overloads! {
    (T, mat3x2<U>) -> mat3x2<T> where T: ConcreteFloat, U: Float;
    (T, vec2<T> * 3) -> mat3x2<T> where T: ConcreteFloat;
    (T, T * 6) -> mat3x2<T> where T: ConcreteFloat;
    (T) -> mat3x2<T> where T: ConcreteFloat;
};

/// The overloads of the constructor `mat3x3<..>`.
pub const MAT_3X3_OF: &[Overload] = overloads! {
    (T, mat3x3<U>) -> mat3x3<T> where T: ConcreteFloat, U: Float;
    (T, vec3<T> * 3) -> mat3x3<T> where T: ConcreteFloat;
    (T, T * 9) -> mat3x3<T> where T: ConcreteFloat;
    (T) -> mat3x3<T> where T: ConcreteFloat;
};

/// The overloads of the constructor `mat3x4<..>`.
pub const MAT_3X4_OF: &[Overload] = overloads! {
    (T, mat3x4<U>) -> mat3x4<T> where T: ConcreteFloat, U: Float;
    (T, vec4<T> * 3) -> mat3x4<T> where T: ConcreteFloat;
    (T, T * 12) -> mat3x4<T> where T: ConcreteFloat;
    (T) -> mat3x4<T> where T: ConcreteFloat;
};

/// The overloads of the constructor `mat4x2<..>`.
pub const MAT_4X2_OF: &[Overload] = overloads! {
    (T, mat4x2<U>) -> mat4x2<T> where T: ConcreteFloat, U: Float;
    (T, vec2<T> * 4) -> mat4x2<T> where T: ConcreteFloat;
    (T, T * 8) -> mat4x2<T> where T: ConcreteFloat;
    (T) -> mat4x2<T> where T: ConcreteFloat;
};

/// The overloads of the constructor `mat4x3<..>`.
pub const MAT_4X3_OF: &[Overload] = overloads! {
    (T, mat4x3<U>) -> mat4x3<T> where T: ConcreteFloat, U: Float;
    (T, vec3<T> * 4) -> mat4x3<T> where T: ConcreteFloat;
    (T, T * 12) -> mat4x3<T> where T: ConcreteFloat;
    (T) -> mat4x3<T> where T: ConcreteFloat;
};

/// The overloads of the constructor `mat4x4<..>`.
pub const MAT_4X4_OF: &[Overload] = overloads! {
    (T, mat4x4<U>) -> mat4x4<T> where T: ConcreteFloat, U: Float;
    (T, vec4<T> * 4) -> mat4x4<T> where T: ConcreteFloat;
    (T, T * 16) -> mat4x4<T> where T: ConcreteFloat;
    (T) -> mat4x4<T> where T: ConcreteFloat;
};
