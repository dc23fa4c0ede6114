// The overloads of functions that compare and gather texels.
use crate::overload::Overload;

/// The overloads of `textureSampleCompare` and `textureSampleCompareLevel`.
pub const TEXTURE_SAMPLE_COMPARE: &[Overload] = overloads! {
    (texture_depth_2d, sampler_comparison, vec2<f32>, f32) -> f32;
    (texture_depth_2d, sampler_comparison, vec2<f32>, f32, vec2<i32>) -> f32;
    (texture_depth_2d_array, sampler_comparison, vec2<f32>, T, f32) -> f32 where T: ConcreteInteger;
    (texture_depth_2d_array, sampler_comparison, vec2<f32>, T, f32, vec2<i32>) -> f32 where T: ConcreteInteger;
    (texture_depth_cube, sampler_comparison, vec3<f32>, f32) -> f32;
    (texture_depth_cube_array, sampler_comparison, vec3<f32>, T, f32) -> f32 where T: ConcreteInteger;
};

/// The overloads of `textureGather`.
pub const TEXTURE_GATHER: &[Overload] = overloads! {
    (U, texture_2d<T>, sampler, vec2<f32>) -> vec4<T> where T: Number32, U: ConcreteInteger;
    (U, texture_2d<T>, sampler, vec2<f32>, vec2<i32>) -> vec4<T> where T: Number32, U: ConcreteInteger;
    (U, texture_2d_array<T>, sampler, vec2<f32>, V) -> vec4<T> where T: Number32, U: ConcreteInteger, V: ConcreteInteger;
    (U, texture_2d_array<T>, sampler, vec2<f32>, V, vec2<i32>) -> vec4<T> where T: Number32, U: ConcreteInteger, V: ConcreteInteger;
    (U, texture_cube<T>, sampler, vec3<f32>) -> vec4<T> where T: Number32, U: ConcreteInteger;
    (U, texture_cube_array<T>, sampler, vec3<f32>, V) -> vec4<T> where T: Number32, U: ConcreteInteger, V: ConcreteInteger;
    (texture_depth_2d, sampler, vec2<f32>) -> vec4<f32>;
    (texture_depth_2d, sampler, vec2<f32>, vec2<i32>) -> vec4<f32>;
    (texture_depth_2d_array, sampler, vec2<f32>, T) -> vec4<f32> where T: ConcreteInteger;
    (texture_depth_2d_array, sampler, vec2<f32>, T, vec2<i32>) -> vec4<f32> where T: ConcreteInteger;
    (texture_depth_cube, sampler, vec3<f32>) -> vec4<f32>;
    (texture_depth_cube_array, sampler, vec3<f32>, T) -> vec4<f32> where T: ConcreteInteger;
};

/// The overloads of `textureGatherCompare`.
pub const TEXTURE_GATHER_COMPARE: &[Overload] = overloads! {
    (texture_depth_2d, sampler_comparison, vec2<f32>, f32) -> vec4<f32>;
    (texture_depth_2d, sampler_comparison, vec2<f32>, f32, vec2<i32>) -> vec4<f32>;
    (texture_depth_2d_array, sampler_comparison, vec2<f32>, T, f32) -> vec4<f32> where T: ConcreteInteger;
    (texture_depth_2d_array, sampler_comparison, vec2<f32>, T, f32, vec2<i32>) -> vec4<f32> where T: ConcreteInteger;
    (texture_depth_cube, sampler_comparison, vec3<f32>, f32) -> vec4<f32>;
    (texture_depth_cube_array, sampler_comparison, vec3<f32>, T, f32) -> vec4<f32> where T: ConcreteInteger;
};
