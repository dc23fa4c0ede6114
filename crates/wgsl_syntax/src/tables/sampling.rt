// The overloads of functions that sample textures.
use crate::overload::Overload;

/// The overloads of `textureSample`.
pub const TEXTURE_SAMPLE: &[Overload] = overloads! {
    (texture_1d<f32>, sampler, f32) -> vec4<f32>;
    (texture_2d<f32>, sampler, vec2<f32>) -> vec4<f32>;
    (texture_2d<f32>, sampler, vec2<f32>, vec2<i32>) -> vec4<f32>;
    (texture_2d_array<f32>, sampler, vec2<f32>, T) -> vec4<f32> where T: ConcreteInteger;
    (texture_2d_array<f32>, sampler, vec2<f32>, T, vec2<i32>) -> vec4<f32> where T: ConcreteInteger;
    (texture_3d<f32>, sampler, vec3<f32>) -> vec4<f32>;
    (texture_3d<f32>, sampler, vec3<f32>, vec3<i32>) -> vec4<f32>;
    (texture_cube<f32>, sampler, vec3<f32>) -> vec4<f32>;
    (texture_cube_array<f32>, sampler, vec3<f32>, T) -> vec4<f32> where T: ConcreteInteger;
    (texture_depth_2d, sampler, vec2<f32>) -> f32;
    (texture_depth_2d, sampler, vec2<f32>, vec2<i32>) -> f32;
    (texture_depth_2d_array, sampler, vec2<f32>, T) -> f32 where T: ConcreteInteger;
    (texture_depth_2d_array, sampler, vec2<f32>, T, vec2<i32>) -> f32 where T: ConcreteInteger;
    (texture_depth_cube, sampler, vec3<f32>) -> f32;
    (texture_depth_cube_array, sampler, vec3<f32>, T) -> f32 where T: ConcreteInteger;
};

/// The overloads of `textureSampleBaseClampToEdge`.
pub const TEXTURE_SAMPLE_BASE: &[Overload] = overloads! {
    (texture_2d<f32>, sampler, vec2<f32>) -> vec4<f32>;
    (texture_external, sampler, vec2<f32>) -> vec4<f32>;
};

/// The overloads of `textureSampleBias`.
pub const TEXTURE_SAMPLE_BIAS: &[Overload] = overloads! {
    (texture_2d<f32>, sampler, vec2<f32>, f32) -> vec4<f32>;
    (texture_2d<f32>, sampler, vec2<f32>, f32, vec2<i32>) -> vec4<f32>;
    (texture_2d_array<f32>, sampler, vec2<f32>, T, f32) -> vec4<f32> where T: ConcreteInteger;
    (texture_2d_array<f32>, sampler, vec2<f32>, T, f32, vec2<i32>) -> vec4<f32> where T: ConcreteInteger;
    (texture_3d<f32>, sampler, vec3<f32>, f32) -> vec4<f32>;
    (texture_3d<f32>, sampler, vec3<f32>, f32, vec3<i32>) -> vec4<f32>;
    (texture_cube<f32>, sampler, vec3<f32>, f32) -> vec4<f32>;
    (texture_cube_array<f32>, sampler, vec3<f32>, T, f32) -> vec4<f32> where T: ConcreteInteger;
};

/// The overloads of `textureSampleGrad`.
pub const TEXTURE_SAMPLE_GRAD: &[Overload] = overloads! {
    (texture_2d<f32>, sampler, vec2<f32>, vec2<f32>, vec2<f32>) -> vec4<f32>;
    (texture_2d<f32>, sampler, vec2<f32>, vec2<f32>, vec2<f32>, vec2<i32>) -> vec4<f32>;
    (texture_2d_array<f32>, sampler, vec2<f32>, T, vec2<f32>, vec2<f32>) -> vec4<f32> where T: ConcreteInteger;
    (texture_2d_array<f32>, sampler, vec2<f32>, T, vec2<f32>, vec2<f32>, vec2<i32>) -> vec4<f32> where T: ConcreteInteger;
    (texture_3d<f32>, sampler, vec3<f32>, vec3<f32>, vec3<f32>) -> vec4<f32>;
    (texture_3d<f32>, sampler, vec3<f32>, vec3<f32>, vec3<f32>, vec3<i32>) -> vec4<f32>;
    (texture_cube<f32>, sampler, vec3<f32>, vec3<f32>, vec3<f32>) -> vec4<f32>;
    (texture_cube_array<f32>, sampler, vec3<f32>, T, vec3<f32>, vec3<f32>) -> vec4<f32> where T: ConcreteInteger;
};

/// The overloads of `textureSampleLevel`.
pub const TEXTURE_SAMPLE_LEVEL: &[Overload] = overloads! {
    (texture_1d<f32>, sampler, f32, f32) -> vec4<f32>;
    (texture_2d<f32>, sampler, vec2<f32>, f32) -> vec4<f32>;
    (texture_2d<f32>, sampler, vec2<f32>, f32, vec2<i32>) -> vec4<f32>;
    (texture_2d_array<f32>, sampler, vec2<f32>, T, f32) -> vec4<f32> where T: ConcreteInteger;
    (texture_2d_array<f32>, sampler, vec2<f32>, T, f32, vec2<i32>) -> vec4<f32> where T: ConcreteInteger;
    (texture_3d<f32>, sampler, vec3<f32>, f32) -> vec4<f32>;
    (texture_3d<f32>, sampler, vec3<f32>, f32, vec3<i32>) -> vec4<f32>;
    (texture_cube<f32>, sampler, vec3<f32>, f32) -> vec4<f32>;
    (texture_cube_array<f32>, sampler, vec3<f32>, T, f32) -> vec4<f32> where T: ConcreteInteger;
    (texture_depth_2d, sampler, vec2<f32>, T) -> f32 where T: ConcreteInteger;
    (texture_depth_2d, sampler, vec2<f32>, T, vec2<i32>) -> f32 where T: ConcreteInteger;
    (texture_depth_2d_array, sampler, vec2<f32>, T, U) -> f32 where T: ConcreteInteger, U: ConcreteInteger;
    (texture_depth_2d_array, sampler, vec2<f32>, T, U, vec2<i32>) -> f32 where T: ConcreteInteger, U: ConcreteInteger;
    (texture_depth_cube, sampler, vec3<f32>, T) -> f32 where T: ConcreteInteger;
    (texture_depth_cube_array, sampler, vec3<f32>, T, U) -> f32 where T: ConcreteInteger, U: ConcreteInteger;
};
