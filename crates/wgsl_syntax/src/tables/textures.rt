// The overloads of functions that query, load and store textures.
use crate::overload::Overload;

/// The overloads of `textureDimensions`.
pub const TEXTURE_DIMENSIONS: &[Overload] = overloads! {
    (texture_depth_2d) -> vec2<u32>;
    (texture_depth_2d_array) -> vec2<u32>;
    (texture_depth_cube) -> vec2<u32>;
    (texture_depth_cube_array) -> vec2<u32>;
    (texture_depth_multisampled_2d) -> vec2<u32>;
    (texture_external) -> vec2<u32>;
    (texture_1d<T>) -> u32 where T: Number32;
    (texture_2d<T>) -> vec2<u32> where T: Number32;
    (texture_2d_array<T>) -> vec2<u32> where T: Number32;
    (texture_3d<T>) -> vec3<u32> where T: Number32;
    (texture_cube<T>) -> vec2<u32> where T: Number32;
    (texture_cube_array<T>) -> vec2<u32> where T: Number32;
    (texture_multisampled_2d<T>) -> vec2<u32> where T: Number32;
    (texture_storage_1d<any>) -> u32;
    (texture_storage_2d<any>) -> vec2<u32>;
    (texture_storage_2d_array<any>) -> vec2<u32>;
    (texture_storage_3d<any>) -> vec3<u32>;
    (texture_depth_2d, T) -> vec2<u32> where T: ConcreteInteger;
    (texture_depth_2d_array, T) -> vec2<u32> where T: ConcreteInteger;
    (texture_depth_cube, T) -> vec2<u32> where T: ConcreteInteger;
    (texture_depth_cube_array, T) -> vec2<u32> where T: ConcreteInteger;
    (texture_1d<T>, U) -> u32 where T: Number32, U: ConcreteInteger;
    (texture_2d<T>, U) -> vec2<u32> where T: Number32, U: ConcreteInteger;
    (texture_2d_array<T>, U) -> vec2<u32> where T: Number32, U: ConcreteInteger;
    (texture_3d<T>, U) -> vec3<u32> where T: Number32, U: ConcreteInteger;
    (texture_cube<T>, U) -> vec2<u32> where T: Number32, U: ConcreteInteger;
    (texture_cube_array<T>, U) -> vec2<u32> where T: Number32, U: ConcreteInteger;
};

/// The overloads of `textureNumLayers`.
pub const TEXTURE_LAYERS: &[Overload] = overloads! {
    (texture_depth_2d_array) -> u32;
    (texture_depth_cube_array) -> u32;
    (texture_2d_array<T>) -> u32 where T: Number32;
    (texture_cube_array<T>) -> u32 where T: Number32;
    (texture_storage_2d_array<any>) -> u32;
};

/// The overloads of `textureNumLevels`.
pub const TEXTURE_LEVELS: &[Overload] = overloads! {
    (texture_depth_2d) -> u32;
    (texture_depth_2d_array) -> u32;
    (texture_depth_cube) -> u32;
    (texture_depth_cube_array) -> u32;
    (texture_1d<T>) -> u32 where T: Number32;
    (texture_2d<T>) -> u32 where T: Number32;
    (texture_2d_array<T>) -> u32 where T: Number32;
    (texture_3d<T>) -> u32 where T: Number32;
    (texture_cube<T>) -> u32 where T: Number32;
    (texture_cube_array<T>) -> u32 where T: Number32;
};

/// The overloads of `textureNumSamples`.
pub const TEXTURE_SAMPLES: &[Overload] = overloads! {
    (texture_depth_multisampled_2d) -> u32;
    (texture_multisampled_2d<T>) -> u32 where T: Number32;
};

/// The overloads of `textureLoad`.
pub const TEXTURE_LOAD: &[Overload] = overloads! {
    (texture_1d<T>, U, V) -> vec4<T> where T: Number32, U: ConcreteInteger, V: ConcreteInteger;
    (texture_2d<T>, vec2<U>, V) -> vec4<T> where T: Number32, U: ConcreteInteger, V: ConcreteInteger;
    (texture_2d_array<T>, vec2<U>, V, W) -> vec4<T> where T: Number32, U: ConcreteInteger, V: ConcreteInteger, W: ConcreteInteger;
    (texture_3d<T>, vec3<U>, V) -> vec4<T> where T: Number32, U: ConcreteInteger, V: ConcreteInteger;
    (texture_multisampled_2d<T>, vec2<U>, V) -> vec4<T> where T: Number32, U: ConcreteInteger, V: ConcreteInteger;
    (texture_depth_2d, vec2<T>, U) -> f32 where T: ConcreteInteger, U: ConcreteInteger;
    (texture_depth_2d_array, vec2<T>, U, V) -> f32 where T: ConcreteInteger, U: ConcreteInteger, V: ConcreteInteger;
    (texture_depth_multisampled_2d, vec2<T>, U) -> f32 where T: ConcreteInteger, U: ConcreteInteger;
    (texture_external, vec2<T>) -> vec4<f32> where T: ConcreteInteger;
    (texture_storage_1d<read>, U) -> vec4<T> where T: Number32, U: ConcreteInteger;
    (texture_storage_2d<read>, vec2<U>) -> vec4<T> where T: Number32, U: ConcreteInteger;
    (texture_storage_2d_array<read>, vec2<U>, V) -> vec4<T> where T: Number32, U: ConcreteInteger, V: ConcreteInteger;
    (texture_storage_3d<read>, vec3<U>) -> vec4<T> where T: Number32, U: ConcreteInteger;
};

/// The overloads of `textureStore`.
pub const TEXTURE_STORE: &[Overload] = overloads! {
    (texture_storage_1d<write>, U, vec4<T>) where T: Number32, U: ConcreteInteger;
    (texture_storage_2d<write>, vec2<U>, vec4<T>) where T: Number32, U: ConcreteInteger;
    (texture_storage_2d_array<write>, vec2<U>, V, vec4<T>) where T: Number32, U: ConcreteInteger, V: ConcreteInteger;
    (texture_storage_3d<write>, vec3<U>, vec4<T>) where T: Number32, U: ConcreteInteger;
};
