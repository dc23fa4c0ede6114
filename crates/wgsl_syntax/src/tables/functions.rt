// The overloads of built-in functions of values.
use crate::overload::Overload;

/// The overloads of `sqrt` and its like.
pub const FLOAT_FUNCTION: &[Overload] = overloads! { (either<T>) -> either<T> where T: Float; };

/// The overloads of `abs`.
pub const NUMBER_FUNCTION: &[Overload] = overloads! { (either<T>) -> either<T> where T: Number; };

/// The overloads of `sign`.
pub const SIGNED_FUNCTION: &[Overload] =
    overloads! { (either<T>) -> either<T> where T: SignedNumber; };

/// The overloads of `countOneBits` and its like.
pub const BIT_FUNCTION: &[Overload] =
    overloads! { (either<T>) -> either<T> where T: ConcreteInteger; };

/// The overloads of `subgroupAdd` and its like.
pub const CONCRETE_FUNCTION: &[Overload] =
    overloads! { (either<T>) -> either<T> where T: ConcreteNumber; };

/// The overloads of `dpdx` and its like.
pub const F32_FUNCTION: &[Overload] = overloads! { (either<f32>) -> either<f32>; };

/// The overloads of `pow` and its like.
pub const FLOAT_PAIR: &[Overload] =
    overloads! { (either<T>, either<T>) -> either<T> where T: Float; };

/// The overloads of `max` and `min`.
pub const NUMBER_PAIR: &[Overload] =
    overloads! { (either<T>, either<T>) -> either<T> where T: Number; };

/// The overloads of `fma` and `smoothstep`.
pub const FLOAT_TRIPLE: &[Overload] =
    overloads! { (either<T>, either<T>, either<T>) -> either<T> where T: Float; };

/// The overloads of `clamp`.
pub const NUMBER_TRIPLE: &[Overload] =
    overloads! { (either<T>, either<T>, either<T>) -> either<T> where T: Number; };

/// The overloads of `mix`.
pub const BLEND: &[Overload] = overloads! {
    (either<T>, either<T>, either<T>) -> either<T> where T: Float;
    (vecN<T>, vecN<T>, T) -> vecN<T> where T: Float;
};

/// The overloads of `select`.
pub const SELECTION: &[Overload] = overloads! {
    (either<T>, either<T>, bool) -> either<T> where T: AnyScalar;
    (vecN<T>, vecN<T>, vecN<bool>) -> vecN<T> where T: AnyScalar;
};

/// The overloads of `ldexp`.
pub const SCALING: &[Overload] =
    overloads! { (either<T>, either<U>) -> either<T> where T: Float, U: SignedInteger; };

/// The overloads of `cross`.
pub const CROSS_PRODUCT: &[Overload] = overloads! { (vec3<T>, vec3<T>) -> vec3<T> where T: Float; };

/// The overloads of `dot`.
pub const DOT_PRODUCT: &[Overload] = overloads! { (vecN<T>, vecN<T>) -> T where T: Number; };

/// The overloads of `length`.
pub const VECTOR_LENGTH: &[Overload] = overloads! { (either<T>) -> T where T: Float; };

/// The overloads of `distance`.
pub const POINT_DISTANCE: &[Overload] = overloads! { (either<T>, either<T>) -> T where T: Float; };

/// The overloads of `faceForward`.
pub const FACE_FORWARD: &[Overload] =
    overloads! { (vecN<T>, vecN<T>, vecN<T>) -> vecN<T> where T: Float; };

/// The overloads of `normalize`.
pub const VECTOR_FUNCTION: &[Overload] = overloads! { (vecN<T>) -> vecN<T> where T: Float; };

/// The overloads of `reflect`.
pub const VECTOR_PAIR: &[Overload] = overloads! { (vecN<T>, vecN<T>) -> vecN<T> where T: Float; };

/// The overloads of `refract`.
pub const REFRACTION: &[Overload] = overloads! { (vecN<T>, vecN<T>, T) -> vecN<T> where T: Float; };

/// The overloads of `determinant`.
pub const MATRIX_DETERMINANT: &[Overload] = overloads! { (matNxN<T>) -> T where T: Float; };

/// The overloads of `transpose`.
pub const TRANSPOSITION: &[Overload] = overloads! { (matNxM<T>) -> matMxN<T> where T: Float; };

/// The overloads of `extractBits`.
pub const BITS_EXTRACTION: &[Overload] =
    overloads! { (either<T>, u32, u32) -> either<T> where T: ConcreteInteger; };

/// The overloads of `insertBits`.
pub const BITS_INSERTION: &[Overload] =
    overloads! { (either<T>, either<T>, u32, u32) -> either<T> where T: ConcreteInteger; };

/// The overloads of `all` and `any`.
pub const BOOL_TEST: &[Overload] = overloads! { (either<bool>) -> bool; };

/// The overloads of `dot4I8Packed`.
pub const PACKED_DOT_SIGNED: &[Overload] = overloads! { (u32, u32) -> i32; };

/// The overloads of `dot4U8Packed`.
pub const PACKED_DOT_UNSIGNED: &[Overload] = overloads! { (u32, u32) -> u32; };

/// The overloads of `pack2x16float` and its like.
pub const PACK_TWO: &[Overload] = overloads! { (vec2<f32>) -> u32; };

/// The overloads of `pack4x8snorm` and `pack4x8unorm`.
pub const PACK_FOUR: &[Overload] = overloads! { (vec4<f32>) -> u32; };

/// The overloads of `pack4xI8` and `pack4xI8Clamp`.
pub const PACK_FOUR_SIGNED: &[Overload] = overloads! { (vec4<i32>) -> u32; };

/// The overloads of `pack4xU8` and `pack4xU8Clamp`.
pub const PACK_FOUR_UNSIGNED: &[Overload] = overloads! { (vec4<u32>) -> u32; };

/// The overloads of `unpack2x16float` and its like.
pub const UNPACK_TWO: &[Overload] = overloads! { (u32) -> vec2<f32>; };

/// The overloads of `unpack4x8snorm` and `unpack4x8unorm`.
pub const UNPACK_FOUR: &[Overload] = overloads! { (u32) -> vec4<f32>; };

/// The overloads of `unpack4xI8`.
pub const UNPACK_FOUR_SIGNED: &[Overload] = overloads! { (u32) -> vec4<i32>; };

/// The overloads of `unpack4xU8`.
pub const UNPACK_FOUR_UNSIGNED: &[Overload] = overloads! { (u32) -> vec4<u32>; };

/// The overloads of `subgroupAll` and `subgroupAny`.
pub const VOTE: &[Overload] = overloads! { (bool) -> bool; };

/// The overloads of `subgroupElect`.
pub const ELECTION: &[Overload] = overloads! { () -> bool; };

/// The overloads of `subgroupBallot`.
pub const BALLOT: &[Overload] = overloads! { (bool) -> vec4<u32>; };

/// The overloads of `subgroupShuffle` and its like.
pub const SHUFFLE: &[Overload] =
    overloads! { (either<T>, U) -> either<T> where T: ConcreteNumber, U: ConcreteInteger; };

/// The overloads of `subgroupShuffleUp` and its like.
pub const RELATIVE_SHUFFLE: &[Overload] =
    overloads! { (either<T>, u32) -> either<T> where T: ConcreteNumber; };
