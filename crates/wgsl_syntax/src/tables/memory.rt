// The overloads of atomics, barriers, and functions that return structs.
use crate::overload::Overload;

/// The overloads of `atomicLoad`.
pub const ATOMIC_LOAD: &[Overload] =
    overloads! { (atomic_pointer<T>) -> T where T: ConcreteInteger; };

/// The overloads of `atomicStore`.
pub const ATOMIC_STORE: &[Overload] =
    overloads! { (atomic_pointer<T>, T) where T: ConcreteInteger; };

/// The overloads of `atomicAdd` and its like.
pub const ATOMIC_UPDATE: &[Overload] =
    overloads! { (atomic_pointer<T>, T) -> T where T: ConcreteInteger; };

/// The overloads of `atomicCompareExchangeWeak`.
pub const ATOMIC_EXCHANGE: &[Overload] =
    overloads! { (atomic_pointer<T>, T, T) -> exchange_result<T> where T: ConcreteInteger; };

/// The overloads of `workgroupBarrier` and its like.
pub const BARRIER: &[Overload] = overloads! { (); };

/// The overloads of `arrayLength`.
pub const ARRAY_LENGTH: &[Overload] = overloads! { (array_pointer<E>) -> u32; };

/// The overloads of `workgroupUniformLoad`.
pub const UNIFORM_LOAD: &[Overload] = overloads! {
    (workgroup_pointer<E>) -> E;
    (workgroup_atomic_pointer<T>) -> T where T: ConcreteInteger;
};

/// The overloads of `frexp`.
pub const FREXP_PARTS: &[Overload] = overloads! {
    (T) -> frexp_result<T> where T: ShortFloat;
    (vec2<T>) -> frexp_result<vec2> where T: ShortFloat;
    (vec3<T>) -> frexp_result<vec3> where T: ShortFloat;
    (vec4<T>) -> frexp_result<vec4> where T: ShortFloat;
};

/// The overloads of `modf`.
pub const MODF_PARTS: &[Overload] = overloads! {
    (T) -> modf_result<T> where T: ShortFloat;
    (vec2<T>) -> modf_result<vec2> where T: ShortFloat;
    (vec3<T>) -> modf_result<vec3> where T: ShortFloat;
    (vec4<T>) -> modf_result<vec4> where T: ShortFloat;
};
