// WGSL's own overloads, one per line, and the names that have them. They are taken from WGSL, not proved. The rules
// cite them, and the code searches them.
//
// `overloads!` reads lines of the form `(PARAMETERS) -> RESULT where LETTER: KIND, ..;`. Without `-> RESULT` a call
// has no value. Without `where` there is no letter for scalars. The lines stand in the order of preference. Their
// words are:
//
// | Word | What it stands for |
// |---|---|
// | `T`, `U`, `V`, `W` | a letter for scalars, of the kind that `where` gives it; they are given in this order |
// | `Number`, `ConcreteInteger`, .. | a kind of scalars, by its name in `Kind` |
// | `bool`, `i32`, .., `AbstractInt` | the scalar |
// | `N`, `M`, `K` | a letter for 2, 3 and 4, in the names of vectors and matrices |
// | `vec3<T>`, `vecN<f32>` | a vector of a letter or of a scalar |
// | `mat2x3<T>`, `matNxM<T>` | a matrix, with the number of its columns first |
// | `either<T>` | `T` or `vecN<T>`, the same wherever the line has it |
// | `T * 4` | four parameters of this type |
// | `sampler`, `texture_depth_2d`, `texture_2d<f32>`, .. | the sampler or the texture |
// | `texture_2d<T>`, .. | a sampled texture, whose sampled type is T |
// | `texture_storage_2d<read>`, `<write>`, `<any>` | a storage texture that can be read, that can be written, or any; T is the type of its channels |
// | `atomic_pointer<T>`, `workgroup_atomic_pointer<T>` | `ptr<S, atomic<T>, read_write>`; the same in the space `workgroup` |
// | `array_pointer<E>`, `workgroup_pointer<E>` | `ptr<storage, array<E>, A>`; `ptr<workgroup, E, read_write>`, to a constructible type |
// | `E`, as a result | the type to which the pointer points |
// | `frexp_result<T>`, `modf_result<vec2>`, .. | the struct that `frexp` or `modf` returns for T, or for a vector of T |
// | `exchange_result<T>` | the struct that `atomicCompareExchangeWeak` returns |

/// The components of a parameter: a letter, or a scalar.
macro_rules! component {
    (bool) => {
        crate::overload::Component::The(crate::scalar::Scalar::Bool)
    };
    (i32) => {
        crate::overload::Component::The(crate::scalar::Scalar::I32)
    };
    (u32) => {
        crate::overload::Component::The(crate::scalar::Scalar::U32)
    };
    (f32) => {
        crate::overload::Component::The(crate::scalar::Scalar::F32)
    };
    (f16) => {
        crate::overload::Component::The(crate::scalar::Scalar::F16)
    };
    (i64) => {
        crate::overload::Component::The(crate::scalar::Scalar::I64)
    };
    (u64) => {
        crate::overload::Component::The(crate::scalar::Scalar::U64)
    };
    (f64) => {
        crate::overload::Component::The(crate::scalar::Scalar::F64)
    };
    (AbstractInt) => {
        crate::overload::Component::The(crate::scalar::Scalar::AbstractInt)
    };
    ($letter:ident) => {
        crate::overload::Component::$letter
    };
}

/// A number of components, columns or rows.
macro_rules! count {
    ($n:literal) => {
        crate::overload::Count::Exactly($n)
    };
    ($letter:ident) => {
        crate::overload::Count::$letter
    };
}

/// The access modes that a function requires of a storage texture.
macro_rules! usage {
    (read) => {
        crate::overload::Usage::Reads
    };
    (write) => {
        crate::overload::Usage::Writes
    };
    (any) => {
        crate::overload::Usage::Asks
    };
}

/// A texture without a letter. The sampled type of a sampled texture follows `of`.
macro_rules! texture {
    ($t:ident $(of $s:ident)?) => {
        crate::overload::Pattern::Texture(crate::texture::TextureType::$t$((crate::texture::SampledType::$s))?)
    };
}

/// A set of textures or of pointers. The usage of storage textures follows `for`.
macro_rules! resource {
    ($r:ident $(for $u:ident)?) => {
        crate::overload::Pattern::Resource(crate::overload::Resource::$r$((usage!($u)))?)
    };
}

/// A vector.
macro_rules! vector {
    ($n:tt of $c:ident) => {
        crate::overload::Pattern::Value(
            crate::overload::Shape::Vector(count!($n)),
            component!($c),
        )
    };
}

/// A matrix, by its columns and rows.
macro_rules! matrix {
    ($n:tt by $m:tt of $c:ident) => {
        crate::overload::Pattern::Value(
            crate::overload::Shape::Matrix(count!($n), count!($m)),
            component!($c),
        )
    };
}

/// The type of a parameter or of a result. `either<T>` is `T` or `vecN<T>`.
macro_rules! pattern {
    (sampler) => {
        crate::overload::Pattern::Sampler(crate::texture::SamplerType::Sampler)
    };
    (sampler_comparison) => {
        crate::overload::Pattern::Sampler(crate::texture::SamplerType::SamplerComparison)
    };
    (texture_depth_2d) => {
        texture!(Depth2D)
    };
    (texture_depth_2d_array) => {
        texture!(Depth2DArray)
    };
    (texture_depth_cube) => {
        texture!(DepthCube)
    };
    (texture_depth_cube_array) => {
        texture!(DepthCubeArray)
    };
    (texture_depth_multisampled_2d) => {
        texture!(DepthMultisampled2D)
    };
    (texture_external) => {
        texture!(External)
    };
    (texture_1d<f32>) => {
        texture!(Sampled1D of F32)
    };
    (texture_2d<f32>) => {
        texture!(Sampled2D of F32)
    };
    (texture_2d_array<f32>) => {
        texture!(Sampled2DArray of F32)
    };
    (texture_3d<f32>) => {
        texture!(Sampled3D of F32)
    };
    (texture_cube<f32>) => {
        texture!(SampledCube of F32)
    };
    (texture_cube_array<f32>) => {
        texture!(SampledCubeArray of F32)
    };
    (texture_1d<T>) => {
        resource!(Texture1D)
    };
    (texture_2d<T>) => {
        resource!(Texture2D)
    };
    (texture_2d_array<T>) => {
        resource!(Texture2DArray)
    };
    (texture_3d<T>) => {
        resource!(Texture3D)
    };
    (texture_cube<T>) => {
        resource!(TextureCube)
    };
    (texture_cube_array<T>) => {
        resource!(TextureCubeArray)
    };
    (texture_multisampled_2d<T>) => {
        resource!(TextureMultisampled2D)
    };
    (texture_storage_1d<$u:ident>) => {
        resource!(TextureStorage1D for $u)
    };
    (texture_storage_2d<$u:ident>) => {
        resource!(TextureStorage2D for $u)
    };
    (texture_storage_2d_array<$u:ident>) => {
        resource!(TextureStorage2DArray for $u)
    };
    (texture_storage_3d<$u:ident>) => {
        resource!(TextureStorage3D for $u)
    };
    (atomic_pointer<T>) => {
        resource!(AtomicPointer)
    };
    (workgroup_atomic_pointer<T>) => {
        resource!(WorkgroupAtomicPointer)
    };
    (workgroup_pointer<E>) => {
        resource!(WorkgroupPointer)
    };
    (array_pointer<E>) => {
        resource!(ArrayPointer)
    };
    (either<$c:ident>) => {
        crate::overload::Pattern::Value(crate::overload::Shape::OneOrVector, component!($c))
    };
    (vecN<$c:ident>) => {
        vector!(N of $c)
    };
    (vecM<$c:ident>) => {
        vector!(M of $c)
    };
    (vec2<$c:ident>) => {
        vector!(2 of $c)
    };
    (vec3<$c:ident>) => {
        vector!(3 of $c)
    };
    (vec4<$c:ident>) => {
        vector!(4 of $c)
    };
    (matNxN<$c:ident>) => {
        matrix!(N by N of $c)
    };
    (matNxM<$c:ident>) => {
        matrix!(N by M of $c)
    };
    (matMxN<$c:ident>) => {
        matrix!(M by N of $c)
    };
    (matKxM<$c:ident>) => {
        matrix!(K by M of $c)
    };
    (matNxK<$c:ident>) => {
        matrix!(N by K of $c)
    };
    (mat2x2<$c:ident>) => {
        matrix!(2 by 2 of $c)
    };
    (mat2x3<$c:ident>) => {
        matrix!(2 by 3 of $c)
    };
    (mat2x4<$c:ident>) => {
        matrix!(2 by 4 of $c)
    };
    (mat3x2<$c:ident>) => {
        matrix!(3 by 2 of $c)
    };
    (mat3x3<$c:ident>) => {
        matrix!(3 by 3 of $c)
    };
    (mat3x4<$c:ident>) => {
        matrix!(3 by 4 of $c)
    };
    (mat4x2<$c:ident>) => {
        matrix!(4 by 2 of $c)
    };
    (mat4x3<$c:ident>) => {
        matrix!(4 by 3 of $c)
    };
    (mat4x4<$c:ident>) => {
        matrix!(4 by 4 of $c)
    };
    ($c:ident) => {
        crate::overload::Pattern::Value(crate::overload::Shape::One, component!($c))
    };
}

/// The parameters of an overload. `T * 4` is four parameters of that type.
macro_rules! parameters {
    () => {
        crate::overload::Parameters::Nothing
    };
    ($a:ident$(<$b:ident>)? * $n:literal) => {
        crate::overload::Parameters::Times($n, pattern!($a$(<$b>)?))
    };
    ($a:ident$(<$b:ident>)?, $c:ident$(<$d:ident>)? * $n:literal) => {
        crate::overload::Parameters::AndTimes(pattern!($a$(<$b>)?), $n, pattern!($c$(<$d>)?))
    };
    ($a:ident$(<$b:ident>)?) => {
        crate::overload::Parameters::One(pattern!($a$(<$b>)?))
    };
    ($a:ident$(<$b:ident>)?, $c:ident$(<$d:ident>)?) => {
        crate::overload::Parameters::Two(pattern!($a$(<$b>)?), pattern!($c$(<$d>)?))
    };
    ($a:ident$(<$b:ident>)?, $c:ident$(<$d:ident>)?, $e:ident$(<$f:ident>)?) => {
        crate::overload::Parameters::Three(pattern!($a$(<$b>)?), pattern!($c$(<$d>)?), pattern!($e$(<$f>)?))
    };
    ($a:ident$(<$b:ident>)?, $c:ident$(<$d:ident>)?, $e:ident$(<$f:ident>)?, $g:ident$(<$h:ident>)?) => {
        crate::overload::Parameters::Four(pattern!($a$(<$b>)?), pattern!($c$(<$d>)?), pattern!($e$(<$f>)?), pattern!($g$(<$h>)?))
    };
    ($a:ident$(<$b:ident>)?, $c:ident$(<$d:ident>)?, $e:ident$(<$f:ident>)?, $g:ident$(<$h:ident>)?, $i:ident$(<$j:ident>)?) => {
        crate::overload::Parameters::Five(pattern!($a$(<$b>)?), pattern!($c$(<$d>)?), pattern!($e$(<$f>)?), pattern!($g$(<$h>)?), pattern!($i$(<$j>)?))
    };
    ($a:ident$(<$b:ident>)?, $c:ident$(<$d:ident>)?, $e:ident$(<$f:ident>)?, $g:ident$(<$h:ident>)?, $i:ident$(<$j:ident>)?, $k:ident$(<$l:ident>)?) => {
        crate::overload::Parameters::Six(pattern!($a$(<$b>)?), pattern!($c$(<$d>)?), pattern!($e$(<$f>)?), pattern!($g$(<$h>)?), pattern!($i$(<$j>)?), pattern!($k$(<$l>)?))
    };
    ($a:ident$(<$b:ident>)?, $c:ident$(<$d:ident>)?, $e:ident$(<$f:ident>)?, $g:ident$(<$h:ident>)?, $i:ident$(<$j:ident>)?, $k:ident$(<$l:ident>)?, $m:ident$(<$n:ident>)?) => {
        crate::overload::Parameters::Seven(pattern!($a$(<$b>)?), pattern!($c$(<$d>)?), pattern!($e$(<$f>)?), pattern!($g$(<$h>)?), pattern!($i$(<$j>)?), pattern!($k$(<$l>)?), pattern!($m$(<$n>)?))
    };
}

/// The shape of the result struct of `frexp` or `modf`.
macro_rules! result_shape {
    (T) => {
        crate::result_struct::ResultShape::Scalar
    };
    (vec2) => {
        crate::result_struct::ResultShape::Vec2
    };
    (vec3) => {
        crate::result_struct::ResultShape::Vec3
    };
    (vec4) => {
        crate::result_struct::ResultShape::Vec4
    };
}

/// The result of an overload.
macro_rules! returns {
    () => {
        crate::overload::Returns::NoValue
    };
    (E) => {
        crate::overload::Returns::GivesPointee
    };
    (exchange_result<T>) => {
        crate::overload::Returns::GivesExchange
    };
    (frexp_result<$s:ident>) => {
        crate::overload::Returns::GivesStruct(
            crate::result_struct::ResultFunction::Frexp,
            result_shape!($s),
        )
    };
    (modf_result<$s:ident>) => {
        crate::overload::Returns::GivesStruct(
            crate::result_struct::ResultFunction::Modf,
            result_shape!($s),
        )
    };
    ($a:ident$(<$b:ident>)?) => {
        crate::overload::Returns::Gives(pattern!($a$(<$b>)?))
    };
}

/// A kind of scalars.
macro_rules! kind {
    ($k:ident) => {
        crate::overload::Kind::$k
    };
}

/// An overload, with the kinds of T, U, V and W.
macro_rules! overload {
    ($p:expr, $r:expr) => {
        crate::overload::Overload::Plain($p, $r)
    };
    ($p:expr, $r:expr, T: $t:ident) => {
        crate::overload::Overload::WithT($p, $r, kind!($t))
    };
    ($p:expr, $r:expr, T: $t:ident, U: $u:ident) => {
        crate::overload::Overload::WithTAndU($p, $r, kind!($t), kind!($u))
    };
    ($p:expr, $r:expr, T: $t:ident, U: $u:ident, V: $v:ident) => {
        crate::overload::Overload::WithThree($p, $r, kind!($t), kind!($u), kind!($v))
    };
    ($p:expr, $r:expr, T: $t:ident, U: $u:ident, V: $v:ident, W: $w:ident) => {
        crate::overload::Overload::WithFour(
            $p,
            $r,
            kind!($t),
            kind!($u),
            kind!($v),
            kind!($w),
        )
    };
}

/// Overloads, one per line.
macro_rules! overloads {
    ($(($($p:tt)*) $(-> $r:ident$(<$of:ident>)?)? $(where $($letter:ident: $kind:ident),+)?;)*) => {
        &[$(overload!(parameters!($($p)*), returns!($($r$(<$of>)?)?)$($(, $letter: $kind)+)?)),*]
    };
}

pub mod constructors;
pub mod functions;
pub mod gathering;
pub mod memory;
pub mod names;
pub mod operators;
pub mod sampling;
pub mod templates;
pub mod textures;
