// Overloads as data: one line per overload, as WGSL writes them.
use crate::result_struct::{ResultFunction, ResultShape};
use crate::scalar::Scalar;
use crate::texture::{SamplerType, TextureType};

/// A set of scalars, for which a letter stands.
#[derive(Clone, Copy)]
pub enum Kind {
    AnyScalar,
    Number,
    SignedNumber,
    Integer,
    SignedInteger,
    Float,
    ConcreteScalar,
    ConcreteNumber,
    ConcreteInteger,
    ConcreteFloat,
    /// `i32`, `u32` or `f32`
    Number32,
    /// AbstractFloat, `f32` or `f16`
    ShortFloat,
}

/// The components of a parameter: a letter for scalars, or a scalar.
#[derive(Clone, Copy)]
pub enum Component {
    T,
    U,
    V,
    W,
    The(Scalar),
}

/// A number of components, columns or rows: a letter for numbers, or a number.
#[derive(Clone, Copy)]
pub enum Count {
    N,
    M,
    K,
    Exactly(u8),
}

/// A scalar, a vector or a matrix.
#[derive(Clone, Copy)]
pub enum Shape {
    One,
    Vector(Count),
    /// The number of columns, and the number of rows.
    Matrix(Count, Count),
    /// A scalar or a vector: in a call, all parameters with this shape are alike.
    OneOrVector,
}

/// What a function does with a storage texture, which limits its access mode.
#[derive(Clone, Copy)]
pub enum Usage {
    /// The access mode is `read` or `read_write`.
    Reads,
    /// The access mode is `write` or `read_write`.
    Writes,
    /// Any access mode that storage textures have.
    Asks,
}

/// A set of textures or of pointers. A parameter with the set takes each type in it.
#[derive(Clone, Copy)]
pub enum Resource {
    /// `texture_1d<T>`
    Texture1D,
    /// `texture_2d<T>`
    Texture2D,
    /// `texture_2d_array<T>`
    Texture2DArray,
    /// `texture_3d<T>`
    Texture3D,
    /// `texture_cube<T>`
    TextureCube,
    /// `texture_cube_array<T>`
    TextureCubeArray,
    /// `texture_multisampled_2d<T>`
    TextureMultisampled2D,
    /// `texture_storage_1d<F, A>`, where T is the type of the channels of the texel format F.
    TextureStorage1D(Usage),
    /// `texture_storage_2d<F, A>`
    TextureStorage2D(Usage),
    /// `texture_storage_2d_array<F, A>`
    TextureStorage2DArray(Usage),
    /// `texture_storage_3d<F, A>`
    TextureStorage3D(Usage),
    /// `ptr<S, atomic<T>, read_write>`, in the spaces `storage` and `workgroup`
    AtomicPointer,
    /// `ptr<workgroup, atomic<T>, read_write>`
    WorkgroupAtomicPointer,
    /// `ptr<workgroup, E, read_write>`, where E is a concrete constructible type.
    WorkgroupPointer,
    /// `ptr<storage, array<E>, A>`, which can be read
    ArrayPointer,
}

/// The type of a parameter, or of a result.
#[derive(Clone, Copy)]
pub enum Pattern {
    /// A scalar, a vector or a matrix.
    Value(Shape, Component),
    Sampler(SamplerType),
    Texture(TextureType),
    Resource(Resource),
}

/// What a call returns.
#[derive(Clone, Copy)]
pub enum Returns {
    NoValue,
    Gives(Pattern),
    /// The result struct of `frexp` or `modf` for T, or for vectors of T.
    GivesStruct(ResultFunction, ResultShape),
    /// The result struct of `atomicCompareExchangeWeak` for T.
    GivesExchange,
    /// The type to which the pointer points.
    GivesPointee,
}

/// The parameters of an overload, in order.
#[derive(Clone, Copy)]
pub enum Parameters {
    Nothing,
    One(Pattern),
    Two(Pattern, Pattern),
    Three(Pattern, Pattern, Pattern),
    Four(Pattern, Pattern, Pattern, Pattern),
    Five(Pattern, Pattern, Pattern, Pattern, Pattern),
    Six(Pattern, Pattern, Pattern, Pattern, Pattern, Pattern),
    Seven(Pattern, Pattern, Pattern, Pattern, Pattern, Pattern, Pattern),
    /// That many parameters of one type.
    Times(u8, Pattern),
    /// A parameter, and that many of another type.
    AndTimes(Pattern, u8, Pattern),
}

/// When the calls of a function are evaluated, which shaders may have them, and what else is asked of them.
#[derive(Clone, Copy)]
pub enum Evaluation {
    /// Before the shader runs if all arguments are const-expressions: then the call is one too.
    Constant,
    // While the shader runs: no call is a const-expression.
    /// In any shader.
    Runtime,
    /// In fragment shaders alone, which have derivatives.
    Fragment,
    /// In compute shaders alone, which have workgroups.
    Compute,
    /// In all but vertex shaders. The value of the call may be left unused.
    Atomic,
    /// In all but vertex shaders, behind `enable subgroups;`.
    Subgroup,
}

/// The shaders that may call a function.
#[derive(Clone, Copy, PartialEq, Eq)]
pub enum Stages {
    All,
    Fragment,
    Compute,
    AllButVertex,
}

/// An overload: its parameters, its result, and the kinds of its letters for scalars, T, U, V and W.
#[derive(Clone, Copy)]
pub enum Overload {
    Plain(Parameters, Returns),
    WithT(Parameters, Returns, Kind),
    WithTAndU(Parameters, Returns, Kind, Kind),
    WithThree(Parameters, Returns, Kind, Kind, Kind),
    WithFour(Parameters, Returns, Kind, Kind, Kind, Kind),
}

/// What a scalar, a vector or a matrix is without its components.
#[derive(Clone, Copy)]
pub enum Dimensions {
    Single,
    Vector(u8),
    Matrix(u8, u8),
}

/// What the letters of an overload stand for.
#[derive(Clone, Copy)]
pub struct Substitution {
    pub t: Scalar,
    pub u: Scalar,
    pub v: Scalar,
    pub w: Scalar,
    /// What `OneOrVector` is: None for a scalar, or the number of components of a vector.
    pub width: Option<u8>,
    pub n: u8,
    pub m: u8,
    pub k: u8,
}
