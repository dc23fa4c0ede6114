// What a row of the table of built-in functions requires of the arguments, and what it returns.
use crate::result_struct::ResultFunction;
use crate::scalar::Scalar;

/// A set of scalar types.
#[derive(Clone, Copy)]
pub enum ScalarKind {
    Boolean,
    Number,
    NumberButU32,
    Integer,
    Float,
    /// `f32` or an abstract float.
    F32OrAbstract,
    /// `i32` or an abstract integer.
    I32OrAbstract,
}

/// A set of texture types.
#[derive(Clone, Copy)]
pub enum TextureKind {
    AnyTexture,
    Sampled,
    Depth,
    Arrayed,
    Multisampled,
    Storage,
    SampledOrDepth,
    DepthOrMultisampledDepth,
    Sampled2dOrExternal,
}

/// What a row requires of one argument.
#[derive(Clone, Copy)]
pub enum Shape {
    Any,
    ScalarOf(ScalarKind),
    VectorOf(ScalarKind),
    ScalarOrVectorOf(ScalarKind),
    Vector,
    ScalarOrVector,
    Matrix,
    SquareMatrix,
    /// An abstract float, `f32` or `f16`, or a vector of these.
    Fraction,
    /// A type that converts to the scalar.
    To(Scalar),
    /// A type that converts to the vector with that many components.
    ToVector(u8, Scalar),
    TextureOf(TextureKind),
    PointerToAtomic,
    PointerInWorkgroup,
    /// A pointer to read and write in the function space, as ray queries are passed.
    Query,
    Acceleration,
    Structure,
}

/// What a row requires of the first two arguments together.
#[derive(Clone, Copy)]
pub enum Condition {
    /// Both are vectors of the same length.
    EqualLengths,
    /// Both are abstract, or neither is.
    SameAbstractness,
}

/// A type that is found from the arguments.
#[derive(Clone, Copy)]
pub enum Source {
    Argument,
    /// The type inside the first argument.
    Inner,
    InnerOfInner,
    /// The common type of the first two arguments.
    Common,
    InnerOfCommon,
    CommonOfThree,
    /// The common type of the types inside the first two arguments and of the third argument.
    CommonOfInner,
    The(Scalar),
    /// The sampled type of the second argument, a texture.
    SampledAs,
    /// The type that the channels of the first argument, a texture, are read as.
    Channel,
}

/// What a row returns.
#[derive(Clone, Copy)]
pub enum ReturnType {
    Of(Source),
    Concrete(Source),
    /// A vector of the type, as long as the first argument.
    AsLong(Source),
    /// A vector of the type with that many components.
    InVector(u8, Source),
    Transposed,
    TextureSize,
    ResultOf(ResultFunction),
    ExchangeResult,
    RayIntersection,
    HitPositions,
    NoValue,
    ByTemplate,
}

/// What a row requires of each argument, in order.
#[derive(Clone, Copy)]
pub enum Arguments {
    Nothing,
    One(Shape),
    Two(Shape, Shape),
    Three(Shape, Shape, Shape),
    Four(Shape, Shape, Shape, Shape),
}

/// What is required of the arguments, and what is returned.
#[derive(Clone, Copy)]
pub enum Row {
    Takes(Arguments, ReturnType),
    /// Any further arguments are accepted.
    TakesAtLeast(Arguments, ReturnType),
    TakesWhere(Arguments, Condition, ReturnType),
    TakesWithTemplate(Arguments, ReturnType),
}
