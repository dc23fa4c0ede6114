// The rows of a name, and those that several names share, in the order of the rules' table.
use crate::call::rows::Rows::{Either, Only};
use wgsl_syntax::call::Arguments::{Nothing, One, Three, Two};
use wgsl_syntax::call::ReturnType::{
    AsLong, Concrete, HitPositions, InVector, NoValue, Of, RayIntersection,
};
use wgsl_syntax::call::Row;
use wgsl_syntax::call::Row::{Takes, TakesAtLeast};
use wgsl_syntax::call::ScalarKind::{Boolean, F32OrAbstract, Float, Integer, Number};
use wgsl_syntax::call::Shape::{
    Any, PointerToAtomic, Query, ScalarOf, ScalarOrVectorOf, TextureOf, To, ToVector, VectorOf,
};
use wgsl_syntax::call::Source::{Argument, Common, CommonOfThree, InnerOfInner, The};
use wgsl_syntax::call::TextureKind::{Depth, Sampled};
use wgsl_syntax::scalar::Scalar::{Bool, F32, U32};

/// The rows of a name, in order; no name has more than two.
#[derive(Clone, Copy)]
pub enum Rows {
    Only(Row),
    Either(Row, Row),
}

// Maths of one argument.

/// A float function of one argument.
pub const FLOAT_FUNCTION: Rows = Only(Takes(One(ScalarOrVectorOf(Float)), Of(Argument)));

/// A test of all components.
pub const TEST: Rows = Only(Takes(One(Any), Of(The(Bool))));

// Maths of several arguments.

/// A float function of two arguments.
pub const FLOAT_PAIR: Rows = Only(Takes(Two(ScalarOrVectorOf(Float), Any), Of(Common)));

/// The greater or the less of two numbers.
pub const EXTREME: Rows = Only(Takes(Two(ScalarOrVectorOf(Number), Any), Of(Common)));

/// A function of two vectors of floats.
pub const VECTOR_PAIR: Rows = Only(Takes(Two(VectorOf(Float), Any), Of(Common)));

/// A float function of three arguments.
pub const FLOAT_TRIPLE: Rows = Only(Takes(
    Three(ScalarOrVectorOf(Float), Any, Any),
    Of(CommonOfThree),
));

// Bits and subgroups.

/// A function of bits.
pub const BIT_FUNCTION: Rows = Only(Takes(One(ScalarOrVectorOf(Integer)), Concrete(Argument)));

/// A number from all invocations.
pub const SUBGROUP_NUMBER: Rows = Only(Takes(One(ScalarOrVectorOf(Number)), Concrete(Argument)));

/// A number from another invocation.
pub const SHUFFLE: Rows = Only(Takes(
    Two(ScalarOrVectorOf(Number), ScalarOf(Integer)),
    Concrete(Argument),
));

/// A vote of all invocations.
pub const VOTE: Rows = Only(Takes(One(ScalarOf(Boolean)), Of(The(Bool))));

// Derivatives and packing.

/// A derivative.
pub const DERIVATIVE: Rows = Either(
    Takes(One(ScalarOf(F32OrAbstract)), Of(The(F32))),
    Takes(One(VectorOf(F32OrAbstract)), AsLong(The(F32))),
);

/// Two floats packed.
pub const PACK_TWO: Rows = Only(Takes(One(ToVector(2, F32)), Of(The(U32))));

/// Four floats packed.
pub const PACK_FOUR: Rows = Only(Takes(One(ToVector(4, F32)), Of(The(U32))));

/// Two floats unpacked.
pub const UNPACK_TWO: Rows = Only(Takes(One(To(U32)), InVector(2, The(F32))));

/// Four floats unpacked.
pub const UNPACK_FOUR: Rows = Only(Takes(One(To(U32)), InVector(4, The(F32))));

// Textures.

/// A sample of a color or a depth.
pub const SAMPLE: Rows = Either(
    TakesAtLeast(One(TextureOf(Sampled)), InVector(4, The(F32))),
    TakesAtLeast(One(TextureOf(Depth)), Of(The(F32))),
);

/// A sample of a color.
pub const SAMPLE_COLOR: Rows = Only(TakesAtLeast(One(TextureOf(Sampled)), InVector(4, The(F32))));

/// A sample that is compared with a depth.
pub const COMPARE_DEPTH: Rows = Only(TakesAtLeast(One(TextureOf(Depth)), Of(The(F32))));

// Atomics.

/// An update of an atomic.
pub const ATOMIC_UPDATE: Rows = Only(Takes(Two(PointerToAtomic, Any), Of(InnerOfInner)));

// Barriers and rays.

/// No arguments and no value.
pub const BARE_STATEMENT: Rows = Only(Takes(Nothing, NoValue));

/// An intersection of a ray.
pub const INTERSECTION: Rows = Only(Takes(One(Query), RayIntersection));

/// The corners of the triangle that a ray hit.
pub const HIT_VERTICES: Rows = Only(Takes(One(Query), HitPositions));
