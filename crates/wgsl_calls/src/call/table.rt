// The built-in functions, sorted by name, each with its rows.
ghost use Rattle.std.specs.Prelude.{◌≡◌, map, length};
ghost use Rattle.wgsl_rules.specs.calls.Names.{call_names};
ghost use Rattle.wgsl_rules.specs.calls.Table.{call_table, rows_named};
ghost use Rattle.wgsl_calls.specs.internal.Rows.{rows_view};
ghost use Rattle.wgsl_syntax.specs.Hash.{FindsAll};

use crate::call::rows::Rows::{Either, Only};
use crate::call::rows::{
    ATOMIC_UPDATE, BARE_STATEMENT, BIT_FUNCTION, COMPARE_DEPTH, DERIVATIVE, EXTREME,
    FLOAT_FUNCTION, FLOAT_PAIR, FLOAT_TRIPLE, HIT_VERTICES, INTERSECTION, PACK_FOUR, PACK_TWO,
    Rows, SAMPLE, SAMPLE_COLOR, SHUFFLE, SUBGROUP_NUMBER, TEST, UNPACK_FOUR, UNPACK_TWO,
    VECTOR_PAIR, VOTE,
};
use wgsl_syntax::call::Arguments::{Four, Nothing, One, Three, Two};
use wgsl_syntax::call::Condition::{EqualLengths, SameAbstractness};
use wgsl_syntax::call::ReturnType::{
    AsLong, ByTemplate, Concrete, ExchangeResult, InVector, NoValue, Of, ResultOf, TextureSize,
    Transposed,
};
use wgsl_syntax::call::Row::{Takes, TakesAtLeast, TakesWhere, TakesWithTemplate};
use wgsl_syntax::call::ScalarKind::{
    Boolean, F32OrAbstract, Float, I32OrAbstract, Integer, Number, NumberButU32,
};
use wgsl_syntax::call::Shape::{
    Acceleration, Any, Fraction, Matrix, PointerInWorkgroup, PointerToAtomic, Query, ScalarOf,
    ScalarOrVector, ScalarOrVectorOf, SquareMatrix, Structure, TextureOf, To, ToVector, Vector,
    VectorOf,
};
use wgsl_syntax::call::Source::{
    Argument, Channel, Common, CommonOfInner, CommonOfThree, Inner, InnerOfCommon, InnerOfInner,
    SampledAs, The,
};
use wgsl_syntax::call::TextureKind::{
    AnyTexture, Arrayed, Depth, DepthOrMultisampledDepth, Multisampled, Sampled,
    Sampled2dOrExternal, SampledOrDepth, Storage,
};
use wgsl_syntax::hash::Places;
use wgsl_syntax::result_struct::ResultFunction::{Frexp, Modf};
use wgsl_syntax::scalar::Scalar::{Bool, F32, I32, U32};

/// The built-in functions (WGSL, "Built-in Functions"), sorted by the bytes of their names, each with its rows.
pub fn built_ins() -> &'static [(&'static str, Rows)]
    ensures names { map (λ b. (b.0).now) result.now ≡ call_names }
    ensures rows { map (λ b. rows_view b.1) result.now
        ≡ map (λ n. rows_named n call_table) call_names }
    ensures many { length result.now ≡ length call_names }
{
    BUILT_INS
}

/// The tables of the hash that finds the index of a name among them.
pub fn places() -> &'static Places
    ensures { FindsAll result.now call_names }
{
    &PLACES
}

static BUILT_INS: &[(&str, Rows)] = &[
    (
        "abs",
        Only(Takes(One(ScalarOrVectorOf(Number)), Of(Argument))),
    ),
    ("acos", FLOAT_FUNCTION),
    ("acosh", FLOAT_FUNCTION),
    ("all", TEST),
    ("any", TEST),
    ("arrayLength", Only(Takes(One(Any), Of(The(U32))))),
    ("asin", FLOAT_FUNCTION),
    ("asinh", FLOAT_FUNCTION),
    ("atan", FLOAT_FUNCTION),
    ("atan2", FLOAT_PAIR),
    ("atanh", FLOAT_FUNCTION),
    ("atomicAdd", ATOMIC_UPDATE),
    ("atomicAnd", ATOMIC_UPDATE),
    (
        "atomicCompareExchangeWeak",
        Only(Takes(Three(PointerToAtomic, Any, Any), ExchangeResult)),
    ),
    ("atomicExchange", ATOMIC_UPDATE),
    (
        "atomicLoad",
        Only(Takes(One(PointerToAtomic), Of(InnerOfInner))),
    ),
    ("atomicMax", ATOMIC_UPDATE),
    ("atomicMin", ATOMIC_UPDATE),
    ("atomicOr", ATOMIC_UPDATE),
    (
        "atomicStore",
        Only(TakesAtLeast(One(PointerToAtomic), NoValue)),
    ),
    ("atomicSub", ATOMIC_UPDATE),
    ("atomicXor", ATOMIC_UPDATE),
    ("bitcast", Only(TakesWithTemplate(One(Any), ByTemplate))),
    ("ceil", FLOAT_FUNCTION),
    (
        "clamp",
        Only(Takes(Three(ScalarOrVectorOf(Number), Any, Any), Of(CommonOfThree))),
    ),
    ("cos", FLOAT_FUNCTION),
    ("cosh", FLOAT_FUNCTION),
    ("countLeadingZeros", BIT_FUNCTION),
    ("countOneBits", BIT_FUNCTION),
    ("countTrailingZeros", BIT_FUNCTION),
    ("cross", VECTOR_PAIR),
    ("degrees", FLOAT_FUNCTION),
    ("determinant", Only(Takes(One(SquareMatrix), Of(Inner)))),
    (
        "distance",
        Only(Takes(Two(ScalarOrVectorOf(Float), Any), Of(InnerOfCommon))),
    ),
    (
        "dot",
        Only(Takes(Two(VectorOf(Number), Any), Of(InnerOfCommon))),
    ),
    (
        "dot4I8Packed",
        Only(Takes(Two(To(U32), To(U32)), Of(The(I32)))),
    ),
    (
        "dot4U8Packed",
        Only(Takes(Two(To(U32), To(U32)), Of(The(U32)))),
    ),
    ("dpdx", DERIVATIVE),
    ("dpdxCoarse", DERIVATIVE),
    ("dpdxFine", DERIVATIVE),
    ("dpdy", DERIVATIVE),
    ("dpdyCoarse", DERIVATIVE),
    ("dpdyFine", DERIVATIVE),
    ("exp", FLOAT_FUNCTION),
    ("exp2", FLOAT_FUNCTION),
    (
        "extractBits",
        Only(Takes(
            Three(ScalarOrVectorOf(Integer), To(U32), To(U32)),
            Concrete(Argument),
        )),
    ),
    (
        "faceForward",
        Only(Takes(Three(VectorOf(Float), Any, Any), Of(CommonOfThree))),
    ),
    ("firstLeadingBit", BIT_FUNCTION),
    ("firstTrailingBit", BIT_FUNCTION),
    ("floor", FLOAT_FUNCTION),
    ("fma", FLOAT_TRIPLE),
    ("fract", FLOAT_FUNCTION),
    ("frexp", Only(Takes(One(Fraction), ResultOf(Frexp)))),
    ("fwidth", DERIVATIVE),
    ("fwidthCoarse", DERIVATIVE),
    ("fwidthFine", DERIVATIVE),
    ("getCandidateHitVertexPositions", HIT_VERTICES),
    ("getCommittedHitVertexPositions", HIT_VERTICES),
    (
        "insertBits",
        Only(Takes(
            Four(ScalarOrVectorOf(Integer), Any, To(U32), To(U32)),
            Concrete(Common),
        )),
    ),
    ("inverseSqrt", FLOAT_FUNCTION),
    (
        "ldexp",
        Either(
            TakesWhere(
                Two(ScalarOf(Float), ScalarOf(I32OrAbstract)),
                SameAbstractness,
                Of(Argument),
            ),
            TakesWhere(
                Two(VectorOf(Float), VectorOf(I32OrAbstract)),
                SameAbstractness,
                Of(Argument),
            ),
        ),
    ),
    (
        "length",
        Only(Takes(One(ScalarOrVectorOf(Float)), Of(Inner))),
    ),
    ("log", FLOAT_FUNCTION),
    ("log2", FLOAT_FUNCTION),
    ("max", EXTREME),
    ("min", EXTREME),
    (
        "mix",
        Either(
            TakesWhere(
                Three(Vector, Vector, ScalarOf(Float)),
                EqualLengths,
                AsLong(CommonOfInner),
            ),
            Takes(Three(ScalarOrVectorOf(Float), Any, Any), Of(CommonOfThree)),
        ),
    ),
    ("modf", Only(Takes(One(Fraction), ResultOf(Modf)))),
    ("normalize", Only(Takes(One(VectorOf(Float)), Of(Argument)))),
    ("pack2x16float", PACK_TWO),
    ("pack2x16snorm", PACK_TWO),
    ("pack2x16unorm", PACK_TWO),
    ("pack4x8snorm", PACK_FOUR),
    ("pack4x8unorm", PACK_FOUR),
    ("pack4xI8", Only(Takes(One(ToVector(4, I32)), Of(The(U32))))),
    ("pack4xI8Clamp", PACK_FOUR),
    ("pack4xU8", Only(Takes(One(ToVector(4, U32)), Of(The(U32))))),
    ("pack4xU8Clamp", PACK_FOUR),
    ("pow", Only(Takes(Two(Any, Any), Of(Common)))),
    ("quadBroadcast", SHUFFLE),
    ("quadSwapDiagonal", SUBGROUP_NUMBER),
    ("quadSwapX", SUBGROUP_NUMBER),
    ("quadSwapY", SUBGROUP_NUMBER),
    (
        "quantizeToF16",
        Only(Takes(One(ScalarOrVectorOf(F32OrAbstract)), Of(Argument))),
    ),
    ("radians", FLOAT_FUNCTION),
    ("rayQueryConfirmIntersection", BARE_STATEMENT),
    (
        "rayQueryGenerateIntersection",
        Only(Takes(One(To(F32)), NoValue)),
    ),
    ("rayQueryGetCandidateIntersection", INTERSECTION),
    ("rayQueryGetCommittedIntersection", INTERSECTION),
    (
        "rayQueryInitialize",
        Only(Takes(Three(Query, Acceleration, Structure), NoValue)),
    ),
    ("rayQueryProceed", Only(Takes(One(Query), Of(The(Bool))))),
    ("rayQueryTerminate", BARE_STATEMENT),
    ("reflect", VECTOR_PAIR),
    (
        "refract",
        Only(TakesWhere(
            Three(Vector, Vector, ScalarOf(Float)),
            EqualLengths,
            AsLong(CommonOfInner),
        )),
    ),
    (
        "reverseBits",
        Only(Takes(One(ScalarOrVectorOf(Integer)), Of(Argument))),
    ),
    ("round", FLOAT_FUNCTION),
    ("saturate", FLOAT_FUNCTION),
    (
        "select",
        Either(
            Takes(Three(ScalarOrVector, Any, ScalarOf(Boolean)), Of(Common)),
            Takes(Three(Vector, Any, VectorOf(Boolean)), Of(Common)),
        ),
    ),
    (
        "sign",
        Only(Takes(One(ScalarOrVectorOf(NumberButU32)), Of(Argument))),
    ),
    ("sin", FLOAT_FUNCTION),
    ("sinh", FLOAT_FUNCTION),
    ("smoothstep", FLOAT_TRIPLE),
    ("sqrt", FLOAT_FUNCTION),
    ("step", FLOAT_PAIR),
    ("storageBarrier", BARE_STATEMENT),
    ("subgroupAdd", SUBGROUP_NUMBER),
    ("subgroupAll", VOTE),
    ("subgroupAnd", BIT_FUNCTION),
    ("subgroupAny", VOTE),
    (
        "subgroupBallot",
        Either(
            Takes(One(ScalarOf(Boolean)), InVector(4, The(U32))),
            Takes(Nothing, InVector(4, The(U32))),
        ),
    ),
    ("subgroupBroadcast", SHUFFLE),
    ("subgroupBroadcastFirst", SUBGROUP_NUMBER),
    ("subgroupElect", Only(Takes(Nothing, Of(The(Bool))))),
    ("subgroupExclusiveAdd", SUBGROUP_NUMBER),
    ("subgroupExclusiveMul", SUBGROUP_NUMBER),
    ("subgroupInclusiveAdd", SUBGROUP_NUMBER),
    ("subgroupInclusiveMul", SUBGROUP_NUMBER),
    ("subgroupMax", SUBGROUP_NUMBER),
    ("subgroupMin", SUBGROUP_NUMBER),
    ("subgroupMul", SUBGROUP_NUMBER),
    ("subgroupOr", BIT_FUNCTION),
    ("subgroupShuffle", SHUFFLE),
    ("subgroupShuffleDown", SHUFFLE),
    ("subgroupShuffleUp", SHUFFLE),
    ("subgroupShuffleXor", SHUFFLE),
    ("subgroupXor", BIT_FUNCTION),
    ("tan", FLOAT_FUNCTION),
    ("tanh", FLOAT_FUNCTION),
    ("textureBarrier", BARE_STATEMENT),
    (
        "textureDimensions",
        Either(
            Takes(One(TextureOf(AnyTexture)), TextureSize),
            Takes(Two(TextureOf(AnyTexture), Any), TextureSize),
        ),
    ),
    (
        "textureGather",
        Either(
            TakesAtLeast(Two(Any, TextureOf(Sampled)), InVector(4, SampledAs)),
            TakesAtLeast(One(TextureOf(Depth)), InVector(4, The(F32))),
        ),
    ),
    (
        "textureGatherCompare",
        Only(TakesAtLeast(One(TextureOf(Depth)), InVector(4, The(F32)))),
    ),
    (
        "textureLoad",
        Either(
            TakesAtLeast(One(TextureOf(DepthOrMultisampledDepth)), Of(The(F32))),
            TakesAtLeast(One(TextureOf(AnyTexture)), InVector(4, Channel)),
        ),
    ),
    (
        "textureNumLayers",
        Only(Takes(One(TextureOf(Arrayed)), Of(The(U32)))),
    ),
    (
        "textureNumLevels",
        Only(Takes(One(TextureOf(SampledOrDepth)), Of(The(U32)))),
    ),
    (
        "textureNumSamples",
        Only(Takes(One(TextureOf(Multisampled)), Of(The(U32)))),
    ),
    ("textureSample", SAMPLE),
    (
        "textureSampleBaseClampToEdge",
        Only(TakesAtLeast(One(TextureOf(Sampled2dOrExternal)), InVector(4, The(F32)))),
    ),
    ("textureSampleBias", SAMPLE_COLOR),
    ("textureSampleCompare", COMPARE_DEPTH),
    ("textureSampleCompareLevel", COMPARE_DEPTH),
    ("textureSampleGrad", SAMPLE_COLOR),
    ("textureSampleLevel", SAMPLE),
    (
        "textureStore",
        Only(TakesAtLeast(One(TextureOf(Storage)), NoValue)),
    ),
    ("transpose", Only(Takes(One(Matrix), Transposed))),
    ("trunc", FLOAT_FUNCTION),
    ("unpack2x16float", UNPACK_TWO),
    ("unpack2x16snorm", UNPACK_TWO),
    ("unpack2x16unorm", UNPACK_TWO),
    ("unpack4x8snorm", UNPACK_FOUR),
    ("unpack4x8unorm", UNPACK_FOUR),
    (
        "unpack4xI8",
        Only(Takes(One(To(U32)), InVector(4, The(I32)))),
    ),
    (
        "unpack4xU8",
        Only(Takes(One(To(U32)), InVector(4, The(U32)))),
    ),
    ("workgroupBarrier", BARE_STATEMENT),
    (
        "workgroupUniformLoad",
        Only(Takes(One(PointerInWorkgroup), Of(Inner))),
    ),
];

static PLACES: Places = Places {
    first: [
        0, 0, 0, 0, 0, 1, 0, 0, 3, 5, 3, 6, 4, 6, 2, 0, 9, 8, 0, 4, 7, 0, 6, 0, 0, 12, 0, 16, 0, 0,
        6, 0, 0,
    ],
    second: [
        0, 0, 0, 1, 2, 2, 1, 4, 5, 7, 8, 9, 7, 7, 9, 4, 14, 14, 5, 15, 8, 0, 19, 0, 0, 22, 0, 20,
        3, 0, 15, 0, 16,
    ],
    third: [
        0, 0, 0, 2, 3, 4, 3, 6, 6, 8, 9, 10, 11, 8, 10, 10, 15, 15, 16, 17, 17, 0, 21, 0, 0, 24, 0,
        25, 13, 0, 16, 0, 22,
    ],
    factors: [
        0, 0, 0, 2237611911, 3075620703, 2095178453, 4263570571, 1991042749, 2703366073, 541030809,
        1501687987, 3309231997, 2499975847, 1068963429, 3062773895, 380985311, 1833589747,
        428268313, 536061489, 3035301761, 306364063, 0, 2922986225, 0, 0, 3056380251, 0,
        2489170563, 2669444099, 0, 2317905837, 0, 2181156043,
    ],
    indices: [
        138, 105, 0, 84, 0, 28, 27, 20, 82, 0, 0, 149, 71, 0, 124, 43, 0, 77, 0, 128, 75, 59, 129,
        0, 74, 5, 110, 0, 18, 0, 0, 19, 62, 0, 46, 60, 21, 0, 65, 127, 150, 0, 119, 0, 0, 78, 34,
        32, 0, 0, 154, 0, 76, 134, 0, 0, 0, 31, 123, 0, 0, 0, 12, 0, 0, 112, 45, 0, 0, 48, 99, 13,
        0, 72, 38, 0, 120, 0, 73, 96, 114, 58, 0, 10, 0, 148, 42, 0, 0, 14, 0, 116, 23, 29, 15, 61,
        113, 101, 0, 2, 87, 0, 130, 0, 0, 0, 25, 115, 6, 47, 67, 100, 139, 37, 0, 30, 0, 153, 107,
        57, 97, 0, 9, 122, 0, 4, 0, 22, 0, 88, 0, 24, 3, 16, 103, 0, 0, 0, 0, 142, 0, 0, 89, 81, 0,
        145, 0, 90, 131, 26, 147, 1, 144, 0, 0, 0, 56, 92, 109, 151, 0, 66, 0, 49, 41, 0, 0, 64,
        104, 0, 54, 0, 98, 0, 0, 44, 40, 102, 0, 0, 94, 39, 152, 146, 0, 85, 0, 117, 0, 69, 141,
        79, 91, 17, 55, 11, 50, 0, 0, 0, 0, 121, 80, 108, 0, 0, 63, 0, 0, 111, 126, 0, 68, 0, 33,
        0, 0, 0, 8, 86, 0, 0, 0, 36, 70, 0, 0, 35, 0, 0, 7, 0, 140, 0, 93, 0, 0, 0, 125, 0, 0, 132,
        83, 133, 106, 53, 143, 118, 52, 137, 0, 136, 51, 95, 0, 135,
    ],
};
