// The letters for scalars: what operands require of them, and the least scalar of a kind.
ghost use Rattle.std.specs.Prelude.{◌≡◌, None, Some, false};
ghost use Rattle.wgsl_rules.specs.standard.LetterKinds.{is_of_kind as is_in_kind};
ghost use Rattle.wgsl_standard.specs.internal.Binding.{converts as converts_to, may_be as may_stand, join as joined, join_to as joined_to, first_target as first_from, pick as picked};

use wgsl_core::conversion::scalar_rank;
use wgsl_syntax::overload::Kind;
use wgsl_syntax::scalar::Scalar;

/// What a letter stands for, if one more operand converts to it.
pub fn join_to(letter: Option<Scalar>, scalar: Scalar) -> Option<Scalar>
    ensures { result ≡ joined_to letter scalar }
{
    match letter {
        None => Some(scalar),
        Some(before) => join(before, scalar),
    }
}

fn join(a: Scalar, b: Scalar) -> Option<Scalar>
    ensures { result ≡ joined a b }
{
    if converts(a, b) {
        Some(b)
    } else if converts(b, a) {
        Some(a)
    } else {
        None
    }
}

/// Whether the first scalar converts to the second.
pub fn converts(a: Scalar, b: Scalar) -> bool
    ensures { result ≡ converts_to a b }
{
    scalar_rank(a, b).is_some()
}

/// Whether a parameter may have this scalar.
pub fn may_be(concrete: bool, scalar: Scalar) -> bool
    ensures { result ≡ may_stand concrete scalar }
{
    if concrete {
        !matches!(scalar, Scalar::AbstractInt | Scalar::AbstractFloat)
    } else {
        true
    }
}

/// The scalar that a letter finally stands for.
#[inline(always)]
pub fn pick(concrete: bool, kind: Kind, letter: Option<Scalar>) -> Option<Scalar>
    ensures { result ≡ picked concrete kind letter }
{
    match letter {
        None => Some(least_of(kind)),
        Some(scalar) => pick_from(concrete, kind, scalar),
    }
}

/// The least scalar of a kind, in the order of the scalars.
fn least_of(kind: Kind) -> Scalar
    ensures { Some result ≡ picked false kind None }
{
    match kind {
        Kind::AnyScalar | Kind::ConcreteScalar => Scalar::Bool,
        Kind::Number | Kind::SignedNumber | Kind::Integer | Kind::SignedInteger => {
            Scalar::AbstractInt
        }
        Kind::Float | Kind::ShortFloat => Scalar::AbstractFloat,
        Kind::ConcreteNumber | Kind::ConcreteInteger | Kind::Number32 => Scalar::I32,
        Kind::ConcreteFloat => Scalar::F32,
    }
}

/// The scalar for a letter to which operands of this scalar convert: that scalar itself if it may be, or else the one
/// of least rank.
fn pick_from(concrete: bool, kind: Kind, scalar: Scalar) -> Option<Scalar>
    ensures { result ≡ picked concrete kind (Some scalar) }
{
    if is_of_kind(kind, scalar) && may_be(concrete, scalar) {
        Some(scalar)
    } else {
        first_target(concrete, kind, scalar, &BY_RANK)
    }
}

/// All scalars. Those to which a scalar converts are in the order of their ranks.
const BY_RANK: [Scalar; 10] = [
    Scalar::Bool,
    Scalar::AbstractInt,
    Scalar::I32,
    Scalar::U32,
    Scalar::AbstractFloat,
    Scalar::F32,
    Scalar::F16,
    Scalar::I64,
    Scalar::U64,
    Scalar::F64,
];

/// The first of the scalars to which one converts, if it is of the kind.
fn first_target(concrete: bool, kind: Kind, from: Scalar, scalars: &[Scalar]) -> Option<Scalar>
    ensures { result ≡ first_from concrete kind from scalars.now }
{
    for scalar in scalars {
        if converts(from, *scalar) && is_of_kind(kind, *scalar) && may_be(concrete, *scalar) {
            return Some(*scalar);
        }
    }
    None
}

fn is_of_kind(kind: Kind, scalar: Scalar) -> bool
    ensures { result ≡ is_in_kind kind scalar }
{
    match kind {
        Kind::AnyScalar => true,
        Kind::ConcreteScalar => !matches!(scalar, Scalar::AbstractInt | Scalar::AbstractFloat),
        Kind::Number => !matches!(scalar, Scalar::Bool),
        Kind::SignedNumber => !matches!(scalar, Scalar::Bool | Scalar::U32 | Scalar::U64),
        Kind::ConcreteNumber => !matches!(
            scalar,
            Scalar::Bool | Scalar::AbstractInt | Scalar::AbstractFloat
        ),
        Kind::Integer => matches!(
            scalar,
            Scalar::AbstractInt | Scalar::I32 | Scalar::U32 | Scalar::I64 | Scalar::U64
        ),
        Kind::SignedInteger => matches!(scalar, Scalar::AbstractInt | Scalar::I32 | Scalar::I64),
        Kind::ConcreteInteger => matches!(
            scalar,
            Scalar::I32 | Scalar::U32 | Scalar::I64 | Scalar::U64
        ),
        Kind::Float => matches!(
            scalar,
            Scalar::AbstractFloat | Scalar::F32 | Scalar::F16 | Scalar::F64
        ),
        Kind::ConcreteFloat => matches!(scalar, Scalar::F32 | Scalar::F16 | Scalar::F64),
        Kind::Number32 => matches!(scalar, Scalar::I32 | Scalar::U32 | Scalar::F32),
        Kind::ShortFloat => { matches!(scalar, Scalar::AbstractFloat | Scalar::F32 | Scalar::F16) }
    }
}
