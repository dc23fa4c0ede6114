//! Conversion of types, and of values that have a type (WGSL, "Conversion Rank").
ghost use Rattle.std.specs.Prelude.{◌≡◌, Option, IfOk, IfSome, All, option_map, option_and_then, map};
ghost use Rattle.wgsl_rules.specs.types.Types.{WgslType};
ghost use Rattle.wgsl_rules.specs.conversion.Common.{IsCommon, IsLeftCommon};
ghost use Rattle.wgsl_core.specs.View.{view};
ghost use Rattle.wgsl_rules.specs.conversion.Converted.{both_to, all_to};

use std::alloc::{AllocError, Global};
use wgsl_core::conversion::lists::common_of;
pub use wgsl_core::conversion::lists::convert_all_ty;
use wgsl_core::conversion::typed::Ty;
pub use wgsl_core::conversion::value::Convert;
pub use wgsl_core::conversion::{conversion_rank, convert_ty, rank_steps};
use wgsl_core::ty::Type;

/// Both values converted to their common type; None if there is none, or one of them doesn't convert.
pub fn convert<T: Convert>(alloc: Global, a: &T, b: &T) -> Result<Option<(T, T)>, AllocError>
where
    T: Drop,
    ensures value { IfOk result (λ p. (c : Option WgslType)
        × IsCommon (T.type_of a.now) (T.type_of b.now) c
        × (option_map (λ q. (T.shown q.0, T.shown q.1)) p
        ≡ option_and_then (both_to T.to T.to a.now b.now) c)) }
    ensures one_type { IfOk result (λ p. IfSome p (λ q. T.type_of q.0 ≡ T.type_of q.1)) }
{
    let a_type = a.ty(alloc)?;
    let both = convert_with_type(alloc, a, &a_type, b);
    drop(a_type);
    both
}

/// `convert` once the type of `a` is known.
fn convert_with_type<T: Convert>(
    alloc: Global,
    a: &T,
    a_type: &Type,
    b: &T,
) -> Result<Option<(T, T)>, AllocError>
where
    T: Drop,
    ensures value { IfOk result (λ p. (c : Option WgslType)
        × IsCommon (view a_type.now) (T.type_of b.now) c
        × (option_map (λ q. (T.shown q.0, T.shown q.1)) p
        ≡ option_and_then (both_to T.to T.to a.now b.now) c)) }
    ensures one_type { IfOk result (λ p. IfSome p (λ q. T.type_of q.0 ≡ T.type_of q.1)) }
{
    let b_type = b.ty(alloc)?;
    let both = convert_both_to(alloc, a, b, convert_ty(a_type, &b_type));
    drop(b_type);
    both
}

/// Both values converted to a type, if there is one; None if one of them doesn't convert.
fn convert_both_to<T: Convert>(
    alloc: Global,
    a: &T,
    b: &T,
    ty: Option<&Type>,
) -> Result<Option<(T, T)>, AllocError>
where
    T: Drop,
    ensures value { IfOk result (λ p. option_map (λ q. (T.shown q.0, T.shown q.1)) p
        ≡ option_and_then (both_to T.to T.to a.now b.now)
        (option_map (λ t. view t.now) ty.entry)) }
    ensures one_type { IfOk result (λ p. IfSome p (λ q. T.type_of q.0 ≡ T.type_of q.1)) }
{
    let Some(ty) = ty else {
        return Ok(None);
    };
    let Some(x) = a.convert_to(alloc, ty)? else {
        return Ok(None);
    };
    let Some(y) = b.convert_to(alloc, ty)? else {
        return Ok(None);
    };
    Ok(Some((x, y)))
}

/// Both values converted by `convert_inner_to` to the common type of their inner types; None if there is none, or one
/// of them doesn't convert.
pub fn convert_inner<T: Convert, U: Convert>(
    alloc: Global,
    a: &T,
    b: &U,
) -> Result<Option<(T, U)>, AllocError>
where
    T: Drop,
    U: Drop,
    ensures { IfOk result (λ p. (c : Option WgslType)
        × IsCommon (T.inner_type_of a.now) (U.inner_type_of b.now) c
        × (option_map (λ q. (T.shown q.0, U.shown q.1)) p
        ≡ option_and_then (both_to T.inner_to U.inner_to a.now b.now) c)) }
{
    let a_type = a.inner_ty(alloc)?;
    let both = convert_inner_with_type(alloc, a, &a_type, b);
    drop(a_type);
    both
}

/// `convert_inner` once the inner type of `a` is known.
fn convert_inner_with_type<T: Convert, U: Convert>(
    alloc: Global,
    a: &T,
    a_type: &Type,
    b: &U,
) -> Result<Option<(T, U)>, AllocError>
where
    T: Drop,
    U: Drop,
    ensures { IfOk result (λ p. (c : Option WgslType)
        × IsCommon (view a_type.now) (U.inner_type_of b.now) c
        × (option_map (λ q. (T.shown q.0, U.shown q.1)) p
        ≡ option_and_then (both_to T.inner_to U.inner_to a.now b.now) c)) }
{
    let b_type = b.inner_ty(alloc)?;
    let both = convert_both_inner_to(alloc, a, b, convert_ty(a_type, &b_type));
    drop(b_type);
    both
}

/// Both values converted by `convert_inner_to` to a type, if there is one; None if one of them doesn't convert.
fn convert_both_inner_to<T: Convert, U: Convert>(
    alloc: Global,
    a: &T,
    b: &U,
    ty: Option<&Type>,
) -> Result<Option<(T, U)>, AllocError>
where
    T: Drop,
    U: Drop,
    ensures { IfOk result (λ p. option_map (λ q. (T.shown q.0, U.shown q.1)) p
        ≡ option_and_then (both_to T.inner_to U.inner_to a.now b.now)
        (option_map (λ t. view t.now) ty.entry)) }
{
    let Some(ty) = ty else {
        return Ok(None);
    };
    let Some(x) = a.convert_inner_to(alloc, ty)? else {
        return Ok(None);
    };
    let Some(y) = b.convert_inner_to(alloc, ty)? else {
        return Ok(None);
    };
    Ok(Some((x, y)))
}

/// All values converted to a type, in order; None if one doesn't convert.
pub fn convert_all_to<T: Convert>(
    alloc: Global,
    values: &[T],
    ty: &Type,
) -> Result<Option<Vec<T>>, AllocError>
where
    T: Drop,
    ensures value { IfOk result (λ r. option_map (λ v. map T.shown v.items) r
        ≡ all_to T.to (view ty.now) values.now) }
    ensures one_type { IfOk result (λ r. IfSome r (λ v.
        All (λ x. T.type_of x ≡ view ty.now) v.items)) }
{
    let mut converted = Vec::new(alloc);
    for value in values {
        let Some(x) = value.convert_to(alloc, ty)? else {
            return Ok(None);
        };
        converted.push(x)?;
    }
    Ok(Some(converted))
}

/// All values converted by `convert_inner_to` to a type, in order; None if one doesn't convert.
pub fn convert_all_inner_to<T: Convert>(
    alloc: Global,
    values: &[T],
    ty: &Type,
) -> Result<Option<Vec<T>>, AllocError>
where
    T: Drop,
    ensures { IfOk result (λ r. option_map (λ v. map T.shown v.items) r
        ≡ all_to T.inner_to (view ty.now) values.now) }
{
    let mut converted = Vec::new(alloc);
    for value in values {
        let Some(x) = value.convert_inner_to(alloc, ty)? else {
            return Ok(None);
        };
        converted.push(x)?;
    }
    Ok(Some(converted))
}

/// All values converted to their common type, in order; None if there is none, as for an empty list, or if one doesn't
/// convert.
pub fn convert_all<T: Convert>(alloc: Global, values: &[T]) -> Result<Option<Vec<T>>, AllocError>
where
    T: Drop,
    ensures value { IfOk result (λ r. (c : Option WgslType)
        × IsLeftCommon (map T.type_of values.now) c
        × (option_map (λ v. map T.shown v.items) r
        ≡ option_and_then (λ t. all_to T.to t values.now) c)) }
    ensures one_type { IfOk result (λ r. IfSome r (λ v.
        (t : WgslType) × All (λ x. T.type_of x ≡ t) v.items)) }
{
    let types = types_of(alloc, values)?;
    let Some(ty) = common_of(&types) else {
        return Ok(None);
    };
    convert_all_to(alloc, values, ty)
}

fn types_of<T: Convert>(alloc: Global, values: &[T]) -> Result<Vec<Type>, AllocError>
    ensures { IfOk result (λ v. map view v.items ≡ map T.type_of values.now) }
{
    let mut types = Vec::new(alloc);
    for value in values {
        types.push(value.ty(alloc)?)?;
    }
    Ok(types)
}
