//! Types with the numbers of their lines: values that convert and are no types.
ghost use Rattle.std.specs.Prelude.{◌≡◌, Option, All, IfOk, IfSome, length, map, option_and_then, option_map};
ghost use Rattle.wgsl_rules.specs.types.Types.{WgslType};
ghost use Rattle.wgsl_rules.specs.conversion.Common.{IsLeftCommon};
ghost use Rattle.wgsl_rules.specs.conversion.Converted.{all_to};
ghost use Rattle.wgsl_core.specs.View.{view};
ghost use Rattle.wgsl_types.specs.Typed.{numbers_to, on_line, typed, typed_to};

use crate::conv::{Convert, convert_all};
use crate::ty::{Ty, Type};
use std::alloc::{AllocError, Global};

/// A type with the number of its line.
#[derive(Drop)]
pub struct Typed {
    pub ty: Type,
    pub line: u64,
}

impl Ty for Typed {
    ghost use Rattle.wgsl_rules.specs.types.Inner.{inner_of};
    ghost use Rattle.wgsl_core.specs.View.{view};

    ghost type_of = { λ x. view x.ty };

    ghost inner_type_of = { λ x. inner_of (view x.ty) };

    fn ty(&self, alloc: Global) -> Result<Type, AllocError> {
        self.ty.ty(alloc)
    }

    fn inner_ty(&self, alloc: Global) -> Result<Type, AllocError> {
        self.ty.inner_ty(alloc)
    }
}

/// It converts as its type does, and stays on its line.
impl Convert for Typed {
    ghost use Rattle.std.specs.Prelude.{ℕ, Some};
    ghost use Rattle.wgsl_rules.specs.types.Types.{WgslType};
    ghost use Rattle.wgsl_rules.specs.conversion.Concrete.{concretized};
    ghost use Rattle.wgsl_core.specs.View.{view};
    ghost use Rattle.wgsl_core.specs.Converted.{inner_converted};
    ghost use Rattle.wgsl_types.specs.Typed.{on_line, typed, typed_to, typed_has_type};

    ghost Shown = { WgslType × ℕ };

    ghost shown = { typed };

    ghost to = { typed_to };

    ghost inner_to = { λ x t. on_line x.line (inner_converted (view x.ty) t) };

    ghost concrete = { λ x. on_line x.line (Some (concretized (view x.ty))) };

    ghost to_has_type = { typed_has_type };

    fn convert_to(&self, alloc: Global, ty: &Type) -> Result<Option<Typed>, AllocError> {
        Ok(on_line(self.line, self.ty.convert_to(alloc, ty)?))
    }

    fn convert_inner_to(&self, alloc: Global, ty: &Type) -> Result<Option<Typed>, AllocError> {
        Ok(on_line(self.line, self.ty.convert_inner_to(alloc, ty)?))
    }

    fn concretize(&self, alloc: Global) -> Result<Option<Typed>, AllocError> {
        let ty = self.ty.concretize(alloc)?;
        Ok(Some(Typed {
            ty,
            line: self.line,
        }))
    }
}

fn on_line(line: u64, ty: Option<Type>) -> Option<Typed>
    ensures { option_map typed result ≡ on_line line (option_map view ty) }
{
    Some(Typed { ty: ty?, line })
}

/// Each type, in order, with the number of its line: 1, 2, ..
pub fn typed_lines(alloc: Global, types: Vec<Type>) -> Result<Vec<Typed>, AllocError>
    ensures types { IfOk result (λ values.
        map (λ x. view x.ty) values.items ≡ map view types.items) }
    ensures lines { IfOk result (λ values.
        map (λ x. x.line) values.items ≡ numbers_to (length types.items)) }
{
    let mut values = Vec::with_capacity(alloc, types.len())?;
    for ty in types {
        let line = values.len() as u64 + 1;
        values.push(Typed { ty, line })?;
    }
    Ok(values)
}

/// All of them converted to the common type of their types, in order, each on its line; None if there is none, as for an
/// empty list, or if one doesn't convert.
pub fn convert_to_common(alloc: Global, values: &[Typed]) -> Result<Option<Vec<Typed>>, AllocError>
    ensures value { IfOk result (λ r. (c : Option WgslType)
        × IsLeftCommon (map (λ x. view x.ty) values.now) c
        × (option_map (λ v. map typed v.items) r
        ≡ option_and_then (λ t. all_to typed_to t values.now) c)) }
    ensures lines { IfOk result (λ r. IfSome r (λ v.
        map (λ x. x.line) v.items ≡ map (λ x. x.line) values.now)) }
    ensures one_type { IfOk result (λ r. IfSome r (λ v.
        (t : WgslType) × All (λ x. view x.ty ≡ t) v.items)) }
{
    convert_all(alloc, values)
}
