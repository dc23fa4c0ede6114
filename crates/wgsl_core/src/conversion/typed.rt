// Values that have a type.
ghost use Rattle.std.specs.Prelude.{◌≡◌, IfOk};
ghost use Rattle.wgsl_rules.specs.types.Types.{WgslType};
ghost use Rattle.wgsl_core.specs.View.{view};

use crate::literal::{Instance, LiteralInstance};
use crate::ty::Type;
use std::alloc::{AllocError, Global};

/// A value that has a type, and a type inside that one.
pub trait Ty {
    ghost type_of: { Self → WgslType };

    ghost inner_type_of: { Self → WgslType };

    /// The type of the value.
    fn ty(&self, alloc: Global) -> Result<Type, AllocError>
        ensures { IfOk result (λ t. view t ≡ type_of self.now) };

    /// The type inside the type of the value, or that type itself if nothing is inside.
    fn inner_ty(&self, alloc: Global) -> Result<Type, AllocError>
        ensures { IfOk result (λ t. view t ≡ inner_type_of self.now) };
}

/// A type is its own type. The inner type is the one inside an array, a vector, a matrix, an atomic, a pointer, a
/// reference or a binding array.
impl Ty for Type {
    ghost use Rattle.wgsl_rules.specs.types.Inner.{inner_of};
    ghost use Rattle.wgsl_core.specs.View.{view};

    ghost type_of = { view };

    ghost inner_type_of = { λ t. inner_of (view t) };

    fn ty(&self, alloc: Global) -> Result<Type, AllocError> {
        self.clone(alloc)
    }

    fn inner_ty(&self, alloc: Global) -> Result<Type, AllocError> {
        self.inner().clone(alloc)
    }
}

impl Ty for LiteralInstance {
    ghost use Rattle.wgsl_rules.specs.types.Types.{scalar};
    ghost use Rattle.wgsl_rules.specs.types.Literals.{literal_scalar};
    ghost use Rattle.wgsl_core.specs.Instances.{literal_view};

    ghost type_of = { λ l. scalar (literal_scalar (literal_view l)) };

    ghost inner_type_of = { λ l. scalar (literal_scalar (literal_view l)) };

    fn ty(&self, _alloc: Global) -> Result<Type, AllocError> {
        Ok(self.scalar_type())
    }

    fn inner_ty(&self, _alloc: Global) -> Result<Type, AllocError> {
        Ok(self.scalar_type())
    }
}

impl Ty for Instance {
    ghost use Rattle.wgsl_rules.specs.types.Types.{scalar};
    ghost use Rattle.wgsl_rules.specs.types.Literals.{literal_scalar};
    ghost use Rattle.wgsl_core.specs.Instances.{instance_view};

    ghost type_of = { λ x. scalar (literal_scalar (instance_view x)) };

    ghost inner_type_of = { λ x. scalar (literal_scalar (instance_view x)) };

    fn ty(&self, alloc: Global) -> Result<Type, AllocError> {
        match self {
            Instance::Literal(literal) => literal.ty(alloc),
        }
    }

    fn inner_ty(&self, alloc: Global) -> Result<Type, AllocError> {
        match self {
            Instance::Literal(literal) => literal.inner_ty(alloc),
        }
    }
}
