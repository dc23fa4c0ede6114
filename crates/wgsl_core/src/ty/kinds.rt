// Kinds of types.
ghost use Rattle.std.specs.Prelude.{◌≡◌, ◌↔◌, IsTrue};
ghost use Rattle.wgsl_syntax.specs.declared.scalar.Scalar.TheVariants.{Bool, AbstractInt, I32, U32, F32, I64, U64, F64};
ghost use Rattle.wgsl_rules.specs.types.Types.{scalar};
ghost use Rattle.wgsl_rules.specs.types.Kinds.{IsScalar, IsIntegerScalar, IsIntegerOrVector, IsFloatScalar, IsNumericScalar, IsArray, IsVector, IsMatrix};
ghost use Rattle.wgsl_rules.specs.conversion.Concrete.{IsAbstract, IsStorable};
ghost use Rattle.wgsl_core.specs.View.{view};

use crate::ty::Type;
use crate::ty::form::Form;
use wgsl_syntax::scalar::Scalar;

impl Type {
    /// Whether it is a scalar (WGSL, "Scalar Types").
    pub fn is_scalar(&self) -> bool
        ensures { IsTrue result ↔ IsScalar (view self.now) }
    {
        matches!(self.form(), Form::Scalar(_))
    }

    /// Whether it is a numeric scalar: an integer or a float.
    pub fn is_numeric(&self) -> bool
        ensures { IsTrue result ↔ IsNumericScalar (view self.now) }
    {
        matches!(self.form(), Form::Scalar(scalar) if scalar.is_numeric())
    }

    /// Whether it is an integer scalar (WGSL, "Integer Types"), concrete or abstract.
    pub fn is_integer(&self) -> bool
        ensures { IsTrue result ↔ IsIntegerScalar (view self.now) }
    {
        matches!(self.form(), Form::Scalar(scalar) if scalar.is_integer())
    }

    /// Whether it is a float scalar (WGSL, "Floating Point Types"), concrete or abstract.
    pub fn is_float(&self) -> bool
        ensures { IsTrue result ↔ IsFloatScalar (view self.now) }
    {
        matches!(self.form(), Form::Scalar(scalar) if scalar.is_float())
    }

    /// Whether it is an integer or a vector of integers.
    pub fn is_integer_or_vector(&self) -> bool
        ensures { IsTrue result ↔ IsIntegerOrVector (view self.now) }
    {
        match self.form() {
            Form::Vector(_, component) => component.is_integer(),
            _ => self.is_integer(),
        }
    }

    /// Whether it is abstract (WGSL, "Abstract Numeric Types"): an abstract number, or an array, a vector or a matrix
    /// of an abstract type.
    pub fn is_abstract(&self) -> bool
        ensures { IsTrue result ↔ IsAbstract (view self.now) }
    {
        match self.form() {
            Form::Scalar(Scalar::AbstractInt | Scalar::AbstractFloat) => true,
            Form::Array(_, element) | Form::Vector(_, element) | Form::Matrix(_, _, element) => {
                element.is_abstract()
            }
            _ => false,
        }
    }

    /// Whether it is concrete: not abstract.
    pub fn is_concrete(&self) -> bool
        ensures { IsTrue result ↔ ¬ IsAbstract (view self.now) }
    {
        !self.is_abstract()
    }

    /// Whether it can be stored (WGSL, "Storable Types"): concrete, and a scalar, a struct, an array, a vector, a
    /// matrix or an atomic.
    pub fn is_storable(&self) -> bool
        ensures { IsTrue result ↔ IsStorable (view self.now) }
    {
        match self.form() {
            Form::Scalar(_)
            | Form::Array(_, _)
            | Form::Vector(_, _)
            | Form::Matrix(_, _, _)
            | Form::Struct(_)
            | Form::Atomic(_) => self.is_concrete(),
            _ => false,
        }
    }

    /// Whether it is an array (WGSL, "Array Types").
    pub fn is_array(&self) -> bool
        ensures { IsTrue result ↔ IsArray (view self.now) }
    {
        matches!(self.form(), Form::Array(_, _))
    }

    /// Whether it is a vector (WGSL, "Vector Types").
    pub fn is_vec(&self) -> bool
        ensures { IsTrue result ↔ IsVector (view self.now) }
    {
        matches!(self.form(), Form::Vector(_, _))
    }

    /// Whether it is a matrix (WGSL, "Matrix Types").
    pub fn is_mat(&self) -> bool
        ensures { IsTrue result ↔ IsMatrix (view self.now) }
    {
        matches!(self.form(), Form::Matrix(_, _, _))
    }

    /// Whether it is `bool`.
    pub fn is_bool(&self) -> bool
        ensures { IsTrue result ↔ (view self.now ≡ scalar Bool) }
    {
        matches!(self, Type::Bool)
    }

    /// Whether it is `i32`.
    pub fn is_i32(&self) -> bool
        ensures { IsTrue result ↔ (view self.now ≡ scalar I32) }
    {
        matches!(self, Type::I32)
    }

    /// Whether it is `u32`.
    pub fn is_u32(&self) -> bool
        ensures { IsTrue result ↔ (view self.now ≡ scalar U32) }
    {
        matches!(self, Type::U32)
    }

    /// Whether it is `f32`.
    pub fn is_f32(&self) -> bool
        ensures { IsTrue result ↔ (view self.now ≡ scalar F32) }
    {
        matches!(self, Type::F32)
    }

    /// Whether it is `i64`.
    pub fn is_i64(&self) -> bool
        ensures { IsTrue result ↔ (view self.now ≡ scalar I64) }
    {
        matches!(self, Type::I64)
    }

    /// Whether it is `u64`.
    pub fn is_u64(&self) -> bool
        ensures { IsTrue result ↔ (view self.now ≡ scalar U64) }
    {
        matches!(self, Type::U64)
    }

    /// Whether it is `f64`.
    pub fn is_f64(&self) -> bool
        ensures { IsTrue result ↔ (view self.now ≡ scalar F64) }
    {
        matches!(self, Type::F64)
    }

    /// Whether it is the abstract integer.
    pub fn is_abstract_int(&self) -> bool
        ensures { IsTrue result ↔ (view self.now ≡ scalar AbstractInt) }
    {
        matches!(self, Type::AbstractInt)
    }
}
