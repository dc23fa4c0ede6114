// The candidate of a binary operator that is chosen for two operands. Finding it does not allocate.
ghost use Rattle.std.specs.Prelude.{◌≡◌, ◌↔◌, ◌⊎◌, ℕ, IsTrue, IfOk, IsOk, option_map};
ghost use Rattle.wgsl_syntax.specs.declared.scalar.Scalar.TheVariants.{Bool, U32};
ghost use Rattle.wgsl_syntax.specs.declared.operator.BinaryOperator.TheVariants.{Multiplication};
ghost use Rattle.wgsl_rules.specs.types.Types.{scalar, vec, mat};
ghost use Rattle.wgsl_rules.specs.types.Dimensions.{with_dimensions};
ghost use Rattle.wgsl_rules.specs.types.Kinds.{IsLeaf, IsIntegerScalar, IsIntegerOrVector};
ghost use Rattle.wgsl_rules.specs.conversion.Conversion.{ConvertsTo};
ghost use Rattle.wgsl_rules.specs.operators.Candidates.{IsArithmetic, IsSum, IsComparison, IsLogical, IsBitwise, IsOrAnd, IsShift};
ghost use Rattle.wgsl_rules.specs.operators.Answers.{HasCandidate};
ghost use Rattle.wgsl_core.specs.View.{view};
ghost use Rattle.wgsl_core.specs.internal.Resolution.{resolved_view, resolution_view, IsInLayers, compared_at, shifted_at};

use crate::conversion::convert_ty;
use crate::ty::Type;
use crate::ty::form::Form;
use std::alloc::{AllocError, Global};
use wgsl_syntax::layer::Layer;
use wgsl_syntax::operator::BinaryOperator;
use wgsl_syntax::overload::Dimensions;
use wgsl_syntax::scalar::Scalar;

/// The element of a type that isn't built yet.
#[derive(Clone, Copy)]
pub enum Element<'a> {
    Scalar(Scalar),
    Type(&'a Type),
}

/// A type that isn't built yet.
#[derive(Clone, Copy)]
pub struct ResolvedType<'a> {
    pub dimensions: Dimensions,
    pub element: Element<'a>,
}

/// A candidate whose types aren't built yet.
#[derive(Clone, Copy)]
pub struct Resolution<'a> {
    pub lhs: ResolvedType<'a>,
    pub rhs: ResolvedType<'a>,
    pub result: ResolvedType<'a>,
}

impl<'a> ResolvedType<'a> {
    fn of(ty: &'a Type) -> ResolvedType<'a>
        ensures { resolved_view result ≡ view ty.now }
    {
        ResolvedType {
            dimensions: Dimensions::Single,
            element: Element::Type(ty),
        }
    }

    /// A scalar, or a vector or a matrix of it.
    #[inline(always)]
    pub fn of_scalar(dimensions: Dimensions, of: Scalar) -> ResolvedType<'a>
        ensures { resolved_view result ≡ with_dimensions dimensions (scalar of) }
    {
        ResolvedType {
            dimensions,
            element: Element::Scalar(of),
        }
    }

    /// Builds the type in memory.
    #[inline(always)]
    pub fn build(self, alloc: Global) -> Result<Type, AllocError>
        ensures same { IfOk result (λ t. view t ≡ resolved_view self.entry) }
        ensures never_out_of_memory { IsLeaf (resolved_view self.entry) → IsOk result }
    {
        let ty = match self.element {
            Element::Scalar(scalar) => Type::from(scalar),
            Element::Type(ty) => ty.clone(alloc)?,
        };
        match self.dimensions {
            Dimensions::Single => Ok(ty),
            Dimensions::Vector(components) => Ok(Type::Vec(components, Box::new(alloc, ty)?)),
            Dimensions::Matrix(columns, rows) => Ok(Type::Mat(columns, rows, Box::new(alloc, ty)?)),
        }
    }
}

/// The candidate of the operator for two operands, if some row takes them.
pub fn resolve_operator<'a>(
    operator: BinaryOperator,
    a: &'a Type,
    b: &'a Type,
) -> Option<Resolution<'a>>
    ensures { HasCandidate operator (view a.now) (view b.now) (option_map resolution_view result) }
{
    match operator {
        BinaryOperator::ShortCircuitOr | BinaryOperator::ShortCircuitAnd => logical(a, b),
        BinaryOperator::Addition
        | BinaryOperator::Subtraction
        | BinaryOperator::Multiplication
        | BinaryOperator::Division
        | BinaryOperator::Remainder => arithmetic(operator, a, b),
        BinaryOperator::Equality
        | BinaryOperator::Inequality
        | BinaryOperator::LessThan
        | BinaryOperator::LessThanEqual
        | BinaryOperator::GreaterThan
        | BinaryOperator::GreaterThanEqual => comparison(a, b),
        BinaryOperator::BitwiseOr | BinaryOperator::BitwiseAnd | BinaryOperator::BitwiseXor => {
            bits(operator, a, b)
        }
        BinaryOperator::ShiftLeft | BinaryOperator::ShiftRight => shift(a, b),
    }
}

/// The short-circuit operators, `||` and `&&`.
fn logical<'a>(a: &'a Type, b: &'a Type) -> Option<Resolution<'a>>
    ensures { (o : BinaryOperator) → IsLogical o
        → HasCandidate o (view a.now) (view b.now) (option_map resolution_view result) }
{
    if are_bools(a, b) {
        Some(Resolution {
            lhs: ResolvedType::of(a),
            rhs: ResolvedType::of(b),
            result: ResolvedType::of(a),
        })
    } else {
        None
    }
}

fn are_bools(a: &Type, b: &Type) -> bool
    ensures { IsTrue result ↔ (view a.now ≡ scalar Bool) × (view b.now ≡ scalar Bool) }
{
    a.is_bool() && b.is_bool()
}

/// `+`, `-`, `*`, `/` and `%`.
fn arithmetic<'a>(operator: BinaryOperator, a: &'a Type, b: &'a Type) -> Option<Resolution<'a>>
    ensures { IsArithmetic operator
        → HasCandidate operator (view a.now) (view b.now) (option_map resolution_view result) }
{
    match a.form() {
        Form::Scalar(_) => match b.form() {
            Form::Scalar(_) => in_layers(
                Dimensions::Single,
                Dimensions::Single,
                Dimensions::Single,
                a,
                b,
            ),
            Form::Vector(n, f) => {
                let vector = Dimensions::Vector(n);
                in_layers(Dimensions::Single, vector, vector, a, f)
            }
            Form::Matrix(c, r, f) => {
                let matrix = Dimensions::Matrix(c, r);
                if is_product(operator) {
                    in_layers(Dimensions::Single, matrix, matrix, a, f)
                } else {
                    None
                }
            }
            _ => None,
        },
        Form::Vector(n, e) => match b.form() {
            Form::Scalar(_) => {
                let vector = Dimensions::Vector(n);
                in_layers(vector, Dimensions::Single, vector, e, b)
            }
            Form::Vector(_, _) => in_layers(
                Dimensions::Single,
                Dimensions::Single,
                Dimensions::Single,
                a,
                b,
            ),
            Form::Matrix(c, r, f) => {
                if is_product_over(operator, n, r) {
                    let matrix = Dimensions::Matrix(c, r);
                    in_layers(Dimensions::Vector(n), matrix, Dimensions::Vector(c), e, f)
                } else {
                    None
                }
            }
            _ => None,
        },
        Form::Matrix(c, r, e) => matrix_by(operator, c, r, e, b),
        _ => None,
    }
}

/// An arithmetic operator with a matrix of `c` columns, `r` rows and element `e` on the left.
fn matrix_by<'a>(
    operator: BinaryOperator,
    c: u8,
    r: u8,
    e: &'a Type,
    b: &'a Type,
) -> Option<Resolution<'a>>
    ensures { IsArithmetic operator
        → HasCandidate operator (mat c r (view e.now)) (view b.now)
        (option_map resolution_view result) }
{
    let lhs = Dimensions::Matrix(c, r);
    match b.form() {
        Form::Scalar(_) => {
            if is_product(operator) {
                in_layers(lhs, Dimensions::Single, lhs, e, b)
            } else {
                None
            }
        }
        Form::Vector(n, f) => {
            if is_product_over(operator, c, n) {
                in_layers(lhs, Dimensions::Vector(n), Dimensions::Vector(r), e, f)
            } else {
                None
            }
        }
        Form::Matrix(d, s, f) => {
            if is_product_over(operator, c, s) {
                in_layers(
                    lhs,
                    Dimensions::Matrix(d, s),
                    Dimensions::Matrix(d, r),
                    e,
                    f,
                )
            } else if is_sum_of(operator, Layer::Mat(c, r), Layer::Mat(d, s)) {
                in_layers(lhs, lhs, lhs, e, f)
            } else {
                None
            }
        }
        _ => None,
    }
}

fn is_product(operator: BinaryOperator) -> bool
    ensures { IsTrue result ↔ (operator ≡ Multiplication) }
{
    matches!(operator, BinaryOperator::Multiplication)
}

/// Whether the operator is `*`, with as many columns on the left as rows on the right.
fn is_product_over(operator: BinaryOperator, columns: u8, rows: u8) -> bool
    ensures { IsTrue result ↔ (operator ≡ Multiplication) × (columns ≡ rows) }
{
    is_product(operator) && columns == rows
}

/// Whether the operator is `+` or `-`, of two matrices of the same shape.
fn is_sum_of(operator: BinaryOperator, lhs: Layer, rhs: Layer) -> bool
    ensures { IsTrue result ↔ IsSum operator × (lhs ≡ rhs) }
{
    is_sum(operator) && lhs.is(rhs)
}

fn is_sum(operator: BinaryOperator) -> bool
    ensures { IsTrue result ↔ IsSum operator }
{
    matches!(
        operator,
        BinaryOperator::Addition | BinaryOperator::Subtraction
    )
}

/// The candidate whose operands and result are made of the common type of two types.
#[inline(always)]
fn in_layers<'a>(
    lhs: Dimensions,
    rhs: Dimensions,
    of_result: Dimensions,
    a: &'a Type,
    b: &'a Type,
) -> Option<Resolution<'a>>
    ensures { IsInLayers lhs rhs of_result (view a.now) (view b.now)
        (option_map resolution_view result) }
{
    let element = Element::Type(convert_ty(a, b)?);
    Some(Resolution {
        lhs: ResolvedType {
            dimensions: lhs,
            element,
        },
        rhs: ResolvedType {
            dimensions: rhs,
            element,
        },
        result: ResolvedType {
            dimensions: of_result,
            element,
        },
    })
}

/// `==`, `!=`, `<`, `<=`, `>` and `>=`.
fn comparison<'a>(a: &'a Type, b: &'a Type) -> Option<Resolution<'a>>
    ensures { (o : BinaryOperator) → IsComparison o
        → HasCandidate o (view a.now) (view b.now) (option_map resolution_view result) }
{
    let common = convert_ty(a, b)?;
    match common.form() {
        Form::Scalar(_) => Some(compared(common, Dimensions::Single)),
        Form::Vector(n, _) => Some(compared(common, Dimensions::Vector(n))),
        _ => None,
    }
}

/// The comparison of two operands of one type: the result is `bool`, or a vector of it.
fn compared(ty: &Type, dimensions: Dimensions) -> Resolution<'_>
    ensures { resolution_view result ≡ compared_at (view ty.now) dimensions }
{
    Resolution {
        lhs: ResolvedType::of(ty),
        rhs: ResolvedType::of(ty),
        result: ResolvedType::of_scalar(dimensions, Scalar::Bool),
    }
}

/// `|`, `&` and `^`.
fn bits<'a>(operator: BinaryOperator, a: &'a Type, b: &'a Type) -> Option<Resolution<'a>>
    ensures { IsBitwise operator
        → HasCandidate operator (view a.now) (view b.now) (option_map resolution_view result) }
{
    let common = convert_ty(a, b)?;
    if has_bits(operator, common) {
        Some(Resolution {
            lhs: ResolvedType::of(common),
            rhs: ResolvedType::of(common),
            result: ResolvedType::of(common),
        })
    } else {
        None
    }
}

/// Whether the bitwise operator takes two operands of the type.
fn has_bits(operator: BinaryOperator, ty: &Type) -> bool
    ensures { IsTrue result ↔ IsIntegerOrVector (view ty.now)
        ⊎ (IsOrAnd operator × ((n : ℕ) × (view ty.now ≡ vec n (scalar Bool)))) }
{
    ty.is_integer_or_vector() || is_of_bools(operator, ty)
}

/// Whether the operator is `|` or `&`, and the type a vector of `bool`.
fn is_of_bools(operator: BinaryOperator, ty: &Type) -> bool
    ensures { IsTrue result ↔ IsOrAnd operator × ((n : ℕ) × (view ty.now ≡ vec n (scalar Bool))) }
{
    is_or_and(operator) && is_bool_vector(ty)
}

fn is_or_and(operator: BinaryOperator) -> bool
    ensures { IsTrue result ↔ IsOrAnd operator }
{
    matches!(
        operator,
        BinaryOperator::BitwiseOr | BinaryOperator::BitwiseAnd
    )
}

fn is_bool_vector(ty: &Type) -> bool
    ensures { IsTrue result ↔ ((n : ℕ) × (view ty.now ≡ vec n (scalar Bool))) }
{
    match ty.form() {
        Form::Vector(_, e) => e.is_bool(),
        _ => false,
    }
}

/// `<<` and `>>`.
fn shift<'a>(a: &'a Type, b: &'a Type) -> Option<Resolution<'a>>
    ensures { (o : BinaryOperator) → IsShift o
        → HasCandidate o (view a.now) (view b.now) (option_map resolution_view result) }
{
    match a.form() {
        Form::Scalar(_) => {
            if can_shift(a, b) {
                Some(shifted(a, Dimensions::Single))
            } else {
                None
            }
        }
        Form::Vector(n, e) => match b.form() {
            Form::Vector(m, f) => {
                if n == m && can_shift(e, f) {
                    Some(shifted(a, Dimensions::Vector(n)))
                } else {
                    None
                }
            }
            _ => None,
        },
        _ => None,
    }
}

/// Whether `ty` is an integer, and `by` converts to `u32`.
fn can_shift(ty: &Type, by: &Type) -> bool
    ensures { IsTrue result ↔ IsIntegerScalar (view ty.now)
        × ConvertsTo (view by.now) (scalar U32) }
{
    ty.is_integer() && by.is_convertible_to(&Type::U32)
}

/// The shift of a type by `u32`, or by a vector of it.
fn shifted(ty: &Type, dimensions: Dimensions) -> Resolution<'_>
    ensures { resolution_view result ≡ shifted_at (view ty.now) dimensions }
{
    Resolution {
        lhs: ResolvedType::of(ty),
        rhs: ResolvedType::of_scalar(dimensions, Scalar::U32),
        result: ResolvedType::of(ty),
    }
}
