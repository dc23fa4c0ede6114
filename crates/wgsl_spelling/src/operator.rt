// Operators among tokens.
ghost use Rattle.std.specs.Prelude.{◌≡◌};
ghost use Rattle.wgsl_spelling.specs.Operators.{binary_of, unary_of};

use wgsl_reader::kind::Kind;
use wgsl_syntax::operator::{BinaryOperator, UnaryOperator};

/// The operator in front of an operand that a kind of token is.
pub fn unary_of(kind: Kind) -> Option<UnaryOperator>
    ensures { result ≡ unary_of kind }
{
    match kind {
        Kind::Bang => Some(UnaryOperator::LogicalNegation),
        Kind::Minus => Some(UnaryOperator::Negation),
        Kind::Tilde => Some(UnaryOperator::BitwiseComplement),
        Kind::And => Some(UnaryOperator::AddressOf),
        Kind::Star => Some(UnaryOperator::Indirection),
        _ => None,
    }
}

/// The operator between operands that a kind of token is.
pub fn binary_of(kind: Kind) -> Option<BinaryOperator>
    ensures { result ≡ binary_of kind }
{
    match kind {
        Kind::OrOr => Some(BinaryOperator::ShortCircuitOr),
        Kind::AndAnd => Some(BinaryOperator::ShortCircuitAnd),
        Kind::Plus => Some(BinaryOperator::Addition),
        Kind::Minus => Some(BinaryOperator::Subtraction),
        Kind::Star => Some(BinaryOperator::Multiplication),
        Kind::Slash => Some(BinaryOperator::Division),
        Kind::Percent => Some(BinaryOperator::Remainder),
        Kind::EqualEqual => Some(BinaryOperator::Equality),
        Kind::NotEqual => Some(BinaryOperator::Inequality),
        Kind::Less => Some(BinaryOperator::LessThan),
        Kind::LessEqual => Some(BinaryOperator::LessThanEqual),
        Kind::Greater => Some(BinaryOperator::GreaterThan),
        Kind::GreaterEqual => Some(BinaryOperator::GreaterThanEqual),
        Kind::Or => Some(BinaryOperator::BitwiseOr),
        Kind::And => Some(BinaryOperator::BitwiseAnd),
        Kind::Xor => Some(BinaryOperator::BitwiseXor),
        Kind::ShiftLeft => Some(BinaryOperator::ShiftLeft),
        Kind::ShiftRight => Some(BinaryOperator::ShiftRight),
        _ => None,
    }
}
