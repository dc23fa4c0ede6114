// The operators of expressions and assignments.
ghost use Rattle.std.specs.Prelude.{◌≡◌};
ghost use Rattle.wgsl_syntax.specs.Names.{named, table, Reads};
ghost use Rattle.wgsl_syntax.specs.Operator.{assignment_operators, assignment_text, binary_operators, binary_text, unary_operators, unary_text};

use std::fmt;
use std::fmt::Write;
use std::str::FromStr;

/// A unary operator (WGSL, "Unary Expressions").
#[derive(Clone, Copy, PartialEq, Eq, Hash, Debug)]
pub enum UnaryOperator {
    /// `!`
    LogicalNegation,
    /// `-`
    Negation,
    /// `~`
    BitwiseComplement,
    /// `&`
    AddressOf,
    /// `*`
    Indirection,
}

impl UnaryOperator {
    /// All unary operators, in the order of WGSL's text.
    pub const ALL: [UnaryOperator; 5] = [
        UnaryOperator::LogicalNegation,
        UnaryOperator::Negation,
        UnaryOperator::BitwiseComplement,
        UnaryOperator::AddressOf,
        UnaryOperator::Indirection,
    ];

    /// The name.
    fn text(self) -> &'static str
        ensures { result.now ≡ unary_text self }
    {
        match self {
            UnaryOperator::LogicalNegation => "!",
            UnaryOperator::Negation => "-",
            UnaryOperator::BitwiseComplement => "~",
            UnaryOperator::AddressOf => "&",
            UnaryOperator::Indirection => "*",
        }
    }
}

impl fmt::Display for UnaryOperator {
    ghost use Rattle.std.specs.Prelude.{Some};
    ghost use Rattle.std.specs.Fmt.{padded};

    ghost output = { λ x. Some (unary_text x) };

    ghost styled_output = { λ x spec. Some (padded spec (unary_text x)) };

    fn fmt<W: Write>(&self, f: &mut fmt::Formatter<W>) -> fmt::Result {
        f.pad(self.text())
    }
}

/// The unary operator that is written so.
pub fn unary_named(s: &str) -> Option<UnaryOperator>
    ensures { result ≡ named (table unary_text unary_operators) s.now }
{
    match s {
        "!" => Some(UnaryOperator::LogicalNegation),
        "-" => Some(UnaryOperator::Negation),
        "~" => Some(UnaryOperator::BitwiseComplement),
        "&" => Some(UnaryOperator::AddressOf),
        "*" => Some(UnaryOperator::Indirection),
        _ => None,
    }
}

impl FromStr for UnaryOperator {
    type Err = ();

    ghost from_str_gives = { Reads unary_text };

    fn from_str(s: &str) -> Result<UnaryOperator, ()> {
        unary_named(s).ok_or(())
    }
}

/// A binary operator (WGSL, "Logical Expressions" to "Bit Expressions").
#[derive(Clone, Copy, PartialEq, Eq, Hash, Debug)]
pub enum BinaryOperator {
    /// `||`
    ShortCircuitOr,
    /// `&&`
    ShortCircuitAnd,
    /// `+`
    Addition,
    /// `-`
    Subtraction,
    /// `*`
    Multiplication,
    /// `/`
    Division,
    /// `%`
    Remainder,
    /// `==`
    Equality,
    /// `!=`
    Inequality,
    /// `<`
    LessThan,
    /// `<=`
    LessThanEqual,
    /// `>`
    GreaterThan,
    /// `>=`
    GreaterThanEqual,
    /// `|`
    BitwiseOr,
    /// `&`
    BitwiseAnd,
    /// `^`
    BitwiseXor,
    /// `<<`
    ShiftLeft,
    /// `>>`
    ShiftRight,
}

impl BinaryOperator {
    /// All binary operators, in the order of WGSL's text.
    pub const ALL: [BinaryOperator; 18] = [
        BinaryOperator::ShortCircuitOr,
        BinaryOperator::ShortCircuitAnd,
        BinaryOperator::Addition,
        BinaryOperator::Subtraction,
        BinaryOperator::Multiplication,
        BinaryOperator::Division,
        BinaryOperator::Remainder,
        BinaryOperator::Equality,
        BinaryOperator::Inequality,
        BinaryOperator::LessThan,
        BinaryOperator::LessThanEqual,
        BinaryOperator::GreaterThan,
        BinaryOperator::GreaterThanEqual,
        BinaryOperator::BitwiseOr,
        BinaryOperator::BitwiseAnd,
        BinaryOperator::BitwiseXor,
        BinaryOperator::ShiftLeft,
        BinaryOperator::ShiftRight,
    ];

    /// The name.
    fn text(self) -> &'static str
        ensures { result.now ≡ binary_text self }
    {
        match self {
            BinaryOperator::ShortCircuitOr => "||",
            BinaryOperator::ShortCircuitAnd => "&&",
            BinaryOperator::Addition => "+",
            BinaryOperator::Subtraction => "-",
            BinaryOperator::Multiplication => "*",
            BinaryOperator::Division => "/",
            BinaryOperator::Remainder => "%",
            BinaryOperator::Equality => "==",
            BinaryOperator::Inequality => "!=",
            BinaryOperator::LessThan => "<",
            BinaryOperator::LessThanEqual => "<=",
            BinaryOperator::GreaterThan => ">",
            BinaryOperator::GreaterThanEqual => ">=",
            BinaryOperator::BitwiseOr => "|",
            BinaryOperator::BitwiseAnd => "&",
            BinaryOperator::BitwiseXor => "^",
            BinaryOperator::ShiftLeft => "<<",
            BinaryOperator::ShiftRight => ">>",
        }
    }
}

impl fmt::Display for BinaryOperator {
    ghost use Rattle.std.specs.Prelude.{Some};
    ghost use Rattle.std.specs.Fmt.{padded};

    ghost output = { λ x. Some (binary_text x) };

    ghost styled_output = { λ x spec. Some (padded spec (binary_text x)) };

    fn fmt<W: Write>(&self, f: &mut fmt::Formatter<W>) -> fmt::Result {
        f.pad(self.text())
    }
}

/// The binary operator that is written so.
pub fn binary_named(s: &str) -> Option<BinaryOperator>
    ensures { result ≡ named (table binary_text binary_operators) s.now }
{
    match s {
        "||" => Some(BinaryOperator::ShortCircuitOr),
        "&&" => Some(BinaryOperator::ShortCircuitAnd),
        "+" => Some(BinaryOperator::Addition),
        "-" => Some(BinaryOperator::Subtraction),
        "*" => Some(BinaryOperator::Multiplication),
        "/" => Some(BinaryOperator::Division),
        "%" => Some(BinaryOperator::Remainder),
        "==" => Some(BinaryOperator::Equality),
        "!=" => Some(BinaryOperator::Inequality),
        "<" => Some(BinaryOperator::LessThan),
        "<=" => Some(BinaryOperator::LessThanEqual),
        ">" => Some(BinaryOperator::GreaterThan),
        ">=" => Some(BinaryOperator::GreaterThanEqual),
        "|" => Some(BinaryOperator::BitwiseOr),
        "&" => Some(BinaryOperator::BitwiseAnd),
        "^" => Some(BinaryOperator::BitwiseXor),
        "<<" => Some(BinaryOperator::ShiftLeft),
        ">>" => Some(BinaryOperator::ShiftRight),
        _ => None,
    }
}

impl FromStr for BinaryOperator {
    type Err = ();

    ghost from_str_gives = { Reads binary_text };

    fn from_str(s: &str) -> Result<BinaryOperator, ()> {
        binary_named(s).ok_or(())
    }
}

/// An assignment operator (WGSL, "Simple Assignment" and "Compound Assignment").
#[derive(Clone, Copy, PartialEq, Eq, Hash, Debug)]
pub enum AssignmentOperator {
    /// `=`
    Equal,
    /// `+=`
    PlusEqual,
    /// `-=`
    MinusEqual,
    /// `*=`
    TimesEqual,
    /// `/=`
    DivisionEqual,
    /// `%=`
    ModuloEqual,
    /// `&=`
    AndEqual,
    /// `|=`
    OrEqual,
    /// `^=`
    XorEqual,
    /// `>>=`
    ShiftRightAssign,
    /// `<<=`
    ShiftLeftAssign,
}

static ASSIGNMENTS: &[(AssignmentOperator, &str)] = names! {
    AssignmentOperator Equal "=" PlusEqual "+=" MinusEqual "-=" TimesEqual "*=" DivisionEqual "/="
    ModuloEqual "%=" AndEqual "&=" OrEqual "|=" XorEqual "^=" ShiftRightAssign ">>="
    ShiftLeftAssign "<<="
};

impl AssignmentOperator {
    /// The name.
    fn text(self) -> &'static str
        ensures { result.now ≡ assignment_text self }
    {
        ASSIGNMENTS[self as usize].1
    }
}

/// The assignment operator that is written so.
pub fn assignment_named(s: &str) -> Option<AssignmentOperator>
    ensures { result ≡ named (table assignment_text assignment_operators) s.now }
{
    match s {
        "=" => Some(AssignmentOperator::Equal),
        "+=" => Some(AssignmentOperator::PlusEqual),
        "-=" => Some(AssignmentOperator::MinusEqual),
        "*=" => Some(AssignmentOperator::TimesEqual),
        "/=" => Some(AssignmentOperator::DivisionEqual),
        "%=" => Some(AssignmentOperator::ModuloEqual),
        "&=" => Some(AssignmentOperator::AndEqual),
        "|=" => Some(AssignmentOperator::OrEqual),
        "^=" => Some(AssignmentOperator::XorEqual),
        ">>=" => Some(AssignmentOperator::ShiftRightAssign),
        "<<=" => Some(AssignmentOperator::ShiftLeftAssign),
        _ => None,
    }
}

impl fmt::Display for AssignmentOperator {
    ghost use Rattle.std.specs.Prelude.{Some};
    ghost use Rattle.std.specs.Fmt.{padded};

    ghost output = { λ x. Some (assignment_text x) };

    ghost styled_output = { λ x spec. Some (padded spec (assignment_text x)) };

    fn fmt<W: Write>(&self, f: &mut fmt::Formatter<W>) -> fmt::Result {
        f.pad(self.text())
    }
}
