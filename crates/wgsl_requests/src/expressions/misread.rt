// Why a text is no request.
ghost use Rattle.wgsl_requests.specs.expressions.Views.{IsMisread};

use crate::expressions::prelude::*;

/// What was expected in place of a token.
#[derive(Clone, Copy)]
pub enum Wanted {
    /// A token.
    Token,
    /// A type, a literal, a call, `(`, or an operator in front of an operand.
    Operand,
    /// The operand of a statement.
    Value,
    Type,
    Name,
    /// An integer without a sign.
    Number,
    /// An operator, a call or a constructor.
    Call,
    /// A function in front.
    Function,
    Struct,
    /// `)`
    Parenthesis,
    /// `]`
    Bracket,
    /// `>`
    ListEnd,
    /// An operator or the end.
    End,
    /// Brackets around an operand of this operator.
    Grouping,
    /// `=`, `+=`, `++`, or an operator.
    Assignment,
    /// `=`
    Equal,
    /// `,`
    Comma,
    /// `case`, `default`
    Clause,
    /// `{`
    Brace,
    /// `}`
    CloseBrace,
    /// A type with fewer layers.
    Shallower,
    /// A type without this fault.
    Faultless(Cause),
}

impl Wanted {
    /// What is expected, in words.
    pub fn text(self) -> &'static str {
        match self {
            Wanted::Token => "expected a token",
            Wanted::Operand | Wanted::Value => "expected an operand",
            Wanted::Type => "expected a type",
            Wanted::Name => "expected a name",
            Wanted::Number => "expected an integer",
            Wanted::Call => "expected an operator, a call or a constructor",
            Wanted::Struct => "expected a struct",
            Wanted::Function => "expected a function in front of this",
            Wanted::Parenthesis => "expected `)`",
            Wanted::Bracket => "expected `]`",
            Wanted::ListEnd => "expected `>`",
            Wanted::End => "expected an operator or the end",
            Wanted::Grouping => "an operand of this operator needs brackets",
            Wanted::Assignment => "expected an assignment",
            Wanted::Equal => "expected `=`",
            Wanted::Comma => "expected `,`",
            Wanted::Clause => "expected `case` or `default`",
            Wanted::Brace => "expected `{`",
            Wanted::CloseBrace => "expected `}`",
            Wanted::Shallower => "more than 255 types are inside a type",
            Wanted::Faultless(cause) => cause.text(),
        }
    }
}

/// The index of the byte from which a text is no request, and what was expected there.
#[derive(Clone, Copy)]
pub struct Misread {
    pub at: usize,
    pub wanted: Wanted,
}

/// What was read, unless the text is no request or memory ran out.
pub type Read<T> = Result<T, Fail<Misread>>;

/// The error that something else was expected at a byte.
pub(crate) fn expecting(at: usize, wanted: Wanted) -> Fail<Misread>
    ensures { IsMisread result }
{
    Fail::Error(Misread { at, wanted })
}

/// The error at a name with its list that spells no type: why, or what was expected in place of the name.
pub(crate) fn untyped(fault: Fault, wanted: Wanted) -> Fail<Misread>
    ensures { IsMisread result }
{
    let wanted = match fault.cause {
        Cause::UnknownType | Cause::NoList => wanted,
        Cause::TooDeep => Wanted::Shallower,
        cause => Wanted::Faultless(cause),
    };
    expecting(fault.at, wanted)
}
