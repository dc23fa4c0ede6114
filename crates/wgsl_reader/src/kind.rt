// Kinds of tokens.

/// What a token is (WGSL, "Tokens").
#[derive(Clone, Copy, PartialEq, Eq)]
pub enum Kind {
    /// The end of the text.
    End,
    /// `a`, `f32`
    Name,
    /// A word that is no name and no keyword: `typedef`, `__a`.
    Reserved,
    /// `1.5`, `0xFu`
    Number,
    // Keywords.
    /// `alias`
    Alias,
    /// `break`
    Break,
    /// `case`
    Case,
    /// `const`
    Const,
    /// `const` in a request: in front of the type of an operand, or of a declaration. Only what makes tokens of a request makes it.
    ConstOperand,
    /// `const_assert`
    ConstAssert,
    /// `continue`
    Continue,
    /// `continuing`
    Continuing,
    /// `default`
    Default,
    /// `diagnostic`
    Diagnostic,
    /// `discard`
    Discard,
    /// `else`
    Else,
    /// `enable`
    Enable,
    /// `false`
    False,
    /// `fn`
    Fn,
    /// `for`
    For,
    /// `if`
    If,
    /// `let`
    Let,
    /// `loop`
    Loop,
    /// `override`
    Override,
    /// `requires`
    Requires,
    /// `return`
    Return,
    /// `struct`
    Struct,
    /// `switch`
    Switch,
    /// `true`
    True,
    /// `var`
    Var,
    /// `while`
    While,
    // The first words of requests. Only what makes tokens of a request makes these.
    /// `type`
    TypeOf,
    /// `load`
    Load,
    /// `resolve`
    Resolve,
    /// `why`
    Why,
    /// `overloads`
    Overloads,
    /// `rank`
    Rank,
    /// `common`
    Common,
    /// `size`
    Size,
    /// `offsets`
    Offsets,
    /// `layout`
    Layout,
    // Brackets.
    /// `(`
    OpenRound,
    /// `)`
    CloseRound,
    /// `[`
    OpenSquare,
    /// `]`
    CloseSquare,
    /// `{`
    OpenCurly,
    /// `}`
    CloseCurly,
    /// The `<` in front of a template list.
    OpenTemplate,
    /// The `>` behind a template list.
    CloseTemplate,
    // Signs.
    /// `@`
    At,
    /// `,`
    Comma,
    /// `;`
    Semicolon,
    /// `:`
    Colon,
    /// `.`
    Period,
    /// `->`
    Arrow,
    /// `_`
    Underscore,
    // Operators.
    /// `!`
    Bang,
    /// `~`
    Tilde,
    /// `&`
    And,
    /// `|`
    Or,
    /// `^`
    Xor,
    /// `&&`
    AndAnd,
    /// `||`
    OrOr,
    /// `*`
    Star,
    /// `/`
    Slash,
    /// `%`
    Percent,
    /// `+`
    Plus,
    /// `-`
    Minus,
    /// `<<`
    ShiftLeft,
    /// `>>`
    ShiftRight,
    /// `<`
    Less,
    /// `<=`
    LessEqual,
    /// `>`
    Greater,
    /// `>=`
    GreaterEqual,
    /// `==`
    EqualEqual,
    /// `!=`
    NotEqual,
    // Assignments.
    /// `=`
    Equal,
    /// `+=`, `-=`, `*=`, `/=`, `%=`, `&=`, `|=`, `^=`, `<<=`, `>>=`
    OperatorEqual,
    /// `++`
    PlusPlus,
    /// `--`
    MinusMinus,
}
