// What reading notes.

/// What reading notes, each behind what it is about.
#[derive(Clone, Copy)]
pub enum Mark {
    /// `enable f16;`, behind the `Extension`s
    Enable,
    /// `requires a;`
    Requires,
    /// `diagnostic(off, a);`
    DiagnosticDirective,
    /// A name behind `enable` or `requires`.
    Extension,
    /// `off` in `diagnostic(off, a.b)`
    Severity,
    /// `a` in `diagnostic(off, a.b)`
    DiagnosticRule,
    /// `b` in `diagnostic(off, a.b)`
    DiagnosticPart,
    /// A name that is declared, or that stands for a type, a value or a function.
    Name,
    /// `alias a = T;`
    Alias,
    /// `struct S { .. }`
    Struct,
    /// `const a = 1`, with its `;` in a module
    Const,
    /// `const_assert a;`
    ConstAssert,
    /// `override a = 1;`
    Override,
    /// `var a = 1`, with its `;` in a module
    Variable,
    /// `fn f() { .. }`
    Function,
    /// `: T` behind the name of a declaration
    Typed,
    /// `= 1` of a `var` or an `override`
    Initialized,
    /// `a: T` of a struct, behind its attributes
    Member,
    /// `a: T` of a function, behind its attributes
    Parameter,
    /// `-> T`, behind its attributes
    Result,
    /// `@a(1)`, `@const`
    Attribute,
    /// `@diagnostic(off, a.b)`
    DiagnosticAttribute,
    /// `a` in `@a(1)`
    AttributeName,
    /// The word in front of a statement that has blocks, or nothing in front of the body of a function.
    Begin,
    /// The `(` of a call, or the `{` of a block.
    Open,
    /// The `}` of a block.
    Block,
    /// `return a;`
    Return,
    /// `break;`
    Break,
    /// `continue;`
    Continue,
    /// `discard;`
    Discard,
    /// The value behind `return`.
    Returned,
    /// `let a = 1`
    Let,
    /// The value behind `switch`.
    Selector,
    /// `switch a { .. }`
    Switch,
    /// `loop { .. }`
    Loop,
    /// `for (..) { .. }`
    For,
    /// The condition of `if`, `for` or `while`.
    Condition,
    /// `while a { .. }`
    While,
    /// `if a { .. }`, with what is behind `else`
    If,
    /// `else { .. }`, `else if a { .. }`
    Else,
    /// `case 1, 2 { .. }`, `default { .. }`
    Case,
    /// `default`, alone or behind `case`
    DefaultSelector,
    /// A value behind `case`.
    CaseSelector,
    /// `continuing { .. }`
    Continuing,
    /// `break if a;`
    BreakIf,
    /// `_ = a`
    Phony,
    /// `a` in `f(a, b)`
    Argument,
    /// The `)` of a call: `f(a)`, `T<U>(a)`.
    Call,
    /// A call as a statement.
    CallStatement,
    /// `-a`, behind its operand
    Unary,
    /// `(a)`
    Brackets,
    /// `a = b`
    Assign,
    /// An operator with two operands, behind the first one; with one, in front of it; or that of `a += b`.
    Operator,
    /// `a += b`
    AssignBy,
    /// `a++`
    Increment,
    /// `a--`
    Decrement,
    /// The `<` of a template list.
    OpenTemplate,
    /// The `>` of a template list.
    Template,
    /// `1.5`, `true`
    Literal,
    /// A name, with its template list, that stands for a value.
    Value,
    /// A type, with its template list, that stands for a const-expression.
    Constant,
    /// `.a`
    MemberOf,
    /// The `[` of an element.
    OpenElement,
    /// `[i]`
    Element,
    /// `a + b`, behind its operands
    Binary,
    /// The first word of a request: `let`, `if`, `size`, `_`.
    Keyword,
    /// `struct S`, `fn f` in front of a request.
    Heading,
    /// `struct S { .. }` in place of a type.
    StructType,
    /// `resolve a`
    Resolve,
    /// `why a`
    Why,
    /// `overloads f`
    Overloads,
    /// `storage` in `var<storage, read>`
    AddressSpace,
    /// `read` in `var<storage, read>`
    AccessMode,
}
