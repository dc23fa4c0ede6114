// The rules of the grammar.

/// A rule of the grammar, by what it reads. The tables have the rules in this order.
#[derive(Clone, Copy, PartialEq, Eq)]
pub enum Rule {
    // Types and expressions.
    /// `f32`, `array<vec3<f32>, 4>`
    Type,
    /// `<vec3<f32>, 4>`, if it is there
    Template,
    /// `, 4,`
    MoreTemplate,
    /// `4,`, or nothing behind the last comma
    LastTemplate,
    /// `a, b,`, up to `)`
    Arguments,
    /// `, b,`
    MoreArguments,
    /// `(a)`, if it is there
    Call,
    /// `.x[i]`, if it is there
    Postfix,
    /// `-`, `!`, `~`, `*`, `&`
    Prefix,
    /// `-a.x`, `1.5`, `(a)`, `vec3<f32>(a)`
    Unary,
    /// `<f32>(a).x`, `(a).x`, `.x`, or nothing behind a name
    AfterValue,
    /// `a + b < c`
    Expression,
    /// What may stand behind a unary expression: `+ b < c`.
    Operators,
    /// What may stand behind a sum: `< b && c`.
    AfterSum,
    /// `& b & c`
    Ands,
    /// `| b | c`
    Ors,
    /// `^ b ^ c`
    Xors,
    /// `<< b`, or products and sums
    Shift,
    /// `* b / c`
    Product,
    /// `+ b * c - d`
    Sum,
    /// `< b`
    Comparison,
    /// `&& b && c`, `|| b || c`
    Logic,
    /// `&& b && c`
    AndAnds,
    /// `|| b || c`
    OrOrs,
    // Statements.
    /// `{ .. }` with its attributes
    Body,
    /// Statements, up to `}` or to the `continuing` of a loop.
    Statements,
    /// `return a;`, `if a { .. }`, `;`
    Statement,
    /// The value behind `return`, if it is there.
    Returned,
    /// `let a: f32 = 1`, `var a`
    Local,
    /// A statement that may have attributes.
    AttributedStatement,
    /// `if a { .. } else { .. }`
    If,
    /// `else { .. }`, if it is there
    Else,
    /// `{ .. }`, `if a { .. }`
    ElseBody,
    /// `{ case 1 { .. } default { .. } }`
    SwitchBody,
    /// Clauses, up to `}`.
    Clauses,
    /// `case 1, 2: { .. }`, `default { .. }`
    Clause,
    /// `1`, `default`
    CaseSelector,
    /// `, 2,`
    MoreSelectors,
    /// `2,`, or nothing behind the last comma
    LastSelectors,
    /// `:`, if it is there
    ColonIfAny,
    /// `{ .. continuing { .. } }`
    LoopBody,
    /// `continuing { .. }`, if it is there
    Continuing,
    /// `{ .. break if a; }`
    ContinuingBody,
    /// Statements, and perhaps `break if a;` as the last.
    ContinuingStatements,
    /// The rest of `break if a;`, or of `break;` and the statements behind it.
    BreakEnd,
    /// `var i = 0`, if it is there
    ForStart,
    /// `i < n`, if it is there
    ForTest,
    /// `i++`, if it is there
    ForUpdate,
    /// `f(a)`, `a = b`, `_ = a`, `i++`
    Update,
    /// `(a)`, `<T>(a)`, `.x = b`
    AfterName,
    /// The left side of an assignment: `a.x`, `*p`.
    Left,
    /// `a`, `(*p)`
    LeftCore,
    /// `= b`, `+= b`, `++`
    Assignment,
    // Requests about types.
    /// `struct S { a: i32 } let a: i32 = S.a;`, where types stand for names.
    Request,
    /// `let a: f32 = 1`, `if a { }`, `a += b`, `size f32`
    Asked,
    /// `struct S { a: i32 }`
    Headed,
    /// `f32`, `struct S { a: i32 }`
    AskedType,
    /// `f32, i32`, if they are there
    AskedTypes,
    /// `, i32`
    MoreAskedTypes,
    /// The value behind `return` in a request, if it is there.
    ReturnedIfAny,
    /// What may stand behind a name: `(a)`, `<f32>(a)`, `.x = b`.
    AfterFirst,
    /// `.x = b`, or nothing behind a call
    AfterCall,
    /// `: f32 = 1`, `: f32`, `= 1`
    Valued,
    /// `<storage, read>`, if it is there
    Memory,
    /// `, read`, if it is there
    MoreMemory,
    /// `read,`, or nothing behind the last comma
    AccessMode,
    /// `{ }`, if it is there
    BlockIfAny,
    /// Clauses without statements, up to `}`.
    EmptyClauses,
    /// `case 1, 2: { }`, `default { }`
    EmptyClause,
    /// `;`, if it is there
    SemicolonIfAny,
    // Directives and declarations.
    /// `enable f16;`, or a declaration
    DirectiveOrDeclaration,
    /// `f16, subgroups,`
    ExtensionNames,
    /// `, subgroups,`
    MoreExtensionNames,
    /// `subgroups,`, or nothing behind the last comma
    LastExtensionNames,
    /// `(off, a.b)`
    DiagnosticControl,
    /// `.b`, if it is there
    DiagnosticPart,
    /// `,`, if it is there
    CommaIfAny,
    /// `const a = 1;`, `@id(1) override a: f32;`, `fn f() {}`
    Declaration,
    /// A declaration that may have attributes.
    Attributed,
    /// `a: f32`, `a`
    Declared,
    /// `: f32`, if it is there
    TypeIfAny,
    /// `= 1`, if it is there
    Initializer,
    /// `@size(16) a: f32`
    Member,
    /// `, b: f32,`
    MoreMembers,
    /// `b: f32,`, or nothing behind the last comma
    LastMembers,
    /// `a: f32, @builtin(position) b: vec4f,`, up to `)`
    Parameters,
    /// `, b: f32,`
    MoreParameters,
    /// `@builtin(position) b: vec4f`
    Parameter,
    /// `-> @location(0) vec4f`, if it is there
    Result,
    /// `@location(0) vec4f`
    ResultType,
    /// `@align(16)`, `@const`, `@diagnostic(off, a.b)`
    Attribute,
    /// `align(16)`
    AttributeName,
    /// `(16)`, if it is there
    AttributeArguments,
}
