// Declarations, statements and other requests, by their tokens, and the forms that they are.
ghost use Rattle.std.specs.Prelude.{◌≡◌, map, option_map};
ghost use Rattle.wgsl_requests.specs.expressions.Prelude.{view, form_view, written_view};
ghost use Rattle.wgsl_requests.specs.expressions.Statements.{assignment_form, declaration_form, form_stated, only, statement_of, switch_form, undefined_form, variable_form, with_access, with_space};

use crate::expressions::prelude::*;
use crate::requests::Form;

/// What a request is, without its types and values.
#[derive(Clone, Copy)]
pub enum Statement {
    /// `let x = a`, `const x: T = a`, `override x: T`
    Declaration(Declaration),
    /// `var<storage, read> x: T`, `var x = a`
    Variable(AddressSpace, Option<AccessMode>),
    /// `a = b`, `a += b`
    Assignment(AssignmentOperator),
    /// `a++`, `a--`
    Increment,
    /// `_ = a`
    Phony,
    /// `load a`
    Load,
    /// Whether a value is a `bool`: `if a`, `while a`, `const_assert a`
    Condition,
    /// Whether a value is what the function returns: `return a`
    Return,
    /// `switch a { case b { } default { } }`
    Switch,
    /// `rank T, U`
    Rank,
    /// `common T, U`
    Common,
    /// `size T`
    Size,
    /// `offsets T`
    Offsets,
    /// `layout T`
    Layout,
}

/// What is asked about a call.
#[derive(Clone, Copy)]
pub enum Question {
    /// `f(a)`: its type, or whether the function takes the values.
    Type,
    /// `resolve f(a)`
    Resolution,
    /// `why f(a)`
    Explanation,
}

/// What a request is that begins with a token of this kind.
pub(crate) fn statement_of(kind: Kind) -> Option<Statement>
    ensures { result ≡ statement_of kind }
{
    match kind {
        Kind::Let => Some(Statement::Declaration(Declaration::Let)),
        Kind::ConstOperand => Some(Statement::Declaration(Declaration::Const)),
        Kind::Override => Some(Statement::Declaration(Declaration::Override)),
        Kind::Var => Some(Statement::Variable(AddressSpace::Function, None)),
        Kind::Underscore => Some(Statement::Phony),
        Kind::Load => Some(Statement::Load),
        Kind::ConstAssert | Kind::If | Kind::While => Some(Statement::Condition),
        Kind::Return => Some(Statement::Return),
        Kind::Switch => Some(Statement::Switch),
        Kind::Rank => Some(Statement::Rank),
        Kind::Common => Some(Statement::Common),
        Kind::Size => Some(Statement::Size),
        Kind::Offsets => Some(Statement::Offsets),
        Kind::Layout => Some(Statement::Layout),
        _ => None,
    }
}

/// The statement, whose variable is in this address space.
pub(crate) fn with_space(space: AddressSpace, statement: Statement) -> Statement
    ensures { result ≡ with_space space statement }
{
    match statement {
        Statement::Variable(_, access) => Statement::Variable(space, access),
        other => other,
    }
}

/// The statement, whose variable has this access mode.
pub(crate) fn with_access(access: AccessMode, statement: Statement) -> Statement
    ensures { result ≡ with_access access statement }
{
    match statement {
        Statement::Variable(space, _) => Statement::Variable(space, Some(access)),
        other => other,
    }
}

/// The form that a statement is, with its type and its values.
pub fn form_of<'r>(
    statement: Statement,
    ty: Option<&'r Type>,
    operands: &'r [Operand<'r>],
) -> Option<Form<'r>>
    ensures { option_map form_view result ≡ form_stated statement (option_map (λ t. view t.now) ty.entry) (map written_view operands.now) }
{
    match statement {
        Statement::Declaration(declaration) => declaration_form(declaration, ty, operands),
        Statement::Variable(space, access) => variable_form(space, access, ty, operands),
        Statement::Assignment(operator) => assignment_form(operator, operands),
        Statement::Increment => Some(Form::Increment(only(operands)?)),
        Statement::Phony => Some(Form::Discard(only(operands)?)),
        Statement::Load => Some(Form::Load(only(operands)?)),
        Statement::Switch => switch_form(operands),
        _ => None,
    }
}

fn only<'r>(operands: &[Operand<'r>]) -> Option<Operand<'r>>
    ensures { option_map written_view result ≡ only (map written_view operands.now) }
{
    match operands {
        [x] => Some(*x),
        _ => None,
    }
}

fn declaration_form<'r>(
    declaration: Declaration,
    ty: Option<&'r Type>,
    operands: &[Operand<'r>],
) -> Option<Form<'r>>
    ensures { option_map form_view result ≡ declaration_form declaration (option_map (λ t. view t.now) ty.entry) (map written_view operands.now) }
{
    match operands {
        [x] => Some(Form::Declaration(declaration, *x, ty)),
        [] => undefined_form(declaration, ty),
        _ => None,
    }
}

/// `override x: f32`
fn undefined_form<'r>(declaration: Declaration, ty: Option<&'r Type>) -> Option<Form<'r>>
    ensures { option_map form_view result ≡ undefined_form declaration (option_map (λ t. view t.now) ty.entry) }
{
    match declaration {
        Declaration::Override => Some(Form::Override(ty?)),
        Declaration::Let | Declaration::Const => None,
    }
}

fn variable_form<'r>(
    space: AddressSpace,
    access: Option<AccessMode>,
    ty: Option<&'r Type>,
    operands: &[Operand<'r>],
) -> Option<Form<'r>>
    ensures { option_map form_view result ≡ variable_form space access (option_map (λ t. view t.now) ty.entry) (map written_view operands.now) }
{
    match operands {
        [x] => Some(Form::Initialized(space, access, *x, ty)),
        [] => Some(Form::Variable(space, access, ty?)),
        _ => None,
    }
}

fn assignment_form<'r>(operator: AssignmentOperator, operands: &[Operand<'r>]) -> Option<Form<'r>>
    ensures { option_map form_view result ≡ assignment_form operator (map written_view operands.now) }
{
    match operands {
        [x, y] => Some(Form::Assignment(operator, *x, *y)),
        _ => None,
    }
}

fn switch_form<'r>(operands: &'r [Operand<'r>]) -> Option<Form<'r>>
    ensures { option_map form_view result ≡ switch_form (map written_view operands.now) }
{
    match operands {
        [x, cases @ ..] => Some(Form::Switch(*x, cases)),
        [] => None,
    }
}
