// What is done with declarations and statements, by what is noted.
ghost use Rattle.std.specs.Prelude.{◌≡◌, ◌∷◌, IfOk, Some, map, option_map, option_to_list};
ghost use Rattle.wgsl_core.specs.View.{view};
ghost use Rattle.wgsl_requests.specs.expressions.Stack.{an_asked};
ghost use Rattle.wgsl_requests.specs.expressions.Statements.{stated, types_of, with_access, with_space};
ghost use Rattle.wgsl_requests.specs.expressions.Steps.{Annotated, Asks, Assigned, Assigns, AssignsBy, Begun, Changes, Increments, InSpace, OfType, Overloads, Value, WithAccess, WithStruct};
ghost use Rattle.wgsl_requests.specs.expressions.Views.{Does, items_view, outcome_view, refused_view, scope_view, shown, source_view, typed_view};

use crate::expressions::heading::take_struct;
use crate::expressions::item::{Call, push, take_asked, take_call, take_operand, take_place};
use crate::expressions::outcome::with_part;
use crate::expressions::prelude::*;
use crate::expressions::statement::{statement_of, with_access, with_space};
use wgsl_spelling::fault::Expected;
use wgsl_syntax::address::access_named;

/// `let`, `if`, `size`
pub fn begin(source: &Source<'_>, scope: &Scope, count: usize, items: &mut Items) -> Read<()>
    ensures { Does (Begun (source_view source.now) (scope_view scope.now) count (items_view items.old.items)) items.new.items result }
{
    let kind = source.kind_at(count);
    let Some(statement) = statement_of(kind) else {
        return Err(source.misread(count, Wanted::Operand));
    };
    match types_of(source.alloc, scope, kind)? {
        Some(types) => put_request(statement, types, Ok(Vec::new(source.alloc)), items),
        None => Err(source.misread(count, Wanted::Function)),
    }
}

/// The types that the values of a statement have to fit: a condition's is `bool`, that behind `return` the result of the function.
/// None if there is no function in front.
fn types_of(alloc: Global, scope: &Scope, kind: Kind) -> Made<Option<Vec<Type>>>
    ensures { IfOk result (λ types. option_map (λ v. map view v.items) types ≡ types_of (scope_view scope.now) kind) }
{
    match kind {
        Kind::ConstAssert | Kind::If | Kind::While => {
            Ok(Some(listed(alloc, Some(&Type::Bool))?))
        }
        Kind::Return => match scope.last_result() {
            Some(result) => Ok(Some(listed(alloc, result)?)),
            None => Ok(None),
        },
        _ => Ok(Some(Vec::new(alloc))),
    }
}

/// A list of the type, if there is one.
fn listed(alloc: Global, ty: Option<&Type>) -> Made<Vec<Type>>
    ensures { IfOk result (λ types. map view types.items ≡ option_to_list (option_map (λ t. view t.now) ty.entry)) }
{
    let mut types = Vec::new(alloc);
    if let Some(ty) = ty {
        types.push(ty.clone(alloc)?)?;
    }
    Ok(types)
}

/// Puts a request with these types and values.
fn put_request(statement: Statement, types: Vec<Type>, parts: Parts, items: &mut Items) -> Read<()>
    ensures { Does (λ r. r ≡ Some (an_asked (stated statement (map view types.items) (shown (λ v. map typed_view v.items) refused_view parts)) ∷ items_view items.old.items)) items.new.items result }
{
    push(
        Item::Asked(Asked {
            statement,
            types,
            parts,
        }),
        items,
    )
}

/// `storage` in `var<storage>`
#[tactic(auto, using(wgsl_spelling::proofs::Names::space_is))]
pub fn put_space(source: &Source<'_>, count: usize, items: &mut Items) -> Read<()>
    ensures { Does (InSpace (source_view source.now) count (items_view items.old.items)) items.new.items result }
{
    match AddressSpace::named_by(RuleSet::Standard, source.text_at(count)) {
        Some(space) => put_in_space(source, space, items),
        None => Err(source.misread(count, expected(Expected::AddressSpace))),
    }
}

fn put_in_space(source: &Source<'_>, space: AddressSpace, items: &mut Items) -> Read<()>
    ensures { Does (Changes (with_space space) (items_view items.old.items)) items.new.items result }
{
    let mut asked = take_asked(source, items)?;
    asked.statement = with_space(space, asked.statement);
    push(Item::Asked(asked), items)
}

/// `read` in `var<storage, read>`
pub fn put_access(source: &Source<'_>, count: usize, items: &mut Items) -> Read<()>
    ensures { Does (WithAccess (source_view source.now) count (items_view items.old.items)) items.new.items result }
{
    match access_named(source.text_at(count)) {
        Some(access) => put_with_access(source, access, items),
        None => Err(source.misread(count, expected(Expected::AccessMode))),
    }
}

fn put_with_access(source: &Source<'_>, access: AccessMode, items: &mut Items) -> Read<()>
    ensures { Does (Changes (with_access access) (items_view items.old.items)) items.new.items result }
{
    let mut asked = take_asked(source, items)?;
    asked.statement = with_access(access, asked.statement);
    push(Item::Asked(asked), items)
}

fn expected(expected: Expected) -> Wanted {
    Wanted::Faultless(Cause::Expected(expected))
}

/// `: f32`, `size f32`
pub fn annotate(source: &Source<'_>, scope: &Scope, index: usize, items: &mut Items) -> Read<()>
    ensures { Does (Annotated (source_view source.now) (scope_view scope.now) index (items_view items.old.items)) items.new.items result }
{
    let from = take_place(source, items)?;
    match source.type_noted(scope, source.noted(from, index))? {
        Ok((ty, _)) => put_type(source, ty, items),
        Err(fault) => Err(untyped(fault, Wanted::Type)),
    }
}

/// `layout struct S { a: f32 }`
pub fn put_struct_type(source: &Source<'_>, items: &mut Items) -> Read<()>
    ensures { Does (WithStruct (items_view items.old.items)) items.new.items result }
{
    let (ty, _) = take_struct(source, items)?;
    put_type(source, ty, items)
}

/// One more type.
fn put_type(source: &Source<'_>, ty: Type, items: &mut Items) -> Read<()>
    ensures { Does (OfType (view ty) (items_view items.old.items)) items.new.items result }
{
    let mut asked = take_asked(source, items)?;
    asked.types.push(ty)?;
    push(Item::Asked(asked), items)
}

/// One more value.
pub fn put_value(source: &Source<'_>, items: &mut Items) -> Read<()>
    ensures { Does (Value (items_view items.old.items)) items.new.items result }
{
    let x = take_operand(source, items)?;
    let mut asked = take_asked(source, items)?;
    asked.parts = with_part(asked.parts, x)?;
    push(Item::Asked(asked), items)
}

/// `a = b`
pub fn assign(source: &Source<'_>, items: &mut Items) -> Read<()>
    ensures { Does (Assigns (items_view items.old.items)) items.new.items result }
{
    let y = take_operand(source, items)?;
    let x = take_operand(source, items)?;
    put_assignment(source.alloc, AssignmentOperator::Equal, x, y, items)
}

/// `a += b`
pub fn assign_by(source: &Source<'_>, items: &mut Items) -> Read<()>
    ensures { Does (AssignsBy (source_view source.now) (items_view items.old.items)) items.new.items result }
{
    let y = take_operand(source, items)?;
    let count = take_place(source, items)?;
    let x = take_operand(source, items)?;
    match assignment_named(source.text_at(count)) {
        Some(operator) => put_assignment(source.alloc, operator, x, y, items),
        None => {
            drop(x);
            drop(y);
            Err(source.misread(count, Wanted::Operand))
        }
    }
}

fn put_assignment(
    alloc: Global,
    operator: AssignmentOperator,
    x: Outcome,
    y: Outcome,
    items: &mut Items,
) -> Read<()>
    ensures { Does (Assigned operator (outcome_view x) (outcome_view y) (items_view items.old.items)) items.new.items result }
{
    let parts = with_part(with_part(Ok(Vec::new(alloc)), x)?, y)?;
    let statement = Statement::Assignment(operator);
    put_request(statement, Vec::new(alloc), parts, items)
}

/// `a++`, `a--`
pub fn increment(source: &Source<'_>, items: &mut Items) -> Read<()>
    ensures { Does (Increments (items_view items.old.items)) items.new.items result }
{
    let x = take_operand(source, items)?;
    let parts = with_part(Ok(Vec::new(source.alloc)), x)?;
    put_request(Statement::Increment, Vec::new(source.alloc), parts, items)
}

/// `resolve f(a)`, `why f(a)`, `f(a)`
pub fn put_asked(source: &Source<'_>, asked: Question, count: usize, items: &mut Items) -> Read<()>
    ensures { Does (Asks asked (items_view items.old.items)) items.new.items result }
{
    let call = take_call(source, count, wanted_by(asked), items)?;
    push(Item::Question(asked, call), items)
}

/// What is expected in place of a value about which nothing is asked.
fn wanted_by(question: Question) -> Wanted {
    match question {
        Question::Type => Wanted::Assignment,
        Question::Resolution | Question::Explanation => Wanted::Call,
    }
}

/// `overloads f`
pub fn put_overloads(source: &Source<'_>, count: usize, items: &mut Items) -> Read<()>
    ensures { Does (Overloads (source_view source.now) count (items_view items.old.items)) items.new.items result }
{
    match source.last(count) {
        Some(token) => push(Item::Overloads(token), items),
        None => Err(source.misread(count, Wanted::Name)),
    }
}
