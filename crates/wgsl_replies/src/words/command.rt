// What is answered to each command.
#![tactic(auto, unfolding(crate::specs::words::Requests::request_from))]

ghost use Rattle.std.specs.Prelude.{◌≡◌, codes, option_and_then};
ghost use Rattle.wgsl_calls.specs.Calls.{signature_of};
ghost use Rattle.wgsl_replies.specs.words.Requests.{Answers, a_struct, call_view, struct_in, callee, request_from};
ghost use Rattle.wgsl_replies.specs.words.Reader.{Gives, last};
ghost use Rattle.wgsl_replies.specs.words.Types.{type_at};

use crate::words::prelude::*;
use crate::words::read::{read_last_type, read_pair, read_types};
use crate::words::template::read_template;
use wgsl_requests::reply::TextKind;
use wgsl_requests::requests::{NamedCall, Request};
use wgsl_requests::write::{write_answer_to, write_common};
use wgsl_syntax::operator::{binary_named, unary_named};
use wgsl_syntax::rules::RuleSet;
use wgsl_types::typed::typed_lines;

/// Writes the answer to the command and the words behind it at the end of the text.
#[inline(always)]
pub fn write_answer(
    alloc: Global,
    command: &str,
    words: &mut Words,
    text: &mut String,
) -> Read<TextKind>
    ensures { Answers (request_from command.now words.old) text.old text.new result }
{
    match command {
        "rank" => rank(alloc, words, text),
        "common" => common(alloc, words, text),
        "unary" => unary(alloc, words, text),
        "binary" => binary(alloc, words, text),
        "size" => size(alloc, words, text),
        "offsets" => offsets(alloc, words, text),
        "layout" => layout(alloc, words, text),
        "ctor" => ctor(alloc, words, text),
        "call" => call(alloc, words, text),
        _ => Err(Fail::Error(Misfit::Wrong(Wanted::Command))),
    }
}

/// `rank T U`: the rank of the conversion.
fn rank(alloc: Global, words: &mut Words, text: &mut String) -> Read<TextKind>
    ensures { Answers (request_from (codes "rank") words.old) text.old text.new result }
{
    let types = read_pair(alloc, words)?;
    let written = write_answer_to(alloc, Request::Rank(&types.0, &types.1), text);
    drop(types);
    Ok(written?)
}

/// `common T..`: the type that all have once they are converted together, or `none` if there is none, or if one of them
/// doesn't convert to it.
fn common(alloc: Global, words: &mut Words, text: &mut String) -> Read<TextKind>
    ensures { Answers (request_from (codes "common") words.old) text.old text.new result }
{
    let values = typed_lines(alloc, read_types(alloc, words)?)?;
    let written = write_common(alloc, RuleSet::Ported, &values, text);
    drop(values);
    Ok(written?)
}

/// `unary OP T`: the type of the expression, or why it has none.
#[tactic(auto, unfolding(crate::specs::words::Requests::request_from, crate::specs::words::Names::unary_named))]
fn unary(alloc: Global, words: &mut Words, text: &mut String) -> Read<TextKind>
    ensures { Answers (request_from (codes "unary") words.old) text.old text.new result }
{
    let operator = unary_named(words.next(Wanted::UnaryOperator)?);
    let operator = wanted(operator, Wanted::UnaryOperator)?;
    let operand = read_last_type(alloc, words)?;
    let written = write_answer_to(alloc, Request::Unary(operator, &operand), text);
    drop(operand);
    Ok(written?)
}

/// `binary OP T U`: the type of the expression, or why it has none.
#[tactic(auto, unfolding(crate::specs::words::Requests::request_from, crate::specs::words::Names::binary_named))]
fn binary(alloc: Global, words: &mut Words, text: &mut String) -> Read<TextKind>
    ensures { Answers (request_from (codes "binary") words.old) text.old text.new result }
{
    let operator = binary_named(words.next(Wanted::BinaryOperator)?);
    let operator = wanted(operator, Wanted::BinaryOperator)?;
    let types = read_pair(alloc, words)?;
    let written = write_answer_to(alloc, Request::Binary(operator, &types.0, &types.1), text);
    drop(types);
    Ok(written?)
}

/// `size T`: the size and the alignment.
fn size(alloc: Global, words: &mut Words, text: &mut String) -> Read<TextKind>
    ensures { Answers (request_from (codes "size") words.old) text.old text.new result }
{
    let ty = read_last_type(alloc, words)?;
    let written = write_answer_to(alloc, Request::Size(RuleSet::Ported, &ty), text);
    drop(ty);
    Ok(written?)
}

/// `offsets T` for a struct T: the offset of each member.
fn offsets(alloc: Global, words: &mut Words, text: &mut String) -> Read<TextKind>
    ensures { Answers (request_from (codes "offsets") words.old) text.old text.new result }
{
    let structure = read_struct(alloc, words)?;
    let written = write_answer_to(alloc, Request::Offsets(RuleSet::Ported, &structure), text);
    drop(structure);
    Ok(written?)
}

/// `layout T` for a struct T: a report of its members and of the whole.
fn layout(alloc: Global, words: &mut Words, text: &mut String) -> Read<TextKind>
    ensures { Answers (request_from (codes "layout") words.old) text.old text.new result }
{
    let structure = read_struct(alloc, words)?;
    let written = write_answer_to(alloc, Request::Layout(RuleSet::Ported, &structure), text);
    drop(structure);
    Ok(written?)
}

/// The struct in the remaining words.
fn read_struct(alloc: Global, words: &mut Words) -> Read<Box<StructType>>
    ensures { Gives (λ s. struct_in s.value) (option_and_then a_struct (last type_at words.old)) result }
{
    match read_last_type(alloc, words)? {
        Type::Struct(structure) => Ok(structure),
        other => {
            drop(other);
            Err(Fail::Error(Misfit::NoStruct))
        }
    }
}

/// `ctor NAME P T..`: the type that the constructor makes, or why it makes none.
fn ctor(alloc: Global, words: &mut Words, text: &mut String) -> Read<TextKind>
    ensures { Answers (request_from (codes "ctor") words.old) text.old text.new result }
{
    let call = read_call(alloc, words)?;
    let written = write_answer_to(alloc, Request::Constructor(call.as_named()), text);
    drop(call);
    Ok(written?)
}

/// `call NAME P T..`: the type of the call, `no value` if it returns none, or why it has no type.
fn call(alloc: Global, words: &mut Words, text: &mut String) -> Read<TextKind>
    ensures { Answers (request_from (codes "call") words.old) text.old text.new result }
{
    let call = read_call(alloc, words)?;
    let written = write_answer_to(alloc, Request::Call(call.as_named()), text);
    drop(call);
    Ok(written?)
}

/// The call of a constructor or of a built-in function, as it was read.
#[derive(Drop)]
struct ReadCall<'t> {
    name: &'t str,
    template: Option<Vec<TpltParam>>,
    arguments: Vec<Type>,
}

impl ReadCall<'_> {
    #[inline(always)]
    fn as_named(&self) -> NamedCall<'_>
        ensures { signature_of result ≡ call_view self.now }
    {
        NamedCall {
            name: self.name,
            template: self.template.as_deref(),
            args: &self.arguments,
        }
    }
}

/// A name, a template, and the types of the arguments.
#[inline(always)]
#[tactic(auto, unfolding(crate::specs::words::Requests::callee))]
fn read_call<'t>(alloc: Global, words: &mut Words<'t>) -> Read<ReadCall<'t>>
    ensures { Gives call_view (callee words.old) result }
{
    let name = words.next(Wanted::Name)?;
    let template = read_template(alloc, words)?;
    let arguments = read_types(alloc, words)?;
    Ok(ReadCall {
        name,
        template,
        arguments,
    })
}
