// One request, from its bytes to its reply.
ghost use Rattle.std.specs.Prelude.{◌≡◌, ◌<◌, ◌≤◌, [], IfOk, IsOkAnd, IsUtf8, Ok, length, true};
ghost use Rattle.wgsl_requests.specs.Replies as replies;
ghost use Rattle.wgsl_requests.specs.Replies.{IsUnreadable, Replies};
ghost use Rattle.wgsl_replies.specs.words.Reader.{words_of};
ghost use Rattle.wgsl_replies.specs.Replies.{IsBlank, IsExplanation, IsReplyTo, IsReplyToLine, reply_text, too_long, why_seen};

use crate::words::reply::write_reply as write_reply_to_words;
use crate::words::why::{Why as WordsWhy, write_why as write_why_of_words};
use std::alloc::{AllocError, Global};
use wgsl_requests::expressions::reply::write_standard_reply;
use wgsl_requests::expressions::why::{Why as LineWhy, write_why as write_why_of_line};
use wgsl_requests::reply::has_line_feed;
pub use wgsl_requests::reply::{LONGEST, ReplyKind, TextKind};
use wgsl_syntax::rules::RuleSet;

/// The reply to a request.
#[derive(Drop)]
pub enum Reply {
    /// The request has no words.
    Nothing,
    /// The answer or the message of a refusal, without a line feed at its end.
    Answer(TextKind, String),
    /// The request is too long, has a line feed, is not UTF-8, or is no command.
    Unreadable,
}

/// Why a request can't be read.
#[derive(Clone, Copy)]
pub enum Why {
    LineFeed,
    /// A request in words.
    Words(WordsWhy),
    /// A line in WGSL.
    Line(LineWhy),
}

/// Writes why a request can't be read.
pub fn write_why(request: &[u8], why: Why, text: &mut String) -> Result<(), AllocError> {
    match why {
        Why::LineFeed => text.push_str("a line feed"),
        Why::Words(why) => write_why_of_words(request, why, text),
        Why::Line(why) => write_why_of_line(request, why, text),
    }
}

/// Whether the reason has a place in the request.
pub fn has_place(why: Why) -> bool {
    matches!(
        why,
        Why::Words(WordsWhy::Word(_)) | Why::Line(LineWhy::Misread(_, _))
    )
}

/// The reply to the request, by a set of rules.
pub fn reply_to(alloc: Global, rules: RuleSet, request: &[u8]) -> Result<Reply, AllocError>
    ensures too_long { LONGEST < length request.now → result ≡ Ok Reply.Unreadable }
    ensures forbidden { replies.has_line_feed request.now ≡ true → result ≡ Ok Reply.Unreadable }
    ensures no_text { ¬ IsUtf8 request.now
        → IfOk result (λ reply. reply ≡ Reply.Unreadable) }
    ensures blank { length request.now ≤ LONGEST → IsBlank rules request.now
        → IfOk result (λ reply. reply ≡ Reply.Nothing) }
    ensures reply { IfOk result (λ reply. IsReplyTo rules request.now (reply_text reply)) }
{
    let mut text = String::new(alloc);
    match write_reply_to_request(alloc, rules, request, &mut text)? {
        ReplyKind::Nothing => Ok(Reply::Nothing),
        ReplyKind::Answer(kind) => Ok(Reply::Answer(kind, text)),
        ReplyKind::Unreadable(_) => Ok(Reply::Unreadable),
    }
}

/// The kind of the reply to a request, by a set of rules. An answer is written at the end of the text.
fn write_reply_to_request(
    alloc: Global,
    rules: RuleSet,
    request: &[u8],
    text: &mut String,
) -> Result<ReplyKind<Why>, AllocError>
    ensures too_long { LONGEST < length request.now → IsOkAnd result IsUnreadable }
    ensures forbidden { replies.has_line_feed request.now ≡ true → IsOkAnd result IsUnreadable }
    ensures no_text { ¬ IsUtf8 request.now → IsOkAnd result IsUnreadable }
    ensures blank { length request.now ≤ LONGEST → IsBlank rules request.now
        → IfOk result (λ kind. kind ≡ ReplyKind.Nothing) }
    ensures reply { Replies (IsReplyTo rules request.now) text.old text.new result }
{
    if request.len() <= LONGEST && has_line_feed(request) {
        return Ok(ReplyKind::Unreadable(Why::LineFeed));
    }
    write_reply(alloc, rules, request, text)
}

/// The kind of the reply to a line, by a set of rules. An answer is written at the end of the text.
#[inline(always)]
pub fn write_reply(
    alloc: Global,
    rules: RuleSet,
    request: &[u8],
    text: &mut String,
) -> Result<ReplyKind<Why>, AllocError>
    ensures too_long { LONGEST < length request.now
        → result ≡ Ok (ReplyKind.Unreadable (too_long rules)) }
    ensures no_text { ¬ IsUtf8 request.now → IsOkAnd result IsUnreadable }
    ensures no_words { length request.now ≤ LONGEST → rules ≡ RuleSet.Ported
        → words_of request.now ≡ [] → result ≡ Ok ReplyKind.Nothing }
    ensures blank { length request.now ≤ LONGEST → IsBlank rules request.now
        → IfOk result (λ kind. kind ≡ ReplyKind.Nothing) }
    ensures reply { Replies (IsReplyToLine rules request.now) text.old text.new result }
{
    match rules {
        RuleSet::Ported => Ok(of_words(write_reply_to_words(alloc, request, text)?)),
        RuleSet::Standard => Ok(of_line(write_standard_reply(alloc, request, text)?)),
    }
}

/// The kind of a reply to words.
#[inline(always)]
fn of_words(kind: ReplyKind<WordsWhy>) -> ReplyKind<Why>
    ensures { result ≡ why_seen Why.Words kind }
{
    match kind {
        ReplyKind::Nothing => ReplyKind::Nothing,
        ReplyKind::Answer(kind) => ReplyKind::Answer(kind),
        ReplyKind::Unreadable(why) => ReplyKind::Unreadable(Why::Words(why)),
    }
}

/// The kind of a reply to a line in WGSL.
#[inline(always)]
fn of_line(kind: ReplyKind<LineWhy>) -> ReplyKind<Why>
    ensures { result ≡ why_seen Why.Line kind }
{
    match kind {
        ReplyKind::Nothing => ReplyKind::Nothing,
        ReplyKind::Answer(kind) => ReplyKind::Answer(kind),
        ReplyKind::Unreadable(why) => ReplyKind::Unreadable(Why::Line(why)),
    }
}

/// Explains why the request can't be read: the explanation is the answer of the reply. If the request can be read, the
/// reply is `Nothing`.
pub fn explain(alloc: Global, rules: RuleSet, request: &[u8]) -> Result<Reply, AllocError>
    ensures { IfOk result (λ reply. IsExplanation rules request.now reply) }
{
    let mut text = String::new(alloc);
    let kind = write_reply_to_request(alloc, rules, request, &mut text);
    drop(text);
    match kind? {
        ReplyKind::Answer(_) => Ok(Reply::Nothing),
        ReplyKind::Nothing => Ok(Reply::Answer(
            TextKind::Answer,
            String::from_str(alloc, "no words")?,
        )),
        ReplyKind::Unreadable(why) => {
            Ok(Reply::Answer(TextKind::Answer, reason(alloc, request, why)?))
        }
    }
}

fn reason(alloc: Global, request: &[u8], why: Why) -> Result<String, AllocError> {
    let mut text = String::new(alloc);
    write_why(request, why, &mut text)?;
    Ok(text)
}
