// One line, from its bytes to its reply.
ghost use Rattle.std.specs.Prelude.{◌≡◌, ◌<◌, ◌≤◌, ◌∷◌, [], IsOkAnd, IsUtf8, Ok, length};
ghost use Rattle.wgsl_requests.specs.Replies.{IsUnreadable, Replies};
ghost use Rattle.wgsl_replies.specs.words.Requests.{IsReplyToLine, IsReplyToWords};
ghost use Rattle.wgsl_replies.specs.words.Reader.{words_of};

use crate::words::command::write_answer;
use crate::words::prelude::*;
use crate::words::why::Why;
use wgsl_requests::reply::{LONGEST, ReplyKind};

/// The kind of the reply to a line, by the ported rules. An answer is written at the end of the text.
#[inline(always)]
pub fn write_reply(alloc: Global, request: &[u8], text: &mut String) -> Made<ReplyKind<Why>>
    ensures too_long { LONGEST < length request.now
        → result ≡ Ok (ReplyKind.Unreadable Why.TooLong) }
    ensures no_text { ¬ IsUtf8 request.now → IsOkAnd result IsUnreadable }
    ensures no_words { length request.now ≤ LONGEST → words_of request.now ≡ []
        → result ≡ Ok ReplyKind.Nothing }
    ensures reply { Replies (IsReplyToLine request.now) text.old text.new result }
{
    if request.len() > LONGEST {
        return Ok(ReplyKind::Unreadable(Why::TooLong));
    }
    let Some(mut words) = Words::of(request) else {
        return Ok(ReplyKind::Unreadable(Why::NotUtf8));
    };
    let Ok(command) = words.next(Wanted::Command) else {
        return Ok(ReplyKind::Nothing);
    };
    write_reply_to(alloc, command, &mut words, text)
}

/// The kind of the reply to a command and the words behind it.
#[inline(always)]
fn write_reply_to(
    alloc: Global,
    command: &str,
    words: &mut Words,
    text: &mut String,
) -> Made<ReplyKind<Why>>
    ensures { Replies (IsReplyToWords (command.now ∷ words.old)) text.old text.new result }
{
    match write_answer(alloc, command, words, text) {
        Ok(kind) => Ok(ReplyKind::Answer(kind)),
        Err(Fail::Error(misfit)) => Ok(ReplyKind::Unreadable(Why::Word(Misread {
            misfit,
            taken: words.taken(),
        }))),
        Err(Fail::Memory(error)) => Err(error),
    }
}
