// Replies to requests.
ghost use Rattle.std.specs.Prelude.{◌≡◌};
ghost use Rattle.wgsl_requests.specs.Replies as replies;

use std::alloc::AllocError;

/// What was made, unless memory ran out.
pub type Made<T> = Result<T, AllocError>;

/// How many bytes a request may have.
pub const LONGEST: usize = 4096;

/// What kind of text answers a request.
#[derive(Clone, Copy)]
pub enum TextKind {
    Answer,
    /// The message by which the rules refuse an expression.
    Refusal,
}

/// The kind of a reply; a request that can't be read has a reason for that.
#[derive(Clone, Copy)]
pub enum ReplyKind<W> {
    Nothing,
    Answer(TextKind),
    Unreadable(W),
}

/// Whether one of the bytes is a line feed.
pub fn has_line_feed(bytes: &[u8]) -> bool
    ensures { result ≡ replies.has_line_feed bytes.now }
{
    bytes.iter().any(|byte| is_line_feed(*byte))
}

fn is_line_feed(byte: u8) -> bool
    ensures { result ≡ replies.is_line_feed byte }
{
    byte == b'\n'
}
