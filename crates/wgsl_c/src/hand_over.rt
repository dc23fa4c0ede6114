// How a reply is returned to C.
ghost use Rattle.std.specs.Prelude.{◌≡◌};
ghost use Rattle.wgsl_c.specs.HandOver.{IsHandedOver, IsWritten, status_of};

use std::alloc::AllocError;
use wgsl_replies::request::{Reply, TextKind};

/// The request can't be read; or, when an explanation is wanted, it can be read.
const UNREADABLE: u8 = 2;

/// Out of memory.
const OUT_OF_MEMORY: u8 = 3;

/// The text is longer than the buffer.
const NO_ROOM: u8 = 4;

/// Writes the text of a reply if there is room for it, sets its length, and returns the status.
pub fn hand_over(reply: &Result<Reply, AllocError>, buffer: &mut [u8], text_len: &mut usize) -> u8
    ensures { IsHandedOver reply.now buffer.old buffer.new text_len.new result }
{
    match reply {
        Ok(Reply::Answer(kind, text)) => {
            hand_over_bytes(status_of(*kind), text.as_bytes(), buffer, text_len)
        }
        Ok(Reply::Nothing | Reply::Unreadable) => {
            *text_len = 0;
            UNREADABLE
        }
        Err(_) => {
            *text_len = 0;
            OUT_OF_MEMORY
        }
    }
}

/// The status of a text that is written.
fn status_of(kind: TextKind) -> u8
    ensures { result ≡ status_of kind }
{
    match kind {
        TextKind::Answer => 0,
        TextKind::Refusal => 1,
    }
}

/// Writes bytes at the start of the buffer if there is room for them, sets the length, and returns the status.
fn hand_over_bytes(status: u8, bytes: &[u8], buffer: &mut [u8], len: &mut usize) -> u8
    ensures { IsWritten status bytes.now buffer.old buffer.new len.new result }
{
    *len = bytes.len();
    if buffer.len() < bytes.len() {
        return NO_ROOM;
    }
    buffer[..bytes.len()].copy_from_slice(bytes);
    status
}
