// Blanks, comments and names.
ghost use Rattle.std.specs.Prelude.{◌≡◌, ◌+◌, ◌<◌, ◌≤◌, IfSome, drop, length};
ghost use Rattle.wgsl_reader.specs.Bytes.{byte_at};
ghost use Rattle.wgsl_reader.specs.Tokens.{block_len, breaks_line, is_blank, is_in_name, is_pair, line_len, more, name_len, wide_blank};

use crate::bytes::{byte_at, from, is_in_ascii_name};

pub fn is_blank(byte: u8) -> bool
    ensures { result ≡ is_blank byte }
{
    byte == b' ' || (b'\t' <= byte && byte <= b'\r')
}

/// The number of bytes of the blank beyond ASCII that begins so, if one does.
pub fn wide_blank(first: u8, second: u8, third: u8) -> Option<usize>
    ensures exact { result ≡ wide_blank first second third }
    ensures within { IfSome result (λ len. len ≤ 3) }
{
    if first == 0xc2 && second == 0x85 {
        Some(2)
    } else if first == 0xe2
        && second == 0x80
        && ((0x8e <= third && third <= 0x8f) || (0xa8 <= third && third <= 0xa9))
    {
        Some(3)
    } else {
        None
    }
}

fn breaks_line(first: u8, second: u8, third: u8) -> bool
    ensures { result ≡ breaks_line first second third }
{
    (b'\n' <= first && first <= b'\r')
        || (first == 0xc2 && second == 0x85)
        || (first == 0xe2 && second == 0x80 && (0xa8 <= third && third <= 0xa9))
}

/// Whether a name has a byte in it that begins so.
pub fn is_in_name(first: u8, second: u8, third: u8) -> bool
    ensures { result ≡ is_in_name first second third }
{
    is_in_ascii_name(first) || (0x80 <= first && wide_blank(first, second, third).is_none())
}

/// The number of bytes up to the end of the line.
pub fn line_len(bytes: &[u8]) -> usize
    ensures exact { result ≡ line_len bytes.now }
    ensures within { result ≤ length bytes.now }
{
    let mut at = 0;
    while at < bytes.len()
        && !breaks_line(
            bytes[at],
            byte_at(0, from(at + 1, bytes)),
            byte_at(1, from(at + 1, bytes)),
        )
    {
        at += 1;
    }
    at
}

/// Whether a name has the byte at an index in it.
fn is_in_name_at(at: usize, bytes: &[u8]) -> bool
    requires { at < length bytes.now }
    ensures { result ≡ is_in_name (byte_at at bytes.now) (byte_at 0 (drop (at + 1) bytes.now)) (byte_at 1 (drop (at + 1) bytes.now)) }
{
    let first = bytes[at];
    if first < 0x80 {
        return is_in_ascii_name(first);
    }
    let rest = from(at + 1, bytes);
    is_in_name(first, byte_at(0, rest), byte_at(1, rest))
}

/// The number of bytes up to the end of a name.
pub fn name_len(bytes: &[u8]) -> usize
    ensures exact { result ≡ name_len bytes.now }
    ensures within { result ≤ length bytes.now }
{
    let mut at = 0;
    while at < bytes.len() && is_in_name_at(at, bytes) {
        at += 1;
    }
    at
}

/// The number of bytes of a block comment, whose first two are its `/*`; None if it isn't closed.
pub fn block_len(bytes: &[u8]) -> Option<usize>
    requires { 2 ≤ length bytes.now }
    ensures exact { result ≡ more 2 (block_len 0 (drop 2 bytes.now)) }
    ensures within { IfSome result (λ len. len ≤ length bytes.now) }
{
    let mut at = 2;
    let mut opened: usize = 0;
    while at + 1 < bytes.len() {
        if is_pair(b'/', b'*', bytes[at], bytes[at + 1]) {
            opened += 1;
            at += 2;
        } else if is_pair(b'*', b'/', bytes[at], bytes[at + 1]) {
            if opened == 0 {
                return Some(at + 2);
            }
            opened -= 1;
            at += 2;
        } else {
            at += 1;
        }
    }
    None
}

/// Whether two bytes are these.
fn is_pair(a: u8, b: u8, first: u8, second: u8) -> bool
    ensures { result ≡ is_pair a b first second }
{
    first == a && second == b
}
