// The tokens of a text.
ghost use Rattle.std.specs.Prelude.{◌≡◌, ◌+◌, ◌-◌, ◌<◌, ◌≤◌, ◌^◌, IfOk, length};
ghost use Rattle.wgsl_reader.specs.Tokens.{mark_len, tokens_in, tokens_of};

use crate::bytes::from;
use crate::kind::Kind;
use crate::piece::{Piece, piece_of};
use std::alloc::{AllocError, Global};

/// A token.
#[derive(Clone, Copy)]
pub struct Token {
    /// What it is.
    pub kind: Kind,
    /// The index of its first byte.
    pub at: usize,
    /// How many bytes it has.
    pub len: usize,
}

/// The tokens of a text without its template lists, or the index of the byte where no token begins or of a block comment
/// that isn't closed.
pub fn tokens(alloc: Global, text: &[u8]) -> Result<Result<Vec<Token>, usize>, AllocError>
    ensures { IfOk result (λ found. tokens_in (λ v. v.items) found ≡ tokens_of text.now) }
{
    let mut tokens = Vec::with_capacity(alloc, text.len() / 4 + 16)?;
    let mut at = mark_len(text);
    while at < text.len() {
        match piece_of(from(at, text)) {
            Piece::Gap(len) => at = behind(at, len),
            Piece::Token(kind, len) => {
                tokens.push(Token { kind, at, len })?;
                at = behind(at, len);
            }
            Piece::OpenComment | Piece::Strange => return Ok(Err(at)),
        }
    }
    Ok(Ok(tokens))
}

/// The number of bytes of a byte order mark in front.
fn mark_len(text: &[u8]) -> usize
    ensures exact { result ≡ mark_len text.now }
    ensures within { result ≤ length text.now }
{
    match text {
        [0xef, 0xbb, 0xbf, ..] => 3,
        _ => 0,
    }
}

/// The index behind a piece that begins at `at`.
fn behind(at: usize, len: usize) -> usize
    requires { (at + len) + 1 < 2 ^ 64 }
    ensures { result ≡ at + 1 + (len - 1) }
{
    if len == 0 { at + 1 } else { at + len }
}
