// A text and its tokens.
ghost use Rattle.std.specs.Prelude.{◌≡◌};
ghost use Rattle.wgsl_source.specs.Declarations.{end, token, token_before};
ghost use Rattle.wgsl_spelling.specs.Words.{word};

use crate::fault::Cause;
use std::alloc::{AllocError, Global};
use wgsl_reader::kind::Kind;
use wgsl_reader::lists::{tokens_of, with_lists};
use wgsl_reader::token::{self, Token};
use wgsl_spelling::word::word;

/// A text and its tokens.
#[derive(Clone, Copy)]
pub struct Text<'t> {
    pub text: &'t str,
    /// The tokens, as `tokens` gives them.
    pub tokens: &'t [Token],
}

impl<'t> Text<'t> {
    /// The last of that many tokens; if there is none, the end of the text.
    pub fn token_before(self, count: usize) -> Token
        ensures { result ≡ token_before self.entry count }
    {
        match count.checked_sub(1) {
            Some(index) => self.token(index),
            None => self.end(),
        }
    }

    /// The token at an index, or the end of the text.
    pub fn token(self, index: usize) -> Token
        ensures { result ≡ token self.entry index }
    {
        match self.tokens.get(index) {
            Some(token) => *token,
            None => self.end(),
        }
    }

    fn end(self) -> Token
        ensures { result ≡ end self.entry }
    {
        Token {
            kind: Kind::End,
            at: self.text.len(),
            len: 0,
        }
    }

    /// Why a token is none of WGSL's, if it stands where none begins.
    pub fn strange(self, token: Token) -> Option<Cause> {
        if token.kind != Kind::Reserved {
            return None;
        }
        match self.text.as_bytes().get(token.at)? {
            b'/' => Some(Cause::OpenComment),
            b'a'..=b'z' | b'A'..=b'Z' | b'_' | 0x80.. => None,
            _ => Some(Cause::Strange),
        }
    }

    /// The index behind the token that begins at an index; the index itself if none does.
    pub fn end_of_token(self, at: usize) -> usize {
        let index = self.tokens.partition_point(|token| token.at < at);
        let token = self.token(index);
        if token.at == at {
            at.saturating_add(token.len)
        } else {
            at
        }
    }

    /// The text of a token.
    pub fn word(self, token: Token) -> &'t str
        ensures { result.now ≡ word self.entry.text.now token }
    {
        word(self.text, token)
    }
}

/// Whether a byte order mark stands in front of the text.
pub fn has_byte_order_mark(text: &[u8]) -> bool {
    matches!(text, [0xef, 0xbb, 0xbf, ..])
}

/// The tokens of a text with their template lists. A byte order mark in front of it is skipped. Where no token begins, and where
/// a block comment begins that isn't closed, there is one that no rule of the grammar takes.
pub fn tokens(alloc: Global, text: &[u8]) -> Result<Vec<Token>, AllocError> {
    match tokens_of(alloc, text)? {
        Ok(tokens) => Ok(tokens),
        Err(_) => {
            let tokens = all_tokens(alloc, text)?;
            with_lists(alloc, &tokens)
        }
    }
}

fn all_tokens(alloc: Global, text: &[u8]) -> Result<Vec<Token>, AllocError> {
    let mut all = Vec::new(alloc);
    let mut from: usize = 0;
    for _ in 0..text.len() {
        let Some(rest @ [_, ..]) = text.get(from..) else {
            break;
        };
        let len = match token::tokens(alloc, rest)? {
            Ok(_) => rest.len(),
            Err(len) => len,
        };
        if let Ok(tokens) = token::tokens(alloc, rest.get(..len).unwrap_or(rest))? {
            push_all(&mut all, from, &tokens)?;
        }
        from = from.saturating_add(len);
        if let Some(first) = text.get(from) {
            let strange = Token {
                kind: Kind::Reserved,
                at: from,
                len: if *first == b'/' {
                    text.len().saturating_sub(from)
                } else {
                    1
                },
            };
            all.push(strange)?;
            from = from.saturating_add(strange.len);
        }
    }
    Ok(all)
}

/// Adds the tokens of a part of the text that begins at an index.
fn push_all(all: &mut Vec<Token>, from: usize, tokens: &[Token]) -> Result<(), AllocError> {
    for token in tokens {
        all.push(Token {
            kind: token.kind,
            at: from.saturating_add(token.at),
            len: token.len,
        })?;
    }
    Ok(())
}
