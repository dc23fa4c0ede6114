// The words of a request, consumed one after another.
ghost use Rattle.std.specs.Prelude.{◌≡◌, ◌<◌, ◌↔◌, [], IsTrue, IsUtf8, MatchOption, None, OnErr, OnOk, length, not};
ghost use Rattle.std.specs.List.{prefix_len};
ghost use Rattle.wgsl_replies.specs.words.Reader.{Gives, Reads, a_word, one, IsFirstWord, is_separator, words_of};
ghost use Rattle.wgsl_replies.specs.words.Names.{attribute, count, long, small};

use crate::words::number;
use crate::words::prelude::*;
use std::marker::Model;

/// The text of a request, and how many of its bytes were consumed.
#[derive(Drop)]
pub struct Words<'t> {
    text: &'t str,
    taken: usize,
}

impl<'t> Model for Words<'t> {
    ghost use Rattle.std.specs.Prelude.{ℕ, List};
    ghost use Rattle.wgsl_replies.specs.words.Left.{IsBetween, left};

    ghost Value = { List (List ℕ) };

    ghost view = { left };

    ghost invariant = { IsBetween };
}

impl<'t> Words<'t> {
    /// The words of a request, or `None` if it is not UTF-8.
    #[inline(always)]
    pub fn of(request: &'t [u8]) -> Option<Words<'t>>
        ensures { MatchOption result (¬ IsUtf8 request.now)
            (λ words. (words ≡ words_of request.now) × IsUtf8 request.now) }
    {
        match std::str::from_utf8(request) {
            Ok(text) => Some(Words { text, taken: 0 }),
            Err(_) => None,
        }
    }

    /// The next word. If none is left, the error is that what is expected is missing.
    pub fn next(&mut self, wanted: Wanted) -> Read<&'t str>
        ensures shorter { OnOk result (length self.new < length self.old) }
        ensures read { Reads (λ w. w.now) (a_word self.old) result self.new }
        ensures none { OnErr result (a_word self.old ≡ None) }
    {
        match first_word(&self.text[self.taken..]) {
            Some((word, len)) => {
                self.taken += len;
                Ok(word)
            }
            None => Err(Fail::Error(Misfit::Missing(wanted))),
        }
    }

    /// How many bytes were consumed.
    pub fn taken(&self) -> usize {
        self.taken
    }

    /// Whether every word is consumed.
    pub fn is_empty(&self) -> bool
        ensures { IsTrue result ↔ (self.now ≡ []) }
    {
        is_blank(&self.text[self.taken..])
    }

    /// A number of members.
    pub fn next_number(&mut self) -> Read<u64>
        ensures shorter { OnOk result (length self.new < length self.old) }
        ensures read { Reads (λ n. n) (one long self.old) result self.new }
    {
        wanted(number::long(self.next(Wanted::Members)?), Wanted::Members)
    }

    /// A number of components, columns or rows.
    #[inline(always)]
    pub fn next_small(&mut self, noun: Wanted) -> Read<u8>
        ensures shorter { OnOk result (length self.new < length self.old) }
        ensures read { Reads (λ n. n) (one small self.old) result self.new }
    {
        wanted(number::small(self.next(noun)?), noun)
    }

    /// A number of elements, or `*` if the array is runtime-sized.
    #[inline(always)]
    pub fn next_count(&mut self) -> Read<Option<usize>>
        ensures shorter { OnOk result (length self.new < length self.old) }
        ensures read { Reads (λ n. n) (one count self.old) result self.new }
    {
        let word = self.next(Wanted::Elements)?;
        wanted(number::count(word), Wanted::Elements)
    }

    /// An attribute of a member in bytes, or `-` if it has none.
    pub fn next_attribute(&mut self, noun: Wanted) -> Read<Option<u32>>
        ensures shorter { OnOk result (length self.new < length self.old) }
        ensures read { Reads (λ n. n) (one attribute self.old) result self.new }
    {
        wanted(number::attribute(self.next(noun)?), noun)
    }
}

/// What the last word means, or that it isn't what is expected.
#[inline(always)]
pub fn wanted<T>(meaning: Option<T>, noun: Wanted) -> Read<T>
    ensures { Gives (λ x. x) meaning result }
{
    match meaning {
        Some(value) => Ok(value),
        None => Err(Fail::Error(Misfit::Wrong(noun))),
    }
}

/// The first word of a text, and the index after it.
#[inline(always)]
pub fn first_word(text: &str) -> Option<(&str, usize)>
    ensures { IsFirstWord text.now result }
{
    let gap = gap_len(text.as_bytes());
    let rest = &text[gap..];
    if rest.is_empty() {
        return None;
    }
    let len = word_len(rest.as_bytes());
    Some((&rest[..len], gap + len))
}

/// Whether a text has no words.
fn is_blank(text: &str) -> bool
    ensures { IsTrue result ↔ (words_of text.now ≡ []) }
{
    gap_len(text.as_bytes()) == text.len()
}

/// How many separators the bytes begin with.
fn gap_len(bytes: &[u8]) -> usize
    ensures { result ≡ prefix_len is_separator bytes.now }
{
    let mut len = 0;
    for byte in bytes {
        if !is_separator(*byte) {
            return len;
        }
        len += 1;
    }
    len
}

/// How many bytes come before the first separator.
fn word_len(bytes: &[u8]) -> usize
    ensures { result ≡ prefix_len (λ byte. not (is_separator byte)) bytes.now }
{
    let mut len = 0;
    for byte in bytes {
        if is_separator(*byte) {
            return len;
        }
        len += 1;
    }
    len
}

/// Spaces, tabs and carriage returns separate words, and nothing else does.
pub fn is_separator(byte: u8) -> bool
    ensures { result ≡ is_separator byte }
{
    matches!(byte, b' ' | b'\t' | b'\r')
}
