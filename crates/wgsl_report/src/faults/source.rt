// A text that is checked.

use crate::lines::Lines;
use std::alloc::Global;
use wgsl_reader::token::Token;
use wgsl_source::text::Text;
use wgsl_typing::fault::Place;

/// A text with its tokens.
#[derive(Clone, Copy)]
pub struct Source<'a> {
    pub alloc: Global,
    /// The name of the text's file.
    pub file: &'a str,
    pub lines: &'a Lines<'a>,
    pub text: &'a str,
    pub tokens: &'a [Token],
    /// What counts elements when the pipeline is made, as it is written.
    pub counts: &'a [String],
}

impl<'a> Source<'a> {
    pub fn whole(self) -> Text<'a> {
        Text {
            text: self.text,
            tokens: self.tokens,
        }
    }

    /// The index of the first byte of something.
    pub fn start(self, place: Place) -> usize {
        match self.tokens.get(place.from) {
            Some(token) => token.at,
            None => self.text.len(),
        }
    }

    /// The index behind its last byte.
    pub fn end(self, place: Place) -> usize {
        let start = self.start(place);
        match self.tokens.get(place.to.saturating_sub(1)) {
            Some(token) => start.max(token.at.saturating_add(token.len)),
            None => start,
        }
    }
}
