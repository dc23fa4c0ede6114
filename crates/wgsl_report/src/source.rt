// A text whose module is read, and which of its structs to report on.

use crate::prelude::*;

/// A text whose module is read, and which of its structs to report on.
#[derive(Clone, Copy)]
pub struct Source<'a> {
    pub alloc: Global,
    /// The name of the text's file.
    pub file: &'a str,
    pub lines: &'a Lines<'a>,
    pub module: &'a Module<'a>,
    pub messages: &'a [Message],
    /// Whether all structs are to be written, since none is asked for by name.
    pub has_all: bool,
    /// For each struct, whether it is asked for, or is inside one that is.
    pub is_chosen: &'a [bool],
}

impl<'a> Source<'a> {
    /// The struct with this index, if it is to be written.
    pub fn chosen(self, index: usize) -> Option<&'a Struct<'a>> {
        match self.is_chosen.get(index) {
            Some(true) => self.module.structs.get(index),
            _ => None,
        }
    }
}
