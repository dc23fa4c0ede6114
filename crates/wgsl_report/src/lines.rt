// Lines and columns of a text.

use crate::prelude::*;

/// Where the lines of a text begin and end (WGSL, "Blankspace and Line Breaks").
#[derive(Drop)]
pub struct Lines<'a> {
    text: &'a [u8],
    /// The index of the first byte of each line after the first.
    starts: Vec<usize>,
    /// The characters beyond ASCII.
    wide: Vec<Wide>,
}

/// A character beyond ASCII.
#[derive(Clone, Copy)]
struct Wide {
    /// The index of its first byte.
    at: usize,
    /// How many more bytes than units of UTF-16 the text has up to the end of this character.
    excess: usize,
}

/// A line, and a column in bytes and in units of UTF-16, from 1.
#[derive(Clone, Copy)]
pub struct Place {
    /// The line, from 1.
    pub line: usize,
    /// The column in bytes, from 1.
    pub column: usize,
    /// The column in units of UTF-16, from 1.
    pub utf16_column: usize,
}

impl<'a> Lines<'a> {
    /// The lines of a text.
    pub fn of(alloc: Global, text: &'a [u8]) -> Result<Lines<'a>, AllocError> {
        let mut starts = Vec::new(alloc);
        let mut wide = Vec::new(alloc);
        let mut excess = 0usize;
        for (at, byte) in text.iter().enumerate() {
            if ends_line(text, at, *byte) {
                starts.push(at.saturating_add(1))?;
            }
            if *byte >= 0xC0 {
                excess = excess.saturating_add(if *byte < 0xE0 { 1 } else { 2 });
                wide.push(Wide { at, excess })?;
            }
        }
        Ok(Lines { text, starts, wide })
    }

    /// The line and the columns of an index.
    pub fn place(&self, at: usize) -> Place {
        let before = self.starts.partition_point(|start| *start <= at);
        let start = self.start(before);
        let column = at.saturating_sub(start);
        let excess = self.excess(at).saturating_sub(self.excess(start));
        Place {
            line: before.saturating_add(1),
            column: column.saturating_add(1),
            utf16_column: column.saturating_sub(excess).saturating_add(1),
        }
    }

    /// The bytes of a line, counted from 1, without the line break.
    pub fn line(&self, line: usize) -> &'a [u8] {
        let start = self.start(line.saturating_sub(1));
        let end = self.starts.get(line.saturating_sub(1)).copied();
        let line = match self.text.get(start..end.unwrap_or(self.text.len())) {
            Some(line) => line,
            None => &[],
        };
        without_break(line)
    }

    /// The start of the line that has this many lines before it.
    fn start(&self, before: usize) -> usize {
        match before.checked_sub(1) {
            Some(index) => self.starts.get(index).copied().unwrap_or(0),
            None => 0,
        }
    }

    /// How many more bytes than units of UTF-16 stand in front of an index.
    fn excess(&self, at: usize) -> usize {
        let before = self.wide.partition_point(|wide| wide.at < at);
        match before.checked_sub(1) {
            Some(index) => self.wide.get(index).map_or(0, |wide| wide.excess),
            None => 0,
        }
    }
}

/// Whether a byte is the last one of a line break.
fn ends_line(text: &[u8], at: usize, byte: u8) -> bool {
    match byte {
        b'\n' | 0x0B | 0x0C => true,
        b'\r' => text.get(at.saturating_add(1)) != Some(&b'\n'),
        0x85 => text
            .get(..at)
            .is_some_and(|before| before.ends_with(&[0xC2])),
        0xA8 | 0xA9 => text
            .get(..at)
            .is_some_and(|before| before.ends_with(&[0xE2, 0x80])),
        _ => false,
    }
}

/// A line without the line break at its end.
fn without_break(line: &[u8]) -> &[u8] {
    match line {
        [line @ .., b'\r', b'\n']
        | [line @ .., 0xC2, 0x85]
        | [line @ .., 0xE2, 0x80, 0xA8 | 0xA9]
        | [line @ .., b'\n' | 0x0B | 0x0C | b'\r'] => line,
        _ => line,
    }
}
