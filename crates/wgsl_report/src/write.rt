// How reports write what isn't a plain text or number.

use crate::lines::Place;
use crate::prelude::*;
use std::fmt;
use std::fmt::Write;

/// What writing returns: it fails only if memory runs out.
pub type Written = Result<(), AllocError>;

/// The inside of a JSON string.
#[derive(Clone, Copy)]
pub struct Escaped<'a>(pub &'a str);

/// A text whose control characters are written as blanks.
#[derive(Clone, Copy)]
pub struct Visible<'a>(pub &'a str);

/// The fields of JSON for a place.
#[derive(Clone, Copy)]
pub struct Fields(pub Place);

/// A number, or `null` in JSON.
#[derive(Clone, Copy)]
pub struct OrNull(pub Option<u32>);

/// A number between two texts, or nothing.
#[derive(Clone, Copy)]
pub struct IfKnown<'a>(pub &'a str, pub Option<u32>, pub &'a str);

impl fmt::Display for Escaped<'_> {
    fn fmt<W: Write>(&self, f: &mut fmt::Formatter<W>) -> fmt::Result {
        for letter in self.0.chars() {
            match letter {
                '"' => f.write_str("\\\"")?,
                '\\' => f.write_str("\\\\")?,
                '\0'..='\u{1f}' => {
                    let code = u32::from(letter);
                    write!(f, "\\u{code:04x}")?
                }
                _ => write!(f, "{letter}")?,
            }
        }
        Ok(())
    }
}

impl fmt::Display for Visible<'_> {
    fn fmt<W: Write>(&self, f: &mut fmt::Formatter<W>) -> fmt::Result {
        for letter in self.0.chars() {
            let shown = if letter.is_control() { ' ' } else { letter };
            write!(f, "{shown}")?;
        }
        Ok(())
    }
}

impl fmt::Display for Fields {
    fn fmt<W: Write>(&self, f: &mut fmt::Formatter<W>) -> fmt::Result {
        let Place {
            line,
            column,
            utf16_column,
        } = self.0;
        write!(
            f,
            r#""line":{line},"column":{column},"utf16Column":{utf16_column}"#
        )
    }
}

impl fmt::Display for OrNull {
    fn fmt<W: Write>(&self, f: &mut fmt::Formatter<W>) -> fmt::Result {
        match self.0 {
            Some(number) => write!(f, "{number}"),
            None => f.write_str("null"),
        }
    }
}

impl fmt::Display for IfKnown<'_> {
    fn fmt<W: Write>(&self, f: &mut fmt::Formatter<W>) -> fmt::Result {
        match self.1 {
            Some(number) => write!(f, "{}{number}{}", self.0, self.2),
            None => Ok(()),
        }
    }
}
