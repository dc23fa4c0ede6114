// Writes the word that a message is about.
use crate::reply::Made;

/// How many bytes of a word are written.
pub const SHOWN: usize = 40;

/// Writes a word between backticks: its first bytes, and `..` if there are more.
pub fn write_word(word: &str, text: &mut String) -> Made<()> {
    text.push('`')?;
    for byte in word.as_bytes().iter().take(SHOWN) {
        write_byte(*byte, text)?;
    }
    if word.len() > SHOWN {
        text.push_str("..")?;
    }
    text.push('`')
}

/// Writes a byte as itself, if it can be printed and is ASCII, else by its number.
fn write_byte(byte: u8, text: &mut String) -> Made<()> {
    if byte.is_ascii_graphic() && byte != b'\\' {
        text.push(char::from(byte))
    } else {
        write!(text, "\\x{byte:02x}")
    }
}
