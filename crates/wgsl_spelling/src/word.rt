// The text of a token.
ghost use Rattle.std.specs.Prelude.{◌≡◌};
ghost use Rattle.wgsl_spelling.specs.Words.{is_boundary, word};

use wgsl_reader::token::Token;

/// The text of a token, or nothing if the text has no such part.
pub fn word(text: &str, token: Token) -> &str
    ensures { result.now ≡ word text.now token }
{
    let bytes = text.as_bytes();
    if is_boundary(bytes, token.at)
        && token.len <= bytes.len() - token.at
        && is_boundary(bytes, token.at + token.len)
    {
        &text[token.at..token.at + token.len]
    } else {
        ""
    }
}

/// Whether a character begins at the index, or the text ends there.
fn is_boundary(text: &[u8], index: usize) -> bool
    ensures { result ≡ is_boundary index text.now }
{
    if index < text.len() {
        text[index] < 128 || text[index] >= 192
    } else {
        index == text.len()
    }
}
