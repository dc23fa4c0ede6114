// Bytes of a text.
ghost use Rattle.std.specs.Prelude.{◌≡◌, ◌≤◌, ◌-◌, drop, length};
ghost use Rattle.wgsl_reader.specs.Bytes.{byte_at, is_digit, is_in_ascii_name};

/// A byte, or 0, with which nothing begins.
pub fn byte_at(index: usize, bytes: &[u8]) -> u8
    ensures { result ≡ byte_at index bytes.now }
{
    match bytes.get(index) {
        Some(byte) => *byte,
        None => 0,
    }
}

/// The items from an index on.
pub fn from<T>(index: usize, items: &[T]) -> &[T]
    requires { index ≤ length items.now }
    ensures rest { result.now ≡ drop index items.now }
    ensures left { length result.now ≡ length items.now - index }
{
    &items[index..]
}

pub fn is_digit(byte: u8) -> bool
    ensures { result ≡ is_digit byte }
{
    b'0' <= byte && byte <= b'9'
}

/// Whether the byte is a letter, a digit or `_`.
pub fn is_in_ascii_name(byte: u8) -> bool
    ensures { result ≡ is_in_ascii_name byte }
{
    matches!(byte, b'a'..=b'z' | b'0'..=b'9' | b'A'..=b'Z' | b'_')
}
