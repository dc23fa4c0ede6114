// Signs.
ghost use Rattle.std.specs.Prelude.{◌≡◌, ◌≤◌, IfSome};
ghost use Rattle.wgsl_reader.specs.Signs.{assigned, compared, doubled, less, minus, sign_of, single};

use crate::kind::Kind;

/// The longest sign that begins with these bytes, and how many bytes it has.
pub fn sign_of(first: u8, second: u8, third: u8) -> Option<(Kind, usize)>
    ensures exact { result ≡ sign_of first second third }
    ensures within { IfSome result (λ found. found.1 ≤ 3) }
{
    match first {
        b'&' => doubled(Kind::And, Kind::AndAnd, first, second),
        b'|' => doubled(Kind::Or, Kind::OrOr, first, second),
        b'+' => assigned(Kind::Plus, second),
        b'-' => minus(second),
        b'*' => assigned(Kind::Star, second),
        b'/' => assigned(Kind::Slash, second),
        b'%' => assigned(Kind::Percent, second),
        b'^' => assigned(Kind::Xor, second),
        b'=' => compared(Kind::Equal, Kind::EqualEqual, second),
        b'!' => compared(Kind::Bang, Kind::NotEqual, second),
        b'<' => less(second, third),
        b'>' => Some((Kind::Greater, 1)),
        _ => single(first),
    }
}

fn single(first: u8) -> Option<(Kind, usize)>
    ensures exact { result ≡ single first }
    ensures within { IfSome result (λ found. found.1 ≤ 3) }
{
    match first {
        b'(' => Some((Kind::OpenRound, 1)),
        b')' => Some((Kind::CloseRound, 1)),
        b'[' => Some((Kind::OpenSquare, 1)),
        b']' => Some((Kind::CloseSquare, 1)),
        b'{' => Some((Kind::OpenCurly, 1)),
        b'}' => Some((Kind::CloseCurly, 1)),
        b'@' => Some((Kind::At, 1)),
        b',' => Some((Kind::Comma, 1)),
        b';' => Some((Kind::Semicolon, 1)),
        b':' => Some((Kind::Colon, 1)),
        b'.' => Some((Kind::Period, 1)),
        b'~' => Some((Kind::Tilde, 1)),
        _ => None,
    }
}

fn assigned(kind: Kind, second: u8) -> Option<(Kind, usize)>
    ensures exact { result ≡ assigned kind second }
    ensures within { IfSome result (λ found. found.1 ≤ 3) }
{
    if second == b'=' {
        Some((Kind::OperatorEqual, 2))
    } else {
        Some((kind, 1))
    }
}

fn doubled(kind: Kind, twice: Kind, first: u8, second: u8) -> Option<(Kind, usize)>
    ensures exact { result ≡ doubled kind twice first second }
    ensures within { IfSome result (λ found. found.1 ≤ 3) }
{
    if second == first {
        Some((twice, 2))
    } else {
        assigned(kind, second)
    }
}

fn compared(kind: Kind, equal: Kind, second: u8) -> Option<(Kind, usize)>
    ensures exact { result ≡ compared kind equal second }
    ensures within { IfSome result (λ found. found.1 ≤ 3) }
{
    if second == b'=' {
        Some((equal, 2))
    } else {
        Some((kind, 1))
    }
}

fn minus(second: u8) -> Option<(Kind, usize)>
    ensures exact { result ≡ minus second }
    ensures within { IfSome result (λ found. found.1 ≤ 3) }
{
    if second == b'>' {
        Some((Kind::Arrow, 2))
    } else {
        assigned(Kind::Minus, second)
    }
}

fn less(second: u8, third: u8) -> Option<(Kind, usize)>
    ensures exact { result ≡ less second third }
    ensures within { IfSome result (λ found. found.1 ≤ 3) }
{
    if second != b'<' {
        compared(Kind::Less, Kind::LessEqual, second)
    } else if third == b'=' {
        Some((Kind::OperatorEqual, 3))
    } else {
        Some((Kind::ShiftLeft, 2))
    }
}
