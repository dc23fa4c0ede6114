// Keywords and reserved words.
ghost use Rattle.std.specs.Prelude.{◌≡◌, map};
ghost use Rattle.wgsl_reader.specs.Words.{entry_of, kind_in, kind_listed, row_of, word_of, words};

use crate::bytes::byte_at;
use crate::kind::Kind;

macro_rules! words {
    ($($first:literal { $($kind:ident $($word:literal)+;)+ })+) => {
        &[$(($first, &[$($(($word, Kind::$kind)),+),+])),+]
    };
}

/// The words that can't be names, by their first byte.
pub static WORDS: &[(u8, &[(&str, Kind)])] = words! {
    b'N' { Reserved "NULL"; }
    b'S' { Reserved "Self"; }
    b'_' { Underscore "_"; }
    b'a' {
        Alias "alias";
        Reserved "abstract" "active" "alignas" "alignof" "as" "asm" "asm_fragment" "async"
            "attribute" "auto" "await";
    }
    b'b' { Break "break"; Reserved "become"; }
    b'c' {
        Case "case"; Const "const"; ConstAssert "const_assert"; Continue "continue";
        Continuing "continuing";
        Reserved "cast" "catch" "class" "co_await" "co_return" "co_yield" "coherent" "column_major"
            "common" "compile" "compile_fragment" "concept" "const_cast" "consteval" "constexpr"
            "constinit" "crate";
    }
    b'd' {
        Default "default"; Diagnostic "diagnostic"; Discard "discard";
        Reserved "debugger" "decltype" "delete" "demote" "demote_to_helper" "do" "dynamic_cast";
    }
    b'e' {
        Else "else"; Enable "enable";
        Reserved "enum" "explicit" "export" "extends" "extern" "external";
    }
    b'f' {
        False "false"; Fn "fn"; For "for";
        Reserved "fallthrough" "filter" "final" "finally" "friend" "from" "fxgroup";
    }
    b'g' { Reserved "get" "goto" "groupshared"; }
    b'h' { Reserved "highp"; }
    b'i' { If "if"; Reserved "impl" "implements" "import" "inline" "instanceof" "interface"; }
    b'l' { Let "let"; Loop "loop"; Reserved "layout" "lowp"; }
    b'm' {
        Reserved "macro" "macro_rules" "match" "mediump" "meta" "mod" "module" "move" "mut"
            "mutable";
    }
    b'n' {
        Reserved "namespace" "new" "nil" "noexcept" "noinline" "nointerpolation" "non_coherent"
            "noncoherent" "noperspective" "null" "nullptr";
    }
    b'o' { Override "override"; Reserved "of" "operator"; }
    b'p' {
        Reserved "package" "packoffset" "pass" "patch" "pixelfragment" "precise" "precision"
            "premerge" "priv" "protected" "pub" "public";
    }
    b'r' {
        Requires "requires"; Return "return";
        Reserved "readonly" "regardless" "register" "reinterpret_cast" "require" "resource"
            "restrict";
    }
    b's' {
        Struct "struct"; Switch "switch";
        Reserved "self" "set" "shared" "sizeof" "smooth" "snorm" "static" "static_assert"
            "static_cast" "std" "subroutine" "super";
    }
    b't' {
        Reserved "type";
        True "true";
        Reserved "target" "template" "this" "thread_local" "throw" "trait" "try" "typedef" "typeid"
            "typename" "typeof";
    }
    b'u' { Reserved "union" "unless" "unorm" "unsafe" "unsized" "use" "using"; }
    b'v' { Var "var"; Reserved "varying" "virtual" "volatile"; }
    b'w' { While "while"; Reserved "wgsl" "where" "with" "writeonly"; }
    b'y' { Reserved "yield"; }
};

#[tactic(auto, unfolding(crate::specs::Words::words))]
fn words() -> &'static [(u8, &'static [(&'static str, Kind)])]
    ensures { map row_of result.now ≡ words }
{
    WORDS
}

/// What a word is: a keyword, a reserved word, or else a name.
pub fn word_of(word: &[u8]) -> Kind
    ensures { result ≡ word_of word.now }
{
    let first = byte_at(0, word);
    if first == b'_' && byte_at(1, word) == b'_' {
        Kind::Reserved
    } else {
        kind_in(word, first, words())
    }
}

/// The kind of a word with this first byte.
fn kind_in(word: &[u8], first: u8, rows: &[(u8, &[(&str, Kind)])]) -> Kind
    ensures { result ≡ kind_in word.now first (map row_of rows.now) }
{
    for (of, words) in rows {
        if first == *of {
            return kind_listed(word, words);
        }
    }
    Kind::Name
}

fn kind_listed(word: &[u8], words: &[(&str, Kind)]) -> Kind
    ensures { result ≡ kind_listed word.now (map entry_of words.now) }
{
    for (listed, kind) in words {
        if word == listed.as_bytes() {
            return *kind;
        }
    }
    Kind::Name
}
