// Names that languages reserve and WGSL doesn't.

use wgsl_source::meant::has_word;

/// The names of C, of C++, and of the headers that the code includes.
const C_NAMES: &str = "\
NDEBUG and and_eq assert bitand bitor bool char char16_t char32_t char8_t compl double float int linux long max_align_t not \
not_eq nullptr_t offsetof or or_eq private ptrdiff_t short signed size_t typeof_unqual unix unsigned void wchar_t xor xor_eq";

/// The keywords of Rust, with the reserved ones.
const RUST_KEYWORDS: &str = "box dyn gen in ref";

/// Types and traits that the code in Rust uses.
const RUST_TYPES: &str = "\
Clone Copy Debug PartialEq bool char f128 f16 f32 f64 f8 i128 i16 i32 i64 i8 isize str u128 u16 u32 u64 u8 usize";

/// The keywords of Python, and the module that the code in it uses.
const PYTHON_NAMES: &str = "\
False None True and assert def del elif except global in is lambda nonlocal not numpy or raise";

/// The prefixes of the macros of `stdint.h`.
const C_MACRO_STARTS: &str = "INT UINT PTRDIFF_ SIG_ATOMIC_ SIZE_ WCHAR_ WINT_";

/// The suffixes of these macros.
const C_MACRO_ENDS: &str = "_C _MAX _MIN _WIDTH";

/// Whether a name is one of C, of C++ or of a header that the code includes.
pub fn is_c_name(name: &str) -> bool {
    has_word(C_NAMES, name) || is_c_integer(name) || is_c_macro(name)
}

/// Whether a name is kept for a type of `stdint.h`.
fn is_c_integer(name: &str) -> bool {
    name.ends_with("_t") && (name.starts_with("int") || name.starts_with("uint"))
}

fn is_c_macro(name: &str) -> bool {
    C_MACRO_STARTS
        .split_whitespace()
        .any(|start| name.starts_with(start))
        && C_MACRO_ENDS
            .split_whitespace()
            .any(|end| name.ends_with(end))
}

pub fn is_rust_keyword(name: &str) -> bool {
    has_word(RUST_KEYWORDS, name)
}

pub fn is_rust_type(name: &str) -> bool {
    has_word(RUST_TYPES, name)
}

pub fn is_python_name(name: &str) -> bool {
    has_word(PYTHON_NAMES, name)
}
