// Distinct names that another language allows.

use crate::forms::reserved::{is_c_name, is_python_name, is_rust_keyword, is_rust_type};
use crate::forms::settled::is_settled;
use crate::prelude::*;

#[derive(Clone, Copy, PartialEq, Eq)]
pub enum Language {
    C,
    Rust,
    Python,
}

impl Language {
    /// The type of a scalar, for Python that of numpy. A `bool` is 4 bytes, an `f16` is 2.
    pub fn scalar_name(self, scalar: Scalar) -> &'static str {
        let (c, rust, numpy) = match scalar {
            Scalar::I32 | Scalar::AbstractInt => ("int32_t", "i32", "<i4"),
            Scalar::Bool | Scalar::U32 => ("uint32_t", "u32", "<u4"),
            Scalar::F32 | Scalar::AbstractFloat => ("float", "f32", "<f4"),
            Scalar::F16 => ("uint16_t", "u16", "<f2"),
            Scalar::I64 => ("int64_t", "i64", "<i8"),
            Scalar::U64 => ("uint64_t", "u64", "<u8"),
            Scalar::F64 => ("double", "f64", "<f8"),
        };
        match self {
            Language::C => c,
            Language::Rust => rust,
            Language::Python => numpy,
        }
    }
}

/// What a name is for.
#[derive(Clone, Copy, PartialEq, Eq)]
pub enum Role {
    Struct,
    Field,
}

/// The names of a module as another language has them.
#[derive(Drop)]
pub struct Names {
    /// In the order of the names.
    spelled: Vec<String>,
    taken: BTreeSet<String>,
}

impl Names {
    /// Distinct names for distinct names. A name that the language allows stays. Another one is changed, and gets a `_`
    /// at its end as often as the result is taken.
    pub fn new(
        alloc: Global,
        language: Language,
        role: Role,
        names: &[&str],
    ) -> Result<Names, AllocError> {
        let mut spelled = Vec::new(alloc);
        let mut taken = BTreeSet::new(alloc);
        for name in names {
            let new = spelling(alloc, language, role, name)?;
            if new.as_str() == *name {
                taken.insert(String::from_str(alloc, name)?)?;
            }
            spelled.push(new)?;
        }
        let mut all = Names { spelled, taken };
        all.tell_apart(alloc, names)?;
        Ok(all)
    }

    fn tell_apart(&mut self, alloc: Global, names: &[&str]) -> Written {
        for (index, name) in names.iter().enumerate() {
            if let Some(new) = self.spelled.get_mut(index) {
                if new.as_str() != *name {
                    take(alloc, &mut self.taken, new)?;
                }
            }
        }
        Ok(())
    }

    /// The new name for the name at this index.
    pub fn get(&self, index: usize) -> &str {
        match self.spelled.get(index) {
            Some(name) => name.as_str(),
            None => "",
        }
    }

    /// A new name that begins with `start`.
    pub fn add(&mut self, alloc: Global, start: String) -> Result<String, AllocError> {
        let mut name = start;
        take(alloc, &mut self.taken, &mut name)?;
        Ok(name)
    }
}

/// Appends `_` to a name until it isn't taken, and takes it.
fn take(alloc: Global, taken: &mut BTreeSet<String>, name: &mut String) -> Written {
    for _ in 0..taken.len() {
        if !taken.contains(name.as_str()) {
            break;
        }
        name.push('_')?;
    }
    taken.insert(String::from_str(alloc, name.as_str())?)?;
    Ok(())
}

/// The new name for a name, before it is compared with the others.
fn spelling(
    alloc: Global,
    language: Language,
    role: Role,
    name: &str,
) -> Result<String, AllocError> {
    let mut new = String::new(alloc);
    if language == Language::Rust && is_rust_keyword(name) {
        new.push_str("r#")?;
    }
    if language == Language::C {
        push_unreserved(&mut new, role, name)?;
    } else {
        push_settled(&mut new, name)?;
    }
    if is_kept(language, role, name) {
        new.push('_')?;
    }
    Ok(new)
}

/// Whether a language reserves a name.
fn is_kept(language: Language, role: Role, name: &str) -> bool {
    match (language, role) {
        (Language::C, _) => is_c_name(name),
        (Language::Rust, Role::Field) => false,
        (Language::Rust, Role::Struct) => is_rust_type(name),
        (Language::Python, _) => is_python_name(name),
    }
}

/// Adds a name. A character that a normalization might change or combine with others is written as its code. So two
/// names that normalize to the same name stay distinct.
fn push_settled(output: &mut String, name: &str) -> Written {
    for letter in name.chars() {
        push_letter(output, letter)?;
    }
    Ok(())
}

fn push_letter(output: &mut String, letter: char) -> Written {
    if is_settled(letter) {
        output.push(letter)
    } else {
        let code = u32::from(letter);
        write!(output, "u{code:04X}")
    }
}

/// Adds a name as `push_settled` does, with an `x` in front of each `_` for which C or C++ reserves it: a second one in a
/// row, and a first letter that a capital follows, or that begins the name of a struct.
fn push_unreserved(output: &mut String, role: Role, name: &str) -> Written {
    let mut is_reserved = match name.as_bytes() {
        [b'_', b'A'..=b'Z', ..] => true,
        _ => role == Role::Struct,
    };
    for letter in name.chars() {
        if is_reserved && letter == '_' {
            output.push('x')?;
        }
        push_letter(output, letter)?;
        is_reserved = letter == '_';
    }
    Ok(())
}
