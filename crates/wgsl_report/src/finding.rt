// Broken rules of address spaces, and what would fix them.

use crate::prelude::*;

/// A variable or a member of a struct, at an index of the text.
#[derive(Clone, Copy)]
pub struct Subject<'a> {
    pub at: usize,
    /// The struct, if it is a member.
    pub of: Option<&'a str>,
    pub name: &'a str,
    /// None if the rule is for every struct, or for the whole module.
    pub place: Option<Place>,
}

/// A rule that is broken.
#[derive(Clone, Copy)]
pub struct Finding<'a> {
    pub subject: Subject<'a>,
    pub trouble: Trouble,
    /// Whether `requires uniform_buffer_standard_layout;` lifts the rule here.
    pub is_lifted: bool,
}

/// Which rule is broken.
#[derive(Clone, Copy, Debug)]
pub enum Trouble {
    /// The offset of a member isn't a multiple of this alignment, which its type must have.
    Offset { offset: u32, align: u32 },
    /// The member after a struct begins before the end of this many bytes, which the struct must have.
    Behind { room: u32 },
    /// An attribute `align` is no multiple of this alignment.
    Align { align: u32 },
    /// An attribute `size` is below the size.
    Size,
    /// The elements of an array have this stride.
    Stride { stride: u32 },
    Bool,
    Atomic,
    /// An array in an address space where none stands.
    Array,
    RuntimeSized,
    /// A sampler or a texture with an address space.
    NoData,
    /// Data without an address space.
    NoHandle,
    NoBinding,
    NeedlessBinding,
}

impl Trouble {
    /// Writes what is wrong.
    fn write_wrong(self, output: &mut String) -> Written {
        let wrong = match self {
            Trouble::Offset { offset, .. } => return write!(output, "lies at {offset}"),
            Trouble::Behind { .. } => "is a struct behind which the next member begins too soon",
            Trouble::Align { .. } => "has an `@align` that does not suit its type",
            Trouble::Size => "has a `@size` below the size of its type",
            Trouble::Stride { stride } => {
                return write!(output, "has elements with the stride {stride}");
            }
            Trouble::Bool => "holds `bool`",
            Trouble::Atomic => "holds an atomic",
            Trouble::Array => "holds an array",
            Trouble::RuntimeSized => "is runtime-sized",
            Trouble::NoData => "is no data",
            Trouble::NoHandle => "is neither a sampler nor a texture",
            Trouble::NoBinding => "lacks `@group` or `@binding`",
            Trouble::NeedlessBinding => "has `@group` or `@binding`",
        };
        output.push_str(wrong)
    }

    /// Writes what would mend it.
    fn write_mending(self, output: &mut String) -> Written {
        let mending = match self {
            Trouble::Offset { align, .. } => return write!(output, "it needs `@align({align})`"),
            Trouble::Behind { room } => return write!(output, "it needs `@size({room})`"),
            Trouble::Align { align } => return write!(output, "it needs a multiple of {align}"),
            Trouble::Size => "it needs no less",
            Trouble::Stride { .. } => {
                "these lie a multiple of 16 bytes apart: use elements like `vec4<f32>`, or structs with a member of `@size(16)`"
            }
            Trouble::Bool => "it needs `u32`",
            Trouble::Atomic => "none may stand: use `workgroup`, or `storage` with `read_write`",
            Trouble::Array => "none may stand: use vectors, matrices or members",
            Trouble::RuntimeSized => "it needs a number of elements, or use `storage`",
            Trouble::NoData => "it can't stand: only data can",
            Trouble::NoHandle => "it can't stand: use `var<uniform>` or `var<storage>`",
            Trouble::NoBinding => "it needs both",
            Trouble::NeedlessBinding => "it has no use for them",
        };
        output.push_str(mending)
    }
}

impl<'a> Finding<'a> {
    /// Writes the message.
    pub fn write_to(&self, output: &mut String) -> Written {
        let Subject {
            of,
            name,
            place,
            ..
        } = self.subject;
        match of {
            Some(of) => write!(output, "`{of}.{name}` ")?,
            None => write!(output, "`{name}` ")?,
        }
        self.trouble.write_wrong(output)?;
        match place {
            Some(place) => {
                let place = place.text();
                write!(output, "; in `{place}` ")?
            }
            None => output.push_str("; ")?,
        }
        self.trouble.write_mending(output)?;
        output.push_str(if self.is_lifted {
            " (`requires uniform_buffer_standard_layout;` lifts this rule)"
        } else {
            ""
        })
    }
}
