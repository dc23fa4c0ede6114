// What is known of the attributes that stand in the text (WGSL, "Attributes"). Only tested.

pub use wgsl_source::attribute::{Name, Owner, attribute_named};

/// An attribute of the text.
#[derive(Clone, Copy)]
pub struct Attribute {
    pub name: Name,
    /// How many tokens there are up to its name.
    pub named: usize,
    /// The integer in its brackets, if its value is computed.
    pub integer: Option<i64>,
    /// The first name in its brackets, by the number of tokens up to it.
    pub word: Option<usize>,
}

/// The attributes of something: those of the checker's list from one index up to another.
#[derive(Clone, Copy)]
pub struct Attributes {
    pub from: usize,
    pub to: usize,
    /// Whether none has a fault: those that have one aren't in the list.
    pub are_fine: bool,
    /// Whether one of them is that of a stage, perhaps with a fault, or unknown.
    pub have_stage: bool,
}

impl Attributes {
    /// None, behind that many others.
    pub fn none(count: usize) -> Attributes {
        Attributes {
            from: count,
            to: count,
            are_fine: true,
            have_stage: false,
        }
    }
}
