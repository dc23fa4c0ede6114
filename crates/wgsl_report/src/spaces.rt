// What an address space requires of the layout of its variables.

pub mod content;
pub mod laws;
pub mod layout;
