// Structs as code of other languages, with their padding written out.

pub mod fields;
pub mod names;
pub mod numpy;
mod reserved;
mod settled;
pub mod structs;
pub mod typescript;
