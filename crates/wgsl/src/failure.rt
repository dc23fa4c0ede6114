// Why the program ends before it is done.

use std::alloc::{AllocError, AllocFailed};
use std::fmt;

#[derive(Drop)]
pub enum Failure {
    Memory,
    /// Standard input can't be read.
    Input,
    /// The output can't be written, for this reason.
    Output(String),
}

impl fmt::Display for Failure {
    fn fmt<W: fmt::Write>(&self, f: &mut fmt::Formatter<W>) -> fmt::Result {
        match self {
            Failure::Memory => f.write_str("out of memory"),
            Failure::Input => f.write_str("standard input can't be read"),
            Failure::Output(reason) => write!(f, "the output can't be written: {reason}"),
        }
    }
}

impl From<AllocError> for Failure {
    fn from(_e: AllocError) -> Failure {
        Failure::Memory
    }
}

impl<T: Drop> From<AllocFailed<T>> for Failure {
    fn from(_e: AllocFailed<T>) -> Failure {
        Failure::Memory
    }
}
