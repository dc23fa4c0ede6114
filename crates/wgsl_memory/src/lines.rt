// The lines of the program, each of a call's name and what it answered.
use std::alloc::Global;
use std::fmt::Write as _;
use std::io::Write;
use std::{fmt, io};
use wgsl_types::builtin::Candidate;

/// The allocator for the calls, and the output for their lines. Printing doesn't allocate.
#[derive(Drop)]
pub struct Lines<W> {
    pub alloc: Global,
    pub output: W,
    /// Whether every line was written.
    pub is_whole: bool,
}

impl<W: Write> Lines<W> {
    /// Notes whether a line was written.
    fn note(&mut self, written: io::Result<()>) {
        self.is_whole &= written.is_ok();
    }

    /// A call that answers a value.
    pub fn value<T, E>(&mut self, name: &str, answer: Result<T, E>)
    where
        T: fmt::Display + Drop,
        E: fmt::Display + Drop,
    {
        let written = match answer {
            Ok(value) => writeln!(self.output, "{name}: {value}"),
            Err(refusal) => writeln!(self.output, "{name}: {refusal}"),
        };
        self.note(written);
    }

    /// A call that answers a value or `None`.
    pub fn option<T, E>(&mut self, name: &str, answer: Result<Option<T>, E>)
    where
        T: fmt::Display + Drop,
        E: fmt::Display + Drop,
    {
        let written = match answer {
            Ok(Some(value)) => writeln!(self.output, "{name}: {value}"),
            Ok(None) => writeln!(self.output, "{name}: none"),
            Err(refusal) => writeln!(self.output, "{name}: {refusal}"),
        };
        self.note(written);
    }

    /// A call that answers two values or `None`.
    pub fn pair<T, E>(&mut self, name: &str, answer: Result<Option<(T, T)>, E>)
    where
        T: fmt::Display + Drop,
        E: fmt::Display + Drop,
    {
        let written = match answer {
            Ok(Some((first, second))) => writeln!(self.output, "{name}: {first} {second}"),
            Ok(None) => writeln!(self.output, "{name}: none"),
            Err(refusal) => writeln!(self.output, "{name}: {refusal}"),
        };
        self.note(written);
    }

    /// A call that answers a list of values or `None`.
    pub fn list<T, E>(&mut self, name: &str, answer: Result<Option<Vec<T>>, E>)
    where
        T: fmt::Display + Drop,
        E: fmt::Display + Drop,
    {
        let written = match answer {
            Ok(Some(values)) => writeln!(self.output, "{name}:{}", Spaced(&values)),
            Ok(None) => writeln!(self.output, "{name}: none"),
            Err(refusal) => writeln!(self.output, "{name}: {refusal}"),
        };
        self.note(written);
    }

    /// A call that answers the candidate of an operator.
    pub fn candidate<E>(&mut self, name: &str, answer: Result<Candidate, E>)
    where
        E: fmt::Display + Drop,
    {
        let written = match answer {
            Ok(candidate) => {
                let Candidate { lhs, rhs, result } = &candidate;
                let written = writeln!(self.output, "{name}: ({lhs}, {rhs}) {result}");
                drop(candidate);
                written
            }
            Err(refusal) => writeln!(self.output, "{name}: {refusal}"),
        };
        self.note(written);
    }

    /// A call that checks its arguments.
    pub fn check<E>(&mut self, name: &str, answer: Result<(), E>)
    where
        E: fmt::Display + Drop,
    {
        let written = match answer {
            Ok(()) => writeln!(self.output, "{name}: passes"),
            Err(refusal) => writeln!(self.output, "{name}: {refusal}"),
        };
        self.note(written);
    }

    /// A call that copies a value.
    pub fn copy<T, E>(&mut self, name: &str, original: &T, answer: Result<T, E>)
    where
        T: PartialEq + Drop,
        E: fmt::Display + Drop,
    {
        let written = match answer {
            Ok(copy) => {
                let state = if copy == *original {
                    "equal"
                } else {
                    "different"
                };
                writeln!(self.output, "{name}: {state}")
            }
            Err(refusal) => writeln!(self.output, "{name}: {refusal}"),
        };
        self.note(written);
    }
}

/// Values, with a space before each.
#[derive(Drop)]
struct Spaced<'a, T>(&'a Vec<T>);

impl<'a, T: fmt::Display> fmt::Display for Spaced<'a, T> {
    fn fmt<W: fmt::Write>(&self, f: &mut fmt::Formatter<W>) -> fmt::Result {
        for value in self.0 {
            write!(f, " {value}")?;
        }
        Ok(())
    }
}
