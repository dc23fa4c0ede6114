// The program's arguments.

use std::alloc::{AllocError, Global};
use wgsl_report::report::Format;

/// The files and options of a request for reports.
#[derive(Drop)]
pub struct Arguments<'a> {
    /// `-` is standard input.
    pub files: Vec<&'a str>,
    /// The names of the structs to report on; all structs if there is no name.
    pub only: Vec<&'a str>,
    pub format: Format,
}

/// What the arguments ask for.
#[derive(Drop)]
pub enum Asked<'a> {
    Help,
    Version,
    Report(Arguments<'a>),
    Nothing(Misuse<'a>),
}

/// Why arguments are wrong.
#[derive(Clone, Copy)]
pub enum Misuse<'a> {
    UnknownOption(&'a str),
    /// No name follows `--struct`.
    NoName,
    NoFile,
    /// Two formats are asked for. This is the second.
    OtherForm(&'a str),
    /// A format for a single file is asked for, with several files.
    OneFile,
}

impl<'a> Misuse<'a> {
    /// The message, and the word that follows it.
    pub fn text(self) -> (&'static str, &'a str) {
        match self {
            Misuse::UnknownOption(word) => ("there is no option ", word),
            Misuse::NoName => ("there is no name behind --struct", ""),
            Misuse::NoFile => ("there is no file", ""),
            Misuse::OtherForm(word) => ("another form is asked for beside ", word),
            Misuse::OneFile => ("--c, --rust, --numpy and --typescript take one file", ""),
        }
    }
}

/// Reads the arguments.
pub fn read_arguments<'a>(alloc: Global, words: &'a [String]) -> Result<Asked<'a>, AllocError> {
    let mut reader = Reader::new(alloc);
    for word in words {
        match reader.read(word.as_str())? {
            None => {}
            Some(asked) => {
                drop(reader);
                return Ok(asked);
            }
        }
    }
    Ok(reader.finished())
}

/// What is read of the arguments so far.
#[derive(Drop)]
struct Reader<'a> {
    files: Vec<&'a str>,
    only: Vec<&'a str>,
    format: Option<Format>,
    /// Whether the next word is the name of a struct.
    names_struct: bool,
    /// Whether only files follow, after `--`.
    has_only_files: bool,
}

impl<'a> Reader<'a> {
    fn new(alloc: Global) -> Reader<'a> {
        Reader {
            files: Vec::new(alloc),
            only: Vec::new(alloc),
            format: None,
            names_struct: false,
            has_only_files: false,
        }
    }

    /// Reads an argument. Returns what is asked for, if the other arguments don't matter.
    fn read(&mut self, word: &'a str) -> Result<Option<Asked<'a>>, AllocError> {
        if self.names_struct {
            self.names_struct = false;
            self.only.push(word)?;
        } else if self.has_only_files || word == "-" || !word.starts_with('-') {
            self.files.push(word)?;
        } else if let Some(name) = word.strip_prefix("--struct=") {
            self.only.push(name)?;
        } else {
            return Ok(self.read_option(word));
        }
        Ok(None)
    }

    fn read_option(&mut self, word: &'a str) -> Option<Asked<'a>> {
        match word {
            "--help" | "-h" => return Some(Asked::Help),
            "--version" => return Some(Asked::Version),
            "--" => self.has_only_files = true,
            "--struct" => self.names_struct = true,
            _ => {
                let Some(format) = Format::of_option(word) else {
                    return Some(Asked::Nothing(Misuse::UnknownOption(word)));
                };
                if self.format.is_some_and(|other| other != format) {
                    return Some(Asked::Nothing(Misuse::OtherForm(word)));
                }
                self.format = Some(format);
            }
        }
        None
    }

    fn finished(self) -> Asked<'a> {
        let Reader {
            files,
            only,
            format,
            names_struct,
            has_only_files: _,
        } = self;
        let format = format.unwrap_or(Format::Tables);
        let misuse = match files.len() {
            _ if names_struct => Some(Misuse::NoName),
            0 => Some(Misuse::NoFile),
            1 => None,
            _ if format.is_code() => Some(Misuse::OneFile),
            _ => None,
        };
        match misuse {
            Some(misuse) => Asked::Nothing(misuse),
            None => Asked::Report(Arguments {
                files,
                only,
                format,
            }),
        }
    }
}
