//! What a run reads and writes besides its history, and whether the history would go there, too.
ghost use Rattle.std.specs.Prelude.{◌↔◌, IsTrue};
ghost use Rattle.ep_program.specs.Streams.{AreAnswersRead, IsFirst};

use std::fmt::{self, Display, Formatter};

/// A file, by whatever names: the device that has it, and its number there.
#[derive(Clone, Copy, Debug, PartialEq, Eq)]
pub struct FileId {
    /// The device, as the system numbers it.
    pub device: u64,
    /// The file's number on that device.
    pub number: u64,
}

/// What a run reads or writes besides its history.
#[derive(Clone, Copy, Debug, PartialEq, Eq)]
pub enum Stream {
    /// The file that the command line names as the script.
    Script,
    /// Standard input.
    Input,
    /// Standard output.
    Output,
    /// Standard error.
    Errors,
}

/// Which files the streams are. `None` is one that is closed, or that keeps nothing.
#[derive(Clone, Copy, Debug, Default)]
pub struct Streams {
    /// The file that the command line names as the script.
    pub script: Option<FileId>,
    /// Standard input.
    pub input: Option<FileId>,
    /// Standard output.
    pub output: Option<FileId>,
    /// Standard error.
    pub errors: Option<FileId>,
    /// Whether standard output keeps what it is given, so that it can be read there again: a file of
    /// a disk does, and a terminal, a pipe or a socket doesn't.
    pub keeps_answers: bool,
}

impl Streams {
    /// Whether what a run answers would be read by it, if it reads this file: it is standard output,
    /// and keeps what it is given.
    pub fn are_answers_read(&self, source: Option<FileId>) -> bool
        ensures { IsTrue result ↔ AreAnswersRead source self.now }
    {
        match source {
            Some(file) => self.keeps_answers && self.output == Some(file),
            None => false,
        }
    }

    /// The first stream, in the order of `Stream`, that is this file, or `None` if none is.
    pub fn find(&self, file: FileId) -> Option<Stream>
        ensures { IsFirst file self.now result }
    {
        if self.script == Some(file) {
            Some(Stream::Script)
        } else if self.input == Some(file) {
            Some(Stream::Input)
        } else if self.output == Some(file) {
            Some(Stream::Output)
        } else if self.errors == Some(file) {
            Some(Stream::Errors)
        } else {
            None
        }
    }
}

impl Display for Stream {
    fn fmt<W: fmt::Write>(&self, f: &mut Formatter<W>) -> fmt::Result {
        f.write_str(match self {
            Stream::Script => "the script",
            Stream::Input => "standard input",
            Stream::Output => "standard output",
            Stream::Errors => "standard error",
        })
    }
}
