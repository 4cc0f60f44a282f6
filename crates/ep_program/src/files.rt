//! The files of a run.

use crate::streams::{FileId, Streams};
use std::io::{self, Empty, ErrorKind, Read, Sink, Write};

/// Opens and makes the files that the command line names.
pub trait Files: Drop {
    type Script: Read + Drop;

    type History: Write + Drop;

    /// The file of this name, to be read from its beginning.
    fn open(&self, path: &str) -> io::Result<Self::Script>;

    /// Which files the streams of the run are, if it reads this script or, without one, standard
    /// input. An error says that this can't be told.
    fn streams(&self, script: Option<&Self::Script>) -> io::Result<Streams>;

    /// Which file has this name, links followed. `None` if there is none yet, and for a device that
    /// keeps nothing of what it is given and gives nothing.
    fn find(&self, path: &str) -> io::Result<Option<FileId>>;

    /// The empty file of this name, in place of one that is there.
    fn create(self, path: &str) -> io::Result<Self::History>;

    /// The empty file of this name. It is an error if one is there.
    fn create_new(&self, path: &str) -> io::Result<Self::History>;

    /// Makes a folder of this name. It is the error `AlreadyExists` if one is there.
    fn create_dir(&self, path: &str) -> io::Result<()>;
}

/// Has no file, and makes none.
#[derive(Clone, Copy)]
pub(crate) struct NoFiles;

impl Files for NoFiles {
    type Script = Empty;

    type History = Sink;

    fn open(&self, _path: &str) -> io::Result<Empty> {
        Err(io::Error::from(ErrorKind::Unsupported))
    }

    fn streams(&self, _script: Option<&Empty>) -> io::Result<Streams> {
        Ok(Streams::default())
    }

    fn find(&self, _path: &str) -> io::Result<Option<FileId>> {
        Ok(None)
    }

    fn create(self, _path: &str) -> io::Result<Sink> {
        Err(io::Error::from(ErrorKind::Unsupported))
    }

    fn create_new(&self, _path: &str) -> io::Result<Sink> {
        Err(io::Error::from(ErrorKind::Unsupported))
    }

    fn create_dir(&self, _path: &str) -> io::Result<()> {
        Err(io::Error::from(ErrorKind::Unsupported))
    }
}
