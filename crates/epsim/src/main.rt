//! Runs a script of calls on the kernel: an answer a line on standard output. `--help` tells the
//! options.
#![tactic(auto)]

use ep_program::{FileId, Files, Streams, no_words, run_with_files};
use std::env::{self, Env};
use std::fs::{self, File, Metadata};
use std::io::{self, ErrorKind};
use std::os::fd::{AsFd, AsRawFd, BorrowedFd};
use std::os::unix::fs::{FileTypeExt, MetadataExt};
use std::process::ExitCode;

/// The lowest number that is no standard stream's.
const FIRST: i32 = 3;

/// The number of /dev/null among the devices: 1 and 3, by which Linux has it under every name.
const NULL_DEVICE: u64 = 0x103;

fn words_of(rt: &(impl Env + AllocGlobal)) -> io::Result<Vec<String>> {
    Ok(env::args(rt)?.collect(rt.alloc())?)
}

/// The file at a number above those of the standard streams. A file that was opened while one of
/// these is closed has that stream's number: what is written to the stream would go into the file.
fn above_streams(file: File) -> io::Result<File> {
    if file.as_raw_fd() < FIRST {
        file.try_clone()
    } else {
        Ok(file)
    }
}

/// Which file that is, but for /dev/null: no two streams mix there.
fn id_of(found: &Metadata) -> Option<FileId> {
    if found.file_type().is_char_device() && found.rdev() == NULL_DEVICE {
        return None;
    }
    Some(FileId {
        device: found.dev(),
        number: found.ino(),
    })
}

/// Which file a stream is, unless it is closed.
fn id_of_stream(found: Option<&Metadata>) -> Option<FileId> {
    match found {
        Some(found) => id_of(found),
        None => None,
    }
}

/// The files on the disk.
#[derive(Drop)]
struct Disk<'a> {
    rt: &'a HostRuntime,
}

impl Disk<'_> {
    /// What there is to know of a standard stream's file, by its name. One that is closed has no name.
    fn stream(&self, number: BorrowedFd<'_>, path: &str) -> io::Result<Option<Metadata>> {
        match fs::metadata(self.rt, path) {
            Ok(found) => Ok(Some(found)),
            Err(_) if number.try_clone_to_owned().is_err() => Ok(None),
            Err(_) => Err(io::Error::other(
                "without /proc it isn't known which files the standard streams are",
            )),
        }
    }
}

impl Files for Disk<'_> {
    type Script = File;

    type History = File;

    fn open(&self, path: &str) -> io::Result<File> {
        let file = above_streams(fs::open(self.rt, path)?)?;
        if file.metadata()?.is_dir() {
            return Err(io::Error::from(ErrorKind::IsADirectory));
        }
        Ok(file)
    }

    fn streams(&self, script: Option<&File>) -> io::Result<Streams> {
        let script = match script {
            Some(file) => id_of(&file.metadata()?),
            None => None,
        };
        let input = self.stream(self.rt.stdin().as_fd(), "/proc/self/fd/0")?;
        let output = self.stream(self.rt.stdout().as_fd(), "/proc/self/fd/1")?;
        let errors = self.stream(self.rt.stderr().as_fd(), "/proc/self/fd/2")?;
        Ok(Streams {
            script,
            input: id_of_stream(input.as_ref()),
            output: id_of_stream(output.as_ref()),
            errors: id_of_stream(errors.as_ref()),
            keeps_answers: output.is_some_and(|it| it.is_file()),
        })
    }

    fn find(&self, path: &str) -> io::Result<Option<FileId>> {
        match fs::metadata(self.rt, path) {
            Ok(found) => Ok(id_of(&found)),
            Err(error) if error.kind() == ErrorKind::NotFound => Ok(None),
            Err(error) => Err(error),
        }
    }

    fn create(self, path: &str) -> io::Result<File> {
        above_streams(fs::create(self.rt, path)?)
    }

    fn create_new(&self, path: &str) -> io::Result<File> {
        above_streams(File::create_new(self.rt, path)?)
    }

    fn create_dir(&self, path: &str) -> io::Result<()> {
        fs::create_dir(self.rt, path)
    }
}

fn main(rt: HostRuntime) -> ExitCode {
    let mut errors = rt.stderr();
    let status = match words_of(&rt) {
        Ok(words) => run_with_files(
            rt.alloc(),
            words,
            rt.stdin(),
            &mut rt.stdout(),
            &mut errors,
            Disk { rt: &rt },
        ),
        Err(error) => no_words(&error, &mut errors),
    };
    ExitCode::from(status)
}
