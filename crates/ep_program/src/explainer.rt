//! A reader that says why a line of a script is no command.
ghost use Rattle.std.specs.Io.Buffered.{reader_remaining};
ghost use Rattle.std.specs.Prelude.{◌≡◌, ◌==◌, ◌&&◌, IfOk, None, if◌then◌else◌, is_some};
ghost use Rattle.ep_text.specs.Event.{reason};
ghost use Rattle.ep_text.specs.Header.{header};

use crate::bad_lines::tell_bad_lines;
use ep_text::{Reason, explain, read_header};
use std::alloc::{AllocError, Global};
use std::io::{self, BufReader, Read, Write};

/// Why a line of this number, counted from 1, is no command. `None` if it is one, and of the header.
fn fault_of(alloc: Global, line: &[u8], number: u64) -> Result<Option<Reason>, AllocError>
    ensures { IfOk result (λ r.
        r ≡ (if (number == 1) && is_some (header line.now) then None else reason line.now)) }
{
    if number == 1 && read_header(alloc, line)?.is_some() {
        return Ok(None);
    }
    explain(alloc, line)
}

/// A reader that hands on the bytes of the one inside, and says on `errors` why a line of them is
/// no command when more is asked for, so behind the answer to the line. Of the header it says nothing.
/// A write to `errors` that fails changes nothing. After want of memory for a line no further one is
/// explained.
#[derive(Drop)]
pub(crate) struct Explainer<R, E> {
    alloc: Global,
    reader: BufReader<R>,
    errors: E,
    /// What was handed on of the line that is not explained yet.
    line: Vec<u8>,
    lines: u64,
    bad: u64,
    is_stopped: bool,
}

impl<R: Read + Drop, E: Write> Explainer<R, E> {
    /// One that explained nothing yet. The error is want of memory.
    pub(crate) fn new(alloc: Global, reader: R, errors: E) -> io::Result<Explainer<R, E>>
    where
        E: Drop,
        ensures { IfOk result (λ e. reader_remaining R.remaining e.reader ≡ R.remaining reader) }
    {
        Ok(Explainer {
            alloc,
            reader: BufReader::new(alloc, reader)?,
            errors,
            line: Vec::new(alloc),
            lines: 0,
            bad: 0,
            is_stopped: false,
        })
    }

    fn stop(&mut self)
        ensures { self.new.reader ≡ self.old.reader }
    {
        self.is_stopped = true;
        let _ = write!(
            self.errors,
            "epsim: out of memory: no further line is explained\n"
        );
    }

    /// Keeps bytes of the line that is handed on.
    fn keep(&mut self, bytes: &[u8])
        ensures { self.new.reader ≡ self.old.reader }
    {
        if !self.is_stopped && self.line.extend_from_slice(bytes).is_err() {
            self.stop();
        }
    }

    /// Says of the line that was handed on why it is no command, if it is none, and forgets it.
    fn explain_line(&mut self)
        ensures { self.new.reader ≡ self.old.reader }
    {
        self.lines = self.lines.saturating_add(1);
        let line = self.line.as_slice();
        let text = line.strip_suffix(b"\n".as_slice()).unwrap_or(line);
        let found = fault_of(self.alloc, text, self.lines);
        self.line.clear();
        match found {
            Ok(None) => {}
            Ok(Some(reason)) => {
                self.bad = self.bad.saturating_add(1);
                let _ = write!(self.errors, "epsim: line {}: {reason}\n", self.lines);
            }
            Err(_) => self.stop(),
        }
    }

    /// Explains the last line, if the script was run to its end and that line lacks its own.
    /// If it wasn't, it says how many of the lines that were answered were no command.
    pub(crate) fn finish(&mut self, is_whole: bool) {
        if self.is_stopped {
            return;
        }
        if !is_whole {
            tell_bad_lines(&mut self.errors, self.bad, self.lines, "");
        } else if !self.line.is_empty() {
            self.explain_line();
        }
    }
}

impl<R: Read + Drop, E: Write> Read for Explainer<R, E> {
    ghost remaining = { λ e. reader_remaining R.remaining e.reader };

    /// Reads one byte at most, so that a read that ends a line hands on nothing behind it.
    fn read(&mut self, buf: &mut [u8]) -> io::Result<usize> {
        if !self.is_stopped && self.line.ends_with(b"\n") {
            self.explain_line();
        }
        let room = buf.len().min(1);
        let count = self.reader.read(&mut buf[..room])?;
        self.keep(&buf[..count]);
        Ok(count)
    }
}
