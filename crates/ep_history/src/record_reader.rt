//! Reads many lines.
ghost use Rattle.std.specs.Prelude.{◌≡◌, IfOk, IfSome, Some, true};
ghost use Rattle.ep_history.specs.Records.{line_record};

use crate::guess::guess_record;
use crate::print::push_record;
use crate::record::record_of;
use ep_base::Record;
use ep_json::{LONGEST_KEPT, ValueReader};
use std::alloc::{AllocError, Global};

/// Reads lines one after another. It keeps the room that this takes from line to line, for lines of 16,384 bytes at
/// most. A longer one leaves no room behind.
#[derive(Drop)]
pub struct RecordReader {
    values: ValueReader,
    // The line of the record that was guessed last, where its room is kept.
    printed: Vec<u8>,
}

/// Whether the record is printed as this line. It is printed over what was in `printed`, if room for `room` bytes is
/// asked for first. Want of memory is `false`, too.
fn prints(printed: &mut Vec<u8>, room: usize, entry: &Record, line: &[u8]) -> bool
    ensures { result ≡ true → line_record line.now ≡ Some entry.now }
{
    printed.clear();
    let Ok(()) = printed.reserve_exact(room) else {
        return false;
    };
    let Ok(()) = push_record(printed, entry) else {
        return false;
    };
    printed.as_slice() == line
}

impl RecordReader {
    /// It has no room for a line yet, and takes it as lines need it.
    pub fn new(alloc: Global) -> RecordReader {
        RecordReader {
            values: ValueReader::new(alloc),
            printed: Vec::new(alloc),
        }
    }

    /// What `read_record` answers. A line of the form of `print_record` is read without a tree of its values.
    pub fn read(&mut self, alloc: Global, line: &[u8]) -> Result<Option<Record>, AllocError>
        ensures { IfOk result (λ r. r ≡ line_record line.now) }
    {
        if let Some(record) = self.read_printed(alloc, line) {
            return Ok(Some(record));
        }
        self.read_any(alloc, line)
    }

    /// The record that `print_record` prints as this line, if there is memory. `None` says nothing of the line: it
    /// may be a record all the same, and then `read` has it. A line that is not printed takes little time, and no
    /// memory for bytes that it may have.
    ///
    /// Beside the record, a line above 16,384 bytes takes about as much room as it is long, and gives it back.
    pub fn read_printed(&mut self, alloc: Global, line: &[u8]) -> Option<Record>
        ensures { IfSome result (λ r. line_record line.now ≡ Some r) }
    {
        if !line.ends_with(b"]}") {
            return None;
        }
        let record = guess_record(alloc, line)?;
        if self.is_line_of(alloc, &record, line) {
            Some(record)
        } else {
            None
        }
    }

    /// Whether the record is printed as this line, and there is memory to see it. The room that is kept is a power of
    /// two: then lines that get longer and longer ask a few times only, and never for more than 16,384 bytes.
    fn is_line_of(&mut self, alloc: Global, entry: &Record, line: &[u8]) -> bool
        ensures { result ≡ true → line_record line.now ≡ Some entry.now }
    {
        let length = line.len();
        if length > LONGEST_KEPT {
            return prints(&mut Vec::new(alloc), length, entry, line);
        }
        prints(&mut self.printed, length.next_power_of_two(), entry, line)
    }

    /// The record of any line, by a tree of its values.
    fn read_any(&mut self, alloc: Global, line: &[u8]) -> Result<Option<Record>, AllocError>
        ensures { IfOk result (λ r. r ≡ line_record line.now) }
    {
        match self.values.read(alloc, line)? {
            Some(value) => record_of(alloc, &value),
            None => Ok(None),
        }
    }
}
