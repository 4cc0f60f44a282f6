//! Reads the records of a history one after another.
ghost use Rattle.std.specs.Io.KnownBytes.{prepend_known};
ghost use Rattle.std.specs.Prelude.{◌≡◌, ◌⊎◌, IfErr, IfOk, IfSome, IsErrOf, None, [], Some, true};
ghost use Rattle.ep_history.specs.Records.{line_record};
ghost use Rattle.ep_script.specs.Known.{Leads};
ghost use Rattle.ep_script.specs.ReadHistory.{FitsRecord, longest_record};
ghost use Rattle.ep_script.specs.Steps.{IsTooLong, TakesLine};
ghost use Rattle.ep_script.specs.Unread.{unread};

use crate::chunk::Input;
use crate::fault::{HistoryFault, ScriptFault};
use crate::next_line::next_line;
use crate::watched::Watched;
use ep_base::Record;
use ep_history::RecordReader;
use std::alloc::{AllocError, Global};
use std::io::Read;

/// The most bytes of a record's line, without the byte that ends it. No run of a script makes a longer one. The longest
/// is that of a wait, with every number as wide as its type lets it be. Of each of 1,000,000 registrations, which is as
/// many as limits allow, it has `[4294967295,18446744073709551615]` and, as its pick, 20 digits, with a comma behind
/// each but the last. That is 54,999,998 bytes, and 180 are around them. A write or a read has two digits for each of
/// 1,048,576 bytes at most, and 156 bytes more.
const LONGEST_RECORD: usize = 56_000_000;

/// The longest line whose room is kept for the next one.
const LONGEST_KEPT: usize = 16_384;

/// Reads the records of a history one after another, each with its line. It keeps room for a read of 65,536 bytes, for
/// a line of at most 16,384 bytes, and what a `RecordReader` keeps. A longer line leaves no room behind.
#[derive(Drop)]
pub struct HistoryReader {
    input: Input,
    line: Vec<u8>,
    records: RecordReader,
}

impl HistoryReader {
    /// Nothing is read yet.
    pub fn new(alloc: Global) -> Result<HistoryReader, AllocError>
        ensures { IfOk result (λ past. unread past.input ≡ []) }
    {
        let input = Input::new(alloc)?;
        Ok(HistoryReader {
            input,
            line: Vec::new(alloc),
            records: RecordReader::new(alloc),
        })
    }

    /// The very bytes of the line that was read last, without the byte that ended it.
    pub fn line(&self) -> &[u8]
        ensures { result.now ≡ self.now.line.items }
    {
        self.line.as_slice()
    }

    /// The record of the line that was read last.
    fn record(&mut self, alloc: Global, number: u64) -> Result<Record, HistoryFault>
        ensures input { self.new.input ≡ self.old.input }
        ensures line { self.new.line ≡ self.old.line }
        ensures ok { IfOk result (λ r. line_record self.old.line.items ≡ Some r) }
        ensures none { IsErrOf result (HistoryFault.NoRecord number)
            → line_record self.old.line.items ≡ None }
        ensures err { IfErr result
            (λ e. (e ≡ HistoryFault.Memory) ⊎ (e ≡ HistoryFault.NoRecord number)) }
    {
        let Ok(found) = self.records.read(alloc, self.line.as_slice()) else {
            return Err(HistoryFault::Memory);
        };
        match found {
            Some(record) => Ok(record),
            None => Err(HistoryFault::NoRecord(number)),
        }
    }

    /// Gives the room of a long line back.
    fn forget_long(&mut self, alloc: Global)
        ensures { self.new.input ≡ self.old.input }
    {
        if self.line.len() > LONGEST_KEPT {
            self.line = Vec::new(alloc);
        }
    }

    /// The record of the next line, whose number is `number`, counted from 1; `None` if there is no line left. A line
    /// ends at byte 10, which the last may lack, and has at most 56,000,000 bytes.
    ///
    /// `NoRecord(number)` says that the line is no record, `Line(number)` that it is too long, `Read` that the reader
    /// answered an error, and `Memory` that a growth was refused. Only after `NoRecord` can it read on behind the line.
    pub fn next_record<R: Read>(
        &mut self,
        alloc: Global,
        reader: &mut Watched<R>,
        number: u64,
    ) -> Result<Option<Record>, HistoryFault>
        ensures line { IfOk result (λ next. IfSome next (λ _. Leads
            (prepend_known (unread self.old.input) (R.remaining reader.old.inner))
            (prepend_known (unread self.new.input) (R.remaining reader.new.inner))
            (λ xs ys. TakesLine xs self.new.line.items ys))) }
        ensures fits { IfOk result (λ next. IfSome next (λ _. FitsRecord self.new.line.items)) }
        ensures some { IfOk result (λ next. IfSome next (λ r.
            line_record self.new.line.items ≡ Some r)) }
        ensures end { IfOk result (λ next. next ≡ None → Leads
            (prepend_known (unread self.old.input) (R.remaining reader.old.inner))
            (prepend_known (unread self.new.input) (R.remaining reader.new.inner))
            (λ xs ys. (xs ≡ []) × (ys ≡ []))) }
        ensures bad_line { IsErrOf result (HistoryFault.NoRecord number) → Leads
            (prepend_known (unread self.old.input) (R.remaining reader.old.inner))
            (prepend_known (unread self.new.input) (R.remaining reader.new.inner))
            (λ xs ys. TakesLine xs self.new.line.items ys) }
        ensures bad_fits { IsErrOf result (HistoryFault.NoRecord number)
            → FitsRecord self.new.line.items }
        ensures bad { IsErrOf result (HistoryFault.NoRecord number)
            → line_record self.new.line.items ≡ None }
        ensures long { IsErrOf result (HistoryFault.Line number) →
            IfSome (prepend_known (unread self.old.input) (R.remaining reader.old.inner))
            (λ xs. IsTooLong longest_record xs) }
        ensures err { IfErr result
            (λ e. (e ≡ HistoryFault.Memory)
            ⊎ (((e ≡ HistoryFault.Read) × (reader.new.failed ≡ true))
            ⊎ ((e ≡ HistoryFault.NoRecord number) ⊎ (e ≡ HistoryFault.Line number)))) }
    {
        self.forget_long(alloc);
        match next_line(
            reader,
            &mut self.input,
            &mut self.line,
            number,
            LONGEST_RECORD,
        ) {
            Ok(true) => match self.record(alloc, number) {
                Ok(record) => Ok(Some(record)),
                Err(fault) => Err(fault),
            },
            Ok(false) => Ok(None),
            Err(ScriptFault::Memory) => Err(HistoryFault::Memory),
            Err(ScriptFault::Line(_)) => Err(HistoryFault::Line(number)),
            Err(_) => Err(HistoryFault::Read),
        }
    }
}
