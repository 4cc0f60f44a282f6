//! Reads a history from its lines.
ghost use Rattle.std.specs.Io.KnownBytes.{prepend_known};
ghost use Rattle.std.specs.Prelude.{◌≡◌, ◌++◌, ◌∷◌, [], ℕ, All, IfOk, IfSome, IsErrOf, OnOk};
ghost use Rattle.ep_script.specs.Lines.{lines_of};
ghost use Rattle.ep_script.specs.ReadHistory.{AreLinesOf, FitsRecord, IsFirstBad, IsFirstLong};

use crate::fault::HistoryFault;
use crate::history_reader::HistoryReader;
use crate::watched::Watched;
use ep_base::Record;
use std::alloc::{AllocError, Global};
use std::io::Read;

/// Puts a record behind those before it.
fn add_record(next: Record, records: &mut Vec<Record>) -> Result<(), AllocError>
    ensures { OnOk result (records.new.items ≡ records.old.items ++ next ∷ []) }
{
    match records.push(next) {
        Ok(()) => Ok(()),
        Err(_) => Err(AllocError),
    }
}

/// Reads a history: a record a line, as `ep_history` prints it. A line ends at byte 10, which the
/// last may lack, and has at most 56,000,000 bytes.
///
/// `NoRecord(N)` says that line N, counted from 1, is the first that is no record; `Line(N)` that
/// it is too long, `Read` that the reader answered an error, and `Memory` that a growth was refused.
/// The history is then lost, and the reader stands behind what was read of it.
///
/// All this is said of a reader that tells its bytes.
pub fn read_history<R: Read>(
    alloc: Global,
    reader: &mut Watched<R>,
) -> Result<Vec<Record>, HistoryFault>
    ensures records { IfOk result (λ records. IfSome (R.remaining reader.old.inner) (λ input.
        AreLinesOf records.items (lines_of input))) }
    ensures fit { IfOk result (λ _. IfSome (R.remaining reader.old.inner) (λ input.
        All FitsRecord (lines_of input))) }
    ensures bad { (number : ℕ) → IsErrOf result (HistoryFault.NoRecord number) →
        IfSome (R.remaining reader.old.inner) (λ input. IsFirstBad number (lines_of input)) }
    ensures long { (number : ℕ) → IsErrOf result (HistoryFault.Line number) →
        IfSome (R.remaining reader.old.inner) (λ input. IsFirstLong number (lines_of input)) }
{
    let Ok(mut past) = HistoryReader::new(alloc) else {
        return Err(HistoryFault::Memory);
    };
    let mut records = Vec::new(alloc);
    for done in 0..u64::MAX {
        let record = match past.next_record(alloc, reader, done + 1) {
            Ok(Some(record)) => record,
            Ok(None) => return Ok(records),
            Err(fault) => return Err(fault),
        };
        match add_record(record, &mut records) {
            Ok(()) => {}
            Err(_) => return Err(HistoryFault::Memory),
        }
    }
    // So many records find no memory.
    Err(HistoryFault::Memory)
}
