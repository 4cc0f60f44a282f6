//! The verdict on a history that is read from its lines.
ghost use Rattle.std.specs.Io.KnownBytes.{prepend_known};
ghost use Rattle.std.specs.Prelude.{◌≡◌, [], ℕ, IfOk, IfSome, IsErrOf};
ghost use Rattle.ep_base.specs.Limits.{Limits as Bounds};
ghost use Rattle.ep_script.specs.Lines.{lines_of};
ghost use Rattle.ep_script.specs.ReadHistory.{IsFirstBad, IsFirstLong};
ghost use Rattle.ep_audit_program.specs.Verdict.{IsJudgedAs, Judged, WasTold};

use crate::judge::{Judge, Verdict};
use ep_base::Limits;
use ep_script::{HistoryFault, HistoryReader, Watched};
use std::alloc::{AllocError, Global};
use std::io::Read;

/// Reads a history to its end, and has a new judge judge each record as its line is read.
fn judge_lines<R: Read>(
    alloc: Global,
    judge: &mut Judge,
    reader: &mut Watched<R>,
) -> Result<Verdict, HistoryFault>
    ensures verdict { (limits : Bounds) → WasTold limits [] [] judge.old
        → IfOk result (λ found. IfSome (R.remaining reader.old.inner) (λ input.
        Judged limits (lines_of input) found)) }
    ensures bad { (limits : Bounds) → WasTold limits [] [] judge.old
        → (number : ℕ) → IsErrOf result (HistoryFault.NoRecord number)
        → IfSome (R.remaining reader.old.inner) (λ input. IsFirstBad number (lines_of input)) }
    ensures long { (limits : Bounds) → WasTold limits [] [] judge.old
        → (number : ℕ) → IsErrOf result (HistoryFault.Line number)
        → IfSome (R.remaining reader.old.inner) (λ input. IsFirstLong number (lines_of input)) }
{
    let Ok(mut past) = HistoryReader::new(alloc) else {
        return Err(HistoryFault::Memory);
    };
    for done in 0..u64::MAX {
        let record = match past.next_record(alloc, reader, done + 1) {
            Ok(Some(record)) => record,
            Ok(None) => return Ok(judge.verdict(done)),
            Err(fault) => return Err(fault),
        };
        match judge.tell(alloc, &record, past.line(), done) {
            Ok(()) => {}
            Err(_) => return Err(HistoryFault::Memory),
        }
    }
    // So many records find no memory.
    Err(HistoryFault::Memory)
}

/// Who can judge the lines of a history.
trait Judging {
    /// Whether it was told no record yet, and judges by these limits.
    ghost is_new: { Bounds → Self → Type 0 };

    /// Reads a history to its end, and judges each record as its line is read.
    fn judge_lines<R: Read>(
        &mut self,
        alloc: Global,
        reader: &mut Watched<R>,
    ) -> Result<Verdict, HistoryFault>
        ensures { (limits : Bounds) → is_new limits self.old
            → IsJudgedAs limits (R.remaining reader.old.inner) result };
}

impl Judging for Judge {
    ghost is_new = { λ limits judge. WasTold limits [] [] judge };

    fn judge_lines<R: Read>(
        &mut self,
        alloc: Global,
        reader: &mut Watched<R>,
    ) -> Result<Verdict, HistoryFault> {
        judge_lines(alloc, self, reader)
    }
}

/// The same by a new judge, if there was memory to make it. It owns the judge as one of any kind, since the proof of a
/// function that owns what it knows the parts of grows with them.
fn judge_by<J: Judging + Drop, R: Read>(
    alloc: Global,
    made: Result<J, AllocError>,
    reader: &mut Watched<R>,
) -> Result<Verdict, HistoryFault>
    ensures { (limits : Bounds) → IfOk made (J.is_new limits)
        → IsJudgedAs limits (R.remaining reader.old.inner) result }
{
    match made {
        Ok(mut judge) => judge.judge_lines(alloc, reader),
        Err(_) => Err(HistoryFault::Memory),
    }
}

/// Reads a history to its end, and judges each record as its line is read. So it keeps no line but the one at hand, and
/// the first illegal one. A line that is no record is told before an illegal record in front of it.
pub(crate) fn judge_history<R: Read>(
    alloc: Global,
    limits: &Limits,
    reader: &mut Watched<R>,
) -> Result<Verdict, HistoryFault>
    ensures verdict { IfOk result (λ found. IfSome (R.remaining reader.old.inner) (λ input.
        Judged limits.now (lines_of input) found)) }
    ensures bad { (number : ℕ) → IsErrOf result (HistoryFault.NoRecord number) →
        IfSome (R.remaining reader.old.inner) (λ input. IsFirstBad number (lines_of input)) }
    ensures long { (number : ℕ) → IsErrOf result (HistoryFault.Line number) →
        IfSome (R.remaining reader.old.inner) (λ input. IsFirstLong number (lines_of input)) }
{
    judge_by(alloc, Judge::new(alloc, limits), reader)
}
