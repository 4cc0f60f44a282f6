//! Keeps the records of a run, or keeps none.
ghost use Rattle.std.specs.Io.KnownBytes.{Appends};
ghost use Rattle.std.specs.Prelude.{◌≡◌, ◌⊎◌, ◌-◌, ◌<◌, ℕ, Bool, IfErr, IfOk, IsErrOf, List, None, OnErr};
ghost use Rattle.std.specs.Prelude.{OnOk, Option, Some, false, length, take, true};
ghost use Rattle.ep_script.specs.Lines.{most_gathered};
ghost use Rattle.ep_script.specs.Recorded.{line_at, line_if};

use crate::emit::emit;
use crate::fault::RecordedFault;
use crate::watched::Watched;
use ep_base::EventNumber;
use ep_calls::Kernel;
use ep_history::print_record;
use ep_records::Entry;
use std::alloc::{AllocError, Global};
use std::io::Write;

/// The most bytes of answers that wait to be written.
const MOST_GATHERED: usize = 65_536;

/// What keeps the records of a run: a history's writer, or `Nothing`.
pub(crate) trait Keeper {
    /// What its writer holds.
    ghost contents: { Self → Option (List ℕ) };

    /// Whether its writer failed.
    ghost failed: { Self → Bool };

    /// Whether its writer was asked for anything after that.
    ghost asked_after: { Self → Bool };

    /// Whether it can fail at all.
    ghost may_fail: { Bool };

    /// How many bytes of answers may wait.
    ghost room: { ℕ };

    /// How many bytes of answers may wait while it keeps records. What can fail lets none wait, so that the answers to
    /// all lines up to its failure stand written, and each record is kept behind its answer.
    fn room(&self) -> usize
        ensures { result ≡ room };

    /// Keeps the record of the event of this number, if there is one.
    fn keep<K: Kernel>(
        &mut self,
        alloc: Global,
        kernel: &K,
        number: EventNumber,
    ) -> Result<(), RecordedFault>
        requires { length (K.taken kernel.now) < number }
        ensures ok { OnOk result (Appends (contents self.old) (contents self.new)
            (line_at (number - 1) (K.past kernel.now))) }
        ensures flag { OnOk result (failed self.new ≡ failed self.old) }
        ensures once { failed self.old ≡ false → asked_after self.new ≡ asked_after self.old }
        ensures part { OnErr result
            ((n : ℕ) × Appends (contents self.old) (contents self.new)
            (take n (line_at (number - 1) (K.past kernel.now)))) }
        ensures err { IfErr result (λ e. (e ≡ RecordedFault.History) ⊎ (e ≡ RecordedFault.Memory)) }
        ensures err_flag { IsErrOf result RecordedFault.History → failed self.new ≡ true }
        ensures may { OnErr result (may_fail ≡ true) }
        ensures none_waits { OnErr result (room ≡ 0) };
}

/// Keeps no record.
#[derive(Drop)]
pub(crate) struct Nothing;

impl Keeper for Nothing {
    ghost contents = { λ _. None };

    ghost failed = { λ _. false };

    ghost asked_after = { λ _. false };

    ghost may_fail = { false };

    ghost room = { most_gathered };

    fn room(&self) -> usize {
        MOST_GATHERED
    }

    fn keep<K: Kernel>(
        &mut self,
        _alloc: Global,
        _kernel: &K,
        _number: EventNumber,
    ) -> Result<(), RecordedFault> {
        Ok(())
    }
}

/// The line of a record, with its end.
fn line_of(alloc: Global, entry: &Entry<'_>) -> Result<Vec<u8>, AllocError>
    ensures { IfOk result (λ line. line.items ≡ line_if (Some entry.now)) }
{
    let mut line = print_record(alloc, &entry.copy()?)?;
    line.push(b'\n')?;
    Ok(line)
}

/// Writes the line of each record, and flushes it.
impl<H: Write> Keeper for Watched<H> {
    ghost contents = { λ w. H.contents w.inner };

    ghost failed = { λ w. w.failed };

    ghost asked_after = { λ w. w.asked_after };

    ghost may_fail = { true };

    ghost room = { 0 };

    fn room(&self) -> usize {
        0
    }

    fn keep<K: Kernel>(
        &mut self,
        alloc: Global,
        kernel: &K,
        number: EventNumber,
    ) -> Result<(), RecordedFault> {
        let Some(entry) = kernel.history().numbered(number) else {
            return Ok(());
        };
        let Ok(line) = line_of(alloc, &entry) else {
            return Err(RecordedFault::Memory);
        };
        match emit(self, line.as_slice()) {
            Ok(()) => Ok(()),
            Err(_) => Err(RecordedFault::History),
        }
    }
}
