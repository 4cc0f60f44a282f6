//! Judges records one after another.
ghost use Rattle.std.specs.Prelude.{◌≡◌, ◌++◌, ◌∷◌, [], IfOk, List, Some, false};
ghost use Rattle.ep_base.specs.Limits.{Limits as Bounds};
ghost use Rattle.ep_base.specs.declared.record.Record.{Record as Recorded};
ghost use Rattle.ep_audit.specs.Kept.{KeepsLast};

use crate::steps::follow;
use ep_base::{Answer, Call, Content, Event, Limits, Record};
use ep_plain::{Kernel, PlainKernel};
use ep_records::{Entry, History};
use std::alloc::{AllocError, Global};

/// So many records are kept before they are taken out of the kernel, and fewer if they are long. To take them out costs
/// some hundred instructions, and to make a record again some thousands. So a few hundred records are enough for that
/// to cost nothing that one could measure, and few enough for a processor's nearest cache.
const PIECE: usize = 256;

/// A record counts as one more for each of so many reports, and for each of so many bytes.
const REPORTS: usize = 8;

const BYTES: usize = 256;

/// How many bytes of an event stand in a list.
fn listed(event: &Event) -> usize {
    match event {
        Event::Call {
            call: Call::Write { bytes, .. },
            ..
        } => match bytes.content() {
            Content::Listed(list) => list.len(),
            Content::Filled(..) => 0,
        },
        _ => 0,
    }
}

/// As how many records more a record counts.
fn weight(one: &Record) -> usize {
    match &one.answer {
        Answer::Bytes(bytes) => bytes.as_slice().len() / BYTES,
        Answer::Events(reports) => reports.as_slice().len() / REPORTS,
        _ => listed(&one.event) / BYTES,
    }
}

/// Takes the records out of the kernel, and forgets those that were taken out before them. Whether that was done: it
/// isn't where there is no memory for a second history, or past 2^62 records. Then the kernel keeps its records.
#[inline(never)]
fn take_out(kernel: &mut PlainKernel, out: &mut History) -> bool
    requires { KeepsLast kernel.old out.old }
    ensures limits { kernel.new.limits ≡ kernel.old.limits }
    ensures past { kernel.new.past ≡ kernel.old.past }
    ensures last { KeepsLast kernel.new out.new }
{
    if kernel.history().is_empty() {
        return true;
    }
    out.clear();
    // Room for what the kernel will put there, so that no step asks for memory that it would not have asked for.
    if out.reserve(PIECE).is_err() {
        return false;
    }
    kernel.swap_history(out).is_ok()
}

/// Judges records one after another, as `audit` judges a list: so a reader of a long history needs no list of it. It
/// keeps some hundred records at most, however many it is told.
#[derive(Drop)]
pub struct Auditor {
    kernel: PlainKernel,
    /// The records that were taken out of the kernel last: where it has none, `last` is the last of these.
    out: History,
    /// How many records more, of those that count as one, are kept before the kernel's are taken out.
    room: usize,
    ghost last: { KeepsLast kernel out },
}

impl Auditor {
    ghost use Rattle.ep_audit.specs.Auditor.{HasAllowed, HasMadeInstead, Judges};

    /// It has allowed no record yet.
    pub fn new(alloc: Global, limits: &Limits) -> Result<Auditor, AllocError>
        ensures { IfOk result (λ auditor. HasAllowed limits.now [] auditor) }
    {
        Ok(Auditor {
            kernel: PlainKernel::new(alloc, *limits)?,
            out: History::new(alloc),
            room: PIECE,
        })
    }

    /// Takes the records out of the kernel if they are many.
    fn take_many_out(&mut self)
        ensures limits { self.new.kernel.limits ≡ self.old.kernel.limits }
        ensures past { self.new.kernel.past ≡ self.old.kernel.past }
    {
        if self.room == 0 && take_out(&mut self.kernel, &mut self.out) {
            self.room = PIECE;
        }
    }

    /// Whether the records that it has allowed are still a run of the machine with this one behind them. Then it has
    /// allowed this one, too. After false `last` is a record that the machine allows there: of the same event, and with
    /// the same report, if the machine has a step with that. After false and after an `Err`, which is want of memory,
    /// it says nothing of more records. It takes the time of a step of the scanning kernel, and keeps the record for
    /// some hundred further ones.
    pub fn allows(&mut self, next: &Record) -> Result<bool, AllocError>
        ensures judges { IfOk result (λ allowed. (limits : Bounds) (records : List Recorded) →
            HasAllowed limits records self.old
            → Judges limits (records ++ next.now ∷ []) self.new allowed) }
        ensures made { IfOk result
            (λ allowed. allowed ≡ false → HasMadeInstead self.old next.now self.new) }
    {
        self.take_many_out();
        self.room = self.room.saturating_sub(1).saturating_sub(weight(next));
        follow(&mut self.kernel, next)
    }

    /// The last record that it kept, in constant time: the one that it allowed last, or what the machine allows in
    /// place of the one that it didn't. `None` before the first.
    pub fn last(&self) -> Option<Entry<'_>>
        ensures { (before : List Recorded) (last : Recorded)
            → self.now.kernel.past ≡ before ++ last ∷ [] → result ≡ Some last }
    {
        match self.kernel.history().last() {
            Some(entry) => Some(entry),
            None => self.out.last(),
        }
    }
}
