//! Whether a list of records is a run of the machine.
ghost use Rattle.std.specs.Prelude.{◌≡◌, ◌↔◌, ◌++◌, ◌∷◌, [], ℕ, IfOk, IsErrOf, IsOk, IsTrue, List};
ghost use Rattle.ep_base.specs.Limits.{Limits as Bounds};
ghost use Rattle.ep_base.specs.declared.record.Record.{Record as Recorded};
ghost use Rattle.ep_machine.specs.Run.{is_run};
ghost use Rattle.ep_audit.specs.Audit.{Finds, IfJudged, IsFirstIllegal};
ghost use Rattle.ep_audit.specs.Auditor.{HasAllowed, Judges};
ghost use Rattle.ep_audit.specs.Judged.{judged_records};
ghost use Rattle.ep_audit.specs.declared.verdict.AuditFault.TheVariants.{Illegal, Memory};

use crate::auditor::Auditor;
use ep_base::{Limits, Record};
use ep_records::{Entry, History};
use std::alloc::{AllocError, Global};

/// Why an audit is not Ok.
#[derive(Clone, Copy, Debug, PartialEq, Eq)]
pub enum AuditFault {
    /// The list is no run. The records before this place, counted from 0, are one; with the record there they are none.
    Illegal(usize),
    /// There was no memory for a verdict.
    Memory,
}

/// The records that are judged: those of a list, or of a kernel's history.
#[derive(Clone, Copy)]
enum Judged<'a> {
    Listed(&'a [Record]),
    Kept(&'a History),
}

impl From<AllocError> for AuditFault {
    ghost from_gives = { λ _ fault. fault ≡ Memory };

    fn from(_: AllocError) -> AuditFault {
        AuditFault::Memory
    }
}

/// The place of the first record that the machine does not allow, if there is one.
fn first_illegal(auditor: &mut Auditor, records: &[Record]) -> Result<Option<usize>, AllocError>
    ensures { (limits : Bounds) → HasAllowed limits [] auditor.old
        → IfOk result (Finds limits records.now) }
{
    for (place, next) in records.iter().enumerate() {
        if !auditor.allows(next)? {
            return Ok(Some(place));
        }
    }
    Ok(None)
}

/// Whether the machine allows a record of a history, which is copied for the auditor.
fn allows_entry(auditor: &mut Auditor, entry: &Entry<'_>) -> Result<bool, AllocError>
    ensures { IfOk result (λ allowed. (limits : Bounds) (records : List Recorded) →
        HasAllowed limits records auditor.old
        → Judges limits (records ++ entry.now ∷ []) auditor.new allowed) }
{
    let next = entry.copy()?;
    auditor.allows(&next)
}

/// The place of the first record of a history that the machine does not allow, if there is one.
fn first_illegal_kept(auditor: &mut Auditor, history: &History) -> Result<Option<usize>, AllocError>
    ensures { (limits : Bounds) → HasAllowed limits [] auditor.old
        → IfOk result (Finds limits history.now.items) }
{
    for index in 0..history.len() {
        let Some(entry) = history.get(index) else {
            unreachable!();
        };
        if !allows_entry(auditor, &entry)? {
            return Ok(Some(index));
        }
    }
    Ok(None)
}

/// Who can judge records.
trait Judging {
    /// Whether it has allowed no record yet, and judges by these limits.
    ghost is_new: { Bounds → Self → Type 0 };

    /// The place of the first record that the machine does not allow, if there is one.
    fn first_illegal(&mut self, judged: Judged<'_>) -> Result<Option<usize>, AllocError>
        ensures { (limits : Bounds) → is_new limits self.old
            → IfOk result (Finds limits (judged_records judged.entry)) };
}

impl Judging for Auditor {
    ghost is_new = { λ limits auditor. HasAllowed limits [] auditor };

    fn first_illegal(&mut self, judged: Judged<'_>) -> Result<Option<usize>, AllocError> {
        match judged {
            Judged::Listed(records) => first_illegal(self, records),
            Judged::Kept(history) => first_illegal_kept(self, history),
        }
    }
}

/// The same of the records by a new auditor, if there was memory to make it. It owns the auditor as one of any kind,
/// since the proof of a function that owns what it knows the parts of grows with them.
fn first_illegal_by<J: Judging + Drop>(
    made: Result<J, AllocError>,
    judged: Judged<'_>,
) -> Result<Option<usize>, AllocError>
    ensures { (limits : Bounds) → IfOk made (J.is_new limits)
        → IfOk result (Finds limits (judged_records judged.entry)) }
{
    let mut auditor = made?;
    auditor.first_illegal(judged)
}

/// The same of the records by a new auditor of these limits.
fn first_illegal_from_new(
    alloc: Global,
    limits: &Limits,
    judged: Judged<'_>,
) -> Result<Option<usize>, AllocError>
    ensures { IfOk result (Finds limits.now (judged_records judged.entry)) }
{
    first_illegal_by(Auditor::new(alloc, limits), judged)
}

/// The verdict on records.
fn verdict(alloc: Global, limits: &Limits, judged: Judged<'_>) -> Result<(), AuditFault>
    ensures ok { IfJudged result
        (IsOk result ↔ IsTrue (is_run limits.now (judged_records judged.entry))) }
    ensures illegal { IfJudged result ((place : ℕ) → IsErrOf result (Illegal place)
        ↔ IsFirstIllegal limits.now (judged_records judged.entry) place) }
{
    match first_illegal_from_new(alloc, limits, judged)? {
        None => Ok(()),
        Some(place) => Err(AuditFault::Illegal(place)),
    }
}

/// Whether a list of records, asked and answered from the opening state on, is a run of the machine under these limits.
/// `Illegal` names the first place where it is none any more, from 0; `Memory` says nothing of the list: there was no
/// memory for a verdict. A record answered ENOMEM is illegal, since want of memory leaves none.
/// The list is gone through once, each record made again on a kernel of its own.
pub fn audit(alloc: Global, limits: &Limits, records: &[Record]) -> Result<(), AuditFault>
    ensures ok { IfJudged result (IsOk result ↔ IsTrue (is_run limits.now records.now)) }
    ensures illegal { IfJudged result ((place : ℕ) →
        IsErrOf result (Illegal place) ↔ IsFirstIllegal limits.now records.now place) }
{
    verdict(alloc, limits, Judged::Listed(records))
}

/// The same of the records of a kernel's history. One of them at a time is copied, so it may answer `Memory` for want
/// of memory for a record, too.
pub fn audit_history(alloc: Global, limits: &Limits, history: &History) -> Result<(), AuditFault>
    ensures ok { IfJudged result
        (IsOk result ↔ IsTrue (is_run limits.now history.now.items)) }
    ensures illegal { IfJudged result ((place : ℕ) → IsErrOf result (Illegal place)
        ↔ IsFirstIllegal limits.now history.now.items place) }
{
    verdict(alloc, limits, Judged::Kept(history))
}
