//! Judges the records of a history as they are read.
ghost use Rattle.std.specs.Prelude.{◌≡◌, ◌++◌, ◌∷◌, ℕ, List, IfOk, OnOk, [], length};
ghost use Rattle.ep_base.specs.Limits.{Limits as Bounds};
ghost use Rattle.ep_base.specs.declared.record.Record.{Record as Entry};
ghost use Rattle.ep_audit_program.specs.Verdict.{IsVerdict, WasTold};

use ep_audit::Auditor;
use ep_base::{Limits, Record};
use ep_history::print_record;
use std::alloc::{AllocError, Global};

/// The first record that the machine does not allow.
#[derive(Drop)]
pub(crate) struct Illegal {
    /// Its place, counted from 0.
    pub(crate) place: u64,
    /// The very bytes of its line.
    pub(crate) line: Vec<u8>,
    /// The line of a record of the same event that the machine allows there, without the byte 10 that ends it.
    pub(crate) allowed: Vec<u8>,
}

/// What a history is.
#[derive(Drop)]
pub(crate) enum Verdict {
    /// A run of so many records.
    Legal(u64),
    /// None, from this record on.
    Illegal(Illegal),
}

/// Judges records until it found one that is illegal. What comes behind that one plays no part.
#[derive(Drop)]
pub(crate) struct Judge {
    auditor: Auditor,
    illegal: Option<Illegal>,
}

impl Judge {
    /// It was told no record yet.
    pub(crate) fn new(alloc: Global, limits: &Limits) -> Result<Judge, AllocError>
        ensures { IfOk result (λ judge. WasTold limits.now [] [] judge) }
    {
        let auditor = Auditor::new(alloc, limits)?;
        Ok(Judge {
            auditor,
            illegal: None,
        })
    }

    /// The verdict on the records that it was told, which are so many. It gives the line of an illegal one away.
    pub(crate) fn verdict(&mut self, count: u64) -> Verdict
        ensures { (limits : Bounds) (records : List Entry) (lines : List (List ℕ)) →
            WasTold limits records lines self.old → count ≡ length records
            → IsVerdict limits records lines result }
    {
        match self.illegal.take() {
            None => Verdict::Legal(count),
            Some(found) => Verdict::Illegal(found),
        }
    }

    /// Takes the next record, which is at this place and was read from this line.
    pub(crate) fn tell(
        &mut self,
        alloc: Global,
        next: &Record,
        line: &[u8],
        place: u64,
    ) -> Result<(), AllocError>
        ensures { OnOk result ((limits : Bounds) (records : List Entry) (lines : List (List ℕ)) →
            WasTold limits records lines self.old
            → place ≡ length records → place ≡ length lines
            → WasTold limits (records ++ next.now ∷ []) (lines ++ line.now ∷ []) self.new) }
    {
        if self.illegal.is_some() {
            return Ok(());
        }
        if self.auditor.allows(next)? {
            return Ok(());
        }
        let Some(other) = self.auditor.last() else {
            unreachable!();
        };
        let mut kept = Vec::with_capacity(alloc, line.len())?;
        kept.extend_from_slice(line)?;
        let allowed = print_record(alloc, &other.copy()?)?;
        self.illegal = Some(Illegal {
            place,
            line: kept,
            allowed,
        });
        Ok(())
    }
}
