//! One record of a history, which stays where it is.
ghost use Rattle.std.specs.Prelude.{◌≡◌, ◌↔◌, IfOk, IsOk, IsTrue};
ghost use Rattle.ep_base.specs.Call.{EventHasNoBytes};
ghost use Rattle.ep_records.specs.Said.{said_answer};

use crate::beside::Beside;
use crate::numbers::Numbers;
use crate::said::Said;
use crate::slot::Slot;
use ep_base::{CallerId, Event, Record};
use std::alloc::AllocError;
use std::marker::Model;

/// One record of a history, where it stands. It takes no memory. Contracts see the record.
#[derive(Drop)]
pub struct Entry<'a> {
    pub(crate) slot: &'a Slot,
    pub(crate) beside: &'a Beside,
}

impl<'a> Model for Entry<'a> {
    ghost use Rattle.ep_base.specs.declared.record.Record.{Record as Whole};
    ghost use Rattle.ep_records.specs.Slot.{IsWithin, unpacked};

    ghost Value = { Whole };

    ghost view = { λ e. unpacked e.beside.now e.slot.now };

    ghost invariant = { λ e. IsWithin e.beside.now e.slot.now };
}

impl<'a> Entry<'a> {
    /// Who asked.
    pub fn caller(&self) -> CallerId
        ensures { result ≡ self.now.caller }
    {
        self.slot.caller_beside(self.beside)
    }

    /// What was asked, in memory of its own. It takes none but for the bytes of a write, so all other events come
    /// where memory is refused, too.
    pub fn event(&self) -> Result<Event, AllocError>
        ensures ok { IfOk result (λ event. event ≡ self.now.event) }
        ensures no_bytes { EventHasNoBytes self.now.event → IsOk result }
    {
        self.slot.event_beside(self.beside)
    }

    /// What was answered, where it stands. It takes no memory.
    pub fn answer(&self) -> Said<'a>
        ensures { said_answer result ≡ self.now.answer }
    {
        self.slot.answer_beside(self.beside)
    }

    /// The numbers of the registrations that the answer reports. They take no memory.
    pub fn picked(&self) -> Numbers<'a>
        ensures { result ≡ self.now.picked }
    {
        self.slot.picked_beside(self.beside)
    }

    /// Whether it is this record: caller, event, answer and what it reports. It takes no memory.
    pub fn is_same(&self, other: &Record) -> bool
        ensures { IsTrue result ↔ self.now ≡ other.now }
    {
        self.slot.is_same_beside(self.beside, other)
    }

    /// The record, in memory of its own. An `AllocError` comes where memory is refused, which is asked for the bytes
    /// of a write, for more than 16 bytes of a read and for more than 4 reports.
    pub fn copy(&self) -> Result<Record, AllocError>
        ensures { IfOk result (λ r. r ≡ self.now) }
    {
        self.slot.copy_beside(self.beside)
    }
}
