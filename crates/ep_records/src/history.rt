//! The history of a kernel.
ghost use Rattle.std.specs.Prelude.{◌≡◌, ◌↔◌, ◌+◌, ◌-◌, ◌<◌, ◌≤◌, [], ◌∷◌, ◌++◌, ◌^◌, IfOk, IsFalse, IsOk};
ghost use Rattle.std.specs.Prelude.{IsTrue, List, OnOk, Some, drop, length, slice_get};
ghost use Rattle.ep_base.specs.declared.record.Record.{Record as Whole};
ghost use Rattle.ep_records.specs.Past.{numbered, whole};
ghost use Rattle.ep_records.specs.Short.{IsSilentShort, IsToldShort};

use crate::beside::Beside;
use crate::entry::Entry;
use crate::iter::Iter;
use crate::many::{listed_bytes, listed_reports};
use crate::slot::Slot;
use crate::taken::Taken;
use ep_base::{Answer, CallerId, EntryNumber, Event, EventNumber, Record};
use std::alloc::{AllocError, Global};
use std::marker::Model;

/// Records in order, behind those that were taken out. A record takes 48 bytes if its numbers and bytes are few, as
/// those of nearly all are. Long lists of reports and long bytes stand beside these 48 bytes if there is memory; any
/// other record stands whole beside them.
/// Contracts see the records, those that were taken out before them, and how many more fit, whatever they are, before
/// memory is asked for.
#[derive(Drop)]
pub struct History {
    pub(crate) slots: Vec<Slot>,
    pub(crate) beside: Beside,
    /// How many were taken out.
    pub(crate) before: u64,
    /// Those that were.
    pub(crate) taken: Taken,
}

impl Model for History {
    ghost use Rattle.ep_records.specs.Past.{Past};

    ghost Value = { Past };

    ghost use Rattle.ep_records.specs.Kept.{past_of, IsKept};

    ghost view = { past_of };

    ghost invariant = { IsKept };
}

impl History {
    /// No record and no room, which takes no memory.
    pub fn new(alloc: Global) -> History
        ensures { result ≡ record { taken = []; items = []; room = 0 } }
    {
        History {
            slots: Vec::new(alloc),
            beside: Beside::new(alloc),
            before: 0,
            taken: Taken::none(),
        }
    }

    /// The number of the next event, if each record is that of one: the first event of all is number 1.
    #[inline(always)]
    pub fn next_number(&self) -> EventNumber
        ensures { result ≡ length (whole self.now) + 1 }
    {
        EventNumber(self.before + self.slots.len() as u64 + 1)
    }

    /// How many records there are.
    pub fn len(&self) -> usize
        ensures count { result ≡ length self.now.items }
        ensures bound { result < 2 ^ 63 }
    {
        self.slots.len()
    }

    /// Whether there is no record.
    pub fn is_empty(&self) -> bool
        ensures { IsTrue result ↔ self.now.items ≡ [] }
    {
        self.slots.is_empty()
    }

    /// Makes room for this many further records, whatever they are. The records stay, also at an `AllocError`, which
    /// comes where memory is refused and not where there is room already; and there is no less room than before.
    /// It moves the slots and the long records where they have to grow, so many calls cost a constant time each.
    pub fn reserve(&mut self, additional: usize) -> Result<(), AllocError>
        ensures stays { self.new ≡ record self.old { room = self.new.room } }
        ensures ok { OnOk result (additional ≤ self.new.room) }
        ensures room { self.old.room ≤ self.new.room }
        ensures succeeds { additional ≤ self.old.room → IsOk result }
    {
        self.slots.reserve(additional)?;
        self.beside.reserve(additional)
    }

    /// Makes room beside the slots for so many further reports and bytes, as far as there is memory. Records of a wait
    /// of several reports, of a read and of a write of many bytes take 48 bytes and what they have of these, if there
    /// is room for it; else some 250. It does not say whether there was memory: nothing fails for want of it.
    pub fn reserve_parts(&mut self, reports: usize, bytes: usize)
        ensures { self.new ≡ self.old }
    {
        self.beside.reserve_parts(reports, bytes);
    }

    /// The record of an event at the end, if it takes 48 bytes: then `true`. Else `false`, and nothing changes. It
    /// takes no memory, and no part of the record has to be copied for it.
    #[inline(always)]
    pub fn push_short(
        &mut self,
        caller: CallerId,
        event: &Event,
        answer: &Answer,
        picked: &[EntryNumber],
    ) -> bool
        requires { 0 < self.old.room }
        ensures pushed { IsTrue result → self.new.items ≡ self.old.items ++ record {
          caller = caller;
          event = event.now;
          answer = answer.now;
          picked = picked.now;
        } ∷ [] }
        ensures other { IsFalse result → self.new ≡ self.old }
        ensures room { self.old.room ≤ self.new.room + 1 }
        ensures taken { self.new.taken ≡ self.old.taken }
        ensures short { picked.now ≡ [] → IsSilentShort event.now answer.now → IsTrue result }
        ensures told { IsToldShort event.now answer.now picked.now → IsTrue result }
    {
        match Slot::of(caller, event, answer, picked) {
            Some(slot) => {
                self.slots.push_reserved(slot);
                true
            }
            None => self.push_many(caller, event, answer, picked),
        }
    }

    /// A record at the end, for which there is room. It needs no memory: where it is long it asks for room beside the
    /// slots, and stands whole if there is none.
    pub fn push_reserved(&mut self, one: Record)
        requires { 0 < self.old.room }
        ensures items { self.new.items ≡ self.old.items ++ one ∷ [] }
        ensures room { self.old.room ≤ self.new.room + 1 }
        ensures taken { self.new.taken ≡ self.old.taken }
    {
        if !self.push_short(one.caller, &one.event, &one.answer, one.picked.as_slice()) {
            self.push_long(one);
        }
    }

    /// The same of a record that `push_short` didn't take. Any other one would stand whole, too.
    #[inline(never)]
    pub fn push_long(&mut self, one: Record)
        requires { 0 < self.old.room }
        ensures items { self.new.items ≡ self.old.items ++ one ∷ [] }
        ensures room { self.old.room ≤ self.new.room + 1 }
        ensures taken { self.new.taken ≡ self.old.taken }
    {
        let (reports, bytes) = (listed_reports(&one), listed_bytes(&one));
        if reports == 0 && bytes == 0 {
            self.push_whole(one);
            return;
        }
        self.reserve_parts(reports, bytes);
        if !self.push_many(one.caller, &one.event, &one.answer, one.picked.as_slice()) {
            self.push_whole(one);
        }
    }

    /// A record that stands whole.
    fn push_whole(&mut self, one: Record)
        requires { 0 < self.old.room }
        ensures items { self.new.items ≡ self.old.items ++ one ∷ [] }
        ensures room { self.old.room ≤ self.new.room + 1 }
        ensures taken { self.new.taken ≡ self.old.taken }
    {
        let place = self.beside.push_long(one);
        self.slots.push_reserved(Slot::whole(place));
    }

    /// The record at this index, counted from 0. `None` past the last one.
    pub fn get(&self, index: usize) -> Option<Entry<'_>>
        ensures { result ≡ slice_get self.now.items index }
    {
        match self.slots.get(index) {
            Some(slot) => Some(Entry {
                slot,
                beside: &self.beside,
            }),
            None => None,
        }
    }

    /// The record of the event of this number, if each record is that of one. `None` if it was taken out, or isn't
    /// there yet, or the number is 0.
    pub fn numbered(&self, event: EventNumber) -> Option<Entry<'_>>
        ensures here { result ≡ numbered self.now event }
        ensures place { length self.now.taken < event
            → result ≡ slice_get (whole self.now) (event - 1) }
    {
        if event.0 <= self.before {
            return None;
        }
        let place = usize::try_from(event.0 - self.before - 1).ok()?;
        self.get(place)
    }

    /// The last record. `None` where there is none.
    pub fn last(&self) -> Option<Entry<'_>>
        ensures place { result ≡ slice_get self.now.items (length self.now.items - 1) }
        ensures last { (before : List Whole) (last : Whole)
            → self.now.items ≡ before ++ last ∷ [] → result ≡ Some last }
    {
        self.get(self.len().saturating_sub(1))
    }

    /// The records in order, from the first on. It takes no memory.
    pub fn iter(&self) -> Iter<'_>
        ensures { result ≡ self.now.items }
    {
        Iter {
            history: self,
            at: 0,
        }
    }

    /// The records in order, from this place on, counted from 0. It takes no memory.
    pub fn iter_from(&self, place: usize) -> Iter<'_>
        ensures { result ≡ drop place self.now.items }
    {
        Iter {
            history: self,
            at: place,
        }
    }

    /// The same records in a vector, each of some 200 bytes. An `AllocError` comes where memory is refused.
    pub fn copies(&self) -> Result<Vec<Record>, AllocError>
        ensures { IfOk result (λ copies. copies.items ≡ self.now.items) }
    {
        self.copies_from(0)
    }

    /// The records from this place on, counted from 0, in a vector. An `AllocError` comes where memory is refused.
    pub fn copies_from(&self, place: usize) -> Result<Vec<Record>, AllocError>
        ensures { IfOk result (λ copies. copies.items ≡ drop place self.now.items) }
    {
        let count = self.len().saturating_sub(place);
        let mut copies = Vec::with_capacity(*self.slots.allocator(), count)?;
        for entry in self.iter_from(place) {
            copies.push(entry.copy()?)?;
        }
        Ok(copies)
    }

    /// Forgets all records. Their room stays, and no memory is given back; the time grows with the long records.
    pub fn clear(&mut self)
        ensures items { self.new.items ≡ [] }
        ensures room { self.old.room ≤ self.new.room }
        ensures taken { self.new.taken ≡ self.old.taken }
    {
        self.slots.clear();
        self.beside.clear();
    }
}
