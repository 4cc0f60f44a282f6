//! Since which event registrations are reportable, and which registrations of an instance are.
ghost use Rattle.std.specs.Prelude.{◌≡◌, ◌<◌, ℕ, Some, false, length, nat_lt, slice_get, true};
ghost use Rattle.ep_machine.specs.Lists.{are_distinct, is_among};
ghost use Rattle.ep_rings.specs.PlacedRows.{keys_at};
ghost use Rattle.ep_dates.specs.Dates.{HasPlace, begun, date_at, ended, event_at, forgot, id_at, is_ready, renewed};

use ep_base::{DescId, EntryId, EntryNumber, EventNumber};
use ep_interest::Entry;
use ep_rings::PlacedRows;
use ep_walk::Walk;
use std::alloc::{AllocError, Global};
use std::marker::Model;
use std::mem;

/// Since which event each registration is reportable without a report, and for each instance a row of its registrations
/// that are, in the order in which they came to be so. An instance is ready exactly if its row isn't empty. Each call
/// takes constant time but those that make room.
#[derive(Drop)]
pub struct Dates {
    pub(crate) since: Vec<EventNumber>,
    pub(crate) ids: Vec<EntryId>,
    pub(crate) rows: PlacedRows,
    pub(crate) turned: Walk<Global>,
}

impl Model for Dates {
    ghost use Rattle.ep_dates.specs.Dates.{Dates as Dated};

    ghost Value = { Dated };

    ghost view = { λ d. record {
      since = d.since.items;
      ids = d.ids.items;
      rows = d.rows;
      turned = d.turned;
    } };
}

impl Dates {
    /// The event since which the registration with a number is reportable without a report, if it is.
    #[inline(always)]
    pub(crate) fn since(&self, number: EntryNumber) -> Option<EventNumber>
        ensures { result ≡ date_at self.now number }
    {
        let _rows = &self.rows;
        let event = *self.since.get(number.0 as usize)?;
        if event.is_event() {
            return Some(event);
        }
        None
    }

    /// Whether the registration with a number is reportable.
    #[inline(always)]
    pub fn is_dated(&self, number: EntryNumber) -> bool
        ensures { result ≡ nat_lt 0 (event_at self.now.since number) }
    {
        self.since(number).is_some()
    }

    /// Whether an instance has a registration that is reportable.
    pub fn is_ready(&self, instance: DescId) -> bool
        ensures { result ≡ is_ready self.now instance.0 }
    {
        let _since = &self.since;
        self.rows.first(instance).is_some()
    }

    /// What holds of all dates: no key stands in a row twice, and no instance is noted twice.
    pub fn known(&self)
        ensures rows { (i : ℕ) → are_distinct (keys_at self.now.rows i) ≡ true }
        ensures turned { are_distinct self.now.turned.reached ≡ true }
    {
        let _since = &self.since;
        self.rows.known();
        self.turned.known();
    }

    /// Whether an instance is noted.
    pub(crate) fn has_turned(&self, instance: DescId) -> bool
        ensures { result ≡ is_among self.now.turned.reached instance.0 }
    {
        let _since = &self.since;
        self.turned.has(instance.0)
    }

    /// How many instances are noted whose readiness turned.
    pub(crate) fn turned_count(&self) -> usize
        ensures { result ≡ length self.now.turned.reached }
    {
        let _since = &self.since;
        self.turned.count()
    }

    /// The instance that was noted as the one with this index.
    pub(crate) fn turned_at(&self, index: usize) -> DescId
        requires { index < length self.now.turned.reached }
        ensures { slice_get self.now.turned.reached index ≡ Some result.0 }
    {
        let _since = &self.since;
        DescId(self.turned.at(index))
    }

    /// Hands over which instances are noted, and notes on in another walk, which hands over its own.
    pub fn hand_over(&mut self, noted: &mut Walk<Global>)
        ensures dates { self.new ≡ record self.old { turned = noted.old } }
        ensures walk { noted.new ≡ self.old.turned }
    {
        mem::swap(&mut self.turned, noted);
    }

    /// Forgets which instances are noted. The time grows with how many are.
    pub fn forget(&mut self)
        ensures { self.new ≡ forgot self.old }
    {
        self.turned.forget();
    }

    /// The key that the registration with a number had when it last came to be reportable.
    pub fn id(&self, number: EntryNumber) -> EntryId
        ensures { result ≡ id_at self.now.ids number }
    {
        let _rows = &self.rows;
        match self.ids.get(number.0 as usize) {
            Some(id) => *id,
            None => EntryId(0),
        }
    }

    /// Dates the registration under a key, which is in no row: it is reportable since an event.
    pub(crate) fn begin(&mut self, id: EntryId, entry: &Entry, event: EventNumber)
        requires place { HasPlace self.old id entry.now }
        requires fresh { (i : ℕ) → is_among (keys_at self.old.rows i) id.0 ≡ false }
        ensures { self.new ≡ begun event id entry.now self.old }
    {
        let was_ready = self.is_ready(entry.instance);
        let number = entry.number.0 as usize;
        self.since[number] = event;
        self.ids[number] = id;
        self.rows.push(entry.instance, id);
        if !was_ready {
            self.turned.reach(entry.instance.0);
        }
    }

    /// Takes the date away of the registration under a key, which is in its instance's row: it is reportable no more.
    pub fn end(&mut self, id: EntryId, entry: &Entry)
        requires place { HasPlace self.old id entry.now }
        requires dated { is_among (keys_at self.old.rows entry.now.instance.0) id.0 ≡ true }
        ensures { self.new ≡ ended id entry.now self.old }
    {
        self.since[entry.number.0 as usize] = EventNumber(0);
        self.rows.remove(entry.instance, id);
        if !self.is_ready(entry.instance) {
            self.turned.reach(entry.instance.0);
        }
    }

    /// Dates the registration under a key anew, which is in its instance's row, and gives it the last turn: it was
    /// reported in an event.
    pub(crate) fn renew(&mut self, id: EntryId, entry: &Entry, event: EventNumber)
        requires place { HasPlace self.old id entry.now }
        requires dated { is_among (keys_at self.old.rows entry.now.instance.0) id.0 ≡ true }
        ensures { self.new ≡ renewed event id entry.now self.old }
    {
        self.rows.known();
        let number = entry.number;
        self.since[number.0 as usize] = event;
        self.rows.remove(entry.instance, id);
        self.rows.push(entry.instance, id);
    }
}
