//! What stands beside the slots.
ghost use Rattle.std.specs.Prelude.{◌≡◌, ◌+◌, ◌<◌, ◌≤◌, [], ◌∷◌, ◌++◌, IsOk, MatchOption, OnOk, get_or, length};
ghost use Rattle.ep_records.specs.Lists.{blank, stretch};

use ep_base::{EntryNumber, Record, Report};
use std::alloc::{AllocError, Global};
use std::marker::Model;

/// The records that are kept whole, and the reports and bytes of those that have many. Contracts see the lists, and how
/// many more records fit before memory is asked for.
#[derive(Drop)]
pub struct Beside {
    long: Vec<Record>,
    reports: Vec<Report>,
    numbers: Vec<EntryNumber>,
    bytes: Vec<u8>,
}

impl Model for Beside {
    ghost use Rattle.ep_records.specs.Lists.{Lists};

    ghost Value = { Lists };

    ghost use Rattle.ep_records.specs.Aside.{lists_of};

    ghost view = { lists_of };
}

impl Beside {
    /// Nothing, which takes no memory.
    pub(crate) fn new(alloc: Global) -> Beside
        ensures { result ≡ record { long = []; reports = []; numbers = []; bytes = []; room = 0 } }
    {
        Beside {
            long: Vec::new(alloc),
            reports: Vec::new(alloc),
            numbers: Vec::new(alloc),
            bytes: Vec::new(alloc),
        }
    }

    /// The allocator.
    pub(crate) fn allocator(&self) -> Global {
        *self.long.allocator()
    }

    /// Room for so many further records.
    pub(crate) fn reserve(&mut self, additional: usize) -> Result<(), AllocError>
        ensures lists { self.new ≡ record self.old { room = self.new.room } }
        ensures ok { OnOk result (additional ≤ self.new.room) }
        ensures room { self.old.room ≤ self.new.room }
        ensures succeeds { additional ≤ self.old.room → IsOk result }
    {
        self.long.reserve(additional)
    }

    /// Room for so many further reports and bytes, as far as there is memory.
    pub(crate) fn reserve_parts(&mut self, reports: usize, bytes: usize)
        ensures { self.new ≡ self.old }
    {
        let _all = self.reports.reserve(reports).is_ok()
            && self.numbers.reserve(reports).is_ok()
            && self.bytes.reserve(bytes).is_ok();
    }

    /// A whole record more, and its place.
    pub(crate) fn push_long(&mut self, one: Record) -> usize
        requires { 0 < self.old.room }
        ensures place { result ≡ length self.old.long }
        ensures lists { self.new
            ≡ record self.old { long = self.old.long ++ one ∷ []; room = self.new.room } }
        ensures room { self.old.room ≤ self.new.room + 1 }
    {
        let place = self.long.len();
        self.long.push_reserved(one);
        place
    }

    /// Reports more and their numbers, and the places of the two. `None` where there is no room for them, and then
    /// nothing changes.
    pub(crate) fn push_reports(
        &mut self,
        reports: &[Report],
        numbers: &[EntryNumber],
    ) -> Option<(usize, usize)>
        ensures { MatchOption result (self.new ≡ self.old) (λ at. (at.0 ≡ length self.old.reports)
            × (at.1 ≡ length self.old.numbers)
            × (self.new ≡ record self.old {
              reports = self.old.reports ++ reports.now;
              numbers = self.old.numbers ++ numbers.now;
            })) }
    {
        let places = (self.reports.len(), self.numbers.len());
        if self.reports.capacity() - places.0 < reports.len() {
            return None;
        }
        if self.numbers.capacity() - places.1 < numbers.len() {
            return None;
        }
        self.reports.extend_from_slice(reports).unwrap();
        self.numbers.extend_from_slice(numbers).unwrap();
        Some(places)
    }

    /// Bytes more, and their place. `None` where there is no room for them, and then nothing changes.
    pub(crate) fn push_bytes(&mut self, bytes: &[u8]) -> Option<usize>
        ensures { MatchOption result (self.new ≡ self.old) (λ at. (at ≡ length self.old.bytes)
            × (self.new ≡ record self.old { bytes = self.old.bytes ++ bytes.now })) }
    {
        let place = self.bytes.len();
        if self.bytes.capacity() - place < bytes.len() {
            return None;
        }
        self.bytes.extend_from_slice(bytes).unwrap();
        Some(place)
    }

    /// The whole record at a place.
    pub(crate) fn long(&self, place: usize) -> &Record
        requires { place < length self.now.long }
        ensures { result.now ≡ get_or self.now.long place blank }
    {
        &self.long[place]
    }

    /// So many reports from a place on.
    pub(crate) fn reports(&self, from: usize, count: usize) -> &[Report]
        requires { from + count ≤ length self.now.reports }
        ensures { result.now ≡ stretch self.now.reports from count }
    {
        &self.reports[from..from + count]
    }

    /// So many numbers from a place on.
    pub(crate) fn numbers(&self, from: usize, count: usize) -> &[EntryNumber]
        requires { from + count ≤ length self.now.numbers }
        ensures { result.now ≡ stretch self.now.numbers from count }
    {
        &self.numbers[from..from + count]
    }

    /// So many bytes from a place on.
    pub(crate) fn bytes(&self, from: usize, count: usize) -> &[u8]
        requires { from + count ≤ length self.now.bytes }
        ensures { result.now ≡ stretch self.now.bytes from count }
    {
        &self.bytes[from..from + count]
    }

    /// Forgets all, and keeps the room.
    pub(crate) fn clear(&mut self)
        ensures room { self.old.room ≤ self.new.room }
    {
        self.long.clear();
        self.reports.clear();
        self.numbers.clear();
        self.bytes.clear();
    }
}
