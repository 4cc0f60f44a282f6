//! Which registrations pass something on.
ghost use Rattle.std.specs.List.{IsDistinct, swap_remove};
ghost use Rattle.std.specs.Prelude.{◌≡◌, ◌<◌, ◌≤◌, ◌++◌, ◌∷◌, ℕ, [], IfSome, OnOk, Some, false};
ghost use Rattle.std.specs.Prelude.{if◌then◌else◌, nat_eq, slice_get, slice_index_or, vec_capacity, vec_len};
ghost use Rattle.ep_interest.specs.Passes.{has_id, key_numbers};

use ep_base::EntryId;
use std::alloc::{AllocError, Allocator, Global};

/// The keys of the registrations that pass something on, each once.
#[derive(Drop)]
pub(crate) struct Passes<A: Allocator = Global> {
    pub(crate) keys: Vec<EntryId, A>,
    // By the number of a key, where that key was put in the list. One that is wrong costs time alone.
    places: Vec<usize, A>,
}

impl<A: Allocator> Passes<A> {
    /// No key, which takes no memory.
    pub(crate) fn new(alloc: A) -> Passes<A>
    where
        A: Copy,
        ensures { result.keys.items ≡ [] }
    {
        Passes {
            keys: Vec::new(alloc),
            places: Vec::new(alloc),
        }
    }

    /// Takes memory for so many keys in all.
    pub(crate) fn reserve(&mut self, many: usize) -> Result<(), AllocError>
        ensures keys { self.new.keys.items ≡ self.old.keys.items }
        ensures room { OnOk result (many ≤ vec_capacity self.new.keys) }
        ensures kept { vec_capacity self.old.keys ≤ vec_capacity self.new.keys }
    {
        self.keys.reserve(many)?;
        if self.places.len() < many {
            self.places.resize(many, 0)?;
        }
        Ok(())
    }

    /// Notes where a key stands in the list.
    fn note_place(&mut self, id: EntryId, place: usize)
        ensures { self.new.keys ≡ self.old.keys }
    {
        if id.0 < self.places.len() {
            self.places[id.0] = place;
        }
    }

    /// Where a key stands in the list, by what was noted; `None` where it isn't there.
    fn place_of(&self, id: EntryId) -> Option<usize>
        ensures { IfSome result (λ place. slice_get self.now.keys.items place ≡ Some id) }
    {
        let place = *self.places.get(id.0)?;
        let key = self.keys.get(place)?;
        if key.0 == id.0 { Some(place) } else { None }
    }

    /// Puts a key at the end of the list.
    fn push(&mut self, id: EntryId)
        requires { vec_len self.old.keys < vec_capacity self.old.keys }
        ensures keys { self.new.keys.items ≡ self.old.keys.items ++ id ∷ [] }
        ensures kept { vec_capacity self.new.keys ≡ vec_capacity self.old.keys }
    {
        let place = self.keys.len();
        self.note_place(id, place);
        self.keys.push_reserved(id);
    }

    /// Takes the key at a place out of the list; the last one moves there.
    fn remove_at(&mut self, place: usize) -> EntryId
        requires { place < vec_len self.old.keys }
        ensures key { result ≡ slice_index_or self.old.keys.items place result }
        ensures keys { self.new.keys.items ≡ swap_remove self.old.keys.items place result }
        ensures kept { vec_capacity self.new.keys ≡ vec_capacity self.old.keys }
    {
        let id = self.keys.swap_remove(place);
        if place < self.keys.len() {
            let moved = self.keys[place];
            self.note_place(moved, place);
        }
        id
    }

    /// Takes a key out of the list.
    fn remove(&mut self, id: EntryId)
        requires { IsDistinct nat_eq (key_numbers self.old.keys.items) }
        ensures once { IsDistinct nat_eq (key_numbers self.new.keys.items) }
        ensures noted { (k : ℕ) → has_id self.new.keys.items k
            ≡ (if nat_eq id.0 k then false else has_id self.old.keys.items k) }
        ensures kept { vec_capacity self.new.keys ≡ vec_capacity self.old.keys }
    {
        match self.place_of(id) {
            Some(place) => {
                self.remove_at(place);
            }
            None => self.keys.retain(|key| key.0 != id.0),
        }
    }

    /// Notes whether the registration under a key passes something on, which it did or didn't before. Takes no
    /// memory, and constant time.
    pub(crate) fn follow(&mut self, id: EntryId, before: bool, after: bool)
        requires once { IsDistinct nat_eq (key_numbers self.old.keys.items) }
        requires noted { has_id self.old.keys.items id.0 ≡ before }
        requires room { before ≡ false → vec_len self.old.keys < vec_capacity self.old.keys }
        ensures once { IsDistinct nat_eq (key_numbers self.new.keys.items) }
        ensures noted { (k : ℕ) → has_id self.new.keys.items k
            ≡ (if nat_eq id.0 k then after else has_id self.old.keys.items k) }
        ensures kept { vec_capacity self.old.keys ≤ vec_capacity self.new.keys }
    {
        if before == after {
            return;
        }
        if after {
            self.push(id);
        } else {
            self.remove(id);
        }
    }
}
