//! One list of registrations for each instance, by their own keys.
ghost use Rattle.std.specs.Prelude.{◌≡◌, ◌≤◌, ℕ, None, IsSome, is_some, OnOk, OnErr, length};
ghost use Rattle.std.specs.Map.Iter.{ShowsInOrder};
ghost use Rattle.ep_base.specs.declared.ids.EntryId.{EntryId};
ghost use Rattle.ep_ready.specs.ReadyLists.{GainsPlace, IsSound, LosesPlace, Same, after_push, after_removal};
ghost use Rattle.ep_ready.specs.ReadyLists.{after_rotation, empty, front_of, ids, instance_at, list_at};
ghost use Rattle.ep_ready.specs.ReadyLists.{stands};
ghost use Rattle.ep_ready.specs.Tied.{place_at};

use ep_base::{DescId, EntryId};
use ep_rings::{Keys, PlacedRows};
use std::alloc::{AllocError, Allocator, Global};
use std::marker::Model;

/// The place of a registration.
#[derive(Clone, Copy)]
struct Place {
    instance: DescId,
    // Whether it stands on its instance's list.
    stands: bool,
}

/// One list of registrations for each instance. A registration with a place stands on its instance's list or on none.
/// Each call but `make_place` and a walk of `iter` takes constant time. Memory comes from `A`.
#[derive(Drop)]
pub struct ReadyLists<A: Allocator = Global> {
    // For each instance the keys of what stands on its list.
    rows: PlacedRows<A>,
    // The place of each registration, by its key.
    places: Vec<Option<Place>, A>,
}

impl<A: Allocator> Model for ReadyLists<A> {
    ghost use Rattle.ep_ready.specs.ReadyLists.{Lists};
    ghost use Rattle.ep_ready.specs.Tied.{IsTied, value_of};

    ghost Value = { Lists };

    ghost view = { λ r. value_of r.rows r.places.items };

    ghost invariant = { λ r. IsTied r.rows r.places.items };
}

/// Makes room for the places of the keys below a number. No key has another place after it, whatever the result.
fn add_keys<A: Allocator>(places: &mut Vec<Option<Place>, A>, keys: usize) -> Result<(), AllocError>
    ensures same { (e : ℕ) → place_at places.new.items e ≡ place_at places.old.items e }
    ensures room { OnOk result (keys ≤ length places.new.items) }
{
    if places.len() < keys {
        places.resize(keys, None)?;
    }
    Ok(())
}

impl<A: Allocator> ReadyLists<A> {
    /// No place and no list, which takes no memory.
    pub fn new(alloc: A) -> Self
    where
        A: Copy,
        ensures { result ≡ empty }
    {
        ReadyLists {
            rows: PlacedRows::new(alloc),
            places: Vec::new(alloc),
        }
    }

    /// What holds of all ready lists: none has a registration twice, what stands on one has a place of its instance,
    /// and the instance of a place has a list.
    pub fn known(&self)
        ensures { IsSound self.now }
    {
        self.rows.known();
    }

    /// Whether a registration has a place.
    pub fn has_place(&self, entry: EntryId) -> bool
        ensures { result ≡ is_some (instance_at self.now entry) }
    {
        if entry.0 >= self.places.len() {
            return false;
        }
        self.places[entry.0].is_some()
    }

    /// Whether a registration has a place and stands on its instance's list.
    pub fn stands(&self, entry: EntryId) -> bool
        ensures { result ≡ stands self.now entry }
    {
        if entry.0 >= self.places.len() {
            return false;
        }
        match self.places[entry.0] {
            Some(place) => place.stands,
            None => false,
        }
    }

    /// Gives a registration a place that stands on no list. `AllocError` where there is no memory, and then each place
    /// and each list are what they were. No other call takes memory.
    pub fn make_place(&mut self, instance: DescId, entry: EntryId) -> Result<(), AllocError>
        requires free { instance_at self.old entry ≡ None }
        ensures made { OnOk result (GainsPlace self.old self.new instance.0 entry) }
        ensures refused { OnErr result (Same self.old self.new) }
    {
        let keys = entry.0.checked_add(1).ok_or(AllocError)?;
        let instances = instance.0.checked_add(1).ok_or(AllocError)?;
        add_keys(&mut self.places, keys)?;
        self.rows.reserve(instances, keys)?;
        self.places[entry.0] = Some(Place {
            instance,
            stands: false,
        });
        Ok(())
    }

    /// Takes a registration off its list, where it stands on it, and takes its place away.
    pub fn drop_place(&mut self, entry: EntryId)
        requires place { IsSome (instance_at self.old entry) }
        ensures { LosesPlace self.old self.new entry }
    {
        self.known();
        self.remove(entry);
        self.places[entry.0] = None;
    }

    /// Puts a registration at the end of its instance's list, where it stands on none.
    pub fn push_back(&mut self, entry: EntryId)
        requires place { IsSome (instance_at self.old entry) }
        ensures { self.new ≡ after_push self.old entry }
    {
        let Some(place) = self.places[entry.0] else {
            return;
        };
        if place.stands {
            return;
        }
        self.rows.push(place.instance, entry);
        self.places[entry.0] = Some(Place {
            stands: true,
            ..place
        });
    }

    /// Takes a registration off its instance's list, where it stands on it.
    pub fn remove(&mut self, entry: EntryId)
        requires place { IsSome (instance_at self.old entry) }
        ensures { self.new ≡ after_removal self.old entry }
    {
        let Some(place) = self.places[entry.0] else {
            return;
        };
        if !place.stands {
            return;
        }
        self.rows.remove(place.instance, entry);
        self.places[entry.0] = Some(Place {
            stands: false,
            ..place
        });
    }

    /// The first registration on an instance's list; `None` where the list is empty.
    pub fn front(&self, instance: DescId) -> Option<EntryId>
        ensures { result ≡ front_of self.now instance.0 }
    {
        self.rows.first(instance)
    }

    /// Moves the first registration on an instance's list to the end; an empty list stays empty.
    pub fn rotate(&mut self, instance: DescId)
        ensures { self.new ≡ after_rotation self.old instance.0 }
    {
        self.rows.rotate(instance);
    }

    /// How many registrations stand on an instance's list, which is kept and not counted.
    pub fn len(&self, instance: DescId) -> usize
        ensures { result ≡ length (list_at self.now instance.0) }
    {
        self.rows.len(instance)
    }

    /// The registrations on an instance's list, in order.
    pub fn iter(&self, instance: DescId) -> Keys<'_>
        ensures exact { result ≡ ids (list_at self.now instance.0) }
        ensures runs { ShowsInOrder (λ (id : EntryId). id) }
    {
        self.rows.keys(instance)
    }
}
