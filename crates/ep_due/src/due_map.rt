//! Moments under keys, the earliest at hand.
ghost use Rattle.std.specs.Prelude.{◌≡◌, IsSome, MatchOption, None, OnErr, OnOk, Some, is_some, slice_set, ℕ};
ghost use Rattle.ep_due.specs.DueMap.{HasNoMoment, HasNoneReached, HasRoom, IsEarliest, IsReachedAt, SameMoments, SetsMoment, moment_of};
ghost use Rattle.ep_due.specs.DueQueue.{moment_at};

use crate::due::{DuePlace, DueQueue};
use indexmap::IndexMap;
use std::alloc::{AllocError, Allocator, Global};
use std::hash::{BuildHasherDefault, FoldHasher};
use std::marker::Model;

/// Keys, each with a moment or none. Contracts see what `moment_of` tells of a key: nothing for what isn't among
/// them, else the moment or none. With n keys, `first`, `earliest` and `has` take constant time, and each other call
/// time that grows as log n, but where a table grows. Memory comes from `A`.
#[derive(Drop)]
pub struct DueMap<A: Allocator = Global> {
    queue: DueQueue<A>,
    // The place in the queue of each key, and the key of each place that is in use.
    places: IndexMap<usize, DuePlace, BuildHasherDefault<FoldHasher>, A>,
    owners: IndexMap<usize, usize, BuildHasherDefault<FoldHasher>, A>,
}

impl<A: Allocator> Model for DueMap<A> {
    ghost use Rattle.ep_due.specs.DueMap.{AreOwned, Moments};
    ghost use Rattle.indexmap.specs.IndexMap.{spare};

    ghost Value = { Moments };

    ghost view = { λ d. record { queue = d.queue; places = d.places.entries; spare_places = spare d.places; spare_owners = spare d.owners } };

    ghost invariant = { λ d. AreOwned d.queue d.places.entries d.owners.entries };
}

impl<A: Allocator> DueMap<A> {
    /// No key, which takes no memory.
    pub fn new(alloc: A) -> Self
    where
        A: Copy,
        ensures { (key : ℕ) → moment_of result key ≡ None }
    {
        DueMap {
            queue: DueQueue::new(alloc),
            places: IndexMap::new(alloc),
            owners: IndexMap::new(alloc),
        }
    }

    /// Makes room for one key more. `AllocError` where there is no memory. This is the one call, beside `add`, that
    /// takes memory; no moment changes.
    pub fn reserve(&mut self) -> Result<(), AllocError>
        ensures room { OnOk result (HasRoom self.new) }
        ensures kept { SameMoments self.old self.new }
    {
        self.owners.reserve(1)?;
        self.places.reserve(1)?;
        let place = self.queue.make_place()?;
        self.queue.drop_place(place);
        Ok(())
    }

    /// Adds a key that isn't among them, where there is room for it.
    pub fn add_reserved(&mut self, key: usize, moment: Option<u64>)
        requires none { moment_of self.old key ≡ None }
        requires room { HasRoom self.old }
        ensures { SetsMoment self.old self.new key (Some moment) }
    {
        let place = self.queue.make_place().unwrap();
        put(&mut self.queue, place, moment);
        self.owners.insert(place.0, key).unwrap();
        self.places.insert(key, place).unwrap();
    }

    /// Adds a key that isn't among them. `AllocError` where there is no memory, and then no moment has changed.
    pub fn add(&mut self, key: usize, moment: Option<u64>) -> Result<(), AllocError>
        requires { moment_of self.old key ≡ None }
        ensures added { OnOk result (SetsMoment self.old self.new key (Some moment)) }
        ensures kept { OnErr result (SameMoments self.old self.new) }
    {
        self.reserve()?;
        self.add_reserved(key, moment);
        Ok(())
    }

    /// Whether a key is among them.
    pub fn has(&self, key: usize) -> bool
        ensures { result ≡ is_some (moment_of self.now key) }
    {
        self.places.contains_key(&key)
    }

    /// Gives a key another moment, or none.
    pub fn set(&mut self, key: usize, moment: Option<u64>)
        requires { IsSome (moment_of self.old key) }
        ensures { SetsMoment self.old self.new key (Some moment) }
    {
        let place = self.places[&key];
        put(&mut self.queue, place, moment);
    }

    /// Takes a key out.
    pub fn remove(&mut self, key: usize)
        requires { IsSome (moment_of self.old key) }
        ensures { SetsMoment self.old self.new key None }
    {
        let dropped = self.places[&key];
        self.queue.drop_place(dropped);
        self.places.swap_remove(&key);
    }

    /// A key whose moment is at or below `now`; `None` exactly where there is none.
    pub fn first(&self, now: u64) -> Option<usize>
        ensures { MatchOption result (HasNoneReached self.now now)
            (λ k. IsReachedAt self.now now k) }
    {
        let place = self.queue.first_due(now)?;
        Some(self.owners[&place.0])
    }

    /// The least moment of all; `None` exactly where no key has one.
    pub fn earliest(&self) -> Option<u64>
        ensures { MatchOption result (HasNoMoment self.now) (λ m. IsEarliest self.now m) }
    {
        self.queue.earliest()
    }
}

/// Gives a place of the queue a moment, or none.
fn put<A: Allocator>(queue: &mut DueQueue<A>, place: DuePlace, moment: Option<u64>)
    requires { IsSome (moment_at queue.old place.0) }
    ensures { queue.new ≡ slice_set queue.old place.0 (Some moment) }
{
    match moment {
        Some(moment) => queue.set(place, moment),
        None => queue.clear(place),
    }
}
