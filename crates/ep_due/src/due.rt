//! The due queue: places, each with a moment or none.
ghost use Rattle.std.specs.Prelude.{◌≡◌, [], Some, None, IsSome, IsOk, OnErr, IfOk, MatchOption, slice_set};
ghost use Rattle.ep_due.specs.DueQueue.{GainsPlace, HasFreePlace, HasNoMoments, HasNoneDue, IsLeastDue, IsLeastMoment, moment_at};

use crate::heap::{Item, put, withdraw};
use std::alloc::{AllocError, Allocator, Global};
use std::marker::Model;

/// The number of a place, which is used again once the place is dropped.
#[derive(Clone, Copy)]
pub struct DuePlace(pub usize);

/// Places, each of which has a moment, in microseconds, or none. Contracts see a list with an item for each number:
/// nothing, or a place's moment or none. With n places, `first_due` takes constant time, and `set`, `clear` and
/// `drop_place` take time that grows as log n. Memory comes from `A`.
#[derive(Drop)]
pub struct DueQueue<A: Allocator = Global> {
    heap: Vec<Item, A>,
    // Where the item of each place stands.
    places: Vec<usize, A>,
    // How many items, from the front on, are of places that are in use.
    live: usize,
}

impl<A: Allocator> Model for DueQueue<A> {
    ghost use Rattle.std.specs.Prelude.{List, ℕ, Option};
    ghost use Rattle.ep_due.specs.DueQueue.{moments, IsHeap};

    ghost Value = { List (Option (Option ℕ)) };

    ghost view = { λ q. moments q.live q.heap.items q.places.items };

    ghost invariant = { λ q. IsHeap q.live q.heap.items q.places.items };
}

impl<A: Allocator> DueQueue<A> {
    /// No place, which takes no memory.
    pub fn new(alloc: A) -> Self
    where
        A: Copy,
        ensures { result ≡ [] }
    {
        DueQueue {
            heap: Vec::new(alloc),
            places: Vec::new(alloc),
            live: 0,
        }
    }

    /// Makes a place that has no moment. `AllocError` where there is no memory, and then nothing has changed; where a
    /// place was dropped, its number is used again, without memory. No other call takes memory.
    pub fn make_place(&mut self) -> Result<DuePlace, AllocError>
        ensures made { IfOk result (λ p. GainsPlace self.old self.new p.0) }
        ensures again { HasFreePlace self.old → IsOk result }
        ensures err { OnErr result (self.new ≡ self.old) }
    {
        if self.live < self.heap.len() {
            let place = self.heap[self.live].place;
            self.heap[self.live] = Item {
                moment: None,
                place,
            };
            self.live += 1;
            return Ok(DuePlace(place));
        }
        let place = self.heap.len();
        self.heap.try_reserve(1)?;
        self.places.push(place)?;
        let item = Item {
            moment: None,
            place,
        };
        let _pushed = self.heap.push(item);
        self.live += 1;
        Ok(DuePlace(place))
    }

    /// Ends a place.
    pub fn drop_place(&mut self, place: DuePlace)
        requires { IsSome (moment_at self.old place.0) }
        ensures { self.new ≡ slice_set self.old place.0 None }
    {
        self.live -= 1;
        withdraw(&mut self.heap, &mut self.places, self.live, place.0);
    }

    /// Gives a place a moment, in place of the one that it had.
    pub fn set(&mut self, place: DuePlace, moment: u64)
        requires { IsSome (moment_at self.old place.0) }
        ensures { self.new ≡ slice_set self.old place.0 (Some (Some moment)) }
    {
        put(
            &mut self.heap,
            &mut self.places,
            self.live,
            place.0,
            Some(moment),
        );
    }

    /// Takes a place's moment away.
    pub fn clear(&mut self, place: DuePlace)
        requires { IsSome (moment_at self.old place.0) }
        ensures { self.new ≡ slice_set self.old place.0 (Some None) }
    {
        put(&mut self.heap, &mut self.places, self.live, place.0, None);
    }

    /// A place whose moment is at or below `now`, none of the others having a smaller one; `None` exactly where there
    /// is none.
    pub fn first_due(&self, now: u64) -> Option<DuePlace>
        ensures { MatchOption result (HasNoneDue self.now now) (λ p. IsLeastDue self.now now p.0) }
    {
        let _kept = &self.places;
        if self.live == 0 {
            return None;
        }
        let first = self.heap[0];
        match first.moment {
            Some(moment) if moment <= now => Some(DuePlace(first.place)),
            _ => None,
        }
    }

    /// The least moment of all; `None` exactly where no place has one. It takes constant time.
    pub fn earliest(&self) -> Option<u64>
        ensures { MatchOption result (HasNoMoments self.now) (λ m. IsLeastMoment self.now m) }
    {
        let _kept = &self.places;
        if self.live == 0 {
            return None;
        }
        let top = self.heap[0];
        top.moment
    }
}
