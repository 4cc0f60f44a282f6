//! Waiters by caller, in order of parking.
ghost use Rattle.std.specs.List.{IsDistinct, find};
ghost use Rattle.std.specs.Map.{keys_of, lookup, remove_entry, set_value};
ghost use Rattle.std.specs.Option.{option_map};
ghost use Rattle.std.specs.Ordering.{nat_cmp};
ghost use Rattle.std.specs.List.Sorted.{IsStrictlySortedBy};
ghost use Rattle.std.specs.Prelude.{◌≡◌, ◌++◌, ◌∷◌, ◌<◌, ◌^◌, [], IsSome, None, OnErr, OnOk, Some, length, map, nat_eq};
ghost use Rattle.ep_park.specs.Queue.{in_turn, marked_in};
ghost use Rattle.ep_park.specs.Tallies.{first_at};
ghost use Rattle.ep_park.specs.Waiters.{listed};

use crate::place::{Place, Places, first_place};
use crate::turn::Turn;
use crate::waiter::Waiter;
use ep_base::{CallerId, DescId};
use indexmap::IndexMap;
use std::alloc::{AllocError, Allocator};
use std::collections::BTreeMap;
use std::hash::{BuildHasherDefault, FoldHasher};
use std::marker::Model;

/// Callers with their waiters, in order of parking. Contracts see the list of them. With n callers, each call takes
/// time that grows as log n, unless its comment says otherwise, and but where a table grows. Memory comes from `A`.
#[derive(Drop)]
pub struct Queue<A: Allocator> {
    // By ticket. Tickets rise with each parking, so this is the order of parking.
    turns: BTreeMap<u64, Turn, A>,
    // The ticket of each caller.
    tickets: IndexMap<u32, u64, BuildHasherDefault<FoldHasher>, A>,
    // The callers by instance and ticket.
    places: Places<A>,
    // The ticket that was given out last.
    last: u64,
}

impl<A: Allocator> Model for Queue<A> {
    ghost use Rattle.std.specs.Prelude.{List, ℕ};
    ghost use Rattle.ep_park.specs.declared.waiter.Waiter.{Waiter as Wait};

    ghost Value = { List (ℕ × Wait) };

    ghost use Rattle.ep_park.specs.Queue.{IsQueue, in_turn};

    ghost view = { λ q. in_turn q.turns.entries };

    ghost invariant = { λ q. IsQueue q.turns.entries q.tickets.entries q.places.entries q.last };
}

impl<A: Allocator> Queue<A> {
    /// Nobody, which takes no memory.
    pub fn new(alloc: A) -> Self
    where
        A: Copy,
        ensures { result ≡ [] }
    {
        Queue {
            turns: BTreeMap::new(alloc),
            tickets: IndexMap::new(alloc),
            places: BTreeMap::new(alloc),
            last: 0,
        }
    }

    /// Puts a caller that isn't among them behind all others. `AllocError` where there is no memory, or no ticket is
    /// left after 2^64 - 1 of them, and then nothing has changed. No other call takes memory.
    pub fn push(&mut self, caller: CallerId, waiter: Waiter) -> Result<(), AllocError>
    where
        A: Clone,
        requires { lookup (nat_eq caller.0) self.old ≡ None }
        ensures pushed { OnOk result (self.new ≡ self.old ++ (caller.0, waiter) ∷ []) }
        ensures kept { OnErr result (self.new ≡ self.old) }
    {
        if self.last == u64::MAX {
            return Err(AllocError);
        }
        self.tickets.reserve(1)?;
        let ticket = self.last + 1;
        self.turns.insert(ticket, Turn { caller, waiter })?;
        match self
            .places
            .insert(Place::new(waiter.instance, ticket), caller)
        {
            Ok(_) => {}
            Err(refused) => {
                self.turns.remove(&ticket);
                return Err(refused.into());
            }
        }
        self.tickets.insert(caller.0, ticket).unwrap();
        self.last = ticket;
        Ok(())
    }

    /// Takes a caller's waiter out and answers it; `None` where the caller isn't among them.
    pub fn remove(&mut self, caller: CallerId) -> Option<Waiter>
        ensures value { result ≡ lookup (nat_eq caller.0) self.old }
        ensures rest { self.new ≡ remove_entry (nat_eq caller.0) self.old }
        ensures unique { IsDistinct nat_eq (keys_of self.old) }
    {
        let ticket = self.tickets.swap_remove(&caller.0)?;
        let turn = self.turns.remove(&ticket).unwrap();
        let place = Place::new(turn.waiter.instance, ticket);
        self.places.remove(&place);
        Some(turn.waiter)
    }

    /// Sets or takes a caller's mark.
    pub fn set_mark(&mut self, caller: CallerId, marked: bool)
        requires { IsSome (lookup (nat_eq caller.0) self.old) }
        ensures { self.new ≡ marked_in caller.0 marked self.old }
    {
        let ticket = self.tickets[&caller.0];
        let mut turn = self.turns[&ticket];
        turn.waiter.marked = marked;
        rewrite(&mut self.turns, ticket, turn);
    }

    /// A caller's waiter; `None` where the caller isn't among them.
    pub fn get(&self, caller: CallerId) -> Option<Waiter>
        ensures value { result ≡ lookup (nat_eq caller.0) self.now }
        ensures unique { IsDistinct nat_eq (keys_of self.now) }
    {
        let ticket = self.tickets.get(&caller.0)?;
        Some(self.turns[ticket].waiter)
    }

    /// The caller that waits longest at an instance.
    pub fn first_at(&self, instance: DescId) -> Option<CallerId>
        ensures { option_map (λ c. c.0) result ≡ first_at instance.0 (listed self.now) }
    {
        first_place(&self.places, instance, self.last)
    }

    /// How many callers there are, each once. It takes constant time.
    pub fn len(&self) -> usize
        ensures len { result ≡ length self.now }
        ensures small { result < 2 ^ 63 }
        ensures unique { IsDistinct nat_eq (keys_of self.now) }
    {
        self.turns.len()
    }

    /// The marked caller that waits longest. The cost grows with the callers.
    pub fn first_marked(&self) -> Option<CallerId>
        ensures { option_map (λ c. c.0) result
            ≡ option_map (λ w. w.caller) (find (λ w. w.marked) (listed self.now)) }
    {
        first_marked(&self.turns)
    }
}

/// The marked caller with the smallest ticket.
fn first_marked<A: Allocator>(turns: &BTreeMap<u64, Turn, A>) -> Option<CallerId>
    ensures { option_map (λ c. c.0) result
        ≡ option_map (λ w. w.caller)
        (find (λ w. w.marked) (listed (in_turn turns.now.entries))) }
{
    for (_, turn) in turns.iter() {
        if turn.waiter.marked {
            return Some(turn.caller);
        }
    }
    None
}

/// Writes the turn under a ticket that has one.
fn rewrite<A: Allocator>(turns: &mut BTreeMap<u64, Turn, A>, ticket: u64, turn: Turn)
    requires { IsSome (lookup (nat_eq ticket) turns.old.entries) }
    ensures entries { turns.new.entries ≡ set_value (nat_eq ticket) turns.old.entries turn }
    ensures rise { IsStrictlySortedBy nat_cmp (keys_of turns.new.entries) }
{
    if let Some(place) = turns.get_mut(&ticket) {
        *place = turn;
    }
}
