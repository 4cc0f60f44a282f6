//! The list of waiters.
//!
//! Waiters stand in a queue by caller, in order of parking, and each instance that has waiters has a tally: who waits
//! longest there, and how many are marked. So what is asked of one caller or of one instance looks at no other
//! waiter.
ghost use Rattle.std.specs.Prelude.{◌≡◌, ◌++◌, ◌∷◌, ◌<◌, ℕ, [], MatchOption, OnErr, OnOk, false, length, map, nat_eq, true};
ghost use Rattle.std.specs.List.{IsDistinct, find, list_any};
ghost use Rattle.std.specs.Option.{option_map};
ghost use Rattle.ep_machine.specs.Waits.{is_due, is_marked_at, marked_if_due, unmark, waits_at};
ghost use Rattle.ep_park.specs.Changes.{with_mark_at};
ghost use Rattle.ep_park.specs.Deadlines.{IsAwaitedBy, awaits_mark};
ghost use Rattle.ep_park.specs.Waiters.{is_caller, is_marked_caller, is_of, longest_marked, parked, without};

use crate::deadlines::Deadlines;
use crate::process::{Processes, join, quit};
use crate::queue::Queue;
use crate::tally::{Tallies, count, discount, recount};
use crate::waiter::{Waiter, awaited};
use ep_base::{CallerId, DescId, Moment, Pid};
use indexmap::IndexMap;
use std::alloc::{AllocError, Allocator, Global};
use std::marker::Model;

/// The callers that are parked in epoll_wait(2). Contracts see the list of them in order of parking, each as the
/// machine's waiter with the key of its instance in the place of the instance's number. Memory comes from `A`.
#[derive(Drop)]
pub struct Park<A: Allocator = Global> {
    queue: Queue<A>,
    tallies: Tallies<A>,
    processes: Processes<A>,
    // The deadline of each waiter that isn't marked.
    deadlines: Deadlines<A>,
}

impl<A: Allocator> Model for Park<A> {
    ghost use Rattle.std.specs.Prelude.{List};
    ghost use Rattle.ep_machine.specs.State.{Waiter as Parked};

    ghost Value = { List Parked };

    ghost use Rattle.ep_park.specs.Deadlines.{HasDeadlines};
    ghost use Rattle.ep_park.specs.Processes.{IsCounted};
    ghost use Rattle.ep_park.specs.Tallies.{IsTallied};
    ghost use Rattle.ep_park.specs.Waiters.{listed};

    ghost view = { λ p. listed p.queue };

    ghost invariant = { λ p. IsTallied p.queue p.tallies.entries × IsCounted p.queue p.processes.entries
        × HasDeadlines p.queue p.deadlines };
}

impl<A: Allocator> Park<A> {
    /// Nobody is parked. This takes no memory.
    pub fn new(alloc: A) -> Self
    where
        A: Copy,
        ensures { result ≡ [] }
    {
        Park {
            queue: Queue::new(alloc),
            tallies: IndexMap::new(alloc),
            processes: IndexMap::new(alloc),
            deadlines: Deadlines::new(alloc),
        }
    }

    /// Parks a caller that isn't parked behind all others. This is the one call that takes memory; an error says that
    /// memory was refused, or that 2^64 - 1 callers were parked before, and leaves all as it was. The cost grows as
    /// the logarithm of the callers that are parked, but where a table grows.
    pub fn park(&mut self, caller: CallerId, waiter: Waiter) -> Result<(), AllocError>
    where
        A: Clone,
        requires { list_any (is_caller caller.0) self.old ≡ false }
        ensures parked { OnOk result (self.new ≡ self.old ++ parked caller.0 waiter ∷ []) }
        ensures kept { OnErr result (self.new ≡ self.old) }
    {
        prove!(self.queue.len() < usize::MAX);
        self.tallies.reserve(1)?;
        self.processes.reserve(1)?;
        self.deadlines.reserve()?;
        self.queue.push(caller, waiter)?;
        self.deadlines.add(caller, awaited(waiter));
        count(&mut self.tallies, caller, waiter);
        join(&mut self.processes, waiter.process);
        Ok(())
    }

    /// Takes a caller's waiter out and answers it; the rest stay in order. `None` where the caller isn't parked:
    /// nothing changes. The cost grows as the logarithm of the callers that are parked.
    pub fn leave(&mut self, caller: CallerId) -> Option<Waiter>
        ensures left { option_map (parked caller.0) result ≡ find (is_caller caller.0) self.old }
        ensures rest { self.new ≡ without caller.0 self.old }
    {
        let waiter = self.queue.remove(caller)?;
        self.deadlines.remove(caller);
        quit(&mut self.processes, waiter.process);
        let tally = self.tallies[&waiter.instance.0];
        let first = self.queue.first_at(waiter.instance);
        discount(&mut self.tallies, tally, waiter, first);
        Some(waiter)
    }

    /// Marks the caller that waits longest at an instance, where none of that instance is marked, else changes
    /// nothing. That the longest waiting one goes on is a rule of this kernel's own. The cost grows as the logarithm
    /// of the callers that are parked.
    pub fn mark_longest(&mut self, instance: DescId)
        ensures { self.new ≡ longest_marked instance.0 self.old }
    {
        let _parked = self.queue.len();
        let Some(tally) = self.tallies.get(&instance.0).copied() else {
            return;
        };
        if tally.marked > 0 {
            return;
        }
        self.set_mark(tally.first, true);
    }

    /// Marks exactly the callers whose deadline is at or below `now`; a mark that is there stays. The cost grows with
    /// the callers that this marks, each time the logarithm of those that are parked, and not with others.
    pub fn mark_due(&mut self, now: Moment)
        ensures { self.new ≡ map (marked_if_due now) self.old }
    {
        while let Some(caller) = self.next_due(now) {
            self.set_mark(caller, true);
        }
    }

    /// Takes a caller's mark away; nothing changes where it isn't parked or not marked. The cost grows as the
    /// logarithm of the callers that are parked.
    pub fn unmark(&mut self, caller: CallerId)
        ensures { self.new ≡ map (unmark caller.0) self.old }
    {
        let _parked = self.queue.len();
        if self.is_parked(caller) {
            self.set_mark(caller, false);
        }
    }

    /// A caller that isn't marked and whose deadline is at or below `now`.
    fn next_due(&self, now: Moment) -> Option<CallerId>
        ensures { MatchOption result (self.now ≡ map (marked_if_due now) self.now)
            (λ c. IsAwaitedBy self.now now c.0) }
    {
        let _parked = self.queue.len();
        self.deadlines.first(now)
    }

    /// Sets or takes a caller's mark.
    fn set_mark(&mut self, caller: CallerId, marked: bool)
        requires { list_any (is_caller caller.0) self.old ≡ true }
        ensures { self.new ≡ with_mark_at caller.0 marked self.old }
    {
        prove!(self.queue.len() < usize::MAX);
        let waiter = self.queue.get(caller).unwrap();
        let tally = self.tallies[&waiter.instance.0];
        self.deadlines
            .set(caller, awaited(Waiter { marked, ..waiter }));
        self.queue.set_mark(caller, marked);
        recount(&mut self.tallies, tally, waiter, marked);
    }

    /// No caller is parked twice: a fact for proofs, which costs nothing.
    pub fn known(&self)
        ensures { IsDistinct nat_eq (map (λ w. w.caller) self.now) }
    {
        let _count = self.queue.len();
    }

    /// How many callers are parked. The cost doesn't grow with them.
    pub fn count(&self) -> usize
        ensures { result ≡ length self.now }
    {
        self.queue.len()
    }

    /// A caller's waiter, or `None` where it isn't parked. The cost grows as the logarithm of the callers that are
    /// parked.
    pub fn waiter(&self, caller: CallerId) -> Option<Waiter>
        ensures { option_map (parked caller.0) result ≡ find (is_caller caller.0) self.now }
    {
        self.queue.get(caller)
    }

    /// Whether a process has a parked caller, which keeps it from exit and exec. The cost doesn't grow with the callers
    /// that are parked.
    pub fn any_of(&self, process: Pid) -> bool
        ensures { result ≡ list_any (is_of process.0) self.now }
    {
        self.processes.contains_key(&process.0)
    }

    /// Whether a caller is parked. The cost grows as the logarithm of the callers that are parked.
    pub fn is_parked(&self, caller: CallerId) -> bool
        ensures { result ≡ list_any (is_caller caller.0) self.now }
    {
        self.queue.get(caller).is_some()
    }

    /// Whether a caller is parked and marked. The cost grows as the logarithm of the callers that are parked.
    pub fn is_marked(&self, caller: CallerId) -> bool
        ensures { result ≡ list_any (is_marked_caller caller.0) self.now }
    {
        match self.queue.get(caller) {
            Some(waiter) => waiter.marked,
            None => false,
        }
    }

    /// Of the marked callers the one that was parked first, or `None` where none is marked. The cost grows with the
    /// callers that are parked.
    pub fn first_marked(&self) -> Option<CallerId>
        ensures { option_map (λ c. c.0) result
            ≡ option_map (λ w. w.caller) (find (λ w. w.marked) self.now) }
    {
        self.queue.first_marked()
    }

    /// The first moment at which the deadline of a caller that isn't marked has come, or `None` where none of them
    /// has one. The cost doesn't grow with the callers that are parked.
    pub fn first_deadline(&self) -> Option<u64>
        ensures { (now : ℕ) → is_due now result ≡ list_any (awaits_mark now) self.now }
    {
        let _parked = self.queue.len();
        self.deadlines.earliest()
    }

    /// Whether somebody waits at an instance. The cost doesn't grow with the callers that are parked.
    pub fn has_waiter(&self, instance: DescId) -> bool
        ensures { result ≡ waits_at self.now instance.0 }
    {
        self.tallies.contains_key(&instance.0)
    }

    /// Whether somebody who waits at an instance is marked. The cost doesn't grow with the callers that are parked.
    pub fn has_mark(&self, instance: DescId) -> bool
        ensures { result ≡ is_marked_at self.now instance.0 }
    {
        match self.tallies.get(&instance.0) {
            Some(tally) => tally.marked > 0,
            None => false,
        }
    }
}
