//! The moments that parked callers wait for, the earliest at hand.
ghost use Rattle.std.specs.Prelude.{◌≡◌, IsSome, MatchOption, None, OnOk, Some, ℕ};
ghost use Rattle.ep_park.specs.Deadlines.{HasNoMoment, HasNoneReached, HasRoom, IsEarliest, IsReachedAt};
ghost use Rattle.ep_park.specs.Deadlines.{SameMoments, SetsMoment, moment_of};

use ep_base::{CallerId, Moment};
use ep_due::DueMap;
use std::alloc::{AllocError, Allocator};
use std::marker::Model;

/// Callers, each with a moment or none. Contracts see what `moment_of` tells of a caller: nothing for who isn't among
/// them, else the moment or none. With n callers, `first` and `earliest` take constant time, and each other call time
/// that grows as log n. Memory comes from `A`.
#[derive(Drop)]
pub struct Deadlines<A: Allocator> {
    moments: DueMap<A>,
}

impl<A: Allocator> Model for Deadlines<A> {
    ghost use Rattle.ep_park.specs.Deadlines.{AreCallers, Moments};

    ghost Value = { Moments };

    ghost view = { λ d. d.moments };

    ghost invariant = { λ d. AreCallers d.moments };
}

impl<A: Allocator> Deadlines<A> {
    /// No caller, which takes no memory.
    pub fn new(alloc: A) -> Self
    where
        A: Copy,
        ensures { (caller : ℕ) → moment_of result caller ≡ None }
    {
        Deadlines {
            moments: DueMap::new(alloc),
        }
    }

    /// Makes room for one caller more. `AllocError` where there is no memory. This is the one call that takes memory;
    /// no moment changes.
    pub fn reserve(&mut self) -> Result<(), AllocError>
        ensures room { OnOk result (HasRoom self.new) }
        ensures kept { SameMoments self.old self.new }
    {
        self.moments.reserve()
    }

    /// Adds a caller that isn't among them, where there is room for it.
    pub fn add(&mut self, caller: CallerId, moment: Option<u64>)
        requires none { moment_of self.old caller.0 ≡ None }
        requires room { HasRoom self.old }
        ensures { SetsMoment self.old self.new caller.0 (Some moment) }
    {
        self.moments.add_reserved(caller.0 as usize, moment);
    }

    /// Gives a caller another moment, or none.
    pub fn set(&mut self, caller: CallerId, moment: Option<u64>)
        requires { IsSome (moment_of self.old caller.0) }
        ensures { SetsMoment self.old self.new caller.0 (Some moment) }
    {
        self.moments.set(caller.0 as usize, moment);
    }

    /// Takes a caller out.
    pub fn remove(&mut self, caller: CallerId)
        requires { IsSome (moment_of self.old caller.0) }
        ensures { SetsMoment self.old self.new caller.0 None }
    {
        self.moments.remove(caller.0 as usize);
    }

    /// A caller whose moment is at or below `now`; `None` exactly where there is none.
    pub fn first(&self, now: Moment) -> Option<CallerId>
        ensures { MatchOption result (HasNoneReached self.now now)
            (λ c. IsReachedAt self.now now c.0) }
    {
        let caller = self.moments.first(now.at())?;
        Some(CallerId(caller as u32))
    }
    /// The least moment of all; `None` exactly where no caller has one.
    pub fn earliest(&self) -> Option<u64>
        ensures { MatchOption result (HasNoMoment self.now) (λ m. IsEarliest self.now m) }
    {
        self.moments.earliest()
    }
}
