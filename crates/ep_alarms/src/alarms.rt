//! When the clock next raises IN at each live timer.
ghost use Rattle.std.specs.Prelude.{◌≡◌, ◌≤◌, IsSome, MatchOption, None, OnOk, Some, ℕ};
ghost use Rattle.ep_alarms.specs.Alarms.{AreSet, AreSetBut, IsKept, LosesDying};
ghost use Rattle.ep_alarms.specs.Timers.{timer_under};
ghost use Rattle.ep_calls.specs.Arrivals.{TellsArrival};
ghost use Rattle.ep_calls.specs.Raising.{due_bits, raised_each};
ghost use Rattle.ep_due.specs.DueMap.{HasNoneReached, HasRoom, IsReachedAt, SameMoments, SetsMoment, moment_of};
ghost use Rattle.ep_table.specs.Live.{live_ids};
ghost use Rattle.ep_table.specs.Value.{Seen, Sound, number_under};

use ep_base::{DescId, EventNumber, Moment};
use ep_counters::next_arrivals;
use ep_due::DueMap;
use ep_interest::Interest;
use ep_table::Tables;
use std::alloc::{AllocError, Global};
use std::marker::Model;

/// The live timers, each with the moment at which the clock next raises IN at it, or none where it won't. Contracts
/// see what `moment_of` tells of a description's key: nothing for what isn't among them. `new` and `earliest` take
/// constant time, and each other call time that grows as the logarithm of the number of timers for each timer that it
/// touches, but where a table grows.
#[derive(Drop)]
pub struct Alarms {
    moments: DueMap,
}

impl Model for Alarms {
    ghost use Rattle.ep_due.specs.DueMap.{Moments};

    ghost Value = { Moments };

    ghost view = { λ a. a.moments };
}

impl Alarms {
    /// No timer, which takes no memory.
    pub fn new(alloc: Global) -> Alarms
        ensures { (key : ℕ) → moment_of result key ≡ None }
    {
        Alarms {
            moments: DueMap::new(alloc),
        }
    }

    /// Makes room for one timer more. `AllocError` where there is no memory. No other call takes memory, and no
    /// moment changes.
    pub fn reserve(&mut self) -> Result<(), AllocError>
        ensures room { OnOk result (HasRoom self.new) }
        ensures kept { SameMoments self.old self.new }
    {
        self.moments.reserve()
    }

    /// Adds a timer that was created, where there is room for it: where the others were set, all are.
    pub fn add(&mut self, tables: &Tables, desc: DescId, now: Moment)
        requires timer { IsSome (timer_under tables.now desc.0) }
        requires none { moment_of self.old desc.0 ≡ None }
        requires room { HasRoom self.old }
        ensures { AreSetBut tables.now now desc.0 self.old → AreSet tables.now now self.new }
    {
        self.moments.add_reserved(desc.0, tables.next(desc, now));
    }

    /// Gives a timer another moment once it was set or read: where the others are set, all are. Any description may
    /// be asked for.
    pub fn set(&mut self, tables: &Tables, desc: DescId, now: Moment)
        requires live { IsSome (number_under tables.now desc) }
        ensures { IsKept tables.now desc.0 self.old → AreSetBut tables.now now desc.0 self.old
            → AreSet tables.now now self.new }
    {
        if self.moments.has(desc.0) {
            let next = tables.next(desc, now);
            self.moments.set(desc.0, next);
        }
    }

    /// Takes a description out, if it is among them.
    fn drop_one(&mut self, desc: DescId)
        ensures { SetsMoment self.old self.new desc.0 None }
    {
        if self.moments.has(desc.0) {
            self.moments.remove(desc.0);
        }
    }

    /// Takes the descriptions out that nothing names or holds any more.
    #[inline(always)]
    pub fn drop_dying(&mut self, tables: &Tables)
        ensures { LosesDying tables.now self.old self.new }
    {
        for desc in tables.dying() {
            self.drop_one(desc);
        }
    }

    /// The first moment at which the clock raises a bit at a live timer, after the moment for which all are set;
    /// `None` where it raises none.
    pub fn earliest(&self) -> Option<u64>
        ensures { (v : Seen) (now : ℕ) → Sound v → AreSet v now self.now
            → TellsArrival v.files now result }
    {
        next_arrivals();
        self.moments.earliest()
    }

    /// A timer whose moment is at or below `now`; `None` exactly where there is none.
    fn first(&self, now: Moment) -> Option<DescId>
        ensures { MatchOption result (HasNoneReached self.now now)
            (λ desc. IsReachedAt self.now now desc.0) }
    {
        let key = self.moments.first(now.at())?;
        Some(DescId(key))
    }

    /// Raises what timers raise by the clock going on from one moment to another, and gives them their next moments:
    /// only those whose moment has come are looked at.
    pub fn raise_due(
        &mut self,
        tables: &Tables,
        interest: &mut Interest,
        since: Moment,
        now: Moment,
        step: EventNumber,
    )
        requires order { since ≤ now }
        requires set { AreSet tables.now since self.old }
        ensures entries { interest.new.entries
            ≡ raised_each (due_bits tables.now since now) step (live_ids tables.now.keys)
            interest.old.entries }
        ensures keys { interest.new.keys ≡ interest.old.keys }
        ensures added { interest.new.added ≡ interest.old.added }
        ensures set { AreSet tables.now now self.new }
    {
        next_arrivals();
        while let Some(desc) = self.first(now) {
            interest.raise(desc, tables.advance(desc, since, now).first, step);
            self.moments.set(desc.0, tables.next(desc, now));
        }
    }
}
