//! The moments of timers over an event: of the one that it creates, sets or reads, and of those that the clock reaches.
ghost use Rattle.std.specs.Prelude.{◌≡◌, ◌≤◌, true};
ghost use Rattle.ep_alarms.specs.Alarms.{AreSet};
ghost use Rattle.ep_alarms.specs.Changes.{AreSetSince, CreatesTimer, MayCreate, WereSet};
ghost use Rattle.ep_calls.specs.Raising.{IsRaising, Stirs};
ghost use Rattle.ep_calls.specs.Spared.{IsSpared};
ghost use Rattle.ep_due.specs.DueMap.{HasRoom, SameMoments};
ghost use Rattle.ep_machine.specs.Files.{Files};

use crate::alarms::Alarms;
use ep_base::{Call, DescId, Event, EventNumber, Fd, Pid};
use ep_calls::{Outcome, Parts, Raising, Reply};
use ep_table::Tables;

/// Does nothing. How many descriptor numbers there are at most; a fact for proofs.
fn know_limits(tables: &Tables)
    ensures { tables.now.limits.descriptors ≤ 65536 }
{
    let _descriptors = tables.limits().descriptors();
}

impl Alarms {
    /// Makes room for the timer that an event may create, and for nothing else. `false` is want of memory; no moment
    /// changes.
    #[inline(always)]
    pub fn make_room(&mut self, event: &Event) -> bool
        ensures room { result ≡ true → MayCreate event.now → HasRoom self.new }
        ensures kept { SameMoments self.old self.new }
        ensures spared { (files : Files) → IsSpared files event.now → result ≡ true }
    {
        match event {
            Event::Call {
                call: Call::TimerFd { .. },
                ..
            } => self.reserve().is_ok(),
            _ => true,
        }
    }

    /// Adds the timer that timerfd_create(2) created, if its answer is one.
    fn add_created(&mut self, parts: &Parts, pid: Pid, answer: &Reply)
        requires created { CreatesTimer answer.now parts.now pid.0 self.old }
        requires room { HasRoom self.old }
        ensures { AreSet parts.now.tables parts.now.clock self.new }
    {
        let Some(number) = answer.number() else {
            return;
        };
        if let Some(desc) = parts.tables.lookup(pid, Fd(number as i32)) {
            self.add(&parts.tables, desc, parts.clock);
        }
    }

    /// Gives the timer that an event created, set or read its next moment. `called`: the description on whose object
    /// the event is a call, as `find_called` answered it before the event. `has_room`: there was room for a timer that
    /// the event may create, without which it creates none.
    #[inline(always)]
    pub fn follow(
        &mut self,
        parts: &Parts,
        event: &Event,
        called: Option<DescId>,
        outcome: &Outcome,
        has_room: bool,
    )
        requires before { WereSet event.now called outcome.now has_room parts.now self.old }
        requires room { has_room ≡ true → MayCreate event.now → HasRoom self.old }
        ensures { AreSetSince outcome.now.raising parts.now.tables parts.now.clock self.new }
    {
        parts.known();
        know_limits(&parts.tables);
        if let Some(desc) = called {
            self.set(&parts.tables, desc, parts.clock);
            return;
        }
        let Event::Call { pid, call } = event else {
            return;
        };
        if let Call::TimerFd { .. } = call {
            if has_room {
                self.add_created(parts, *pid, &outcome.answer);
            }
        }
    }

    /// Notes in registrations what an event raised. Of timers only those are looked at whose moment has come, and they
    /// get their next one.
    #[inline(always)]
    pub fn raise(&mut self, parts: &mut Parts, step: EventNumber, raising: Raising)
        requires raises { IsRaising raising parts.old.tables }
        requires set { AreSetSince raising parts.old.tables parts.old.clock self.old }
        ensures stirs { Stirs raising parts.old.tables parts.old.clock step parts.old.interest
            parts.new.interest }
        ensures keys { parts.new.interest.keys ≡ parts.old.interest.keys }
        ensures others { parts.new ≡ record parts.old { interest = parts.new.interest } }
        ensures set { AreSet parts.new.tables parts.new.clock self.new }
    {
        match raising {
            Raising::Clock { since } => {
                parts.tables.known();
                self.raise_due(&parts.tables, &mut parts.interest, since, parts.clock, step);
            }
            _ => parts.raise(step, raising),
        }
    }
}
