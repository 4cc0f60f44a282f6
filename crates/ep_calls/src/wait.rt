//! epoll_wait.
ghost use Rattle.std.specs.Prelude.{◌≡◌, ◌≤◌, IfOk, MatchResult, OnErr, Some, false, map};
ghost use Rattle.std.specs.List.{list_any};
ghost use Rattle.ep_machine.specs.Effect.{first};
ghost use Rattle.ep_park.specs.Waiters.{is_caller};
ghost use Rattle.ep_calls.specs.Clock.{ClockStays};
ghost use Rattle.ep_calls.specs.Does.{DoesWait};
ghost use Rattle.ep_calls.specs.Kept.{IsKept};
ghost use Rattle.ep_calls.specs.Last.{NothingRefusesCall};
ghost use Rattle.ep_calls.specs.Wait.{AreKeyed, Waits, deadline_of, numbers_of, wait_call, wait_tests, with_report};

use crate::parking::park;
use crate::raising::Raising;
use crate::report::report;
use crate::{Outcome, Parts};
use ep_base::{
    Answer, CallerId, DescId, EntryId, Errno, EventNumber, Fd, Mask, Moment, Pid, Timeout,
};
use ep_interest::Entry;
use ep_park::Waiter;
use ep_table::Tables;
use std::alloc::AllocError;

/// The arguments of an epoll_wait, and the process that calls.
#[derive(Clone, Copy)]
pub struct Wait {
    /// The process that calls.
    pub pid: Pid,
    /// The descriptor of the instance.
    pub epfd: Fd,
    /// The most reports that it takes; 0 and less are refused.
    pub max: i32,
    /// How long it waits.
    pub timeout: Timeout,
    /// Whether a second record of it is asked for.
    pub kept: bool,
}

/// A registration that is reportable, with its key and what it shows.
#[derive(Clone, Copy)]
pub struct Reportable {
    /// The key of the registration.
    pub id: EntryId,
    /// The registration.
    pub entry: Entry,
    /// The bits that it shows.
    pub bits: Mask,
}

/// The instance that is waited for, or the refusal that comes first.
pub fn find_instance(tables: &Tables, args: Wait) -> Result<DescId, Errno>
    ensures { MatchResult result (λ desc. Waits tables.now args desc)
        (λ e. first (wait_tests tables.now.files args) ≡ Some e) }
{
    if args.max <= 0 {
        return Err(Errno::Einval);
    }
    let Some(desc) = tables.lookup(args.pid, args.epfd) else {
        return Err(Errno::Ebadf);
    };
    if !tables.object(desc).is_instance() {
        return Err(Errno::Einval);
    }
    Ok(desc)
}

/// The moment at which a wait ends with no report; `None` for a negative timeout, which has no end.
fn deadline(now: Moment, timeout: Timeout) -> Option<u64>
    ensures { result ≡ deadline_of now timeout }
{
    if timeout.0 < 0 {
        return None;
    }
    Some(now.at() + timeout.0 as u64)
}

impl Parts {
    /// A wait at an instance, with those of its registrations that it picks: it reports them. If there are none, it
    /// makes no report with a timeout of 0, and else the caller is parked until it is marked: for the timeout at most,
    /// and without end if that is negative.
    /// An `Err` is want of memory and leaves the parts. Nothing refuses the call then, since the instance was found.
    #[inline(always)]
    pub fn wait_with(
        &mut self,
        step: EventNumber,
        caller: CallerId,
        args: Wait,
        instance: DescId,
        chosen: &[Reportable],
    ) -> Result<Outcome, AllocError>
        requires free { list_any (is_caller caller.0) self.old.parked ≡ false }
        requires waits { Waits self.old.tables args instance }
        requires keyed { AreKeyed self.old.tables self.old.clock self.old.interest chosen.now }
        ensures ids { self.new.interest.keys ≡ self.old.interest.keys }
        ensures files { self.new.tables.files ≡ self.old.tables.files }
        ensures clock { IfOk result
            (λ outcome. ClockStays outcome.raising self.old.clock self.new.clock) }
        ensures entries { IfOk result
            (λ outcome. self.new.interest.entries
            ≡ map (with_report step outcome.picked) self.old.interest.entries) }
        ensures ok { IfOk result
            (λ outcome. DoesWait step caller.0 args instance chosen.now outcome self.old self.new) }
        ensures picked { IfOk result (λ outcome. outcome.picked ≡ numbers_of chosen.now) }
        ensures kept { IfOk result (λ outcome. IsKept args.kept outcome) }
        ensures last { OnErr result
            (NothingRefusesCall self.old args.pid.0 (wait_call args)) }
        ensures err { OnErr result (self.new ≡ self.old) }
    {
        self.tables.known();
        let timeout = args.timeout;
        let at_once = timeout.is_zero();
        if !chosen.is_empty() || at_once {
            report(self.alloc, &mut self.interest, step, chosen, args.kept)
        } else {
            let waiter = Waiter {
                process: args.pid,
                instance,
                max: args.max,
                deadline: deadline(self.clock, timeout),
                marked: false,
            };
            park(&mut self.tables, &mut self.waiters, caller, waiter)?;
            Ok(Outcome::settled(Answer::Parked, Raising::Nowhere))
        }
    }
}
