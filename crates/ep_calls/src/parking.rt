//! Parked waits.
ghost use Rattle.std.specs.Prelude.{◌≡◌, ◌++◌, ◌∷◌, [], IfOk, IsSome, OnErr, OnOk, Some, false, map, true};
ghost use Rattle.std.specs.List.{find, list_any};
ghost use Rattle.ep_base.specs.declared.call.Event.TheVariants.{Resume};
ghost use Rattle.ep_machine.specs.Lists.{is_among};
ghost use Rattle.ep_park.specs.Waiters.{is_caller, parked, without};
ghost use Rattle.ep_calls.specs.Clock.{ClockStays};
ghost use Rattle.ep_calls.specs.Does.{DoesResume};
ghost use Rattle.ep_calls.specs.Kept.{IsKept};
ghost use Rattle.ep_calls.specs.Last.{NothingRefuses};
ghost use Rattle.ep_calls.specs.Stands.{AreHeld, ArePlaced};
ghost use Rattle.ep_calls.specs.Wait.{AreKeyed, numbers_of, with_report};
ghost use Rattle.ep_machine.specs.Objects.{is_instance};
ghost use Rattle.ep_table.specs.Value.{content_of, number_of, number_under};

use crate::raising::Raising;
use crate::report::report;
use crate::wait::Reportable;
use crate::{Outcome, Parts};
use ep_base::{Answer, CallerId, EventNumber};
use ep_park::{Park, Waiter, is_due};
use ep_table::Tables;
use std::alloc::AllocError;

/// Whether a caller is parked. If nobody is, no table is looked into.
#[inline(always)]
pub fn is_parked(waiters: &Park, caller: CallerId) -> bool
    ensures { result ≡ list_any (is_caller caller.0) waiters.now }
{
    waiters.count() > 0 && waiters.is_parked(caller)
}

/// Parks a caller, and holds the instance for it. An `Err` is want of memory and leaves both.
pub fn park(
    tables: &mut Tables,
    waiters: &mut Park,
    caller: CallerId,
    waiter: Waiter,
) -> Result<(), AllocError>
    requires instance { IsSome (number_under tables.old waiter.instance) }
    requires used { is_among tables.old.dying (number_of tables.old waiter.instance) ≡ false }
    requires kind { is_instance
        (content_of tables.old.files (number_of tables.old waiter.instance)) ≡ true }
    requires free { list_any (is_caller caller.0) waiters.old ≡ false }
    requires held { AreHeld tables.old waiters.old }
    ensures files { tables.new.files ≡ tables.old.files }
    ensures keys { tables.new.keys ≡ tables.old.keys }
    ensures limits { tables.new.limits ≡ tables.old.limits }
    ensures parked { OnOk result (waiters.new ≡ waiters.old ++ parked caller.0 waiter ∷ []) }
    ensures held { AreHeld tables.new waiters.new }
    ensures err { OnErr result ((tables.new ≡ tables.old) × (waiters.new ≡ waiters.old)) }
{
    tables.known();
    waiters.park(caller, waiter)?;
    match tables.hold(waiter.instance) {
        Ok(()) => Ok(()),
        Err(error) => {
            waiters.leave(caller);
            Err(error)
        }
    }
}

/// Ends a caller's wait, and no longer holds its instance.
fn leave(tables: &mut Tables, waiters: &mut Park, caller: CallerId)
    requires placed { ArePlaced tables.old waiters.old }
    requires held { AreHeld tables.old waiters.old }
    ensures left { waiters.new ≡ without caller.0 waiters.old }
    ensures files { tables.new.files ≡ tables.old.files }
    ensures keys { tables.new.keys ≡ tables.old.keys }
    ensures limits { tables.new.limits ≡ tables.old.limits }
    ensures held { AreHeld tables.new waiters.new }
{
    tables.known();
    waiters.known();
    if let Some(waiter) = waiters.leave(caller) {
        tables.release(waiter.instance);
    }
}

impl Parts {
    /// A parked caller that is marked gets the reports of those that it picks, and is no longer parked. If there are
    /// none, it gets none at its deadline, and before that loses its mark and stays parked. `kept`: a second record of
    /// it is asked for.
    /// An `Err` is want of memory and leaves the parts. Nothing refuses the event then, since the caller is parked.
    #[inline(always)]
    pub fn resume_with(
        &mut self,
        step: EventNumber,
        caller: CallerId,
        waiter: Waiter,
        chosen: &[Reportable],
        kept: bool,
    ) -> Result<Outcome, AllocError>
        requires parked { find (is_caller caller.0) self.old.parked
            ≡ Some (parked caller.0 waiter) }
        requires marked { waiter.marked ≡ true }
        requires keyed { AreKeyed self.old.tables self.old.clock self.old.interest chosen.now }
        ensures ids { self.new.interest.keys ≡ self.old.interest.keys }
        ensures files { self.new.tables.files ≡ self.old.tables.files }
        ensures clock { IfOk result
            (λ outcome. ClockStays outcome.raising self.old.clock self.new.clock) }
        ensures entries { IfOk result
            (λ outcome. self.new.interest.entries
            ≡ map (with_report step outcome.picked) self.old.interest.entries) }
        ensures ok { IfOk result
            (λ outcome. DoesResume step caller.0 waiter chosen.now outcome self.old self.new) }
        ensures picked { IfOk result (λ outcome. outcome.picked ≡ numbers_of chosen.now) }
        ensures kept { IfOk result (λ outcome. IsKept kept outcome) }
        ensures last { OnErr result (NothingRefuses self.old caller.0 Resume) }
        ensures err { OnErr result (self.new ≡ self.old) }
    {
        self.tables.known();
        if chosen.is_empty() && !is_due(waiter, self.clock) {
            self.waiters.unmark(caller);
            return Ok(Outcome::settled(Answer::Still, Raising::Nowhere));
        }
        let outcome = report(self.alloc, &mut self.interest, step, chosen, kept);
        if outcome.is_ok() {
            leave(&mut self.tables, &mut self.waiters, caller);
        }
        outcome
    }
}
