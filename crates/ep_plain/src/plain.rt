//! The kernel that scans.
ghost use Rattle.std.specs.Prelude.{◌≡◌, ◌<◌, ◌≤◌, ◌++◌, ◌∷◌, [], List, IfOk, IfSome, IsOk, None, OnErr};
ghost use Rattle.std.specs.Prelude.{false, is_some, length, option_copied, true, vec_capacity, vec_len};
ghost use Rattle.ep_base.specs.Call.{EventHasNoBytes};
ghost use Rattle.ep_base.specs.declared.record.Record.{Record as Recorded};
ghost use Rattle.ep_calls.specs.Acts.{Adds, ComesLast, IsUnrefused, is_no_memory};
ghost use Rattle.ep_calls.specs.Book.{state_of};
ghost use Rattle.ep_calls.specs.KeptRecords.{Gains, HasRecord};
ghost use Rattle.ep_calls.specs.Spared.{IsSpared};
ghost use Rattle.ep_machine.specs.Step.{step as step_of};
ghost use Rattle.ep_calls.specs.Parts.{AreCoherent};
ghost use Rattle.ep_interest.specs.Registrations.{IsSound};
ghost use Rattle.ep_law.specs.Laws.{EndsAreApart, ReportablesAreSpread};
ghost use Rattle.ep_order.specs.Ending.{UntouchedStayReportable};
ghost use Rattle.ep_order.specs.Mark.{MarkedAreLookedAt};
ghost use Rattle.ep_table.specs.Value.{Sound as SoundTables};
ghost use Rattle.ep_plain.specs.StepWith.{AddsBy, HasStep, StepsWith};

use crate::date::date_all;
use crate::dating::Dating;
use crate::settle::{know, rest, spread};
use crate::these::{act_with, allows};
use ep_alarms::{Alarms, find_called};
use ep_base::{Answer, CallerId, EntryNumber, Errno, Event, Limits, Moment, Record};
use ep_calls::{Given, Kernel, Parts, Request, Spare};
use ep_climb::{attend, left, resumed_at};
use ep_law::laws::{ends_are_apart, reportables_are_spread};
use ep_order::{marked_are_looked_at, untouched_stay_reportable};
use ep_records::{History, Numbers, TooManyEvents};
use std::alloc::{AllocError, Global};
use std::marker::Model;

/// The kernel that scans: a wait, or a resumption that reports, goes over all registrations of its instance and takes
/// the longest unreported of those that are reportable. It has no list whose order tells what is next. It does keep
/// since which event each registration is reportable, and for each instance the row of those that are. By these it
/// tells whether an instance is ready, and whether a report may be of given registrations. The end of an event looks
/// only at what the event touched, and a tick only at the timers whose moment has come.
/// It is there beside the kernel with ready lists since `step_with` takes any fair report, by which an audit makes the
/// steps of any history again. A ready list has one order, and so one report.
/// Contracts see its limits, its history, and how many records fit.
#[derive(Drop)]
pub struct PlainKernel {
    parts: Parts,
    history: History,
    dating: Dating,
    alarms: Alarms,
}

impl Model for PlainKernel {
    ghost use Rattle.ep_calls.specs.Book.{Book};

    ghost Value = { Book };

    ghost use Rattle.ep_plain.specs.Standing.{book_of, IsStanding};

    ghost view = { book_of };

    ghost invariant = { IsStanding };
}

/// Does nothing. What holds of the parts between calls, and the laws that the end of an event rests on; facts for
/// proofs.
fn know_laws(parts: &Parts)
    ensures coherent { AreCoherent parts.now }
    ensures tables { SoundTables parts.now.tables }
    ensures interest { IsSound parts.now.interest }
    ensures apart { EndsAreApart }
    ensures spread { ReportablesAreSpread }
    ensures stay { UntouchedStayReportable }
    ensures looked { MarkedAreLookedAt }
{
    ends_are_apart();
    reportables_are_spread();
    untouched_stay_reportable();
    marked_are_looked_at();
    know(parts);
}

/// The registrations that the last record reports.
fn last_picked(history: &History) -> Numbers<'_>
    ensures { (past : List Recorded) (last : Recorded) → history.now.items ≡ past ++ last ∷ []
        → result ≡ last.picked }
{
    match history.last() {
        Some(entry) => entry.picked(),
        None => Numbers::none(),
    }
}

impl PlainKernel {
    /// A kernel in the opening state: process 1, whose descriptors 0, 1 and 2 name one plain object,
    /// and an empty history. An `Err` is want of memory.
    pub fn new(alloc: Global, limits: Limits) -> Result<PlainKernel, AllocError>
        ensures { IfOk result
            (λ kernel. kernel ≡ record { limits = limits; past = []; taken = []; capacity = 0 }) }
    {
        let parts = Parts::new(alloc, limits)?;
        Ok(PlainKernel {
            parts,
            history: History::new(alloc),
            dating: Dating::new(alloc),
            alarms: Alarms::new(alloc),
        })
    }

    /// One event whose report is of these registrations, in this order, and of the longest unreported where none are
    /// given: then `kept` asks for what a second record of it is made of.
    /// An `AllocError` has changed nothing, but that there may be more room for records. If there was room for the
    /// record, it comes only if nothing refuses the event: without room for the date of a registration or the moment of
    /// a timer the event goes on until it would add one.
    #[inline(always)]
    fn try_step(
        &mut self,
        caller: CallerId,
        event: Given<'_>,
        picks: Option<&[EntryNumber]>,
        kept: bool,
    ) -> Result<(Answer, Option<Spare>), AllocError>
        requires there { HasStep self.old.limits (state_of self.old) caller event
            (option_copied picks) }
        requires kept { IfSome (option_copied picks) (λ _. kept ≡ false) }
        ensures limits { self.new.limits ≡ self.old.limits }
        ensures taken { self.new.taken ≡ self.old.taken }
        ensures capacity { self.old.capacity ≤ self.new.capacity }
        ensures ok { IfOk result
            (λ r. AddsBy self.old.limits caller event.entry (option_copied picks.entry) r.0
            (state_of self.old) (state_of self.new) self.old.past self.new.past) }
        ensures real { IfOk result (λ r. is_no_memory r.0 ≡ false) }
        ensures spare { IfOk result
            (λ r. kept ≡ true → HasRecord caller event.entry r.1 self.old.past self.new.past) }
        ensures spared { option_copied picks.entry ≡ None
            → IsSpared (state_of self.old).files event.entry
            → length self.old.past < self.old.capacity → IsOk result }
        ensures last { OnErr result (length self.old.past < self.old.capacity
            → IsUnrefused self.old.limits caller event.entry (state_of self.old)) }
        ensures err { OnErr result (self.new ≡ record self.old { capacity = self.new.capacity }) }
    {
        let alloc = self.parts.allocator();
        let asked = event.event();
        self.history.reserve(1)?;
        let has_room = self.alarms.make_room(asked);
        let step = self.history.next_number();
        know_laws(&self.parts);
        let called = find_called(&self.parts, asked);
        let resumed = resumed_at(&self.parts, caller, asked);
        let request = Request {
            step,
            caller,
            kept,
            has_room,
        };
        let outcome = act_with(&mut self.parts, request, asked, &mut self.dating, picks)?;
        self.alarms
            .follow(&self.parts, asked, called, &outcome, has_room);
        let raising = outcome.raising;
        let (answer, spare) = outcome.put_record(alloc, &mut self.history, caller, event, kept);
        // A copy, since the prover takes what is passed on as moved.
        let raised = raising;
        spread(
            &mut self.parts,
            &mut self.dating,
            &mut self.alarms,
            step,
            raised,
        );
        let reported = last_picked(&self.history);
        date_all(
            &self.parts,
            step,
            called,
            reported.as_slice(),
            &mut self.dating,
        );
        let attended = attend(left(&self.parts, caller, resumed), raising);
        rest(&mut self.parts, &mut self.dating, attended, step);
        Ok((answer, spare))
    }

    /// Whether the machine has a step whose report is of these registrations, in this order. It takes no memory.
    fn has_step(&mut self, caller: CallerId, event: &Event, picks: &[EntryNumber]) -> bool
        ensures has { result ≡ is_some
            (step_of self.old.limits (state_of self.old) caller.0 event.now picks.now) }
        ensures stays { self.new ≡ self.old }
    {
        allows(&self.parts, &mut self.dating, caller, event, picks)
    }

    /// The step of an event whose report is of the registrations of these numbers, in this order; of none for an
    /// event that makes no report. `None` exactly where the machine has no such step, and then nothing changes.
    /// ENOMEM is want of memory: nothing changes, and there is such a step. In both cases there may be more room for
    /// records. While there is room for records, ENOMEM comes only of an event that nothing refuses, but it may come of
    /// those that `step` spares. The time grows with how many are given.
    pub fn step_with(
        &mut self,
        caller: CallerId,
        event: Event,
        picks: &[EntryNumber],
    ) -> Option<Answer>
        ensures limits { self.new.limits ≡ self.old.limits }
        ensures taken { self.new.taken ≡ self.old.taken }
        ensures capacity { self.old.capacity ≤ self.new.capacity }
        ensures last { IfSome result (λ answer. length self.old.past < self.old.capacity
            → ComesLast self.old.limits caller event answer (state_of self.old)) }
        ensures steps { StepsWith self.old.limits caller event picks.now result (state_of self.old)
            (state_of self.new) self.old.past self.new.past }
    {
        if !self.has_step(caller, &event, picks) {
            return None;
        }
        match self.try_step(caller, Given::own(event), Some(picks), false) {
            Ok((answer, _)) => Some(answer),
            Err(_) => Some(Answer::Refused(Errno::Enomem)),
        }
    }

    /// One event whose record is put at the end of a list of the caller's too.
    /// An `AllocError` has changed nothing, but that there may be more room for records in either. If both had room and
    /// the copy of the event takes no memory, it comes only if nothing refuses the event.
    fn try_step_kept(
        &mut self,
        caller: CallerId,
        event: Event,
        kept: &mut Vec<Record>,
    ) -> Result<Answer, AllocError>
        ensures limits { self.new.limits ≡ self.old.limits }
        ensures taken { self.new.taken ≡ self.old.taken }
        ensures capacity { self.old.capacity ≤ self.new.capacity }
        ensures ok { IfOk result
            (λ answer. Adds self.old.limits caller event answer (state_of self.old)
            (state_of self.new) self.old.past self.new.past) }
        ensures real { IfOk result (λ answer. is_no_memory answer ≡ false) }
        ensures kept { IfOk result
            (λ answer. Gains self.old.past self.new.past kept.old.items kept.new.items) }
        ensures last { OnErr result (EventHasNoBytes event
            → vec_len kept.old < vec_capacity kept.old → length self.old.past < self.old.capacity
            → IsUnrefused self.old.limits caller event (state_of self.old)) }
        ensures err { OnErr result (self.new ≡ record self.old { capacity = self.new.capacity }) }
        ensures err_kept { OnErr result (kept.new.items ≡ kept.old.items) }
    {
        let again = event.copy()?;
        kept.reserve(1)?;
        let (answer, spare) = self.try_step(caller, Given::own(event), None, true)?;
        let Some(
            Spare {
                answer: recorded,
                picked,
            },
        ) = spare
        else {
            unreachable!();
        };
        kept.push_reserved(Record {
            caller,
            event: again,
            answer: recorded,
            picked,
        });
        Ok(answer)
    }
}

impl Kernel for PlainKernel {
    ghost state = { state_of };

    ghost past = { λ book. book.past };

    ghost taken = { λ book. book.taken };

    ghost bounds = { λ book. book.limits };

    ghost capacity = { λ book. book.capacity };

    fn step(&mut self, caller: CallerId, event: Event) -> Answer {
        match self.try_step(caller, Given::own(event), None, false) {
            Ok((answer, _)) => answer,
            Err(_) => Answer::Refused(Errno::Enomem),
        }
    }

    fn step_on(&mut self, caller: CallerId, event: &Event) -> Answer {
        let Ok(given) = Given::lent(event) else {
            return Answer::Refused(Errno::Enomem);
        };
        match self.try_step(caller, given, None, false) {
            Ok((told, _)) => told,
            Err(_) => Answer::Refused(Errno::Enomem),
        }
    }

    fn step_kept(&mut self, caller: CallerId, event: Event, kept: &mut Vec<Record>) -> Answer {
        match self.try_step_kept(caller, event, kept) {
            Ok(answer) => answer,
            Err(_) => Answer::Refused(Errno::Enomem),
        }
    }

    fn reserve(&mut self, additional: usize) -> Result<(), AllocError> {
        self.history.reserve(additional)
    }

    fn history(&self) -> &History {
        &self.history
    }

    fn swap_history(&mut self, other: &mut History) -> Result<(), TooManyEvents> {
        self.history.swap(other)
    }

    fn limits(&self) -> &Limits {
        self.parts.tables.limits()
    }

    fn now(&self) -> Moment {
        self.parts.clock
    }

    fn is_parked(&self, caller: CallerId) -> bool {
        self.parts.waiters.is_parked(caller)
    }

    fn is_marked(&self, caller: CallerId) -> bool {
        self.parts.waiters.is_marked(caller)
    }

    fn first_marked(&self) -> Option<CallerId> {
        self.parts.first_marked()
    }

    fn next_moment(&self) -> Option<Moment> {
        know(&self.parts);
        self.parts.next_moment_with(self.alarms.earliest())
    }
}
