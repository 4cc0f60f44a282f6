//! The kernel with ready lists.
ghost use Rattle.std.specs.Prelude.{◌≡◌, ◌<◌, ◌≤◌, [], All, IfOk, IsOk, MatchOption, None, OnErr, false};
ghost use Rattle.std.specs.Prelude.{length, true, vec_capacity, vec_len, ℕ};
ghost use Rattle.ep_base.specs.Call.{EventHasNoBytes};
ghost use Rattle.ep_base.specs.declared.errno.Errno.TheVariants.{Einval};
ghost use Rattle.ep_calls.specs.Acts.{Acts, Adds, ComesLast, IsUnrefused, is_no_memory};
ghost use Rattle.ep_calls.specs.Given.{TakesNoCopy};
ghost use Rattle.ep_calls.specs.KeptRecords.{Gains, HasRecord, KeepsRecord};
ghost use Rattle.ep_calls.specs.Parts.{AreCoherent};
ghost use Rattle.ep_calls.specs.Spared.{IsSpared};
ghost use Rattle.ep_interest.specs.Registrations.{IsSound};
ghost use Rattle.ep_kernel.specs.ReadyBook.{ActsOnLists, MayBeListed, TurnsLists, listed, state_of};
ghost use Rattle.ep_kernel.specs.Watches.{Tells, TellsNone, refused_with, told_at};
ghost use Rattle.ep_law.specs.Laws.{EndsAreApart, ReportablesAreSpread, is_reportable_in};
ghost use Rattle.ep_machine.specs.Files.{named_by, object_of};
ghost use Rattle.ep_machine.specs.Lists.{are_distinct, is_among};
ghost use Rattle.ep_machine.specs.Waits.{waiter_of};
ghost use Rattle.ep_order.specs.Event.{ListsGoOn};
ghost use Rattle.ep_order.specs.Mark.{MarkedAreLookedAt};
ghost use Rattle.ep_ready.specs.ReadyLists.{IsSound as AreSoundLists};
ghost use Rattle.ep_table.specs.Value.{Sound as SoundTables};
ghost use Rattle.ep_view.specs.AtRest.{IsSteady, kind_of};

use crate::act::act;
use crate::beside::Beside;
use crate::settle::{know, rest, spread};
use crate::watches::{Watch, ask, find_named, find_wait};
use ep_alarms::{Alarms, find_called};
use ep_base::{Answer, CallerId, Errno, Event, Fd, Limits, Moment, Pid, Record};
use ep_calls::{Given, Kernel, Parts, Request, Spare};
use ep_climb::{attend, left, resumed_at};
use ep_law::laws::{ends_are_apart, reportables_are_spread};
use ep_order::{lists_go_on, marked_are_looked_at};
use ep_ready::ReadyLists;
use ep_records::{History, TooManyEvents};
use std::alloc::{AllocError, Global};
use std::marker::Model;

/// A kernel with a ready list for each instance: a wait looks at the front of the list of its instance.
/// Contracts see its limits, its history, how many records fit, and by the number of each instance which registrations
/// stand on its list, in order.
#[derive(Drop)]
pub struct ReadyKernel {
    parts: Parts,
    // The ready lists, the hopes, and what is noted in the course of an event and says nothing between two events.
    beside: Beside,
    alarms: Alarms,
    history: History,
}

impl Model for ReadyKernel {
    ghost use Rattle.ep_kernel.specs.ReadyBook.{ReadyBook};

    ghost Value = { ReadyBook };

    ghost use Rattle.ep_kernel.specs.Running.{book_of, IsRunning};

    ghost view = { book_of };

    ghost invariant = { IsRunning };
}

/// Does nothing. What holds of the parts and the ready lists between two events, and the laws that the end of an event
/// rests on; facts for proofs.
fn know_laws(parts: &Parts, lists: &ReadyLists)
    ensures coherent { AreCoherent parts.now }
    ensures tables { SoundTables parts.now.tables }
    ensures interest { IsSound parts.now.interest }
    ensures lists { AreSoundLists lists.now }
    ensures apart { EndsAreApart }
    ensures spread { ReportablesAreSpread }
    ensures looked { MarkedAreLookedAt }
    ensures turns { ListsGoOn }
{
    lists_go_on();
    ends_are_apart();
    marked_are_looked_at();
    reportables_are_spread();
    know(parts);
    lists.known();
}

impl ReadyKernel {
    /// A kernel in the opening state: process 1, whose descriptors 0, 1 and 2 name one plain object,
    /// and an empty history. An `Err` is want of memory.
    pub fn new(alloc: Global, limits: Limits) -> Result<ReadyKernel, AllocError>
        ensures { IfOk result
            (λ kernel. kernel ≡ record {
              book = record { limits = limits; past = []; taken = []; capacity = 0 };
              lists = [];
            }) }
    {
        Ok(ReadyKernel {
            parts: Parts::new(alloc, limits)?,
            beside: Beside::new(alloc),
            alarms: Alarms::new(alloc),
            history: History::new(alloc),
        })
    }

    /// Does nothing. What holds of the ready lists between two events; a fact for proofs: each reportable
    /// registration is on the list of its instance, what is on one is armed, and fresh where it is edge-triggered,
    /// and none is on one twice. The instance and the target of each registration live, and each waiter waits at an
    /// instance.
    pub fn known(&self)
        ensures complete { (e k : ℕ) → is_reportable_in (state_of self.now) e k ≡ true
            → is_among (listed self.now e) k ≡ true }
        ensures sound { (e k : ℕ) → is_among (listed self.now e) k ≡ true
            → MayBeListed (state_of self.now) e k }
        ensures once { (e : ℕ) → are_distinct (listed self.now e) ≡ true }
        ensures live { All (λ x. IsSteady (state_of self.now).files x.instance x.target)
            (state_of self.now).watches }
        ensures waiting { All (λ w. kind_of (object_of (state_of self.now).files w.instance) ≡ 1)
            (state_of self.now).waiters }
    {
        know(&self.parts);
        self.beside.lists.known();
    }

    /// Tells the registrations of the instance that a descriptor number of a process names, in the order in which they
    /// were added: as many as have room, from its beginning, and the rest of the room stays. `Ok` is how many there
    /// are, which may be more than have room. `Err` leaves the room: EBADF if the number names nothing, or the process
    /// isn't there, EINVAL if it names no instance. Callers may be parked there or not.
    /// It is a question: nothing that contracts see of the kernel changes. It takes no memory. Each registration of the
    /// instance is visited, and each instance that one of them watches is asked once, as a wait asks it.
    pub fn watches(&mut self, pid: Pid, epfd: Fd, room: &mut [Watch]) -> Result<usize, Errno>
        ensures tells { MatchOption (refused_with (state_of self.old).files pid.0 epfd.0)
            (Tells (told_at (state_of self.old) (named_by (state_of self.old).files pid.0 epfd.0))
            result room.old room.new)
            (λ e. TellsNone e result room.old room.new) }
        ensures stays { self.new ≡ self.old }
    {
        know(&self.parts);
        let instance = find_named(&self.parts, pid, epfd)?;
        let count = ask(&self.parts, &mut self.beside, instance, room);
        Ok(count)
    }

    /// The same of the instance at which a caller is parked, whether a descriptor still names it or not. `Err` leaves
    /// the room: EINVAL if the caller isn't parked.
    pub fn watches_awaited(&mut self, caller: CallerId, room: &mut [Watch]) -> Result<usize, Errno>
        ensures tells { MatchOption (waiter_of (state_of self.old) caller.0)
            (TellsNone Einval result room.old room.new)
            (λ w. Tells (told_at (state_of self.old) w.instance) result room.old room.new) }
        ensures stays { self.new ≡ self.old }
    {
        know(&self.parts);
        let Some(waiter) = find_wait(&self.parts, caller) else {
            return Err(Errno::Einval);
        };
        let count = ask(&self.parts, &mut self.beside, waiter.instance, room);
        Ok(count)
    }

    /// One event. `kept`: what a second record of it is made of is asked for.
    /// An `AllocError` has changed nothing, but that there may be more room for records. It comes only if nothing
    /// refuses the event, or for want of room for the record.
    #[inline(always)]
    fn try_step(
        &mut self,
        caller: CallerId,
        event: Given<'_>,
        kept: bool,
    ) -> Result<(Answer, Option<Spare>), AllocError>
        ensures limits { self.new.book.limits ≡ self.old.book.limits }
        ensures taken { self.new.book.taken ≡ self.old.book.taken }
        ensures capacity { self.old.book.capacity ≤ self.new.book.capacity }
        ensures ok { IfOk result
            (λ r. Adds self.old.book.limits caller event.entry r.0 (state_of self.old) (state_of self.new)
            self.old.book.past self.new.book.past) }
        ensures lists { IfOk result (λ r. TurnsLists caller event.entry r.0 self.old self.new) }
        ensures real { IfOk result (λ r. is_no_memory r.0 ≡ false) }
        ensures spare { IfOk result
            (λ r. kept ≡ true → HasRecord caller event.entry r.1 self.old.book.past self.new.book.past) }
        ensures spared { IsSpared (state_of self.old).files event.entry
            → length self.old.book.past < self.old.book.capacity → IsOk result }
        ensures last { length self.old.book.past < self.old.book.capacity → OnErr result
            (IsUnrefused self.old.book.limits caller event.entry (state_of self.old)) }
        ensures err { OnErr result
            (self.new.book ≡ record self.old.book { capacity = self.new.book.capacity }) }
        ensures err_lists { OnErr result (self.new.lists ≡ self.old.lists) }
    {
        let alloc = self.parts.allocator();
        let asked = event.event();
        self.history.reserve(1)?;
        let has_room = self.alarms.make_room(asked);
        let step = self.history.next_number();
        know_laws(&self.parts, &self.beside.lists);
        let called = find_called(&self.parts, asked);
        let resumed = resumed_at(&self.parts, caller, asked);
        let request = Request {
            step,
            caller,
            kept,
            has_room,
        };
        let outcome = act(&mut self.parts, &mut self.beside, request, asked)?;
        self.alarms
            .follow(&self.parts, asked, called, &outcome, has_room);
        let raising = outcome.raising;
        // A copy, since the prover takes what is passed on as moved.
        let raised = raising;
        spread(
            &mut self.parts,
            &mut self.beside,
            &mut self.alarms,
            step,
            raised,
        );
        self.beside.lists.known();
        let attended = attend(left(&self.parts, caller, resumed), raising);
        rest(&mut self.parts, &mut self.beside, attended, step);
        let (answer, spare) = outcome.put_record(alloc, &mut self.history, caller, event, kept);
        Ok((answer, spare))
    }

    /// One event whose record is put at the end of a list of the caller's too.
    /// An `AllocError` has changed nothing, but that there may be more room for records in either. If both had room and
    /// the copy of the event takes no memory, it comes only if nothing refuses the event.
    fn try_step_kept(
        &mut self,
        caller: CallerId,
        event: Event,
        kept: &mut Vec<Record>,
    ) -> Result<Answer, AllocError>
        ensures limits { self.new.book.limits ≡ self.old.book.limits }
        ensures taken { self.new.book.taken ≡ self.old.book.taken }
        ensures capacity { self.old.book.capacity ≤ self.new.book.capacity }
        ensures ok { IfOk result
            (λ answer. Adds self.old.book.limits caller event answer (state_of self.old)
            (state_of self.new) self.old.book.past self.new.book.past) }
        ensures lists { IfOk result (λ answer. TurnsLists caller event answer self.old self.new) }
        ensures real { IfOk result (λ answer. is_no_memory answer ≡ false) }
        ensures kept { IfOk result
            (λ answer. Gains self.old.book.past self.new.book.past kept.old.items kept.new.items) }
        ensures last { OnErr result (EventHasNoBytes event
            → vec_len kept.old < vec_capacity kept.old
            → length self.old.book.past < self.old.book.capacity
            → IsUnrefused self.old.book.limits caller event (state_of self.old)) }
        ensures err { OnErr result
            (self.new.book ≡ record self.old.book { capacity = self.new.book.capacity }) }
        ensures err_lists { OnErr result (self.new.lists ≡ self.old.lists) }
        ensures err_kept { OnErr result (kept.new.items ≡ kept.old.items) }
    {
        let again = event.copy()?;
        kept.reserve(1)?;
        let (answer, spare) = self.try_step(caller, Given::own(event), true)?;
        let Some(
            Spare {
                answer: recorded,
                picked,
            },
        ) = spare
        else {
            unreachable!();
        };
        kept.push_reserved(Record {
            caller,
            event: again,
            answer: recorded,
            picked,
        });
        Ok(answer)
    }
}

impl Kernel for ReadyKernel {
    ghost state = { state_of };

    ghost past = { λ kernel. kernel.book.past };

    ghost taken = { λ kernel. kernel.book.taken };

    ghost bounds = { λ kernel. kernel.book.limits };

    ghost capacity = { λ kernel. kernel.book.capacity };

    /// One event, as the trait has it. A wait reports the first reportable registrations of the ready list of its
    /// instance, in its order; where it reports fewer than it asked for, what it leaves there is reportable. What
    /// comes to a list comes by an event that was not refused: its spread reached it, or it is an ADD or MOD that
    /// left it reportable. So a refusal adds nothing to a list, and ENOMEM leaves the lists.
    fn step(&mut self, caller: CallerId, event: Event) -> Answer
        ensures limits { self.new.book.limits ≡ self.old.book.limits }
        ensures taken { self.new.book.taken ≡ self.old.book.taken }
        ensures capacity { self.old.book.capacity ≤ self.new.book.capacity }
        ensures spared { IsSpared (state_of self.old).files event
            → length self.old.book.past < self.old.book.capacity → is_no_memory result ≡ false }
        ensures last { length self.old.book.past < self.old.book.capacity
            → ComesLast self.old.book.limits caller event result (state_of self.old) }
        ensures acts { Acts self.old.book.limits caller event result (state_of self.old)
            (state_of self.new) self.old.book.past self.new.book.past }
        ensures lists { ActsOnLists caller event result self.old self.new }
    {
        match self.try_step(caller, Given::own(event), false) {
            Ok((answer, _)) => answer,
            Err(_) => Answer::Refused(Errno::Enomem),
        }
    }

    /// A step of an event that is lent, as the trait has it, with the ready lists as in `step`.
    fn step_on(&mut self, caller: CallerId, event: &Event) -> Answer
        ensures limits { self.new.book.limits ≡ self.old.book.limits }
        ensures taken { self.new.book.taken ≡ self.old.book.taken }
        ensures capacity { self.old.book.capacity ≤ self.new.book.capacity }
        ensures spared { IsSpared (state_of self.old).files event.now → TakesNoCopy event.now
            → length self.old.book.past < self.old.book.capacity → is_no_memory result ≡ false }
        ensures last { TakesNoCopy event.now → length self.old.book.past < self.old.book.capacity
            → ComesLast self.old.book.limits caller event.now result (state_of self.old) }
        ensures acts { Acts self.old.book.limits caller event.now result (state_of self.old)
            (state_of self.new) self.old.book.past self.new.book.past }
        ensures lists { ActsOnLists caller event.now result self.old self.new }
    {
        let Ok(given) = Given::lent(event) else {
            return Answer::Refused(Errno::Enomem);
        };
        match self.try_step(caller, given, false) {
            Ok((told, _)) => told,
            Err(_) => Answer::Refused(Errno::Enomem),
        }
    }

    /// A step whose record is put at the end of a list of the caller's too, as the trait has it, with the ready lists
    /// as in `step`.
    fn step_kept(&mut self, caller: CallerId, event: Event, kept: &mut Vec<Record>) -> Answer
        ensures limits { self.new.book.limits ≡ self.old.book.limits }
        ensures taken { self.new.book.taken ≡ self.old.book.taken }
        ensures capacity { self.old.book.capacity ≤ self.new.book.capacity }
        ensures last { EventHasNoBytes event → vec_len kept.old < vec_capacity kept.old
            → length self.old.book.past < self.old.book.capacity
            → ComesLast self.old.book.limits caller event result (state_of self.old) }
        ensures acts { Acts self.old.book.limits caller event result (state_of self.old)
            (state_of self.new) self.old.book.past self.new.book.past }
        ensures kept { KeepsRecord result self.old.book.past self.new.book.past kept.old.items
            kept.new.items }
        ensures lists { ActsOnLists caller event result self.old self.new }
    {
        match self.try_step_kept(caller, event, kept) {
            Ok(answer) => answer,
            Err(_) => Answer::Refused(Errno::Enomem),
        }
    }

    fn reserve(&mut self, additional: usize) -> Result<(), AllocError> {
        self.history.reserve(additional)
    }

    fn history(&self) -> &History {
        &self.history
    }

    fn swap_history(&mut self, other: &mut History) -> Result<(), TooManyEvents> {
        self.history.swap(other)
    }

    fn limits(&self) -> &Limits {
        self.parts.tables.limits()
    }

    fn now(&self) -> Moment {
        self.parts.clock
    }

    fn is_parked(&self, caller: CallerId) -> bool {
        self.parts.waiters.is_parked(caller)
    }

    fn is_marked(&self, caller: CallerId) -> bool {
        self.parts.waiters.is_marked(caller)
    }

    fn first_marked(&self) -> Option<CallerId> {
        self.parts.first_marked()
    }

    fn next_moment(&self) -> Option<Moment> {
        know(&self.parts);
        self.parts.next_moment_with(self.alarms.earliest())
    }
}
