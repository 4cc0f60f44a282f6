//! What every kernel promises.
ghost use Rattle.std.specs.Prelude.{◌≡◌, ◌+◌, ◌<◌, ◌≤◌, ◌^◌, ℕ, List, None, OnErr, OnOk, Some, [], drop};
ghost use Rattle.std.specs.Prelude.{false, length, true, vec_capacity, vec_len};
ghost use Rattle.std.specs.Option.{option_map};
ghost use Rattle.ep_base.specs.Call.{EventHasNoBytes};
ghost use Rattle.ep_base.specs.Limits.{Limits as Numbers};
ghost use Rattle.ep_base.specs.declared.record.Record.{Record as Entry};
ghost use Rattle.ep_machine.specs.Run.{run};
ghost use Rattle.ep_machine.specs.Waits.{is_marked, is_parked};
ghost use Rattle.ep_machine.specs.State.{State, opening};
ghost use Rattle.ep_calls.specs.Acts.{Acts, ComesLast, is_no_memory};
ghost use Rattle.ep_calls.specs.Driver.{TellsNext, first_marked};
ghost use Rattle.ep_calls.specs.Given.{TakesNoCopy};
ghost use Rattle.ep_calls.specs.KeptRecords.{KeepsRecord};
ghost use Rattle.ep_calls.specs.Spared.{IsSpared};
ghost use Rattle.ep_records.specs.Past.{whole};

use ep_base::{Answer, CallerId, Event, Limits, Moment, Record};
use ep_records::{History, TooManyEvents};
use std::alloc::AllocError;

/// A kernel that processes make calls on. Each event is one step of the abstract machine
/// and leaves one record in the history; want of memory leaves all as it was.
pub trait Kernel {
    /// The state of the machine that it stands for.
    ghost state: { Self → State };

    /// The records of all steps, in order.
    ghost past: { Self → List Entry };

    /// Those of them, from the first on, that were taken out.
    ghost taken: { Self → List Entry };

    /// The limits that it was made with.
    ghost bounds: { Self → Numbers };

    /// How many records there may be before a step asks for memory for its own. A kernel that tells nothing of it has
    /// room for none.
    ghost capacity: { Self → ℕ } = { λ _. 0 };

    /// One event. The answer is one that the machine allows here, a refusal too, and the history gains its record.
    /// ENOMEM is want of memory: nothing changes, and there is no record. Room for records is never given back.
    ///
    /// While there is room for a record, these events are not answered ENOMEM: a tick, close, exec, exit, DEL and MOD
    /// of epoll_ctl, write, shutdown, timerfd_settime, timerfd_gettime, what asks for a socket's error or name, and a
    /// read or a peek of at most 16 bytes, or if no more wait. Once `reserve(n)` has answered Ok, there is room until
    /// there are n further records. What else these events need was taken by what made, added or parked. All others
    /// may be answered ENOMEM: creations, dup, dup2, fork, ADD, bind, connect, longer reads and peeks, waits and
    /// resumptions.
    ///
    /// ENOMEM comes last: if there is room for the record, no refusal of the machine holds.
    fn step(&mut self, caller: CallerId, event: Event) -> Answer
        ensures limits { bounds self.new ≡ bounds self.old }
        ensures taken { taken self.new ≡ taken self.old }
        ensures capacity { capacity self.old ≤ capacity self.new }
        ensures spared { IsSpared (state self.old).files event
            → length (past self.old) < capacity self.old → is_no_memory result ≡ false }
        ensures last { length (past self.old) < capacity self.old
            → ComesLast (bounds self.old) caller event result (state self.old) }
        ensures acts { Acts (bounds self.old) caller event result (state self.old) (state self.new)
            (past self.old) (past self.new) };

    /// One event that is lent, for whoever makes the same call again and again. It is answered and recorded as by
    /// `step`. Nothing of it is copied, so what `step` says of ENOMEM holds here, too.
    ///
    /// Only a write of more than 16 bytes, or of some bytes by a process from 2^32 on, is copied, before anything
    /// changes. If memory for that copy is refused, the answer is ENOMEM and nothing changes: also if `step` would
    /// have done the write, or refused it.
    fn step_on(&mut self, caller: CallerId, event: &Event) -> Answer
        ensures limits { bounds self.new ≡ bounds self.old }
        ensures taken { taken self.new ≡ taken self.old }
        ensures capacity { capacity self.old ≤ capacity self.new }
        ensures spared { IsSpared (state self.old).files event.now → TakesNoCopy event.now
            → length (past self.old) < capacity self.old → is_no_memory result ≡ false }
        ensures last { TakesNoCopy event.now → length (past self.old) < capacity self.old
            → ComesLast (bounds self.old) caller event.now result (state self.old) }
        ensures acts { Acts (bounds self.old) caller event.now result (state self.old)
            (state self.new) (past self.old) (past self.new) };

    /// A step whose record is put at the end of a list of the caller's too. ENOMEM is want of memory, for the history
    /// or for that list: then the list too is as before, but that it may have more room. It may come of any event,
    /// also while the history has room: that list and a copy of the event want memory of their own.
    ///
    /// ENOMEM comes last here, too: if both lists have room for the record, and the event writes no bytes, so that its
    /// copy takes no memory, no refusal of the machine holds.
    fn step_kept(&mut self, caller: CallerId, event: Event, kept: &mut Vec<Record>) -> Answer
        ensures limits { bounds self.new ≡ bounds self.old }
        ensures taken { taken self.new ≡ taken self.old }
        ensures capacity { capacity self.old ≤ capacity self.new }
        ensures last { EventHasNoBytes event → vec_len kept.old < vec_capacity kept.old
            → length (past self.old) < capacity self.old
            → ComesLast (bounds self.old) caller event result (state self.old) }
        ensures acts { Acts (bounds self.old) caller event result (state self.old) (state self.new)
            (past self.old) (past self.new) }
        ensures kept { KeepsRecord result (past self.old) (past self.new) kept.old.items
            kept.new.items };

    /// Makes room for this many further records, so that `step` is not answered ENOMEM for the events that it names
    /// until there are that many more; or fails if memory is refused. State and history stay in both cases.
    fn reserve(&mut self, additional: usize) -> Result<(), AllocError>
        ensures room { OnOk result (length (past self.new) + additional ≤ capacity self.new) }
        ensures capacity { capacity self.old ≤ capacity self.new }
        ensures limits { bounds self.new ≡ bounds self.old }
        ensures state { state self.new ≡ state self.old }
        ensures history { past self.new ≡ past self.old }
        ensures taken { taken self.new ≡ taken self.old };

    /// The records of all steps, in order, but for those that were taken out. With these before them they are a run of
    /// the machine that leads to the present state.
    fn history(&self) -> &History
        ensures taken { result.now.taken ≡ taken self.now }
        ensures past { whole result.now ≡ past self.now }
        ensures here { result.now.items ≡ drop (length (taken self.now)) (past self.now) }
        ensures replays { run (bounds self.now) opening (whole result.now) ≡ Some (state self.now) };

    /// Takes the records out, and goes on with the room of another history, which has no record. That one has them
    /// then, and `history` has none until the next step; events are numbered on. So whoever reads, clears and swaps
    /// one history again and again holds a few records of a run of any length. It takes constant time and no memory.
    /// Room goes with the histories, so this is the one call that may lower it. An `Err`, past 2^62 records, changes
    /// nothing.
    fn swap_history(&mut self, other: &mut History) -> Result<(), TooManyEvents>
        requires empty { other.old.items ≡ [] }
        ensures few { OnOk result (length (past self.old) ≤ 2 ^ 62) }
        ensures before { OnOk result (other.new.taken ≡ taken self.old) }
        ensures out { OnOk result (whole other.new ≡ past self.old) }
        ensures taken { OnOk result (taken self.new ≡ past self.old) }
        ensures given { OnOk result
            (length (past self.old) + other.new.room ≡ capacity self.old) }
        ensures room { OnOk result (capacity self.new ≡ length (past self.old) + other.old.room) }
        ensures past { past self.new ≡ past self.old }
        ensures state { state self.new ≡ state self.old }
        ensures limits { bounds self.new ≡ bounds self.old }
        ensures many { OnErr result (2 ^ 62 < length (past self.old)) }
        ensures err { OnErr result ((self.new ≡ self.old) × (other.new ≡ other.old)) };

    /// The limits that the kernel was made with.
    fn limits(&self) -> &Limits
        ensures { result.now ≡ bounds self.now };

    /// The present moment of the simulated clock.
    fn now(&self) -> Moment
        ensures { result ≡ (state self.now).now };

    /// Whether a caller is parked in epoll_wait(2).
    fn is_parked(&self, caller: CallerId) -> bool
        ensures { result ≡ is_parked (state self.now) caller.0 };

    /// Whether a caller is parked and marked: its next resumption looks at its instance, and ends the wait if
    /// something is reportable or its deadline has come. At each ready instance that has waiters one is marked, unless
    /// an exclusive registration is in it or beneath it: there one is marked by an event that wakes it.
    fn is_marked(&self, caller: CallerId) -> bool
        ensures { result ≡ is_marked (state self.now) caller.0 };

    /// Of the marked callers the one that was parked first; `None` exactly if nobody is marked.
    fn first_marked(&self) -> Option<CallerId>
        ensures { option_map (λ c. c.0) result ≡ first_marked (state self.now) };

    /// The first moment after now to which a tick raises a bit or marks a caller; a shorter tick does neither. `None`
    /// exactly if no tick does: then nothing ends a wait but a call, or the resumption of whoever is marked.
    fn next_moment(&self) -> Option<Moment>
        ensures { TellsNext (state self.now) result };
}
