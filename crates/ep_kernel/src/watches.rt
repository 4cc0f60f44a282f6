//! What is told of the registrations of one instance.
ghost use Rattle.std.specs.Prelude.{◌≡◌, IsSome, MatchResult, Some, filter, length, slice_set};
ghost use Rattle.std.specs.List.{find};
ghost use Rattle.std.specs.Option.{option_map};
ghost use Rattle.ep_calls.specs.Readiness.{readiness as readiness_of};
ghost use Rattle.ep_calls.specs.Stands.{IsLinked};
ghost use Rattle.ep_interest.specs.Registrations.{is_of};
ghost use Rattle.ep_kernel.specs.Asked.{Knows};
ghost use Rattle.ep_kernel.specs.Listed.{HopesFor};
ghost use Rattle.ep_kernel.specs.Watches.{IsNamed, event_in, laid_over, refused_with, told_entry, told_entries};
ghost use Rattle.ep_park.specs.Waiters.{is_caller, parked};
ghost use Rattle.ep_table.specs.Value.{number_under};

use crate::asked::Asked;
use crate::beside::Beside;
use crate::readiness::is_ready;
use ep_base::{CallerId, DescId, Errno, EventNumber, Fd, Mask, Pid};
use ep_calls::{Parts, is_reportable, present, shown_at};
use ep_interest::Entry;
use ep_park::Waiter;

/// What is told of a registration.
#[derive(Clone, Copy, Debug, PartialEq, Eq)]
pub struct Watch {
    /// The descriptor number under which it was added. Later that number may name something else, or nothing.
    pub fd: Fd,
    /// The bits that it asks for, and its modes.
    pub mask: Mask,
    /// The data of the event, which a report gives back.
    pub tag: u64,
    /// Whether it is armed: a one-shot is not, from its report to the next MOD.
    pub armed: bool,
    /// The bits that hold at its target now, whether it asks for them or not.
    pub present: Mask,
    /// Whether a wait at its instance would find it reportable now.
    pub reportable: bool,
    /// The event of its last report, if there was one: its place in the history, counted from 1.
    pub reported_in: Option<EventNumber>,
}

/// The instance that a descriptor number of a process names, or the refusal that comes first.
pub fn find_named(parts: &Parts, pid: Pid, fd: Fd) -> Result<DescId, Errno>
    ensures { MatchResult result (λ desc. IsNamed parts.now.tables pid.0 fd.0 desc)
        (λ e. refused_with parts.now.tables.files pid.0 fd.0 ≡ Some e) }
{
    let Some(desc) = parts.tables.lookup(pid, fd) else {
        return Err(Errno::Ebadf);
    };
    if !parts.tables.object(desc).is_instance() {
        return Err(Errno::Einval);
    }
    Ok(desc)
}

/// The wait of a caller, or `None` where it isn't parked.
pub fn find_wait(parts: &Parts, caller: CallerId) -> Option<Waiter>
    ensures { option_map (parked caller.0) result ≡ find (is_caller caller.0) parts.now.parked }
{
    parts.waiters.waiter(caller)
}

/// The event of the last report of a registration, if there was one.
fn last_report(entry: &Entry) -> Option<EventNumber>
    ensures { result ≡ event_in entry.now.reported_in }
{
    if entry.reported_in.is_event() {
        return Some(entry.reported_in);
    }
    None
}

/// What is told of a registration. An instance that it watches is asked whether it is ready, as `is_ready` says.
fn tell(parts: &Parts, asked: &mut Asked, entry: &Entry) -> Watch
    requires linked { IsLinked parts.now.tables.keys entry.now }
    requires knows { Knows parts.now asked.old }
    ensures told { result
        ≡ told_entry (readiness_of parts.now.tables parts.now.clock parts.now.interest)
        parts.now.tables parts.now.clock entry.now }
    ensures knows { Knows parts.now asked.new }
{
    parts.known();
    let below = parts.tables.object(entry.desc).is_instance() && is_ready(parts, asked, entry.desc);
    let bits = shown_at(&parts.tables, parts.clock, entry, below);
    Watch {
        fd: entry.fd,
        mask: entry.mask,
        tag: entry.tag,
        armed: entry.armed,
        present: present(&parts.tables, parts.clock, entry.desc, below),
        reportable: is_reportable(entry, bits),
        reported_in: last_report(entry),
    }
}

/// Puts it in a place of the room, if it has that place.
fn put(room: &mut [Watch], place: usize, watch: Watch)
    ensures { room.new ≡ slice_set room.old place watch }
{
    if place < room.len() {
        room[place] = watch;
    }
}

/// Tells the registrations of an instance in the order in which they were added, as many as have room, and how many
/// there are. Each is visited, and an instance that one watches is asked once. All that is reportable stays among the
/// hopes.
fn tell_each(parts: &Parts, asked: &mut Asked, instance: DescId, room: &mut [Watch]) -> usize
    requires { HopesFor parts.now asked.old.hopes }
    ensures count { result ≡ length (filter (is_of instance) parts.now.interest.entries) }
    ensures room { room.new ≡ laid_over (told_entries parts.now instance) room.old }
    ensures hopes { HopesFor parts.now asked.new.hopes }
{
    asked.forget();
    parts.known();
    let _most = parts.interest.count();
    let mut count = 0;
    for (_, entry) in parts.interest.entries(instance) {
        put(room, count, tell(parts, asked, entry));
        count += 1;
    }
    count
}

/// Asks the registrations of an instance, as `tell_each` tells them. What else stands beside the parts stays.
pub fn ask(parts: &Parts, beside: &mut Beside, instance: DescId, room: &mut [Watch]) -> usize
    requires { HopesFor parts.now beside.old.asked.hopes }
    ensures count { result ≡ length (filter (is_of instance) parts.now.interest.entries) }
    ensures room { room.new ≡ laid_over (told_entries parts.now instance) room.old }
    ensures hopes { HopesFor parts.now beside.new.asked.hopes }
    ensures rest { beside.new ≡ record beside.old { asked = beside.new.asked } }
{
    tell_each(parts, &mut beside.asked, instance, room)
}
