//! Of which registrations a report may be.
ghost use Rattle.std.specs.Prelude.{◌≡◌, ◌≤◌, ◌==◌, [], IfNone, IfSome, false, length, min, true, ℕ};
ghost use Rattle.ep_dates.specs.Kept.{AreKept};
ghost use Rattle.ep_dates.specs.Order.{AreInTurn};
ghost use Rattle.ep_dates.specs.Pick.{AreFlaggable, AreFlagged, AreLate, Flags, FlagsNone, FlagsOne, IsFirstLeft, IsPick};
ghost use Rattle.ep_rings.specs.PlacedRows.{keys_at};

use crate::dates::Dates;
use ep_base::{DescId, EntryId, EntryNumber, EventNumber};
use ep_interest::Interest;
use ep_walk::Walk;
use std::alloc::Global;

/// Flags the registration of an instance with a number, and answers the event of its last report. `None` if it is not
/// reportable, or flagged already.
fn flag(
    interest: &Interest,
    dates: &Dates,
    flags: &mut Walk<Global>,
    instance: DescId,
    number: EntryNumber,
) -> Option<EventNumber>
    requires kept { AreKept interest.now dates.now }
    requires room { AreFlaggable interest.now flags.old }
    ensures some { IfSome result
        (λ rep. FlagsOne interest.now dates.now instance.0 number rep flags.old flags.new) }
    ensures none { IfNone result
        (FlagsNone interest.now dates.now instance.0 number flags.old) }
    ensures room { flags.new.room ≡ flags.old.room }
{
    if !dates.is_dated(number) {
        return None;
    }
    let id = dates.id(number);
    let Some(entry) = interest.get(id) else {
        return None;
    };
    if entry.number.0 != number.0 {
        return None;
    }
    if entry.instance != instance {
        return None;
    }
    if !flags.reach(id.0) {
        return None;
    }
    Some(entry.reported_in)
}

/// The later one of two events.
fn later(one: EventNumber, other: EventNumber) -> EventNumber
    ensures one { one ≤ result }
    ensures other { other ≤ result }
    ensures least { (m : ℕ) → one ≤ m → other ≤ m → result ≤ m }
{
    if one.0 < other.0 { other } else { one }
}

/// Flags the registrations of an instance with these numbers, and answers the event of the last report of any of them,
/// 0 for none. `None` if a report can't be of them: one is not reportable, or is named twice.
fn flag_each(
    interest: &Interest,
    dates: &Dates,
    flags: &mut Walk<Global>,
    instance: DescId,
    picks: &[EntryNumber],
) -> Option<EventNumber>
    requires kept { AreKept interest.now dates.now }
    requires room { AreFlaggable interest.now flags.old }
    requires none { flags.old.reached ≡ [] }
    ensures some { IfSome result
        (λ latest. Flags interest.now dates.now instance.0 picks.now latest flags.new) }
    ensures none { IfNone result
        ((most : ℕ) → IsPick interest.now dates.now instance.0 most picks.now → false ≡ true) }
    ensures room { flags.new.room ≡ flags.old.room }
{
    interest.known();
    let mut latest = EventNumber(0);
    for number in picks {
        let event = flag(interest, dates, flags, instance, *number)?;
        latest = later(latest, event);
    }
    Some(latest)
}

/// The first in the row of an instance that isn't flagged. The time grows with how many before it are.
fn first_left(dates: &Dates, flags: &Walk<Global>, instance: DescId) -> Option<EntryId>
    ensures some { IfSome result
        (λ id. IsFirstLeft (keys_at dates.now.rows instance.0) flags.now.reached id.0) }
    ensures none { IfNone result
        (AreFlagged (keys_at dates.now.rows instance.0) flags.now.reached) }
{
    for id in dates.rows.keys(instance) {
        if !flags.has(id.0) {
            return Some(id);
        }
    }
    None
}

/// Whether these are as many as are reportable at an instance, `most` at most.
fn has_as_many(dates: &Dates, instance: DescId, most: usize, picks: &[EntryNumber]) -> bool
    ensures { result ≡ (length picks.now == min most (length (keys_at dates.now.rows instance.0))) }
{
    let many = dates.rows.len(instance);
    picks.len() == if many < most { many } else { most }
}

/// Whether those of an instance that aren't flagged came to be reportable in this event or later. Only the first of
/// them is looked at, which came first.
fn are_late(
    interest: &Interest,
    dates: &Dates,
    flags: &Walk<Global>,
    instance: DescId,
    latest: EventNumber,
) -> bool
    requires kept { AreKept interest.now dates.now }
    requires order { (n : ℕ) × AreInTurn n interest.now dates.now }
    ensures late { result ≡ true
        → AreLate interest.now dates.now instance.0 flags.now.reached latest }
    ensures all { AreLate interest.now dates.now instance.0 flags.now.reached latest
        → result ≡ true }
{
    interest.known();
    let Some(id) = first_left(dates, flags, instance) else {
        return true;
    };
    let Some(entry) = interest.get(id) else {
        return true;
    };
    let Some(since) = dates.since(entry.number) else {
        return true;
    };
    latest.0 <= since.0
}

/// Whether a report at an instance that takes `most` at most may be of the registrations with these numbers: different
/// ones that are reportable, as many as there are or as it takes, and who is left out came to be reportable no sooner
/// than any of them was last reported. It takes no memory, and the time grows with how many numbers are given. No flag
/// is set before and afterwards.
pub fn is_pick(
    interest: &Interest,
    dates: &Dates,
    flags: &mut Walk<Global>,
    instance: DescId,
    most: usize,
    picks: &[EntryNumber],
) -> bool
    requires kept { AreKept interest.now dates.now }
    requires order { (n : ℕ) × AreInTurn n interest.now dates.now }
    requires room { AreFlaggable interest.now flags.old }
    requires none { flags.old.reached ≡ [] }
    ensures pick { result ≡ true → IsPick interest.now dates.now instance.0 most picks.now }
    ensures all { IsPick interest.now dates.now instance.0 most picks.now → result ≡ true }
    ensures none { flags.new.reached ≡ [] }
    ensures room { flags.new.room ≡ flags.old.room }
{
    interest.known();
    let latest = flag_each(interest, dates, flags, instance, picks);
    let is_pick = match latest {
        Some(latest) => {
            has_as_many(dates, instance, most, picks)
                && are_late(interest, dates, flags, instance, latest)
        }
        None => false,
    };
    flags.forget();
    is_pick
}
