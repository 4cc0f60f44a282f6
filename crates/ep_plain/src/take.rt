//! The registrations that a report is said to be of.
ghost use Rattle.std.specs.List.{filter_map};
ghost use Rattle.std.specs.Option.{option_map};
ghost use Rattle.std.specs.Prelude.{◌≡◌, ◌∷◌, [], IfOk, IfSome, map};
ghost use Rattle.ep_calls.specs.Wait.{AreKeyed};
ghost use Rattle.ep_dates.specs.Kept.{AreKept};
ghost use Rattle.ep_interest.specs.Registrations.{numbered};
ghost use Rattle.ep_plain.specs.Choose.{reportables_at};
ghost use Rattle.ep_plain.specs.Exact.{TellsReady, TellsShown};

use crate::choose::reportable;
use ep_base::{DescId, EntryNumber};
use ep_calls::{Parts, Reportable};
use ep_dates::Dates;
use std::alloc::AllocError;

/// The registration of an instance with a number, if it is reportable, with what it shows.
fn find_number(
    parts: &Parts,
    dates: &Dates,
    instance: DescId,
    number: EntryNumber,
) -> Option<Reportable>
    requires shown { TellsShown parts.now dates.now }
    requires ready { TellsReady parts.now dates.now }
    requires kept { AreKept parts.now.interest dates.now }
    ensures entry { option_map (λ x. x.entry) result
        ≡ numbered (reportables_at parts.now.tables parts.now.clock parts.now.interest instance)
        number }
    ensures keyed { IfSome result
        (λ x. AreKeyed parts.now.tables parts.now.clock parts.now.interest (x ∷ [])) }
{
    parts.known();
    parts.interest.known();
    if !dates.is_dated(number) {
        return None;
    }
    let id = dates.id(number);
    let entry = parts.interest.get(id)?;
    let found = entry.number;
    if found.0 != number.0 {
        return None;
    }
    if entry.instance != instance {
        return None;
    }
    Some(reportable(parts, dates, id, entry))
}

/// The registrations of an instance that are reportable and have these numbers, in the order of the numbers. An `Err`
/// is want of memory. The time grows with how many numbers are given.
pub fn take(
    parts: &Parts,
    dates: &Dates,
    instance: DescId,
    picks: &[EntryNumber],
) -> Result<Vec<Reportable>, AllocError>
    requires shown { TellsShown parts.now dates.now }
    requires ready { TellsReady parts.now dates.now }
    requires kept { AreKept parts.now.interest dates.now }
    ensures entries { IfOk result
        (λ chosen. map (λ x. x.entry) chosen.items
        ≡ filter_map (numbered (reportables_at parts.now.tables parts.now.clock
        parts.now.interest instance)) picks.now) }
    ensures keyed { IfOk result
        (λ chosen. AreKeyed parts.now.tables parts.now.clock parts.now.interest chosen.items) }
{
    let mut chosen = Vec::new(parts.alloc);
    for pick in picks {
        if let Some(x) = find_number(parts, dates, instance, *pick) {
            chosen.push(x)?;
        }
    }
    Ok(chosen)
}
