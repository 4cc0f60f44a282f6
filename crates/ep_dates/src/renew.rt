//! Registrations that were reported are dated anew.
ghost use Rattle.std.specs.Prelude.{◌≡◌, ◌<◌, ◌∷◌, []};
ghost use Rattle.ep_dates.specs.Kept.{AreKept};
ghost use Rattle.ep_dates.specs.Renew.{Renews};

use crate::dates::Dates;
use ep_base::{EntryNumber, EventNumber};
use ep_calls::Parts;

/// Dates the registration with a number anew, if it is reportable, and gives it the last turn.
fn renew(parts: &Parts, event: EventNumber, number: EntryNumber, dates: &mut Dates)
    requires event { 0 < event }
    requires kept { AreKept parts.now.interest dates.old }
    ensures { Renews event parts.now.interest (number ∷ []) dates.old dates.new }
{
    parts.interest.known();
    let id = dates.id(number);
    let Some(entry) = parts.interest.get(id) else {
        return;
    };
    if entry.number.0 != number.0 {
        return;
    }
    if !dates.is_dated(number) {
        return;
    }
    dates.renew(id, entry, event);
}

/// Dates the registrations with these numbers anew that are reportable: each has the last turn then, in their order.
pub fn renew_each(parts: &Parts, event: EventNumber, reported: &[EntryNumber], dates: &mut Dates)
    requires event { 0 < event }
    requires kept { AreKept parts.now.interest dates.old }
    ensures { Renews event parts.now.interest reported.now dates.old dates.new }
{
    for number in reported {
        renew(parts, event, *number, dates);
    }
}
