//! The dates at the end of an event.
ghost use Rattle.std.specs.Prelude.{◌≡◌, ◌<◌, ◌==◌, ◌⊎◌, [], Some, false, length, true, ℕ};
ghost use Rattle.ep_base.specs.declared.ids.EntryId.{EntryId as Id};
ghost use Rattle.ep_calls.specs.Readiness.{entry_shows, readiness};
ghost use Rattle.ep_dates.specs.Ask.{AreHomes, shows_by, shows_over};
ghost use Rattle.ep_dates.specs.Dates.{is_dated};
ghost use Rattle.ep_dates.specs.Order.{AreInTurn};
ghost use Rattle.ep_dates.specs.Touched.{may_come, may_go};
ghost use Rattle.ep_interest.specs.Registrations.{entry_under};
ghost use Rattle.ep_interest.specs.declared.entry.Entry.{Entry};
ghost use Rattle.ep_machine.specs.Lists.{is_among};
ghost use Rattle.ep_plain.specs.Dating.{Fits, touched_in};
ghost use Rattle.ep_plain.specs.Exact.{TellsReady};
ghost use Rattle.ep_plain.specs.Since.{AreDated};

use crate::dating::Dating;
use ep_base::{DescId, EntryNumber, EventNumber};
use ep_calls::Parts;
use ep_dates::{Touched, date};

/// Dates each registration at the end of an event, before what passed something on is forgotten, by what the event
/// touched: what is noted beside the dates, the description on whose object it was a call, and the registrations that
/// it reported. What is noted of the instances that turned is forgotten. It takes no memory.
pub fn date_all(
    parts: &Parts,
    step: EventNumber,
    called: Option<DescId>,
    reported: &[EntryNumber],
    dating: &mut Dating,
)
    requires step { 0 < step }
    requires fits { Fits parts.now.interest dating.old }
    requires homes { AreHomes parts.now }
    requires begins { (id : Id) (x : Entry) → entry_under parts.now.interest id ≡ Some x
        → entry_shows (readiness parts.now.tables parts.now.clock parts.now.interest)
        parts.now.tables parts.now.clock x ≡ true
        → (is_dated dating.old.dates x ≡ true)
        ⊎ (may_come parts.now.interest (touched_in dating.old called reported.now) id.0 ≡ true) }
    requires ends { (id : Id) (x : Entry) → entry_under parts.now.interest id ≡ Some x
        → may_go parts.now.interest (touched_in dating.old called reported.now) id.0 ≡ false
        → is_dated dating.old.dates x ≡ true
        → shows_by (shows_over parts.now) dating.old.dates x ≡ true }
    requires reported { (id : Id) (x : Entry) → entry_under parts.now.interest id ≡ Some x
        → is_among reported.now x.number ≡ (x.reported_in == step) }
    ensures dates { AreDated
        (entry_shows (readiness parts.now.tables parts.now.clock parts.now.interest)
        parts.now.tables parts.now.clock) step parts.now.interest dating.old.dates.since
        dating.new.dates.since }
    ensures ready { TellsReady parts.now dating.new.dates }
    ensures fits { Fits parts.now.interest dating.new }
    ensures order { AreInTurn step parts.now.interest dating.old.dates
        → AreInTurn step parts.now.interest dating.new.dates }
    ensures reached { dating.new.reached ≡ dating.old.reached }
    ensures choice { dating.new.choice ≡ dating.old.choice }
{
    parts.interest.known();
    let touched = Touched {
        altered: dating.altered,
        reached: &dating.reached,
        reported,
        called,
        gone: &dating.gone,
    };
    date(parts, step, &touched, &mut dating.dates);
    dating.dates.forget();
    dating.gone.forget();
    dating.altered = None;
}
