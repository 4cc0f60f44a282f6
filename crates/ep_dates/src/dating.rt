//! The end of an event: each registration that is reportable then has its date, and no other.
ghost use Rattle.std.specs.Prelude.{◌≡◌, ◌<◌, ◌==◌, ◌⊎◌, IsSome, Some, [], false, length, true, ℕ};
ghost use Rattle.ep_base.specs.declared.ids.DescId.{DescId as Desc};
ghost use Rattle.ep_base.specs.declared.ids.EntryId.{EntryId as Id};
ghost use Rattle.ep_calls.specs.Parking.{ready_key};
ghost use Rattle.ep_calls.specs.Readiness.{entry_shows, readiness};
ghost use Rattle.ep_dates.specs.Ask.{AreHomes, shows_by, shows_over};
ghost use Rattle.ep_dates.specs.Dates.{event_at, is_dated, is_ready};
ghost use Rattle.ep_dates.specs.Kept.{AreKept};
ghost use Rattle.ep_dates.specs.Order.{AreInTurn};
ghost use Rattle.ep_dates.specs.Touched.{date_of, may_come, may_go, touched_of};
ghost use Rattle.ep_interest.specs.Registrations.{entry_under};
ghost use Rattle.ep_interest.specs.declared.entry.Entry.{Entry};
ghost use Rattle.ep_machine.specs.Lists.{is_among};
ghost use Rattle.ep_table.specs.Value.{number_under};

use crate::come::come;
use crate::dates::Dates;
use crate::go::go;
use crate::renew::renew_each;
use crate::touched::Touched;
use ep_base::EventNumber;
use ep_calls::Parts;

/// Dates each registration at the end of an event: one that is reportable has the event since which it is without a
/// report, and no other has one. Only those are asked that the event touched, and those on an instance that came to be
/// ready by them, or idle. It takes no memory.
pub fn date(parts: &Parts, event: EventNumber, touched: &Touched<'_>, dates: &mut Dates)
    requires event { 0 < event }
    requires kept { AreKept parts.now.interest dates.old }
    requires homes { AreHomes parts.now }
    requires begins { (id : Id) (x : Entry) → entry_under parts.now.interest id ≡ Some x
        → entry_shows (readiness parts.now.tables parts.now.clock parts.now.interest)
        parts.now.tables parts.now.clock x ≡ true
        → (is_dated dates.old x ≡ true)
        ⊎ (may_come parts.now.interest (touched_of touched.now) id.0 ≡ true) }
    requires ends { (id : Id) (x : Entry) → entry_under parts.now.interest id ≡ Some x
        → may_go parts.now.interest (touched_of touched.now) id.0 ≡ false
        → is_dated dates.old x ≡ true → shows_by (shows_over parts.now) dates.old x ≡ true }
    requires reported { (id : Id) (x : Entry) → entry_under parts.now.interest id ≡ Some x
        → is_among (touched_of touched.now).reported x.number ≡ (x.reported_in == event) }
    ensures dates { (id : Id) (x : Entry) → entry_under parts.now.interest id ≡ Some x
        → event_at dates.new.since x.number
        ≡ date_of event
        (entry_shows (readiness parts.now.tables parts.now.clock parts.now.interest)
        parts.now.tables parts.now.clock x) x.reported_in (event_at dates.old.since x.number) }
    ensures ready { (i : Desc) → IsSome (number_under parts.now.tables i)
        → is_ready dates.new i.0
        ≡ ready_key parts.now.tables parts.now.clock parts.now.interest i.0 }
    ensures later { (k : ℕ) → parts.now.interest.added < k
        → event_at dates.new.since k ≡ event_at dates.old.since k }
    ensures length { length dates.new.since ≡ length dates.old.since }
    ensures kept { AreKept parts.now.interest dates.new }
    ensures order { AreInTurn event parts.now.interest dates.old
        → AreInTurn event parts.now.interest dates.new }
{
    parts.known();
    parts.interest.known();
    parts.graph.known();
    come(parts, event, touched, dates);
    go(parts, event, touched, dates);
    renew_each(parts, event, touched.reported, dates);
}
