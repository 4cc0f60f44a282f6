//! Registrations that are to be taken away lose their dates first.
ghost use Rattle.std.specs.Prelude.{◌≡◌, ◌==◌, List, Some, map};
ghost use Rattle.ep_base.specs.declared.ids.DescId.{DescId as Desc};
ghost use Rattle.ep_dates.specs.Ask.{watches};
ghost use Rattle.ep_dates.specs.Drop.{Drops, is_in, touches, touches_any};
ghost use Rattle.ep_dates.specs.Kept.{AreKept};
ghost use Rattle.ep_table.specs.Value.{number_under};

use crate::dates::Dates;
use ep_base::{DescId, EntryId};
use ep_calls::Parts;
use ep_interest::Interest;

/// Takes the date away of the registration under a key, if it has one.
pub fn drop_one(interest: &Interest, id: EntryId, dates: &mut Dates)
    requires { AreKept interest.now dates.old }
    ensures { Drops interest.now (λ k. k == id.0) dates.old dates.new }
{
    interest.known();
    let Some(entry) = interest.get(id) else {
        return;
    };
    if !dates.is_dated(entry.number) {
        return;
    }
    dates.end(id, entry);
}

/// The same of the registrations of an instance.
fn drop_set(interest: &Interest, instance: DescId, dates: &mut Dates)
    requires { AreKept interest.now dates.old }
    ensures { Drops interest.now (is_in interest.now instance.0) dates.old dates.new }
{
    interest.known();
    for (id, _) in interest.entries(instance) {
        drop_one(interest, id, dates);
    }
}

/// The same of the registrations on a description.
fn drop_watchers(interest: &Interest, desc: DescId, dates: &mut Dates)
    requires { AreKept interest.now dates.old }
    ensures { Drops interest.now (watches interest.now desc.0) dates.old dates.new }
{
    interest.known();
    for id in interest.watchers(desc) {
        drop_one(interest, id, dates);
    }
}

/// The same of the registrations of an instance, or on it.
fn drop_touching(interest: &Interest, desc: DescId, dates: &mut Dates)
    requires { AreKept interest.now dates.old }
    ensures { Drops interest.now (touches interest.now desc.0) dates.old dates.new }
{
    drop_set(interest, desc, dates);
    drop_watchers(interest, desc, dates);
}

/// Takes the dates away of what goes with the descriptions that nothing names or holds any more. The time grows with
/// the registrations of these, and on these.
pub fn drop_dying(parts: &Parts, dates: &mut Dates)
    requires { AreKept parts.now.interest dates.old }
    ensures { (dying : List Desc)
        × (map (number_under parts.now.tables) dying ≡ map Some parts.now.tables.dying)
        × Drops parts.now.interest (touches_any parts.now.interest dying) dates.old dates.new }
{
    for desc in parts.tables.dying() {
        drop_touching(&parts.interest, desc, dates);
    }
}
