//! The places that go with registrations, on the lists and among the hopes.
ghost use Rattle.std.specs.Prelude.{filter};
ghost use Rattle.ep_interest.specs.Passes.{has_id};
ghost use Rattle.ep_interest.specs.Registrations.{ids, is_of, is_on};
ghost use Rattle.ep_kernel.specs.Beside.{Each};
ghost use Rattle.ep_kernel.specs.Places.{LosesDying, LosesPlaces, touches};

use crate::beside::Beside;
use ep_base::DescId;
use ep_calls::Parts;
use ep_interest::Interest;

/// Takes the places of the registrations of an instance away.
fn drop_set(interest: &Interest, beside: &mut Beside, instance: DescId)
    ensures { Each
        (LosesPlaces (has_id (ids interest.now (filter (is_of instance) interest.now.entries))))
        beside.old beside.new }
{
    for (id, _) in interest.entries(instance) {
        beside.drop_places(id);
    }
}

/// Takes the places of the registrations on a description away.
fn drop_watchers(interest: &Interest, beside: &mut Beside, desc: DescId)
    ensures { Each
        (LosesPlaces (has_id (ids interest.now (filter (is_on desc) interest.now.entries))))
        beside.old beside.new }
{
    for id in interest.watchers(desc) {
        beside.drop_places(id);
    }
}

/// Takes the places of the registrations of a description, or on it, away.
#[cold]
#[inline(never)]
fn drop_touching(interest: &Interest, beside: &mut Beside, desc: DescId)
    ensures { Each (LosesPlaces (touches interest.now desc)) beside.old beside.new }
{
    drop_set(interest, beside, desc);
    drop_watchers(interest, beside, desc);
}

/// Takes the places away, on the lists and among the hopes, of what goes with the descriptions that nothing names or
/// holds any more.
pub fn drop_dying(parts: &Parts, beside: &mut Beside)
    ensures { Each (LosesDying parts.now.tables parts.now.interest) beside.old beside.new }
{
    for desc in parts.tables.dying() {
        drop_touching(&parts.interest, beside, desc);
    }
}
