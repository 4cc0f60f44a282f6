//! What an event raised climbs through instances.
ghost use Rattle.std.specs.Prelude.{◌≡◌, ◌<◌, ℕ, IsSome, List, map};
ghost use Rattle.ep_calls.specs.Climb.{AreNested, Rises, climbs_to, is_nested_key};
ghost use Rattle.ep_calls.specs.Stands.{AreLinked};
ghost use Rattle.ep_climb.specs.Reach.{AreLive, AreReached, AreRoomy};
ghost use Rattle.ep_nest.specs.declared.link.Link.{Link as Pair};
ghost use Rattle.ep_table.specs.Value.{number_under};

use crate::ascending::has_links;
use crate::reaching::reach;
use ep_base::{DescId, EventNumber, Mask};
use ep_calls::Parts;
use ep_interest::Interest;
use ep_table::Tables;
use ep_walk::Walk;
use std::alloc::Global;

/// Makes the registrations on an instance fresh that ask for IN, where it is one.
#[inline(always)]
fn freshen_above(tables: &Tables, interest: &mut Interest, desc: DescId)
    requires { IsSome (number_under tables.now desc) }
    ensures entries { interest.new.entries
        ≡ map (climbs_to (is_nested_key tables.now desc) desc) interest.old.entries }
    ensures keys { interest.new.keys ≡ interest.old.keys }
    ensures added { interest.new.added ≡ interest.old.added }
{
    if tables.object(desc).is_instance() {
        interest.freshen(desc, Mask::IN);
    }
}

/// Makes what watches an instance that the walk reached fresh where it asks for IN.
#[inline(always)]
fn freshen_reached(tables: &Tables, interest: &mut Interest, reached: &Walk<Global>)
    requires linked { AreLinked tables.now interest.old }
    requires live { AreLive tables.now reached.now.reached }
    ensures rises { (n : ℕ) → AreReached n tables.now interest.old reached.now.reached
        → Rises n tables.now interest.old interest.new }
    ensures linked { AreLinked tables.now interest.new }
    ensures keys { interest.new.keys ≡ interest.old.keys }
    ensures nested { (ls : List Pair) → AreNested tables.now interest.old ls
        → AreNested tables.now interest.new ls }
{
    for index in 0..reached.count() {
        freshen_above(tables, interest, DescId(reached.at(index)));
    }
}

/// The same with the parts of a kernel, where the walk reached what IN reaches from below in an event. The time grows
/// with the registrations on what is reached.
#[inline(always)]
pub fn freshen(parts: &mut Parts, reached: &Walk<Global>)
    requires { (n : ℕ) × AreReached n parts.old.tables parts.old.interest reached.now.reached }
    ensures rises { (n : ℕ)
        → AreReached n parts.old.tables parts.old.interest reached.now.reached
        → Rises n parts.old.tables parts.old.interest parts.new.interest }
    ensures keys { parts.new.interest.keys ≡ parts.old.interest.keys }
    ensures others { parts.new ≡ record parts.old { interest = parts.new.interest } }
{
    if !has_links(&parts.graph) {
        return;
    }
    freshen_reached(&parts.tables, &mut parts.interest, reached);
}

/// Lets what an event raised climb: `reached` has exactly the instances that IN reaches from below, and each
/// registration on one of those is fresh if it asks for IN. What `reached` had before is forgotten. What was passed on
/// is still to be forgotten. It takes no memory, since `reached` has room for the instance of each registration. Its
/// time grows with what `reached` had, with the registrations that pass something on, with the links to the instances
/// reached, and with the registrations on those.
pub fn climb(parts: &mut Parts, reached: &mut Walk<Global>, step: EventNumber)
    requires step { 0 < step }
    requires room { AreRoomy parts.old.interest reached.old }
    ensures reached { AreReached step parts.old.tables parts.old.interest reached.new.reached }
    ensures room { reached.new.room ≡ reached.old.room }
    ensures rises { Rises step parts.old.tables parts.old.interest parts.new.interest }
    ensures keys { parts.new.interest.keys ≡ parts.old.interest.keys }
    ensures others { parts.new ≡ record parts.old { interest = parts.new.interest } }
{
    reach(parts, reached, step);
    freshen(parts, reached);
}
