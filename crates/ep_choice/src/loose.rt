//! Marks at instances that have lost a guard.
ghost use Rattle.std.specs.Prelude.{◌≡◌, [], List, filter, ℕ};
ghost use Rattle.ep_choice.specs.Choose.{HaveInstances};
ghost use Rattle.ep_choice.specs.Lost.{AreAbove, is_loose, marked_loose};
ghost use Rattle.ep_choice.specs.Room.{HaveRoom};
ghost use Rattle.ep_climb.specs.Reach.{AreRoomy};
ghost use Rattle.ep_nest.specs.Links.{edges};
ghost use Rattle.ep_park.specs.Turns.{marked_in_turn};

use crate::choosing::is_awaited;
use crate::guarded::is_guarded;
use ep_base::DescId;
use ep_calls::Parts;
use ep_climb::{Along, Readiness, ascend};
use ep_walk::Walk;
use std::alloc::Global;

/// Reaches exactly the instances that lost a registration, and those above them.
fn reach_loose(parts: &Parts, reached: &mut Walk<Global>, lost: &Walk<Global>)
    requires room { AreRoomy parts.now.interest reached.old }
    requires fits { HaveRoom lost.now.reached reached.old }
    ensures room { reached.new.room ≡ reached.old.room }
    ensures exact { AreAbove (edges parts.now.graph) lost.now.reached reached.new.reached }
{
    parts.known();
    parts.interest.known();
    reached.forget();
    for index in 0..lost.count() {
        let instance = DescId(lost.at(index));
        ascend(Along::Every, &parts.graph, reached, instance);
    }
}

/// Marks the caller that waits longest at an instance, if that is ready and not guarded, and none is marked there.
/// Whether it is guarded is asked last: that goes through all that is beneath.
fn mark_unguarded<R: Readiness>(parts: &mut Parts, ready: &mut R, instance: DescId)
    requires instances { HaveInstances parts.old }
    requires knows { R.knows ready.old parts.old.tables parts.old.clock parts.old.interest }
    ensures marks { parts.new
        ≡ record parts.old { parked = marked_loose parts.old instance.0 parts.old.parked } }
    ensures knows { R.knows ready.new parts.old.tables parts.old.clock parts.old.interest }
{
    parts.known();
    if !is_awaited(parts, ready, instance) {
        return;
    }
    if is_guarded(parts, instance) {
        return;
    }
    parts.waiters.mark_longest(instance);
}

/// The same at each instance that lost a registration in an event that may have guarded it, or what is above it, and at
/// those above, by all links. What was lost is forgotten. It takes no memory. Its time grows with what is above, and
/// with what is beneath those of them that are ready and at which somebody waits and nobody is marked. `reached` is a
/// walk that nothing is asked of any more.
#[cold]
#[inline(never)]
pub fn mark_loose<R: Readiness>(
    parts: &mut Parts,
    ready: &mut R,
    reached: &mut Walk<Global>,
    lost: &mut Walk<Global>,
)
    requires instances { HaveInstances parts.old }
    requires knows { R.knows ready.old parts.old.tables parts.old.clock parts.old.interest }
    requires room { AreRoomy parts.old.interest reached.old }
    requires fits { HaveRoom lost.old.reached reached.old }
    ensures marks { (ks : List ℕ) × (AreAbove (edges parts.old.graph) lost.old.reached ks)
        × (parts.new
        ≡ record parts.old {
          parked = marked_in_turn (filter (is_loose parts.old) ks) parts.old.parked;
        }) }
    ensures knows { R.knows ready.new parts.old.tables parts.old.clock parts.old.interest }
    ensures reached { reached.new.room ≡ reached.old.room }
    ensures room { lost.new.room ≡ lost.old.room }
    ensures none { lost.new.reached ≡ [] }
{
    reach_loose(parts, reached, lost);
    for index in 0..reached.count() {
        mark_unguarded(parts, ready, DescId(reached.at(index)));
    }
    lost.forget();
}
