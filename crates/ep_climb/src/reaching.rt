//! Which instances IN reaches in an event.
ghost use Rattle.std.specs.Prelude.{◌≡◌, ◌<◌, [], ℕ};
ghost use Rattle.ep_interest.specs.Registrations.{entry_under};
ghost use Rattle.ep_climb.specs.Reach.{AreHome, AreReached, AreRoomy, AscendsFrom, IsClosed, Walks, open_edges, passed_by};

use crate::ascending::{Along, ascend};
use ep_base::{DescId, EntryId, EventNumber};
use ep_calls::Parts;
use ep_interest::Interest;
use ep_nest::Graph;
use ep_walk::Walk;
use std::alloc::Global;

/// The instance of a registration that passes something on which this event raised at its target.
fn passed_to(interest: &Interest, id: EntryId, step: EventNumber) -> Option<DescId>
    ensures { result ≡ passed_by step (entry_under interest.now id) }
{
    match interest.get(id) {
        Some(entry) if entry.passes_in.0 == step.0 => Some(entry.instance),
        _ => None,
    }
}

/// Reaches the instance of a registration, and those above it to which IN goes on from there, if it passes something on
/// which this event raised at its target.
#[inline(always)]
fn ascend_from(
    interest: &Interest,
    graph: &Graph,
    reached: &mut Walk<Global>,
    id: EntryId,
    step: EventNumber,
)
    requires closed { IsClosed (open_edges interest.now graph.now) reached.old.reached }
    requires room { AreRoomy interest.now reached.old }
    requires home { AreHome graph.now reached.old }
    ensures { AscendsFrom (open_edges interest.now graph.now)
        (passed_by step (entry_under interest.now id)) reached.old reached.new }
{
    if let Some(instance) = passed_to(interest, id, step) {
        ascend(Along::Open(interest), graph, reached, instance);
    }
}

/// Reaches the instance of each registration that passes something on which this event raised at its target, and
/// those above it to which IN goes on from there.
#[inline(always)]
fn walk(interest: &Interest, graph: &Graph, reached: &mut Walk<Global>, step: EventNumber)
    requires step { 0 < step }
    requires none { reached.old.reached ≡ [] }
    requires room { AreRoomy interest.now reached.old }
    requires home { AreHome graph.now reached.old }
    ensures { Walks step interest.now graph.now reached.old reached.new }
{
    for id in interest.passing() {
        ascend_from(interest, graph, reached, *id, step);
    }
}

/// Reaches exactly the instances that IN reaches from below in an event; what was reached before is forgotten. It
/// visits the registrations that pass something on which the event raised at their targets, and the links to what it
/// reaches.
#[inline(always)]
pub fn reach(parts: &Parts, reached: &mut Walk<Global>, step: EventNumber)
    requires step { 0 < step }
    requires room { AreRoomy parts.now.interest reached.old }
    ensures room { reached.new.room ≡ reached.old.room }
    ensures reached { AreReached step parts.now.tables parts.now.interest reached.new.reached }
{
    parts.known();
    parts.interest.known();
    parts.graph.known();
    reached.forget();
    walk(&parts.interest, &parts.graph, reached, step);
}
