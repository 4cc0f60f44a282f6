//! Marks at the end of an event, at the instances that it reached and at the one that it attends.
ghost use Rattle.std.specs.Prelude.{◌≡◌, ◌++◌, IsSome, filter, map, ℕ};
ghost use Rattle.ep_calls.specs.Parking.{ready_key};
ghost use Rattle.ep_climb.specs.Mark.{attended, attends, left_at, marked_where, resumed_at as resumed};
ghost use Rattle.ep_interest.specs.Registrations.{Registrations};
ghost use Rattle.ep_machine.specs.Waits.{marked_if_due};
ghost use Rattle.ep_park.specs.Turns.{marked_in_turn};
ghost use Rattle.ep_table.specs.Value.{Seen, number_under};

use ep_base::{CallerId, DescId, Event};
use ep_calls::{Parts, Raising};
use ep_walk::Walk;
use std::alloc::Global;

/// The instance at which a caller waits that an event resumes. `None` if the event resumes none that is parked.
pub fn resumed_at(parts: &Parts, caller: CallerId, event: &Event) -> Option<DescId>
    ensures { result ≡ resumed parts.now.parked caller.0 event.now }
{
    match event {
        Event::Resume => parts.waiters.waiter(caller).map(|waiter| waiter.instance),
        _ => None,
    }
}

/// Of the instance at which a caller waited that an event resumed, whether the caller left it: it is parked no more.
/// `None` if it still waits, or none was resumed.
pub fn left(parts: &Parts, caller: CallerId, resumed: Option<DescId>) -> Option<DescId>
    ensures { result ≡ left_at parts.now.parked caller.0 resumed }
{
    let instance = resumed?;
    if parts.waiters.is_parked(caller) {
        return None;
    }
    Some(instance)
}

/// The instance that an event attends beside those that it reaches: the one that a caller left, or the one at which it
/// raised IN. `None` if there is neither.
pub fn attend(left: Option<DescId>, raising: Raising) -> Option<DescId>
    ensures { result ≡ attends left raising }
{
    if left.is_some() {
        return left;
    }
    match raising {
        Raising::Instance { desc } => Some(desc),
        _ => None,
    }
}

/// Marks whoever is due. The cost grows with those that this marks, and not with others.
#[inline(always)]
pub fn mark_due(parts: &mut Parts)
    ensures { parts.new
        ≡ record parts.old { parked = map (marked_if_due parts.old.clock) parts.old.parked } }
{
    parts.waiters.mark_due(parts.clock);
}

/// A way to tell whether an instance is ready.
pub trait Readiness {
    /// What has to hold of the tables, the clock and the registrations so that it tells the truth. Who is parked
    /// doesn't matter to it, so marks leave it.
    ghost knows: { Self → Seen → ℕ → Registrations → Type 0 };

    /// Whether something is reportable at an instance.
    fn is_ready(&mut self, parts: &Parts, instance: DescId) -> bool
        requires live { IsSome (number_under parts.now.tables instance) }
        requires knows { knows self.old parts.now.tables parts.now.clock parts.now.interest }
        ensures ready { result
            ≡ ready_key parts.now.tables parts.now.clock parts.now.interest instance.0 }
        ensures knows { knows self.new parts.now.tables parts.now.clock parts.now.interest };
}

/// Marks the caller that waits longest at an instance, if that is ready and none is marked there. Nothing is looked at
/// if nobody waits or one is marked.
#[inline(always)]
pub fn mark_at<R: Readiness>(parts: &mut Parts, ready: &mut R, instance: DescId)
    requires { R.knows ready.old parts.old.tables parts.old.clock parts.old.interest }
    ensures marks { parts.new
        ≡ record parts.old {
          parked = marked_where (ready_key parts.old.tables parts.old.clock parts.old.interest)
              instance.0 parts.old.parked;
        } }
    ensures knows { R.knows ready.new parts.old.tables parts.old.clock parts.old.interest }
{
    parts.known();
    if !parts.waiters.has_waiter(instance) {
        return;
    }
    if parts.waiters.has_mark(instance) {
        return;
    }
    if ready.is_ready(parts, instance) {
        parts.waiters.mark_longest(instance);
    }
}

/// The same at each instance that the event reached.
fn mark_reached<R: Readiness>(parts: &mut Parts, ready: &mut R, reached: &Walk<Global>)
    requires { R.knows ready.old parts.old.tables parts.old.clock parts.old.interest }
    ensures marks { parts.new
        ≡ record parts.old {
          parked = marked_in_turn
              (filter (ready_key parts.old.tables parts.old.clock parts.old.interest)
              reached.now.reached)
              parts.old.parked;
        } }
    ensures knows { R.knows ready.new parts.old.tables parts.old.clock parts.old.interest }
{
    for index in 0..reached.count() {
        mark_at(parts, ready, DescId(reached.at(index)));
    }
}

/// The same at the instance that the event attends, if there is one.
fn mark_attended<R: Readiness>(parts: &mut Parts, ready: &mut R, attend: Option<DescId>)
    requires { R.knows ready.old parts.old.tables parts.old.clock parts.old.interest }
    ensures marks { parts.new
        ≡ record parts.old {
          parked = marked_in_turn
              (filter (ready_key parts.old.tables parts.old.clock parts.old.interest) (attended attend))
              parts.old.parked;
        } }
    ensures knows { R.knows ready.new parts.old.tables parts.old.clock parts.old.interest }
{
    if let Some(instance) = attend {
        mark_at(parts, ready, instance);
    }
}

/// Sets marks at what an event wakes: of those that wait at a ready instance the longest waiting one, if none is marked
/// there. `attend` is the instance at which an epoll_ctl raised IN, or that a caller left. Only that one and the
/// instances that were reached are looked at. Whoever is due was marked before.
pub fn mark<R: Readiness>(
    parts: &mut Parts,
    ready: &mut R,
    reached: &Walk<Global>,
    attend: Option<DescId>,
)
    requires knows { R.knows ready.old parts.old.tables parts.old.clock parts.old.interest }
    ensures marks { parts.new.parked
        ≡ marked_in_turn
        (filter (ready_key parts.old.tables parts.old.clock parts.old.interest)
        (reached.now.reached ++ attended attend))
        parts.old.parked }
    ensures others { parts.new ≡ record parts.old { parked = parts.new.parked } }
    ensures knows { R.knows ready.new parts.new.tables parts.new.clock parts.new.interest }
{
    mark_reached(parts, ready, reached);
    mark_attended(parts, ready, attend);
}
