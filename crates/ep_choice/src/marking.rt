//! Marks at the end of an event.
ghost use Rattle.std.specs.Prelude.{◌≡◌, ◌<◌, [], filter, length, map, true};
ghost use Rattle.ep_choice.specs.Marking.{AreLookedAt, Fits, IsNarrowed, due_in, gets_mark_key};
ghost use Rattle.ep_choice.specs.Narrow.{Lasts};
ghost use Rattle.ep_climb.specs.Reach.{AreReached, AreRoomy};
ghost use Rattle.ep_interest.specs.Exclusive.{is_exclusive};
ghost use Rattle.ep_machine.specs.Marks.{marked_by};

use crate::choice::Choice;
use crate::loose::mark_loose;
use crate::narrowing::narrow;
use ep_base::{DescId, EventNumber};
use ep_calls::Parts;
use ep_climb::{Readiness, mark_due, reach};
use ep_walk::Walk;
use std::alloc::Global;

/// Takes from what an event reached what it doesn't wake: of the exclusive registrations on each target only the chosen
/// one goes on passing something on, and what is reached is found once more, unless none of those passes anything on.
#[cold]
#[inline(never)]
fn wake<R: Readiness>(
    parts: &mut Parts,
    ready: &mut R,
    reached: &mut Walk<Global>,
    choice: &mut Choice,
    step: EventNumber,
)
    requires step { 0 < step }
    requires fits { Fits parts.old reached.old choice.old }
    requires knows { R.knows ready.old parts.old.tables parts.old.clock parts.old.interest }
    requires lasts { Lasts R.knows }
    requires reached { AreReached step parts.old.tables parts.old.interest reached.old.reached }
    ensures narrowed { IsNarrowed step parts.old parts.new }
    ensures parked { parts.new.parked ≡ parts.old.parked }
    ensures reached { AreReached step parts.new.tables parts.new.interest reached.new.reached }
    ensures fits { Fits parts.new reached.new choice.new }
    ensures lost { choice.new.lost ≡ choice.old.lost }
    ensures knows { R.knows ready.new parts.new.tables parts.new.clock parts.new.interest }
{
    narrow(
        parts,
        ready,
        reached,
        &mut choice.candidates,
        &mut choice.targets,
        step,
    );
    if choice.targets.count() > 0 {
        reach(parts, reached, step);
    }
}

/// Whether the end of an event has nobody to mark and nothing to narrow: nobody waits, no registration is exclusive,
/// and none was that is gone.
#[inline(always)]
fn is_idle(parts: &Parts, choice: &Choice) -> bool
    ensures nobody { result ≡ true → parts.now.parked ≡ [] }
    ensures plain { result ≡ true
        → length (filter is_exclusive parts.now.interest.entries) ≡ 0 }
    ensures unlost { result ≡ true → choice.now.lost.reached ≡ [] }
{
    parts.waiters.count() == 0 && parts.interest.guards() == 0 && choice.lost.count() == 0
}

/// What `mark_woken` does, if there is somebody to mark or something to narrow.
#[inline(never)]
fn mark_some<R: Readiness>(
    parts: &mut Parts,
    ready: &mut R,
    reached: &mut Walk<Global>,
    choice: &mut Choice,
    attend: Option<DescId>,
    step: EventNumber,
)
    requires step { 0 < step }
    requires fits { Fits parts.old reached.old choice.old }
    requires knows { R.knows ready.old parts.old.tables parts.old.clock parts.old.interest }
    requires lasts { Lasts R.knows }
    requires reached { AreReached step parts.old.tables parts.old.interest reached.old.reached }
    requires looked { AreLookedAt step parts.old choice.old.lost.reached attend }
    ensures marks { parts.new.parked
        ≡ marked_by (gets_mark_key step parts.old attend) parts.old.clock parts.old.parked }
    ensures narrowed { IsNarrowed step (record parts.old { parked = due_in parts.old })
        parts.new }
    ensures fits { Fits parts.new reached.new choice.new }
    ensures none { choice.new.lost.reached ≡ [] }
    ensures knows { R.knows ready.new parts.new.tables parts.new.clock parts.new.interest }
{
    parts.known();
    mark_due(parts);
    if parts.interest.guards() > 0 {
        wake(parts, ready, reached, choice, step);
    }
    ep_climb::mark(parts, ready, reached, attend);
    if choice.lost.count() > 0 {
        mark_loose(parts, ready, reached, &mut choice.lost);
    }
}

/// Sets marks at the end of an event: whoever is due, and of those that wait at a ready instance the longest waiting
/// one, if none is marked there, and if the event wakes the instance or no exclusive registration stands in it or
/// beneath it. An event wakes what it reaches, where of the exclusive registrations on a target only one passes
/// something on: the first that finds somebody who waits, with nobody marked there, whoever is due counted; and it
/// wakes `attend`, the instance at which an epoll_ctl raised IN, or that a caller left. Only those are looked at, and
/// what has lost an exclusive registration, or one beneath it. Registrations pass on only what the event wakes then,
/// and nothing is lost. It takes no memory. While no registration is exclusive, and none was, it looks only at what the
/// event reached and at `attend`, and at nothing if nobody waits.
#[inline(always)]
pub fn mark_woken<R: Readiness>(
    parts: &mut Parts,
    ready: &mut R,
    reached: &mut Walk<Global>,
    choice: &mut Choice,
    attend: Option<DescId>,
    step: EventNumber,
)
    requires step { 0 < step }
    requires fits { Fits parts.old reached.old choice.old }
    requires knows { R.knows ready.old parts.old.tables parts.old.clock parts.old.interest }
    requires lasts { Lasts R.knows }
    requires reached { AreReached step parts.old.tables parts.old.interest reached.old.reached }
    requires looked { AreLookedAt step parts.old choice.old.lost.reached attend }
    ensures marks { parts.new.parked
        ≡ marked_by (gets_mark_key step parts.old attend) parts.old.clock parts.old.parked }
    ensures narrowed { IsNarrowed step (record parts.old { parked = due_in parts.old })
        parts.new }
    ensures fits { Fits parts.new reached.new choice.new }
    ensures none { choice.new.lost.reached ≡ [] }
    ensures knows { R.knows ready.new parts.new.tables parts.new.clock parts.new.interest }
{
    if is_idle(parts, choice) {
        return;
    }
    mark_some(parts, ready, reached, choice, attend, step);
}
