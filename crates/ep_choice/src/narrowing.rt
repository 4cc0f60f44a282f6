//! Of the exclusive registrations on each target only the chosen one goes on passing something on.
ghost use Rattle.std.specs.Prelude.{◌≡◌, ◌<◌, [], length, map};
ghost use Rattle.ep_calls.specs.Readiness.{readiness, watches_of};
ghost use Rattle.ep_calls.specs.Stands.{waiters_at};
ghost use Rattle.ep_choice.specs.Answers.{KnowsNone};
ghost use Rattle.ep_choice.specs.Choose.{HasKeys, HaveInstances};
ghost use Rattle.ep_choice.specs.Narrow.{AreTargets, HasTargets, HaveTargets, Lasts, exclusive_target as target_of, with_target};
ghost use Rattle.ep_climb.specs.Reach.{AreRoomy};
ghost use Rattle.ep_interest.specs.Exclusive.{kept_passing};
ghost use Rattle.ep_interest.specs.Registrations.{entry_under, settled};
ghost use Rattle.ep_view.specs.Marking.{narrowed_now};

use crate::candidates::Candidates;
use crate::choosing::choose_exclusive;
use bitflags::Flags;
use ep_base::{DescId, EntryId, EntryNumber, EventNumber, Mask};
use ep_calls::Parts;
use ep_climb::Readiness;
use ep_interest::Interest;
use ep_walk::Walk;
use std::alloc::Global;

/// The target of the registration under a key, if that is exclusive.
fn exclusive_target(interest: &Interest, id: EntryId) -> Option<DescId>
    ensures { result ≡ target_of (entry_under interest.now id) }
{
    match interest.get(id) {
        Some(entry) if entry.mask.intersects(Mask::EXCLUSIVE) => Some(entry.desc),
        _ => None,
    }
}

/// Reaches the target of the registration under a key, if that is exclusive.
fn reach_target(interest: &Interest, targets: &mut Walk<Global>, id: EntryId)
    requires { HasTargets interest.now targets.old }
    ensures { targets.new ≡ with_target (target_of (entry_under interest.now id)) targets.old }
{
    if let Some(target) = exclusive_target(interest, id) {
        targets.reach(target.0);
    }
}

/// The same of each registration that passes something on.
fn reach_targets(interest: &Interest, targets: &mut Walk<Global>)
    requires none { targets.old.reached ≡ [] }
    requires room { HasTargets interest.now targets.old }
    ensures room { targets.new.room ≡ targets.old.room }
    ensures sound { AreTargets interest.now targets.new.reached }
    ensures complete { HaveTargets interest.now targets.new.reached }
{
    for id in interest.passing() {
        reach_target(interest, targets, *id);
    }
}

/// Of the exclusive registrations on a description only the one with this number goes on passing something on.
fn keep(parts: &mut Parts, target: DescId, chosen: Option<EntryNumber>)
    ensures entries { parts.new.interest.entries
        ≡ map (kept_passing target chosen) parts.old.interest.entries }
    ensures keys { parts.new.interest.keys ≡ parts.old.interest.keys }
    ensures added { parts.new.interest.added ≡ parts.old.interest.added }
    ensures next { parts.new.interest.next ≡ parts.old.interest.next }
    ensures others { parts.new ≡ record parts.old { interest = parts.new.interest } }
{
    parts.interest.keep_passing(target, chosen);
}

/// Begins to ask, if there is a target to ask for: nothing was reached, and no instance answered.
fn begin(reached: &mut Walk<Global>, candidates: &mut Candidates, targets: &Walk<Global>)
    ensures idle { targets.now.reached ≡ [] → reached.new ≡ reached.old }
    ensures none { 0 < length targets.now.reached → reached.new.reached ≡ [] }
    ensures room { reached.new.room ≡ reached.old.room }
    ensures keys { candidates.new.keys ≡ candidates.old.keys }
    ensures unknown { KnowsNone candidates.new }
{
    candidates.forget_answers();
    if targets.count() > 0 {
        reached.forget();
    }
}

/// Of the exclusive registrations on each target that pass something on in an event only the chosen one goes on
/// passing it on, so that what the event reaches from then on is what it wakes. Whoever is due is marked before. It
/// takes no memory, since the walks have room. Its time grows with the registrations on the targets, and with what is
/// above the instances of those that pass something on; each of these instances is asked once, for however many
/// targets. `targets` is left with the targets.
pub fn narrow<R: Readiness>(
    parts: &mut Parts,
    ready: &mut R,
    reached: &mut Walk<Global>,
    candidates: &mut Candidates,
    targets: &mut Walk<Global>,
    step: EventNumber,
)
    requires step { 0 < step }
    requires instances { HaveInstances parts.old }
    requires room { AreRoomy parts.old.interest reached.old }
    requires keys { HasKeys parts.old.interest candidates.old.keys }
    requires targets { HasTargets parts.old.interest targets.old }
    requires knows { R.knows ready.old parts.old.tables parts.old.clock parts.old.interest }
    requires lasts { Lasts R.knows }
    ensures watches { watches_of parts.old.tables parts.new.interest
        ≡ narrowed_now parts.old.tables.files step (watches_of parts.old.tables parts.old.interest)
        (readiness parts.old.tables parts.old.clock parts.old.interest)
        (waiters_at parts.old.tables.keys parts.old.parked) }
    ensures entries { map settled parts.new.interest.entries
        ≡ map settled parts.old.interest.entries }
    ensures keys { parts.new.interest.keys ≡ parts.old.interest.keys }
    ensures added { parts.new.interest.added ≡ parts.old.interest.added }
    ensures next { parts.new.interest.next ≡ parts.old.interest.next }
    ensures others { parts.new ≡ record parts.old { interest = parts.new.interest } }
    ensures room { reached.new.room ≡ reached.old.room }
    ensures candidates { candidates.new.keys.room ≡ candidates.old.keys.room }
    ensures targets { targets.new.room ≡ targets.old.room }
    ensures idle { targets.new.reached ≡ []
        → (reached.new ≡ reached.old) × (parts.new ≡ parts.old) }
    ensures knows { R.knows ready.new parts.new.tables parts.new.clock parts.new.interest }
{
    parts.known();
    parts.interest.known();
    targets.forget();
    reach_targets(&parts.interest, targets);
    begin(reached, candidates, targets);
    for index in 0..targets.count() {
        let target = DescId(targets.at(index));
        let chosen = choose_exclusive(parts, ready, reached, candidates, target, step);
        keep(parts, target, chosen);
    }
}
