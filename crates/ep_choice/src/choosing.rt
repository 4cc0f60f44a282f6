//! The first of the exclusive registrations on a target that finds somebody.
ghost use Rattle.std.specs.Prelude.{◌≡◌, ◌<◌, [], IsSome, false, take};
ghost use Rattle.std.specs.List.{list_any};
ghost use Rattle.ep_choice.specs.Answers.{AreAnswers};
ghost use Rattle.ep_choice.specs.Choose.{AreCandidates, AreKeys, HasKeys, HaveInstances, IsVain, awaited_key};
ghost use Rattle.ep_choice.specs.Choose.{chosen_number, finds_key, with_candidate};
ghost use Rattle.ep_climb.specs.Reach.{AreRoomy, IsClosed, IsGrown, open_edges};
ghost use Rattle.ep_interest.specs.Registrations.{number_under as number_of_entry};
ghost use Rattle.ep_table.specs.Value.{number_under};

use crate::candidates::Candidates;
use ep_base::{DescId, EntryId, EntryNumber, EventNumber};
use ep_calls::Parts;
use ep_climb::{Along, Readiness, ascend};
use ep_interest::{Entry, Interest};
use ep_walk::Walk;
use std::alloc::Global;

/// Whether an instance is ready and somebody waits there, and nobody who does is marked. Whether it is ready is asked
/// last.
pub(crate) fn is_awaited<R: Readiness>(parts: &Parts, ready: &mut R, instance: DescId) -> bool
    requires knows { R.knows ready.old parts.now.tables parts.now.clock parts.now.interest }
    ensures exact { result
        ≡ awaited_key parts.now.tables parts.now.clock parts.now.interest parts.now.parked
        instance.0 }
    ensures knows { R.knows ready.new parts.now.tables parts.now.clock parts.now.interest }
{
    if !parts.waiters.has_waiter(instance) {
        return false;
    }
    if parts.waiters.has_mark(instance) {
        return false;
    }
    ready.is_ready(parts, instance)
}

/// Whether one of the instances that a walk reached is. The first `asked` of them were asked in vain.
fn is_any_awaited<R: Readiness>(
    parts: &Parts,
    ready: &mut R,
    reached: &Walk<Global>,
    asked: usize,
) -> bool
    requires asked { list_any
        (awaited_key parts.now.tables parts.now.clock parts.now.interest parts.now.parked)
        (take asked reached.now.reached)
        ≡ false }
    requires knows { R.knows ready.old parts.now.tables parts.now.clock parts.now.interest }
    ensures exact { result
        ≡ list_any
        (awaited_key parts.now.tables parts.now.clock parts.now.interest parts.now.parked)
        reached.now.reached }
    ensures knows { R.knows ready.new parts.now.tables parts.now.clock parts.now.interest }
{
    for index in asked..reached.count() {
        if is_awaited(parts, ready, DescId(reached.at(index))) {
            return true;
        }
    }
    false
}

/// Notes the key of an exclusive registration, if that passes something of this event on.
fn gather_one(candidates: &mut Walk<Global>, id: EntryId, entry: &Entry, step: EventNumber)
    requires { id.0 < candidates.old.room }
    ensures { candidates.new ≡ with_candidate step (id, entry.now) candidates.old }
{
    if entry.passes_in.0 == step.0 {
        candidates.reach(id.0);
    }
}

/// Finds the exclusive registrations on a description that pass something of this event on, by their keys.
fn gather(interest: &Interest, candidates: &mut Walk<Global>, target: DescId, step: EventNumber)
    requires none { candidates.old.reached ≡ [] }
    requires room { HasKeys interest.now candidates.old }
    ensures room { candidates.new.room ≡ candidates.old.room }
    ensures sound { AreKeys interest.now candidates.new.reached }
    ensures exact { AreCandidates interest.now target step candidates.new.reached }
{
    interest.known();
    for (id, entry) in interest.exclusive_watchers(target) {
        gather_one(candidates, id, entry, step);
    }
}

/// Reaches the instance of a registration, and those above it to which IN goes on from there. What was reached before
/// was asked in vain.
fn climb_from(parts: &Parts, reached: &mut Walk<Global>, id: EntryId)
    requires there { IsSome (number_of_entry parts.now.interest id) }
    requires instances { HaveInstances parts.now }
    requires room { AreRoomy parts.now.interest reached.old }
    requires vain { IsVain parts.now reached.old.reached }
    ensures room { reached.new.room ≡ reached.old.room }
    ensures grown { IsGrown reached.old.reached reached.new.reached }
    ensures closed { IsClosed (open_edges parts.now.interest parts.now.graph) reached.new.reached }
    ensures exact { list_any
        (awaited_key parts.now.tables parts.now.clock parts.now.interest parts.now.parked)
        reached.new.reached
        ≡ finds_key parts.now.tables parts.now.clock parts.now.interest parts.now.parked id.0 }
{
    parts.known();
    parts.interest.known();
    parts.graph.known();
    let instance = parts.interest.entry(id).instance;
    let open = Along::Open(&parts.interest);
    ascend(open, &parts.graph, reached, instance);
}

/// Asks from the instance of a registration upwards whether somebody is found. What was reached before was asked in
/// vain, and so was what is reached then: all is forgotten if somebody is found.
fn ask<R: Readiness>(parts: &Parts, ready: &mut R, reached: &mut Walk<Global>, id: EntryId) -> bool
    requires there { IsSome (number_of_entry parts.now.interest id) }
    requires instances { HaveInstances parts.now }
    requires room { AreRoomy parts.now.interest reached.old }
    requires vain { IsVain parts.now reached.old.reached }
    requires knows { R.knows ready.old parts.now.tables parts.now.clock parts.now.interest }
    ensures room { reached.new.room ≡ reached.old.room }
    ensures vain { IsVain parts.now reached.new.reached }
    ensures knows { R.knows ready.new parts.now.tables parts.now.clock parts.now.interest }
    ensures exact { result
        ≡ finds_key parts.now.tables parts.now.clock parts.now.interest parts.now.parked id.0 }
{
    let asked = reached.count();
    climb_from(parts, reached, id);
    if !is_any_awaited(parts, ready, reached, asked) {
        return false;
    }
    reached.forget();
    true
}

/// Whether a registration finds somebody. Its instance is asked if it did not answer yet in this event, and what it
/// answers is noted.
fn finds<R: Readiness>(
    parts: &Parts,
    ready: &mut R,
    reached: &mut Walk<Global>,
    candidates: &mut Candidates,
    id: EntryId,
) -> bool
    requires there { IsSome (number_of_entry parts.now.interest id) }
    requires instances { HaveInstances parts.now }
    requires room { AreRoomy parts.now.interest reached.old }
    requires vain { IsVain parts.now reached.old.reached }
    requires answers { AreAnswers parts.now.tables parts.now.clock parts.now.interest
        parts.now.parked candidates.old }
    requires knows { R.knows ready.old parts.now.tables parts.now.clock parts.now.interest }
    ensures room { reached.new.room ≡ reached.old.room }
    ensures keys { candidates.new.keys ≡ candidates.old.keys }
    ensures vain { IsVain parts.now reached.new.reached }
    ensures answers { AreAnswers parts.now.tables parts.now.clock parts.now.interest
        parts.now.parked candidates.new }
    ensures knows { R.knows ready.new parts.now.tables parts.now.clock parts.now.interest }
    ensures exact { result
        ≡ finds_key parts.now.tables parts.now.clock parts.now.interest parts.now.parked id.0 }
{
    parts.known();
    parts.interest.known();
    let instance = parts.interest.entry(id).instance;
    if candidates.found.has(instance.0) {
        return true;
    }
    if candidates.vain.has(instance.0) {
        return false;
    }
    let finds = ask(parts, ready, reached, id);
    candidates.note(instance, finds);
    finds
}

/// The number of the first exclusive registration on a description that passes something of this event on and finds
/// somebody: an instance, its own or one above that to which IN goes on from there, that is ready and has waiters, none
/// of them marked. It takes no memory. Its time grows with the registrations on the description, and with what is above
/// the instances of those that pass something on. An instance that answered for another target of the event isn't asked
/// again. What was reached before was asked in vain, and so was what is reached then.
pub fn choose_exclusive<R: Readiness>(
    parts: &Parts,
    ready: &mut R,
    reached: &mut Walk<Global>,
    candidates: &mut Candidates,
    target: DescId,
    step: EventNumber,
) -> Option<EntryNumber>
    requires live { IsSome (number_under parts.now.tables target) }
    requires instances { HaveInstances parts.now }
    requires room { AreRoomy parts.now.interest reached.old }
    requires vain { IsVain parts.now reached.old.reached }
    requires keys { HasKeys parts.now.interest candidates.old.keys }
    requires answers { AreAnswers parts.now.tables parts.now.clock parts.now.interest
        parts.now.parked candidates.old }
    requires knows { R.knows ready.old parts.now.tables parts.now.clock parts.now.interest }
    ensures room { reached.new.room ≡ reached.old.room }
    ensures vain { IsVain parts.now reached.new.reached }
    ensures keys { candidates.new.keys.room ≡ candidates.old.keys.room }
    ensures answers { AreAnswers parts.now.tables parts.now.clock parts.now.interest
        parts.now.parked candidates.new }
    ensures knows { R.knows ready.new parts.now.tables parts.now.clock parts.now.interest }
    ensures exact { result
        ≡ chosen_number parts.now.tables parts.now.clock parts.now.interest parts.now.parked step
        target }
{
    parts.known();
    parts.interest.known();
    candidates.keys.forget();
    gather(&parts.interest, &mut candidates.keys, target, step);
    for index in 0..candidates.keys.count() {
        let id = EntryId(candidates.keys.at(index));
        if finds(parts, ready, reached, candidates, id) {
            let number = parts.interest.entry(id).number;
            return Some(number);
        }
    }
    None
}
