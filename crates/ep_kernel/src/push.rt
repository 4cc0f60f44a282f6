//! Which registrations an event puts at the end of their lists and among the hopes: those that pass something of it on.
ghost use Rattle.std.specs.List.{list_any};
ghost use Rattle.std.specs.Prelude.{◌≡◌, ◌&&◌, ◌==◌, ℕ, IsSome, filter};
ghost use Rattle.ep_climb.specs.Reach.{AreLive, AreReached};
ghost use Rattle.ep_interest.specs.Passes.{has_id};
ghost use Rattle.ep_interest.specs.Registrations.{entry_under, ids, is_on, lets_in};
ghost use Rattle.ep_kernel.specs.Beside.{Both, Each};
ghost use Rattle.ep_kernel.specs.Listed.{HavePlaces, may_stand as may_be_listed};
ghost use Rattle.ep_kernel.specs.Push.{Gains, comes_in, comes_on, passes_found};
ghost use Rattle.ep_table.specs.Value.{number_under};
ghost use Rattle.ep_rings.specs.KeyWalk.{entry_id};

use crate::beside::Beside;
use bitflags::Flags;
use ep_base::{DescId, EntryId, Mask};
use ep_calls::Parts;
use ep_interest::{Entry, Interest};

/// Whether a registration may stand on a list: it is armed, and fresh where it is edge-triggered.
fn may_stand(entry: &Entry) -> bool
    ensures { result ≡ may_be_listed entry.now }
{
    entry.armed && (!entry.mask.intersects(Mask::ET) || entry.fresh)
}

/// Whether a registration passes something on that was raised at its target.
fn passes(interest: &Interest, id: EntryId) -> bool
    ensures { result ≡ passes_found (entry_under interest.now id) }
{
    match interest.get(id) {
        Some(entry) => entry.passes_in.is_event() && may_stand(entry),
        None => false,
    }
}

/// Puts a registration at the end of its list and among the hopes, where it passes something on.
fn push_if_passing(interest: &Interest, beside: &mut Beside, id: EntryId)
    requires { Both (HavePlaces interest.now) beside.old }
    ensures { Each (Gains (λ k. k == id.0 && passes_found (entry_under interest.now (entry_id k))))
        beside.old beside.new }
{
    if passes(interest, id) {
        beside.join(id);
    }
}

/// Puts each registration at the end of its list and among the hopes that passes something on which was raised at its
/// target.
fn push_passing(interest: &Interest, beside: &mut Beside)
    requires { Both (HavePlaces interest.now) beside.old }
    ensures { Each (Gains (λ k. passes_found (entry_under interest.now (entry_id k)))) beside.old
        beside.new }
{
    for id in interest.passing() {
        push_if_passing(interest, beside, *id);
    }
}

/// Puts a registration at the end of its list and among the hopes, where IN comes through it.
fn push_if_letting(interest: &Interest, beside: &mut Beside, id: EntryId)
    requires { Both (HavePlaces interest.now) beside.old }
    ensures { Each (Gains (λ k. k == id.0 && lets_in (entry_under interest.now (entry_id k))))
        beside.old beside.new }
{
    if interest.lets_by(id) {
        beside.join(id);
    }
}

/// Puts the registrations on a description at the end of their lists and among the hopes through which IN comes.
fn push_watchers(interest: &Interest, beside: &mut Beside, desc: DescId)
    requires { Both (HavePlaces interest.now) beside.old }
    ensures { Each
        (Gains (λ k. has_id (ids interest.now (filter (is_on desc) interest.now.entries)) k
        && lets_in (entry_under interest.now (entry_id k)))) beside.old beside.new }
{
    for id in interest.watchers(desc) {
        push_if_letting(interest, beside, id);
    }
}

/// Puts the registrations on an instance at the end of their lists and among the hopes through which IN comes, where it
/// is one.
fn push_above(parts: &Parts, beside: &mut Beside, desc: DescId)
    requires places { Both (HavePlaces parts.now.interest) beside.old }
    requires live { IsSome (number_under parts.now.tables desc) }
    ensures { Each (Gains (comes_on parts.now desc)) beside.old beside.new }
{
    if parts.tables.object(desc).is_instance() {
        push_watchers(&parts.interest, beside, desc);
    }
}

/// Puts each registration at the end of its list and among the hopes through which IN comes from an instance that the
/// event reached.
fn push_nested(parts: &Parts, beside: &mut Beside)
    requires places { Both (HavePlaces parts.now.interest) beside.old }
    requires live { AreLive parts.now.tables beside.old.reached.reached }
    ensures { Each
        (Gains (λ k. list_any (λ i. comes_on parts.now (record { 0 = i }) k)
        beside.old.reached.reached)) beside.old beside.new }
{
    for index in 0..beside.reached.count() {
        let instance = DescId(beside.reached.at(index));
        push_above(parts, beside, instance);
    }
}

/// Puts each registration at the end of its list and among the hopes, if it does not stand there, that passes something
/// of an event on, where `beside` has noted what the event reaches. A list that it stands on already stays.
pub fn push(parts: &Parts, beside: &mut Beside)
    requires places { Both (HavePlaces parts.now.interest) beside.old }
    requires live { AreLive parts.now.tables beside.old.reached.reached }
    ensures { (n : ℕ)
        → AreReached n parts.now.tables parts.now.interest beside.old.reached.reached
        → Each (Gains (comes_in n parts.now)) beside.old beside.new }
{
    parts.known();
    parts.interest.known();
    push_passing(&parts.interest, beside);
    push_nested(parts, beside);
}
