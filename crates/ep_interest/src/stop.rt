//! Of the exclusive registrations on a description one goes on passing on what it does, and the others don't.
ghost use Rattle.std.specs.Option.{option_map};
ghost use Rattle.std.specs.Prelude.{◌≡◌, ◌≤◌, IsSome, None, length, slice_index_or, slice_set, vec_capacity};
ghost use Rattle.ep_interest.specs.Exclusive.{is_number as has_number, kept_passing};
ghost use Rattle.ep_interest.specs.InTurn.{AllHeld, changed_at};
ghost use Rattle.ep_interest.specs.Passes.{ArePassing};

use crate::entries::{Watchers, is_exclusive};
use crate::entry::Entry;
use crate::passes::Passes;
use ep_base::{DescId, EntryId, EntryNumber, EventNumber};
use slab::Slab;
use std::alloc::Allocator;

/// Whether this is the number that is kept.
fn is_number(keep: Option<EntryNumber>, number: EntryNumber) -> bool
    ensures { result ≡ has_number keep number }
{
    match keep {
        Some(kept) => kept.0 == number.0,
        None => false,
    }
}

/// An exclusive registration on a description passes nothing on any more, unless it has this number.
fn stop(entry: &mut Entry, desc: DescId, keep: Option<EntryNumber>)
    ensures { entry.new ≡ kept_passing desc keep entry.old }
{
    if entry.desc.0 == desc.0 && is_exclusive(entry) && !is_number(keep, entry.number) {
        entry.passes_in = EventNumber(0);
    }
}

/// The same of the registration under a key.
fn stop_one<A: Allocator>(
    slots: &mut Slab<Entry, A>,
    passes: &mut Passes<A>,
    id: EntryId,
    desc: DescId,
    keep: Option<EntryNumber>,
)
    requires held { IsSome (slice_index_or slots.old.slots id.0 None) }
    requires passing { ArePassing slots.old.slots passes.old.keys.items }
    requires room { length slots.old.slots ≤ vec_capacity passes.old.keys }
    ensures slots { slots.new.slots
        ≡ slice_set slots.old.slots id.0
        (option_map (kept_passing desc keep) (slice_index_or slots.old.slots id.0 None)) }
    ensures next { slots.new.vacant_key ≡ slots.old.vacant_key }
    ensures passing { ArePassing slots.new.slots passes.new.keys.items }
    ensures room { length slots.new.slots ≤ vec_capacity passes.new.keys }
{
    let entry = &mut slots[id.0];
    let before = entry.passes_in;
    stop(entry, desc, keep);
    let after = entry.passes_in;
    passes.follow(id, before.is_event(), after.is_event());
}

/// The same of each of these registrations, one after another. The prover follows `keep` through a loop only behind a
/// reference.
pub(crate) fn stop_each<A: Allocator>(
    slots: &mut Slab<Entry, A>,
    passes: &mut Passes<A>,
    watchers: Watchers<'_>,
    desc: DescId,
    keep: &Option<EntryNumber>,
)
    requires held { AllHeld slots.old.slots watchers }
    requires passing { ArePassing slots.old.slots passes.old.keys.items }
    requires room { length slots.old.slots ≤ vec_capacity passes.old.keys }
    ensures slots { slots.new.slots
        ≡ changed_at (kept_passing desc keep.now) watchers.entry slots.old.slots }
    ensures next { slots.new.vacant_key ≡ slots.old.vacant_key }
    ensures passing { ArePassing slots.new.slots passes.new.keys.items }
    ensures room { length slots.new.slots ≤ vec_capacity passes.new.keys }
{
    for id in watchers {
        stop_one(slots, passes, id, desc, *keep);
    }
}
