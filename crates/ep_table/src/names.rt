//! The names that a table gives to descriptions.
ghost use Rattle.std.specs.Prelude.{ℕ, ◌+◌, ◌<◌, ◌≡◌, ◌≤◌, ◌^◌, ◌∷◌, [], length, map};
ghost use Rattle.ep_table.specs.Counting.{Lowers, Raises, numbers};
ghost use Rattle.ep_table.specs.Flagged.{closing};
ghost use Rattle.ep_table.specs.Value.{count_at, times};
ghost use Rattle.ep_table.specs.View.{LiveSlot, LiveTable};

use crate::store::Store;
use crate::words::Descriptor;
use std::alloc::Allocator;

fn add_name<A: Allocator>(store: &mut Store<A>, slot: Option<Descriptor>)
    requires live { LiveSlot store.old.keys slot }
    requires named { (d : ℕ) → 0 < times d (numbers store.old.keys (slot ∷ []))
        → 0 < count_at store.old.names d }
    requires fits { store.old.named + 2 < 2 ^ 64 }
    ensures names { Raises store.old store.new (numbers store.old.keys (slot ∷ [])) }
    ensures named { store.new.named ≤ store.old.named + 1 }
{
    if let Some(descriptor) = slot {
        store.add_name(descriptor.description);
    }
}

/// Adds the names that descriptors give.
pub fn add_names<A: Allocator>(store: &mut Store<A>, slots: &[Option<Descriptor>])
    requires live { LiveTable store.old.keys slots.now }
    requires named { (d : ℕ) → 0 < times d (numbers store.old.keys slots.now)
        → 0 < count_at store.old.names d }
    requires fits { store.old.named + length slots.now + 2 < 2 ^ 64 }
    ensures { Raises store.old store.new (numbers store.old.keys slots.now) }
{
    for slot in slots {
        add_name(store, *slot);
    }
}

fn drop_name<A: Allocator>(store: &mut Store<A>, slot: Option<Descriptor>)
    requires live { LiveSlot store.old.keys slot }
    requires named { (d : ℕ) → times d (numbers store.old.keys (slot ∷ []))
        ≤ count_at store.old.names d }
    ensures { Lowers store.old store.new (numbers store.old.keys (slot ∷ [])) }
{
    if let Some(descriptor) = slot {
        store.drop_name(descriptor.description);
    }
}

/// What stands at a number, where it is to be closed.
fn closed(slot: Option<Descriptor>, every: bool) -> Option<Descriptor>
    ensures { result ≡ closing every slot }
{
    match slot {
        Some(descriptor) if every || descriptor.cloexec => Some(descriptor),
        _ => None,
    }
}

/// Drops the names that descriptors give: of every one, or of those whose close-on-exec flag is on.
pub fn drop_names<A: Allocator>(store: &mut Store<A>, slots: &[Option<Descriptor>], every: bool)
    requires live { LiveTable store.old.keys slots.now }
    requires named { (d : ℕ) → times d (numbers store.old.keys (map (closing every) slots.now))
        ≤ count_at store.old.names d }
    ensures { Lowers store.old store.new (numbers store.old.keys (map (closing every) slots.now)) }
{
    for slot in slots {
        drop_name(store, closed(*slot, every));
    }
}
