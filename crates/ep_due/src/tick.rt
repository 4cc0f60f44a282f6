//! A tick: each place whose moment has come is taken, once.
ghost use Rattle.std.specs.Prelude.{◌≡◌, ◌+◌, ◌<◌, ℕ, OnOk, IfSome, IsSome, Some, slice_set};
ghost use Rattle.ep_due.specs.DueQueue.{moment_at, HasNoneDue};
ghost use Rattle.ep_due.specs.Tick.{TakesDue, due_weight, times_taken};

use crate::due::{DuePlace, DueQueue};
use std::alloc::{AllocError, Allocator};

/// Takes each place whose moment is at or below `now`, once, puts it at the end of `taken`, and leaves it with the
/// moment `next` or with none. `AllocError` where `taken` can't grow: then the places that were taken are in `taken`,
/// and the rest is as it was.
pub fn take_due<A: Allocator, B: Allocator>(
    queue: &mut DueQueue<A>,
    now: u64,
    next: Option<u64>,
    taken: &mut Vec<DuePlace, B>,
) -> Result<(), AllocError>
    requires { IfSome next (λ m. now < m) }
    ensures taken { TakesDue now next queue.old queue.new taken.old.items taken.new.items }
    ensures none_left { OnOk result (HasNoneDue queue.new now) }
    ensures each_once { OnOk result
        ((p : ℕ) → times_taken p taken.new.items
        ≡ times_taken p taken.old.items + due_weight now queue.old p) }
{
    while let Some(place) = queue.first_due(now) {
        taken.push(place)?;
        leave(queue, place, next);
    }
    Ok(())
}

/// Leaves a place with a moment or with none.
fn leave<A: Allocator>(queue: &mut DueQueue<A>, place: DuePlace, next: Option<u64>)
    requires { IsSome (moment_at queue.old place.0) }
    ensures { queue.new ≡ slice_set queue.old place.0 (Some next) }
{
    match next {
        Some(moment) => queue.set(place, moment),
        None => queue.clear(place),
    }
}
