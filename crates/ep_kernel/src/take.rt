//! What a wait leaves of the ready list of its instance.
ghost use Rattle.std.specs.Prelude.{◌≡◌, ◌<◌, ◌≤◌, length};
ghost use Rattle.ep_kernel.specs.Take.{SetsList, key_stays, taken};
ghost use Rattle.ep_ready.specs.ReadyLists.{list_at};

use bitflags::Flags;
use ep_base::{DescId, EntryId, EventNumber, Mask};
use ep_interest::Interest;
use ep_ready::ReadyLists;

/// Whether a registration stays on its list: an event reported it, and may report it again although nothing arrives.
fn stays_listed(interest: &Interest, id: EntryId, step: EventNumber) -> bool
    ensures { result ≡ key_stays step interest.now id.0 }
{
    match interest.get(id) {
        Some(entry) => {
            entry.reported_in.0 == step.0 && entry.armed && !entry.mask.intersects(Mask::ET)
        }
        None => false,
    }
}

/// Takes the first registration off the list of an instance; where it stays, it comes to the end.
fn take_front(interest: &Interest, lists: &mut ReadyLists, instance: DescId, step: EventNumber)
    requires { 0 < length (list_at lists.old instance.0) }
    ensures { SetsList lists.old lists.new instance.0
        (taken (key_stays step interest.now) 1 (list_at lists.old instance.0)) }
{
    lists.known();
    let Some(id) = lists.front(instance) else {
        return;
    };
    if stays_listed(interest, id, step) {
        lists.rotate(instance);
    } else {
        lists.remove(id);
    }
}

/// Takes so many registrations off the front of the list of an instance; those that stay come to the end, in order.
pub fn take(
    interest: &Interest,
    lists: &mut ReadyLists,
    instance: DescId,
    walked: usize,
    step: EventNumber,
)
    requires { walked ≤ length (list_at lists.old instance.0) }
    ensures { SetsList lists.old lists.new instance.0
        (taken (key_stays step interest.now) walked (list_at lists.old instance.0)) }
{
    for _ in 0..walked {
        take_front(interest, lists, instance, step);
    }
}
