//! What registrations show, looking down along the hopes of the instances below. Each of these is asked once, and then
//! its answer is known.
ghost use Rattle.std.specs.Prelude.{◌≡◌, IfSome, IsSome};
ghost use Rattle.ep_calls.specs.Parking.{ready_key};
ghost use Rattle.ep_calls.specs.Readiness.{entry_bits, readiness as readiness_of};
ghost use Rattle.ep_interest.specs.Registrations.{entry_under};
ghost use Rattle.ep_kernel.specs.Asked.{Knows};
ghost use Rattle.ep_kernel.specs.Readiness.{EndsWithin, Prunes, found_shows, nested_found};
ghost use Rattle.ep_table.specs.Value.{number_under};

use crate::asked::Asked;
use ep_base::{DescId, EntryId, LONGEST_CHAIN, Mask};
use ep_calls::{Parts, is_reportable, shown_at};
use ep_interest::Entry;

/// The instance that the registration under a key watches. `None` where it watches something else, or there is none.
fn watched_instance(parts: &Parts, id: EntryId) -> Option<DescId>
    ensures watched { result ≡ nested_found parts.now (entry_under parts.now.interest id) }
    ensures live { IfSome result (λ desc. IsSome (number_under parts.now.tables desc)) }
{
    parts.known();
    let entry = parts.interest.get(id)?;
    if !parts.tables.object(entry.desc).is_instance() {
        return None;
    }
    Some(entry.desc)
}

/// Whether the registration under a key is reportable, where `below` says whether the instance that it watches is
/// ready.
fn shows_over(parts: &Parts, id: EntryId, below: bool) -> bool
    ensures { result ≡ found_shows (λ d. below) parts.now (entry_under parts.now.interest id) }
{
    parts.known();
    let Some(entry) = parts.interest.get(id) else {
        return false;
    };
    is_reportable(entry, shown_at(&parts.tables, parts.clock, entry, below))
}

/// Whether something is reportable at an instance from which fewer than so many links lead down in turn, and its
/// answer is noted. It looks along the hopes of it and of those below whose answers are not known, on each up to the
/// first that is reportable, and those before that leave their list. So the time grows with what leaves a list, which
/// came to it once, and with the instances that are asked.
fn is_ready_within(parts: &Parts, asked: &mut Asked, instance: DescId, links: u8) -> bool
    requires live { IsSome (number_under parts.now.tables instance) }
    requires ends { EndsWithin links parts.now instance }
    requires knows { Knows parts.now asked.old }
    ensures ready { result ≡ ready_key parts.now.tables parts.now.clock parts.now.interest instance.0 }
    ensures knows { Knows parts.now asked.new }
    ensures prunes { Prunes asked.old.hopes asked.new.hopes }
{
    if let Some(ready) = asked.answer(instance) {
        return ready;
    }
    parts.known();
    parts.interest.known();
    parts.graph.known();
    while let Some(id) = asked.hopes.front(instance) {
        asked.hopes.known();
        let below = match watched_instance(parts, id) {
            Some(inner) => is_ready_within(parts, asked, inner, links - 1),
            None => false,
        };
        if shows_over(parts, id, below) {
            asked.note(instance, true);
            return true;
        }
        asked.hopes.known();
        asked.hopes.remove(id);
    }
    asked.hopes.known();
    asked.note(instance, false);
    false
}

/// Whether something is reportable at an instance, and its answer is noted. Nothing is looked at where its answer is
/// known, and else its hopes and those of the instances below, on each up to the first that is reportable. What is
/// found not to be so leaves the hopes, so that on average an instance is asked in constant time.
pub fn is_ready(parts: &Parts, asked: &mut Asked, instance: DescId) -> bool
    requires live { IsSome (number_under parts.now.tables instance) }
    requires knows { Knows parts.now asked.old }
    ensures ready { result ≡ ready_key parts.now.tables parts.now.clock parts.now.interest instance.0 }
    ensures knows { Knows parts.now asked.new }
{
    parts.graph.known();
    is_ready_within(parts, asked, instance, LONGEST_CHAIN)
}

/// The bits that a registration shows. Where it watches an instance, that is asked whether it is ready, as `is_ready`
/// says.
pub fn shown(parts: &Parts, asked: &mut Asked, entry: &Entry) -> Mask
    requires target { IsSome (number_under parts.now.tables entry.now.desc) }
    requires knows { Knows parts.now asked.old }
    ensures bits { result.0 ≡ entry_bits
        (readiness_of parts.now.tables parts.now.clock parts.now.interest) parts.now.tables
        parts.now.clock entry.now }
    ensures knows { Knows parts.now asked.new }
{
    parts.known();
    let below = parts.tables.object(entry.desc).is_instance() && is_ready(parts, asked, entry.desc);
    shown_at(&parts.tables, parts.clock, entry, below)
}
