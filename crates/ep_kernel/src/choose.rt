//! Which registrations a wait reports: the first reportable ones of the ready list of its instance.
ghost use Rattle.std.specs.Prelude.{◌≡◌, IfOk, IfSome, is_some};
ghost use Rattle.ep_calls.specs.Wait.{IsKeyed};
ghost use Rattle.ep_kernel.specs.Asked.{Knows};
ghost use Rattle.ep_kernel.specs.Choose.{IsFound};
ghost use Rattle.ep_kernel.specs.Listed.{HopesFor, key_shows};
ghost use Rattle.ep_ready.specs.ReadyLists.{list_at};

use crate::asked::Asked;
use crate::readiness::shown;
use ep_base::{DescId, EntryId};
use ep_calls::{Parts, Reportable, is_reportable};
use ep_ready::ReadyLists;
use std::alloc::AllocError;

/// The registration under a key with the bits that it shows, where it is reportable.
fn reportable_at(parts: &Parts, asked: &mut Asked, id: EntryId) -> Option<Reportable>
    requires { Knows parts.now asked.old }
    ensures shows { is_some result ≡ key_shows parts.now id.0 }
    ensures id { IfSome result (λ x. x.id ≡ id) }
    ensures keyed { IfSome result
        (λ x. IsKeyed parts.now.tables parts.now.clock parts.now.interest x) }
    ensures knows { Knows parts.now asked.new }
{
    parts.known();
    parts.interest.known();
    let entry = parts.interest.get(id)?;
    let bits = shown(parts, asked, entry);
    if !is_reportable(entry, bits) {
        return None;
    }
    Some(Reportable {
        id,
        entry: *entry,
        bits,
    })
}

/// Finds the first reportable registrations on the list of an instance, at most so many, which are `chosen` then, and
/// answers how many places of the list it looked at. An `Err` is want of memory. Only the places up to the last of them
/// are looked at, and where one watches an instance, the hopes of the instances below up to the first that is
/// reportable. Each of these instances is asked once, under however many numbers it is watched, since its answer is
/// noted. All that is reportable stays among the hopes, whatever the result.
pub fn choose(
    parts: &Parts,
    lists: &ReadyLists,
    asked: &mut Asked,
    chosen: &mut Vec<Reportable>,
    instance: DescId,
    most: usize,
) -> Result<usize, AllocError>
    requires { HopesFor parts.now asked.old.hopes }
    ensures found { IfOk result
        (λ walked. IsFound parts.now (list_at lists.now instance.0) most chosen.new.items walked) }
    ensures hopes { HopesFor parts.now asked.new.hopes }
{
    asked.forget();
    chosen.clear();
    let mut walked = 0;
    let _length = lists.len(instance);
    for id in lists.iter(instance) {
        if chosen.len() == most {
            break;
        }
        walked += 1;
        if let Some(x) = reportable_at(parts, asked, id) {
            chosen.push(x)?;
        }
    }
    Ok(walked)
}
