//! What is kept of each instance that has waiters, so that no question about it looks at other waiters.
ghost use Rattle.std.specs.Prelude.{◌≡◌, ◌<◌, ◌≤◌, IfSome, Some, nat_eq};
ghost use Rattle.indexmap.specs.IndexMap.{ContainsKey, get, spare};
ghost use Rattle.ep_park.specs.Tallies.{Rewrites, bit, joined, left, remarked};

use crate::waiter::Waiter;
use ep_base::{CallerId, DescId};
use indexmap::IndexMap;
use std::alloc::Allocator;
use std::hash::{BuildHasherDefault, FoldHasher};

/// The caller that waits longest, and how many of the instance's callers are marked.
#[derive(Clone, Copy)]
pub struct Tally {
    /// The caller that waits longest.
    pub first: CallerId,
    /// How many of the callers are marked.
    pub marked: usize,
}

/// Tallies by the key of the instance.
pub type Tallies<A> = IndexMap<usize, Tally, BuildHasherDefault<FoldHasher>, A>;

/// Counts a waiter that is parked behind all others, where there is room for an instance more.
pub fn count<A: Allocator>(tallies: &mut Tallies<A>, caller: CallerId, waiter: Waiter)
    requires room { 0 < spare tallies.old }
    requires most { IfSome (get nat_eq tallies.old waiter.instance.0)
        (λ t. t.marked < usize.MAX) }
    ensures { Rewrites tallies.old.entries tallies.new.entries waiter.instance.0
        (Some (joined (get nat_eq tallies.old waiter.instance.0) caller.0 waiter.marked)) }
{
    let marked = usize::from(waiter.marked);
    let tally = match tallies.get(&waiter.instance.0) {
        Some(tally) => Tally {
            first: tally.first,
            marked: tally.marked + marked,
        },
        None => Tally {
            first: caller,
            marked,
        },
    };
    tallies.insert(waiter.instance.0, tally).unwrap();
}

/// Counts another mark in the place of a waiter's own.
pub fn recount<A: Allocator>(tallies: &mut Tallies<A>, tally: Tally, waiter: Waiter, marked: bool)
    requires there { get nat_eq tallies.old waiter.instance.0 ≡ Some tally }
    requires least { bit waiter.marked ≤ tally.marked }
    requires most { tally.marked < usize.MAX }
    ensures { Rewrites tallies.old.entries tallies.new.entries waiter.instance.0
        (Some (remarked waiter.marked marked tally)) }
{
    let others = tally.marked - usize::from(waiter.marked);
    let tally = Tally {
        marked: others + usize::from(marked),
        ..tally
    };
    rewrite(tallies, waiter.instance, tally);
}

/// Counts a waiter no more, `first` being the caller that waits longest at its instance now.
pub fn discount<A: Allocator>(
    tallies: &mut Tallies<A>,
    tally: Tally,
    waiter: Waiter,
    first: Option<CallerId>,
)
    requires there { get nat_eq tallies.old waiter.instance.0 ≡ Some tally }
    requires least { bit waiter.marked ≤ tally.marked }
    ensures { Rewrites tallies.old.entries tallies.new.entries waiter.instance.0
        (left waiter.marked tally first) }
{
    match first {
        Some(first) => {
            let marked = tally.marked - usize::from(waiter.marked);
            rewrite(tallies, waiter.instance, Tally { first, marked });
        }
        None => {
            tallies.swap_remove(&waiter.instance.0);
        }
    }
}

/// Writes the tally of an instance that has one.
fn rewrite<A: Allocator>(tallies: &mut Tallies<A>, instance: DescId, tally: Tally)
    requires { ContainsKey nat_eq tallies.old instance.0 }
    ensures { Rewrites tallies.old.entries tallies.new.entries instance.0 (Some tally) }
{
    if let Some(place) = tallies.get_mut(&instance.0) {
        *place = tally;
    }
}
