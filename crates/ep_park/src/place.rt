//! Where callers stand among those of one instance.
ghost use Rattle.std.specs.Prelude.{◌≡◌, MatchOption};
ghost use Rattle.ep_park.specs.Queue.{ArePlacesOf, HasNoPlace, IsFirstPlace, place_at};

use ep_base::{CallerId, DescId};
use std::alloc::Allocator;
use std::collections::BTreeMap;
use std::collections::btree_map::Range;

/// A caller's place among those that wait at one instance: tickets rise in order of parking.
#[derive(Clone, Copy, PartialEq, Eq, PartialOrd, Ord)]
pub struct Place {
    /// The key of the instance.
    pub instance: usize,
    /// The caller's ticket, by the order of parking.
    pub ticket: u64,
}

/// The callers by place.
pub type Places<A> = BTreeMap<Place, CallerId, A>;

impl Place {
    pub fn new(instance: DescId, ticket: u64) -> Place
        ensures { result ≡ place_at instance.0 ticket }
    {
        Place {
            instance: instance.0,
            ticket,
        }
    }
}

/// The places of one instance with tickets up to `last`, in order.
fn places_of<A: Allocator>(
    places: &Places<A>,
    instance: DescId,
    last: u64,
) -> Range<'_, Place, CallerId>
    ensures { ArePlacesOf places.now instance.0 last result }
{
    let first = Place::new(instance, 0);
    let end = Place::new(instance, last);
    places.range(first..=end)
}

/// The caller with the smallest ticket at an instance, of those up to `last`. The cost grows as the logarithm of the
/// places.
pub fn first_place<A: Allocator>(
    places: &Places<A>,
    instance: DescId,
    last: u64,
) -> Option<CallerId>
    ensures { MatchOption result (HasNoPlace places.now.entries instance.0 last)
        (λ c. IsFirstPlace places.now.entries instance.0 last c) }
{
    let mut those = places_of(places, instance, last);
    let (_, caller) = those.next()?;
    Some(*caller)
}
