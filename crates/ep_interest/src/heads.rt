//! Where the circle of each owner begins, and how long it is.
ghost use Rattle.std.specs.Prelude.{◌≡◌, ◌<◌, ℕ, IfOk, IfSome, OnErr, OnOk, Some, if◌then◌else◌, length, nat_eq, nat_lt, not, ◌==◌};
ghost use Rattle.ep_interest.specs.Heads.{circle_at};
ghost use Rattle.ep_rings.specs.Circles.{lengthened, shortened};

use ep_base::DescId;
use ep_rings::Circle;
use std::alloc::{AllocError, Allocator};

/// Where circles begin, by the number of the owner. There is a place for each number up to the highest of an owner that
/// has had a registration. One without registrations has no circle.
pub(crate) type Heads<A> = Vec<Option<Circle>, A>;

/// Where the circle of an owner begins. There is none if the owner has no place.
pub(crate) fn head_of<A: Allocator>(heads: &Heads<A>, owner: DescId) -> Option<Circle>
    ensures { result ≡ circle_at heads.now owner.0 }
{
    if owner.0 < heads.len() {
        heads[owner.0]
    } else {
        None
    }
}

/// Makes places up to the one of an owner, if it has none. `AllocError` if there is no memory for them. Each circle
/// begins where it did, after an `Err` too.
fn make_place<A: Allocator>(heads: &mut Heads<A>, owner: DescId) -> Result<(), AllocError>
    ensures kept { (i : ℕ) → circle_at heads.new i ≡ circle_at heads.old i }
    ensures there { OnOk result (owner.0 < length heads.new.items) }
{
    if heads.len() <= owner.0 {
        let places = owner.0.checked_add(1).ok_or(AllocError)?;
        heads.resize(places, None)?;
    }
    Ok(())
}

/// Counts a key more in the circle of an owner, and answers its first key. A new circle begins with this key. Only an
/// owner above all that had a place takes memory. An `Err` is want of it, and leaves the circles. Takes constant time,
/// unless the vector grows.
pub(crate) fn lengthen<A: Allocator>(
    heads: &mut Heads<A>,
    owner: DescId,
    key: usize,
) -> Result<usize, AllocError>
    requires { IfSome (circle_at heads.old owner.0) (λ c. c.len < usize.MAX) }
    ensures first { IfOk result
        (λ first. first ≡ (lengthened key (circle_at heads.old owner.0)).first) }
    ensures heads { OnOk result ((i : ℕ) → circle_at heads.new i
        ≡ (if nat_eq owner.0 i then Some (lengthened key (circle_at heads.old owner.0))
        else circle_at heads.old i)) }
    ensures kept { OnErr result ((i : ℕ) → circle_at heads.new i ≡ circle_at heads.old i) }
{
    make_place(heads, owner)?;
    let new = Circle { first: key, len: 0 };
    let mut circle = heads[owner.0].unwrap_or(new);
    circle.len += 1;
    heads[owner.0] = Some(circle);
    Ok(circle.first)
}

/// Counts a key less in the circle of an owner, `next` being the key behind it. The circle goes with its last key,
/// which is the one behind itself. The place stays. Takes constant time.
pub(crate) fn shorten<A: Allocator>(heads: &mut Heads<A>, owner: DescId, key: usize, next: usize)
    requires { IfSome (circle_at heads.old owner.0) (λ c. nat_lt 1 c.len ≡ not (key == next)) }
    ensures { (i : ℕ) → circle_at heads.new i
        ≡ (if nat_eq owner.0 i then shortened key next (circle_at heads.old owner.0)
        else circle_at heads.old i) }
{
    if let Some(circle) = head_of(heads, owner) {
        heads[owner.0] = if key == next {
            None
        } else {
            Some(circle.without(key, next))
        };
    }
}
