//! Sets of event bits.
ghost use Rattle.std.specs.Prelude.{◌≡◌, ◌∷◌, [], bit_and, bit_or};
ghost use Rattle.ep_machine.specs.Bits.{beginning, union, when};

use ep_base::Mask;

/// No bits.
pub(crate) const NONE: Mask = Mask(0);

/// The bits where the test holds, else none.
pub(crate) fn when(holds: bool, bits: Mask) -> Mask
    ensures { result.0 ≡ when holds bits.0 }
{
    if holds { bits } else { NONE }
}

/// The bits of either set.
pub(crate) fn union(first: Mask, second: Mask) -> Mask
    ensures { result.0 ≡ bit_or first.0 second.0 }
{
    Mask(first.0 | second.0)
}

/// The bits of both sets.
pub(crate) fn intersection(first: Mask, second: Mask) -> Mask
    ensures { result.0 ≡ bit_and first.0 second.0 }
{
    Mask(first.0 & second.0)
}

/// The bits that hold after and not before.
pub(crate) fn beginning(before: Mask, after: Mask) -> Mask
    ensures { result.0 ≡ beginning before.0 after.0 }
{
    Mask(after.0 - (after.0 & before.0))
}

/// What is told, and whatever holds after and not before.
#[tactic(auto, using(crate::proofs::Unions::or_nothing))]
pub(crate) fn told_or_begun(told: Mask, before: Mask, after: Mask) -> Mask
    ensures { result.0 ≡ union (told.0 ∷ beginning before.0 after.0 ∷ []) }
{
    union(told, beginning(before, after))
}
