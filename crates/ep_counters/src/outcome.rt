//! What every read and write of these objects answers and raises.
ghost use Rattle.std.specs.Prelude.{◌≡◌};
ghost use Rattle.ep_machine.specs.Bits.{nothing, raises};
ghost use Rattle.ep_machine.specs.Effect.{to_bytes};

use ep_base::{Answer, Bytes, Errno, Mask, Raised};
use smallvec::SmallVec;
use std::alloc::Global;

// These objects have one description each, which is at the first end.
pub(crate) fn raised(bits: Mask) -> Raised
    ensures { result ≡ raises bits.0 0 }
{
    Raised {
        first: bits,
        second: Mask(0),
    }
}

// A refusal raises nothing.
pub(crate) fn refused(errno: Errno) -> (Answer, Raised)
    ensures answer { result.0 ≡ Answer.Refused errno }
    ensures raised { result.1 ≡ nothing }
{
    (Answer::Refused(errno), raised(Mask(0)))
}

// A value as 8 bytes, the lowest first, as read(2) gives the values of these objects.
pub(crate) fn value_bytes(alloc: Global, value: u64) -> Answer
    ensures { result ≡ Answer.Bytes (to_bytes 8 value) }
{
    let bytes = SmallVec::from_slice(alloc, &value.to_le_bytes()).unwrap();
    Answer::Bytes(Bytes::new(bytes))
}
