//! Refusals, which raise nothing.
ghost use Rattle.std.specs.Prelude.{◌≡◌};
ghost use Rattle.ep_machine.specs.Bits.{raises};

use ep_base::{Answer, Errno, Mask};
use ep_stream::Raised;

/// Nothing is raised.
pub(crate) const NOTHING: Raised = Raised {
    first: Mask(0),
    second: Mask(0),
};

/// A refusal, which raises nothing.
pub(crate) fn refused(errno: Errno) -> (Answer, Raised)
    ensures answer { result.0 ≡ Answer.Refused errno }
    ensures raised { result.1 ≡ raises 0 0 }
{
    (Answer::Refused(errno), NOTHING)
}
