//! The two ends, and what is raised at them.
ghost use Rattle.std.specs.Prelude.{◌≡◌};
ghost use Rattle.ep_machine.specs.Bits.{raises};
ghost use Rattle.ep_machine.specs.Sockets.{raised_ends, shuts_read, shuts_write};
ghost use Rattle.ep_stream.specs.Ends.{opposite};

use ep_base::{End, How, Mask, Raised};

/// The other end.
pub(crate) fn opposite(end: End) -> End
    ensures { result ≡ opposite end }
{
    match end {
        End::First => End::Second,
        End::Second => End::First,
    }
}

/// What is raised at the first end and at the second.
pub(crate) fn raises(first: Mask, second: Mask) -> Raised
    ensures { result ≡ raises first.0 second.0 }
{
    Raised { first, second }
}

/// What is raised at this end and at the other.
pub(crate) fn raised_ends(end: End, own: Mask, peer: Mask) -> Raised
    ensures { result ≡ raised_ends end own.0 peer.0 }
{
    match end {
        End::First => raises(own, peer),
        End::Second => raises(peer, own),
    }
}

/// Whether this shuts reading.
pub(crate) fn shuts_read(how: How) -> bool
    ensures { result ≡ shuts_read how }
{
    match how {
        How::Read | How::Both => true,
        How::Write => false,
    }
}

/// Whether this shuts writing.
pub(crate) fn shuts_write(how: How) -> bool
    ensures { result ≡ shuts_write how }
{
    match how {
        How::Write | How::Both => true,
        How::Read => false,
    }
}
