//! A handle may go from one thread to another, as what it owns may.
ghost use Rattle.std.specs.Prelude.{◌≡◌};

use crate::handle::Handle;

fn sendable<T: Send>(value: T) -> T
    ensures { result ≡ value }
{
    value
}

/// The handle again. That it is proved shows that a handle is `Send`: C may hand it to another thread.
pub fn sent(handle: Handle) -> Handle
    ensures { result ≡ handle }
{
    sendable(handle)
}
