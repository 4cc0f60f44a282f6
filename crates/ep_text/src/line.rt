//! What a line of a script is.

use ep_base::{CallerId, Event};
use ep_version::Version;

/// What a line is.
#[derive(Drop, PartialEq, Eq)]
pub enum Line {
    /// It names the version of the lines behind it.
    Header(Version),
    /// It is a command: who asks for what.
    Command(CallerId, Event),
    /// It is neither.
    Bad,
}
