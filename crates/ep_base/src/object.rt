//! The two ends of an object, and what is raised at them.

use crate::mask::Mask;

/// An end of an object. A pipe is read at its first end and written at its second;
/// an object with one description has the first end alone.
#[derive(Clone, Copy, Debug, PartialEq, Eq)]
pub enum End {
    /// The read end of a pipe, the lower number of a socket pair, the one end of everything else.
    First,
    /// The write end of a pipe, the higher number of a socket pair.
    Second,
}

/// The bits that an event raises at the two ends of an object.
#[derive(Clone, Copy, Debug, PartialEq, Eq)]
pub struct Raised {
    /// At the first end.
    pub first: Mask,
    /// At the second end; no bits where the object has none.
    pub second: Mask,
}
