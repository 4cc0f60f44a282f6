//! What is added.

use ep_base::{DescId, Fd, Mask};

/// What ADD of epoll_ctl(2) adds: an instance is to watch an open file description under a descriptor number.
#[derive(Clone, Copy, Debug, PartialEq, Eq)]
pub struct Addition {
    /// The instance in whose interest set it is to stand.
    pub instance: DescId,
    /// The descriptor number.
    pub fd: Fd,
    /// The open file description that the number names.
    pub desc: DescId,
    /// The bits that are asked for, and the modes.
    pub mask: Mask,
    /// The data of the event, which a report gives back.
    pub tag: u64,
}
