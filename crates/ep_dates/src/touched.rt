//! What an event touched.

use ep_base::{DescId, EntryId, EntryNumber};
use ep_walk::Walk;
use std::alloc::Global;

/// What an event touched, by which it may have made registrations reportable, or ended that they are.
#[derive(Clone, Copy)]
pub struct Touched<'a> {
    /// The registration that an epoll_ctl added or modified.
    pub altered: Option<EntryId>,
    /// The instances that IN reached.
    pub reached: &'a Walk<Global>,
    /// The numbers of the registrations that it reported.
    pub reported: &'a [EntryNumber],
    /// The description on whose object it made a call.
    pub called: Option<DescId>,
    /// The instances that lost a registration that was reportable.
    pub gone: &'a Walk<Global>,
}
