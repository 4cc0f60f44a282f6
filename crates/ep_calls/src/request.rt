//! Which event is made, by whom, and with what room.

use ep_base::{CallerId, EventNumber};

/// What a step knows of its event before it begins.
#[derive(Clone, Copy)]
pub struct Request {
    /// The number of the event.
    pub step: EventNumber,
    /// Who makes it.
    pub caller: CallerId,
    /// Whether a second record of it is asked for.
    pub kept: bool,
    /// Whether there is room for the moment of a timer that it makes. Without it, none is made.
    pub has_room: bool,
}
