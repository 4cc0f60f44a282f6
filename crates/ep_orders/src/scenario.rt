//! What callers do.

use ep_base::{CallerId, Event};

/// A caller, and the events that it asks for, one after another.
#[derive(Drop)]
pub struct Line {
    /// Who asks.
    pub caller: CallerId,
    /// What is asked for. A parked caller goes on once it is marked, by a resumption that is no event of the line.
    pub events: Vec<Event>,
}

/// What is done once at the beginning of each order, and the lines of the callers behind it.
#[derive(Drop)]
pub struct Scenario {
    /// Events in order, each with its caller.
    pub setup: Vec<(CallerId, Event)>,
    /// The lines, one for each caller.
    pub lines: Vec<Line>,
}
