//! The versions of a script, each with the unit of its times, and events in the unit of a version.
#![tactic(auto)]

mod version;

pub use crate::version::{Version, event_in, numbered, shown_in};
