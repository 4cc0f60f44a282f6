//! Of the exclusive registrations on a target that pass something on, an event wakes one. Which one that is, and that
//! the others pass nothing on any more, so that the walk up finds what is woken and nothing else. An instance with an
//! exclusive registration in it or beneath it is marked only by an event that wakes it; one that loses the last of
//! these is marked like any other again.
#![tactic(auto)]

mod candidates;
mod choice;
mod choosing;
mod guarded;
mod loose;
mod losing;
mod marking;
mod narrowing;

pub use crate::candidates::Candidates;
pub use crate::choice::Choice;
pub use crate::choosing::choose_exclusive;
pub use crate::losing::{note_deleted, note_dying};
pub use crate::marking::mark_woken;
pub use crate::narrowing::narrow;
