//! Places with moments, the earliest at hand: who waits until when.
#![tactic(auto)]

mod due;
mod due_map;
mod heap;
mod tick;

pub use crate::due::{DuePlace, DueQueue};
pub use crate::due_map::DueMap;
pub use crate::tick::take_due;
