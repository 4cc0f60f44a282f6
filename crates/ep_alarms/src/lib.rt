//! When the clock next raises IN at each live timer, the earliest at hand, so that the clock's going on touches
//! only the timers whose moment has come.
#![tactic(auto)]

mod alarms;
mod called;
mod law;
mod timers;

pub use crate::alarms::Alarms;
pub use crate::called::find_called;
pub use crate::law::burial_leaves_alarms;
