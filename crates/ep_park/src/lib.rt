//! Callers that are parked in epoll_wait(2), in order of parking, and which of them are marked.
#![tactic(auto)]

mod deadlines;
pub mod laws;
mod park;
mod place;
mod process;
mod queue;
mod tally;
mod turn;
mod waiter;

pub use crate::park::Park;
pub use crate::waiter::{Waiter, earlier, is_due};
