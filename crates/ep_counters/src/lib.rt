//! The objects that count: eventfd(2) and timerfd_create(2). No call takes memory.
#![tactic(auto)]

mod event_fd;
mod law;
mod outcome;
mod timer;

pub use crate::event_fd::EventFd;
pub use crate::law::{arrivals_are_raised, next_arrivals};
pub use crate::timer::Timer;
