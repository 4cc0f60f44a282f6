//! The kernel that scans.
#![tactic(auto)]

mod act;
mod by_dates;
mod choose;
mod control;
mod date;
mod dating;
mod plain;
mod settle;
mod take;
mod these;
mod wait;
mod waiting;

pub use crate::plain::PlainKernel;
pub use ep_calls::{Kernel, ready_waiters_are_marked, run};
