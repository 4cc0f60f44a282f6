//! Sessions that run in threads of their own.
#![tactic(auto)]

mod job;
mod pool;

pub use crate::job::{Gate, Job, Step};
pub use crate::pool::{PoolFault, PoolReport, run_sessions};
