//! The kernel with ready lists.
#![tactic(auto)]

mod act;
mod asked;
mod beside;
mod choose;
mod climb;
mod control;
mod mark;
mod places;
mod push;
mod readiness;
mod ready;
mod settle;
mod take;
mod wait;
mod watches;

pub use crate::ready::ReadyKernel;
pub use crate::watches::Watch;
