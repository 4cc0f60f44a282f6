//! Ready lists: for each instance a list of registrations that may have something to report. A registration gets its
//! place when it is made, and then joins the list and leaves it in constant time and without memory.
#![tactic(auto)]

mod ready;

pub use crate::ready::ReadyLists;
