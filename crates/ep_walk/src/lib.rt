//! Walks: sets of small numbers, as keys of instances are, in the order in which they were reached. To reach one and to
//! ask whether it was reached take constant time and no memory.
#![tactic(auto)]

mod walk;

pub use crate::walk::Walk;
