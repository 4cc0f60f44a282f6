//! Laws of the abstract machine, over all its runs.
#![tactic(auto)]

pub mod laws;
