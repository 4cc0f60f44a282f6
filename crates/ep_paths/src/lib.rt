//! Goes through every run of what makes choices: depth first, each run once.
#![tactic(auto)]

mod choice;
mod odometer;
mod runs;

pub use crate::choice::Choice;
pub use crate::odometer::next_path;
pub use crate::runs::{Runs, run_all};
