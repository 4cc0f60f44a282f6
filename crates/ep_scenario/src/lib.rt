//! Scripts whose orders are tried: what a script asks for as a scenario, what its orders come to,
//! counted, and the texts of an order.
#![tactic(auto)]

mod cast;
mod cut;
mod fault;
mod outcome;
mod replay;
mod schedule;
mod script;
mod step;
mod tally;

pub use crate::fault::ScriptFault;
pub use crate::replay::push_order;
pub use crate::schedule::push_schedule;
pub use crate::script::{Script, read_script};
pub use crate::step::Step;
pub use crate::tally::{Outcome, Tally, count_outcomes};
