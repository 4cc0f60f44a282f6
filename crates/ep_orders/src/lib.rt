//! Every order of what callers do: each order in which their lines of events can come to a kernel is run once.
#![tactic(auto)]

mod course;
mod explorer;
mod fault;
mod orders;
mod scenario;
mod turn;
mod visitor;

pub use crate::explorer::Makes;
pub use crate::fault::Fault;
pub use crate::orders::{Explored, explore};
pub use crate::scenario::{Line, Scenario};
pub use crate::turn::{ClockTurns, Rules, Turn};
pub use crate::visitor::Visitor;
