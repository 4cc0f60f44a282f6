//! What an event raised climbs through instances: which of them IN reaches, and what watches those becomes fresh. At
//! its end marks are set at the instances that it reached. Each event goes along here, so it is inlined: a program with
//! both kernels would make calls of it, for 1 to 3 in 100 of an event.
#![tactic(auto)]

mod ascending;
mod climbing;
mod marking;
mod reaching;

pub use crate::ascending::{Along, ascend, has_links};
pub use crate::climbing::{climb, freshen};
pub use crate::marking::{Readiness, attend, left, mark, mark_at, mark_due, resumed_at};
pub use crate::reaching::reach;
