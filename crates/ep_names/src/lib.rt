//! Which names of sockets are taken and by whom, the lowest free number of each space at hand.
#![tactic(auto)]

mod blocks;
mod law;
mod names;
mod numbers;

pub use crate::law::given_is_lowest;
pub use crate::names::Names;
