//! Descriptor tables and open file descriptions.
#![tactic(auto)]

mod accepting;
mod connections;
mod dying_keys;
mod live;
mod names;
mod processes;
mod store;
mod table;
mod tables;
mod waiting;
mod words;

pub use crate::dying_keys::DyingKeys;
pub use crate::live::Live;
pub use crate::tables::Tables;
pub use crate::words::{Dead, Loss};
