//! Worked runs of the machine. Each contract says that a list of records is a run, and that the same list with one
//! answer or one report changed is none; those of connections say what definitions give. The functions do nothing.
#![tactic(auto)]

pub mod connections;
pub mod counters;
pub mod descriptors;
pub mod edge;
pub mod exclusive;
pub mod exclusive_scripts;
pub mod half_closed;
pub mod level;
pub mod nests;
pub mod parking;
pub mod refusals;
pub mod registrations;
pub mod sockets;
pub mod timers;
pub mod unconnected;
