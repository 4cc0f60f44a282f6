//! The interest sets of every instance: the registrations of epoll_ctl(2).
#![tactic(auto)]

mod addition;
mod entries;
mod entry;
mod guards;
mod heads;
mod interest;
mod passes;
mod rows;
mod stop;

pub use crate::addition::Addition;
pub use crate::entries::{Entries, ExclusiveWatchers, Watchers};
pub use crate::entry::Entry;
pub use crate::interest::Interest;
