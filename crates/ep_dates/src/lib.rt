//! Since which event each registration is reportable, and which registrations of an instance are.
#![tactic(auto)]

mod ask;
mod come;
mod dates;
mod dating;
mod drop;
mod go;
mod pick;
mod renew;
mod room;
mod touched;

pub use crate::dates::Dates;
pub use crate::dating::date;
pub use crate::drop::{drop_dying, drop_one};
pub use crate::pick::is_pick;
pub use crate::touched::Touched;
