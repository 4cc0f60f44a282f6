//! What every kernel promises, and the calls and effects that kernels share: methods of `Parts`.
#![tactic(auto)]

mod bury;
mod clock;
mod control;
mod copies;
mod driver;
mod file_call;
mod forget;
mod given;
mod kernel;
mod object_call;
mod outcome;
mod parking;
mod parts;
mod picks;
mod raising;
mod readiness;
mod reply;
mod report;
mod request;
mod runs;
mod spare;
mod table_call;
mod wait;

pub use crate::control::{Control, Named, Operation, Plan};
pub use crate::copies::Copies;
pub use crate::given::Given;
pub use crate::kernel::Kernel;
pub use crate::outcome::Outcome;
pub use crate::parking::is_parked;
pub use crate::parts::Parts;
pub use crate::picks::Picks;
pub use crate::raising::Raising;
pub use crate::readiness::{is_reportable, present, shown_at};
pub use crate::reply::Reply;
pub use crate::request::Request;
pub use crate::runs::{ready_waiters_are_marked, run};
pub use crate::spare::Spare;
pub use crate::wait::{Reportable, Wait, find_instance};
