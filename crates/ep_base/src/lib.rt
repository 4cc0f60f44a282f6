//! The words of every call on the kernel: numbers, limits, masks, errors, calls, answers, records.
#![tactic(auto)]

mod answer;
mod bounds;
mod buffer;
mod call;
mod counts;
mod errno;
mod ids;
mod limits;
mod mask;
mod object;
mod record;
mod short_list;
mod socket;
mod time;

pub use crate::answer::{Answer, Report};
pub use crate::bounds::LONGEST_CHAIN;
pub use crate::buffer::{Buffer, Content, is_filled};
pub use crate::call::{Call, Event};
pub use crate::counts::Counts;
pub use crate::errno::Errno;
pub use crate::ids::{CallerId, DescId, EntryId, EntryNumber, EventNumber, Fd, Pid};
pub use crate::limits::Limits;
pub use crate::mask::Mask;
pub use crate::object::{End, Raised};
pub use crate::record::Record;
pub use crate::short_list::{Bytes, Picked, Reports, ShortList};
pub use crate::socket::{Family, Hearing, How, Name, Space};
pub use crate::time::{LAST_MOMENT, Moment, Span, Timeout};
