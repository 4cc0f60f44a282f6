//! Laws of the machine on lists of registrations in the order in which they are reported, for kernels that keep such
//! lists.
#![tactic(auto)]

mod law;

pub use crate::law::{
    above_is_above, beginning_keeps_turns, bits_end_where_called, dead_lists_are_empty,
    first_are_fair, first_are_pick, guarded_is_above, leaves_by_resuming, lists_go_on, loses_guard,
    marked_are_looked_at, reached_is_above, stays_complete, stays_fair, step_adds_one,
    step_keeps_turns, unmarked_are_reached, unmarked_are_woken, untouched_stay_reportable,
};
