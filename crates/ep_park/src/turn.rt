//! A parked caller.

use crate::waiter::Waiter;
use ep_base::CallerId;

/// A caller and what it waits for.
#[derive(Clone, Copy)]
pub struct Turn {
    /// Who waits.
    pub caller: CallerId,
    /// What it waits for.
    pub waiter: Waiter,
}
