//! One parked wait.

ghost use Rattle.std.specs.Prelude.{◌≡◌, ◌||◌, ℕ};
ghost use Rattle.ep_machine.specs.Waits.{is_due as is_reached};
ghost use Rattle.ep_park.specs.Deadlines.{awaited as deadline_of};

use ep_base::{DescId, Moment, Pid};

/// A wait that is parked: what epoll_wait(2) was asked for, and whether its caller is marked to go on.
#[derive(Clone, Copy, Debug, PartialEq, Eq)]
pub struct Waiter {
    /// The process that called.
    pub process: Pid,
    /// The instance that is waited for.
    pub instance: DescId,
    /// How many reports the caller takes, at least 1.
    pub max: i32,
    /// The moment, on the kernel's clock, at which the wait ends with no report; `None` for a wait without end.
    pub deadline: Option<u64>,
    /// Whether the caller's next resumption may end the wait.
    pub marked: bool,
}

/// Whether a waiter's deadline is at or below `now`.
pub fn is_due(waiter: Waiter, now: Moment) -> bool
    ensures { result ≡ is_reached now waiter.deadline }
{
    match waiter.deadline {
        Some(deadline) => deadline <= now.at(),
        None => false,
    }
}

/// The moment at which a waiter gets its mark, none where it has it.
pub fn awaited(waiter: Waiter) -> Option<u64>
    ensures { result ≡ deadline_of waiter }
{
    if waiter.marked {
        return None;
    }
    waiter.deadline
}

/// The earlier of two moments; `None` where neither is there.
pub fn earlier(a: Option<u64>, b: Option<u64>) -> Option<u64>
    ensures { (now : ℕ) → is_reached now result ≡ (is_reached now a || is_reached now b) }
{
    match (a, b) {
        (Some(a), Some(b)) => Some(a.min(b)),
        _ => a.or(b),
    }
}
