//! The end of a book.
ghost use Rattle.std.specs.Prelude.{◌≡◌, All, IfOk, MatchResult, Some, sum_by, vec_len};
ghost use Rattle.ep_machine.specs.Run.{run};
ghost use Rattle.ep_machine.specs.State.{opening};
ghost use Rattle.ep_shared.specs.Closes.{IsFault, IsHistory};
ghost use Rattle.ep_shared.specs.Parts.{IsBetween};

use crate::book::handed::{first_missing, gather};
use crate::book::laws::same_parts;
use crate::book::{Book, Session};
use ep_base::{CallerId, Limits, Record};
use ep_calls::Kernel;
use std::sync::ledger::Ledger;

/// All that was asked of a kernel and answered, and the limits that it was made with.
#[derive(Drop)]
pub struct History {
    /// The limits that the kernel was made with.
    pub limits: Limits,
    /// The records of all events, in order.
    pub records: Vec<Record>,
}

/// Why a book was not closed.
#[derive(Drop)]
pub enum FinishFault {
    /// No session of this caller was handed in, the least such caller.
    Missing(CallerId),
    /// The kernel was made with other limits.
    Limits,
    /// The records of this caller are not those of its session, the least such caller.
    Mismatch(CallerId),
    /// There is no memory for the history.
    Memory,
}

impl<K: Kernel + Drop, L: Ledger> Book<K, L> {
    /// The whole history, where each caller from 1 to `sessions` has a session here, the kernel has these limits, and
    /// the records of each caller are those of its session; else the first fault, in the order of `FinishFault`. The
    /// time grows with the records times the sessions.
    pub fn close(
        self,
        limits: &Limits,
        sessions: u32,
        handed: Vec<Session<L>>,
    ) -> Result<History, FinishFault>
        requires { sessions ≡ L.parts }
        ensures result { MatchResult result
            (IsHistory sessions limits.now (K.bounds self.kernel) (K.past self.kernel) handed.items)
            (IsFault sessions limits.now (K.bounds self.kernel) (K.past self.kernel) handed.items) }
        ensures replays { IfOk result
            (λ h. run h.limits opening h.records.items ≡ Some (K.state self.kernel)) }
        ensures within { IfOk result
            (λ h. All (λ r. IsBetween sessions r.caller.0) h.records.items) }
        ensures answered { IfOk result
            (λ h. vec_len h.records ≡ sum_by (λ s. vec_len s.records) handed.items) }
    {
        if let Some(caller) = first_missing(sessions, &handed) {
            return Err(FinishFault::Missing(caller));
        }
        if self.kernel.limits() != limits {
            return Err(FinishFault::Limits);
        }
        if let Err(caller) = same_parts(self.kernel.history(), &handed) {
            return Err(FinishFault::Mismatch(caller));
        }
        let Ok(records) = self.kernel.history().copies() else {
            return Err(FinishFault::Memory);
        };
        let Book { mut made, .. } = self;
        let mut all = gather(handed);
        made.audit(&mut all);
        Ok(History {
            limits: *limits,
            records,
        })
    }
}
