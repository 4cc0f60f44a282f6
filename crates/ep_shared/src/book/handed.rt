//! The sessions that are handed in at the end.
ghost use Rattle.std.specs.Prelude.{◌≡◌, ℕ, ◌<◌, ◌≤◌, ◌==◌, IfNone, IfSome, false, length, sum_by, true, vec_len};
ghost use Rattle.std.specs.List.{list_any};
ghost use Rattle.ep_shared.specs.Parts.{IsBetween};
ghost use Rattle.ep_shared.specs.Sessions.{AreThere, IsMissing, has_session};

use crate::book::Session;
use ep_base::CallerId;
use std::sync::ledger::{Ledger, Share};

/// All shares of the sessions in one.
pub fn gather<L: Ledger>(handed: Vec<Session<L>>) -> Share<L>
    requires { 0 < vec_len handed }
    ensures parts { result.parts ≡ vec_len handed }
    ensures within { vec_len handed ≤ L.parts }
    ensures amount { result.amount ≡ sum_by (λ s. vec_len s.records) handed.items }
{
    let mut handed = handed;
    let mut all = match handed.pop() {
        Some(session) => session.share,
        None => unreachable!(),
    };
    while let Some(session) = handed.pop() {
        all.merge(session.share);
    }
    all
}

/// Whether a caller has a session.
pub fn has<L: Ledger>(handed: &[Session<L>], caller: u32) -> bool
    ensures { result ≡ has_session handed.now caller }
{
    for session in handed {
        if session.name.number == caller {
            return true;
        }
    }
    false
}

/// The least caller that has no session, of the callers from 1 to `sessions`.
pub fn first_missing<L: Ledger>(sessions: u32, handed: &[Session<L>]) -> Option<CallerId>
    ensures some { IfSome result (λ c. IsMissing sessions handed.now c.0) }
    ensures none { IfNone result (AreThere sessions handed.now) }
    ensures enough { IfNone result (sessions ≤ length handed.now) }
{
    for before in 0..sessions {
        if !has(handed, before + 1) {
            return Some(CallerId(before + 1));
        }
    }
    None
}
