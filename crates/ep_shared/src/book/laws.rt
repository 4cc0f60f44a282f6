//! What a list of records and the sessions have in common.
ghost use Rattle.std.specs.Prelude.{◌≡◌, ℕ, ◌<◌, ◌≤◌, ◌↔◌, IfErr, IfOk, IfSome, IsTrue, true};
ghost use Rattle.ep_shared.specs.Parts.{part};
ghost use Rattle.ep_shared.specs.Sessions.{IsBelow, IsSame, has_session};

use crate::book::Session;
use crate::book::handed::has;
use ep_base::{CallerId, Record};
use ep_records::History;
use std::sync::ledger::Ledger;

/// Whether the records of each caller are those of its session, in order, and none where it has no session; else the
/// least caller of which this does not hold. It takes no memory.
/// The time grows with the records times the sessions, where each caller in the history has a session.
pub fn same_parts<L: Ledger>(history: &History, handed: &[Session<L>]) -> Result<(), CallerId>
    ensures ok { IfOk result (λ _. (c : ℕ) → IsSame history.now.items handed.now c) }
    ensures err { IfErr result
        (λ c. (IsSame history.now.items handed.now c.0 → ⊥)
        × ((d : ℕ) → d < c.0 → IsSame history.now.items handed.now d)) }
{
    let mut least: Option<u32> = None;
    for session in handed {
        least = lesser(history, handed, session.name.number, least);
    }
    for r in history.iter() {
        least = lesser_without_session(history, handed, r.caller().0, least);
    }
    match least {
        Some(caller) => Err(CallerId(caller)),
        None => Ok(()),
    }
}

/// The lesser of the least caller so far and another, if the part of that one differs.
fn lesser<L: Ledger>(
    history: &History,
    handed: &[Session<L>],
    caller: u32,
    least: Option<u32>,
) -> Option<u32>
    requires { IfSome least (λ b. IsSame history.now.items handed.now b → ⊥) }
    ensures differs { IfSome result (λ b. IsSame history.now.items handed.now b → ⊥) }
    ensures kept { (d : ℕ) → IsBelow result d → IsBelow least d }
    ensures here { IsBelow result caller → IsSame history.now.items handed.now caller }
{
    if agrees(history, handed, caller) {
        return least;
    }
    match least {
        Some(before) if before <= caller => Some(before),
        _ => Some(caller),
    }
}

/// The same of a caller that may have no session: the sessions were compared before.
fn lesser_without_session<L: Ledger>(
    history: &History,
    handed: &[Session<L>],
    caller: u32,
    least: Option<u32>,
) -> Option<u32>
    requires unlike { IfSome least (λ b. IsSame history.now.items handed.now b → ⊥) }
    requires compared { (d : ℕ) → IsBelow least d → has_session handed.now d ≡ true →
        IsSame history.now.items handed.now d }
    ensures differs { IfSome result (λ b. IsSame history.now.items handed.now b → ⊥) }
    ensures kept { (d : ℕ) → IsBelow result d → IsBelow least d }
    ensures here { IsBelow result caller → IsSame history.now.items handed.now caller }
{
    if has(handed, caller) {
        return least;
    }
    lesser(history, handed, caller, least)
}

/// Whether the records of a caller are those of its session.
fn agrees<L: Ledger>(history: &History, handed: &[Session<L>], caller: u32) -> bool
    ensures { IsTrue result ↔ IsSame history.now.items handed.now caller }
{
    for session in handed {
        if session.name.number == caller {
            return is_part(history, caller, &session.records);
        }
    }
    is_part(history, caller, &[])
}

/// Whether the records of a caller are these.
fn is_part(history: &History, caller: u32, records: &[Record]) -> bool
    ensures { IsTrue result ↔ part caller history.now.items ≡ records.now }
{
    let mut k = 0;
    for r in history.iter() {
        if r.caller().0 == caller {
            if k == records.len() || !r.is_same(&records[k]) {
                return false;
            }
            k += 1;
        }
    }
    k == records.len()
}
