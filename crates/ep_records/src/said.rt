//! What a record was answered.
ghost use Rattle.std.specs.Prelude.{◌≡◌, ◌↔◌, IfOk, IsTrue};
ghost use Rattle.ep_records.specs.Said.{said_answer};

use crate::look::{has_given, has_reports};
use ep_base::{Answer, Bytes, Report, Reports};
use smallvec::SmallVec;
use std::alloc::{AllocError, Global};

/// The answer of a record, as its history keeps it. `said_answer` says which one it is.
#[derive(Drop)]
pub enum Said<'a> {
    /// Made of few numbers, which took no memory.
    Made(Answer),
    /// It stands whole.
    Kept(&'a Answer),
    /// The bytes that a read gave.
    Bytes(&'a [u8]),
    /// What a wait reports.
    Reports(&'a [Report]),
}

impl Said<'_> {
    /// Whether it is this answer. It takes no memory.
    pub fn is_same(&self, other: &Answer) -> bool
        ensures { IsTrue result ↔ said_answer self.now ≡ other.now }
    {
        match self {
            Said::Made(answer) => answer.is_same(other),
            Said::Kept(answer) => answer.is_same(other),
            Said::Bytes(bytes) => has_given(other, bytes),
            Said::Reports(reports) => has_reports(other, reports),
        }
    }

    /// The answer, in memory of its own. An `AllocError` comes where memory is refused, which is asked for more than
    /// 16 bytes and for more than 4 reports.
    pub fn to_answer(self, alloc: Global) -> Result<Answer, AllocError>
        ensures { IfOk result (λ answer. answer ≡ said_answer self.entry) }
    {
        Ok(match self {
            Said::Made(answer) => answer,
            Said::Kept(answer) => answer.copy()?,
            Said::Bytes(bytes) => Answer::Bytes(Bytes::new(SmallVec::from_slice(alloc, bytes)?)),
            Said::Reports(reports) => {
                Answer::Events(Reports::new(SmallVec::from_slice(alloc, reports)?))
            }
        })
    }
}
