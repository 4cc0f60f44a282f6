//! Records of the history.
ghost use Rattle.std.specs.Prelude.{◌≡◌, ◌↔◌, IsTrue};

use crate::answer::Answer;
use crate::call::Event;
use crate::ids::CallerId;
use crate::short_list::Picked;

/// One step of the kernel.
#[derive(Drop, PartialEq, Eq)]
pub struct Record {
    /// Who asked.
    pub caller: CallerId,
    /// What was asked.
    pub event: Event,
    /// What was answered, which is never ENOMEM.
    pub answer: Answer,
    /// The numbers of the registrations that the answer reports, counted from 1 in order of their ADD, in the order of
    /// the answer; empty where it reports none.
    pub picked: Picked,
}

impl Record {
    /// Whether two records are one value, as `==` says: caller, event, answer and what it reports.
    pub fn is_same(&self, other: &Record) -> bool
        ensures { IsTrue result ↔ self.now ≡ other.now }
    {
        *self == *other
    }
}
