//! Answers.
ghost use Rattle.std.specs.Prelude.{◌≡◌, ◌↔◌, IfOk, IsOk, IsTrue};
ghost use Rattle.ep_base.specs.Answer.{FitsInline, is_no_memory};

use crate::errno::Errno;
use crate::ids::Fd;
use crate::mask::Mask;
use crate::short_list::{Bytes, Reports};
use crate::socket::Name;
use crate::time::Span;
use std::alloc::AllocError;

/// One registration in the answer of a wait.
#[derive(Clone, Copy, Debug, Default, PartialEq, Eq)]
pub struct Report {
    /// Of IN, OUT, ERR, HUP and RDHUP those that hold at its target and that its mask asks for; ERR and HUP unasked.
    pub bits: Mask,
    /// The data that its last ADD or MOD gave it.
    pub tag: u64,
}

/// What a call is answered.
#[derive(Drop, PartialEq, Eq)]
pub enum Answer {
    /// The call is done.
    Done,
    /// A descriptor number, how many bytes a write took, or the process that fork(2) made.
    Num(u64),
    /// Two descriptor numbers, the lower one first.
    Two(Fd, Fd),
    /// The bytes that a read gave; none at the end.
    Bytes(Bytes),
    /// What a wait reports: at most its `max` reports, none where its timeout has passed.
    Events(Reports),
    /// The setting of a timer: the span until its next expiration, 0 where none comes, and the span between two, 0
    /// where only one comes.
    Time { value: Span, interval: Span },
    /// The caller of the wait is parked: nothing was reportable. Ask by `Event::Resume` whether its wait has ended.
    Parked,
    /// The caller that resumed is still parked: its wait has not ended.
    Still,
    /// connect(2) has begun, EINPROGRESS; OUT at the socket tells the end.
    Connecting,
    /// The error that waited at a socket, which is taken by this. The socket changes, so it is no refusal.
    Failed(Errno),
    /// The name of a socket, if it has one.
    Named(Option<Name>),
    /// The event is refused, and has changed nothing but the history, and with ENOMEM nothing at all.
    Refused(Errno),
}

impl Answer {
    /// Whether the answer is ENOMEM, by which alone an event leaves no record.
    pub fn is_no_memory(&self) -> bool
        ensures { result ≡ is_no_memory self.now }
    {
        matches!(self, Answer::Refused(Errno::Enomem))
    }

    /// Whether two answers are one value, as `==` says.
    pub fn is_same(&self, other: &Answer) -> bool
        ensures { IsTrue result ↔ self.now ≡ other.now }
    {
        *self == *other
    }

    /// The same answer once more; it can fail above 16 bytes or 4 reports alone.
    pub fn copy(&self) -> Result<Answer, AllocError>
        ensures ok { IfOk result (λ copy. copy ≡ self.now) }
        ensures inline { FitsInline self.now → IsOk result }
    {
        Ok(match self {
            Answer::Done => Answer::Done,
            Answer::Num(number) => Answer::Num(*number),
            Answer::Two(first, second) => Answer::Two(*first, *second),
            Answer::Bytes(bytes) => Answer::Bytes(bytes.copy()?),
            Answer::Events(reports) => Answer::Events(reports.copy()?),
            Answer::Time { value, interval } => Answer::Time {
                value: *value,
                interval: *interval,
            },
            Answer::Parked => Answer::Parked,
            Answer::Still => Answer::Still,
            Answer::Connecting => Answer::Connecting,
            Answer::Failed(errno) => Answer::Failed(*errno),
            Answer::Named(name) => Answer::Named(*name),
            Answer::Refused(errno) => Answer::Refused(*errno),
        })
    }
}
