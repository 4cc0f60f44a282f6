//! Answers in few bytes, as they go through a kernel.
ghost use Rattle.std.specs.Prelude.{◌≡◌, ◌+◌, ◌<◌, ◌≤◌, ◌++◌, ◌∷◌, [], IsFalse, IsTrue};
ghost use Rattle.ep_base.specs.declared.answer.Answer.TheVariants.{Events};
ghost use Rattle.ep_calls.specs.Reply.{IsSilent, number_in};

use crate::picks::Picks;
use ep_base::{Answer, Bytes, CallerId, Errno, Event, Fd, Name, Report, Reports, Span};
use ep_records::History;
use smallvec::SmallVec;
use std::alloc::Global;
use std::marker::Model;

/// What a reply keeps.
#[derive(Drop)]
enum Kept {
    Done,
    Num(u64),
    Two(Fd, Fd),
    Bytes(Bytes),
    NoReports,
    OneReport(Report),
    Reports(Box<Reports>),
    Time { value: Span, interval: Span },
    Parked,
    Still,
    Connecting,
    Failed(Errno),
    Named(Option<Name>),
    Refused(Errno),
}

/// An answer, as it goes through a kernel from where it is made to where the record of the event is. It has one report
/// in place, and several in a box: so it takes 40 bytes, and an answer 88. Contracts see it as the answer.
#[derive(Drop)]
pub struct Reply {
    kept: Kept,
}

const _: () = prove!(size_of::<Reply>() == 40);

impl Model for Reply {
    ghost use Rattle.ep_base.specs.declared.answer.Answer.{Answer as Told};
    ghost use Rattle.ep_calls.specs.Reply.{answer_in};

    ghost Value = { Told };

    ghost view = { λ reply. answer_in reply.kept };
}

impl Reply {
    /// An answer that makes no report. It takes no memory.
    #[inline(always)]
    pub fn of(answer: Answer) -> Reply
        requires { IsSilent answer }
        ensures { result ≡ answer }
    {
        let kept = match answer {
            Answer::Done => Kept::Done,
            Answer::Num(number) => Kept::Num(number),
            Answer::Two(first, second) => Kept::Two(first, second),
            Answer::Bytes(bytes) => Kept::Bytes(bytes),
            Answer::Events(_) => Kept::NoReports,
            Answer::Time { value, interval } => Kept::Time { value, interval },
            Answer::Parked => Kept::Parked,
            Answer::Still => Kept::Still,
            Answer::Connecting => Kept::Connecting,
            Answer::Failed(errno) => Kept::Failed(errno),
            Answer::Named(name) => Kept::Named(name),
            Answer::Refused(errno) => Kept::Refused(errno),
        };
        Reply { kept }
    }

    /// One report, which takes no memory.
    #[inline(always)]
    pub fn one(report: Report) -> Reply
        ensures { result ≡ Events (report ∷ []) }
    {
        Reply {
            kept: Kept::OneReport(report),
        }
    }

    /// The reports of a box.
    pub fn many(reports: Box<Reports>) -> Reply
        ensures { result ≡ Events reports.value }
    {
        Reply {
            kept: Kept::Reports(reports),
        }
    }

    /// The number that it answers, if it is one.
    pub fn number(&self) -> Option<u64>
        ensures { result ≡ number_in self.now }
    {
        match &self.kept {
            Kept::Num(number) => Some(*number),
            _ => None,
        }
    }

    /// Puts the record of the event that it answers at the end of a history that has room for it, if the event is a
    /// common one: a short read or write, or a wait of one report. Else `false`, and nothing changes. It takes no
    /// memory, and makes no answer.
    #[inline(always)]
    pub fn put_common(
        &self,
        history: &mut History,
        caller: CallerId,
        event: &Event,
        picked: &Picks,
    ) -> bool
        requires { 0 < history.old.room }
        ensures put { IsTrue result → history.new.items ≡ history.old.items ++ record {
          caller = caller;
          event = event.now;
          answer = self.now;
          picked = picked.now;
        } ∷ [] }
        ensures other { IsFalse result → history.new ≡ history.old }
        ensures room { history.old.room ≤ history.new.room + 1 }
        ensures taken { history.new.taken ≡ history.old.taken }
    {
        match &self.kept {
            Kept::Num(written) => {
                picked.is_none() && history.push_written(caller, event, *written)
            }
            Kept::Bytes(given) => {
                picked.is_none() && history.push_given(caller, event, given.as_slice())
            }
            Kept::OneReport(report) => match picked.only() {
                Some(number) => history.push_report(caller, event, *report, number),
                None => false,
            },
            _ => false,
        }
    }

    /// The answer. It takes no memory.
    #[inline(always)]
    pub fn into_answer(self, alloc: Global) -> Answer
        ensures { result ≡ self }
    {
        let Reply { kept } = self;
        match kept {
            Kept::Done => Answer::Done,
            Kept::Num(number) => Answer::Num(number),
            Kept::Two(first, second) => Answer::Two(first, second),
            Kept::Bytes(bytes) => Answer::Bytes(bytes),
            Kept::NoReports => Answer::Events(Reports::empty(alloc)),
            Kept::OneReport(report) => {
                let mut reports = SmallVec::new(alloc);
                reports.push_reserved(report);
                Answer::Events(Reports::new(reports))
            }
            Kept::Reports(reports) => Answer::Events(Box::into_inner(reports)),
            Kept::Time { value, interval } => Answer::Time { value, interval },
            Kept::Parked => Answer::Parked,
            Kept::Still => Answer::Still,
            Kept::Connecting => Answer::Connecting,
            Kept::Failed(errno) => Answer::Failed(errno),
            Kept::Named(name) => Answer::Named(name),
            Kept::Refused(errno) => Answer::Refused(errno),
        }
    }
}
