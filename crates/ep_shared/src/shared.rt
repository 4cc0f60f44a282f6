//! One lock round one book.
ghost use Rattle.std.specs.Prelude.{◌≡◌, ℕ, ◌+◌, ◌<◌, [], All, IfOk, MatchResult, Some, filter, map, slice_index_or, sum_by, true, vec_len};
ghost use Rattle.std.specs.List.{range_with_len};
ghost use Rattle.ep_base.specs.declared.call.Event.TheVariants.{Call as CallOf, Resume, Tick};
ghost use Rattle.ep_machine.specs.Run.{run};
ghost use Rattle.ep_machine.specs.State.{State, opening};
ghost use Rattle.ep_machine.specs.Waits.{is_parked};
ghost use Rattle.ep_shared.specs.Closes.{Finishes};
ghost use Rattle.ep_shared.specs.Parts.{IsBetween};
ghost use Rattle.ep_shared.specs.Sessions.{caller_of, records_of};
ghost use Rattle.ep_shared.specs.Told.{Adds, ResumeAdds, WaitAdds, ends_parked, ends_wait, may_answer, wait_event};

use crate::book::{Book, Count, FinishFault, History, Session};
use ep_base::{Answer, Call, CallerId, Event, Fd, Limits, Pid, Span, Timeout};
use ep_calls::Kernel;
use std::alloc::{AllocError, Global};
use std::sync::ledger::{Blank, Ledger};
use std::sync::{Condvar, Mutex, Wait};

/// What a process asks of epoll_wait(2), whose fields are those of `Call::EpollWait`.
#[derive(Clone, Copy)]
pub struct WaitCall {
    /// The process that calls.
    pub pid: Pid,
    /// The descriptor of the instance.
    pub epfd: Fd,
    /// The most reports that it takes; 0 and less are refused.
    pub max: i32,
    /// How long it waits.
    pub timeout: Timeout,
}

/// A kernel that sessions call from threads: one lock round one book. Every call of it takes the lock and may wait.
#[derive(Drop)]
pub struct Shared<K: Kernel + Drop, L: Ledger> {
    book: Mutex<Book<K, L>>,
    changed: Condvar,
    limits: Limits,
    count: Count<L>,
}

impl<K: Kernel + Drop, L: Ledger> Shared<K, L> {
    /// Shares this kernel, whose history is empty, with a session without records for each caller from 1 to `sessions`.
    /// An `Err` is want of memory.
    pub fn start(
        alloc: Global,
        blank: Blank,
        kernel: K,
        sessions: u32,
    ) -> Result<(Shared<K, L>, Vec<Session<L>>), AllocError>
        requires name { blank.name ≡ L.name }
        requires parts { blank.parts ≡ L.parts }
        requires each { blank.parts ≡ sessions }
        requires some { 0 < sessions }
        requires empty { K.past kernel ≡ [] }
        ensures limits { IfOk result (λ r. r.0.limits ≡ K.bounds kernel) }
        ensures len { IfOk result (λ r. vec_len r.1 ≡ sessions) }
        ensures each { IfOk result (λ r. (i : ℕ) (d : _) → i < sessions →
            (caller_of (slice_index_or r.1.items i d) ≡ i + 1)
            × (records_of (slice_index_or r.1.items i d) ≡ [])) }
    {
        let limits = *kernel.limits();
        let (book, handed) = Book::open(alloc, blank, kernel, sessions)?;
        let shared = Shared {
            book: Mutex::new(book),
            changed: Condvar::new(),
            limits,
            count: Count::new(sessions),
        };
        Ok((shared, handed))
    }

    /// One event, and then whoever waits for a mark looks again.
    fn act(&self, rt: &impl Wait, session: &mut Session<L>, event: Event) -> Answer
        ensures adds { Adds (caller_of session.old) event result (records_of session.old)
            (records_of session.new) }
        ensures caller { caller_of session.new ≡ caller_of session.old }
        ensures may { may_answer event result ≡ true }
    {
        let answer = self.book.lock(rt).act(session, event);
        self.changed.notify_all();
        answer
    }

    /// One call of a process by the session's caller: an epoll_wait that parks is answered `Parked` at once.
    /// ENOMEM adds no record.
    pub fn call(&self, rt: &impl Wait, session: &mut Session<L>, pid: Pid, call: Call) -> Answer
        ensures adds { Adds (caller_of session.old) (CallOf pid call) result
            (records_of session.old) (records_of session.new) }
        ensures caller { caller_of session.new ≡ caller_of session.old }
    {
        self.act(rt, session, Event::Call { pid, call })
    }

    /// The clock goes on by `n`. ENOMEM adds no record.
    pub fn tick(&self, rt: &impl Wait, session: &mut Session<L>, n: Span) -> Answer
        ensures adds { Adds (caller_of session.old) (Tick n) result (records_of session.old)
            (records_of session.new) }
        ensures caller { caller_of session.new ≡ caller_of session.old }
    {
        self.act(rt, session, Event::Tick { n })
    }

    /// epoll_wait(2) that waits: if it parks, the lock is given up until the caller is marked, and then it
    /// resumes. It is answered its reports or a refusal, and neither `Parked` nor `Still`: any refusal of
    /// epoll_wait(2) if it didn't park, else ENOMEM, or EINVAL as `resume_wait` has it. After ENOMEM the caller
    /// may be parked: `resume_wait` goes on.
    pub fn wait(&self, rt: &impl Wait, session: &mut Session<L>, asked: WaitCall) -> Answer
        ensures adds { WaitAdds (caller_of session.old) (wait_event asked) result
            (records_of session.old) (records_of session.new) }
        ensures caller { caller_of session.new ≡ caller_of session.old }
        ensures ends { ends_wait result ≡ true }
    {
        let WaitCall {
            pid,
            epfd,
            max,
            timeout,
        } = asked;
        let call = Call::EpollWait { epfd, max, timeout };
        let answer = self.act(rt, session, Event::Call { pid, call });
        match answer {
            Answer::Parked => self.resume_wait(rt, session),
            _ => answer,
        }
    }

    /// Goes on with the wait of a caller that is parked, as `wait` does. It is answered the reports of the wait,
    /// EINVAL if the caller is not parked, or ENOMEM, which leaves the caller parked.
    pub fn resume_wait(&self, rt: &impl Wait, session: &mut Session<L>) -> Answer
        ensures adds { ResumeAdds (caller_of session.old) result (records_of session.old)
            (records_of session.new) }
        ensures caller { caller_of session.new ≡ caller_of session.old }
        ensures ends { ends_parked result ≡ true }
    {
        for _ in rt.forever() {
            let answer = self.resume(rt, session);
            match answer {
                Answer::Still => {}
                _ => return answer,
            }
        }
        unreachable!()
    }

    /// One resumption, once the caller is marked or is not parked.
    fn resume(&self, rt: &impl Wait, session: &mut Session<L>) -> Answer
        ensures adds { Adds (caller_of session.old) Resume result (records_of session.old)
            (records_of session.new) }
        ensures caller { caller_of session.new ≡ caller_of session.old }
        ensures may { may_answer Resume result ≡ true }
    {
        let caller = session.caller();
        let mut book = self
            .changed
            .wait_while(rt, self.book.lock(rt), |book| book.must_wait(caller));
        let answer = book.act(session, Event::Resume);
        drop(book);
        self.changed.notify_all();
        answer
    }

    /// The parked callers, in rising order. An `Err` is want of memory.
    pub fn parked(&self, rt: &impl Wait) -> Result<Vec<CallerId>, AllocError>
        ensures { IfOk result
            (λ v. (s : State)
            × (map (λ c. c.0) v.items
            ≡ filter (is_parked s) (range_with_len 1 self.now.count.number))) }
    {
        self.book.lock(rt).parked(self.count.number())
    }

    /// The whole history, if each caller has a session here and the records of each caller are those of its session;
    /// else the first fault, in the order of `FinishFault`.
    /// The time grows with the records times the sessions.
    pub fn finish(self, handed: Vec<Session<L>>) -> Result<History, FinishFault>
        ensures result { Finishes self.count.number self.limits handed.items result }
        ensures limits { IfOk result (λ h. h.limits ≡ self.limits) }
        ensures replays { IfOk result
            (λ h. (s : State) × (run h.limits opening h.records.items ≡ Some s)) }
        ensures within { IfOk result
            (λ h. All (λ r. IsBetween L.parts r.caller.0) h.records.items) }
        ensures answered { IfOk result
            (λ h. vec_len h.records ≡ sum_by (λ s. vec_len s.records) handed.items) }
    {
        let Shared {
            book,
            changed: _,
            limits,
            count,
        } = self;
        book.into_inner().close(&limits, count.number(), handed)
    }
}
