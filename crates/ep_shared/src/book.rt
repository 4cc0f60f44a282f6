//! A kernel whose callers have a session each, and the sessions.
ghost use Rattle.std.specs.Prelude.{◌≡◌, ℕ, ◌+◌, ◌<◌, ◌≤◌, [], All, IfOk, Some, filter, length, map};
ghost use Rattle.std.specs.Prelude.{slice_index_or, true, vec_capacity, vec_len};
ghost use Rattle.std.specs.List.{range_with_len};
ghost use Rattle.ep_base.specs.Call.{EventHasNoBytes};
ghost use Rattle.ep_machine.specs.Run.{run};
ghost use Rattle.ep_machine.specs.State.{opening};
ghost use Rattle.ep_machine.specs.Waits.{is_marked, is_parked};
ghost use Rattle.ep_calls.specs.Acts.{Acts, ComesLast};
ghost use Rattle.ep_calls.specs.KeptRecords.{KeepsRecord};
ghost use Rattle.ep_shared.specs.Parts.{IsBetween};
ghost use Rattle.ep_shared.specs.Told.{Adds, may_answer, must_wait};

mod close;
mod handed;
pub mod laws;

pub use crate::book::close::{FinishFault, History};
use ep_base::{Answer, CallerId, Event, Record};
use ep_calls::Kernel;
use std::alloc::{AllocError, Global};
use std::marker::PhantomData;
use std::sync::ledger;
use std::sync::ledger::{Blank, Ledger, Share};

/// How many sessions there are, which is how many parts the ledger has.
#[derive(Drop)]
pub(crate) struct Count<L: Ledger> {
    number: u32,
    of: PhantomData<L>,
    ghost all: { number ≡ L.parts },
    ghost some: { 0 < number },
}

impl<L: Ledger> Count<L> {
    /// The number of all parts.
    pub(crate) fn new(number: u32) -> Count<L>
        requires all { number ≡ L.parts }
        requires some { 0 < number }
        ensures { result.number ≡ number }
    {
        Count {
            number,
            of: PhantomData,
        }
    }

    /// The number.
    pub(crate) fn number(&self) -> u32
        ensures value { result ≡ self.now.number }
        ensures all { result ≡ L.parts }
    {
        self.number
    }
}

/// The number of one of the ledger's callers.
#[derive(Drop)]
struct Name<L: Ledger> {
    number: u32,
    of: PhantomData<L>,
    ghost within: { IsBetween L.parts number },
}

/// A kernel, and how many records its history has. The history is a run of the machine that leads to its state, has
/// no records but those of the sessions' callers, and none was taken out.
#[derive(Drop)]
pub struct Book<K: Kernel + Drop, L: Ledger> {
    alloc: Global,
    kernel: K,
    count: Count<L>,
    made: ledger::Book<L>,
    ghost run: { run (K.bounds kernel) opening (K.past kernel) ≡ Some (K.state kernel) },
    ghost whole: { K.taken kernel ≡ [] },
    ghost counted: { length (K.past kernel) ≡ made.total },
    ghost within: { All (λ r. IsBetween count.number r.caller.0) (K.past kernel) },
}

/// One caller of a kernel, and the records of what it was answered. Only its own book takes it.
#[derive(Drop)]
pub struct Session<L: Ledger> {
    name: Name<L>,
    records: Vec<Record>,
    share: Share<L>,
    ghost one: { share.parts ≡ 1 },
    ghost counted: { share.amount ≡ vec_len records },
}

impl<L: Ledger> Session<L> {
    /// The caller that it is, counted from 1.
    pub fn caller(&self) -> CallerId
        ensures { result.0 ≡ self.now.name.number }
    {
        CallerId(self.name.number)
    }

    /// How many records it has.
    pub fn answered(&self) -> usize
        ensures { result ≡ vec_len self.now.records }
    {
        self.records.len()
    }

    /// The records of its caller, in order.
    pub fn records(&self) -> &[Record]
        ensures { result.now ≡ self.now.records.items }
    {
        &self.records
    }

    /// The session of the caller that comes after so many.
    fn new(alloc: Global, before: u32, share: Share<L>) -> Session<L>
        requires parts { before < L.parts }
        requires fits { L.parts < 4294967296 }
        requires one { share.parts ≡ 1 }
        requires none { share.amount ≡ 0 }
        ensures name { result.name.number ≡ before + 1 }
        ensures records { result.records.items ≡ [] }
    {
        let name = Name {
            number: before + 1,
            of: PhantomData,
        };
        Session {
            name,
            records: Vec::new(alloc),
            share,
        }
    }
}

impl<K: Kernel + Drop, L: Ledger> Book<K, L> {
    /// A book of this kernel, whose history is empty, and a session without records for each caller from 1 to
    /// `sessions`. An `Err` is want of memory.
    pub fn open(
        alloc: Global,
        blank: Blank,
        kernel: K,
        sessions: u32,
    ) -> Result<(Book<K, L>, Vec<Session<L>>), AllocError>
        requires name { blank.name ≡ L.name }
        requires parts { blank.parts ≡ L.parts }
        requires each { blank.parts ≡ sessions }
        requires some { 0 < sessions }
        requires empty { K.past kernel ≡ [] }
        ensures kernel { IfOk result (λ r. r.0.kernel ≡ kernel) }
        ensures len { IfOk result (λ r. vec_len r.1 ≡ sessions) }
        ensures each { IfOk result (λ r. (i : ℕ) (d : _) → i < sessions →
            ((slice_index_or r.1.items i d).name.number ≡ i + 1)
            × ((slice_index_or r.1.items i d).records.items ≡ [])) }
    {
        let (made, mut rest) = blank.open::<L>();
        let mut handed = Vec::new(alloc);
        for i in 0..sessions {
            let share = rest.split_off(1, 0);
            handed.push(Session::new(alloc, i, share))?;
        }
        let _past = kernel.history();
        let book = Book {
            alloc,
            kernel,
            count: Count::new(sessions),
            made,
        };
        Ok((book, handed))
    }

    /// One event by the session's caller, whose record is put at the end of the session's too.
    /// ENOMEM is want of memory, for the kernel or for the session's list: then neither changes. If both have room for
    /// the record and the copy of the event takes no memory, no refusal of the machine holds then.
    #[tactic(auto, using(crate::proofs::MayLemmas::acts_may))]
    pub fn act(&mut self, session: &mut Session<L>, event: Event) -> Answer
        ensures limits { K.bounds self.new.kernel ≡ K.bounds self.old.kernel }
        ensures acts { Acts (K.bounds self.old.kernel) (record { 0 = session.old.name.number })
            event result
            (K.state self.old.kernel) (K.state self.new.kernel)
            (K.past self.old.kernel) (K.past self.new.kernel) }
        ensures kept { KeepsRecord result (K.past self.old.kernel) (K.past self.new.kernel)
            session.old.records.items session.new.records.items }
        ensures adds { Adds session.old.name.number event result session.old.records.items
            session.new.records.items }
        ensures caller { session.new.name.number ≡ session.old.name.number }
        ensures may { may_answer event result ≡ true }
        ensures last { EventHasNoBytes event
            → vec_len session.old.records < vec_capacity session.old.records
            → length (K.past self.old.kernel) < K.capacity self.old.kernel
            → ComesLast (K.bounds self.old.kernel) (record { 0 = session.old.name.number })
            event result (K.state self.old.kernel) }
    {
        let Book {
            alloc: _,
            kernel,
            count: _,
            made,
        } = self;
        let Session {
            name,
            records,
            share,
        } = session;
        let answer = kernel.step_kept(CallerId(name.number), event, records);
        let _past = kernel.history();
        if !answer.is_no_memory() {
            made.add(share, 1);
        }
        answer
    }

    /// Whether a caller is parked in a wait.
    pub fn is_parked(&self, caller: CallerId) -> bool
        ensures { result ≡ is_parked (K.state self.now.kernel) caller.0 }
    {
        self.kernel.is_parked(caller)
    }

    /// Whether a caller is parked and marked: its next resumption may end its wait.
    pub fn is_marked(&self, caller: CallerId) -> bool
        ensures { result ≡ is_marked (K.state self.now.kernel) caller.0 }
    {
        self.kernel.is_marked(caller)
    }

    /// Whether a caller is parked and not marked: its next resumption would be in vain.
    pub(crate) fn must_wait(&self, caller: CallerId) -> bool
        ensures { result ≡ must_wait (K.state self.now.kernel) caller.0 }
    {
        self.is_parked(caller) && !self.is_marked(caller)
    }

    /// The parked callers from 1 to `sessions`, in rising order. An `Err` is want of memory.
    pub fn parked(&self, sessions: u32) -> Result<Vec<CallerId>, AllocError>
        ensures { IfOk result
            (λ v. map (λ c. c.0) v.items
            ≡ filter (is_parked (K.state self.now.kernel)) (range_with_len 1 sessions)) }
    {
        let mut parked = Vec::new(self.alloc);
        for before in 0..sessions {
            let caller = CallerId(before + 1);
            if self.is_parked(caller) {
                parked.push(caller)?;
            }
        }
        Ok(parked)
    }
}
