//! What an event came to.
ghost use Rattle.std.specs.Prelude.{◌≡◌, ◌+◌, ◌<◌, ◌≤◌, ◌++◌, ◌∷◌, [], None, false, true};
ghost use Rattle.std.specs.Option.{ForSome};
ghost use Rattle.ep_base.specs.declared.answer.Answer.TheVariants.{Refused as refused};
ghost use Rattle.ep_calls.specs.Acts.{is_no_memory};
ghost use Rattle.ep_calls.specs.Given.{FitsSlot, IsShortWrite};
ghost use Rattle.ep_calls.specs.KeptRecords.{AreCopies, HasCopy, IsCopied, IsInline, IsInlineWithout, inline_prop, spare_in};
ghost use Rattle.ep_calls.specs.Reply.{IsSettled};
ghost use Rattle.ep_calls.specs.declared.raising.Raising.TheVariants.{Nowhere};

use crate::copies::Copies;
use crate::given::Given;
use crate::picks::Picks;
use crate::raising::Raising;
use crate::reply::Reply;
use crate::spare::Spare;
use ep_base::{Answer, CallerId, Errno, Record};
use ep_records::History;
use std::alloc::Global;

/// What an event came to: its answer, which is never want of memory, the registrations that it reports, and what it
/// raised. It is handed on by value from layer to layer, so it is kept small.
#[derive(Drop)]
pub struct Outcome {
    /// The answer for the caller.
    pub answer: Reply,
    /// The numbers of the registrations that the answer reports, in its order.
    pub picked: Picks,
    /// The copies of the answer that take memory. `None` if a copy takes none.
    pub copies: Option<Box<Copies>>,
    /// What the event raised, at which descriptions.
    pub raising: Raising,
    ghost recorded: { ForSome copies (λ made. made.value.recorded ≡ answer) },
    ghost copied: { IsCopied (spare_in copies) answer picked },
    ghost inline: { IsInlineWithout copies answer } by { inline_prop copies answer },
    ghost real: { is_no_memory answer ≡ false },
}

const _: () = prove!(size_of::<Outcome>() == 96);

impl Outcome {
    /// A refusal.
    #[inline(always)]
    pub fn refused(errno: Errno) -> Outcome
        requires { is_no_memory (refused errno) ≡ false }
        ensures answer { result.answer ≡ refused errno }
        ensures picked { result.picked ≡ [] }
        ensures inline { IsInline result.answer result.picked }
        ensures raising { result.raising ≡ Nowhere }
    {
        Outcome::settled(Answer::Refused(errno), Raising::Nowhere)
    }

    /// An answer that takes no memory to copy, and reports nothing.
    #[inline(always)]
    #[tactic(auto, using(crate::proofs::ReplyLemmas::settled_inline, crate::proofs::ReplyLemmas::settled_silent))]
    pub fn settled(answer: Answer, raising: Raising) -> Outcome
        requires settled { IsSettled answer }
        requires real { is_no_memory answer ≡ false }
        ensures answer { result.answer ≡ answer }
        ensures picked { result.picked ≡ [] }
        ensures inline { IsInline result.answer result.picked }
        ensures raising { result.raising ≡ raising }
    {
        Outcome::new(Reply::of(answer), Picks::none(), None, raising)
    }

    /// An answer that reports these registrations, and the copies of it that take memory.
    #[inline(always)]
    pub fn new(
        answer: Reply,
        picked: Picks,
        copies: Option<Box<Copies>>,
        raising: Raising,
    ) -> Outcome
        requires copied { AreCopies copies answer picked }
        requires real { is_no_memory answer ≡ false }
        ensures answer { result.answer ≡ answer }
        ensures picked { result.picked ≡ picked }
        ensures copies { result.copies ≡ copies }
        ensures raising { result.raising ≡ raising }
    {
        Outcome {
            answer,
            picked,
            copies,
            raising,
        }
    }

    /// Puts the record of the event at the end of a history that has room for it, and hands the answer on, with what a
    /// second record is made of if one is asked for. It takes no memory. A short record copies no part of the outcome.
    #[inline(always)]
    pub fn put_record(
        self,
        alloc: Global,
        history: &mut History,
        caller: CallerId,
        event: Given<'_>,
        kept: bool,
    ) -> (Answer, Option<Spare>)
        requires inline { kept ≡ true → spare_in self.copies ≡ None
            → IsInline self.answer self.picked }
        requires slot { FitsSlot event self.answer self.picked }
        requires room { 0 < history.old.room }
        ensures answer { result.0 ≡ self.answer }
        ensures spare { kept ≡ true → HasCopy result.1 self.answer self.picked }
        ensures items { history.new.items ≡ history.old.items ++ record {
          caller = caller;
          event = event.entry;
          answer = self.answer;
          picked = self.picked;
        } ∷ [] }
        ensures room { history.old.room ≤ history.new.room + 1 }
        ensures taken { history.new.taken ≡ history.old.taken }
    {
        if kept {
            let (answer, spare) = self.put_twice(alloc, history, caller, event);
            return (answer, Some(spare));
        }
        let Outcome {
            answer,
            picked,
            copies,
            ..
        } = self;
        if answer.put_common(history, caller, event.event(), &picked) {
            return (answer.into_answer(alloc), None);
        }
        let rest = Rest { picked, copies };
        (rest.put_other(alloc, history, caller, event, answer), None)
    }

    /// The same if a second record is asked for.
    #[inline(never)]
    fn put_twice(
        self,
        alloc: Global,
        history: &mut History,
        caller: CallerId,
        event: Given<'_>,
    ) -> (Answer, Spare)
        requires inline { spare_in self.copies ≡ None → IsInline self.answer self.picked }
        requires slot { FitsSlot event self.answer self.picked }
        requires room { 0 < history.old.room }
        ensures answer { result.0 ≡ self.answer }
        ensures spare { result.1.answer ≡ self.answer }
        ensures picked { result.1.picked ≡ self.picked }
        ensures items { history.new.items ≡ history.old.items ++ record {
          caller = caller;
          event = event.entry;
          answer = self.answer;
          picked = self.picked;
        } ∷ [] }
        ensures room { history.old.room ≤ history.new.room + 1 }
        ensures taken { history.new.taken ≡ history.old.taken }
    {
        let Outcome {
            answer,
            picked,
            copies,
            ..
        } = self;
        let (answer, picked) = (answer.into_answer(alloc), picked.into_picked(alloc));
        let (recorded, spare) = match copies {
            None => (answer.copy().unwrap(), None),
            Some(made) => {
                let Copies { recorded, spare } = Box::into_inner(made);
                (recorded, spare)
            }
        };
        let spare = Spare::of(spare, &answer, &picked);
        if !history.push_short(caller, event.event(), &answer, picked.as_slice()) {
            history.push_long(Record {
                caller,
                event: event.into_event(),
                answer: recorded,
                picked,
            });
        }
        (answer, spare)
    }
}

/// What is left of an outcome once its answer is taken out.
#[derive(Drop)]
struct Rest {
    picked: Picks,
    copies: Option<Box<Copies>>,
}

impl Rest {
    /// Puts the record of an event that is none of the common ones at the end of a history that has room for it, and
    /// makes the answer of the reply.
    #[inline(always)]
    fn put_other(
        self,
        alloc: Global,
        history: &mut History,
        caller: CallerId,
        event: Given<'_>,
        reply: Reply,
    ) -> Answer
        requires inline { IsInlineWithout self.copies reply }
        requires recorded { ForSome self.copies (λ made. made.value.recorded ≡ reply) }
        requires slot { FitsSlot event reply self.picked }
        requires room { 0 < history.old.room }
        ensures answer { result ≡ reply }
        ensures items { history.new.items ≡ history.old.items ++ record {
          caller = caller;
          event = event.entry;
          answer = reply;
          picked = self.picked;
        } ∷ [] }
        ensures room { history.old.room ≤ history.new.room + 1 }
        ensures taken { history.new.taken ≡ history.old.taken }
    {
        let answer = reply.into_answer(alloc);
        if !history.push_short(caller, event.event(), &answer, self.picked.as_slice()) {
            self.put_whole(alloc, history, caller, event, &answer);
        }
        answer
    }

    /// Puts the record of an event that isn't short at the end of a history that has room for it. It stands apart from
    /// the ways of short ones, since whatever a function names it clears, also if it goes another way.
    #[cold]
    #[inline(never)]
    fn put_whole(
        self,
        alloc: Global,
        history: &mut History,
        caller: CallerId,
        event: Given<'_>,
        answer: &Answer,
    )
        requires long { IsShortWrite event → ⊥ }
        requires inline { IsInlineWithout self.copies answer.now }
        requires recorded { ForSome self.copies (λ made. made.value.recorded ≡ answer.now) }
        requires room { 0 < history.old.room }
        ensures items { history.new.items ≡ history.old.items ++ record {
          caller = caller;
          event = event.entry;
          answer = answer.now;
          picked = self.picked;
        } ∷ [] }
        ensures room { history.old.room ≤ history.new.room + 1 }
        ensures taken { history.new.taken ≡ history.old.taken }
    {
        let Rest { picked, copies } = self;
        let recorded = match copies {
            None => answer.copy().unwrap(),
            Some(made) => Box::into_inner(made).recorded,
        };
        history.push_long(Record {
            caller,
            event: event.into_event(),
            answer: recorded,
            picked: picked.into_picked(alloc),
        });
    }
}
