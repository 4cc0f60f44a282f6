//! The parts of records, where they stand.
ghost use Rattle.std.specs.Prelude.{◌≡◌, IfOk, IsOk};
ghost use Rattle.ep_base.specs.Call.{EventHasNoBytes};
ghost use Rattle.ep_base.specs.declared.call.Call.TheVariants.{EpollWait as wait_call, Read as read_call};
ghost use Rattle.std.specs.Int.{cast_signed, w64};
ghost use Rattle.ep_records.specs.Said.{said_answer};
ghost use Rattle.ep_records.specs.Slot.{IsWithin, unpacked};

use crate::beside::Beside;
use crate::numbers::Numbers;
use crate::said::Said;
use crate::slot::{Slot, What};
use crate::unpack::write_event;
use ep_base::{Answer, Call, EntryNumber, Event, Pid, Record, Timeout};
use std::alloc::AllocError;

impl Slot {
    /// The wait whose reports stand beside.
    fn wait_event(&self) -> Event
        ensures { result ≡ Event.Call (record { 0 = self.now.pid })
            (wait_call self.now.fd self.now.m (cast_signed w64 self.now.x)) }
    {
        Event::Call {
            pid: Pid(self.pid as u64),
            call: Call::EpollWait {
                epfd: self.fd,
                max: self.m,
                timeout: Timeout(self.x.cast_signed()),
            },
        }
    }

    /// The read whose bytes stand beside.
    fn read_event(&self) -> Event
        ensures { result
            ≡ Event.Call (record { 0 = self.now.pid }) (read_call self.now.fd self.now.n) }
    {
        Event::Call {
            pid: Pid(self.pid as u64),
            call: Call::Read {
                fd: self.fd,
                n: self.n,
            },
        }
    }

    /// The event, in memory of its own. It takes none but for the bytes of a write.
    pub(crate) fn event_beside(&self, beside: &Beside) -> Result<Event, AllocError>
        requires { IsWithin beside.now self.now }
        ensures ok { IfOk result (λ event. event ≡ (unpacked beside.now self.now).event) }
        ensures no_bytes { EventHasNoBytes (unpacked beside.now self.now).event → IsOk result }
    {
        let alloc = beside.allocator();
        match self.what {
            What::Whole => beside.long(self.x as usize).event.copy(),
            What::WaitReports => Ok(self.wait_event()),
            What::ResumeReports => Ok(Event::Resume),
            What::LongRead => Ok(self.read_event()),
            What::LongWrite => {
                let bytes = beside.bytes(self.x as usize, self.y as usize);
                write_event(alloc, self.pid, self.fd, bytes)
            }
            What::Done
            | What::Num
            | What::Two
            | What::Bytes
            | What::NoReports
            | What::OneReport
            | What::Time
            | What::Parked
            | What::Still
            | What::Connecting
            | What::Failed
            | What::Unnamed
            | What::Named
            | What::Refused => self.told_event(alloc),
        }
    }

    /// The answer, where it stands. It takes no memory.
    pub(crate) fn answer_beside<'a>(&self, beside: &'a Beside) -> Said<'a>
        requires { IsWithin beside.now self.now }
        ensures { said_answer result ≡ (unpacked beside.now self.now).answer }
    {
        match self.what {
            What::Whole => Said::Kept(&beside.long(self.x as usize).answer),
            What::WaitReports => Said::Reports(beside.reports(self.y as usize, self.n as usize)),
            What::ResumeReports => Said::Reports(beside.reports(self.y as usize, self.n as usize)),
            What::LongRead => Said::Bytes(beside.bytes(self.x as usize, self.y as usize)),
            What::LongWrite => Said::Made(Answer::Num(self.z)),
            What::Done
            | What::Num
            | What::Two
            | What::Bytes
            | What::NoReports
            | What::OneReport
            | What::Time
            | What::Parked
            | What::Still
            | What::Connecting
            | What::Failed
            | What::Unnamed
            | What::Named
            | What::Refused => Said::Made(self.answer(beside.allocator())),
        }
    }

    /// The numbers of what the answer reports. They take no memory.
    pub(crate) fn picked_beside<'a>(&self, beside: &'a Beside) -> Numbers<'a>
        requires { IsWithin beside.now self.now }
        ensures { result ≡ (unpacked beside.now self.now).picked }
    {
        match self.what {
            What::Whole => Numbers::these(beside.long(self.x as usize).picked.as_slice()),
            What::WaitReports => Numbers::these(beside.numbers(self.z as usize, self.n as usize)),
            What::ResumeReports => Numbers::these(beside.numbers(self.z as usize, self.n as usize)),
            What::OneReport => Numbers::one(EntryNumber(self.z)),
            What::Done
            | What::Num
            | What::Two
            | What::Bytes
            | What::NoReports
            | What::Time
            | What::Parked
            | What::Still
            | What::Connecting
            | What::Failed
            | What::Unnamed
            | What::Named
            | What::Refused
            | What::LongRead
            | What::LongWrite => Numbers::these(&[]),
        }
    }

    /// The record, in memory of its own.
    pub(crate) fn copy_beside(&self, beside: &Beside) -> Result<Record, AllocError>
        requires { IsWithin beside.now self.now }
        ensures { IfOk result (λ r. r ≡ unpacked beside.now self.now) }
    {
        let alloc = beside.allocator();
        Ok(Record {
            caller: self.caller_beside(beside),
            event: self.event_beside(beside)?,
            answer: self.answer_beside(beside).to_answer(alloc)?,
            picked: self.picked_beside(beside).to_picked(alloc)?,
        })
    }
}
