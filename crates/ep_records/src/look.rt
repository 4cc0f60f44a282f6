//! Records of slots, beside what these name.
ghost use Rattle.std.specs.Prelude.{◌≡◌, ◌↔◌, ◌+◌, ◌≤◌, IsTrue, length};
ghost use Rattle.ep_base.specs.declared.call.Call.TheVariants.{EpollWait as wait_call, Read as read_call, Write as write_call};
ghost use Rattle.ep_records.specs.Lists.{stretch};
ghost use Rattle.ep_records.specs.Slot.{IsWithin, quiet, unpacked};

use crate::beside::Beside;
use crate::slot::{Slot, What};
use crate::unpack::writes;
use ep_base::{Answer, Call, CallerId, EntryNumber, Event, Fd, Picked, Record, Report, Timeout};

/// Whether these are the same reports.
fn are_same(one: &[Report], other: &[Report]) -> bool
    ensures { IsTrue result ↔ one.now ≡ other.now }
{
    *one == *other
}

/// Whether an answer has these reports.
pub(crate) fn has_reports(answer: &Answer, reports: &[Report]) -> bool
    ensures { IsTrue result ↔ Answer.Events reports.now ≡ answer.now }
{
    match answer {
        Answer::Events(list) => are_same(list.as_slice(), reports),
        _ => false,
    }
}

/// Whether an answer has these bytes.
pub(crate) fn has_given(answer: &Answer, bytes: &[u8]) -> bool
    ensures { IsTrue result ↔ Answer.Bytes bytes.now ≡ answer.now }
{
    match answer {
        Answer::Bytes(list) => list.as_slice() == bytes,
        _ => false,
    }
}

/// Whether these are the numbers of what a record reports.
fn has_numbers(picked: &Picked, numbers: &[EntryNumber]) -> bool
    ensures { IsTrue result ↔ numbers.now ≡ picked.now }
{
    picked.as_slice() == numbers
}

/// Whether an event is this wait.
fn is_wait(event: &Event, pid: u32, epfd: Fd, max: i32, timeout: Timeout) -> bool
    ensures { IsTrue result ↔ Event.Call (record { 0 = pid }) (wait_call epfd max timeout) ≡ event.now }
{
    match event {
        Event::Call {
            pid: process,
            call: Call::EpollWait {
                epfd: number,
                max: most,
                timeout: longest,
            },
        } => {
            process.0 == pid as u64 && *number == epfd && *most == max && longest.0 == timeout.0
        }
        _ => false,
    }
}

/// Whether an event is this read.
fn is_read(event: &Event, pid: u32, fd: Fd, n: u32) -> bool
    ensures { IsTrue result ↔ Event.Call (record { 0 = pid }) (read_call fd n) ≡ event.now }
{
    match event {
        Event::Call {
            pid: process,
            call: Call::Read {
                fd: number,
                n: most,
            },
        } => process.0 == pid as u64 && *number == fd && *most == n,
        _ => false,
    }
}

impl Slot {
    /// Who asked.
    pub(crate) fn caller_beside(&self, beside: &Beside) -> CallerId
        requires { IsWithin beside.now self.now }
        ensures { result ≡ (unpacked beside.now self.now).caller }
    {
        match self.what {
            What::Whole => beside.long(self.x as usize).caller,
            What::Done
            | What::Num
            | What::Two
            | What::Bytes
            | What::NoReports
            | What::OneReport
            | What::Time
            | What::Parked
            | What::Still
            | What::Connecting
            | What::Failed
            | What::Unnamed
            | What::Named
            | What::Refused
            | What::WaitReports
            | What::ResumeReports
            | What::LongRead
            | What::LongWrite => self.caller,
        }
    }

    /// Whether caller, reports and numbers are those of this record. It takes no memory.
    fn is_told(&self, beside: &Beside, other: &Record) -> bool
        requires reports { self.now.y + self.now.n ≤ length beside.now.reports }
        requires numbers { self.now.z + self.now.n ≤ length beside.now.numbers }
        ensures { IsTrue result ↔ (self.now.caller ≡ other.now.caller)
            × (Answer.Events (stretch beside.now.reports self.now.y self.now.n) ≡ other.now.answer)
            × (stretch beside.now.numbers self.now.z self.now.n ≡ other.now.picked) }
    {
        let reports = beside.reports(self.y as usize, self.n as usize);
        let numbers = beside.numbers(self.z as usize, self.n as usize);
        self.caller == other.caller
            && has_reports(&other.answer, reports)
            && has_numbers(&other.picked, numbers)
    }

    /// Whether this is the read of many bytes. It takes no memory.
    fn is_long_read(&self, beside: &Beside, other: &Record) -> bool
        requires { self.now.x + self.now.y ≤ length beside.now.bytes }
        ensures { IsTrue result ↔ quiet self.now.caller self.now.pid (read_call self.now.fd self.now.n)
            (Answer.Bytes (stretch beside.now.bytes self.now.x self.now.y)) ≡ other.now }
    {
        let bytes = beside.bytes(self.x as usize, self.y as usize);
        self.caller == other.caller
            && is_read(&other.event, self.pid, self.fd, self.n)
            && has_given(&other.answer, bytes)
            && other.picked.as_slice().is_empty()
    }

    /// Whether this is the write of many bytes. It takes no memory.
    fn is_long_write(&self, beside: &Beside, other: &Record) -> bool
        requires { self.now.x + self.now.y ≤ length beside.now.bytes }
        ensures { IsTrue result ↔ quiet self.now.caller self.now.pid
            (write_call self.now.fd (stretch beside.now.bytes self.now.x self.now.y))
            (Answer.Num self.now.z) ≡ other.now }
    {
        let bytes = beside.bytes(self.x as usize, self.y as usize);
        self.caller == other.caller
            && writes(&other.event, self.pid, self.fd, bytes)
            && other.answer.is_same(&Answer::Num(self.z))
            && other.picked.as_slice().is_empty()
    }

    /// Whether it is this record. It takes no memory.
    pub(crate) fn is_same_beside(&self, beside: &Beside, other: &Record) -> bool
        requires { IsWithin beside.now self.now }
        ensures { IsTrue result ↔ unpacked beside.now self.now ≡ other.now }
    {
        match self.what {
            What::Whole => beside.long(self.x as usize).is_same(other),
            What::WaitReports => {
                let timeout = Timeout(self.x.cast_signed());
                self.is_told(beside, other)
                    && is_wait(&other.event, self.pid, self.fd, self.m, timeout)
            }
            What::ResumeReports => {
                self.is_told(beside, other) && matches!(other.event, Event::Resume)
            }
            What::LongRead => self.is_long_read(beside, other),
            What::LongWrite => self.is_long_write(beside, other),
            What::Done
            | What::Num
            | What::Two
            | What::Bytes
            | What::NoReports
            | What::OneReport
            | What::Time
            | What::Parked
            | What::Still
            | What::Connecting
            | What::Failed
            | What::Unnamed
            | What::Named
            | What::Refused => self.is_same(other, beside.allocator()),
        }
    }
}
