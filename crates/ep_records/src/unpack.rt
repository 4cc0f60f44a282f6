//! Records of slots.
ghost use Rattle.std.specs.Prelude.{◌≡◌, ◌↔◌, ◌++◌, [], IfOk, IsOk, IsTrue};
ghost use Rattle.std.specs.Int.{to_le_bytes, w64};
ghost use Rattle.ep_base.specs.Call.{EventHasNoBytes};
ghost use Rattle.ep_base.specs.declared.call.Call.TheVariants.{Write as write_call};
ghost use Rattle.ep_records.specs.Slot.{Acts, IsListless, Makes, answer_of, asked, call_of, event_in, first_bytes, picked_of, short_record};

use crate::pack::only_number;
use crate::slot::{Kind, Slot, What};
use crate::sockets::{numbered_family, numbered_how, numbered_name};
use crate::words::{Words, front};
use ep_base::{
    Answer, Buffer, Bytes, Call, Content, EntryNumber, Event, Fd, Mask, Picked, Pid, Record,
    Report, Reports, Span, Timeout, is_filled,
};
use smallvec::SmallVec;
use std::alloc::{AllocError, Global};

/// Whether a buffer has these bytes.
fn has_bytes(buffer: &Buffer, bytes: &[u8]) -> bool
    ensures { IsTrue result ↔ bytes.now ≡ buffer.now }
{
    match buffer.content() {
        Content::Listed(list) => bytes == list,
        Content::Filled(byte, count) => is_filled(bytes, byte, count),
    }
}

/// Whether an event is a write of these bytes.
pub(crate) fn writes(event: &Event, pid: u32, fd: Fd, bytes: &[u8]) -> bool
    ensures { IsTrue result ↔ event.now ≡ Event.Call (record { 0 = pid }) (write_call fd bytes.now) }
{
    match event {
        Event::Call {
            pid: process,
            call: Call::Write {
                fd: number,
                bytes: written,
            },
        } => process.0 == pid as u64 && *number == fd && has_bytes(written, bytes),
        _ => false,
    }
}

/// A write of these bytes, in memory of its own.
pub(crate) fn write_event(
    alloc: Global,
    pid: u32,
    fd: Fd,
    bytes: &[u8],
) -> Result<Event, AllocError>
    ensures ok { IfOk result (λ event. event
        ≡ Event.Call (record { 0 = pid }) (write_call fd bytes.now)) }
    ensures no_bytes { bytes.now ≡ [] → IsOk result }
{
    let mut list = Vec::new(alloc);
    list.extend_from_slice(bytes)?;
    Ok(Event::Call {
        pid: Pid(pid as u64),
        call: Call::Write {
            fd,
            bytes: Buffer::new(list),
        },
    })
}

impl Slot {
    /// All bytes that have room in the slot.
    fn room(self) -> [u8; 16]
        ensures { result ≡ to_le_bytes w64 self.x ++ to_le_bytes w64 self.y }
    {
        let words = Words {
            x: self.x,
            y: self.y,
        };
        words.bytes()
    }

    /// A call that makes files.
    fn made_call(self) -> Call
        requires { Makes self.kind }
        ensures { result ≡ call_of self.kind (asked self) }
    {
        let cloexec = self.count == 1;
        match self.kind {
            Kind::Pipe => Call::Pipe { cloexec },
            Kind::SocketPair => Call::SocketPair { cloexec },
            Kind::EventFd => Call::EventFd {
                init: self.n,
                semaphore: self.x == 1,
                cloexec,
            },
            Kind::TimerFd => Call::TimerFd {
                clock: self.m,
                cloexec,
            },
            Kind::Socket => Call::Socket {
                family: numbered_family(self.n),
                cloexec,
            },
            Kind::Plain => Call::Plain { cloexec },
            Kind::EpollCreate => Call::EpollCreate { cloexec },
            _ => unreachable!(),
        }
    }

    /// A call on an object that writes no bytes.
    fn acted_call(self) -> Call
        requires { Acts self.kind }
        ensures { result ≡ call_of self.kind (asked self) }
    {
        let fd = self.fd;
        match self.kind {
            Kind::EpollCtl => Call::EpollCtl {
                epfd: fd,
                op: self.count as i32,
                fd: Fd(self.m),
                mask: Mask(self.n),
                tag: self.x,
            },
            Kind::EpollWait => Call::EpollWait {
                epfd: fd,
                max: self.m,
                timeout: Timeout(self.x.cast_signed()),
            },
            Kind::Read => Call::Read { fd, n: self.n },
            Kind::Shutdown => Call::Shutdown {
                fd,
                how: numbered_how(self.count),
            },
            Kind::SetTime => Call::SetTime {
                fd,
                absolute: self.count == 1,
                value: Span(self.x),
                interval: Span(self.y),
            },
            Kind::GetTime => Call::GetTime { fd },
            _ => unreachable!(),
        }
    }

    /// The call, where it lists no bytes.
    fn call(self) -> Call
        requires { IsListless self.kind }
        ensures { result ≡ call_of self.kind (asked self) }
    {
        let fd = self.fd;
        match self.kind {
            Kind::Pipe
            | Kind::SocketPair
            | Kind::Socket
            | Kind::EventFd
            | Kind::TimerFd
            | Kind::Plain
            | Kind::EpollCreate => self.made_call(),
            Kind::EpollCtl
            | Kind::EpollWait
            | Kind::Read
            | Kind::Shutdown
            | Kind::SetTime
            | Kind::GetTime => self.acted_call(),
            Kind::Peek
            | Kind::TakeError
            | Kind::SocketName
            | Kind::Bind
            | Kind::Listen
            | Kind::Connect
            | Kind::Accept => self.socket_call(),
            Kind::Write => unreachable!(),
            Kind::Fill => Call::Write {
                fd,
                bytes: Buffer::filled(self.count, self.x as usize),
            },
            Kind::Dup => Call::Dup { fd },
            Kind::Dup2 => Call::Dup2 { fd, to: Fd(self.m) },
            Kind::Close => Call::Close { fd },
            Kind::Fork => Call::Fork,
            Kind::Exec => Call::Exec,
            Kind::Exit | Kind::Resume | Kind::Tick => Call::Exit,
        }
    }

    /// The event, where it lists no bytes.
    fn event(self) -> Event
        requires { IsListless self.kind }
        ensures { result ≡ event_in self }
    {
        match self.kind {
            Kind::Resume => Event::Resume,
            Kind::Tick => Event::Tick { n: Span(self.x) },
            Kind::Write => unreachable!(),
            Kind::Pipe
            | Kind::SocketPair
            | Kind::Socket
            | Kind::EventFd
            | Kind::TimerFd
            | Kind::Plain
            | Kind::EpollCreate
            | Kind::EpollCtl
            | Kind::EpollWait
            | Kind::Read
            | Kind::Fill
            | Kind::Shutdown
            | Kind::Peek
            | Kind::TakeError
            | Kind::SocketName
            | Kind::Bind
            | Kind::Listen
            | Kind::Connect
            | Kind::Accept
            | Kind::SetTime
            | Kind::GetTime
            | Kind::Dup
            | Kind::Dup2
            | Kind::Close
            | Kind::Fork
            | Kind::Exec
            | Kind::Exit => Event::Call {
                pid: Pid(self.pid as u64),
                call: self.call(),
            },
        }
    }

    /// The bytes that have room in the slot, as an answer.
    fn given(self, alloc: Global) -> Answer
        ensures { result ≡ Answer.Bytes (first_bytes self.count self.x self.y) }
    {
        let room = self.room();
        let bytes = SmallVec::from_slice(alloc, front(&room, self.count)).unwrap();
        Answer::Bytes(Bytes::new(bytes))
    }

    /// The answer that the fields tell. It takes no memory.
    pub(crate) fn answer(self, alloc: Global) -> Answer
        ensures { result ≡ answer_of self.what self }
    {
        match self.what {
            What::Done => Answer::Done,
            What::Num => Answer::Num(self.z),
            What::Two => Answer::Two(self.fd, Fd(self.m)),
            What::Bytes => self.given(alloc),
            What::NoReports => Answer::Events(Reports::empty(alloc)),
            What::OneReport => {
                let report = Report {
                    bits: Mask(self.n),
                    tag: self.y,
                };
                let reports = SmallVec::from_slice(alloc, &[report]).unwrap();
                Answer::Events(Reports::new(reports))
            }
            What::Time => Answer::Time {
                value: Span(self.z),
                interval: Span(self.n as u64),
            },
            What::Parked => Answer::Parked,
            What::Connecting => Answer::Connecting,
            What::Failed => Answer::Failed(self.errno),
            What::Unnamed => Answer::Named(None),
            What::Named => Answer::Named(Some(numbered_name(self.x, self.n))),
            What::Refused => Answer::Refused(self.errno),
            What::Still
            | What::WaitReports
            | What::ResumeReports
            | What::LongRead
            | What::LongWrite
            | What::Whole => Answer::Still,
        }
    }

    /// The number of what the answer reports, if it is one. It takes no memory.
    fn picked(self, alloc: Global) -> Picked
        ensures { result ≡ picked_of self.what self }
    {
        match self.what {
            What::OneReport => {
                Picked::new(SmallVec::from_slice(alloc, &[EntryNumber(self.z)]).unwrap())
            }
            What::Done
            | What::Num
            | What::Two
            | What::Bytes
            | What::NoReports
            | What::Time
            | What::Parked
            | What::Still
            | What::Connecting
            | What::Failed
            | What::Unnamed
            | What::Named
            | What::Refused
            | What::WaitReports
            | What::ResumeReports
            | What::LongRead
            | What::LongWrite
            | What::Whole => Picked::empty(alloc),
        }
    }

    /// The record of this event. It takes no memory.
    fn with_event(self, event: Event, alloc: Global) -> Record
        requires { event ≡ event_in self }
        ensures { result ≡ short_record self }
    {
        Record {
            caller: self.caller,
            event,
            answer: self.answer(alloc),
            picked: self.picked(alloc),
        }
    }

    /// The event that the fields tell, in memory of its own. It takes none but for the bytes of a write.
    pub(crate) fn told_event(self, alloc: Global) -> Result<Event, AllocError>
        ensures ok { IfOk result (λ event. event ≡ event_in self) }
        ensures no_bytes { EventHasNoBytes (event_in self) → IsOk result }
    {
        match self.kind {
            Kind::Write => write_event(alloc, self.pid, self.fd, front(&self.room(), self.count)),
            _ => Ok(self.event()),
        }
    }

    /// Whether this is the write that the slot tells. It takes no memory.
    fn is_write(self, event: &Event) -> bool
        requires { self.kind ≡ Kind.Write }
        ensures { IsTrue result ↔ event_in self ≡ event.now }
    {
        writes(event, self.pid, self.fd, front(&self.room(), self.count))
    }

    /// Whether these are the numbers of what the answer reports.
    fn is_picked(self, picked: &[EntryNumber]) -> bool
        ensures { IsTrue result ↔ picked_of self.what self ≡ picked.now }
    {
        match self.what {
            What::OneReport => match only_number(picked) {
                Some(number) => number.0 == self.z,
                None => false,
            },
            What::Done
            | What::Num
            | What::Two
            | What::Bytes
            | What::NoReports
            | What::Time
            | What::Parked
            | What::Still
            | What::Connecting
            | What::Failed
            | What::Unnamed
            | What::Named
            | What::Refused
            | What::WaitReports
            | What::ResumeReports
            | What::LongRead
            | What::LongWrite
            | What::Whole => picked.is_empty(),
        }
    }

    /// Whether caller, answer and numbers are those of this record. It takes no memory.
    fn is_replied(self, other: &Record, alloc: Global) -> bool
        ensures { IsTrue result ↔ (self.caller ≡ other.now.caller)
            × (answer_of self.what self ≡ other.now.answer)
            × (picked_of self.what self ≡ other.now.picked) }
    {
        self.caller == other.caller
            && self.answer(alloc).is_same(&other.answer)
            && self.is_picked(other.picked.as_slice())
    }

    /// Whether the fields tell this record, where the slot names no long one. It takes no memory.
    pub(crate) fn is_same(self, other: &Record, alloc: Global) -> bool
        ensures { IsTrue result ↔ short_record self ≡ other.now }
    {
        match self.kind {
            Kind::Write => self.is_write(&other.event) && self.is_replied(other, alloc),
            _ => self.with_event(self.event(), alloc).is_same(other),
        }
    }
}
