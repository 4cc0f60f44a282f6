//! Slots of records.
ghost use Rattle.std.specs.Prelude.{◌≡◌, ◌<◌, ◌≤◌, ◌≤ℤ◌, ◌^◌, [], ◌∷◌, IfSome, IsSome, Some, length, pos};
ghost use Rattle.std.specs.Int.{cast_signed, w64};
ghost use Rattle.ep_base.specs.Call.{IsOnObject, MakesFiles};
ghost use Rattle.ep_base.specs.declared.call.Call.TheVariants.{EventFd as event_fd_call};
ghost use Rattle.ep_base.specs.declared.call.Call.TheVariants.{GetTime as get_time_call, Pipe as pipe_call};
ghost use Rattle.ep_base.specs.declared.call.Call.TheVariants.{Read as read_call, SetTime as set_time_call};
ghost use Rattle.ep_base.specs.declared.call.Call.TheVariants.{SocketPair as socket_pair_call};
ghost use Rattle.ep_base.specs.declared.call.Call.TheVariants.{TimerFd as timer_fd_call, Write as write_call};
ghost use Rattle.ep_records.specs.Slot.{IsOnInstance, event_in, event_of, is_set, made, only_fd, quiet, record_in, told};
ghost use Rattle.ep_records.specs.Short.{IsBrief, IsShortCall, IsShortPair, IsShortRead, IsShortEvent};
ghost use Rattle.ep_records.specs.Short.{IsShortReporter, IsShortSetting, IsToldShort, IsWait};

use crate::slot::{BLANK, Kind, Slot, What};
use crate::sockets::{family_number, how_number};
use crate::words::Words;
use ep_base::{
    Answer, Buffer, Call, CallerId, Content, EntryNumber, Event, Fd, Report, Reports, Span, Timeout,
};

/// A truth value as a number.
pub(crate) fn flag_of(set: bool) -> u8
    ensures { is_set result ≡ set }
{
    if set { 1 } else { 0 }
}

/// A timeout as a number.
pub(crate) fn number_of(timeout: Timeout) -> u64
    ensures { cast_signed w64 result ≡ timeout }
{
    timeout.0.cast_unsigned()
}

/// What epoll_ctl(2) is to do, where its number is small, as that of each operation is.
fn small_op(op: i32) -> Option<u8>
    ensures is { IfSome result (λ k. pos k ≡ op) }
    ensures small { pos 0 ≤ℤ op → op ≤ℤ pos 255 → IsSome result }
{
    if 0 <= op && op <= 255 {
        Some(op as u8)
    } else {
        None
    }
}

/// The only one of these numbers.
#[inline(always)]
pub(crate) fn only_number(numbers: &[EntryNumber]) -> Option<EntryNumber>
    ensures is { IfSome result (λ n. numbers.now ≡ n ∷ []) }
    ensures one { length numbers.now ≡ 1 → IsSome result }
{
    if numbers.len() == 1 {
        Some(numbers[0])
    } else {
        None
    }
}

/// The only one of these reports.
#[inline(always)]
fn only_report(reports: &Reports) -> Option<Report>
    ensures is { IfSome result (λ r. reports.now ≡ r ∷ []) }
    ensures one { length reports.now ≡ 1 → IsSome result }
{
    let reports = reports.as_slice();
    if reports.len() == 1 {
        Some(reports[0])
    } else {
        None
    }
}

impl Slot {
    /// The place of a record among the long ones.
    pub(crate) fn whole(place: usize) -> Slot
        ensures what { result.what ≡ What.Whole }
        ensures place { result.x ≡ place }
    {
        Slot {
            what: What::Whole,
            x: place as u64,
            ..BLANK
        }
    }

    /// With these reports as the answer, if they are none.
    #[inline(always)]
    fn unreported(self, reports: &Reports) -> Option<Slot>
        ensures is { IfSome result
            (λ s. record_in s ≡ Some (made self.caller (event_in self) (Answer.Events reports.now))) }
        ensures short { reports.now ≡ [] → IsSome result }
    {
        if reports.as_slice().is_empty() {
            Some(Slot {
                what: What::NoReports,
                ..self
            })
        } else {
            None
        }
    }

    /// With an answer of one number at most.
    #[inline(always)]
    pub(crate) fn answered(self, answer: &Answer) -> Option<Slot>
        ensures is { IfSome result
            (λ s. record_in s ≡ Some (made self.caller (event_in self) answer.now)) }
        ensures short { IsBrief answer.now → IsSome result }
    {
        match answer {
            Answer::Done => Some(Slot {
                what: What::Done,
                ..self
            }),
            Answer::Num(z) => Some(Slot {
                what: What::Num,
                z: *z,
                ..self
            }),
            Answer::Events(reports) => self.unreported(reports),
            Answer::Parked => Some(Slot {
                what: What::Parked,
                ..self
            }),
            Answer::Still => Some(Slot {
                what: What::Still,
                ..self
            }),
            Answer::Refused(errno) => Some(Slot {
                what: What::Refused,
                errno: *errno,
                ..self
            }),
            Answer::Two(_, _)
            | Answer::Bytes(_)
            | Answer::Time { .. }
            | Answer::Connecting
            | Answer::Failed(_)
            | Answer::Named(_) => None,
        }
    }

    /// A call that tells no number beside a descriptor.
    pub(crate) fn on(
        caller: CallerId,
        pid: u32,
        kind: Kind,
        fd: Fd,
        answer: &Answer,
    ) -> Option<Slot>
        ensures is { IfSome result
            (λ s. record_in s ≡ Some (made caller (event_of kind pid (only_fd fd)) answer.now)) }
        ensures short { IsBrief answer.now → IsSome result }
    {
        let slot = Slot {
            caller,
            pid,
            fd,
            kind,
            ..BLANK
        };
        slot.answered(answer)
    }

    /// A pipe2(2).
    fn pipe(caller: CallerId, pid: u32, cloexec: bool, answer: &Answer) -> Option<Slot>
        ensures is { IfSome result
            (λ s. record_in s ≡ Some (quiet caller pid (pipe_call cloexec) answer.now)) }
        ensures short { IsShortPair answer.now → IsSome result }
    {
        let slot = Slot {
            caller,
            pid,
            kind: Kind::Pipe,
            count: flag_of(cloexec),
            ..BLANK
        };
        match answer {
            Answer::Two(first, second) => Some(Slot {
                what: What::Two,
                fd: *first,
                m: second.0,
                ..slot
            }),
            _ => slot.answered(answer),
        }
    }

    /// A socketpair(2).
    fn socket_pair(caller: CallerId, pid: u32, cloexec: bool, answer: &Answer) -> Option<Slot>
        ensures is { IfSome result
            (λ s. record_in s ≡ Some (quiet caller pid (socket_pair_call cloexec) answer.now)) }
        ensures short { IsShortPair answer.now → IsSome result }
    {
        let slot = Slot {
            caller,
            pid,
            kind: Kind::SocketPair,
            count: flag_of(cloexec),
            ..BLANK
        };
        match answer {
            Answer::Two(first, second) => Some(Slot {
                what: What::Two,
                fd: *first,
                m: second.0,
                ..slot
            }),
            _ => slot.answered(answer),
        }
    }

    /// An eventfd(2) of this caller and process.
    fn event_fd(self, init: u32, semaphore: bool, cloexec: bool, answer: &Answer) -> Option<Slot>
        ensures is { IfSome result (λ s. record_in s
            ≡ Some (quiet self.caller self.pid (event_fd_call init semaphore cloexec) answer.now)) }
        ensures short { IsBrief answer.now → IsSome result }
    {
        let slot = Slot {
            kind: Kind::EventFd,
            count: flag_of(cloexec),
            n: init,
            x: flag_of(semaphore) as u64,
            ..self
        };
        slot.answered(answer)
    }

    /// A timerfd_create(2) of this caller and process.
    fn timer_fd(self, clock: i32, cloexec: bool, answer: &Answer) -> Option<Slot>
        ensures is { IfSome result (λ s. record_in s
            ≡ Some (quiet self.caller self.pid (timer_fd_call clock cloexec) answer.now)) }
        ensures short { IsBrief answer.now → IsSome result }
    {
        let slot = Slot {
            kind: Kind::TimerFd,
            count: flag_of(cloexec),
            m: clock,
            ..self
        };
        slot.answered(answer)
    }

    /// A call that makes files.
    fn making(caller: CallerId, pid: u32, call: &Call, answer: &Answer) -> Option<Slot>
        requires { MakesFiles call.now }
        ensures is { IfSome result (λ s. record_in s ≡ Some (quiet caller pid call.now answer.now)) }
        ensures short { IsShortCall call.now answer.now → IsSome result }
    {
        let slot = Slot {
            caller,
            pid,
            ..BLANK
        };
        match *call {
            Call::Pipe { cloexec } => Slot::pipe(caller, pid, cloexec, answer),
            Call::SocketPair { cloexec } => Slot::socket_pair(caller, pid, cloexec, answer),
            Call::EventFd {
                init,
                semaphore,
                cloexec,
            } => slot.event_fd(init, semaphore, cloexec, answer),
            Call::TimerFd { clock, cloexec } => slot.timer_fd(clock, cloexec, answer),
            Call::Socket { family, cloexec } => Slot {
                kind: Kind::Socket,
                count: flag_of(cloexec),
                n: family_number(family),
                ..slot
            }
            .answered(answer),
            Call::Plain { cloexec } => Slot {
                kind: Kind::Plain,
                count: flag_of(cloexec),
                ..slot
            }
            .answered(answer),
            Call::EpollCreate { cloexec } => Slot {
                kind: Kind::EpollCreate,
                count: flag_of(cloexec),
                ..slot
            }
            .answered(answer),
            _ => unreachable!(),
        }
    }

    /// A write.
    #[inline(always)]
    pub(crate) fn write(
        caller: CallerId,
        pid: u32,
        fd: Fd,
        bytes: &Buffer,
        answer: &Answer,
    ) -> Option<Slot>
        ensures is { IfSome result
            (λ s. record_in s ≡ Some (quiet caller pid (write_call fd bytes.now) answer.now)) }
        ensures short { length bytes.now ≤ 16 → IsBrief answer.now → IsSome result }
    {
        match bytes.content() {
            Content::Listed(list) => {
                let words = Words::of(list)?;
                let slot = Slot {
                    caller,
                    pid,
                    fd,
                    kind: Kind::Write,
                    count: list.len() as u8,
                    x: words.x,
                    y: words.y,
                    ..BLANK
                };
                slot.answered(answer)
            }
            Content::Filled(byte, many) => {
                let slot = Slot {
                    caller,
                    pid,
                    fd,
                    kind: Kind::Fill,
                    count: byte,
                    x: many as u64,
                    ..BLANK
                };
                slot.answered(answer)
            }
        }
    }

    /// A read that gives these bytes.
    #[inline(always)]
    pub(crate) fn giving(caller: CallerId, pid: u32, fd: Fd, n: u32, list: &[u8]) -> Option<Slot>
        ensures is { IfSome result (λ s. record_in s
            ≡ Some (quiet caller pid (read_call fd n) (Answer.Bytes list.now))) }
        ensures short { length list.now ≤ 16 → IsSome result }
    {
        let words = Words::of(list)?;
        Some(Slot {
            caller,
            pid,
            fd,
            kind: Kind::Read,
            what: What::Bytes,
            n,
            count: list.len() as u8,
            x: words.x,
            y: words.y,
            ..BLANK
        })
    }

    /// A read.
    #[inline(always)]
    fn read(caller: CallerId, pid: u32, fd: Fd, n: u32, answer: &Answer) -> Option<Slot>
        ensures is { IfSome result
            (λ s. record_in s ≡ Some (quiet caller pid (read_call fd n) answer.now)) }
        ensures short { IsShortRead answer.now → IsSome result }
    {
        let slot = Slot {
            caller,
            pid,
            fd,
            kind: Kind::Read,
            n,
            ..BLANK
        };
        match answer {
            Answer::Bytes(bytes) => Slot::giving(caller, pid, fd, n, bytes.as_slice()),
            _ => slot.answered(answer),
        }
    }

    /// A timerfd_gettime(2).
    fn get_time(caller: CallerId, pid: u32, fd: Fd, answer: &Answer) -> Option<Slot>
        ensures is { IfSome result
            (λ s. record_in s ≡ Some (quiet caller pid (get_time_call fd) answer.now)) }
        ensures short { IsShortSetting answer.now → IsSome result }
    {
        match answer {
            Answer::Time { value, interval } => match u32::try_from(interval.0) {
                Ok(n) => Some(Slot {
                    caller,
                    pid,
                    fd,
                    kind: Kind::GetTime,
                    what: What::Time,
                    n,
                    z: value.0,
                    ..BLANK
                }),
                Err(_) => None,
            },
            _ => Slot::on(caller, pid, Kind::GetTime, fd, answer),
        }
    }

    /// This timerfd_settime(2), with its answer.
    fn set(self, answer: &Answer) -> Option<Slot>
        requires { self.kind ≡ Kind.SetTime }
        ensures is { IfSome result
            (λ s. record_in s ≡ Some (made self.caller (event_in self) answer.now)) }
        ensures short { IsShortSetting answer.now → IsSome result }
    {
        match answer {
            Answer::Time { value, interval } => match u32::try_from(interval.0) {
                Ok(n) => Some(Slot {
                    kind: Kind::SetTime,
                    what: What::Time,
                    n,
                    z: value.0,
                    ..self
                }),
                Err(_) => None,
            },
            _ => self.answered(answer),
        }
    }

    /// A call on an instance.
    #[inline(always)]
    fn watching(caller: CallerId, pid: u32, call: &Call, answer: &Answer) -> Option<Slot>
        requires { IsOnInstance call.now }
        ensures is { IfSome result (λ s. record_in s ≡ Some (quiet caller pid call.now answer.now)) }
        ensures short { IsShortCall call.now answer.now → IsSome result }
    {
        let slot = Slot {
            caller,
            pid,
            ..BLANK
        };
        match *call {
            Call::EpollCtl {
                epfd,
                op,
                fd,
                mask,
                tag,
            } => Slot {
                fd: epfd,
                kind: Kind::EpollCtl,
                count: small_op(op)?,
                n: mask.0,
                m: fd.0,
                x: tag,
                ..slot
            }
            .answered(answer),
            Call::EpollWait { epfd, max, timeout } => Slot {
                fd: epfd,
                kind: Kind::EpollWait,
                m: max,
                x: number_of(timeout),
                ..slot
            }
            .answered(answer),
            _ => unreachable!(),
        }
    }

    /// A call on an object that writes no bytes.
    fn acting(caller: CallerId, pid: u32, call: &Call, answer: &Answer) -> Option<Slot>
        requires { IsOnObject call.now }
        ensures is { IfSome result (λ s. record_in s ≡ Some (quiet caller pid call.now answer.now)) }
        ensures short { IsShortCall call.now answer.now → IsSome result }
    {
        match *call {
            Call::EpollCtl { .. } | Call::EpollWait { .. } => {
                Slot::watching(caller, pid, call, answer)
            }
            Call::Read { fd, n } => Slot::read(caller, pid, fd, n, answer),
            Call::Shutdown { fd, how } => Slot {
                caller,
                pid,
                fd,
                kind: Kind::Shutdown,
                count: how_number(how),
                ..BLANK
            }
            .answered(answer),
            Call::SetTime {
                fd,
                absolute,
                value,
                interval,
            } => Slot {
                caller,
                pid,
                fd,
                kind: Kind::SetTime,
                count: flag_of(absolute),
                x: value.0,
                y: interval.0,
                ..BLANK
            }
            .set(answer),
            Call::GetTime { fd } => Slot::get_time(caller, pid, fd, answer),
            _ => unreachable!(),
        }
    }

    /// A call that reports nothing.
    #[inline(always)]
    fn silent(caller: CallerId, pid: u32, call: &Call, answer: &Answer) -> Option<Slot>
        ensures is { IfSome result (λ s. record_in s ≡ Some (quiet caller pid call.now answer.now)) }
        ensures short { IsShortCall call.now answer.now → IsSome result }
    {
        match call {
            Call::Write { fd, bytes } => Slot::write(caller, pid, *fd, bytes, answer),
            Call::EpollCtl { .. }
            | Call::EpollWait { .. }
            | Call::Read { .. }
            | Call::Shutdown { .. }
            | Call::SetTime { .. }
            | Call::GetTime { .. } => Slot::acting(caller, pid, call, answer),
            Call::Pipe { .. }
            | Call::EventFd { .. }
            | Call::TimerFd { .. }
            | Call::SocketPair { .. }
            | Call::Socket { .. }
            | Call::Plain { .. }
            | Call::EpollCreate { .. } => Slot::making(caller, pid, call, answer),
            Call::Peek { .. }
            | Call::TakeError { .. }
            | Call::SocketName { .. }
            | Call::Bind { .. }
            | Call::Listen { .. }
            | Call::Connect { .. }
            | Call::Accept { .. } => Slot::on_socket(caller, pid, call, answer),
            Call::Dup { fd } => Slot::on(caller, pid, Kind::Dup, *fd, answer),
            Call::Dup2 { fd, to } => {
                let slot = Slot {
                    caller,
                    pid,
                    fd: *fd,
                    kind: Kind::Dup2,
                    m: to.0,
                    ..BLANK
                };
                slot.answered(answer)
            }
            Call::Close { fd } => Slot::on(caller, pid, Kind::Close, *fd, answer),
            Call::Fork => Slot::on(caller, pid, Kind::Fork, BLANK.fd, answer),
            Call::Exec => Slot::on(caller, pid, Kind::Exec, BLANK.fd, answer),
            Call::Exit => Slot::on(caller, pid, Kind::Exit, BLANK.fd, answer),
        }
    }

    /// An event that reports nothing.
    #[inline(always)]
    pub(crate) fn unpicked(caller: CallerId, event: &Event, answer: &Answer) -> Option<Slot>
        ensures is { IfSome result (λ s. record_in s ≡ Some (made caller event.now answer.now)) }
        ensures short { IsShortEvent event.now answer.now → IsSome result }
    {
        match event {
            Event::Call { pid, call } => match u32::try_from(pid.0) {
                Ok(pid) => Slot::silent(caller, pid, call, answer),
                Err(_) => None,
            },
            Event::Resume => Slot::on(caller, 0, Kind::Resume, BLANK.fd, answer),
            Event::Tick { n } => Slot {
                caller,
                kind: Kind::Tick,
                x: n.0,
                ..BLANK
            }
            .answered(answer),
        }
    }

    /// With this report as the answer.
    #[inline(always)]
    fn wait(
        caller: CallerId,
        pid: u32,
        call: &Call,
        report: Report,
        number: EntryNumber,
    ) -> Option<Slot>
        ensures is { IfSome result (λ s. record_in s
            ≡ Some (told caller (Event.Call (record { 0 = pid }) call.now) report number)) }
        ensures short { IsWait call.now → IsSome result }
    {
        match call {
            Call::EpollWait { epfd, max, timeout } => Some(Slot {
                caller,
                pid,
                fd: *epfd,
                kind: Kind::EpollWait,
                what: What::OneReport,
                n: report.bits.0,
                m: *max,
                x: number_of(*timeout),
                y: report.tag,
                z: number.0,
                ..BLANK
            }),
            _ => None,
        }
    }

    /// An event that makes this report.
    #[inline(always)]
    pub(crate) fn reporting(
        caller: CallerId,
        event: &Event,
        report: Report,
        number: EntryNumber,
    ) -> Option<Slot>
        ensures is { IfSome result (λ s. record_in s ≡ Some (told caller event.now report number)) }
        ensures short { IsShortReporter event.now → IsSome result }
    {
        match event {
            Event::Call { pid, call } => match u32::try_from(pid.0) {
                Ok(pid) => Slot::wait(caller, pid, call, report, number),
                Err(_) => None,
            },
            Event::Resume => Some(Slot {
                caller,
                kind: Kind::Resume,
                what: What::OneReport,
                n: report.bits.0,
                y: report.tag,
                z: number.0,
                ..BLANK
            }),
            Event::Tick { .. } => None,
        }
    }

    /// An event that makes reports.
    #[inline(always)]
    fn picking(
        caller: CallerId,
        event: &Event,
        answer: &Answer,
        picked: &[EntryNumber],
    ) -> Option<Slot>
        ensures is { IfSome result (λ s. record_in s ≡ Some (record {
          caller = caller;
          event = event.now;
          answer = answer.now;
          picked = picked.now;
        })) }
        ensures short { IsToldShort event.now answer.now picked.now → IsSome result }
    {
        match answer {
            Answer::Events(reports) => {
                let report = only_report(reports)?;
                let number = only_number(picked)?;
                Slot::reporting(caller, event, report, number)
            }
            _ => None,
        }
    }

    /// The slot of a record, or `None` where it has none. It takes no memory.
    #[inline(always)]
    pub(crate) fn of(
        caller: CallerId,
        event: &Event,
        answer: &Answer,
        picked: &[EntryNumber],
    ) -> Option<Slot>
        ensures is { IfSome result (λ s. record_in s ≡ Some (record {
          caller = caller;
          event = event.now;
          answer = answer.now;
          picked = picked.now;
        })) }
        ensures silent { picked.now ≡ [] → IsShortEvent event.now answer.now → IsSome result }
        ensures told { IsToldShort event.now answer.now picked.now → IsSome result }
    {
        if picked.is_empty() {
            Slot::unpicked(caller, event, answer)
        } else {
            Slot::picking(caller, event, answer, picked)
        }
    }
}
