//! Calls and events.
ghost use Rattle.std.specs.Prelude.{◌≡◌, IfOk, IsOk};
ghost use Rattle.ep_base.specs.Call.{EventHasNoBytes, HasNoBytes, IsOnObject, IsOnSocket, MakesFiles};

use crate::buffer::Buffer;
use crate::ids::{Fd, Pid};
use crate::mask::Mask;
use crate::socket::{Family, How, Name};
use crate::time::{Span, Timeout};
use std::alloc::AllocError;

/// A call of a process on the kernel. Everything behaves as with O_NONBLOCK; only epoll_wait(2) parks its caller.
///
/// Each call is refused with ESRCH where its process is not there and with EBUSY while its caller is parked, before
/// the refusals below, of which the first that holds is answered. A refusal leaves one record and changes nothing else.
/// ENOMEM comes last, leaves no record and changes nothing. A descriptor below 0 names nothing.
/// `docs/calls.md` has all of it in tables.
#[derive(Drop, PartialEq, Eq)]
pub enum Call {
    /// pipe2(2): a pipe at the two lowest free numbers, its read end at the lower one. Answered by `Answer::Two`.
    /// EMFILE where fewer than two numbers are free, ENFILE where fewer than two descriptions are left.
    Pipe {
        cloexec: bool,
    },
    /// eventfd(2): a counter up to 2^64 - 2 that starts at `init`; with `semaphore` a read takes 1 and not all.
    /// Answered by `Answer::Num`, its descriptor. EMFILE, ENFILE.
    EventFd {
        init: u32,
        semaphore: bool,
        cloexec: bool,
    },
    /// timerfd_create(2): a disarmed timer. Clocks 0 and 1 are both the one simulated clock. Answered by `Answer::Num`.
    /// EINVAL for any other clock, EMFILE, ENFILE.
    TimerFd {
        clock: i32,
        cloexec: bool,
    },
    /// socketpair(2) of Unix stream sockets, at the two lowest free numbers. Answered by `Answer::Two`.
    /// EMFILE and ENFILE as for a pipe.
    SocketPair {
        cloexec: bool,
    },
    /// socket(2) of a stream socket without a connection and without a name. Answered by `Answer::Num`. EMFILE, ENFILE.
    Socket {
        family: Family,
        cloexec: bool,
    },
    /// A file that can't be polled: a read gives no bytes, and a write answers its length and keeps none.
    /// Answered by `Answer::Num`. EMFILE, ENFILE.
    Plain {
        cloexec: bool,
    },
    /// epoll_create1(2): a new instance without registrations. Answered by `Answer::Num`. EMFILE, ENFILE.
    EpollCreate {
        cloexec: bool,
    },
    /// epoll_ctl(2) on the registration of `fd` in the instance `epfd`: `op` is ADD 1, DEL 2 or MOD 3, and `tag` the
    /// data that its reports carry. DEL looks at neither mask nor tag. Answered by `Answer::Done`.
    /// EBADF for `epfd`, EBADF for `fd`, EPERM for a file that can't be polled, EINVAL if `epfd` is no instance or both
    /// are one description, EINVAL for another `op`. With EXCLUSIVE, EINVAL for MOD, for an instance as target, and for
    /// a bit beside IN, OUT, ERR, HUP, WAKEUP and ET. Then ENOENT or EEXIST, EINVAL for MOD of an exclusive
    /// registration, ELOOP if instances would watch each other in a loop or in a chain of more than five, ENOSPC past
    /// `Limits::watches`.
    EpollCtl {
        epfd: Fd,
        op: i32,
        fd: Fd,
        mask: Mask,
        tag: u64,
    },
    /// epoll_wait(2): at most `max` reports of what is reportable now, answered by `Answer::Events`. Where nothing is,
    /// a `timeout` of 0 answers no reports and any other parks the caller (`Answer::Parked`): for so long at most, and
    /// without end if it is negative. Every `max` from 1 and every `timeout` are taken.
    /// EINVAL for a `max` below 1, EBADF, EINVAL where `epfd` is no instance.
    EpollWait {
        epfd: Fd,
        max: i32,
        timeout: Timeout,
    },
    /// read(2) of at most `n` bytes, answered by `Answer::Bytes`. At the end there are none: the writer is gone or has
    /// shut its writing, or the socket has shut its reading. An eventfd or a timer gives 8 bytes, the lowest first, and
    /// answers EINVAL if `n` is below 8. EBADF if `fd` names nothing or the write end of a pipe, EINVAL for an
    /// instance, EAGAIN if nothing is there.
    Read {
        fd: Fd,
        n: u32,
    },
    /// write(2) of these bytes, answered by `Answer::Num`, how many were taken. A pipe takes 4,096 bytes or fewer whole
    /// or not at all, and of more as many as fit; a socket takes as many as fit; an eventfd adds the first 8.
    /// EBADF if `fd` names nothing or the read end of a pipe, EINVAL for an instance or a timer, EINVAL for an eventfd
    /// and fewer than 8 bytes or 2^64 - 1, EPIPE if nobody reads any more or the socket has shut its writing, EAGAIN if
    /// nothing fits.
    Write {
        fd: Fd,
        bytes: Buffer,
    },
    /// shutdown(2) of the directions that `how` names; one that is shut already changes nothing. Answered by
    /// `Answer::Done`. EBADF, ENOTSOCK if `fd` names no socket, ENOTCONN if that has no connection.
    Shutdown {
        fd: Fd,
        how: How,
    },
    /// recv(2) with MSG_PEEK: as a read, but the bytes stay. Answered by `Answer::Bytes`. EBADF, ENOTSOCK, then as a
    /// read of the socket.
    Peek {
        fd: Fd,
        n: u32,
    },
    /// getsockopt(2) with SO_ERROR: takes the error that waits at the socket. Answered by `Answer::Num`, the error's
    /// number, or 0 if none waits. EBADF, ENOTSOCK.
    TakeError {
        fd: Fd,
    },
    /// getsockname(2), or getpeername(2) with `peer`. Answered by `Answer::Named`. EBADF, ENOTSOCK, and with `peer`
    /// ENOTCONN if there is no connection.
    SocketName {
        fd: Fd,
        peer: bool,
    },
    /// bind(2): gives a socket a name, which it keeps until it dies. Number 0 asks for any: the lowest from 32,768 to
    /// 60,999 that is free in that space. Answered by `Answer::Done`. EBADF, ENOTSOCK, EAFNOSUPPORT (TCP) or EINVAL
    /// (Unix) for a name of the other family, EINVAL if it has a name or a connection, or its connect failed and no
    /// further one told so, EADDRINUSE if the name is taken or none is free.
    Bind {
        fd: Fd,
        name: Name,
    },
    /// listen(2): from now on the socket listens, and `backlog` + 1 connections may wait there, of which at most
    /// 4,097. A negative number asks for the most. A TCP socket without a name gets one of IPv4, as by a bind to
    /// number 0. A listener that listens again changes how many may wait. Answered by `Answer::Done`. EBADF, ENOTSOCK,
    /// EINVAL if it has a connection, its connect failed and no further one told so, or it is a Unix socket without a
    /// name, EADDRINUSE if no name is free.
    Listen {
        fd: Fd,
        backlog: i32,
    },
    /// connect(2) to the socket that listens at this name. If none does, a Unix socket is refused: EBADF, ENOTSOCK,
    /// EINVAL for a name of TCP, ECONNREFUSED. A TCP socket is answered by `Answer::Connecting`, gets a name if it has
    /// none, and has failed when the call returns. The next connect tells so by `Answer::Failed`: ECONNREFUSED, or
    /// ECONNABORTED if that was taken. EBADF, ENOTSOCK, EAFNOSUPPORT for a name of Unix, EADDRNOTAVAIL if none is free.
    /// Nobody gets through to a listener yet: EINVAL. A connection and a TCP listener are EISCONN, a Unix listener
    /// EINVAL, those of Unix behind ECONNREFUSED.
    Connect {
        fd: Fd,
        name: Name,
    },
    /// accept4(2): the connection that waits longest, at the lowest free number. None waits yet: EAGAIN. Before that
    /// EBADF, EMFILE if no number is free, ENOTSOCK, ENFILE if no description is left, EINVAL if it doesn't listen.
    Accept {
        fd: Fd,
        cloexec: bool,
    },
    /// timerfd_settime(2): the first expiration so long after the clock began with `absolute`, else so long from now,
    /// and then one after each `interval`; only one if that is 0. A moment that has passed expires at once. A `value`
    /// of 0 disarms. Answered by `Answer::Time`, the setting before.
    /// EBADF, EINVAL if `fd` names no timer, EINVAL if `value` or `interval` is above `LAST_MOMENT`.
    SetTime {
        fd: Fd,
        absolute: bool,
        value: Span,
        interval: Span,
    },
    /// timerfd_gettime(2), answered by `Answer::Time`: the span until the next expiration, 0 if none comes, and the
    /// interval. EBADF, EINVAL if `fd` names no timer.
    GetTime {
        fd: Fd,
    },
    /// dup(2): the lowest free number names what `fd` does, without close-on-exec. Answered by `Answer::Num`.
    /// EBADF, EMFILE.
    Dup {
        fd: Fd,
    },
    /// dup2(2): the descriptor `to` names what `fd` does, without close-on-exec, and is closed first where it names
    /// something; where both are one number, nothing is done. Answered by `Answer::Num`, `to`.
    /// EBADF where `fd` names nothing, EBADF where `to` is below 0 or not below `Limits::descriptors`.
    Dup2 {
        fd: Fd,
        to: Fd,
    },
    /// close(2). What no descriptor and no parked caller names any more dies, and its registrations with it.
    /// Answered by `Answer::Done`. EBADF.
    Close {
        fd: Fd,
    },
    /// fork(2): a new process with a copy of the table, close-on-exec included. Answered by `Answer::Num`, its number.
    /// EAGAIN where `Limits::processes` are alive.
    Fork,
    /// execve(2), as far as it closes descriptors: those with close-on-exec. Answered by `Answer::Done`.
    /// EBUSY while a caller is parked in the process.
    Exec,
    /// exit(2): closes all descriptors and ends the process, whose number answers ESRCH from then on.
    /// Answered by `Answer::Done`. EBUSY while a caller is parked in the process.
    Exit,
}

impl Call {
    /// The same call once more; it can fail only for a write that lists its bytes.
    pub fn copy(&self) -> Result<Call, AllocError>
        ensures ok { IfOk result (λ copy. copy ≡ self.now) }
        ensures no_bytes { HasNoBytes self.now → IsOk result }
    {
        Ok(match self {
            Call::Write { fd, bytes } => Call::Write {
                fd: *fd,
                bytes: bytes.copy()?,
            },
            Call::Pipe { .. }
            | Call::EventFd { .. }
            | Call::TimerFd { .. }
            | Call::SocketPair { .. }
            | Call::Socket { .. }
            | Call::Plain { .. }
            | Call::EpollCreate { .. } => self.copy_of_maker(),
            Call::EpollCtl { .. }
            | Call::EpollWait { .. }
            | Call::Read { .. }
            | Call::Shutdown { .. }
            | Call::SetTime { .. }
            | Call::GetTime { .. } => self.copy_on_object(),
            Call::Peek { .. }
            | Call::TakeError { .. }
            | Call::SocketName { .. }
            | Call::Bind { .. }
            | Call::Listen { .. }
            | Call::Connect { .. }
            | Call::Accept { .. } => self.copy_on_socket(),
            Call::Dup { fd } => Call::Dup { fd: *fd },
            Call::Dup2 { fd, to } => Call::Dup2 { fd: *fd, to: *to },
            Call::Close { fd } => Call::Close { fd: *fd },
            Call::Fork => Call::Fork,
            Call::Exec => Call::Exec,
            Call::Exit => Call::Exit,
        })
    }

    /// The same call once more, of one that makes files.
    fn copy_of_maker(&self) -> Call
        requires { MakesFiles self.now }
        ensures { result ≡ self.now }
    {
        match *self {
            Call::Pipe { cloexec } => Call::Pipe { cloexec },
            Call::EventFd {
                init,
                semaphore,
                cloexec,
            } => Call::EventFd {
                init,
                semaphore,
                cloexec,
            },
            Call::TimerFd { clock, cloexec } => Call::TimerFd { clock, cloexec },
            Call::SocketPair { cloexec } => Call::SocketPair { cloexec },
            Call::Socket { family, cloexec } => Call::Socket { family, cloexec },
            Call::Plain { cloexec } => Call::Plain { cloexec },
            Call::EpollCreate { cloexec } => Call::EpollCreate { cloexec },
            _ => unreachable!(),
        }
    }

    /// The same call once more, of one that acts on an object and writes no bytes.
    fn copy_on_object(&self) -> Call
        requires { IsOnObject self.now }
        ensures { result ≡ self.now }
    {
        match *self {
            Call::EpollCtl {
                epfd,
                op,
                fd,
                mask,
                tag,
            } => Call::EpollCtl {
                epfd,
                op,
                fd,
                mask,
                tag,
            },
            Call::EpollWait { epfd, max, timeout } => Call::EpollWait { epfd, max, timeout },
            Call::Read { fd, n } => Call::Read { fd, n },
            Call::Shutdown { fd, how } => Call::Shutdown { fd, how },
            Call::SetTime {
                fd,
                absolute,
                value,
                interval,
            } => Call::SetTime {
                fd,
                absolute,
                value,
                interval,
            },
            Call::GetTime { fd } => Call::GetTime { fd },
            _ => unreachable!(),
        }
    }

    /// The same call once more, of one that a socket alone answers.
    fn copy_on_socket(&self) -> Call
        requires { IsOnSocket self.now }
        ensures { result ≡ self.now }
    {
        match *self {
            Call::Peek { fd, n } => Call::Peek { fd, n },
            Call::TakeError { fd } => Call::TakeError { fd },
            Call::SocketName { fd, peer } => Call::SocketName { fd, peer },
            Call::Bind { fd, name } => Call::Bind { fd, name },
            Call::Listen { fd, backlog } => Call::Listen { fd, backlog },
            Call::Connect { fd, name } => Call::Connect { fd, name },
            Call::Accept { fd, cloexec } => Call::Accept { fd, cloexec },
            _ => unreachable!(),
        }
    }
}

/// What is handed to the kernel: one event is one step and leaves one record.
#[derive(Drop, PartialEq, Eq)]
pub enum Event {
    /// A call of a process.
    Call { pid: Pid, call: Call },
    /// A parked caller asks whether its wait has ended: answered by `Answer::Events` where it has, and by
    /// `Answer::Still` where it has not. EINVAL where the caller is not parked.
    Resume,
    /// The clock goes on by `n`, 0 too; for everybody, whoever is parked. Answered by `Answer::Done`.
    /// EINVAL if it would pass `LAST_MOMENT`.
    Tick { n: Span },
}

impl Event {
    /// The same event once more; it can fail only for a write that lists its bytes.
    pub fn copy(&self) -> Result<Event, AllocError>
        ensures ok { IfOk result (λ copy. copy ≡ self.now) }
        ensures no_bytes { EventHasNoBytes self.now → IsOk result }
    {
        Ok(match self {
            Event::Call { pid, call } => Event::Call {
                pid: *pid,
                call: call.copy()?,
            },
            Event::Resume => Event::Resume,
            Event::Tick { n } => Event::Tick { n: *n },
        })
    }
}
