//! A guess at the call of an object that `print_record` made. Nothing is said of it.

use crate::cursor::Cursor;
use crate::digits::decoded;
use crate::guess_answer::space_in;
use ep_base::{Buffer, Call, Family, Fd, How, Mask, Name, Span, Timeout};
use std::alloc::Global;

/// A call as it stands in a line: the bytes of a write are left as their digits, since these may be many, and the rest
/// of the line may be of another form.
#[derive(Drop)]
pub(crate) enum RawCall<'a> {
    Write(Fd, &'a [u8]),
    Whole(Call),
}

impl RawCall<'_> {
    /// The call.
    #[inline(always)]
    pub(crate) fn whole(self, alloc: Global) -> Option<Call> {
        match self {
            RawCall::Write(fd, digits) => Some(Call::Write {
                fd,
                bytes: Buffer::new(decoded(alloc, digits)?),
            }),
            RawCall::Whole(call) => Some(call),
        }
    }
}

fn fd(line: &mut Cursor<'_>) -> Option<Fd> {
    Some(Fd(line.integer32()?))
}

fn settime(line: &mut Cursor<'_>) -> Option<Call> {
    let absolute = line.flag()?;
    line.expect(b",\"fd\":")?;
    let fd = fd(line)?;
    line.expect(b",\"interval\":")?;
    let interval = Span(line.natural()?);
    line.expect(b",\"op\":\"settime\",\"value\":")?;
    let value = Span(line.natural()?);
    line.expect(b"}")?;
    Some(Call::SetTime {
        fd,
        absolute,
        value,
        interval,
    })
}

fn ctl(line: &mut Cursor<'_>) -> Option<Call> {
    let op = line.integer32()?;
    line.expect(b",\"data\":")?;
    let tag = line.natural()?;
    line.expect(b",\"ep\":")?;
    let epfd = fd(line)?;
    line.expect(b",\"fd\":")?;
    let fd = fd(line)?;
    line.expect(b",\"mask\":")?;
    let mask = Mask(line.natural32()?);
    line.expect(b",\"op\":\"ctl\"}")?;
    Some(Call::EpollCtl {
        epfd,
        op,
        fd,
        mask,
        tag,
    })
}

fn timerfd(line: &mut Cursor<'_>) -> Option<Call> {
    let clock = line.integer32()?;
    line.expect(b",\"cloexec\":")?;
    let cloexec = line.flag()?;
    line.expect(b",\"op\":\"timerfd\"}")?;
    Some(Call::TimerFd { clock, cloexec })
}

fn eventfd(line: &mut Cursor<'_>, cloexec: bool) -> Option<Call> {
    let init = line.natural32()?;
    line.expect(b",\"op\":\"eventfd\",\"sem\":")?;
    let semaphore = line.flag()?;
    line.expect(b"}")?;
    Some(Call::EventFd {
        init,
        semaphore,
        cloexec,
    })
}

fn family(line: &mut Cursor<'_>) -> Option<Family> {
    match line.text()? {
        b"tcp" => Some(Family::Tcp),
        b"unix" => Some(Family::Unix),
        _ => None,
    }
}

fn socket(line: &mut Cursor<'_>, cloexec: bool) -> Option<Call> {
    let family = family(line)?;
    line.expect(b",\"op\":\"socket\"}")?;
    Some(Call::Socket { family, cloexec })
}

fn accept(line: &mut Cursor<'_>, cloexec: bool) -> Option<Call> {
    let fd = fd(line)?;
    line.expect(b",\"op\":\"accept\"}")?;
    Some(Call::Accept { fd, cloexec })
}

fn maker(line: &mut Cursor<'_>) -> Option<Call> {
    let cloexec = line.flag()?;
    if line.take(b",\"init\":") {
        return eventfd(line, cloexec);
    }
    if line.take(b",\"fd\":") {
        return accept(line, cloexec);
    }
    if line.take(b",\"family\":\"") {
        return socket(line, cloexec);
    }
    line.expect(b",\"op\":\"")?;
    let op = line.text()?;
    line.expect(b"}")?;
    match op {
        b"pipe" => Some(Call::Pipe { cloexec }),
        b"socketpair" => Some(Call::SocketPair { cloexec }),
        b"plain" => Some(Call::Plain { cloexec }),
        b"epoll" => Some(Call::EpollCreate { cloexec }),
        _ => None,
    }
}

fn wait(line: &mut Cursor<'_>) -> Option<Call> {
    let epfd = fd(line)?;
    line.expect(b",\"max\":")?;
    let max = line.integer32()?;
    line.expect(b",\"op\":\"wait\",\"timeout\":")?;
    let timeout = Timeout(line.integer()?);
    line.expect(b"}")?;
    Some(Call::EpollWait { epfd, max, timeout })
}

/// A read or a peek.
fn read(line: &mut Cursor<'_>, fd: Fd) -> Option<Call> {
    let n = line.natural32()?;
    if line.take(b",\"op\":\"read\"}") {
        return Some(Call::Read { fd, n });
    }
    line.expect(b",\"op\":\"peek\"}")?;
    Some(Call::Peek { fd, n })
}

fn write<'a>(line: &mut Cursor<'a>, fd: Fd) -> Option<RawCall<'a>> {
    let digits = line.text()?;
    line.expect(b",\"op\":\"write\"}")?;
    Some(RawCall::Write(fd, digits))
}

/// A write of one byte, so many times.
fn fill(line: &mut Cursor<'_>, fd: Fd) -> Option<Call> {
    let byte = u8::try_from(line.natural()?).ok()?;
    line.expect(b",")?;
    let count = line.natural()?;
    line.expect(b"],\"op\":\"write\"}")?;
    Some(Call::Write {
        fd,
        bytes: Buffer::filled(byte, count as usize),
    })
}

fn dup2(line: &mut Cursor<'_>, from: Fd) -> Option<Call> {
    let to = fd(line)?;
    line.expect(b"}")?;
    Some(Call::Dup2 { fd: from, to })
}

/// A call that has no more than a descriptor.
fn plain(line: &mut Cursor<'_>, fd: Fd) -> Option<Call> {
    let op = line.text()?;
    if line.take(b",\"to\":") {
        return dup2(line, fd);
    }
    line.expect(b"}")?;
    match op {
        b"shutdown" => Some(Call::Shutdown {
            fd,
            how: How::Write,
        }),
        b"gettime" => Some(Call::GetTime { fd }),
        b"dup" => Some(Call::Dup { fd }),
        b"close" => Some(Call::Close { fd }),
        b"sockname" => Some(Call::SocketName { fd, peer: false }),
        b"peername" => Some(Call::SocketName { fd, peer: true }),
        b"sockerr" => Some(Call::TakeError { fd }),
        _ => None,
    }
}

fn shutdown(line: &mut Cursor<'_>, fd: Fd) -> Option<Call> {
    let how = match line.text()? {
        b"rd" => How::Read,
        b"rdwr" => How::Both,
        _ => return None,
    };
    line.expect(b",\"op\":\"shutdown\"}")?;
    Some(Call::Shutdown { fd, how })
}

fn named(line: &mut Cursor<'_>, fd: Fd) -> Option<Call> {
    let number = line.natural32()?;
    line.expect(b",\"op\":\"")?;
    let op = line.text()?;
    line.expect(b",\"space\":\"")?;
    let space = space_in(line)?;
    line.expect(b"}")?;
    let name = Name { space, number };
    match op {
        b"bind" => Some(Call::Bind { fd, name }),
        b"connect" => Some(Call::Connect { fd, name }),
        _ => None,
    }
}

/// A call on a socket that has a word or a name. It stands apart, so that other lines don't pay for it.
#[inline(never)]
fn on_socket(line: &mut Cursor<'_>, fd: Fd) -> Option<Call> {
    if line.take(b",\"how\":\"") {
        return shutdown(line, fd);
    }
    line.expect(b",\"name\":")?;
    named(line, fd)
}

fn listen(line: &mut Cursor<'_>) -> Option<Call> {
    let backlog = line.integer32()?;
    line.expect(b",\"fd\":")?;
    let fd = fd(line)?;
    line.expect(b",\"op\":\"listen\"}")?;
    Some(Call::Listen { fd, backlog })
}

fn on_fd<'a>(line: &mut Cursor<'a>) -> Option<RawCall<'a>> {
    let fd = fd(line)?;
    if line.take(b",\"n\":") {
        return Some(RawCall::Whole(read(line, fd)?));
    }
    if line.take(b",\"hex\":\"") {
        return write(line, fd);
    }
    if line.take(b",\"fill\":[") {
        return Some(RawCall::Whole(fill(line, fd)?));
    }
    if line.take(b",\"op\":\"") {
        return Some(RawCall::Whole(plain(line, fd)?));
    }
    Some(RawCall::Whole(on_socket(line, fd)?))
}

fn bare(line: &mut Cursor<'_>) -> Option<Call> {
    let op = line.text()?;
    line.expect(b"}")?;
    match op {
        b"fork" => Some(Call::Fork),
        b"exec" => Some(Call::Exec),
        b"exit" => Some(Call::Exit),
        _ => None,
    }
}

/// The first key of a call's object tells its kind.
fn other(line: &mut Cursor<'_>) -> Option<Call> {
    if line.take(b"{\"ep\":") {
        return wait(line);
    }
    if line.take(b"{\"act\":") {
        return ctl(line);
    }
    if line.take(b"{\"cloexec\":") {
        return maker(line);
    }
    if line.take(b"{\"clock\":") {
        return timerfd(line);
    }
    if line.take(b"{\"abs\":") {
        return settime(line);
    }
    if line.take(b"{\"backlog\":") {
        return listen(line);
    }
    line.expect(b"{\"op\":\"")?;
    bare(line)
}

/// The call that seems to come next.
pub(crate) fn guess_call<'a>(line: &mut Cursor<'a>) -> Option<RawCall<'a>> {
    if line.take(b"{\"fd\":") {
        return on_fd(line);
    }
    Some(RawCall::Whole(other(line)?))
}
