//! The calls, each with the values of its keys.
ghost use Rattle.std.specs.Prelude.{◌≡◌, IfOk};
ghost use Rattle.ep_text.specs.Calls.{close_call, ctl_call, dup2_call, dup_call, epoll_call, eventfd_call};
ghost use Rattle.ep_text.specs.Calls.{gettime_call, pipe_call, plain_call, read_call, settime_call};
ghost use Rattle.ep_text.specs.Calls.{socketpair_call, timerfd_call, wait_call, write_call};
ghost use Rattle.ep_text.specs.Ops.{call_of};
ghost use Rattle.ep_text.specs.Source.{source_data};

use crate::bytes::bytes_in;
use crate::fields::{flag, required_i32, required_i64, required_u32, required_u64, u64_or};
use crate::key::Key;
use crate::masks::{mask_or_empty, required_operation};
use crate::op::CallOp;
use crate::reason::Reason;
use crate::sockets::{call_of_socket, shutdown_call};
use crate::source::Source;
use ep_base::{Call, Fd, Span, Timeout};
use std::alloc::{AllocError, Global};

fn pipe_call(value: &Source<'_>) -> Result<Call, Reason>
    ensures { result ≡ pipe_call (source_data value.now) }
{
    let cloexec = flag(value, Key::Cloexec)?;
    Ok(Call::Pipe { cloexec })
}

fn socketpair_call(value: &Source<'_>) -> Result<Call, Reason>
    ensures { result ≡ socketpair_call (source_data value.now) }
{
    let cloexec = flag(value, Key::Cloexec)?;
    Ok(Call::SocketPair { cloexec })
}

fn plain_call(value: &Source<'_>) -> Result<Call, Reason>
    ensures { result ≡ plain_call (source_data value.now) }
{
    let cloexec = flag(value, Key::Cloexec)?;
    Ok(Call::Plain { cloexec })
}

fn epoll_call(value: &Source<'_>) -> Result<Call, Reason>
    ensures { result ≡ epoll_call (source_data value.now) }
{
    let cloexec = flag(value, Key::Cloexec)?;
    Ok(Call::EpollCreate { cloexec })
}

fn eventfd_call(value: &Source<'_>) -> Result<Call, Reason>
    ensures { result ≡ eventfd_call (source_data value.now) }
{
    let init = required_u32(value, Key::Init)?;
    let semaphore = flag(value, Key::Sem)?;
    let cloexec = flag(value, Key::Cloexec)?;
    Ok(Call::EventFd {
        init,
        semaphore,
        cloexec,
    })
}

fn timerfd_call(value: &Source<'_>) -> Result<Call, Reason>
    ensures { result ≡ timerfd_call (source_data value.now) }
{
    let clock = required_i32(value, Key::Clock)?;
    let cloexec = flag(value, Key::Cloexec)?;
    Ok(Call::TimerFd { clock, cloexec })
}

fn ctl_call(value: &Source<'_>) -> Result<Call, Reason>
    ensures { result ≡ ctl_call (source_data value.now) }
{
    let epfd = Fd(required_i32(value, Key::Ep)?);
    let fd = Fd(required_i32(value, Key::Fd)?);
    let op = required_operation(value)?;
    let mask = mask_or_empty(value)?;
    let tag = u64_or(value, Key::Data, 0)?;
    Ok(Call::EpollCtl {
        epfd,
        op,
        fd,
        mask,
        tag,
    })
}

fn wait_call(value: &Source<'_>) -> Result<Call, Reason>
    ensures { result ≡ wait_call (source_data value.now) }
{
    let epfd = Fd(required_i32(value, Key::Ep)?);
    let max = required_i32(value, Key::Max)?;
    let timeout = required_i64(value, Key::Timeout)?;
    Ok(Call::EpollWait {
        epfd,
        max,
        timeout: Timeout(timeout),
    })
}

fn read_call(value: &Source<'_>) -> Result<Call, Reason>
    ensures { result ≡ read_call (source_data value.now) }
{
    let fd = Fd(required_i32(value, Key::Fd)?);
    let n = required_u32(value, Key::N)?;
    Ok(Call::Read { fd, n })
}

fn write_call(alloc: Global, value: &Source<'_>) -> Result<Result<Call, Reason>, AllocError>
    ensures { IfOk result (λ c. c ≡ write_call (source_data value.now)) }
{
    let fd = match required_i32(value, Key::Fd) {
        Ok(fd) => fd,
        Err(reason) => return Ok(Err(reason)),
    };
    match bytes_in(alloc, value)? {
        Ok(bytes) => Ok(Ok(Call::Write { fd: Fd(fd), bytes })),
        Err(reason) => Ok(Err(reason)),
    }
}

fn gettime_call(value: &Source<'_>) -> Result<Call, Reason>
    ensures { result ≡ gettime_call (source_data value.now) }
{
    let fd = Fd(required_i32(value, Key::Fd)?);
    Ok(Call::GetTime { fd })
}

fn settime_call(line: &Source<'_>) -> Result<Call, Reason>
    ensures { result ≡ settime_call (source_data line.now) }
{
    let fd = Fd(required_i32(line, Key::Fd)?);
    let value = required_u64(line, Key::Value)?;
    let interval = u64_or(line, Key::Interval, 0)?;
    let absolute = flag(line, Key::Abs)?;
    Ok(Call::SetTime {
        fd,
        absolute,
        value: Span(value),
        interval: Span(interval),
    })
}

fn dup_call(value: &Source<'_>) -> Result<Call, Reason>
    ensures { result ≡ dup_call (source_data value.now) }
{
    let fd = Fd(required_i32(value, Key::Fd)?);
    Ok(Call::Dup { fd })
}

fn dup2_call(value: &Source<'_>) -> Result<Call, Reason>
    ensures { result ≡ dup2_call (source_data value.now) }
{
    let fd = Fd(required_i32(value, Key::Fd)?);
    let to = Fd(required_i32(value, Key::To)?);
    Ok(Call::Dup2 { fd, to })
}

fn close_call(value: &Source<'_>) -> Result<Call, Reason>
    ensures { result ≡ close_call (source_data value.now) }
{
    let fd = Fd(required_i32(value, Key::Fd)?);
    Ok(Call::Close { fd })
}

/// The call of an operation, or why there is none: its first key that is missing or has a wrong value.
pub(crate) fn call_of(
    alloc: Global,
    op: CallOp,
    value: &Source<'_>,
) -> Result<Result<Call, Reason>, AllocError>
    ensures { IfOk result (λ c. c ≡ call_of op (source_data value.now)) }
{
    match op {
        CallOp::Pipe => Ok(pipe_call(value)),
        CallOp::SocketPair => Ok(socketpair_call(value)),
        CallOp::Plain => Ok(plain_call(value)),
        CallOp::Epoll => Ok(epoll_call(value)),
        CallOp::EventFd => Ok(eventfd_call(value)),
        CallOp::TimerFd => Ok(timerfd_call(value)),
        CallOp::Ctl => Ok(ctl_call(value)),
        CallOp::Wait => Ok(wait_call(value)),
        CallOp::Read => Ok(read_call(value)),
        CallOp::Write => write_call(alloc, value),
        CallOp::Shutdown => Ok(shutdown_call(value)),
        CallOp::GetTime => Ok(gettime_call(value)),
        CallOp::SetTime => Ok(settime_call(value)),
        CallOp::Dup => Ok(dup_call(value)),
        CallOp::Dup2 => Ok(dup2_call(value)),
        CallOp::Close => Ok(close_call(value)),
        CallOp::Fork => Ok(Ok(Call::Fork)),
        CallOp::Exec => Ok(Ok(Call::Exec)),
        CallOp::Exit => Ok(Ok(Call::Exit)),
        CallOp::Socket
        | CallOp::Bind
        | CallOp::Listen
        | CallOp::Connect
        | CallOp::Accept
        | CallOp::Peek
        | CallOp::SockName
        | CallOp::PeerName
        | CallOp::SockErr => Ok(call_of_socket(op, value)),
    }
}
