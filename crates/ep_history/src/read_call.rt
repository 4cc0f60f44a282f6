//! A call from its object.
ghost use Rattle.std.specs.Prelude.{◌≡◌, IfOk, option_map};
ghost use Rattle.serde_json.specs.View.{view};
ghost use Rattle.ep_history.specs.Calls.{call_of, close_call, ctl_call, dup2_call, dup_call, epoll_call};
ghost use Rattle.ep_history.specs.Calls.{eventfd_call, gettime_call, other_operations, operations, pipe_call};
ghost use Rattle.ep_history.specs.Calls.{plain_call, read_call, settime_call, socketpair_call, timerfd_call};
ghost use Rattle.ep_history.specs.Calls.{wait_call, write_call};
ghost use Rattle.ep_history.specs.Calls.{call_data, of_shutdown};
ghost use Rattle.ep_history.specs.Fields.{named, size};

use crate::bytes::written;
use crate::fields::{required_flag, required_i32, required_i64, required_u32, required_u64, size};
use crate::read_socket::{call_of_socket, shutdown_call};
use ep_base::{Call, Fd, How, Mask, Span, Timeout};
use serde_json::Value;
use std::alloc::{AllocError, Global};

fn pipe_call(value: &Value) -> Option<Call>
    ensures { result ≡ pipe_call (view value.now) }
{
    let cloexec = required_flag(value, "cloexec")?;
    Some(Call::Pipe { cloexec })
}

fn socketpair_call(value: &Value) -> Option<Call>
    ensures { result ≡ socketpair_call (view value.now) }
{
    let cloexec = required_flag(value, "cloexec")?;
    Some(Call::SocketPair { cloexec })
}

fn plain_call(value: &Value) -> Option<Call>
    ensures { result ≡ plain_call (view value.now) }
{
    let cloexec = required_flag(value, "cloexec")?;
    Some(Call::Plain { cloexec })
}

fn epoll_call(value: &Value) -> Option<Call>
    ensures { result ≡ epoll_call (view value.now) }
{
    let cloexec = required_flag(value, "cloexec")?;
    Some(Call::EpollCreate { cloexec })
}

fn eventfd_call(value: &Value) -> Option<Call>
    ensures { result ≡ eventfd_call (view value.now) }
{
    let init = required_u32(value, "init")?;
    let semaphore = required_flag(value, "sem")?;
    let cloexec = required_flag(value, "cloexec")?;
    Some(Call::EventFd {
        init,
        semaphore,
        cloexec,
    })
}

fn timerfd_call(value: &Value) -> Option<Call>
    ensures { result ≡ timerfd_call (view value.now) }
{
    let clock = required_i32(value, "clock")?;
    let cloexec = required_flag(value, "cloexec")?;
    Some(Call::TimerFd { clock, cloexec })
}

fn ctl_call(value: &Value) -> Option<Call>
    ensures { result ≡ ctl_call (view value.now) }
{
    let epfd = Fd(required_i32(value, "ep")?);
    let op = required_i32(value, "act")?;
    let fd = Fd(required_i32(value, "fd")?);
    let mask = Mask(required_u32(value, "mask")?);
    let tag = required_u64(value, "data")?;
    Some(Call::EpollCtl {
        epfd,
        op,
        fd,
        mask,
        tag,
    })
}

fn wait_call(value: &Value) -> Option<Call>
    ensures { result ≡ wait_call (view value.now) }
{
    let epfd = Fd(required_i32(value, "ep")?);
    let max = required_i32(value, "max")?;
    let timeout = Timeout(required_i64(value, "timeout")?);
    Some(Call::EpollWait { epfd, max, timeout })
}

fn read_call(value: &Value) -> Option<Call>
    ensures { result ≡ read_call (view value.now) }
{
    let fd = Fd(required_i32(value, "fd")?);
    let n = required_u32(value, "n")?;
    Some(Call::Read { fd, n })
}

fn write_call(alloc: Global, value: &Value) -> Result<Option<Call>, AllocError>
    ensures { IfOk result (λ c. c ≡ write_call (view value.now)) }
{
    let Some(fd) = required_i32(value, "fd") else {
        return Ok(None);
    };
    let Some(bytes) = written(alloc, value)? else {
        return Ok(None);
    };
    Ok(Some(Call::Write { fd: Fd(fd), bytes }))
}

fn settime_call(line: &Value) -> Option<Call>
    ensures { result ≡ settime_call (view line.now) }
{
    let fd = Fd(required_i32(line, "fd")?);
    let absolute = required_flag(line, "abs")?;
    let value = Span(required_u64(line, "value")?);
    let interval = Span(required_u64(line, "interval")?);
    Some(Call::SetTime {
        fd,
        absolute,
        value,
        interval,
    })
}

fn gettime_call(value: &Value) -> Option<Call>
    ensures { result ≡ gettime_call (view value.now) }
{
    let fd = Fd(required_i32(value, "fd")?);
    Some(Call::GetTime { fd })
}

fn dup_call(value: &Value) -> Option<Call>
    ensures { result ≡ dup_call (view value.now) }
{
    let fd = Fd(required_i32(value, "fd")?);
    Some(Call::Dup { fd })
}

fn dup2_call(value: &Value) -> Option<Call>
    ensures { result ≡ dup2_call (view value.now) }
{
    let fd = Fd(required_i32(value, "fd")?);
    let to = Fd(required_i32(value, "to")?);
    Some(Call::Dup2 { fd, to })
}

fn close_call(value: &Value) -> Option<Call>
    ensures { result ≡ close_call (view value.now) }
{
    let fd = Fd(required_i32(value, "fd")?);
    Some(Call::Close { fd })
}

/// A call of another operation than `write`.
fn other_call(op: &str, value: &Value) -> Option<Call>
    ensures { result ≡ named other_operations op.now (view value.now) }
{
    match op {
        "pipe" => pipe_call(value),
        "socketpair" => socketpair_call(value),
        "plain" => plain_call(value),
        "epoll" => epoll_call(value),
        "eventfd" => eventfd_call(value),
        "timerfd" => timerfd_call(value),
        "ctl" => ctl_call(value),
        "wait" => wait_call(value),
        "read" => read_call(value),
        "shutdown" => shutdown_call(value),
        "settime" => settime_call(value),
        "gettime" => gettime_call(value),
        "dup" => dup_call(value),
        "dup2" => dup2_call(value),
        "close" => close_call(value),
        "fork" => Some(Call::Fork),
        "exec" => Some(Call::Exec),
        "exit" => Some(Call::Exit),
        _ => call_of_socket(op, value),
    }
}

fn operation(alloc: Global, op: &str, value: &Value) -> Result<Option<Call>, AllocError>
    ensures { IfOk result (λ c. c ≡ named operations op.now (view value.now)) }
{
    match op {
        "write" => write_call(alloc, value),
        _ => Ok(other_call(op, value)),
    }
}

/// How many members the object of a shutdown(2) has.
fn shutdown_size(fd: Fd, how: How) -> usize
    ensures { result ≡ size (of_shutdown fd.0 how) }
{
    match how {
        How::Write => 2,
        How::Read => 3,
        How::Both => 3,
    }
}

/// How many members the object of a call has.
fn call_size(call: &Call) -> usize
    ensures { result ≡ size (call_data call.now) }
{
    match call {
        Call::Fork | Call::Exec | Call::Exit => 1,
        Call::Pipe { .. } | Call::SocketPair { .. } | Call::Plain { .. } => 2,
        Call::EpollCreate { .. } | Call::GetTime { .. } => 2,
        Call::Dup { .. } | Call::Close { .. } => 2,
        Call::TakeError { .. } | Call::SocketName { .. } => 2,
        Call::Shutdown { fd, how } => shutdown_size(*fd, *how),
        Call::TimerFd { .. } | Call::Read { .. } | Call::Write { .. } | Call::Dup2 { .. } => 3,
        Call::Socket { .. } | Call::Peek { .. } | Call::Listen { .. } | Call::Accept { .. } => 3,
        Call::EventFd { .. } | Call::EpollWait { .. } => 4,
        Call::Bind { .. } | Call::Connect { .. } => 4,
        Call::SetTime { .. } => 5,
        Call::EpollCtl { .. } => 6,
    }
}

/// The call of an object, or `None` if it is no object of a call.
pub(crate) fn call_of(alloc: Global, value: &Value) -> Result<Option<Call>, AllocError>
    ensures { IfOk result (λ c. c ≡ call_of (view value.now)) }
{
    let Some(op) = value.get("op").and_then(Value::as_str) else {
        return Ok(None);
    };
    let Some(call) = operation(alloc, op, value)? else {
        return Ok(None);
    };
    if size(value) != call_size(&call) {
        return Ok(None);
    }
    Ok(Some(call))
}
