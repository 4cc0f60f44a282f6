//! A call to the text of its object.
ghost use Rattle.std.specs.Prelude.{◌≡◌, ◌++◌, OnOk, codes};
ghost use Rattle.serde_json.specs.Data.{boolean};
ghost use Rattle.serde_json.specs.Written.{compact_text};
ghost use Rattle.ep_base.specs.declared.call.Call.TheVariants.{Dup2, EpollCtl, EpollWait, EventFd, Read, SetTime, TimerFd};
ghost use Rattle.ep_history.specs.Calls.{call_data};
ghost use Rattle.ep_history.specs.Fields.{integer};
ghost use Rattle.ep_history.specs.Fits.{CallFits, FdFits};

use crate::print_socket::{push_on_socket, push_shutdown, push_socket};
use crate::print_write::push_write;
use crate::push::{push_descriptor, push_flag, push_integer, push_natural};
use ep_base::{Call, Fd, Mask, Span, Timeout};
use std::alloc::AllocError;

/// Puts an object with this flag and the text behind it.
pub(crate) fn push_cloexec(out: &mut Vec<u8>, cloexec: bool, rest: &[u8]) -> Result<(), AllocError>
    ensures { OnOk result (out.new.items
        ≡ out.old.items ++ (codes "{\"cloexec\":" ++ (compact_text (boolean cloexec) ++ rest.now))) }
{
    push_flag(out, b"{\"cloexec\":", cloexec)?;
    out.extend_from_slice(rest)?;
    Ok(())
}

/// Puts an object with this descriptor and the text behind it.
pub(crate) fn push_fd(out: &mut Vec<u8>, fd: Fd, rest: &[u8]) -> Result<(), AllocError>
    ensures text { OnOk result (out.new.items
        ≡ out.old.items ++ (codes "{\"fd\":" ++ (compact_text (integer fd.0) ++ rest.now))) }
    ensures fits { OnOk result (FdFits fd) }
{
    push_descriptor(out, b"{\"fd\":", fd)?;
    out.extend_from_slice(rest)?;
    Ok(())
}

fn push_eventfd(
    out: &mut Vec<u8>,
    init: u32,
    semaphore: bool,
    cloexec: bool,
) -> Result<(), AllocError>
    ensures text { OnOk result (out.new.items
        ≡ out.old.items ++ compact_text (call_data (EventFd init semaphore cloexec))) }
    ensures fits { OnOk result (CallFits (EventFd init semaphore cloexec)) }
{
    push_flag(out, b"{\"cloexec\":", cloexec)?;
    push_natural(out, b",\"init\":", u64::from(init))?;
    push_flag(out, b",\"op\":\"eventfd\",\"sem\":", semaphore)?;
    out.push(b'}')?;
    Ok(())
}

fn push_timerfd(out: &mut Vec<u8>, clock: i32, cloexec: bool) -> Result<(), AllocError>
    ensures text { OnOk result (out.new.items
        ≡ out.old.items ++ compact_text (call_data (TimerFd clock cloexec))) }
    ensures fits { OnOk result (CallFits (TimerFd clock cloexec)) }
{
    push_integer(out, b"{\"clock\":", i64::from(clock))?;
    push_flag(out, b",\"cloexec\":", cloexec)?;
    out.extend_from_slice(b",\"op\":\"timerfd\"}")?;
    Ok(())
}

fn push_ctl(
    out: &mut Vec<u8>,
    epfd: Fd,
    op: i32,
    fd: Fd,
    mask: Mask,
    tag: u64,
) -> Result<(), AllocError>
    ensures text { OnOk result (out.new.items
        ≡ out.old.items ++ compact_text (call_data (EpollCtl epfd op fd mask tag))) }
    ensures fits { OnOk result (CallFits (EpollCtl epfd op fd mask tag)) }
{
    push_integer(out, b"{\"act\":", i64::from(op))?;
    push_natural(out, b",\"data\":", tag)?;
    push_descriptor(out, b",\"ep\":", epfd)?;
    push_descriptor(out, b",\"fd\":", fd)?;
    push_natural(out, b",\"mask\":", u64::from(mask.0))?;
    out.extend_from_slice(b",\"op\":\"ctl\"}")?;
    Ok(())
}

fn push_wait(out: &mut Vec<u8>, epfd: Fd, max: i32, timeout: Timeout) -> Result<(), AllocError>
    ensures text { OnOk result (out.new.items
        ≡ out.old.items ++ compact_text (call_data (EpollWait epfd max timeout))) }
    ensures fits { OnOk result (CallFits (EpollWait epfd max timeout)) }
{
    push_descriptor(out, b"{\"ep\":", epfd)?;
    push_integer(out, b",\"max\":", i64::from(max))?;
    push_integer(out, b",\"op\":\"wait\",\"timeout\":", timeout.0)?;
    out.push(b'}')?;
    Ok(())
}

fn push_read(out: &mut Vec<u8>, fd: Fd, n: u32) -> Result<(), AllocError>
    ensures text { OnOk result (out.new.items
        ≡ out.old.items ++ compact_text (call_data (Read fd n))) }
    ensures fits { OnOk result (CallFits (Read fd n)) }
{
    push_descriptor(out, b"{\"fd\":", fd)?;
    push_natural(out, b",\"n\":", u64::from(n))?;
    out.extend_from_slice(b",\"op\":\"read\"}")?;
    Ok(())
}

fn push_settime(
    out: &mut Vec<u8>,
    fd: Fd,
    absolute: bool,
    value: Span,
    interval: Span,
) -> Result<(), AllocError>
    ensures text { OnOk result (out.new.items
        ≡ out.old.items ++ compact_text (call_data (SetTime fd absolute value interval))) }
    ensures fits { OnOk result (CallFits (SetTime fd absolute value interval)) }
{
    push_flag(out, b"{\"abs\":", absolute)?;
    push_descriptor(out, b",\"fd\":", fd)?;
    push_natural(out, b",\"interval\":", interval.0)?;
    push_natural(out, b",\"op\":\"settime\",\"value\":", value.0)?;
    out.push(b'}')?;
    Ok(())
}

fn push_dup2(out: &mut Vec<u8>, fd: Fd, to: Fd) -> Result<(), AllocError>
    ensures text { OnOk result (out.new.items
        ≡ out.old.items ++ compact_text (call_data (Dup2 fd to))) }
    ensures fits { OnOk result (CallFits (Dup2 fd to)) }
{
    push_descriptor(out, b"{\"fd\":", fd)?;
    push_descriptor(out, b",\"op\":\"dup2\",\"to\":", to)?;
    out.push(b'}')?;
    Ok(())
}

/// Puts the object of a call.
#[tactic(auto, unfolding(json::specs::Print::escape_byte))]
pub(crate) fn push_call(out: &mut Vec<u8>, call: &Call) -> Result<(), AllocError>
    ensures text { OnOk result (out.new.items
        ≡ out.old.items ++ compact_text (call_data call.now)) }
    ensures fits { OnOk result (CallFits call.now) }
{
    match call {
        Call::Pipe { cloexec } => push_cloexec(out, *cloexec, b",\"op\":\"pipe\"}"),
        Call::SocketPair { cloexec } => push_cloexec(out, *cloexec, b",\"op\":\"socketpair\"}"),
        Call::Plain { cloexec } => push_cloexec(out, *cloexec, b",\"op\":\"plain\"}"),
        Call::EpollCreate { cloexec } => push_cloexec(out, *cloexec, b",\"op\":\"epoll\"}"),
        Call::EventFd {
            init,
            semaphore,
            cloexec,
        } => push_eventfd(out, *init, *semaphore, *cloexec),
        Call::TimerFd { clock, cloexec } => push_timerfd(out, *clock, *cloexec),
        Call::EpollCtl {
            epfd,
            op,
            fd,
            mask,
            tag,
        } => push_ctl(out, *epfd, *op, *fd, *mask, *tag),
        Call::EpollWait { epfd, max, timeout } => push_wait(out, *epfd, *max, *timeout),
        Call::Read { fd, n } => push_read(out, *fd, *n),
        Call::Write { fd, bytes } => push_write(out, *fd, bytes),
        Call::Shutdown { fd, how } => push_shutdown(out, *fd, *how),
        Call::Socket { family, cloexec } => push_socket(out, *family, *cloexec),
        Call::Peek { .. }
        | Call::TakeError { .. }
        | Call::SocketName { .. }
        | Call::Bind { .. }
        | Call::Listen { .. }
        | Call::Connect { .. }
        | Call::Accept { .. } => push_on_socket(out, call),
        Call::SetTime {
            fd,
            absolute,
            value,
            interval,
        } => push_settime(out, *fd, *absolute, *value, *interval),
        Call::GetTime { fd } => push_fd(out, *fd, b",\"op\":\"gettime\"}"),
        Call::Dup { fd } => push_fd(out, *fd, b",\"op\":\"dup\"}"),
        Call::Dup2 { fd, to } => push_dup2(out, *fd, *to),
        Call::Close { fd } => push_fd(out, *fd, b",\"op\":\"close\"}"),
        Call::Fork => out.extend_from_slice(b"{\"op\":\"fork\"}"),
        Call::Exec => out.extend_from_slice(b"{\"op\":\"exec\"}"),
        Call::Exit => out.extend_from_slice(b"{\"op\":\"exit\"}"),
    }
}
