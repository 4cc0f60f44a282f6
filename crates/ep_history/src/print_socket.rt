//! A call that only sockets have to the text of its object.
ghost use Rattle.std.specs.Prelude.{◌≡◌, ◌<◌, ◌^◌, ◌++◌, OnOk, codes, decimal};
ghost use Rattle.serde_json.specs.Written.{compact_text};
ghost use Rattle.ep_base.specs.Call.{IsOnSocket};
ghost use Rattle.ep_base.specs.declared.call.Call.TheVariants.{Accept, Bind, Connect, Listen, Peek, Shutdown, Socket};
ghost use Rattle.ep_history.specs.Calls.{call_data};
ghost use Rattle.ep_history.specs.Fields.{integer};
ghost use Rattle.ep_history.specs.Fits.{CallFits, FdFits};

use crate::print_call::{push_cloexec, push_fd};
use crate::push::{push_descriptor, push_flag, push_integer, push_natural};
use ep_base::{Call, Family, Fd, How, Name, Space};
use std::alloc::AllocError;

/// Puts a shutdown(2). What goes out is shut if nothing says otherwise.
#[inline(never)]
#[tactic(auto, unfolding(json::specs::Print::escape_byte))]
pub(crate) fn push_shutdown(out: &mut Vec<u8>, fd: Fd, how: How) -> Result<(), AllocError>
    ensures text { OnOk result (out.new.items
        ≡ out.old.items ++ compact_text (call_data (Shutdown fd how))) }
    ensures fits { OnOk result (CallFits (Shutdown fd how)) }
{
    match how {
        How::Write => push_fd(out, fd, b",\"op\":\"shutdown\"}"),
        How::Read => push_fd(out, fd, b",\"how\":\"rd\",\"op\":\"shutdown\"}"),
        How::Both => push_fd(out, fd, b",\"how\":\"rdwr\",\"op\":\"shutdown\"}"),
    }
}

#[inline(never)]
#[tactic(auto, unfolding(json::specs::Print::escape_byte))]
pub(crate) fn push_socket(
    out: &mut Vec<u8>,
    family: Family,
    cloexec: bool,
) -> Result<(), AllocError>
    ensures text { OnOk result (out.new.items
        ≡ out.old.items ++ compact_text (call_data (Socket family cloexec))) }
    ensures fits { OnOk result (CallFits (Socket family cloexec)) }
{
    match family {
        Family::Tcp => push_cloexec(out, cloexec, b",\"family\":\"tcp\",\"op\":\"socket\"}"),
        Family::Unix => push_cloexec(out, cloexec, b",\"family\":\"unix\",\"op\":\"socket\"}"),
    }
}

fn push_peek(out: &mut Vec<u8>, fd: Fd, n: u32) -> Result<(), AllocError>
    ensures text { OnOk result (out.new.items
        ≡ out.old.items ++ compact_text (call_data (Peek fd n))) }
    ensures fits { OnOk result (CallFits (Peek fd n)) }
{
    push_descriptor(out, b"{\"fd\":", fd)?;
    push_natural(out, b",\"n\":", u64::from(n))?;
    out.extend_from_slice(b",\"op\":\"peek\"}")?;
    Ok(())
}

/// Puts an object with this descriptor, this number of a name and the text behind them.
fn push_number(out: &mut Vec<u8>, fd: Fd, number: u32, rest: &[u8]) -> Result<(), AllocError>
    ensures text { OnOk result (out.new.items
        ≡ out.old.items ++ (codes "{\"fd\":" ++ (compact_text (integer fd.0) ++ (codes ",\"name\":" ++ (decimal number ++ rest.now))))) }
    ensures descriptor { OnOk result (FdFits fd) }
    ensures number { OnOk result (number < 2 ^ 32) }
{
    push_descriptor(out, b"{\"fd\":", fd)?;
    push_natural(out, b",\"name\":", u64::from(number))?;
    out.extend_from_slice(rest)?;
    Ok(())
}

#[tactic(auto, unfolding(json::specs::Print::escape_byte))]
fn push_bind(out: &mut Vec<u8>, fd: Fd, name: Name) -> Result<(), AllocError>
    ensures text { OnOk result (out.new.items
        ≡ out.old.items ++ compact_text (call_data (Bind fd name))) }
    ensures fits { OnOk result (CallFits (Bind fd name)) }
{
    let number = name.number;
    match name.space {
        Space::V4 => push_number(out, fd, number, b",\"op\":\"bind\",\"space\":\"v4\"}"),
        Space::V6 => push_number(out, fd, number, b",\"op\":\"bind\",\"space\":\"v6\"}"),
        Space::Local => push_number(out, fd, number, b",\"op\":\"bind\",\"space\":\"local\"}"),
    }
}

#[tactic(auto, unfolding(json::specs::Print::escape_byte))]
fn push_connect(out: &mut Vec<u8>, fd: Fd, name: Name) -> Result<(), AllocError>
    ensures text { OnOk result (out.new.items
        ≡ out.old.items ++ compact_text (call_data (Connect fd name))) }
    ensures fits { OnOk result (CallFits (Connect fd name)) }
{
    let number = name.number;
    match name.space {
        Space::V4 => push_number(out, fd, number, b",\"op\":\"connect\",\"space\":\"v4\"}"),
        Space::V6 => push_number(out, fd, number, b",\"op\":\"connect\",\"space\":\"v6\"}"),
        Space::Local => push_number(out, fd, number, b",\"op\":\"connect\",\"space\":\"local\"}"),
    }
}

fn push_listen(out: &mut Vec<u8>, fd: Fd, backlog: i32) -> Result<(), AllocError>
    ensures text { OnOk result (out.new.items
        ≡ out.old.items ++ compact_text (call_data (Listen fd backlog))) }
    ensures fits { OnOk result (CallFits (Listen fd backlog)) }
{
    push_integer(out, b"{\"backlog\":", i64::from(backlog))?;
    push_descriptor(out, b",\"fd\":", fd)?;
    out.extend_from_slice(b",\"op\":\"listen\"}")?;
    Ok(())
}

fn push_accept(out: &mut Vec<u8>, fd: Fd, cloexec: bool) -> Result<(), AllocError>
    ensures text { OnOk result (out.new.items
        ≡ out.old.items ++ compact_text (call_data (Accept fd cloexec))) }
    ensures fits { OnOk result (CallFits (Accept fd cloexec)) }
{
    push_flag(out, b"{\"cloexec\":", cloexec)?;
    push_descriptor(out, b",\"fd\":", fd)?;
    out.extend_from_slice(b",\"op\":\"accept\"}")?;
    Ok(())
}

/// Puts a call that only sockets answer. It stands apart, so that other calls don't pay for it.
#[cold]
#[inline(never)]
#[tactic(auto, unfolding(json::specs::Print::escape_byte))]
pub(crate) fn push_on_socket(out: &mut Vec<u8>, call: &Call) -> Result<(), AllocError>
    requires { IsOnSocket call.now }
    ensures text { OnOk result (out.new.items
        ≡ out.old.items ++ compact_text (call_data call.now)) }
    ensures fits { OnOk result (CallFits call.now) }
{
    match call {
        Call::Peek { fd, n } => push_peek(out, *fd, *n),
        Call::TakeError { fd } => push_fd(out, *fd, b",\"op\":\"sockerr\"}"),
        Call::SocketName { fd, peer: false } => push_fd(out, *fd, b",\"op\":\"sockname\"}"),
        Call::SocketName { fd, peer: true } => push_fd(out, *fd, b",\"op\":\"peername\"}"),
        Call::Bind { fd, name } => push_bind(out, *fd, *name),
        Call::Listen { fd, backlog } => push_listen(out, *fd, *backlog),
        Call::Connect { fd, name } => push_connect(out, *fd, *name),
        Call::Accept { fd, cloexec } => push_accept(out, *fd, *cloexec),
        _ => unreachable!(),
    }
}
