//! The calls of sockets, each with the values of its keys, and the words of these values.
ghost use Rattle.std.specs.Prelude.{◌≡◌};
ghost use Rattle.ep_text.specs.Keys.{optional, required};
ghost use Rattle.ep_text.specs.Ops.{IsOfSocket, call_of};
ghost use Rattle.ep_text.specs.SocketCalls.{accept_call, bind_call, connect_call, listen_call, peek_call};
ghost use Rattle.ep_text.specs.SocketCalls.{peername_call, shutdown_call, sockerr_call, socket_call};
ghost use Rattle.ep_text.specs.SocketCalls.{sockname_call};
ghost use Rattle.ep_text.specs.Sockets.{family, family_value, how, how_value, name_in, number_in, port};
ghost use Rattle.ep_text.specs.Sockets.{port_value, space, space_text, space_value};
ghost use Rattle.ep_text.specs.Source.{found_data, source_data};

use crate::fields::{fit, flag, required_i32, required_u32};
use crate::key::Key;
use crate::op::CallOp;
use crate::reason::Reason;
use crate::source::{Found, Source};
use crate::value_kind::ValueKind;
use ep_base::{Call, Family, Fd, How, Name, Space};

/// The greatest port.
const LAST_PORT: u64 = 65_535;

/// The word for a space.
pub(crate) fn space_word(space: Space) -> &'static str
    ensures { result.now ≡ space_text space }
{
    match space {
        Space::V4 => "v4",
        Space::V6 => "v6",
        Space::Local => "local",
    }
}

fn how_value(value: &Found<'_>) -> Option<How>
    ensures { result ≡ how_value (found_data value.now) }
{
    match value.as_str()? {
        "rd" => Some(How::Read),
        "wr" => Some(How::Write),
        "rdwr" => Some(How::Both),
        _ => None,
    }
}

fn family_value(value: &Found<'_>) -> Option<Family>
    ensures { result ≡ family_value (found_data value.now) }
{
    match value.as_str()? {
        "tcp" => Some(Family::Tcp),
        "unix" => Some(Family::Unix),
        _ => None,
    }
}

fn space_value(value: &Found<'_>) -> Option<Space>
    ensures { result ≡ space_value (found_data value.now) }
{
    match value.as_str()? {
        "v4" => Some(Space::V4),
        "v6" => Some(Space::V6),
        "local" => Some(Space::Local),
        _ => None,
    }
}

fn port_value(value: &Found<'_>) -> Option<u32>
    ensures { result ≡ port_value (found_data value.now) }
{
    let port = value.as_u64()?;
    if port <= LAST_PORT {
        Some(port as u32)
    } else {
        None
    }
}

/// What is shut: what goes out, if the key is left out.
fn how_or_write(line: &Source<'_>) -> Result<How, Reason>
    ensures { result ≡ optional how How.Write Key.How (source_data line.now) }
{
    match line.get(Key::How) {
        None => Ok(How::Write),
        Some(value) => fit(how_value(&value), &value, Key::How, ValueKind::How),
    }
}

fn required_family(line: &Source<'_>) -> Result<Family, Reason>
    ensures { result ≡ required family Key.Family (source_data line.now) }
{
    match line.get(Key::Family) {
        None => Err(Reason::Missing(Key::Family)),
        Some(value) => fit(family_value(&value), &value, Key::Family, ValueKind::Family),
    }
}

fn required_space(line: &Source<'_>) -> Result<Space, Reason>
    ensures { result ≡ required space Key.Space (source_data line.now) }
{
    match line.get(Key::Space) {
        None => Err(Reason::Missing(Key::Space)),
        Some(value) => fit(space_value(&value), &value, Key::Space, ValueKind::Space),
    }
}

fn required_port(line: &Source<'_>) -> Result<u32, Reason>
    ensures { result ≡ required port Key.Name (source_data line.now) }
{
    match line.get(Key::Name) {
        None => Err(Reason::Missing(Key::Name)),
        Some(value) => fit(port_value(&value), &value, Key::Name, ValueKind::Port),
    }
}

/// The number of a name: a port, or in the space of Unix sockets any number.
fn required_number(line: &Source<'_>, space: Space) -> Result<u32, Reason>
    ensures { result ≡ required (number_in space) Key.Name (source_data line.now) }
{
    match space {
        Space::V4 | Space::V6 => required_port(line),
        Space::Local => required_u32(line, Key::Name),
    }
}

fn required_name(line: &Source<'_>) -> Result<Name, Reason>
    ensures { result ≡ name_in (source_data line.now) }
{
    let space = required_space(line)?;
    let number = required_number(line, space)?;
    Ok(Name { space, number })
}

#[inline(never)]
pub(crate) fn shutdown_call(line: &Source<'_>) -> Result<Call, Reason>
    ensures { result ≡ shutdown_call (source_data line.now) }
{
    let fd = Fd(required_i32(line, Key::Fd)?);
    let how = how_or_write(line)?;
    Ok(Call::Shutdown { fd, how })
}

fn socket_call(line: &Source<'_>) -> Result<Call, Reason>
    ensures { result ≡ socket_call (source_data line.now) }
{
    let family = required_family(line)?;
    let cloexec = flag(line, Key::Cloexec)?;
    Ok(Call::Socket { family, cloexec })
}

fn bind_call(line: &Source<'_>) -> Result<Call, Reason>
    ensures { result ≡ bind_call (source_data line.now) }
{
    let fd = Fd(required_i32(line, Key::Fd)?);
    let name = required_name(line)?;
    Ok(Call::Bind { fd, name })
}

fn listen_call(line: &Source<'_>) -> Result<Call, Reason>
    ensures { result ≡ listen_call (source_data line.now) }
{
    let fd = Fd(required_i32(line, Key::Fd)?);
    let backlog = required_i32(line, Key::Backlog)?;
    Ok(Call::Listen { fd, backlog })
}

fn connect_call(line: &Source<'_>) -> Result<Call, Reason>
    ensures { result ≡ connect_call (source_data line.now) }
{
    let fd = Fd(required_i32(line, Key::Fd)?);
    let name = required_name(line)?;
    Ok(Call::Connect { fd, name })
}

fn accept_call(line: &Source<'_>) -> Result<Call, Reason>
    ensures { result ≡ accept_call (source_data line.now) }
{
    let fd = Fd(required_i32(line, Key::Fd)?);
    let cloexec = flag(line, Key::Cloexec)?;
    Ok(Call::Accept { fd, cloexec })
}

fn peek_call(line: &Source<'_>) -> Result<Call, Reason>
    ensures { result ≡ peek_call (source_data line.now) }
{
    let fd = Fd(required_i32(line, Key::Fd)?);
    let n = required_u32(line, Key::N)?;
    Ok(Call::Peek { fd, n })
}

fn sockname_call(line: &Source<'_>) -> Result<Call, Reason>
    ensures { result ≡ sockname_call (source_data line.now) }
{
    let fd = Fd(required_i32(line, Key::Fd)?);
    Ok(Call::SocketName { fd, peer: false })
}

fn peername_call(line: &Source<'_>) -> Result<Call, Reason>
    ensures { result ≡ peername_call (source_data line.now) }
{
    let fd = Fd(required_i32(line, Key::Fd)?);
    Ok(Call::SocketName { fd, peer: true })
}

fn sockerr_call(line: &Source<'_>) -> Result<Call, Reason>
    ensures { result ≡ sockerr_call (source_data line.now) }
{
    let fd = Fd(required_i32(line, Key::Fd)?);
    Ok(Call::TakeError { fd })
}

/// The call of an operation that only sockets have. It stands apart, so that other lines don't pay for it.
#[inline(never)]
pub(crate) fn call_of_socket(op: CallOp, line: &Source<'_>) -> Result<Call, Reason>
    requires { IsOfSocket op }
    ensures { result ≡ call_of op (source_data line.now) }
{
    match op {
        CallOp::Socket => socket_call(line),
        CallOp::Bind => bind_call(line),
        CallOp::Listen => listen_call(line),
        CallOp::Connect => connect_call(line),
        CallOp::Accept => accept_call(line),
        CallOp::Peek => peek_call(line),
        CallOp::SockName => sockname_call(line),
        CallOp::PeerName => peername_call(line),
        CallOp::SockErr => sockerr_call(line),
        _ => unreachable!(),
    }
}
