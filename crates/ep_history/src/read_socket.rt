//! A call that only sockets have from its object.
ghost use Rattle.std.specs.Prelude.{◌≡◌, codes};
ghost use Rattle.serde_json.specs.Find.{get};
ghost use Rattle.serde_json.specs.View.{view};
ghost use Rattle.ep_history.specs.Calls.{accept_call, bind_call, connect_call, how_under, listen_call};
ghost use Rattle.ep_history.specs.Calls.{peek_call, peername_call, shutdown_call, sockerr_call, socket_call};
ghost use Rattle.ep_history.specs.Calls.{socket_operations, sockname_call};
ghost use Rattle.ep_history.specs.Fields.{named, required};
ghost use Rattle.ep_history.specs.Sockets.{family_value, space_value};

use crate::fields::{required_flag, required_i32, required_u32};
use crate::words::{family_value, how_value, space_value};
use ep_base::{Call, Family, Fd, How, Name, Space};
use serde_json::Value;

/// What is shut: what goes out, if nothing says otherwise.
fn how_or_write(value: &Value) -> Option<How>
    ensures { result ≡ how_under (get (codes "how") (view value.now)) }
{
    match value.get("how") {
        None => Some(How::Write),
        Some(how) => how_value(how),
    }
}

fn required_family(value: &Value) -> Option<Family>
    ensures { result ≡ required (codes "family") family_value (view value.now) }
{
    family_value(value.get("family")?)
}

fn required_space(value: &Value) -> Option<Space>
    ensures { result ≡ required (codes "space") space_value (view value.now) }
{
    space_value(value.get("space")?)
}

pub(crate) fn shutdown_call(value: &Value) -> Option<Call>
    ensures { result ≡ shutdown_call (view value.now) }
{
    let fd = Fd(required_i32(value, "fd")?);
    let how = how_or_write(value)?;
    Some(Call::Shutdown { fd, how })
}

fn socket_call(value: &Value) -> Option<Call>
    ensures { result ≡ socket_call (view value.now) }
{
    let family = required_family(value)?;
    let cloexec = required_flag(value, "cloexec")?;
    Some(Call::Socket { family, cloexec })
}

fn bind_call(value: &Value) -> Option<Call>
    ensures { result ≡ bind_call (view value.now) }
{
    let fd = Fd(required_i32(value, "fd")?);
    let space = required_space(value)?;
    let number = required_u32(value, "name")?;
    Some(Call::Bind {
        fd,
        name: Name { space, number },
    })
}

fn connect_call(value: &Value) -> Option<Call>
    ensures { result ≡ connect_call (view value.now) }
{
    let fd = Fd(required_i32(value, "fd")?);
    let space = required_space(value)?;
    let number = required_u32(value, "name")?;
    Some(Call::Connect {
        fd,
        name: Name { space, number },
    })
}

fn listen_call(value: &Value) -> Option<Call>
    ensures { result ≡ listen_call (view value.now) }
{
    let fd = Fd(required_i32(value, "fd")?);
    let backlog = required_i32(value, "backlog")?;
    Some(Call::Listen { fd, backlog })
}

fn accept_call(value: &Value) -> Option<Call>
    ensures { result ≡ accept_call (view value.now) }
{
    let fd = Fd(required_i32(value, "fd")?);
    let cloexec = required_flag(value, "cloexec")?;
    Some(Call::Accept { fd, cloexec })
}

fn peek_call(value: &Value) -> Option<Call>
    ensures { result ≡ peek_call (view value.now) }
{
    let fd = Fd(required_i32(value, "fd")?);
    let n = required_u32(value, "n")?;
    Some(Call::Peek { fd, n })
}

fn sockname_call(value: &Value) -> Option<Call>
    ensures { result ≡ sockname_call (view value.now) }
{
    let fd = Fd(required_i32(value, "fd")?);
    Some(Call::SocketName { fd, peer: false })
}

fn peername_call(value: &Value) -> Option<Call>
    ensures { result ≡ peername_call (view value.now) }
{
    let fd = Fd(required_i32(value, "fd")?);
    Some(Call::SocketName { fd, peer: true })
}

fn sockerr_call(value: &Value) -> Option<Call>
    ensures { result ≡ sockerr_call (view value.now) }
{
    let fd = Fd(required_i32(value, "fd")?);
    Some(Call::TakeError { fd })
}

/// A call of an operation that only sockets have.
pub(crate) fn call_of_socket(op: &str, value: &Value) -> Option<Call>
    ensures { result ≡ named socket_operations op.now (view value.now) }
{
    match op {
        "socket" => socket_call(value),
        "bind" => bind_call(value),
        "listen" => listen_call(value),
        "connect" => connect_call(value),
        "accept" => accept_call(value),
        "peek" => peek_call(value),
        "sockname" => sockname_call(value),
        "peername" => peername_call(value),
        "sockerr" => sockerr_call(value),
        _ => None,
    }
}
