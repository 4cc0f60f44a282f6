//! The calls of sockets that a request asks for, and the numbers of their words.
ghost use Rattle.std.specs.Prelude.{◌≡◌, ◌<◌, ◌≤◌, ◌⊎◌, List, MatchOption, None, ℕ};
ghost use Rattle.ep_flat.specs.Flat.{AsksCall, HasNoFamily, HasNoSpace, family_of, how_of, name_in, space_number, space_of};

use crate::event::{CLOEXEC, PEER};
use crate::flat::FlatRequest;
use ep_base::{Call, Family, Fd, How, Name, Space};

/// A space as a number.
pub(crate) fn space_number(space: Space) -> i32
    ensures { result ≡ space_number space }
{
    match space {
        Space::V4 => 0,
        Space::V6 => 1,
        Space::Local => 2,
    }
}

fn how_of(number: i32) -> Option<How>
    ensures { result ≡ how_of number }
{
    match number {
        0 => Some(How::Read),
        1 => Some(How::Write),
        2 => Some(How::Both),
        _ => None,
    }
}

fn family_of(number: i32) -> Option<Family>
    ensures { result ≡ family_of number }
{
    match number {
        0 => Some(Family::Tcp),
        1 => Some(Family::Unix),
        _ => None,
    }
}

fn space_of(number: i32) -> Option<Space>
    ensures { result ≡ space_of number }
{
    match number {
        0 => Some(Space::V4),
        1 => Some(Space::V6),
        2 => Some(Space::Local),
        _ => None,
    }
}

fn name_in(request: &FlatRequest) -> Option<Name>
    ensures { result ≡ name_in request.now }
{
    let space = space_of(request.number)?;
    Some(Name {
        space,
        number: request.count,
    })
}

/// The shutdown(2) that is asked for, or `None` exactly if what it shuts is nothing.
pub(crate) fn shutdown_of(request: &FlatRequest) -> Option<Call>
    requires { request.now.event ≡ 11 }
    ensures { (given : List ℕ) → MatchOption result (how_of request.now.number ≡ None)
        (λ call. AsksCall request.now given call) }
{
    let how = how_of(request.number)?;
    Some(Call::Shutdown {
        fd: Fd(request.fd),
        how,
    })
}

/// The call that only sockets have, or `None` exactly if the number is that of no such call, or its family or its space
/// is none.
#[inline(never)]
pub(crate) fn socket_call_of(request: &FlatRequest) -> Option<Call>
    ensures { (given : List ℕ) → MatchOption result
        ((request.now.event < 22) ⊎ (30 ≤ request.now.event) ⊎ HasNoFamily request.now ⊎ HasNoSpace request.now)
        (λ call. AsksCall request.now given call) }
{
    let fd = Fd(request.fd);
    let cloexec = request.flags & CLOEXEC != 0;
    match request.event {
        22 => {
            let family = family_of(request.number)?;
            Some(Call::Socket { family, cloexec })
        }
        23 => {
            let name = name_in(request)?;
            Some(Call::Bind { fd, name })
        }
        24 => Some(Call::Listen {
            fd,
            backlog: request.number,
        }),
        25 => {
            let name = name_in(request)?;
            Some(Call::Connect { fd, name })
        }
        26 => Some(Call::Accept { fd, cloexec }),
        27 => Some(Call::Peek {
            fd,
            n: request.count,
        }),
        28 => Some(Call::SocketName {
            fd,
            peer: request.flags & PEER != 0,
        }),
        29 => Some(Call::TakeError { fd }),
        _ => None,
    }
}
