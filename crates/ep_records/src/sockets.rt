//! Slots of the calls that only sockets answer, and the numbers by which slots tell their words.
ghost use Rattle.std.specs.Prelude.{◌≡◌, IfSome, IsSome, None, Some};
ghost use Rattle.ep_base.specs.Call.{IsOnSocket};
ghost use Rattle.ep_base.specs.declared.call.Call.TheVariants.{Peek as peek_call, SocketName as name_call};
ghost use Rattle.ep_records.specs.Short.{IsSeldom, IsShortCall, IsShortName, IsShortRead, IsSilentShort};
ghost use Rattle.ep_records.specs.Slot.{AsksSocket, asked, call_of, family_of, how_of, made, name_of, quiet, record_in, space_of};

use crate::pack::flag_of;
use crate::slot::{BLANK, Kind, Slot, What};
use crate::words::Words;
use ep_base::{Answer, Call, CallerId, Event, Family, Fd, How, Name, Space};

/// A direction, as shutdown(2) numbers it.
pub(crate) fn how_number(how: How) -> u8
    ensures { how_of result ≡ how }
{
    match how {
        How::Read => 0,
        How::Write => 1,
        How::Both => 2,
    }
}

/// The direction of a number.
pub(crate) fn numbered_how(number: u8) -> How
    ensures { result ≡ how_of number }
{
    match number {
        0 => How::Read,
        1 => How::Write,
        _ => How::Both,
    }
}

/// A family as a number.
pub(crate) fn family_number(family: Family) -> u32
    ensures { family_of result ≡ family }
{
    match family {
        Family::Tcp => 0,
        Family::Unix => 1,
    }
}

/// The family of a number.
pub(crate) fn numbered_family(number: u32) -> Family
    ensures { result ≡ family_of number }
{
    match number {
        0 => Family::Tcp,
        _ => Family::Unix,
    }
}

/// A space of names as a number.
fn space_number(space: Space) -> u8
    ensures { space_of result ≡ space }
{
    match space {
        Space::V4 => 0,
        Space::V6 => 1,
        Space::Local => 2,
    }
}

/// The name of this number in the space of a number.
pub(crate) fn numbered_name(space: u64, number: u32) -> Name
    ensures { result ≡ name_of space number }
{
    let space = match space {
        0 => Space::V4,
        1 => Space::V6,
        _ => Space::Local,
    };
    Name { space, number }
}

impl Slot {
    /// A recv(2) with MSG_PEEK.
    fn peek(caller: CallerId, pid: u32, fd: Fd, n: u32, answer: &Answer) -> Option<Slot>
        ensures is { IfSome result
            (λ s. record_in s ≡ Some (quiet caller pid (peek_call fd n) answer.now)) }
        ensures short { IsShortRead answer.now → IsSome result }
    {
        let slot = Slot {
            caller,
            pid,
            fd,
            kind: Kind::Peek,
            n,
            ..BLANK
        };
        match answer {
            Answer::Bytes(bytes) => {
                let list = bytes.as_slice();
                let words = Words::of(list)?;
                Some(Slot {
                    what: What::Bytes,
                    count: list.len() as u8,
                    x: words.x,
                    y: words.y,
                    ..slot
                })
            }
            _ => slot.answered(answer),
        }
    }

    /// A getsockname(2) or getpeername(2).
    fn name(caller: CallerId, pid: u32, fd: Fd, peer: bool, answer: &Answer) -> Option<Slot>
        ensures is { IfSome result
            (λ s. record_in s ≡ Some (quiet caller pid (name_call fd peer) answer.now)) }
        ensures short { IsShortName answer.now → IsSome result }
    {
        let slot = Slot {
            caller,
            pid,
            fd,
            kind: Kind::SocketName,
            count: flag_of(peer),
            ..BLANK
        };
        match answer {
            Answer::Named(None) => Some(Slot {
                what: What::Unnamed,
                ..slot
            }),
            Answer::Named(Some(name)) => Some(Slot {
                what: What::Named,
                n: name.number,
                x: space_number(name.space) as u64,
                ..slot
            }),
            _ => slot.answered(answer),
        }
    }

    /// A call that only a socket answers. It stands apart from the calls that come often, which would pay for it.
    #[cold]
    #[inline(never)]
    pub(crate) fn on_socket(
        caller: CallerId,
        pid: u32,
        call: &Call,
        answer: &Answer,
    ) -> Option<Slot>
        requires { IsOnSocket call.now }
        ensures is { IfSome result (λ s. record_in s ≡ Some (quiet caller pid call.now answer.now)) }
        ensures short { IsShortCall call.now answer.now → IsSome result }
    {
        let slot = Slot {
            caller,
            pid,
            ..BLANK
        };
        match *call {
            Call::Peek { fd, n } => Slot::peek(caller, pid, fd, n, answer),
            Call::TakeError { fd } => Slot::on(caller, pid, Kind::TakeError, fd, answer),
            Call::SocketName { fd, peer } => Slot::name(caller, pid, fd, peer, answer),
            Call::Bind { fd, name } => Slot {
                fd,
                kind: Kind::Bind,
                count: space_number(name.space),
                n: name.number,
                ..slot
            }
            .answered(answer),
            Call::Listen { fd, backlog } => Slot {
                fd,
                kind: Kind::Listen,
                m: backlog,
                ..slot
            }
            .answered(answer),
            Call::Connect { fd, name } => Slot {
                fd,
                kind: Kind::Connect,
                count: space_number(name.space),
                n: name.number,
                ..slot
            }
            .answered(answer),
            Call::Accept { fd, cloexec } => Slot {
                fd,
                kind: Kind::Accept,
                count: flag_of(cloexec),
                ..slot
            }
            .answered(answer),
            _ => unreachable!(),
        }
    }

    /// An event whose answer few calls have: it tells what the same event tells that is answered otherwise.
    pub(crate) fn seldom(caller: CallerId, event: &Event, answer: &Answer) -> Option<Slot>
        ensures is { IfSome result (λ s. record_in s ≡ Some (made caller event.now answer.now)) }
        ensures short { IsSeldom answer.now → IsSilentShort event.now answer.now → IsSome result }
    {
        let slot = Slot::unpicked(caller, event, &Answer::Still)?;
        match answer {
            Answer::Connecting => Some(Slot {
                what: What::Connecting,
                ..slot
            }),
            Answer::Failed(errno) => Some(Slot {
                what: What::Failed,
                errno: *errno,
                ..slot
            }),
            _ => None,
        }
    }

    /// A call that only a socket answers.
    #[inline(always)]
    pub(crate) fn socket_call(self) -> Call
        requires { AsksSocket self.kind }
        ensures { result ≡ call_of self.kind (asked self) }
    {
        let fd = self.fd;
        match self.kind {
            Kind::Peek => Call::Peek { fd, n: self.n },
            Kind::TakeError => Call::TakeError { fd },
            Kind::SocketName => Call::SocketName {
                fd,
                peer: self.count == 1,
            },
            Kind::Bind => Call::Bind {
                fd,
                name: numbered_name(self.count as u64, self.n),
            },
            Kind::Listen => Call::Listen {
                fd,
                backlog: self.m,
            },
            Kind::Connect => Call::Connect {
                fd,
                name: numbered_name(self.count as u64, self.n),
            },
            Kind::Accept => Call::Accept {
                fd,
                cloexec: self.count == 1,
            },
            _ => unreachable!(),
        }
    }
}
