//! The event that a request asks for.
ghost use Rattle.std.specs.Prelude.{◌≡◌, ◌<◌, ◌≤◌, ◌⊎◌, [], IfOk, IsOk, List, MatchOption, OnErr, ℕ};
ghost use Rattle.ep_flat.specs.Flat.{Asks, AsksCall, AsksNoCall, AsksNothing, lacks_room};

use crate::flat::FlatRequest;
use crate::sockets::{shutdown_of, socket_call_of};
use ep_base::{Buffer, Call, Event, Fd, Mask, Pid, Span, Timeout};
use std::alloc::{AllocError, Global};

/// The flags of a request.
pub(crate) const CLOEXEC: u32 = 1;

const SEMAPHORE: u32 = 2;

const ABSOLUTE: u32 = 4;

pub(crate) const PEER: u32 = 8;

/// The bytes once more, as a write has them.
fn buffer_of(alloc: Global, bytes: &[u8]) -> Result<Buffer, AllocError>
    ensures ok { IfOk result (λ buffer. buffer ≡ bytes.now) }
    ensures no_bytes { bytes.now ≡ [] → IsOk result }
{
    let mut values = Vec::new(alloc);
    values.extend_from_slice(bytes)?;
    Ok(Buffer::new(values))
}

/// The call that makes an object, or `None` exactly if the number is that of no such call.
fn creation_of(request: &FlatRequest) -> Option<Call>
    ensures { (given : List ℕ) → MatchOption result
        ((request.now.event < 1) ⊎ (7 ≤ request.now.event))
        (λ call. AsksCall request.now given call) }
{
    let cloexec = request.flags & CLOEXEC != 0;
    Some(match request.event {
        1 => Call::Pipe { cloexec },
        2 => Call::EventFd {
            init: request.count,
            semaphore: request.flags & SEMAPHORE != 0,
            cloexec,
        },
        3 => Call::TimerFd {
            clock: request.number,
            cloexec,
        },
        4 => Call::SocketPair { cloexec },
        5 => Call::Plain { cloexec },
        6 => Call::EpollCreate { cloexec },
        _ => return None,
    })
}

/// The call on a descriptor or a process, but for a write and those of sockets, or `None` exactly if the number is that
/// of no such call.
fn other_call_of(request: &FlatRequest) -> Option<Call>
    ensures { (given : List ℕ) → MatchOption result
        ((request.now.event < 7) ⊎ (request.now.event ≡ 10) ⊎ (request.now.event ≡ 11) ⊎ (20 ≤ request.now.event))
        (λ call. AsksCall request.now given call) }
{
    let fd = Fd(request.fd);
    Some(match request.event {
        7 => Call::EpollCtl {
            epfd: fd,
            op: request.number,
            fd: Fd(request.target),
            mask: Mask(request.count),
            tag: request.value,
        },
        8 => Call::EpollWait {
            epfd: fd,
            max: request.number,
            timeout: Timeout(request.timeout),
        },
        9 => Call::Read {
            fd,
            n: request.count,
        },
        12 => Call::SetTime {
            fd,
            absolute: request.flags & ABSOLUTE != 0,
            value: Span(request.value),
            interval: Span(request.interval),
        },
        13 => Call::GetTime { fd },
        14 => Call::Dup { fd },
        15 => Call::Dup2 {
            fd,
            to: Fd(request.target),
        },
        16 => Call::Close { fd },
        17 => Call::Fork,
        18 => Call::Exec,
        19 => Call::Exit,
        _ => return None,
    })
}

/// The call that is asked for, or `None` exactly if the number is that of no call, or a word of the call is none.
fn call_of(alloc: Global, request: &FlatRequest, bytes: &[u8]) -> Result<Option<Call>, AllocError>
    ensures ok { IfOk result
        (λ asked. MatchOption asked (AsksNoCall request.now)
        (λ call. AsksCall request.now bytes.now call)) }
    ensures write { OnErr result (request.now.event ≡ 10) }
    ensures no_bytes { bytes.now ≡ [] → IsOk result }
{
    if request.event < 7 {
        return Ok(creation_of(request));
    }
    if request.event == 10 {
        return Ok(Some(Call::Write {
            fd: Fd(request.fd),
            bytes: buffer_of(alloc, bytes)?,
        }));
    }
    if request.event == 11 {
        return Ok(shutdown_of(request));
    }
    if request.event > 21 {
        return Ok(socket_call_of(request));
    }
    Ok(other_call_of(request))
}

/// The event that is asked for, a write with these bytes, or `None` exactly if the number is that of no event, or that
/// of a word of it is none: what is shut, a family, or a space.
/// `AllocError` is want of memory for the bytes: it comes only of a write that has some.
pub fn event_of(
    alloc: Global,
    request: &FlatRequest,
    bytes: &[u8],
) -> Result<Option<Event>, AllocError>
    ensures ok { IfOk result (λ asked. MatchOption asked (AsksNothing request.now)
        (λ event. Asks request.now bytes.now event)) }
    ensures write { OnErr result (request.now.event ≡ 10) }
    ensures no_bytes { bytes.now ≡ [] → IsOk result }
{
    Ok(match request.event {
        20 => Some(Event::Resume),
        21 => Some(Event::Tick {
            n: Span(request.value),
        }),
        _ => match call_of(alloc, request, bytes)? {
            Some(call) => Some(Event::Call {
                pid: Pid(request.pid),
                call,
            }),
            None => None,
        },
    })
}

/// Whether a read or a peek asks for more bytes, or a wait for more reports, than there is room for.
pub fn lacks_room(request: &FlatRequest, bytes: usize, reports: usize) -> bool
    ensures { result ≡ lacks_room request.now bytes reports }
{
    match request.event {
        9 | 27 => bytes < request.count as usize,
        8 => request.number > 0 && reports < request.number as usize,
        _ => false,
    }
}
