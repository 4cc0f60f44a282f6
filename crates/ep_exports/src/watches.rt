//! What is told of the registrations of an instance.
ghost use Rattle.std.specs.Prelude.{◌≡◌, IfOk, length, map, vec_len};
ghost use Rattle.ep_base.specs.Errno.{errno_number};
ghost use Rattle.ep_exports.specs.Watches.{AskedAwaited, AskedNamed, IsTold, OrNoMemory, TellsAwaited, TellsNamed, flat_watch, reporter};
ghost use Rattle.ep_flat.specs.Flat.{overlaid, refused};

use crate::status::{EBADF, ENOMEM};
use ep_base::{CallerId, Errno, EventNumber, Fd, Mask, Pid};
use ep_calls::Kernel;
use ep_flat::FlatWatch;
use ep_handle::Handle;
use ep_kernel::{ReadyKernel, Watch};
use ep_records::History;
use std::alloc::{AllocError, Global};

/// What stands in room in which nothing was told yet.
const NOTHING: Watch = Watch {
    fd: Fd(-1),
    mask: Mask(0),
    tag: 0,
    armed: false,
    present: Mask(0),
    reportable: false,
    reported_in: None,
};

/// Room for so many registrations. An `Err` is want of memory.
fn room_for(alloc: Global, count: usize) -> Result<Vec<Watch>, AllocError>
    ensures { IfOk result (λ told. vec_len told ≡ count) }
{
    let mut told = Vec::new(alloc);
    told.resize(count, NOTHING)?;
    Ok(told)
}

/// The caller of an event; 0 if the history has no record of it.
fn reporter(past: &History, event: EventNumber) -> u32
    ensures { result ≡ reporter past.now event }
{
    match past.numbered(event) {
        None => 0,
        Some(entry) => entry.caller().0,
    }
}

/// What is told of a registration, as C has it.
fn flat_watch(past: &History, watch: &Watch) -> FlatWatch
    ensures { result ≡ flat_watch past.now watch.now }
{
    let mut flat = FlatWatch {
        tag: watch.tag,
        reported_in: 0,
        reported_to: 0,
        fd: watch.fd.0,
        mask: watch.mask.0,
        shown: watch.present.0,
        is_armed: watch.armed as u32,
        is_reportable: watch.reportable as u32,
    };
    if let Some(event) = watch.reported_in {
        flat.reported_in = event.0;
        flat.reported_to = reporter(past, event);
    }
    flat
}

/// Lays out what was told at the beginning of the room, as far as it reaches.
fn put_watches(past: &History, told: &[Watch], room: &mut [FlatWatch])
    ensures { room.new ≡ overlaid room.old (map (flat_watch past.now) told.now) }
{
    let mut at = 0;
    while at < told.len() && at < room.len() {
        room[at] = flat_watch(past, &told[at]);
        at += 1;
    }
}

/// Lays out an answer: how many registrations there are, and what was told of them, or the refusal, which changes
/// nothing.
fn put_asked(
    past: &History,
    answer: Result<usize, Errno>,
    told: &[Watch],
    room: &mut [FlatWatch],
    count: &mut usize,
) -> i32
    ensures { IsTold past.now answer told.now
        (record { watches = room.old; count = count.old })
        (record { watches = room.new; count = count.new }) result }
{
    match answer {
        Err(errno) => -(errno.number() as i32),
        Ok(most) => {
            let fits = if most < told.len() { most } else { told.len() };
            put_watches(past, &told[..fits], room);
            *count = most;
            0
        }
    }
}

/// Asks a kernel for the registrations of the instance that a number names, with room for them, and lays out its
/// answer.
fn ask_named(
    kernel: &mut ReadyKernel,
    named: (Pid, Fd),
    told: &mut [Watch],
    room: &mut [FlatWatch],
    count: &mut usize,
) -> i32
    requires { length told.old ≡ length room.old }
    ensures stays { kernel.new ≡ kernel.old }
    ensures tells { TellsNamed kernel.old named.0.0 named.1.0
        (record { watches = room.old; count = count.old })
        (record { watches = room.new; count = count.new }) result }
{
    let answer = kernel.watches(named.0, named.1, told);
    put_asked(kernel.history(), answer, told, room, count)
}

/// The same, with room of its own.
fn tell_named(
    alloc: Global,
    kernel: &mut ReadyKernel,
    named: (Pid, Fd),
    room: &mut [FlatWatch],
    count: &mut usize,
) -> i32
    ensures stays { kernel.new ≡ kernel.old }
    ensures tells { OrNoMemory (TellsNamed kernel.old named.0.0 named.1.0
        (record { watches = room.old; count = count.old })
        (record { watches = room.new; count = count.new }) result)
        (record { watches = room.old; count = count.old })
        (record { watches = room.new; count = count.new }) result }
{
    match room_for(alloc, room.len()) {
        Err(_) => -ENOMEM,
        Ok(mut told) => ask_named(kernel, named, &mut told, room, count),
    }
}

/// The same of the instance at which a caller is parked.
fn ask_awaited(
    kernel: &mut ReadyKernel,
    caller: CallerId,
    told: &mut [Watch],
    room: &mut [FlatWatch],
    count: &mut usize,
) -> i32
    requires { length told.old ≡ length room.old }
    ensures stays { kernel.new ≡ kernel.old }
    ensures tells { TellsAwaited kernel.old caller.0
        (record { watches = room.old; count = count.old })
        (record { watches = room.new; count = count.new }) result }
{
    let answer = kernel.watches_awaited(caller, told);
    put_asked(kernel.history(), answer, told, room, count)
}

/// The same, with room of its own.
fn tell_awaited(
    alloc: Global,
    kernel: &mut ReadyKernel,
    caller: CallerId,
    room: &mut [FlatWatch],
    count: &mut usize,
) -> i32
    ensures stays { kernel.new ≡ kernel.old }
    ensures tells { OrNoMemory (TellsAwaited kernel.old caller.0
        (record { watches = room.old; count = count.old })
        (record { watches = room.new; count = count.new }) result)
        (record { watches = room.old; count = count.old })
        (record { watches = room.new; count = count.new }) result }
{
    match room_for(alloc, room.len()) {
        Err(_) => -ENOMEM,
        Ok(mut told) => ask_awaited(kernel, caller, &mut told, room, count),
    }
}

/// Tells the registrations of the instance that a descriptor number of a process names, in the order in which they were
/// added: 0, their number in `count`, and as many as have room at its beginning. With nothing changed -EBADF if the
/// number names nothing, or the process isn't there; -EINVAL if it names no instance; -ENOMEM.
#[unsafe(no_mangle)]
pub extern "C" fn ep_watches(
    alloc: Global,
    handle: &mut Handle,
    pid: u64,
    fd: i32,
    room: &mut [FlatWatch],
    count: &mut usize,
) -> i32
    ensures { AskedNamed handle.old.state.kernel pid fd handle.new.state.kernel
        (record { watches = room.old; count = count.old })
        (record { watches = room.new; count = count.new }) result }
{
    match handle.take(alloc) {
        None => -EBADF,
        Some(mut kernel) => {
            let status = tell_named(alloc, &mut kernel, (Pid(pid), Fd(fd)), room, count);
            handle.put(kernel);
            status
        }
    }
}

/// The same of the instance at which a caller is parked, whether a descriptor still names it or not. -EINVAL if the
/// caller isn't parked, -ENOMEM, -EBADF if the handle has no kernel.
#[unsafe(no_mangle)]
pub extern "C" fn ep_watches_awaited(
    alloc: Global,
    handle: &mut Handle,
    caller: u32,
    room: &mut [FlatWatch],
    count: &mut usize,
) -> i32
    ensures { AskedAwaited handle.old.state.kernel caller handle.new.state.kernel
        (record { watches = room.old; count = count.old })
        (record { watches = room.new; count = count.new }) result }
{
    match handle.take(alloc) {
        None => -EBADF,
        Some(mut kernel) => {
            let status = tell_awaited(alloc, &mut kernel, CallerId(caller), room, count);
            handle.put(kernel);
            status
        }
    }
}
