//! A server and a client in threads of their own talk over a socket pair, and a third thread lets the clock go on.
//! `docs/threads.md` shows it.
#![tactic(auto)]

ghost use Rattle.std.specs.Prelude.{◌≡◌, IfOk, []};

mod steps;
mod tally;

use crate::steps::{CLIENT, PROCESS, SERVER, Side, ToParked, steps_of};
use crate::tally::{Tally, tally_of};
use ep_audit::audit;
use ep_base::{Call, Limits, Mask};
use ep_kernel::ReadyKernel;
use ep_plain::Kernel;
use ep_pool::{Job, PoolReport, run_sessions};
use ep_shared::{History, Session, Shared};
use std::alloc::{AllocError, Global};
use std::io;
use std::marker::Brand;
use std::process::ExitCode;
use std::sync::Wait;
use std::sync::ledger::{Blank, Ledger};
use std::thread::Threads;

/// How often a thread asks at most whether it may make its next step.
const TURNS: u32 = 100_000_000;

/// ADD of a side's end to its instance, for IN.
fn watch(side: Side) -> Call {
    Call::EpollCtl {
        epfd: side.instance,
        op: 1,
        fd: side.end,
        mask: Mask::IN,
        tag: 0,
    }
}

/// Opens both sides.
fn open<K: Kernel + Drop, L: Ledger>(
    rt: &impl Wait,
    shared: &Shared<K, L>,
    session: &mut Session<L>,
) {
    let calls = [
        Call::SocketPair { cloexec: false },
        Call::EpollCreate { cloexec: false },
        Call::EpollCreate { cloexec: false },
        watch(SERVER),
        watch(CLIENT),
    ];
    for one in calls {
        let _ = shared.call(rt, session, PROCESS, one);
    }
}

/// A job for each session.
fn jobs_of<L: Ledger>(alloc: Global, sessions: Vec<Session<L>>) -> Result<Vec<Job<L>>, AllocError> {
    let mut jobs = Vec::new(alloc);
    for session in sessions {
        let steps = steps_of(alloc, session.caller())?;
        jobs.push(Job { session, steps })?;
    }
    Ok(jobs)
}

/// Runs a thread for each session, and gives the sessions back if none stopped before its end.
fn run_all<K: Kernel + Drop + Send, L: Ledger + Send + Sync, R: Threads + Wait + Sync>(
    rt: &R,
    alloc: Global,
    shared: &Shared<K, L>,
    sessions: Vec<Session<L>>,
) -> Option<Vec<Session<L>>> {
    let jobs = jobs_of(alloc, sessions).ok()?;
    let report = run_sessions(rt, alloc, shared, jobs, &ToParked, TURNS).ok()?;
    let PoolReport { sessions, stopped } = report;
    stopped.is_empty().then_some(sessions)
}

/// Runs the three on a kernel without a history. The history that they make, if all came to their end and the records
/// of each are those of its session.
fn talk<K: Kernel + Drop + Send, L: Ledger + Send + Sync, R: Threads + Wait + Sync>(
    rt: &R,
    alloc: Global,
    blank: Blank,
    kernel: K,
) -> Option<History>
    requires name { blank.name ≡ L.name }
    requires parts { blank.parts ≡ L.parts }
    requires three { blank.parts ≡ 3 }
    requires empty { K.past kernel ≡ [] }
{
    let (shared, mut sessions) = Shared::<K, L>::start(alloc, blank, kernel, 3).ok()?;
    open(rt, &shared, sessions.first_mut()?);
    let back = run_all(rt, alloc, &shared, sessions)?;
    shared.finish(back).ok()
}

/// The same on a kernel, if there was memory to make it, with a ledger of its own.
fn talk_on<K: Kernel + Drop + Send, R: Threads + Wait + Sync>(
    rt: &R,
    alloc: Global,
    made: Result<K, AllocError>,
) -> Option<History>
    requires { IfOk made (λ kernel. K.past kernel ≡ []) }
{
    let kernel = made.ok()?;
    talk::<K, Brand, R>(rt, alloc, Blank::new(3), kernel)
}

/// Prints what does not depend on the order of the threads, and what the audit says.
fn print_history(rt: &(impl Print + AllocGlobal), history: &History) -> io::Result<()> {
    let records = history.records.as_slice();
    let Tally {
        records: count,
        waits,
        bytes,
    } = tally_of(records);
    let legal = audit(rt.alloc(), &history.limits, records).is_ok();
    println!(rt; "{count} records, {waits} waits that parked, {bytes} bytes read")?;
    println!(rt; "each session has its part; legal: {legal}")
}

fn main(rt: HostRuntime) -> ExitCode {
    let alloc = rt.alloc();
    let Some(history) = talk_on(&rt, alloc, ReadyKernel::new(alloc, Limits::default())) else {
        let _ = eprintln!(rt; "ep_threads: the threads did not come to their end");
        return ExitCode::FAILURE;
    };
    match print_history(&rt, &history) {
        Ok(()) => ExitCode::SUCCESS,
        Err(_) => ExitCode::FAILURE,
    }
}
