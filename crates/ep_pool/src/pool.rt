//! One thread a job.
ghost use Rattle.std.specs.Prelude.{◌≡◌, ◌++◌, IfOk, OnOk, flat_map, map};
ghost use Rattle.ep_pool.specs.Jobs.{HasRun, HaveRun, RunsAll, stop_of};
ghost use Rattle.ep_shared.specs.Sessions.{caller_of};

use crate::job::{Gate, Job, Ran, run_job};
use ep_base::CallerId;
use ep_calls::Kernel;
use ep_shared::{Session, Shared};
use std::alloc::{AllocError, Global};
use std::snapshot::Snapshot;
use std::sync::Wait;
use std::sync::atomic::{AtomicU64, Ordering};
use std::sync::ledger::Ledger;
use std::thread;
use std::thread::{Promise, Threads};

/// The sessions that came back, in the order of their jobs, and the callers of those that stopped, in the same order,
/// with how many steps each had made before.
#[derive(Drop)]
pub struct PoolReport<L: Ledger> {
    /// The sessions, in the order of their jobs.
    pub sessions: Vec<Session<L>>,
    /// Of each job that stopped its caller, and how many steps it had made.
    pub stopped: Vec<(CallerId, usize)>,
}

/// Why a pool did not run, or did not come back.
#[derive(Drop)]
pub enum PoolFault {
    /// There is no memory for the threads or for what they gave back.
    Memory,
    /// A thread could not be started: then no step was made.
    Spawn,
}

/// What the thread of a job promises.
#[derive(Drop)]
struct RanOf<L: Ledger>(Snapshot<Job<L>>);

impl<L: Ledger> Promise<Ran<L>> for RanOf<L> {
    ghost kept_by = { λ p r. HasRun p.0.value r };
}

/// The threads wait.
const HOLD: u64 = 0;

/// They begin.
const GO: u64 = 1;

/// They make no step.
const STOP: u64 = 2;

/// Waits until all threads are there, and runs the job; or makes no step if one is not.
fn start_job<K: Kernel + Drop, L: Ledger, G: Gate, R: Wait>(
    rt: &R,
    signal: &AtomicU64,
    shared: &Shared<K, L>,
    job: Job<L>,
    gate: &G,
    turns: u32,
) -> Ran<L>
    ensures { HasRun job result }
{
    for _ in rt.forever() {
        match signal.load(Ordering::SeqCst) {
            HOLD => thread::yield_now(),
            GO => break,
            _ => return run_job(rt, shared, job, gate, 0),
        }
    }
    run_job(rt, shared, job, gate, turns)
}

/// Runs each job in a thread of its own. They begin once all have started; if one could not be, none does anything.
fn run_all<K: Kernel + Drop + Send, L: Ledger + Send + Sync, G: Gate, R: Threads + Wait + Sync>(
    rt: &R,
    alloc: Global,
    shared: &Shared<K, L>,
    jobs: Vec<Job<L>>,
    gate: &G,
    turns: u32,
) -> Result<Vec<Ran<L>>, PoolFault>
    ensures { IfOk result (λ ran. HaveRun jobs.items ran.items) }
{
    let signal = AtomicU64::new(HOLD);
    let signal = &signal;
    thread::scope(
        thread::scope_env(),
        rt,
        |scope| -> Result<Vec<Ran<L>>, PoolFault>
            ensures { IfOk result (λ ran. HaveRun jobs.items ran.items) }
        {
            let Ok(mut handles) = Vec::with_capacity(alloc, jobs.len()) else {
                return Err(PoolFault::Memory);
            };
            for job in jobs {
                let promise = RanOf(Snapshot::of(&job));
                let work = move || -> Ran<L>
                    ensures { HasRun job result }
                { start_job(rt, signal, shared, job, gate, turns) };
                let Ok(handle) = scope.spawn_with(promise, work) else {
                    signal.store(STOP, Ordering::SeqCst);
                    return Err(PoolFault::Spawn);
                };
                if handles.push(handle).is_err() {
                    signal.store(STOP, Ordering::SeqCst);
                    return Err(PoolFault::Memory);
                }
            }
            signal.store(GO, Ordering::SeqCst);
            match thread::join_promised(rt, handles) {
                Ok(all) => Ok(all),
                Err(_) => Err(PoolFault::Memory),
            }
        },
    )
}

/// Notes a job that stopped.
fn note(
    stopped: &mut Vec<(CallerId, usize)>,
    caller: CallerId,
    after: Option<usize>,
) -> Result<(), AllocError>
    ensures { OnOk result (stopped.new.items ≡ stopped.old.items ++ stop_of caller.0 after) }
{
    if let Some(steps) = after {
        stopped.push((caller, steps))?;
    }
    Ok(())
}

/// The sessions, and which jobs stopped.
fn report<L: Ledger>(alloc: Global, ran: Vec<Ran<L>>) -> Result<PoolReport<L>, AllocError>
    ensures sessions { IfOk result (λ p. p.sessions.items ≡ map (λ r. r.session) ran.items) }
    ensures stopped { IfOk result
        (λ p. p.stopped.items ≡ flat_map (λ r. stop_of (caller_of r.session) r.stopped) ran.items) }
{
    let mut sessions = Vec::new(alloc);
    let mut stopped = Vec::new(alloc);
    for one in ran {
        let Ran {
            session,
            stopped: after,
        } = one;
        note(&mut stopped, session.caller(), after)?;
        sessions.push(session)?;
    }
    Ok(PoolReport { sessions, stopped })
}

/// Runs each job in a thread of its own, and gives back its session. Before each step the thread asks the gate,
/// yielding between, at most `turns` times; after that, at a step that is answered ENOMEM, or if there is no
/// memory to see who is parked, the job stops. After a fault sessions may be missing.
pub fn run_sessions<
    K: Kernel + Drop + Send,
    L: Ledger + Send + Sync,
    G: Gate,
    R: Threads + Wait + Sync,
>(
    rt: &R,
    alloc: Global,
    shared: &Shared<K, L>,
    jobs: Vec<Job<L>>,
    gate: &G,
    turns: u32,
) -> Result<PoolReport<L>, PoolFault>
    ensures { IfOk result (λ report. RunsAll jobs.items report) }
{
    let ran = run_all(rt, alloc, shared, jobs, gate, turns)?;
    match report(alloc, ran) {
        Ok(all) => Ok(all),
        Err(_) => Err(PoolFault::Memory),
    }
}
