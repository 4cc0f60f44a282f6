//! What one thread does.
ghost use Rattle.std.specs.Prelude.{◌≡◌, false, true};
ghost use Rattle.ep_pool.specs.Jobs.{HasRun};
ghost use Rattle.ep_pool.specs.Steps.{StepAdds, StopAdds};
ghost use Rattle.ep_shared.specs.Sessions.{caller_of, records_of};

use ep_base::{Call, CallerId, Fd, Pid, Span, Timeout};
use ep_calls::Kernel;
use ep_shared::{Session, Shared, WaitCall};
use std::sync::Wait;
use std::sync::ledger::Ledger;
use std::thread;

/// Says when a thread may make its next step.
pub trait Gate: Sync {
    /// Whether a caller may make a step now, which is counted from 0, if these callers are parked. A thread asks
    /// again until it may, or until it has asked as often as `run_sessions` was told.
    fn may_go(&self, caller: CallerId, step: usize, parked: &[CallerId]) -> bool;
}

/// One step of a job.
#[derive(Drop)]
pub enum Step {
    /// `Shared::call`.
    Call {
        pid: Pid,
        call: Call,
    },
    /// `Shared::wait`.
    Wait {
        pid: Pid,
        epfd: Fd,
        max: i32,
        timeout: Timeout,
    },
    /// `Shared::tick`.
    Tick {
        n: Span,
    },
}

/// The steps of one session, in order.
#[derive(Drop)]
pub struct Job<L: Ledger> {
    /// The session that makes the steps.
    pub session: Session<L>,
    /// The steps, the first one first.
    pub steps: Vec<Step>,
}

/// The session of a job that has run, and how many steps it had made if it stopped before its end.
#[derive(Drop)]
pub struct Ran<L: Ledger> {
    /// The session, with what it gained.
    pub session: Session<L>,
    /// How many steps it had made when it stopped; `None` if it made all.
    pub stopped: Option<usize>,
}

/// Asks until the gate lets a step go, at most so many times; it does not if there is no memory to ask with.
fn asked<K: Kernel + Drop, L: Ledger, G: Gate, R: Wait>(
    rt: &R,
    shared: &Shared<K, L>,
    gate: &G,
    caller: CallerId,
    step: usize,
    turns: u32,
) -> bool {
    for _ in 0..turns {
        let Ok(parked) = shared.parked(rt) else {
            return false;
        };
        if gate.may_go(caller, step, &parked) {
            return true;
        }
        thread::yield_now();
    }
    false
}

/// Makes a step, and says whether it was answered otherwise than by ENOMEM.
fn make_step<K: Kernel + Drop, L: Ledger, R: Wait>(
    rt: &R,
    shared: &Shared<K, L>,
    session: &mut Session<L>,
    step: Step,
) -> bool
    ensures made { result ≡ true
        → StepAdds (caller_of session.old) (records_of session.old) (records_of session.new) step }
    ensures stopped { result ≡ false
        → StopAdds (caller_of session.old) (records_of session.old) (records_of session.new) step }
    ensures caller { caller_of session.new ≡ caller_of session.old }
{
    let answer = match step {
        Step::Call { pid, call } => shared.call(rt, session, pid, call),
        Step::Wait {
            pid,
            epfd,
            max,
            timeout,
        } => {
            let asked = WaitCall {
                pid,
                epfd,
                max,
                timeout,
            };
            shared.wait(rt, session, asked)
        }
        Step::Tick { n } => shared.tick(rt, session, n),
    };
    !answer.is_no_memory()
}

/// Makes the steps of a job, each once the gate lets it go: all of them, or those before it stopped.
pub fn run_job<K: Kernel + Drop, L: Ledger, G: Gate, R: Wait>(
    rt: &R,
    shared: &Shared<K, L>,
    job: Job<L>,
    gate: &G,
    turns: u32,
) -> Ran<L>
    ensures { HasRun job result }
{
    let Job { session, steps } = job;
    let mut session = session;
    let mut made = 0;
    for step in steps {
        if !asked(rt, shared, gate, session.caller(), made, turns) {
            return Ran {
                session,
                stopped: Some(made),
            };
        }
        if !make_step(rt, shared, &mut session, step) {
            return Ran {
                session,
                stopped: Some(made),
            };
        }
        made += 1;
    }
    Ran {
        session,
        stopped: None,
    }
}
