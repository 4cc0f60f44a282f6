//! What each caller does, and when one may write.

use ep_base::{Buffer, Call, CallerId, Fd, Pid, Span, Timeout};
use ep_pool::{Gate, Step};
use std::alloc::{AllocError, Global};

/// The process of all calls, which is there from the start.
pub const PROCESS: Pid = Pid(1);

/// How many questions are asked.
const QUESTIONS: usize = 50;

/// One side of the talk.
#[derive(Clone, Copy)]
pub struct Side {
    /// Its end of the socket pair.
    pub end: Fd,
    /// The instance that watches this end.
    pub instance: Fd,
}

pub const SERVER: Side = Side {
    end: Fd(3),
    instance: Fd(5),
};

pub const CLIENT: Side = Side {
    end: Fd(4),
    instance: Fd(6),
};

/// Lets a caller write only while another one is parked, which then waits for what is written.
#[derive(Drop)]
pub struct ToParked;

impl Gate for ToParked {
    fn may_go(&self, caller: CallerId, step: usize, parked: &[CallerId]) -> bool {
        let writes = match caller.0 {
            1 => step % 3 == 2,
            2 => step % 3 == 0,
            _ => false,
        };
        !writes || !parked.is_empty()
    }
}

/// A call of the one process.
fn call(call: Call) -> Step {
    Step::Call { pid: PROCESS, call }
}

/// Waits at the instance of a side, without a deadline.
fn wait(side: Side) -> Step {
    Step::Wait {
        pid: PROCESS,
        epfd: side.instance,
        max: 1,
        timeout: Timeout(-1),
    }
}

/// Reads what has come to a side.
fn read(side: Side) -> Step {
    call(Call::Read { fd: side.end, n: 8 })
}

/// Writes three bytes to the other side.
fn write(alloc: Global, side: Side) -> Result<Step, AllocError> {
    let bytes = Buffer::new(b"abc".to_vec(alloc)?);
    Ok(call(Call::Write {
        fd: side.end,
        bytes,
    }))
}

/// Waits for each question, and answers it.
fn serves(alloc: Global) -> Result<Vec<Step>, AllocError> {
    let mut steps = Vec::new(alloc);
    for _ in 0..QUESTIONS {
        steps.push(wait(SERVER))?;
        steps.push(read(SERVER))?;
        steps.push(write(alloc, SERVER)?)?;
    }
    Ok(steps)
}

/// Asks each question, and waits for the answer.
fn asks(alloc: Global) -> Result<Vec<Step>, AllocError> {
    let mut steps = Vec::new(alloc);
    for _ in 0..QUESTIONS {
        steps.push(write(alloc, CLIENT)?)?;
        steps.push(wait(CLIENT))?;
        steps.push(read(CLIENT))?;
    }
    Ok(steps)
}

/// Lets the clock go on.
fn ticks(alloc: Global) -> Result<Vec<Step>, AllocError> {
    let mut steps = Vec::new(alloc);
    for _ in 0..QUESTIONS {
        steps.push(Step::Tick { n: Span(1) })?;
    }
    Ok(steps)
}

/// What each of the three callers does.
pub fn steps_of(alloc: Global, caller: CallerId) -> Result<Vec<Step>, AllocError> {
    match caller.0 {
        1 => serves(alloc),
        2 => asks(alloc),
        _ => ticks(alloc),
    }
}
