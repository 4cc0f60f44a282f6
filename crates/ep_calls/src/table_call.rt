//! Calls on the tables alone: those that open descriptors of a new object, and those on descriptors and processes.
ghost use Rattle.std.specs.List.{list_any};
ghost use Rattle.std.specs.Prelude.{ℕ, ◌≡◌, [], IfOk, IsOk, IsSome, None, OnErr, OnOk, false, is_some, true};
ghost use Rattle.ep_machine.specs.Effect.{first};
ghost use Rattle.ep_machine.specs.Files.{table_of};
ghost use Rattle.ep_machine.specs.FilesCalls.{exec_of, exit_of, timerfd_of};
ghost use Rattle.ep_park.specs.Waiters.{is_of};
ghost use Rattle.ep_calls.specs.Clock.{ClockStays};
ghost use Rattle.ep_calls.specs.Does.{DoesCall};
ghost use Rattle.ep_calls.specs.Last.{NothingRefusesCall};
ghost use Rattle.ep_calls.specs.Spared.{Frees};
ghost use Rattle.ep_calls.specs.TableCall.{IsTableCall, MakesTimer, called, raised_by};
ghost use Rattle.ep_table.specs.Value.{Does, IsTold};

use crate::raising::Raising;
use crate::{Outcome, Parts};
use ep_base::{Answer, Call, Errno, Pid};
use ep_object::Object;
use ep_park::Park;
use ep_table::Tables;
use std::alloc::{AllocError, Global};

/// timerfd_create(2): a disarmed timer at the lowest free number, or EINVAL for a clock other than 0 and 1,
/// EMFILE or ENFILE. `has_room`: there is room for its moment. An `Err`, which is that of `Tables::create` or comes
/// for want of that room, leaves the tables. It comes only if nothing refuses the call.
fn create_timer(
    alloc: Global,
    tables: &mut Tables,
    pid: Pid,
    clock: i32,
    cloexec: bool,
    has_room: bool,
) -> Result<Answer, AllocError>
    requires { IsSome (table_of tables.old.files pid.0) }
    ensures ok { IfOk result
        (λ answer. Does (timerfd_of tables.old.limits tables.old.files pid.0 clock cloexec) answer
        tables.old tables.new) }
    ensures told { OnOk result
        (IsTold (timerfd_of tables.old.limits tables.old.files pid.0 clock cloexec) tables.new) }
    ensures last { OnErr result
        (first (timerfd_of tables.old.limits tables.old.files pid.0 clock cloexec).refusals
        ≡ None) }
    ensures room { has_room ≡ false → tables.new ≡ tables.old }
    ensures err { OnErr result (tables.new ≡ tables.old) }
{
    if clock != 0 && clock != 1 {
        return Ok(Answer::Refused(Errno::Einval));
    }
    if !has_room {
        let errno = tables.refuses_one(pid).ok_or(AllocError)?;
        return Ok(Answer::Refused(errno));
    }
    tables.create(pid, cloexec, Object::timer(alloc))
}

/// execve(2): closes the descriptors with close-on-exec, or EBUSY if a caller of the process is parked.
fn exec(tables: &mut Tables, waiters: &Park, pid: Pid) -> Answer
    requires { IsSome (table_of tables.old.files pid.0) }
    ensures does { Does (exec_of tables.old.files pid.0 (list_any (is_of pid.0) waiters.now))
        result tables.old tables.new }
    ensures told { IsTold (exec_of tables.old.files pid.0 (list_any (is_of pid.0) waiters.now))
        tables.new }
{
    if waiters.any_of(pid) {
        return Answer::Refused(Errno::Ebusy);
    }
    tables.exec(pid);
    Answer::Done
}

/// _exit(2): closes all descriptors and ends the process, or EBUSY if a caller of it is parked.
fn exit(tables: &mut Tables, waiters: &Park, pid: Pid) -> Answer
    requires { IsSome (table_of tables.old.files pid.0) }
    ensures does { Does (exit_of tables.old.files pid.0 (list_any (is_of pid.0) waiters.now))
        result tables.old tables.new }
    ensures told { IsTold (exit_of tables.old.files pid.0 (list_any (is_of pid.0) waiters.now))
        tables.new }
{
    if waiters.any_of(pid) {
        return Answer::Refused(Errno::Ebusy);
    }
    tables.exit(pid);
    Answer::Done
}

/// What a call on the tables alone is answered, which asks who is parked only for exec and exit. `has_room`: there is
/// room for the moment of a timer, which only timerfd_create wants. An `Err`, which comes for want of that room, of
/// memory or of a number for what is made, leaves the tables. It comes of no close, exec or exit, and only if nothing
/// refuses the call.
fn answer_of(
    alloc: Global,
    tables: &mut Tables,
    waiters: &Park,
    pid: Pid,
    call: &Call,
    has_room: bool,
) -> Result<Answer, AllocError>
    requires call { IsTableCall call.now }
    requires process { IsSome (table_of tables.old.files pid.0) }
    ensures ok { IfOk result
        (λ answer. Does (called tables.old waiters.now pid.0 call.now) answer tables.old
        tables.new) }
    ensures told { OnOk result
        (IsTold (called tables.old waiters.now pid.0 call.now) tables.new) }
    ensures last { OnErr result
        (first (called tables.old waiters.now pid.0 call.now).refusals ≡ None) }
    ensures room { has_room ≡ false → MakesTimer call.now → tables.new ≡ tables.old }
    ensures frees { Frees call.now → IsOk result }
    ensures err { OnErr result (tables.new ≡ tables.old) }
{
    match *call {
        Call::Pipe { cloexec } => tables.pipe(alloc, pid, cloexec),
        Call::SocketPair { cloexec } => tables.socketpair(alloc, pid, cloexec),
        Call::EventFd {
            init,
            semaphore,
            cloexec,
        } => {
            let counter = Object::counter(alloc, init, semaphore);
            tables.create(pid, cloexec, counter)
        }
        Call::TimerFd { clock, cloexec } => create_timer(
            alloc, tables, pid, clock, cloexec, has_room,
        ),
        Call::Plain { cloexec } => tables.create(pid, cloexec, Object::plain(alloc)),
        Call::EpollCreate { cloexec } => tables.create(pid, cloexec, Object::instance()),
        Call::Socket { family, cloexec } => {
            tables.create(pid, cloexec, Object::socket(alloc, family))
        }
        Call::Dup { fd } => tables.dup(pid, fd),
        Call::Dup2 { fd, to } => tables.dup2(pid, fd, to),
        Call::Close { fd } => Ok(tables.close(pid, fd)),
        Call::Fork => tables.fork(pid),
        Call::Exec => Ok(exec(tables, waiters, pid)),
        Call::Exit => Ok(exit(tables, waiters, pid)),
        Call::Accept { fd, cloexec } => tables.accept(pid, fd, cloexec),
        _ => unreachable!(),
    }
}

/// What a call on the tables raised that is answered so. One that is refused lets no connection go.
fn raising_by(answer: &Answer) -> Raising
    ensures { result ≡ raised_by answer.now }
{
    match answer {
        Answer::Refused(_) => Raising::Nowhere,
        _ => Raising::Losses,
    }
}

impl Parts {
    /// A call that opens descriptors of a new object, or one on descriptors or the process. `has_room`: the kernel has
    /// room for what it keeps of a timer, without which none is made. An `Err`, which comes for want of that room, of
    /// memory or of a number for what is made, leaves the parts. It comes of no close, exec or exit, and only if
    /// nothing refuses the call.
    pub(crate) fn table_call(
        &mut self,
        pid: Pid,
        call: &Call,
        has_room: bool,
    ) -> Result<Outcome, AllocError>
        requires call { IsTableCall call.now }
        requires process { is_some (table_of self.old.tables.files pid.0) ≡ true }
        ensures interest { self.new.interest ≡ self.old.interest }
        ensures tables { IfOk result
            (λ outcome. Does (called self.old.tables self.old.parked pid.0 call.now) outcome.answer
            self.old.tables self.new.tables) }
        ensures clock { IfOk result
            (λ outcome. ClockStays outcome.raising self.old.clock self.new.clock) }
        ensures picked { IfOk result (λ outcome. outcome.picked ≡ []) }
        ensures ok { IfOk result
            (λ outcome. (n caller : ℕ)
            → DoesCall n caller pid.0 call.now outcome self.old self.new) }
        ensures last { OnErr result (NothingRefusesCall self.old pid.0 call.now) }
        ensures room { has_room ≡ false → MakesTimer call.now
            → self.new.tables ≡ self.old.tables }
        ensures frees { Frees call.now → IsOk result }
        ensures err { OnErr result (self.new ≡ self.old) }
    {
        let answer = answer_of(
            self.alloc,
            &mut self.tables,
            &self.waiters,
            pid,
            call,
            has_room,
        )?;
        let raising = raising_by(&answer);
        Ok(Outcome::settled(answer, raising))
    }
}
