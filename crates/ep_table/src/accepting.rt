//! accept4(2): a process takes a connection that waits at a listener.
ghost use Rattle.std.specs.Prelude.{◌≡◌, false, IfErr, IfNone, IfOk, IfSome, IsSome, None, OnErr, OnOk, Some};
ghost use Rattle.ep_machine.specs.Connections.{first_waiting, pending_in};
ghost use Rattle.ep_machine.specs.Effect.{first};
ghost use Rattle.ep_machine.specs.Files.{table_of};
ghost use Rattle.ep_machine.specs.FilesCalls.{accept_of};
ghost use Rattle.ep_table.specs.Accepting.{AcceptsAt, FindsFirst, IsAcceptable};
ghost use Rattle.ep_table.specs.Value.{Does, IsTold, content_of, number_of, number_under};

use crate::processes::{enter, lowest, reserve};
use crate::tables::Tables;
use crate::words::{Descriptor, Found};
use ep_base::{Answer, DescId, Errno, Fd, Pid};
use std::alloc::{AllocError, Allocator};

impl<A: Allocator> Tables<A> {
    /// The connection that accept4(2) of a process that is there takes, or how it is refused. Linux tells of a full
    /// table before it looks at what the descriptor names. The refusals don't go by the close-on-exec flag.
    fn acceptable(&self, pid: Pid, fd: Fd) -> Result<Found, Errno>
        ensures ok { IfOk result (λ found. IsAcceptable self.now pid.0 fd.0 found) }
        ensures err { IfErr result (λ errno. first
            (accept_of self.now.limits self.now.files pid.0 fd.0 false).refusals
            ≡ Some errno) }
    {
        let Some(description) = self.lookup(pid, fd) else {
            return Err(Errno::Ebadf);
        };
        if self.limits.descriptors() as usize <= lowest(&self.processes, pid) {
            return Err(Errno::Emfile);
        }
        let object = self.object(description);
        if !object.is_socket() {
            return Err(Errno::Enotsock);
        }
        if let Some(errno) = self.refuses_one(pid) {
            return Err(errno);
        }
        if !object.is_listener() {
            return Err(Errno::Einval);
        }
        self.first_waiting(description).ok_or(Errno::Eagain)
    }

    /// The first of the connections that wait at the object of a live description.
    fn first_waiting(&self, desc: DescId) -> Option<Found>
        requires { IsSome (number_under self.now desc) }
        ensures listener { IfSome result (λ found. found.listener ≡ desc) }
        ensures some { IfSome result (λ found. FindsFirst self.now.files
            (pending_in (content_of self.now.files (number_of self.now desc))) found) }
        ensures none { IfNone result (first_waiting self.now.files
            (pending_in (content_of self.now.files (number_of self.now desc))) ≡ None) }
    {
        self.store.first_waiting(desc)
    }

    /// A description of the second end of the connection that was found, at the lowest free number of a process that
    /// is there.
    fn add_accepted(&mut self, pid: Pid, found: Found, cloexec: bool) -> Result<(), AllocError>
        requires process { IsSome (table_of self.old.files pid.0) }
        requires live { IsSome (number_under self.old found.listener) }
        requires found { FindsFirst self.old.files
            (pending_in (content_of self.old.files (number_of self.old found.listener))) found }
        ensures ok { OnOk result (AcceptsAt self.old self.new pid.0 found cloexec) }
        ensures err { OnErr result (self.new ≡ self.old) }
    {
        self.store.known();
        reserve(&mut self.processes, pid, 1)?;
        let description = self.store.accept(found)?;
        enter(
            &mut self.processes,
            pid,
            Descriptor {
                description,
                cloexec,
            },
        );
        Ok(())
    }

    /// accept4(2) of a process that is there: the connection that waits longest at the listener that `fd` names gets a
    /// descriptor of its second end, at the lowest free number, which is the answer. EBADF if `fd` names nothing,
    /// EMFILE if none of the process's numbers is free, ENOTSOCK if `fd` names no socket, ENFILE if the limit of live
    /// descriptions is reached, EINVAL if the socket doesn't listen, EAGAIN if nothing waits there. An `AllocError`,
    /// which comes for want of memory or if 2^64 - 1 descriptions were made, leaves the tables. It comes only if
    /// nothing refuses the call. The time is constant while what came to the listener waits there.
    pub fn accept(&mut self, pid: Pid, fd: Fd, cloexec: bool) -> Result<Answer, AllocError>
        requires { IsSome (table_of self.old.files pid.0) }
        ensures ok { IfOk result
            (λ answer. Does (accept_of self.old.limits self.old.files pid.0 fd.0 cloexec) answer
            self.old self.new) }
        ensures told { OnOk result
            (IsTold (accept_of self.old.limits self.old.files pid.0 fd.0 cloexec) self.new) }
        ensures last { OnErr result
            (first (accept_of self.old.limits self.old.files pid.0 fd.0 cloexec).refusals
            ≡ None) }
        ensures err { OnErr result (self.new ≡ self.old) }
    {
        let found = match self.acceptable(pid, fd) {
            Ok(found) => found,
            Err(errno) => return Ok(Answer::Refused(errno)),
        };
        let number = lowest(&self.processes, pid);
        self.add_accepted(pid, found, cloexec)?;
        Ok(Answer::Num(number as u64))
    }
}
