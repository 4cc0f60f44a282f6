//! The tables: processes, descriptors, open file descriptions and objects.
ghost use Rattle.std.specs.Prelude.{◌≡◌, ◌+◌, ◌<◌, ◌≤◌, ◌^◌, ◌∷◌, [], ℕ, IfNone, IfOk, IfSome, IsOk, IsSome};
ghost use Rattle.std.specs.Prelude.{None, OnErr, OnOk, Some, false, is_some, length, map, min, pos, true};
ghost use Rattle.std.specs.Map.Iter.{ShowsInOrder};
ghost use Rattle.ep_base.specs.declared.ids.DescId.{DescId};
ghost use Rattle.ep_machine.specs.Deaths.{named_in_tables};
ghost use Rattle.ep_machine.specs.Effect.{first};
ghost use Rattle.ep_machine.specs.Lists.{is_among, numbered};
ghost use Rattle.ep_machine.specs.Files.{named_by, numbers_of, object_of, opening_files, place_of, side_of, table_of, under};
ghost use Rattle.ep_machine.specs.Bits.{raises};
ghost use Rattle.ep_machine.specs.Objects.{advance, found_for, hearing, is_instance, is_taken, name_in, object_present};
ghost use Rattle.ep_object.specs.Quiet.{IsQuiet};
ghost use Rattle.ep_machine.specs.FilesCalls.{close_of, dup2_of, dup_of, fork_of, one_of, pipe_of, socketpair_of, two_of};
ghost use Rattle.ep_machine.specs.Tables.{close, create_refusals, dup, exec, exit, fork, is_in_range};
ghost use Rattle.ep_machine.specs.Tables.{one_refusals, second_free, two_refusals};
ghost use Rattle.ep_table.specs.Closing.{IsAt, Takes, across};
ghost use Rattle.ep_table.specs.Live.{live_ids};
ghost use Rattle.ep_table.specs.Value.{CreatesOne, CreatesTwo, Does, Gains, IsTold, Leaves, Sound, content_of, effect_under};
ghost use Rattle.ep_table.specs.Value.{files_after, holds_of, less_at, more_at, named_at, natural, number_found};
ghost use Rattle.ep_table.specs.Value.{number_of, number_under, refusals_at, waiting_at};
ghost use Rattle.ep_object.specs.Asked.{takes_name};
ghost use Rattle.ep_object.specs.Memory.{asked_of};
ghost use Rattle.ep_table.specs.Taking.{FindsFree};
ghost use Rattle.ep_object.specs.Next.{IsNextMoment};

use crate::dying_keys::DyingKeys;
use crate::live::Live;
use crate::names::{add_names, drop_names};
use crate::processes::{
    close_flagged, descriptor_at, end, enter, enter_two, leave, lowest, put, reserve, second,
    table_at,
};
use crate::store::Store;
use crate::table::Table;
use crate::words::{Dead, Descriptor, Loss};
use ep_base::{
    Answer, Call, DescId, End, Errno, Fd, Hearing, Limits, Mask, Moment, Name, Pid, Raised,
};
use ep_object::{NamingCall, Object, ObjectCall};
use std::alloc::{AllocError, Allocator, Global};
use std::marker::Model;

/// The tables of all processes, how many processes live, the open file descriptions and the objects,
/// within limits. Memory comes from `A`, but for what an object holds.
///
/// A call takes constant time where it doesn't say how its time grows. The lowest free number of a
/// process is looked for from a number below which none is free, so that one creation or dup after a
/// close may go over the taken numbers above the freed one.
#[derive(Drop)]
pub struct Tables<A: Allocator = Global> {
    pub(crate) limits: Limits,
    pub(crate) processes: Vec<Option<Table<A>>, A>,
    living: usize,
    pub(crate) store: Store<A>,
}

impl<A: Allocator> Model for Tables<A> {
    ghost use Rattle.ep_table.specs.Value.{Seen};

    ghost Value = { Seen };

    ghost use Rattle.ep_table.specs.View.{value_of, IsTables};

    ghost view = { value_of };

    ghost invariant = { IsTables };
}

/// The descriptor number that a caller gives, where it is none below 0.
fn index_of(fd: Fd) -> Option<usize>
    ensures { result ≡ natural fd.0 }
{
    if fd.0 < 0 {
        return None;
    }
    Some(fd.0 as usize)
}

/// A descriptor number as an answer has it.
fn fd_of(number: usize) -> Fd
    requires { number < 2 ^ 31 }
    ensures { result.0 ≡ pos number }
{
    Fd(number as i32)
}

impl Tables {
    /// The opening state: process 1, whose descriptors 0, 1 and 2 name one description of a plain object.
    pub fn new(alloc: Global, limits: Limits) -> Result<Tables, AllocError>
        ensures limits { IfOk result (λ tables. tables.limits ≡ limits) }
        ensures files { IfOk result (λ tables. tables.files ≡ opening_files) }
        ensures keys { IfOk result (λ tables. Gains [] tables.keys 0) }
        ensures holds { IfOk result (λ tables. tables.holds ≡ 0 ∷ []) }
        ensures dying { IfOk result (λ tables. tables.dying ≡ []) }
    {
        Tables::new_in(alloc, alloc, limits)
    }
}

impl<A: Allocator> Tables<A> {
    /// The same opening state, where the tables take their memory from `alloc`, and the plain object
    /// its reads' from `objects`.
    pub fn new_in(alloc: A, objects: Global, limits: Limits) -> Result<Tables<A>, AllocError>
    where
        A: Copy,
        ensures limits { IfOk result (λ tables. tables.limits ≡ limits) }
        ensures files { IfOk result (λ tables. tables.files ≡ opening_files) }
        ensures keys { IfOk result (λ tables. Gains [] tables.keys 0) }
        ensures holds { IfOk result (λ tables. tables.holds ≡ 0 ∷ []) }
        ensures dying { IfOk result (λ tables. tables.dying ≡ []) }
    {
        let mut store = Store::new(alloc)?;
        let description = store.insert(Object::plain(objects))?;
        let table = Table::opening(alloc, description)?;
        let mut processes = Vec::new(alloc);
        processes.push(None)?;
        processes.push(Some(table))?;
        store.add_name(description);
        store.add_name(description);
        Ok(Tables {
            limits,
            processes,
            living: 1,
            store,
        })
    }

    /// The limits that they were made with.
    pub fn limits(&self) -> &Limits
        ensures { result.now ≡ self.now.limits }
    {
        &self.limits
    }

    /// Whether a process is there: it was created and has not ended.
    pub fn has_process(&self, pid: Pid) -> bool
        ensures { result ≡ is_some (table_of self.now.files pid.0) }
    {
        table_at(&self.processes, pid).is_some()
    }

    /// The description that a descriptor number of a process names, or `None` where it names none (EBADF).
    pub fn lookup(&self, pid: Pid, fd: Fd) -> Option<DescId>
        ensures number { number_found self.now result ≡ under self.now.files pid.0 fd.0 }
        ensures live { IfSome result (λ desc. IsSome (number_under self.now desc)) }
    {
        let number = index_of(fd)?;
        let descriptor = descriptor_at(&self.processes, pid, number)?;
        Some(descriptor.description)
    }

    /// What making so many descriptions is refused with, where the last takes this number.
    fn refuses(&self, last: usize, count: usize) -> Option<Errno>
        requires { 0 < count }
        ensures first { result ≡ first (create_refusals self.now.limits self.now.files last count) }
        ensures small { IfNone result (last < 65536) }
    {
        if self.limits.descriptors() as usize <= last {
            return Some(Errno::Emfile);
        }
        let left = (self.limits.files() as usize).saturating_sub(self.store.len());
        if left < count {
            return Some(Errno::Enfile);
        }
        None
    }

    /// What `create` refuses with, before it makes anything: EMFILE if none of the process's numbers is free, ENFILE
    /// if the limit of live descriptions is reached, and `None` if it refuses nothing.
    pub fn refuses_one(&self, pid: Pid) -> Option<Errno>
        ensures { result ≡ first (one_refusals self.now.limits self.now.files pid.0) }
    {
        self.refuses(lowest(&self.processes, pid), 1)
    }

    /// The same for two descriptions at the two lowest free numbers of a process.
    fn refuses_two(&self, pid: Pid) -> Option<Errno>
        ensures first { result ≡ first (two_refusals self.now.limits self.now.files pid.0) }
        ensures small { IfNone result (second_free (numbers_of self.now.files pid.0) < 65536) }
    {
        self.refuses(second(&self.processes, pid), 2)
    }

    /// An object with one description, at the lowest free number of a process that is there.
    fn add_one(&mut self, pid: Pid, cloexec: bool, object: Object) -> Result<(), AllocError>
        requires process { IsSome (table_of self.old.files pid.0) }
        requires unnamed { name_in object ≡ None }
        requires quiet { IsQuiet object }
        ensures ok { OnOk result (CreatesOne self.old self.new pid.0 object cloexec) }
        ensures err { OnErr result (self.new ≡ self.old) }
    {
        self.store.known();
        reserve(&mut self.processes, pid, 1)?;
        let description = self.store.insert(object)?;
        enter(
            &mut self.processes,
            pid,
            Descriptor {
                description,
                cloexec,
            },
        );
        Ok(())
    }

    /// An object with two descriptions, at the lowest two free numbers of a process that is there.
    fn add_two(&mut self, pid: Pid, cloexec: bool, object: Object) -> Result<(), AllocError>
        requires process { IsSome (table_of self.old.files pid.0) }
        requires unnamed { name_in object ≡ None }
        requires quiet { IsQuiet object }
        ensures ok { OnOk result (CreatesTwo self.old self.new pid.0 object cloexec) }
        ensures err { OnErr result (self.new ≡ self.old) }
    {
        self.store.known();
        reserve(&mut self.processes, pid, 2)?;
        let (first, second) = self.store.insert_two(object)?;
        let first = Descriptor {
            description: first,
            cloexec,
        };
        let second = Descriptor {
            description: second,
            cloexec,
        };
        enter_two(&mut self.processes, pid, first, second);
        Ok(())
    }

    /// A new object with one description at the lowest free number of a process that is there, which
    /// is the answer: eventfd(2), timerfd_create(2), epoll_create(2). Refused, with nothing changed:
    /// EMFILE where none of its numbers is free, ENFILE where the limit of live descriptions is
    /// reached. An `AllocError`, which comes for want of memory or where 2^64 - 1 descriptions or
    /// objects were made, leaves the tables. It comes only if nothing refuses the call.
    pub fn create(&mut self, pid: Pid, cloexec: bool, object: Object) -> Result<Answer, AllocError>
        requires process { IsSome (table_of self.old.files pid.0) }
        requires unnamed { name_in object ≡ None }
        requires quiet { IsQuiet object }
        ensures ok { IfOk result
            (λ answer. Does (one_of self.old.limits self.old.files pid.0 object cloexec) answer
            self.old self.new) }
        ensures told { OnOk result
            (IsTold (one_of self.old.limits self.old.files pid.0 object cloexec) self.new) }
        ensures last { OnErr result
            (first (one_refusals self.old.limits self.old.files pid.0) ≡ None) }
        ensures err { OnErr result (self.new ≡ self.old) }
    {
        let number = lowest(&self.processes, pid);
        if let Some(errno) = self.refuses(number, 1) {
            return Ok(Answer::Refused(errno));
        }
        self.add_one(pid, cloexec, object)?;
        Ok(Answer::Num(number as u64))
    }

    /// An object with two descriptions at the two lowest free numbers, where that isn't refused.
    fn create_two(&mut self, pid: Pid, cloexec: bool, object: Object) -> Result<Answer, AllocError>
        requires process { IsSome (table_of self.old.files pid.0) }
        requires unnamed { name_in object ≡ None }
        requires quiet { IsQuiet object }
        requires free { first (two_refusals self.old.limits self.old.files pid.0) ≡ None }
        requires small { second_free (numbers_of self.old.files pid.0) < 65536 }
        ensures ok { IfOk result
            (λ answer. Does (two_of self.old.limits self.old.files pid.0 object cloexec) answer
            self.old self.new) }
        ensures told { OnOk result
            (IsTold (two_of self.old.limits self.old.files pid.0 object cloexec) self.new) }
        ensures err { OnErr result (self.new ≡ self.old) }
    {
        let first = lowest(&self.processes, pid);
        let second = second(&self.processes, pid);
        self.add_two(pid, cloexec, object)?;
        Ok(Answer::Two(fd_of(first), fd_of(second)))
    }

    /// pipe(2): a pipe, whose first end is read and whose second is written, at the two lowest free
    /// numbers of a process that is there, which are the answer: the read end at the lower one. The
    /// limits have how many bytes it holds. Refused, with nothing changed: EMFILE where fewer than two
    /// of its numbers are free, ENFILE where fewer than two descriptions are left of the limit. An
    /// `AllocError`, which comes for want of memory or where 2^64 - 2 descriptions or 2^64 - 1 objects
    /// were made, leaves the tables. It comes only if nothing refuses the call.
    pub fn pipe(&mut self, alloc: Global, pid: Pid, cloexec: bool) -> Result<Answer, AllocError>
        requires { IsSome (table_of self.old.files pid.0) }
        ensures ok { IfOk result
            (λ answer. Does (pipe_of self.old.limits self.old.files pid.0 cloexec) answer self.old
            self.new) }
        ensures told { OnOk result
            (IsTold (pipe_of self.old.limits self.old.files pid.0 cloexec) self.new) }
        ensures last { OnErr result
            (first (two_refusals self.old.limits self.old.files pid.0) ≡ None) }
        ensures err { OnErr result (self.new ≡ self.old) }
    {
        if let Some(errno) = self.refuses_two(pid) {
            return Ok(Answer::Refused(errno));
        }
        let object = Object::pipe(alloc, self.limits.pipe_bytes())?;
        self.create_two(pid, cloexec, object)
    }

    /// socketpair(2): two connected sockets at the two lowest free numbers of a process that is there,
    /// which are the answer. The limits have how many bytes each direction holds. Refusals and
    /// `AllocError` are those of `pipe`.
    pub fn socketpair(
        &mut self,
        alloc: Global,
        pid: Pid,
        cloexec: bool,
    ) -> Result<Answer, AllocError>
        requires { IsSome (table_of self.old.files pid.0) }
        ensures ok { IfOk result
            (λ answer. Does (socketpair_of self.old.limits self.old.files pid.0 cloexec) answer
            self.old self.new) }
        ensures told { OnOk result
            (IsTold (socketpair_of self.old.limits self.old.files pid.0 cloexec) self.new) }
        ensures last { OnErr result
            (first (two_refusals self.old.limits self.old.files pid.0) ≡ None) }
        ensures err { OnErr result (self.new ≡ self.old) }
    {
        if let Some(errno) = self.refuses_two(pid) {
            return Ok(Answer::Refused(errno));
        }
        let object = Object::pair(alloc, self.limits.sock_bytes())?;
        self.create_two(pid, cloexec, object)
    }

    /// What the last call on the tables that succeeded raised by letting connections go.
    pub fn losses(&self) -> &[Loss]
        ensures { result.now ≡ self.now.losses }
    {
        self.store.losses()
    }

    /// What the last call raised by letting connections go is forgotten.
    fn forget_losses(&mut self)
        ensures { self.new ≡ record self.old { losses = [] } }
    {
        self.store.forget_losses();
    }

    /// Another descriptor of a description, at the lowest free number of a process that is there.
    fn add_name(&mut self, pid: Pid, description: DescId) -> Result<(), AllocError>
        requires process { IsSome (table_of self.old.files pid.0) }
        requires live { IsSome (number_under self.old description) }
        requires named { is_among (named_in_tables self.old.files.tables)
            (number_of self.old description) ≡ true }
        ensures ok { OnOk result
            (self.new ≡ record self.old
            { files = dup self.old.files pid.0 (number_of self.old description) }) }
        ensures err { OnErr result (self.new ≡ self.old) }
    {
        self.store.fits(1)?;
        reserve(&mut self.processes, pid, 1)?;
        let descriptor = Descriptor {
            description,
            cloexec: false,
        };
        enter(&mut self.processes, pid, descriptor);
        self.store.add_name(description);
        Ok(())
    }

    /// dup(2): another descriptor of what `fd` names, at the lowest free number of a process that is
    /// there, which is the answer; its close-on-exec flag is off. Refused, with nothing changed: EBADF
    /// where `fd` names nothing, EMFILE where none of its numbers is free. An `AllocError` leaves the
    /// tables, and comes only if nothing refuses the call.
    pub fn dup(&mut self, pid: Pid, fd: Fd) -> Result<Answer, AllocError>
        requires { IsSome (table_of self.old.files pid.0) }
        ensures ok { IfOk result
            (λ answer. Does (dup_of self.old.limits self.old.files pid.0 fd.0) answer self.old
            self.new) }
        ensures told { OnOk result
            (IsTold (dup_of self.old.limits self.old.files pid.0 fd.0) self.new) }
        ensures last { OnErr result
            (first (dup_of self.old.limits self.old.files pid.0 fd.0).refusals ≡ None) }
        ensures err { OnErr result (self.new ≡ self.old) }
    {
        let Some(description) = self.lookup(pid, fd) else {
            return Ok(Answer::Refused(Errno::Ebadf));
        };
        let free = lowest(&self.processes, pid);
        if self.limits.descriptors() as usize <= free {
            return Ok(Answer::Refused(Errno::Emfile));
        }
        self.add_name(pid, description)?;
        self.forget_losses();
        Ok(Answer::Num(free as u64))
    }

    /// Another descriptor of a description, at this number of a process that is there.
    fn name_at(&mut self, pid: Pid, number: usize, description: DescId) -> Result<(), AllocError>
        requires process { IsSome (table_of self.old.files pid.0) }
        requires live { IsSome (number_under self.old description) }
        requires named { is_among (named_in_tables self.old.files.tables)
            (number_of self.old description) ≡ true }
        requires small { number < 65536 }
        ensures ok { OnOk result
            (self.new ≡ record self.old
            { files = named_at self.old pid.0 number description; dying = self.new.dying }) }
        ensures err { OnErr result (self.new ≡ self.old) }
    {
        let replaced = descriptor_at(&self.processes, pid, number);
        let descriptor = Descriptor {
            description,
            cloexec: false,
        };
        self.store.fits(1)?;
        put(&mut self.processes, pid, number, descriptor)?;
        self.store.add_name(description);
        if let Some(replaced) = replaced {
            self.store.drop_name(replaced.description);
        }
        Ok(())
    }

    /// A descriptor number of a process, where it is in the range of all.
    fn in_range(&self, fd: Fd) -> Option<usize>
        ensures some { IfSome result
            (λ number. (fd.0 ≡ pos number) × (number < 65536)
            × (is_in_range self.now.limits fd.0 ≡ true)) }
        ensures none { IfNone result (is_in_range self.now.limits fd.0 ≡ false) }
    {
        let number = index_of(fd)?;
        if number < self.limits.descriptors() as usize {
            Some(number)
        } else {
            None
        }
    }

    /// dup2(2): in a process that is there `to` names what `fd` names, with the close-on-exec flag off,
    /// and is the answer. What it named before is closed first, silently; where `to` is `fd`, nothing
    /// is done. Refused, with nothing changed: EBADF where `fd` names nothing, EBADF where `to` is out
    /// of range. An `AllocError` leaves the tables, and comes only if nothing refuses the call. The time is
    /// that of growing the table up to `to`, and of going over what is let go.
    pub fn dup2(&mut self, pid: Pid, fd: Fd, to: Fd) -> Result<Answer, AllocError>
        requires { IsSome (table_of self.old.files pid.0) }
        ensures ok { IfOk result
            (λ answer. Does (dup2_of self.old.limits self.old.files pid.0 fd.0 to.0) answer self.old
            self.new) }
        ensures told { OnOk result
            (IsTold (dup2_of self.old.limits self.old.files pid.0 fd.0 to.0) self.new) }
        ensures last { OnErr result
            (first (dup2_of self.old.limits self.old.files pid.0 fd.0 to.0).refusals ≡ None) }
        ensures err { OnErr result (self.new ≡ self.old) }
    {
        let Some(description) = self.lookup(pid, fd) else {
            return Ok(Answer::Refused(Errno::Ebadf));
        };
        let Some(number) = self.in_range(to) else {
            return Ok(Answer::Refused(Errno::Ebadf));
        };
        if fd != to {
            self.name_at(pid, number, description)?;
        }
        self.let_go();
        Ok(Answer::Num(number as u64))
    }

    /// Adds a process with a copy of the table of a process that is there.
    fn add_process(&mut self, pid: Pid) -> Result<(), AllocError>
    where
        A: Copy,
        requires process { IsSome (table_of self.old.files pid.0) }
        requires room { length (numbered 0 self.old.files.tables) < 2 ^ 32 }
        ensures ok { OnOk result
            (self.new ≡ record self.old { files = fork self.old.files pid.0 }) }
        ensures err { OnErr result (self.new ≡ self.old) }
    {
        if let Some(table) = table_at(&self.processes, pid) {
            let copy = table.copy()?;
            self.store.fits(copy.slots.len())?;
            self.processes.reserve(1)?;
            add_names(&mut self.store, &copy.slots);
            self.processes.push_reserved(Some(copy));
            self.living += 1;
        }
        Ok(())
    }

    /// fork(2): a new process with a copy of the table of a process that is there, flags included, which
    /// shares the descriptions. The answer is its number, which is never used again. Refused, with
    /// nothing changed: EAGAIN where as many processes live as the limit allows. An `AllocError` leaves
    /// the tables, and comes only if nothing refuses the call. The time is that of going through its table.
    pub fn fork(&mut self, pid: Pid) -> Result<Answer, AllocError>
    where
        A: Copy,
        requires { IsSome (table_of self.old.files pid.0) }
        ensures ok { IfOk result
            (λ answer. Does (fork_of self.old.limits self.old.files pid.0) answer self.old
            self.new) }
        ensures told { OnOk result
            (IsTold (fork_of self.old.limits self.old.files pid.0) self.new) }
        ensures last { OnErr result
            (first (fork_of self.old.limits self.old.files pid.0).refusals ≡ None) }
        ensures err { OnErr result (self.new ≡ self.old) }
    {
        if self.limits.processes() as usize <= self.living {
            return Ok(Answer::Refused(Errno::Eagain));
        }
        let child = self.processes.len();
        self.add_process(pid)?;
        self.forget_losses();
        Ok(Answer::Num(child as u64))
    }

    /// Lets go what waits at listeners that no table names any more.
    fn let_go(&mut self)
        ensures { Leaves self.old self.new self.old.files }
    {
        // (only the prover needs it)
        self.known();
        self.store.known();
        self.store.let_go();
    }

    /// Takes a number out of a process at which this descriptor stands.
    fn unname(&mut self, pid: Pid, number: usize, description: DescId)
        requires process { IsSome (table_of self.old.files pid.0) }
        requires named { number_found self.old (Some description)
            ≡ under self.old.files pid.0 (pos number) }
        requires live { IsSome (number_under self.old description) }
        ensures { self.new ≡ record self.old
            { files = close self.old.files pid.0 (pos number); dying = self.new.dying } }
    {
        leave(&mut self.processes, pid, number);
        self.store.drop_name(description);
    }

    /// close(2): frees a descriptor number of a process that is there. A description that no table names
    /// and no waiter holds any more stays live until `take_dead` gives it. Refused, with nothing
    /// changed: EBADF where `fd` names nothing. What waits at a listener is let go with its last name. The
    /// time is constant, but for going over what is let go.
    pub fn close(&mut self, pid: Pid, fd: Fd) -> Answer
        requires { IsSome (table_of self.old.files pid.0) }
        ensures does { Does (close_of self.old.files pid.0 fd.0) result self.old self.new }
        ensures told { IsTold (close_of self.old.files pid.0 fd.0) self.new }
    {
        let Some(description) = self.lookup(pid, fd) else {
            return Answer::Refused(Errno::Ebadf);
        };
        if let Some(number) = index_of(fd) {
            self.unname(pid, number, description);
        }
        self.let_go();
        Answer::Done
    }

    /// Frees the numbers of a process whose close-on-exec flag is on.
    fn close_flagged(&mut self, pid: Pid)
        requires { IsSome (table_of self.old.files pid.0) }
        ensures { self.new ≡ record self.old
            { files = exec self.old.files pid.0; dying = self.new.dying } }
    {
        if let Some(table) = table_at(&self.processes, pid) {
            drop_names(&mut self.store, &table.slots, false);
            close_flagged(&mut self.processes, pid);
        }
    }

    /// Frees all numbers of a process, which ends.
    fn end_process(&mut self, pid: Pid)
        requires { IsSome (table_of self.old.files pid.0) }
        ensures { self.new ≡ record self.old
            { files = exit self.old.files pid.0; dying = self.new.dying } }
    {
        if let Some(table) = table_at(&self.processes, pid) {
            drop_names(&mut self.store, &table.slots, true);
            end(&mut self.processes, pid);
            self.living -= 1;
        }
    }

    /// execve(2): closes the numbers of a process that is there whose close-on-exec flag is on. It is
    /// never refused. What waits at a listener is let go with its last name. The time is that of going
    /// through its table, and over what is let go.
    pub fn exec(&mut self, pid: Pid)
        requires { IsSome (table_of self.old.files pid.0) }
        ensures { Leaves self.old self.new (exec self.old.files pid.0) }
    {
        self.close_flagged(pid);
        self.let_go();
    }

    /// _exit(2): closes all numbers of a process that is there and ends it. Its number is never used
    /// again. It is never refused. What waits at a listener is let go with its last name. The time is
    /// that of going through its table, and over what is let go.
    pub fn exit(&mut self, pid: Pid)
        requires { IsSome (table_of self.old.files pid.0) }
        ensures { Leaves self.old self.new (exit self.old.files pid.0) }
    {
        self.end_process(pid);
        self.let_go();
    }

    /// Holds a live description of an instance for a waiter: it lives until each hold is released, whether a table
    /// names it or not. It takes no memory; an `AllocError` comes where it is held 2^64 - 1 times, and
    /// leaves the tables. The time is constant.
    pub fn hold(&mut self, desc: DescId) -> Result<(), AllocError>
        requires live { IsSome (number_under self.old desc) }
        requires used { is_among self.old.dying (number_of self.old desc) ≡ false }
        requires instance { is_instance (content_of self.old.files (number_of self.old desc))
            ≡ true }
        ensures ok { OnOk result
            (self.new ≡ record self.old
            { holds = more_at self.old.holds (number_of self.old desc) }) }
        ensures err { OnErr result (self.new ≡ self.old) }
        ensures room { holds_of self.old (number_of self.old desc) + 1 < 2 ^ 64 → IsOk result }
    {
        self.store.hold(desc)
    }

    /// Releases one hold of a live description. One that no table names and no waiter holds any more
    /// stays live until `take_dead` gives it. The time is constant.
    pub fn release(&mut self, desc: DescId)
        requires live { IsSome (number_under self.old desc) }
        requires held { 0 < holds_of self.old (number_of self.old desc) }
        ensures { self.new ≡ record self.old
            { holds = less_at self.old.holds (number_of self.old desc); dying = self.new.dying } }
    {
        self.store.release(desc);
    }

    /// Ends one of the descriptions that no table names and no waiter holds, in no promised order: its
    /// end of its object closes, the object goes with its last description, and the key is free for
    /// another description. `None` where there is none, and then nothing changes. The time is constant.
    pub fn take_dead(&mut self) -> Option<Dead>
        ensures none { IfNone result ((self.new ≡ self.old) × (self.old.dying ≡ [])) }
        ensures some { IfSome result (λ dead. Takes self.old self.new dead) }
    {
        self.store.known();
        self.store.take_dead()
    }

    /// The keys of the live descriptions, each once, in the order of the keys. It takes no memory, and
    /// its time is that of going over the keys that were ever in use at once.
    pub fn live(&self) -> Live<'_>
        ensures exact { result ≡ live_ids self.now.keys }
        ensures runs { ShowsInOrder (λ (id : DescId). id) }
    {
        self.store.live()
    }

    /// The keys of the descriptions that no table names and no waiter holds, each once, for whoever keeps
    /// something under them: `take_dead` ends exactly these, as long as no name goes. It takes no memory,
    /// and its time is that of going over them.
    pub fn dying(&self) -> DyingKeys<'_>
        ensures exact { map (number_under self.now) result ≡ map Some self.now.dying }
        ensures runs { ShowsInOrder (λ (id : DescId). id) }
    {
        self.store.dying()
    }

    /// Which end of its object a live description is: the first where the object has one description.
    pub fn end(&self, desc: DescId) -> End
        requires { IsSome (number_under self.now desc) }
        ensures { result ≡ side_of self.now.files (number_of self.now desc) }
    {
        self.store.end(desc)
    }

    /// The living description of the other end of a live description's object, or `None` where that
    /// has died or the object has one end.
    pub fn other(&self, desc: DescId) -> Option<DescId>
        requires { IsSome (number_under self.now desc) }
        ensures { IsAt self.now.files self.now.keys
            (across (place_of self.now.files (number_of self.now desc))) result }
    {
        self.store.other(desc)
    }

    /// The object of a live description.
    pub fn object(&self, desc: DescId) -> &Object
        requires { IsSome (number_under self.now desc) }
        ensures { Some result.now ≡ object_of self.now.files (number_of self.now desc) }
    {
        self.store.object(desc)
    }

    /// The bits that hold now at a live description, as poll(2) names them: what its object shows at
    /// its end, and none of an epoll instance.
    pub fn present(&self, desc: DescId, now: Moment) -> Mask
        requires live { IsSome (number_under self.now desc) }
        ensures { let number = number_of self.now desc in result.0
            ≡ object_present (content_of self.now.files number)
            (side_of self.now.files number) now }
    {
        self.object(desc).present(self.end(desc), now)
    }

    /// What the clock raises at the ends of a live description's object as it goes on from `old` to
    /// `new`: IN where it is a timer whose unread expirations go from none to some.
    pub fn advance(&self, desc: DescId, old: Moment, new: Moment) -> Raised
        requires live { IsSome (number_under self.now desc) }
        ensures { result ≡ raises
            (advance (content_of self.now.files (number_of self.now desc)) old new) 0 }
    {
        self.object(desc).advance(old, new)
    }

    /// The first moment after `now` at which the clock raises IN at a live description, or `None`
    /// where there is none, and for any object but a timer.
    pub fn next(&self, desc: DescId, now: Moment) -> Option<u64>
        requires live { IsSome (number_under self.now desc) }
        ensures { IsNextMoment (content_of self.now.files (number_of self.now desc)) now result }
    {
        self.object(desc).next(now)
    }

    /// The name that is free for a call that gives its socket one: for a bind the one that it asks for, or any if that
    /// is number 0; for a listen any of IPv4, for a connect any of its space. `None` if there is none, and for any
    /// other call.
    pub fn found_for(&self, call: &Call) -> Option<Name>
        ensures { result ≡ found_for (is_taken self.now.files.objects) call.now }
    {
        self.store.found_for(call)
    }

    /// Who hears a call by the name by which it connects; any other call nobody.
    pub fn hearing(&self, call: &Call) -> Hearing
        ensures { result ≡ hearing self.now.files.objects call.now }
    {
        self.store.hearing(call)
    }

    /// A call on the object of a live description, at its end, by which no socket gets a name: what it is answered at
    /// the moment `now`, and what it raises at the ends of the object. An `AllocError` leaves the tables. It comes only
    /// if nothing refuses the call, and a read or a peek asks for more than 16 bytes and more than 16 wait. The time
    /// grows with the bytes that are moved.
    pub fn apply(
        &mut self,
        desc: DescId,
        now: Moment,
        call: &ObjectCall<'_>,
    ) -> Result<(Answer, Raised), AllocError>
        requires live { IsSome (number_under self.old desc) }
        ensures answer { IfOk result (λ r. r.0 ≡ (effect_under self.old desc now call.now).0) }
        ensures raised { IfOk result (λ r. r.1 ≡ (effect_under self.old desc now call.now).2) }
        ensures files { OnOk result
            (self.new ≡ record self.old { files = files_after self.old desc now call.now }) }
        ensures err { OnErr result (self.new ≡ self.old) }
        ensures inline { min (asked_of call.now)
            (waiting_at self.old.files (number_of self.old desc) call.now) ≤ 16 → IsOk result }
        ensures last { OnErr result (first (refusals_at self.old.files
            (number_of self.old desc) now call.now) ≡ None) }
    {
        self.store.apply(desc, now, call)
    }

    /// A bind, a listen or a connect of the socket of a live description, for which the name that is free was found:
    /// what it is answered, and what it raises. An `AllocError` leaves the tables. It comes only if nothing refuses the
    /// call and the socket gets a name.
    pub fn apply_naming(
        &mut self,
        desc: DescId,
        call: &NamingCall<'_>,
    ) -> Result<(Answer, Raised), AllocError>
        requires live { IsSome (number_under self.old desc) }
        requires free { FindsFree self.old.files.objects call.now }
        ensures answer { IfOk result
            (λ r. (now : ℕ) → r.0 ≡ (effect_under self.old desc now call.now).0) }
        ensures raised { IfOk result
            (λ r. (now : ℕ) → r.1 ≡ (effect_under self.old desc now call.now).2) }
        ensures files { OnOk result ((now : ℕ)
            → self.new ≡ record self.old { files = files_after self.old desc now call.now }) }
        ensures err { OnErr result (self.new ≡ self.old) }
        ensures inline { takes_name call.now ≡ false → IsOk result }
        ensures last { OnErr result ((now : ℕ) → first (refusals_at self.old.files
            (number_of self.old desc) now call.now) ≡ None) }
    {
        self.store.apply_naming(desc, call)
    }

    /// What always holds: no number stands under two keys, a key's number is live and has an object,
    /// what lives or is named has a key, what is no more isn't held, and the queue of the dying has
    /// exactly the live descriptions that no table names and no waiter holds, each once.
    pub fn known(&self)
        ensures { Sound self.now }
    {
        self.store.known();
    }
}
