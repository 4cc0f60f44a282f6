//! Calls on files: each is taken apart here, into what it asks of an object, or else is one on the tables alone.
ghost use Rattle.std.specs.Prelude.{Bool, ℕ, ◌≡◌, [], IfOk, IsOk, OnErr, false, is_some, true};
ghost use Rattle.ep_machine.specs.Files.{table_of};
ghost use Rattle.ep_object.specs.Asked.{is_naming};
ghost use Rattle.ep_calls.specs.Clock.{ClockStays};
ghost use Rattle.ep_calls.specs.Does.{DoesCall};
ghost use Rattle.ep_calls.specs.FileCall.{CallsFiles, IsFileCall};
ghost use Rattle.ep_calls.specs.Kept.{KeepsCall};
ghost use Rattle.ep_calls.specs.Last.{NothingRefusesCall};
ghost use Rattle.ep_calls.specs.Spared.{TakesNoMemory};
ghost use Rattle.ep_calls.specs.TableCall.{MakesTimer};

use crate::object_call::is_long;
use crate::raising::Raising;
use crate::{Outcome, Parts};
use ep_base::{Call, Errno, Pid};
use ep_object::{NamingCall, ObjectCall};
use std::alloc::AllocError;

impl Parts {
    /// A bind, a listen or a connect of the socket that a descriptor names. An `Err` is want of memory for the name
    /// that the socket gets. It leaves the parts, and comes only if nothing refuses the call.
    #[cold]
    #[inline(never)]
    fn naming_call(&mut self, pid: Pid, call: &Call) -> Result<Outcome, AllocError>
        requires call { is_naming call.now ≡ true }
        ensures interest { self.new.interest ≡ self.old.interest }
        ensures tables { IfOk result
            (λ outcome. CallsFiles pid.0 call.now outcome.answer self.old self.new) }
        ensures clock { IfOk result
            (λ outcome. ClockStays outcome.raising self.old.clock self.new.clock) }
        ensures picked { IfOk result (λ outcome. outcome.picked ≡ []) }
        ensures ok { IfOk result
            (λ outcome. (n caller : ℕ)
            → DoesCall n caller pid.0 call.now outcome self.old self.new) }
        ensures kept { IfOk result (λ outcome. (kept : Bool) → KeepsCall call.now kept outcome) }
        ensures spared { TakesNoMemory self.old.tables.files pid.0 call.now → IsOk result }
        ensures last { OnErr result (NothingRefusesCall self.old pid.0 call.now) }
        ensures err { OnErr result (self.new ≡ self.old) }
    {
        let found = self.tables.found_for(call);
        let heard = self.tables.hearing(call);
        let (fd, asked) = NamingCall::of(call, found, heard);
        let Some(desc) = self.tables.lookup(pid, fd) else {
            return Ok(Outcome::refused(Errno::Ebadf));
        };
        self.tables.known();
        let (answer, raised) = self.tables.apply_naming(desc, &asked)?;
        let raising = Raising::Object { desc, raised };
        Ok(Outcome::settled(answer, raising))
    }

    /// A call on files: on the object that its descriptor names, or on the tables alone. `kept`: a second record of it
    /// is asked for. `has_room`: the kernel has room for what it keeps of a timer, without which none is made.
    /// An `Err` is want of memory, of that room, or of a number for what is made. It leaves the parts, and comes only
    /// if nothing refuses the call, and of none that `TakesNoMemory` names.
    #[inline(always)]
    pub fn file_call(
        &mut self,
        pid: Pid,
        call: &Call,
        kept: bool,
        has_room: bool,
    ) -> Result<Outcome, AllocError>
        requires call { IsFileCall call.now }
        requires process { is_some (table_of self.old.tables.files pid.0) ≡ true }
        ensures interest { self.new.interest ≡ self.old.interest }
        ensures tables { IfOk result
            (λ outcome. CallsFiles pid.0 call.now outcome.answer self.old self.new) }
        ensures clock { IfOk result
            (λ outcome. ClockStays outcome.raising self.old.clock self.new.clock) }
        ensures picked { IfOk result (λ outcome. outcome.picked ≡ []) }
        ensures ok { IfOk result
            (λ outcome. (n caller : ℕ)
            → DoesCall n caller pid.0 call.now outcome self.old self.new) }
        ensures kept { IfOk result (λ outcome. KeepsCall call.now kept outcome) }
        ensures room { has_room ≡ false → MakesTimer call.now
            → self.new.tables ≡ self.old.tables }
        ensures spared { TakesNoMemory self.old.tables.files pid.0 call.now → IsOk result }
        ensures last { OnErr result (NothingRefusesCall self.old pid.0 call.now) }
        ensures err { OnErr result (self.new ≡ self.old) }
    {
        let Some((fd, asked)) = ObjectCall::of(call) else {
            if NamingCall::is(call) {
                return self.naming_call(pid, call);
            }
            return self.table_call(pid, call, has_room);
        };
        let Some(desc) = self.tables.lookup(pid, fd) else {
            return Ok(Outcome::refused(Errno::Ebadf));
        };
        self.tables.known();
        if is_long(&self.tables, desc, &asked) {
            return self.long_call(desc, &asked, kept);
        }
        let (answer, raised) = self.tables.apply(desc, self.clock, &asked)?;
        let raising = Raising::Object { desc, raised };
        Ok(Outcome::settled(answer, raising))
    }
}
