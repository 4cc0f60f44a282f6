//! Records of the commonest events, by what was answered. No answer has to be made for them.
ghost use Rattle.std.specs.Prelude.{◌≡◌, ◌+◌, ◌<◌, ◌≤◌, [], ◌∷◌, ◌++◌, IsFalse, IsTrue, length};
ghost use Rattle.ep_records.specs.Short.{IsShortReader, IsShortReporter, IsShortWrite};
ghost use Rattle.ep_records.specs.Slot.{made, told};

use crate::history::History;
use crate::slot::Slot;
use ep_base::{Answer, Call, CallerId, EntryNumber, Event, Report};

impl History {
    /// The record at the end of a write that was answered by this number, if it takes 48 bytes: then `true`. Else, and
    /// for any other event, `false`, and nothing changes. It takes no memory.
    #[inline(always)]
    pub fn push_written(&mut self, caller: CallerId, event: &Event, written: u64) -> bool
        requires { 0 < self.old.room }
        ensures pushed { IsTrue result → self.new.items ≡ self.old.items
            ++ made caller event.now (Answer.Num written) ∷ [] }
        ensures other { IsFalse result → self.new ≡ self.old }
        ensures room { self.old.room ≤ self.new.room + 1 }
        ensures taken { self.new.taken ≡ self.old.taken }
        ensures short { IsShortWrite event.now → IsTrue result }
    {
        let Event::Call {
            pid,
            call: Call::Write { fd, bytes },
        } = event
        else {
            return false;
        };
        let Ok(pid) = u32::try_from(pid.0) else {
            return false;
        };
        match Slot::write(caller, pid, *fd, bytes, &Answer::Num(written)) {
            Some(slot) => {
                self.slots.push_reserved(slot);
                true
            }
            None => false,
        }
    }

    /// The same of a read that gave these bytes.
    #[inline(always)]
    pub fn push_given(&mut self, caller: CallerId, event: &Event, given: &[u8]) -> bool
        requires { 0 < self.old.room }
        ensures pushed { IsTrue result → self.new.items ≡ self.old.items
            ++ made caller event.now (Answer.Bytes given.now) ∷ [] }
        ensures other { IsFalse result → self.new ≡ self.old }
        ensures room { self.old.room ≤ self.new.room + 1 }
        ensures taken { self.new.taken ≡ self.old.taken }
        ensures short { IsShortReader event.now → length given.now ≤ 16 → IsTrue result }
    {
        let Event::Call {
            pid,
            call: Call::Read { fd, n },
        } = event
        else {
            return false;
        };
        let Ok(pid) = u32::try_from(pid.0) else {
            return false;
        };
        match Slot::giving(caller, pid, *fd, *n, given) {
            Some(slot) => {
                self.slots.push_reserved(slot);
                true
            }
            None => false,
        }
    }

    /// The same of a wait or a resumption that made this report, of the registration of this number.
    #[inline(always)]
    pub fn push_report(
        &mut self,
        caller: CallerId,
        event: &Event,
        report: Report,
        number: EntryNumber,
    ) -> bool
        requires { 0 < self.old.room }
        ensures pushed { IsTrue result → self.new.items ≡ self.old.items
            ++ told caller event.now report number ∷ [] }
        ensures other { IsFalse result → self.new ≡ self.old }
        ensures room { self.old.room ≤ self.new.room + 1 }
        ensures taken { self.new.taken ≡ self.old.taken }
        ensures short { IsShortReporter event.now → IsTrue result }
    {
        match Slot::reporting(caller, event, report, number) {
            Some(slot) => {
                self.slots.push_reserved(slot);
                true
            }
            None => false,
        }
    }
}
