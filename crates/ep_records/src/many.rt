//! Records of many reports or bytes, which stand beside the slots if there is room.
ghost use Rattle.std.specs.Prelude.{◌≡◌, ◌+◌, ◌<◌, ◌≤◌, [], ◌∷◌, ◌++◌, IsFalse, IsTrue};
ghost use Rattle.ep_base.specs.declared.call.Call.TheVariants.{Read as read_call, Write as write_call};
ghost use Rattle.ep_records.specs.Short.{IsSeldom, IsSilentShort};
ghost use Rattle.ep_records.specs.Slot.{asked, event_of, made, quiet};

use crate::history::History;
use crate::pack::number_of;
use crate::slot::{BLANK, Kind, Slot, What};
use ep_base::{Answer, Call, CallerId, Content, EntryNumber, Event, Record, Report};

/// So few reports are copied beside the slots at once. A record that stands whole would take some 250 bytes for them.
const FEW_REPORTS: usize = 4;

/// A record of more reports than those, and not of more than so many, keeps its own lists of them, which costs less
/// than to copy and free them.
const SOME_REPORTS: usize = 8;

/// Whether so many reports of a record go beside its slot.
fn goes_beside(count: usize) -> bool {
    count <= FEW_REPORTS || count > SOME_REPORTS
}

/// As many bytes of one record are put beside the slots. A read or write of more keeps its own buffer, since to copy
/// that costs more than it saves.
const MOST_BYTES: usize = 256;

/// How many reports of a record go beside its slot.
pub(crate) fn listed_reports(one: &Record) -> usize {
    let count = one.picked.as_slice().len();
    if goes_beside(count) { count } else { 0 }
}

/// How many bytes of a record go beside its slot.
pub(crate) fn listed_bytes(one: &Record) -> usize {
    let count = match (&one.event, &one.answer) {
        (_, Answer::Bytes(bytes)) => bytes.as_slice().len(),
        (
            Event::Call {
                call: Call::Write { bytes, .. },
                ..
            },
            _,
        ) => match bytes.content() {
            Content::Listed(list) => list.len(),
            Content::Filled(..) => 0,
        },
        _ => 0,
    };
    if count <= MOST_BYTES { count } else { 0 }
}

impl History {
    /// The record of a wait that makes these reports, if there is room for them. The slot tells the wait.
    fn push_wait(&mut self, slot: Slot, reports: &[Report], numbers: &[EntryNumber]) -> bool
        requires { 0 < self.old.room }
        ensures pushed { IsTrue result → self.new.items ≡ self.old.items ++ record {
          caller = slot.caller;
          event = event_of Kind.EpollWait slot.pid (asked slot);
          answer = Answer.Events reports.now;
          picked = numbers.now;
        } ∷ [] }
        ensures other { IsFalse result → self.new ≡ self.old }
        ensures room { self.old.room ≤ self.new.room + 1 }
        ensures taken { self.new.taken ≡ self.old.taken }
    {
        if reports.len() != numbers.len() {
            return false;
        }
        let Ok(n) = u32::try_from(reports.len()) else {
            return false;
        };
        match self.beside.push_reports(reports, numbers) {
            Some((y, z)) => {
                self.slots.push_reserved(Slot {
                    what: What::WaitReports,
                    n,
                    y: y as u64,
                    z: z as u64,
                    ..slot
                });
                true
            }
            None => false,
        }
    }

    /// The record of a resumption that makes these reports, if there is room for them.
    fn push_resume(&mut self, caller: CallerId, reports: &[Report], numbers: &[EntryNumber]) -> bool
        requires { 0 < self.old.room }
        ensures pushed { IsTrue result → self.new.items ≡ self.old.items ++ record {
          caller = caller;
          event = Event.Resume;
          answer = Answer.Events reports.now;
          picked = numbers.now;
        } ∷ [] }
        ensures other { IsFalse result → self.new ≡ self.old }
        ensures room { self.old.room ≤ self.new.room + 1 }
        ensures taken { self.new.taken ≡ self.old.taken }
    {
        if reports.len() != numbers.len() {
            return false;
        }
        let Ok(n) = u32::try_from(reports.len()) else {
            return false;
        };
        match self.beside.push_reports(reports, numbers) {
            Some((y, z)) => {
                self.slots.push_reserved(Slot {
                    caller,
                    what: What::ResumeReports,
                    n,
                    y: y as u64,
                    z: z as u64,
                    ..BLANK
                });
                true
            }
            None => false,
        }
    }

    /// The record of a read that gives these bytes, if there is room for them.
    fn push_read(&mut self, slot: Slot, bytes: &[u8]) -> bool
        requires { 0 < self.old.room }
        ensures pushed { IsTrue result → self.new.items ≡ self.old.items
            ++ quiet slot.caller slot.pid (read_call slot.fd slot.n) (Answer.Bytes bytes.now) ∷ [] }
        ensures other { IsFalse result → self.new ≡ self.old }
        ensures room { self.old.room ≤ self.new.room + 1 }
        ensures taken { self.new.taken ≡ self.old.taken }
    {
        match self.beside.push_bytes(bytes) {
            Some(place) => {
                self.slots.push_reserved(Slot {
                    what: What::LongRead,
                    x: place as u64,
                    y: bytes.len() as u64,
                    ..slot
                });
                true
            }
            None => false,
        }
    }

    /// The record of a write of these bytes that is answered by a number, if there is room for them. The slot tells
    /// the rest of it.
    fn push_write(&mut self, slot: Slot, bytes: &[u8]) -> bool
        requires { 0 < self.old.room }
        ensures pushed { IsTrue result → self.new.items ≡ self.old.items
            ++ quiet slot.caller slot.pid (write_call slot.fd bytes.now) (Answer.Num slot.z) ∷ [] }
        ensures other { IsFalse result → self.new ≡ self.old }
        ensures room { self.old.room ≤ self.new.room + 1 }
        ensures taken { self.new.taken ≡ self.old.taken }
    {
        match self.beside.push_bytes(bytes) {
            Some(place) => {
                self.slots.push_reserved(Slot {
                    what: What::LongWrite,
                    x: place as u64,
                    y: bytes.len() as u64,
                    ..slot
                });
                true
            }
            None => false,
        }
    }

    /// The record of an event that makes many reports.
    fn push_told(
        &mut self,
        caller: CallerId,
        event: &Event,
        reports: &[Report],
        numbers: &[EntryNumber],
    ) -> bool
        requires { 0 < self.old.room }
        ensures pushed { IsTrue result → self.new.items ≡ self.old.items ++ record {
          caller = caller;
          event = event.now;
          answer = Answer.Events reports.now;
          picked = numbers.now;
        } ∷ [] }
        ensures other { IsFalse result → self.new ≡ self.old }
        ensures room { self.old.room ≤ self.new.room + 1 }
        ensures taken { self.new.taken ≡ self.old.taken }
    {
        match event {
            Event::Call {
                pid,
                call: Call::EpollWait { epfd, max, timeout },
            } => {
                let Ok(pid) = u32::try_from(pid.0) else {
                    return false;
                };
                let slot = Slot {
                    caller,
                    pid,
                    fd: *epfd,
                    m: *max,
                    x: number_of(*timeout),
                    ..BLANK
                };
                self.push_wait(slot, reports, numbers)
            }
            Event::Resume => self.push_resume(caller, reports, numbers),
            _ => false,
        }
    }

    /// The record of a read that gives many bytes.
    fn push_long_read(&mut self, caller: CallerId, event: &Event, bytes: &[u8]) -> bool
        requires { 0 < self.old.room }
        ensures pushed { IsTrue result → self.new.items ≡ self.old.items
            ++ made caller event.now (Answer.Bytes bytes.now) ∷ [] }
        ensures other { IsFalse result → self.new ≡ self.old }
        ensures room { self.old.room ≤ self.new.room + 1 }
        ensures taken { self.new.taken ≡ self.old.taken }
    {
        match event {
            Event::Call {
                pid,
                call: Call::Read { fd, n },
            } => {
                let Ok(pid) = u32::try_from(pid.0) else {
                    return false;
                };
                let slot = Slot {
                    caller,
                    pid,
                    fd: *fd,
                    n: *n,
                    ..BLANK
                };
                self.push_read(slot, bytes)
            }
            _ => false,
        }
    }

    /// The record of a write of many bytes that is answered by a number.
    fn push_taken(&mut self, caller: CallerId, event: &Event, taken: u64) -> bool
        requires { 0 < self.old.room }
        ensures pushed { IsTrue result → self.new.items ≡ self.old.items
            ++ made caller event.now (Answer.Num taken) ∷ [] }
        ensures other { IsFalse result → self.new ≡ self.old }
        ensures room { self.old.room ≤ self.new.room + 1 }
        ensures taken { self.new.taken ≡ self.old.taken }
    {
        match event {
            Event::Call {
                pid,
                call: Call::Write { fd, bytes },
            } => {
                let Ok(pid) = u32::try_from(pid.0) else {
                    return false;
                };
                let Content::Listed(list) = bytes.content() else {
                    return false;
                };
                let slot = Slot {
                    caller,
                    pid,
                    fd: *fd,
                    z: taken,
                    ..BLANK
                };
                self.push_write(slot, list)
            }
            _ => false,
        }
    }

    /// The record of an event whose answer few calls have, if it takes no more than its slot.
    #[cold]
    #[inline(never)]
    fn push_seldom(&mut self, caller: CallerId, event: &Event, answer: &Answer) -> bool
        requires { 0 < self.old.room }
        ensures pushed { IsTrue result
            → self.new.items ≡ self.old.items ++ made caller event.now answer.now ∷ [] }
        ensures other { IsFalse result → self.new ≡ self.old }
        ensures room { self.old.room ≤ self.new.room + 1 }
        ensures taken { self.new.taken ≡ self.old.taken }
        ensures seldom { IsSeldom answer.now → IsSilentShort event.now answer.now → IsTrue result }
    {
        match Slot::seldom(caller, event, answer) {
            Some(slot) => {
                self.slots.push_reserved(slot);
                true
            }
            None => false,
        }
    }

    /// The record of an event whose reports or bytes are many, if there is room for them; else `false`, and nothing
    /// changes.
    #[inline(never)]
    pub(crate) fn push_many(
        &mut self,
        caller: CallerId,
        event: &Event,
        answer: &Answer,
        picked: &[EntryNumber],
    ) -> bool
        requires { 0 < self.old.room }
        ensures pushed { IsTrue result → self.new.items ≡ self.old.items ++ record {
          caller = caller;
          event = event.now;
          answer = answer.now;
          picked = picked.now;
        } ∷ [] }
        ensures other { IsFalse result → self.new ≡ self.old }
        ensures room { self.old.room ≤ self.new.room + 1 }
        ensures taken { self.new.taken ≡ self.old.taken }
        ensures seldom { picked.now ≡ [] → IsSeldom answer.now → IsSilentShort event.now answer.now
            → IsTrue result }
    {
        match answer {
            Answer::Events(reports) => {
                goes_beside(picked.len())
                    && self.push_told(caller, event, reports.as_slice(), picked)
            }
            Answer::Bytes(bytes) => {
                picked.is_empty() && self.push_long_read(caller, event, bytes.as_slice())
            }
            Answer::Num(taken) => picked.is_empty() && self.push_taken(caller, event, *taken),
            Answer::Connecting | Answer::Failed(_) => {
                picked.is_empty() && self.push_seldom(caller, event, answer)
            }
            _ => false,
        }
    }
}
