//! Calls on the object of a description, and the copies of what they answer.
ghost use Rattle.std.specs.Prelude.{◌≡◌, ◌<◌, ◌≤◌, [], IfOk, IsOk, IsSome, MatchBool, MatchOption, OnErr, false, min, true};
ghost use Rattle.ep_object.specs.Memory.{asked_of};
ghost use Rattle.ep_calls.specs.Acts.{is_no_memory};
ghost use Rattle.ep_calls.specs.Kept.{IsKept};
ghost use Rattle.ep_calls.specs.ObjectCall.{AppliesAt, FitsRoom, waiting_at};
ghost use Rattle.ep_table.specs.Value.{number_under};
ghost use Rattle.smallvec.specs.SmallVec.{HasRoomFor};

use crate::copies::Copies;
use crate::picks::Picks;
use crate::raising::Raising;
use crate::reply::Reply;
use crate::{Outcome, Parts, Spare};
use ep_base::{Answer, Bytes, DescId, Picked};
use ep_object::ObjectCall;
use ep_table::Tables;
use smallvec::SmallVec;
use std::alloc::{AllocError, Global};

/// Room for the bytes that a call gives, before it takes them from the object, if it is wanted. It takes no memory
/// for 16 bytes or fewer.
#[inline(always)]
fn room_for_copy(
    alloc: Global,
    tables: &Tables,
    desc: DescId,
    asked: &ObjectCall<'_>,
    wanted: bool,
) -> Result<SmallVec<u8, 16>, AllocError>
    requires { IsSome (number_under tables.now desc) }
    ensures empty { IfOk result (λ room. room.items ≡ []) }
    ensures inline { IfOk result (λ room. HasRoomFor room 16) }
    ensures room { IfOk result
        (λ room. wanted ≡ true
        → HasRoomFor room (min (asked_of asked.now) (waiting_at tables.now desc asked.now))) }
    ensures short { min (asked_of asked.now) (waiting_at tables.now desc asked.now) ≤ 16 → IsOk result }
{
    let mut room = SmallVec::new(alloc);
    if !wanted {
        return Ok(room);
    }
    let most = asked.most();
    if most > 0 {
        let waiting = tables.object(desc).waiting(tables.end(desc), asked);
        room.reserve((most as usize).min(waiting))?;
    }
    Ok(room)
}

/// The same answer once more, its bytes in the room that was made for them.
#[inline(always)]
fn answer_copy(answer: &Answer, mut room: SmallVec<u8, 16>) -> Answer
    requires empty { room.items ≡ [] }
    requires fits { FitsRoom answer.now room }
    ensures { result ≡ answer.now }
{
    match answer {
        Answer::Bytes(bytes) => {
            room.extend_from_slice(bytes.as_slice()).unwrap();
            Answer::Bytes(Bytes::new(room))
        }
        Answer::Num(number) => Answer::Num(*number),
        Answer::Time { value, interval } => Answer::Time {
            value: *value,
            interval: *interval,
        },
        Answer::Failed(errno) => Answer::Failed(*errno),
        Answer::Named(name) => Answer::Named(*name),
        Answer::Connecting => Answer::Connecting,
        Answer::Refused(errno) => Answer::Refused(*errno),
        _ => Answer::Done,
    }
}

/// Whether the bytes that it gives take memory to copy: more than 16 are asked for, and more than 16 wait.
#[inline(always)]
pub(crate) fn is_long(tables: &Tables, desc: DescId, asked: &ObjectCall<'_>) -> bool
    requires { IsSome (number_under tables.now desc) }
    ensures { MatchBool result (16 < min (asked_of asked.now) (waiting_at tables.now desc asked.now))
        (min (asked_of asked.now) (waiting_at tables.now desc asked.now) ≤ 16) }
{
    asked.most() > 16 && tables.object(desc).waiting(tables.end(desc), asked) > 16
}

/// Copies of an answer for a second record, if one is asked for.
fn spare_of(alloc: Global, answer: &Answer, room: SmallVec<u8, 16>, kept: bool) -> Option<Spare>
    requires empty { room.items ≡ [] }
    requires fits { kept ≡ true → FitsRoom answer.now room }
    ensures { MatchOption result (kept ≡ false) (λ s. (s.answer ≡ answer.now) × (s.picked ≡ [])) }
{
    if !kept {
        return None;
    }
    Some(Spare {
        answer: answer_copy(answer, room),
        picked: Picked::empty(alloc),
    })
}

/// What is made for the copies of an answer before there is one.
#[derive(Drop)]
struct Rooms {
    /// For the bytes that the history keeps.
    room: SmallVec<u8, 16>,
    /// For those of a second record.
    more: SmallVec<u8, 16>,
    /// The place of both.
    place: Box<Copies>,
}

/// Room for the copies of what a call answers, before it is made. `kept`: a second record of it is asked for.
fn rooms_for(
    alloc: Global,
    tables: &Tables,
    desc: DescId,
    asked: &ObjectCall<'_>,
    kept: bool,
) -> Result<Rooms, AllocError>
    requires { IsSome (number_under tables.now desc) }
    ensures empty { IfOk result (λ r. r.room.items ≡ []) }
    ensures inline { IfOk result (λ r. HasRoomFor r.room 16) }
    ensures room { IfOk result
        (λ r. HasRoomFor r.room (min (asked_of asked.now) (waiting_at tables.now desc asked.now))) }
    ensures more_empty { IfOk result (λ r. r.more.items ≡ []) }
    ensures more_inline { IfOk result (λ r. HasRoomFor r.more 16) }
    ensures more { IfOk result
        (λ r. kept ≡ true
        → HasRoomFor r.more (min (asked_of asked.now) (waiting_at tables.now desc asked.now))) }
{
    let room = room_for_copy(alloc, tables, desc, asked, true)?;
    let more = room_for_copy(alloc, tables, desc, asked, kept)?;
    let none = Copies {
        recorded: Answer::Done,
        spare: None,
    };
    let place = Box::new(alloc, none)?;
    Ok(Rooms { room, more, place })
}

/// What a call came to, with copies of its answer in the rooms that were made for them.
#[tactic(auto, using(crate::proofs::ReplyLemmas::room_silent))]
fn outcome_of(alloc: Global, answer: Answer, rooms: Rooms, kept: bool, raising: Raising) -> Outcome
    requires empty { rooms.room.items ≡ [] }
    requires fits { FitsRoom answer rooms.room }
    requires more_empty { rooms.more.items ≡ [] }
    requires more_fits { kept ≡ true → FitsRoom answer rooms.more }
    requires real { is_no_memory answer ≡ false }
    ensures answer { result.answer ≡ answer }
    ensures picked { result.picked ≡ [] }
    ensures raising { result.raising ≡ raising }
    ensures kept { IsKept kept result }
{
    let Rooms {
        room,
        more,
        mut place,
    } = rooms;
    let recorded = answer_copy(&answer, room);
    let spare = spare_of(alloc, &answer, more, kept);
    let _ = Box::replace(&mut place, Copies { recorded, spare });
    Outcome::new(Reply::of(answer), Picks::none(), Some(place), raising)
}

impl Parts {
    /// A call of which a copy of the bytes that it gives takes memory, on the object of a description. The copies are
    /// made before it takes the bytes. An `Err` is want of memory and leaves the parts.
    #[cold]
    #[inline(never)]
    pub(crate) fn long_call(
        &mut self,
        desc: DescId,
        asked: &ObjectCall<'_>,
        kept: bool,
    ) -> Result<Outcome, AllocError>
        requires live { IsSome (number_under self.old.tables desc) }
        ensures ok { IfOk result
            (λ outcome. AppliesAt desc self.old.clock asked.now outcome self.old.tables
            self.new.tables) }
        ensures kept { IfOk result (λ outcome. IsKept kept outcome) }
        ensures parts { self.new ≡ record self.old { tables = self.new.tables } }
        ensures err { OnErr result (self.new ≡ self.old) }
    {
        self.tables.known();
        let rooms = rooms_for(self.alloc, &self.tables, desc, asked, kept)?;
        let (answer, raised) = self.tables.apply(desc, self.clock, asked)?;
        let raising = Raising::Object { desc, raised };
        Ok(outcome_of(self.alloc, answer, rooms, kept, raising))
    }
}
