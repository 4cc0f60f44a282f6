//! A guess at the record of a line that `print_record` made. Nothing is said of it: whoever asks prints the record, and
//! compares the line.

use crate::cursor::Cursor;
use crate::guess_answer::guess_answer;
use crate::guess_call::{RawCall, guess_call};
use ep_base::{CallerId, EntryNumber, Event, Picked, Pid, Record, Span};
use smallvec::SmallVec;
use std::alloc::Global;

/// An event as it stands in a line.
#[derive(Drop)]
enum RawEvent<'a> {
    Call(Pid, RawCall<'a>),
    Whole(Event),
}

impl RawEvent<'_> {
    /// The event.
    #[inline(always)]
    fn whole(self, alloc: Global) -> Option<Event> {
        match self {
            RawEvent::Call(pid, call) => Some(Event::Call {
                pid,
                call: call.whole(alloc)?,
            }),
            RawEvent::Whole(event) => Some(event),
        }
    }
}

/// The event that seems to come next, but for the brace that ends it.
fn event<'a>(line: &mut Cursor<'a>) -> Option<RawEvent<'a>> {
    if line.take(b"{\"call\":") {
        let call = guess_call(line)?;
        line.expect(b",\"pid\":")?;
        return Some(RawEvent::Call(Pid(line.natural()?), call));
    }
    if line.take(b"{\"resume\":true") {
        return Some(RawEvent::Whole(Event::Resume));
    }
    line.expect(b"{\"tick\":")?;
    let n = Span(line.natural()?);
    Some(RawEvent::Whole(Event::Tick { n }))
}

/// The numbers up to the end of a list.
fn picked(alloc: Global, line: &mut Cursor<'_>) -> Option<Picked> {
    let mut numbers = SmallVec::new(alloc);
    if line.take(b"]") {
        return Some(Picked::new(numbers));
    }
    for _ in 0..line.rest.len() {
        numbers.push(EntryNumber(line.natural()?)).ok()?;
        if !line.take(b",") {
            break;
        }
    }
    line.expect(b"]")?;
    Some(Picked::new(numbers))
}

/// A record whose line this may be, made for lines of the form of `print_record`. No contract says which record it is,
/// nor that there is one. Want of memory is `None`, too. Bytes are made of their digits when the whole line has been
/// seen to be of that form, so that another line costs little.
pub(crate) fn guess_record(alloc: Global, line: &[u8]) -> Option<Record> {
    let mut line = Cursor { rest: line };
    line.expect(b"{\"answer\":")?;
    let answer = guess_answer(alloc, &mut line)?;
    line.expect(b",\"caller\":")?;
    let caller = CallerId(line.natural32()?);
    line.expect(b",\"event\":")?;
    let event = event(&mut line)?;
    line.expect(b"},\"picked\":[")?;
    let picked = picked(alloc, &mut line)?;
    if line.rest != b"}".as_slice() {
        return None;
    }
    Some(Record {
        caller,
        event: event.whole(alloc)?,
        answer: answer.whole(alloc)?,
        picked,
    })
}
