//! A guess at the answer of an object that `print_record` made. Nothing is said of it.

use crate::cursor::Cursor;
use crate::digits::decoded;
use crate::read_answer::errno_of;
use ep_base::{Answer, Bytes, Errno, Fd, Mask, Name, Report, Reports, Space, Span};
use smallvec::SmallVec;
use std::alloc::Global;

/// An answer as it stands in a line: bytes are left as their digits, since these may be many, and the rest of the line
/// may be of another form.
#[derive(Drop)]
pub(crate) enum RawAnswer<'a> {
    Digits(&'a [u8]),
    Whole(Answer),
}

/// As many bytes as an answer keeps without memory.
const FEW: usize = 16;

/// The bytes of these digits.
fn bytes(alloc: Global, digits: &[u8]) -> Option<Bytes> {
    let half = digits.len() / 2;
    if half > FEW {
        let bytes = decoded(alloc, digits)?;
        return Some(Bytes::new(SmallVec::from_vec(bytes)));
    }
    let mut room = [0; FEW];
    hex::decode_to_slice(digits, &mut room[..half]).ok()?;
    let few = SmallVec::from_slice(alloc, &room[..half]).ok()?;
    Some(Bytes::new(few))
}

impl RawAnswer<'_> {
    /// The answer.
    #[inline(always)]
    pub(crate) fn whole(self, alloc: Global) -> Option<Answer> {
        match self {
            RawAnswer::Digits(digits) => Some(Answer::Bytes(bytes(alloc, digits)?)),
            RawAnswer::Whole(answer) => Some(answer),
        }
    }
}

fn two(line: &mut Cursor<'_>) -> Option<Answer> {
    let first = Fd(line.integer32()?);
    line.expect(b",")?;
    let second = Fd(line.integer32()?);
    line.expect(b"]")?;
    Some(Answer::Two(first, second))
}

fn time(line: &mut Cursor<'_>) -> Option<Answer> {
    let value = Span(line.natural()?);
    line.expect(b",")?;
    let interval = Span(line.natural()?);
    line.expect(b"]")?;
    Some(Answer::Time { value, interval })
}

#[inline(always)]
fn errno(line: &mut Cursor<'_>) -> Option<Errno> {
    let errno = errno_of(line.natural32()?)?;
    line.expect(b",\"")?;
    line.expect(errno.name().as_bytes())?;
    line.expect(b"\"]")?;
    Some(errno)
}

/// The space whose word comes next, with the quotation mark behind it.
pub(crate) fn space_in(line: &mut Cursor<'_>) -> Option<Space> {
    match line.text()? {
        b"v4" => Some(Space::V4),
        b"v6" => Some(Space::V6),
        b"local" => Some(Space::Local),
        _ => None,
    }
}

fn name(line: &mut Cursor<'_>) -> Option<Name> {
    let space = space_in(line)?;
    line.expect(b",")?;
    let number = line.natural32()?;
    line.expect(b"]")?;
    Some(Name { space, number })
}

/// An answer that only sockets give. It stands apart, so that other lines don't pay for it.
#[inline(never)]
fn of_socket(line: &mut Cursor<'_>) -> Option<Answer> {
    if line.take(b"connecting\":true") {
        return Some(Answer::Connecting);
    }
    if line.take(b"failed\":[") {
        return Some(Answer::Failed(errno(line)?));
    }
    if line.take(b"name\":null") {
        return Some(Answer::Named(None));
    }
    line.expect(b"name\":[\"")?;
    Some(Answer::Named(Some(name(line)?)))
}

fn report(line: &mut Cursor<'_>) -> Option<Report> {
    line.expect(b"[")?;
    let bits = Mask(line.natural32()?);
    line.expect(b",")?;
    let tag = line.natural()?;
    line.expect(b"]")?;
    Some(Report { bits, tag })
}

fn events(alloc: Global, line: &mut Cursor<'_>) -> Option<Answer> {
    let mut reports = SmallVec::new(alloc);
    if line.take(b"]") {
        return Some(Answer::Events(Reports::new(reports)));
    }
    for _ in 0..line.rest.len() {
        reports.push(report(line)?).ok()?;
        if !line.take(b",") {
            break;
        }
    }
    line.expect(b"]")?;
    Some(Answer::Events(Reports::new(reports)))
}

/// An answer without a list.
fn other(line: &mut Cursor<'_>) -> Option<Answer> {
    if line.take(b"num\":") {
        return Some(Answer::Num(line.natural()?));
    }
    if line.take(b"done\":true") {
        return Some(Answer::Done);
    }
    if line.take(b"err\":[") {
        return Some(Answer::Refused(errno(line)?));
    }
    if line.take(b"parked\":true") {
        return Some(Answer::Parked);
    }
    if line.take(b"still\":true") {
        return Some(Answer::Still);
    }
    if line.take(b"two\":[") {
        return two(line);
    }
    if line.take(b"time\":[") {
        return time(line);
    }
    of_socket(line)
}

fn raw_answer<'a>(alloc: Global, line: &mut Cursor<'a>) -> Option<RawAnswer<'a>> {
    if line.take(b"events\":[") {
        return Some(RawAnswer::Whole(events(alloc, line)?));
    }
    if line.take(b"bytes\":\"") {
        return Some(RawAnswer::Digits(line.text()?));
    }
    Some(RawAnswer::Whole(other(line)?))
}

/// The answer that seems to come next.
pub(crate) fn guess_answer<'a>(alloc: Global, line: &mut Cursor<'a>) -> Option<RawAnswer<'a>> {
    line.expect(b"{\"")?;
    let answer = raw_answer(alloc, line)?;
    line.expect(b"}")?;
    Some(answer)
}
