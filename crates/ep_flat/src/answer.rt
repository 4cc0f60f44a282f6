//! How an answer is laid out.
ghost use Rattle.std.specs.Prelude.{◌≡◌, ◌≤◌, length, map, min, pos};
ghost use Rattle.ep_base.specs.Errno.{errno_number};
ghost use Rattle.ep_flat.specs.Flat.{as_result, bytes_of, flat_report, overlaid, plain_reply, refused, reply_of, reports_of};

use crate::flat::{FlatReply, FlatReport};
use crate::sockets::space_number;
use ep_base::{Answer, Errno, Report};

/// The answer of a caller that is parked: below the error numbers, of which Linux has at most 4,095.
const PARKED: i64 = -4_096;

/// The answer of a connection that has begun: minus the number of EINPROGRESS, by which no event is refused.
const CONNECTING: i64 = -115;

/// The largest result.
const LARGEST: u64 = 9_223_372_036_854_775_807;

/// Copies bytes to the beginning of the room, as far as it reaches.
pub fn put_bytes(given: &[u8], bytes: &mut [u8])
    ensures { bytes.new ≡ overlaid bytes.old given.now }
{
    let fits = if given.len() <= bytes.len() {
        given.len()
    } else {
        bytes.len()
    };
    bytes[..fits].copy_from_slice(&given[..fits]);
}

/// Lays out reports at the beginning of the room, as far as it reaches.
fn put_reports(given: &[Report], reports: &mut [FlatReport])
    ensures { reports.new ≡ overlaid reports.old (map flat_report given.now) }
{
    let mut at = 0;
    while at < given.len() && at < reports.len() {
        reports[at] = FlatReport {
            events: given[at].bits.0,
            tag: given[at].tag,
        };
        at += 1;
    }
}

/// A number as a result.
fn as_result(number: u64) -> i64
    ensures { result ≡ as_result number }
{
    if number <= LARGEST {
        number as i64
    } else {
        9_223_372_036_854_775_807
    }
}

/// An error as a result.
fn refused(errno: Errno) -> i64
    ensures { result ≡ refused (errno_number errno) }
{
    -(errno.number() as i64)
}

/// The reply that is a result alone.
fn plain_reply(number: i64, now: u64) -> FlatReply
    ensures { result ≡ plain_reply number now }
{
    FlatReply {
        result: number,
        first: 0,
        second: 0,
        value: 0,
        interval: 0,
        now,
    }
}

/// The reply of an answer at this moment.
fn reply_of(answer: &Answer, now: u64) -> FlatReply
    ensures { result ≡ reply_of answer.now now }
{
    let mut reply = plain_reply(0, now);
    match answer {
        Answer::Done => {}
        Answer::Num(number) => reply.result = as_result(*number),
        Answer::Two(first, second) => {
            reply.first = first.0;
            reply.second = second.0;
        }
        Answer::Bytes(given) => reply.result = given.as_slice().len() as i64,
        Answer::Events(given) => reply.result = given.as_slice().len() as i64,
        Answer::Time { value, interval } => {
            reply.value = value.0;
            reply.interval = interval.0;
        }
        Answer::Parked => reply.result = PARKED,
        Answer::Still => reply.result = PARKED,
        Answer::Connecting => reply.result = CONNECTING,
        Answer::Failed(errno) => reply.result = refused(*errno),
        Answer::Named(None) => {}
        Answer::Named(Some(name)) => {
            reply.result = 1;
            reply.first = space_number(name.space);
            reply.value = u64::from(name.number);
        }
        Answer::Refused(errno) => reply.result = refused(*errno),
    }
    reply
}

/// Lays out an answer at this moment: the reply, and the bytes or reports as far as there is room. The reply tells how
/// many there are. What lies behind them in the room stays.
pub fn put_answer(
    answer: &Answer,
    now: u64,
    reply: &mut FlatReply,
    bytes: &mut [u8],
    reports: &mut [FlatReport],
)
    ensures reply { reply.new ≡ reply_of answer.now now }
    ensures bytes { bytes.new ≡ overlaid bytes.old (bytes_of answer.now) }
    ensures reports { reports.new
        ≡ overlaid reports.old (map flat_report (reports_of answer.now)) }
{
    *reply = reply_of(answer, now);
    match answer {
        Answer::Bytes(given) => put_bytes(given.as_slice(), bytes),
        Answer::Events(given) => put_reports(given.as_slice(), reports),
        _ => {}
    }
}

/// Lays out the answer of a read that gives these bytes, as `put_answer` does.
pub fn put_given(given: &[u8], now: u64, reply: &mut FlatReply, bytes: &mut [u8])
    ensures reply { reply.new ≡ reply_of (Answer.Bytes given.now) now }
    ensures bytes { bytes.new ≡ overlaid bytes.old given.now }
{
    *reply = plain_reply(given.len() as i64, now);
    put_bytes(given, bytes);
}

/// Lays out the answer of a wait that makes these reports, as `put_answer` does.
pub fn put_told(given: &[Report], now: u64, reply: &mut FlatReply, reports: &mut [FlatReport])
    ensures reply { reply.new ≡ reply_of (Answer.Events given.now) now }
    ensures reports { reports.new ≡ overlaid reports.old (map flat_report given.now) }
{
    *reply = plain_reply(given.len() as i64, now);
    put_reports(given, reports);
}
