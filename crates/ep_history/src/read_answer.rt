//! An answer from its object.
ghost use Rattle.std.specs.Prelude.{◌≡◌, IfOk, option_map};
ghost use Rattle.serde_json.specs.View.{view};
ghost use Rattle.ep_history.specs.Answers.{affirmed, answer_of, answers, bytes_answer, err_answer, errno_in};
ghost use Rattle.ep_history.specs.Answers.{errnos, events_answer, failed_answer, name_answer, name_of};
ghost use Rattle.ep_history.specs.Answers.{numbered, other_answers, report_of, time_answer, two_answer};
ghost use Rattle.ep_history.specs.Fields.{each_of, named};

use crate::bytes::hex_bytes;
use crate::fields::{i32_value, pair_of, single, u32_value};
use crate::words::space_value;
use ep_base::{Answer, Bytes, Errno, Fd, Mask, Name, Report, Reports, Span};
use serde_json::Value;
use smallvec::SmallVec;
use std::alloc::{AllocError, Global};

fn affirmed(value: &Value, answer: Answer) -> Option<Answer>
    ensures { result ≡ affirmed answer (view value.now) }
{
    if value.as_bool()? { Some(answer) } else { None }
}

fn two_answer(value: &Value) -> Option<Answer>
    ensures { result ≡ two_answer (view value.now) }
{
    let (first, second) = pair_of(value)?;
    let first = Fd(i32_value(first)?);
    let second = Fd(i32_value(second)?);
    Some(Answer::Two(first, second))
}

fn bytes_answer(alloc: Global, value: &Value) -> Result<Option<Answer>, AllocError>
    ensures { IfOk result (λ a. a ≡ bytes_answer (view value.now)) }
{
    let Some(bytes) = hex_bytes(alloc, value)? else {
        return Ok(None);
    };
    let bytes = SmallVec::from_slice(alloc, &bytes)?;
    Ok(Some(Answer::Bytes(Bytes::new(bytes))))
}

fn report_of(value: &Value) -> Option<Report>
    ensures { result ≡ report_of (view value.now) }
{
    let (bits, tag) = pair_of(value)?;
    let bits = Mask(u32_value(bits)?);
    let tag = tag.as_u64()?;
    Some(Report { bits, tag })
}

fn reports_of(alloc: Global, value: &Value) -> Result<Option<Reports>, AllocError>
    ensures { IfOk result (λ r. r ≡ each_of report_of (view value.now)) }
{
    let Some(items) = value.as_array() else {
        return Ok(None);
    };
    let mut reports = SmallVec::new(alloc);
    for item in items {
        let Some(report) = report_of(item) else {
            return Ok(None);
        };
        reports.push(report)?;
    }
    Ok(Some(Reports::new(reports)))
}

fn events_answer(alloc: Global, value: &Value) -> Result<Option<Answer>, AllocError>
    ensures { IfOk result (λ a. a ≡ events_answer (view value.now)) }
{
    let Some(reports) = reports_of(alloc, value)? else {
        return Ok(None);
    };
    Ok(Some(Answer::Events(reports)))
}

fn time_answer(value: &Value) -> Option<Answer>
    ensures { result ≡ time_answer (view value.now) }
{
    let (value, interval) = pair_of(value)?;
    let value = Span(value.as_u64()?);
    let interval = Span(interval.as_u64()?);
    Some(Answer::Time { value, interval })
}

pub(crate) fn errno_of(number: u32) -> Option<Errno>
    ensures { result ≡ numbered errnos number }
{
    match number {
        1 => Some(Errno::Eperm),
        2 => Some(Errno::Enoent),
        3 => Some(Errno::Esrch),
        9 => Some(Errno::Ebadf),
        11 => Some(Errno::Eagain),
        12 => Some(Errno::Enomem),
        16 => Some(Errno::Ebusy),
        17 => Some(Errno::Eexist),
        22 => Some(Errno::Einval),
        23 => Some(Errno::Enfile),
        24 => Some(Errno::Emfile),
        28 => Some(Errno::Enospc),
        32 => Some(Errno::Epipe),
        40 => Some(Errno::Eloop),
        88 => Some(Errno::Enotsock),
        97 => Some(Errno::Eafnosupport),
        98 => Some(Errno::Eaddrinuse),
        99 => Some(Errno::Eaddrnotavail),
        103 => Some(Errno::Econnaborted),
        104 => Some(Errno::Econnreset),
        106 => Some(Errno::Eisconn),
        107 => Some(Errno::Enotconn),
        111 => Some(Errno::Econnrefused),
        114 => Some(Errno::Ealready),
        _ => None,
    }
}

/// The error of a list of its number and its name.
fn errno_in(value: &Value) -> Option<Errno>
    ensures { result ≡ errno_in (view value.now) }
{
    let (number, name) = pair_of(value)?;
    let errno = errno_of(u32_value(number)?)?;
    if name.as_str()? == errno.name() {
        Some(errno)
    } else {
        None
    }
}

fn err_answer(value: &Value) -> Option<Answer>
    ensures { result ≡ err_answer (view value.now) }
{
    Some(Answer::Refused(errno_in(value)?))
}

fn failed_answer(value: &Value) -> Option<Answer>
    ensures { result ≡ failed_answer (view value.now) }
{
    Some(Answer::Failed(errno_in(value)?))
}

fn name_of(value: &Value) -> Option<Name>
    ensures { result ≡ name_of (view value.now) }
{
    let (space, number) = pair_of(value)?;
    let space = space_value(space)?;
    let number = u32_value(number)?;
    Some(Name { space, number })
}

fn name_answer(value: &Value) -> Option<Answer>
    ensures { result ≡ name_answer (view value.now) }
{
    if value.is_null() {
        return Some(Answer::Named(None));
    }
    Some(Answer::Named(Some(name_of(value)?)))
}

/// An answer without a list.
fn other_answer(key: &str, value: &Value) -> Option<Answer>
    ensures { result ≡ named other_answers key.now (view value.now) }
{
    match key {
        "done" => affirmed(value, Answer::Done),
        "num" => Some(Answer::Num(value.as_u64()?)),
        "two" => two_answer(value),
        "time" => time_answer(value),
        "parked" => affirmed(value, Answer::Parked),
        "still" => affirmed(value, Answer::Still),
        "err" => err_answer(value),
        "connecting" => affirmed(value, Answer::Connecting),
        "failed" => failed_answer(value),
        "name" => name_answer(value),
        _ => None,
    }
}

/// The answer of an object, or `None` if it is no object of an answer.
pub(crate) fn answer_of(alloc: Global, value: &Value) -> Result<Option<Answer>, AllocError>
    ensures { IfOk result (λ a. a ≡ answer_of (view value.now)) }
{
    let Some((key, value)) = single(value) else {
        return Ok(None);
    };
    match key {
        "bytes" => bytes_answer(alloc, value),
        "events" => events_answer(alloc, value),
        _ => Ok(other_answer(key, value)),
    }
}
