//! An answer to the text of its object.
ghost use Rattle.std.specs.Prelude.{◌≡◌, ◌++◌, All, OnOk, Some, codes, decimal, false, map};
ghost use Rattle.serde_json.specs.View.{items_of};
ghost use Rattle.serde_json.specs.Written.{comma_if, compact_text, items_text};
ghost use Rattle.ep_base.specs.declared.answer.Answer.TheVariants.{Bytes, Events, Failed, Named, Num, Refused, Time, Two};
ghost use Rattle.ep_base.specs.Errno.{errno_name, errno_number};
ghost use Rattle.ep_history.specs.Answers.{answer_data, report_data};
ghost use Rattle.ep_history.specs.Fits.{AnswerFits, ReportFits};

use crate::push::{push_descriptor, push_hex, push_natural};
use crate::words::space_text;
use ep_base::{Answer, Errno, Fd, Name, Report, Span};
use std::alloc::AllocError;

fn push_num(out: &mut Vec<u8>, number: u64) -> Result<(), AllocError>
    ensures text { OnOk result (out.new.items
        ≡ out.old.items ++ compact_text (answer_data (Num number))) }
    ensures fits { OnOk result (AnswerFits (Num number)) }
{
    push_natural(out, b"{\"num\":", number)?;
    out.push(b'}')?;
    Ok(())
}

fn push_two(out: &mut Vec<u8>, first: Fd, second: Fd) -> Result<(), AllocError>
    ensures text { OnOk result (out.new.items
        ≡ out.old.items ++ compact_text (answer_data (Two first second))) }
    ensures fits { OnOk result (AnswerFits (Two first second)) }
{
    push_descriptor(out, b"{\"two\":[", first)?;
    push_descriptor(out, b",", second)?;
    out.extend_from_slice(b"]}")?;
    Ok(())
}

fn push_bytes(out: &mut Vec<u8>, bytes: &[u8]) -> Result<(), AllocError>
    ensures text { OnOk result (out.new.items
        ≡ out.old.items ++ compact_text (answer_data (Bytes bytes.now))) }
    ensures fits { OnOk result (AnswerFits (Bytes bytes.now)) }
{
    push_hex(out, b"{\"bytes\":\"", bytes)?;
    out.extend_from_slice(b"\"}")?;
    Ok(())
}

/// Puts this text, which ends in a bracket, and the rest of the report.
fn push_report(out: &mut Vec<u8>, text: &[u8], report: Report) -> Result<(), AllocError>
    ensures text { OnOk result (out.new.items
        ≡ out.old.items ++ (text.now ++ (decimal report.bits.0 ++ (codes "," ++ (decimal report.tag ++ codes "]"))))) }
    ensures fits { OnOk result (ReportFits report) }
{
    push_natural(out, text, u64::from(report.bits.0))?;
    push_natural(out, b",", report.tag)?;
    out.push(b']')?;
    Ok(())
}

/// Puts a report, and a comma before it if it is a later one.
fn push_next(out: &mut Vec<u8>, is_later: bool, report: Report) -> Result<(), AllocError>
    ensures text { OnOk result (out.new.items
        ≡ out.old.items ++ (comma_if is_later ++ compact_text (report_data report))) }
    ensures fits { OnOk result (ReportFits report) }
{
    if is_later {
        push_report(out, b",[", report)
    } else {
        push_report(out, b"[", report)
    }
}

/// Puts a list of reports but for the bracket that opens it.
fn push_reports(out: &mut Vec<u8>, reports: &[Report]) -> Result<(), AllocError>
    ensures text { OnOk result (out.new.items
        ≡ out.old.items ++ items_text false (items_of (map report_data reports.now))) }
    ensures fits { OnOk result (All ReportFits reports.now) }
{
    let mut is_later = false;
    for report in reports {
        push_next(out, is_later, *report)?;
        is_later = true;
    }
    out.push(b']')?;
    Ok(())
}

fn push_events(out: &mut Vec<u8>, reports: &[Report]) -> Result<(), AllocError>
    ensures text { OnOk result (out.new.items
        ≡ out.old.items ++ compact_text (answer_data (Events reports.now))) }
    ensures fits { OnOk result (AnswerFits (Events reports.now)) }
{
    out.extend_from_slice(b"{\"events\":[")?;
    push_reports(out, reports)?;
    out.push(b'}')?;
    Ok(())
}

fn push_time(out: &mut Vec<u8>, value: Span, interval: Span) -> Result<(), AllocError>
    ensures text { OnOk result (out.new.items
        ≡ out.old.items ++ compact_text (answer_data (Time value interval))) }
    ensures fits { OnOk result (AnswerFits (Time value interval)) }
{
    push_natural(out, b"{\"time\":[", value.0)?;
    push_natural(out, b",", interval.0)?;
    out.extend_from_slice(b"]}")?;
    Ok(())
}

/// Puts this text, which ends in a bracket, and the rest of the object of an error.
#[inline(always)]
fn push_errno(out: &mut Vec<u8>, text: &[u8], errno: Errno) -> Result<(), AllocError>
    ensures { OnOk result (out.new.items
        ≡ out.old.items ++ (text.now ++ (decimal (errno_number errno) ++ (codes ",\"" ++ (errno_name errno ++ codes "\"]}"))))) }
{
    push_natural(out, text, u64::from(errno.number()))?;
    out.extend_from_slice(b",\"")?;
    out.extend_from_slice(errno.name().as_bytes())?;
    out.extend_from_slice(b"\"]}")?;
    Ok(())
}

fn push_err(out: &mut Vec<u8>, errno: Errno) -> Result<(), AllocError>
    ensures { OnOk result (out.new.items
        ≡ out.old.items ++ compact_text (answer_data (Refused errno))) }
{
    push_errno(out, b"{\"err\":[", errno)
}

#[cold]
#[inline(never)]
fn push_failed(out: &mut Vec<u8>, errno: Errno) -> Result<(), AllocError>
    ensures { OnOk result (out.new.items
        ≡ out.old.items ++ compact_text (answer_data (Failed errno))) }
{
    push_errno(out, b"{\"failed\":[", errno)
}

#[cold]
#[inline(never)]
fn push_name(out: &mut Vec<u8>, name: Name) -> Result<(), AllocError>
    ensures text { OnOk result (out.new.items
        ≡ out.old.items ++ compact_text (answer_data (Named (Some name)))) }
    ensures fits { OnOk result (AnswerFits (Named (Some name))) }
{
    out.extend_from_slice(b"{\"name\":[\"")?;
    out.extend_from_slice(space_text(name.space).as_bytes())?;
    push_natural(out, b"\",", u64::from(name.number))?;
    out.extend_from_slice(b"]}")?;
    Ok(())
}

/// Puts the object of an answer.
#[tactic(auto, unfolding(json::specs::Print::escape_byte))]
pub(crate) fn push_answer(out: &mut Vec<u8>, answer: &Answer) -> Result<(), AllocError>
    ensures text { OnOk result (out.new.items
        ≡ out.old.items ++ compact_text (answer_data answer.now)) }
    ensures fits { OnOk result (AnswerFits answer.now) }
{
    match answer {
        Answer::Done => out.extend_from_slice(b"{\"done\":true}"),
        Answer::Num(number) => push_num(out, *number),
        Answer::Two(first, second) => push_two(out, *first, *second),
        Answer::Bytes(bytes) => push_bytes(out, bytes.as_slice()),
        Answer::Events(reports) => push_events(out, reports.as_slice()),
        Answer::Time { value, interval } => push_time(out, *value, *interval),
        Answer::Parked => out.extend_from_slice(b"{\"parked\":true}"),
        Answer::Still => out.extend_from_slice(b"{\"still\":true}"),
        Answer::Connecting => out.extend_from_slice(b"{\"connecting\":true}"),
        Answer::Failed(errno) => push_failed(out, *errno),
        Answer::Named(None) => out.extend_from_slice(b"{\"name\":null}"),
        Answer::Named(Some(name)) => push_name(out, *name),
        Answer::Refused(errno) => push_err(out, *errno),
    }
}
