//! An answer to the line that tells it.
ghost use Rattle.std.specs.Fmt.{signed_decimal};
ghost use Rattle.std.specs.Prelude.{◌≡◌, ◌++◌, IfOk, OnOk, codes, decimal, string_bytes, true};
ghost use Rattle.hex.specs.Hex.{encode_lower};
ghost use Rattle.ep_base.specs.Errno.{errno_name, errno_number};
ghost use Rattle.ep_text.specs.Line.{bad_line, header_line, line_of, reports_text};
ghost use Rattle.ep_text.specs.Sockets.{space_text};

use crate::sockets::space_word;
use ep_base::{Answer, Errno, Name, Report};
use ep_version::{Version, shown_in};
use std::alloc::{AllocError, Global};

fn push_reports(text: &mut String, reports: &[Report]) -> Result<(), AllocError>
    ensures { OnOk result
        (string_bytes text.new ≡ string_bytes text.old ++ reports_text true reports.now) }
{
    let mut is_first = true;
    for report in reports {
        let bits = report.bits.0;
        let tag = report.tag;
        if is_first {
            write!(text, "[{bits},{tag}]")?;
        } else {
            write!(text, ",[{bits},{tag}]")?;
        }
        is_first = false;
    }
    Ok(())
}

fn push_events(text: &mut String, reports: &[Report]) -> Result<(), AllocError>
    ensures { OnOk result
        (string_bytes text.new
        ≡ string_bytes text.old
        ++ (codes "{\"events\":[" ++ reports_text true reports.now ++ codes "]}\n")) }
{
    text.push_str("{\"events\":[")?;
    push_reports(text, reports)?;
    text.push_str("]}\n")?;
    Ok(())
}

fn push_two(text: &mut String, first: i32, second: i32) -> Result<(), AllocError>
    ensures { OnOk result (string_bytes text.new
        ≡ string_bytes text.old ++ (codes "{\"two\":[" ++ signed_decimal first ++ codes "," ++ signed_decimal second ++ codes "]}\n")) }
{
    write!(text, "{{\"two\":[{first},{second}]}}\n")?;
    Ok(())
}

fn push_time(text: &mut String, value: u64, interval: u64) -> Result<(), AllocError>
    ensures { OnOk result (string_bytes text.new
        ≡ string_bytes text.old ++ (codes "{\"time\":[" ++ decimal value ++ codes "," ++ decimal interval ++ codes "]}\n")) }
{
    write!(text, "{{\"time\":[{value},{interval}]}}\n")?;
    Ok(())
}

fn push_bytes(alloc: Global, text: &mut String, bytes: &[u8]) -> Result<(), AllocError>
    ensures { OnOk result
        (string_bytes text.new
        ≡ string_bytes text.old
        ++ (codes "{\"bytes\":\"" ++ encode_lower bytes.now ++ codes "\"}\n")) }
{
    let digits = hex::encode(alloc, bytes)?;
    write!(text, "{{\"bytes\":\"{digits}\"}}\n")?;
    Ok(())
}

fn push_errno(text: &mut String, errno: Errno) -> Result<(), AllocError>
    ensures { OnOk result (string_bytes text.new
        ≡ string_bytes text.old ++ (codes "{\"err\":[" ++ decimal (errno_number errno) ++ codes ",\"" ++ errno_name errno ++ codes "\"]}\n")) }
{
    let number = errno.number();
    let name = errno.name();
    write!(text, "{{\"err\":[{number},\"{name}\"]}}\n")?;
    Ok(())
}

/// Puts an error behind the bracket of its list, and ends the line.
fn push_number_and_name(text: &mut String, errno: Errno) -> Result<(), AllocError>
    ensures { OnOk result (string_bytes text.new
        ≡ string_bytes text.old ++ (decimal (errno_number errno) ++ codes ",\"" ++ errno_name errno ++ codes "\"]}\n")) }
{
    let number = errno.number();
    let name = errno.name();
    write!(text, "{number},\"{name}\"]}}\n")?;
    Ok(())
}

#[cold]
#[inline(never)]
fn push_failed(text: &mut String, errno: Errno) -> Result<(), AllocError>
    ensures { OnOk result (string_bytes text.new
        ≡ string_bytes text.old ++ (codes "{\"failed\":[" ++ decimal (errno_number errno) ++ codes ",\"" ++ errno_name errno ++ codes "\"]}\n")) }
{
    text.push_str("{\"failed\":[")?;
    push_number_and_name(text, errno)?;
    Ok(())
}

#[cold]
#[inline(never)]
fn push_name(text: &mut String, name: Name) -> Result<(), AllocError>
    ensures { OnOk result (string_bytes text.new
        ≡ string_bytes text.old ++ (codes "{\"name\":[\"" ++ space_text name.space ++ codes "\"," ++ decimal name.number ++ codes "]}\n")) }
{
    let space = space_word(name.space);
    let number = name.number;
    write!(text, "{{\"name\":[\"{space}\",{number}]}}\n")?;
    Ok(())
}

/// Puts the line of an answer, with the byte 10 that ends it, behind the text. In version 1 the
/// times of a timer are milliseconds, rounded up; in version 2 they are microseconds. After an
/// `AllocError` the text may have a part of the line.
#[tactic(auto, unfolding(crate::specs::Line::line_of))]
pub fn push_answer(
    alloc: Global,
    version: Version,
    text: &mut String,
    answer: &Answer,
) -> Result<(), AllocError>
    ensures { OnOk result
        (string_bytes text.new ≡ string_bytes text.old ++ line_of version answer.now) }
{
    match answer {
        Answer::Done => text.push_str("{\"done\":true}\n"),
        Answer::Num(number) => push_number(text, *number),
        Answer::Two(first, second) => push_two(text, first.0, second.0),
        Answer::Bytes(bytes) => push_bytes(alloc, text, bytes.as_slice()),
        Answer::Events(reports) => push_events(text, reports.as_slice()),
        Answer::Time { value, interval } => {
            push_time(
                text,
                shown_in(version, *value),
                shown_in(version, *interval),
            )
        }
        Answer::Parked => text.push_str("{\"parked\":true}\n"),
        Answer::Still => text.push_str("{\"still\":true}\n"),
        Answer::Connecting => text.push_str("{\"connecting\":true}\n"),
        Answer::Failed(errno) => push_failed(text, *errno),
        Answer::Named(None) => text.push_str("{\"name\":null}\n"),
        Answer::Named(Some(name)) => push_name(text, *name),
        Answer::Refused(errno) => push_errno(text, *errno),
    }
}

fn push_number(text: &mut String, number: u64) -> Result<(), AllocError>
    ensures { OnOk result
        (string_bytes text.new
        ≡ string_bytes text.old ++ (codes "{\"num\":" ++ decimal number ++ codes "}\n")) }
{
    write!(text, "{{\"num\":{number}}}\n")?;
    Ok(())
}

/// Puts what is said of a line that is no command, by its number, behind the text.
/// After an `AllocError` the text may have a part of it.
#[tactic(auto, unfolding(crate::specs::Line::bad_line))]
pub fn push_bad(text: &mut String, number: u64) -> Result<(), AllocError>
    ensures { OnOk result (string_bytes text.new ≡ string_bytes text.old ++ bad_line number) }
{
    write!(text, "{{\"bad\":{number}}}\n")?;
    Ok(())
}

/// Puts the line that answers a header behind the text. After an `AllocError` the text may have a
/// part of it.
#[tactic(auto, unfolding(crate::specs::Line::header_line))]
pub fn push_header(text: &mut String, version: Version) -> Result<(), AllocError>
    ensures { OnOk result (string_bytes text.new ≡ string_bytes text.old ++ header_line version) }
{
    match version {
        Version::V1 => text.push_str("{\"version\":1}\n"),
        Version::V2 => text.push_str("{\"version\":2}\n"),
    }
}

/// The line that tells an answer in a script of this version, compact JSON with one key, and the
/// byte 10 that ends it. `AllocError` is want of memory.
pub fn print_answer(alloc: Global, version: Version, answer: &Answer) -> Result<Vec<u8>, AllocError>
    ensures { IfOk result (λ line. line.items ≡ line_of version answer.now) }
{
    let mut text = String::new(alloc);
    push_answer(alloc, version, &mut text, answer)?;
    Ok(text.into_bytes())
}
