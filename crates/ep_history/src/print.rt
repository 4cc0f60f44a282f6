//! A record to its line.
ghost use Rattle.std.specs.Prelude.{◌≡◌, ◌++◌, ◌<◌, ◌^◌, OnOk, codes, decimal, false, map};
ghost use Rattle.serde_json.specs.View.{items_of};
ghost use Rattle.serde_json.specs.Written.{comma_if, compact_text, items_text};
ghost use Rattle.ep_base.specs.declared.call.Event.TheVariants.{Call as CallOf, Tick};
ghost use Rattle.ep_history.specs.Fields.{natural};
ghost use Rattle.ep_history.specs.Fits.{AreLongs, EventFits, RecordFits};
ghost use Rattle.ep_history.specs.Records.{event_data, record_line};

use crate::print_answer::push_answer;
use crate::print_call::push_call;
use crate::push::push_natural;
use ep_base::{Call, CallerId, EntryNumber, Event, Pid, Record, Span};
use std::alloc::AllocError;

fn push_call_event(out: &mut Vec<u8>, pid: Pid, call: &Call) -> Result<(), AllocError>
    ensures text { OnOk result (out.new.items
        ≡ out.old.items ++ compact_text (event_data (CallOf pid call.now))) }
    ensures fits { OnOk result (EventFits (CallOf pid call.now)) }
{
    out.extend_from_slice(b"{\"call\":")?;
    push_call(out, call)?;
    push_natural(out, b",\"pid\":", pid.0)?;
    out.push(b'}')?;
    Ok(())
}

fn push_tick(out: &mut Vec<u8>, n: Span) -> Result<(), AllocError>
    ensures text { OnOk result (out.new.items
        ≡ out.old.items ++ compact_text (event_data (Tick n))) }
    ensures fits { OnOk result (EventFits (Tick n)) }
{
    push_natural(out, b"{\"tick\":", n.0)?;
    out.push(b'}')?;
    Ok(())
}

#[tactic(auto, unfolding(json::specs::Print::escape_byte))]
fn push_event(out: &mut Vec<u8>, event: &Event) -> Result<(), AllocError>
    ensures text { OnOk result (out.new.items
        ≡ out.old.items ++ compact_text (event_data event.now)) }
    ensures fits { OnOk result (EventFits event.now) }
{
    match event {
        Event::Call { pid, call } => push_call_event(out, *pid, call),
        Event::Resume => out.extend_from_slice(b"{\"resume\":true}"),
        Event::Tick { n } => push_tick(out, *n),
    }
}

/// Puts a number, and a comma before it if it is a later one.
fn push_next(out: &mut Vec<u8>, is_later: bool, number: EntryNumber) -> Result<(), AllocError>
    ensures text { OnOk result (out.new.items
        ≡ out.old.items ++ (comma_if is_later ++ decimal number)) }
    ensures fits { OnOk result (number < 2 ^ 64) }
{
    if is_later {
        push_natural(out, b",", number.0)
    } else {
        push_natural(out, b"", number.0)
    }
}

/// Puts a list of numbers but for the bracket that opens it.
fn push_naturals(out: &mut Vec<u8>, numbers: &[EntryNumber]) -> Result<(), AllocError>
    ensures text { OnOk result (out.new.items
        ≡ out.old.items ++ items_text false (items_of (map natural numbers.now))) }
    ensures fits { OnOk result (AreLongs numbers.now) }
{
    let mut is_later = false;
    for number in numbers {
        push_next(out, is_later, *number)?;
        is_later = true;
    }
    out.push(b']')?;
    Ok(())
}

fn push_caller(out: &mut Vec<u8>, caller: CallerId) -> Result<(), AllocError>
    ensures text { OnOk result (out.new.items
        ≡ out.old.items ++ (codes ",\"caller\":" ++ decimal caller.0)) }
    ensures fits { OnOk result (caller.0 < 2 ^ 32) }
{
    push_natural(out, b",\"caller\":", u64::from(caller.0))
}

/// Puts the line of a record behind what is in `out`. An `Err` is want of memory, and leaves at the end of `out` no
/// more than a part of the line.
pub(crate) fn push_record(out: &mut Vec<u8>, entry: &Record) -> Result<(), AllocError>
    ensures text { OnOk result (out.new.items ≡ out.old.items ++ record_line entry.now) }
    ensures fits { OnOk result (RecordFits entry.now) }
{
    out.extend_from_slice(b"{\"answer\":")?;
    push_answer(out, &entry.answer)?;
    push_caller(out, entry.caller)?;
    out.extend_from_slice(b",\"event\":")?;
    push_event(out, &entry.event)?;
    out.extend_from_slice(b",\"picked\":[")?;
    push_naturals(out, entry.picked.as_slice())?;
    out.push(b'}')?;
    Ok(())
}
