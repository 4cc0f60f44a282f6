//! A record to its line, and back.
ghost use Rattle.std.specs.Prelude.{◌≡◌, ◌≤◌, IfOk, Some};
ghost use Rattle.std.specs.List.{All};
ghost use Rattle.serde_json.specs.View.{view};
ghost use Rattle.ep_history.specs.Records.{line_data, line_record, record_data, record_line, record_of, result_of};

use crate::event::event_of;
use crate::fields::{required_u32, size};
use crate::picks::picks_of;
use crate::print::push_record;
use crate::read_answer::answer_of;
use ep_base::{Answer, CallerId, Picked, Record};
use serde_json::Value;
use std::alloc::{AllocError, Global};

/// Room for a usual line.
const USUAL_LINE: usize = 128;

/// The line of a record, compact JSON without the byte 10 that ends it: `read_record` reads it as the same record.
/// `AllocError` is want of memory.
pub fn print_record(alloc: Global, entry: &Record) -> Result<Vec<u8>, AllocError>
    ensures text { IfOk result (λ line. line.items ≡ record_line entry.now) }
    ensures one_line { IfOk result (λ line. All (λ b. 32 ≤ b) line.items) }
    ensures data { IfOk result (λ line. line_data line.items ≡ Some (record_data entry.now)) }
    ensures law { IfOk result (λ line. line_record line.items ≡ Some entry.now) }
{
    let mut line = Vec::with_capacity(alloc, USUAL_LINE)?;
    push_record(&mut line, entry)?;
    Ok(line)
}

/// The answer and the picked registrations, if the object has four members.
fn result_of(alloc: Global, value: &Value) -> Result<Option<(Answer, Picked)>, AllocError>
    ensures { IfOk result (λ r. r ≡ result_of (view value.now)) }
{
    let Some(answer) = value.get("answer") else {
        return Ok(None);
    };
    let Some(answer) = answer_of(alloc, answer)? else {
        return Ok(None);
    };
    let Some(picked) = value.get("picked") else {
        return Ok(None);
    };
    let Some(picked) = picks_of(alloc, picked)? else {
        return Ok(None);
    };
    if size(value) != 4 {
        return Ok(None);
    }
    Ok(Some((answer, picked)))
}

#[tactic(auto, unfolding(crate::specs::Records::record_of))]
pub(crate) fn record_of(alloc: Global, value: &Value) -> Result<Option<Record>, AllocError>
    ensures { IfOk result (λ r. r ≡ record_of (view value.now)) }
{
    let Some(caller) = required_u32(value, "caller") else {
        return Ok(None);
    };
    let Some(event) = value.get("event") else {
        return Ok(None);
    };
    let Some(event) = event_of(alloc, event)? else {
        return Ok(None);
    };
    let Some((answer, picked)) = result_of(alloc, value)? else {
        return Ok(None);
    };
    Ok(Some(Record {
        caller: CallerId(caller),
        event,
        answer,
        picked,
    }))
}

/// The record of a line, which comes without the byte that ends it, or `None` exactly if the line is no record.
/// `AllocError` is want of memory.
pub fn read_record(alloc: Global, line: &[u8]) -> Result<Option<Record>, AllocError>
    ensures { IfOk result (λ r. r ≡ line_record line.now) }
{
    let value = match Value::from_slice(alloc, line) {
        Ok(value) => value,
        Err(error) => {
            return if error.is_memory() {
                Err(AllocError)
            } else {
                Ok(None)
            };
        }
    };
    record_of(alloc, &value)
}
