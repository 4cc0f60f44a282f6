//! An event from its object.
ghost use Rattle.std.specs.Prelude.{◌≡◌, IfOk};
ghost use Rattle.serde_json.specs.View.{view};
ghost use Rattle.ep_history.specs.Fields.{named};
ghost use Rattle.ep_history.specs.Records.{call_event, event_of, other_events};

use crate::fields::{required_u64, single, size};
use crate::read_call::call_of;
use ep_base::{Event, Pid, Span};
use serde_json::Value;
use std::alloc::{AllocError, Global};

fn call_event(alloc: Global, value: &Value) -> Result<Option<Event>, AllocError>
    ensures { IfOk result (λ e. e ≡ call_event (view value.now)) }
{
    let Some(pid) = required_u64(value, "pid") else {
        return Ok(None);
    };
    let Some(call) = value.get("call") else {
        return Ok(None);
    };
    let Some(call) = call_of(alloc, call)? else {
        return Ok(None);
    };
    if size(value) != 2 {
        return Ok(None);
    }
    Ok(Some(Event::Call {
        pid: Pid(pid),
        call,
    }))
}

/// An event that is no call.
fn other_event(key: &str, value: &Value) -> Option<Event>
    ensures { result ≡ named other_events key.now (view value.now) }
{
    match key {
        "resume" => {
            if value.as_bool()? {
                Some(Event::Resume)
            } else {
                None
            }
        }
        "tick" => Some(Event::Tick {
            n: Span(value.as_u64()?),
        }),
        _ => None,
    }
}

/// The event of an object, or `None` if it is no object of an event.
pub(crate) fn event_of(alloc: Global, value: &Value) -> Result<Option<Event>, AllocError>
    ensures { IfOk result (λ e. e ≡ event_of (view value.now)) }
{
    match single(value) {
        Some((key, value)) => Ok(other_event(key, value)),
        None => call_event(alloc, value),
    }
}
