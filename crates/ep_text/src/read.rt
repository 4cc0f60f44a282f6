//! A line to what it asks for.
ghost use Rattle.std.specs.Prelude.{◌≡◌, ◌↔◌, IfOk, IsNone, IsSome};
ghost use Rattle.serde_json.specs.View.{view};
ghost use Rattle.ep_text.specs.Event.{asked, by_process, command, event, operation_in, reading, reason, tick_event};
ghost use Rattle.ep_text.specs.Keys.{ok_map};
ghost use Rattle.ep_text.specs.declared.reason.Reason.TheVariants.{UnknownKey};
ghost use Rattle.ep_text.specs.Ops.{call_of, operation_of};
ghost use Rattle.ep_text.specs.Source.{found_data, source_data};
ghost use Rattle.ep_version.specs.declared.version.Version.{Version};

use crate::calls::call_of;
use crate::fields::{required_u64, u32_or, u64_or};
use crate::header::without_op;
use crate::key::Key;
use crate::keys::first_other;
use crate::op::{CallOp, Op};
use crate::reason::{Name, Reason, unfit, unread};
use crate::source::{Found, Source};
use crate::value_kind::ValueKind;
use ep_base::{CallerId, Event, Pid, Span};
use ep_version::{Version, event_in};
use serde_json::Value;
use std::alloc::{AllocError, Global};

fn call_event(
    alloc: Global,
    op: CallOp,
    value: &Source<'_>,
) -> Result<Result<Event, Reason>, AllocError>
    ensures { IfOk result (λ e. e ≡ by_process (call_of op) (source_data value.now)) }
{
    let pid = match u64_or(value, Key::Pid, 1) {
        Ok(pid) => pid,
        Err(reason) => return Ok(Err(reason)),
    };
    match call_of(alloc, op, value)? {
        Ok(call) => Ok(Ok(Event::Call {
            pid: Pid(pid),
            call,
        })),
        Err(reason) => Ok(Err(reason)),
    }
}

fn tick_event(value: &Source<'_>) -> Result<Event, Reason>
    ensures { result ≡ tick_event (source_data value.now) }
{
    let n = required_u64(value, Key::N)?;
    Ok(Event::Tick { n: Span(n) })
}

fn event_of(alloc: Global, op: Op, value: &Source<'_>) -> Result<Result<Event, Reason>, AllocError>
    ensures { IfOk result (λ e. e ≡ (operation_of op).asks (source_data value.now)) }
{
    match op {
        Op::Call(op) => call_event(alloc, op, value),
        Op::Resume => Ok(Ok(Event::Resume)),
        Op::Tick => Ok(tick_event(value)),
    }
}

pub(crate) fn asked(
    alloc: Global,
    op: Op,
    value: &Source<'_>,
) -> Result<Result<(CallerId, Event), Reason>, AllocError>
    ensures { IfOk result (λ r. r ≡ asked (operation_of op) (source_data value.now)) }
{
    let by = match u32_or(value, Key::By, 0) {
        Ok(by) => by,
        Err(reason) => return Ok(Err(reason)),
    };
    match event_of(alloc, op, value)? {
        Ok(event) => Ok(Ok((CallerId(by), event))),
        Err(reason) => Ok(Err(reason)),
    }
}

/// The operation that a value of `op` names.
pub(crate) fn operation_in(
    alloc: Global,
    value: &Found<'_>,
) -> Result<Result<Op, Reason>, AllocError>
    ensures { IfOk result (λ r. ok_map operation_of r ≡ operation_in (found_data value.now)) }
{
    let Some(name) = value.as_str() else {
        return Ok(Err(unfit(value, Key::Op, ValueKind::Text)));
    };
    match Op::named(name) {
        Some(op) => Ok(Ok(op)),
        None => Ok(Err(Reason::UnknownOp(Name::new(alloc, name)?))),
    }
}

fn unknown_key(alloc: Global, op: Op, name: &str) -> Result<Reason, AllocError>
    ensures { IfOk result (λ r. r ≡ UnknownKey (operation_of op).op name.now) }
{
    let name = Name::new(alloc, name)?;
    Ok(Reason::UnknownKey { op, name })
}

#[tactic(auto, unfolding(crate::specs::Event::command))]
pub(crate) fn command(
    alloc: Global,
    value: &Value,
) -> Result<Result<(CallerId, Event), Reason>, AllocError>
    ensures { IfOk result (λ r. r ≡ command (view value.now)) }
{
    let Some(members) = value.as_object() else {
        return Ok(Err(Reason::NoObject));
    };
    let line = Source::Tree(value);
    let Some(named) = line.get(Key::Op) else {
        return Ok(Err(without_op(value)));
    };
    let op = match operation_in(alloc, &named)? {
        Ok(op) => op,
        Err(reason) => return Ok(Err(reason)),
    };
    match first_other(op.keys(), members) {
        Some(name) => Ok(Err(unknown_key(alloc, op, name)?)),
        None => asked(alloc, op, &line),
    }
}

fn reading(alloc: Global, line: &[u8]) -> Result<Result<(CallerId, Event), Reason>, AllocError>
    ensures { IfOk result (λ r. r ≡ reading line.now) }
{
    let value = match Value::from_slice(alloc, line) {
        Ok(value) => value,
        Err(error) => {
            return if error.is_memory() {
                Err(AllocError)
            } else {
                Ok(Err(unread(line, &error)))
            };
        }
    };
    command(alloc, &value)
}

/// What a line of a script asks for and who asks, or `None` exactly if the line is no command: one
/// object, whose `op` is a call, `resume` or `tick`. It has the keys of that operation and no other,
/// each with a value of its kind and range. In version 1 the times of the line are milliseconds, and
/// come a thousandfold; the longest that there is stands for any that is longer. In version 2 they
/// are microseconds. The line comes without the byte that ends it. `AllocError` is want of memory.
pub fn read_line(
    alloc: Global,
    version: Version,
    line: &[u8],
) -> Result<Option<(CallerId, Event)>, AllocError>
    ensures { IfOk result (λ r. r ≡ event version line.now) }
{
    match reading(alloc, line)? {
        Ok((caller, event)) => Ok(Some((caller, event_in(version, event)))),
        Err(_) => Ok(None),
    }
}

/// Why a line is no command, or `None` exactly if `read_line` finds one; a script's version plays no
/// part. It is the first reason that holds, in this order: no byte at all, no JSON behind a byte
/// order mark, no JSON, no object. Then, if `op` is not there: a version, which only a first line can
/// name, or a key `version` that names none; else that `op` is missing. Then `op` is no text or
/// unknown, or a key is none of the operation. Then comes the wrong value of `by`, of `pid`, and of
/// each further key in the order of docs/script.md, or that the key is missing. `AllocError` is want
/// of memory.
pub fn explain(alloc: Global, line: &[u8]) -> Result<Option<Reason>, AllocError>
    ensures first { IfOk result (λ r. r ≡ reason line.now) }
    ensures exact { (version : Version) → IfOk result (λ r. IsSome r ↔ IsNone (event version line.now)) }
{
    Ok(reading(alloc, line)?.err())
}
