//! The lines of callers and their texts, as they are put together.
ghost use Rattle.std.specs.Prelude.{◌≡◌, ◌==◌, IfOk, IfSome, IsNone, OnOk, map};
ghost use Rattle.ep_scenario.specs.Reading.{IsAt, IsNew, number_of, part_of, put, put_text};
ghost use Rattle.ep_scenario.specs.Reading.{texts_in};

use ep_base::{CallerId, Event};
use ep_orders::Line;
use std::alloc::{AllocError, Global};

fn is_by(line: &Line, caller: CallerId) -> bool
    ensures { result ≡ ((part_of line.now).0.0 == caller.0) }
{
    line.caller.0 == caller.0
}

/// The number of the line that is this caller's, if it has one.
pub(crate) fn line_of(lines: &[Line], caller: CallerId) -> Option<usize>
    ensures there { IfSome result (λ number. IsAt caller (map part_of lines.now) number) }
    ensures missing { IsNone result → IsNew caller (map part_of lines.now) }
{
    for number in 0..lines.len() {
        let line = &lines[number];
        if is_by(line, caller) {
            return Some(number);
        }
    }
    None
}

/// Puts an event behind those of its caller's line, or begins a line for it. Gives the number of
/// that line.
pub(crate) fn add_event(
    alloc: Global,
    lines: &mut Vec<Line>,
    caller: CallerId,
    event: Event,
) -> Result<usize, AllocError>
    ensures put { OnOk result
        (map part_of lines.new.items ≡ put caller event (map part_of lines.old.items)) }
    ensures number { IfOk result (λ n. n ≡ number_of caller (map part_of lines.old.items)) }
{
    if let Some(number) = line_of(lines.as_slice(), caller) {
        lines[number].events.push(event)?;
        return Ok(number);
    }
    let number = lines.len();
    let mut events = Vec::new(alloc);
    events.push(event)?;
    lines.push(Line { caller, events })?;
    Ok(number)
}

fn copy_of(alloc: Global, text: &[u8]) -> Result<Vec<u8>, AllocError>
    ensures { IfOk result (λ copy. copy.items ≡ text.now) }
{
    let mut copy = Vec::new(alloc);
    copy.extend_from_slice(text)?;
    Ok(copy)
}

/// Puts the text of an event behind those of the line of this number, or begins a line for it.
pub(crate) fn add_text(
    alloc: Global,
    texts: &mut Vec<Vec<Vec<u8>>>,
    number: usize,
    text: &[u8],
) -> Result<(), AllocError>
    ensures { OnOk result
        (texts_in texts.new.items ≡ put_text number text.now (texts_in texts.old.items)) }
{
    let copy = copy_of(alloc, text)?;
    if number < texts.len() {
        texts[number].push(copy)?;
        return Ok(());
    }
    let mut first = Vec::new(alloc);
    first.push(copy)?;
    texts.push(first)?;
    Ok(())
}
