//! A script that plays an order again.
ghost use Rattle.std.specs.Prelude.{◌≡◌, ◌++◌, OnOk, codes, decimal, option_map, slice_index};
ghost use Rattle.ep_scenario.specs.Reading.{plan_of};
ghost use Rattle.ep_scenario.specs.Replay.{done_by, play, resumption, step_text, text_line};

use crate::script::Script;
use crate::step::Step;
use ep_version::shown_in;
use std::alloc::{AllocError, Global};

/// Puts a text and the byte 10 behind the text of a script.
fn push_line(line: Option<&[u8]>, text: &mut Vec<u8>) -> Result<(), AllocError>
    ensures { OnOk result (text.new.items
        ≡ text.old.items ++ text_line (option_map (λ t. t.now) line.entry)) }
{
    let Some(line) = line else {
        return Ok(());
    };
    text.extend_from_slice(line)?;
    text.push(b'\n')?;
    Ok(())
}

/// Puts the resumption of a caller behind the text of a script.
fn push_resumption(alloc: Global, caller: u32, text: &mut Vec<u8>) -> Result<(), AllocError>
    ensures { OnOk result (text.new.items ≡ text.old.items
        ++ (codes "{\"op\":\"resume\",\"by\":" ++ decimal caller ++ codes "}\n")) }
{
    let mut line = String::new(alloc);
    write!(line, "{{\"op\":\"resume\",\"by\":{caller}}}\n")?;
    text.extend_from_slice(line.as_bytes())?;
    Ok(())
}

/// Puts the resumption of the caller of a line behind the text of a script.
fn push_resume(
    alloc: Global,
    script: &Script,
    number: usize,
    text: &mut Vec<u8>,
) -> Result<(), AllocError>
    ensures { OnOk result (text.new.items
        ≡ text.old.items ++ resumption (plan_of script.now).lines number) }
{
    match script.scenario.lines.get(number) {
        Some(line) => push_resumption(alloc, line.caller.0, text),
        None => Ok(()),
    }
}

/// Puts a tick behind the text of a script.
fn push_tick(alloc: Global, n: u64, text: &mut Vec<u8>) -> Result<(), AllocError>
    ensures { OnOk result (text.new.items ≡ text.old.items
        ++ (codes "{\"op\":\"tick\",\"n\":" ++ decimal n ++ codes "}\n")) }
{
    let mut line = String::new(alloc);
    write!(line, "{{\"op\":\"tick\",\"n\":{n}}}\n")?;
    text.extend_from_slice(line.as_bytes())?;
    Ok(())
}

/// How many events of a line were put.
fn done_at(done: &[usize], number: usize) -> usize
    ensures { result ≡ slice_index done.now number }
{
    match done.get(number) {
        Some(done) => *done,
        None => 0,
    }
}

/// Puts the line of a step behind the text of a script.
fn push_step(
    alloc: Global,
    script: &Script,
    done: &[usize],
    step: Step,
    text: &mut Vec<u8>,
) -> Result<(), AllocError>
    ensures { OnOk result (text.new.items
        ≡ text.old.items ++ step_text (plan_of script.now) done.now step) }
{
    match step {
        Step::Event(number) => push_line(script.text_at(number, done_at(done, number)), text),
        Step::Resume(number) => push_resume(alloc, script, number, text),
        Step::Tick(span) => push_tick(alloc, shown_in(script.version, span), text),
    }
}

/// Counts the event of a line, if the step is one. There is no memory for more than is counted.
fn count(done: &mut Vec<usize>, step: Step) -> Result<(), AllocError>
    ensures { OnOk result (done.new.items ≡ done_by done.old.items step) }
{
    let Step::Event(number) = step else {
        return Ok(());
    };
    let Some(more) = done_at(done.as_slice(), number).checked_add(1) else {
        return Err(AllocError);
    };
    if number < done.len() {
        done[number] = more;
    }
    Ok(())
}

/// Puts a script behind the text that plays an order: the header and the setup, and a line for each
/// step. The lines of calls stand as in the script, byte by byte, and the resumptions and ticks of
/// the order between them. After an `AllocError` the text may have a part of it.
pub fn push_order(
    alloc: Global,
    script: &Script,
    steps: &[Step],
    text: &mut Vec<u8>,
) -> Result<(), AllocError>
    ensures { OnOk result (text.new.items ≡ text.old.items ++ play (plan_of script.now) steps.now) }
{
    text.extend_from_slice(script.head.as_slice())?;
    let mut done = vec![in alloc; 0; script.texts.len()]?;
    for place in 0..steps.len() {
        push_step(alloc, script, done.as_slice(), steps[place], text)?;
        count(&mut done, steps[place])?;
    }
    Ok(())
}
