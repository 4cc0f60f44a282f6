//! The schedule of an order: who went, as `c1*2 c3 +`.
ghost use Rattle.std.specs.Prelude.{◌≡◌, ◌++◌, ◌<◌, ◌≤◌, OnOk, length, string_bytes};
ghost use Rattle.ep_scenario.specs.Schedule.{block, goer, is_same, name_of, row_of, schedule};

use crate::script::Script;
use crate::step::Step;
use ep_orders::Line;
use std::alloc::AllocError;

/// The number of the line whose caller goes in a step, unless the clock does.
fn goer(step: Step) -> Option<usize>
    ensures { result ≡ goer step }
{
    match step {
        Step::Event(number) => Some(number),
        Step::Resume(number) => Some(number),
        Step::Tick(_) => None,
    }
}

/// Whether two steps are the same one's.
fn is_same(a: Step, b: Step) -> bool
    ensures { result ≡ is_same (goer a) (goer b) }
{
    match (goer(a), goer(b)) {
        (Some(x), Some(y)) => x == y,
        (None, None) => true,
        _ => false,
    }
}

/// How many steps in a row, from the first on, are the same one's as this.
fn row_of(step: &Step, steps: &[Step]) -> usize
    ensures row { result ≡ row_of step.now steps.now }
    ensures bound { result ≤ length steps.now }
{
    for count in 0..steps.len() {
        if !is_same(*step, steps[count]) {
            return count;
        }
    }
    steps.len()
}

/// Puts the name of who goes in a step behind the text; the clock's is `+`.
fn push_name(lines: &[Line], step: Step, text: &mut String) -> Result<(), AllocError>
    ensures { OnOk result (string_bytes text.new
        ≡ string_bytes text.old ++ name_of lines.now step) }
{
    let Some(number) = goer(step) else {
        return text.push_str("+");
    };
    match lines.get(number) {
        Some(line) => write!(text, "c{}", line.caller.0),
        None => Ok(()),
    }
}

/// Puts a step, and how many of the same one's there are in a row, behind the text.
fn push_block(
    lines: &[Line],
    is_first: bool,
    step: &Step,
    count: usize,
    text: &mut String,
) -> Result<(), AllocError>
    ensures { OnOk result (string_bytes text.new
        ≡ string_bytes text.old ++ block lines.now is_first step.now count) }
{
    if !is_first {
        text.push_str(" ")?;
    }
    push_name(lines, *step, text)?;
    if count != 1 {
        write!(text, "*{count}")?;
    }
    Ok(())
}

/// Puts the schedule of an order of a script behind the text: in turn who went, with a space
/// between two, and how often in a row if that was more than once. A caller is `c` and its number,
/// the clock `+`: `c1*2 c3 +`. After an `AllocError` the text may have a part of it.
pub fn push_schedule(script: &Script, steps: &[Step], text: &mut String) -> Result<(), AllocError>
    ensures { OnOk result (string_bytes text.new
        ≡ string_bytes text.old ++ schedule script.now.scenario.lines.items steps.now) }
{
    let lines = script.scenario.lines.as_slice();
    let mut is_first = true;
    let mut left: usize = 0;
    for place in 0..steps.len() {
        if left > 0 {
            left -= 1;
        } else {
            let step = &steps[place];
            left = row_of(step, &steps[place + 1..]);
            push_block(lines, is_first, step, left + 1, text)?;
            is_first = false;
        }
    }
    Ok(())
}
