//! What an order came to.
ghost use Rattle.std.specs.Prelude.{◌≡◌, ◌++◌, IfOk, OnOk, flat_map, option_map, slice_get};
ghost use Rattle.std.specs.Prelude.{string_bytes, zip};
ghost use Rattle.ep_scenario.specs.Outcomes.{outcome, told, told_to};

use ep_base::{Answer, Record};
use ep_orders::Turn;
use ep_text::push_answer;
use ep_version::Version;
use std::alloc::{AllocError, Global};

fn turn_at(turns: &[Turn], place: usize) -> Option<Turn>
    ensures { result ≡ slice_get turns.now place }
{
    turns.get(place).copied()
}

fn record_at(records: &[Record], place: usize) -> Option<&Record>
    ensures { option_map (λ r. r.now) result ≡ slice_get records.now place }
{
    records.get(place)
}

/// The turn at a place, with its record.
pub(crate) fn move_at<'a>(
    turns: &[Turn],
    records: &'a [Record],
    place: usize,
) -> Option<(Turn, &'a Record)>
    ensures { option_map (λ m. (m.0, m.1.now)) result
        ≡ slice_get (zip turns.now records.now) place }
{
    let Some(turn) = turn_at(turns, place) else {
        return None;
    };
    let Some(record) = record_at(records, place) else {
        return None;
    };
    Some((turn, record))
}

/// Puts what a caller is told behind the text, a line. One that is parked is told nothing
/// before its wait ends.
fn push_told(
    alloc: Global,
    version: Version,
    text: &mut String,
    answer: &Answer,
) -> Result<(), AllocError>
    ensures { OnOk result
        (string_bytes text.new ≡ string_bytes text.old ++ told version answer.now) }
{
    match answer {
        Answer::Parked => Ok(()),
        Answer::Still => Ok(()),
        _ => push_answer(alloc, version, text, answer),
    }
}

/// Puts what a turn tells the caller of a line behind the text.
fn push_turn(
    alloc: Global,
    version: Version,
    number: usize,
    turn: Turn,
    entry: &Record,
    text: &mut String,
) -> Result<(), AllocError>
    ensures { OnOk result (string_bytes text.new
        ≡ string_bytes text.old ++ told_to version number (turn, entry.now)) }
{
    match turn {
        Turn::Line(other) => {
            if other == number {
                push_told(alloc, version, text, &entry.answer)
            } else {
                Ok(())
            }
        }
        Turn::Clock => Ok(()),
    }
}

/// Puts what the caller of a line was told in an order behind the text, a line each.
fn push_line(
    alloc: Global,
    version: Version,
    number: usize,
    turns: &[Turn],
    records: &[Record],
    text: &mut String,
) -> Result<(), AllocError>
    ensures { OnOk result (string_bytes text.new
        ≡ string_bytes text.old ++ flat_map (told_to version number) (zip turns.now records.now)) }
{
    for place in 0..turns.len() {
        let Some((turn, record)) = move_at(turns, records, place) else {
            return Ok(());
        };
        push_turn(alloc, version, number, turn, record, text)?;
    }
    Ok(())
}

/// What so many callers were told in an order: of each the lines of its answers, and an empty one
/// behind them.
pub(crate) fn outcome_of(
    alloc: Global,
    version: Version,
    lines: usize,
    turns: &[Turn],
    records: &[Record],
) -> Result<String, AllocError>
    ensures { IfOk result (λ text. string_bytes text
        ≡ outcome version lines (zip turns.now records.now)) }
{
    let mut text = String::new(alloc);
    for number in 0..lines {
        push_line(alloc, version, number, turns, records, &mut text)?;
        text.push_str("\n")?;
    }
    Ok(text)
}
