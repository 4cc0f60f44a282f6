//! The steps of an order, as a script has them.
ghost use Rattle.std.specs.Prelude.{◌≡◌};
ghost use Rattle.ep_scenario.specs.Outcomes.{span_of, step_of};

use ep_base::{Event, Record, Span};
use ep_orders::Turn;

/// What is done in a turn.
#[derive(Clone, Copy, Debug, PartialEq, Eq)]
pub enum Step {
    /// The caller whose line has this number does the next event of it.
    Event(usize),
    /// That caller goes on in its wait.
    Resume(usize),
    /// The clock goes on by so much.
    Tick(Span),
}

impl Step {
    /// What was done in a turn with this record.
    pub(crate) fn of(turn: Turn, entry: &Record) -> Step
        ensures { result ≡ step_of (turn, entry.now) }
    {
        match turn {
            Turn::Line(number) => match entry.event {
                Event::Resume => Step::Resume(number),
                _ => Step::Event(number),
            },
            Turn::Clock => Step::Tick(span_of(&entry.event)),
        }
    }
}

/// By how much a tick moves the clock.
fn span_of(event: &Event) -> Span
    ensures { result ≡ span_of event.now }
{
    match event {
        Event::Tick { n } => *n,
        _ => Span(0),
    }
}
