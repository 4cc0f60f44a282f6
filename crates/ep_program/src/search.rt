//! What `--orders` and the options for it ask for.
ghost use Rattle.std.specs.Prelude.{◌^◌, ◌<◌};
ghost use Rattle.std.specs.Option.{SomeIff};
ghost use Rattle.std.specs.Str.Parse.{IsNumeral, digits_value};

use crate::command_line::Settings;
use ep_orders::{ClockTurns, Rules};
use std::fmt::{self, Display, Formatter};

/// How many orders are run at most if nothing is said.
const MOST_ORDERS: u64 = 1_000_000;

/// Which orders of a script are run, and what becomes of them.
#[derive(Clone, Copy, Debug)]
pub(crate) struct Search<'a> {
    pub(crate) rules: Rules,
    /// The most orders.
    pub(crate) most: u64,
    /// The folder that gets a script for each outcome.
    pub(crate) folder: Option<&'a str>,
}

/// Why the words ask for no search and no run.
#[derive(Clone, Copy, Debug)]
pub(crate) enum WordsFault<'a> {
    /// This option is there without `--orders`.
    OnlyForOrders(&'static str),
    /// This one is there beside it.
    NotForOrders(&'static str),
    /// The value of this one is no number of 64 bits.
    NoNumber(&'static str, &'a str),
    /// The value of `--clock` is no word for it.
    NoClock(&'a str),
}

impl Display for WordsFault<'_> {
    fn fmt<W: fmt::Write>(&self, f: &mut Formatter<W>) -> fmt::Result {
        match self {
            WordsFault::OnlyForOrders(name) => write!(
                f,
                "{name} is for --orders, which is missing"
            ),
            WordsFault::NotForOrders(name) => write!(f, "{name} is not for --orders"),
            WordsFault::NoNumber(name, text) => write!(
                f,
                "bad {name} {text:?}: it is a number, 0 to 18446744073709551615"
            ),
            WordsFault::NoClock(text) => write!(f, "bad --clock {text:?}: it is idle or any"),
        }
    }
}

/// The number of a run of digits.
fn number(run: &str) -> Option<u64>
    ensures { SomeIff result (IsNumeral 10 run.now × (digits_value 10 run.now < 2 ^ 64))
        (digits_value 10 run.now) }
{
    // `parse` takes a plus sign too, which is no digit.
    if run.starts_with('+') {
        return None;
    }
    run.parse().ok()
}

/// The number of an option, if that is there.
fn number_of<'a>(name: &'static str, text: Option<&'a str>) -> Result<Option<u64>, WordsFault<'a>> {
    let Some(text) = text else {
        return Ok(None);
    };
    match number(text) {
        Some(number) => Ok(Some(number)),
        None => Err(WordsFault::NoNumber(name, text)),
    }
}

/// When time passes: only while nobody can go on, if nothing is said.
fn clock_of(text: Option<&str>) -> Result<ClockTurns, WordsFault<'_>> {
    match text {
        None | Some("idle") => Ok(ClockTurns::Idle),
        Some("any") => Ok(ClockTurns::Any),
        Some(text) => Err(WordsFault::NoClock(text)),
    }
}

/// An option that is only for `--orders`, if one is there.
fn only_for_orders(settings: &Settings<'_>) -> Option<&'static str> {
    if settings.bound.is_some() {
        Some("--bound")
    } else if settings.clock.is_some() {
        Some("--clock")
    } else if settings.most.is_some() {
        Some("--most")
    } else if settings.write.is_some() {
        Some("--write")
    } else {
        None
    }
}

/// An option that is not for `--orders`, if one is there.
fn not_for_orders(settings: &Settings<'_>) -> Option<&'static str> {
    if settings.history.is_some() {
        Some("--history")
    } else if settings.explain {
        Some("--explain")
    } else if settings.strict {
        Some("--strict")
    } else {
        None
    }
}

/// What is to be searched, or `None` if the script is to be run as it stands.
pub(crate) fn search_of<'a>(settings: &Settings<'a>) -> Result<Option<Search<'a>>, WordsFault<'a>> {
    if !settings.orders {
        return match only_for_orders(settings) {
            Some(name) => Err(WordsFault::OnlyForOrders(name)),
            None => Ok(None),
        };
    }
    if let Some(name) = not_for_orders(settings) {
        return Err(WordsFault::NotForOrders(name));
    }
    let bound = number_of("--bound", settings.bound)?;
    let most = number_of("--most", settings.most)?;
    let clock = clock_of(settings.clock)?;
    Ok(Some(Search {
        rules: Rules { clock, bound },
        most: most.unwrap_or(MOST_ORDERS),
        folder: settings.write,
    }))
}
