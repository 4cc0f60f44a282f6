//! Why a text is no limits.
ghost use Rattle.std.specs.Prelude.{◌≡◌, IfOk, Ok};
ghost use Rattle.ep_base.specs.Limits.{Limits as Numbers};
ghost use Rattle.ep_text.specs.Limits.{IsLimitsText};

use crate::limits::{number, parse_limits};
use ep_base::Limits;
use std::fmt::{self, Display, Formatter, Write};

/// A number of the limits, by its name, and its range.
#[derive(Clone, Copy)]
struct Number {
    name: &'static str,
    least: u32,
    greatest: u32,
}

/// The numbers in the order of a text.
const NUMBERS: [Number; 6] = [
    Number {
        name: "descriptors",
        least: 3,
        greatest: 65_536,
    },
    Number {
        name: "files",
        least: 1,
        greatest: 1_000_000,
    },
    Number {
        name: "processes",
        least: 1,
        greatest: 10_000,
    },
    Number {
        name: "watches",
        least: 0,
        greatest: 1_000_000,
    },
    Number {
        name: "pipe_bytes",
        least: 4_096,
        greatest: 1_048_576,
    },
    Number {
        name: "sock_bytes",
        least: 1,
        greatest: 1_048_576,
    },
];

/// A text that is no limits. In words it names the first number that is none or out of its range, and that range, or
/// says how many numbers are there in place of six.
#[derive(Clone, Copy, Debug)]
pub struct LimitsFault<'a> {
    text: &'a str,
}

/// The limits that a text writes, as `parse_limits` reads them, or why it writes none.
pub fn read_limits(text: &str) -> Result<Limits, LimitsFault<'_>>
    ensures read { IfOk result (λ limits. IsLimitsText text.now limits) }
    ensures found { (limits : Numbers) → IsLimitsText text.now limits → result ≡ Ok limits }
{
    parse_limits(text).ok_or(LimitsFault { text })
}

impl Number {
    /// Whether a text writes a number in range.
    fn allows(self, text: &str) -> bool {
        number(text).is_some_and(|n| n >= self.least && n <= self.greatest)
    }

    /// Says what is there in place of a number in range.
    fn tell<W: Write>(self, text: &str, f: &mut Formatter<W>) -> fmt::Result {
        let Number {
            name,
            least,
            greatest,
        } = self;
        match number(text) {
            Some(number) => write!(f, "{name} is {number}, and goes from {least} to {greatest}"),
            None => write!(f, "{name} is {text:?}, and goes from {least} to {greatest}"),
        }
    }
}

impl Display for LimitsFault<'_> {
    fn fmt<W: Write>(&self, f: &mut Formatter<W>) -> fmt::Result {
        let count = if self.text.is_empty() {
            0
        } else {
            self.text.split(',').count()
        };
        if count != NUMBERS.len() {
            return write!(
                f,
                "six numbers with commas between are wanted, and there are {count}"
            );
        }
        for (number, run) in NUMBERS.iter().zip(self.text.split(',')) {
            if !number.allows(run) {
                return number.tell(run, f);
            }
        }
        Ok(())
    }
}
