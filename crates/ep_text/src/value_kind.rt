//! What the value of a key has to be.
ghost use Rattle.std.specs.Prelude.{◌≡◌};
ghost use Rattle.ep_text.specs.Reason.{is_of_kind};
ghost use Rattle.ep_text.specs.Source.{found_data};

use crate::source::Found;

/// What the value of a key has to be.
#[derive(Clone, Copy)]
pub enum ValueKind {
    /// A text.
    Text,
    /// True or false.
    Truth,
    /// A whole number from -2147483648 to 2147483647.
    Signed32,
    /// A whole number from -9223372036854775808 to 9223372036854775807.
    Signed64,
    /// A whole number from 0 to 4294967295.
    Unsigned32,
    /// A whole number from 0 to 18446744073709551615.
    Unsigned64,
    /// A whole number from 0 to 4294967295, or a text of names with `|` between.
    Mask,
    /// A whole number from -2147483648 to 2147483647, or the text `add`, `del` or `mod`.
    Operation,
    /// A text of an even number of hexadecimal digits.
    Hex,
    /// A list of a byte and a count, 0 to 1048576.
    Fill,
    /// The text `rd`, `wr` or `rdwr`.
    How,
    /// The text `tcp` or `unix`.
    Family,
    /// The text `v4`, `v6` or `local`.
    Space,
    /// A whole number from 0 to 65535.
    Port,
}

impl ValueKind {
    /// Whether a value is of the kind, in its range or not.
    pub(crate) fn is_kind_of(self, value: &Found<'_>) -> bool
        ensures { result ≡ is_of_kind self (found_data value.now) }
    {
        match self {
            ValueKind::Text | ValueKind::Hex => value.is_string(),
            ValueKind::How | ValueKind::Family | ValueKind::Space => value.is_string(),
            ValueKind::Truth => value.is_boolean(),
            ValueKind::Signed32
            | ValueKind::Signed64
            | ValueKind::Unsigned32
            | ValueKind::Unsigned64
            | ValueKind::Port => value.is_number(),
            ValueKind::Mask | ValueKind::Operation => value.is_string() || value.is_number(),
            ValueKind::Fill => value.is_array(),
        }
    }

    /// What a value has to be, in words.
    pub(crate) fn words(self) -> &'static str {
        match self {
            ValueKind::Text => "a text",
            ValueKind::Truth => "true or false",
            ValueKind::Signed32 => "a whole number from -2147483648 to 2147483647",
            ValueKind::Signed64 => {
                "a whole number from -9223372036854775808 to 9223372036854775807"
            }
            ValueKind::Unsigned32 => "a whole number from 0 to 4294967295",
            ValueKind::Unsigned64 => "a whole number from 0 to 18446744073709551615",
            ValueKind::Mask => {
                "a whole number from 0 to 4294967295, or names with | between: IN, PRI, OUT, ERR, HUP, RDHUP, EXCLUSIVE, WAKEUP, ONESHOT, ET"
            }
            ValueKind::Operation => {
                "\"add\", \"del\", \"mod\" or a whole number from -2147483648 to 2147483647"
            }
            ValueKind::Hex => "a text of an even number of hexadecimal digits",
            ValueKind::Fill => "a list of a byte, 0 to 255, and a count, 0 to 1048576",
            ValueKind::How => "\"rd\", \"wr\" or \"rdwr\"",
            ValueKind::Family => "\"tcp\" or \"unix\"",
            ValueKind::Space => "\"v4\", \"v6\" or \"local\"",
            ValueKind::Port => "a whole number from 0 to 65535",
        }
    }
}
