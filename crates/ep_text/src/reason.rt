//! Why a line is no command.
ghost use Rattle.std.specs.Prelude.{◌≡◌, IfOk};
ghost use Rattle.ep_text.specs.Reason.{unfit, unread};
ghost use Rattle.ep_text.specs.Source.{found_data};

use crate::key::Key;
use crate::nearest::{nearest_key, nearest_operation};
use crate::op::Op;
use crate::source::Found;
use crate::value_kind::ValueKind;
use std::alloc::{AllocError, Global};
use std::fmt::{self, Display, Formatter, Write};
use std::marker::Model;

/// A name as a line has it, which contracts see as its bytes.
#[derive(Drop)]
pub struct Name {
    text: String,
}

impl Model for Name {
    ghost use Rattle.std.specs.Prelude.{List, string_bytes, ℕ};

    ghost Value = { List ℕ };

    ghost view = { λ name. string_bytes name.text };
}

impl Name {
    pub(crate) fn new(alloc: Global, name: &str) -> Result<Name, AllocError>
        ensures { IfOk result (λ n. n ≡ name.now) }
    {
        let text = String::from_str(alloc, name)?;
        Ok(Name { text })
    }

    /// The name as a text.
    pub fn as_str(&self) -> &str
        ensures { result.now ≡ self.now }
    {
        self.text.as_str()
    }
}

/// The column at which a line breaks, counted in bytes from 1. It is one behind the last byte of a line that only ends
/// too soon. Contracts say nothing of it: they see no more than that there is one.
#[derive(Drop)]
pub struct Column {
    number: usize,
}

impl Model for Column {
    ghost use Rattle.std.specs.Prelude.{⊤};

    ghost Value = { ⊤ };

    ghost view = { λ _. tt };
}

impl Column {
    /// Where `serde_json` found this line to be no JSON.
    fn of(error: &serde_json::Error, line: &[u8]) -> Column {
        let end = line.len().saturating_add(1);
        let number = if error.is_eof() {
            end
        } else {
            error.column().clamp(1, end)
        };
        Column { number }
    }
}

impl Display for Column {
    fn fmt<W: Write>(&self, f: &mut Formatter<W>) -> fmt::Result {
        write!(f, "{}", self.number)
    }
}

/// A line that is a command.
const EXAMPLE: &str = "{\"op\":\"pipe\"}";

/// Why a line is no command.
#[derive(Drop)]
pub enum Reason {
    /// The line is empty.
    Empty,
    /// It is no JSON text, since it begins with a byte order mark.
    ByteOrderMark,
    /// It is no JSON text, which shows in this column.
    NoJson(Column),
    /// It is JSON, but no object.
    NoObject,
    /// It names a version, as only the first line of a script can.
    LateHeader,
    /// It has the key `version` and no `op`, but names no version that there is, or has a further key.
    UnknownVersion,
    /// This key must be there and is missing.
    Missing(Key),
    /// The value of the key is of another kind than this.
    WrongKind { key: Key, kind: ValueKind },
    /// The value of the key is of this kind, but out of its range.
    OutOfRange { key: Key, kind: ValueKind },
    /// `op` is a text, but names no operation.
    UnknownOp(Name),
    /// The operation does not have this key.
    UnknownKey { op: Op, name: Name },
    /// A write has neither `hex` nor `fill`.
    NeitherHexNorFill,
    /// A write has both.
    HexAndFill,
}

/// Why a line that is no JSON text is none.
pub(crate) fn unread(line: &[u8], error: &serde_json::Error) -> Reason
    ensures { result ≡ unread line.now }
{
    if line.is_empty() {
        Reason::Empty
    } else if line.starts_with(b"\xef\xbb\xbf") {
        Reason::ByteOrderMark
    } else {
        Reason::NoJson(Column::of(error, line))
    }
}

/// Why a value that is none of this kind and in its range is none.
pub(crate) fn unfit(value: &Found<'_>, key: Key, kind: ValueKind) -> Reason
    ensures { result ≡ unfit key kind (found_data value.now) }
{
    if kind.is_kind_of(value) {
        Reason::OutOfRange { key, kind }
    } else {
        Reason::WrongKind { key, kind }
    }
}

/// Asks whether this name was meant, if one is near.
fn suggest<W: Write>(f: &mut Formatter<W>, near: Option<&str>) -> fmt::Result {
    match near {
        Some(name) => write!(f, "; did you mean \"{name}\"?"),
        None => Ok(()),
    }
}

impl Display for Reason {
    /// The reason in words, on one line: a name has what would end the line escaped.
    fn fmt<W: Write>(&self, f: &mut Formatter<W>) -> fmt::Result {
        match self {
            Reason::Empty => write!(f, "empty"),
            Reason::ByteOrderMark => write!(f, "it begins with a byte order mark"),
            Reason::NoJson(column) => write!(
                f,
                "no JSON at column {column}: a line is one object, as {EXAMPLE}"
            ),
            Reason::NoObject => write!(f, "no object, as {EXAMPLE} is one"),
            Reason::LateHeader => write!(f, "a version can stand only in the first line"),
            Reason::UnknownVersion => {
                write!(f, "key \"version\" must be 1 or 2, and stand alone")
            }
            Reason::Missing(key) => write!(f, "key \"{}\" is missing", key.name()),
            Reason::WrongKind { key, kind } => {
                write!(f, "key \"{}\" must be {}", key.name(), kind.words())
            }
            Reason::OutOfRange { key, kind } => {
                write!(
                    f,
                    "key \"{}\" is out of range: {}",
                    key.name(),
                    kind.words()
                )
            }
            Reason::UnknownOp(name) => {
                write!(f, "unknown op {:?}", name.as_str())?;
                suggest(f, nearest_operation(name.as_str()))
            }
            Reason::UnknownKey { op, name } => {
                write!(f, "unknown key {:?}", name.as_str())?;
                suggest(f, nearest_key(*op, name.as_str()))
            }
            Reason::NeitherHexNorFill => write!(f, "key \"hex\" or \"fill\" is missing"),
            Reason::HexAndFill => write!(f, "keys \"hex\" and \"fill\" are both there"),
        }
    }
}
