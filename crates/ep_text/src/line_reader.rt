//! Reads many lines.
ghost use Rattle.std.specs.Prelude.{◌≡◌, ◌∷◌, IfOk, IfSome, None, Ok, Some, if◌then◌else◌, option_map, true};
ghost use Rattle.std.specs.Result.{result_ok};
ghost use Rattle.serde_json.specs.Data.{no_members};
ghost use Rattle.serde_json.specs.View.{view};
ghost use Rattle.ep_text.specs.Event.{as_written, command, command_in, command_of, event, header_of};
ghost use Rattle.ep_text.specs.Header.{header, header_data};
ghost use Rattle.ep_text.specs.Key.{key_name};
ghost use Rattle.ep_text.specs.Keys.{first_other, is_among};
ghost use Rattle.ep_text.specs.Source.{flat_data, put_all};

use crate::flat::{Members, read_flat};
use crate::header::header_in;
use crate::key::Key;
use crate::line::Line;
use crate::plain::{may_be_plain, plain_command};
use crate::read::{asked, command, operation_in};
use crate::source::{Member, Source};
use ep_base::{CallerId, Event};
use ep_json::ValueReader;
use ep_version::{Version, event_in};
use memchr::memchr;
use serde_json::Value;
use std::alloc::{AllocError, Global};

/// The longest line that is tried as a flat object. A longer one costs hardly more as a tree, and a vain try more.
const LONGEST_FLAT: usize = 1_024;

/// Reads lines one after another. It keeps the room that this takes from line to line, for lines of 16,384 bytes at
/// most. A longer one leaves no room behind.
#[derive(Drop)]
pub struct LineReader {
    values: ValueReader,
}

fn is_listed(keys: &[Key], key: Key) -> bool
    ensures { result ≡ true → is_among keys.now (key_name key) ≡ true }
{
    for listed in keys {
        if listed.number() == key.number() {
            return true;
        }
    }
    false
}

fn is_known(keys: &[Key], key: Key) -> bool
    ensures { result ≡ true → is_among (Key.Op ∷ Key.By ∷ keys.now) (key_name key) ≡ true }
{
    match key {
        Key::Op | Key::By => true,
        _ => is_listed(keys, key),
    }
}

/// Whether no member has another key than these, `op` and `by`.
fn has_only(keys: &[Key], members: &[Member<'_>]) -> bool
    ensures { result ≡ true
        → first_other (Key.Op ∷ Key.By ∷ keys.now) (put_all no_members members.now) ≡ None }
{
    for member in members {
        if !is_known(keys, member.key) {
            return false;
        }
    }
    true
}

/// What an object of these members asks for, where it is a command.
fn flat_command(
    alloc: Global,
    members: &[Member<'_>],
) -> Result<Option<(CallerId, Event)>, AllocError>
    ensures { IfOk result (λ r. IfSome r (λ c. command (flat_data members.now) ≡ Ok c)) }
{
    let line = Source::Flat(members);
    let Some(named) = line.get(Key::Op) else {
        return Ok(None);
    };
    let Ok(op) = operation_in(alloc, &named)? else {
        return Ok(None);
    };
    if !has_only(op.keys(), members) {
        return Ok(None);
    }
    match asked(alloc, op, &line)? {
        Ok(command) => Ok(Some(command)),
        Err(_) => Ok(None),
    }
}

/// Whether a list may be one of two whole numbers: it begins with a digit or a blank.
fn may_be_pair(list: &[u8]) -> bool {
    matches!(list.get(1), Some(b'0'..=b'9' | b' '))
}

/// Whether a line may well be an object whose values need no memory: it is short, begins and ends as an object does,
/// and has no list, or the first may be one of two whole numbers.
fn may_be_flat(line: &[u8]) -> bool {
    line.len() <= LONGEST_FLAT
        && line.first().copied() == Some(b'{')
        && matches!(line.last(), Some(b'}' | b'\r'))
        && match memchr(b'[', line) {
            Some(at) => may_be_pair(&line[at..]),
            None => true,
        }
}

/// The version that a line of this value names, if it is the first one.
fn header_at(is_first: bool, value: &Value) -> Option<Version>
    ensures { result ≡ (if is_first then header_data (view value.now) else None) }
{
    if is_first {
        return header_in(value);
    }
    None
}

/// What a line of this value is.
fn line_in(
    alloc: Global,
    version: Version,
    is_first: bool,
    value: &Value,
) -> Result<Line, AllocError>
    ensures header { IfOk result (λ l.
        header_of l ≡ (if is_first then header_data (view value.now) else None)) }
    ensures command { IfOk result (λ l.
        command_of l ≡ option_map (command_in version) (result_ok (command (view value.now)))) }
{
    if let Some(named) = header_at(is_first, value) {
        return Ok(Line::Header(named));
    }
    match command(alloc, value)? {
        Ok((caller, event)) => Ok(Line::Command(caller, event_in(version, event))),
        Err(_) => Ok(Line::Bad),
    }
}

impl LineReader {
    /// It has no room yet, and takes it as lines need it.
    pub fn new(alloc: Global) -> LineReader {
        LineReader {
            values: ValueReader::new(alloc),
        }
    }

    /// What a line of a script is: the command that `read_line` finds, or the header that `read_header` does, if it is
    /// the first line. `AllocError` is want of memory.
    #[inline(always)]
    pub fn read(
        &mut self,
        alloc: Global,
        version: Version,
        line: &[u8],
        is_first: bool,
    ) -> Result<Line, AllocError>
        ensures header { IfOk result (λ l.
            header_of l ≡ (if is_first then header line.now else None)) }
        ensures command { IfOk result (λ l. command_of l ≡ event version line.now) }
    {
        if may_be_plain(line) {
            return self.read_plain(alloc, version, line, is_first);
        }
        self.read_tokens(alloc, version, line, is_first)
    }

    /// What `read` answers, for a line that may be one of the commonest commands. It has a frame of its own, so that
    /// other lines don't pay for it.
    #[inline(never)]
    fn read_plain(
        &mut self,
        alloc: Global,
        version: Version,
        line: &[u8],
        is_first: bool,
    ) -> Result<Line, AllocError>
        ensures header { IfOk result (λ l.
            header_of l ≡ (if is_first then header line.now else None)) }
        ensures command { IfOk result (λ l. command_of l ≡ event version line.now) }
    {
        if let Some((caller, event)) = plain_command(alloc, line)? {
            return Ok(Line::Command(caller, event_in(version, event)));
        }
        self.read_tokens(alloc, version, line, is_first)
    }

    /// What `read` answers, for any line: it is read a token at a time.
    #[inline(never)]
    fn read_tokens(
        &mut self,
        alloc: Global,
        version: Version,
        line: &[u8],
        is_first: bool,
    ) -> Result<Line, AllocError>
        ensures header { IfOk result (λ l.
            header_of l ≡ (if is_first then header line.now else None)) }
        ensures command { IfOk result (λ l. command_of l ≡ event version line.now) }
    {
        if let Some((caller, event)) = self.read_flat_command(alloc, line)? {
            return Ok(Line::Command(caller, event_in(version, event)));
        }
        match self.values.read(alloc, line)? {
            Some(value) => line_in(alloc, version, is_first, &value),
            None => Ok(Line::Bad),
        }
    }

    /// The command of a line that may well be an object whose values need no memory, with the numbers of the line. Most
    /// lines are. `None` doesn't say that it is no command.
    fn read_flat_command(
        &mut self,
        alloc: Global,
        line: &[u8],
    ) -> Result<Option<(CallerId, Event)>, AllocError>
        ensures { IfOk result (λ r. IfSome r (λ c. as_written line.now ≡ Some c)) }
    {
        if !may_be_flat(line) {
            return Ok(None);
        }
        let Ok(text) = std::str::from_utf8(line) else {
            return Ok(None);
        };
        let mut reader = self.values.tokens(text)?;
        let mut members = Members::new();
        let Ok(()) = read_flat(&mut reader, &mut members) else {
            return Ok(None);
        };
        flat_command(alloc, members.as_slice())
    }
}
