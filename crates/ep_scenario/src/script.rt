//! Reads a script as a scenario.
ghost use Rattle.std.specs.Prelude.{◌≡◌, ◌==◌, ◌&&◌, IfErr, IfOk, IsNone, IsSome, OnOk, None};
ghost use Rattle.std.specs.Prelude.{Some, false, option_map, true};
ghost use Rattle.ep_scenario.specs.Lines.{lines_of};
ghost use Rattle.ep_scenario.specs.Reading.{blank, is_call, is_no_call, is_nothing, placed};
ghost use Rattle.ep_scenario.specs.Reading.{plan_of};
ghost use Rattle.ep_scenario.specs.Reading.{versioned, with_head, with_line, with_text, with_texts};
ghost use Rattle.ep_scenario.specs.Replay.{text_at};

use crate::cast::{add_event, add_text};
use crate::cut::first_line;
use crate::fault::ScriptFault;
use ep_base::{CallerId, Event};
use ep_orders::Scenario;
use ep_text::{Line, LineReader, explain};
use ep_version::Version;
use std::alloc::{AllocError, Global};

/// The most lines of a script.
const MOST_LINES: u64 = 100_000;

/// The most bytes of a script's line, without the byte that ends it.
const LONGEST_LINE: usize = 65_536;

/// A script as a scenario. What caller 0 asks for before anybody else does is the setup. What
/// anybody asks for from then on is that caller's line.
#[derive(Drop)]
pub struct Script {
    /// The version that its first line names, or 1.
    pub version: Version,
    /// What it asks for. The lines are in the order in which their callers come.
    pub scenario: Scenario,
    /// The text of the header and of the setup, each line with its end.
    pub(crate) head: Vec<u8>,
    /// Of each line of the scenario the texts of its events.
    pub(crate) texts: Vec<Vec<Vec<u8>>>,
}

/// What is told of a line that is no command.
fn no_command(alloc: Global, text: &[u8], line: u64) -> ScriptFault {
    match explain(alloc, text) {
        Ok(Some(reason)) => ScriptFault::NoCommand { line, reason },
        _ => ScriptFault::Memory,
    }
}

/// Why the line of this number, which asks for that, is none of a script whose orders are tried.
fn refusal_of(event: &Event, number: u64) -> Option<ScriptFault>
    ensures none { IsNone result → is_call event.now ≡ true }
    ensures some { IsSome result → is_call event.now ≡ false }
{
    match event {
        Event::Resume => Some(ScriptFault::Resumption(number)),
        Event::Tick { .. } => Some(ScriptFault::Tick(number)),
        Event::Call { .. } => None,
    }
}

impl Script {
    fn new(alloc: Global) -> Script
        ensures { plan_of result ≡ blank }
    {
        Script {
            version: Version::V1,
            scenario: Scenario {
                setup: Vec::new(alloc),
                lines: Vec::new(alloc),
            },
            head: Vec::new(alloc),
            texts: Vec::new(alloc),
        }
    }

    /// Keeps the text of the header, or of an event of the setup.
    fn keep_head(&mut self, text: &[u8]) -> Result<(), AllocError>
        ensures { OnOk result (plan_of self.new ≡ with_head text.now (plan_of self.old)) }
    {
        self.head.extend_from_slice(text)?;
        self.head.push(b'\n')?;
        Ok(())
    }

    /// The text of an event: which one it is of the line of this number.
    pub(crate) fn text_at(&self, number: usize, place: usize) -> Option<&[u8]>
        ensures { option_map (λ t. t.now) result ≡ text_at (plan_of self.now).texts number place }
    {
        let texts = self.texts.get(number)?;
        let text = texts.get(place)?;
        Some(text.as_slice())
    }

    /// Whether what this caller asks for next is part of the setup.
    fn is_setup(&self, caller: CallerId) -> bool
        ensures { result ≡ ((caller.0 == 0) && is_nothing (plan_of self.now).lines) }
    {
        caller.0 == 0 && self.scenario.lines.is_empty()
    }

    /// Puts what a line asks for into the setup, or behind the line of its caller.
    fn add(
        &mut self,
        alloc: Global,
        caller: CallerId,
        event: Event,
        text: &[u8],
    ) -> Result<(), AllocError>
        ensures { OnOk result
            (plan_of self.new ≡ placed caller event text.now (plan_of self.old)) }
    {
        if self.is_setup(caller) {
            self.scenario.setup.push((caller, event))?;
            self.keep_head(text)?;
            return Ok(());
        }
        let number = add_event(alloc, &mut self.scenario.lines, caller, event)?;
        add_text(alloc, &mut self.texts, number, text)
    }

    /// Takes a line that is the header.
    fn take_header(&mut self, version: Version, text: &[u8]) -> Result<(), ScriptFault>
        ensures taken { OnOk result
            (plan_of self.new ≡ versioned version text.now (plan_of self.old)) }
        ensures refused { IfErr result (λ e. is_no_call e ≡ false) }
    {
        self.version = version;
        match self.keep_head(text) {
            Ok(()) => Ok(()),
            Err(_) => Err(ScriptFault::Memory),
        }
    }

    /// Takes a line that is a command, the line of this number.
    fn take_command(
        &mut self,
        alloc: Global,
        caller: CallerId,
        event: Event,
        text: &[u8],
        number: u64,
    ) -> Result<(), ScriptFault>
        ensures taken { OnOk result
            (with_line (plan_of self.old) text.now None (Some (caller, event))
            ≡ Some (plan_of self.new)) }
        ensures refused { IfErr result (λ e. is_no_call e ≡ true
            → with_line (plan_of self.old) text.now None (Some (caller, event)) ≡ None) }
    {
        if let Some(fault) = refusal_of(&event, number) {
            return Err(fault);
        }
        match self.add(alloc, caller, event, text) {
            Ok(()) => Ok(()),
            Err(_) => Err(ScriptFault::Memory),
        }
    }

    /// Takes the line of this number, counted from 1.
    fn take_line(
        &mut self,
        alloc: Global,
        reader: &mut LineReader,
        text: &[u8],
        number: u64,
    ) -> Result<(), ScriptFault>
        ensures taken { OnOk result
            (with_text number (plan_of self.old) text.now ≡ Some (plan_of self.new)) }
        ensures refused { IfErr result (λ e. is_no_call e ≡ true
            → with_text number (plan_of self.old) text.now ≡ None) }
    {
        if text.len() > LONGEST_LINE {
            return Err(ScriptFault::Long(number));
        }
        let Ok(line) = reader.read(alloc, self.version, text, number == 1) else {
            return Err(ScriptFault::Memory);
        };
        match line {
            Line::Header(version) => self.take_header(version, text),
            Line::Command(caller, event) => self.take_command(alloc, caller, event, text, number),
            Line::Bad => Err(no_command(alloc, text, number)),
        }
    }
}

/// The script of a text. Its lines are cut, read and counted as a run of it does; but each has to
/// be a call, or the header.
pub fn read_script(alloc: Global, text: &[u8]) -> Result<Script, ScriptFault>
    ensures script { IfOk result (λ s. with_texts 1 blank (lines_of text.now) ≡ Some (plan_of s)) }
    ensures refused { IfErr result (λ e. is_no_call e ≡ true
        → with_texts 1 blank (lines_of text.now) ≡ None) }
{
    let mut reader = LineReader::new(alloc);
    let mut script = Script::new(alloc);
    let mut rest = text;
    for done in 0..MOST_LINES {
        if rest.is_empty() {
            return Ok(script);
        }
        let (line, behind) = first_line(rest);
        match script.take_line(alloc, &mut reader, line, done + 1) {
            Ok(()) => rest = behind,
            Err(fault) => return Err(fault),
        }
    }
    if rest.is_empty() {
        Ok(script)
    } else {
        Err(ScriptFault::Lines)
    }
}
