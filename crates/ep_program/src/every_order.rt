//! Runs every order of a script, and tells what they come to.
ghost use Rattle.std.specs.Prelude.{◌≡◌, ◌≤◌};

use crate::command_line::Settings;
use crate::files::Files;
use crate::makers::{Plain, Ready};
use crate::search::Search;
use ep_base::Limits;
use ep_orders::Explored;
use ep_scenario::{
    Outcome, Script, ScriptFault, Step, Tally, count_outcomes, push_order, push_schedule,
    read_script,
};
use std::alloc::{AllocError, Global};
use std::io::{self, ErrorKind, Read, Write};

/// Every order that was asked for was run.
const DONE: u8 = 0;

/// Not every order was run, or what came of them could not be told.
const FAILED: u8 = 1;

/// The script has no orders: a line of it is no call, or nobody goes.
const BAD_SCRIPT: u8 = 2;

/// Runs every order of a script.
#[derive(Drop)]
pub(crate) struct Orders<'a, F> {
    alloc: Global,
    search: Search<'a>,
    /// Whether the kernels are those that scan.
    plain: bool,
    limits: Limits,
    files: F,
}

/// Tells that nobody goes in any order. A write that fails changes nothing.
fn refuse_setup<E: Write>(errors: &mut E) -> u8
    ensures { result ≡ 2 }
{
    let _ = write!(
        errors,
        "epsim: --orders: the script names no caller: all of it is the setup\n"
    );
    BAD_SCRIPT
}

/// Tells why no script was read. A write that fails changes nothing.
fn refuse<E: Write>(fault: &ScriptFault, errors: &mut E) -> u8
    ensures { result ≤ 2 }
{
    let _ = write!(errors, "epsim: --orders: {fault}\n");
    match fault {
        ScriptFault::Memory => FAILED,
        _ => BAD_SCRIPT,
    }
}

/// Tells why something can't be done with a file. A write that fails changes nothing.
fn fail<E: Write>(what: &str, error: &io::Error, errors: &mut E) -> u8
    ensures { result ≤ 2 }
{
    let _ = write!(errors, "epsim: {what}: {error}\n");
    FAILED
}

fn plural(count: u64, one: &'static str, more: &'static str) -> &'static str {
    if count == 1 { one } else { more }
}

/// What the orders have in common, behind their number.
fn push_bound(search: &Search<'_>, text: &mut String) -> Result<(), AllocError> {
    match search.rules.bound {
        Some(bound) => {
            let noun = plural(bound, "pre-emption", "pre-emptions");
            write!(text, " of at most {bound} {noun}")
        }
        None => Ok(()),
    }
}

/// The first line: how many orders and outcomes there are, and whether these are all.
fn head_of(
    alloc: Global,
    search: &Search<'_>,
    found: &Explored<Tally>,
) -> Result<String, AllocError> {
    let mut text = String::new(alloc);
    let tally = &found.visitor;
    let orders = plural(tally.orders, "order", "orders");
    write!(text, "{} {orders}", tally.orders)?;
    push_bound(search, &mut text)?;
    let count = tally.outcomes.len() as u64;
    let outcomes = plural(count, "outcome", "outcomes");
    write!(text, ", {count} {outcomes}")?;
    match &found.end {
        Ok(true) => {}
        Ok(false) => text.push_str("; not every order was run: --most was reached")?,
        Err(_) => text.push_str("; not every order was run")?,
    }
    text.push_str("\n")?;
    Ok(text)
}

/// Whether the setup left the caller of a line parked: then the first that it does is to go on.
fn begins_parked(steps: &[Step], number: usize) -> bool {
    for step in steps {
        match step {
            Step::Event(other) if *other == number => return false,
            Step::Resume(other) if *other == number => return true,
            _ => {}
        }
    }
    false
}

/// Puts the line of a caller behind the text: what it was told in turn, and whether it sleeps then.
/// It does if it was told less than it asked for.
fn push_caller(
    script: &Script,
    number: usize,
    steps: &[Step],
    told: &str,
    text: &mut String,
) -> Result<(), AllocError> {
    let Some(line) = script.scenario.lines.get(number) else {
        return Ok(());
    };
    write!(text, "  c{}:", line.caller.0)?;
    let mut asked = line.events.len();
    if begins_parked(steps, number) {
        asked = asked.saturating_add(1);
    }
    for answer in told.lines() {
        write!(text, " {answer}")?;
        asked = asked.saturating_sub(1);
    }
    if asked > 0 {
        text.push_str(" asleep")?;
    }
    text.push_str("\n")?;
    Ok(())
}

/// The lines of an outcome.
fn lines_of(
    alloc: Global,
    script: &Script,
    number: usize,
    outcome: &Outcome,
) -> Result<String, AllocError> {
    let mut text = String::new(alloc);
    let orders = plural(outcome.orders, "order", "orders");
    write!(text, "outcome {number}: {} {orders}", outcome.orders)?;
    write!(text, ", the first is order {}: ", outcome.first)?;
    push_schedule(script, outcome.steps.as_slice(), &mut text)?;
    text.push_str("\n")?;
    let mut rest = outcome.told.as_str();
    for line in 0..script.scenario.lines.len() {
        let (told, behind) = first_part(rest);
        push_caller(script, line, outcome.steps.as_slice(), told, &mut text)?;
        rest = behind;
    }
    Ok(text)
}

/// The lines up to the first empty one, and what is behind that.
fn first_part(told: &str) -> (&str, &str) {
    if let Some(behind) = told.strip_prefix("\n") {
        return ("", behind);
    }
    match told.split_once("\n\n") {
        Some(parts) => parts,
        None => (told, ""),
    }
}

impl<'a, F: Files> Orders<'a, F> {
    /// Every order that is asked for, under these limits.
    pub(crate) fn new(
        alloc: Global,
        settings: &Settings<'_>,
        limits: Limits,
        search: Search<'a>,
        files: F,
    ) -> Orders<'a, F> {
        Orders {
            alloc,
            search,
            plain: settings.plain,
            limits,
            files,
        }
    }

    fn count(&self, script: &Script) -> Explored<Tally> {
        let Search { rules, most, .. } = self.search;
        let limits = self.limits;
        if self.plain {
            count_outcomes(self.alloc, script, &Plain { limits }, rules, most)
        } else {
            count_outcomes(self.alloc, script, &Ready { limits }, rules, most)
        }
    }

    /// Writes what the orders came to.
    fn write_outcomes<W: Write>(
        &self,
        script: &Script,
        found: &Explored<Tally>,
        output: &mut W,
    ) -> io::Result<()> {
        let head = head_of(self.alloc, &self.search, found)?;
        output.write_all(head.as_bytes())?;
        for (place, outcome) in found.visitor.outcomes.iter().enumerate() {
            let number = place.saturating_add(1);
            let text = lines_of(self.alloc, script, number, outcome)?;
            output.write_all(text.as_bytes())?;
        }
        output.flush()
    }

    /// Makes the folder of the scripts, if it is asked for and not there.
    fn make_folder(&self) -> io::Result<()> {
        let Some(folder) = self.search.folder else {
            return Ok(());
        };
        match self.files.create_dir(folder) {
            Ok(()) => Ok(()),
            Err(error) => {
                if error.kind() == ErrorKind::AlreadyExists {
                    Ok(())
                } else {
                    Err(error)
                }
            }
        }
    }

    /// Writes the script of an outcome's first order into a file that isn't there yet.
    fn write_script(&self, script: &Script, path: &str, outcome: &Outcome) -> io::Result<()> {
        let mut text = Vec::new(self.alloc);
        push_order(self.alloc, script, outcome.steps.as_slice(), &mut text)?;
        let mut file = self.files.create_new(path)?;
        file.write_all(text.as_slice())?;
        file.flush()
    }

    fn path_of(&self, folder: &str, number: usize) -> Result<String, AllocError> {
        let mut path = String::new(self.alloc);
        write!(path, "{folder}/{number}.jsonl")?;
        Ok(path)
    }

    /// Writes the script of each outcome.
    fn write_scripts<E: Write>(
        &self,
        script: &Script,
        found: &Explored<Tally>,
        errors: &mut E,
    ) -> bool {
        let Some(folder) = self.search.folder else {
            return true;
        };
        for (place, outcome) in found.visitor.outcomes.iter().enumerate() {
            let Ok(path) = self.path_of(folder, place.saturating_add(1)) else {
                let _ = write!(errors, "epsim: out of memory\n");
                return false;
            };
            let path = path.as_str();
            if let Err(error) = self.write_script(script, path, outcome) {
                let _ = write!(errors, "epsim: cannot write the script {path:?}: {error}\n");
                return false;
            }
        }
        true
    }

    /// Tells what came of the orders, and gives the status.
    fn tell<W: Write, E: Write>(
        &self,
        script: &Script,
        found: &Explored<Tally>,
        output: &mut W,
        errors: &mut E,
    ) -> u8
        ensures { result ≤ 2 }
    {
        if let Err(error) = self.write_outcomes(script, found, output) {
            return fail("cannot write the outcomes", &error, errors);
        }
        if !self.write_scripts(script, found, errors) {
            return FAILED;
        }
        match &found.end {
            Ok(true) => DONE,
            Ok(false) => FAILED,
            Err(fault) => {
                let _ = write!(errors, "epsim: --orders: {fault}\n");
                FAILED
            }
        }
    }

    /// Reads the script, runs its orders, and tells what came of them.
    pub(crate) fn run<R: Read + Drop, W: Write, E: Write>(
        &self,
        reader: R,
        output: &mut W,
        errors: &mut E,
    ) -> u8
        ensures { result ≤ 2 }
    {
        let mut reader = reader;
        let mut text = Vec::new(self.alloc);
        if let Err(error) = reader.read_to_end(&mut text) {
            return fail("cannot read the script", &error, errors);
        }
        let script = match read_script(self.alloc, text.as_slice()) {
            Ok(script) => script,
            Err(fault) => return refuse(&fault, errors),
        };
        if script.scenario.lines.is_empty() {
            return refuse_setup(errors);
        }
        if let Err(error) = self.make_folder() {
            return fail("cannot make the folder of --write", &error, errors);
        }
        let found = self.count(&script);
        self.tell(&script, &found, output, errors)
    }
}
