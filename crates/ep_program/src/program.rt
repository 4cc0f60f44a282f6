//! The program, over any reader and writers.
ghost use Rattle.std.specs.Prelude.{◌≡◌, ◌≢◌, ◌<◌, ◌≤◌, IfSome, IsNone, Some, false, true};
ghost use Rattle.std.specs.IoError.{error_kind};
ghost use Rattle.clap.specs.Words.{kind_of};
ghost use Rattle.ep_base.specs.Limits.{Limits as Numbers, default_limits};
ghost use Rattle.ep_program.specs.Options.{is_mistake};
ghost use Rattle.ep_text.specs.Limits.{IsLimitsText};

use crate::bad_lines::tell_bad_lines;
use crate::command_line::{Settings, options};
use crate::every_order::Orders;
use crate::explainer::Explainer;
use crate::files::{Files, NoFiles};
use crate::search::{WordsFault, search_of};
use crate::streams::Stream;
use clap::error::ErrorKind;
use ep_base::Limits;
use ep_kernel::ReadyKernel;
use ep_plain::{Kernel, PlainKernel};
use ep_script::{
    RecordedFault, ScriptFault, Summary, Watched, parse_limits, read_limits, run_recorded,
    run_script,
};
use std::alloc::{AllocError, Global};
use std::io::{self, ErrorKind as IoKind, Read, Write};

/// The end of the input was reached, or help or the version was asked for.
const DONE: u8 = 0;

/// The script was not run to its end, or with `--strict` it has a line that is no command.
const FAILED: u8 = 1;

/// The command line is bad.
const BAD_WORDS: u8 = 2;

/// The text of `--limits` writes none.
const BAD_LIMITS: u8 = 2;

/// How a script is run.
#[derive(Clone, Copy)]
struct Plan {
    /// Whether the kernel is the one that scans, in place of the one with ready lists.
    plain: bool,
    /// Whether it is said why a line is no command.
    explain: bool,
    /// Whether such a line makes the status 1.
    strict: bool,
    limits: Limits,
}

impl Plan {
    fn of(settings: &Settings<'_>, limits: Limits) -> Plan {
        Plan {
            plain: settings.plain,
            explain: settings.explain,
            strict: settings.strict,
            limits,
        }
    }
}

/// Why the script isn't read, or the history can't be written.
#[derive(Drop)]
enum Refusal {
    /// What is written would go into this stream of the run, too.
    Shared(Stream),
    /// The file can't be opened, looked at or made.
    Error(io::Error),
}

impl From<io::Error> for Refusal {
    fn from(error: io::Error) -> Refusal {
        Refusal::Error(error)
    }
}

/// Tells a fault in one line. A write that fails changes nothing.
fn fail<E: Write>(fault: &RecordedFault, errors: &mut E) -> u8
    ensures { result ≡ 1 }
{
    let _ = write!(errors, "epsim: {fault}\n");
    FAILED
}

/// What the program answers if the words of the command line are not to be had: status 1 for
/// want of memory, else 2, since a word is no text.
pub fn no_words<E: Write>(error: &io::Error, errors: &mut E) -> u8
    ensures memory { error_kind error.now ≡ IoKind.OutOfMemory → result ≡ 1 }
    ensures no_text { error_kind error.now ≢ IoKind.OutOfMemory → result ≡ 2 }
{
    if error.kind() == IoKind::OutOfMemory {
        return fail(&RecordedFault::Memory, errors);
    }
    let _ = write!(
        errors,
        "epsim: a word of the command line is no UTF-8 text\n"
    );
    BAD_WORDS
}

/// Tells why the text of `--limits` is none. A write that fails changes nothing.
fn refuse_limits<E: Write>(settings: &Settings<'_>, errors: &mut E) -> u8
    ensures { result ≡ 2 }
{
    if let Err(fault) = read_limits(settings.limits.unwrap_or("")) {
        let _ = write!(errors, "epsim: bad limits: {fault}\n");
    }
    BAD_LIMITS
}

/// Tells why the words ask for nothing. A write that fails changes nothing.
fn refuse_words<E: Write>(fault: &WordsFault<'_>, errors: &mut E) -> u8
    ensures { result ≡ 2 }
{
    let _ = write!(errors, "epsim: {fault}\n");
    BAD_WORDS
}

/// Tells why the script can't be opened, or isn't to be answered. A write that fails changes nothing.
fn refuse_script<E: Write>(settings: &Settings<'_>, refusal: &Refusal, errors: &mut E) -> u8
    ensures { result ≡ 1 }
{
    let path = settings.script.unwrap_or("");
    let _ = match refusal {
        Refusal::Shared(stream) => write!(
            errors,
            "epsim: cannot write the answers to standard output: it is {stream}\n"
        ),
        Refusal::Error(error) => {
            write!(errors, "epsim: cannot read the script {path:?}: {error}\n")
        }
    };
    FAILED
}

/// Tells why the history can't be written. A write that fails changes nothing.
fn refuse_history<E: Write>(settings: &Settings<'_>, refusal: &Refusal, errors: &mut E) -> u8
    ensures { result ≡ 1 }
{
    let path = settings.history.unwrap_or("");
    let _ = write!(errors, "epsim: cannot write the history to {path:?}: ");
    let _ = match refusal {
        Refusal::Shared(stream) => write!(errors, "it is {stream}\n"),
        Refusal::Error(error) => write!(errors, "{error}\n"),
    };
    FAILED
}

fn write_text<W: Write>(text: &clap::Error, writer: &mut W) -> io::Result<()> {
    write!(writer, "{text}")?;
    writer.flush()
}

/// Tells what `clap` found: help or the version on the output, a mistake in the words on `errors`.
fn tell<W: Write, E: Write>(found: &clap::Error, output: &mut W, errors: &mut E) -> u8
    ensures memory { kind_of found.now ≡ ErrorKind.OutOfMemory → result ≡ 1 }
    ensures help { kind_of found.now ≡ ErrorKind.DisplayHelp → result ≤ 1 }
    ensures version { kind_of found.now ≡ ErrorKind.DisplayVersion → result ≤ 1 }
    ensures mistake { is_mistake (kind_of found.now) ≡ true → result ≡ 2 }
{
    match found.kind() {
        ErrorKind::OutOfMemory => fail(&RecordedFault::Memory, errors),
        ErrorKind::DisplayHelp | ErrorKind::DisplayVersion => match write_text(found, output) {
            Ok(()) => DONE,
            Err(_) => fail(&RecordedFault::Script(ScriptFault::Write), errors),
        },
        _ => {
            let _ = write_text(found, errors);
            BAD_WORDS
        }
    }
}

/// The limits of the text, and those of a kernel by default if there is none. `None` exactly
/// if the text writes no limits.
fn limits_of(text: Option<&str>) -> Option<Limits>
    ensures missing { IsNone text.entry → result ≡ Some default_limits }
    ensures read { IfSome text.entry (λ t. IfSome result (IsLimitsText t.now)) }
    ensures found { IfSome text.entry
        (λ t. (limits : Numbers) → IsLimitsText t.now limits → result ≡ Some limits) }
{
    match text {
        None => Some(Limits::default()),
        Some(text) => parse_limits(text),
    }
}

/// Runs the script, and writes the history if there is a writer for it.
fn run_on<K: Kernel, R: Read, W: Write + Drop, H: Write + Drop>(
    alloc: Global,
    kernel: &mut K,
    reader: &mut Watched<R>,
    output: W,
    history: Option<H>,
) -> Result<Summary, RecordedFault>
    requires { reader.old.failed ≡ false }
{
    let mut writer = Watched::new(output);
    let Some(file) = history else {
        return run_script(alloc, kernel, reader, &mut writer).map_err(RecordedFault::Script);
    };
    let mut history = Watched::new(file);
    run_recorded(alloc, kernel, reader, &mut writer, &mut history)
}

/// Runs the script, and says on `errors` why its lines are no commands.
fn run_explained<K: Kernel, R: Read + Drop, W: Write + Drop, E: Write + Drop, H: Write + Drop>(
    alloc: Global,
    kernel: &mut K,
    reader: R,
    output: W,
    errors: E,
    history: Option<H>,
) -> Result<Summary, RecordedFault> {
    let Ok(explainer) = Explainer::new(alloc, reader, errors) else {
        return Err(RecordedFault::Memory);
    };
    let mut reader = Watched::new(explainer);
    let result = run_on(alloc, kernel, &mut reader, output, history);
    let mut explainer = reader.into_inner();
    explainer.finish(result.is_ok());
    result
}

/// Runs the script on the kernel, and explains it if there is a writer for that.
fn run_over<K: Kernel, R: Read + Drop, W: Write + Drop, E: Write + Drop, H: Write + Drop>(
    alloc: Global,
    kernel: &mut K,
    reader: R,
    output: W,
    explain_to: Option<E>,
    history: Option<H>,
) -> Result<Summary, RecordedFault> {
    match explain_to {
        Some(errors) => run_explained(alloc, kernel, reader, output, errors, history),
        None => run_on(alloc, kernel, &mut Watched::new(reader), output, history),
    }
}

/// Runs the script on a kernel, if there was memory to make it. It owns the kernel as one of any kind, since the
/// proof of a function that owns what it knows the parts of grows with them.
fn run_made<K: Kernel + Drop, R: Read + Drop, W: Write + Drop, E: Write + Drop, H: Write + Drop>(
    alloc: Global,
    made: Result<K, AllocError>,
    reader: R,
    output: W,
    explain_to: Option<E>,
    history: Option<H>,
) -> Result<Summary, RecordedFault> {
    let Ok(mut kernel) = made else {
        return Err(RecordedFault::Memory);
    };
    run_over(alloc, &mut kernel, reader, output, explain_to, history)
}

/// Runs the script on a new kernel of the kind that was chosen.
fn run<R: Read + Drop, W: Write + Drop, E: Write + Drop, H: Write + Drop>(
    alloc: Global,
    plan: Plan,
    reader: R,
    output: W,
    explain_to: Option<E>,
    history: Option<H>,
) -> Result<Summary, RecordedFault> {
    let limits = plan.limits;
    if plan.plain {
        let made = PlainKernel::new(alloc, limits);
        run_made(alloc, made, reader, output, explain_to, history)
    } else {
        let made = ReadyKernel::new(alloc, limits);
        run_made(alloc, made, reader, output, explain_to, history)
    }
}

/// Tells how many lines were no command, if the script was run to its end, and gives the status.
fn end<E: Write>(plan: &Plan, summary: &Summary, errors: &mut E) -> u8
    ensures bound { result ≤ 1 }
    ensures strict { plan.now.strict ≡ true → 0 < summary.now.bad → result ≡ 1 }
    ensures lenient { plan.now.strict ≡ false → result ≡ 0 }
    ensures commands { summary.now.bad ≡ 0 → result ≡ 0 }
{
    let more = if plan.explain {
        ""
    } else {
        "; --explain says why"
    };
    tell_bad_lines(errors, summary.bad, summary.lines, more);
    if plan.strict && summary.bad > 0 {
        FAILED
    } else {
        DONE
    }
}

/// Runs the script, and tells how that ended.
fn run_told<R: Read + Drop, W: Write, E: Write, H: Write + Drop>(
    alloc: Global,
    plan: Plan,
    reader: R,
    output: &mut W,
    errors: &mut E,
    history: Option<H>,
) -> u8
    ensures { result ≤ 2 }
{
    let explain_to = if plan.explain {
        Some(&mut *errors)
    } else {
        None
    };
    match run(alloc, plan, reader, &mut *output, explain_to, history) {
        Ok(summary) => end(&plan, &summary, errors),
        Err(fault) => fail(&fault, errors),
    }
}

/// Whether a run would read its own answers: a script that takes no end. `false` if it can't be told
/// which files the streams are.
fn are_answers_read<F: Files>(files: &F, script: Option<&F::Script>) -> bool {
    let Ok(streams) = files.streams(script) else {
        return false;
    };
    let source = if script.is_some() {
        streams.script
    } else {
        streams.input
    };
    streams.are_answers_read(source)
}

/// The file of the script, if one is named. The error says why it can't be opened, or that the
/// answers would go into what is read.
fn script_file<F: Files>(settings: &Settings<'_>, files: &F) -> Result<Option<F::Script>, Refusal> {
    let (script, source) = match settings.script {
        None | Some("-") => (None, Stream::Input),
        Some(path) => (Some(files.open(path)?), Stream::Script),
    };
    if are_answers_read(files, script.as_ref()) {
        return Err(Refusal::Shared(source));
    }
    Ok(script)
}

/// The writer of the history, if one is asked for. No file is made or emptied that is a stream of
/// the run.
fn history_file<F: Files>(
    settings: &Settings<'_>,
    files: F,
    script: Option<&F::Script>,
) -> Result<Option<F::History>, Refusal> {
    let Some(path) = settings.history else {
        return Ok(None);
    };
    if let Some(file) = files.find(path)? {
        let streams = files.streams(script)?;
        if let Some(stream) = streams.find(file) {
            return Err(Refusal::Shared(stream));
        }
    }
    Ok(Some(files.create(path)?))
}

/// Runs every order of the script: of its file, if one is named.
fn run_orders<R: Read + Drop, W: Write, E: Write, F: Files>(
    orders: &Orders<'_, F>,
    script: Option<F::Script>,
    reader: R,
    output: &mut W,
    errors: &mut E,
) -> u8
    ensures { result ≤ 2 }
{
    match script {
        Some(file) => orders.run(file, output, errors),
        None => orders.run(reader, output, errors),
    }
}

/// Runs what the words asked for, and tells how it failed.
fn run_settings<R: Read + Drop, W: Write, E: Write, F: Files>(
    alloc: Global,
    settings: &Settings<'_>,
    reader: R,
    output: &mut W,
    errors: &mut E,
    files: F,
) -> u8
    ensures { result ≤ 2 }
{
    let Some(limits) = limits_of(settings.limits) else {
        return refuse_limits(settings, errors);
    };
    let search = match search_of(settings) {
        Ok(search) => search,
        Err(fault) => return refuse_words(&fault, errors),
    };
    let script = match script_file(settings, &files) {
        Ok(script) => script,
        Err(refusal) => return refuse_script(settings, &refusal, errors),
    };
    if let Some(search) = search {
        let orders = Orders::new(alloc, settings, limits, search, files);
        return run_orders(&orders, script, reader, output, errors);
    }
    let history = match history_file(settings, files, script.as_ref()) {
        Ok(history) => history,
        Err(refusal) => return refuse_history(settings, &refusal, errors),
    };
    let plan = Plan::of(settings, limits);
    match script {
        Some(file) => run_told(alloc, plan, file, output, errors, history),
        None => run_told(alloc, plan, reader, output, errors, history),
    }
}

/// Does what the words of the command line, the program's name first, ask for, and gives the
/// status. It is
/// - 0 at the end of the script, or for `--help` and `--version`,
/// - 1 if the script was not run to its end, or such a text could not be written, or with
///   `--strict` a line was no command, or with `--orders` not every order was run,
/// - 2 for a bad command line or limits that are none, or with `--orders` for a script that has none:
///   a line of it is no call, or all of it is the setup.
///
/// The words are looked at first, then the limits. Then the script is opened by `files`, if one is
/// named that isn't `-`, else it is `reader`. If that is a file into which the answers would go, by
/// what `files` tells of it, the run ends. Then `files` makes the file of `--history`, unless it
/// is a stream of the run by what `files` tells of it: that ends the run. The script is read last,
/// by a kernel with ready lists, or with `--plain` by one that scans: their answers differ at most
/// in which of several reportable registrations a wait reports first. `--explain` changes what
/// stands on `errors` alone, `--strict` the status alone, and `--history` only ends the run if its
/// file can't be written. What went wrong is one line on `errors`, or the text of `clap`. A script
/// that was run to its end has one, too, if a line was no command. A write there that fails changes
/// no status.
pub fn run_with_files<R: Read + Drop, W: Write, E: Write, F: Files>(
    alloc: Global,
    words: Vec<String>,
    reader: R,
    output: &mut W,
    errors: &mut E,
    files: F,
) -> u8
    ensures { result ≤ 2 }
{
    match options(alloc, words.as_slice()) {
        Ok(settings) => run_settings(alloc, &settings, reader, output, errors, files),
        Err(found) => tell(&found, output, errors),
    }
}

/// As `run_with_files`, if there are no files: a script's name and `--history` end the run before
/// it begins.
pub fn run_with<R: Read + Drop, W: Write, E: Write>(
    alloc: Global,
    words: Vec<String>,
    reader: R,
    output: &mut W,
    errors: &mut E,
) -> u8
    ensures { result ≤ 2 }
{
    run_with_files(alloc, words, reader, output, errors, NoFiles)
}
