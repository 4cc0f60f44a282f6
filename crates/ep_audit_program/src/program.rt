//! The program, over any reader and writers.
ghost use Rattle.std.specs.Prelude.{◌≡◌, ◌≢◌, ◌<◌, ◌≤◌, IfSome, IsNone, Some, [], map, option_map, string_bytes};
ghost use Rattle.clap.specs.Kinds.{IsAmong};
ghost use Rattle.clap.specs.Words.{kind_of};
ghost use Rattle.ep_base.specs.Limits.{Limits as Numbers, default_limits};
ghost use Rattle.ep_text.specs.Limits.{IsLimitsText};
ghost use Rattle.ep_script.specs.Lines.{lines_of};
ghost use Rattle.ep_audit_program.specs.Options.{faults_in, history_in, limits_in};
ghost use Rattle.ep_audit_program.specs.Status.{IsAuditBy, IsStatusOf, input_of, status_of};

use crate::command_line::{Settings, settings_in};
use crate::files::Files;
use crate::judge::{Illegal, Verdict};
use crate::verdict::judge_history;
use clap::error::ErrorKind;
use ep_base::Limits;
use ep_script::{Watched, parse_limits, read_limits};
use std::alloc::Global;
use std::io::{self, ErrorKind as IoKind, Read, Write};

/// The history is a run, or help or the version was asked for.
const LEGAL: u8 = 0;

/// The history is none.
const ILLEGAL: u8 = 1;

/// There is no verdict.
const NO_VERDICT: u8 = 2;

/// Tells why there is no verdict. A write that fails changes nothing.
fn fail<E: Write>(reason: &str, errors: &mut E) -> u8
    ensures { result ≡ 2 }
{
    let _ = write!(errors, "epaudit: {reason}\n");
    NO_VERDICT
}

/// What the program answers where the words of the command line are not to be had.
pub fn no_words<E: Write>(error: &io::Error, errors: &mut E) -> u8
    ensures { result ≡ 2 }
{
    if error.kind() == IoKind::OutOfMemory {
        return fail("out of memory", errors);
    }
    fail("a word of the command line is no UTF-8 text", errors)
}

/// Tells why a text is no limits. A write that fails changes nothing.
fn refuse_limits<E: Write>(text: &str, errors: &mut E) -> u8
    ensures { result ≡ 2 }
{
    if let Err(fault) = read_limits(text) {
        let _ = write!(errors, "epaudit: bad limits: {fault}\n");
    }
    NO_VERDICT
}

/// Tells why the file of the history can't be opened. A write that fails changes nothing.
fn refuse_history<E: Write>(path: &str, error: &io::Error, errors: &mut E) -> u8
    ensures { result ≡ 2 }
{
    let _ = write!(
        errors,
        "epaudit: cannot read the history {path:?}: {error}\n"
    );
    NO_VERDICT
}

fn write_text<W: Write>(text: &clap::Error, writer: &mut W) -> io::Result<()> {
    write!(writer, "{text}")?;
    writer.flush()
}

/// Tells what `clap` found: help or the version on the output, a mistake in the words on `errors`.
fn tell<W: Write, E: Write>(found: &clap::Error, output: &mut W, errors: &mut E) -> u8
    ensures bound { result ≤ 2 }
    ensures asked { result ≢ 1 }
    ensures memory { kind_of found.now ≡ ErrorKind.OutOfMemory → result ≡ 2 }
    ensures mistake { kind_of found.now ≢ ErrorKind.DisplayHelp
        → kind_of found.now ≢ ErrorKind.DisplayVersion → result ≡ 2 }
{
    match found.kind() {
        ErrorKind::OutOfMemory => fail("out of memory", errors),
        ErrorKind::DisplayHelp | ErrorKind::DisplayVersion => match write_text(found, output) {
            Ok(()) => LEGAL,
            Err(_) => fail("cannot write the verdict", errors),
        },
        _ => {
            let _ = write_text(found, errors);
            NO_VERDICT
        }
    }
}

fn write_legal<W: Write>(count: u64, output: &mut W) -> io::Result<()> {
    write!(output, "ok {count} records\n")?;
    output.flush()
}

fn write_illegal<W: Write>(found: &Illegal, output: &mut W) -> io::Result<()> {
    write!(
        output,
        "illegal at record {}: the machine does not allow this answer here\n",
        found.place
    )?;
    output.write_all(&found.line)?;
    output.write_all(b"\nit allows ")?;
    output.write_all(&found.allowed)?;
    output.write_all(b"\n")?;
    output.flush()
}

/// Tells the verdict. If it can't be written there is none.
fn tell_verdict<W: Write, E: Write>(found: &Verdict, output: &mut W, errors: &mut E) -> u8
    ensures bound { result ≤ 2 }
    ensures status { result < 2 → result ≡ status_of found.now }
{
    let (status, written) = match found {
        Verdict::Legal(count) => (LEGAL, write_legal(*count, output)),
        Verdict::Illegal(at) => (ILLEGAL, write_illegal(at, output)),
    };
    match written {
        Ok(()) => status,
        Err(_) => fail("cannot write the verdict", errors),
    }
}

/// Reads the history and judges it.
fn read_and_judge<R: Read, W: Write, E: Write>(
    alloc: Global,
    limits: &Limits,
    reader: R,
    output: &mut W,
    errors: &mut E,
) -> u8
where
    R: Drop,
    ensures bound { result ≤ 2 }
    ensures verdict { result < 2
        → IfSome (R.remaining reader) (λ input. IsStatusOf limits.now (lines_of input) result) }
{
    let mut reader = Watched::new(reader);
    match judge_history(alloc, limits, &mut reader) {
        Ok(found) => tell_verdict(&found, output, errors),
        Err(fault) => {
            let _ = write!(errors, "epaudit: {fault}\n");
            NO_VERDICT
        }
    }
}

/// The limits of the text, and those of a kernel by default if there is none. `None` exactly if the text writes no
/// limits.
fn limits_of(text: Option<&str>) -> Option<Limits>
    ensures missing { IsNone text.entry → result ≡ Some default_limits }
    ensures read { IfSome text.entry (λ t. IfSome result (IsLimitsText t.now)) }
{
    match text {
        None => Some(Limits::default()),
        Some(text) => parse_limits(text),
    }
}

/// Reads the history of the file that is named, or that of the reader, and judges it.
fn run_settings<R: Read + Drop, W: Write, E: Write, F: Files>(
    alloc: Global,
    settings: &Settings<'_>,
    reader: R,
    output: &mut W,
    errors: &mut E,
    files: &F,
) -> u8
    ensures bound { result ≤ 2 }
    ensures limits { IfSome settings.now.limits (λ text.
        ((limits : Numbers) → IsLimitsText text.now limits → ⊥) → result ≡ 2) }
    ensures verdict { result < 2
        → IfSome (input_of (R.remaining reader) (F.content files.now)
        (option_map (λ t. t.now) settings.now.history)) (λ input.
        IsAuditBy (option_map (λ t. t.now) settings.now.limits) (lines_of input) result) }
{
    let Some(limits) = limits_of(settings.limits) else {
        return refuse_limits(settings.limits.unwrap_or(""), errors);
    };
    match settings.history {
        None | Some("-") => read_and_judge(alloc, &limits, reader, output, errors),
        Some(path) => match files.open(path) {
            Ok(file) => read_and_judge(alloc, &limits, file, output, errors),
            Err(error) => refuse_history(path, &error, errors),
        },
    }
}

/// Does what the words of the command line, the program's name first, ask for, and gives the status. It is
/// - 0 if the history is a run of the machine under the limits, or for `--help` and `--version`,
/// - 1 if it is none,
/// - 2 if there is no verdict: for bad words or limits, a file that can't be opened, a line that is no record, a reader
///   or an output that fails, or want of memory.
///
/// The words are looked at first, then the limits. Then the history is opened by `files`, if one is named that isn't
/// `-`, else it is `reader`, and it is read last. The verdict is written to `output`, and why there is none to
/// `errors`, in one line. A write there that fails changes no status.
pub fn run_with<R: Read + Drop, W: Write, E: Write, F: Files>(
    alloc: Global,
    words: Vec<String>,
    reader: R,
    output: &mut W,
    errors: &mut E,
    files: &F,
) -> u8
    ensures bound { result ≤ 2 }
    ensures asked { faults_in (map string_bytes words.items) ≢ [] → result ≢ 1 }
    ensures mistake { faults_in (map string_bytes words.items) ≢ []
        → (IsAmong ErrorKind.DisplayHelp (faults_in (map string_bytes words.items)) → ⊥)
        → (IsAmong ErrorKind.DisplayVersion (faults_in (map string_bytes words.items)) → ⊥)
        → result ≡ 2 }
    ensures limits { faults_in (map string_bytes words.items) ≡ []
        → IfSome (limits_in (map string_bytes words.items)) (λ text.
        ((limits : Numbers) → IsLimitsText text limits → ⊥) → result ≡ 2) }
    ensures verdict { faults_in (map string_bytes words.items) ≡ [] → result < 2
        → IfSome (input_of (R.remaining reader) (F.content files.now)
        (history_in (map string_bytes words.items))) (λ input.
        IsAuditBy (limits_in (map string_bytes words.items)) (lines_of input) result) }
{
    match settings_in(alloc, words.as_slice()) {
        Ok(found) => run_settings(alloc, &found, reader, output, errors, files),
        Err(found) => tell(&found, output, errors),
    }
}
