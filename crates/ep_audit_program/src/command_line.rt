//! The words of the command line.
ghost use Rattle.std.specs.Prelude.{◌≡◌, IfOk, false, map, option_map, string_bytes};
ghost use Rattle.clap.specs.Words.{FailsBy, app_of, rule_of};
ghost use Rattle.ep_audit_program.specs.Options.{faults_in, history_in, history_rule, limits_in, limits_rule, program};

use clap::{Arg, Command, Error};
use std::alloc::{AllocError, Global};

/// The version of the program, and the logic that it was proved in, as the second half of what `rt version` prints.
const VERSION: &str = "0.2.0\nproved in logic dac8208d650f15bf";

/// What is said below the options.
const EXAMPLE: &str =
    "A history is a record a line, as epsim --history FILE writes it. Standard output begins with
  ok N records                                                           status 0
  illegal at record I: the machine does not allow this answer here       status 1
I counts from 0, so it is line I + 1, which follows. Then comes a record that the machine allows there.
What is no history is a line on standard error, and status 2. docs/history.md describes the lines.";

/// What `--limits` takes.
const LIMITS_HELP: &str =
    "Judges a run under these limits: six numbers with commas between, in this order
  descriptors  numbers of a process                     3 to 65536       else 1024
  files        live open file descriptions              1 to 1000000     else 4096
  processes    living processes                         1 to 10000       else 64
  watches      registrations                            0 to 1000000     else 4096
  pipe_bytes   bytes of a pipe                          4096 to 1048576  else 65536
  sock_bytes   bytes in one direction of a socket pair  1 to 1048576     else 65536";

/// What the history's name is.
const HISTORY_HELP: &str =
    "The file of the history; - is standard input, which is read if there is none";

/// What the words of the command line ask for.
#[derive(Clone, Copy, Debug)]
pub(crate) struct Settings<'a> {
    /// The text of `--limits`, if that is there.
    pub(crate) limits: Option<&'a str>,
    /// The history, if one is named; `-` stands for standard input.
    pub(crate) history: Option<&'a str>,
}

fn limits_argument<'a>(alloc: Global) -> Arg<'a>
    ensures rule { rule_of result ≡ limits_rule }
    ensures local { result.global ≡ false }
{
    Arg::new(alloc, "limits")
        .long("limits")
        .value_name("TEXT")
        .help(LIMITS_HELP)
}

fn history_argument<'a>(alloc: Global) -> Arg<'a>
    ensures rule { rule_of result ≡ history_rule }
    ensures local { result.global ≡ false }
{
    Arg::new(alloc, "history")
        .value_name("HISTORY")
        .help(HISTORY_HELP)
}

fn command<'a>(alloc: Global) -> Result<Command<'a>, AllocError>
    ensures { IfOk result (λ c. app_of c ≡ program) }
{
    Command::new(alloc, "epaudit")
        .version(VERSION)
        .about("Tells of a history whether the machine allows it")
        .override_usage("epaudit [OPTIONS] [HISTORY]")
        .after_help(EXAMPLE)
        .arg(limits_argument(alloc))?
        .arg(history_argument(alloc))
}

/// Reads the words of the command line, the program's name first: `--limits TEXT` and the history's name, each at most
/// once and both at will. What `--help` and `--version` print is an `Err`, too, each with a kind of its own.
pub(crate) fn settings_in<'a>(alloc: Global, words: &'a [String]) -> Result<Settings<'a>, Error>
    ensures limits { IfOk result
        (λ s. option_map (λ t. t.now) s.limits ≡ limits_in (map string_bytes words.entry.now)) }
    ensures history { IfOk result
        (λ s. option_map (λ t. t.now) s.history ≡ history_in (map string_bytes words.entry.now)) }
    ensures faults { FailsBy (faults_in (map string_bytes words.entry.now)) result }
{
    let matches = command(alloc)?.try_get_matches_from(words)?;
    Ok(Settings {
        limits: matches.get_str("limits"),
        history: matches.get_str("history"),
    })
}
