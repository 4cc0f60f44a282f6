//! The words of the command line.
ghost use Rattle.std.specs.Prelude.{◌≡◌, ◌↔◌, IfOk, IsTrue, codes, false, map, option_map, string_bytes};
ghost use Rattle.clap.specs.Words.{FailsBy, app_of, fault_of, first_of, found_of, rows_of, rule_of};
ghost use Rattle.ep_program.specs.Options.{IsGiven, StandsIn, bound_rule, clock_rule, explain_rule};
ghost use Rattle.ep_program.specs.Options.{history_rule, limits_rule, most_rule, orders_rule, plain_rule};
ghost use Rattle.ep_program.specs.Options.{program, rows_in, script_rule, strict_rule, write_rule};

use clap::parser::ValueSource;
use clap::{Arg, ArgAction, ArgMatches, Command, Error};
use std::alloc::{AllocError, Global};

/// The version of the program, and the logic that it was proved in, as the second half of what `rt version` prints.
const VERSION: &str = "0.2.0\nproved in logic dac8208d650f15bf";

/// What is said below the options.
const EXAMPLE: &str =
    "A line of a script is a JSON object, and each line is answered by one line. For example

  echo '{\"op\":\"pipe\"}' | epsim

prints {\"two\":[3,4]}: a pipe whose ends are the descriptors 3 and 4. A line that is no command is
answered {\"bad\":N}, and the run goes on; if there was one, a last line on standard error counts them.
Times are milliseconds, or microseconds if the first line is {\"version\":2}.
The status is 0 at the end of the script, 1 where it was not run to its end or --strict asks for it,
and 2 for bad words or limits. With --orders it is 0 if every order was run that was asked for, 1 if
not, and 2 if the script has none: a line is no call, or all of it is the setup.
docs/script.md describes the lines and their answers, docs/calls.md what each call does, and
docs/orders.md what orders are.";

/// What `--limits` takes, with the names that `--explain` uses.
const LIMITS_HELP: &str =
    "Runs the script under these limits: six numbers with commas between, in this order
  descriptors  numbers of a process                     3 to 65536       else 1024
  files        live open file descriptions              1 to 1000000     else 4096
  processes    living processes                         1 to 10000       else 64
  watches      registrations                            0 to 1000000     else 4096
  pipe_bytes   bytes of a pipe                          4096 to 1048576  else 65536
  sock_bytes   bytes in one direction of a socket pair  1 to 1048576     else 65536";

/// What `--plain` takes.
const PLAIN_HELP: &str =
    "Runs it on the kernel that keeps no ready lists and looks at every registration: answers
differ at most in which of several reportable registrations a wait reports first";

/// What `--strict` takes.
const STRICT_HELP: &str =
    "Ends with status 1 if a line was no command; the script is run to its end all the same";

/// What `--history` takes.
const HISTORY_HELP: &str =
    "Writes the history of the run to this file, a record a line, which epaudit reads. A file that
is the script, or standard input, output or error, is refused";

/// What `--orders` takes.
const ORDERS_HELP: &str =
    "Runs every order in which the callers of the script can come, and counts what they are told";

/// What `--bound` takes.
const BOUND_HELP: &str = "For --orders: only those of at most so many pre-emptions";

/// What `--clock` takes.
const CLOCK_HELP: &str =
    "For --orders: time passes only while nobody can go on (idle, which is so if nothing is said),
or at any point (any)";

/// What `--most` takes.
const MOST_HELP: &str =
    "For --orders: stops before it would run more than so many, else 1000000; status 1 then";

/// What `--write` takes.
const WRITE_HELP: &str =
    "For --orders: writes a script for the first order of each outcome into this folder, 1.jsonl and
so on; a file that is there is left as it is, and ends that";

/// What the script's name is.
const SCRIPT_HELP: &str =
    "The file of the script; - is standard input, which is read if there is none";

/// What the words of the command line ask for.
#[derive(Clone, Copy, Debug)]
pub struct Settings<'a> {
    /// The text of `--limits`, if that is there.
    pub limits: Option<&'a str>,
    /// Whether `--plain` is there.
    pub plain: bool,
    /// Whether `--explain` is there.
    pub explain: bool,
    /// Whether `--strict` is there.
    pub strict: bool,
    /// The file of `--history`, if that is there.
    pub history: Option<&'a str>,
    /// Whether `--orders` is there.
    pub orders: bool,
    /// The text of `--bound`, if that is there.
    pub bound: Option<&'a str>,
    /// The text of `--clock`, if that is there.
    pub clock: Option<&'a str>,
    /// The text of `--most`, if that is there.
    pub most: Option<&'a str>,
    /// The folder of `--write`, if that is there.
    pub write: Option<&'a str>,
    /// The script, if one is named; `-` stands for standard input.
    pub script: Option<&'a str>,
}

fn limits_argument<'a>(alloc: Global) -> Arg<'a>
    ensures rule { rule_of result ≡ limits_rule }
    ensures local { result.global ≡ false }
{
    Arg::new(alloc, "limits")
        .long("limits")
        .value_name("TEXT")
        .help(LIMITS_HELP)
}

fn plain_argument<'a>(alloc: Global) -> Arg<'a>
    ensures rule { rule_of result ≡ plain_rule }
    ensures local { result.global ≡ false }
{
    Arg::new(alloc, "plain")
        .long("plain")
        .action(ArgAction::SetTrue)
        .help(PLAIN_HELP)
}

fn explain_argument<'a>(alloc: Global) -> Arg<'a>
    ensures rule { rule_of result ≡ explain_rule }
    ensures local { result.global ≡ false }
{
    Arg::new(alloc, "explain")
        .long("explain")
        .action(ArgAction::SetTrue)
        .help("Says on standard error why a line is no command")
}

fn strict_argument<'a>(alloc: Global) -> Arg<'a>
    ensures rule { rule_of result ≡ strict_rule }
    ensures local { result.global ≡ false }
{
    Arg::new(alloc, "strict")
        .long("strict")
        .action(ArgAction::SetTrue)
        .help(STRICT_HELP)
}

fn history_argument<'a>(alloc: Global) -> Arg<'a>
    ensures rule { rule_of result ≡ history_rule }
    ensures local { result.global ≡ false }
{
    Arg::new(alloc, "history")
        .long("history")
        .value_name("FILE")
        .help(HISTORY_HELP)
}

fn orders_argument<'a>(alloc: Global) -> Arg<'a>
    ensures rule { rule_of result ≡ orders_rule }
    ensures local { result.global ≡ false }
{
    Arg::new(alloc, "orders")
        .long("orders")
        .action(ArgAction::SetTrue)
        .help(ORDERS_HELP)
}

fn bound_argument<'a>(alloc: Global) -> Arg<'a>
    ensures rule { rule_of result ≡ bound_rule }
    ensures local { result.global ≡ false }
{
    Arg::new(alloc, "bound")
        .long("bound")
        .value_name("N")
        .help(BOUND_HELP)
}

fn clock_argument<'a>(alloc: Global) -> Arg<'a>
    ensures rule { rule_of result ≡ clock_rule }
    ensures local { result.global ≡ false }
{
    Arg::new(alloc, "clock")
        .long("clock")
        .value_name("WORD")
        .help(CLOCK_HELP)
}

fn most_argument<'a>(alloc: Global) -> Arg<'a>
    ensures rule { rule_of result ≡ most_rule }
    ensures local { result.global ≡ false }
{
    Arg::new(alloc, "most")
        .long("most")
        .value_name("N")
        .help(MOST_HELP)
}

fn write_argument<'a>(alloc: Global) -> Arg<'a>
    ensures rule { rule_of result ≡ write_rule }
    ensures local { result.global ≡ false }
{
    Arg::new(alloc, "write")
        .long("write")
        .value_name("FOLDER")
        .help(WRITE_HELP)
}

fn script_argument<'a>(alloc: Global) -> Arg<'a>
    ensures rule { rule_of result ≡ script_rule }
    ensures local { result.global ≡ false }
{
    Arg::new(alloc, "script")
        .value_name("SCRIPT")
        .help(SCRIPT_HELP)
}

fn command<'a>(alloc: Global) -> Result<Command<'a>, AllocError>
    ensures { IfOk result (λ c. app_of c ≡ program) }
{
    Command::new(alloc, "epsim")
        .version(VERSION)
        .about("Runs a script of calls on the kernel, and answers each line on standard output")
        .override_usage("epsim [OPTIONS] [SCRIPT]")
        .after_help(EXAMPLE)
        .arg(limits_argument(alloc))?
        .arg(plain_argument(alloc))?
        .arg(explain_argument(alloc))?
        .arg(strict_argument(alloc))?
        .arg(history_argument(alloc))?
        .arg(orders_argument(alloc))?
        .arg(bound_argument(alloc))?
        .arg(clock_argument(alloc))?
        .arg(most_argument(alloc))?
        .arg(write_argument(alloc))?
        .arg(script_argument(alloc))
}

/// What `clap` finds in the words.
fn matches_in<'a>(alloc: Global, words: &'a [String]) -> Result<ArgMatches<'a>, Error>
    ensures rows { IfOk result
        (λ m. rows_of (found_of m) ≡ rows_in (map string_bytes words.entry.now)) }
    ensures fault { FailsBy (fault_of program (map string_bytes words.entry.now)) result }
{
    command(alloc)?.try_get_matches_from(words)
}

/// Whether an option without a value stands in the words.
fn is_there(matches: &ArgMatches<'_>, name: &str) -> bool
    ensures { IsTrue result ↔ StandsIn (rows_of (found_of matches.now)) name.now }
{
    matches.value_source(name) == Some(ValueSource::CommandLine)
}

/// Reads the words of the command line, the program's name first: `--limits TEXT`, `--plain`,
/// `--explain`, `--strict`, `--history FILE`, `--orders`, `--bound N`, `--clock WORD`, `--most N`,
/// `--write FOLDER` and the script's name, each at most once and all at will. What `--help` and
/// `--version` print is an `Err`, too, each with a kind of its own.
pub fn options<'a>(alloc: Global, words: &'a [String]) -> Result<Settings<'a>, Error>
    ensures limits { IfOk result
        (λ s. option_map (λ t. t.now) s.limits
        ≡ first_of (codes "limits") (rows_in (map string_bytes words.entry.now))) }
    ensures plain { IfOk result
        (λ s. IsTrue s.plain ↔ IsGiven (codes "plain") (map string_bytes words.entry.now)) }
    ensures explain { IfOk result
        (λ s. IsTrue s.explain ↔ IsGiven (codes "explain") (map string_bytes words.entry.now)) }
    ensures strict { IfOk result
        (λ s. IsTrue s.strict ↔ IsGiven (codes "strict") (map string_bytes words.entry.now)) }
    ensures history { IfOk result
        (λ s. option_map (λ t. t.now) s.history
        ≡ first_of (codes "history") (rows_in (map string_bytes words.entry.now))) }
    ensures orders { IfOk result
        (λ s. IsTrue s.orders ↔ IsGiven (codes "orders") (map string_bytes words.entry.now)) }
    ensures bound { IfOk result
        (λ s. option_map (λ t. t.now) s.bound
        ≡ first_of (codes "bound") (rows_in (map string_bytes words.entry.now))) }
    ensures clock { IfOk result
        (λ s. option_map (λ t. t.now) s.clock
        ≡ first_of (codes "clock") (rows_in (map string_bytes words.entry.now))) }
    ensures most { IfOk result
        (λ s. option_map (λ t. t.now) s.most
        ≡ first_of (codes "most") (rows_in (map string_bytes words.entry.now))) }
    ensures write { IfOk result
        (λ s. option_map (λ t. t.now) s.write
        ≡ first_of (codes "write") (rows_in (map string_bytes words.entry.now))) }
    ensures script { IfOk result
        (λ s. option_map (λ t. t.now) s.script
        ≡ first_of (codes "script") (rows_in (map string_bytes words.entry.now))) }
    ensures fault { FailsBy (fault_of program (map string_bytes words.entry.now)) result }
{
    let matches = matches_in(alloc, words)?;
    Ok(Settings {
        limits: matches.get_str("limits"),
        plain: is_there(&matches, "plain"),
        explain: is_there(&matches, "explain"),
        strict: is_there(&matches, "strict"),
        history: matches.get_str("history"),
        orders: is_there(&matches, "orders"),
        bound: matches.get_str("bound"),
        clock: matches.get_str("clock"),
        most: matches.get_str("most"),
        write: matches.get_str("write"),
        script: matches.get_str("script"),
    })
}
