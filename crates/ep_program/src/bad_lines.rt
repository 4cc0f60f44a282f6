//! The line that counts the lines that were no command.

use std::io::Write;

/// Says how many of how many lines were no command, and this behind it, if there was one. A
/// write that fails changes nothing.
pub(crate) fn tell_bad_lines<E: Write>(errors: &mut E, bad: u64, lines: u64, more: &str) {
    if bad == 0 {
        return;
    }
    let noun = if lines == 1 { "line" } else { "lines" };
    let verb = if bad == 1 { "was" } else { "were" };
    let _ = write!(
        errors,
        "epsim: {bad} of {lines} {noun} {verb} no command{more}\n"
    );
}
