//! Why a script's orders can't be tried.
use ep_text::Reason;
use std::alloc::{AllocError, AllocFailed};
use std::fmt::{self, Display, Formatter};

/// Why a script's orders can't be tried, with the number of the first line that says so, counted
/// from 1.
#[derive(Drop)]
pub enum ScriptFault {
    /// A growth was refused.
    Memory,
    /// A line is neither a command nor the header.
    NoCommand { line: u64, reason: Reason },
    /// A line resumes a caller.
    Resumption(u64),
    /// A line is a tick.
    Tick(u64),
    /// A line has more bytes than a script's line may have.
    Long(u64),
    /// There are more lines than a script may have.
    Lines,
}

impl Display for ScriptFault {
    fn fmt<W: fmt::Write>(&self, f: &mut Formatter<W>) -> fmt::Result {
        match self {
            ScriptFault::Memory => f.write_str("out of memory"),
            ScriptFault::NoCommand { line, reason } => {
                write!(f, "line {line} is no command: {reason}")
            }
            ScriptFault::Resumption(line) => write!(
                f,
                "line {line} is a resumption: whoever is parked goes on by itself once it can"
            ),
            ScriptFault::Tick(line) => {
                write!(
                    f,
                    "line {line} is a tick: the clock goes by itself, as --clock says"
                )
            }
            ScriptFault::Long(line) => write!(f, "line {line} is longer than 65536 bytes"),
            ScriptFault::Lines => f.write_str("the script has more than 100000 lines"),
        }
    }
}

impl From<AllocError> for ScriptFault {
    fn from(_: AllocError) -> ScriptFault {
        ScriptFault::Memory
    }
}

impl<T: Drop> From<AllocFailed<T>> for ScriptFault {
    fn from(_: AllocFailed<T>) -> ScriptFault {
        ScriptFault::Memory
    }
}
