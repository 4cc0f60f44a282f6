//! Why a script was not run to its end.
use thiserror::Error;

/// Why a script was not run to its end.
#[derive(Clone, Copy, Debug, Drop, PartialEq, Eq, Error)]
pub enum ScriptFault {
    /// The reader answered an error.
    #[error("cannot read the script")]
    Read,
    /// The writer answered an error, or took no byte.
    #[error("cannot write the answers")]
    Write,
    /// The line of this number, counted from 1, is longer than 65,536 bytes.
    #[error("line {0} is longer than 65536 bytes")]
    Line(u64),
    /// A line begins after the 100,000th.
    #[error("more than 100000 lines")]
    Lines,
    /// A growth of the run itself was refused.
    #[error("out of memory")]
    Memory,
}

/// Why a script whose history is written was not run to its end.
#[derive(Clone, Copy, Debug, Drop, PartialEq, Eq, Error)]
pub enum RecordedFault {
    /// As without a history.
    #[error("{0}")]
    Script(ScriptFault),
    /// The history's writer answered an error, or took no byte.
    #[error("cannot write the history")]
    History,
    /// A growth for the line of a record was refused.
    #[error("out of memory")]
    Memory,
}

/// Why a history could not be read.
#[derive(Clone, Copy, Debug, Drop, PartialEq, Eq, Error)]
pub enum HistoryFault {
    /// The reader answered an error.
    #[error("cannot read the history")]
    Read,
    /// The line of this number, counted from 1, is longer than 56,000,000 bytes.
    #[error("line {0} is longer than 56000000 bytes")]
    Line(u64),
    /// The line of this number, counted from 1, is no record.
    #[error("line {0} is no record")]
    NoRecord(u64),
    /// A growth was refused.
    #[error("out of memory")]
    Memory,
}
