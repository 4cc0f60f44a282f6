//! What a history tells, whatever the order of the threads was.

use ep_base::{Answer, Record};

/// What is counted in a history.
#[derive(Clone, Copy)]
pub struct Tally {
    /// All records.
    pub records: usize,
    /// The waits that parked.
    pub waits: usize,
    /// The bytes that were read.
    pub bytes: usize,
}

/// How many bytes a read gave.
fn bytes_of(record: &Record) -> usize {
    match &record.answer {
        Answer::Bytes(bytes) => bytes.as_slice().len(),
        _ => 0,
    }
}

/// Counts in a history.
pub fn tally_of(records: &[Record]) -> Tally {
    let mut waits: usize = 0;
    let mut bytes: usize = 0;
    for record in records {
        if matches!(record.answer, Answer::Parked) {
            waits = waits.saturating_add(1);
        }
        bytes = bytes.saturating_add(bytes_of(record));
    }
    Tally {
        records: records.len(),
        waits,
        bytes,
    }
}
