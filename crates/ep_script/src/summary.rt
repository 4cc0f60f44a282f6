//! What a run counts.
ghost use Rattle.std.specs.Prelude.{◌≡◌, ◌+◌, ◌<◌, ◌≤◌};
ghost use Rattle.ep_script.specs.Tally.{counted};

/// What a whole run counted, each at most 100,000.
#[derive(Clone, Copy, Debug, Default, PartialEq, Eq)]
pub struct Summary {
    /// The lines of the script, with its header.
    pub lines: u64,
    /// The records that the history gained.
    pub records: u64,
    /// The lines that are neither a command nor the header.
    pub bad: u64,
}

/// What became of a line.
#[derive(Clone, Copy, Debug, PartialEq, Eq)]
pub(crate) enum LineKind {
    /// It is neither a command nor the header.
    Bad,
    /// It is the header.
    Head,
    /// Its call was refused for want of memory, which makes no record.
    Unrecorded,
    /// Its call made a record.
    Recorded,
}

impl Summary {
    /// The counts with one line more.
    pub(crate) fn with(self, kind: LineKind) -> Summary
        requires lines { self.lines < 100000 }
        requires records { self.records ≤ self.lines }
        requires bad { self.bad ≤ self.lines }
        ensures { result ≡ counted self kind }
    {
        let lines = self.lines + 1;
        match kind {
            LineKind::Bad => Summary {
                lines,
                bad: self.bad + 1,
                ..self
            },
            LineKind::Head | LineKind::Unrecorded => Summary { lines, ..self },
            LineKind::Recorded => Summary {
                lines,
                records: self.records + 1,
                ..self
            },
        }
    }
}
