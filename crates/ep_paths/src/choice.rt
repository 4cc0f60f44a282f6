//! One choice of a run.
ghost use Rattle.std.specs.Prelude.{◌≡◌, ◌+◌, ◌≤◌, MatchOption};
ghost use Rattle.ep_paths.specs.Paths.{IsLast, IsNextWay};

/// One choice of a run: of so many ways that led on, the way that it went, counted from 0.
#[derive(Clone, Copy, Debug, PartialEq, Eq)]
pub struct Choice {
    /// The way that was gone.
    pub way: usize,
    /// How many ways there were.
    pub ways: usize,
}

impl Choice {
    /// The same choice with the next way; `None` if that was the last one.
    pub fn next(self) -> Option<Choice>
        ensures { MatchOption result (IsLast self) (λ next. IsNextWay self next) }
    {
        let way = self.way.checked_add(1)?;
        if way >= self.ways {
            return None;
        }
        Some(Choice {
            way,
            ways: self.ways,
        })
    }
}
