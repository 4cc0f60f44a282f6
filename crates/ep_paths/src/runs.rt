//! What makes the runs, and all of them.
ghost use Rattle.std.specs.Prelude.{◌≡◌, AllPairs, IfOk, List, false, length, true, zip};
ghost use Rattle.ep_paths.specs.Paths.{Comes, Follows, IsBefore, IsEveryRun, Taken};

use crate::choice::Choice;
use crate::odometer::next_path;
use std::alloc::Global;

/// What can be run again and again from its start, each time by other choices.
pub trait Runs {
    /// What a choice gave, beside how many ways there were. Two runs are the same up to a choice if what each choice
    /// before gave is, too.
    type Given;

    /// Why a run could not be made.
    type Fault;

    /// What the choices of the last run gave.
    ghost given: { Self → List Self.Given };

    /// What a run does to it: the run, and this before and after.
    ghost told: { Self → List (Taken Self.Given) → Self → Type 0 };

    /// Runs from the start by the choices of the path, and behind them by the first way at each further choice, which
    /// it adds to the path. What all choices but the last one of the path give has to be what they gave in the run
    /// before, or the run is at fault.
    fn run(&mut self, path: &mut Vec<Choice>) -> Result<(), Self::Fault>
        ensures comes { IfOk result (λ _.
            Comes path.old.items (given self.old) path.new.items (given self.new)) }
        ensures told { IfOk result (λ _.
            told self.old (zip path.new.items (given self.new)) self.new) };
}

/// Makes every run, each once, depth first: the first ways first. It stops before it would make more than `most`, and
/// answers whether that was all.
pub fn run_all<R: Runs>(alloc: Global, runs: &mut R, most: u64) -> Result<bool, R::Fault>
    ensures made { IfOk result (λ whole. (made : List (List (Taken R.Given)))
        × Follows R.told runs.old made runs.new
        × AllPairs IsBefore made
        × (whole ≡ false → length made ≡ most)
        × (whole ≡ true → IsEveryRun made)) }
{
    let mut path = Vec::new(alloc);
    for _ in 0..most {
        runs.run(&mut path)?;
        if !next_path(&mut path) {
            return Ok(true);
        }
    }
    Ok(false)
}
