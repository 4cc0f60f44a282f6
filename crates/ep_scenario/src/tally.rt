//! Counts what the orders of a script come to.
ghost use Rattle.std.specs.Prelude.{◌≡◌, ◌++◌, ◌∷◌, ◌<◌, [], IfOk, IfSome, IsNone, OnOk};
ghost use Rattle.std.specs.Prelude.{bytes_eq, get_or, map, set, string_bytes, vec_len, zip};
ghost use Rattle.ep_orders.specs.Orders.{Explores};
ghost use Rattle.ep_scenario.specs.declared.tally.Tally.{Tally as Tallied};
ghost use Rattle.ep_scenario.specs.Outcomes.{IsFresh, IsSeen, IsUnseen, Notes, counted, first_of};
ghost use Rattle.ep_scenario.specs.Outcomes.{no_outcome, one_more, seen_of, step_of};

use crate::outcome::{move_at, outcome_of};
use crate::script::Script;
use crate::step::Step;
use ep_base::Record;
use ep_calls::Kernel;
use ep_orders::{Explored, Makes, Rules, Turn, Visitor, explore};
use ep_version::Version;
use std::alloc::{AllocError, Global};

/// What some orders came to.
#[derive(Drop)]
pub struct Outcome {
    /// What each caller was told: the lines of its answers, as a run of the script has them, and an
    /// empty line behind them. A wait that parks is told nothing before it ends.
    pub told: String,
    /// The steps of the first of these orders.
    pub steps: Vec<Step>,
    /// Its number, counted from 1.
    pub first: u64,
    /// How many orders came to this.
    pub orders: u64,
}

/// The outcomes of orders, as they were found.
#[derive(Drop)]
pub struct Tally {
    alloc: Global,
    version: Version,
    lines: usize,
    /// How many orders there were.
    pub orders: u64,
    /// What they came to, each once.
    pub outcomes: Vec<Outcome>,
}

fn steps_of(alloc: Global, turns: &[Turn], records: &[Record]) -> Result<Vec<Step>, AllocError>
    ensures { IfOk result (λ steps. steps.items ≡ map step_of (zip turns.now records.now)) }
{
    let mut steps = Vec::new(alloc);
    for place in 0..turns.len() {
        let Some((turn, record)) = move_at(turns, records, place) else {
            return Ok(steps);
        };
        steps.push(Step::of(turn, record))?;
    }
    Ok(steps)
}

fn is_told(outcome: &Outcome, told: &str) -> bool
    ensures { result ≡ bytes_eq (seen_of outcome.now).told told.now }
{
    outcome.told.as_str() == told
}

/// The place of the outcome in which callers were told this.
fn place_of(outcomes: &[Outcome], told: &str) -> Option<usize>
    ensures seen { IfSome result (λ place. IsSeen told.now (map seen_of outcomes.now) place) }
    ensures unseen { IsNone result → IsUnseen told.now (map seen_of outcomes.now) }
{
    for place in 0..outcomes.len() {
        let outcome = &outcomes[place];
        if is_told(outcome, told) {
            return Some(place);
        }
    }
    None
}

impl Tally {
    /// No order yet, of a script.
    fn new(alloc: Global, script: &Script) -> Tally
        ensures { IsFresh script.now.version (vec_len script.now.scenario.lines) result }
    {
        Tally {
            alloc,
            version: script.version,
            lines: script.scenario.lines.len(),
            orders: 0,
            outcomes: Vec::new(alloc),
        }
    }

    /// Counts an order more that comes to the outcome at a place.
    fn count(&mut self, place: usize) -> Result<(), AllocError>
        requires { place < vec_len self.old.outcomes }
        ensures version { self.new.version ≡ self.old.version }
        ensures lines { self.new.lines ≡ self.old.lines }
        ensures orders { self.new.orders ≡ self.old.orders }
        ensures counted { OnOk result (map seen_of self.new.outcomes.items
            ≡ set (map seen_of self.old.outcomes.items) place
            (one_more (get_or (map seen_of self.old.outcomes.items) place no_outcome))) }
    {
        // There is no memory for so many orders.
        let Some(orders) = self.outcomes[place].orders.checked_add(1) else {
            return Err(AllocError);
        };
        self.outcomes[place].orders = orders;
        Ok(())
    }

    /// Keeps an order as the first that comes to something.
    fn add_first(
        &mut self,
        told: String,
        first: u64,
        turns: &[Turn],
        records: &[Record],
    ) -> Result<(), AllocError>
        ensures version { self.new.version ≡ self.old.version }
        ensures lines { self.new.lines ≡ self.old.lines }
        ensures orders { self.new.orders ≡ self.old.orders }
        ensures added { OnOk result (map seen_of self.new.outcomes.items
            ≡ map seen_of self.old.outcomes.items
            ++ first_of (string_bytes told) (map step_of (zip turns.now records.now)) first ∷ []) }
    {
        let steps = steps_of(self.alloc, turns, records)?;
        self.outcomes.push(Outcome {
            told,
            steps,
            first,
            orders: 1,
        })?;
        Ok(())
    }

    /// Counts an order of this number, in which callers were told this.
    fn add(
        &mut self,
        told: String,
        first: u64,
        turns: &[Turn],
        records: &[Record],
    ) -> Result<(), AllocError>
        ensures version { self.new.version ≡ self.old.version }
        ensures lines { self.new.lines ≡ self.old.lines }
        ensures counted { OnOk result (map seen_of self.new.outcomes.items
            ≡ counted (string_bytes told)
            (map step_of (zip turns.now records.now)) first (map seen_of self.old.outcomes.items)) }
    {
        match place_of(self.outcomes.as_slice(), told.as_str()) {
            Some(place) => self.count(place),
            None => self.add_first(told, first, turns, records),
        }
    }
}

impl Visitor for Tally {
    ghost notes = { Notes };

    fn visit(&mut self, turns: &[Turn], records: &[Record]) -> Result<(), AllocError> {
        let told = outcome_of(self.alloc, self.version, self.lines, turns, records)?;
        let Some(first) = self.orders.checked_add(1) else {
            return Err(AllocError);
        };
        self.add(told, first, turns, records)?;
        self.orders = first;
        Ok(())
    }
}

/// Runs every order of a script, each once, and counts what they come to. It stops before it would
/// run more than `most`, and at the first fault; what was counted up to then stays.
pub fn count_outcomes<M: Makes<K>, K: Kernel + Drop>(
    alloc: Global,
    script: &Script,
    maker: &M,
    rules: Rules,
    most: u64,
) -> Explored<Tally>
    ensures { IfOk result.end (λ whole. (fresh : Tallied)
        × IsFresh script.now.version (vec_len script.now.scenario.lines) fresh
        × Explores
        (record {
          limits = M.limits maker.now;
          rules = rules;
          lines = script.now.scenario.lines.items;
        })
        script.now.scenario.setup.items most Notes fresh result.visitor whole) }
{
    let fresh = Tally::new(alloc, script);
    explore(alloc, &script.scenario, maker, rules, most, fresh)
}
