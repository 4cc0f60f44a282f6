//! Makes one order after another, each on a kernel of its own.
ghost use Rattle.std.specs.Prelude.{◌≡◌, ◌+◌, [], IfOk, length, take, true};
ghost use Rattle.ep_base.specs.Limits.{Limits as Numbers};
ghost use Rattle.ep_orders.specs.Explorer.{Told, given_of, world_in};
ghost use Rattle.ep_orders.specs.Course.{Walked, world_of};
ghost use Rattle.ep_records.specs.Past.{whole};

use crate::course::{Course, MOST_TURNS};
use crate::fault::Fault;
use crate::scenario::Scenario;
use crate::turn::{Rules, Turn};
use crate::visitor::Visitor;
use ep_base::{EventNumber, Record};
use ep_calls::Kernel;
use ep_paths::{Choice, Runs};
use ep_records::{Entry, History};
use std::alloc::{AllocError, Global};

/// Makes kernels, all under the same limits.
pub trait Makes<K: Kernel> {
    /// The limits.
    ghost limits: { Self → Numbers };

    /// A new kernel, which has no history yet.
    fn make(&self, alloc: Global) -> Result<K, AllocError>
        ensures fresh { IfOk result (λ kernel. K.past kernel ≡ []) }
        ensures limits { IfOk result (λ kernel. K.bounds kernel ≡ limits self.now) };
}

/// What makes one order after another. Of the last one it has the turns and the kernel.
#[derive(Drop)]
pub(crate) struct Explorer<'a, M, K, V> {
    pub(crate) alloc: Global,
    pub(crate) maker: &'a M,
    pub(crate) scenario: &'a Scenario,
    pub(crate) rules: Rules,
    pub(crate) turns: Vec<Turn>,
    pub(crate) kernel: K,
    pub(crate) visitor: V,
}

/// Whether two entries name the same record. An `Err` is want of memory for a copy.
fn are_same_entries(one: &Entry<'_>, other: &Entry<'_>) -> Result<bool, AllocError>
    ensures { IfOk result (λ same. same ≡ true → one.now ≡ other.now) }
{
    Ok(one.is_same(&other.copy()?))
}

/// Whether two histories have the same records up to a place. An `Err` is want of memory for a copy.
fn is_same_history(a: &History, b: &History, up_to: usize) -> Result<bool, AllocError>
    ensures { IfOk result
        (λ same. same ≡ true → take up_to (whole a.now) ≡ take up_to (whole b.now)) }
{
    for place in 0..up_to {
        let number = EventNumber(place as u64 + 1);
        let (Some(x), Some(y)) = (a.numbered(number), b.numbered(number)) else {
            return Ok(false);
        };
        let same = are_same_entries(&x, &y)?;
        if !same {
            return Ok(false);
        }
    }
    Ok(true)
}

/// Whether the same turns come up to a place.
fn are_same_turns(a: &[Turn], b: &[Turn], up_to: usize) -> bool
    ensures { result ≡ true → take up_to a.now ≡ take up_to b.now }
{
    for place in 0..up_to {
        let (Some(x), Some(y)) = (a.get(place), b.get(place)) else {
            return false;
        };
        if !x.is_same(*y) {
            return false;
        }
    }
    true
}

impl<'a, M: Makes<K>, K: Kernel + Drop, V: Visitor> Explorer<'a, M, K, V> {
    /// Makes the order of a path.
    fn walk(&self, path: &mut Vec<Choice>) -> Result<Course<'a, K>, Fault>
        ensures scenario { IfOk result (λ w. w.scenario.now ≡ self.now.scenario.now) }
        ensures world { IfOk result (λ w. world_of K.bounds w ≡ world_in M.limits self.now) }
        ensures walked { IfOk result (λ w. Walked (world_in M.limits self.now)
            self.now.scenario.now.setup.items path.old.items path.new.items w.turns.items
            (K.past w.kernel)) }
        ensures taken { IfOk result (λ w. K.taken w.kernel ≡ []) }
    {
        let kernel = self.maker.make(self.alloc)?;
        let mut course = Course::begin(self.alloc, kernel, self.scenario, self.rules)?;
        let mut ways = Vec::new(self.alloc);
        for place in 0..MOST_TURNS {
            let more = course.go_on(&mut ways, path, place)?;
            if more {
                continue;
            }
            if place < path.len() {
                return Err(Fault::NotTheSame);
            }
            return Ok(course);
        }
        Err(Fault::TooLong(MOST_TURNS))
    }

    /// Whether an order did the same as the last one did, in the setup and so many turns behind it.
    fn is_same(&self, course: &Course<'a, K>, turns: usize) -> Result<bool, AllocError>
        ensures history { IfOk result (λ same. same ≡ true
            → take (length self.now.scenario.now.setup.items + turns) (K.past self.now.kernel)
            ≡ take (length self.now.scenario.now.setup.items + turns) (K.past course.now.kernel)) }
        ensures turns { IfOk result (λ same. same ≡ true
            → take turns self.now.turns.items ≡ take turns course.now.turns.items) }
    {
        let Some(up_to) = self.scenario.setup.len().checked_add(turns) else {
            return Ok(false);
        };
        if !are_same_turns(self.turns.as_slice(), course.turns.as_slice(), turns) {
            return Ok(false);
        }
        is_same_history(self.kernel.history(), course.kernel.history(), up_to)
    }
}

impl<M: Makes<K>, K: Kernel + Drop, V: Visitor> Runs for Explorer<'_, M, K, V> {
    type Given = (Turn, Record);

    type Fault = Fault;

    ghost given = { given_of K.past };

    ghost told = { Told K.past M.limits V.notes };

    fn run(&mut self, path: &mut Vec<Choice>) -> Result<(), Fault> {
        let kept = path.len().saturating_sub(1);
        let course = self.walk(path)?;
        let same = self.is_same(&course, kept)?;
        if !same {
            return Err(Fault::NotTheSame);
        }
        let Course { kernel, turns, .. } = course;
        let records = kernel.history().copies_from(self.scenario.setup.len())?;
        self.visitor.visit(turns.as_slice(), records.as_slice())?;
        self.kernel = kernel;
        self.turns = turns;
        Ok(())
    }
}
