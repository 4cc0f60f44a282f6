//! One order, as it is made.
ghost use Rattle.std.specs.Prelude.{◌≡◌, ◌+◌, ◌++◌, ◌≤◌, ◌∷◌, [], IfOk, List, OnOk, false, filter};
ghost use Rattle.std.specs.Prelude.{if◌then◌else◌, option_map, slice_get, slice_index, true, vec_len};
ghost use Rattle.ep_base.specs.declared.record.Record.{Record as Entry};
ghost use Rattle.ep_calls.specs.Acts.{is_no_memory};
ghost use Rattle.ep_calls.specs.Driver.{TellsNext};
ghost use Rattle.ep_machine.specs.State.{opening};
ghost use Rattle.ep_orders.specs.Orders.{HasEnded, SetsUp, first_place};
ghost use Rattle.ep_orders.specs.Place.{affords, asked, asked_by, can_again, can_any_go, can_go, done_by};
ghost use Rattle.ep_orders.specs.Place.{is_preemption, may_go, may_pass, next_at, next_of, other, others, place_after, ways_at};
ghost use Rattle.ep_orders.specs.Course.{Enters, GoesOn, PathGrows, Took, event_of, place_of, world_of};

use crate::fault::Fault;
use crate::scenario::{Line, Scenario};
use crate::turn::{ClockTurns, Rules, Turn};
use ep_base::{Answer, CallerId, Errno, Event, Span};
use ep_calls::Kernel;
use ep_paths::Choice;
use std::alloc::{AllocError, Global};

/// By whom the clock goes on: nobody asks who that is.
const CLOCK: CallerId = CallerId(0);

/// What a caller does next.
#[derive(Clone, Copy)]
pub(crate) enum Next<'a> {
    /// It is marked, and goes on in its wait.
    Resume,
    /// The next event of its line.
    Event(&'a Event),
}

/// One order, as far as it has come: a kernel, and of each line how many of its events were asked for.
#[derive(Drop)]
pub(crate) struct Course<'a, K> {
    pub(crate) kernel: K,
    pub(crate) turns: Vec<Turn>,
    scenario: &'a Scenario,
    rules: Rules,
    done: Vec<usize>,
    last: Option<usize>,
    spent: u64,
}

/// The most turns of an order.
pub(crate) const MOST_TURNS: usize = 10_000;

fn is_no_memory(answer: &Answer) -> bool
    ensures { result ≡ is_no_memory answer.now }
{
    matches!(answer, Answer::Refused(Errno::Enomem))
}

/// Hands an event to a kernel. The error is want of memory, by which nothing was done.
fn ask<K: Kernel>(kernel: &mut K, caller: CallerId, event: Event) -> Result<(), Fault>
    ensures limits { K.bounds kernel.new ≡ K.bounds kernel.old }
    ensures taken { K.taken kernel.new ≡ K.taken kernel.old }
    ensures enters { IfOk result (λ _. Enters (K.bounds kernel.old) caller event
        (K.state kernel.old) (K.state kernel.new) (K.past kernel.old) (K.past kernel.new)) }
{
    let answer = kernel.step(caller, event);
    if is_no_memory(&answer) {
        return Err(Fault::Memory);
    }
    Ok(())
}

fn set_up<K: Kernel>(kernel: &mut K, setup: &[(CallerId, Event)]) -> Result<(), Fault>
    ensures limits { K.bounds kernel.new ≡ K.bounds kernel.old }
    ensures taken { K.taken kernel.new ≡ K.taken kernel.old }
    ensures records { IfOk result (λ _. (records : List Entry)
        × (K.past kernel.new ≡ K.past kernel.old ++ records)
        × SetsUp (K.bounds kernel.old) (K.state kernel.old) setup.now records (K.state kernel.new)) }
{
    for asked in setup {
        let event = asked.1.copy()?;
        ask(kernel, asked.0, event)?;
    }
    Ok(())
}

/// The way to go at a place: that of the path, or the first one, which is added to it.
fn choose_way(path: &mut Vec<Choice>, place: usize, ways: usize) -> Result<usize, Fault>
    requires { place ≤ vec_len path.old }
    ensures { IfOk result (λ way. PathGrows path.old.items place
        (record { way = way; ways = ways }) path.new.items) }
{
    match path.get(place) {
        Some(choice) if choice.ways == ways => Ok(choice.way),
        Some(_) => Err(Fault::NotTheSame),
        None => {
            path.push(Choice { way: 0, ways })?;
            Ok(0)
        }
    }
}

fn way_at(ways: &[Turn], way: usize) -> Option<Turn>
    ensures { result ≡ slice_get ways.now way }
{
    ways.get(way).copied()
}

impl<'a, K: Kernel> Course<'a, K> {
    /// Does the setup on a new kernel.
    pub(crate) fn begin(
        alloc: Global,
        mut kernel: K,
        scenario: &'a Scenario,
        rules: Rules,
    ) -> Result<Course<'a, K>, Fault>
    where
        K: Drop,
        requires { K.past kernel ≡ [] }
        ensures world { IfOk result (λ w. world_of K.bounds w
            ≡ record { limits = K.bounds kernel; rules = rules; lines = scenario.now.lines.items }) }
        ensures scenario { IfOk result (λ w. w.scenario.now ≡ scenario.now) }
        ensures place { IfOk result (λ w. place_of K.state w
            ≡ first_place (world_of K.bounds w) (K.state w.kernel)) }
        ensures setup { IfOk result (λ w. SetsUp (K.bounds kernel) opening
            scenario.now.setup.items (K.past w.kernel) (K.state w.kernel)) }
        ensures taken { IfOk result (λ w. K.taken w.kernel ≡ []) }
        ensures turns { IfOk result (λ w. w.turns.items ≡ []) }
    {
        let _none = kernel.history();
        set_up(&mut kernel, scenario.setup.as_slice())?;
        let done = vec![in alloc; 0; scenario.lines.len()]?;
        Ok(Course {
            kernel,
            turns: Vec::new(alloc),
            scenario,
            rules,
            done,
            last: None,
            spent: 0,
        })
    }

    /// How many events of a line were asked for.
    fn done(&self, number: usize) -> usize
        ensures { result ≡ slice_index self.now.done.items number }
    {
        match self.done.get(number) {
            Some(done) => *done,
            None => 0,
        }
    }

    fn next_of<'b>(&self, line: &'b Line, done: usize) -> Option<Next<'b>>
        ensures { option_map event_of result ≡ next_of (K.state self.now.kernel) line.now done }
    {
        if !self.kernel.is_parked(line.caller) {
            return Some(Next::Event(line.events.get(done)?));
        }
        if self.kernel.is_marked(line.caller) {
            Some(Next::Resume)
        } else {
            None
        }
    }

    /// What the caller of a line does next, if it can go on.
    fn next(&self, number: usize) -> Option<Next<'a>>
        ensures { option_map event_of result
            ≡ next_at (world_of K.bounds self.now) (place_of K.state self.now) number }
    {
        self.next_of(self.scenario.lines.get(number)?, self.done(number))
    }

    fn can_go(&self, number: usize) -> bool
        ensures { result ≡ can_go (world_of K.bounds self.now) (place_of K.state self.now) number }
    {
        self.next(number).is_some()
    }

    fn can_any_go(&self) -> bool
        ensures { result ≡ can_any_go (world_of K.bounds self.now) (place_of K.state self.now) }
    {
        for number in 0..self.scenario.lines.len() {
            if self.can_go(number) {
                return true;
            }
        }
        false
    }

    fn can_last_go(&self) -> bool
        ensures { result
            ≡ can_again (world_of K.bounds self.now) (place_of K.state self.now) self.now.last }
    {
        match self.last {
            Some(last) => self.can_go(last),
            None => false,
        }
    }

    /// Whether a turn is another's while whoever went last could go on, or the clock's while a caller could.
    fn is_preemption(&self, turn: Turn) -> bool
        ensures { result ≡ is_preemption (world_of K.bounds self.now) (place_of K.state self.now) turn }
    {
        match turn {
            Turn::Line(number) => self.can_last_go() && self.last != Some(number),
            Turn::Clock => self.can_any_go(),
        }
    }

    fn affords(&self, turn: Turn) -> bool
        ensures { result ≡ affords self.now.rules.bound self.now.spent
            (is_preemption (world_of K.bounds self.now) (place_of K.state self.now) turn) }
    {
        match self.rules.bound {
            Some(bound) => self.spent < bound || !self.is_preemption(turn),
            None => true,
        }
    }

    /// Whether time may pass now, if something happens later.
    fn may_pass(&self) -> bool
        ensures { result ≡ may_pass self.now.rules.clock
            (can_any_go (world_of K.bounds self.now) (place_of K.state self.now)) }
    {
        match self.rules.clock {
            ClockTurns::Idle => !self.can_any_go(),
            ClockTurns::Any => true,
        }
    }

    /// Whether the next turn may be that one's. `moment` is the next one at which something happens.
    fn may_go(&self, turn: Turn, moment: Option<u64>) -> bool
        ensures { result ≡ may_go (world_of K.bounds self.now) (place_of K.state self.now) moment turn }
    {
        let can = match turn {
            Turn::Line(number) => self.can_go(number),
            Turn::Clock => moment.is_some() && self.may_pass(),
        };
        can && self.affords(turn)
    }

    fn add_way(
        &self,
        turn: Turn,
        moment: Option<u64>,
        ways: &mut Vec<Turn>,
    ) -> Result<(), AllocError>
        ensures { OnOk result (ways.new.items ≡ ways.old.items
            ++ filter (may_go (world_of K.bounds self.now) (place_of K.state self.now) moment) (turn ∷ [])) }
    {
        if self.may_go(turn, moment) {
            ways.push(turn)?;
        }
        Ok(())
    }

    fn add_other(
        &self,
        number: usize,
        moment: Option<u64>,
        ways: &mut Vec<Turn>,
    ) -> Result<(), AllocError>
        ensures { OnOk result (ways.new.items ≡ ways.old.items
            ++ filter (may_go (world_of K.bounds self.now) (place_of K.state self.now) moment)
            (other self.now.last number)) }
    {
        if self.last == Some(number) {
            return Ok(());
        }
        self.add_way(Turn::Line(number), moment, ways)
    }

    fn add_others(&self, moment: Option<u64>, ways: &mut Vec<Turn>) -> Result<(), AllocError>
        ensures { OnOk result (ways.new.items ≡ ways.old.items
            ++ filter (may_go (world_of K.bounds self.now) (place_of K.state self.now) moment)
            (others self.now.last (vec_len self.now.scenario.now.lines))) }
    {
        for number in 0..self.scenario.lines.len() {
            self.add_other(number, moment, ways)?;
        }
        Ok(())
    }

    /// Whose turn the next may be: whoever went last, the others in their order, the clock.
    pub(crate) fn find_ways(
        &self,
        moment: Option<u64>,
        ways: &mut Vec<Turn>,
    ) -> Result<(), AllocError>
        ensures { OnOk result (ways.new.items
            ≡ ways_at (world_of K.bounds self.now) (place_of K.state self.now) moment) }
    {
        ways.clear();
        if let Some(last) = self.last {
            self.add_way(Turn::Line(last), moment, ways)?;
        }
        self.add_others(moment, ways)?;
        self.add_way(Turn::Clock, moment, ways)
    }

    fn asked_by(&self, number: usize) -> Result<Option<(CallerId, Event)>, AllocError>
        ensures { IfOk result (λ o. o ≡ asked_by (K.state self.now.kernel)
            (slice_index self.now.done.items number)
            (slice_get self.now.scenario.now.lines.items number)) }
    {
        let Some(line) = self.scenario.lines.get(number) else {
            return Ok(None);
        };
        Ok(match self.next_of(line, self.done(number)) {
            Some(Next::Resume) => Some((line.caller, Event::Resume)),
            Some(Next::Event(event)) => Some((line.caller, event.copy()?)),
            None => None,
        })
    }

    /// What is asked for in a turn, and by whom.
    fn asked(
        &self,
        turn: Turn,
        moment: Option<u64>,
    ) -> Result<Option<(CallerId, Event)>, AllocError>
        ensures { IfOk result (λ o. o
            ≡ asked (world_of K.bounds self.now) (place_of K.state self.now) moment turn) }
    {
        match turn {
            Turn::Line(number) => self.asked_by(number),
            Turn::Clock => Ok(match moment {
                Some(moment) => {
                    let n = Span(moment.saturating_sub(self.kernel.now().at()));
                    Some((CLOCK, Event::Tick { n }))
                }
                None => None,
            }),
        }
    }

    /// Counts an event of a line, unless its caller is parked.
    fn count(&mut self, number: usize) -> Result<(), Fault>
        ensures kernel { self.new.kernel ≡ self.old.kernel }
        ensures scenario { self.new.scenario.now ≡ self.old.scenario.now }
        ensures rules { self.new.rules ≡ self.old.rules }
        ensures last { self.new.last ≡ self.old.last }
        ensures spent { self.new.spent ≡ self.old.spent }
        ensures turns { self.new.turns.items ≡ self.old.turns.items }
        ensures done { OnOk result (self.new.done.items
            ≡ done_by (K.state self.old.kernel) self.old.done.items number
            (slice_get self.old.scenario.now.lines.items number)) }
    {
        let Some(line) = self.scenario.lines.get(number) else {
            return Ok(());
        };
        if self.kernel.is_parked(line.caller) {
            return Ok(());
        }
        let Some(more) = self.done(number).checked_add(1) else {
            return Err(Fault::TooLong(MOST_TURNS));
        };
        if number < self.done.len() {
            self.done[number] = more;
        }
        Ok(())
    }

    /// How many pre-emptions there are with this turn.
    fn spent_after(&self, turn: Turn) -> Result<u64, Fault>
        ensures { IfOk result (λ n. n ≡ (if is_preemption (world_of K.bounds self.now) (place_of K.state self.now) turn
            then self.now.spent + 1 else self.now.spent)) }
    {
        if !self.is_preemption(turn) {
            return Ok(self.spent);
        }
        match self.spent.checked_add(1) {
            Some(spent) => Ok(spent),
            None => Err(Fault::TooLong(MOST_TURNS)),
        }
    }

    /// Notes a turn, before it is asked for.
    fn note(&mut self, turn: Turn) -> Result<(), Fault>
        ensures kernel { self.new.kernel ≡ self.old.kernel }
        ensures scenario { self.new.scenario.now ≡ self.old.scenario.now }
        ensures rules { self.new.rules ≡ self.old.rules }
        ensures place { OnOk result (place_of K.state self.new
            ≡ place_after (world_of K.bounds self.old) (place_of K.state self.old) turn (K.state self.old.kernel)) }
        ensures turns { OnOk result (self.new.turns.items ≡ self.old.turns.items ++ turn ∷ []) }
    {
        let spent = self.spent_after(turn)?;
        self.last = match turn {
            Turn::Line(number) => {
                self.count(number)?;
                Some(number)
            }
            Turn::Clock => None,
        };
        self.spent = spent;
        self.turns.push(turn)?;
        Ok(())
    }

    /// Does a turn, which may be that one's.
    pub(crate) fn take(&mut self, turn: Turn, moment: Option<u64>) -> Result<(), Fault>
        ensures world { world_of K.bounds self.new ≡ world_of K.bounds self.old }
        ensures scenario { self.new.scenario.now ≡ self.old.scenario.now }
        ensures turns { OnOk result (self.new.turns.items ≡ self.old.turns.items ++ turn ∷ []) }
        ensures took { IfOk result (λ _. (r : Entry)
            × (K.past self.new.kernel ≡ K.past self.old.kernel ++ r ∷ [])
            × Took (world_of K.bounds self.old) (place_of K.state self.old) moment turn
            (place_of K.state self.new) r) }
        ensures taken { K.taken self.new.kernel ≡ K.taken self.old.kernel }
    {
        let Some((caller, event)) = self.asked(turn, moment)? else {
            return Err(Fault::NotTheSame);
        };
        self.note(turn)?;
        ask(&mut self.kernel, caller, event)
    }

    /// The next moment at which something happens by itself.
    fn next_moment(&self) -> Option<u64>
        ensures { TellsNext (K.state self.now.kernel) result }
    {
        match self.kernel.next_moment() {
            Some(moment) => Some(moment.at()),
            None => None,
        }
    }

    /// One turn by the path; or `false`, if nobody can go on.
    pub(crate) fn go_on(
        &mut self,
        ways: &mut Vec<Turn>,
        path: &mut Vec<Choice>,
        place: usize,
    ) -> Result<bool, Fault>
        requires { place ≤ vec_len path.old }
        ensures world { world_of K.bounds self.new ≡ world_of K.bounds self.old }
        ensures scenario { self.new.scenario.now ≡ self.old.scenario.now }
        ensures turn { IfOk result (λ more. more ≡ true → GoesOn (world_of K.bounds self.old)
            (place_of K.state self.old) (place_of K.state self.new) path.old.items path.new.items
            place self.old.turns.items self.new.turns.items
            (K.past self.old.kernel) (K.past self.new.kernel)) }
        ensures end { IfOk result (λ more. more ≡ false
            → HasEnded (world_of K.bounds self.old) (place_of K.state self.old)) }
        ensures kept { IfOk result (λ more. more ≡ false → self.new ≡ self.old) }
        ensures path { IfOk result (λ more. more ≡ false → path.new.items ≡ path.old.items) }
        ensures taken { K.taken self.new.kernel ≡ K.taken self.old.kernel }
    {
        let moment = self.next_moment();
        self.find_ways(moment, ways)?;
        let found = ways.as_slice();
        if found.is_empty() {
            return Ok(false);
        }
        let way = choose_way(path, place, found.len())?;
        let Some(turn) = way_at(found, way) else {
            return Err(Fault::NotTheSame);
        };
        self.take(turn, moment)?;
        Ok(true)
    }
}
