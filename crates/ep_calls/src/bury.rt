//! The end of an event: descriptions that nothing names die, their registrations go, and what that raises is noted.
ghost use Rattle.std.specs.Prelude.{◌≡◌, []};
ghost use Rattle.ep_calls.specs.Burial.{Buries, Burial};
ghost use Rattle.ep_calls.specs.Climb.{KeepsLinks};
ghost use Rattle.ep_calls.specs.Ids.{KeepsIds};
ghost use Rattle.ep_calls.specs.Stands.{AreLinked};

use crate::Parts;
use crate::raising::{at_end, other_end, raise_there};
use ep_base::EventNumber;
use ep_interest::Interest;
use ep_nest::Graph;
use ep_table::Tables;

/// Ends the descriptions that wait for it, one after another.
#[cold]
#[inline(never)]
fn end_each(tables: &mut Tables, interest: &mut Interest, graph: &mut Graph, step: EventNumber)
    requires { AreLinked tables.old interest.old }
    ensures buries { Buries step tables.old interest.old tables.new interest.new }
    ensures none { tables.new.dying ≡ [] }
    ensures ids { KeepsIds interest.old interest.new }
    ensures nested { KeepsLinks interest.old graph.old interest.new graph.new }
{
    loop {
        tables.known();
        let Some(dead) = tables.take_dead() else {
            return;
        };
        interest.known();
        interest.purge(dead.desc);
        interest.known();
        graph.purge(dead.desc);
        raise_there(
            interest,
            dead.other,
            at_end(dead.raised, other_end(dead.end)),
            step,
        );
    }
}

/// The same. In most events there is none, and then nothing is called.
#[inline(always)]
fn end_dying(tables: &mut Tables, interest: &mut Interest, graph: &mut Graph, step: EventNumber)
    requires { AreLinked tables.old interest.old }
    ensures buries { Buries step tables.old interest.old tables.new interest.new }
    ensures none { tables.new.dying ≡ [] }
    ensures ids { KeepsIds interest.old interest.new }
    ensures nested { KeepsLinks interest.old graph.old interest.new graph.new }
{
    let Some(_) = tables.dying().next() else {
        return;
    };
    end_each(tables, interest, graph, step);
}

impl Parts {
    /// Ends each description that no descriptor names any more, and takes its registrations and those in it away.
    #[inline(always)]
    pub fn bury(&mut self, step: EventNumber)
        ensures burial { Burial step self.old.tables self.old.interest self.new.tables
            self.new.interest }
        ensures ids { KeepsIds self.old.interest self.new.interest }
        ensures parked { self.new.parked ≡ self.old.parked }
        ensures clock { self.new.clock ≡ self.old.clock }
    {
        self.tables.known();
        end_dying(&mut self.tables, &mut self.interest, &mut self.graph, step);
        self.tables.known();
    }
}
