//! The parts of a kernel.
ghost use Rattle.std.specs.Prelude.{IfOk};
ghost use Rattle.ep_calls.specs.Parts.{AreCoherent, AreOpening};
ghost use Rattle.ep_table.specs.Value.{Sound};

use ep_base::{Limits, Moment};
use ep_interest::Interest;
use ep_nest::Graph;
use ep_park::Park;
use ep_table::Tables;
use std::alloc::{AllocError, Global};
use std::marker::Model;

/// What a kernel keeps but its history. Contracts see it as the record `Parts`.
#[derive(Drop)]
pub struct Parts {
    /// What memory is asked of.
    pub alloc: Global,
    /// The processes' descriptor tables, the descriptions and the objects.
    pub tables: Tables,
    /// The registrations of all instances.
    pub interest: Interest,
    /// Which instances watch each other.
    pub graph: Graph,
    /// The parked callers.
    pub waiters: Park,
    /// The present moment.
    pub clock: Moment,
}

impl Model for Parts {
    ghost use Rattle.ep_calls.specs.Parts.{Parts, AreCoherent};

    ghost Value = { Parts };

    ghost view = { λ p. record { tables = p.tables; interest = p.interest; graph = p.graph; parked = p.waiters; clock = p.clock } };

    ghost invariant = { λ p. AreCoherent (record { tables = p.tables; interest = p.interest; graph = p.graph; parked = p.waiters; clock = p.clock }) };
}

impl Parts {
    /// The parts at the start: process 1, whose descriptors 0, 1 and 2 name one plain object, and the clock at 0.
    /// An `Err` is want of memory.
    pub fn new(alloc: Global, limits: Limits) -> Result<Parts, AllocError>
        ensures { IfOk result (λ parts. AreOpening limits parts) }
    {
        Ok(Parts {
            alloc,
            tables: Tables::new(alloc, limits)?,
            interest: Interest::new(alloc),
            graph: Graph::new(alloc),
            waiters: Park::new(alloc),
            clock: Moment::first(),
        })
    }

    /// What memory is asked of.
    pub fn allocator(&self) -> Global {
        self.alloc
    }

    /// Does nothing. What holds of the parts between calls; a fact for proofs.
    pub fn known(&self)
        ensures coherent { AreCoherent self.now }
        ensures sound { Sound self.now.tables }
    {
        self.tables.known();
    }
}
