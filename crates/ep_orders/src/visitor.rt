//! Who is told of each order.
ghost use Rattle.std.specs.Prelude.{IfOk, List, zip};
ghost use Rattle.ep_orders.specs.Place.{Move};

use crate::turn::Turn;
use ep_base::Record;
use std::alloc::AllocError;

/// Is told of each order at its end.
pub trait Visitor {
    /// What an order does to it.
    ghost notes: { Self → List Move → Self → Type 0 };

    /// An order has come to its end: whose turns it had, and the record of each.
    fn visit(&mut self, turns: &[Turn], records: &[Record]) -> Result<(), AllocError>
        ensures { IfOk result (λ _. notes self.old (zip turns.now records.now) self.new) };
}
