//! The records that were taken out of a history. Only contracts see them.
ghost use Rattle.std.specs.Prelude.{◌≡◌, List, []};
ghost use Rattle.std.specs.Borrow.{ftrue};
ghost use Rattle.ep_base.specs.declared.record.Record.{Record as Whole};

use std::marker::Model;

/// The records that were taken out, in order, which clauses read as `items`. It takes no byte, and its functions do
/// nothing when they run.
#[derive(Drop)]
pub struct Taken {
    pub(crate) ghost items: { List Whole },
}

impl Model for Taken {
    ghost also_owns = { λ _. ftrue };
}

// It owns nothing.
unsafe impl Send for Taken {}

unsafe impl Sync for Taken {}

impl Taken {
    /// None.
    pub(crate) fn none() -> Taken
        ensures { result.items ≡ [] }
    {
        Taken {}
    }
}
