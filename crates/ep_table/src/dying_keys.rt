//! The keys of the descriptions that nothing names or holds any more.
ghost use Rattle.std.specs.Iterator.{at_most};
ghost use Rattle.std.specs.Map.Iter.{TakesFirst};
ghost use Rattle.std.specs.Prelude.{length};

use crate::words::Dying;
use ep_base::DescId;
use std::marker::Model;

/// The key of each description that no table names and no waiter holds, once, in the order in which
/// `Tables::take_dead` ends them where no other comes. It takes no memory. Contracts see the list of
/// those that are left.
#[derive(Drop)]
pub struct DyingKeys<'a> {
    pub(crate) queue: &'a [Dying],
}

impl<'a> Model for DyingKeys<'a> {
    ghost use Rattle.std.specs.Prelude.{List};
    ghost use Rattle.ep_base.specs.declared.ids.DescId.{DescId as Id};

    ghost Value = { List Id };

    ghost use Rattle.ep_table.specs.DyingKeys.{queued_keys};

    ghost view = { λ s. queued_keys s.queue.now };
}

impl<'a> Iterator for DyingKeys<'a> {
    type Item = DescId;

    ghost next_gives = { TakesFirst (λ id. id) };

    ghost remaining = { λ s. at_most (length s) };

    fn next(&mut self) -> Option<DescId> {
        match self.queue.split_last() {
            Some((last, rest)) => {
                self.queue = rest;
                Some(last.key)
            }
            None => None,
        }
    }
}
