//! The keys of one circle.
ghost use Rattle.std.specs.Iterator.{at_most};
ghost use Rattle.std.specs.Map.Iter.{TakesFirst};
ghost use Rattle.std.specs.Prelude.{length};

use crate::link::Link;
use ep_base::EntryId;
use std::marker::Model;

/// The keys of one circle, in order. It takes no memory. Contracts see those that are left.
#[derive(Drop)]
pub struct Keys<'a> {
    pub(crate) links: &'a [Link],
    pub(crate) at: usize,
    pub(crate) left: usize,
}

impl<'a> Model for Keys<'a> {
    ghost use Rattle.std.specs.Prelude.{List};
    ghost use Rattle.ep_base.specs.declared.ids.EntryId.{EntryId as Id};
    ghost use Rattle.ep_rings.specs.KeyWalk.{AreLinked, ids_from};

    ghost Value = { List Id };

    ghost view = { λ s. ids_from s.links.now s.left s.at };

    ghost invariant = { λ s. AreLinked s.links.now s.left s.at };
}

impl<'a> Iterator for Keys<'a> {
    type Item = EntryId;

    ghost next_gives = { TakesFirst (λ id. id) };

    ghost remaining = { λ s. at_most (length s) };

    fn next(&mut self) -> Option<EntryId> {
        if self.left == 0 {
            return None;
        }
        let key = self.at;
        self.at = self.links[key].next;
        self.left -= 1;
        Some(EntryId(key))
    }
}
