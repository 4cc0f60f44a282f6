//! The keys of the live descriptions.
ghost use Rattle.std.specs.Iterator.{at_most};
ghost use Rattle.std.specs.Map.Iter.{TakesFirst};
ghost use Rattle.std.specs.Prelude.{length};

use crate::words::Description;
use ep_base::DescId;
use std::marker::Model;

/// The key of each live description, once, in the order of the keys. It takes no memory. Contracts see
/// the list of those that are left.
#[derive(Drop)]
pub struct Live<'a> {
    pub(crate) entries: slab::Iter<'a, Description>,
}

impl<'a> Model for Live<'a> {
    ghost use Rattle.std.specs.Prelude.{List};
    ghost use Rattle.ep_base.specs.declared.ids.DescId.{DescId as Id};

    ghost Value = { List Id };

    ghost use Rattle.ep_table.specs.Live.{keys_shown};

    ghost view = { λ s. keys_shown s.entries };
}

impl<'a> Iterator for Live<'a> {
    type Item = DescId;

    ghost next_gives = { TakesFirst (λ id. id) };

    ghost remaining = { λ s. at_most (length s) };

    fn next(&mut self) -> Option<DescId> {
        let (key, _) = self.entries.next()?;
        Some(DescId(key))
    }
}
