//! What a registration shows, once it is known whether the instance that it watches is ready.
ghost use Rattle.std.specs.Prelude.{◌≡◌, ◌≤◌, ◌&&◌, ◌||◌, IsSome, nat_lt, not};
ghost use Rattle.ep_machine.specs.Bits.{ET, has_bit};
ghost use Rattle.ep_view.specs.KernelView.{shows};
ghost use Rattle.ep_calls.specs.Readiness.{present_over, shown_over};
ghost use Rattle.ep_table.specs.Value.{number_under};

use bitflags::Flags;
use ep_base::{DescId, Mask, Moment};
use ep_interest::Entry;
use ep_table::Tables;

/// The bits that hold at a description, asked for or not. `below`: whether it is an instance that is ready.
pub fn present(tables: &Tables, now: Moment, desc: DescId, below: bool) -> Mask
    requires live { IsSome (number_under tables.now desc) }
    ensures { result.0 ≡ present_over below tables.now now desc }
{
    if !tables.object(desc).is_instance() {
        return tables.present(desc, now);
    }
    if below { Mask::IN } else { Mask::empty() }
}

/// The bits that a registration shows: if it is armed, those of its target that its mask asks for, ERR and HUP
/// unasked.
#[inline(always)]
pub fn shown_at(tables: &Tables, now: Moment, entry: &Entry, below: bool) -> Mask
    requires target { IsSome (number_under tables.now entry.now.desc) }
    ensures { result.0 ≡ shown_over below tables.now now entry.now }
{
    if !entry.armed {
        return Mask::empty();
    }
    let present = present(tables, now, entry.desc, below);
    present.intersection(entry.mask.union(Mask::ERR.union(Mask::HUP)))
}

/// Whether a registration that shows these bits is reportable: an edge-triggered one needs something that arrived since
/// its last report.
pub fn is_reportable(entry: &Entry, bits: Mask) -> bool
    ensures { result ≡ (nat_lt 0 bits.0 && (not (has_bit entry.now.mask.0 ET) || entry.now.fresh)) }
{
    !bits.is_empty() && (!entry.mask.intersects(Mask::ET) || entry.fresh)
}
