//! A heap of moments with the way back from each place to its item.
ghost use Rattle.std.specs.Prelude.{◌≡◌, ◌<◌, ◌≤◌, ◌+◌, ◌/◌, ℕ, true, false, length, slice_set, Option, Some, None};
ghost use Rattle.ep_due.specs.Order.{NoLater};
ghost use Rattle.ep_due.specs.Heap.{item_at, index_of, ArePaired, SwapsItems, IsOrdered, LiftedAt, LoweredAt, LooseAt, IsLeastBelow};
ghost use Rattle.ep_due.specs.DueQueue.{moments};

use std::alloc::Allocator;

/// A moment or none, and the place that it belongs to.
#[derive(Clone, Copy)]
pub struct Item {
    /// When it is due, if it is.
    pub moment: Option<u64>,
    /// The place that has this moment.
    pub place: usize,
}

/// Whether a moment is no later than another; none is later than any.
pub fn no_later(a: Option<u64>, b: Option<u64>) -> bool
    ensures yes { result ≡ true → NoLater a b }
    ensures no { result ≡ false → NoLater b a }
{
    match (a, b) {
        (_, None) => true,
        (None, Some(_)) => false,
        (Some(m), Some(n)) => m <= n,
    }
}

/// Changes the places of two items.
pub fn swap<A: Allocator>(heap: &mut Vec<Item, A>, places: &mut Vec<usize, A>, i: usize, j: usize)
    requires paired { ArePaired heap.old.items places.old.items }
    requires left { i < length heap.old.items }
    requires right { j < length heap.old.items }
    ensures paired { ArePaired heap.new.items places.new.items }
    ensures swapped { SwapsItems heap.old.items heap.new.items i j }
    ensures moments { (live : ℕ) → i < live → j < live
        → moments live heap.new.items places.new.items
        ≡ moments live heap.old.items places.old.items }
{
    let a = heap[i];
    let b = heap[j];
    heap[i] = b;
    heap[j] = a;
    places[b.place] = i;
    places[a.place] = j;
}

/// Lifts an item that may be before its parent.
fn sift_up<A: Allocator>(
    heap: &mut Vec<Item, A>,
    places: &mut Vec<usize, A>,
    live: usize,
    from: usize,
)
    requires paired { ArePaired heap.old.items places.old.items }
    requires within { live ≤ length heap.old.items }
    requires inside { from < live }
    requires lifted { LiftedAt live heap.old.items from }
    ensures paired { ArePaired heap.new.items places.new.items }
    ensures ordered { IsOrdered live heap.new.items }
    ensures len { length heap.new.items ≡ length heap.old.items }
    ensures moments { moments live heap.new.items places.new.items
        ≡ moments live heap.old.items places.old.items }
{
    let mut at = from;
    while at > 0 {
        let up = (at - 1) / 2;
        if no_later(heap[up].moment, heap[at].moment) {
            return;
        }
        swap(heap, places, at, up);
        at = up;
    }
}

/// The child that is no later than the other.
fn least_child<A: Allocator>(heap: &Vec<Item, A>, live: usize, at: usize) -> usize
    requires within { live ≤ length heap.now.items }
    requires inner { at < live / 2 }
    ensures { IsLeastBelow live heap.now.items at result }
{
    let left = 2 * at + 1;
    let right = left + 1;
    if right < live && no_later(heap[right].moment, heap[left].moment) {
        return right;
    }
    left
}

/// Lowers an item that may be after its children.
fn sift_down<A: Allocator>(
    heap: &mut Vec<Item, A>,
    places: &mut Vec<usize, A>,
    live: usize,
    from: usize,
)
    requires paired { ArePaired heap.old.items places.old.items }
    requires within { live ≤ length heap.old.items }
    requires inside { from < live }
    requires lowered { LoweredAt live heap.old.items from }
    ensures paired { ArePaired heap.new.items places.new.items }
    ensures ordered { IsOrdered live heap.new.items }
    ensures len { length heap.new.items ≡ length heap.old.items }
    ensures moments { moments live heap.new.items places.new.items
        ≡ moments live heap.old.items places.old.items }
{
    let mut at = from;
    while at < live / 2 {
        let down = least_child(heap, live, at);
        if no_later(heap[at].moment, heap[down].moment) {
            return;
        }
        swap(heap, places, at, down);
        at = down;
    }
}

/// Moves an item that may stand anywhere to where it belongs.
pub fn settle<A: Allocator>(
    heap: &mut Vec<Item, A>,
    places: &mut Vec<usize, A>,
    live: usize,
    at: usize,
)
    requires paired { ArePaired heap.old.items places.old.items }
    requires within { live ≤ length heap.old.items }
    requires inside { at < live }
    requires loose { LooseAt live heap.old.items at }
    ensures paired { ArePaired heap.new.items places.new.items }
    ensures ordered { IsOrdered live heap.new.items }
    ensures len { length heap.new.items ≡ length heap.old.items }
    ensures moments { moments live heap.new.items places.new.items
        ≡ moments live heap.old.items places.old.items }
{
    if at > 0 && no_later(heap[at].moment, heap[(at - 1) / 2].moment) {
        sift_up(heap, places, live, at);
        return;
    }
    sift_down(heap, places, live, at);
}

/// Gives a place another moment, or none.
pub fn put<A: Allocator>(
    heap: &mut Vec<Item, A>,
    places: &mut Vec<usize, A>,
    live: usize,
    place: usize,
    moment: Option<u64>,
)
    requires paired { ArePaired heap.old.items places.old.items }
    requires within { live ≤ length heap.old.items }
    requires ordered { IsOrdered live heap.old.items }
    requires known { place < length places.old.items }
    requires used { index_of places.old.items place < live }
    ensures paired { ArePaired heap.new.items places.new.items }
    ensures ordered { IsOrdered live heap.new.items }
    ensures len { length heap.new.items ≡ length heap.old.items }
    ensures moments { moments live heap.new.items places.new.items
        ≡ slice_set (moments live heap.old.items places.old.items) place (Some moment) }
{
    let at = places[place];
    heap[at] = Item { moment, place };
    settle(heap, places, live, at);
}

/// Takes a place out of the front of the heap that is in use.
pub fn withdraw<A: Allocator>(
    heap: &mut Vec<Item, A>,
    places: &mut Vec<usize, A>,
    last: usize,
    place: usize,
)
    requires paired { ArePaired heap.old.items places.old.items }
    requires within { last < length heap.old.items }
    requires ordered { IsOrdered (last + 1) heap.old.items }
    requires known { place < length places.old.items }
    requires used { index_of places.old.items place ≤ last }
    ensures paired { ArePaired heap.new.items places.new.items }
    ensures ordered { IsOrdered last heap.new.items }
    ensures len { length heap.new.items ≡ length heap.old.items }
    ensures moments { moments last heap.new.items places.new.items
        ≡ slice_set (moments (last + 1) heap.old.items places.old.items) place None }
{
    let at = places[place];
    swap(heap, places, at, last);
    if at < last {
        settle(heap, places, last, at);
    }
}
