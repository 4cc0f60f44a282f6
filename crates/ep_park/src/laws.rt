//! What the marks of this crate have to do with those of the machine.
ghost use Rattle.std.specs.Prelude.{◌≡◌, [], Bool, List, ℕ};
ghost use Rattle.ep_machine.specs.Marks.{first_marked};
ghost use Rattle.ep_machine.specs.State.{Waiter as Parked};
ghost use Rattle.ep_park.specs.Turns.{NamesReady, NamesUnmarked, marked_in_turn};

/// `mark_longest` for each ready instance that has waiters, in any order, marks what the machine marks at the end of
/// an event, once the due ones are marked. A fact for proofs.
pub fn marks_in_turn()
    ensures { (ready : ℕ → Bool) (ws : List Parked) (es : List ℕ) → NamesReady ready ws es
        → marked_in_turn es ws ≡ first_marked ready ws [] ws }
{}

/// The same for a list that names, of the instances that have waiters and none that is marked, exactly the ready
/// ones; of the others it may name any. A fact for proofs.
pub fn unmarked_in_turn()
    ensures { (ready : ℕ → Bool) (ws : List Parked) (es : List ℕ) → NamesUnmarked ready ws es
        → marked_in_turn es ws ≡ first_marked ready ws [] ws }
{}
