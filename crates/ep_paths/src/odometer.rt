//! The choices of the next run.
ghost use Rattle.std.specs.Prelude.{◌≡◌, false, true};
ghost use Rattle.std.specs.List.{AllByRecursion};
ghost use Rattle.ep_paths.specs.Paths.{GoesOn, IsLast};

use crate::choice::Choice;

/// Goes on from the choices of a run to those that the next run shares with it and the first that differs, which goes
/// one way further. It answers false if there is no next run: then each choice went its last way, and none is left.
pub fn next_path(path: &mut Vec<Choice>) -> bool
    ensures moved { result ≡ true → GoesOn path.old.items path.new.items }
    ensures ended { result ≡ false → AllByRecursion IsLast path.old.items }
{
    while let Some(choice) = path.pop() {
        if let Some(next) = choice.next() {
            path.push_reserved(next);
            return true;
        }
    }
    false
}
