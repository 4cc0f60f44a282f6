//! What cutting a text into lines is.
ghost use Rattle.std.specs.Prelude.{◌≡◌, ◌++◌, ℕ, List};
ghost use Rattle.ep_script.specs.Lines.{AllPlain, IsPlain, joined, last_line, lines_of};

/// Cutting inverts joining: a text is cut into its lines, of which each but the last has the byte
/// that ends it.
pub fn cuts_into_lines()
    ensures { (ls : List (List ℕ)) (part : List ℕ) → AllPlain ls → IsPlain part
        → lines_of (joined ls ++ part) ≡ ls ++ last_line part }
{}
