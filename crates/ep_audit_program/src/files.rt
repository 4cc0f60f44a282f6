//! The file of a history.
ghost use Rattle.std.specs.Prelude.{◌≡◌, ℕ, IfOk, List, None, Option};

use std::io::{self, Read};

/// Opens the file that the command line names.
pub trait Files {
    type History: Read + Drop;

    // The bytes of the file of a name, if they are known.
    ghost content: { Self → List ℕ → Option (List ℕ) } = { λ _ _. None };

    /// The file of this name, to be read from its beginning.
    fn open(&self, path: &str) -> io::Result<Self::History>
        ensures { IfOk result
            (λ file. Self.History.remaining file ≡ content self.now path.now) };
}
