//! Writes bytes, all of them.
ghost use Rattle.std.specs.Io.KnownBytes.{Appends};
ghost use Rattle.std.specs.Prelude.{◌≡◌, ◌≤◌, ℕ, IfErr, OnOk, false, length, take, true};

use crate::fault::ScriptFault;
use crate::watched::Watched;
use std::io::Write;

/// Writes the bytes and flushes them. An error ends it at once, and so does a write that takes none.
pub(crate) fn emit<W: Write>(writer: &mut Watched<W>, bytes: &[u8]) -> Result<(), ScriptFault>
    ensures ok { OnOk result
        (Appends (W.contents writer.old.inner) (W.contents writer.new.inner) bytes.now) }
    ensures flag { OnOk result (writer.new.failed ≡ writer.old.failed) }
    ensures once { writer.old.failed ≡ false → writer.new.asked_after ≡ writer.old.asked_after }
    ensures err { IfErr result (λ e. (e ≡ ScriptFault.Write) × (writer.new.failed ≡ true)
        × ((n : ℕ) × (n ≤ length bytes.now) × Appends (W.contents writer.old.inner) (W.contents writer.new.inner) (take n bytes.now))) }
{
    let mut at = 0;
    while at < bytes.len() {
        match writer.write(&bytes[at..]) {
            Ok(0) => return Err(ScriptFault::Write),
            Ok(taken) => at += taken,
            Err(_) => return Err(ScriptFault::Write),
        }
    }
    match writer.flush() {
        Ok(()) => Ok(()),
        Err(_) => Err(ScriptFault::Write),
    }
}
