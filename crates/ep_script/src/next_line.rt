//! The next line of a script or of a history.
ghost use Rattle.std.specs.Io.KnownBytes.{prepend_known};
ghost use Rattle.std.specs.Prelude.{◌≡◌, ◌≤◌, ◌⊎◌, IfErr, IfOk, IfSome, IsErrOf, OnOk, [], false, length, true};
ghost use Rattle.ep_script.specs.Known.{Leads};
ghost use Rattle.ep_script.specs.Lines.{IsPlain};
ghost use Rattle.ep_script.specs.Outcome.{IsHeldOf};
ghost use Rattle.ep_script.specs.Steps.{Behind, IsTooLong, TakesLine};
ghost use Rattle.ep_script.specs.Unread.{unread};

use crate::chunk::Input;
use crate::fault::ScriptFault;
use crate::watched::Watched;
use std::io::Read;

/// Puts the next line into `line`, without the byte that ends it. No line is left: `false`. A line of more than `most`
/// bytes is `Line(number)`.
pub(crate) fn next_line<R: Read>(
    reader: &mut Watched<R>,
    input: &mut Input,
    line: &mut Vec<u8>,
    number: u64,
    most: usize,
) -> Result<bool, ScriptFault>
    ensures line { IfOk result (λ more. more ≡ true → Leads
        (prepend_known (unread input.old) (R.remaining reader.old.inner))
        (prepend_known (unread input.new) (R.remaining reader.new.inner))
        (λ xs ys. TakesLine xs line.new.items ys)) }
    ensures end { IfOk result (λ more. more ≡ false → Leads
        (prepend_known (unread input.old) (R.remaining reader.old.inner))
        (prepend_known (unread input.new) (R.remaining reader.new.inner))
        (λ xs ys. (xs ≡ []) × (ys ≡ []))) }
    ensures short { OnOk result (length line.new.items ≤ most) }
    ensures flag { OnOk result (reader.new.failed ≡ reader.old.failed) }
    ensures once { reader.old.failed ≡ false → reader.new.asked_after ≡ reader.old.asked_after }
    ensures cut { IsErrOf result ScriptFault.Read → Leads
        (prepend_known (unread input.old) (R.remaining reader.old.inner))
        (R.remaining reader.new.inner)
        (λ xs ys. Behind IsPlain xs ys) }
    ensures held { IsErrOf result ScriptFault.Memory → Leads
        (prepend_known (unread input.old) (R.remaining reader.old.inner))
        (R.remaining reader.new.inner)
        (λ xs ys. Behind (IsHeldOf most) xs ys) }
    ensures long { IsErrOf result (ScriptFault.Line number) →
        IfSome (prepend_known (unread input.old) (R.remaining reader.old.inner)) (λ xs. IsTooLong most xs) }
    ensures err { IfErr result
        (λ e. (e ≡ ScriptFault.Memory)
        ⊎ (((e ≡ ScriptFault.Read) × (reader.new.failed ≡ true)) ⊎ (e ≡ ScriptFault.Line number))) }
{
    line.clear();
    'chunks: loop {
        match input.has_more(reader) {
            Ok(true) => {}
            Ok(false) => return Ok(!line.is_empty()),
            Err(fault) => return Err(fault),
        }
        match input.take_piece(line, number, most) {
            Ok(true) => return Ok(true),
            Ok(false) => {}
            Err(fault) => return Err(fault),
        }
    }
}
