//! Answers one line of a script.
ghost use Rattle.std.specs.Prelude.{◌≡◌, IfErr, IfOk, IsErrOf, List, OnErr, OnOk, [], ℕ, false, if◌then◌else◌, string_bytes, true};
ghost use Rattle.ep_calls.specs.Acts.{is_no_memory};
ghost use Rattle.ep_script.specs.Steps.{AnswerFault, Gathers, MayBecome, Tells};
ghost use Rattle.ep_script.specs.Transcript.{asks};
ghost use Rattle.ep_script.specs.declared.summary.LineKind.TheVariants as kind;

use crate::fault::ScriptFault;
use crate::held::Gathered;
use crate::summary::LineKind;
use crate::watched::Watched;
use ep_base::{Answer, Errno};
use ep_calls::Kernel;
use ep_text::{Line, LineReader, Version, push_answer, push_bad, push_header};
use std::alloc::{AllocError, Global};
use std::io::Write;

/// What answering takes, and keeps from line to line.
#[derive(Drop)]
pub(crate) struct Desk {
    lines: LineReader,
    /// Room for an answer.
    text: String,
    /// The answers that wait to be written.
    pub(crate) gathered: Gathered,
    /// The version of the next line.
    version: Version,
}

impl Desk {
    /// Before the first line, which version 1 reads if it is no header. It gathers so many bytes of answers at most.
    pub(crate) fn new(alloc: Global, room: usize) -> Desk
        ensures version { result.version ≡ Version.V1 }
        ensures none { result.gathered.bytes.items ≡ [] }
        ensures room { result.gathered.room ≡ room }
    {
        Desk {
            lines: LineReader::new(alloc),
            text: String::new(alloc),
            gathered: Gathered::new(alloc, room),
            version: Version::V1,
        }
    }
}

fn kind_of_answer(answer: &Answer) -> LineKind
    ensures { result ≡ (if is_no_memory answer.now then kind.Unrecorded else kind.Recorded) }
{
    match answer {
        Answer::Refused(Errno::Enomem) => LineKind::Unrecorded,
        _ => LineKind::Recorded,
    }
}

/// Hands what the line asks for to the kernel, and puts the line that tells the answer onto the desk. A header is for
/// the desk, and the line that tells it says the same.
fn ask<K: Kernel>(
    alloc: Global,
    kernel: &mut K,
    line: &[u8],
    number: u64,
    desk: &mut Desk,
) -> Result<LineKind, AllocError>
    ensures limits { K.bounds kernel.new ≡ K.bounds kernel.old }
    ensures taken { K.taken kernel.new ≡ K.taken kernel.old }
    ensures ok { IfOk result
        (λ kind. Tells (asks desk.old.version number line.now) desk.old.version desk.new.version
        number kind (string_bytes desk.new.text) (K.past kernel.old) (K.past kernel.new)) }
    ensures err { OnErr result (MayBecome (asks desk.old.version number line.now)
        (K.past kernel.old) (K.past kernel.new)) }
    ensures gathered { desk.new.gathered ≡ desk.old.gathered }
{
    let Desk {
        lines,
        text,
        version,
        ..
    } = desk;
    text.clear();
    match lines.read(alloc, *version, line, number == 1)? {
        Line::Header(named) => {
            *version = named;
            push_header(text, named)?;
            Ok(LineKind::Head)
        }
        Line::Command(caller, event) => {
            let answer = kernel.step(caller, event);
            push_answer(alloc, *version, text, &answer)?;
            Ok(kind_of_answer(&answer))
        }
        Line::Bad => {
            push_bad(text, number)?;
            Ok(LineKind::Bad)
        }
    }
}

/// Answers a line, and says what became of it. The answer is gathered. If there is no memory for it, those before it
/// are written.
pub(crate) fn answer_line<K: Kernel, W: Write>(
    alloc: Global,
    kernel: &mut K,
    writer: &mut Watched<W>,
    line: &[u8],
    number: u64,
    desk: &mut Desk,
) -> Result<LineKind, ScriptFault>
    ensures limits { K.bounds kernel.new ≡ K.bounds kernel.old }
    ensures taken { K.taken kernel.new ≡ K.taken kernel.old }
    ensures room { desk.new.gathered.room ≡ desk.old.gathered.room }
    ensures ok { IfOk result
        (λ kind. (words : List ℕ)
        × Tells (asks desk.old.version number line.now) desk.old.version desk.new.version
        number kind words (K.past kernel.old) (K.past kernel.new)
        × Gathers (W.contents writer.old.inner) (W.contents writer.new.inner)
        desk.old.gathered.bytes.items desk.new.gathered.bytes.items words) }
    ensures flag { OnOk result (writer.new.failed ≡ writer.old.failed) }
    ensures once { writer.old.failed ≡ false → writer.new.asked_after ≡ writer.old.asked_after }
    ensures err { IfErr result (λ e. AnswerFault e
        (asks desk.old.version number line.now) desk.old.version number
        (W.contents writer.old.inner) (W.contents writer.new.inner)
        desk.old.gathered.bytes.items (K.past kernel.old) (K.past kernel.new)) }
    ensures err_flag { IsErrOf result ScriptFault.Write → writer.new.failed ≡ true }
{
    let Ok(kind) = ask(alloc, kernel, line, number, desk) else {
        return Err(desk.gathered.write_behind(writer, ScriptFault::Memory));
    };
    match desk.gathered.add(writer, desk.text.as_bytes()) {
        Ok(()) => Ok(kind),
        Err(fault) => Err(fault),
    }
}
