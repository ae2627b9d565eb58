ghost use Rattle.std.specs.Prelude.{◌≡◌, ◌<◌, IfOk};
ghost use Rattle.sparsegrid.specs.Outcome.{output_of};
ghost use Rattle.sparsegrid.specs.steps.Along.{Sends, KeepsWritten, SendCause, line_text};

use crate::last_line::LastLine;
use sg_outside::{Put, Sink};
use sg_words::{Memory, Stop};
use std::alloc::Global;

/// A put failed.
#[derive(Clone, Copy, Debug, PartialEq, Eq)]
pub struct PutFailed;

/// Writes a text by one put; an empty text is not written.
#[tactic(auto, using(crate::proofs::Writing::sent_all, crate::proofs::Writing::sent_none, crate::proofs::Writing::part_taken))]
pub fn send<S: Sink>(out: &mut S, text: &[u8]) -> Result<(), Stop<PutFailed>>
    ensures sends { Sends result (output_of S.Sink out.old) (output_of S.Sink out.new) text.now }
    ensures quiet { KeepsWritten result (output_of S.Sink out.old) (output_of S.Sink out.new) }
    ensures cause { SendCause result (S.faults out.old) (S.faults out.new) }
{
    if text.is_empty() {
        return Ok(());
    }
    match out.put(text) {
        Put::All => Ok(()),
        Put::Failed { taken: _ } => Err(Stop::Refused(PutFailed)),
        Put::Memory => Err(Stop::Memory),
    }
}

/// Writes a last line with its newline, and gives its status.
pub fn send_last<S: Sink>(
    alloc: Global,
    out: &mut S,
    last: &LastLine,
) -> Result<u8, Stop<PutFailed>>
    ensures sends { Sends result (output_of S.Sink out.old) (output_of S.Sink out.new) (line_text last.now) }
    ensures quiet { KeepsWritten result (output_of S.Sink out.old) (output_of S.Sink out.new) }
    ensures cause { SendCause result (S.faults out.old) (S.faults out.new) }
    ensures status { IfOk result (λ status. status ≡ last.now.status) }
{
    match last.text(alloc) {
        Ok(text) => match send(out, text.as_slice()) {
            Ok(()) => Ok(last.status),
            Err(why) => Err(why),
        },
        Err(Memory) => Err(Stop::Memory),
    }
}
