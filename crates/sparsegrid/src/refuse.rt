//! The ends of runs that are refused before any command: each writes its last line.

ghost use Rattle.std.specs.Prelude.{◌≡◌, ◌≤◌, length, None, IsSome, IfOk};
ghost use Rattle.sg_lexer.specs.Limits.{most_file_bytes};
ghost use Rattle.sg_session.specs.Compiling.{spelled_program};
ghost use Rattle.sg_session.specs.Compiled.{IsTask};
ghost use Rattle.sparsegrid.specs.Lines.{words_last, no_file_last, read_last, file_bytes_last, journal_bytes_last, field_text, refusal_last};
ghost use Rattle.sparsegrid.specs.Meaning.{items_or_none};
ghost use Rattle.sparsegrid.specs.Outcome.{output_of, StandsForLast};
ghost use Rattle.sparsegrid.specs.steps.Along.{Sends, KeepsWritten, SendCause, IsEnd, LeavesOnly, LeavesProgram, line_text};
ghost use Rattle.sg_session.specs.Performed.{IsOpened};
ghost use Rattle.sparsegrid.specs.steps.Leading.{HoldsNothing};
ghost use Rattle.sparsegrid.specs.steps.Beginning.{lacks_room, no_snapshot_last, no_snapshot_leaves};

use crate::last_line::{
    LastLine, file_bytes_last, journal_bytes_last, no_file_last, read_last, refusal_last,
    snapshot_bytes_last, words_last,
};
use crate::output::{PutFailed, send_last};
use crate::run_line::{field_text, snapshot_last};
use crate::session::Done;
use crate::snapshot::NoSnapshot;
use sg_journal::laws::{nothing_is_placed, opening_is_placed};
use sg_outside::Sink;
use sg_session::{Compiled, Refusal, Session, Task, spell};
use sg_snapshot::SnapFault;
use sg_words::{Memory, Stop};
use std::alloc::Global;

/// Writes the last line of a run that leaves no session.
fn refuse<S: Sink>(alloc: Global, out: &mut S, last: &LastLine) -> Result<Done, Stop<PutFailed>>
    ensures sends { Sends result (output_of S.Sink out.old) (output_of S.Sink out.new) (line_text last.now) }
    ensures quiet { KeepsWritten result (output_of S.Sink out.old) (output_of S.Sink out.new) }
    ensures cause { SendCause result (S.faults out.old) (S.faults out.new) }
    ensures status { IfOk result (λ done. done.status ≡ last.now.status) }
    ensures session { IfOk result (λ done. done.session ≡ None) }
{
    match send_last(alloc, out, last) {
        Ok(status) => Ok(Done {
            status,
            session: None,
        }),
        Err(why) => Err(why),
    }
}

/// Writes the last line of a run with bad words.
pub(crate) fn refuse_words<S: Sink>(alloc: Global, out: &mut S) -> Result<Done, Stop<PutFailed>>
    ensures sends { Sends result (output_of S.Sink out.old) (output_of S.Sink out.new) (line_text words_last) }
    ensures quiet { KeepsWritten result (output_of S.Sink out.old) (output_of S.Sink out.new) }
    ensures cause { SendCause result (S.faults out.old) (S.faults out.new) }
    ensures status { IfOk result (λ done. done.status ≡ 1) }
    ensures session { IfOk result (λ done. done.session ≡ None) }
{
    match words_last(alloc) {
        Ok(last) => refuse(alloc, out, &last),
        Err(Memory) => Err(Stop::Memory),
    }
}

/// Writes the last line of a run whose file has too many bytes.
pub(crate) fn refuse_long<S: Sink>(alloc: Global, out: &mut S) -> Result<Done, Stop<PutFailed>>
    ensures sends { Sends result (output_of S.Sink out.old) (output_of S.Sink out.new) (line_text file_bytes_last) }
    ensures quiet { KeepsWritten result (output_of S.Sink out.old) (output_of S.Sink out.new) }
    ensures cause { SendCause result (S.faults out.old) (S.faults out.new) }
    ensures status { IfOk result (λ done. done.status ≡ 8) }
    ensures session { IfOk result (λ done. done.session ≡ None) }
{
    match file_bytes_last(alloc) {
        Ok(last) => refuse(alloc, out, &last),
        Err(Memory) => Err(Stop::Memory),
    }
}

/// Writes the last line of a run whose journal has too many bytes.
pub(crate) fn refuse_long_journal<S: Sink>(
    alloc: Global,
    out: &mut S,
) -> Result<Done, Stop<PutFailed>>
    ensures sends { Sends result (output_of S.Sink out.old) (output_of S.Sink out.new) (line_text journal_bytes_last) }
    ensures cause { SendCause result (S.faults out.old) (S.faults out.new) }
    ensures status { IfOk result (λ done. done.status ≡ 8) }
    ensures session { IfOk result (λ done. done.session ≡ None) }
{
    match journal_bytes_last(alloc) {
        Ok(last) => refuse(alloc, out, &last),
        Err(Memory) => Err(Stop::Memory),
    }
}

/// Writes the last line of a run whose file could not be read.
pub(crate) fn refuse_read<S: Sink>(
    alloc: Global,
    out: &mut S,
    name: &str,
) -> Result<Done, Stop<PutFailed>>
    ensures sends { Sends result (output_of S.Sink out.old) (output_of S.Sink out.new) (line_text (read_last name.now)) }
    ensures quiet { KeepsWritten result (output_of S.Sink out.old) (output_of S.Sink out.new) }
    ensures cause { SendCause result (S.faults out.old) (S.faults out.new) }
    ensures status { IfOk result (λ done. done.status ≡ 2) }
    ensures session { IfOk result (λ done. done.session ≡ None) }
{
    match read_last(alloc, name.as_bytes()) {
        Ok(last) => refuse(alloc, out, &last),
        Err(Memory) => Err(Stop::Memory),
    }
}

/// Writes the last line of a run in which this load has no file.
pub(crate) fn refuse_unbound<S: Sink>(
    alloc: Global,
    out: &mut S,
    compiled: &Compiled,
    task: Task,
) -> Result<Done, Stop<PutFailed>>
    requires { IsTask compiled.now task }
    ensures sends { Sends result (output_of S.Sink out.old) (output_of S.Sink out.new) (line_text (no_file_last (field_text compiled.now.names task))) }
    ensures cause { SendCause result (S.faults out.old) (S.faults out.new) }
    ensures status { IfOk result (λ done. done.status ≡ 1) }
    ensures session { IfOk result (λ done. done.session ≡ None) }
{
    match no_file_last(alloc, field_text(compiled, task)) {
        Ok(last) => refuse(alloc, out, &last),
        Err(Memory) => Err(Stop::Memory),
    }
}

/// Writes the last line of a run whose file has these bytes and is refused before its commands run. The names in it are those of the
/// program that the bytes spell.
pub(crate) fn refuse_source<S: Sink>(
    alloc: Global,
    out: &mut S,
    bytes: &[u8],
    refusal: Refusal,
) -> Result<Done, Stop<PutFailed>>
    requires { length bytes.now ≤ most_file_bytes }
    ensures sends { Sends result (output_of S.Sink out.old) (output_of S.Sink out.new) (line_text (refusal_last (items_or_none (spelled_program bytes.now)) refusal)) }
    ensures quiet { KeepsWritten result (output_of S.Sink out.old) (output_of S.Sink out.new) }
    ensures cause { SendCause result (S.faults out.old) (S.faults out.new) }
    ensures status { IfOk result (λ done. done.status ≡ (refusal_last (items_or_none (spelled_program bytes.now)) refusal).status) }
    ensures session { IfOk result (λ done. done.session ≡ None) }
{
    match source_last(alloc, bytes, refusal) {
        Ok(last) => refuse(alloc, out, &last),
        Err(Memory) => Err(Stop::Memory),
    }
}

/// The last line of a run whose file has these bytes and is refused before its commands run.
fn source_last(alloc: Global, bytes: &[u8], refusal: Refusal) -> Result<LastLine, Memory>
    requires { length bytes.now ≤ most_file_bytes }
    ensures { IfOk result (λ last. last ≡ refusal_last (items_or_none (spelled_program bytes.now)) refusal) }
{
    match spell(alloc, bytes) {
        Ok(program) => refusal_last(alloc, program.items.as_slice(), refusal),
        Err(Stop::Refused(_why)) => refusal_last(alloc, &[], refusal),
        Err(Stop::Memory) => Err(Memory),
    }
}

/// Writes the last line of a run whose snapshot, of this name, is none. Where there is no room for its state a session is left, as it is opened.
pub(crate) fn refuse_snapshot<S: Sink>(
    alloc: Global,
    out: &mut S,
    compiled: Compiled,
    name: &str,
    why: NoSnapshot,
) -> Result<Done, Stop<PutFailed>>
    ensures sends { Sends result (output_of S.Sink out.old) (output_of S.Sink out.new) (line_text (no_snapshot_last compiled.names name.now why)) }
    ensures cause { SendCause result (S.faults out.old) (S.faults out.new) }
    ensures status { IfOk result (λ done. done.status ≡ (no_snapshot_last compiled.names name.now why).status) }
    ensures last { LeavesOnly (StandsForLast (no_snapshot_leaves compiled.layouts why)) result }
    ensures nothing { HoldsNothing result }
    ensures end { IfOk result IsEnd }
    ensures program { LeavesProgram compiled result }
{
    match no_snapshot_last(alloc, &compiled, name, why) {
        Ok(last) => {
            if lacks_room(why) {
                return refuse_full(alloc, out, compiled, &last);
            }
            refuse(alloc, out, &last)
        }
        Err(Memory) => Err(Stop::Memory),
    }
}

/// Writes the last line of a run for whose snapshot there is no room, and leaves the stores of its program as they are opened.
fn refuse_full<S: Sink>(
    alloc: Global,
    out: &mut S,
    compiled: Compiled,
    last: &LastLine,
) -> Result<Done, Stop<PutFailed>>
    ensures sends { Sends result (output_of S.Sink out.old) (output_of S.Sink out.new) (line_text last.now) }
    ensures cause { SendCause result (S.faults out.old) (S.faults out.new) }
    ensures status { IfOk result (λ done. done.status ≡ last.now.status) }
    ensures some { IfOk result (λ done. IsSome done.session) }
    ensures opened { LeavesOnly (IsOpened compiled) result }
    ensures nothing { HoldsNothing result }
{
    // for the laws that they ensure
    opening_is_placed();
    nothing_is_placed();
    match Session::open(alloc, compiled) {
        Ok(session) => {
            // for what each store keeps
            session.stores.well_formed();
            match send_last(alloc, out, last) {
                Ok(status) => Ok(Done {
                    status,
                    session: Some(session),
                }),
                Err(why) => Err(why),
            }
        }
        Err(Memory) => Err(Stop::Memory),
    }
}

/// Whether a snapshot is none since there is no room for its state.
fn lacks_room(why: NoSnapshot) -> bool
    ensures { result ≡ lacks_room why }
{
    match why {
        NoSnapshot::Read => false,
        NoSnapshot::TooLong => false,
        NoSnapshot::Fault(fault) => match fault {
            SnapFault::NotSnapshot => false,
            SnapFault::NotClosed { layout: _layout } => false,
            SnapFault::Full {
                layout: _layout,
                node: _node,
                cap: _cap,
            } => true,
        },
    }
}

/// The last line of a run whose snapshot, of this name, is none.
fn no_snapshot_last(
    alloc: Global,
    compiled: &Compiled,
    name: &str,
    why: NoSnapshot,
) -> Result<LastLine, Memory>
    ensures { IfOk result (λ last. last ≡ no_snapshot_last compiled.now.names name.now why) }
{
    match why {
        NoSnapshot::Read => read_last(alloc, name.as_bytes()),
        NoSnapshot::TooLong => snapshot_bytes_last(alloc),
        NoSnapshot::Fault(fault) => snapshot_last(alloc, compiled, fault),
    }
}
