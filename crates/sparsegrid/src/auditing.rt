//! The audit of a journal of containers.

ghost use Rattle.std.specs.Prelude.{◌≡◌, ◌≤◌, IfOk, length, map, string_bytes};
ghost use Rattle.sg_session.specs.Bindings.{binding_read};
ghost use Rattle.sg_session.specs.Compiled.{CheckedProgram, Compiles};
ghost use Rattle.sg_flat.specs.State.{opening};
ghost use Rattle.sg_exec.specs.Standing.{StandForState};
ghost use Rattle.sg_audit.specs.Auditing.{audited};
ghost use Rattle.sparsegrid.specs.Verdicts as spec;
ghost use Rattle.sparsegrid.specs.Verdicts.{most_journal_bytes};
ghost use Rattle.sparsegrid.specs.Meaning.{meaning_of_audit};
ghost use Rattle.sparsegrid.specs.Outcome.{output_of, outside_of};
ghost use Rattle.sparsegrid.specs.steps.Along.{Sends, Went, SendCause, IsEnd, LeavesOnly, LeavesProgram};

use crate::output::PutFailed;
use crate::perform::leave_open;
use crate::refuse::{refuse_long_journal, refuse_read};
use crate::session::Done;
use sg_audit::{Verdict, audit};
use sg_outside::{Files, Got, Sink};
use sg_session::{Binds, Compiled};
use sg_words::{Memory, Stop};
use std::alloc::Global;

/// The most bytes that a journal may have.
const JOURNAL_LIMIT: u64 = 1 << 24;

/// Reads the journal that a name is bound to and writes the verdict on it. The stores are left as they are opened.
pub(crate) fn audit_bound<F: Files, S: Sink>(
    alloc: Global,
    compiled: Compiled,
    binds: &Binds,
    files: &mut F,
    out: &mut S,
) -> Result<Done, Stop<PutFailed>>
    ensures went { (program : CheckedProgram) → Compiles program compiled →
        Went (λ readings. meaning_of_audit program readings (spec.journal_file (map binding_read binds.now.list))) 1
        (outside_of F.Files S.Sink files.old out.old) (outside_of F.Files S.Sink files.new out.new) result }
    ensures holds { F.holds files.new ≡ F.holds files.old }
    ensures never_falls { F.faults files.old ≤ F.faults files.new }
    ensures cause { SendCause result (S.faults out.old) (S.faults out.new) }
    ensures end { IfOk result IsEnd }
    ensures program { LeavesProgram compiled result }
{
    let name = journal_file(binds);
    let mut bytes = Vec::new(alloc);
    match files.read(name, JOURNAL_LIMIT, &mut bytes) {
        Got::All => write_verdict(alloc, compiled, bytes.as_slice(), out),
        Got::TooLong => refuse_long_journal(alloc, out),
        Got::Failed => refuse_read(alloc, out, name),
        Got::Memory => Err(Stop::Memory),
    }
}

/// The file that the first name is bound to.
fn journal_file(binds: &Binds) -> &str
    ensures { result.now ≡ spec.journal_file (map binding_read binds.now.list) }
{
    match binds.list.as_slice() {
        [] => "",
        [bind, ..] => bind.file.as_str(),
    }
}

/// Writes the verdict on the bytes of a journal.
fn write_verdict<S: Sink>(
    alloc: Global,
    compiled: Compiled,
    bytes: &[u8],
    out: &mut S,
) -> Result<Done, Stop<PutFailed>>
    requires { length bytes.now ≤ most_journal_bytes }
    ensures sends { Sends result (output_of S.Sink out.old) (output_of S.Sink out.new) (spec.verdict_text (audited compiled.layouts bytes.now)) }
    ensures opened { LeavesOnly (λ session. StandForState compiled.layouts session.stores (opening compiled.layouts)) result }
    ensures cause { SendCause result (S.faults out.old) (S.faults out.new) }
    ensures end { IfOk result IsEnd }
    ensures program { LeavesProgram compiled result }
    ensures status { IfOk result (λ done. done.status ≡ 0) }
{
    match verdict_text(alloc, bytes, &compiled) {
        Ok(text) => leave_open(alloc, compiled, text.as_bytes(), out),
        Err(Memory) => Err(Stop::Memory),
    }
}

/// The line that says the verdict on the bytes of a journal.
fn verdict_text(alloc: Global, bytes: &[u8], compiled: &Compiled) -> Result<String, Memory>
    requires { length bytes.now ≤ most_journal_bytes }
    ensures { IfOk result (λ text. string_bytes text ≡ spec.verdict_text (audited compiled.now.layouts bytes.now)) }
{
    match audit(alloc, bytes, &compiled.layouts)? {
        Verdict::Yes => Ok(String::from_str(alloc, "yes\n")?),
        Verdict::No { line } => Ok(format!(in alloc; "no line {line}\n")?),
    }
}
