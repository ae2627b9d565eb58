//! The tasks of a program, performed one after the other, with a journal of their containers in place of their texts.

ghost use Rattle.std.specs.Prelude.{◌≡◌, ◌≢◌, ◌≤◌, true, ℕ, List, All, map, IfOk};
ghost use Rattle.std.specs.List.{AllByRecursion};
ghost use Rattle.sg_flat.specs.declared.state.FlatState.{FlatState};
ghost use Rattle.sg_exec.specs.Standing.{StandForState};
ghost use Rattle.sg_journal.specs.declared.lines.Line.{Line};
ghost use Rattle.sg_journal.specs.Changes.{changes};
ghost use Rattle.sg_journal.specs.Placing.{ArePlaced, nothing_placed};
ghost use Rattle.sg_journal.specs.Lines.{end_line};
ghost use Rattle.sg_store.specs.WellFormed.{IsWellFormed};
ghost use Rattle.sg_session.specs.Compiled.{CheckedProgram, Compiles, IsTask};
ghost use Rattle.sg_session.specs.Performed.{HasFile};
ghost use Rattle.sg_session.specs.Bindings.{binding_read};
ghost use Rattle.sparsegrid.specs.declared.showing.Showing.TheVariants.{Changes};
ghost use Rattle.sparsegrid.specs.Meaning.{meaning_from};
ghost use Rattle.sparsegrid.specs.Telling.{telling_of};
ghost use Rattle.sparsegrid.specs.Outcome.{outside_of, output_of};
ghost use Rattle.sparsegrid.specs.steps.Along.{Sends, SendCause, ended_with};
ghost use Rattle.sparsegrid.specs.steps.Leading.{Begins, Kept, PutsChanges, PutsNext, WentOn};

use crate::drive::refuse_task;
use crate::output::{PutFailed, send};
use crate::words::Words;
use sg_audit::laws as audits;
use sg_journal::{Placed, changes_between, laws as journals};
use sg_outside::{Files, Gate, Sink};
use sg_session::{Session, Task};
use sg_words::{Memory, Stop};
use std::alloc::Global;
use std::thread::Threads;

/// Performs tasks in order and writes a journal of their containers: the changes from where no number stands to where numbers stand at
/// first, then those of each task, each by one put, and the end. The last line of a task that is refused stands in place of the end. Gives
/// the status: 0 if none is refused. Stores aren't copied: a journal takes time by the words of their nodes, and by how many numbers stand.
pub(crate) fn drive_journal<R: Threads + Sync, F: Files, S: Sink, G: Gate + Sync>(
    rt: &R,
    alloc: Global,
    session: &mut Session,
    tasks: &[Task],
    asked: &Words,
    files: &mut F,
    out: &mut S,
    gate: &G,
) -> Result<u8, Stop<PutFailed>>
    requires some { 1 ≤ asked.now.workers }
    requires few { asked.now.workers ≤ 16 }
    requires there { AllByRecursion (IsTask session.old.compiled) tasks.now }
    requires bound { AllByRecursion (HasFile session.old.compiled.names (map binding_read asked.now.binds.list)) tasks.now }
    ensures went { (program : CheckedProgram) → Compiles program session.old.compiled →
        (earlier : ℕ) (state : FlatState) → StandForState session.old.compiled.layouts session.old.stores state →
        Kept true (λ readings. meaning_from program (map binding_read asked.now.binds.list) (telling_of program.names program.layouts Changes) readings earlier state tasks.now) earlier
        (outside_of F.Files S.Sink files.old out.old) (outside_of F.Files S.Sink files.new out.new) (ended_with session.new result) }
    ensures compiled { session.new.compiled ≡ session.old.compiled }
    ensures holds { F.holds files.new ≡ F.holds files.old }
    ensures never_falls { F.faults files.old ≤ F.faults files.new }
    ensures cause { SendCause result (S.faults out.old) (S.faults out.new) }
    ensures status { IfOk result (λ status. (status ≢ 3) × (status ≢ 9)) }
{
    // for the laws that they ensure, and for what each store keeps
    journals::stores_change();
    journals::nothing_is_placed();
    audits::yes_is_sound();
    session.stores.well_formed();
    match begin(alloc, session) {
        Ok((nothing, placed)) => match send_changes(alloc, &nothing, &placed, out) {
            Ok(()) => drive_on(rt, alloc, session, tasks, placed, asked, files, out, gate),
            Err(why) => Err(why),
        },
        Err(Memory) => Err(Stop::Memory),
    }
}

/// Where no number stands over the layouts of a session, and where numbers stand in its stores.
fn begin(alloc: Global, session: &Session) -> Result<(Placed, Placed), Memory>
    ensures { IfOk result (λ both. (both.0.layouts ≡ nothing_placed session.now.compiled.layouts) × ArePlaced session.now.stores both.1.layouts) }
{
    let nothing = Placed::nothing(alloc, &session.compiled.layouts)?;
    let placed = Placed::of(alloc, &session.stores)?;
    Ok((nothing, placed))
}

/// Performs tasks in order, where the first part of their journal is written, which led to where numbers stand now.
fn drive_on<R: Threads + Sync, F: Files, S: Sink, G: Gate + Sync>(
    rt: &R,
    alloc: Global,
    session: &mut Session,
    tasks: &[Task],
    placed: Placed,
    asked: &Words,
    files: &mut F,
    out: &mut S,
    gate: &G,
) -> Result<u8, Stop<PutFailed>>
    requires some { 1 ≤ asked.now.workers }
    requires few { asked.now.workers ≤ 16 }
    requires there { AllByRecursion (IsTask session.old.compiled) tasks.now }
    requires bound { AllByRecursion (HasFile session.old.compiled.names (map binding_read asked.now.binds.list)) tasks.now }
    requires placed { ArePlaced session.old.stores placed.layouts }
    ensures went { (program : CheckedProgram) → Compiles program session.old.compiled →
        (earlier : ℕ) (state : FlatState) → StandForState session.old.compiled.layouts session.old.stores state →
        (first : List Line) → Begins program state first placed.layouts →
        WentOn program (map binding_read asked.now.binds.list) earlier state tasks.now first
        (outside_of F.Files S.Sink files.old out.old) (outside_of F.Files S.Sink files.new out.new) (ended_with session.new result) }
    ensures compiled { session.new.compiled ≡ session.old.compiled }
    ensures holds { F.holds files.new ≡ F.holds files.old }
    ensures never_falls { F.faults files.old ≤ F.faults files.new }
    ensures cause { SendCause result (S.faults out.old) (S.faults out.new) }
    ensures status { IfOk result (λ status. (status ≢ 3) × (status ≢ 9)) }
{
    // for the law that it ensures
    journals::stores_change();
    let mut stand = placed;
    for task in tasks {
        session.stores.well_formed();
        match session.step(rt, alloc, *task, &asked.binds, files, asked.workers, gate) {
            Ok(_text) => match send_next(alloc, session, &stand, out) {
                Ok(next) => stand = next,
                Err(why) => return Err(why),
            },
            Err(Stop::Refused(refusal)) => {
                return refuse_task(alloc, out, &session.compiled, &asked.binds, *task, refusal);
            }
            Err(Stop::Memory) => return Err(Stop::Memory),
        }
    }
    send_end(out)
}

/// Writes the changes from where numbers stood to where they stand now in the stores of a session, and gives that.
fn send_next<S: Sink>(
    alloc: Global,
    session: &Session,
    placed: &Placed,
    out: &mut S,
) -> Result<Placed, Stop<PutFailed>>
    ensures sends { PutsNext result session.now.stores placed.now.layouts (output_of S.Sink out.old) (output_of S.Sink out.new) }
    ensures well_formed { All IsWellFormed session.now.stores }
    ensures cause { SendCause result (S.faults out.old) (S.faults out.new) }
{
    // for what each store keeps
    session.stores.well_formed();
    match Placed::of(alloc, &session.stores) {
        Ok(next) => match send_changes(alloc, placed, &next, out) {
            Ok(()) => Ok(next),
            Err(why) => Err(why),
        },
        Err(Memory) => Err(Stop::Memory),
    }
}

/// Writes the lines of what has changed, by one put.
fn send_changes<S: Sink>(
    alloc: Global,
    from: &Placed,
    to: &Placed,
    out: &mut S,
) -> Result<(), Stop<PutFailed>>
    ensures sends { PutsChanges result (changes from.now.layouts to.now.layouts) (output_of S.Sink out.old) (output_of S.Sink out.new) }
    ensures cause { SendCause result (S.faults out.old) (S.faults out.new) }
{
    let mut lines = Vec::new(alloc);
    match changes_between(alloc, from, to, &mut lines) {
        Ok(()) => send(out, lines.as_slice()),
        Err(Memory) => Err(Stop::Memory),
    }
}

/// Writes the end of a journal, and gives the status 0.
fn send_end<S: Sink>(out: &mut S) -> Result<u8, Stop<PutFailed>>
    ensures sends { Sends result (output_of S.Sink out.old) (output_of S.Sink out.new) end_line }
    ensures cause { SendCause result (S.faults out.old) (S.faults out.new) }
    ensures status { IfOk result (λ status. status ≡ 0) }
{
    match send(out, b"end\n".as_slice()) {
        Ok(()) => Ok(0),
        Err(why) => Err(why),
    }
}
