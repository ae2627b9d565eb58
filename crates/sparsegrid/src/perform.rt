//! What is done with a compiled program: its commands are performed, or its kernels are looked at.

ghost use Rattle.std.specs.Prelude.{◌≡◌, ◌≢◌, ◌≤◌, ◌↔◌, ℕ, map, None, IsSome, IfOk, IfSome, find};
ghost use Rattle.std.specs.List.{AllByRecursion};
ghost use Rattle.sg_session.specs.Texts as texts_of;
ghost use Rattle.sg_session.specs.Compiled.{CheckedProgram, Compiles, IsCompiled, IsTask, unfolded_tasks};
ghost use Rattle.sg_session.specs.Performed.{HasFile};
ghost use Rattle.sg_session.specs.Bindings.{binding_read};
ghost use Rattle.sg_flat.specs.declared.state.FlatState.{FlatState};
ghost use Rattle.sg_flat.specs.State.{opening};
ghost use Rattle.sg_exec.specs.Standing.{StandForState};
ghost use Rattle.sparsegrid.specs.Words.{asked_by};
ghost use Rattle.sparsegrid.specs.Meaning.{begun, meaning_of_run, meaning_from, is_unbound};
ghost use Rattle.sparsegrid.specs.Telling.{telling_of, shows_journal};
ghost use Rattle.sparsegrid.specs.Outcome.{output_of, outside_of, HasSession};
ghost use Rattle.sparsegrid.specs.steps.Along.{Sends, KeepsWritten, SendCause, IsEnd, LeavesOnly, LeavesProgram, ended_with};
ghost use Rattle.sparsegrid.specs.steps.Leading.{Kept};

use crate::drive::drive;
use crate::journaling::drive_journal;
use crate::output::{PutFailed, send};
use crate::refuse::{refuse_snapshot, refuse_unbound};
use crate::session::Done;
use crate::showing::Showing;
use crate::snapshot::read_stores;
use crate::unbound::first_unbound;
use crate::words::Words;
use sg_outside::{Files, Gate, Sink};
use sg_session::{Compiled, Session, Task, check_text};
use sg_words::{Memory, Stop};
use std::alloc::Global;
use std::thread::Threads;

/// Writes for each kernel whether it is neutral.
pub(crate) fn check<S: Sink>(
    alloc: Global,
    compiled: Compiled,
    out: &mut S,
) -> Result<Done, Stop<PutFailed>>
    ensures sends { Sends result (output_of S.Sink out.old) (output_of S.Sink out.new) (texts_of.check_text compiled.names compiled.neutral) }
    ensures opened { LeavesOnly (λ session. StandForState compiled.layouts session.stores (opening compiled.layouts)) result }
    ensures cause { SendCause result (S.faults out.old) (S.faults out.new) }
    ensures end { IfOk result IsEnd }
    ensures program { LeavesProgram compiled result }
    ensures status { IfOk result (λ done. done.status ≡ 0) }
{
    match check_text(alloc, &compiled) {
        Ok(text) => leave_open(alloc, compiled, text.bytes.as_slice(), out),
        Err(Memory) => Err(Stop::Memory),
    }
}

/// Writes a text and leaves the stores of a program as they are opened.
pub(crate) fn leave_open<S: Sink>(
    alloc: Global,
    compiled: Compiled,
    text: &[u8],
    out: &mut S,
) -> Result<Done, Stop<PutFailed>>
    ensures sends { Sends result (output_of S.Sink out.old) (output_of S.Sink out.new) text.now }
    ensures quiet { KeepsWritten result (output_of S.Sink out.old) (output_of S.Sink out.new) }
    ensures opened { LeavesOnly (λ session. StandForState compiled.layouts session.stores (opening compiled.layouts)) result }
    ensures cause { SendCause result (S.faults out.old) (S.faults out.new) }
    ensures end { IfOk result IsEnd }
    ensures program { LeavesProgram compiled result }
    ensures status { IfOk result (λ done. done.status ≡ 0) }
{
    match Session::open(alloc, compiled) {
        Ok(session) => match send(out, text) {
            Ok(()) => Ok(Done {
                status: 0,
                session: Some(session),
            }),
            Err(why) => Err(why),
        },
        Err(Memory) => Err(Stop::Memory),
    }
}

/// Performs the commands of a program from its opening state, or from a snapshot, on, and writes what is shown of them.
pub(crate) fn perform<R: Threads + Sync, F: Files, S: Sink, G: Gate + Sync>(
    rt: &R,
    alloc: Global,
    compiled: Compiled,
    what: Showing,
    asked: &Words,
    files: &mut F,
    out: &mut S,
    gate: &G,
) -> Result<Done, Stop<PutFailed>>
    requires some { 1 ≤ asked.now.workers }
    requires few { asked.now.workers ≤ 16 }
    ensures went { (program : CheckedProgram) → Compiles program compiled →
        Kept (shows_journal what) (λ readings. meaning_of_run program (telling_of program.names program.layouts what) (asked_by asked.now).from (map binding_read asked.now.binds.list) readings
        (unfolded_tasks program.commands)) 1
        (outside_of F.Files S.Sink files.old out.old) (outside_of F.Files S.Sink files.new out.new) result }
    ensures holds { F.holds files.new ≡ F.holds files.old }
    ensures never_falls { F.faults files.old ≤ F.faults files.new }
    ensures cause { SendCause result (S.faults out.old) (S.faults out.new) }
    ensures end { IfOk result IsEnd }
    ensures program { LeavesProgram compiled result }
{
    match compiled.tasks(alloc) {
        Ok(tasks) => match first_unbound(&compiled, &asked.binds, tasks.as_slice()) {
            Some(task) => refuse_unbound(alloc, out, &compiled, task),
            None => perform_bound(
                rt,
                alloc,
                compiled,
                tasks.as_slice(),
                what,
                asked,
                files,
                out,
                gate,
            ),
        },
        Err(Memory) => Err(Stop::Memory),
    }
}

/// Performs tasks, of which each load has a file.
fn perform_bound<R: Threads + Sync, F: Files, S: Sink, G: Gate + Sync>(
    rt: &R,
    alloc: Global,
    compiled: Compiled,
    tasks: &[Task],
    what: Showing,
    asked: &Words,
    files: &mut F,
    out: &mut S,
    gate: &G,
) -> Result<Done, Stop<PutFailed>>
    requires some { 1 ≤ asked.now.workers }
    requires few { asked.now.workers ≤ 16 }
    requires compiled { IsCompiled compiled }
    requires there { AllByRecursion (IsTask compiled) tasks.now }
    requires bound { find (is_unbound compiled.names (map binding_read asked.now.binds.list)) tasks.now ≡ None }
    ensures went { (program : CheckedProgram) → Compiles program compiled →
        Kept (shows_journal what) (λ readings. begun program (asked_by asked.now).from readings
        (λ reads state. meaning_from program (map binding_read asked.now.binds.list) (telling_of program.names program.layouts what) readings reads state tasks.now)) 1
        (outside_of F.Files S.Sink files.old out.old) (outside_of F.Files S.Sink files.new out.new) result }
    ensures holds { F.holds files.new ≡ F.holds files.old }
    ensures never_falls { F.faults files.old ≤ F.faults files.new }
    ensures cause { SendCause result (S.faults out.old) (S.faults out.new) }
    ensures end { IfOk result IsEnd }
    ensures program { LeavesProgram compiled result }
{
    match &asked.from {
        None => match Session::open(alloc, compiled) {
            Ok(session) => perform_tasks(rt, alloc, session, tasks, what, asked, files, out, gate),
            Err(Memory) => Err(Stop::Memory),
        },
        Some(name) => {
            let name = name.as_str();
            match read_stores(alloc, name, &compiled.layouts, files) {
                Ok(stores) => {
                    let begun = Session { compiled, stores };
                    perform_tasks(rt, alloc, begun, tasks, what, asked, files, out, gate)
                }
                Err(Stop::Refused(why)) => refuse_snapshot(alloc, out, compiled, name, why),
                Err(Stop::Memory) => Err(Stop::Memory),
            }
        }
    }
}

/// Performs tasks, of which each load has a file, on a session, and writes what is shown of them.
fn perform_tasks<R: Threads + Sync, F: Files, S: Sink, G: Gate + Sync>(
    rt: &R,
    alloc: Global,
    begun: Session,
    tasks: &[Task],
    what: Showing,
    asked: &Words,
    files: &mut F,
    out: &mut S,
    gate: &G,
) -> Result<Done, Stop<PutFailed>>
    requires some { 1 ≤ asked.now.workers }
    requires few { asked.now.workers ≤ 16 }
    requires there { AllByRecursion (IsTask begun.compiled) tasks.now }
    requires bound { find (is_unbound begun.compiled.names (map binding_read asked.now.binds.list)) tasks.now ≡ None }
    ensures went { (program : CheckedProgram) → Compiles program begun.compiled →
        (earlier : ℕ) (state : FlatState) → StandForState begun.compiled.layouts begun.stores state →
        Kept (shows_journal what) (λ readings. meaning_from program (map binding_read asked.now.binds.list) (telling_of program.names program.layouts what) readings earlier state tasks.now) earlier
        (outside_of F.Files S.Sink files.old out.old) (outside_of F.Files S.Sink files.new out.new) result }
    ensures holds { F.holds files.new ≡ F.holds files.old }
    ensures never_falls { F.faults files.old ≤ F.faults files.new }
    ensures cause { SendCause result (S.faults out.old) (S.faults out.new) }
    ensures end { IfOk result IsEnd }
    ensures program { LeavesProgram begun.compiled result }
{
    let mut session = begun;
    match drive_shown(
        rt,
        alloc,
        &mut session,
        tasks,
        what,
        asked,
        files,
        out,
        gate,
    ) {
        Ok(status) => Ok(done_with(status, session)),
        Err(why) => Err(why),
    }
}

/// Performs tasks in order and writes what is shown of them. Gives the status.
fn drive_shown<R: Threads + Sync, F: Files, S: Sink, G: Gate + Sync>(
    rt: &R,
    alloc: Global,
    session: &mut Session,
    tasks: &[Task],
    what: Showing,
    asked: &Words,
    files: &mut F,
    out: &mut S,
    gate: &G,
) -> Result<u8, Stop<PutFailed>>
    requires some { 1 ≤ asked.now.workers }
    requires few { asked.now.workers ≤ 16 }
    requires there { AllByRecursion (IsTask session.old.compiled) tasks.now }
    requires bound { AllByRecursion (HasFile session.old.compiled.names (map binding_read asked.now.binds.list)) tasks.now }
    ensures went { (program : CheckedProgram) → Compiles program session.old.compiled →
        (earlier : ℕ) (state : FlatState) → StandForState session.old.compiled.layouts session.old.stores state →
        Kept (shows_journal what) (λ readings. meaning_from program (map binding_read asked.now.binds.list) (telling_of program.names program.layouts what) readings earlier state tasks.now) earlier
        (outside_of F.Files S.Sink files.old out.old) (outside_of F.Files S.Sink files.new out.new) (ended_with session.new result) }
    ensures compiled { session.new.compiled ≡ session.old.compiled }
    ensures holds { F.holds files.new ≡ F.holds files.old }
    ensures never_falls { F.faults files.old ≤ F.faults files.new }
    ensures cause { SendCause result (S.faults out.old) (S.faults out.new) }
    ensures status { IfOk result (λ status. (status ≢ 3) × (status ≢ 9)) }
{
    if shows_journal(what) {
        drive_journal(rt, alloc, session, tasks, asked, files, out, gate)
    } else {
        drive(rt, alloc, session, tasks, what, asked, files, out, gate)
    }
}

/// Whether a journal is shown.
fn shows_journal(what: Showing) -> bool
    ensures { result ≡ shows_journal what }
{
    match what {
        Showing::Texts => false,
        Showing::Image => false,
        Showing::Advice => false,
        Showing::Changes => true,
    }
}

/// How performed tasks ended: the session is kept where all are done or a run was refused.
fn done_with(status: u8, session: Session) -> Done
    ensures status { result.status ≡ status }
    ensures session { IsSome result.session ↔ HasSession status }
    ensures same { IfSome result.session (λ kept. kept ≡ session) }
{
    if status == 0 || status == 7 {
        Done {
            status,
            session: Some(session),
        }
    } else {
        Done {
            status,
            session: None,
        }
    }
}
