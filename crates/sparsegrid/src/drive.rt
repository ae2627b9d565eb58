//! The tasks of a program, performed in order; neighbouring runs that don't touch each other at the same time.

ghost use Rattle.std.specs.Prelude.{◌≡◌, ◌≢◌, ◌≤◌, ◌<◌, ◌+◌, ℕ, List, drop, length, map, None, IfOk, false};
ghost use Rattle.sg_layout.specs.declared.shape.Shape.{Shape};
ghost use Rattle.sg_names.specs.Tables.{Tables};
ghost use Rattle.std.specs.List.{AllByRecursion};
ghost use Rattle.sg_flat.specs.declared.state.FlatState.{FlatState};
ghost use Rattle.sg_exec.specs.Standing.{StandForState};
ghost use Rattle.sg_session.specs.Compiled.{CheckedProgram, Compiles, IsTask};
ghost use Rattle.sg_session.specs.Performed.{HasFile};
ghost use Rattle.sg_session.specs.Bindings.{binding_read, file_of_task};
ghost use Rattle.sparsegrid.specs.Lines.{run_last};
ghost use Rattle.sparsegrid.specs.Meaning.{meaning_of_tasks};
ghost use Rattle.sparsegrid.specs.Outcome.{outside_of, output_of};
ghost use Rattle.sparsegrid.specs.steps.Along.{Sends, SendCause, Went, line_text, ended_with};
ghost use Rattle.sparsegrid.specs.steps.Grouping.{Advances, IsAdvance, IsGroup, ended_as};
ghost use Rattle.sparsegrid.specs.Telling.{telling_of, shows_journal};

use crate::advice::advice_text;
use crate::group::{group_at, is_beside, may_ever_group, may_group, run_group};
use crate::output::{PutFailed, send, send_last};
use crate::run_line::run_last;
use crate::showing::Showing;
use crate::unbound::file_of_task;
use crate::words::Words;
use sg_outside::{Files, Gate, Sink};
use sg_session::{Binds, Compiled, RunRefusal, Session, Task};
use sg_snapshot::save;
use sg_words::{Items, Memory, Stop, Text};
use std::alloc::Global;
use std::thread::Threads;

/// Performs tasks in order and writes their texts, if they are shown, up to the first that is refused, whose last line it writes. Gives the
/// status: 0 if none is refused. The file of the program was read before, and the snapshot with which the tasks begin, if any.
pub fn drive<R: Threads + Sync, F: Files, S: Sink, G: Gate + Sync>(
    rt: &R,
    alloc: Global,
    session: &mut Session,
    tasks: &[Task],
    what: Showing,
    asked: &Words,
    files: &mut F,
    out: &mut S,
    gate: &G,
) -> Result<u8, Stop<PutFailed>>
    requires some { 1 ≤ asked.now.workers }
    requires few { asked.now.workers ≤ 16 }
    requires shown { shows_journal what ≡ false }
    requires there { AllByRecursion (IsTask session.old.compiled) tasks.now }
    requires bound { AllByRecursion (HasFile session.old.compiled.names (map binding_read asked.now.binds.list)) tasks.now }
    ensures went { (program : CheckedProgram) → Compiles program session.old.compiled →
        (earlier : ℕ) (state : FlatState) → StandForState session.old.compiled.layouts session.old.stores state →
        Went (λ readings. meaning_of_tasks program (map binding_read asked.now.binds.list) (telling_of program.names program.layouts what) readings 0 earlier state tasks.now) earlier
        (outside_of F.Files S.Sink files.old out.old) (outside_of F.Files S.Sink files.new out.new) (ended_with session.new result) }
    ensures compiled { session.new.compiled ≡ session.old.compiled }
    ensures holds { F.holds files.new ≡ F.holds files.old }
    ensures never_falls { F.faults files.old ≤ F.faults files.new }
    ensures cause { SendCause result (S.faults out.old) (S.faults out.new) }
    ensures status { IfOk result (λ status. (status ≢ 3) × (status ≢ 9)) }
{
    let grouped = may_ever_group(session, asked.workers, gate);
    let mut at = 0_usize;
    while at < tasks.len() {
        match perform_next(
            rt, alloc, session, tasks, at, grouped, what, asked, files, out, gate,
        ) {
            Ok(step) => match step {
                Advance::Further(next) => at = next,
                Advance::Ended(status) => return Ok(status),
            },
            Err(why) => return Err(why),
        }
    }
    end(rt, alloc, session, what, asked.workers, out, gate)
}

/// How far tasks came: to the one with this number, or to an end with this status.
#[derive(Clone, Copy, Debug)]
pub(crate) enum Advance {
    Further(usize),
    Ended(u8),
}

/// Performs the task at a place, or the group of runs that begins there, if there may be groups.
fn perform_next<R: Threads + Sync, F: Files, S: Sink, G: Gate + Sync>(
    rt: &R,
    alloc: Global,
    session: &mut Session,
    tasks: &[Task],
    at: usize,
    grouped: bool,
    what: Showing,
    asked: &Words,
    files: &mut F,
    out: &mut S,
    gate: &G,
) -> Result<Advance, Stop<PutFailed>>
    requires some { 1 ≤ asked.now.workers }
    requires few { asked.now.workers ≤ 16 }
    requires within { at < length tasks.now }
    requires there { AllByRecursion (IsTask session.old.compiled) tasks.now }
    requires bound { AllByRecursion (HasFile session.old.compiled.names (map binding_read asked.now.binds.list)) tasks.now }
    ensures advanced { (program : CheckedProgram) → Compiles program session.old.compiled →
        Advances program (map binding_read asked.now.binds.list) (telling_of program.names program.layouts what) tasks.now at session.old.stores session.new
        (outside_of F.Files S.Sink files.old out.old) (outside_of F.Files S.Sink files.new out.new) result }
    ensures compiled { session.new.compiled ≡ session.old.compiled }
    ensures holds { F.holds files.new ≡ F.holds files.old }
    ensures never_falls { F.faults files.old ≤ F.faults files.new }
    ensures cause { SendCause result (S.faults out.old) (S.faults out.new) }
    ensures status { IfOk result (IsAdvance at (length tasks.now)) }
{
    if !grouped {
        return perform_one(rt, alloc, session, tasks, at, what, asked, files, out, gate);
    }
    match group_here(alloc, session, tasks, at, asked.workers, gate) {
        Ok(group) => {
            if group.len() == 0 {
                perform_one(rt, alloc, session, tasks, at, what, asked, files, out, gate)
            } else {
                perform_group(
                    rt,
                    alloc,
                    session,
                    tasks,
                    at,
                    group.as_slice(),
                    what,
                    asked,
                    files,
                    out,
                    gate,
                )
            }
        }
        Err(Memory) => Err(Stop::Memory),
    }
}

/// The numbers of the kernels of the group that begins at a place, or none where the task there is performed alone: since no second run is beside it,
/// or at the same time they would be done later than one after the other.
fn group_here<G: Gate>(
    alloc: Global,
    session: &Session,
    tasks: &[Task],
    at: usize,
    workers: u32,
    gate: &G,
) -> Result<Vec<u32>, Memory>
    requires there { AllByRecursion (IsTask session.now.compiled) tasks.now }
    requires within { at ≤ length tasks.now }
    requires some { 1 ≤ workers }
    ensures { IfOk result (λ group. 1 ≤ length group.items → IsGroup session.now.compiled (drop at tasks.now) workers group.items) }
{
    let rest = tasks_from(tasks, at);
    if !may_group(session, rest, gate) {
        return Ok(Vec::new(alloc));
    }
    let group = group_at(alloc, &session.compiled, rest, workers)?;
    if !is_beside(session, group.as_slice(), workers, gate) {
        return Ok(Vec::new(alloc));
    }
    Ok(group)
}

/// The tasks from a place on.
fn tasks_from(tasks: &[Task], at: usize) -> &[Task]
    requires { at ≤ length tasks.now }
    ensures { result.now ≡ drop at tasks.now }
{
    &tasks[at..]
}

/// Performs the task at a place, and writes what is shown of it.
fn perform_one<R: Threads + Sync, F: Files, S: Sink, G: Gate + Sync>(
    rt: &R,
    alloc: Global,
    session: &mut Session,
    tasks: &[Task],
    at: usize,
    what: Showing,
    asked: &Words,
    files: &mut F,
    out: &mut S,
    gate: &G,
) -> Result<Advance, Stop<PutFailed>>
    requires some { 1 ≤ asked.now.workers }
    requires few { asked.now.workers ≤ 16 }
    requires within { at < length tasks.now }
    requires there { AllByRecursion (IsTask session.old.compiled) tasks.now }
    requires bound { AllByRecursion (HasFile session.old.compiled.names (map binding_read asked.now.binds.list)) tasks.now }
    ensures advanced { (program : CheckedProgram) → Compiles program session.old.compiled →
        Advances program (map binding_read asked.now.binds.list) (telling_of program.names program.layouts what) tasks.now at session.old.stores session.new
        (outside_of F.Files S.Sink files.old out.old) (outside_of F.Files S.Sink files.new out.new) result }
    ensures compiled { session.new.compiled ≡ session.old.compiled }
    ensures holds { F.holds files.new ≡ F.holds files.old }
    ensures never_falls { F.faults files.old ≤ F.faults files.new }
    ensures cause { SendCause result (S.faults out.old) (S.faults out.new) }
    ensures status { IfOk result (IsAdvance at (length tasks.now)) }
{
    let task = tasks[at];
    match session.step(rt, alloc, task, &asked.binds, files, asked.workers, gate) {
        Ok(text) => match send(out, told_of(what, text.bytes.as_slice())) {
            Ok(()) => Ok(Advance::Further(at + 1)),
            Err(why) => Err(why),
        },
        Err(Stop::Refused(refusal)) => ended(refuse_task(
            alloc,
            out,
            &session.compiled,
            &asked.binds,
            task,
            refusal,
        )),
        Err(Stop::Memory) => Err(Stop::Memory),
    }
}

/// Performs the runs of a group that begins at a place, at the same time. They have no text.
fn perform_group<R: Threads + Sync, F: Files, S: Sink, G: Gate + Sync>(
    rt: &R,
    alloc: Global,
    session: &mut Session,
    tasks: &[Task],
    at: usize,
    group: &[u32],
    what: Showing,
    asked: &Words,
    files: &mut F,
    out: &mut S,
    gate: &G,
) -> Result<Advance, Stop<PutFailed>>
    requires some { 1 ≤ asked.now.workers }
    requires few { asked.now.workers ≤ 16 }
    requires within { at < length tasks.now }
    requires there { AllByRecursion (IsTask session.old.compiled) tasks.now }
    requires group { IsGroup session.old.compiled (drop at tasks.now) asked.now.workers group.now }
    requires member { 1 ≤ length group.now }
    ensures advanced { (program : CheckedProgram) → Compiles program session.old.compiled →
        Advances program (map binding_read asked.now.binds.list) (telling_of program.names program.layouts what) tasks.now at session.old.stores session.new
        (outside_of F.Files S.Sink files.old out.old) (outside_of F.Files S.Sink files.new out.new) result }
    ensures compiled { session.new.compiled ≡ session.old.compiled }
    ensures holds { F.holds files.new ≡ F.holds files.old }
    ensures never_falls { F.faults files.old ≤ F.faults files.new }
    ensures cause { SendCause result (S.faults out.old) (S.faults out.new) }
    ensures status { IfOk result (IsAdvance at (length tasks.now)) }
{
    unused(&what);
    unused(&*files);
    match run_group(rt, alloc, session, group, asked.workers, gate) {
        Ok(()) => Ok(Advance::Further(after_group(at, group, tasks.len()))),
        Err(Stop::Refused(why)) => {
            let kernel = group[why.at as usize];
            let refusal = RunRefusal::Run {
                kernel: Some(kernel),
                fault: why.fault,
            };
            ended(refuse_task(
                alloc,
                out,
                &session.compiled,
                &asked.binds,
                Task::Run { kernel },
                refusal,
            ))
        }
        Err(Stop::Memory) => Err(Stop::Memory),
    }
}

/// A value that isn't looked at: no run of a group reads a file or is shown.
fn unused<T>(_value: &T) {}

/// The place behind a group that begins at a place, of so many tasks.
fn after_group(at: usize, group: &[u32], all: usize) -> usize
    requires { at + length group.now ≤ all }
    ensures { result ≡ at + length group.now }
{
    let _all = all;
    at + group.len()
}

/// An end with the status that was given.
fn ended(answer: Result<u8, Stop<PutFailed>>) -> Result<Advance, Stop<PutFailed>>
    ensures { result ≡ ended_as answer }
{
    match answer {
        Ok(status) => Ok(Advance::Ended(status)),
        Err(why) => Err(why),
    }
}

/// What is written of the text of a task.
fn told_of(what: Showing, text: &[u8]) -> &[u8]
    ensures { (names : Tables) (shapes : List Shape) (number : ℕ) → result.now ≡ (telling_of names shapes what).each number text.now }
{
    match what {
        Showing::Texts => text,
        Showing::Image => &[],
        Showing::Advice => &[],
        Showing::Changes => &[],
    }
}

/// Writes what is written after all tasks, and gives the status.
fn end<R: Threads + Sync, S: Sink, G: Gate + Sync>(
    rt: &R,
    alloc: Global,
    session: &Session,
    what: Showing,
    workers: u32,
    out: &mut S,
    gate: &G,
) -> Result<u8, Stop<PutFailed>>
    requires some { 1 ≤ workers }
    requires few { workers ≤ 16 }
    ensures sends { (state : FlatState) → StandForState session.now.compiled.layouts session.now.stores state →
        Sends result (output_of S.Sink out.old) (output_of S.Sink out.new) ((telling_of session.now.compiled.names session.now.compiled.layouts what).ending state) }
    ensures cause { SendCause result (S.faults out.old) (S.faults out.new) }
    ensures status { IfOk result (λ status. status ≡ 0) }
{
    match ending(rt, alloc, session, what, workers, gate) {
        Ok(text) => match send(out, text.bytes.as_slice()) {
            Ok(()) => Ok(0),
            Err(why) => Err(why),
        },
        Err(Memory) => Err(Stop::Memory),
    }
}

/// What is written after all tasks.
fn ending<R: Threads + Sync, G: Gate + Sync>(
    rt: &R,
    alloc: Global,
    session: &Session,
    what: Showing,
    workers: u32,
    gate: &G,
) -> Result<Text, Memory>
    requires some { 1 ≤ workers }
    requires few { workers ≤ 16 }
    ensures { IfOk result (λ text. (state : FlatState) → StandForState session.now.compiled.layouts session.now.stores state →
        text.bytes ≡ (telling_of session.now.compiled.names session.now.compiled.layouts what).ending state) }
{
    match what {
        Showing::Texts => Ok(Text {
            bytes: Items::new(alloc),
        }),
        Showing::Image => save(alloc, &session.stores, &session.compiled.layouts),
        Showing::Advice => advice_text(rt, alloc, session, workers, gate),
        Showing::Changes => Ok(Text {
            bytes: Items::new(alloc),
        }),
    }
}

/// Writes the last line of a refused task, and gives its status.
pub(crate) fn refuse_task<S: Sink>(
    alloc: Global,
    out: &mut S,
    compiled: &Compiled,
    binds: &Binds,
    task: Task,
    refusal: RunRefusal,
) -> Result<u8, Stop<PutFailed>>
    requires { IsTask compiled.now task }
    ensures sends { Sends result (output_of S.Sink out.old) (output_of S.Sink out.new)
        (line_text (run_last compiled.now.names (file_of_task compiled.now.names (map binding_read binds.now.list) task) task refusal)) }
    ensures cause { SendCause result (S.faults out.old) (S.faults out.new) }
    ensures status { IfOk result (λ status. status ≡
        (run_last compiled.now.names (file_of_task compiled.now.names (map binding_read binds.now.list) task) task refusal).status) }
{
    let file = file_of_task(compiled, binds, task);
    match run_last(alloc, compiled, file, task, refusal) {
        Ok(last) => send_last(alloc, out, &last),
        Err(Memory) => Err(Stop::Memory),
    }
}
