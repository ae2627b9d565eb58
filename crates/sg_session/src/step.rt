//! Performing a task.

use crate::binds::Binds;
use crate::compiled::Compiled;
use crate::freeing::{clear, prune};
use crate::grids::load;
use crate::perform::{run, write_out};
use crate::refusal::RunRefusal;
use crate::session::Session;
use crate::tasks::Task;
use crate::views::{count, draw};
use sg_outside::{Files, Gate};
use sg_store::laws::links_stay;
use sg_words::{Stop, Text};
use std::alloc::Global;
use std::thread::Threads;

impl Session {
    ghost use Rattle.std.specs.Prelude.{◌≡◌, ◌≤◌, Some, OnErr, map};
    ghost use Rattle.sg_flat.specs.declared.state.FlatState.{FlatState};
    ghost use Rattle.sg_outside.specs.Files.{Held, Reading};
    ghost use Rattle.std.specs.List.{AllZip};
    ghost use Rattle.sg_store.specs.Links.{KeepsLinks};
    ghost use Rattle.sg_exec.specs.Standing.{StandForState};
    ghost use Rattle.sg_session.specs.Compiled.{IsTask};
    ghost use Rattle.sg_session.specs.Bindings.{binding_read, file_of_task};
    ghost use Rattle.sg_session.specs.Commands.{compiled_meaning};
    ghost use Rattle.sg_session.specs.Performed.{Performs, reading_of, StepCause, HasFile, reads_after, asked_after};

    /// Performs a task and gives its text, or its refusal. After any answer but `Ok` the stores are as before. A load reads its file
    /// once, and no other; every other task reads none. A kernel runs on so many workers, from 1 to 16, each of which passes the gate
    /// before what each of its iterations asks for and before what it contributes; a load takes one worker, and no gate.
    pub fn step<R: Threads + Sync, F: Files, G: Gate + Sync>(
        &mut self,
        rt: &R,
        alloc: Global,
        task: Task,
        binds: &Binds,
        files: &mut F,
        workers: u32,
        gate: &G,
    ) -> Result<Text, Stop<RunRefusal>>
        requires there { IsTask self.old.compiled task }
        requires bound { HasFile self.old.compiled.names (map binding_read binds.now.list) task }
        requires some { 1 ≤ workers }
        requires few { workers ≤ 16 }

        // What a task means is said over the compiled program; the law of kernels says that it is what the task means in each program that is
        // compiled to it. What the files tell is what a load means; a failed read is told by its refusal alone.
        ensures told { (held : Held) → F.holds files.old ≡ Some held → (state : FlatState) →
            StandForState self.old.compiled.layouts self.old.stores state →
            Performs self.old.compiled.layouts self.new.stores result (compiled_meaning self.old.compiled state task
            (reading_of held (file_of_task self.old.compiled.names (map binding_read binds.now.list) task) result)) }
        // Where they tell nothing, some reading of the file is what the load means.
        ensures performed { (state : FlatState) → StandForState self.old.compiled.layouts self.old.stores state →
            (given : Reading) × Performs self.old.compiled.layouts self.new.stores result (compiled_meaning self.old.compiled state task given) }
        ensures compiled { self.new.compiled ≡ self.old.compiled }
        ensures links { AllZip KeepsLinks self.old.stores self.new.stores }
        ensures stays { OnErr result (self.new.stores ≡ self.old.stores) }

        ensures holds { F.holds files.new ≡ F.holds files.old }
        ensures asked { F.asked files.new ≡ asked_after (file_of_task self.old.compiled.names (map binding_read binds.now.list) task) (F.asked files.old) }
        ensures reads { F.reads files.new ≡ reads_after (file_of_task self.old.compiled.names (map binding_read binds.now.list) task) (F.reads files.old) }
        ensures cause { StepCause result (F.faults files.old) (F.faults files.new) }
        ensures never_falls { F.faults files.old ≤ F.faults files.new }
    {
        // for the laws that they ensure, and for what each store keeps before and after
        links_stay();
        self.stores.well_formed();
        match task {
            Task::Load(field) => {
                let answer = load(
                    rt,
                    alloc,
                    &self.compiled,
                    &mut self.stores,
                    field,
                    binds,
                    files,
                );
                self.stores.well_formed();
                answer
            }
            Task::Run { kernel } => {
                let answer = run(
                    rt,
                    alloc,
                    &self.compiled,
                    &mut self.stores,
                    kernel,
                    workers,
                    gate,
                );
                self.stores.well_formed();
                answer
            }
            Task::Dump(field) => write_out(alloc, &self.compiled, &self.stores, field),
            Task::Image { field, lo, hi } => {
                draw(alloc, &self.compiled, &self.stores, field, lo, hi)
            }
            Task::Stats { layout } => {
                count(rt, alloc, &self.compiled, &self.stores, layout, workers)
            }
            Task::Prune { layout } => prune(alloc, &self.compiled, &mut self.stores, layout),
            Task::Clear { layout } => clear(alloc, &self.compiled, &mut self.stores, layout),
        }
    }
}
