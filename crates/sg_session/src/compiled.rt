ghost use Rattle.std.specs.Prelude.{◌≡◌, ◌++◌, OnOk, IfOk};
ghost use Rattle.std.specs.List.{AllByRecursion, repeat};
ghost use Rattle.sg_session.specs.Compiled.{stage_tasks, unfolded_tasks};

use crate::tasks::{Stage, Task};
use sg_ir::KernelCode;
use sg_layout::Layouts;
use sg_names::Names;
use sg_words::{Items, Memory};
use std::alloc::Global;
use std::marker::Model;

/// What a program is compiled to: its names, its layouts, the access code of its kernels, for each kernel whether it is neutral, and its
/// commands, each in order of declaration. The numbers in its names are those of its layouts, of their fields and of its kernels; its
/// commands name what is there and keep their rules; its kernels are well typed and apt for its layouts.
#[derive(Drop)]
pub struct Compiled {
    pub names: Names,
    pub layouts: Layouts,
    pub kernels: Items<KernelCode>,
    pub neutral: Items<bool>,
    pub commands: Items<Stage>,
}

impl Model for Compiled {
    ghost use Rattle.sg_session.specs.Compiled.{CompiledProgram, IsCompiled};
    ghost use Rattle.std.specs.Coded.{codes};
    ghost use Rattle.sg_ir.specs.contracts.code.Inst as inst;

    ghost Value = { CompiledProgram };

    ghost coded = { Prim.hlevel (codes, inst.the_row.coded) };

    ghost view = { λ c. record { names = c.names; layouts = c.layouts.list; kernels = c.kernels; neutral = c.neutral; commands = c.commands } };

    ghost invariant = { λ c. IsCompiled (record { names = c.names; layouts = c.layouts.list; kernels = c.kernels; neutral = c.neutral; commands = c.commands }) };
}

impl Compiled {
    ghost use Rattle.std.specs.Prelude.{IfOk};
    ghost use Rattle.std.specs.List.{AllByRecursion};
    ghost use Rattle.sg_session.specs.Compiled.{unfolded_tasks, IsTask, IsCompiled};

    /// The tasks of all commands in order, with each `times` unfolded: at most 64,000.
    pub fn tasks(&self, alloc: Global) -> Result<Items<Task>, Memory>
        ensures tasks { IfOk result (λ tasks. tasks ≡ unfolded_tasks self.now.commands) }
        ensures there { IfOk result (AllByRecursion (IsTask self.now)) }
        ensures compiled { IsCompiled self.now }
    {
        unfolded_tasks(alloc, self.commands.as_slice())
    }
}

/// The tasks of commands, with each `times` unfolded.
fn unfolded_tasks(alloc: Global, commands: &[Stage]) -> Result<Items<Task>, Memory>
    ensures { IfOk result (λ tasks. tasks ≡ unfolded_tasks commands.now) }
{
    let mut tasks = Items::new(alloc);
    for stage in commands {
        push_stage(&mut tasks, stage)?;
    }
    Ok(tasks)
}

/// Adds the tasks of a command.
fn push_stage(tasks: &mut Items<Task>, stage: &Stage) -> Result<(), Memory>
    ensures { OnOk result (tasks.new ≡ tasks.old ++ stage_tasks stage.now) }
{
    match stage {
        Stage::Once(task) => tasks.push(*task)?,
        Stage::Times {
            number,
            tasks: repeated,
        } => push_turns(tasks, *number, repeated.as_slice())?,
    }
    Ok(())
}

/// Adds tasks so many times.
fn push_turns(tasks: &mut Items<Task>, number: u32, repeated: &[Task]) -> Result<(), Memory>
    ensures { OnOk result (tasks.new ≡ tasks.old ++ repeat number repeated.now) }
{
    for turn in 0..number {
        let _turn = turn;
        push_all(tasks, repeated)?;
    }
    Ok(())
}

/// Adds tasks in order.
fn push_all(tasks: &mut Items<Task>, more: &[Task]) -> Result<(), Memory>
    ensures { OnOk result (tasks.new ≡ tasks.old ++ more.now) }
{
    for task in more {
        tasks.push(*task)?;
    }
    Ok(())
}
