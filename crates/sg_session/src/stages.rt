//! Numbers for the names in commands.

ghost use Rattle.std.specs.Prelude.{◌≡◌, IfOk};
ghost use Rattle.sg_ast.specs.declared.command.Command.{out-Command};
ghost use Rattle.sg_session.specs.Tasks as spec;

use crate::tasks::{Stage, Task};
use sg_ast::{Command, Item};
use sg_names::Names;
use sg_words::{Items, Memory};
use std::alloc::Global;

/// The commands of a program's items.
pub fn stages_of(alloc: Global, names: &Names, items: &[Item]) -> Result<Items<Stage>, Memory>
    ensures { IfOk result (λ stages. stages ≡ spec.stages_of names.now items.now) }
{
    let mut stages = Items::new(alloc);
    for item in items {
        if let Some(stage) = item_stage(alloc, names, item)? {
            stages.push(stage)?;
        }
    }
    Ok(stages)
}

fn item_stage(alloc: Global, names: &Names, item: &Item) -> Result<Option<Stage>, Memory>
    ensures { IfOk result (λ stage. stage ≡ spec.item_stage names.now item.now) }
{
    match item {
        Item::Const(_) | Item::Layout(_) | Item::Kernel(_) => Ok(None),
        Item::Command(command) => stage_of(alloc, names, command),
    }
}

fn stage_of(alloc: Global, names: &Names, command: &Command) -> Result<Option<Stage>, Memory>
    ensures { IfOk result (λ stage. stage ≡ spec.layer_stage names.now (out-Command command.now)) }
{
    match command {
        Command::Times { number, body } => {
            let tasks = body_tasks(alloc, names, body.as_slice())?;
            Ok(Some(Stage::Times {
                number: *number,
                tasks,
            }))
        }
        _ => Ok(match simple_task(names, command) {
            Some(task) => Some(Stage::Once(task)),
            None => None,
        }),
    }
}

fn body_tasks(alloc: Global, names: &Names, body: &[Command]) -> Result<Items<Task>, Memory>
    ensures { IfOk result (λ tasks. tasks ≡ spec.body_tasks names.now body.now) }
{
    let mut tasks = Items::new(alloc);
    for command in body {
        if let Some(task) = simple_task(names, command) {
            tasks.push(task)?;
        }
    }
    Ok(tasks)
}

fn simple_task(names: &Names, command: &Command) -> Option<Task>
    ensures { result ≡ spec.simple_task names.now (out-Command command.now) }
{
    match command {
        Command::Load(field) => {
            let at = names.field(field)?;
            Some(Task::Load(at))
        }
        Command::Run(name) => {
            let kernel = names.kernel(name)?;
            Some(Task::Run { kernel })
        }
        Command::Dump(field) => {
            let at = names.field(field)?;
            Some(Task::Dump(at))
        }
        Command::Image { field, lo, hi } => {
            let at = names.field(field)?;
            Some(Task::Image {
                field: at,
                lo: *lo,
                hi: *hi,
            })
        }
        Command::Stats(name) => {
            let layout = names.layout(name)?;
            Some(Task::Stats { layout })
        }
        Command::Prune(name) => {
            let layout = names.layout(name)?;
            Some(Task::Prune { layout })
        }
        Command::Clear(name) => {
            let layout = names.layout(name)?;
            Some(Task::Clear { layout })
        }
        Command::Times { number: _, body: _ } => None,
    }
}
