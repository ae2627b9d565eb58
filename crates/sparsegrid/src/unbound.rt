//! The files that the tasks of a program read.

ghost use Rattle.std.specs.Prelude.{◌≡◌, map, find, is_none};
ghost use Rattle.std.specs.Option.{option_copied};
ghost use Rattle.std.specs.List.{AllByRecursion};
ghost use Rattle.sg_session.specs.Compiled.{IsTask, IsCompiled};
ghost use Rattle.sg_session.specs.Bindings.{binding_read, file_of_task};
ghost use Rattle.sparsegrid.specs.Meaning as spec;

use sg_names::FieldAt;
use sg_session::{Binds, Compiled, Task, file_bound};

/// The file that a task reads: only a load reads one.
pub fn file_of_task<'a>(compiled: &Compiled, binds: &'a Binds, task: Task) -> Option<&'a str>
    requires { IsTask compiled.now task }
    ensures { option_copied result ≡ file_of_task compiled.now.names (map binding_read binds.now.list) task }
{
    match task {
        Task::Load(field) => file_bound(binds, compiled.names.field_name(field.number)),
        Task::Run { kernel: _kernel } => None,
        Task::Dump(_field) => None,
        Task::Image {
            field: _field,
            lo: _lo,
            hi: _hi,
        } => None,
        Task::Stats { layout: _layout } => None,
        Task::Prune { layout: _layout } => None,
        Task::Clear { layout: _layout } => None,
    }
}

/// Whether a task is a load whose field has no file.
fn is_unbound(compiled: &Compiled, binds: &Binds, task: Task) -> bool
    requires { IsTask compiled.now task }
    ensures { result ≡ spec.is_unbound compiled.now.names (map binding_read binds.now.list) task }
{
    match task {
        Task::Load(_field) => file_of_task(compiled, binds, task).is_none(),
        Task::Run { kernel: _kernel } => false,
        Task::Dump(_field) => false,
        Task::Image {
            field: _field,
            lo: _lo,
            hi: _hi,
        } => false,
        Task::Stats { layout: _layout } => false,
        Task::Prune { layout: _layout } => false,
        Task::Clear { layout: _layout } => false,
    }
}

/// The first load whose field has no file.
pub fn first_unbound(compiled: &Compiled, binds: &Binds, tasks: &[Task]) -> Option<Task>
    requires { AllByRecursion (IsTask compiled.now) tasks.now }
    ensures { result ≡ find (spec.is_unbound compiled.now.names (map binding_read binds.now.list)) tasks.now }
{
    for task in tasks {
        if is_unbound(compiled, binds, *task) {
            return Some(*task);
        }
    }
    None
}
