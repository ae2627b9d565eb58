//! The last lines of refused tasks.

ghost use Rattle.std.specs.Prelude.{◌≡◌, IfOk};
ghost use Rattle.std.specs.Option.{option_copied};
ghost use Rattle.sg_session.specs.Compiled.{IsTask, IsCompiled};
ghost use Rattle.sparsegrid.specs.Lines as spec;
ghost use Rattle.sg_names.specs.Tables.{kernel_name_of, layout_name_of};

use crate::last_line::{LastLine, joined_as, name_text, named_as, read_last, refused_as};
use sg_ast::Name;
use sg_flat::RunFault;
use sg_grid::push_coordinate;
use sg_session::{Compiled, RunRefusal, Task};
use sg_snapshot::SnapFault;
use sg_words::Memory;
use std::alloc::Global;

/// The last line of a refused task; `file` is the file that it reads.
pub fn run_last(
    alloc: Global,
    compiled: &Compiled,
    file: Option<&str>,
    task: Task,
    refusal: RunRefusal,
) -> Result<LastLine, Memory>
    requires { IsTask compiled.now task }
    ensures { IfOk result (λ last. last ≡ spec.run_last compiled.now.names (option_copied file.entry) task refusal) }
{
    match refusal {
        RunRefusal::Read { field: _field } => read_last(alloc, file_text(file)),
        RunRefusal::GridBytes { field: _field } => {
            joined_as(alloc, 8, b"limit: grid bytes ", field_text(compiled, task))
        }
        RunRefusal::GridRows { field: _field } => {
            joined_as(alloc, 8, b"limit: grid rows ", field_text(compiled, task))
        }
        RunRefusal::Grid {
            field: _field,
            line,
        } => {
            let place = format!(in alloc; " line {line}")?;
            named_as(
                alloc,
                6,
                b"grid: ",
                field_text(compiled, task),
                place.as_bytes(),
            )
        }
        RunRefusal::Run { kernel, fault } => fault_last(alloc, compiled, kernel, fault),
    }
}

/// The last line of a refused run of a kernel, or of a load if there is none.
pub fn fault_last(
    alloc: Global,
    compiled: &Compiled,
    kernel: Option<u32>,
    fault: RunFault,
) -> Result<LastLine, Memory>
    ensures { IfOk result (λ last. last ≡ spec.fault_last compiled.now.names kernel fault) }
{
    match fault {
        RunFault::WriteOutside { stmt, at } => {
            let mut place = format!(in alloc; " statement {stmt} at ")?;
            push_coordinate(&mut place, at)?;
            named_as(
                alloc,
                7,
                b"write outside: kernel ",
                kernel_text(compiled, kernel),
                place.as_bytes(),
            )
        }
        RunFault::PoolFull { layout, node, cap } => {
            let place = format!(in alloc; " node {node} cap {cap}")?;
            let name = name_text(layout_name(compiled, layout));
            named_as(alloc, 7, b"pool full: ", name, place.as_bytes())
        }
    }
}

/// The last line of a run whose snapshot is that of no state of the layouts, or of one for which there is no room.
pub fn snapshot_last(
    alloc: Global,
    compiled: &Compiled,
    fault: SnapFault,
) -> Result<LastLine, Memory>
    ensures { IfOk result (λ last. last ≡ spec.snapshot_last compiled.now.names fault) }
{
    match fault {
        SnapFault::NotSnapshot => refused_as(alloc, 6, b"snapshot"),
        SnapFault::NotClosed { layout: _layout } => refused_as(alloc, 6, b"snapshot"),
        SnapFault::Full { layout, node, cap } => {
            let full = RunFault::PoolFull { layout, node, cap };
            fault_last(alloc, compiled, None, full)
        }
    }
}

/// The name of a file, if there is one.
fn file_text(file: Option<&str>) -> &[u8]
    ensures { result.now ≡ spec.file_text (option_copied file.entry) }
{
    match file {
        Some(name) => name.as_bytes(),
        None => &[],
    }
}

/// The name of a task's field.
pub fn field_text(compiled: &Compiled, task: Task) -> &[u8]
    requires { IsTask compiled.now task }
    ensures { result.now ≡ spec.field_text compiled.now.names task }
{
    match task {
        Task::Load(field) => compiled.names.field_name(field.number).text.as_slice(),
        Task::Run { kernel: _kernel } => &[],
        Task::Dump(field) => compiled.names.field_name(field.number).text.as_slice(),
        Task::Image {
            field,
            lo: _lo,
            hi: _hi,
        } => compiled.names.field_name(field.number).text.as_slice(),
        Task::Stats { layout: _layout } => &[],
        Task::Prune { layout: _layout } => &[],
        Task::Clear { layout: _layout } => &[],
    }
}

/// The name of the layout with this number; empty if there is none.
pub(crate) fn layout_text(compiled: &Compiled, number: u32) -> &[u8]
    ensures { result.now ≡ spec.layout_text compiled.now.names number }
{
    name_text(layout_name(compiled, number))
}

/// The name of a kernel that is run.
fn kernel_text(compiled: &Compiled, kernel: Option<u32>) -> &[u8]
    ensures { result.now ≡ spec.kernel_text compiled.now.names kernel }
{
    match kernel {
        Some(number) => name_text(kernel_name(compiled, number)),
        None => &[],
    }
}

/// The name of the kernel with this number, if there is one.
fn kernel_name(compiled: &Compiled, number: u32) -> Option<&Name>
    ensures { option_copied result ≡ kernel_name_of compiled.now.names number }
{
    if (number as usize) < compiled.kernels.as_slice().len() {
        return Some(compiled.names.kernel_name(number));
    }
    None
}

/// The name of the layout with this number, if there is one.
fn layout_name(compiled: &Compiled, number: u32) -> Option<&Name>
    ensures { option_copied result ≡ layout_name_of compiled.now.names number }
{
    if (number as usize) < compiled.layouts.list.as_slice().len() {
        return Some(compiled.names.layout_name(number));
    }
    None
}
