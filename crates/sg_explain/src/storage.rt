//! Which of the layouts of a file takes the most words.

ghost use Rattle.std.specs.Prelude.{◌≤◌, length};
ghost use Rattle.sg_lexer.specs.Limits.{most_file_bytes};
ghost use Rattle.sg_session.specs.Spelled.{IsSpelled};

use sg_ast::{Item, LayoutDecl, Program};
use sg_layout::check_layout;
use sg_names::{Names, name_tables};
use sg_session::spell;
use sg_words::{Memory, Stop};
use std::alloc::Global;

/// The number of a layout, from 0, and its words of storage.
#[derive(Clone, Copy)]
pub(crate) struct Largest {
    pub layout: u32,
    pub words: u64,
}

/// The layout of a file that takes the most words, none where the file has none that can be told.
pub(crate) fn largest_layout(alloc: Global, bytes: &[u8]) -> Result<Option<Largest>, Memory>
    requires { length bytes.now ≤ most_file_bytes }
{
    match spell(alloc, bytes) {
        Ok(program) => largest_of(alloc, &program),
        Err(Stop::Refused(_)) => Ok(None),
        Err(Stop::Memory) => Err(Memory),
    }
}

/// The layout of a program that takes the most words.
fn largest_of(alloc: Global, program: &Program) -> Result<Option<Largest>, Memory>
    requires { IsSpelled program.now }
{
    match name_tables(alloc, program) {
        Ok(names) => largest_item(alloc, program.items.as_slice(), &names),
        Err(Stop::Refused(_)) => Ok(None),
        Err(Stop::Memory) => Err(Memory),
    }
}

/// The layout that takes the most words of those that items declare.
fn largest_item(alloc: Global, items: &[Item], names: &Names) -> Result<Option<Largest>, Memory> {
    let mut largest: Option<Largest> = None;
    let mut layout: u32 = 0;
    for item in items {
        if let Item::Layout(decl) = item {
            let words = words_of(alloc, decl, names)?;
            largest = larger(largest, Largest { layout, words });
            layout = layout.saturating_add(1);
        }
    }
    Ok(largest)
}

/// The one of two that takes more words, the first where both take as many.
fn larger(first: Option<Largest>, second: Largest) -> Option<Largest> {
    match first {
        Some(found) if found.words >= second.words => Some(found),
        _ => Some(second),
    }
}

/// The words of storage of a layout, 0 where it breaks a rule.
fn words_of(alloc: Global, decl: &LayoutDecl, names: &Names) -> Result<u64, Memory> {
    let shape = names.shape(alloc, decl)?;
    if !shape.is_declared() {
        return Ok(0);
    }
    match check_layout(alloc, &shape) {
        Ok(layout) => Ok(layout.words()),
        Err(Stop::Refused(_)) => Ok(0),
        Err(Stop::Memory) => Err(Memory),
    }
}
