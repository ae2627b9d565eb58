use crate::command::Command;
use crate::kernel::KernelDecl;
use crate::layout::LayoutDecl;
use crate::token::Name;
use sg_words::Items;

/// A file: its items in order, and for each the line of its first token, from 1.
#[derive(Debug, Drop)]
pub struct Program {
    pub items: Items<Item>,
    pub lines: Items<u32>,
}

/// What a file is made of: declarations, and commands.
#[derive(Debug, Drop)]
pub enum Item {
    Const(ConstDecl),
    Layout(LayoutDecl),
    Kernel(KernelDecl),
    Command(Command),
}

/// `const NAME = VALUE;`, with a `-` before the value where `minus` says so and a `u` after it where `unsigned` does.
#[derive(Debug, Drop)]
pub struct ConstDecl {
    pub name: Name,
    pub minus: bool,
    pub value: u32,
    pub unsigned: bool,
}
