//! The syntax of files: tokens, and the trees that they spell.
#![tactic(auto)]

pub mod command;
pub mod expr;
pub mod kernel;
pub mod laws;
pub mod layout;
pub mod program;
pub mod stmt;
pub mod token;

pub use command::Command;
pub use expr::{Callee, Expr};
pub use kernel::{DomainDecl, KernelDecl};
pub use layout::{AxisDecl, FieldDecl, LayoutDecl, NodeDecl, NodeKind, SizeDecl};
pub use program::{ConstDecl, Item, Program};
pub use stmt::{RangeDecl, Stmt, WayDecl};
pub use token::{Name, Sign, Spanned, Token, Tokens, Word};
