//! The names that a file declares: what each stands for, and whether every name that an item uses is declared before it.
#![tactic(auto)]

mod check;
mod commands;
pub mod fault;
pub mod laws;
pub mod names;
mod repeats;
pub mod shape;
mod sizes;
mod table;
pub mod tables;
mod uses;

pub use fault::{NameFault, Which};
pub use names::{Names, name_tables};
pub use tables::{Constant, FieldAt, NamedConstant, NamedField, NamedLayout};
