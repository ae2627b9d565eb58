//! From tokens to the program that they spell.
#![tactic(auto)]

mod command;
mod expression;
mod item;
mod kernel;
pub mod laws;
mod layout;
mod levels;
mod lists;
mod names;
pub mod program;
mod statement;
mod take;

pub use program::{ParseFault, parse};
