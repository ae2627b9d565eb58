//! Where in a file a refusal is, and what it says.
#![tactic(auto)]

mod commands;
mod cuts;
mod endings;
pub mod finer;
mod fronts;
mod indices;
pub mod items;
mod kernel_wants;
mod kinds;
pub mod laws;
mod limits;
pub mod lines;
pub mod names;
pub mod nearest;
mod others;
mod parts;
mod pieces;
pub mod place;
mod reading;
pub mod refused;
mod rule_texts;
pub mod rules;
mod run_lines;
pub mod runs;
mod scope;
mod sentences;
mod sizes;
mod stop_forms;
mod stops;
mod storage;
pub mod telling;
mod unknowns;
mod want;
mod wants;
mod warning_lines;
pub mod warnings;

pub use finer::closest;
pub use items::statement_place;
pub use lines::{LineColumn, position_of};
pub use place::Place;
pub use refused::{Explained, explain};
pub use rules::{Rule, all_rules, rule_of};
pub use runs::line_place;
pub use telling::{Asked, Told, push_long, push_rules, tell};
pub use warnings::{Warning, What, next_warning};
