//! Racing accumulation: workers add to cells, lower or raise them, or set, keep or flip their bits, side by side, and no contribution is lost.
#![tactic(auto)]

pub mod begin;
mod halves;
pub mod laws;
mod part;
pub mod pass;
mod rooms;
pub mod rule;
pub mod seat;
mod steps;
mod teams;

pub use begin::Start;
pub use seat::{AccPass, AccSeat};
