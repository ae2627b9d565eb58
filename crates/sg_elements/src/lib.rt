//! The active coordinates of a store, as a list in row order, and how many they are.
#![tactic(auto)]

mod branches;
mod dense;
pub mod listing;
mod order;
mod reached;
mod ways;

pub use listing::{active_count, active_count_by_workers, elements, elements_by_workers};
