//! The verdict on a journal of containers.
#![tactic(auto)]

mod auditing;
pub mod laws;
mod reading;
mod table;
mod tables;
#[cfg(test)]
mod tests;
mod verdict;

pub use auditing::audit;
pub use verdict::Verdict;
