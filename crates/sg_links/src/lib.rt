//! Disjoint lists over numbers, linked by one row of next numbers.
#![tactic(auto)]

mod head;
pub mod laws;
pub mod links;
pub mod memory;
mod order;
pub mod row;

pub use links::Links;
pub use memory::LinkMemory;
pub use row::Row;
