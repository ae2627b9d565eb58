//! Pools: the numbers that the child containers of one node take, each of them live, on the free list, or not yet used.
#![tactic(auto)]

mod free_list;
pub mod laws;
mod live_row;
pub mod pool;

pub use pool::Pool;
