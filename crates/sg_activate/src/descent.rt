//! The descent: one race for the links and bits of all pointer and bitmasked nodes.
mod ended;
pub mod finish;
pub mod halves;
pub mod laws;
pub mod level;
pub mod pass;
mod plan;
pub mod rule;
pub mod seat;
pub mod start;
pub mod walk;

pub use seat::{DescentPass, DescentSeat};
pub use walk::Reach;
