//! Which kernels are admitted, what is known of those that are, and which of them are neutral.
#![tactic(auto)]

mod admission;
pub mod admitted;
mod asks;
mod bounds;
mod boxes;
mod clean;
mod constants;
mod copies;
mod faults;
mod hangs;
pub mod laws;
mod marks;
mod neutral;
mod slices;
mod text;
pub mod ways;

pub use admission::admit;
pub use admitted::{AdmitFault, Admitted};
pub use neutral::is_neutral;
