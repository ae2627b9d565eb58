//! Snapshots: the image of a flat state in bytes, and stores made from one.
#![tactic(auto)]

mod asking;
pub mod fault;
mod filling;
pub mod laws;
mod narrow;
pub mod part;
mod reading;
pub mod restoring;
pub mod saving;
#[cfg(test)]
mod tests;
mod writing;

pub use fault::SnapFault;
pub use part::Part;
pub use restoring::restore;
pub use saving::save;
