//! Images of fields as plain PGM, and counts of what is active and live.
#![tactic(auto)]

pub mod counts;
pub mod grey;
pub mod pgm;

pub use counts::{stats, stats_by_workers};
pub use pgm::image;
